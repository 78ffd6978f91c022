// What the public calls of this crate stand on, for the crates above.
ghost use Rattle.std.specs.Prelude.{◌≡◌, cond, ◌<◌, get_or};
ghost use Rattle.bg_modes.specs.Modes.{mode1, lacks, bg_mode_of, params_of};

use crate::BgMode;
use bg_map::BgParams;
use bg_map::inner::BgDrawn;
use line_pixels::{Layer, Priority};
use registers::PPURegisters;
use registers::background::Background;
use registers::inner::bit;
use registers_bg::inner::{
    bg_scroll, bg_tile16, bg_tiledata_addr, bg_tilemap_addr, bg_tilemap_size,
};
use registers_mosaic::inner::bg_mosaic;
use tiles::BitDepth;

// A background that a mode lacks.
const LACKS: BgMode = BgMode {
    present: false,
    bpp: BitDepth::Two,
    own_palettes: false,
    low: 0,
    high: 0,
};

// The table of modes, BG1 to BG4.
const MODE_0: [BgMode; 4] = [MODE_0_BG1, MODE_0_BG2, MODE_0_BG3, MODE_0_BG4];

const MODE_1: [BgMode; 4] = [MODE_1_BG1, MODE_1_BG2, MODE_1_BG3, LACKS];

// Mode 1 with bgmode bit 3: BG3's high priority is greater than all others.
const MODE_1_LIFTED: [BgMode; 4] = [MODE_1_BG1, MODE_1_BG2, MODE_1_BG3_LIFTED, LACKS];

const MODE_3: [BgMode; 4] = [MODE_3_BG1, MODE_3_BG2, LACKS, LACKS];

const MODE_0_BG1: BgMode = BgMode {
    present: true,
    bpp: BitDepth::Two,
    own_palettes: true,
    low: 8,
    high: 11,
};

const MODE_0_BG2: BgMode = BgMode {
    present: true,
    bpp: BitDepth::Two,
    own_palettes: true,
    low: 7,
    high: 10,
};

const MODE_0_BG3: BgMode = BgMode {
    present: true,
    bpp: BitDepth::Two,
    own_palettes: true,
    low: 2,
    high: 5,
};

const MODE_0_BG4: BgMode = BgMode {
    present: true,
    bpp: BitDepth::Two,
    own_palettes: true,
    low: 1,
    high: 4,
};

const MODE_1_BG1: BgMode = BgMode {
    present: true,
    bpp: BitDepth::Four,
    own_palettes: false,
    low: 8,
    high: 11,
};

const MODE_1_BG2: BgMode = BgMode {
    present: true,
    bpp: BitDepth::Four,
    own_palettes: false,
    low: 7,
    high: 10,
};

const MODE_1_BG3: BgMode = BgMode {
    present: true,
    bpp: BitDepth::Two,
    own_palettes: false,
    low: 2,
    high: 5,
};

const MODE_1_BG3_LIFTED: BgMode = BgMode {
    present: true,
    bpp: BitDepth::Two,
    own_palettes: false,
    low: 2,
    high: 13,
};

const MODE_3_BG1: BgMode = BgMode {
    present: true,
    bpp: BitDepth::Eight,
    own_palettes: false,
    low: 5,
    high: 11,
};

const MODE_3_BG2: BgMode = BgMode {
    present: true,
    bpp: BitDepth::Four,
    own_palettes: false,
    low: 2,
    high: 8,
};

// What mode 1 has of background bg.
fn mode_1(lifted: bool, bg: Background) -> BgMode
    ensures { result ≡ get_or (mode1 (cond lifted 13 5)) bg.number lacks }
{
    if lifted {
        MODE_1_LIFTED[bg.number]
    } else {
        MODE_1[bg.number]
    }
}

// What the mode has of background bg. Modes 2 and 4 to 7 draw as mode 1.
#[tactic(auto, unfolding(crate::specs::Modes::bg_mode_of, crate::specs::Modes::mode_rows))]
pub fn bg_mode(bgmode: u8, bg: Background) -> BgMode
    ensures { result ≡ bg_mode_of bgmode bg.number }
{
    match bgmode % 8 {
        0 => MODE_0[bg.number],
        3 => MODE_3[bg.number],
        _ => mode_1(bit(bgmode, 3), bg),
    }
}

// The parameters by which background bg is drawn.
#[tactic(auto, unfolding(crate::specs::Modes::params_of))]
pub fn bg_params(r: PPURegisters, bg: Background) -> BgDrawn
    ensures { result.params ≡ params_of r bg.number }
{
    let mode = bg_mode(r.bgmode, bg);
    let size = bg_tilemap_size(r, bg);
    let scroll = bg_scroll(r, bg);
    let params = BgParams {
        tilemap_base: bg_tilemap_addr(r, bg),
        tiledata_base: bg_tiledata_addr(r, bg.number),
        scroll_x: scroll.x,
        scroll_y: scroll.y,
        bpp: mode.bpp,
        own_palettes: mode.own_palettes,
        w64: size.w64,
        h64: size.h64,
        tile16: bg_tile16(r, bg),
        mosaic: bg_mosaic(r, bg),
        z_low: Priority::new(mode.low),
        z_high: Priority::new(mode.high),
        layer: Layer::from(bg),
        to_main: mode.present & bit(r.tm, bg.number),
        to_sub: mode.present & bit(r.ts, bg.number),
    };
    BgDrawn { params }
}
