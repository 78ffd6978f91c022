// The registers by value, and what is read from them of the whole screen.
//
// Follows registers.rs and ppu.rs, with their names. What is read of a background and of a window
// stands in the crates registers_bg and registers_windows.
#![tactic(auto)]

pub mod background;
pub mod constants;
pub mod inner;
pub mod screen_row;

ghost use Rattle.std.specs.Prelude.{◌≡◌};
ghost use Rattle.base_refusal.specs.Results.{means};
ghost use Rattle.registers.specs.Background.{IsBackground};
ghost use Rattle.registers.specs.ScreenRow.{IsScreenRow};
ghost use Rattle.registers.specs.Screen.{cleared, mode_of, direct_colour_set, blanked, brightness_of, sprite_interlace, layer_bit};

use background::Background;
use base_refusal::Refusal;
use constants::{BACKGROUNDS, LAYERS, SCREEN_HEIGHT};
use screen_row::ScreenRow;

// The register values, in the scene file's order; then the mosaic counter (lines left in the
// mosaic block) and the field (true in an odd frame), which the rules take as inputs.
#[derive(Clone, Copy, Default)]
pub struct PPURegisters {
    pub inidisp: u8,
    pub objsel: u8,
    pub oamadd: u16,
    pub bgmode: u8,
    pub mosaic: u8,
    pub bgsc: [u8; 4],
    pub bg12nba: u8,
    pub bg34nba: u8,
    pub bg1hofs: u16,
    pub bghofs: [u16; 3],
    pub bg1vofs: u16,
    pub bgvofs: [u16; 3],
    pub w12sel: u8,
    pub w34sel: u8,
    pub wobjsel: u8,
    pub wh0: u8,
    pub wh1: u8,
    pub wh2: u8,
    pub wh3: u8,
    pub wbglog: u8,
    pub wobjlog: u8,
    pub tm: u8,
    pub ts: u8,
    pub tmw: u8,
    pub tsw: u8,
    pub cgwsel: u8,
    pub cgadsub: u8,
    pub coldata: u16,
    pub setini: u8,
    pub mosaic_vcounter: u8,
    pub field: bool,
}

impl TryFrom<usize> for Background {
    type Error = Refusal;

    ghost try_from_gives = { IsBackground };

    fn try_from(number: usize) -> Result<Background, Refusal> {
        if number < BACKGROUNDS {
            Ok(Background { number })
        } else {
            Err(Refusal::Argument)
        }
    }
}

impl TryFrom<usize> for ScreenRow {
    type Error = Refusal;

    ghost try_from_gives = { IsScreenRow };

    fn try_from(number: usize) -> Result<ScreenRow, Refusal> {
        if number < SCREEN_HEIGHT {
            Ok(ScreenRow { number })
        } else {
            Err(Refusal::Row)
        }
    }
}

// A layer's bit of tm, ts, tmw or tsw.
fn layer_bit(value: u8, layer: usize) -> Result<bool, Refusal>
    ensures { means result ≡ layer_bit value layer }
{
    if layer < LAYERS {
        Ok(inner::bit(value, layer))
    } else {
        Err(Refusal::Argument)
    }
}

impl PPURegisters {
    // Every register cleared, the counter 0 and the field even.
    pub fn new() -> PPURegisters
        ensures { result ≡ cleared }
    {
        PPURegisters::default()
    }

    // The background mode, 0 to 7.
    pub fn bg_mode(self) -> u8
        ensures { result ≡ mode_of self }
    {
        self.bgmode % 8
    }

    // Do 8bpp backgrounds show direct colour?
    pub fn direct_color(self) -> bool
        ensures { result ≡ direct_colour_set self }
    {
        inner::bit(self.cgwsel, 0)
    }

    // Is forced blanking on?
    pub fn force_blank(self) -> bool
        ensures { result ≡ blanked self }
    {
        inner::bit(self.inidisp, 7)
    }

    // The brightness, 0 to 15.
    pub fn brightness(self) -> u8
        ensures { result ≡ brightness_of self }
    {
        self.inidisp % 16
    }

    // Is sprite interlace on, under which a sprite covers half as many rows?
    pub fn obj_interlace(self) -> bool
        ensures { result ≡ sprite_interlace self }
    {
        inner::bit(self.setini, 1)
    }

    // Is the layer (BG1-4 0 to 3, sprites 4) lit on the main screen?
    pub fn to_main(self, layer: usize) -> Result<bool, Refusal>
        ensures { means result ≡ layer_bit self.tm layer }
    {
        layer_bit(self.tm, layer)
    }

    // Is it lit on the sub screen?
    pub fn to_sub(self, layer: usize) -> Result<bool, Refusal>
        ensures { means result ≡ layer_bit self.ts layer }
    {
        layer_bit(self.ts, layer)
    }

    // Does its window bar the layer from the main screen?
    pub fn win_main(self, layer: usize) -> Result<bool, Refusal>
        ensures { means result ≡ layer_bit self.tmw layer }
    {
        layer_bit(self.tmw, layer)
    }

    // Does it bar the layer from the sub screen?
    pub fn win_sub(self, layer: usize) -> Result<bool, Refusal>
        ensures { means result ≡ layer_bit self.tsw layer }
    {
        layer_bit(self.tsw, layer)
    }
}
