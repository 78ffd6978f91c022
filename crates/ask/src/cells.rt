// The numbers of a script that have a name: the registers, a background's parameters, the lengths that
// are lent, the port and the flags, and the arguments of a statement.
ghost use Rattle.std.specs.Prelude.{◌<◌, ◌≤◌};

use bg_map::BgParams;
use line_pixels::{Layer, Priority};
use registers::PPURegisters;
use test_script::place;
use tiles::BitDepth;

const CELLS: usize = 112;

pub(crate) type Cells = [u64; CELLS];

// What a statement can set for those after it.
#[derive(Clone, Copy)]
pub(crate) enum Setting {
    Registers,
    Background,
    Lengths,
    Port,
}

// Where each kind of names begins, after the registers. What follows the last name is no argument: the
// flags and the number of the line.
const PARAMS: usize = 40;

const LENT: usize = 56;

pub(crate) const VRAM: usize = 56;

pub(crate) const CGRAM: usize = 57;

pub(crate) const OAM: usize = 58;

pub(crate) const LENT_ROW: usize = 59;

pub(crate) const PICTURE: usize = 60;

pub(crate) const SECOND: usize = 61;

pub(crate) const FILE: usize = 62;

pub(crate) const OUT: usize = 63;

const PORT: usize = 64;

pub(crate) const ADDRESS: usize = 64;

pub(crate) const LATCH: usize = 65;

pub(crate) const TIME: usize = 66;

pub(crate) const RANGE: usize = 67;

pub(crate) const LINE: usize = 68;

const ARGUMENTS: usize = 72;

pub(crate) const ROW: usize = 72;

pub(crate) const COLUMN: usize = 73;

pub(crate) const TO: usize = 74;

pub(crate) const FROM: usize = 75;

pub(crate) const CHOICE: usize = 76;

pub(crate) const VALUE: usize = 77;

pub(crate) const COLOR: usize = 78;

pub(crate) const LAYER: usize = 79;

pub(crate) const Z: usize = 80;

pub(crate) const PRIO: usize = 81;

pub(crate) const MATH: usize = 82;

pub(crate) const CLEAR: usize = 83;

pub(crate) const X9: usize = 84;

pub(crate) const TOP: usize = 85;

pub(crate) const TILE: usize = 86;

pub(crate) const ATTR: usize = 87;

pub(crate) const LARGE: usize = 88;

pub(crate) const KEEP: usize = 89;

pub(crate) const X: usize = 90;

pub(crate) const Y: usize = 91;

pub(crate) const BPP: usize = 92;

pub(crate) const INDEX: usize = 93;

pub(crate) const PALETTE: usize = 94;

pub(crate) const MAIN: usize = 95;

pub(crate) const SUB: usize = 96;

pub(crate) const SUBTRACT: usize = 97;

pub(crate) const HALF: usize = 98;

pub(crate) const LEVEL: usize = 99;

pub(crate) const OVER_TIME: usize = 100;

pub(crate) const OVER_RANGE: usize = 101;

pub(crate) const FILL: usize = 102;

pub(crate) const STEP: usize = 103;

pub(crate) const TELLS: usize = 104;

pub(crate) const COUNT: usize = 105;

const ANY: u64 = 18446744073709551615;

// The greatest value of each cell.
const MOST: Cells = [
    255, 255, 65535, 255, 255, 255, 255, 255, 255, 255, 255, 65535, 65535, 65535, 65535, 65535,
    65535, 65535, 65535, 255, 255, 255, 255, 255, 255, 255, 255, 255, 255, 255, 255, 255, 255, 255,
    65535, 255, 255, 1, 0, 0, 65535, 65535, 65535, 65535, 8, 1, 1, 1, 1, 1, 255, 255, 5, 1, 1, 0,
    32769, 257, 545, 769, 172033, 172033, 70000, 66657, 65535, 255, 0, 0, 0, 0, 0, 0, ANY, ANY,
    ANY, 255, ANY, 255, 65535, 5, 255, 255, 1, 1, 511, 255, 255, 255, 1, 1, ANY, ANY, 8, 255, 255,
    65535, 65535, 1, 1, 65535, 1, 1, 65535, 1, 1, 1, 0, 0, 0, 0, 0, 0,
];

pub(crate) fn byte(v: u64) -> u8 {
    (v % 256) as u8
}

pub(crate) fn word(v: u64) -> u16 {
    (v % 65536) as u16
}

// The k-th of some names, which begin at a cell.
fn named(first: usize, k: usize, names: usize) -> Option<usize>
    requires { first < 112 }
{
    if k < names {
        Some(first + k % 64)
    } else {
        None
    }
}

// The cell that a name has where this is set, or as an argument.
pub(crate) fn cell_of(set: Option<Setting>, s: &[u8], from: usize, to: usize) -> Option<usize> {
    match set {
        Some(Setting::Registers) => {
            let k = place(
                b"inidisp objsel oamadd bgmode mosaic bg1sc bg2sc bg3sc bg4sc bg12nba bg34nba bg1hofs bg2hofs bg3hofs bg4hofs bg1vofs bg2vofs bg3vofs bg4vofs w12sel w34sel wobjsel wh0 wh1 wh2 wh3 wbglog wobjlog tm ts tmw tsw cgwsel cgadsub coldata setini counter field",
                s,
                from,
                to,
            );
            named(0, k, 38)
        }
        Some(Setting::Background) => {
            let k = place(
                b"map tiles scroll-x scroll-y bpp own w64 h64 side16 mosaic low high layer main sub",
                s,
                from,
                to,
            );
            named(PARAMS, k, 15)
        }
        Some(Setting::Lengths) => {
            let k = place(b"vram cgram oam row picture second file out", s, from, to);
            named(LENT, k, 8)
        }
        Some(Setting::Port) => {
            let k = place(b"address latch", s, from, to);
            named(PORT, k, 2)
        }
        None => {
            let k = place(
                b"row column to from choice value color layer z prio math clear x9 top tile attr large keep x y bpp index palette main sub subtract half level time range fill step tells count",
                s,
                from,
                to,
            );
            named(ARGUMENTS, k, 34)
        }
    }
}

// Gives a cell a value; None where it may not have it.
pub(crate) fn set(c: &mut Cells, k: usize, value: u64) -> Option<()> {
    if value > *MOST.get(k)? {
        return None;
    }
    *c.get_mut(k)? = value;
    Some(())
}

// The lengths that memories have where nothing else is lent.
fn lend_all(c: &mut Cells) {
    c[VRAM] = 32768;
    c[CGRAM] = 256;
    c[OAM] = 544;
    c[LENT_ROW] = 768;
    c[PICTURE] = 172032;
    c[SECOND] = 172032;
    c[FILE] = 66656;
    c[OUT] = 66656;
}

// Every register and parameter cleared, and the right lengths, at a line.
pub(crate) fn fresh(line: u64) -> Cells {
    let mut c = [0; CELLS];
    c[LINE] = line;
    lend_all(&mut c);
    c
}

// The cells with no argument.
pub(crate) fn without(cells: &Cells) -> Cells {
    let mut c = *cells;
    c[ARGUMENTS..].fill(0);
    c
}

// Goes on to the next line. The lengths that are lent hold for one line.
pub(crate) fn next_line(c: &mut Cells) {
    lend_all(c);
    c[LINE] = c[LINE] % 1000000 + 1;
}

// The registers: their cells are in the order of their names.
pub(crate) fn registers(c: &Cells) -> PPURegisters {
    PPURegisters {
        inidisp: byte(c[0]),
        objsel: byte(c[1]),
        oamadd: word(c[2]),
        bgmode: byte(c[3]),
        mosaic: byte(c[4]),
        bgsc: [byte(c[5]), byte(c[6]), byte(c[7]), byte(c[8])],
        bg12nba: byte(c[9]),
        bg34nba: byte(c[10]),
        bg1hofs: word(c[11]),
        bghofs: [word(c[12]), word(c[13]), word(c[14])],
        bg1vofs: word(c[15]),
        bgvofs: [word(c[16]), word(c[17]), word(c[18])],
        w12sel: byte(c[19]),
        w34sel: byte(c[20]),
        wobjsel: byte(c[21]),
        wh0: byte(c[22]),
        wh1: byte(c[23]),
        wh2: byte(c[24]),
        wh3: byte(c[25]),
        wbglog: byte(c[26]),
        wobjlog: byte(c[27]),
        tm: byte(c[28]),
        ts: byte(c[29]),
        tmw: byte(c[30]),
        tsw: byte(c[31]),
        cgwsel: byte(c[32]),
        cgadsub: byte(c[33]),
        coldata: word(c[34]),
        setini: byte(c[35]),
        mosaic_vcounter: byte(c[36]),
        field: c[37] == 1,
    }
}

// BG1 to BG4, sprites, the backdrop.
pub(crate) fn layer(n: u64) -> Layer {
    match n {
        0 => Layer::Bg1,
        1 => Layer::Bg2,
        2 => Layer::Bg3,
        3 => Layer::Bg4,
        4 => Layer::Obj,
        _ => Layer::Backdrop,
    }
}

pub(crate) fn depth(bpp: u64) -> BitDepth {
    match bpp {
        2 => BitDepth::Two,
        4 => BitDepth::Four,
        _ => BitDepth::Eight,
    }
}

// The parameters of a background that is drawn by itself.
pub(crate) fn params(c: &Cells) -> BgParams {
    BgParams {
        tilemap_base: word(c[PARAMS]),
        tiledata_base: word(c[PARAMS + 1]),
        scroll_x: word(c[PARAMS + 2]),
        scroll_y: word(c[PARAMS + 3]),
        bpp: depth(c[PARAMS + 4]),
        own_palettes: c[PARAMS + 5] == 1,
        w64: c[PARAMS + 6] == 1,
        h64: c[PARAMS + 7] == 1,
        tile16: c[PARAMS + 8] == 1,
        mosaic: c[PARAMS + 9] == 1,
        z_low: Priority::new(byte(c[PARAMS + 10])),
        z_high: Priority::new(byte(c[PARAMS + 11])),
        layer: layer(c[PARAMS + 12]),
        to_main: c[PARAMS + 13] == 1,
        to_sub: c[PARAMS + 14] == 1,
    }
}

// A length that is lent, within what there is.
pub(crate) fn lent(wanted: u64, there: usize) -> usize
    ensures { result ≤ there }
{
    (wanted as usize).min(there)
}
