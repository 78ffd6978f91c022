// The registers of a scene.
use registers::PPURegisters;
use registers::background::Background;
use test_replay::drawing::low;
use test_replay::section;

// Mode 0, mode 3, mode 1 and one of the modes that draw as mode 1, in turn.
const MODES: [u8; 20] = [0, 3, 1, 2, 0, 3, 1, 4, 0, 3, 1, 5, 0, 3, 1, 6, 0, 3, 1, 7];

// Which bytes of the numbers drawn the registers have: the mode, mosaic, the maps, the tiles, the scrolls,
// the windows of backgrounds, tmw, tsw and coldata.
const ORDER: [u8; 48] = [
    0, 0, 0, 0, 1, 2, 3, 4, 5, 6, 7, 8, 9, 10, 11, 12, 13, 14, 15, 16, 17, 18, 19, 20, 21, 22, 23,
    24, 25, 26, 0, 27, 28, 29, 30, 33, 0, 0, 0, 31, 32, 0, 0, 35, 36, 0, 0, 0,
];

// Registers of every value, for which 18 numbers are drawn; direct colour off and on in turn. In some
// scenes all mosaics are on, their size is large and the vertical scrolls are small, so that lines from
// above the map are shown.
pub(crate) fn registers(n: u16, seed: u32) -> PPURegisters {
    let mut r = section::registers(ORDER, seed);
    r.bgmode = r.bgmode & !7 | MODES[usize::from(n % 20)];
    r.cgwsel = low(n / 8 % 2);
    if n / 4 % 7 == 6 {
        r.mosaic = r.mosaic | 0x8f;
        r.bg1vofs = r.bg1vofs % 4;
        r.bgvofs = r.bgvofs.map(|v| v % 4);
    }
    r
}

// Among the backgrounds of a mode, each in turn.
pub(crate) fn background(mode: u8, turn: usize) -> Background {
    let number = match mode {
        0 => turn % 4,
        3 => turn % 2,
        _ => turn % 3,
    };
    Background { number }
}
