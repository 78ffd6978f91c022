// The windows at ten layouts of their edges.
ghost use Rattle.std.specs.Prelude.{◌<◌};

use crate::answers::bit;
use registers::PPURegisters;
use test_replay::hex;

// The left and right edges of window 1 and of window 2, and what the other windows' bits of the
// registers are filled with.
const LAYOUTS: [([u8; 4], u8); 10] = [
    ([40, 140, 100, 200], 0x00),
    ([10, 60, 120, 180], 0xff),
    ([20, 230, 90, 110], 0xa5),
    ([90, 110, 20, 230], 0x5a),
    ([77, 77, 78, 78], 0x3c),
    ([150, 50, 30, 90], 0xc3),
    ([30, 90, 150, 50], 0x96),
    ([0, 255, 255, 0], 0x69),
    ([0, 0, 255, 255], 0x0f),
    ([1, 254, 128, 127], 0xf0),
];

// What is asked of a column: a background's window, that of the sprites, that of colour, or window 1
// or window 2 alone.
#[derive(Clone, Copy)]
enum Asked {
    Background(usize),
    Sprites,
    Colour,
    First,
    Second,
}

// The windows that have bits of their own in the registers, in the order of these.
const WINDOWS: [Asked; 6] = [
    Asked::Background(0),
    Asked::Background(1),
    Asked::Background(2),
    Asked::Background(3),
    Asked::Sprites,
    Asked::Colour,
];

// The registers of a layout, in which one of the windows has these four bits and this logic. Every
// other window's bits are the fill's.
fn window(edges: [u8; 4], fill: u8, which: usize, bits: u8, by: u8) -> PPURegisters {
    let mut selects = [fill; 3];
    if let Some(select) = selects.get_mut(which / 2) {
        let at = which % 2 * 4;
        *select = *select & !(0x0f << at) | bits << at;
    }
    let mut logics = [fill; 2];
    if let Some(logic) = logics.get_mut(which / 4) {
        let at = which % 4 * 2;
        *logic = *logic & !(0x03 << at) | by << at;
    }
    let [wh0, wh1, wh2, wh3] = edges;
    let [w12sel, w34sel, wobjsel] = selects;
    let [wbglog, wobjlog] = logics;
    PPURegisters {
        wh0,
        wh1,
        wh2,
        wh3,
        w12sel,
        w34sel,
        wobjsel,
        wbglog,
        wobjlog,
        ..PPURegisters::new()
    }
}

fn says(r: PPURegisters, asked: Asked, x: usize) -> u64
    ensures { result < 2 }
{
    match asked {
        Asked::Background(bg) => bit(registers_windows::bg_window_masked(r, bg, x)),
        Asked::Sprites => bit(registers_windows::obj_window_masked(r, x)),
        Asked::Colour => bit(registers_windows::in_color_window(r, x)),
        Asked::First => bit(registers_windows::in_window1(r, x)),
        Asked::Second => bit(registers_windows::in_window2(r, x)),
    }
}

// A bit for each of 14 columns: each edge, the column before it and the one after it, as far as there
// are such, then 0 and 255.
fn columns(r: PPURegisters, asked: Asked) -> u64 {
    let mut bits: u64 = 0;
    for edge in [r.wh0, r.wh1, r.wh2, r.wh3] {
        for x in [edge.saturating_sub(1), edge, edge.saturating_add(1)] {
            bits = bits << 1 | says(r, asked, usize::from(x));
        }
    }
    for x in [0, 255] {
        bits = bits << 1 | says(r, asked, x);
    }
    bits
}

// Window 1 and window 2; then every window at each logic, and for each the sixteen settings.
fn show(edges: [u8; 4], fill: u8) {
    let plain = window(edges, fill, 0, 0, 0);
    io::print_hex(1, columns(plain, Asked::First), 4);
    hex(columns(plain, Asked::Second), 4, b'\n');
    for (which, asked) in WINDOWS.into_iter().enumerate() {
        for by in 0..4 {
            for bits in 0..16 {
                hex(
                    columns(window(edges, fill, which, bits, by), asked),
                    4,
                    b'\n',
                );
            }
        }
    }
}

pub(crate) fn masks() {
    for (edges, fill) in LAYOUTS {
        show(edges, fill);
    }
}
