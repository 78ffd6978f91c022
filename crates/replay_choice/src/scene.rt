// The sprite memories that are searched.
use test_replay::drawing::drawn;
use test_replay::inner::sprites;
use test_replay::placing::{Drawn, Place, column, write};

// A kind of scenes: any column and top; a crowd at the first row; tops from 240 on.
#[derive(Clone, Copy)]
pub(crate) enum Kind {
    Any,
    Crowd,
    Above,
}

fn place(kind: Kind) -> Place {
    match kind {
        Kind::Any => Place::Any,
        Kind::Crowd | Kind::Above => Place::Edge,
    }
}

fn top(kind: Kind, first: u8, c: u16) -> u16 {
    match kind {
        Kind::Any => c,
        Kind::Crowd => u16::from(first) + c % 16,
        Kind::Above => 240 + c % 16,
    }
}

// A scene of a kind, for which 512 numbers are drawn.
pub(crate) fn fill(kind: Kind, first: u8, seed: u32) -> [u8; 544] {
    sprites(
        seed,
        |n| Drawn {
            place: place(kind),
            top: top(kind, first, n.c),
            large: n.a / 32 % 2 == 1,
        },
    )
}

// Every sprite left of the picture.
pub(crate) fn hide(row: u8) -> [u8; 544] {
    let mut oam = [0u8; 544];
    for i in 0..128 {
        write(&mut oam, i, 300, u16::from(row), 0, false);
    }
    oam
}

// One sprite more that meets the row, for which four numbers are drawn.
pub(crate) fn pile(oam: &mut [u8; 544], i: usize, row: u8, mixed: bool, seed: u32) {
    let n = drawn(seed);
    let x9 = column(Place::NearEdge, n.a, n.b);
    let top = u16::from(row) + 256 - n.c % 4;
    write(oam, i, x9, top, n.d, mixed & (n.a / 32 % 2 == 1));
}
