// The registers and the sprites of a scene.
use registers::PPURegisters;
use test_replay::drawing::{ends, low};
use test_replay::inner::sprites;
use test_replay::placing::{Drawn, Place};
use test_replay::section;

// Which bytes of the numbers drawn the registers have: objsel and setini, the windows of sprites, tmw, tsw
// and coldata.
const ORDER: [u8; 48] = [
    0, 1, 0, 0, 0, 0, 0, 0, 0, 0, 0, 0, 0, 0, 0, 0, 0, 0, 0, 0, 0, 0, 0, 0, 0, 0, 0, 0, 0, 0, 3, 5,
    6, 7, 8, 0, 4, 0, 0, 9, 10, 0, 0, 11, 12, 2, 0, 0,
];

// Every size, interlace off and on, both fields; the rest is drawn, of six numbers.
pub(crate) fn registers(n: u16, seed: u32) -> PPURegisters {
    let mut r = section::registers(ORDER, seed);
    r.objsel = low(n % 8) << 5 | r.objsel % 32;
    r.setini = r.setini & !2 | low(n / 8 % 2) << 1;
    r.field = n / 16 % 2 == 1;
    r
}

// A kind of scenes: any column and top; at the edges, around a row; at the edges, above the picture; a
// pile at the left; across the picture, at more lines.
#[derive(Clone, Copy, PartialEq, Eq)]
pub(crate) enum Kind {
    Any,
    Around,
    Above,
    Pile,
    Across,
}

// The kinds, in the order of their numbers.
const KINDS: [Kind; 5] = [
    Kind::Any,
    Kind::Around,
    Kind::Above,
    Kind::Pile,
    Kind::Across,
];

// The kind of scene n: 32 scenes of each, in turn.
pub(crate) fn kind_of(n: u16) -> Kind {
    KINDS[usize::from(n / 32 % 5)]
}

// The first row, the last one and any; row 0 for the kind whose sprites stand above the picture.
pub(crate) fn first_of(kind: Kind, drawn: u16) -> u8 {
    if kind == Kind::Above {
        return 0;
    }
    ends(u32::from(drawn % 8), 223, drawn / 8)
}

// A hidden sprite stands left of the picture.
fn place(kind: Kind, hidden: bool) -> Place {
    if hidden {
        return Place::Hidden;
    }
    match kind {
        Kind::Any => Place::Any,
        Kind::Around | Kind::Above => Place::Edge,
        Kind::Pile => Place::Pile,
        Kind::Across => Place::Across,
    }
}

fn top(kind: Kind, first: u8, c: u16) -> u16 {
    let first = u16::from(first);
    match kind {
        Kind::Any => c,
        Kind::Around => first + 256 - c % 16,
        Kind::Above => 240 + c % 16,
        Kind::Pile => first + 256 - c % 8,
        Kind::Across => first + 256 - c % 64,
    }
}

// The sprites of a scene, of which a part is hidden; in some scenes all are small. 512 numbers are
// drawn.
pub(crate) fn fill(kind: Kind, first: u8, about: u16, seed: u32) -> [u8; 544] {
    sprites(seed, |n| {
        let hidden = (kind != Kind::Any) & (n.a / 64 % 16 > about % 16);
        Drawn {
            place: place(kind, hidden),
            top: top(kind, first, n.c),
            large: (about / 16 % 4 != 0) & (n.a / 32 % 2 == 1),
        }
    })
}
