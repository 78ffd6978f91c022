// A scene, its registers, of every value, and its sprites.
use crate::kinds::Kind;
use registers::PPURegisters;
use test_replay::drawing::nth;
use test_replay::placing::{Drawn, Place};
use test_replay::{inner, section};

// A scene: the memories and the registers.
#[derive(Clone, Copy)]
pub(crate) struct Scene<'a> {
    pub(crate) vram: &'a [u16],
    pub(crate) cgram: &'a [u16; 256],
    pub(crate) oam: &'a [u8],
    pub(crate) regs: PPURegisters,
}

// Modes 0, 1 and 3 and one of the modes that draw as mode 1, in turn.
const MODES: [u8; 20] = [0, 1, 3, 2, 0, 1, 3, 4, 0, 1, 3, 5, 0, 1, 3, 6, 0, 1, 3, 7];

// Forced blank in two scenes; the full brightness in half of the others, 4 or more in the rest.
fn light(n: usize, byte: u8) -> u8 {
    if (n == 40) | (n == 101) {
        return byte | 128;
    }
    if n / 8 % 2 == 0 {
        return byte % 128 / 16 * 16 + 15;
    }
    byte % 128 / 16 * 16 + 4 + byte % 12
}

// Which bytes of the numbers drawn the registers have.
const ORDER: [u8; 48] = [
    1, 2, 3, 4, 5, 6, 9, 10, 11, 12, 13, 14, 15, 16, 17, 18, 19, 20, 21, 22, 23, 24, 25, 26, 27,
    28, 29, 30, 31, 32, 33, 35, 36, 37, 38, 39, 34, 41, 42, 43, 44, 45, 46, 47, 48, 40, 7, 8,
];

// The registers of scene n, for which 24 numbers are drawn.
pub(crate) fn registers(n: usize, seed: u32) -> PPURegisters {
    let mut r = section::registers(ORDER, seed);
    r.inidisp = light(n, r.inidisp);
    r.bgmode = r.bgmode & !7 | MODES[(n / 8 + n % 8) % 20];
    r.mosaic_vcounter = r.mosaic_vcounter % 17;
    r.field = nth(4, seed) / 256 % 2 == 1;
    r
}

// A sprite of a crowd stands at an edge or across the picture. Of a picture's sprites three of four
// stand left of it.
fn place(kind: Kind, a: u16) -> Place {
    match kind {
        Kind::Sprites if a / 64 % 2 == 0 => Place::Edge,
        Kind::Sprites => Place::Across,
        Kind::Picture if a / 64 % 4 != 0 => Place::Hidden,
        _ => Place::Any,
    }
}

fn top(kind: Kind, turn: u8, c: u16) -> u16 {
    if kind == Kind::Sprites {
        u16::from(turn % 4) * 48 + c % 64
    } else {
        c
    }
}

// Sprite memory, for which 512 numbers are drawn.
pub(crate) fn sprites(kind: Kind, turn: u8, seed: u32) -> [u8; 544] {
    inner::sprites(
        seed,
        |n| Drawn {
            place: place(kind, n.a),
            top: top(kind, turn, n.c),
            large: n.a / 32 % 2 == 1,
        },
    )
}
