// Replays the oracle's list `oam`: the sprites that sprite memory describes, their sizes and their
// columns.
#![tactic(auto)]

use oam::Sprite;
use test_digest::{fold, marks, place, second_table_byte};
use test_numbers::{next, word};
use test_replay::drawing::low;
use test_replay::{hex, settle};

// The columns at which the rules change.
const EDGES: [u16; 8] = [0, 1, 255, 256, 257, 504, 505, 511];

// Random bytes.
fn filled(seed: u32) -> [u8; 544] {
    let mut oam = [0u8; 544];
    let mut x = seed;
    for byte in &mut oam {
        x = next(x);
        *byte = low(word(x));
    }
    oam
}

// The columns at the edges in either size, the attribute bytes the even or the odd ones.
fn arrange(oam: &mut [u8; 544], m: u8) {
    for i in 0..128 {
        let x = EDGES[i / 4 % 8];
        let bits = (x / 256 % 2) as u8 + (i / 32 % 2) as u8 * 2;
        oam[512 + i / 4] = second_table_byte(oam[512 + i / 4], i, bits);
        oam[i * 4] = low(x);
        oam[i * 4 + 3] = ((i * 2 + usize::from(m)) % 256) as u8;
    }
}

// Memory m: random bytes, from 2 on arranged.
fn memory(m: u8) -> [u8; 544] {
    let mut oam = filled(10 + u32::from(m));
    if m >= 2 {
        arrange(&mut oam, m);
    }
    oam
}

// Sprite i, blank on a refusal.
fn sprite(oam: &[u8], i: u8, objsel: u8) -> Sprite {
    settle(oam::get_sprite(oam, i, objsel)).unwrap_or(Sprite::blank())
}

// The 128 sprites of a memory, an objsel drawn for each.
fn show(oam: &[u8], seed: u32) -> u32 {
    let mut x = seed;
    for i in 0..128u8 {
        x = next(x);
        let s = sprite(oam, i, low(word(x)));
        io::print_hex(1, place(s), 12);
        hex(marks(s), 7, b'\n');
    }
    x
}

fn sprites() {
    let mut x: u32 = 9;
    for m in 0..6u8 {
        let oam = memory(m);
        x = show(&oam, x);
    }
}

// A digest of a memory's 128 sprites.
fn one_digest(oam: &[u8], objsel: u8) -> u32 {
    let mut d: u32 = 0;
    for i in 0..128u8 {
        let s = sprite(oam, i, objsel);
        d = fold(fold(d, place(s)), marks(s));
    }
    d
}

// Every objsel of each memory.
fn digests() {
    for m in 0..6u8 {
        let oam = memory(m);
        for objsel in 0..=255u8 {
            hex(u64::from(one_digest(&oam, objsel)), 8, b'\n');
        }
    }
}

fn size(objsel: u8, large: bool) -> u64 {
    let s = oam::sprite_size(objsel, large);
    u64::from(s.width) * 256 + u64::from(s.height)
}

// Width and height of the small size, then of the large one.
fn sizes() {
    for objsel in 0..=255u8 {
        io::print_hex(1, size(objsel, false), 4);
        hex(size(objsel, true), 4, b'\n');
    }
}

// A digest of the nine bits of 2,048 columns from 0 up, and of as many from -1 down.
fn columns(block: u16) -> u32 {
    let first = block % 16 * 2048;
    let mut d: u32 = 0;
    for n in 0..2048u16 {
        let x = (first + n) as i16;
        d = fold(
            fold(d, u64::from(oam::nine_bits(x))),
            u64::from(oam::nine_bits(!x)),
        );
    }
    d
}

fn main() {
    io::write_all(1, b"sprites\n");
    sprites();
    io::write_all(1, b"sprites digests\n");
    digests();
    io::write_all(1, b"sizes\n");
    sizes();
    io::write_all(1, b"columns digests\n");
    for block in 0..16u16 {
        hex(u64::from(columns(block)), 8, b'\n');
    }
}
