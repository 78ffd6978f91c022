// The memories that the scenes are drawn from.
ghost use Rattle.std.specs.Prelude.{◌≡◌, cond};
ghost use Rattle.std.specs.Int.Bits.{bit_and};
ghost use Rattle.test_replay.specs.Memory.{runs_of, picture_of, sprite_tiles_of, held_of, vram_of};

use test_numbers::{next, word};

// What VRAM is filled with: any words; runs; a picture of few tiles; the tiles of sprites.
#[derive(Clone, Copy)]
pub enum Filling {
    Any,
    Runs,
    Picture,
    Sprites,
}

// Nothing, few bits or many.
fn sparse(none: bool, few: bool, a: u16, b: u16) -> u16
    ensures { result ≡ cond none 0 (cond few (bit_and a b) a) }
{
    if none {
        0
    } else if few {
        a & b
    } else {
        a
    }
}

// In runs of 16 words.
fn runs(i: usize, a: u16, b: u16) -> u16
    ensures { result ≡ runs_of i a b }
{
    let k = i / 16 % 8;
    sparse(k == 0, (k == 1) | (k == 3) | (k == 5), a, b)
}

// Eight maps, in which three of four entries are tile 0 and the others are of 64 tiles. Then tiles in
// turn of nothing, few bits, one colour and many; the first is empty wherever a background's begin.
fn picture(i: usize, a: u16, b: u16) -> u16
    ensures { result ≡ picture_of i a b }
{
    let k = i / 32 % 4;
    if i < 8192 {
        return if b % 4 == 0 {
            a / 1024 * 1024 + a % 64
        } else {
            0
        };
    }
    let flat = if b % 2 == 0 { 0xff00 } else { 0x00ff };
    let many = if k == 2 { flat } else { a };
    sparse((k == 0) | (i % 4096 < 32), k == 1, many, b)
}

// The first words are a row of a map with low entries, one with high entries and their tile: the oracle
// reads priorities by them. Then come nothing, few bits, rows with nothing and many, in runs of 16 words.
fn sprites(i: usize, a: u16, b: u16) -> u16
    ensures { result ≡ sprite_tiles_of i a b }
{
    let k = i / 16 % 4;
    match i {
        0..32 => 0x0008,
        32..64 => 0x2008,
        64..72 => 0xffff,
        _ => sparse((k == 0) | ((k == 2) & (b % 4 == 0)), k == 1, a, b),
    }
}

// What VRAM holds at i, of two numbers.
fn held(filling: Filling, i: usize, a: u16, b: u16) -> u16
    ensures { result ≡ held_of filling i a b }
{
    match filling {
        Filling::Any => a,
        Filling::Runs => runs(i, a, b),
        Filling::Picture => picture(i, a, b),
        Filling::Sprites => sprites(i, a, b),
    }
}

// VRAM, for which two numbers are drawn for each word.
pub fn vram(filling: Filling, seed: u32) -> [u16; 32768]
    ensures { result ≡ vram_of filling seed }
{
    let mut words = [0u16; 32768];
    let mut x = seed;
    for (i, place) in words.iter_mut().enumerate() {
        let a = next(x);
        x = next(a);
        *place = held(filling, i, word(a), word(x));
    }
    words
}
