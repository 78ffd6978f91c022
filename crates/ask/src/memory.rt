// The memories that a script writes.
ghost use Rattle.std.specs.Prelude.{◌≤◌};

use crate::cells;
use crate::cells::Cells;
use crate::statement::{Statement, among};
use test_digest::second_table_byte;

// What can be written.
#[derive(Clone, Copy)]
pub(crate) enum Target {
    Vram,
    Cgram,
    Oam,
    Sprites,
}

// The memories, each with one element more than its right length.
#[derive(Clone, Copy)]
pub(crate) struct Memories {
    vram: [u16; 32769],
    cgram: [u16; 257],
    pub(crate) oam: [u8; 545],
}

// What is lent of them.
#[derive(Clone, Copy)]
pub(crate) struct Lent<'a> {
    pub(crate) vram: &'a [u16],
    pub(crate) cgram: &'a [u16],
    pub(crate) oam: &'a [u8],
}

impl Memories {
    pub(crate) fn new() -> Memories {
        Memories {
            vram: [0; 32769],
            cgram: [0; 257],
            oam: [0; 545],
        }
    }

    pub(crate) fn lent(&self, c: &Cells) -> Lent<'_> {
        Lent {
            vram: &self.vram[..cells::lent(c[cells::VRAM], self.vram.len())],
            cgram: &self.cgram[..cells::lent(c[cells::CGRAM], self.cgram.len())],
            oam: &self.oam[..cells::lent(c[cells::OAM], self.oam.len())],
        }
    }

    pub(crate) fn write(&mut self, target: Target, q: &Statement) {
        match target {
            Target::Vram => words(&mut self.vram, q),
            Target::Cgram => words(&mut self.cgram, q),
            Target::Oam => bytes(&mut self.oam, q),
            Target::Sprites => sprites(&mut self.oam, q.first(), &q.cells),
        }
    }
}

// What an index has in a plane pair, at the tile's leftmost pixel.
fn planes(index: u16, pair: u16) -> u16
    ensures { result ≤ 32896 }
{
    if pair == 0 {
        index % 2 * 128 + index / 2 % 2 * 32768
    } else {
        index / 4 % 2 * 128 + index / 8 % 2 * 32768
    }
}

// VRAM in which a tile of 4bpp shows which it is: the indexes of its row are both digits of its number,
// 8 plus the row, 1 plus the table (of 256 tiles, from word 0 on), and 4 to 7.
fn told(at: u16) -> u16 {
    let pair = at / 8 % 2;
    let number = planes(at / 256 % 16, pair) + planes(at / 16 % 16, pair) / 2;
    let place = planes(8 + at % 8, pair) / 4 + planes(1 + at / 4096, pair) / 8;
    let third = planes(4, pair) / 16 + planes(5, pair) / 32;
    number + place + third + planes(6, pair) / 64 + planes(7, pair) / 128
}

// A word of a memory that is filled with one value, with each one more than the word before it, or with
// tiles that show which they are.
fn filled(i: usize, c: &Cells) -> u16 {
    let at = (i % 65536) as u16;
    let first = cells::word(c[cells::FILL]);
    if c[cells::TELLS] == 1 {
        told(at)
    } else if c[cells::STEP] == 1 {
        first.wrapping_add(at)
    } else {
        first
    }
}

// What a place holds after the statement, which fills a memory, or writes its numbers from its first one
// on.
fn written(before: u16, i: usize, q: &Statement) -> u16 {
    let Some((first, values)) = q.list().split_first() else {
        return filled(i, &q.cells);
    };
    let Some(k) = (i as u64).checked_sub(*first) else {
        return before;
    };
    values
        .get(k as usize)
        .map_or(before, |value| cells::word(*value))
}

pub(crate) fn written_byte(before: u8, i: usize, q: &Statement) -> u8 {
    (written(u16::from(before), i, q) % 256) as u8
}

fn words(memory: &mut [u16], q: &Statement) {
    for (i, word) in memory.iter_mut().enumerate() {
        *word = written(*word, i, q);
    }
}

// The same of bytes.
fn bytes(memory: &mut [u8], q: &Statement) {
    for (i, byte) in memory.iter_mut().enumerate() {
        *byte = written_byte(*byte, i, q);
    }
}

// The bits of a sprite in the second table: bit 8 of its column, and its size.
fn high(x9: u64, large: u64) -> u8 {
    (x9 / 256 % 2 + large % 2 * 2) as u8
}

// Byte i of the first table, of a sprite that the statement describes.
fn described(c: &Cells, i: usize) -> u8 {
    let bytes = [c[cells::X9], c[cells::TOP], c[cells::TILE], c[cells::ATTR]];
    cells::byte(bytes[i % 4])
}

// Writes one sprite or several.
fn sprites(oam: &mut [u8; 545], n: u64, c: &Cells) {
    for (i, byte) in oam.iter_mut().enumerate() {
        *byte = with_sprites(*byte, i, n, c);
    }
}

// What a byte of sprite memory holds after them.
fn with_sprites(before: u8, i: usize, n: u64, c: &Cells) -> u8 {
    if i < 512 {
        return if among(n, c, i / 4) {
            described(c, i)
        } else {
            before
        };
    }
    let bits = high(c[cells::X9], c[cells::LARGE]);
    let mut byte = before;
    for k in 0..4 {
        if among(n, c, i % 512 * 4 + k) {
            byte = second_table_byte(byte, k, bits);
        }
    }
    byte
}
