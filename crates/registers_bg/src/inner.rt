// What the public calls of this crate stand on, for the crates above.
ghost use Rattle.std.specs.Prelude.{◌≡◌};
ghost use Rattle.registers_bg.specs.Backgrounds.{map_base, tile_base, map_size, of_four, scroll_of, tile16_of};

use crate::{MapSize, Scroll};
use registers::PPURegisters;
use registers::background::Background;
use registers::inner::{bit, nibble};

pub fn bg_tilemap_addr(r: PPURegisters, bg: Background) -> u16
    ensures { result ≡ map_base r bg.number }
{
    (r.bgsc[bg.number] / 4 % 32) as u16 * 1024
}

// Of every number: it reads no array.
pub fn bg_tiledata_addr(r: PPURegisters, bg: usize) -> u16
    ensures { result ≡ tile_base r bg }
{
    (nibble(r.bg12nba, r.bg34nba, bg) % 8) as u16 * 4096
}

pub fn bg_tilemap_size(r: PPURegisters, bg: Background) -> MapSize
    ensures { result ≡ map_size r bg.number }
{
    let byte = r.bgsc[bg.number];
    MapSize {
        w64: bit(byte, 0),
        h64: bit(byte, 1),
    }
}

// Background bg's of four numbers, of which BG1's is held apart.
fn one_of_four(first: u16, others: [u16; 3], bg: Background) -> u16
    ensures { result ≡ of_four first others bg.number }
{
    if bg.number == 0 {
        first
    } else {
        others[bg.number - 1]
    }
}

pub fn bg_scroll(r: PPURegisters, bg: Background) -> Scroll
    ensures { result ≡ scroll_of r bg.number }
{
    Scroll {
        x: one_of_four(r.bg1hofs, r.bghofs, bg),
        y: one_of_four(r.bg1vofs, r.bgvofs, bg),
    }
}

pub fn bg_tile16(r: PPURegisters, bg: Background) -> bool
    ensures { result ≡ tile16_of r bg.number }
{
    bit(r.bgmode, 4 + bg.number)
}
