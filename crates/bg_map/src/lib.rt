// A background's parameters, the place of its map that a pixel of the screen shows, and the entries
// of the map. Follows renderer.rs, with its names.
#![tactic(auto)]

pub mod inner;

ghost use Rattle.std.specs.Prelude.{◌≡◌};
ghost use Rattle.bg_map.specs.Map.{entry_of};

use line_pixels::{Layer, Priority};
use tiles::BitDepth;

// What a background's row is drawn from, beside the registers that all backgrounds share.
#[derive(Clone, Copy, Debug, PartialEq, Eq)]
pub struct BgParams {
    // Word address of the map.
    pub tilemap_base: u16,
    // Word address of the characters.
    pub tiledata_base: u16,
    pub scroll_x: u16,
    pub scroll_y: u16,
    pub bpp: BitDepth,
    // Has the background 32 colours of its own, from 32b on? In mode 0 it has.
    pub own_palettes: bool,
    // Is the map 64 tiles wide, and not 32?
    pub w64: bool,
    // Is it 64 tiles tall?
    pub h64: bool,
    // Is the tile side 16, and not 8?
    pub tile16: bool,
    pub mosaic: bool,
    // The priorities of entries with bit 13 clear and set.
    pub z_low: Priority,
    pub z_high: Priority,
    pub layer: Layer,
    // Does tm light it on the main screen, and ts on the sub screen?
    pub to_main: bool,
    pub to_sub: bool,
}

// A map entry's fields.
#[derive(Clone, Copy, Debug, PartialEq, Eq)]
pub struct MapEntry {
    pub tile: u16,
    pub palette: u8,
    pub high: bool,
    pub flip_x: bool,
    pub flip_y: bool,
}

// The fields of a map word.
pub fn map_entry(word: u16) -> MapEntry
    ensures { result ≡ entry_of word }
{
    MapEntry {
        tile: word % 1024,
        palette: (word / 1024 % 8) as u8,
        high: word / 8192 % 2 == 1,
        flip_x: word / 16384 % 2 == 1,
        flip_y: word / 32768 % 2 == 1,
    }
}
