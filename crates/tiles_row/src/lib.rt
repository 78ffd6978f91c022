// A row of a tile: the eight pixels that a row of the screen shows of it, whichever layer the tile is
// of.
#![tactic(auto)]

pub mod inner;

use line_pixels::Priority;

// The word address of the tile in VRAM, the row of it, and what holds for all eight pixels: whether
// they are mirrored, their palette and their priority.
#[derive(Clone, Copy, Debug, PartialEq, Eq)]
pub struct TileRow {
    pub base: usize,
    pub row: u8,
    pub flip_x: bool,
    pub palette: u8,
    pub z: Priority,
}
