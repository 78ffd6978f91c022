// A sprite's tiles as a row shows them: which of its lines, where its tiles stand in VRAM, and their
// pixels. Follows sprites.rs.
#![tactic(auto)]

pub mod inner;

use tiles_row::TileRow;

// How a row's sprites are seen: objsel, the row, sprite interlace, and whether the field is odd.
// The row is a byte here: the calls above have refused a row above 223.
#[derive(Clone, Copy, Debug, PartialEq, Eq)]
pub struct View {
    pub objsel: u8,
    pub row: u8,
    pub obj_interlace: bool,
    pub field: bool,
}

// A row of a sprite's tile, and where it stands: the nine bits of its left edge.
#[derive(Clone, Copy, Debug, PartialEq, Eq)]
pub struct PlacedRow {
    pub tile_x: u16,
    pub tile: TileRow,
}
