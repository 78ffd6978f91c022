// What the crates above ask of a background's map.
ghost use Rattle.std.specs.Prelude.{◌≡◌, ◌/◌, ◌<◌, ◌≤◌};
ghost use Rattle.line_pixels.specs.Pixels.{background_of};
ghost use Rattle.bg_map.specs.Source.{side_of, extent_of, source_column, source_line};
ghost use Rattle.bg_map.specs.Map.{screens_wide};
ghost use Rattle.bg_map.specs.steps.Rows.{map_row_of, entry_in};

use crate::{BgParams, MapEntry};
use base_signed::inner::rem_euclid;
use registers::PPURegisters;
use registers::screen_row::ScreenRow;

// What a background is drawn from: parameters whose layer is one of the four backgrounds.
#[derive(Clone, Copy, Debug, PartialEq, Eq)]
pub struct BgDrawn {
    pub params: BgParams,
    ghost background: { background_of params.layer < 4 },
}

// The tile side.
fn side(tile16: bool) -> usize
    ensures { (result ≡ side_of tile16) × ((8 ≤ result) × (result ≤ 16)) }
{
    if tile16 { 16 } else { 8 }
}

// The map's width or height in pixels.
pub fn extent(double: bool, tile16: bool) -> usize
    ensures { (result ≡ extent_of double tile16) × ((0 < result) × (result ≤ 1024)) }
{
    if double {
        64 * side(tile16)
    } else {
        32 * side(tile16)
    }
}

// The column of the map that column x of the screen shows.
pub fn source_column(r: PPURegisters, p: BgParams, x: usize) -> usize
    requires { x < 256 }
    ensures { (result ≡ source_column r p x) × (result < extent_of p.w64 p.tile16) }
{
    let block = registers_mosaic::inner::block(r, p.mosaic) as usize;
    let width = extent(p.w64, p.tile16);
    (x - x % block + p.scroll_x as usize) % width
}

// The line of the map that row y of the screen shows.
pub fn source_line(r: PPURegisters, p: BgParams, y: ScreenRow) -> usize
    ensures { (result ≡ source_line r p y.number) × (result < extent_of p.h64 p.tile16) }
{
    let offset = registers_mosaic::inner::voffset(r, p.mosaic) as i32;
    let line = (y.number + 1) as i32 - offset + p.scroll_y as i32;
    let height = extent(p.h64, p.tile16);
    rem_euclid(line, height as u32) as usize
}

// The tile that holds a place of the map, along one axis.
fn tile_of(at: usize, tile16: bool) -> usize
    ensures { result ≡ at / side_of tile16 }
{
    if tile16 { at / 16 } else { at / 8 }
}

// How many screens of 32 by 32 tiles a map has side by side.
fn screens_wide(w64: bool) -> usize
    ensures { (result ≡ screens_wide w64) × (result ≤ 2) }
{
    if w64 { 2 } else { 1 }
}

// The address of the first map word of the row of tiles that holds line py of the map.
pub fn map_row(p: BgParams, py: usize) -> usize
    requires { py < extent_of p.h64 p.tile16 }
    ensures { (result ≡ map_row_of p py) × (result < 131072) }
{
    let row = tile_of(py, p.tile16);
    let across = screens_wide(p.w64);
    p.tilemap_base as usize + row / 32 * across * 1024 + row % 32 * 32
}

// The entry of the tile that holds column px of the map, in a row of tiles.
pub fn entry_in(vram: &[u16], map_row: usize, tile16: bool, px: usize) -> MapEntry
    requires { (map_row < 131072) × (px < 1024) }
    ensures { (result ≡ entry_in vram.now map_row tile16 px) × (result.palette < 8) }
{
    let col = tile_of(px, tile16);
    crate::map_entry(tiles::inner::word(vram, map_row + col / 32 * 1024 + col % 32))
}
