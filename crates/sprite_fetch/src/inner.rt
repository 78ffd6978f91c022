// What the crates above ask of the fetch.
ghost use Rattle.std.specs.Prelude.{◌≡◌, ◌≤◌, ◌<◌, length, take};
ghost use Rattle.sprite_fetch.specs.Fetch.{fetched};
ghost use Rattle.sprite_fetch.specs.steps.Walk.{blank_row, AllSound, AllFair, fetched_list, sprites_of, drawn_line};

use crate::Fetched;
use line_pixels::{Candidate, Priority};
use oam::inner::{nine_bits, sprite_size};
use sprite_choice::Chosen;
use sprite_choice::inner::MAX_TILES;
use sprite_row::inner::tile_counts;
use sprite_tile::inner::{line_in, palette, pixel, placed};
use sprite_tile::{PlacedRow, View};
use tiles::BitDepth;
use tiles_row::TileRow;
use tiles_row::inner::index;

// What stands in a place that holds no tile.
fn blank() -> PlacedRow
    ensures { result ≡ blank_row }
{
    let tile = TileRow {
        base: 0,
        row: 0,
        flip_x: false,
        palette: 0,
        z: Priority::BACKDROP,
    };
    PlacedRow { tile_x: 0, tile }
}

// The fetch: the chosen sprites from the last to the first, the counting tiles of each from left to
// right, up to the 34th.
pub fn fetch(chosen: Chosen, view: View) -> Fetched
    requires { (chosen.count ≤ 32) × AllFair chosen.count chosen.sprites }
    ensures { (result ≡ fetched_list view (fetched 34 view.objsel (sprites_of chosen.count chosen.sprites))) × ((result.count ≤ 34) × AllSound result.count result.rows) }
{
    let mut rows = [blank(); 34];
    let mut count: usize = 0;
    for k in (0..chosen.count).rev() {
        let s = chosen.sprites[k].sprite;
        let size = sprite_size(view.objsel, s.large);
        let line = line_in(s, size, view);
        let x9 = nine_bits(s.x);
        let tiles_wide = size.width as usize / 8;
        for t in 0..tiles_wide {
            if !tile_counts(x9, t as u16) {
                continue;
            }
            if count == MAX_TILES {
                return Fetched { rows, count };
            }
            rows[count] = placed(s, size, line, t);
            count += 1;
        }
    }
    Fetched { rows, count }
}

// The sprite line: the tiles are drawn one over the other in the order of the fetch, so that the
// first chosen sprite stays.
pub fn draw(f: Fetched, vram: &[u16], cgram: &[u16; 256]) -> [Candidate; 256]
    requires { (f.count ≤ 34) × AllSound f.count f.rows }
    ensures { result ≡ drawn_line vram.now cgram.now (take f.count f.rows) }
{
    let mut line = [Candidate::none(); 256];
    for s in f.as_slice() {
        let tile = s.tile;
        let colors = palette(cgram, tile.palette);
        for k in 0..8 {
            let x = (s.tile_x as usize + k) % 512;
            if x >= 256 {
                continue;
            }
            let n = index(vram, BitDepth::Four, tile, k);
            if n == 0 {
                continue;
            }
            line[x] = pixel(colors, tile.palette, tile.z, n);
        }
    }
    line
}
