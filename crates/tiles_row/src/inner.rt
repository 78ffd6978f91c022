// What the crates above ask of a row of a tile.
ghost use Rattle.std.specs.Prelude.{◌≡◌, ◌^◌, ◌<◌};
ghost use Rattle.tiles.specs.Tiles.{pairs_of};
ghost use Rattle.tiles_row.specs.steps.Rows.{TileRowSound, row_index};

use crate::TileRow;
use tiles::BitDepth;
use tiles::inner::{color_index, mirror};

// The colour index of pixel k, from the left, at a depth.
pub fn index(vram: &[u16], bpp: BitDepth, t: TileRow, k: usize) -> u8
    requires { TileRowSound t × (k < 8) }
    ensures { (result ≡ row_index vram.now bpp t k) × (result < 4 ^ pairs_of bpp) }
{
    color_index(vram, bpp, t.base, mirror(k, 8, t.flip_x), t.row as usize)
}
