// What the crates above ask of a sprite's tiles.
ghost use Rattle.std.specs.Prelude.{◌≡◌, true, ◌*◌, ◌/◌, ◌<◌, ◌≤◌, length};
ghost use Rattle.oam.specs.steps.Sprites.{Sized};
ghost use Rattle.sprite_tile.specs.Tile.{doubled, flipped_in, moved, line_in, tile_word, sprite_colours, sprite_pixel_of};
ghost use Rattle.sprite_tile.specs.steps.Placed.{PlacedSound, placed_of};

use crate::{PlacedRow, View};
use line_pixels::{Candidate, Layer, LinePixel, Priority};
use oam::inner::nine_bits;
use oam::{Sprite, SpriteSize};
use sprite_row::inner::sprite_line;
use tiles::inner::mirror;
use tiles_row::TileRow;

// Where a sprite's colours begin in colour memory, and how many each of its palettes has.
pub const OBJ_COLORS: usize = 128;

pub const PALETTE_COLORS: usize = 16;

// Under interlace a row shows every other line.
fn double(line: usize, obj_interlace: bool) -> usize
    requires { line < 256 }
    ensures { (result ≡ doubled obj_interlace line) × (result < 512) }
{
    if obj_interlace { line * 2 } else { line }
}

// A vertical flip mirrors the line, in a tall sprite within each square half.
fn flip(line: usize, width: usize, flip_y: bool) -> usize
    requires { (line < 512) × ((0 < width) × (width ≤ 64)) }
    ensures { (result ≡ flipped_in width flip_y line) × (result < 576) }
{
    line / width * width + mirror(line % width, width, flip_y)
}

// An odd field shows the other line of the two.
fn step(line: usize, odd: bool, flip_y: bool) -> usize
    requires { (line < 576) × (odd ≡ true → flip_y ≡ true → 0 < line) }
    ensures { (result ≡ moved odd flip_y line) × (result < 577) }
{
    if odd {
        if flip_y { line - 1 } else { line + 1 }
    } else {
        line
    }
}

// The line of a sprite that the row shows.
pub fn line_in(s: Sprite, size: SpriteSize, view: View) -> usize
    requires { Sized size }
    ensures { (result ≡ line_in view s size.width) × (result < 577) }
{
    let line = sprite_line(view.row, s.y) as usize;
    let twice = double(line, view.obj_interlace);
    let shown = flip(twice, size.width as usize, s.flip_y);
    step(shown, view.obj_interlace & view.field, s.flip_y)
}

// The word address of the tile in a column and a row of a sprite.
fn tile_word(s: Sprite, column: usize, row: usize) -> usize
    requires { (column < 8) × (row < 128) }
    ensures { result ≡ tile_word s column row }
{
    let tile = s.tile as usize;
    let number = (tile / 16 + row) % 16 * 16 + (tile % 16 + column) % 16;
    s.chr_base as usize + number * 16
}

// Tile t of a sprite, from the left, at a line of the sprite.
pub fn placed(s: Sprite, size: SpriteSize, line: usize, t: usize) -> PlacedRow
    requires { (Sized size × (s.palette < 8)) × ((line < 577) × (t < size.width / 8)) }
    ensures { (result ≡ placed_of s size.width line t) × PlacedSound result }
{
    let column = mirror(t, size.width as usize / 8, s.flip_x);
    let tile = TileRow {
        base: tile_word(s, column, line / 8),
        row: (line % 8) as u8,
        flip_x: s.flip_x,
        palette: s.palette,
        z: Priority::obj(s.priority),
    };
    PlacedRow {
        tile_x: (nine_bits(s.x) + t as u16 * 8) % 512,
        tile,
    }
}

// A palette's colours, a part of colour memory, whatever its words are.
pub fn palette<'a, T>(cgram: &'a [T; 256], n: u8) -> &'a [T]
    requires { n < 8 }
    ensures { result.now ≡ sprite_colours cgram.now n }
{
    let start = OBJ_COLORS + PALETTE_COLORS * n as usize;
    let words = &cgram[..];
    &words[start..start + PALETTE_COLORS]
}

// The pixel of a colour index, of a sprite with this palette, its colours and this priority. Sprites
// do color math only with palettes 4 to 7.
pub fn pixel(colors: &[u16], palette: u8, z: Priority, index: u8) -> Candidate
    requires { (length colors.now ≡ 16) × (index < 16) }
    ensures { result ≡ sprite_pixel_of colors.now palette z index }
{
    let pixel = LinePixel {
        color: colors[index as usize],
        z,
        layer: Layer::Obj,
        obj_math: palette >= 4,
    };
    Candidate {
        opaque: index != 0,
        pixel,
    }
}
