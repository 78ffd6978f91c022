// The row is a byte here: the calls above have refused a row above 223.
ghost use Rattle.std.specs.Prelude.{◌≡◌, ◌<◌, ◌≤◌};
ghost use Rattle.sprite_row.specs.SpriteRow.{line_of, lines_covered, in_range, passes, counts, count_to, tiles_of};

use oam::inner::{nine_bits, sprite_size};
use oam::{Sprite, SpriteSize};

// The row's line within a sprite, counted modulo 256.
pub fn sprite_line(row: u8, top: u8) -> u8
    ensures { result ≡ line_of row top }
{
    row.wrapping_sub(top)
}

// The lines that a sprite covers.
pub fn lines(size: SpriteSize, obj_interlace: bool) -> u8
    ensures { result ≡ lines_covered size obj_interlace }
{
    if obj_interlace {
        size.height / 2
    } else {
        size.height
    }
}

// Is a sprite of this width passed over at the nine bits x9? At 256 it is not.
fn passed_over(x9: u16, width: u8) -> bool
    requires { x9 < 512 }
    ensures { result ≡ passes x9 width }
{
    256 < x9 && x9 + width as u16 <= 512
}

// Does the row meet the sprite, and is the sprite not passed over?
pub fn in_range(s: Sprite, row: u8, objsel: u8, obj_interlace: bool) -> bool
    ensures { result ≡ in_range row objsel obj_interlace s }
{
    let size = sprite_size(objsel, s.large);
    sprite_line(row, s.y) < lines(size, obj_interlace) && !passed_over(nine_bits(s.x), size.width)
}

// Does tile t of a sprite at the nine bits x9 count?
pub fn tile_counts(x9: u16, t: u16) -> bool
    requires { (x9 < 512) × (t < 8) }
    ensures { result ≡ counts x9 t }
{
    let tile_x = (x9 + t * 8) % 512;
    if x9 == 256 {
        return true;
    }
    tile_x < 256 || 504 < tile_x
}

// How many of the first n tiles count.
fn count_to(x9: u16, n: u16) -> usize
    requires { (x9 < 512) × (n ≤ 8) }
    ensures { (result ≡ count_to x9 n) × (result ≤ n) }
{
    (0..n).filter(|t| tile_counts(x9, *t)).count()
}

// A sprite's counting tiles.
pub fn counting_tiles(s: Sprite, objsel: u8) -> usize
    ensures { (result ≡ tiles_of objsel s) × (result ≤ 8) }
{
    let size = sprite_size(objsel, s.large);
    count_to(nine_bits(s.x), size.width as u16 / 8)
}
