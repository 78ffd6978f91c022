// What the comparisons share: the bits of a sprite in the second table, what a list holds of a
// sprite, and digests of lists of numbers.
#![tactic(auto)]

ghost use Rattle.std.specs.Prelude.{◌≡◌, ◌%◌, ◌<◌};
ghost use Rattle.test_digest.specs.Digest.{second_table_byte, folded, one_of, sprite_place, marks_of};

use base_signed::inner::rem_euclid;
use oam::Sprite;

// A byte of the second table in which one of its four sprites has these two bits.
pub fn second_table_byte(byte: u8, sprite: usize, bits: u8) -> u8
    ensures { result ≡ second_table_byte byte (sprite % 4) (bits % 4) }
{
    let two = bits % 4;
    match sprite % 4 {
        0 => two + byte / 4 * 4,
        1 => byte % 4 + two * 4 + byte / 16 * 16,
        2 => byte % 16 + two * 16 + byte / 64 * 64,
        _ => byte % 64 + two * 64,
    }
}

// A digest and one more number: its high half, then its low half.
pub fn fold(digest: u32, v: u64) -> u32
    ensures { result ≡ folded digest v }
{
    let high = digest as u64 * 31 + v / 4294967296;
    ((high * 31 + v % 4294967296) % 4294967296) as u32
}

// 1 for true, 0 for false.
pub fn one(b: bool) -> u64
    ensures { (result ≡ one_of b) × (result < 2) }
{
    u64::from(b)
}

// Twelve digits: the 16 bits of the column, top, tile, base.
pub fn place(s: Sprite) -> u64
    ensures { result ≡ sprite_place s }
{
    let column = rem_euclid(s.x as i32, 65536) as u64;
    let tiles = s.tile as u64 * 65536 + s.chr_base as u64;
    column * 4294967296 + s.y as u64 * 16777216 + tiles
}

// Seven digits: table, palette, priority; 1 if flipped in x, 2 if in y, 4 if large.
pub fn marks(s: Sprite) -> u64
    ensures { result ≡ marks_of s }
{
    let bits = one(s.flip_x) + one(s.flip_y) * 2 + one(s.large) * 4;
    s.name_table as u64 * 1048576 + s.palette as u64 * 4096 + s.priority as u64 * 16 + bits
}
