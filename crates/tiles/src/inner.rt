// What the decoders stand on. VRAM is read in `word`, and nowhere else.
ghost use Rattle.std.specs.Prelude.{◌≡◌, ◌^◌, ◌<◌, ◌≤◌};
ghost use Rattle.tiles.specs.Tiles.{vram_word, plane_word, two_bits, pair_at, index_of, pairs_of, mirrored};

use crate::BitDepth;

// The words of VRAM.
pub const VRAM_WORDS: usize = 32768;

// The word at an address, taken mod 32,768; 0 where VRAM is shorter.
pub fn word(vram: &[u16], address: usize) -> u16
    ensures { result ≡ vram_word vram.now address }
{
    vram.get(address % VRAM_WORDS).copied().unwrap_or(0)
}

// The word of a tile's row in one of its plane pairs, 8 words apart.
pub fn plane_word(vram: &[u16], base: usize, row: usize, pair: usize) -> u16
    requires { (row < 8) × (pair < 4) }
    ensures { result ≡ plane_word vram.now base row pair }
{
    word(vram, base % VRAM_WORDS + row + pair * 8)
}

// The two bits of a column in such a word: the low byte is the lower plane, bit 7 the leftmost.
pub fn two_bits(word: u16, col: usize) -> u8
    requires { col < 8 }
    ensures { (result ≡ two_bits word col) × (result < 4) }
{
    ((word >> (7 - col)) % 2 + (word >> (15 - col)) % 2 * 2) as u8
}

// The two bits that a plane pair has of pixel (x, y).
pub fn plane_pair(vram: &[u16], base: usize, x: usize, y: usize, pair: usize) -> u8
    requires { (x < 8) × ((y < 8) × (pair < 4)) }
    ensures { (result ≡ pair_at vram.now base x y pair) × (result < 4) }
{
    two_bits(plane_word(vram, base, y, pair), x)
}

// The colour index of pixel (x, y) over the first `pairs` plane pairs, walked from the highest to the lowest.
fn over_pairs(vram: &[u16], base: usize, x: usize, y: usize, pairs: usize) -> u8
    requires { (x < 8) × ((y < 8) × (pairs ≤ 4)) }
    ensures { (result ≡ index_of vram.now base x y pairs) × (result < 4 ^ pairs) }
{
    let mut index: u8 = 0;
    for pair in (0..pairs).rev() {
        index = index * 4 + plane_pair(vram, base, x, y, pair);
    }
    index
}

// The colour index of pixel (x, y) at a depth.
pub fn color_index(vram: &[u16], bpp: BitDepth, base: usize, x: usize, y: usize) -> u8
    requires { (x < 8) × (y < 8) }
    ensures { (result ≡ index_of vram.now base x y (pairs_of bpp)) × (result < 4 ^ pairs_of bpp) }
{
    over_pairs(vram, base, x, y, bpp.plane_pairs())
}

// A place below `side`, mirrored where a flip says so.
pub fn mirror(at: usize, side: usize, flip: bool) -> usize
    requires { at < side }
    ensures { (result ≡ mirrored at side flip) × (result < side) }
{
    if flip { side - 1 - at } else { at }
}
