// What the crates above ask of the packed pixels of a tile's row.
ghost use Rattle.std.specs.Prelude.{ℕ, ◌≡◌, ◌^◌, ◌<◌, ◌≤◌, length, get_or};
ghost use Rattle.base_lists.specs.Tab.{tab};
ghost use Rattle.tiles.specs.Tiles.{plane_word, two_bits, index_of, mirrored};
ghost use Rattle.tiles_row.specs.steps.Rows.{TileRowSound};
ghost use Rattle.tiles_eight.specs.steps.Shades.{index_in, shade, shade_direct};

use colour::direct_color;
use line_pixels::inner::select;
use packed_pixels::inner::Head;
use tiles::inner::{mirror, plane_word};
use tiles_row::TileRow;

// Colour memory in wide words, which a processor looks up many at a time.
pub fn wide(cgram: &[u16; 256]) -> [u32; 256]
    ensures { result ≡ cgram.now }
{
    std::array::from_fn(|i| u32::from(cgram[i]))
}

// The two bits of a column in a plane pair's word, as `tiles` has them, in the wide words of a pixel:
// eight columns are then found at once.
fn two_bits(word: u16, col: u32) -> u32
    requires { col < 8 }
    ensures { (result ≡ two_bits word col) × (result < 4) }
{
    let w = word as u32;
    (w >> (7 - col)) % 2 + (w >> (15 - col)) % 2 * 2
}

// The colour index of a column in the words of N plane pairs, the first the lowest.
#[tactic(auto, unfolding(crate::specs::steps::Shades::index_in))]
fn index<const N: usize>(words: &[u16; N], col: u32) -> u32
    requires { (N ≤ 4) × (col < 8) }
    ensures { (result ≡ index_in words.now col N) × (result < 4 ^ N) }
{
    let mut index = 0;
    let mut place = 1;
    for word in words {
        index += place * two_bits(*word, col);
        place *= 4;
    }
    index
}

// The columns of a tile's row in the order in which they are shown. They are found before the
// pixels, so that the pixels' loop does not test the flip.
fn turned(flip: bool) -> [u32; 8]
    ensures { (result ≡ tab 8 (λ k. mirrored k 8 flip)) × ((k : ℕ) → k < 8 → get_or result k 0 < 8) }
{
    std::array::from_fn(|k| mirror(k, 8, flip) as u32)
}

// The words of a tile's row in its first N plane pairs.
fn words<const N: usize>(vram: &[u16], t: TileRow) -> [u16; N]
    requires { (N ≤ 4) × TileRowSound t }
    ensures { result ≡ tab N (plane_word vram.now t.base t.row) }
{
    std::array::from_fn(|pair| plane_word(vram, t.base, t.row as usize, pair))
}

// The packed pixel of a colour index, under its head.
#[tactic(auto, unfolding(crate::specs::steps::Shades::shade))]
fn shade(index: u32, head: Head, colors: &[u32]) -> u32
    requires { index < length colors.now }
    ensures { result ≡ shade colors.now head.bits index }
{
    let at = index as usize;
    select(index != 0, head.bits + colors[at] % 65536, 0)
}

// The eight pixels of a tile's row over its first N plane pairs, under their head.
pub fn shaded<const N: usize>(vram: &[u16], t: TileRow, head: Head, colors: &[u32]) -> [u32; 8]
    requires { ((N ≤ 4) × TileRowSound t) × (length colors.now ≡ 4 ^ N) }
    ensures { result ≡ tab 8 (λ k. shade colors.now head.bits (index_of vram.now t.base (mirrored k 8 t.flip_x) t.row N)) }
{
    let words: [u16; N] = words(vram, t);
    let cols = turned(t.flip_x);
    std::array::from_fn(
        |k| -> u32
            requires { ((N ≤ 4) × ((k < 8) × (get_or cols k 0 < 8))) × (length colors.now ≡ 4 ^ N) }
            ensures { result ≡ shade colors.entry.now head.bits (index_in words (get_or cols k 0) N) }
        { shade(index(&words, cols[k]), head, colors) },
    )
}

// The packed pixel of a colour index in direct colour.
#[tactic(auto, unfolding(crate::specs::steps::Shades::shade_direct))]
fn shade_direct(index: u32, head: Head, palette: u8) -> u32
    requires { index < 256 }
    ensures { result ≡ shade_direct palette head.bits index }
{
    select(
        index != 0,
        head.bits + direct_color(index as u8, palette) as u32,
        0,
    )
}

// The eight pixels of a tile's row in direct colour.
pub fn shaded_direct(vram: &[u16], t: TileRow, head: Head) -> [u32; 8]
    requires { TileRowSound t }
    ensures { result ≡ tab 8 (λ k. shade_direct t.palette head.bits (index_of vram.now t.base (mirrored k 8 t.flip_x) t.row 4)) }
{
    let words: [u16; 4] = words(vram, t);
    let cols = turned(t.flip_x);
    std::array::from_fn(|k| shade_direct(index(&words, cols[k]), head, t.palette))
}
