// Tiles in VRAM, and the colour indexes of their pixels. Follows mode_0.rs, mode_1.rs and
// mode_3.rs, with their names.
#![tactic(auto)]

pub mod inner;

ghost use Rattle.std.specs.Prelude.{◌≡◌, ◌<◌, ◌≤◌};
ghost use Rattle.base_refusal.specs.Results.{means, Passed};
ghost use Rattle.tiles.specs.Tiles.{pairs_of, tile_words, tile_tests, tile_answer};

use base_refusal::Refusal;
use inner::VRAM_WORDS;

// The bits of a pixel's colour index.
#[derive(Clone, Copy, Debug, PartialEq, Eq)]
pub enum BitDepth {
    Two,
    Four,
    Eight,
}

impl BitDepth {
    // The plane pairs of a pixel.
    fn plane_pairs(self) -> usize
        ensures { (result ≡ pairs_of self) × (result ≤ 4) }
    {
        match self {
            BitDepth::Two => 1,
            BitDepth::Four => 2,
            BitDepth::Eight => 4,
        }
    }

    // The words of a tile in VRAM.
    pub fn tile_words(self) -> usize
        ensures { result ≡ tile_words self }
    {
        match self {
            BitDepth::Two => 8,
            BitDepth::Four => 16,
            BitDepth::Eight => 32,
        }
    }
}

// The tests of the three decoders: VRAM's length, then the tile word and the pixel.
fn tested(vram_len: usize, tile_word_base: usize, x: usize, y: usize) -> Result<(), Refusal>
    ensures { (means result ≡ tile_tests vram_len tile_word_base x y) × (Passed result → (x < 8) × (y < 8)) }
{
    if vram_len != VRAM_WORDS {
        return Err(Refusal::Vram);
    }
    if tile_word_base < 65536 && x < 8 && y < 8 {
        Ok(())
    } else {
        Err(Refusal::Argument)
    }
}

// The colour index of a pixel at a depth, once the tests are passed.
fn decoded(
    vram: &[u16],
    bpp: BitDepth,
    tile_word_base: usize,
    x: usize,
    y: usize,
) -> Result<u8, Refusal>
    ensures { means result ≡ tile_answer vram.now tile_word_base x y (pairs_of bpp) }
{
    tested(vram.len(), tile_word_base, x, y)?;
    Ok(inner::color_index(vram, bpp, tile_word_base, x, y))
}

// The colour index, 0 to 3, of pixel (x, y) in the 2bpp tile at a word of VRAM.
pub fn decode_2bpp_tile_pixel_from(
    vram: &[u16],
    tile_word_base: usize,
    x: usize,
    y: usize,
) -> Result<u8, Refusal>
    ensures { means result ≡ tile_answer vram.now tile_word_base x y 1 }
{
    decoded(vram, BitDepth::Two, tile_word_base, x, y)
}

// The same, 0 to 15, in a 4bpp tile.
pub fn decode_4bpp_tile_pixel_from(
    vram: &[u16],
    tile_word_base: usize,
    x: usize,
    y: usize,
) -> Result<u8, Refusal>
    ensures { means result ≡ tile_answer vram.now tile_word_base x y 2 }
{
    decoded(vram, BitDepth::Four, tile_word_base, x, y)
}

// The same, 0 to 255, in an 8bpp tile.
pub fn decode_8bpp_tile_pixel_from(
    vram: &[u16],
    tile_word_base: usize,
    x: usize,
    y: usize,
) -> Result<u8, Refusal>
    ensures { means result ≡ tile_answer vram.now tile_word_base x y 4 }
{
    decoded(vram, BitDepth::Eight, tile_word_base, x, y)
}
