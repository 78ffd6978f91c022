// Sprite memory: 544 bytes that describe 128 sprites. Follows oam.rs, with its names. What it says
// of a row stands in the crates sprite_row and sprite_choice, its data port in oam_port.
#![tactic(auto)]

pub mod inner;

ghost use Rattle.std.specs.Prelude.{◌≡◌, ◌<◌};
ghost use Rattle.base_refusal.specs.Results.{means, Passed};
ghost use Rattle.base_signed.specs.Remainder.{remainder};
ghost use Rattle.oam.specs.Sprites.{blank_sprite, sprite_tests, sprite_answer, size_of};

use base_refusal::Refusal;

// The bytes of sprite memory: 4 for each sprite, then 2 bits for each.
pub const OAM_SIZE: usize = 544;
// The sprites that it describes.
pub const SPRITES: u8 = 128;

// A sprite as sprite memory describes it.
#[derive(Clone, Copy, Debug, Default, PartialEq, Eq)]
pub struct Sprite {
    // The column of its left edge, -256 to 255.
    pub x: i16,
    // The row of its top edge.
    pub y: u8,
    // The number of its first tile.
    pub tile: u8,
    // The first word of its tiles in VRAM.
    pub chr_base: u16,
    // The table its tiles stand in, 0 or 1.
    pub name_table: u8,
    // Its palette, 0 to 7.
    pub palette: u8,
    // Its priority, 0 to 3.
    pub priority: u8,
    pub flip_x: bool,
    pub flip_y: bool,
    // The larger of the two sizes that objsel gives.
    pub large: bool,
}

impl Sprite {
    // What stands where there is no sprite: every field 0 or false.
    pub fn blank() -> Sprite
        ensures { result ≡ blank_sprite }
    {
        Sprite::default()
    }
}

#[derive(Clone, Copy, Debug, PartialEq, Eq)]
pub struct SpriteSize {
    pub width: u8,
    pub height: u8,
}

// Sprite `index`, with its tiles where objsel says.
pub fn get_sprite(oam: &[u8], index: u8, objsel: u8) -> Result<Sprite, Refusal>
    ensures { means result ≡ sprite_answer oam.now index objsel }
{
    let Ok(oam) = <&[u8; OAM_SIZE]>::try_from(oam) else {
        return Err(Refusal::Oam);
    };
    if index < SPRITES {
        Ok(inner::get_sprite(oam, index, objsel))
    } else {
        Err(Refusal::Argument)
    }
}

// A sprite's size in pixels, by bits 5 to 7 of objsel.
pub fn sprite_size(objsel: u8, large: bool) -> SpriteSize
    ensures { result ≡ size_of objsel large }
{
    inner::sprite_size(objsel, large)
}

// The nine bits of a column: 0 to 511, the columns left of the picture from 256 on.
pub fn nine_bits(x: i16) -> u16
    ensures { result ≡ remainder x 512 }
{
    inner::nine_bits(x)
}
