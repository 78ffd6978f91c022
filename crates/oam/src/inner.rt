// What the public calls of this crate stand on, for the crates above.
ghost use Rattle.std.specs.Prelude.{◌≡◌, ◌+◌, ◌*◌, ◌<◌, length};
ghost use Rattle.base_signed.specs.Remainder.{remainder};
ghost use Rattle.oam.specs.Sprites.{sprite_of, signed9, chr_base_of, sized, size_of, sizes_of};
ghost use Rattle.oam.specs.steps.Sprites.{Sized};

use crate::{OAM_SIZE, Sprite, SpriteSize};
use base_signed::inner::rem_euclid;

// Nine bits as a column: the low byte, and bit 8.
fn signed_x(low: u8, high: u8) -> i16
    requires { high < 2 }
    ensures { result ≡ signed9 (high * 256 + low) }
{
    let raw = high as u16 * 256 + low as u16;
    if raw < 256 {
        raw as i16
    } else {
        raw as i16 - 512
    }
}

// The first word of a sprite's tiles.
fn chr_base(objsel: u8, name_table: u8) -> u16
    ensures { result ≡ chr_base_of objsel name_table }
{
    let name_base = (objsel % 8) as u32 * 8192;
    if name_table == 0 {
        (name_base % 32768) as u16
    } else {
        let name_select = ((objsel / 8 % 4) as u32 + 1) * 4096;
        ((name_base + name_select) % 32768) as u16
    }
}

pub fn get_sprite(oam: &[u8; OAM_SIZE], index: u8, objsel: u8) -> Sprite
    requires { index < 128 }
    ensures { result ≡ sprite_of oam.now index objsel }
{
    let i = index as usize;
    let x_lo = oam[i * 4];
    let y = oam[i * 4 + 1];
    let tile = oam[i * 4 + 2];
    let attr = oam[i * 4 + 3];
    let t2_bits = (oam[512 + i / 4] >> (i % 4 * 2)) % 4;
    let name_table = attr % 2;
    let x = signed_x(x_lo, t2_bits % 2);
    let base = chr_base(objsel, name_table);
    Sprite {
        x,
        y,
        tile,
        chr_base: base,
        name_table,
        palette: attr / 2 % 8,
        priority: attr / 16 % 4,
        flip_x: attr / 64 % 2 == 1,
        flip_y: attr / 128 == 1,
        large: t2_bits / 2 == 1,
    }
}

// The two sizes of a setting of objsel.
#[derive(Clone, Copy, Debug, PartialEq, Eq)]
pub struct Sizes {
    pub small: SpriteSize,
    pub large: SpriteSize,
}

fn both(small_width: u8, small_height: u8, large_width: u8, large_height: u8) -> Sizes
    ensures { result ≡ record { small = sized small_width small_height; large = sized large_width large_height } }
{
    let small = SpriteSize {
        width: small_width,
        height: small_height,
    };
    let large = SpriteSize {
        width: large_width,
        height: large_height,
    };
    Sizes { small, large }
}

fn sizes_of(setting: u8) -> Sizes
    requires { setting < 8 }
    ensures { result ≡ sizes_of setting }
{
    match setting {
        0 => both(8, 8, 16, 16),
        1 => both(8, 8, 32, 32),
        2 => both(8, 8, 64, 64),
        3 => both(16, 16, 32, 32),
        4 => both(16, 16, 64, 64),
        5 => both(32, 32, 64, 64),
        6 => both(16, 32, 32, 64),
        _ => both(16, 32, 32, 32),
    }
}

pub fn sprite_size(objsel: u8, large: bool) -> SpriteSize
    ensures { (result ≡ size_of objsel large) × Sized result }
{
    let sizes = sizes_of(objsel / 32);
    if large { sizes.large } else { sizes.small }
}

pub fn nine_bits(x: i16) -> u16
    ensures { (result ≡ remainder x 512) × (result < 512) }
{
    rem_euclid(x as i32, 512) as u16
}
