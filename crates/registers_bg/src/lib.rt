// What is read of a background from the registers: map, tiles and scroll.
//
// Follows registers.rs, with its names. A public call tests its own arguments and then
// asks `inner`, where the work is done.
#![tactic(auto)]

pub mod inner;

ghost use Rattle.std.specs.Prelude.{◌≡◌};
ghost use Rattle.base_refusal.specs.Results.{means};
ghost use Rattle.base_refusal.specs.Answer.{value};
ghost use Rattle.registers.specs.Bits.{of_background};
ghost use Rattle.registers_bg.specs.Backgrounds.{map_base, tile_base, map_size, scroll_of, tile16_of};

use base_refusal::Refusal;
use registers::PPURegisters;
use registers::background::Background;

// A background map's size: 64 tiles wide, 64 tiles tall; otherwise 32.
#[derive(Clone, Copy)]
pub struct MapSize {
    pub w64: bool,
    pub h64: bool,
}

// A background's scroll.
#[derive(Clone, Copy)]
pub struct Scroll {
    pub x: u16,
    pub y: u16,
}

// The word address of background bg's map.
pub fn bg_tilemap_addr(r: PPURegisters, bg: usize) -> Result<u16, Refusal>
    ensures { means result ≡ of_background bg (value (map_base r bg)) }
{
    Ok(inner::bg_tilemap_addr(r, Background::try_from(bg)?))
}

// The word address of its characters.
pub fn bg_tiledata_addr(r: PPURegisters, bg: usize) -> Result<u16, Refusal>
    ensures { means result ≡ of_background bg (value (tile_base r bg)) }
{
    Ok(inner::bg_tiledata_addr(r, Background::try_from(bg)?.number))
}

// The size of its map.
pub fn bg_tilemap_size(r: PPURegisters, bg: usize) -> Result<MapSize, Refusal>
    ensures { means result ≡ of_background bg (value (map_size r bg)) }
{
    Ok(inner::bg_tilemap_size(r, Background::try_from(bg)?))
}

// Its scroll.
pub fn bg_scroll(r: PPURegisters, bg: usize) -> Result<Scroll, Refusal>
    ensures { means result ≡ of_background bg (value (scroll_of r bg)) }
{
    Ok(inner::bg_scroll(r, Background::try_from(bg)?))
}

// Is its tile side 16, and not 8?
pub fn bg_tile16(r: PPURegisters, bg: usize) -> Result<bool, Refusal>
    ensures { means result ≡ of_background bg (value (tile16_of r bg)) }
{
    Ok(inner::bg_tile16(r, Background::try_from(bg)?))
}
