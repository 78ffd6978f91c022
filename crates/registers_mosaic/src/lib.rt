// Mosaic: its size, and the block and offset of a background. Follows registers.rs and ppu.rs, with
// their names. A public call tests its own arguments and then asks `inner`, where the work is done.
#![tactic(auto)]

pub mod inner;

ghost use Rattle.std.specs.Prelude.{◌≡◌};
ghost use Rattle.base_refusal.specs.Results.{means};
ghost use Rattle.base_refusal.specs.Answer.{value};
ghost use Rattle.registers.specs.Bits.{of_background};
ghost use Rattle.registers_mosaic.specs.Mosaic.{mosaic_size, mosaic_on, block_of, voffset, offset_of, counted};

use base_refusal::Refusal;
use registers::PPURegisters;
use registers::background::Background;
use registers::constants::LARGEST_COUNTER;

// The mosaic size, 1 to 16.
pub fn mosaic_size(r: PPURegisters) -> u8
    ensures { result ≡ mosaic_size r }
{
    inner::mosaic_size(r)
}

// Is mosaic on for background bg?
pub fn bg_mosaic(r: PPURegisters, bg: usize) -> Result<bool, Refusal>
    ensures { means result ≡ of_background bg (value (mosaic_on r bg)) }
{
    Ok(inner::bg_mosaic(r, Background::try_from(bg)?))
}

// Lines since the top of the mosaic block: the size less the counter, below zero where the
// counter is larger.
pub fn mosaic_voffset(r: PPURegisters) -> Result<i16, Refusal>
    ensures { means result ≡ counted r (value (voffset r)) }
{
    if r.mosaic_vcounter <= LARGEST_COUNTER {
        Ok(inner::mosaic_voffset(r))
    } else {
        Err(Refusal::Counter)
    }
}

// The mosaic block of background bg: the size, or 1 with its mosaic off.
pub fn bg_mosaic_block(r: PPURegisters, bg: usize) -> Result<u16, Refusal>
    ensures { means result ≡ of_background bg (value (block_of r bg)) }
{
    Ok(inner::block(r, inner::bg_mosaic(r, Background::try_from(bg)?)) as u16)
}

// Its mosaic offset: that of mosaic_voffset, or 0 with its mosaic off.
pub fn bg_mosaic_voffset(r: PPURegisters, bg: usize) -> Result<i16, Refusal>
    ensures { means result ≡ counted r (of_background bg (value (offset_of r bg))) }
{
    if LARGEST_COUNTER < r.mosaic_vcounter {
        return Err(Refusal::Counter);
    }
    Ok(inner::voffset(r, inner::bg_mosaic(r, Background::try_from(bg)?)))
}
