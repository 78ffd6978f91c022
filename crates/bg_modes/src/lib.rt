// The table of modes, and a background's parameters from the registers. Follows mode_0.rs, mode_1.rs
// and mode_3.rs.
#![tactic(auto)]

pub mod inner;

ghost use Rattle.std.specs.Prelude.{◌≡◌};
ghost use Rattle.base_refusal.specs.Results.{means};
ghost use Rattle.base_refusal.specs.Answer.{value};
ghost use Rattle.registers.specs.Bits.{of_background};
ghost use Rattle.bg_modes.specs.Modes.{bg_mode_of, params_of};

use base_refusal::Refusal;
use bg_map::BgParams;
use registers::PPURegisters;
use registers::background::Background;
use tiles::BitDepth;

// What a mode has of one background.
#[derive(Clone, Copy, Debug, PartialEq, Eq)]
pub struct BgMode {
    // Does the mode have it?
    pub present: bool,
    pub bpp: BitDepth,
    // Has it 32 colours of its own?
    pub own_palettes: bool,
    // The priorities of entries with bit 13 clear and set.
    pub low: u8,
    pub high: u8,
}

// What the mode that the registers name has of background bg.
pub fn bg_mode(r: PPURegisters, bg: usize) -> Result<BgMode, Refusal>
    ensures { means result ≡ of_background bg (value (bg_mode_of r.bgmode bg)) }
{
    Ok(inner::bg_mode(r.bgmode, Background::try_from(bg)?))
}

// The parameters by which background bg is drawn. One that the mode lacks is lit on neither screen.
pub fn bg_params(r: PPURegisters, bg: usize) -> Result<BgParams, Refusal>
    ensures { means result ≡ of_background bg (value (params_of r bg)) }
{
    Ok(inner::bg_params(r, Background::try_from(bg)?).params)
}
