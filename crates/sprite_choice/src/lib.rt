// The sprites chosen for a row, with what the console says of them. Follows oam.rs, with its names.
#![tactic(auto)]

pub mod inner;

ghost use Rattle.std.specs.Prelude.{◌≡◌};
ghost use Rattle.base_refusal.specs.Results.{outcome_of};
ghost use Rattle.sprite_choice.specs.Choice.{none_chosen, choice_outcome};

use base_refusal::Refusal;
use oam::Sprite;
use row_tests::inner::choice_tested;

// A sprite with its number in sprite memory.
#[derive(Clone, Copy, Debug, Default, PartialEq, Eq)]
pub struct VisibleSprite {
    pub index: u8,
    pub sprite: Sprite,
}

// The chosen sprites in a list of 32 places with its length, and what is said of them: how many of
// their tiles count, whether those exceed 34, and whether there was a 33rd sprite.
#[derive(Clone, Copy, Debug, PartialEq, Eq)]
pub struct Chosen {
    pub sprites: [VisibleSprite; 32],
    pub count: usize,
    pub tiles: usize,
    pub time_over: bool,
    pub range_over: bool,
}

// The sprites chosen for row y: in search order, the first 32 of those that the row meets and that
// are not passed over.
pub fn eval_sprites_for_scanline(
    oam: &[u8],
    y: usize,
    objsel: u8,
    oamadd: u16,
    obj_interlace: bool,
) -> Result<Chosen, Refusal>
    ensures { outcome_of none_chosen result ≡ choice_outcome oam.now y objsel oamadd obj_interlace }
{
    let (oam, y) = choice_tested(y, oam)?;
    Ok(inner::choose(oam, y.number as u8, objsel, oamadd, obj_interlace))
}
