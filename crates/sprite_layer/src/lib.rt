// The sprites of a row: the sprite line, their candidates at a column, and their laying over both
// lines. Follows sprites.rs, with its names.
#![tactic(auto)]

pub mod inner;

ghost use Rattle.std.specs.Prelude.{◌≡◌};
ghost use Rattle.base_refusal.specs.Results.{means, outcome_of};
ghost use Rattle.sprite_layer.specs.Sprites.{empty_line, sprite_line_outcome, sprite_candidates_answer, sprites_laid_outcome};

use base_refusal::Refusal;
use line_laying::Candidates;
use line_pixels::{Candidate, Lines};
use registers::PPURegisters;
use registers::constants::SCREEN_WIDTH;
use row_tests::inner::layer_tested;

// The sprite line of row y: at each column the pixel of the first chosen sprite that has a fetched
// opaque pixel there, before windows and screens.
pub fn sprite_line(
    vram: &[u16],
    cgram: &[u16],
    oam: &[u8],
    r: PPURegisters,
    y: usize,
) -> Result<[Candidate; 256], Refusal>
    ensures { outcome_of empty_line result ≡ sprite_line_outcome vram.now cgram.now oam.now r y }
{
    let (memory, y) = layer_tested(y, vram, cgram, oam, r.mosaic_vcounter, true)?;
    Ok(inner::line(memory, r, y))
}

// The candidates of the sprites at column x of row y, on both screens.
pub fn sprite_candidates(
    vram: &[u16],
    cgram: &[u16],
    oam: &[u8],
    r: PPURegisters,
    x: usize,
    y: usize,
) -> Result<Candidates, Refusal>
    ensures { means result ≡ sprite_candidates_answer vram.now cgram.now oam.now r y x }
{
    let column = x < SCREEN_WIDTH;
    let (memory, y) = layer_tested(y, vram, cgram, oam, r.mosaic_vcounter, column)?;
    Ok(inner::candidates(memory, r, x, y))
}

// Lays the sprites of row y over both lines. On a refusal they are what they were.
pub fn render_sprites(
    lines: &mut Lines,
    vram: &[u16],
    cgram: &[u16],
    oam: &[u8],
    r: PPURegisters,
    y: usize,
) -> Result<(), Refusal>
    ensures { record { said = means result; left = lines.new } ≡ sprites_laid_outcome vram.now cgram.now oam.now r y lines.old }
{
    let (memory, y) = layer_tested(y, vram, cgram, oam, r.mosaic_vcounter, true)?;
    inner::lay(lines, memory, r, y);
    Ok(())
}
