// The layers by their numbers, BG1 to BG4 0 to 3 and the sprites 4: the lines before any is laid,
// one laying step, and a layer's candidates at a column. Follows renderer.rs.
#![tactic(auto)]

pub mod inner;

ghost use Rattle.std.specs.Prelude.{◌≡◌};
ghost use Rattle.base_refusal.specs.Results.{means, outcome_of};
ghost use Rattle.line_pixels.specs.Pixels as pixels;
ghost use Rattle.registers.specs.Scene.{scene};
ghost use Rattle.row_layers.specs.Layers.{backdrop_outcome, layer_candidates_answer, layer_outcome};

use base_refusal::Refusal;
use line_laying::Candidates;
use line_pixels::Lines;
use registers::PPURegisters;
use registers::constants::{COLOUR_WORDS, LAYERS, SCREEN_WIDTH};
use row_tests::inner::layer_tested;

// Both lines of a row before any layer is laid.
pub fn backdrop_lines(cgram: &[u16], r: PPURegisters) -> Result<Lines, Refusal>
    ensures { outcome_of (pixels.backdrop_lines 0 0) result ≡ backdrop_outcome cgram.now r }
{
    if cgram.len() != COLOUR_WORDS {
        return Err(Refusal::Colour);
    }
    Ok(Lines::backdrops(cgram[0], r.coldata))
}

// Lays one layer's row y over both lines, and no other layer's. On a refusal they are what they were.
pub fn render_layer(
    lines: &mut Lines,
    vram: &[u16],
    cgram: &[u16],
    oam: &[u8],
    r: PPURegisters,
    y: usize,
    layer: usize,
) -> Result<(), Refusal>
    ensures { record { said = means result; left = lines.new } ≡ layer_outcome (scene r vram.now cgram.now oam.now) y layer lines.old }
{
    let in_range = layer < LAYERS;
    let (memory, y) = layer_tested(y, vram, cgram, oam, r.mosaic_vcounter, in_range)?;
    inner::lay(lines, memory, r, y, layer);
    Ok(())
}

// The candidates of a layer at column x of row y, on both screens.
pub fn layer_candidates(
    vram: &[u16],
    cgram: &[u16],
    oam: &[u8],
    r: PPURegisters,
    x: usize,
    y: usize,
    layer: usize,
) -> Result<Candidates, Refusal>
    ensures { means result ≡ layer_candidates_answer (scene r vram.now cgram.now oam.now) y layer x }
{
    let in_range = (x < SCREEN_WIDTH) & (layer < LAYERS);
    let (memory, y) = layer_tested(y, vram, cgram, oam, r.mosaic_vcounter, in_range)?;
    Ok(inner::candidates(memory, r, x, y, layer))
}
