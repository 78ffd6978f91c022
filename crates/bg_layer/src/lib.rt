// A background's candidates at a column of a row, and its laying over both lines. Follows
// renderer.rs, with its names.
#![tactic(auto)]

pub mod inner;

ghost use Rattle.std.specs.Prelude.{◌≡◌, true, ◌&&◌, length, IfOk};
ghost use Rattle.base_refusal.specs.Results.{means};
ghost use Rattle.base_refusal.specs.steps.Said.{said_of};
ghost use Rattle.row_tests.specs.Tests.{bg_tests};
ghost use Rattle.bg_layer.specs.Background.{is_background, bg_candidates_answer, bg_laid_outcome};

use base_refusal::Refusal;
use bg_map::BgParams;
use bg_map::inner::BgDrawn;
use line_laying::Candidates;
use line_pixels::Lines;
use line_pixels::inner::bg_index;
use registers::PPURegisters;
use registers::constants::{BACKGROUNDS, SCREEN_WIDTH};
use registers::screen_row::ScreenRow;
use row_tests::inner::bg_tested;

// The tests of both calls; `column` says that the column is in its range. Colour memory, the
// background and the row are handed on.
fn tested<'a>(
    y: usize,
    vram: &'a [u16],
    cgram: &'a [u16],
    counter: u8,
    column: bool,
    p: BgParams,
) -> Result<(&'a [u16; 256], BgDrawn, ScreenRow), Refusal>
    ensures said { said_of result ≡ bg_tests y (length vram.now) (length cgram.now) counter (column && is_background p.layer) }
    ensures held { IfOk result (λ g. (g.0.now ≡ cgram.now) × ((g.1.params ≡ p) × ((g.2.number ≡ y) × (column ≡ true)))) }
{
    let background = bg_index(p.layer) < BACKGROUNDS;
    let (cgram, y) = bg_tested(y, vram, cgram, counter, column & background)?;
    Ok((cgram, BgDrawn { params: p }, y))
}

// The candidates of a background at column x of row y, on both screens.
pub fn bg_candidates(
    vram: &[u16],
    cgram: &[u16],
    r: PPURegisters,
    p: BgParams,
    x: usize,
    y: usize,
) -> Result<Candidates, Refusal>
    ensures { means result ≡ bg_candidates_answer vram.now cgram.now r p y x }
{
    let column = x < SCREEN_WIDTH;
    let (cgram, p, y) = tested(y, vram, cgram, r.mosaic_vcounter, column, p)?;
    Ok(inner::candidates(vram, cgram, r, p, x, y))
}

// Lays a background's row y over both lines. On a refusal they are what they were.
pub fn render_bg_scanline(
    lines: &mut Lines,
    vram: &[u16],
    cgram: &[u16],
    r: PPURegisters,
    p: BgParams,
    y: usize,
) -> Result<(), Refusal>
    ensures { record { said = means result; left = lines.new } ≡ bg_laid_outcome vram.now cgram.now r p y lines.old }
{
    let (cgram, p, y) = tested(y, vram, cgram, r.mosaic_vcounter, true, p)?;
    inner::lay(lines, vram, cgram, r, p, y);
    Ok(())
}
