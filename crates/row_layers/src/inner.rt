// What the public calls of this crate stand on, for the crates above.
ghost use Rattle.std.specs.Prelude.{◌≡◌, ◌<◌};
ghost use Rattle.bg_modes.specs.Modes.{params_of};
ghost use Rattle.line_laying.specs.Laying.{lay_lines};
ghost use Rattle.bg_row.specs.Row.{bg_pixel};
ghost use Rattle.bg_layer.specs.Background.{bg_shown_by};
ghost use Rattle.row_tests.specs.Memory.{lent_scene};
ghost use Rattle.row_layers.specs.Layers.{layer_candidates, layered};

use bg_modes::inner::bg_params;
use line_laying::Candidates;
use line_pixels::Lines;
use registers::PPURegisters;
use registers::background::Background;
use registers::screen_row::ScreenRow;
use row_tests::inner::Memory;

// Lays background bg over both lines.
fn lay_bg(lines: &mut Lines, memory: Memory<'_>, r: PPURegisters, y: ScreenRow, bg: Background)
    ensures { lines.new ≡ lay_lines (bg_shown_by r (params_of r bg.number)) (bg_pixel memory.entry.vram.now memory.entry.cgram.now r (params_of r bg.number) y.number) lines.old }
{
    let p = bg_params(r, bg);
    let vram = memory.vram;
    bg_layer::inner::lay(lines, vram, memory.cgram, r, p, y);
}

// Lays a layer over both lines.
pub fn lay(lines: &mut Lines, memory: Memory<'_>, r: PPURegisters, y: ScreenRow, layer: usize)
    requires { layer < 5 }
    ensures { lines.new ≡ layered (lent_scene r memory.entry) y.number layer lines.old }
{
    match Background::try_from(layer) {
        Ok(bg) => lay_bg(lines, memory, r, y, bg),
        Err(_) => sprite_layer::inner::lay(lines, memory, r, y),
    }
}

// A layer's candidates at column x of row y.
pub fn candidates(
    memory: Memory<'_>,
    r: PPURegisters,
    x: usize,
    y: ScreenRow,
    layer: usize,
) -> Candidates
    requires { (x < 256) × (layer < 5) }
    ensures { result ≡ layer_candidates (lent_scene r memory.entry) y.number layer x }
{
    match Background::try_from(layer) {
        Ok(bg) => {
            let p = bg_params(r, bg);
            let vram = memory.vram;
            bg_layer::inner::candidates(vram, memory.cgram, r, p, x, y)
        }
        Err(_) => sprite_layer::inner::candidates(memory, r, x, y),
    }
}
