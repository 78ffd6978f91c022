// What the public calls of this crate stand on, for the crates above.
ghost use Rattle.std.specs.Prelude.{◌≡◌, ◌<◌};
ghost use Rattle.line_laying.specs.Laying.{candidates_of, lay_lines};
ghost use Rattle.bg_row.specs.Row.{bg_pixel};
ghost use Rattle.bg_layer.specs.Background.{bg_shown_by};

use bg_map::inner::{BgDrawn, source_column, source_line};
use bg_tile::inner::pixel;
use line_laying::inner::{on_screens, whole};
use line_laying::{Candidates, Shown};
use line_pixels::Lines;
use line_pixels::inner::bg_index;
use registers::PPURegisters;
use registers::background::Background;
use registers::inner::bit;
use registers::screen_row::ScreenRow;
use registers_windows::inner::bg_window;

// Where the background is shown.
#[tactic(auto, unfolding(crate::specs::Background::bg_shown_by))]
fn shown(r: PPURegisters, p: BgDrawn) -> Shown
    ensures { result ≡ bg_shown_by r p.params }
{
    let bg = Background {
        number: bg_index(p.params.layer),
    };
    Shown {
        to_main: p.params.to_main,
        to_sub: p.params.to_sub,
        win_main: bit(r.tmw, bg.number),
        win_sub: bit(r.tsw, bg.number),
        window: bg_window(r, bg),
    }
}

// The candidates at column x of row y.
pub fn candidates(
    vram: &[u16],
    cgram: &[u16; 256],
    r: PPURegisters,
    p: BgDrawn,
    x: usize,
    y: ScreenRow,
) -> Candidates
    requires { x < 256 }
    ensures { result ≡ candidates_of (bg_shown_by r p.params) x (bg_pixel vram.now cgram.now r p.params y.number x) }
{
    let px = source_column(r, p.params, x);
    let py = source_line(r, p.params, y);
    let c = pixel(vram, cgram, p, r.direct_color(), px, py);
    on_screens(c, shown(r, p), x)
}

// Lays the background over both lines. Where neither screen lights it, nothing is drawn.
pub fn lay(
    lines: &mut Lines,
    vram: &[u16],
    cgram: &[u16; 256],
    r: PPURegisters,
    p: BgDrawn,
    y: ScreenRow,
)
    ensures { lines.new ≡ lay_lines (bg_shown_by r p.params) (bg_pixel vram.now cgram.now r p.params y.number) lines.old }
{
    whole(&lines.main, &lines.sub);
    if p.params.to_main | p.params.to_sub {
        let row = bg_row::inner::row(vram, cgram, r, p, y);
        line_laying::lay(lines, &row, shown(r, p));
    }
}
