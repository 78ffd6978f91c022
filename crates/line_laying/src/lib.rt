// A layer's candidates on both screens, and their laying over both lines. Follows renderer.rs.
#![tactic(auto)]

pub mod inner;

ghost use Rattle.std.specs.Prelude.{◌≡◌};
ghost use Rattle.line_laying.specs.Laying.{candidate_in, lay_lines};

use line_pixels::{Candidate, Lines};
use line_window::Window;

// Where a layer is shown: the screens that light it (tm, ts), those that its window bars (tmw, tsw),
// and the window.
#[derive(Clone, Copy, Debug, PartialEq, Eq)]
pub struct Shown {
    pub to_main: bool,
    pub to_sub: bool,
    pub win_main: bool,
    pub win_sub: bool,
    pub window: Window,
}

// A layer's candidates at one pixel, on the main screen and on the sub screen.
#[derive(Clone, Copy, Debug, PartialEq, Eq)]
pub struct Candidates {
    pub main: Candidate,
    pub sub: Candidate,
}

// Lays a layer over both lines that has `row` at its 256 columns.
pub fn lay(lines: &mut Lines, row: &[Candidate; 256], s: Shown)
    ensures { lines.new ≡ lay_lines s (candidate_in row.now) lines.old }
{
    inner::lay(&mut lines.main, &mut lines.sub, row, s);
}

// The same of a row that has few opaque columns: the others are skipped.
pub fn lay_few(lines: &mut Lines, row: &[Candidate; 256], s: Shown)
    ensures { lines.new ≡ lay_lines s (candidate_in row.now) lines.old }
{
    inner::lay_few(&mut lines.main, &mut lines.sub, row, s);
}
