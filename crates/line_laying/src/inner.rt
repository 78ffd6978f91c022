// What the public calls of this crate stand on: one screen at a time, and one column.
ghost use Rattle.std.specs.Prelude.{◌≡◌, false, ◌&&◌, not, get_or, length};
ghost use Rattle.base_lists.specs.Tab.{tab};
ghost use Rattle.line_window.specs.Window.{masked};
ghost use Rattle.line_laying.specs.Laying.{on_screen, candidates_of, candidate_in, lay_line};
ghost use Rattle.line_laying.specs.steps.Laying.{marked};

use crate::{Candidates, Shown};
use line_pixels::{Candidate, LinePixel};
use line_window::Window;

// The candidate of a layer that has c, where it is shown.
pub fn on_screen(c: Candidate, shown: bool) -> Candidate
    ensures { result ≡ on_screen shown c }
{
    if c.opaque & shown {
        c
    } else {
        Candidate::none()
    }
}

// The window's mask over the columns, made only where it is on.
pub fn mask(w: Window, on: bool) -> [bool; 256]
    ensures { result ≡ tab 256 (λ x. on && masked w x) }
{
    if on {
        std::array::from_fn(|x| line_window::inner::masked(w, x))
    } else {
        [false; 256]
    }
}

// A candidate that is no longer opaque where a mask bars it.
fn unless(c: Candidate, barred: bool) -> Candidate
    ensures { result ≡ marked (not barred) c }
{
    Candidate {
        opaque: c.opaque & !barred,
        ..c
    }
}

// Lays a row over a line, except at the columns that the mask bars, where it does.
fn lay_line(line: &mut [LinePixel; 256], row: &[Candidate; 256], win: bool, mask: &[bool; 256])
    ensures { line.new ≡ lay_line (λ x. marked (not (win && get_or mask.now x false)) (candidate_in row.now x)) line.old }
{
    for x in 0..256 {
        line[x] = line_pixels::deposit(line[x], unless(row[x], win & mask[x]));
    }
}

// Lays a row over the line of a screen, if the screen lights it.
pub fn lay_screen(
    line: &mut [LinePixel; 256],
    row: &[Candidate; 256],
    lit: bool,
    win: bool,
    mask: &[bool; 256],
)
    ensures { line.new ≡ lay_line (λ x. on_screen (lit && not (win && get_or mask.now x false)) (candidate_in row.now x)) line.old }
{
    if lit {
        lay_line(line, row, win, mask);
    }
}

// Does the window's mask hold x? It is tested only where it is on.
pub fn masked_if(w: Window, on: bool, x: usize) -> bool
    ensures { result ≡ on && masked w x }
{
    on && line_window::inner::masked(w, x)
}

// The candidates at column x of a layer that has c there.
pub fn on_screens(c: Candidate, s: Shown, x: usize) -> Candidates
    ensures { result ≡ candidates_of s x c }
{
    let masked = masked_if(s.window, s.win_main | s.win_sub, x);
    Candidates {
        main: on_screen(c, s.to_main & !(s.win_main & masked)),
        sub: on_screen(c, s.to_sub & !(s.win_sub & masked)),
    }
}

// Nothing is done. Both lines have 256 pixels: said for a caller to whom they are lent in one struct.
pub fn whole(main: &[LinePixel; 256], sub: &[LinePixel; 256])
    ensures { (length main.now ≡ 256) × (length sub.now ≡ 256) }
{}

// Lays a row over the lines of both screens.
pub fn lay(
    main: &mut [LinePixel; 256],
    sub: &mut [LinePixel; 256],
    row: &[Candidate; 256],
    s: Shown,
)
    ensures main { main.new ≡ lay_line (λ x. (candidates_of s x (candidate_in row.now x)).main) main.old }
    ensures sub { sub.new ≡ lay_line (λ x. (candidates_of s x (candidate_in row.now x)).sub) sub.old }
{
    let mask = mask(s.window, s.win_main | s.win_sub);
    lay_screen(main, row, s.to_main, s.win_main, &mask);
    lay_screen(sub, row, s.to_sub, s.win_sub, &mask);
}

// Lays the opaque columns of a row over the lines of both screens.
pub fn lay_few(
    main: &mut [LinePixel; 256],
    sub: &mut [LinePixel; 256],
    row: &[Candidate; 256],
    s: Shown,
)
    ensures main { main.new ≡ lay_line (λ x. (candidates_of s x (candidate_in row.now x)).main) main.old }
    ensures sub { sub.new ≡ lay_line (λ x. (candidates_of s x (candidate_in row.now x)).sub) sub.old }
{
    for x in 0..256 {
        let c = row[x];
        if !c.opaque {
            continue;
        }
        let seen = on_screens(c, s, x);
        main[x] = line_pixels::deposit(main[x], seen.main);
        sub[x] = line_pixels::deposit(sub[x], seen.sub);
    }
}
