// What a whole row does with the rows of its layers: both lines, and colour math.
ghost use Rattle.std.specs.Prelude.{◌≡◌, ◌||◌, ◌<◌, eqb};
ghost use Rattle.base_lists.specs.Tab.{tab};
ghost use Rattle.packed_colours.specs.steps.Screens.{layer_window, layer_barred, screen_at, packed_sub_at, inside_at, colour_of_row};

use line_laying::inner::mask;
use line_window::Window;
use packed_blend::inner::{keep, mix};
use packed_pixels::inner::{backdrop, barred, line};
use registers::PPURegisters;
use registers::background::Background;
use registers::inner::bit;
use registers_windows::inner::{bg_window, color_window, obj_window};
use row_blend::ColorMath;
use row_blend::inner::by_window;

// The window of a layer: BG1 to BG4 are 0 to 3, the sprites 4.
fn layer_window(r: PPURegisters, layer: usize) -> Window
    ensures { result ≡ layer_window r layer }
{
    match Background::try_from(layer) {
        Ok(bg) => bg_window(r, bg),
        Err(_) => obj_window(r),
    }
}

// The columns at which a layer is not shown on a screen that has these registers.
fn layer_barred(r: PPURegisters, lit: u8, win: u8, layer: usize) -> [bool; 256]
    requires { layer < 5 }
    ensures { result ≡ tab 256 (layer_barred r lit win layer) }
{
    barred(layer_window(r, layer), bit(lit, layer), bit(win, layer))
}

// A screen's line, of the rows of BG1 to BG4 and the sprites.
fn screen(rows: &[[u32; 256]; 5], back: u32, r: PPURegisters, lit: u8, win: u8) -> [u32; 256]
    ensures { result ≡ tab 256 (screen_at rows.now back r lit win) }
{
    let barred = [
        layer_barred(r, lit, win, 0),
        layer_barred(r, lit, win, 1),
        layer_barred(r, lit, win, 2),
        layer_barred(r, lit, win, 3),
        layer_barred(r, lit, win, 4),
    ];
    line(back, rows, &barred)
}

// The sub screen's line, where colour math takes it.
fn sub_line(rows: &[[u32; 256]; 5], r: PPURegisters) -> [u32; 256]
    ensures { result ≡ tab 256 (packed_sub_at rows.now r) }
{
    if bit(r.cgwsel, 1) {
        return screen(rows, backdrop(r.coldata), r, r.ts, r.tsw);
    }
    [0; 256]
}

// The colour window over the columns, where a region asks for it.
fn inside(r: PPURegisters, s: ColorMath) -> [bool; 256]
    ensures { result ≡ tab 256 (inside_at r s) }
{
    let window = color_window(r);
    mask(window, by_window(s.clip_mode) | by_window(s.math_region))
}

// Does no layer take part in math, or no region allow it?
fn idle(s: ColorMath) -> bool
    ensures { result ≡ eqb s.layers 0 || eqb s.math_region 3 }
{
    (s.layers == 0) | (s.math_region == 3)
}

// The colours of a row, before brightness. Where there is no math, the sub screen is not laid.
pub fn colors(rows: &[[u32; 256]; 5], back: u32, r: PPURegisters) -> [u16; 256]
    ensures { result ≡ tab 256 (colour_of_row rows.now back r) }
{
    let s = ColorMath::of(r);
    let inside = inside(r, s);
    let main = screen(rows, back, r, r.tm, r.tmw);
    if idle(s) {
        return keep(&main, s.clip_mode, &inside);
    }
    let sub = sub_line(rows, r);
    mix(&main, &sub, s, &inside)
}
