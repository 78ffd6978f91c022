// The windows, read from the registers. Follows registers.rs, with its names. A public call tests
// its own arguments and then asks `inner`, where the work is done.
#![tactic(auto)]

pub mod inner;

ghost use Rattle.std.specs.Prelude.{◌≡◌};
ghost use Rattle.base_refusal.specs.Results.{means};
ghost use Rattle.base_refusal.specs.Answer.{value};
ghost use Rattle.registers.specs.Bits.{of_background};
ghost use Rattle.line_window.specs.Window.{inside, masked};
ghost use Rattle.registers_windows.specs.Windows.{at_column, bg_window, sprite_window, colour_window};

use base_refusal::Refusal;
use line_window::Window;
use line_window::inner::{inside, masked};
use registers::PPURegisters;
use registers::background::Background;
use registers::constants::SCREEN_WIDTH;

// Does the window hold column x?
fn at_column(w: Window, x: usize) -> Result<bool, Refusal>
    ensures { means result ≡ at_column x (value (masked w x)) }
{
    if x < SCREEN_WIDTH {
        Ok(masked(w, x))
    } else {
        Err(Refusal::Argument)
    }
}

// Is column x between two edges?
fn between(left: u8, right: u8, x: usize) -> Result<bool, Refusal>
    ensures { means result ≡ at_column x (value (inside left right x)) }
{
    if x < SCREEN_WIDTH {
        Ok(inside(left, right, x))
    } else {
        Err(Refusal::Argument)
    }
}

// Does window 1 hold column x?
pub fn in_window1(r: PPURegisters, x: usize) -> Result<bool, Refusal>
    ensures { means result ≡ at_column x (value (inside r.wh0 r.wh1 x)) }
{
    between(r.wh0, r.wh1, x)
}

// Does window 2?
pub fn in_window2(r: PPURegisters, x: usize) -> Result<bool, Refusal>
    ensures { means result ≡ at_column x (value (inside r.wh2 r.wh3 x)) }
{
    between(r.wh2, r.wh3, x)
}

// Is background bg masked at column x?
pub fn bg_window_masked(r: PPURegisters, bg: usize, x: usize) -> Result<bool, Refusal>
    ensures { means result ≡ of_background bg (at_column x (value (masked (bg_window r bg) x))) }
{
    at_column(inner::bg_window(r, Background::try_from(bg)?), x)
}

// Are the sprites masked at column x?
pub fn obj_window_masked(r: PPURegisters, x: usize) -> Result<bool, Refusal>
    ensures { means result ≡ at_column x (value (masked (sprite_window r) x)) }
{
    at_column(inner::obj_window(r), x)
}

// Does the colour window hold column x?
pub fn in_color_window(r: PPURegisters, x: usize) -> Result<bool, Refusal>
    ensures { means result ≡ at_column x (value (masked (colour_window r) x)) }
{
    at_column(inner::color_window(r), x)
}
