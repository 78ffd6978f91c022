// What the public calls of this crate stand on, for the crates above: a window's settings.
ghost use Rattle.std.specs.Prelude.{◌≡◌};
ghost use Rattle.registers_windows.specs.Windows.{window_of, bg_window, sprite_window, colour_window};

use line_window::Window;
use registers::PPURegisters;
use registers::background::Background;
use registers::inner::{bit, nibble};

// A window's settings: the four bits `sel`, and the logic.
fn window(r: PPURegisters, sel: u8, logic: u8) -> Window
    ensures { result ≡ window_of r sel logic }
{
    Window {
        left1: r.wh0,
        right1: r.wh1,
        left2: r.wh2,
        right2: r.wh3,
        invert1: bit(sel, 0),
        enable1: bit(sel, 1),
        invert2: bit(sel, 2),
        enable2: bit(sel, 3),
        logic,
    }
}

pub fn bg_window(r: PPURegisters, bg: Background) -> Window
    ensures { result ≡ bg_window r bg.number }
{
    let sel = nibble(r.w12sel, r.w34sel, bg.number);
    window(r, sel, (r.wbglog >> (2 * bg.number)) % 4)
}

pub fn obj_window(r: PPURegisters) -> Window
    ensures { result ≡ sprite_window r }
{
    window(r, r.wobjsel % 16, r.wobjlog % 4)
}

pub fn color_window(r: PPURegisters) -> Window
    ensures { result ≡ colour_window r }
{
    window(r, r.wobjsel / 16, r.wobjlog / 4 % 4)
}
