// Colour math at one pixel: main's colour and sub's, the layers that take part and the regions of the
// colour window. Follows renderer.rs, with its names.
#![tactic(auto)]

pub mod inner;

ghost use Rattle.std.specs.Prelude.{◌≡◌};
ghost use Rattle.row_blend.specs.Blend.{settings_of, colour_of};

use colour::color_math;
use line_pixels::LinePixel;
use line_pixels::inner::select;
use registers::PPURegisters;
use registers::inner::bit;

// What cgwsel, cgadsub and coldata say of colour math.
#[derive(Clone, Copy, Debug, PartialEq, Eq)]
pub struct ColorMath {
    // The regions that keep main's colour and that allow math, 0 to 3.
    pub clip_mode: u8,
    pub math_region: u8,
    // Is the operand the sub pixel?
    pub use_subscreen: bool,
    // The layers' bits, lowest BG1.
    pub layers: u8,
    pub half: bool,
    pub subtract: bool,
    // Coldata.
    pub fixed: u16,
}

impl ColorMath {
    // What the registers say.
    pub fn of(r: PPURegisters) -> ColorMath
        ensures { result ≡ settings_of r }
    {
        ColorMath {
            clip_mode: r.cgwsel / 64,
            math_region: r.cgwsel / 16 % 4,
            use_subscreen: bit(r.cgwsel, 1),
            layers: r.cgadsub % 64,
            half: bit(r.cgadsub, 6),
            subtract: bit(r.cgadsub, 7),
            fixed: r.coldata,
        }
    }
}

// The colour of a pixel, before brightness.
#[tactic(auto, unfolding(crate::specs::Blend::colour_of))]
pub fn color(s: ColorMath, main: LinePixel, sub: LinePixel, inside: bool) -> u16
    ensures { result ≡ colour_of s main sub inside }
{
    let keep_main = inner::region(s.clip_mode, inside);
    let main_color = select(keep_main, main.color, 0);
    let clear = inner::is_backdrop(sub.layer);
    let operand = select(s.use_subscreen & !clear, sub.color, s.fixed);
    let half = s.half & (keep_main & !(s.use_subscreen & clear));
    let mixed = color_math(main_color, operand, s.subtract, half);
    let on = inner::region(s.math_region, inside) & inner::layer_enabled(s.layers, main);
    select(on, mixed, main_color)
}
