// What a whole row asks of colour math. What holds for the whole row is found once.
ghost use Rattle.std.specs.Prelude.{◌≡◌, false, cond, ◌%◌, ◌<◌, get_or};
ghost use Rattle.base_lists.specs.Tab.{tab};
ghost use Rattle.registers.specs.Bits.{bit_of};
ghost use Rattle.row_blend.specs.Blend.{region};
ghost use Rattle.packed_blend.specs.steps.Blended.{blended, mixed_at};

use colour::color_math;
use line_pixels::inner::select;
use packed_pixels::inner::BACKDROP;
use row_blend::ColorMath;
use row_blend::inner::region;

// Is math enabled for a code?
fn enabled(layers: u32, code: u32) -> bool
    requires { code < 8 }
    ensures { result ≡ bit_of layers code }
{
    (layers >> code) % 2 == 1
}

// The colour of a pixel, before brightness, where main is kept and where math is allowed.
#[tactic(auto, unfolding(crate::specs::steps::Blended::blended))]
fn blend(s: ColorMath, main: u32, sub: u32, keep_main: bool, allowed: bool) -> u16
    ensures { result ≡ blended s main sub keep_main allowed }
{
    let main_color = select(keep_main, (main % 65536) as u16, 0);
    let clear = sub / 65536 % 8 == BACKDROP;
    let operand = select(s.use_subscreen & !clear, (sub % 65536) as u16, s.fixed);
    let half = s.half & (keep_main & !(s.use_subscreen & clear));
    let mixed = color_math(main_color, operand, s.subtract, half);
    let on = allowed & enabled(s.layers as u32, main / 65536 % 8);
    select(on, mixed, main_color)
}

// The colours of a row, before brightness.
pub fn mix(main: &[u32; 256], sub: &[u32; 256], s: ColorMath, inside: &[bool; 256]) -> [u16; 256]
    ensures { result ≡ tab 256 (mixed_at s main.now sub.now inside.now) }
{
    let kept_in = region(s.clip_mode, true);
    let kept_out = region(s.clip_mode, false);
    let math_in = region(s.math_region, true);
    let math_out = region(s.math_region, false);
    std::array::from_fn(move |x| {
        let keep_main = select(inside[x], kept_in, kept_out);
        let allowed = select(inside[x], math_in, math_out);
        blend(s, main[x], sub[x], keep_main, allowed)
    })
}

// The colours of a row without math.
pub fn keep(line: &[u32; 256], clip_mode: u8, inside: &[bool; 256]) -> [u16; 256]
    ensures { result ≡ tab 256 (λ x. cond (region clip_mode (get_or inside.now x false)) (get_or line.now x 0 % 65536) 0) }
{
    let kept_in = region(clip_mode, true);
    let kept_out = region(clip_mode, false);
    std::array::from_fn(move |x| {
        let keep_main = select(inside[x], kept_in, kept_out);
        select(keep_main, (line[x] % 65536) as u16, 0)
    })
}
