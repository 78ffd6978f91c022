// What the public call of this crate stands on, and those of the crates above. Nothing is tested
// at each pixel again: the registers are read once, and the colour window is made only where a region
// asks for it.
ghost use Rattle.std.specs.Prelude.{◌≡◌, false, cond, ◌<◌, length, get_or};
ghost use Rattle.base_lists.specs.Tab.{tab};
ghost use Rattle.line_pixels.specs.Pixels.{no_pixel};
ghost use Rattle.row_blend.specs.Blend.{region, colour_of};
ghost use Rattle.row_composite.specs.Composite.{row_byte_at, black_row, row_bytes};

use colour::inner::lighten;
use line_laying::inner::mask;
use line_pixels::inner::select;
use line_pixels::{LinePixel, Lines};
use registers::PPURegisters;
use registers::constants::SCREEN_WIDTH;
use registers_windows::inner::color_window;
use row_blend::ColorMath;
use row_blend::inner::{by_window, region};

// The colours of a row, before brightness.
fn mix(lines: &Lines, s: ColorMath, inside: &[bool; 256]) -> [u16; 256]
    ensures { result ≡ tab 256 (λ x. colour_of s (get_or lines.now.main x no_pixel) (get_or lines.now.sub x no_pixel) (get_or inside.now x false)) }
{
    std::array::from_fn(|x| row_blend::color(s, lines.main[x], lines.sub[x], inside[x]))
}

// The colours of a row without math.
fn keep(line: &[LinePixel; 256], clip_mode: u8, inside: &[bool; 256]) -> [u16; 256]
    ensures { result ≡ tab 256 (λ x. cond (region clip_mode (get_or inside.now x false)) (get_or line.now x no_pixel).color 0) }
{
    std::array::from_fn(|x| select(region(clip_mode, inside[x]), line[x].color, 0))
}

// The colours of a row. Where no layer takes part in math, or no region allows it, none is done.
fn colors(lines: &Lines, s: ColorMath, inside: &[bool; 256]) -> [u16; 256]
    ensures { result ≡ tab 256 (λ x. colour_of s (get_or lines.now.main x no_pixel) (get_or lines.now.sub x no_pixel) (get_or inside.now x false)) }
{
    if s.layers == 0 || s.math_region == 3 {
        return keep(&lines.main, s.clip_mode, inside);
    }
    mix(lines, s, inside)
}

// Writes a row of colours at a brightness.
pub fn brighten(row: &mut [u8; 768], colors: &[u16; 256], brightness: u16)
    requires { brightness < 16 }
    ensures { row.new ≡ tab 768 (row_byte_at (λ x. get_or colors.now x 0) brightness) }
{
    for x in 0..SCREEN_WIDTH {
        let c = colors[x];
        row[x * 3] = lighten(c % 32, brightness);
        row[x * 3 + 1] = lighten(c / 32 % 32, brightness);
        row[x * 3 + 2] = lighten(c / 1024 % 32, brightness);
    }
}

// Writes a black row.
pub fn black(row: &mut [u8; 768])
    ensures { row.new ≡ black_row }
{
    row.fill(0);
}

// Writes the row that both lines make.
pub fn composite(row: &mut [u8; 768], lines: &Lines, r: PPURegisters)
    ensures { row.new ≡ row_bytes r lines.now }
{
    if r.force_blank() {
        black(row);
        return;
    }
    let s = ColorMath::of(r);
    let w = color_window(r);
    let inside = mask(w, by_window(s.clip_mode) | by_window(s.math_region));
    let colors = colors(lines, s, &inside);
    brighten(row, &colors, r.brightness() as u16);
}
