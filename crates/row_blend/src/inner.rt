// What the public calls of this crate stand on.
ghost use Rattle.std.specs.Prelude.{◌≡◌, ◌<◌};
ghost use Rattle.row_blend.specs.Blend.{region, math_bit, mark_needed, is_backdrop, enabled};
ghost use Rattle.row_blend.specs.steps.Blend.{by_window};

use line_pixels::{Layer, LinePixel};
use registers::inner::bit;

// Always, inside, outside, never.
pub fn region(mode: u8, inside: bool) -> bool
    ensures { result ≡ region mode inside }
{
    match mode {
        0 => true,
        1 => inside,
        2 => !inside,
        _ => false,
    }
}

// Does the region ask for the window?
pub fn by_window(mode: u8) -> bool
    ensures { result ≡ by_window mode }
{
    (mode == 1) | (mode == 2)
}

// The layer's bit of cgadsub.
fn math_bit(layer: Layer) -> usize
    ensures { (result ≡ math_bit layer) × (result < 6) }
{
    match layer {
        Layer::Bg1 => 0,
        Layer::Bg2 => 1,
        Layer::Bg3 => 2,
        Layer::Bg4 => 3,
        Layer::Obj => 4,
        Layer::Backdrop => 5,
    }
}

// Sprites take part only with the math mark.
fn mark_needed(layer: Layer) -> bool
    ensures { result ≡ mark_needed layer }
{
    layer == Layer::Obj
}

pub fn is_backdrop(layer: Layer) -> bool
    ensures { result ≡ is_backdrop layer }
{
    layer == Layer::Backdrop
}

// Is math enabled for the layer that main's pixel came from?
pub fn layer_enabled(layers: u8, p: LinePixel) -> bool
    ensures { result ≡ enabled layers p }
{
    let on = bit(layers, math_bit(p.layer));
    on & (p.obj_math | !mark_needed(p.layer))
}
