// What the public calls of this crate stand on, for the crates above. A pixel is picked field by
// field: a select, not a branch.
ghost use Rattle.std.specs.Prelude.{◌≡◌, cond, ◌+◌, ◌<◌, ◌≤◌};
ghost use Rattle.line_pixels.specs.Pixels.{background_of};

use crate::{Layer, LinePixel, Priority};

// The number of a layer's background; 4, which no background has, for the backdrop and the sprites.
pub fn bg_index(layer: Layer) -> usize
    ensures { result ≡ background_of layer }
{
    match layer {
        Layer::Backdrop => 4,
        Layer::Bg1 => 0,
        Layer::Bg2 => 1,
        Layer::Bg3 => 2,
        Layer::Bg4 => 3,
        Layer::Obj => 4,
    }
}

// A priority's rank among those of a line: from 1 on, so that 0 is left for no pixel.
pub fn rank(z: Priority) -> u32
    ensures { (result ≡ z.0 + 1) × (result ≤ 256) }
{
    z.0 as u32 + 1
}

// Of two values the first, where `on` says so, and otherwise the second.
pub fn select<T: Copy>(on: bool, a: T, b: T) -> T
    ensures { result ≡ cond on a b }
{
    if on { a } else { b }
}

// Of two pixels, field by field.
pub fn pick(on: bool, a: LinePixel, b: LinePixel) -> LinePixel
    ensures { result ≡ cond on a b }
{
    LinePixel {
        color: select(on, a.color, b.color),
        z: select(on, a.z, b.z),
        layer: select(on, a.layer, b.layer),
        obj_math: select(on, a.obj_math, b.obj_math),
    }
}
