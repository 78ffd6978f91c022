// What the list holds of a pixel.
ghost use Rattle.std.specs.Prelude.{◌<◌};

use line_pixels::{Candidate, Layer, LinePixel, Lines, Priority, deposit};
use test_digest::{fold, one};
use test_replay::agree;
use test_replay::pixels::same;

// A third of a sprite's priority, 0 for the backdrop's, 7 for any other.
fn third(z: Priority) -> u64
    ensures { result < 8 }
{
    if z == Priority::BACKDROP {
        return 0;
    }
    for prio in 0..4u8 {
        if z == Priority::obj(prio) {
            return u64::from(prio) + 1;
        }
    }
    7
}

// 1 for a sprite, 0 for the backdrop, 2 for any other.
fn origin(layer: Layer) -> u64
    ensures { result < 3 }
{
    match layer {
        Layer::Backdrop => 0,
        Layer::Obj => 1,
        _ => 2,
    }
}

// The colour, and 32,768 times the marks: 16 for a sprite, 2 times a third of its priority, 1 for the
// math mark.
fn whole(p: LinePixel) -> u64
    ensures { result < 4294967296 }
{
    let marks = origin(p.layer) * 16 + third(p.z) * 2 + one(p.obj_math);
    marks * 32768 + u64::from(p.color % 32768)
}

// All of main, then sub's colour and 32,768 for a sprite.
pub(crate) fn both(main: LinePixel, sub: LinePixel) -> u64 {
    let under = origin(sub.layer) << 15 | u64::from(sub.color % 32768);
    whole(main) << 32 | under
}

// Sub's priority and math mark show in no picture: where it holds a sprite, they are the sprite line's.
fn under(sub: LinePixel, c: Candidate) {
    agree((sub.layer != Layer::Obj) | same(sub, c.pixel));
}

// A digest of the sprite line over a backdrop.
pub(crate) fn line_digest(line: &[Candidate; 256], backdrop: LinePixel) -> u32 {
    line.iter()
        .fold(0, |d, c| fold(d, whole(deposit(backdrop, *c))))
}

// A digest with all of two lines, on which the sprite line was laid.
pub(crate) fn folded(digest: u32, lines: &Lines, line: &[Candidate; 256]) -> u32 {
    let mut d = digest;
    for ((main, sub), c) in lines.main.iter().zip(&lines.sub).zip(line) {
        under(*sub, *c);
        d = fold(d, both(*main, *sub));
    }
    d
}
