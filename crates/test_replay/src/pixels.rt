// What the two screens hold of a column, and of a row.
ghost use Rattle.std.specs.Prelude.{◌≡◌, ◌&&◌};
ghost use Rattle.test_replay.specs.Pixels.{bare_of, laid_of, same_of};

use crate::{agree, settle};
use base_refusal::Refusal;
use line_laying::Candidates;
use line_pixels::inner::bg_index;
use line_pixels::{LinePixel, deposit};

// A column of the main screen and of the sub screen.
#[derive(Clone, Copy)]
pub struct Pixels {
    pub main: LinePixel,
    pub sub: LinePixel,
}

// The backdrops, in these colours.
pub fn bare(main: u16, sub: u16) -> Pixels
    ensures { result ≡ bare_of main sub }
{
    Pixels {
        main: LinePixel::backdrop(main),
        sub: LinePixel::backdrop(sub),
    }
}

// The column after a layer's candidates came. A refusal writes a line that no list has.
pub fn laid(held: Pixels, answer: Result<Candidates, Refusal>) -> Pixels
    ensures { result ≡ laid_of held answer }
{
    match settle(answer) {
        Ok(c) => Pixels {
            main: deposit(held.main, c.main),
            sub: deposit(held.sub, c.sub),
        },
        Err(_) => held,
    }
}

// Are two pixels the same? The backdrop and a sprite differ in their priority.
pub fn same(a: LinePixel, b: LinePixel) -> bool
    ensures { result ≡ same_of a b }
{
    (a.z == b.z)
        & (bg_index(a.layer) == bg_index(b.layer))
        & (a.color == b.color)
        & (a.obj_math == b.obj_math)
}

// Is this what the lines hold? If not, a word that no list has is written.
pub fn compare(held: Pixels, main: LinePixel, sub: LinePixel) -> bool
    ensures { result ≡ (same_of held.main main && same_of held.sub sub) }
{
    agree(same(held.main, main) & same(held.sub, sub))
}
