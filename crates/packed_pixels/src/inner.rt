// What a whole row asks of packed pixels.
ghost use Rattle.std.specs.Prelude.{◌≡◌, cond, not, ◌+◌, ◌<◌, ◌≤◌, get_or};
ghost use Rattle.base_lists.specs.Tab.{tab};
ghost use Rattle.line_pixels.specs.Pixels.{backdrop_of};
ghost use Rattle.line_laying.specs.Laying.{shown_at};
ghost use Rattle.packed_pixels.specs.steps.Packed.{head_of, head_end, packed, held_after, held_unless, line_rule};

use line_laying::inner::mask;
use line_pixels::Priority;
use line_pixels::inner::{rank, select};
use line_window::Window;

// The backdrop's code.
pub const BACKDROP: u32 = 5;

// Where a packed pixel has its code, above the 16 bits of the colour, and where it has the rank of its
// priority, above the three of the code.
const CODE_PLACE: u32 = 65536;

const RANK_PLACE: u32 = 524288;

// What a packed pixel has above its colour: a code below 8, and its priority.
#[derive(Clone, Copy, Debug, PartialEq, Eq)]
pub struct Head {
    pub bits: u32,
    ghost below: { bits < head_end },
}

impl Head {
    pub fn new(code: u32, z: Priority) -> Head
        requires { code < 8 }
        ensures { result.bits ≡ head_of code z }
    {
        Head {
            bits: CODE_PLACE * code + RANK_PLACE * rank(z),
        }
    }
}

// A packed pixel of the backdrop.
#[tactic(auto, unfolding(crate::specs::steps::Packed::packed))]
pub fn backdrop(color: u16) -> u32
    ensures { result ≡ packed (backdrop_of color) }
{
    Head::new(BACKDROP, Priority::BACKDROP).bits + color as u32
}

// The pixel that is held after a candidate came.
fn lay(held: u32, c: u32) -> u32
    ensures { result ≡ held_after held c }
{
    select(held / RANK_PLACE <= c / RANK_PLACE, c, held)
}

// The same, unless the candidate is barred.
fn lay_unless(barred: bool, held: u32, c: u32) -> u32
    ensures { result ≡ held_unless barred held c }
{
    lay(held, select(barred, 0, c))
}

// The columns at which a layer is not shown on a screen: all, where the screen does not light it, and
// otherwise those that its window bars.
pub fn barred(w: Window, lit: bool, win: bool) -> [bool; 256]
    ensures { result ≡ tab 256 (λ x. not (shown_at lit win w x)) }
{
    if lit {
        return mask(w, win);
    }
    [true; 256]
}

// A column of a line of one screen: the layers are laid over the backdrop one after the other.
#[tactic(auto, unfolding(crate::specs::steps::Packed::laid_to))]
fn column(back: u32, rows: &[[u32; 256]; 5], barred: &[[bool; 256]; 5], x: usize) -> u32
    requires { x < 256 }
    ensures { result ≡ line_rule back rows.now barred.now x }
{
    let mut held = back;
    for (row, barred) in rows.iter().zip(barred) {
        held = lay_unless(barred[x], held, row[x]);
    }
    held
}

// A line of one screen: the rows of the five layers over a backdrop, each except at the columns that
// are barred for it.
pub fn line(back: u32, rows: &[[u32; 256]; 5], barred: &[[bool; 256]; 5]) -> [u32; 256]
    ensures { result ≡ tab 256 (line_rule back rows.now barred.now) }
{
    std::array::from_fn(|x| column(back, rows, barred, x))
}

// Writes a row's 256 columns from a longer line, of which column `from` is the first.
pub fn from_column<const N: usize>(out: &mut [u32; 256], line: &[u32; N], from: usize)
    requires { from + 256 ≤ N }
    ensures { out.new ≡ tab 256 (λ x. get_or line.now (x + from) 0) }
{
    let line = &line[..];
    out.copy_from_slice(&line[from..from + 256]);
}
