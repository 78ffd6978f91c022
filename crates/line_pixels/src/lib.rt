// The pixels of a line before colour math, and the deposit of one on another. Follows renderer.rs,
// with its names.
#![tactic(auto)]

pub mod inner;

ghost use Rattle.std.specs.Prelude.{◌≡◌, leb};
ghost use Rattle.base_refusal.specs.Results.{means};
ghost use Rattle.base_refusal.specs.Answer.{value};
ghost use Rattle.registers.specs.Bits.{of_background};
ghost use Rattle.line_pixels.specs.Pixels.{priority, sprite_priority, layer_of, backdrop_of, none, backdrop_lines, deposited};

use base_refusal::Refusal;
use registers::background::Background;

// The layer that a pixel came from.
#[derive(Clone, Copy, Debug, PartialEq, Eq)]
pub enum Layer {
    Backdrop,
    Bg1,
    Bg2,
    Bg3,
    Bg4,
    Obj,
}

impl Layer {
    // The layer of background bg: BG1 is 0.
    pub fn from_bg(bg: usize) -> Result<Layer, Refusal>
        ensures { means result ≡ of_background bg (value (layer_of bg)) }
    {
        Ok(Layer::from(Background::try_from(bg)?))
    }
}

impl From<Background> for Layer {
    ghost from_gives = { λ bg layer. layer ≡ layer_of bg.number };

    fn from(bg: Background) -> Layer {
        match bg.number {
            0 => Layer::Bg1,
            1 => Layer::Bg2,
            2 => Layer::Bg3,
            _ => Layer::Bg4,
        }
    }
}

// How near a pixel is: the greater is in front. Its users see no number, so that it cannot pass
// for a colour.
#[derive(Clone, Copy, Debug, PartialEq, Eq)]
pub struct Priority(u8);

impl Priority {
    // The backdrop's: behind everything.
    pub const BACKDROP: Priority = Priority(0);

    // A background's, by its place in the table of modes.
    pub fn new(z: u8) -> Priority
        ensures { result ≡ priority z }
    {
        Priority(z)
    }

    // A sprite's, by its two priority bits.
    pub fn obj(prio: u8) -> Priority
        ensures { result ≡ sprite_priority prio }
    {
        Priority(3 + 3 * (prio % 4))
    }

    // Is it at least as great as the other?
    pub fn covers(self, other: Priority) -> bool
        ensures { result ≡ leb other.0 self.0 }
    {
        other.0 <= self.0
    }
}

// A pixel of a screen, main or sub, before colour math. The math mark is a sprite's with palette 4
// or more.
#[derive(Clone, Copy, Debug, PartialEq, Eq)]
pub struct LinePixel {
    pub color: u16,
    pub z: Priority,
    pub layer: Layer,
    pub obj_math: bool,
}

impl LinePixel {
    // The backdrop, in a colour.
    pub fn backdrop(color: u16) -> LinePixel
        ensures { result ≡ backdrop_of color }
    {
        LinePixel {
            color,
            z: Priority::BACKDROP,
            layer: Layer::Backdrop,
            obj_math: false,
        }
    }
}

// What a layer has at a pixel: the pixel, and whether it is opaque.
#[derive(Clone, Copy, Debug, PartialEq, Eq)]
pub struct Candidate {
    pub opaque: bool,
    pub pixel: LinePixel,
}

impl Candidate {
    // No candidate.
    pub fn none() -> Candidate
        ensures { result ≡ none }
    {
        Candidate {
            opaque: false,
            pixel: LinePixel::backdrop(0),
        }
    }
}

// The lines of both screens.
#[derive(Clone, Copy, Debug, PartialEq, Eq)]
pub struct Lines {
    pub main: [LinePixel; 256],
    pub sub: [LinePixel; 256],
}

impl Lines {
    // The lines of a row before any layer is laid: main in colour word 0, sub in coldata.
    #[tactic(auto, unfolding(crate::specs::Pixels::backdrop_line))]
    pub fn backdrops(main: u16, sub: u16) -> Lines
        ensures { result ≡ backdrop_lines main sub }
    {
        Lines {
            main: [LinePixel::backdrop(main); 256],
            sub: [LinePixel::backdrop(sub); 256],
        }
    }
}

// The pixel that is held after a candidate came: its own, where it is opaque and its priority is at
// least as great.
pub fn deposit(held: LinePixel, c: Candidate) -> LinePixel
    ensures { result ≡ deposited held c }
{
    inner::pick(c.opaque & c.pixel.z.covers(held.z), c.pixel, held)
}
