// Colours: BGR555 words, red in the low five bits. Follows renderer.rs, with its names.
#![tactic(auto)]

pub mod inner;

ghost use Rattle.std.specs.Prelude.{◌≡◌};
ghost use Rattle.base_refusal.specs.Results.{means};
ghost use Rattle.base_refusal.specs.Answer.{value};
ghost use Rattle.colour.specs.Colour.{direct_colour, math_of, at_brightness, of_brightness};

use base_refusal::Refusal;

// A colour of the picture, eight bits for each channel.
#[derive(Clone, Copy, Debug, PartialEq, Eq)]
pub struct Rgb {
    pub red: u8,
    pub green: u8,
    pub blue: u8,
}

// The colour word of an 8bpp colour index and its tile's palette number in direct colour.
pub fn direct_color(index: u8, palette_num: u8) -> u16
    ensures { result ≡ direct_colour index palette_num }
{
    let index = index as u16;
    let pal = palette_num as u16;
    let r = index % 8 * 4 + pal % 2 * 2;
    let g = index / 8 % 8 * 4 + pal / 2 % 2 * 2;
    let b = index / 64 % 4 * 8 + pal / 4 % 2 * 4;
    r + g * 32 + b * 1024
}

// Adds or subtracts channel by channel, and then halves where `half` says so.
pub fn color_math(main: u16, sub: u16, subtract: bool, half: bool) -> u16
    ensures { result ≡ math_of main sub subtract half }
{
    let r = inner::channel(main % 32, sub % 32, subtract, half);
    let g = inner::channel(main / 32 % 32, sub / 32 % 32, subtract, half);
    let b = inner::channel(main / 1024 % 32, sub / 1024 % 32, subtract, half);
    r + g * 32 + b * 1024
}

// The colour as the picture has it, at a brightness of 0 to 15.
pub fn apply_brightness(color: u16, brightness: u16) -> Result<Rgb, Refusal>
    ensures { means result ≡ of_brightness brightness (value (at_brightness color brightness)) }
{
    if brightness < 16 {
        Ok(inner::apply_brightness(color, brightness))
    } else {
        Err(Refusal::Argument)
    }
}
