// What the public calls of this crate stand on, one channel of five bits at a time.
ghost use Rattle.std.specs.Prelude.{◌≡◌, ◌-◌, ◌<◌, ◌≤◌, min};
ghost use Rattle.colour.specs.Colour.{mixed, halved, channel_of, light, at_brightness};

use crate::Rgb;

// Add stops at 31, subtract at 0.
pub fn mix(main: u16, sub: u16, subtract: bool) -> u16
    requires { (main < 32) × (sub < 32) }
    ensures { (result ≡ mixed main sub subtract) × (result < 32) }
{
    if subtract {
        main.saturating_sub(sub)
    } else {
        (main + sub).min(31)
    }
}

// Half of c, rounded down, where `half` says so.
pub fn halve(c: u16, half: bool) -> u16
    ensures { (result ≡ halved c half) × (result ≤ c) }
{
    if half { c / 2 } else { c }
}

pub fn channel(main: u16, sub: u16, subtract: bool, half: bool) -> u16
    requires { (main < 32) × (sub < 32) }
    ensures { (result ≡ channel_of main sub subtract half) × (result < 32) }
{
    halve(mix(main, sub, subtract), half)
}

// One channel at a brightness, as a byte of the picture.
pub fn lighten(c: u16, brightness: u16) -> u8
    requires { (c < 32) × (brightness < 16) }
    ensures { result ≡ light c brightness }
{
    if brightness == 0 {
        return 0;
    }
    let s = c * (brightness + 1) / 16;
    (s * 8 + s / 4) as u8
}

pub fn apply_brightness(color: u16, brightness: u16) -> Rgb
    requires { brightness < 16 }
    ensures { result ≡ at_brightness color brightness }
{
    Rgb {
        red: lighten(color % 32, brightness),
        green: lighten(color / 32 % 32, brightness),
        blue: lighten(color / 1024 % 32, brightness),
    }
}
