// What every program writes in the same way.
#![tactic(auto)]

pub mod inner;

ghost use Rattle.std.specs.Prelude.{◌≡◌};
ghost use Rattle.base_refusal.specs.Numbers.{number_of};
ghost use Rattle.base_refusal.specs.Answer.{refused};
ghost use Rattle.base_refusal.specs.Results.{means};

use base_refusal::Refusal;

// A line: the first `size` bytes of its text.
#[derive(Clone, Copy)]
pub struct Line {
    pub text: [u8; 11],
    pub size: usize,
}

// Writes a refusal's line, "refused N", to standard output, and hands the refusal on.
pub fn refuse(n: Refusal) -> Result<(), Refusal>
    ensures { means result ≡ refused (number_of n) }
{
    let line = inner::refusal_line(n);
    let text = line.text;
    let size = line.size;
    io::write_all(1, &text[..size]);
    Err(n)
}
