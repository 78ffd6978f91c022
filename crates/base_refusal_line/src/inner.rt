// The text of a line, for the programs that write it.
ghost use Rattle.base_refusal.specs.Numbers.{number_of};
ghost use Rattle.base_refusal_line.specs.Lines.{Spelt, refused_line};

use crate::Line;
use base_refusal::Refusal;

// A refusal's line.
pub fn refusal_line(n: Refusal) -> Line
    ensures { Spelt result (refused_line (number_of n)) }
{
    let k = n.number();
    if k < 10 {
        let mut text = *b"refused _\n\0";
        text[8] = 48 + k;
        return Line { text, size: 10 };
    }
    let mut text = *b"refused __\n";
    text[8] = 48 + k / 10;
    text[9] = 48 + k % 10;
    Line { text, size: 11 }
}
