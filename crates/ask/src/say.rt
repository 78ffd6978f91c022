// Writing an answer: a text in which each # stands for what is said there.
use crate::cells;
use crate::cells::Cells;
use base_refusal::Refusal;
use line_laying::Candidates;
use line_pixels::inner::rank;
use line_pixels::{Candidate, Layer, LinePixel, Priority};

// What is said at a # of a text.
#[derive(Clone, Copy)]
pub(crate) enum Said {
    Number(u64),
    // A number with its sign.
    Signed(i16),
    // A byte in two digits.
    Digits(u8),
    Name(&'static [u8]),
    Refused(Refusal),
    // Only the text before it is written.
    Nothing,
    // Left out, together with the text before it.
    LeftOut,
}

// Writes a part of a text.
pub(crate) fn part(text: &[u8], from: usize, to: usize) {
    if let Some(part) = text.get(from..to) {
        io::write_all(1, part);
    }
}

fn write(said: Said) {
    match said {
        Said::Number(n) => {
            io::print_decimal(1, n);
        }
        Said::Signed(n) => {
            if n < 0 {
                io::write_all(1, b"-");
            }
            io::print_decimal(1, u64::from(n.unsigned_abs()));
        }
        Said::Digits(byte) => {
            io::print_hex(1, u64::from(byte), 2);
        }
        Said::Name(name) => {
            io::write_all(1, name);
        }
        Said::Refused(r) => {
            io::write_all(1, b"refused ");
            io::print_decimal(1, u64::from(r.number()));
        }
        Said::Nothing | Said::LeftOut => {}
    }
}

// Writes a part of a text, and what is said at its end.
fn item(text: &[u8], said: Option<Said>) {
    match said {
        Some(Said::LeftOut) => {}
        Some(n) => {
            io::write_all(1, text);
            write(n);
        }
        None => {
            io::write_all(1, text);
        }
    }
}

// Writes a text, and at each of its # what is said there.
pub(crate) fn told(text: &[u8], said: &[Said]) {
    let mut rest = said.iter();
    for part in text.split(|b| *b == b'#') {
        item(part, rest.next().copied());
    }
}

// Writes the whole of an answer.
pub(crate) fn single(said: Said) {
    told(b" -> #", &[said]);
}

// A number, or the refusal of it.
pub(crate) fn number<T: Copy + Into<u64>>(answer: Result<T, Refusal>) -> Said {
    answer.map_or_else(Said::Refused, |n| Said::Number(n.into()))
}

// Tells what is answered, or writes its refusal as the whole of an answer.
pub(crate) fn answered<T: Copy, F: Fn(T)>(answer: Result<T, Refusal>, told: F)
    requires { F.IsAlwaysCallable told }
{
    match answer {
        Ok(x) => told(x),
        Err(r) => single(Said::Refused(r)),
    }
}

// Begins an answer in which a refusal stands before what is told beside it: what is answered, or on a
// refusal something else.
pub(crate) fn begun<T: Copy>(answer: Result<T, Refusal>, other: T) -> T {
    match answer {
        Ok(x) => {
            io::write_all(1, b" -> ");
            x
        }
        Err(r) => {
            told(b" -> #, ", &[Said::Refused(r)]);
            other
        }
    }
}

pub(crate) fn layer(l: Layer) -> Said {
    match l {
        Layer::Bg1 => Said::Name(b"BG1"),
        Layer::Bg2 => Said::Name(b"BG2"),
        Layer::Bg3 => Said::Name(b"BG3"),
        Layer::Bg4 => Said::Name(b"BG4"),
        Layer::Obj => Said::Name(b"OBJ"),
        Layer::Backdrop => Said::Name(b"backdrop"),
    }
}

pub(crate) fn priority(z: Priority) -> u64 {
    u64::from(rank(z) - 1)
}

// Writes a pixel, if there is one: its colour, its layer and its priority, and whether it has the math
// mark.
pub(crate) fn candidate(text: &[u8], c: Candidate) {
    if c.opaque {
        pixel(text, c.pixel);
        return;
    }
    let none = Said::Name(b"none");
    told(text, &[none, Said::LeftOut, Said::LeftOut, Said::LeftOut]);
}

pub(crate) fn pixel(text: &[u8], p: LinePixel) {
    let color = Said::Number(u64::from(p.color));
    let z = Said::Number(priority(p.z));
    let math = if p.obj_math {
        Said::Nothing
    } else {
        Said::LeftOut
    };
    told(text, &[color, layer(p.layer), z, math]);
}

pub(crate) fn candidates(answer: Result<Candidates, Refusal>) {
    answered(answer, |c| {
        candidate(b" -> main # # # math#", c.main);
        candidate(b", sub # # # math#", c.sub);
    });
}

// How many bytes are a value.
pub(crate) fn count(bytes: &[u8], value: u8) -> usize {
    bytes.iter().filter(|b| **b == value).count()
}

// The bytes of a lent row or picture, each 7 before: how many changed, the first of them or the
// length, how many are 0, and how many are a value.
fn counts(lent: &[u8], value: u8) {
    let changed = lent.iter().filter(|b| **b != 7).count();
    let first = lent.iter().position(|b| *b != 7).unwrap_or(lent.len());
    let black = count(lent, 0);
    told(
        b"# changed, first #, black #, value #",
        &[
            changed as u64,
            first as u64,
            black as u64,
            count(lent, value) as u64,
        ]
        .map(Said::Number),
    );
}

// A column of three bytes.
fn column(text: &[u8], lent: &[u8], at: usize) {
    if let Some([red, green, blue, ..]) = lent.get(at..) {
        told(
            text,
            &[u64::from(*red), u64::from(*green), u64::from(*blue)].map(Said::Number),
        );
    }
}

// What a call left of a lent row or picture: the counts of its bytes, or a column of a row and the next.
fn left(lent: &[u8], c: &Cells, row: u64) {
    if c[cells::COUNT] == 1 {
        counts(lent, cells::byte(c[cells::VALUE]));
        return;
    }
    let at = (row % 256 * 768 + c[cells::COLUMN] % 256 * 3) as usize;
    column(b"# # #", lent, at);
    column(b", # # #", lent, at + 3);
}

// The same, of what was lent of a memory.
pub(crate) fn drawn(v: Result<(), Refusal>, memory: &[u8], wanted: u64, c: &Cells, row: u64) {
    begun(v, ());
    left(&memory[..cells::lent(wanted, memory.len())], c, row);
}
