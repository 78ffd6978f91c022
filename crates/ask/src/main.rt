// Reads a script of cases from the standard input and writes it out again, each answer beside the
// statement that asked. What a script may say stands in docs/ASKING.md.
#![tactic(auto)]

mod cells;
mod dump;
mod lay;
mod memory;
mod own;
mod port;
mod row;
mod say;
mod statement;

use line_pixels::Lines;
use memory::Memories;
use say::Said;
use statement::{Statement, Verb};

// Where what follows a statement ends: the mark that divides two of them, or a comment and its line.
fn tail(s: &[u8], stop: usize) -> usize {
    if stop >= s.len() {
        return s.len();
    }
    if s[stop] == b'#' {
        let end = test_script::seek(s, stop, test_script::Stop::Line);
        if end < s.len() {
            return end + 1;
        }
        return s.len();
    }
    stop + 1
}

// Is there a line's end before this place?
fn line_before(s: &[u8], at: usize) -> bool {
    at.checked_sub(1)
        .is_some_and(|last| s.get(last) == Some(&b'\n'))
}

// Does what a statement says, and writes what it asks.
fn turn(q: &mut Statement, lines: &mut Lines, memories: &mut Memories) {
    let n = q.first();
    match q.verb {
        Verb::Set(_) | Verb::New | Verb::Nothing => {}
        Verb::Write(target) => memories.write(target, q),
        Verb::Port(access) => port::ask(access, n, &mut memories.oam, &mut q.cells),
        Verb::Lay(step) => lay::ask(step, n, lines, memories.lent(&q.cells), &q.cells),
        Verb::Registers(asked) => own::of_registers(asked, n, &q.cells),
        Verb::Numbers(asked) => own::of_numbers(asked, n, &q.cells),
        Verb::Draw(asked) => row::ask(asked, n, memories.lent(&q.cells), &q.cells),
        Verb::Salvage => dump::salvage_file(q),
        Verb::Unknown => say::told(b" -> bad line #", &[Said::Number(q.cells[cells::LINE])]),
    }
}

fn run(s: &[u8]) {
    let mut cells = cells::fresh(1);
    let mut lines = Lines::backdrops(0, 0);
    let mut memories = Memories::new();
    let mut at: usize = 0;
    while at < s.len() {
        let mut q = statement::read(s, at, &cells);
        let end = tail(s, q.stop);
        say::part(s, at, q.stop);
        turn(&mut q, &mut lines, &mut memories);
        say::part(s, q.stop, end);
        cells = q.cells;
        if line_before(s, end) {
            cells::next_line(&mut cells);
        }
        at = end.max(at + 1);
    }
}

fn main() {
    let mut script = [0u8; 131072];
    let n = io::read_full(0, &mut script);
    run(&script[..n]);
    if n == 131072 {
        io::write_all(1, b"\nno more than 131,072 bytes are read\n");
    }
}
