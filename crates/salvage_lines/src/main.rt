// Says what salvage changes in the file on standard input: a line for each change.
#![tactic(auto)]

use salvage::Change;
use salvage_input::salvage_input;
use salvage_text::line_of;

// Writes the line of a change.
fn print(c: Change) -> bool {
    let line = line_of(c);
    io::write_all(1, &line.text[..line.size])
}

// Writes all lines.
fn print_all(changes: &[Change]) -> bool {
    let mut written = true;
    for c in changes {
        written &= print(*c);
    }
    written
}

fn main() {
    let mut scene = [0u8; 66656];
    if let Ok(changes) = salvage_input(&mut scene) {
        if !print_all(changes.as_slice()) {
            io::write_all(2, b"the lines could not be written\n");
        }
    }
}
