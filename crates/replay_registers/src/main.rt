// Replays the oracle's list `registers`: every public reader, a line for each input.
#![tactic(auto)]

mod answers;
mod backgrounds;
mod masks;
mod screen;

use registers::PPURegisters;

// Registers that are each another turn of v's bits, or the opposite of one.
fn scattered(v: u8) -> PPURegisters {
    PPURegisters {
        inidisp: v,
        bgmode: v.rotate_left(1),
        mosaic: v.rotate_left(2),
        bgsc: [3, 4, 5, 6].map(|n| v.rotate_left(n)),
        bg12nba: v.rotate_left(7),
        bg34nba: !v,
        tm: !v.rotate_left(1),
        ts: !v.rotate_left(2),
        tmw: !v.rotate_left(3),
        tsw: !v.rotate_left(4),
        cgwsel: !v.rotate_left(5),
        cgadsub: !v.rotate_left(6),
        setini: !v.rotate_left(7),
        ..PPURegisters::new()
    }
}

fn main() {
    io::write_all(1, b"screen\n");
    screen::screen();
    io::write_all(1, b"backgrounds\n");
    backgrounds::backgrounds();
    io::write_all(1, b"mosaic offsets\n");
    backgrounds::counters();
    io::write_all(1, b"scroll\n");
    backgrounds::scroll();
    io::write_all(1, b"windows\n");
    masks::masks();
}
