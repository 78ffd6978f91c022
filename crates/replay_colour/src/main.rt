// Replays the oracle's list `colour`: the same inputs in the same order, a line for each.
#![tactic(auto)]

use base_refusal::Refusal;
use colour::Rgb;
use test_numbers::{next, word};
use test_replay::{hex, settle};

// The three bytes.
fn rgb(answer: Result<Rgb, Refusal>) -> [u8; 3] {
    settle(answer).map_or([0; 3], |c| [c.red, c.green, c.blue])
}

// Every index, and for each the eight palettes.
fn direct() {
    for index in 0..=255u8 {
        for palette in 0..8 {
            hex(u64::from(colour::direct_color(index, palette)), 4, b'\n');
        }
    }
}

// Every level, and for each the 256 colours i * 257.
fn bright() {
    for level in 0..16 {
        for i in 0..256 {
            let [red, green, blue] = rgb(colour::apply_brightness(i * 257, level));
            hex(
                u64::from(u32::from_be_bytes([0, red, green, blue])),
                6,
                b'\n',
            );
        }
    }
}

// The digest of all colours at a level.
fn digest(level: u16) -> u32 {
    let mut sum: u32 = 0;
    for color in 0..=65535u16 {
        for byte in rgb(colour::apply_brightness(color, level)) {
            sum = sum.wrapping_mul(31).wrapping_add(u32::from(byte));
        }
    }
    sum
}

fn digests() {
    for level in 0..16 {
        hex(u64::from(digest(level)), 8, b'\n');
    }
}

// The words of the four settings, 16 bits each: add, add and halve, subtract, subtract and halve.
fn four(main: u16, sub: u16) -> u64 {
    let mut words: u64 = 0;
    for subtract in [false, true] {
        for half in [false, true] {
            words = words << 16 | u64::from(colour::color_math(main, sub, subtract, half));
        }
    }
    words
}

// Every pair of channels, the same in red, green and blue.
fn math() {
    for main in 0..32 {
        for sub in 0..32 {
            hex(four(main * 1057, sub * 1057), 16, b'\n');
        }
    }
}

// Pairs of random words.
fn random() {
    let mut x: u32 = 1;
    for _ in 0..2000u32 {
        x = next(x);
        let main = word(x);
        x = next(x);
        let sub = word(x);
        hex(u64::from(main) << 16 | u64::from(sub), 8, b' ');
        hex(four(main, sub), 16, b'\n');
    }
}

fn main() {
    io::write_all(1, b"direct\n");
    direct();
    io::write_all(1, b"bright\n");
    bright();
    io::write_all(1, b"bright digests\n");
    digests();
    io::write_all(1, b"math\n");
    math();
    io::write_all(1, b"math of random words\n");
    random();
}
