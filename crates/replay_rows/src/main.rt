// Replays the oracle's list `rows`: all rows of whole scenes.
#![tactic(auto)]

mod columns;
mod kinds;
mod rows;
mod scene;

use test_replay::drawing::{after, words};
use test_replay::memory::{Filling, vram};

// What VRAM is filled with, in turn.
const FILLINGS: [Filling; 4] = [Filling::Any, Filling::Runs, Filling::Picture, Filling::Runs];

fn main() {
    let mut x = test_replay::seed(60);
    io::write_all(1, b"scenes\n");
    for filling in 0..8usize {
        let memory = vram(FILLINGS[filling % 4], x);
        let cgram = words(after(65536, x));
        x = rows::sixteen(&memory, &cgram, filling, after(65792, x));
    }
}
