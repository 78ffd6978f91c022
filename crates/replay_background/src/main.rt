// Replays the oracle's list `background`: rows of scenes in which one background alone is lit.
#![tactic(auto)]

mod rows;
mod scene;

use test_replay::drawing::{after, words};
use test_replay::memory::{Filling, vram};

fn main() {
    let mut x = test_replay::seed(40);
    io::write_all(1, b"scenes\n");
    for filling in 0..4u16 {
        let memory = vram(Filling::Runs, x);
        let cgram = words(after(65536, x));
        x = rows::forty(&memory, &cgram, filling, after(65792, x));
    }
}
