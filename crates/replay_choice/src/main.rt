// Replays the oracle's list `choice`: the sprites chosen for a row, their counting tiles, the flags.
#![tactic(auto)]

mod rows;
mod scene;

fn main() {
    let x = test_replay::seed(20);
    io::write_all(1, b"scenes\n");
    rows::scenes(x);
    io::write_all(1, b"piles\n");
    rows::piles(x.wrapping_add(1));
    io::write_all(1, b"settings digests\n");
    rows::settings(x.wrapping_add(2));
}
