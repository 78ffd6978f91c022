// Writes the scene that salvage makes of the file on standard input.
#![tactic(auto)]

use salvage_input::salvage_input;

fn main() {
    let mut scene = [0u8; 66656];
    let _ = salvage_input(&mut scene);
    if !io::write_all(1, &scene) {
        io::write_all(2, b"the scene could not be written\n");
    }
}
