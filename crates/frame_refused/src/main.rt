// Draws the scene on standard input.
#![tactic(auto)]

fn main() {
    let _ = frame_library::frame();
}
