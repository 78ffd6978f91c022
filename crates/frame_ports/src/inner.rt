// The one function that names a descriptor. What a descriptor brings, and where it leads, no contract
// can say: the bytes that are lent here, and what is done with them, are proved by the caller.
ghost use Rattle.frame_ports.specs.Moved.{AllOrNone, Moved};

use crate::Way;

// All n, or none.
fn counted(all: bool, n: usize) -> usize
    ensures { AllOrNone n result }
{
    if all { n } else { 0 }
}

// Fills the lent bytes as far as the scene has any, or hands all of them on, and says how many.
pub fn moved(way: Way, bytes: &mut [u8]) -> usize
    ensures { Moved way bytes.old bytes.new result }
{
    match way {
        Way::Scene => io::read_full(0, bytes),
        Way::Plate => counted(io::write_all(1, bytes), bytes.len()),
        Way::Trouble => counted(io::write_all(2, bytes), bytes.len()),
    }
}
