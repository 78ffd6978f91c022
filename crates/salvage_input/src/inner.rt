// Reads a file to its end: what a scene has room for is kept, what follows is counted.
ghost use Rattle.std.specs.Prelude.{◌≤◌};
ghost use Rattle.salvage_input.specs.steps.Input.{Held};

use scene_file::SCENE_BYTES;

// The bytes of a turn of counting.
const TURN: usize = 4096;

// Counting stops here, since a loop has to end. No input is that long.
const MOST: usize = 9223372036854775808;

// How many bytes the input has left.
fn rest() -> usize
    ensures { result ≤ 9223372036854779904 }
{
    let mut space = [0u8; TURN];
    let mut total: usize = 0;
    while total < MOST {
        let got = io::read_full(0, &mut space);
        if got == 0 {
            return total;
        }
        total += got;
    }
    total
}

// Reads a file: its first bytes into the lent ones, with zeros after its end. Says how long it is.
pub fn read_file(out: &mut [u8; SCENE_BYTES]) -> usize
    ensures { Held result out.new }
{
    let got = io::read_full(0, out);
    out[got..].fill(0);
    if got < SCENE_BYTES {
        return got;
    }
    got + rest()
}
