// The bytes of a salvaged file, for the crates above.
ghost use Rattle.std.specs.Prelude.{◌≡◌, ◌+◌, ◌≤◌, min, length};
ghost use Rattle.salvage_bytes.specs.Bytes.{resized, with_number, with_counts, mended};

use registers::constants::LARGEST_COUNTER;

// The bytes of a scene.
const SCENE_LENGTH: usize = 66656;

// The bytes of a count and of a value.
pub const COUNT_BYTES: usize = 4;

pub const VALUE_BYTES: usize = 1;

// Cuts a file or fills it with zeros.
pub fn resize(out: &mut [u8; SCENE_LENGTH], file: &[u8])
    ensures { out.new ≡ resized file.now }
{
    let kept = file.len().min(SCENE_LENGTH);
    out[..kept].copy_from_slice(&file[..kept]);
    out[kept..].fill(0);
}

// The counter as it has to be.
pub fn right_counter(counter: u8) -> u8
    ensures { result ≡ min counter 16 }
{
    counter.min(LARGEST_COUNTER)
}

// Puts a number into the n bytes from byte k on.
fn put(out: &mut [u8], k: usize, n: usize, number: u32)
    requires { (n ≤ 4) × (k + n ≤ length out.old) }
    ensures { out.new ≡ with_number k n number out.old }
{
    out[k..k + n].copy_from_slice(&number.to_le_bytes()[..n]);
}

// Sets the counts.
#[tactic(auto, unfolding(crate::specs::Bytes::with_counts))]
fn set_counts(out: &mut [u8; SCENE_LENGTH])
    ensures { out.new ≡ with_counts out.old }
{
    put(out, 0, COUNT_BYTES, 48);
    put(out, 52, COUNT_BYTES, 544);
    put(out, 600, COUNT_BYTES, 512);
    put(out, 1116, COUNT_BYTES, 65536);
}

// Sets the counts, and then both values.
#[tactic(auto, unfolding(crate::specs::Bytes::mended))]
pub fn set_all(out: &mut [u8; SCENE_LENGTH])
    ensures { out.new ≡ mended out.old }
{
    let counter = right_counter(out[50]);
    let field = out[51] % 2;
    set_counts(out);
    put(out, 50, VALUE_BYTES, counter as u32);
    put(out, 51, VALUE_BYTES, field as u32);
}
