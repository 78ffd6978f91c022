// What the programs share that replay lists of random scenes: the seed, the numbers, memories and
// sprites that they draw, their digests, and what they write.
//
// No contract can say what is read or written. A function that writes hands on what it was given.
#![tactic(auto)]

pub mod drawing;
pub mod inner;
pub mod memory;
pub mod pixels;
pub mod placing;
pub mod section;

ghost use Rattle.std.specs.Prelude.{◌≡◌};
ghost use Rattle.test_replay.specs.Replay.{Seeded, digest_of};

use base_refusal::Refusal;
use test_digest::fold;

// A list's seed: four bytes of the standard input, or the list's own.
pub fn seed(own: u32) -> u32
    ensures { Seeded own result }
{
    let mut bytes = [0u8; 4];
    let n = io::read_full(0, &mut bytes);
    test_numbers::seed(&bytes[..n], own)
}

// What is answered. A refusal writes a line that no list has.
pub fn settle<T: Copy>(answer: Result<T, Refusal>) -> Result<T, Refusal>
    ensures { result ≡ answer }
{
    if let Err(n) = answer {
        let _ = base_refusal_line::refuse(n);
    }
    answer
}

// Where two answers are not the same, a word that no list has is written.
pub fn agree(same: bool) -> bool
    ensures { result ≡ same }
{
    if !same {
        io::write_all(1, b"differs ");
    }
    same
}

// Writes hexadecimal digits and the byte that ends them.
pub fn hex(v: u64, digits: usize, end: u8) -> u64
    ensures { result ≡ v }
{
    let last = [end];
    io::print_hex(1, v, digits);
    io::write_all(1, &last);
    v
}

// A digest of bytes.
pub fn bytes(given: &[u8]) -> u32
    ensures { result ≡ digest_of 0 given.now }
{
    given.iter().fold(0, |d, b| fold(d, u64::from(*b)))
}
