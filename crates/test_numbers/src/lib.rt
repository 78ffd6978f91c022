// The numbers that a comparison with the Rust draws: the oracle has the same generator, so a list
// holds answers alone and both sides make its inputs.
#![tactic(auto)]

ghost use Rattle.std.specs.Prelude.{◌≡◌, ◌+◌, ◌*◌, ◌/◌};
ghost use Rattle.test_numbers.specs.Generator.{next_of, seed_of};

// The state after x.
pub fn next(x: u32) -> u32
    ensures { result ≡ next_of x }
{
    ((x as u64 * 1664525 + 1013904223) % 4294967296) as u32
}

// The number of 16 bits that a state gives: its high half.
pub fn word(x: u32) -> u16
    ensures { result ≡ x / 65536 }
{
    (x / 65536) as u16
}

// The seed that a program was given: four bytes, the lowest first. Without them it is the program's own.
pub fn seed(bytes: &[u8], own: u32) -> u32
    ensures { result ≡ seed_of bytes.now own }
{
    match <[u8; 4]>::try_from(bytes) {
        Ok(four) => u32::from_le_bytes(four),
        Err(_) => own,
    }
}
