// What the public calls of this crate stand on, for the crates above: bits and nibbles.
ghost use Rattle.std.specs.Prelude.{◌≡◌, ◌<◌};
ghost use Rattle.registers.specs.Bits.{bit_of, nibble_of};

// Bit k of a byte.
pub fn bit(value: u8, k: usize) -> bool
    requires { k < 8 }
    ensures { result ≡ bit_of value k }
{
    (value >> k) % 2 == 1
}

// The nibble of background bg in two bytes: the first has BG1 low and BG2 high, the second BG3 and
// BG4.
pub fn nibble(first: u8, second: u8, bg: usize) -> u8
    ensures { (result ≡ nibble_of first second bg) × (result < 16) }
{
    if bg < 2 {
        (first >> (bg % 2 * 4)) % 16
    } else {
        (second >> (bg % 2 * 4)) % 16
    }
}
