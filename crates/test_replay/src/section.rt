// The registers of a scene. They are drawn as the 48 bytes of their section in a scene file.
ghost use Rattle.std.specs.Prelude.{◌≡◌};
ghost use Rattle.scene_bytes.specs.Bytes.{registers_of};
ghost use Rattle.test_replay.specs.Section.{drawn_byte, drawn_section};

use crate::drawing::{high, low, nth};
use registers::PPURegisters;

// Byte k of the numbers drawn, counted from 1, the low byte of each number first. Byte 0 is 0.
fn byte(k: u8, seed: u32) -> u8
    ensures { result ≡ drawn_byte k seed }
{
    let word = nth((u32::from(k) + 1) / 2, seed);
    if k == 0 {
        0
    } else if k % 2 == 1 {
        low(word)
    } else {
        high(word)
    }
}

// A section of which `order` says, byte by byte, which of the bytes drawn it has.
fn section(order: [u8; 48], seed: u32) -> [u8; 48]
    ensures { result ≡ drawn_section order seed }
{
    std::array::from_fn(|k| byte(order[k], seed))
}

// The registers that are drawn in this order.
pub fn registers(order: [u8; 48], seed: u32) -> PPURegisters
    ensures { result ≡ registers_of (drawn_section order seed) }
{
    scene_bytes::inner::registers(&section(order, seed))
}
