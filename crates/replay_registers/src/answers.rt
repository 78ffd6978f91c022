// What an answer holds, as a number.
ghost use Rattle.std.specs.Prelude.{◌<◌};

use base_refusal::Refusal;
use registers_bg::{MapSize, Scroll};
use test_replay::settle;

// 1 for true, 0 for false.
pub(crate) fn bit(answer: Result<bool, Refusal>) -> u64
    ensures { result < 2 }
{
    match settle(answer) {
        Ok(true) => 1,
        _ => 0,
    }
}

pub(crate) fn number<T: Copy + Into<u64>>(answer: Result<T, Refusal>) -> u64 {
    settle(answer).map_or(0, Into::into)
}

// 1 if the map is wide, and 2 if it is tall.
pub(crate) fn size(answer: Result<MapSize, Refusal>) -> u64 {
    settle(answer).map_or(0, |s| u64::from(s.w64) + u64::from(s.h64) * 2)
}

// Horizontal, then vertical.
pub(crate) fn scrolled(answer: Result<Scroll, Refusal>) -> u64 {
    settle(answer).map_or(0, |s| u64::from(s.x) << 16 | u64::from(s.y))
}

// Writes an offset, -16 to 16, in decimal; any other as 17.
pub(crate) fn print_offset(answer: Result<i16, Refusal>) {
    if let Ok(z) = settle(answer) {
        if z < 0 {
            io::write_all(1, b"-");
        }
        io::print_decimal(1, u64::from(z.unsigned_abs().min(17)));
    }
}
