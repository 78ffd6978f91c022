// The helper that stands for the Rust's `rem_euclid`.
ghost use Rattle.std.specs.Prelude.{◌≡◌, ◌<◌};
ghost use Rattle.base_signed.specs.Remainder.{remainder};

// The non-negative remainder of a number by m, also where the number is below zero.
pub fn rem_euclid(a: i32, m: u32) -> u32
    requires { 0 < m }
    ensures { (result ≡ remainder a m) × (result < m) }
{
    if a < 0 {
        m - 1 - (!a) as u32 % m
    } else {
        a as u32 % m
    }
}
