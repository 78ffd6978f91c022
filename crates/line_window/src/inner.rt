// Whether a window holds a column. Follows `window_masked` of registers.rs.
ghost use Rattle.std.specs.Prelude.{◌≡◌};
ghost use Rattle.std.specs.Bool.{xor};
ghost use Rattle.line_window.specs.Window.{inside, logic_of, combined, masked};

use crate::Window;

// Is x between two edges, both included?
pub fn inside(left: u8, right: u8, x: usize) -> bool
    ensures { result ≡ inside left right x }
{
    (left as usize <= x) & (x <= right as usize)
}

// OR, AND, XOR, XNOR by logic 0 to 3.
fn by_logic(logic: u8, a: bool, b: bool) -> bool
    ensures { result ≡ logic_of logic a b }
{
    match logic {
        0 => a | b,
        1 => a & b,
        2 => a ^ b,
        _ => !(a ^ b),
    }
}

// None enabled: not masked; one: that one; both: by logic.
fn combine(enable1: bool, enable2: bool, logic: u8, w1: bool, w2: bool) -> bool
    ensures { result ≡ combined enable1 enable2 logic w1 w2 }
{
    if enable1 {
        if enable2 { by_logic(logic, w1, w2) } else { w1 }
    } else if enable2 {
        w2
    } else {
        false
    }
}

// Does the window hold column x? Inversion comes first.
pub fn masked(w: Window, x: usize) -> bool
    ensures { result ≡ masked w x }
{
    let w1 = inside(w.left1, w.right1, x) ^ w.invert1;
    let w2 = inside(w.left2, w.right2, x) ^ w.invert2;
    combine(w.enable1, w.enable2, w.logic, w1, w2)
}
