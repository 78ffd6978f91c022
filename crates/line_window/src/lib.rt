// A window by value. The crate registers_windows answers whether one holds a column.
#![tactic(auto)]

pub mod inner;

// The window of a layer, or the colour window: two ranges of columns, the bits that invert and
// enable each, and the logic, 0 to 3, that joins them.
#[derive(Clone, Copy, Debug, PartialEq, Eq)]
pub struct Window {
    pub left1: u8,
    pub right1: u8,
    pub left2: u8,
    pub right2: u8,
    pub invert1: bool,
    pub enable1: bool,
    pub invert2: bool,
    pub enable2: bool,
    pub logic: u8,
}
