// Pixels as numbers, for whole rows: a line of numbers is laid by selects, for many columns at once; a
// line of pixels is laid one by one.
#![tactic(auto)]

pub mod inner;
