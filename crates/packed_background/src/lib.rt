// A background's row, packed: decoded character by character, and what the columns show taken from
// there.
#![tactic(auto)]

pub mod inner;
