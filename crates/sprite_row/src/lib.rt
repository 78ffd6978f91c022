// One sprite and one row: does the row meet it, is it passed over, and which of its tiles count.
// Follows oam.rs.
#![tactic(auto)]

pub mod inner;
