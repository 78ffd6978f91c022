// A background's row: its pixels at the 256 columns. Follows renderer.rs.
#![tactic(auto)]

pub mod inner;
