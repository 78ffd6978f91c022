// The pixels of a background's tiles. Follows renderer.rs.
#![tactic(auto)]

pub mod inner;
