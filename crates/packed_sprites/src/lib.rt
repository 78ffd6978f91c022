// The sprites of a row, packed: the fetched tiles are drawn one over the other, eight pixels at a time.
#![tactic(auto)]

pub mod inner;
