// The eight pixels of a row of a tile, packed, from its plane words, which are read once for all eight.
#![tactic(auto)]

pub mod inner;
