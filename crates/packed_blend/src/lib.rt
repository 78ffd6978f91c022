// Colour math over packed lines. Follows row_blend and row_composite, with numbers for pixels.
#![tactic(auto)]

pub mod inner;
