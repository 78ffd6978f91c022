// The bytes of a scene's sections as what they stand for: words, registers, memories.
#![tactic(auto)]

pub mod inner;
