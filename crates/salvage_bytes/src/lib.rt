// The bytes of a salvaged file: cut or filled to the length of a scene, with its counts and values set.
#![tactic(auto)]

pub mod inner;
