// The colours of a whole row from the packed rows of its five layers.
#![tactic(auto)]

pub mod inner;
