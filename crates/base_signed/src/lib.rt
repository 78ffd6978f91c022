// Signed numbers: the Euclidean remainder, and the laws of signed numbers as the machine has them
// (proofs/Signed.antt).
#![tactic(auto)]

pub mod inner;
