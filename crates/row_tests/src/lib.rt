// The tests of the calls that have to do with a row, for the crates above. Of the refusals that apply a
// call answers the lowest number.
#![tactic(auto)]

pub mod inner;
