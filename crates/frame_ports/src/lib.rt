// Where the frame program reads and writes.
#![tactic(auto)]

pub mod inner;

// What is done with lent bytes: they are filled from the scene, or handed on: to the plate, or as a
// message that it could not be written.
#[derive(Clone, Copy, Debug, PartialEq, Eq)]
pub enum Way {
    Scene,
    Plate,
    Trouble,
}
