// A scene that is read section by section, as the frame program does.
#![tactic(auto)]

pub mod inner;
