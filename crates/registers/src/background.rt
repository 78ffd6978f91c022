// A background's number, as the crates above hand it on once it is tested.
ghost use Rattle.std.specs.Prelude.{◌<◌};

// A background by its number: BG1 to BG4 are 0 to 3.
#[derive(Clone, Copy, Debug, PartialEq, Eq)]
pub struct Background {
    pub number: usize,
    ghost below: { number < 4 },
}
