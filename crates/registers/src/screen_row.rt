// A row's number, as the crates above hand it on once it is tested.
ghost use Rattle.std.specs.Prelude.{◌<◌};

// A row of the screen by its number: the first is 0, the last 223.
#[derive(Clone, Copy, Debug, PartialEq, Eq)]
pub struct ScreenRow {
    pub number: usize,
    ghost below: { number < 224 },
}
