// The refusals of the rules, each with its number. A call that may refuse answers a `Result` of one.
#![tactic(auto)]

ghost use Rattle.std.specs.Prelude.{◌≡◌};
ghost use Rattle.base_refusal.specs.Numbers.{number_of};

#[derive(Clone, Copy, Debug, PartialEq, Eq)]
pub enum Refusal {
    // Row above 223.
    Row = 1,
    // VRAM length wrong.
    Vram = 2,
    // Colour memory length wrong.
    Colour = 3,
    // OAM length wrong.
    Oam = 4,
    // A lent picture's or row's length wrong.
    Lent = 5,
    // Mosaic counter above 16.
    Counter = 6,
    // Another argument out of range.
    Argument = 7,
    // Scene section count wrong.
    SectionCount = 8,
    // Scene ends inside a count or body.
    SceneCut = 9,
    // Scene has bytes after its last section.
    SceneLonger = 10,
    // Scene field byte above 1.
    FieldByte = 11,
    // A salvaged scene's output length wrong.
    Output = 12,
}

impl Refusal {
    // The number that the rules give this refusal.
    pub fn number(self) -> u8
        ensures { result ≡ number_of self }
    {
        self as u8
    }
}
