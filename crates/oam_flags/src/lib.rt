// The overflow flags of sprite choice, kept from row to row. Follows oam.rs, with its names.
#![tactic(auto)]

ghost use Rattle.std.specs.Prelude.{◌≡◌};
ghost use Rattle.oam_flags.specs.Flags.{kept_flags, clear_flags};

#[derive(Clone, Copy, Debug, Default, PartialEq, Eq)]
pub struct OamFlags {
    pub time_over: bool,
    pub range_over: bool,
}

impl OamFlags {
    // Both clear.
    pub fn new() -> OamFlags
        ensures { result ≡ clear_flags }
    {
        OamFlags::default()
    }

    // A row's flags are added: a flag once set stays set.
    pub fn latch_flags(self, time_over: bool, range_over: bool) -> OamFlags
        ensures { result ≡ kept_flags self time_over range_over }
    {
        OamFlags {
            time_over: self.time_over | time_over,
            range_over: self.range_over | range_over,
        }
    }

    pub fn clear_flags(self) -> OamFlags
        ensures { result ≡ clear_flags }
    {
        OamFlags::new()
    }
}
