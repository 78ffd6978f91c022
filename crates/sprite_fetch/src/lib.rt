// The tiles that are fetched for a row's chosen sprites, and the sprite line that they leave. Follows
// sprites.rs.
#![tactic(auto)]

pub mod inner;

ghost use Rattle.std.specs.Prelude.{◌≡◌, take};

use sprite_tile::PlacedRow;

// The fetched tiles, in the order of the fetch: a list of 34 places with its length.
#[derive(Clone, Copy, Debug, PartialEq, Eq)]
pub struct Fetched {
    pub rows: [PlacedRow; 34],
    pub count: usize,
}

impl Fetched {
    // The tiles that are fetched.
    pub fn as_slice(&self) -> &[PlacedRow]
        ensures { result.now ≡ take self.now.count self.now.rows }
    {
        &self.rows[..self.count.min(34)]
    }
}
