// The sprites of a scene.
ghost use Rattle.std.specs.Prelude.{◌≡◌, ◌%◌};
ghost use Rattle.test_replay.specs.Placing.{beside_of, column_of, with_of};

use crate::drawing::{high, low};
use test_digest::second_table_byte;

// Where a sprite stands: at any column; at a column at which a rule changes for some width, or beside
// it; at one of the first four of these; in a pile at the left; across the picture; left of it.
#[derive(Clone, Copy)]
pub enum Place {
    Any,
    Edge,
    NearEdge,
    Pile,
    Across,
    Hidden,
}

// The columns at which the rules change for some width.
const EDGES: [u16; 7] = [0, 256, 504, 240, 448, 480, 496];

// The column at edge k or one beside it; 7 stands for any column.
fn beside(k: u16, a: u16, b: u16) -> u16
    ensures { result ≡ beside_of k a b }
{
    let edge = match k % 8 {
        7 => b % 512,
        at => EDGES[at as usize],
    };
    (edge + 511 + a / 8 % 3) % 512
}

// A sprite's column, of two numbers.
pub fn column(place: Place, a: u16, b: u16) -> u16
    ensures { result ≡ column_of place a b }
{
    match place {
        Place::Any => b % 512,
        Place::Edge => beside(a % 8, a, b),
        Place::NearEdge => beside(a % 4, a, b),
        Place::Pile => (496 + b % 64) % 512,
        Place::Across => (464 + b % 304) % 512,
        Place::Hidden => 300,
    }
}

// Writes a sprite to sprite memory: its column and top; tile and attributes from d; its size.
#[tactic(auto, unfolding(crate::specs::Placing::with_of))]
pub fn write(oam: &mut [u8; 544], sprite: usize, x9: u16, top: u16, d: u16, large: bool)
    ensures { oam.new ≡ with_of oam.old (sprite % 128) x9 top d large }
{
    let i = sprite % 128;
    let bits = (x9 / 256 % 2) as u8 + u8::from(large) * 2;
    oam[512 + i / 4] = second_table_byte(oam[512 + i / 4], i, bits);
    oam[i * 4] = low(x9);
    oam[i * 4 + 1] = low(top);
    oam[i * 4 + 2] = low(d);
    oam[i * 4 + 3] = high(d);
}

// What is drawn of a sprite: where it stands, its top and its size.
#[derive(Clone, Copy)]
pub struct Drawn {
    pub place: Place,
    pub top: u16,
    pub large: bool,
}
