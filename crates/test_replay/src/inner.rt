// What asks of a closure that it can be called.
ghost use Rattle.std.specs.Prelude.{ℕ, ◌≡◌};
ghost use Rattle.test_replay.specs.steps.SpriteMemory.{numbers_of, drawn_memory};

use crate::drawing::{Four, drawn};
use crate::placing::{Drawn, column, write};

// Sprite memory, for which four numbers are drawn for each sprite: its column, what `of` makes of them,
// its tile and its attributes.
pub fn sprites<F: Fn(Four) -> Drawn>(seed: u32, of: F) -> [u8; 544]
    requires { F.IsAlwaysCallable of }
    ensures { (g : ℕ → Drawn) → ((k : ℕ) → (d : Drawn) → F.post of (numbers_of k seed) d → d ≡ g k) → result ≡ drawn_memory g seed }
{
    let mut oam = [0u8; 544];
    let mut x = seed;
    for i in 0..128 {
        let n = drawn(x);
        let d = of(n);
        write(&mut oam, i, column(d.place, n.a, n.b), d.top, n.d, d.large);
        x = n.x;
    }
    oam
}
