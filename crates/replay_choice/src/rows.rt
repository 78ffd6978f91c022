// The rows of a scene.
ghost use Rattle.std.specs.Prelude.{◌<◌};

use crate::scene;
use crate::scene::Kind;
use oam_flags::OamFlags;
use sprite_choice::inner::none_chosen;
use sprite_choice::{Chosen, VisibleSprite, eval_sprites_for_scanline};
use test_digest::{fold, marks, place};
use test_numbers::{next, word};
use test_replay::drawing::{after, ends, low, nth};
use test_replay::{hex, settle};

fn choose(oam: &[u8], row: usize, objsel: u8, oamadd: u16, interlace: bool) -> Chosen {
    settle(eval_sprites_for_scanline(oam, row, objsel, oamadd, interlace)).unwrap_or(none_chosen())
}

// 1 for time over, and 2 for range over.
fn flags(time_over: bool, range_over: bool) -> u64
    ensures { result < 4 }
{
    u64::from(time_over) + u64::from(range_over) * 2
}

// A digest with one place more.
fn placed(digest: u32, p: &VisibleSprite) -> u32 {
    let index = fold(digest, u64::from(p.index));
    fold(fold(index, place(p.sprite)), marks(p.sprite))
}

// A digest of the 32 places.
fn places(c: &Chosen) -> u32 {
    c.sprites.iter().fold(0, placed)
}

// A digest with all of a choice.
fn folded(digest: u32, c: &Chosen) -> u32 {
    let counted = fold(fold(digest, c.count as u64), c.tiles as u64);
    let flagged = fold(counted, flags(c.time_over, c.range_over));
    fold(flagged, u64::from(places(c)))
}

// Length, counting tiles, flags, kept flags; the places' digest.
fn show(c: &Chosen, kept: OamFlags) {
    io::print_hex(1, c.count as u64, 2);
    io::print_hex(1, c.tiles as u64, 3);
    io::print_hex(1, flags(c.time_over, c.range_over), 1);
    hex(flags(kept.time_over, kept.range_over), 1, b' ');
    hex(u64::from(places(c)), 8, b'\n');
}

// 48 rows from the first on, the flags kept but for a clear now and then.
fn some_rows(oam: &[u8], first: u8, objsel: u8, interlace: bool, seed: u32) {
    let mut x = seed;
    let mut kept = OamFlags::new();
    for k in 0..48 {
        x = next(x);
        let row = (usize::from(first) + k) % 224;
        let c = choose(oam, row, objsel, word(x), interlace);
        if k % 16 == 13 {
            kept = kept.clear_flags();
        }
        kept = kept.latch_flags(c.time_over, c.range_over);
        show(&c, kept);
    }
}

// A digest of every other row.
fn other_rows(oam: &[u8], odd: bool, objsel: u8, interlace: bool, seed: u32) -> u32 {
    let mut x = seed;
    let mut d: u32 = 0;
    for k in 0..112 {
        x = next(x);
        let row = k * 2 + usize::from(odd);
        d = folded(d, &choose(oam, row, objsel, word(x), interlace));
    }
    d
}

// An objsel of this size, which begins a line with the row.
fn head(setting: u16, drawn: u16, row: u8) -> u8 {
    let objsel = low(setting % 8 * 32 + drawn % 32);
    hex(u64::from(objsel) * 256 + u64::from(row), 4, b'\n');
    objsel
}

// The first row of a kind.
fn first_of(kind: Kind, drawn: u16) -> u8 {
    match kind {
        Kind::Any | Kind::Crowd => (drawn % 224) as u8,
        Kind::Above => 0,
    }
}

// Scene n of a kind: its size and its interlace.
fn one_scene(kind: Kind, n: u16, seed: u32) {
    let first = first_of(kind, nth(2, seed));
    let objsel = head(n, nth(1, seed), first);
    let interlace = n / 8 % 2 == 1;
    let oam = scene::fill(kind, first, after(2, seed));
    some_rows(&oam, first, objsel, interlace, after(514, seed));
    let d = other_rows(&oam, n % 2 == 1, objsel, interlace, after(562, seed));
    hex(u64::from(d), 8, b'\n');
}

pub(crate) fn scenes(seed: u32) {
    let mut x = seed;
    for kind in [Kind::Any, Kind::Crowd, Kind::Above] {
        for n in 0..16 {
            one_scene(kind, n, x);
            x = after(674, x);
        }
    }
}

// One sprite more at a time that meets the row, the row's choice after each.
fn grow(n: u16, row: u8, objsel: u8, seed: u32) {
    let mut oam = scene::hide(row);
    let mut x = seed;
    let mut kept = OamFlags::new();
    for k in 0..48 {
        scene::pile(&mut oam, k * 37 % 128, row, n < 16, x);
        x = after(5, x);
        let c = choose(&oam, usize::from(row), objsel, word(x), n / 8 == 1);
        kept = kept.latch_flags(c.time_over, c.range_over);
        show(&c, kept);
    }
}

pub(crate) fn piles(seed: u32) {
    let mut x = seed;
    for n in 0..24u16 {
        let row = ends(u32::from(n), 223, nth(2, x));
        let objsel = head(n, nth(1, x), row);
        grow(n, row, objsel, after(2, x));
        x = after(242, x);
    }
}

// A digest of 4 rows.
fn drawn_rows(oam: &[u8], objsel: u8, interlace: bool, seed: u32) -> u32 {
    let mut x = seed;
    let mut d: u32 = 0;
    for _ in 0..4u32 {
        let row = usize::from(nth(1, x) % 224);
        x = after(2, x);
        d = folded(d, &choose(oam, row, objsel, word(x), interlace));
    }
    d
}

// Every objsel over one scene, interlace off and on.
pub(crate) fn settings(seed: u32) {
    let oam = scene::fill(Kind::Any, 0, seed);
    let mut x = after(512, seed);
    for objsel in 0..=255u8 {
        for interlace in [false, true] {
            let d = drawn_rows(&oam, objsel, interlace, x);
            hex(u64::from(d), 8, b'\n');
            x = after(8, x);
        }
    }
}
