// The numbers that are drawn.
ghost use Rattle.std.specs.Prelude.{◌≡◌, ◌/◌, ◌%◌};
ghost use Rattle.test_replay.specs.Drawing.{after_of, drawn_word, ends_of, drawn_words, drawn_four};

use test_numbers::{next, word};

pub fn low(word: u16) -> u8
    ensures { result ≡ word % 256 }
{
    (word % 256) as u8
}

pub fn high(word: u16) -> u8
    ensures { result ≡ word / 256 }
{
    (word / 256) as u8
}

// The generator's state after n numbers.
pub fn after(n: u32, seed: u32) -> u32
    ensures { result ≡ after_of n seed }
{
    let mut x = seed;
    for _ in 0..n {
        x = next(x);
    }
    x
}

// The n-th number.
pub fn nth(n: u32, seed: u32) -> u16
    ensures { result ≡ drawn_word n seed }
{
    word(after(n, seed))
}

// Of the numbers up to `last` the first, the last and, from k = 2 on, any.
pub fn ends(k: u32, last: u8, drawn: u16) -> u8
    ensures { result ≡ ends_of k last drawn }
{
    match k {
        0 => 0,
        1 => last,
        _ => (drawn % (u16::from(last) + 1)) as u8,
    }
}

// The next 256 numbers: a colour memory, or enough for the registers.
pub fn words(seed: u32) -> [u16; 256]
    ensures { result ≡ drawn_words seed }
{
    let mut all = [0u16; 256];
    let mut x = seed;
    for held in &mut all {
        x = next(x);
        *held = word(x);
    }
    all
}

// Four numbers, and the generator's state after them.
#[derive(Clone, Copy)]
pub struct Four {
    pub a: u16,
    pub b: u16,
    pub c: u16,
    pub d: u16,
    pub x: u32,
}

#[tactic(auto, unfolding(crate::specs::Drawing::after_of))]
pub fn drawn(seed: u32) -> Four
    ensures { result ≡ drawn_four seed }
{
    let a = next(seed);
    let b = next(a);
    let c = next(b);
    let x = next(c);
    Four {
        a: word(a),
        b: word(b),
        c: word(c),
        d: word(x),
        x,
    }
}
