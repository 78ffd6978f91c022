// The words of a script of test cases, read from its bytes: where a word begins and ends, the number
// that it is, and its place in a list of names.
#![tactic(auto)]

ghost use Rattle.std.specs.Prelude.{◌≡◌, ◌≤◌};
ghost use Rattle.test_script.specs.Seek.{is_blank, stops_at, seek_of};
ghost use Rattle.test_script.specs.Number.{digits_of, number_between};
ghost use Rattle.test_script.specs.steps.Number.{digit_if, more_of};
ghost use Rattle.test_script.specs.Names.{place_between};
ghost use Rattle.test_script.specs.steps.Names.{goes_on};

// What a search for a byte stops at.
#[derive(Clone, Copy)]
pub enum Stop {
    // a byte that is no blank: no space, tab or carriage return
    Word,
    // a byte that ends a word: a blank, a newline, `;` or `#`
    End,
    // a newline
    Line,
}

// Is b a space, a tab or a carriage return?
fn blank(b: u8) -> bool
    ensures { result ≡ is_blank b }
{
    matches!(b, b' ' | b'\t' | b'\r')
}

// Does a search for `stop` stop at b?
fn stops(stop: Stop, b: u8) -> bool
    ensures { result ≡ stops_at stop b }
{
    match stop {
        Stop::Word => !blank(b),
        Stop::End => blank(b) | matches!(b, b'\n' | b';' | b'#'),
        Stop::Line => b == b'\n',
    }
}

// The first place at or after `from` whose byte is what is looked for; the length where there is
// none, also where `from` is beyond the end.
pub fn seek(s: &[u8], from: usize, stop: Stop) -> usize
    ensures { result ≡ seek_of s.now from stop }
{
    for i in from..s.len() {
        if stops(stop, s[i]) {
            return i;
        }
    }
    s.len()
}

// The digit that b is.
#[tactic(auto, unfolding(crate::specs::Number::digit_of))]
fn digit(b: u8) -> Option<u64>
    ensures { result ≡ digit_if b }
{
    match b {
        b'0'..=b'9' => Some(u64::from(b - b'0')),
        b'A'..=b'F' => Some(u64::from(b - b'A') + 10),
        b'a'..=b'f' => Some(u64::from(b - b'a') + 10),
        _ => None,
    }
}

// The number n with one more digit d behind it, where d is a digit of the base and 64 bits hold it.
fn more(n: u64, d: u64, base: u64) -> Option<u64>
    ensures { result ≡ more_of n d base }
{
    if d >= base {
        return None;
    }
    n.checked_mul(base)?.checked_add(d)
}

// The number that a word is, as digits of the base, at least one.
fn digits(word: &[u8], base: u64) -> Option<u64>
    requires { base ≤ 16 }
    ensures { result ≡ digits_of base word.now }
{
    if word.is_empty() {
        return None;
    }
    let mut n: u64 = 0;
    for &b in word {
        n = more(n, digit(b)?, base)?;
    }
    Some(n)
}

// The number that the bytes from `from` to before `to` are: decimal digits, or `0x` and hexadecimal
// ones. No digit, another byte, a number above 64 bits, or places outside s: None.
pub fn number(s: &[u8], from: usize, to: usize) -> Option<u64>
    ensures { result ≡ number_between s.now from to }
{
    let word = s.get(from..to)?;
    match word.strip_prefix(b"0x") {
        Some(hexadecimal) => digits(hexadecimal, 16),
        None => digits(word, 10),
    }
}

// Is b the byte of s at `at`, before `to`?
fn goes_on(s: &[u8], at: usize, to: usize, b: u8) -> bool
    ensures { result ≡ goes_on s.now at to b }
{
    (at < to) && s.get(at) == Some(&b)
}

// The place, counted from 0, of the word s[from..to] in a list of names that are separated by one
// space each; the number of names where it is not among them, also where its places are outside s.
pub fn place(names: &[u8], s: &[u8], from: usize, to: usize) -> usize
    ensures { result ≡ place_between names.now s.now from to }
{
    let good = (from <= to) & (to <= s.len());
    // k names are passed. Where `live` holds, the name that is read is so far the word up to `at`.
    let mut k: usize = 0;
    let mut at = from;
    let mut live = good;
    for &b in names {
        if b == b' ' {
            if live & (at == to) {
                return k;
            }
            k += 1;
            at = from;
            live = good;
            continue;
        }
        if live & goes_on(s, at, to, b) {
            at += 1;
            continue;
        }
        live = false;
    }
    if live & (at == to) {
        return k;
    }
    k + 1
}
