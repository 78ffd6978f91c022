// Replays the oracle's list `tiles`: the three decoders over a VRAM of random words.
#![tactic(auto)]

ghost use Rattle.std.specs.Prelude.{◌<◌};

use base_refusal::Refusal;
use test_numbers::{next, word};
use test_replay::{hex, settle};

// The colour index.
fn index(answer: Result<u8, Refusal>) -> u64
    ensures { result < 256 }
{
    match settle(answer) {
        Ok(n) => u64::from(n),
        Err(_) => 0,
    }
}

fn fill(vram: &mut [u16]) {
    let mut x: u32 = 2;
    for held in vram {
        x = next(x);
        *held = word(x);
    }
}

// A row's pixels in 2bpp and in 4bpp, a digit each.
fn small_row(vram: &[u16], base: usize, y: usize) -> u64 {
    let mut two: u64 = 0;
    let mut four: u64 = 0;
    for x in 0..8 {
        two = two << 4 | index(tiles::decode_2bpp_tile_pixel_from(vram, base, x, y));
        four = four << 4 | index(tiles::decode_4bpp_tile_pixel_from(vram, base, x, y));
    }
    two << 32 | four
}

// A row's pixels in 8bpp, two digits each.
fn large_row(vram: &[u16], base: usize, y: usize) -> u64 {
    let mut row: u64 = 0;
    for x in 0..8 {
        row = row << 8 | index(tiles::decode_8bpp_tile_pixel_from(vram, base, x, y));
    }
    row
}

// A tile's eight rows.
fn rows(vram: &[u16], base: usize) {
    for y in 0..8 {
        hex(small_row(vram, base, y), 16, b' ');
        hex(large_row(vram, base, y), 16, b'\n');
    }
}

fn bases(vram: &[u16], first: usize, after: usize) {
    for base in first..after {
        rows(vram, base);
    }
}

// Tile words at both ends of VRAM and of their range.
fn wraps(vram: &[u16]) {
    bases(vram, 0, 8);
    bases(vram, 32728, 32776);
    bases(vram, 65496, 65536);
}

// A pixel with its three answers.
fn pixel(vram: &[u16], base: usize, x: usize, y: usize) {
    let two = index(tiles::decode_2bpp_tile_pixel_from(vram, base, x, y));
    let four = index(tiles::decode_4bpp_tile_pixel_from(vram, base, x, y));
    let eight = index(tiles::decode_8bpp_tile_pixel_from(vram, base, x, y));
    let place = (base << 8 | x << 4 | y) as u64;
    hex(place << 16 | two << 12 | four << 8 | eight, 10, b'\n');
}

fn random(vram: &[u16]) {
    let mut state: u32 = 3;
    for _ in 0..4000u32 {
        state = next(state);
        let base = usize::from(word(state));
        state = next(state);
        let x = usize::from(word(state) % 8);
        state = next(state);
        pixel(vram, base, x, usize::from(word(state) % 8));
    }
}

fn main() {
    let mut vram = [0u16; 32768];
    fill(&mut vram);
    io::write_all(1, b"wraps\n");
    wraps(&vram);
    io::write_all(1, b"random pixels\n");
    random(&vram);
}
