// All rows of a scene into one lent row, and a digest of them.
use frame_library::inner::{at_counter, next_counter};
use registers::PPURegisters;
use row_renderer::render_scanline;
use std::ops::Range;
use test_digest::fold;

// A digest with bytes more.
fn folded(digest: u32, bytes: &[u8]) -> u32 {
    bytes.iter().fold(digest, |d, b| fold(d, u64::from(*b)))
}

// A scene that is drawn.
#[derive(Clone, Copy)]
pub(crate) struct Scene<'a> {
    pub(crate) vram: &'a [u16],
    pub(crate) cgram: &'a [u16],
    pub(crate) oam: &'a [u8],
    pub(crate) regs: PPURegisters,
}

impl Scene<'_> {
    // Draws the rows, and folds these bytes of each into the digest. A refusal writes a word that no
    // digest has.
    fn drawn(self, row: &mut [u8], digest: u32, part: Range<usize>) -> u32 {
        let r = self.regs;
        let mut d = digest;
        let mut counter = r.mosaic_vcounter;
        for y in 0..224 {
            let now = at_counter(r, counter);
            if render_scanline(row, self.vram, self.cgram, self.oam, now, y).is_err() {
                io::write_all(1, b"refused ");
            }
            if let Some(bytes) = row.get(part.start..part.end) {
                d = folded(d, bytes);
            }
            counter = next_counter(r, counter);
        }
        d
    }

    // Draws the scene that many times, with another byte of each row each time, and once more with all.
    // The digest begins at 1 and the row is not black before, so that a black row that is left out shows.
    pub(crate) fn often(self, times: u16) -> u32 {
        let mut row = [1u8; 768];
        let mut d: u32 = 1;
        for k in 0..times {
            let at = usize::from(k) % 768;
            d = self.drawn(&mut row, d, at..at + 1);
        }
        self.drawn(&mut row, d, 0..768)
    }
}
