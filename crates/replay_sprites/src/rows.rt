// The rows of a scene.
use crate::scene::Kind;
use crate::{pixels, scene};
use line_pixels::{Candidate, LinePixel, Lines};
use registers::PPURegisters;
use sprite_layer::{render_sprites, sprite_candidates, sprite_line};
use test_digest::fold;
use test_replay::drawing::{after, ends, nth};
use test_replay::pixels::{bare, compare, laid};
use test_replay::{hex, settle};

// A scene: the memories and the registers.
#[derive(Clone, Copy)]
struct Scene<'a> {
    vram: &'a [u16],
    cgram: &'a [u16; 256],
    oam: &'a [u8],
    regs: PPURegisters,
}

impl Scene<'_> {
    // The sprite line of row y.
    fn line_of(self, y: usize) -> [Candidate; 256] {
        let cgram = self.cgram;
        let answer = sprite_line(self.vram, cgram, self.oam, self.regs, y);
        settle(answer).unwrap_or([Candidate::none(); 256])
    }

    // The scene with the sprites on these screens alone.
    fn lit(self, main: bool, sub: bool) -> Self {
        let mut scene = self;
        scene.regs.tm = u8::from(main) * 16;
        scene.regs.ts = u8::from(sub) * 16;
        scene
    }

    // The lines of row y, drawn over the backdrops.
    fn lines_of(self, y: usize) -> Lines {
        let cgram = self.cgram;
        let mut lines = Lines::backdrops(cgram[0], self.regs.coldata);
        let _ = settle(render_sprites(&mut lines, self.vram, cgram, self.oam, self.regs, y));
        lines
    }

    // Column x of row y, as the lines hold it, asked by itself.
    fn asked(self, x: usize, y: usize, main: LinePixel, sub: LinePixel) {
        let cgram = self.cgram;
        let before = bare(cgram[0], self.regs.coldata);
        let answer = sprite_candidates(self.vram, cgram, self.oam, self.regs, x, y);
        compare(laid(before, answer), main, sub);
    }

    // A digest of row y at the first column, the last one and four others, whose lines these are.
    fn some(self, y: usize, lines: &Lines, seed: u32) -> u32 {
        let mut d: u32 = 0;
        for k in 0..6 {
            let x = usize::from(ends(k, 255, nth(k + 1, seed)));
            self.asked(x, y, lines.main[x], lines.sub[x]);
            d = fold(d, pixels::both(lines.main[x], lines.sub[x]));
        }
        d
    }

    // A row below the first; a digest of the sprite line, one of the lines on neither screen, on main,
    // on sub and on both, and one of some columns.
    fn row(self, y: usize, seed: u32) {
        let line = self.line_of(y);
        let mut d: u32 = 0;
        for (main, sub) in [(false, false), (true, false), (false, true)] {
            d = pixels::folded(d, &self.lit(main, sub).lines_of(y), &line);
        }
        let both = self.lit(true, true);
        let lines = both.lines_of(y);
        let backdrop = LinePixel::backdrop(self.cgram[0]);
        hex(u64::from(pixels::line_digest(&line, backdrop)), 8, b' ');
        hex(u64::from(pixels::folded(d, &lines, &line)), 8, b' ');
        hex(u64::from(both.some(y, &lines, seed)), 8, b'\n');
    }
}

// A scene's line: objsel, setini, the field and the kind.
fn head(objsel: u8, setini: u8, field: bool, kind: Kind) {
    io::print_hex(1, u64::from(objsel) * 256 + u64::from(setini), 4);
    io::print_hex(1, u64::from(field), 1);
    hex(kind as u64, 1, b'\n');
}

// The rows that are drawn, counted from a scene's first.
const BELOW: [u8; 4] = [0, 1, 4, 9];

// A scene: its line, and four rows with oamadd. Seven numbers are drawn for each.
fn one_scene(vram: &[u16], cgram: &[u16; 256], n: u16, seed: u32) {
    let regs = scene::registers(n, seed);
    let kind = scene::kind_of(n);
    head(regs.objsel, regs.setini, regs.field, kind);
    let first = scene::first_of(kind, nth(7, seed));
    let oam = scene::fill(kind, first, nth(8, seed), after(8, seed));
    let mut scene = Scene {
        vram,
        cgram,
        oam: &oam,
        regs,
    };
    let mut x = after(520, seed);
    for below in BELOW {
        let y = (usize::from(first) + usize::from(below)) % 224;
        scene.regs.oamadd = nth(1, x);
        hex((y as u64) << 16 | u64::from(scene.regs.oamadd), 6, b' ');
        scene.row(y, after(1, x));
        x = after(7, x);
    }
}

// Forty scenes over one filling of the memories. The generator's state after them.
pub(crate) fn forty(vram: &[u16], cgram: &[u16; 256], filling: u16, seed: u32) -> u32 {
    let mut x = seed;
    for k in 0..40 {
        one_scene(vram, cgram, filling % 4 * 40 + k, x);
        x = after(548, x);
    }
    x
}
