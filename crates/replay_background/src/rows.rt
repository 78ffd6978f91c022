// The rows of a scene.
use crate::scene;
use bg_layer::{bg_candidates, render_bg_scanline};
use bg_modes::inner::bg_params;
use line_pixels::inner::bg_index;
use line_pixels::{LinePixel, Lines};
use registers::PPURegisters;
use registers::background::Background;
use test_digest::fold;
use test_replay::drawing::{after, ends, nth};
use test_replay::pixels::{Pixels, bare, laid};
use test_replay::{agree, hex, settle};

// Main's background and colour, then sub's colour.
fn both(main: LinePixel, sub: LinePixel) -> u64 {
    let over = (bg_index(main.layer) as u64) << 15 | u64::from(main.color % 32768);
    over << 32 | u64::from(sub.color % 32768)
}

// A digest with all of two lines.
fn folded(digest: u32, lines: &Lines) -> u32 {
    let mut d = digest;
    for (main, sub) in lines.main.iter().zip(&lines.sub) {
        d = fold(d, both(*main, *sub));
    }
    d
}

// A scene: the memories, the registers and the background.
#[derive(Clone, Copy)]
struct Scene<'a> {
    vram: &'a [u16],
    cgram: &'a [u16; 256],
    regs: PPURegisters,
    bg: Background,
}

impl Scene<'_> {
    // The scene with the background lit on these screens alone.
    fn lit(self, main: bool, sub: bool) -> Self {
        let mut scene = self;
        scene.regs.tm = u8::from(main) << self.bg.number;
        scene.regs.ts = u8::from(sub) << self.bg.number;
        scene
    }

    // The lines of row y, drawn over the backdrops.
    fn lines_of(self, y: usize) -> Lines {
        let cgram = self.cgram;
        let mut lines = Lines::backdrops(cgram[0], self.regs.coldata);
        let params = bg_params(self.regs, self.bg).params;
        let _ = settle(render_bg_scanline(&mut lines, self.vram, cgram, self.regs, params, y));
        lines
    }

    // What column x of row y shows by its candidates alone.
    fn asked(self, x: usize, y: usize) -> Pixels {
        let cgram = self.cgram;
        let before = bare(cgram[0], self.regs.coldata);
        let params = bg_params(self.regs, self.bg).params;
        laid(
            before,
            bg_candidates(self.vram, cgram, self.regs, params, x, y),
        )
    }

    // A digest of row y at the first column, the last one and four others, which show what these lines
    // have.
    fn some(self, y: usize, lines: &Lines, seed: u32) -> u32 {
        let mut d: u32 = 0;
        for k in 0..6 {
            let x = usize::from(ends(k, 255, nth(k + 1, seed)));
            let p = self.asked(x, y);
            let shown = both(p.main, p.sub);
            agree(shown == both(lines.main[x], lines.sub[x]));
            d = fold(d, shown);
        }
        d
    }

    // A digest of row y's lines on main alone, on sub alone and on both, and one of some columns.
    fn row(self, y: usize, seed: u32) {
        let mut d: u32 = 0;
        for (main, sub) in [(true, false), (false, true)] {
            d = folded(d, &self.lit(main, sub).lines_of(y));
        }
        let scene = self.lit(true, true);
        let lines = scene.lines_of(y);
        hex(u64::from(folded(d, &lines)), 8, b' ');
        hex(u64::from(scene.some(y, &lines, seed)), 8, b'\n');
    }
}

// A scene's line: bgmode, the background, mosaic.
fn head(bgmode: u8, bg: Background, mosaic: u8) {
    io::print_hex(1, u64::from(bgmode), 2);
    io::print_hex(1, bg.number as u64, 1);
    hex(u64::from(mosaic), 2, b'\n');
}

// A scene: its line, and four rows, the first, the last and any, each with its counter. Eight numbers are
// drawn for each.
fn one_scene(vram: &[u16], cgram: &[u16; 256], n: u16, seed: u32) {
    let regs = scene::registers(n, seed);
    let bg = scene::background(regs.bg_mode(), usize::from(n / 4));
    head(regs.bgmode, bg, regs.mosaic);
    let mut scene = Scene {
        vram,
        cgram,
        regs,
        bg,
    };
    let mut x = after(18, seed);
    for k in 0..4 {
        let y = ends(k, 223, nth(1, x));
        let counter = (nth(2, x) % 17) as u8;
        scene.regs.mosaic_vcounter = counter;
        hex(u64::from(y) << 8 | u64::from(counter), 4, b' ');
        scene.row(usize::from(y), after(2, x));
        x = after(8, x);
    }
}

// Forty scenes over one filling of the memories: the modes in turn, in each the backgrounds that it
// has. The generator's state after them.
pub(crate) fn forty(vram: &[u16], cgram: &[u16; 256], filling: u16, seed: u32) -> u32 {
    let mut x = seed;
    for k in 0..40 {
        one_scene(vram, cgram, filling % 4 * 40 + k, x);
        x = after(50, x);
    }
    x
}
