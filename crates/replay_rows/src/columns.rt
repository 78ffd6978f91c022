// Columns that are asked layer by layer, without the lines.
use crate::scene::Scene;
use line_pixels::{LinePixel, Lines};
use row_layers::layer_candidates;
use test_replay::pixels::{bare, compare, laid};

// Column x of row y, as the lines hold it.
fn column(scene: Scene<'_>, x: usize, y: usize, main: LinePixel, sub: LinePixel) {
    let cgram = scene.cgram;
    let mut held = bare(cgram[0], scene.regs.coldata);
    for layer in 0..5 {
        let answer = layer_candidates(scene.vram, cgram, scene.oam, scene.regs, x, y, layer);
        held = laid(held, answer);
    }
    compare(held, main, sub);
}

// Eight columns of row y, whose lines these are.
pub(crate) fn check(lines: &Lines, scene: Scene<'_>, y: usize) {
    for k in 0..8 {
        let x = (k * 37 + y % 256) % 256;
        column(scene, x, y, lines.main[x], lines.sub[x]);
    }
}
