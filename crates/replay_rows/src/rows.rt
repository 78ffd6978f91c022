// The rows of a scene.
use crate::kinds::Kind;
use crate::scene::Scene;
use crate::{columns, kinds, scene};
use line_pixels::Lines;
use picture_rows::picture_row;
use registers::PPURegisters;
use row_composite::composite_line;
use row_layers::{backdrop_lines, render_layer};
use row_renderer::{render_into_picture, render_scanline};
use test_replay::drawing::{after, nth};
use test_replay::{hex, settle};

// Six digits of a digest of a row.
fn digest(row: &[u8]) -> u64 {
    u64::from(test_replay::bytes(row) % 16777216)
}

fn composed(lines: &Lines, r: PPURegisters) -> u64 {
    let mut row = [1u8; 768];
    let _ = settle(composite_line(&mut row, lines, r));
    digest(&row)
}

// The mosaic counter at row y.
fn counter_at(mosaic: u8, counter: u8, y: u8) -> u8 {
    let mut c = counter;
    for _ in 0..y {
        c = kinds::stepped(mosaic, c);
    }
    c
}

// Sixteen digests stand in a line.
fn end_of(y: u8) -> u8 {
    if y % 16 == 15 { b'\n' } else { b' ' }
}

impl Scene<'_> {
    fn drawn(self, y: usize) -> u64 {
        let cgram = self.cgram;
        let mut row = [1u8; 768];
        let _ = settle(render_scanline(&mut row, self.vram, cgram, self.oam, self.regs, y));
        digest(&row)
    }

    // The lines of row y, laid in another order, and one layer twice.
    fn stepwise(self, y: usize) -> Lines {
        let cgram = self.cgram;
        let mut lines = settle(backdrop_lines(cgram, self.regs)).unwrap_or(Lines::backdrops(0, 0));
        for layer in [4, 2, 0, 3, 1, 2] {
            let answer = render_layer(&mut lines, self.vram, cgram, self.oam, self.regs, y, layer);
            let _ = settle(answer);
        }
        lines
    }

    // Row y, drawn into a picture and handed back from it.
    fn handed(self, y: usize) -> u64 {
        let cgram = self.cgram;
        let other = [0u8; 172032];
        let mut picture = [0u8; 172032];
        let _ = settle(render_into_picture(&mut picture, self.vram, cgram, self.oam, self.regs, y));
        digest(picture_row(&other, &picture, 1, y))
    }

    // The scene at row y, with its counter.
    fn at_row(self, kind: Kind, y: u8, counter: u8) -> Self {
        let mut scene = self;
        scene.regs = kinds::at_row(self.regs, kind, y, counter);
        scene
    }

    // Row y again: its digest, laid step by step, and handed back from a picture. Some columns are asked
    // by themselves.
    fn again(self, y: u8) {
        let row = usize::from(y);
        let lines = self.stepwise(row);
        columns::check(&lines, self, row);
        hex(u64::from(y), 2, b' ');
        hex(composed(&lines, self.regs), 6, b' ');
        hex(self.handed(row), 6, b'\n');
    }

    // Every row.
    fn all(self, kind: Kind) {
        let mut counter = self.regs.mosaic_vcounter;
        for y in 0..224u8 {
            let now = self.at_row(kind, y, counter);
            hex(now.drawn(usize::from(y)), 6, end_of(y));
            counter = kinds::stepped(self.regs.mosaic, counter);
        }
    }

    // Every row, then row y again.
    fn shown(self, kind: Kind, y: u8) {
        self.all(kind);
        let counter = counter_at(self.regs.mosaic, self.regs.mosaic_vcounter, y);
        self.at_row(kind, y, counter).again(y);
    }
}

// A scene's line: its number and kind, inidisp, bgmode and mosaic.
fn head(n: usize, kind: Kind, r: PPURegisters) {
    io::print_hex(1, n as u64, 2);
    hex(kind as u64, 1, b' ');
    io::print_hex(1, u64::from(r.inidisp), 2);
    io::print_hex(1, u64::from(r.bgmode), 2);
    hex(u64::from(r.mosaic), 2, b'\n');
}

// A scene, for which 537 numbers are drawn.
fn one_scene(vram: &[u16], cgram: &[u16; 256], n: usize, seed: u32) {
    let kind = kinds::kind_of(n);
    let turn = (n / 8 % 16) as u8;
    let regs = kinds::turned(scene::registers(n, seed), kind, turn);
    head(n, kind, regs);
    let sprites = scene::sprites(kind, turn, after(24, seed));
    let scene = Scene {
        vram,
        cgram,
        oam: &sprites,
        regs,
    };
    scene.shown(kind, (nth(537, seed) % 224) as u8);
}

// Sixteen scenes over one filling of the memories. The generator's state after them.
pub(crate) fn sixteen(vram: &[u16], cgram: &[u16; 256], filling: usize, seed: u32) -> u32 {
    let mut x = seed;
    for k in 0..16 {
        one_scene(vram, cgram, filling % 8 * 16 + k, x);
        x = after(537, x);
    }
    x
}
