// Both lines, and what is laid over them.
use crate::cells::Cells;
use crate::memory::Lent;
use crate::say::Said;
use crate::statement::among;
use crate::{cells, say};
use base_refusal::Refusal;
use bg_layer::render_bg_scanline;
use line_pixels::{Candidate, Layer, LinePixel, Lines, Priority, deposit};
use row_composite::composite_line;
use row_layers::{backdrop_lines, render_layer};
use sprite_layer::render_sprites;
use test_replay::pixels::same;

// What a statement does with the lines.
#[derive(Clone, Copy)]
pub(crate) enum Step {
    Lines,
    Main,
    Sub,
    Backdrops,
    Background,
    Sprites,
    Layer,
    Composite,
    Deposit,
}

// The pixel that a statement describes.
fn pixel_of(c: &Cells) -> LinePixel {
    LinePixel {
        color: cells::word(c[cells::COLOR]),
        z: priority_of(c),
        layer: cells::layer(c[cells::LAYER]),
        obj_math: c[cells::MATH] == 1,
    }
}

// The priority z; a sprite's is that of its bits where z is 0.
fn priority_of(c: &Cells) -> Priority {
    let sprite = cells::layer(c[cells::LAYER]) == Layer::Obj;
    if sprite & (c[cells::Z] == 0) {
        return Priority::obj(cells::byte(c[cells::PRIO]));
    }
    Priority::new(cells::byte(c[cells::Z]))
}

// Puts a pixel in some columns of a line.
fn put(line: &mut [LinePixel; 256], n: u64, c: &Cells) {
    let pixel = pixel_of(c);
    for (x, held) in line.iter_mut().enumerate() {
        if among(n, c, x) {
            *held = pixel;
        }
    }
}

// The columns in which one of the lines changed.
fn changed(before: &Lines, after: &Lines) -> usize {
    (0..256)
        .filter(|&x| !same(before.main[x], after.main[x]) | !same(before.sub[x], after.sub[x]))
        .count()
}

// Writes of the lines how many columns changed, or one column.
fn told(before: &Lines, after: &Lines, c: &Cells) {
    if c[cells::COUNT] == 1 {
        say::told(
            b"# columns changed",
            &[Said::Number(changed(before, after) as u64)],
        );
        return;
    }
    let x = (c[cells::COLUMN] % 256) as usize;
    say::pixel(b"main # # # math#", after.main[x]);
    say::pixel(b", sub # # # math#", after.sub[x]);
}

// Writes what a call left of the lines, and keeps it where that is asked.
fn keep(lines: &mut Lines, answer: Result<(), Refusal>, after: &Lines, c: &Cells) {
    say::begun(answer, ());
    told(lines, after, c);
    if c[cells::KEEP] == 1 {
        *lines = *after;
    }
}

fn backdrops(lines: &mut Lines, lent: Lent<'_>, c: &Cells) {
    let answer = backdrop_lines(lent.cgram, cells::registers(c));
    let after = answer.unwrap_or(Lines::backdrops(0, 0));
    keep(lines, answer.map(|_| ()), &after, c);
}

fn background(lines: &mut Lines, lent: Lent<'_>, c: &Cells) {
    let r = cells::registers(c);
    let p = cells::params(c);
    let y = c[cells::ROW] as usize;
    let mut after = *lines;
    let answer = render_bg_scanline(&mut after, lent.vram, lent.cgram, r, p, y);
    keep(lines, answer, &after, c);
}

fn sprites(lines: &mut Lines, lent: Lent<'_>, c: &Cells) {
    let r = cells::registers(c);
    let y = c[cells::ROW] as usize;
    let mut after = *lines;
    let answer = render_sprites(&mut after, lent.vram, lent.cgram, lent.oam, r, y);
    keep(lines, answer, &after, c);
}

fn layer(lines: &mut Lines, lent: Lent<'_>, c: &Cells, layer: usize) {
    let r = cells::registers(c);
    let y = c[cells::ROW] as usize;
    let mut after = *lines;
    let answer = render_layer(&mut after, lent.vram, lent.cgram, lent.oam, r, y, layer);
    keep(lines, answer, &after, c);
}

// Writes the row that the lines make.
fn composite(row: &mut [u8], lines: &Lines, c: &Cells) {
    let n = cells::lent(c[cells::LENT_ROW], row.len());
    let answer = composite_line(&mut row[..n], lines, cells::registers(c));
    say::drawn(answer, row, c[cells::LENT_ROW], c, 0);
}

// A candidate that comes to what main holds at a column.
fn deposited(lines: &Lines, c: &Cells) {
    let held = lines.main[(c[cells::COLUMN] % 256) as usize];
    let candidate = Candidate {
        opaque: c[cells::CLEAR] == 0,
        pixel: pixel_of(c),
    };
    say::pixel(b" -> # # # math#", deposit(held, candidate));
}

pub(crate) fn ask(step: Step, n: u64, lines: &mut Lines, lent: Lent<'_>, c: &Cells) {
    match step {
        Step::Lines => {
            *lines = Lines::backdrops(cells::word(c[cells::MAIN]), cells::word(c[cells::SUB]));
        }
        Step::Main => put(&mut lines.main, n, c),
        Step::Sub => put(&mut lines.sub, n, c),
        Step::Backdrops => backdrops(lines, lent, c),
        Step::Background => background(lines, lent, c),
        Step::Sprites => sprites(lines, lent, c),
        Step::Layer => layer(lines, lent, c, n as usize),
        Step::Composite => composite(&mut [7; 769], lines, c),
        Step::Deposit => deposited(lines, c),
    }
}
