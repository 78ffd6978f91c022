// What is drawn from memory, and what is read of it.
use crate::cells::Cells;
use crate::memory::Lent;
use crate::say::Said;
use crate::{cells, say};
use base_refusal::Refusal;
use bg_layer::bg_candidates;
use line_pixels::Candidate;
use oam::Sprite;
use picture_rows::{check_picture_row, picture_row};
use registers::PPURegisters;
use row_layers::layer_candidates;
use row_renderer::{render_into_picture, render_scanline};
use sprite_choice::inner::none_chosen;
use sprite_choice::{Chosen, VisibleSprite, eval_sprites_for_scanline};
use sprite_layer::{sprite_candidates, sprite_line};
use tiles::BitDepth;

// What is asked.
#[derive(Clone, Copy)]
pub(crate) enum Drawn {
    TilePixel,
    Sprite,
    Choice,
    SpriteLine,
    SpriteCandidates,
    BgCandidates,
    LayerCandidates,
    Scanline,
    Picture,
    PictureRow,
}

// A pixel of a tile.
fn pixel(vram: &[u16], bpp: BitDepth, base: usize, x: usize, y: usize) -> Result<u8, Refusal> {
    match bpp {
        BitDepth::Two => tiles::decode_2bpp_tile_pixel_from(vram, base, x, y),
        BitDepth::Four => tiles::decode_4bpp_tile_pixel_from(vram, base, x, y),
        BitDepth::Eight => tiles::decode_8bpp_tile_pixel_from(vram, base, x, y),
    }
}

fn tile_pixel(vram: &[u16], n: u64, c: &Cells) {
    let bpp = cells::depth(c[cells::BPP]);
    let x = c[cells::X] as usize;
    let y = c[cells::Y] as usize;
    say::single(say::number(pixel(vram, bpp, n as usize, x, y)));
}

fn told(s: Sprite) {
    say::told(
        b" -> x9 #, top #, tile #, base #, table #, palette #, priority #, flip x #, flip y #, large #",
        &[
            u64::from(oam::nine_bits(s.x)),
            u64::from(s.y),
            u64::from(s.tile),
            u64::from(s.chr_base),
            u64::from(s.name_table),
            u64::from(s.palette),
            u64::from(s.priority),
            u64::from(s.flip_x),
            u64::from(s.flip_y),
            u64::from(s.large),
        ]
        .map(Said::Number),
    );
}

fn get_sprite(oam: &[u8], index: u8, objsel: u8) {
    say::answered(oam::get_sprite(oam, index, objsel), told);
}

fn chosen(c: &Chosen) {
    say::told(
        b"# chosen, # tiles, time #, range #:",
        &[
            c.count as u64,
            c.tiles as u64,
            u64::from(c.time_over),
            u64::from(c.range_over),
        ]
        .map(Said::Number),
    );
    // What a place beyond the list holds.
    let blank = VisibleSprite {
        index: 0,
        sprite: Sprite::blank(),
    };
    for (k, p) in c.sprites.iter().enumerate() {
        if k < c.count {
            say::told(b" #", &[Said::Number(u64::from(p.index))]);
        } else if *p != blank {
            io::write_all(1, b" and more");
        }
    }
}

fn choose(oam: &[u8], r: PPURegisters, y: usize) {
    let answer = eval_sprites_for_scanline(oam, y, r.objsel, r.oamadd, r.obj_interlace());
    chosen(&say::begun(answer, none_chosen()));
}

// A column of the sprite line, in two digits.
fn digits(c: Candidate) -> Said {
    if c.opaque {
        Said::Digits((c.pixel.color % 256) as u8)
    } else {
        Said::Name(b"--")
    }
}

// How many columns of a sprite line hold a pixel, eight of them from one on, and the first of these.
fn shown(line: &[Candidate; 256], from: u8) {
    let pixels = line.iter().filter(|c| c.opaque).count();
    say::told(b"# pixels:", &[Said::Number(pixels as u64)]);
    for k in 0..8 {
        say::told(b" #", &[digits(line[usize::from(from.wrapping_add(k))])]);
    }
    say::candidate(b", first # # # math#", line[usize::from(from)]);
}

// Draws a row into a lent one.
fn scanline(row: &mut [u8], lent: Lent<'_>, r: PPURegisters, c: &Cells) {
    let n = cells::lent(c[cells::LENT_ROW], row.len());
    let y = c[cells::ROW] as usize;
    let answer = render_scanline(&mut row[..n], lent.vram, lent.cgram, lent.oam, r, y);
    say::drawn(answer, row, c[cells::LENT_ROW], c, 0);
}

// Draws a row into a lent picture.
fn picture(picture: &mut [u8], lent: Lent<'_>, r: PPURegisters, c: &Cells) {
    let n = cells::lent(c[cells::PICTURE], picture.len());
    let y = c[cells::ROW] as usize;
    let answer = render_into_picture(&mut picture[..n], lent.vram, lent.cgram, lent.oam, r, y);
    say::drawn(answer, picture, c[cells::PICTURE], c, c[cells::ROW]);
}

// The number of a picture's row that has byte i.
fn row_of(i: usize) -> u8 {
    (i / 768 % 256) as u8
}

// A part: its length, and how many of its bytes are as its first.
fn handed(part: &[u8]) {
    match part.first() {
        Some(first) => say::told(
            b"# bytes, # of them #",
            &[
                part.len() as u64,
                say::count(part, *first) as u64,
                u64::from(*first),
            ]
            .map(Said::Number),
        ),
        None => {
            io::write_all(1, b"0 bytes");
        }
    }
}

// A part of two pictures, of which a byte is its row's number, or what is left to 255.
fn part_of_two(c: &Cells) {
    let first: [u8; 172033] = std::array::from_fn(row_of);
    let second: [u8; 172033] = std::array::from_fn(|i| 255 - row_of(i));
    let first = &first[..cells::lent(c[cells::PICTURE], first.len())];
    let second = &second[..cells::lent(c[cells::SECOND], second.len())];
    let choice = c[cells::CHOICE] as usize;
    let y = c[cells::ROW] as usize;
    say::begun(check_picture_row(first, second, choice, y), ());
    handed(picture_row(first, second, choice, y));
}

pub(crate) fn ask(asked: Drawn, n: u64, lent: Lent<'_>, c: &Cells) {
    let r = cells::registers(c);
    let x = c[cells::COLUMN] as usize;
    let y = c[cells::ROW] as usize;
    match asked {
        Drawn::TilePixel => tile_pixel(lent.vram, n, c),
        Drawn::Sprite => get_sprite(lent.oam, cells::byte(n), r.objsel),
        Drawn::Choice => choose(lent.oam, r, y),
        Drawn::SpriteLine => {
            let answer = sprite_line(lent.vram, lent.cgram, lent.oam, r, y);
            let line = say::begun(answer, [Candidate::none(); 256]);
            shown(&line, cells::byte(c[cells::FROM]));
        }
        Drawn::SpriteCandidates => say::candidates(sprite_candidates(
            lent.vram, lent.cgram, lent.oam, r, x, y,
        )),
        Drawn::BgCandidates => say::candidates(bg_candidates(
            lent.vram,
            lent.cgram,
            r,
            cells::params(c),
            x,
            y,
        )),
        Drawn::LayerCandidates => say::candidates(layer_candidates(
            lent.vram, lent.cgram, lent.oam, r, x, y, n as usize,
        )),
        Drawn::Scanline => scanline(&mut [7; 769], lent, r, c),
        Drawn::Picture => picture(&mut [7; 172033], lent, r, c),
        Drawn::PictureRow => part_of_two(c),
    }
}
