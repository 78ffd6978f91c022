// What is asked of registers and numbers alone.
use crate::cells::Cells;
use crate::say::{Said, number};
use crate::{cells, say};
use base_refusal::Refusal;
use bg_map::BgParams;
use bg_modes::BgMode;
use line_pixels::Layer;
use registers::PPURegisters;
use registers_bg::{MapSize, Scroll};
use tiles::BitDepth;

// What is asked of registers.
#[derive(Clone, Copy)]
pub(crate) enum OfRegisters {
    LayerBits,
    Windows,
    Window,
    Background,
    Mosaic,
    SpriteSize,
    BgMode,
    BgParams,
    BgLit,
    Offset,
}

// What is asked of numbers.
#[derive(Clone, Copy)]
pub(crate) enum OfNumbers {
    Brightness,
    DirectColor,
    ColorMath,
    TileWords,
    MapEntry,
    LayerOf,
}

fn layer_bits(r: PPURegisters, n: usize) {
    let bits = [
        number(r.to_main(n)),
        number(r.to_sub(n)),
        number(r.win_main(n)),
        number(r.win_sub(n)),
    ];
    say::told(b" -> tm #, ts #, tmw #, tsw #", &bits);
}

fn windows_at(r: PPURegisters, x: usize) {
    let bits = [
        number(registers_windows::in_window1(r, x)),
        number(registers_windows::in_window2(r, x)),
        number(registers_windows::obj_window_masked(r, x)),
        number(registers_windows::in_color_window(r, x)),
    ];
    say::told(b" -> first #, second #, sprites #, colour #", &bits);
}

fn side(is64: bool) -> Said {
    Said::Number(if is64 { 64 } else { 32 })
}

fn refused(r: Refusal) -> [Said; 2] {
    [Said::Refused(r), Said::LeftOut]
}

// The two numbers of an answer, or its refusal alone.
fn size(answer: Result<MapSize, Refusal>) -> [Said; 2] {
    answer.map_or_else(refused, |s| [side(s.w64), side(s.h64)])
}

fn scroll(answer: Result<Scroll, Refusal>) -> [Said; 2] {
    answer.map_or_else(refused, |s| [s.x, s.y].map(|n| Said::Number(u64::from(n))))
}

fn offset(answer: Result<i16, Refusal>) -> Said {
    answer.map_or_else(Said::Refused, Said::Signed)
}

fn background(r: PPURegisters, bg: usize) {
    let [width, height] = size(registers_bg::bg_tilemap_size(r, bg));
    let [x, y] = scroll(registers_bg::bg_scroll(r, bg));
    let places = [
        number(registers_bg::bg_tilemap_addr(r, bg)),
        number(registers_bg::bg_tiledata_addr(r, bg)),
        width,
        height,
        x,
        y,
    ];
    say::told(b" -> map #, tiles #, size # by #, scroll # #", &places);
    let marks = [
        number(registers_bg::bg_tile16(r, bg)),
        number(registers_mosaic::bg_mosaic(r, bg)),
        number(registers_mosaic::bg_mosaic_block(r, bg)),
    ];
    say::told(b", side16 #, mosaic #, block #", &marks);
}

fn whole_mosaic(r: PPURegisters) {
    let size = Said::Number(u64::from(registers_mosaic::mosaic_size(r)));
    let offset = offset(registers_mosaic::mosaic_voffset(r));
    say::told(b" -> size #, offset #", &[size, offset]);
}

fn rgb(color: u16, level: u16) {
    say::answered(colour::apply_brightness(color, level), |c| {
        say::told(
            b" -> # # #",
            &[c.red, c.green, c.blue].map(|n| Said::Number(u64::from(n))),
        );
    });
}

fn math(c: &Cells) -> u16 {
    let main = cells::word(c[cells::MAIN]);
    let sub = cells::word(c[cells::SUB]);
    colour::color_math(main, sub, c[cells::SUBTRACT] == 1, c[cells::HALF] == 1)
}

fn entry(word: u16) {
    let e = bg_map::map_entry(word);
    say::told(
        b" -> tile #, palette #, high #, flip x #, flip y #",
        &[
            u64::from(e.tile),
            u64::from(e.palette),
            u64::from(e.high),
            u64::from(e.flip_x),
            u64::from(e.flip_y),
        ]
        .map(Said::Number),
    );
}

fn layer_of(bg: usize) -> Said {
    Layer::from_bg(bg).map_or_else(Said::Refused, say::layer)
}

fn sprite_size(objsel: u8, large: bool) {
    let size = oam::sprite_size(objsel, large);
    say::told(
        b" -> # by #",
        &[size.width, size.height].map(|n| Said::Number(u64::from(n))),
    );
}

fn bits(d: BitDepth) -> u64 {
    match d {
        BitDepth::Two => 2,
        BitDepth::Four => 4,
        BitDepth::Eight => 8,
    }
}

fn of_mode(m: BgMode) {
    if !m.present {
        say::single(Said::Name(b"none"));
        return;
    }
    say::told(
        b" -> bpp #, low #, high #, own #",
        &[
            bits(m.bpp),
            u64::from(m.low),
            u64::from(m.high),
            u64::from(m.own_palettes),
        ]
        .map(Said::Number),
    );
}

fn bg_mode(r: PPURegisters, bg: usize) {
    say::answered(bg_modes::bg_mode(r, bg), of_mode);
}

fn params(p: BgParams) {
    say::told(
        b" -> map #, tiles #, scroll # #, w64 #, h64 #, side16 #, mosaic #, bpp #, low #, high #, own #",
        &[
            u64::from(p.tilemap_base),
            u64::from(p.tiledata_base),
            u64::from(p.scroll_x),
            u64::from(p.scroll_y),
            u64::from(p.w64),
            u64::from(p.h64),
            u64::from(p.tile16),
            u64::from(p.mosaic),
            bits(p.bpp),
            say::priority(p.z_low),
            say::priority(p.z_high),
            u64::from(p.own_palettes),
        ]
        .map(Said::Number),
    );
    say::told(b", #", &[say::layer(p.layer)]);
    screens(b", main #, sub #", p);
}

// The screens that light a background.
fn screens(text: &[u8], p: BgParams) {
    say::told(
        text,
        &[p.to_main, p.to_sub].map(|n| Said::Number(u64::from(n))),
    );
}

fn bg_params(r: PPURegisters, bg: usize) {
    say::answered(bg_modes::bg_params(r, bg), params);
}

fn bg_lit(r: PPURegisters, bg: usize) {
    say::answered(
        bg_modes::bg_params(r, bg),
        |p| screens(b" -> main #, sub #", p),
    );
}

pub(crate) fn of_registers(asked: OfRegisters, n: u64, c: &Cells) {
    let r = cells::registers(c);
    let x = c[cells::COLUMN] as usize;
    let n = n as usize;
    match asked {
        OfRegisters::LayerBits => layer_bits(r, n),
        OfRegisters::Windows => windows_at(r, x),
        OfRegisters::Window => say::single(number(registers_windows::bg_window_masked(r, n, x))),
        OfRegisters::Background => background(r, n),
        OfRegisters::Mosaic => whole_mosaic(r),
        OfRegisters::SpriteSize => sprite_size(r.objsel, c[cells::LARGE] == 1),
        OfRegisters::BgMode => bg_mode(r, n),
        OfRegisters::BgParams => bg_params(r, n),
        OfRegisters::BgLit => bg_lit(r, n),
        OfRegisters::Offset => say::single(offset(registers_mosaic::bg_mosaic_voffset(r, n))),
    }
}

pub(crate) fn of_numbers(asked: OfNumbers, n: u64, c: &Cells) {
    match asked {
        OfNumbers::Brightness => rgb(cells::word(c[cells::COLOR]), cells::word(c[cells::LEVEL])),
        OfNumbers::DirectColor => {
            let index = cells::byte(c[cells::INDEX]);
            let palette = cells::byte(c[cells::PALETTE]);
            let color = colour::direct_color(index, palette);
            say::single(Said::Number(u64::from(color)));
        }
        OfNumbers::ColorMath => say::single(Said::Number(u64::from(math(c)))),
        OfNumbers::TileWords => {
            let words = cells::depth(c[cells::BPP]).tile_words();
            say::single(Said::Number(words as u64));
        }
        OfNumbers::MapEntry => entry(cells::word(n)),
        OfNumbers::LayerOf => say::single(layer_of(n as usize)),
    }
}
