// What the crates above ask of a background's tiles.
ghost use Rattle.std.specs.Prelude.{◌≡◌, ◌&&◌, ◌+◌, ◌<◌, ◌≤◌, length};
ghost use Rattle.line_pixels.specs.Pixels.{background_of};
ghost use Rattle.bg_map.specs.Source.{extent_of};
ghost use Rattle.bg_map.specs.steps.Rows.{map_row_of};
ghost use Rattle.bg_tile.specs.Tile.{fine_of, character_word, priority_of, colour_count, start_of, bg_colours, is_eight, colour_in, pixel_at};
ghost use Rattle.tiles_row.specs.steps.Rows.{TileRowSound};
ghost use Rattle.bg_tile.specs.steps.Characters.{character_row_at, cell_in};

use bg_map::BgParams;
use bg_map::inner::BgDrawn;
use line_pixels::inner::bg_index;
use line_pixels::{Candidate, LinePixel, Priority};
use tiles::BitDepth;
use tiles::inner::mirror;
use tiles_row::TileRow;

// The place in its tile of a place of the map, along one axis.
fn fine(at: usize, tile16: bool, flip: bool) -> usize
    ensures { (result ≡ fine_of at tile16 flip) × (result < 16) }
{
    if tile16 {
        mirror(at % 16, 16, flip)
    } else {
        mirror(at % 8, 8, flip)
    }
}

// The word address of the character at place (fx, fy) of a tile.
fn character_word(base: u16, tile: u16, fx: usize, fy: usize, words: usize) -> usize
    requires { (fx < 16) × ((fy < 16) × (words ≤ 32)) }
    ensures { result ≡ character_word base tile fx fy words }
{
    base as usize + (tile as usize + fx / 8 + fy / 8 * 16) % 1024 * words
}

// The priority of an entry, by its bit 13.
fn priority(p: BgParams, high: bool) -> Priority
    ensures { result ≡ priority_of p high }
{
    if high { p.z_high } else { p.z_low }
}

// The row of a character that holds pixel (px, py) of the map, in its row of tiles.
pub fn character_row(vram: &[u16], p: BgParams, map_row: usize, px: usize, py: usize) -> TileRow
    requires { ((map_row ≡ map_row_of p py) × (map_row < 131072)) × (px < extent_of p.w64 p.tile16) }
    ensures { (result ≡ character_row_at vram.now p px py) × TileRowSound result }
{
    let entry = bg_map::inner::entry_in(vram, map_row, p.tile16, px);
    let fx = fine(px, p.tile16, entry.flip_x);
    let fy = fine(py, p.tile16, entry.flip_y);
    let words = p.bpp.tile_words();
    TileRow {
        base: character_word(p.tiledata_base, entry.tile, fx, fy, words),
        row: (fy % 8) as u8,
        flip_x: entry.flip_x,
        palette: entry.palette,
        z: priority(p, entry.high),
    }
}

// How many colours a tile has.
pub fn colors(bpp: BitDepth) -> usize
    ensures { result ≡ colour_count bpp }
{
    match bpp {
        BitDepth::Two => 4,
        BitDepth::Four => 16,
        BitDepth::Eight => 256,
    }
}

// Where the colours of background bg's palette n begin.
fn start_of(bpp: BitDepth, own: bool, bg: usize, n: u8) -> usize
    requires { (bg < 4) × (n < 8) }
    ensures { result ≡ start_of bpp own bg n }
{
    match bpp {
        BitDepth::Two => {
            if own {
                n as usize * 4 + 32 * bg
            } else {
                n as usize * 4
            }
        }
        BitDepth::Four => n as usize * 16,
        BitDepth::Eight => 0,
    }
}

// Where a tile's colours begin; they end in colour memory.
pub fn palette_start(p: BgDrawn, n: u8) -> usize
    requires { n < 8 }
    ensures { (result ≡ start_of p.params.bpp p.params.own_palettes (background_of p.params.layer) n) × (result + colour_count p.params.bpp ≤ 256) }
{
    let params = p.params;
    start_of(params.bpp, params.own_palettes, bg_index(params.layer), n)
}

// A tile's colours, a part of colour memory, whatever its words are.
pub fn palette<'a, T>(cgram: &'a [T; 256], p: BgDrawn, n: u8) -> &'a [T]
    requires { n < 8 }
    ensures { result.now ≡ bg_colours cgram.now p.params n }
{
    let start = palette_start(p, n);
    let words = &cgram[..];
    &words[start..start + colors(p.params.bpp)]
}

// Is direct colour shown at this depth?
pub fn is_direct(bpp: BitDepth, direct: bool) -> bool
    ensures { result ≡ is_eight bpp && direct }
{
    (bpp == BitDepth::Eight) & direct
}

// The colour of an index: direct, or among the tile's colours.
fn color(colors: &[u16], direct: bool, palette: u8, index: u8) -> u16
    requires { index < length colors.now }
    ensures { result ≡ colour_in colors.now direct palette index }
{
    if direct {
        colour::direct_color(index, palette)
    } else {
        colors[index as usize]
    }
}

// Pixel k of a character's row whose tile has these colours.
pub fn cell(
    vram: &[u16],
    colors: &[u16],
    p: BgParams,
    direct: bool,
    t: TileRow,
    k: usize,
) -> Candidate
    requires { (length colors.now ≡ colour_count p.bpp) × (TileRowSound t × (k < 8)) }
    ensures { result ≡ cell_in vram.now colors.now p direct t k }
{
    let index = tiles_row::inner::index(vram, p.bpp, t, k);
    let pixel = LinePixel {
        color: color(colors, direct, t.palette, index),
        z: t.z,
        layer: p.layer,
        obj_math: false,
    };
    Candidate {
        opaque: index != 0,
        pixel,
    }
}

// The pixel (px, py) of the map.
pub fn pixel(
    vram: &[u16],
    cgram: &[u16; 256],
    p: BgDrawn,
    direct: bool,
    px: usize,
    py: usize,
) -> Candidate
    requires { (px < extent_of p.params.w64 p.params.tile16) × (py < extent_of p.params.h64 p.params.tile16) }
    ensures { result ≡ pixel_at vram.now cgram.now p.params direct px py }
{
    let params = p.params;
    let map_row = bg_map::inner::map_row(params, py);
    let t = character_row(vram, params, map_row, px / 8 * 8, py);
    let colors = palette(cgram, p, t.palette);
    let direct = is_direct(params.bpp, direct);
    cell(vram, colors, params, direct, t, px % 8)
}
