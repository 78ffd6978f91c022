// What a whole row asks of a background.
ghost use Rattle.std.specs.Prelude.{◌≡◌, cond, ◌&&◌, ◌||◌, ◌+◌, ◌-◌, ◌%◌, ◌<◌, ◌≤◌, get_or, take};
ghost use Rattle.base_lists.specs.Tab.{tab};
ghost use Rattle.packed_pixels.specs.steps.Packed.{packed_if};
ghost use Rattle.bg_map.specs.Source.{extent_of};
ghost use Rattle.tiles_row.specs.steps.Rows.{TileRowSound};
ghost use Rattle.bg_tile.specs.Tile.{bg_colours, is_eight};
ghost use Rattle.bg_tile.specs.steps.Characters.{cell_in};
ghost use Rattle.bg_row.specs.Row.{bg_pixel};
ghost use Rattle.bg_row.specs.steps.Cells.{cell_at};
ghost use Rattle.bg_modes.specs.Modes.{params_of};

use bg_map::inner::{BgDrawn, extent, map_row, source_line};
use bg_modes::inner::bg_params;
use bg_tile::inner::{character_row, palette};
use line_pixels::inner::bg_index;
use packed_pixels::inner::{Head, from_column};
use registers::PPURegisters;
use registers::background::Background;
use registers::screen_row::ScreenRow;
use tiles::BitDepth;
use tiles_eight::inner::{shaded, shaded_direct};
use tiles_row::TileRow;

// The eight pixels of a character's row.
pub fn eight(vram: &[u16], g: &[u32; 256], p: BgDrawn, direct: bool, t: TileRow) -> [u32; 8]
    requires { TileRowSound t }
    ensures { result ≡ tab 8 (λ k. packed_if (cell_in vram.now (bg_colours g.now p.params t.palette) p.params (is_eight p.params.bpp && direct) t k)) }
{
    let head = Head::new(bg_index(p.params.layer) as u32, t.z);
    let colors = palette(g, p, t.palette);
    match p.params.bpp {
        BitDepth::Two => shaded::<1>(vram, t, head, colors),
        BitDepth::Four => shaded::<2>(vram, t, head, colors),
        BitDepth::Eight => {
            if direct {
                shaded_direct(vram, t, head)
            } else {
                shaded::<4>(vram, t, head, colors)
            }
        }
    }
}

// Writes the cells of line py of the map: its pixels from the last multiple of 8 that the scroll has
// passed, 33 characters of them.
fn cells(out: &mut [u32; 264], vram: &[u16], g: &[u32; 256], p: BgDrawn, direct: bool, py: usize)
    requires { py < extent_of p.params.h64 p.params.tile16 }
    ensures { out.new ≡ tab 264 (λ i. packed_if (cell_at vram.now g.now p.params direct py i)) }
{
    let params = p.params;
    let first = params.scroll_x as usize / 8 * 8;
    let width = extent(params.w64, params.tile16);
    let map_row = map_row(params, py);
    for j in 0..33 {
        let t = character_row(vram, params, map_row, (first + j * 8) % width, py);
        let pixels = eight(vram, g, p, direct, t);
        out[j * 8..j * 8 + 8].copy_from_slice(&pixels);
    }
}

// The line that mosaic makes of the cells: each column shows the first of its block. Every block is
// written 16 wide, the largest size; the next one is written over the rest, and 16 columns more than
// are shown take the end of the last.
fn blocks(cells: &[u32; 264], fine: usize, block: usize) -> [u32; 272]
    requires { (fine < 8) × ((0 < block) × (block ≤ 16)) }
    ensures { take 256 result ≡ tab 256 (λ x. get_or cells.now (x - x % block + fine) 0) }
{
    let mut line = [0; 272];
    for start in (0..256).step_by(block) {
        line[start..start + 16].fill(cells[start + fine]);
    }
    line
}

// Writes what the columns show of the cells.
fn columns(out: &mut [u32; 256], cells: &[u32; 264], fine: usize, block: usize)
    requires { (fine < 8) × ((0 < block) × (block ≤ 16)) }
    ensures { out.new ≡ tab 256 (λ x. get_or cells.now (x - x % block + fine) 0) }
{
    if block == 1 {
        from_column(out, cells, fine);
        return;
    }
    let line = blocks(cells, fine, block);
    from_column(out, &line, 0);
}

// Writes what the background has at the columns of row y.
fn drawn(
    out: &mut [u32; 256],
    vram: &[u16],
    g: &[u32; 256],
    r: PPURegisters,
    p: BgDrawn,
    y: ScreenRow,
)
    ensures { out.new ≡ tab 256 (λ x. packed_if (bg_pixel vram.now g.now r p.params y.number x)) }
{
    let py = source_line(r, p.params, y);
    let mut decoded = [0; 264];
    cells(&mut decoded, vram, g, p, r.direct_color(), py);
    let block = registers_mosaic::inner::block(r, p.params.mosaic) as usize;
    columns(out, &decoded, p.params.scroll_x as usize % 8, block);
}

// The same of background bg into an empty row, where a screen lights it, and otherwise nothing.
pub fn background_row(
    out: &mut [u32; 256],
    vram: &[u16],
    g: &[u32; 256],
    r: PPURegisters,
    y: ScreenRow,
    bg: Background,
)
    requires { out.old ≡ tab 256 (λ x. 0) }
    ensures { out.new ≡ tab 256 (λ x. cond ((params_of r bg.number).to_main || (params_of r bg.number).to_sub) (packed_if (bg_pixel vram.now g.now r (params_of r bg.number) y.number x)) 0) }
{
    let p = bg_params(r, bg);
    if p.params.to_main | p.params.to_sub {
        drawn(out, vram, g, r, p, y);
    }
}
