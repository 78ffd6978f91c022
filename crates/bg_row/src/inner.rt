// The row is decoded into cells, character by character, and what the columns show is taken from
// there. What holds for the whole row is found once.
ghost use Rattle.std.specs.Prelude.{◌≡◌, ◌+◌, ◌-◌, ◌%◌, ◌<◌, ◌≤◌};
ghost use Rattle.base_lists.specs.Tab.{tab};
ghost use Rattle.line_laying.specs.Laying.{candidate_in};
ghost use Rattle.bg_map.specs.Source.{extent_of};
ghost use Rattle.bg_row.specs.Row.{bg_pixel};
ghost use Rattle.bg_row.specs.steps.Cells.{cell_at};

use bg_map::inner::{BgDrawn, extent, map_row, source_line};
use bg_tile::inner::{cell, character_row, is_direct, palette};
use line_pixels::Candidate;
use registers::PPURegisters;
use registers::screen_row::ScreenRow;

// The cells of line py of the map: its pixels from the last multiple of 8 that the scroll has
// passed, 33 characters of them.
fn cells(vram: &[u16], cgram: &[u16; 256], p: BgDrawn, direct: bool, py: usize) -> [Candidate; 264]
    requires { py < extent_of p.params.h64 p.params.tile16 }
    ensures { result ≡ tab 264 (cell_at vram.now cgram.now p.params direct py) }
{
    let params = p.params;
    let straight = is_direct(params.bpp, direct);
    let first = params.scroll_x as usize / 8 * 8;
    let width = extent(params.w64, params.tile16);
    let map_row = map_row(params, py);
    let mut out = [Candidate::none(); 264];
    for j in 0..33 {
        let t = character_row(vram, params, map_row, (first + j * 8) % width, py);
        let colors = palette(cgram, p, t.palette);
        for k in 0..8 {
            out[j * 8 + k] = cell(vram, colors, params, straight, t, k);
        }
    }
    out
}

// The cells that the columns show, the first at `fine`, without mosaic.
fn shifted(cells: &[Candidate; 264], fine: usize) -> [Candidate; 256]
    requires { fine < 8 }
    ensures { result ≡ tab 256 (λ x. candidate_in cells.now (x + fine)) }
{
    std::array::from_fn(|x| cells[x + fine])
}

// The same with mosaic: each column shows the first of its block.
fn blocks(cells: &[Candidate; 264], fine: usize, block: usize) -> [Candidate; 256]
    requires { (fine < 8) × ((0 < block) × (block ≤ 16)) }
    ensures { result ≡ tab 256 (λ x. candidate_in cells.now (x - x % block + fine)) }
{
    let mut out = [Candidate::none(); 256];
    for start in (0..256).step_by(block) {
        let end = (start + block).min(256);
        out[start..end].fill(cells[start + fine]);
    }
    out
}

fn columns(cells: &[Candidate; 264], fine: usize, block: usize) -> [Candidate; 256]
    requires { (fine < 8) × ((0 < block) × (block ≤ 16)) }
    ensures { result ≡ tab 256 (λ x. candidate_in cells.now (x - x % block + fine)) }
{
    if block == 1 {
        shifted(cells, fine)
    } else {
        blocks(cells, fine, block)
    }
}

// What the background has at the columns of row y.
pub fn row(
    vram: &[u16],
    cgram: &[u16; 256],
    r: PPURegisters,
    p: BgDrawn,
    y: ScreenRow,
) -> [Candidate; 256]
    ensures { result ≡ tab 256 (bg_pixel vram.now cgram.now r p.params y.number) }
{
    let py = source_line(r, p.params, y);
    let decoded = cells(vram, cgram, p, r.direct_color(), py);
    let block = registers_mosaic::inner::block(r, p.params.mosaic) as usize;
    columns(&decoded, p.params.scroll_x as usize % 8, block)
}
