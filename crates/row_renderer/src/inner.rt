// What the public calls of this crate stand on. A whole row is drawn over packed pixels; step by step,
// over lines of pixels, the layers are laid in the crate row_layers.
ghost use Rattle.std.specs.Prelude.{◌≡◌, length};
ghost use Rattle.base_lists.specs.Tab.{tab};
ghost use Rattle.line_pixels.specs.steps.Recoloured.{recoloured_lines};
ghost use Rattle.row_tests.specs.Memory.{lent_scene};
ghost use Rattle.row_composite.specs.Composite.{colour_at};
ghost use Rattle.packed_blend.specs.steps.Laws.{low16};
ghost use Rattle.registers.specs.Scene.{scene};
ghost use Rattle.row_renderer.specs.Renderer.{scene_lines, scene_row};

use packed_background::inner::background_row;
use packed_colours::inner::colors;
use packed_pixels::inner::backdrop;
use packed_sprites::inner::sprites_row;
use registers::PPURegisters;
use registers::background::Background;
use registers::screen_row::ScreenRow;
use row_composite::inner::{black, brighten};
use row_tests::inner::Memory;
use tiles_eight::inner::wide;

// The colours of row y before brightness: the rows of the five layers, and colour math.
fn mixed(memory: Memory<'_>, r: PPURegisters, y: ScreenRow) -> [u16; 256]
    ensures { result ≡ tab 256 (colour_at r (recoloured_lines low16 (scene_lines (lent_scene r memory.entry) y.number))) }
{
    let back = backdrop(memory.cgram[0]);
    let g = wide(memory.cgram);
    let vram = memory.vram;
    let mut rows = [[0; 256]; 5];
    background_row(&mut rows[0], vram, &g, r, y, Background { number: 0 });
    background_row(&mut rows[1], vram, &g, r, y, Background { number: 1 });
    background_row(&mut rows[2], vram, &g, r, y, Background { number: 2 });
    background_row(&mut rows[3], vram, &g, r, y, Background { number: 3 });
    sprites_row(&mut rows[4], vram, &g, memory.oam, r, y);
    colors(&rows, back, r)
}

// Draws row y into a lent row. Under forced blank nothing is laid.
pub fn render(row: &mut [u8; 768], memory: Memory<'_>, r: PPURegisters, y: ScreenRow)
    ensures { row.new ≡ scene_row (lent_scene r memory.entry) y.number }
{
    if r.force_blank() {
        black(row);
        return;
    }
    let colors = mixed(memory, r, y);
    brighten(row, &colors, r.brightness() as u16);
}
