// A whole row: backdrops, backgrounds, sprites, composite; into a lent row, and into its part of a
// lent picture. Follows renderer.rs, with its names.
#![tactic(auto)]

pub mod inner;

ghost use Rattle.std.specs.Prelude.{◌≡◌, length};
ghost use Rattle.base_refusal.specs.Results.{means};
ghost use Rattle.registers.specs.Scene.{scene};
ghost use Rattle.row_tests.specs.Memory.{lent_scene};
ghost use Rattle.row_renderer.specs.Renderer.{scene_row, row_outcome, picture_outcome};

use base_refusal::Refusal;
use registers::PPURegisters;
use registers::screen_row::ScreenRow;
use row_composite::ROW_BYTES;
use row_tests::inner::{Memory, draw_tested};

// The bytes of a picture.
pub const PICTURE_BYTES: usize = 172032;

// Draws row y into a part that has a row's length.
fn draw(row: &mut [u8], memory: Memory<'_>, r: PPURegisters, y: ScreenRow)
    requires { length row.old ≡ 768 }
    ensures { row.new ≡ scene_row (lent_scene r memory.entry) y.number }
{
    if let Some(row) = row.as_mut_array::<ROW_BYTES>() {
        inner::render(row, memory, r, y);
    }
}

// Draws row y into a lent row.
pub fn render_scanline(
    row: &mut [u8],
    vram: &[u16],
    cgram: &[u16],
    oam: &[u8],
    r: PPURegisters,
    y: usize,
) -> Result<(), Refusal>
    ensures { record { said = means result; left = row.new } ≡ row_outcome (scene r vram.now cgram.now oam.now) y row.old }
{
    let lent = row.len() == ROW_BYTES;
    let (memory, y) = draw_tested(y, vram, cgram, oam, lent, r.mosaic_vcounter)?;
    draw(row, memory, r, y);
    Ok(())
}

// Draws row y into its part of a lent picture.
pub fn render_into_picture(
    picture: &mut [u8],
    vram: &[u16],
    cgram: &[u16],
    oam: &[u8],
    r: PPURegisters,
    y: usize,
) -> Result<(), Refusal>
    ensures { record { said = means result; left = picture.new } ≡ picture_outcome (scene r vram.now cgram.now oam.now) y picture.old }
{
    let lent = picture.len() == PICTURE_BYTES;
    let (memory, y) = draw_tested(y, vram, cgram, oam, lent, r.mosaic_vcounter)?;
    let start = y.number * ROW_BYTES;
    let end = start + ROW_BYTES;
    draw(&mut picture[start..end], memory, r, y);
    Ok(())
}
