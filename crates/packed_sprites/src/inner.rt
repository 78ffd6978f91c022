// What a whole row asks of the sprites.
ghost use Rattle.std.specs.Prelude.{◌≡◌, cond, not, ◌||◌, ◌+◌, ◌<◌, ◌≤◌, get_or, take, leb, eqb};
ghost use Rattle.base_lists.specs.Tab.{tab};
ghost use Rattle.registers.specs.Bits.{bit_of};
ghost use Rattle.line_pixels.specs.Pixels.{none};
ghost use Rattle.line_pixels.specs.declared.Layer.TheVariants.{Obj};
ghost use Rattle.packed_pixels.specs.steps.Packed.{code_of, packed_if};
ghost use Rattle.sprite_tile.specs.Tile.{sprite_colours, sprite_pixel_of};
ghost use Rattle.tiles.specs.declared.BitDepth.TheVariants.{Four};
ghost use Rattle.tiles_row.specs.steps.Rows.{TileRowSound, row_index};
ghost use Rattle.sprite_fetch.specs.steps.Walk.{AllSound, drawn_all};
ghost use Rattle.sprite_layer.specs.Sprites as sprites;

use line_pixels::inner::select;
use oam::OAM_SIZE;
use packed_pixels::inner::{Head, from_column};
use registers::PPURegisters;
use registers::constants::OBJ_LAYER;
use registers::inner::bit;
use registers::screen_row::ScreenRow;
use sprite_fetch::Fetched;
use sprite_layer::inner::fetched_rows;
use sprite_tile::inner::palette;
use tiles_eight::inner::shaded;
use tiles_row::TileRow;

// A sprite's code: only palettes 4 to 7 take part in color math.
fn code(palette: u8) -> u32
    ensures { (result ≡ code_of Obj (leb 4 palette)) × (result < 8) }
{
    if palette >= 4 { 4 } else { 6 }
}

// The eight pixels of a tile's row.
fn pixels(vram: &[u16], g: &[u32; 256], t: TileRow) -> [u32; 8]
    requires { TileRowSound t }
    ensures { result ≡ tab 8 (λ k. packed_if (sprite_pixel_of (sprite_colours g.now t.palette) t.palette t.z (row_index vram.now Four t k))) }
{
    let head = Head::new(code(t.palette), t.z);
    let colors = palette(g, t.palette);
    shaded::<2>(vram, t, head, colors)
}

// The pixel that is held after another is drawn over it.
fn over(pixel: u32, held: u32) -> u32
    ensures { result ≡ cond (not (eqb pixel 0)) pixel held }
{
    select(pixel != 0, pixel, held)
}

// Writes the sprite line. A tile that meets the picture is drawn whole: the line has room for the
// rest of it.
fn draw(out: &mut [u32; 256], f: Fetched, vram: &[u16], g: &[u32; 256])
    requires { (f.count ≤ 34) × AllSound f.count f.rows }
    ensures { out.new ≡ tab 256 (λ x. packed_if (drawn_all vram.now g.now (take f.count f.rows) x none)) }
{
    let mut line = [0; 272];
    for s in f.as_slice() {
        let at = (s.tile_x as usize + 8) % 512;
        if at >= 264 {
            continue;
        }
        let eight = pixels(vram, g, s.tile);
        for k in 0..8 {
            line[at + k] = over(eight[k], line[at + k]);
        }
    }
    from_column(out, &line, 8);
}

// The sprite line, where a screen lights the sprites, and otherwise nothing.
pub fn sprites_row(
    out: &mut [u32; 256],
    vram: &[u16],
    g: &[u32; 256],
    oam: &[u8; OAM_SIZE],
    r: PPURegisters,
    y: ScreenRow,
)
    ensures { out.new ≡ tab 256 (λ x. cond (bit_of r.tm 4 || bit_of r.ts 4) (packed_if (sprites.sprite_pixel vram.now g.now oam.now r y.number x)) 0) }
{
    if bit(r.tm, OBJ_LAYER) | bit(r.ts, OBJ_LAYER) {
        draw(out, fetched_rows(oam, r, y), vram, g);
    } else {
        *out = [0; 256];
    }
}
