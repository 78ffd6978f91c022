// What the public calls of this crate stand on, for the crates above.
ghost use Rattle.std.specs.Prelude.{◌≡◌, ◌<◌, ◌≤◌};
ghost use Rattle.base_lists.specs.Tab.{tab};
ghost use Rattle.line_laying.specs.Laying.{candidates_of, lay_lines};
ghost use Rattle.sprite_layer.specs.Sprites.{view_of, chosen_sprites, sprite_pixel, sprites_shown};
ghost use Rattle.sprite_fetch.specs.Fetch.{fetched};
ghost use Rattle.sprite_fetch.specs.steps.Walk.{fetched_list, AllSound};

use line_laying::inner::{on_screens, whole};
use line_laying::{Candidates, Shown, lay_few};
use line_pixels::{Candidate, Lines};
use oam::OAM_SIZE;
use registers::PPURegisters;
use registers::constants::OBJ_LAYER;
use registers::inner::bit;
use registers::screen_row::ScreenRow;
use registers_windows::inner::obj_window;
use row_tests::inner::Memory;
use sprite_choice::inner::choose;
use sprite_fetch::Fetched;
use sprite_fetch::inner::{draw, fetch};
use sprite_tile::View;

// What decides how row y shows sprites.
fn view(r: PPURegisters, y: ScreenRow) -> View
    ensures { result ≡ view_of r y.number }
{
    View {
        objsel: r.objsel,
        row: y.number as u8,
        obj_interlace: r.obj_interlace(),
        field: r.field,
    }
}

// The fetched rows of tiles that row y shows: the sprites are chosen, and their tiles fetched.
pub fn fetched_rows(oam: &[u8; OAM_SIZE], r: PPURegisters, y: ScreenRow) -> Fetched
    ensures { (result ≡ fetched_list (view_of r y.number) (fetched 34 r.objsel (chosen_sprites oam.now r y.number))) × ((result.count ≤ 34) × AllSound result.count result.rows) }
{
    let view = view(r, y);
    let chosen = choose(oam, view.row, view.objsel, r.oamadd, view.obj_interlace);
    fetch(chosen, view)
}

// The sprite line: the fetched rows are drawn.
pub fn line(memory: Memory<'_>, r: PPURegisters, y: ScreenRow) -> [Candidate; 256]
    ensures { result ≡ tab 256 (sprite_pixel memory.entry.vram.now memory.entry.cgram.now memory.entry.oam.now r y.number) }
{
    let vram = memory.vram;
    draw(fetched_rows(memory.oam, r, y), vram, memory.cgram)
}

// Where the sprites are shown.
#[tactic(auto, unfolding(crate::specs::Sprites::sprites_shown))]
fn shown(r: PPURegisters) -> Shown
    ensures { result ≡ sprites_shown r }
{
    Shown {
        to_main: bit(r.tm, OBJ_LAYER),
        to_sub: bit(r.ts, OBJ_LAYER),
        win_main: bit(r.tmw, OBJ_LAYER),
        win_sub: bit(r.tsw, OBJ_LAYER),
        window: obj_window(r),
    }
}

// The candidates at column x of row y.
pub fn candidates(memory: Memory<'_>, r: PPURegisters, x: usize, y: ScreenRow) -> Candidates
    requires { x < 256 }
    ensures { result ≡ candidates_of (sprites_shown r) x (sprite_pixel memory.entry.vram.now memory.entry.cgram.now memory.entry.oam.now r y.number x) }
{
    let line = line(memory, r, y);
    on_screens(line[x], shown(r), x)
}

// Lays the sprites over both lines. Where neither screen lights them, nothing is drawn.
pub fn lay(lines: &mut Lines, memory: Memory<'_>, r: PPURegisters, y: ScreenRow)
    ensures { lines.new ≡ lay_lines (sprites_shown r) (sprite_pixel memory.entry.vram.now memory.entry.cgram.now memory.entry.oam.now r y.number) lines.old }
{
    whole(&lines.main, &lines.sub);
    let shown = shown(r);
    if shown.to_main | shown.to_sub {
        let line = line(memory, r, y);
        lay_few(lines, &line, shown);
    }
}
