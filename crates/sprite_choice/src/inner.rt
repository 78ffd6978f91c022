// What the public call of this crate stands on, for the crates above.
ghost use Rattle.std.specs.Prelude.{◌≡◌, ◌<◌, length};
ghost use Rattle.sprite_choice.specs.Choice.{search_start, blank_place, none_chosen, chosen_of};
ghost use Rattle.sprite_choice.specs.steps.Choice.{placed_at};

use crate::{Chosen, VisibleSprite};
use oam::inner::get_sprite;
use oam::{OAM_SIZE, Sprite};
use sprite_row::inner::{counting_tiles, in_range};

// The places of the list.
const MAX_SPRITES: usize = 32;
// The tiles that a row can fetch.
pub const MAX_TILES: usize = 34;

// The number of the sprite that the search starts at.
fn search_start(oamadd: u16) -> u8
    ensures { (result ≡ search_start oamadd) × (result < 128) }
{
    if oamadd / 32768 == 1 {
        (oamadd % 256 / 2) as u8
    } else {
        0
    }
}

// What stands in a place that holds no sprite.
fn blank() -> VisibleSprite
    ensures { result ≡ blank_place }
{
    VisibleSprite::default()
}

pub fn none_chosen() -> Chosen
    ensures { result ≡ none_chosen }
{
    Chosen {
        sprites: [blank(); 32],
        count: 0,
        tiles: 0,
        time_over: false,
        range_over: false,
    }
}

// The sprite at place k of the search, which wraps at 128.
fn placed_at(oam: &[u8; OAM_SIZE], objsel: u8, start: u8, k: u8) -> VisibleSprite
    requires { (start < 128) × (k < 128) }
    ensures { result ≡ placed_at oam.now objsel start k }
{
    let index = (start + k) % 128;
    VisibleSprite {
        index,
        sprite: get_sprite(oam, index, objsel),
    }
}

pub fn choose(oam: &[u8; OAM_SIZE], row: u8, objsel: u8, oamadd: u16, obj_interlace: bool) -> Chosen
    ensures { result ≡ chosen_of oam.now row objsel oamadd obj_interlace }
{
    let start = search_start(oamadd);
    let mut sprites = [blank(); 32];
    let mut count: usize = 0;
    let mut tiles: usize = 0;
    for k in 0..128u8 {
        let p = placed_at(oam, objsel, start, k);
        if !in_range(p.sprite, row, objsel, obj_interlace) {
            continue;
        }
        if count == MAX_SPRITES {
            return Chosen {
                sprites,
                count,
                tiles,
                time_over: tiles > MAX_TILES,
                range_over: true,
            };
        }
        sprites[count] = p;
        count += 1;
        tiles += counting_tiles(p.sprite, objsel);
    }
    Chosen {
        sprites,
        count,
        tiles,
        time_over: tiles > MAX_TILES,
        range_over: false,
    }
}
