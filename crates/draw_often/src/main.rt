// Draws a scene again and again, for bench/run to time. Standard input has how often, in four bytes,
// the lowest first, and then the scene. It writes a digest of what it drew.
#![tactic(auto)]

mod rows;

use base_refusal_line::refuse;
use rows::Scene;
use scene_file::read_scene;

// How often; more than 65,535 counts as never.
fn times() -> u16 {
    let mut count = [0u8; 4];
    io::read_full(0, &mut count);
    u16::try_from(u32::from_le_bytes(count)).unwrap_or(0)
}

// Writes a digest's line.
fn say(digest: u32) {
    io::print_hex(1, u64::from(digest), 8);
    io::write_all(1, b"\n");
}

fn main() {
    let mut vram = [0u16; 32768];
    let mut cgram = [0u16; 256];
    let mut oam = [0u8; 544];
    let mut file = [0u8; 66657];
    let n = times();
    let got = io::read_full(0, &mut file);
    match read_scene(&mut vram, &mut cgram, &mut oam, &file[..got]) {
        Ok(regs) => {
            let scene = Scene {
                vram: &vram,
                cgram: &cgram,
                oam: &oam,
                regs,
            };
            say(scene.often(n));
        }
        Err(k) => {
            let _ = refuse(k);
        }
    }
}
