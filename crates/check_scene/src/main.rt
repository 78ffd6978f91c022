// Says what the library's reader says of the scene on standard input. It holds one byte more than a
// scene has, and so sees that a scene is longer.
#![tactic(auto)]

use base_refusal_line::refuse;

fn main() {
    let mut vram = [0u16; 32768];
    let mut cgram = [0u16; 256];
    let mut oam = [0u8; 544];
    let mut file = [0u8; 66657];
    let got = io::read_full(0, &mut file);
    match scene_file::read_scene(&mut vram, &mut cgram, &mut oam, &file[..got]) {
        Ok(_) => {
            io::write_all(1, b"accepted\n");
        }
        Err(n) => {
            let _ = refuse(n);
        }
    }
}
