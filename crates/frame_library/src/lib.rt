// The frame program: a scene comes in section by section, and its plate goes out row by row. It is a
// library so that programs with another input can run it too.
#![tactic(auto)]

pub mod inner;

ghost use Rattle.std.specs.Prelude.{◌≡◌, ltb, Ok};
ghost use Rattle.base_refusal.specs.Answer.{refused};
ghost use Rattle.base_refusal.specs.Numbers.{number_of};
ghost use Rattle.base_refusal.specs.Results.{means};
ghost use Rattle.row_tests.specs.Memory.{lent_scene};
ghost use Rattle.scene_bytes.specs.Bytes.{registers_of};
ghost use Rattle.scene_file.specs.File.{scene_tests};
ghost use Rattle.scene_input.specs.Input.{ReadAs, SceneRead};
ghost use Rattle.frame_library.specs.steps.Frame.{Taken};

use base_refusal::Refusal;
use base_refusal_line::inner::refusal_line;
use frame_ports::Way;
use frame_ports::inner::moved;
use inner::{hand, hand_line, header, walk};
use row_tests::inner::Memory;
use scene_bytes::inner::registers;
use scene_input::inner::input;

// The bytes of a plate: its header and 224 rows of 768.
const PLATE_BYTES: usize = 172047;

// Hands on the plate of a scene that was read and accepted, and says how much of it was taken.
fn show(memory: Memory<'_>, body: &[u8; 48]) -> usize
    requires { SceneRead body.now memory.oam.now memory.cgram.now memory.vram.now (Ok tt) }
    ensures { Taken (lent_scene (registers_of body.now) memory.entry) result }
{
    let r = registers(body);
    let mut first = header();
    let mut row = [0u8; 768];
    let Memory { vram, cgram, oam } = memory;
    let at = hand(&mut first, vram, cgram, oam, r, 0);
    if at == 0 {
        return 0;
    }
    walk(&mut row, memory, r, at)
}

// Says so where a plate was not taken whole, and answers whether it said so.
fn complain(taken: usize) -> bool
    ensures { result ≡ ltb taken 172047 }
{
    if taken < PLATE_BYTES {
        let mut text = *b"the plate could not be written\n";
        moved(Way::Trouble, &mut text);
        return true;
    }
    false
}

// Hands on the line of a refusal, and the refusal.
fn refuse(n: Refusal) -> Result<(), Refusal>
    ensures { means result ≡ refused (number_of n) }
{
    let line = refusal_line(n);
    let mut text = line.text;
    hand_line(&mut text[..line.size], n)
}

// Reads a scene and hands on its plate, or the number of its refusal.
pub fn frame() -> Result<(), Refusal>
    ensures { ReadAs scene_tests (λ bytes. Unit) result }
{
    let mut vram = [0u16; 32768];
    let mut cgram = [0u16; 256];
    let mut oam = [0u8; 544];
    let mut body = [0u8; 48];
    match input(&mut body, &mut oam, &mut cgram, &mut vram) {
        Ok(()) => {
            let memory = Memory {
                vram: &vram,
                cgram: &cgram,
                oam: &oam,
            };
            complain(show(memory, &body));
            Ok(())
        }
        Err(n) => refuse(n),
    }
}
