// Reads the sections of a scene into lent memories, each read into a lent piece, and tests each piece
// as it comes.
ghost use Rattle.std.specs.Prelude.{◌≡◌, ◌*◌, length};
ghost use Rattle.scene_bytes.specs.Bytes.{words_of};
ghost use Rattle.scene_input.specs.Input.{ReadAs, SceneRead};
ghost use Rattle.scene_input.specs.steps.Input.{SectionRead, end_on, vram_on, registers_on, HeldVram, HeldRegisters};

use base_refusal::Refusal;
use frame_ports::Way;
use frame_ports::inner::moved;
use oam::OAM_SIZE;
use registers::constants::COLOUR_WORDS;
use scene_bytes::inner::words;
use scene_file::inner::{
    COLOUR_BYTES, REGISTER_BYTES, VRAM_BYTES, body_tested, count_tested, end_tested, values_tested,
};
use tiles::inner::VRAM_WORDS;

// The bytes of a count.
const COUNT_BYTES: usize = 4;

// Reads a section of N bytes: its count, and its body into lent bytes.
fn section<const N: usize>(body: &mut [u8; N]) -> Result<(), Refusal>
    ensures { SectionRead N (λ l. l ≡ body.new) result }
{
    let mut count = [0u8; COUNT_BYTES];
    let came = moved(Way::Scene, &mut count);
    count_tested(&count[..came], N)?;
    body_tested(moved(Way::Scene, body), N)
}

// Reads a section of N words, by way of its M bytes.
fn word_section<const N: usize, const M: usize>(
    out: &mut [u16; N],
    body: &mut [u8; M],
) -> Result<(), Refusal>
    requires { M ≡ N * 2 }
    ensures { SectionRead M (λ l. out.new ≡ words_of N l) result }
{
    section(body)?;
    words(out, body);
    Ok(())
}

// Sees that nothing follows the last section.
fn end() -> Result<(), Refusal>
    ensures { ReadAs end_on (λ b. Unit) result }
{
    let mut byte = [0u8; 1];
    end_tested(moved(Way::Scene, &mut byte))
}

// Reads VRAM's section, and sees that it is the last.
fn read_from_vram(vram: &mut [u16; VRAM_WORDS]) -> Result<(), Refusal>
    ensures { ReadAs vram_on (HeldVram vram.new) result }
{
    let mut body = [0u8; VRAM_BYTES];
    word_section(vram, &mut body)?;
    end()
}

// All sections.
fn sections(
    registers: &mut [u8; REGISTER_BYTES],
    oam: &mut [u8; OAM_SIZE],
    cgram: &mut [u16; COLOUR_WORDS],
    vram: &mut [u16; VRAM_WORDS],
) -> Result<(), Refusal>
    ensures { ReadAs registers_on (HeldRegisters registers.new oam.new cgram.new vram.new) result }
{
    let mut body = [0u8; COLOUR_BYTES];
    section(registers)?;
    section(oam)?;
    word_section(cgram, &mut body)?;
    read_from_vram(vram)
}

// Reads a scene: the bytes of its registers and the three memories.
pub fn input(
    registers: &mut [u8; REGISTER_BYTES],
    oam: &mut [u8; OAM_SIZE],
    cgram: &mut [u16; COLOUR_WORDS],
    vram: &mut [u16; VRAM_WORDS],
) -> Result<(), Refusal>
    ensures { SceneRead registers.new oam.new cgram.new vram.new result }
{
    sections(registers, oam, cgram, vram)?;
    values_tested(registers)
}
