// The scene file: sections in a fixed order, each after its count. The reader takes it as one lent
// slice and writes its targets only when all of it is accepted.
#![tactic(auto)]

pub mod inner;

ghost use Rattle.std.specs.Prelude.{◌≡◌};
ghost use Rattle.scene_file.specs.File.{read_outcome};
ghost use Rattle.scene_file.specs.Answers.{scene_means};

use base_refusal::Refusal;
use inner::{fill_bytes, fill_words, scene_tested};
use oam::OAM_SIZE;
use registers::PPURegisters;
use registers::constants::COLOUR_WORDS;
use scene_bytes::inner::registers;
use tiles::inner::VRAM_WORDS;

// The bytes of a scene file.
pub const SCENE_BYTES: usize = 66656;

// Reads a scene into the lent targets, and answers its registers.
pub fn read_scene(
    vram: &mut [u16],
    cgram: &mut [u16],
    oam: &mut [u8],
    scene: &[u8],
) -> Result<PPURegisters, Refusal>
    ensures { scene_means result vram.new cgram.new oam.new ≡ read_outcome scene.now vram.old cgram.old oam.old }
{
    let vram = vram.as_mut_array::<VRAM_WORDS>().ok_or(Refusal::Vram)?;
    let cgram = cgram.as_mut_array::<COLOUR_WORDS>().ok_or(Refusal::Colour)?;
    let oam = oam.as_mut_array::<OAM_SIZE>().ok_or(Refusal::Oam)?;
    scene_tested(scene)?;
    fill_words(vram, scene, 1120);
    fill_words(cgram, scene, 604);
    fill_bytes(oam, scene, 56);
    Ok(registers(&scene[4..52]))
}
