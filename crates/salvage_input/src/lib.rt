// A file of any length on standard input, salvaged.
#![tactic(auto)]

pub mod inner;

ghost use Rattle.salvage_input.specs.Input.{OfInput};

use base_refusal::Refusal;
use inner::read_file;
use salvage::Changes;
use salvage::inner::mend;
use scene_file::SCENE_BYTES;

// Reads standard input to its end, makes a scene of it in the lent output, and answers the changes.
pub fn salvage_input(out: &mut [u8]) -> Result<Changes, Refusal>
    ensures { OfInput result out.old out.new }
{
    let scene = out.as_mut_array::<SCENE_BYTES>().ok_or(Refusal::Output)?;
    let total = read_file(scene);
    Ok(mend(scene, total))
}
