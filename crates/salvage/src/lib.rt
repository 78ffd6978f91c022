// Salvage of a scene file that stops early: whatever is lent comes out as a scene that the reader
// accepts, with a list of what was changed.
#![tactic(auto)]

pub mod inner;

ghost use Rattle.std.specs.Prelude.{◌≡◌, take};
ghost use Rattle.salvage.specs.Answers.{salvage_means};
ghost use Rattle.salvage.specs.Salvage.{salvage_outcome};

use base_refusal::Refusal;
use inner::mend;
use salvage_bytes::inner::resize;
use scene_file::SCENE_BYTES;

// What is changed: bytes at the end are cut off, zeros are filled in there, a count is set, a value
// is set.
#[derive(Clone, Copy, Debug, PartialEq, Eq)]
pub enum Kind {
    Cut,
    Fill,
    Count,
    Value,
}

// A change: its kind, the first byte, how many bytes. A count and a value have what stood there and
// what stands there now; the others have 0.
#[derive(Clone, Copy, Debug, PartialEq, Eq)]
pub struct Change {
    pub kind: Kind,
    pub first: usize,
    pub bytes: usize,
    pub old: u32,
    pub new: u32,
}

// The changes in a list of 7 places with its length.
#[derive(Clone, Copy, Debug, PartialEq, Eq)]
pub struct Changes {
    pub list: [Change; 7],
    pub count: usize,
}

impl Changes {
    // The changes that are listed.
    pub fn as_slice(&self) -> &[Change]
        ensures { result.now ≡ take self.now.count self.now.list }
    {
        &self.list[..self.count.min(7)]
    }
}

// Makes a scene of a lent file in the lent output, and answers the changes.
pub fn salvage(out: &mut [u8], file: &[u8]) -> Result<Changes, Refusal>
    ensures { salvage_means result out.new ≡ salvage_outcome file.now out.old }
{
    let scene = out.as_mut_array::<SCENE_BYTES>().ok_or(Refusal::Output)?;
    resize(scene, file);
    Ok(mend(scene, file.len()))
}
