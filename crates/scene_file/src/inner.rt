// What the reader stands on, and what a program uses that reads a scene piece by piece: the
// tests of a count, of a body's length, of what follows the last section and of the two values.
ghost use Rattle.std.specs.Prelude.{◌≡◌, ◌+◌, ◌*◌, ◌≤◌, length};
ghost use Rattle.base_refusal.specs.Results.{means, Passed};
ghost use Rattle.scene_bytes.specs.Bytes.{words_of};
ghost use Rattle.scene_file.specs.File.{count_at, body_at, section_tests, end_tests, value_tests, scene_tests};
ghost use Rattle.scene_file.specs.steps.Pieces.{count_tests, body_tests, values_in};

use crate::SCENE_BYTES;
use base_refusal::Refusal;
use oam::OAM_SIZE;
use registers::constants::LARGEST_COUNTER;
use scene_bytes::inner::words;

// The bytes of the sections' bodies.
pub const REGISTER_BYTES: usize = 48;

pub const COLOUR_BYTES: usize = 512;

pub const VRAM_BYTES: usize = 65536;

// The count whose four bytes begin at byte k.
pub fn count_at(bytes: &[u8], k: usize) -> u32
    requires { k + 4 ≤ length bytes.now }
    ensures { result ≡ count_at bytes.now k }
{
    u32::from_le_bytes([bytes[k], bytes[k + 1], bytes[k + 2], bytes[k + 3]])
}

// What is said of a section of n bytes by what was read of its count.
#[tactic(auto, unfolding(crate::specs::steps::Pieces::count_tests))]
pub fn count_tested(count: &[u8], n: usize) -> Result<(), Refusal>
    ensures { means result ≡ count_tests n count.now }
{
    if count.len() < 4 {
        return Err(Refusal::SceneCut);
    }
    if count_at(count, 0) as usize != n {
        return Err(Refusal::SectionCount);
    }
    Ok(())
}

// And by how many bytes of its body there were.
#[tactic(auto, unfolding(crate::specs::steps::Pieces::body_tests))]
pub fn body_tested(got: usize, n: usize) -> Result<(), Refusal>
    ensures { means result ≡ body_tests n got }
{
    if got < n {
        return Err(Refusal::SceneCut);
    }
    Ok(())
}

// What is said of n bytes after the last section.
#[tactic(auto, unfolding(crate::specs::File::end_tests))]
pub fn end_tested(n: usize) -> Result<(), Refusal>
    ensures { means result ≡ end_tests n }
{
    if n == 0 {
        return Ok(());
    }
    Err(Refusal::SceneLonger)
}

// What is said of the counter's byte and of the field's.
#[tactic(auto, unfolding(crate::specs::File::value_tests))]
fn values(counter: u8, field: u8) -> Result<(), Refusal>
    ensures { means result ≡ value_tests counter field }
{
    if counter > LARGEST_COUNTER {
        return Err(Refusal::Counter);
    }
    if field > 1 {
        return Err(Refusal::FieldByte);
    }
    Ok(())
}

// What is said of the values in the registers' section.
pub fn values_tested(body: &[u8; REGISTER_BYTES]) -> Result<(), Refusal>
    ensures { means result ≡ values_in body.now }
{
    values(body[46], body[47])
}

// The tests of a section of n bytes whose count begins at byte k.
fn section(scene: &[u8], k: usize, n: usize) -> Result<(), Refusal>
    requires { (k ≤ 1116) × (n ≤ 65536) }
    ensures { (means result ≡ section_tests scene.now k n) × (Passed result → k + 4 + n ≤ length scene.now) }
{
    if scene.len() < k + 4 {
        return Err(Refusal::SceneCut);
    }
    if count_at(scene, k) as usize != n {
        return Err(Refusal::SectionCount);
    }
    if scene.len() < k + 4 + n {
        return Err(Refusal::SceneCut);
    }
    Ok(())
}

// All tests of a scene: of its sections in their order, of what comes after them, and of its values.
#[tactic(auto, unfolding(crate::specs::File::scene_tests))]
pub fn scene_tested(scene: &[u8]) -> Result<(), Refusal>
    ensures { (means result ≡ scene_tests scene.now) × (Passed result → 66656 ≤ length scene.now) }
{
    section(scene, 0, REGISTER_BYTES)?;
    section(scene, 52, OAM_SIZE)?;
    section(scene, 600, COLOUR_BYTES)?;
    section(scene, 1116, VRAM_BYTES)?;
    end_tested(scene.len() - SCENE_BYTES)?;
    values(scene[50], scene[51])
}

// Fills a memory with the words of the section whose body begins at byte k.
pub fn fill_words(out: &mut [u16], scene: &[u8], k: usize)
    requires { (k + length out.old * 2 ≤ 66656) × (66656 ≤ length scene.now) }
    ensures { out.new ≡ words_of (length out.old) (body_at scene.now k (length out.old * 2)) }
{
    words(out, &scene[k..k + out.len() * 2]);
}

// Fills sprite memory with the bytes of its section.
pub fn fill_bytes(out: &mut [u8], scene: &[u8], k: usize)
    requires { (k + length out.old ≤ 66656) × (66656 ≤ length scene.now) }
    ensures { out.new ≡ body_at scene.now k (length out.old) }
{
    out.copy_from_slice(&scene[k..k + out.len()]);
}
