// The composite of both lines: colour math and brightness, into the bytes of a row. Follows
// renderer.rs, with its names.
#![tactic(auto)]

pub mod inner;

ghost use Rattle.std.specs.Prelude.{◌≡◌};
ghost use Rattle.base_refusal.specs.Results.{means};
ghost use Rattle.row_composite.specs.Composite.{composite_outcome};

use base_refusal::Refusal;
use line_pixels::Lines;
use registers::PPURegisters;
use row_tests::inner::lent_tested;

// The bytes of a row.
pub const ROW_BYTES: usize = 768;

// Writes the row that both lines make into a lent row.
pub fn composite_line(row: &mut [u8], lines: &Lines, r: PPURegisters) -> Result<(), Refusal>
    ensures { record { said = means result; left = row.new } ≡ composite_outcome row.old lines.now r }
{
    let lent = row.len() == ROW_BYTES;
    lent_tested(lent, r.mosaic_vcounter)?;
    let row = row.as_mut_array::<ROW_BYTES>().ok_or(Refusal::Lent)?;
    inner::composite(row, lines, r);
    Ok(())
}
