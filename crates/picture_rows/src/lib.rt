// Two lent pictures, as the Rust's front and back buffers: the chosen one's row, handed back as its
// own part.
#![tactic(auto)]

ghost use Rattle.std.specs.Prelude.{◌≡◌, length, IfOk};
ghost use Rattle.base_refusal.specs.Results.{means};
ghost use Rattle.base_refusal.specs.steps.Said.{said_of};
ghost use Rattle.picture_rows.specs.Pictures.{picture_tests, lent, picture_row};
ghost use Rattle.picture_rows.specs.steps.Pictures.{PicturesTested};

use base_refusal::Refusal;
use registers::screen_row::ScreenRow;
use row_composite::ROW_BYTES;
use row_renderer::PICTURE_BYTES;
use row_tests::inner::part_tested;

// The pictures to choose from.
pub const PICTURES: usize = 2;

// The tests of both calls. The row is handed on.
fn tested(first: usize, second: usize, choice: usize, y: usize) -> Result<ScreenRow, Refusal>
    ensures said { said_of result ≡ picture_tests first second choice y }
    ensures held { IfOk result (λ row. (row.number ≡ y) × PicturesTested first second choice) }
{
    let lent = (first == PICTURE_BYTES) & (second == PICTURE_BYTES);
    part_tested(y, lent, choice < PICTURES)
}

// Would the row be handed back? If not, the refusal.
pub fn check_picture_row(
    first: &[u8],
    second: &[u8],
    choice: usize,
    y: usize,
) -> Result<(), Refusal>
    ensures { means result ≡ picture_tests (length first.now) (length second.now) choice y }
{
    tested(first.len(), second.len(), choice, y)?;
    Ok(())
}

// Row y of the chosen picture, 0 or 1, as its own part. On a refusal the part is empty.
pub fn picture_row<'a>(first: &'a [u8], second: &'a [u8], choice: usize, y: usize) -> &'a [u8]
    ensures { lent result ≡ picture_row (lent first.entry) (lent second.entry) choice y }
{
    match tested(first.len(), second.len(), choice, y) {
        Ok(y) => {
            let start = y.number * ROW_BYTES;
            let end = start + ROW_BYTES;
            if choice == 0 {
                &first[start..end]
            } else {
                &second[start..end]
            }
        }
        Err(_) => &first[..0],
    }
}
