// Each test, then the tests of each kind of call. A call whose tests are passed has its memories with
// their lengths in the type, and its row with its range.
ghost use Rattle.std.specs.Prelude.{◌≡◌, true, length, IfOk, eqb};
ghost use Rattle.base_refusal.specs.Answer.{◌and_then◌};
ghost use Rattle.base_refusal.specs.Numbers.{number_of};
ghost use Rattle.base_refusal.specs.Results.{means, Passed};
ghost use Rattle.base_refusal.specs.steps.Said.{said_of};
ghost use Rattle.row_tests.specs.Tests.{test, row_number_test, counter_test, row_tests, last_tests, lent_tests, bg_tests, choice_tests, part_tests};
ghost use Rattle.row_tests.specs.steps.Memory.{Lends};

use base_refusal::Refusal;
use registers::constants::LARGEST_COUNTER;
use registers::screen_row::ScreenRow;

// The lent memories that a row is drawn from. VRAM is a slice: a word of it is read where it is needed, and what
// draws a row asks nothing of its length.
#[derive(Clone, Copy)]
pub struct Memory<'a> {
    pub vram: &'a [u16],
    pub cgram: &'a [u16; 256],
    pub oam: &'a [u8; 544],
}

// Ok where the test holds, otherwise the refusal.
fn test(holds: bool, n: Refusal) -> Result<(), Refusal>
    ensures { (means result ≡ test holds (number_of n)) × (Passed result → (holds ≡ true)) }
{
    if holds { Ok(()) } else { Err(n) }
}

// The row's number. The row is handed on.
fn number_tested(y: usize) -> Result<ScreenRow, Refusal>
    ensures said { said_of result ≡ row_number_test y }
    ensures held { IfOk result (λ row. row.number ≡ y) }
{
    ScreenRow::try_from(y)
}

// The mosaic counter.
fn counter_tested(counter: u8) -> Result<(), Refusal>
    ensures { means result ≡ counter_test counter }
{
    test(counter <= LARGEST_COUNTER, Refusal::Counter)
}

// A memory of N elements, which is handed on, or the refusal of another length.
fn sized<'a, T, const N: usize>(m: &'a [T], n: Refusal) -> Result<&'a [T; N], Refusal>
    ensures said { said_of result ≡ test (eqb (length m.now) N) (number_of n) }
    ensures held { IfOk result (λ a. a.now ≡ m.now) }
{
    let Ok(sized) = <&[T; N]>::try_from(m) else {
        return Err(n);
    };
    Ok(sized)
}

// The row and the three memories. They are handed on.
fn row_tested<'a>(
    y: usize,
    vram: &'a [u16],
    cgram: &'a [u16],
    oam: &'a [u8],
) -> Result<(Memory<'a>, ScreenRow), Refusal>
    ensures said { said_of result ≡ row_tests y (length vram.now) (length cgram.now) (length oam.now) }
    ensures held { IfOk result (λ m. Lends m.0 vram.now cgram.now oam.now × (m.1.number ≡ y)) }
{
    let y = number_tested(y)?;
    sized::<_, 32768>(vram, Refusal::Vram)?;
    let cgram = sized(cgram, Refusal::Colour)?;
    let oam = sized(oam, Refusal::Oam)?;
    Ok((Memory { vram, cgram, oam }, y))
}

// The counter, and the other arguments, of which `in_range` says that they are in their ranges.
fn last_tested(counter: u8, in_range: bool) -> Result<(), Refusal>
    ensures { (means result ≡ last_tests counter in_range) × (Passed result → (in_range ≡ true)) }
{
    counter_tested(counter)?;
    test(in_range, Refusal::Argument)
}

// The tests of a background's calls.
pub fn bg_tested<'a>(
    y: usize,
    vram: &'a [u16],
    cgram: &'a [u16],
    counter: u8,
    in_range: bool,
) -> Result<(&'a [u16; 256], ScreenRow), Refusal>
    ensures said { said_of result ≡ bg_tests y (length vram.now) (length cgram.now) counter in_range }
    ensures held { IfOk result (λ g. (g.0.now ≡ cgram.now) × ((g.1.number ≡ y) × (in_range ≡ true))) }
{
    let y = number_tested(y)?;
    sized::<_, 32768>(vram, Refusal::Vram)?;
    let cgram = sized(cgram, Refusal::Colour)?;
    last_tested(counter, in_range)?;
    Ok((cgram, y))
}

// Of the calls of the sprites, and of any layer.
pub fn layer_tested<'a>(
    y: usize,
    vram: &'a [u16],
    cgram: &'a [u16],
    oam: &'a [u8],
    counter: u8,
    in_range: bool,
) -> Result<(Memory<'a>, ScreenRow), Refusal>
    ensures said { said_of result ≡ (row_tests y (length vram.now) (length cgram.now) (length oam.now) and_then last_tests counter in_range) }
    ensures held { IfOk result (λ m. Lends m.0 vram.now cgram.now oam.now × ((m.1.number ≡ y) × (in_range ≡ true))) }
{
    let (memory, y) = row_tested(y, vram, cgram, oam)?;
    last_tested(counter, in_range)?;
    Ok((memory, y))
}

// Of both lines that are written into a lent row; `lent` says that it has its length.
pub fn lent_tested(lent: bool, counter: u8) -> Result<(), Refusal>
    ensures { (means result ≡ lent_tests lent counter) × (Passed result → (lent ≡ true)) }
{
    test(lent, Refusal::Lent)?;
    counter_tested(counter)
}

// Of a row that is drawn into a lent row or picture.
pub fn draw_tested<'a>(
    y: usize,
    vram: &'a [u16],
    cgram: &'a [u16],
    oam: &'a [u8],
    lent: bool,
    counter: u8,
) -> Result<(Memory<'a>, ScreenRow), Refusal>
    ensures said { said_of result ≡ (row_tests y (length vram.now) (length cgram.now) (length oam.now) and_then lent_tests lent counter) }
    ensures held { IfOk result (λ m. Lends m.0 vram.now cgram.now oam.now × ((m.1.number ≡ y) × (lent ≡ true))) }
{
    let (memory, y) = row_tested(y, vram, cgram, oam)?;
    lent_tested(lent, counter)?;
    Ok((memory, y))
}

// Of the choice of a row's sprites.
pub fn choice_tested<'a>(y: usize, oam: &'a [u8]) -> Result<(&'a [u8; 544], ScreenRow), Refusal>
    ensures said { said_of result ≡ choice_tests y (length oam.now) }
    ensures held { IfOk result (λ o. (o.0.now ≡ oam.now) × (o.1.number ≡ y)) }
{
    let y = number_tested(y)?;
    let oam = sized(oam, Refusal::Oam)?;
    Ok((oam, y))
}

// Of a row of lent pictures that is handed back.
pub fn part_tested(y: usize, lent: bool, in_range: bool) -> Result<ScreenRow, Refusal>
    ensures said { said_of result ≡ part_tests y lent in_range }
    ensures held { IfOk result (λ row. (row.number ≡ y) × ((lent ≡ true) × (in_range ≡ true))) }
{
    let y = number_tested(y)?;
    test(lent, Refusal::Lent)?;
    test(in_range, Refusal::Argument)?;
    Ok(y)
}
