// What the frame stands on: its header, the counter's walk, and its rows, each handed on as the part
// of the plate that it is.
ghost use Rattle.std.specs.Prelude.{◌≡◌, ◌+◌, length};
ghost use Rattle.base_refusal.specs.Answer.{refused};
ghost use Rattle.base_refusal.specs.Numbers.{number_of};
ghost use Rattle.base_refusal.specs.Results.{means};
ghost use Rattle.registers.specs.Replaced.{with_counter};
ghost use Rattle.registers.specs.Scene.{scene};
ghost use Rattle.base_refusal_line.specs.Lines.{refused_line};
ghost use Rattle.row_tests.specs.Memory.{lent_scene};
ghost use Rattle.frame_library.specs.Frame.{counter_after, counter_at, frame_row, plate_header, Part, Come, Reached};

use base_refusal::Refusal;
use frame_ports::Way;
use frame_ports::inner::moved;
use registers::PPURegisters;
use registers::constants::SCREEN_HEIGHT;
use registers::screen_row::ScreenRow;
use row_renderer::inner::render;
use row_tests::inner::Memory;

// The first bytes of a plate.
pub fn header() -> [u8; 15]
    ensures { result ≡ plate_header }
{
    *b"P6\n256 224\n255\n"
}

// The counter after a row.
pub fn next_counter(r: PPURegisters, counter: u8) -> u8
    ensures { result ≡ counter_after r counter }
{
    if counter <= 1 {
        registers_mosaic::inner::mosaic_size(r)
    } else {
        counter - 1
    }
}

// The registers with another counter.
pub fn at_counter(registers: PPURegisters, counter: u8) -> PPURegisters
    ensures { result ≡ with_counter counter registers }
{
    PPURegisters {
        mosaic_vcounter: counter,
        ..registers
    }
}

// Draws row y of the frame, and says what the counter is after it.
pub fn draw_row(
    row: &mut [u8; 768],
    memory: Memory<'_>,
    r: PPURegisters,
    y: ScreenRow,
    counter: u8,
) -> u8
    requires { counter ≡ counter_at r y.number }
    ensures { (row.new ≡ frame_row (lent_scene r memory.entry) y.number) × (result ≡ counter_at r (y.number + 1)) }
{
    render(row, memory, at_counter(r, counter), y);
    next_counter(r, counter)
}

// Hands on the bytes that a scene's plate has from byte `at` on, and says how far it has come. It is
// given the scene only for what it requires of the bytes.
pub fn hand(
    bytes: &mut [u8],
    vram: &[u16],
    cgram: &[u16],
    oam: &[u8],
    r: PPURegisters,
    at: usize,
) -> usize
    requires { Part (scene r vram.now cgram.now oam.now) at bytes.old }
    ensures { (bytes.new ≡ bytes.old) × Come at (length bytes.old) result }
{
    at + moved(Way::Plate, bytes)
}

// Hands on a refusal's line in place of a plate, and the refusal.
pub fn hand_line(bytes: &mut [u8], n: Refusal) -> Result<(), Refusal>
    requires { bytes.old ≡ refused_line (number_of n) }
    ensures { means result ≡ refused (number_of n) }
{
    moved(Way::Plate, bytes);
    Err(n)
}

// Draws the rows, one after another into one lent row, and hands each on; stops where one is not
// taken, and says how far the plate has come.
pub fn walk(row: &mut [u8; 768], memory: Memory<'_>, r: PPURegisters, from: usize) -> usize
    requires { from ≡ 15 }
    ensures { Reached (lent_scene r memory.entry) row.new result }
{
    let Memory { vram, cgram, oam } = memory;
    let mut at = from;
    let mut counter = r.mosaic_vcounter;
    for y in 0..SCREEN_HEIGHT {
        counter = draw_row(row, memory, r, ScreenRow { number: y }, counter);
        let next = hand(row, vram, cgram, oam, r, at);
        if next == at {
            return at;
        }
        at = next;
    }
    at
}
