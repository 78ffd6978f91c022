// The readers of the whole screen.
use crate::answers::bit;
use crate::scattered;
use base_refusal::Refusal;
use registers::PPURegisters;
use test_replay::hex;

// The bits of five layers, BG1's the lowest.
fn layers<F: Fn(usize) -> Result<bool, Refusal>>(lit: F) -> u64
    requires { F.IsAlwaysCallable lit }
{
    let mut bits: u64 = 0;
    for layer in (0..5).rev() {
        bits = bits << 1 | bit(lit(layer));
    }
    bits
}

// Mode, direct colour, forced blank, brightness, sprite interlace; mosaic size; the layers of tm,
// ts, tmw, tsw.
fn show(r: PPURegisters) {
    io::print_hex(1, u64::from(r.bg_mode()), 1);
    io::print_hex(1, u64::from(r.direct_color()), 1);
    io::print_hex(1, u64::from(r.force_blank()), 1);
    io::print_hex(1, u64::from(r.brightness()), 1);
    io::print_hex(1, u64::from(r.obj_interlace()), 1);
    io::print_hex(1, u64::from(registers_mosaic::mosaic_size(r)), 2);
    io::print_hex(1, layers(|layer| r.to_main(layer)), 2);
    io::print_hex(1, layers(|layer| r.to_sub(layer)), 2);
    io::print_hex(1, layers(|layer| r.win_main(layer)), 2);
    hex(layers(|layer| r.win_sub(layer)), 2, b'\n');
}

pub(crate) fn screen() {
    for v in 0..=255u8 {
        show(scattered(v));
    }
}
