// The readers of a background.
use crate::answers::{number, print_offset, scrolled, size};
use crate::scattered;
use registers::PPURegisters;
use test_numbers::next;
use test_replay::hex;

// Map address; character address; 1 if the map is wide, and 2 if it is tall; 1 if the tile side is
// 16, and 2 if mosaic is on; mosaic block.
fn show(r: PPURegisters, bg: usize) {
    io::print_hex(1, number(registers_bg::bg_tilemap_addr(r, bg)), 4);
    io::print_hex(1, number(registers_bg::bg_tiledata_addr(r, bg)), 4);
    io::print_hex(1, size(registers_bg::bg_tilemap_size(r, bg)), 1);
    let tile16 = number(registers_bg::bg_tile16(r, bg));
    let mosaic = number(registers_mosaic::bg_mosaic(r, bg));
    io::print_hex(1, mosaic << 1 | tile16, 1);
    hex(number(registers_mosaic::bg_mosaic_block(r, bg)), 2, b'\n');
}

pub(crate) fn backgrounds() {
    for v in 0..=255u8 {
        for bg in 0..4 {
            show(scattered(v), bg);
        }
    }
}

// The offset, and the four backgrounds', in decimal.
fn offsets(r: PPURegisters) {
    print_offset(registers_mosaic::mosaic_voffset(r));
    for bg in 0..4 {
        io::write_all(1, b" ");
        print_offset(registers_mosaic::bg_mosaic_voffset(r, bg));
    }
    io::write_all(1, b"\n");
}

// Every mosaic size, and for each the counters 0 to 16.
pub(crate) fn counters() {
    for size in 0..16u8 {
        for counter in 0..17u8 {
            offsets(PPURegisters {
                mosaic: size << 4 | (size + counter) % 16,
                mosaic_vcounter: counter,
                ..PPURegisters::new()
            });
        }
    }
}

// The next number.
fn drawn(x: &mut u32) -> u16 {
    *x = next(*x);
    test_numbers::word(*x)
}

// Registers whose scrolls are drawn.
fn draw(x: &mut u32) -> PPURegisters {
    PPURegisters {
        bg1hofs: drawn(x),
        bghofs: [drawn(x), drawn(x), drawn(x)],
        bg1vofs: drawn(x),
        bgvofs: [drawn(x), drawn(x), drawn(x)],
        ..PPURegisters::new()
    }
}

pub(crate) fn scroll() {
    let mut x: u32 = 4;
    for _ in 0..48u32 {
        let r = draw(&mut x);
        for bg in 0..4 {
            hex(scrolled(registers_bg::bg_scroll(r, bg)), 8, b'\n');
        }
    }
}
