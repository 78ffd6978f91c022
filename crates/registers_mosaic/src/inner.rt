// What the public calls of this crate stand on, for the crates above.
ghost use Rattle.std.specs.Prelude.{◌≡◌, ◌<◌, ◌≤◌};
ghost use Rattle.registers_mosaic.specs.Mosaic.{mosaic_size, mosaic_on, voffset, block_if, offset_if};

use registers::PPURegisters;
use registers::background::Background;
use registers::inner::bit;

pub fn mosaic_size(r: PPURegisters) -> u8
    ensures { (result ≡ mosaic_size r) × ((0 < result) × (result ≤ 16)) }
{
    r.mosaic / 16 + 1
}

pub fn bg_mosaic(r: PPURegisters, bg: Background) -> bool
    ensures { result ≡ mosaic_on r bg.number }
{
    bit(r.mosaic, bg.number)
}

// The mosaic size less the counter, below zero where the counter is larger.
pub fn mosaic_voffset(r: PPURegisters) -> i16
    ensures { result ≡ voffset r }
{
    let size = mosaic_size(r);
    let counter = r.mosaic_vcounter;
    size as i16 - counter as i16
}

// The mosaic block of a background whose mosaic is on, or off.
pub fn block(r: PPURegisters, on: bool) -> u8
    ensures { (result ≡ block_if on r) × ((0 < result) × (result ≤ 16)) }
{
    if on { mosaic_size(r) } else { 1 }
}

// Its mosaic offset.
pub fn voffset(r: PPURegisters, on: bool) -> i16
    ensures { result ≡ offset_if on r }
{
    if on { mosaic_voffset(r) } else { 0 }
}
