// The kinds of scenes: what each has of the registers, and what changes from row to row.
use registers::PPURegisters;

#[derive(Clone, Copy, PartialEq, Eq)]
pub(crate) enum Kind {
    // Any registers; in half of the scenes BG1 and sprites are lit, and main is kept.
    Any,
    // Backgrounds, at every brightness.
    Backgrounds,
    // Crowds of sprites.
    Sprites,
    // Windows.
    Windows,
    // Colour math, at every setting.
    Math,
    // Mosaics of every size.
    Mosaics,
    // Direct colour, and sprites in interlace.
    Direct,
    // A picture of few tiles.
    Picture,
}

// The kinds in turn.
const KINDS: [Kind; 8] = [
    Kind::Any,
    Kind::Backgrounds,
    Kind::Sprites,
    Kind::Windows,
    Kind::Math,
    Kind::Mosaics,
    Kind::Direct,
    Kind::Picture,
];

// The kind of scene n.
pub(crate) fn kind_of(n: usize) -> Kind {
    KINDS[n % 8]
}

// The registers of a scene of a kind; `turn` counts the scenes of that kind.
pub(crate) fn turned(registers: PPURegisters, kind: Kind, turn: u8) -> PPURegisters {
    let mut r = registers;
    match kind {
        Kind::Any => if turn % 2 == 0 {
            r.tm = r.tm | 0x11;
            r.cgwsel = r.cgwsel % 64;
        },
        Kind::Backgrounds => {
            r.tm = r.tm | 0x0f;
            r.tmw = 0;
            r.tsw = 0;
            r.cgadsub = 0;
            r.cgwsel = r.cgwsel % 64;
        }
        Kind::Sprites => {
            r.tm = r.tm | 0x10;
            r.objsel = turn % 8 << 5 | r.objsel % 32;
            r.cgwsel = r.cgwsel % 64;
        }
        Kind::Windows => {
            r.w12sel = r.w12sel | 0xaa;
            r.w34sel = r.w34sel | 0xaa;
            r.wobjsel = r.wobjsel | 0xaa;
            r.tm = r.tm | 0x1f;
            r.cgwsel = turn % 12 << 4 | r.cgwsel % 16;
        }
        Kind::Math => {
            r.tm = r.tm | 0x11;
            r.wobjsel = r.wobjsel | 0x20;
            r.wh0 = r.wh0 % 128;
            r.wh1 = r.wh1 | 128;
        }
        Kind::Mosaics => {
            r.tm = r.tm | 0x0f;
            r.mosaic = turn % 16 << 4 | 15;
            r.cgwsel = r.cgwsel % 64;
            // Vertical scrolls so small that lines from above the map are shown.
            if turn % 2 == 1 {
                r.bg1vofs = r.bg1vofs % 4;
                r.bgvofs = r.bgvofs.map(|v| v % 4);
            }
        }
        Kind::Direct => {
            r.bgmode = r.bgmode & !7 | 3;
            r.cgwsel = r.cgwsel % 64 | 1;
            r.tm = r.tm | 0x11;
            r.setini = r.setini | 2;
            r.objsel = turn / 2 % 8 << 5 | r.objsel % 32;
        }
        Kind::Picture => {
            r.bgsc = r.bgsc.map(|b| b % 32);
            r.bg12nba = r.bg12nba & 0x33 | 0x22;
            r.bg34nba = r.bg34nba & 0x33 | 0x22;
            r.tm = r.tm | 0x1f;
            r.tmw = 0;
            r.mosaic = r.mosaic % 16;
            r.cgwsel = turn % 4;
            r.inidisp = 15;
        }
    }
    r
}

// The registers at row y, with its counter. What changes from row to row: brightness; the colour
// window's logic and window 1; the settings of colour math.
pub(crate) fn at_row(registers: PPURegisters, kind: Kind, y: u8, counter: u8) -> PPURegisters {
    let mut r = registers;
    r.mosaic_vcounter = counter;
    match kind {
        Kind::Backgrounds => {
            r.inidisp = y % 16;
        }
        Kind::Windows => {
            r.wobjlog = y % 16;
            r.wh0 = y;
            r.wh1 = 255 - y;
        }
        Kind::Math => {
            r.cgwsel = y % 16 << 4 | y / 16 % 2 << 1 | r.cgwsel % 2;
            r.cgadsub = y / 32 % 4 << 6 | r.cgadsub % 64;
        }
        _ => {}
    }
    r
}

// The mosaic counter after a row.
pub(crate) fn stepped(mosaic: u8, counter: u8) -> u8 {
    if counter < 2 {
        return mosaic / 16 + 1;
    }
    counter - 1
}
