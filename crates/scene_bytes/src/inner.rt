// What the crates above ask of a section's bytes.
ghost use Rattle.std.specs.Prelude.{◌≡◌, ◌+◌, ◌*◌, ◌≤◌, length};
ghost use Rattle.scene_bytes.specs.Bytes.{word_at, registers_of, words_of};

use registers::PPURegisters;

// The word from byte k on, its low byte first.
pub fn word_at(bytes: &[u8], k: usize) -> u16
    requires { k + 2 ≤ length bytes.now }
    ensures { result ≡ word_at bytes.now k }
{
    u16::from_le_bytes([bytes[k], bytes[k + 1]])
}

// The registers, of the 48 bytes of their section.
pub fn registers(b: &[u8]) -> PPURegisters
    requires { length b.now ≡ 48 }
    ensures { result ≡ registers_of b.now }
{
    PPURegisters {
        inidisp: b[0],
        objsel: b[1],
        oamadd: word_at(b, 2),
        bgmode: b[4],
        mosaic: b[5],
        bgsc: [b[6], b[7], b[8], b[9]],
        bg12nba: b[10],
        bg34nba: b[11],
        bg1hofs: word_at(b, 12),
        bghofs: [word_at(b, 14), word_at(b, 16), word_at(b, 18)],
        bg1vofs: word_at(b, 20),
        bgvofs: [word_at(b, 22), word_at(b, 24), word_at(b, 26)],
        w12sel: b[28],
        w34sel: b[29],
        wobjsel: b[30],
        wh0: b[31],
        wh1: b[32],
        wh2: b[33],
        wh3: b[34],
        wbglog: b[35],
        wobjlog: b[36],
        tm: b[37],
        ts: b[38],
        tmw: b[39],
        tsw: b[40],
        cgwsel: b[41],
        cgadsub: b[42],
        coldata: word_at(b, 43),
        setini: b[45],
        mosaic_vcounter: b[46],
        field: b[47] == 1,
    }
}

// Fills a memory with the words of its section.
pub fn words(out: &mut [u16], b: &[u8])
    requires { length b.now ≡ length out.old * 2 }
    ensures { out.new ≡ words_of (length out.old) b.now }
{
    for i in 0..out.len() {
        out[i] = word_at(b, i * 2);
    }
}
