// Replays the oracle's list `port`: the data port of sprite memory.
#![tactic(auto)]

use oam_port::OamPort;
use test_numbers::{next, word};
use test_replay::drawing::{after, low, nth};
use test_replay::{hex, settle};

// The addresses at which the rules change.
const EDGES: [u16; 8] = [0, 255, 256, 271, 272, 511, 512, 65535];

// The port over its memory.
#[derive(Clone, Copy)]
struct Memory {
    port: OamPort,
    oam: [u8; 544],
}

impl Memory {
    // Writes a digest of the memory.
    fn say(&self, end: u8) {
        hex(u64::from(test_replay::bytes(&self.oam)), 8, end);
    }

    fn address(&mut self, oamadd: u16) {
        let _ = settle(self.port.write_addr(oamadd));
    }

    fn write(&mut self, value: u16) {
        let _ = settle(self.port.write_data(&mut self.oam, low(value)));
    }

    // Writes the byte read, in two digits.
    fn read(&mut self) {
        if let Ok(byte) = settle(self.port.read_data(&self.oam)) {
            io::print_hex(1, u64::from(byte), 2);
        }
    }

    // An address, and one byte further on.
    fn start(&mut self, oamadd: u16, odd: bool) {
        self.address(oamadd);
        if odd {
            let _ = self.port.read_data(&self.oam);
        }
    }

    // One access: an address, an edge's address, a byte written or a byte read.
    fn access(&mut self, op: u16, value: u16) {
        match op {
            0 => self.address(value),
            1 => self.address(EDGES[usize::from(value % 8)]),
            2..=8 => self.write(value),
            _ => self.read(),
        }
    }

    // 64 accesses and the memory's digest.
    fn mixed_line(&mut self, seed: u32) {
        let mut x = seed;
        for _ in 0..64u32 {
            let y = next(x);
            x = next(y);
            self.access(word(y) % 16, word(x));
        }
        io::write_all(1, b" ");
        self.say(b'\n');
    }

    fn mixed(&mut self, seed: u32) {
        let mut x = seed;
        for _ in 0..128u32 {
            self.mixed_line(x);
            x = after(128, x);
        }
    }

    fn write_run(&mut self, seed: u32) {
        let mut x = seed;
        for _ in 0..80u32 {
            x = next(x);
            self.write(word(x));
        }
    }

    fn read_run(&mut self, bytes: u32) {
        for _ in 0..bytes {
            self.read();
        }
        io::write_all(1, b"\n");
    }

    // From each edge, and from one byte further on.
    fn runs(&mut self, seed: u32) {
        let mut x = seed;
        for edge in EDGES {
            for odd in [false, true] {
                self.start(edge, odd);
                self.write_run(x);
                x = after(80, x);
                self.say(b' ');
                self.start(edge, odd);
                self.read_run(80);
            }
        }
    }

    // A pair that is stored at another address than its first byte was given at; where there is more, a
    // byte of the second table is written between. Five numbers are drawn.
    fn apart(&mut self, more: bool, seed: u32) {
        let to = nth(2, seed) % 256;
        self.address(nth(1, seed) % 256);
        self.write(nth(3, seed));
        if more {
            self.address(256);
            self.write(nth(5, seed));
        }
        self.address(to);
        self.read();
        self.write(nth(4, seed));
        self.address(to);
        self.read_run(2);
    }

    fn latch(&mut self, seed: u32) {
        let mut x = seed;
        for n in 0..64u32 {
            self.apart(n % 2 == 1, x);
            x = after(5, x);
        }
    }

    // All addresses.
    fn whole(&mut self) {
        self.address(0);
        for _ in 0..32u32 {
            self.read_run(32);
        }
    }
}

fn main() {
    let x = test_replay::seed(30);
    let mut m = Memory {
        port: OamPort::new(),
        oam: [0; 544],
    };
    io::write_all(1, b"mixed\n");
    m.mixed(x);
    io::write_all(1, b"runs\n");
    m.runs(x.wrapping_add(1));
    io::write_all(1, b"latch\n");
    m.latch(x.wrapping_add(2));
    io::write_all(1, b"whole\n");
    m.whole();
}
