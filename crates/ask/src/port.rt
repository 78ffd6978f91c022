// The data port of sprite memory, and the flags kept from row to row.
use crate::cells::Cells;
use crate::say::Said;
use crate::{cells, say};
use oam_flags::OamFlags;
use oam_port::OamPort;

// What is asked of them.
#[derive(Clone, Copy)]
pub(crate) enum Access {
    New,
    Address,
    Write,
    Read,
    NewFlags,
    KeepFlags,
    ClearFlags,
}

fn port_of(c: &Cells) -> OamPort {
    OamPort {
        address: cells::word(c[cells::ADDRESS]),
        write_latch: cells::byte(c[cells::LATCH]),
    }
}

// Writes the port, and keeps it.
fn keep(c: &mut Cells, p: OamPort) {
    let address = u64::from(p.address);
    let latch = u64::from(p.write_latch);
    say::told(b"address #, latch #", &[address, latch].map(Said::Number));
    c[cells::ADDRESS] = address;
    c[cells::LATCH] = latch;
}

fn new_port(c: &mut Cells) {
    say::begun(Ok(()), ());
    keep(c, OamPort::new());
}

fn address(c: &mut Cells, value: u64) {
    let mut port = port_of(c);
    say::begun(port.write_addr(cells::word(value)), ());
    keep(c, port);
}

// The bytes that changed.
fn changed(before: &[u8; 545], after: &[u8; 545]) {
    for (i, (old, new)) in before.iter().zip(after).enumerate() {
        if old != new {
            say::told(
                b", byte # is #",
                &[i as u64, u64::from(*new)].map(Said::Number),
            );
        }
    }
}

fn write(oam: &mut [u8; 545], value: u64, c: &mut Cells) {
    let before = *oam;
    let n = cells::lent(c[cells::OAM], oam.len());
    let mut port = port_of(c);
    say::begun(port.write_data(&mut oam[..n], cells::byte(value)), ());
    keep(c, port);
    changed(&before, oam);
}

fn read(oam: &[u8; 545], c: &mut Cells) {
    let n = cells::lent(c[cells::OAM], oam.len());
    let mut port = port_of(c);
    let byte = port.read_data(&oam[..n]);
    say::told(b" -> #, ", &[say::number(byte)]);
    keep(c, port);
}

fn flags_of(c: &Cells) -> OamFlags {
    OamFlags {
        time_over: c[cells::TIME] == 1,
        range_over: c[cells::RANGE] == 1,
    }
}

// Writes the flags, and keeps them.
fn keep_flags(c: &mut Cells, f: OamFlags) {
    let time = u64::from(f.time_over);
    let range = u64::from(f.range_over);
    say::told(b" -> time #, range #", &[time, range].map(Said::Number));
    c[cells::TIME] = time;
    c[cells::RANGE] = range;
}

pub(crate) fn ask(access: Access, n: u64, oam: &mut [u8; 545], c: &mut Cells) {
    match access {
        Access::New => new_port(c),
        Access::Address => address(c, n),
        Access::Write => write(oam, n, c),
        Access::Read => read(oam, c),
        Access::NewFlags => keep_flags(c, OamFlags::new()),
        Access::KeepFlags => {
            let time_over = c[cells::OVER_TIME] == 1;
            let range_over = c[cells::OVER_RANGE] == 1;
            keep_flags(c, flags_of(c).latch_flags(time_over, range_over));
        }
        Access::ClearFlags => keep_flags(c, flags_of(c).clear_flags()),
    }
}
