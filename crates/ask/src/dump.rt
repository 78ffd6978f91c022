// A file that is salvaged.
use crate::cells::Cells;
use crate::say::Said;
use crate::statement::Statement;
use crate::{cells, memory, say};
use salvage::{Change, Changes, Kind, salvage};

// Byte i of a scene that is sound and holds nothing but its counts: 48, 544, 512 and 65,536.
fn sound(i: usize) -> u8 {
    match i {
        0 => 48,
        52 => 32,
        53 => 2,
        601 => 2,
        1118 => 1,
        _ => 0,
    }
}

// Does a statement say what bytes of the file are?
fn fills(q: &Statement) -> bool {
    !q.list().is_empty() | (q.cells[cells::FILL] > 0) | (q.cells[cells::STEP] == 1)
}

// Byte i of the file that a statement describes.
fn byte(i: usize, q: &Statement) -> u8 {
    if fills(q) {
        memory::written_byte(sound(i), i, q)
    } else {
        sound(i)
    }
}

fn change(c: Change) {
    let kind = match c.kind {
        Kind::Cut => Said::Name(b"cut"),
        Kind::Fill => Said::Name(b"fill"),
        Kind::Count => Said::Name(b"count"),
        Kind::Value => Said::Name(b"value"),
    };
    say::told(b", #", &[kind]);
    say::told(
        b" # # # #",
        &[
            c.first as u64,
            c.bytes as u64,
            u64::from(c.old),
            u64::from(c.new),
        ]
        .map(Said::Number),
    );
}

// What a place beyond the list holds.
const BLANK: Change = Change {
    kind: Kind::Cut,
    first: 0,
    bytes: 0,
    old: 0,
    new: 0,
};

// A list of no change.
const NONE: Changes = Changes {
    list: [BLANK; 7],
    count: 0,
};

fn listed(changes: &Changes) {
    say::told(b", changes #", &[Said::Number(changes.count as u64)]);
    for (k, c) in changes.list.iter().enumerate() {
        if k < changes.count {
            change(*c);
        } else if *c != BLANK {
            io::write_all(1, b" and more");
        }
    }
}

fn salvaged(out: &mut [u8], file: &[u8], c: &Cells) {
    let n = cells::lent(c[cells::OUT], out.len());
    let answer = salvage(
        &mut out[..n],
        &file[..cells::lent(c[cells::FILE], file.len())],
    );
    say::drawn(answer.map(|_| ()), out, c[cells::OUT], c, c[cells::ROW]);
    listed(&answer.unwrap_or(NONE));
}

pub(crate) fn salvage_file(q: &Statement) {
    let mut file = [0u8; 70000];
    let mut out = [7u8; 66657];
    for (i, held) in file.iter_mut().enumerate() {
        *held = byte(i, q);
    }
    salvaged(&mut out, &file, &q.cells);
}
