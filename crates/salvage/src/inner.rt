// What the public call stands on; a program that reads a file to its end takes from here what comes
// after the reading.
ghost use Rattle.std.specs.Prelude.{◌≡◌, [], ◌∷◌, ◌++◌, ◌+◌, ◌<◌, ◌≤◌};
ghost use Rattle.salvage_bytes.specs.Bytes.{mended};
ghost use Rattle.salvage.specs.Salvage.{length_changes, number_changes, count_changes, value_changes, place_changes, listed};
ghost use Rattle.salvage.specs.steps.Salvage.{Adds};

use crate::{Change, Changes, Kind};
use salvage_bytes::inner::{COUNT_BYTES, VALUE_BYTES, right_counter, set_all};
use scene_file::SCENE_BYTES;
use scene_file::inner::count_at;

// What stands in a place that holds no change.
const BLANK: Change = Change {
    kind: Kind::Cut,
    first: 0,
    bytes: 0,
    old: 0,
    new: 0,
};

impl Changes {
    // No change.
    fn none() -> Changes
        ensures { (result ≡ listed []) × (result.count ≡ 0) }
    {
        Changes {
            list: [BLANK; 7],
            count: 0,
        }
    }

    // One change more.
    fn push(&mut self, c: Change)
        requires { self.old.count < 7 }
        ensures { Adds self.old (c ∷ []) self.new × (self.new.count ≡ self.old.count + 1) }
    {
        self.list[self.count] = c;
        self.count += 1;
    }

    // What is said of a file's length.
    fn push_length(&mut self, total: usize)
        requires { self.old.count < 7 }
        ensures { Adds self.old (length_changes total) self.new × (self.new.count ≤ self.old.count + 1) }
    {
        if total < SCENE_BYTES {
            self.push(Change {
                kind: Kind::Fill,
                first: total,
                bytes: SCENE_BYTES - total,
                old: 0,
                new: 0,
            });
        } else if SCENE_BYTES < total {
            self.push(Change {
                kind: Kind::Cut,
                first: SCENE_BYTES,
                bytes: total - SCENE_BYTES,
                old: 0,
                new: 0,
            });
        }
    }

    // A number that stands there, and one that has to.
    fn push_number(&mut self, kind: Kind, first: usize, bytes: usize, old: u32, new: u32)
        requires { self.old.count < 7 }
        ensures { Adds self.old (number_changes kind first bytes old new) self.new × (self.new.count ≤ self.old.count + 1) }
    {
        if old != new {
            self.push(Change {
                kind,
                first,
                bytes,
                old,
                new,
            });
        }
    }

    // The count whose four bytes begin at byte `first`.
    fn push_count(&mut self, bytes: &[u8; SCENE_BYTES], first: usize, new: u32)
        requires { (self.old.count < 7) × (first ≤ 1116) }
        ensures { Adds self.old (count_changes bytes.now first new) self.new × (self.new.count ≤ self.old.count + 1) }
    {
        self.push_number(Kind::Count, first, COUNT_BYTES, count_at(bytes, first), new);
    }

    // The value in byte `first`.
    fn push_value(&mut self, bytes: &[u8; SCENE_BYTES], first: usize, new: u8)
        requires { (self.old.count < 7) × (first ≤ 1116) }
        ensures { Adds self.old (value_changes bytes.now first new) self.new × (self.new.count ≤ self.old.count + 1) }
    {
        self.push_number(
            Kind::Value,
            first,
            VALUE_BYTES,
            bytes[first] as u32,
            new as u32,
        );
    }
}

// Of all that has to be changed in a file of that many bytes, by its bytes after the fill.
fn all_changes(bytes: &[u8; SCENE_BYTES], total: usize) -> Changes
    ensures { result ≡ listed (length_changes total ++ place_changes bytes.now) }
{
    let mut changes = Changes::none();
    changes.push_length(total);
    changes.push_count(bytes, 0, 48);
    changes.push_count(bytes, 52, 544);
    changes.push_count(bytes, 600, 512);
    changes.push_count(bytes, 1116, 65536);
    changes.push_value(bytes, 50, right_counter(bytes[50]));
    changes.push_value(bytes, 51, bytes[51] % 2);
    changes
}

// Mends the bytes of a file that had `total` of them, and has been cut or filled, and lists all
// changes.
pub fn mend(out: &mut [u8; SCENE_BYTES], total: usize) -> Changes
    ensures { (out.new ≡ mended out.old) × (result ≡ listed (length_changes total ++ place_changes out.old)) }
{
    let changes = all_changes(out, total);
    set_all(out);
    changes
}
