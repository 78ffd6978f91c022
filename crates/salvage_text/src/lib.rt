// The line of a change, as text.
#![tactic(auto)]

ghost use Rattle.std.specs.Prelude.{◌≡◌, [], ◌∷◌, ◌++◌, ◌+◌, ◌≤◌, length};
ghost use Rattle.salvage_text.specs.Text.{spaced, kind_name, added_numbers, change_line, LineIs};
ghost use Rattle.salvage_text.specs.steps.Text.{written, Clean};

use salvage::{Change, Kind};

// A line: the first `size` bytes of its text. The 90 are those of 5 letters, of 4 numbers with 20
// digits and a space each, and of a newline.
#[derive(Clone, Copy, Debug, PartialEq, Eq)]
pub struct TextLine {
    pub text: [u8; 90],
    pub size: usize,
}

// The name of a kind.
fn name(kind: Kind) -> &'static [u8]
    ensures { (result.now ≡ kind_name kind) × (length result.now ≤ 5) }
{
    match kind {
        Kind::Cut => b"cut",
        Kind::Fill => b"fill",
        Kind::Count => b"count",
        Kind::Value => b"value",
    }
}

impl TextLine {
    // A line with nothing in it.
    fn empty() -> TextLine
        ensures { (written result ≡ []) × ((result.size ≡ 0) × Clean result) }
    {
        TextLine {
            text: [0; 90],
            size: 0,
        }
    }

    // These bytes after it.
    fn append(&mut self, bytes: &[u8])
        requires { Clean self.old × (self.old.size + length bytes.now ≤ 90) }
        ensures { (written self.new ≡ written self.old ++ bytes.now) × ((self.new.size ≡ self.old.size + length bytes.now) × Clean self.new) }
    {
        let end = self.size + bytes.len();
        self.text[self.size..end].copy_from_slice(bytes);
        self.size = end;
    }

    // A space and a number: 21 bytes more at most.
    fn append_number(&mut self, n: u64)
        requires { Clean self.old × (self.old.size + 21 ≤ 90) }
        ensures { (written self.new ≡ written self.old ++ spaced (n ∷ [])) × ((self.new.size ≤ self.old.size + 21) × Clean self.new) }
    {
        let mut digits = [0u8; 20];
        let k = io::decimal(n, &mut digits);
        self.append(b" ");
        self.append(&digits[..k]);
    }

    // What a kind adds: 42 bytes more at most.
    fn append_added(&mut self, kind: Kind, old: u32, new: u32)
        requires { Clean self.old × (self.old.size + 42 ≤ 90) }
        ensures { (written self.new ≡ written self.old ++ spaced (added_numbers kind old new)) × ((self.new.size ≤ self.old.size + 42) × Clean self.new) }
    {
        match kind {
            Kind::Cut | Kind::Fill => {}
            Kind::Count | Kind::Value => {
                self.append_number(old as u64);
                self.append_number(new as u64);
            }
        }
    }
}

// The line of a change.
pub fn line_of(c: Change) -> TextLine
    ensures { LineIs result (change_line c) }
{
    let mut line = TextLine::empty();
    line.append(name(c.kind));
    line.append_number(c.first as u64);
    line.append_number(c.bytes as u64);
    line.append_added(c.kind, c.old, c.new);
    line.append(b"\n");
    line
}
