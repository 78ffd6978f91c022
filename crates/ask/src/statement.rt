// A statement of a script: a verb, numbers, and names that each have a number.
use crate::cells;
use crate::cells::{Cells, Setting};
use crate::lay::Step;
use crate::memory::Target;
use crate::own::{OfNumbers, OfRegisters};
use crate::port::Access;
use crate::row::Drawn;
use test_script::{Stop, number, place, seek};

#[derive(Clone, Copy)]
pub(crate) enum Verb {
    // Sets what holds for the statements after it.
    Set(Setting),
    // Forgets what was set.
    New,
    // Writes a memory.
    Write(Target),
    // Asks the port, or the flags.
    Port(Access),
    // Lays something over the lines, or asks for it.
    Lay(Step),
    // Asks what needs no memory, by registers or by numbers.
    Registers(OfRegisters),
    Numbers(OfNumbers),
    // Asks what is drawn from memory.
    Draw(Drawn),
    // Asks what is made of a file.
    Salvage,
    // No verb.
    Nothing,
    // A statement that was not understood.
    Unknown,
}

// The verbs, in the order of their names.
const VERBS: [Verb; 52] = [
    Verb::Set(Setting::Registers),
    Verb::Set(Setting::Background),
    Verb::Set(Setting::Lengths),
    Verb::Set(Setting::Port),
    Verb::New,
    Verb::Write(Target::Vram),
    Verb::Write(Target::Cgram),
    Verb::Write(Target::Oam),
    Verb::Write(Target::Sprites),
    Verb::Port(Access::New),
    Verb::Port(Access::Address),
    Verb::Port(Access::Write),
    Verb::Port(Access::Read),
    Verb::Port(Access::NewFlags),
    Verb::Port(Access::KeepFlags),
    Verb::Port(Access::ClearFlags),
    Verb::Lay(Step::Lines),
    Verb::Lay(Step::Main),
    Verb::Lay(Step::Sub),
    Verb::Lay(Step::Backdrops),
    Verb::Lay(Step::Background),
    Verb::Lay(Step::Sprites),
    Verb::Lay(Step::Layer),
    Verb::Lay(Step::Composite),
    Verb::Lay(Step::Deposit),
    Verb::Registers(OfRegisters::LayerBits),
    Verb::Registers(OfRegisters::Windows),
    Verb::Registers(OfRegisters::Window),
    Verb::Registers(OfRegisters::Background),
    Verb::Registers(OfRegisters::Mosaic),
    Verb::Registers(OfRegisters::SpriteSize),
    Verb::Registers(OfRegisters::BgMode),
    Verb::Registers(OfRegisters::BgParams),
    Verb::Registers(OfRegisters::BgLit),
    Verb::Registers(OfRegisters::Offset),
    Verb::Numbers(OfNumbers::Brightness),
    Verb::Numbers(OfNumbers::DirectColor),
    Verb::Numbers(OfNumbers::ColorMath),
    Verb::Numbers(OfNumbers::TileWords),
    Verb::Numbers(OfNumbers::MapEntry),
    Verb::Numbers(OfNumbers::LayerOf),
    Verb::Draw(Drawn::TilePixel),
    Verb::Draw(Drawn::Sprite),
    Verb::Draw(Drawn::Choice),
    Verb::Draw(Drawn::SpriteLine),
    Verb::Draw(Drawn::SpriteCandidates),
    Verb::Draw(Drawn::BgCandidates),
    Verb::Draw(Drawn::LayerCandidates),
    Verb::Draw(Drawn::Scanline),
    Verb::Draw(Drawn::Picture),
    Verb::Draw(Drawn::PictureRow),
    Verb::Salvage,
];

// The verb that a word is.
fn verb_of(s: &[u8], from: usize, to: usize) -> Verb {
    if from >= to {
        return Verb::Nothing;
    }
    let k = place(
        b"reg bg lend port new vram cgram oam sprite port-new port-address port-write port-read flags-new flags-keep flags-clear lines main sub backdrops bg-line sprites layer composite deposit layer-bits windows window background mosaic sprite-size bg-mode bg-params bg-lit offset brightness direct-color color-math tile-words map-entry layer-of tile-pixel get-sprite choose sprite-line sprite-candidates bg-candidates layer-candidates scanline picture picture-row salvage",
        s,
        from,
        to,
    );
    VERBS.get(k).copied().unwrap_or(Verb::Unknown)
}

// The verb; the numbers that have no name, and how many they are; the named ones; where the statement
// stops.
#[derive(Clone, Copy)]
pub(crate) struct Statement {
    pub(crate) verb: Verb,
    list: [u64; 16],
    count: usize,
    pub(crate) cells: Cells,
    pub(crate) stop: usize,
}

impl Statement {
    // A statement of which only the verb is read.
    fn begun(kept: &Cells, verb: Verb, stop: usize) -> Statement {
        let cells = match verb {
            Verb::New => cells::fresh(kept[cells::LINE]),
            _ => cells::without(kept),
        };
        Statement {
            verb,
            list: [0; 16],
            count: 0,
            cells,
            stop,
        }
    }

    // The first number that has no name.
    pub(crate) fn first(&self) -> u64 {
        self.list[0]
    }

    // The numbers that have no name.
    pub(crate) fn list(&self) -> &[u64] {
        &self.list[..self.count.min(16)]
    }

    // Reads a number that has no name; None where there are too many.
    fn count(&mut self, value: u64) -> Option<()> {
        if self.count >= 16 {
            return None;
        }
        self.list[self.count] = value;
        self.count += 1;
        Some(())
    }

    // Reads a name, and the number after it; None where it is not understood.
    fn name(&mut self, s: &[u8], from: usize, to: usize) -> Option<()> {
        let a = seek(s, to, Stop::Word);
        self.stop = seek(s, a, Stop::End);
        let value = number(s, a, self.stop)?;
        let setting = match self.verb {
            Verb::Set(setting) => Some(setting),
            _ => None,
        };
        cells::set(
            &mut self.cells,
            cells::cell_of(setting, s, from, to)?,
            value,
        )
    }

    // Reads the next word, if there is one: is there? None where it is not understood.
    fn word(&mut self, s: &[u8]) -> Option<bool> {
        let a = seek(s, self.stop, Stop::Word);
        let b = seek(s, a, Stop::End);
        if a >= b {
            self.stop = a;
            return Some(false);
        }
        match number(s, a, b) {
            Some(value) => {
                self.stop = b;
                self.count(value)?;
            }
            None => self.name(s, a, b)?,
        }
        Some(true)
    }

    // Reads the words, 64 at most; None where one is not understood, or there are more.
    fn words(&mut self, s: &[u8]) -> Option<()> {
        for _ in 0..65u32 {
            if !self.word(s)? {
                return Some(());
            }
        }
        None
    }
}

// Is n among the places from the first number to the one that is named `to`?
pub(crate) fn among(first: u64, c: &Cells, n: usize) -> bool {
    let n = n as u64;
    (n == first) | (first <= n) & (n <= c[cells::TO])
}

// The statement from a place on, where it is understood.
fn understood(s: &[u8], from: usize, kept: &Cells) -> Option<Statement> {
    let a = seek(s, from, Stop::Word);
    let b = seek(s, a, Stop::End);
    let verb = verb_of(s, a, b);
    if matches!(verb, Verb::Unknown) {
        return None;
    }
    let mut q = Statement::begun(kept, verb, b);
    q.words(s)?;
    Some(q)
}

// The statement from a place on. What was not understood does nothing, and neither does the rest of its
// line.
pub(crate) fn read(s: &[u8], from: usize, kept: &Cells) -> Statement {
    understood(s, from, kept).unwrap_or_else(|| Statement::begun(
        kept,
        Verb::Unknown,
        seek(s, from, Stop::Line),
    ))
}
