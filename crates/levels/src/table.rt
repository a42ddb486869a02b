// Which file and interest stand for a key. Only `new` allocates.
ghost use Rattle.std.specs.Prelude.{◌≡◌, ◌≤◌, false, [], length, IfOk};
ghost use Rattle.poller.specs.declared.entry.Mode.TheVariants.{Level};

use bounded::Bounded;
use poller::{Interest, Mode};
use std::alloc::{AllocError, Global};
use std::marker::Model;

#[derive(Clone, Copy)]
pub struct Line {
    pub key: u64,
    pub file: u32,
    pub interest: Interest,
}

// Contracts see the lines, in the order in which they were entered.
// A list and no map: a HashMap leaves the order of its entries open, a BTreeMap allocates as it grows, and lines go
// by their file as well as by their key, which an IndexMap would search by hand too.
#[derive(Drop)]
pub struct Levels {
    pub(crate) lines: Bounded<Line, 256>,
}

impl Model for Levels {
    ghost use Rattle.std.specs.Prelude.{List};
    ghost use Rattle.levels.specs.declared.table.Line.{Line};

    ghost Value = { List Line };

    ghost view = { λ l. l.lines.items.items };
}

impl Levels {
    ghost use Rattle.levels.specs.Table.{dropped, entered, full_for, line_of};

    pub fn new(heap: Global) -> Result<Levels, AllocError>
        ensures { IfOk result (λ l. l ≡ []) }
    {
        let lines = Bounded::new(heap)?;
        Ok(Levels { lines })
    }

    // The key's line.
    pub fn find(&self, key: u64) -> Option<Line>
        ensures is { result ≡ line_of key self.now }
        ensures few { length self.now ≤ 256 }
    {
        self.lines
            .items
            .iter()
            .copied()
            .find(|line| line.key == key)
    }

    // Whether a line for a new key would find no room.
    pub fn is_full_for(&self, key: u64) -> bool
        ensures is { result ≡ full_for key self.now }
        ensures few { length self.now ≤ 256 }
    {
        self.lines.is_full() && self.find(key).is_none()
    }

    // Drops the lines of the file and, where one is given, of the key.
    pub fn drop_lines(&mut self, file: u32, key: Option<u64>)
        ensures is { self.new ≡ dropped file key self.old }
        ensures few { length self.old ≤ 256 }
        ensures still_few { length self.new ≤ 256 }
    {
        self.lines
            .items
            .retain(|line| line.file != file && Some(line.key) != key);
    }

    // The lines of the file and the key go, and the key stands for the file if the mode is Level.
    #[tactic(auto, using(crate::proofs::Rooms::room))]
    pub fn enter(&mut self, line: Line, mode: Mode)
        requires { mode ≡ Level → full_for line.key self.old ≡ false }
        ensures is { self.new ≡ entered line mode self.old }
        ensures few { length self.new ≤ 256 }
    {
        self.drop_lines(line.file, Some(line.key));
        if mode == Mode::Level {
            self.lines.items.push_reserved(line);
        }
    }
}
