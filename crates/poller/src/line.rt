// The poller of a board whose files 0 to 63 are lines that its firmware sets.
ghost use Rattle.std.specs.Prelude.{◌≡◌, ℕ, ◌+◌, ◌<◌, ◌≤◌, true, false, List, [], ◌∷◌, ◌++◌, IfOk, if◌then◌else◌, Some, Ok, vec_len, refl};
ghost use Rattle.std.proofs.Common.{ap, rules};

use crate::entry::{Entry, Mode, Request};
use crate::events::Events;
use crate::poller::Poller;
use crate::table::Table;
use std::alloc::{AllocError, Global};
use token::Error;

#[derive(Drop)]
pub struct LinePoller {
    pub(crate) table: Table<64>,
    // the lines that are set, file f at bit f
    pub(crate) lines: u64,
    // those that have risen since the last wait
    pub(crate) risen: u64,
}

impl LinePoller {
    ghost use Rattle.bounded.specs.Room.{HasRoom};
    ghost use Rattle.poller.specs.Line.{LinesSet, awaited, bit, due, due_by, line_fate, line_of};
    ghost use Rattle.poller.specs.Meaning.{among};
    ghost use Rattle.poller.specs.Places.{entries_of};
    ghost use Rattle.poller.specs.Reports.{Midst};
    ghost use Rattle.poller.specs.declared.entry.Entry.{Entry};

    pub fn new(heap: Global) -> Result<LinePoller, AllocError>
        ensures { IfOk result (λ p. line_of p ≡ record { entries = []; lines = 0; risen = 0 }) }
    {
        let table = Table::new(heap)?;
        Ok(LinePoller {
            table,
            lines: 0,
            risen: 0,
        })
    }

    // A line that was clear and is set now has risen.
    #[tactic(auto, using(crate::proofs::Lining::risen_bits))]
    pub fn set_lines(&mut self, lines: u64)
        ensures { LinesSet (line_of self.old) lines (line_of self.new) }
    {
        let changed = self.lines ^ lines;
        self.risen |= changed & lines;
        self.lines = lines;
    }

    // There is no line for a file above 63: its add fails with this code.
    fn fate_of_file(file: u32) -> Result<(), u32>
        ensures { result ≡ line_fate file }
    {
        if file > 63 {
            return Err(9);
        }
        Ok(())
    }

    // A file below 64 is asked for, here and in the three below: a test in its place would answer for files that no caller has.
    #[tactic(auto, using(std::proofs::lemmas::Nat::Bits::shr_and_one))]
    fn is_set(lines: u64, file: u32) -> bool
        requires { file < 64 }
        ensures { result ≡ bit lines file }
    {
        lines >> file & 1 == 1
    }

    // An Edge entry waits for its line to rise.
    fn is_awaited(&self, mode: Mode, file: u32) -> bool
        requires { file < 64 }
        ensures { result ≡ awaited (bit self.now.risen file) mode }
    {
        match mode {
            Mode::Edge => Self::is_set(self.risen, file),
            Mode::OneShot | Mode::Level => true,
        }
    }

    fn is_due(&self, entry: &Entry, file: u32) -> bool
        requires { file < 64 }
        ensures { result ≡ due_by (bit self.now.lines file) (bit self.now.risen file) (Some entry.now) }
    {
        Self::is_set(self.lines, file) && entry.is_ripe() && self.is_awaited(entry.mode, file)
    }

    // Reports the file's entry if its line is set, and it may be reported.
    fn consider(&mut self, file: u32, events: &mut Events)
        requires line { file < 64 }
        requires room { HasRoom events.old }
        ensures lines { self.new.lines ≡ self.old.lines }
        ensures risen { self.new.risen ≡ self.old.risen }
        ensures count { vec_len events.new.items ≤ vec_len events.old.items + 1 }
        ensures goes { (es : List Entry) (fs : List ℕ) → among file fs ≡ false → Midst es fs (entries_of self.old.table) events.old.items.items → Midst es (fs ++ (if due (record (line_of self.old) { entries = es }) file then file ∷ [] else [])) (entries_of self.new.table) events.new.items.items }
    {
        let Some(i) = self.table.find(file) else {
            return;
        };
        if self.is_due(&self.table.entries.items[i], file) {
            self.table.tell(i, events);
        }
    }
}

impl Poller for LinePoller {
    ghost use Rattle.poller.specs.Line.{line_add, line_delete, line_modify, line_of, line_wait};
    ghost use Rattle.poller.specs.Waits.{line_waits};

    const LEVEL: bool = true;

    ghost LEVEL = { true };

    ghost entries = { λ p. (line_of p).entries };

    ghost most = { λ _. 64 };

    ghost adds = { λ p q r p'. (r, line_of p') ≡ line_add (line_of p) q };

    ghost modifies = { λ p q r p'. (r, line_of p') ≡ line_modify (line_of p) q };

    ghost deletes = { λ p f r p'. (r, line_of p') ≡ line_delete (line_of p) f };

    ghost waits = { λ p t r vs p'. (r, vs, line_of p') ≡ line_wait (line_of p) };

    ghost sound = { Prim.search rules };

    ghost adding = { Prim.search rules };

    ghost modifying = { λ p q r p' e. ((Ok tt, ap (λ o. (o.0, o.1.entries)) e), refl) };

    ghost deleting = { λ p f r p' e. ((Ok tt, ap (λ o. (o.0, o.1.entries)) e), refl) };

    ghost waiting = { λ p t r vs p' e. (line_waits (line_of p) (line_of p') r vs e, refl) };

    fn add(&mut self, request: Request) -> Result<(), Error> {
        let fate = Self::fate_of_file(request.file);
        self.table.add(request, fate)
    }

    fn modify(&mut self, request: Request) -> Result<(), Error> {
        self.table.modify(request, Ok(()))
    }

    fn delete(&mut self, file: u32) -> Result<(), Error> {
        self.table.delete(file, Ok(()))
    }

    // Reports in rising file order, and forgets what has risen.
    fn wait(&mut self, _timeout: Option<u64>, events: &mut Events) -> Result<(), Error> {
        events.items.clear();
        for file in 0..64 {
            self.consider(file, events);
        }
        self.risen = 0;
        Ok(())
    }
}
