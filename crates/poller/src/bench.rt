// The poller of the test bench: a script says what its calls come to.
ghost use Rattle.std.specs.Prelude.{◌≡◌, ℕ, true, false, List, [], map, IfOk, vec_len, count_by, refl};
ghost use Rattle.poller.specs.Bench.{bench_add, bench_delete, bench_modify, bench_of, bench_wait, fate_by, once_more, reported, step_of, stepped};
ghost use Rattle.poller.specs.Meaning.{told};
ghost use Rattle.poller.specs.Places.{entries_of};
ghost use Rattle.poller.specs.Reports.{Marks, Midst, events_of};
ghost use Rattle.poller.specs.declared.entry.Entry.{Entry};
ghost use Rattle.poller.specs.Waits.{bench_waits};
ghost use Rattle.std.proofs.Common.{rules};

use crate::entry::Request;
use crate::events::Events;
use crate::poller::Poller;
use crate::table::Table;
use std::alloc::{AllocError, Global};
use std::collections::VecDeque;
use token::Error;

// What one call comes to: three outcomes and no other; a Result<(), Error> would let in refusals that no poller may give.
#[derive(Clone, Copy, PartialEq, Eq, Debug)]
pub enum Step {
    Work,
    Fail(u32),
    Interrupt,
}

#[derive(Drop)]
pub struct BenchPoller {
    pub(crate) table: Table<256>,
    // the files that are ready, in the order of the script
    pub(crate) ready: Vec<u32>,
    // what the next calls come to
    pub(crate) steps: VecDeque<Step>,
}

impl BenchPoller {
    pub fn new(heap: Global) -> Result<BenchPoller, AllocError>
        ensures { IfOk result (λ p. bench_of p ≡ record { entries = []; ready = []; steps = [] }) }
    {
        let table = Table::new(heap)?;
        Ok(BenchPoller {
            table,
            ready: Vec::new(heap),
            steps: VecDeque::new(heap),
        })
    }

    // These files are ready, until a wait reports.
    pub fn make_ready(&mut self, files: Vec<u32>)
        ensures { bench_of self.new ≡ record (bench_of self.old) { ready = files.items } }
    {
        self.ready = files;
    }

    // What the next calls of add, modify, delete and wait come to, one step a call.
    pub fn plan(&mut self, steps: Vec<Step>)
        ensures { bench_of self.new ≡ record (bench_of self.old) { steps = steps.items } }
    {
        self.steps = VecDeque::from(steps);
    }

    fn next_step(&mut self) -> Step
        ensures value { result ≡ step_of (bench_of self.old).steps }
        ensures after { bench_of self.new ≡ stepped (bench_of self.old) }
    {
        self.steps.pop_front().unwrap_or(Step::Work)
    }

    // Whether the next call works; an Err is the code with which it fails.
    fn next_fate(&mut self) -> Result<(), u32>
        ensures value { result ≡ fate_by (step_of (bench_of self.old).steps) }
        ensures after { bench_of self.new ≡ stepped (bench_of self.old) }
    {
        match self.next_step() {
            Step::Fail(code) => Err(code),
            Step::Work | Step::Interrupt => Ok(()),
        }
    }
}

// Reports the file's entry, unless it was told already or may not be reported.
#[tactic(auto, using(crate::proofs::Reporting::marking_one))]
fn consider(table: &mut Table<256>, file: u32, told: &mut [bool; 256], events: &mut Events)
    requires { vec_len events.old.items ≡ count_by (λ b. b) told.old }
    ensures count { vec_len events.new.items ≡ count_by (λ b. b) told.new }
    ensures goes { (es : List Entry) (fs : List ℕ) → Midst es fs (entries_of table.old) events.old.items.items → Marks es fs told.old → Midst es (once_more es fs file) (entries_of table.new) events.new.items.items × Marks es (once_more es fs file) told.new }
{
    let Some(i) = table.find(file) else {
        return;
    };
    let entry = table.entries.items[i];
    if told[i] || !entry.is_ripe() {
        return;
    }
    told[i] = true;
    table.tell(i, events);
}

// Reports the entries of the files that are ready, in their order, each entry once.
#[tactic(auto, using(crate::proofs::Benching::stands_more, crate::proofs::Benching::stands_all))]
fn report(table: &mut Table<256>, ready: &[u32], events: &mut Events)
    requires { events.old.items.items ≡ [] }
    ensures entries { entries_of table.new ≡ map (told (reported (entries_of table.old) ready.now)) (entries_of table.old) }
    ensures events { events.new.items.items ≡ events_of (entries_of table.old) (reported (entries_of table.old) ready.now) }
{
    // a mark for each place, since `find` gives an entry's place; a set made for one wait would allocate
    let mut told = [false; 256];
    for file in ready {
        consider(table, *file, &mut told, events);
    }
}

impl Poller for BenchPoller {
    const LEVEL: bool = false;

    ghost LEVEL = { false };

    ghost entries = { λ p. (bench_of p).entries };

    ghost most = { λ _. 256 };

    ghost adds = { λ p q r p'. (r, bench_of p') ≡ bench_add (bench_of p) q };

    ghost modifies = { λ p q r p'. (r, bench_of p') ≡ bench_modify (bench_of p) q };

    ghost deletes = { λ p f r p'. (r, bench_of p') ≡ bench_delete (bench_of p) f };

    ghost waits = { λ p t r vs p'. (r, vs, bench_of p') ≡ bench_wait (bench_of p) };

    ghost sound = { Prim.search rules };

    ghost adding = { Prim.search rules };

    ghost modifying = { Prim.search rules };

    ghost deleting = { Prim.search rules };

    ghost waiting = { λ p t r vs p' e. (bench_waits (bench_of p) (bench_of p') r vs e, refl) };

    fn add(&mut self, request: Request) -> Result<(), Error> {
        let fate = self.next_fate();
        self.table.add(request, fate)
    }

    fn modify(&mut self, request: Request) -> Result<(), Error> {
        let fate = self.next_fate();
        self.table.modify(request, fate)
    }

    fn delete(&mut self, file: u32) -> Result<(), Error> {
        let fate = self.next_fate();
        self.table.delete(file, fate)
    }

    fn wait(&mut self, _timeout: Option<u64>, events: &mut Events) -> Result<(), Error> {
        events.items.clear();
        match self.next_step() {
            Step::Fail(code) => Err(Error::PollerFailed(code)),
            Step::Interrupt => Err(Error::Interrupted),
            Step::Work => {
                report(&mut self.table, self.ready.as_slice(), events);
                self.ready.clear();
                Ok(())
            }
        }
    }
}
