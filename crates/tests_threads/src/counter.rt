//! A counter with its log, kept by a lock.
ghost use Rattle.std.specs.Prelude.{◌≡◌, ◌<◌, ℕ, List, []};
ghost use Rattle.tests_threads.specs.declared.counter.Entry.{Entry};
ghost use Rattle.vt_lock.specs.Logs.{ContinuesBy};
ghost use Rattle.vt_lock.specs.Numbers.{occurrences};

use std::alloc::Global;
use vt_lock::Kept;

/// Which worker counted, and how many counts of its own came before.
#[derive(Clone, Copy, Drop)]
pub struct Entry {
    pub worker: u64,
    pub before: u64,
}

#[derive(Drop)]
pub struct Counter {
    pub name: u64,
    pub log: Vec<Entry>,
}

impl Kept for Counter {
    type Key = u64;

    type Entry = Entry;

    ghost key = { λ c. c.name };

    ghost log = { λ c. c.log.items };

    ghost worker = { λ e. e.worker };
}

impl Counter {
    pub fn new(alloc: Global, name: u64) -> Counter
        ensures { result.log.items ≡ [] }
    {
        Counter {
            name,
            log: Vec::new(alloc),
        }
    }

    /// Adds an entry, or answers false where memory is wanting.
    pub fn add(&mut self, worker: u64, before: u64) -> bool
        ensures name { self.new.name ≡ self.old.name }
        ensures log { (numbers : List ℕ) → 0 < occurrences worker numbers → ContinuesBy (λ (e : Entry). e.worker) numbers self.old.log.items self.new.log.items }
    {
        self.log.push(Entry { worker, before }).is_ok()
    }
}
