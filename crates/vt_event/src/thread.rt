//! The names of threads, and their order.

ghost use Rattle.std.specs.Prelude.{◌≡◌, ◌↔◌, ◌<◌, ◌≤◌, ◌∷◌, ◌++◌, [], length, IfOk, IsTrue, Some};
ghost use Rattle.std.specs.Ordering.{is_eq};
ghost use Rattle.std.specs.Cmp.{eq_by_cmp_equiv, partial_equiv_from_equiv, partial_order_from_total};
ghost use Rattle.std.proofs.Common.{refl};
ghost use Rattle.vt_event.specs.Order.{thread_order};
ghost use Rattle.vt_event.specs.OrderLaws.{thread_total};

use smallvec::SmallVec;
use std::alloc::Global;
use std::cmp::Ordering;
use std::marker::Model;
use vt_frac::NoMemory;

/// How many numbers a thread's list holds without memory of its own.
const SHORT: usize = 4;

/// How many numbers a thread's list has at most.
const LONGEST: usize = 32;

/// The list of numbers that names a thread: 1 to 32 of them. Text number k is `[k]`, the inputs are `[0]`, and the j-th
/// thread that a thread starts has the thread's list with j added.
///
/// Lists are ordered number by number; a list comes after its own prefixes.
#[derive(Drop)]
pub struct ThreadId {
    numbers: SmallVec<u32, SHORT>,
}

impl Model for ThreadId {
    ghost use Rattle.std.specs.Prelude.{List, ℕ, ◌≤◌, length};

    ghost Value = { List ℕ };

    ghost view = { λ thread. thread.numbers.items };

    ghost invariant = { λ thread. (1 ≤ length thread.numbers.items) × (length thread.numbers.items ≤ 32) };
}

impl ThreadId {
    /// The thread of the text with this number, from 1.
    pub fn of_text(alloc: Global, number: u32) -> ThreadId
        requires { 0 < number }
        ensures { result ≡ number ∷ [] }
    {
        let mut numbers = SmallVec::new(alloc);
        numbers.push_reserved(number);
        ThreadId { numbers }
    }

    /// The list of the inputs.
    pub fn of_inputs(alloc: Global) -> ThreadId
        ensures { result ≡ 0 ∷ [] }
    {
        let mut numbers = SmallVec::new(alloc);
        numbers.push_reserved(0);
        ThreadId { numbers }
    }

    /// The thread that this one starts as the one with this number, from 1. It fails only for want of memory.
    pub fn child(&self, alloc: Global, number: u32) -> Result<ThreadId, NoMemory>
        requires { length self.now < 32 }
        ensures { IfOk result (λ child. child ≡ self.now ++ number ∷ []) }
    {
        let mut numbers = SmallVec::from_slice(alloc, self.numbers())?;
        numbers.push(number)?;
        Ok(ThreadId { numbers })
    }

    /// Whether its list is as long as it may be, so that it can start no thread.
    pub fn is_full(&self) -> bool
        ensures { IsTrue result ↔ (length self.now ≡ 32) }
    {
        self.numbers().len() == LONGEST
    }

    /// Its numbers in order.
    pub fn numbers(&self) -> &[u32]
        ensures value { result.now ≡ self.now }
        ensures some { 1 ≤ length self.now }
        ensures short { length self.now ≤ 32 }
    {
        self.numbers.as_slice()
    }

    /// An equal list.
    pub fn copy(&self, alloc: Global) -> Result<ThreadId, NoMemory>
        ensures { IfOk result (λ thread. thread ≡ self.now) }
    {
        Ok(ThreadId {
            numbers: SmallVec::from_slice(alloc, self.numbers())?,
        })
    }
}

impl PartialEq for ThreadId {
    ghost eq = { λ a b. is_eq (thread_order a b) };

    ghost laws = { partial_equiv_from_equiv (eq_by_cmp_equiv thread_total) };

    fn eq(&self, other: &ThreadId) -> bool {
        self.cmp(other).is_eq()
    }
}

impl Eq for ThreadId {
    ghost laws = { eq_by_cmp_equiv thread_total };
}

impl PartialOrd for ThreadId {
    ghost partial_cmp = { λ a b. Some (thread_order a b) };

    ghost laws = { partial_order_from_total thread_total };

    fn partial_cmp(&self, other: &ThreadId) -> Option<Ordering> {
        Some(self.cmp(other))
    }
}

impl Ord for ThreadId {
    ghost cmp = { thread_order };

    ghost total = { thread_total };

    ghost matches_partial_cmp = { λ a b. refl };

    ghost matches_eq = { λ a b. refl };

    fn cmp(&self, other: &ThreadId) -> Ordering {
        self.numbers.cmp(&other.numbers)
    }
}
