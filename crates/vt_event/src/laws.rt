//! Laws of the order of places, and of orderly lists. Each function does nothing; its contract is the law.

ghost use Rattle.vt_event.specs.Laws.{OrderIsAntisymmetric, OrderIsExact, OrderIsLexicographic, OrderIsTotal, OrderIsTransitive, ThreadOrderIsLexicographic};
ghost use Rattle.vt_event.specs.Orderly.{SomeListsAreOrderly};

/// Of two places one is before the other, or they are the same.
pub fn order_is_total()
    ensures { OrderIsTotal }
{}

/// The order answers 'equal' exactly where the places are the same.
pub fn order_is_exact()
    ensures { OrderIsExact }
{}

/// What is before a place is before all that comes after it.
pub fn order_is_transitive()
    ensures { OrderIsTransitive }
{}

/// Of two places not each is before the other.
pub fn order_is_antisymmetric()
    ensures { OrderIsAntisymmetric }
{}

/// The first of time, micro step, thread and step in which two places differ tells which is before.
pub fn order_is_lexicographic()
    ensures { OrderIsLexicographic }
{}

/// A thread's list is before another exactly where it is a proper prefix of it, or has the lesser number where they first
/// differ.
pub fn thread_order_is_lexicographic()
    ensures { ThreadOrderIsLexicographic }
{}

/// Two texts and three inputs, one of each sort, that are orderly.
pub fn some_lists_are_orderly()
    ensures { SomeListsAreOrderly }
{}
