//! What holds of lists of worker numbers. The functions do nothing: each is there for its clause.
ghost use Rattle.vt_lock.specs.Numbers.{HalvesAreNumbers, HasAllNumbers, all_numbers};

/// The numbers of a new lock's seat are the ones that `close` asks for.
pub fn all_numbers_are_there()
    ensures { HasAllNumbers all_numbers }
{}

/// A seat for numbers one after another is split into two such seats.
pub fn halves_are_numbers()
    ensures { HalvesAreNumbers }
{}
