//! What `reduced` means, in the words of mathematics. The functions do nothing: each is there for its clause.

ghost use Rattle.vt_frac.specs.Fraction.{ReducedIsLowest, ReducedKeepsTheValue};

/// In lowest terms no number above 1 divides both parts, and at least 1 stands below the line.
pub fn reduced_is_lowest()
    ensures { ReducedIsLowest }
{}

/// A fraction in lowest terms has the value that it was made of: the cross products agree.
pub fn reduced_keeps_the_value()
    ensures { ReducedKeepsTheValue }
{}
