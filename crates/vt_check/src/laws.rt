//! Laws of the checks: each function does nothing, and its contract is the law.

ghost use Rattle.vt_check.specs.Verdict.{IsAllowedWhereAllowed, IsRefusedWhereRefused};
ghost use Rattle.vt_check.specs.Laws.{AlwaysOne, NeverBoth, OneFault};

/// No tree is both allowed and refused.
pub fn never_both()
    ensures { NeverBoth }
{}

/// A tree is refused for one fault only.
pub fn one_fault()
    ensures { OneFault }
{}

/// A tree is allowed, or refused for a fault.
pub fn always_one()
    ensures { AlwaysOne }
{}

/// However a tree was judged, its verdict is that it is allowed exactly where it is, and a line and a kind exactly where it is
/// refused for them.
pub fn verdict_law()
    ensures allowed { IsAllowedWhereAllowed }
    ensures refused { IsRefusedWhereRefused }
{}
