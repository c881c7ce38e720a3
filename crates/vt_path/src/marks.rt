//! Marks at the places of a list.

ghost use Rattle.std.specs.Prelude.{◌≡◌, ◌+◌, ◌<◌, ◌||◌, ℕ, length, true, false};
ghost use Rattle.vt_path.specs.private.Marks.{mark};

/// Marks the last place alone.
pub fn mark_end(marks: &mut [bool], last: usize)
    requires { last < length marks.old }
    ensures last { mark marks.new last ≡ true }
    ensures before { (i : ℕ) → i < last → mark marks.new i ≡ false }
{
    for i in 0..last {
        marks[i] = false;
    }
    marks[last] = true;
}

/// Marks the places up to the last from which some marked place is reached.
pub fn skip(marks: &mut [bool], last: usize)
    requires { last < length marks.old }
    ensures last { mark marks.new last ≡ mark marks.old last }
    ensures each { (i : ℕ) → i < last → mark marks.new i ≡ mark marks.old i || mark marks.new (i + 1) }
{
    let mut i = last;
    while i > 0 {
        i -= 1;
        marks[i] = marks[i] || marks[i + 1];
    }
}
