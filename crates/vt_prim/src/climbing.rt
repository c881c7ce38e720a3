//! Notes one after the other, each some half tones above the one before.

ghost use Rattle.std.specs.Prelude.{◌≡◌, ◌<◌, ◌/◌, List, ℕ, ◌∷◌, [], ◌++◌, length, Ok, Err, IfOk, IfErr, IsOk, OnOk};
ghost use Rattle.vt_value.specs.Answers.{Gives};
ghost use Rattle.vt_ring.specs.NoteCalls.{climbed, first_steps, intervals_above, raised, steps_up, times};
ghost use Rattle.vt_value.specs.declared.fault.FaultKind.{FaultKind};
ghost use Rattle.vt_prim.specs.private.Climbing.{behind};
ghost use Rattle.vt_prim.specs.private.Adding.{answer_of, value_of};

use crate::adding::{Number, plus, value_of};
use crate::signatures::integer;
use std::alloc::Global;
use vt_frac::NoMemory;
use vt_value::{FaultKind, Items, Value, ValueFault};

/// The note so many half tones higher.
pub(crate) fn raised(note: Number, tones: u8) -> Result<Number, FaultKind>
    ensures { answer_of result ≡ raised (value_of note) tones }
{
    plus(note, &Value::Whole(integer(u32::from(tones))))
}

/// The note at the end of the steps.
fn climbed(note: Number, steps: &[u8]) -> Result<Number, FaultKind>
    ensures { answer_of result ≡ climbed (value_of note) steps.now }
{
    let mut top = note;
    let mut rest = steps;
    while let Some((step, later)) = rest.split_first() {
        top = raised(top, *step)?;
        rest = later;
    }
    Ok(top)
}

/// The note at the end of the steps, taken so many times.
pub(crate) fn climbed_times(note: Number, steps: &[u8], count: u32) -> Result<Number, FaultKind>
    ensures { answer_of result ≡ climbed (value_of note) (times count steps.now) }
{
    let mut top = note;
    let mut left = count;
    while left > 0 {
        top = climbed(top, steps)?;
        left -= 1;
    }
    Ok(top)
}

/// How often all of so many things come round in a count.
pub(crate) fn rounds(count: u32, things: usize) -> u32
    requires { 0 < things }
    ensures { result ≡ count / things }
{
    (count as usize / things) as u32
}

/// The note at the end of the first steps, so many, which go on from the first again after the last.
pub(crate) fn climbed_first(note: Number, steps: &[u8], count: u32) -> Result<Number, FaultKind>
    requires { 0 < length steps.now }
    ensures { answer_of result ≡ climbed (value_of note) (first_steps count steps.now) }
{
    let top = climbed_times(note, steps, rounds(count, steps.len()))?;
    climbed(top, &steps[..count as usize % steps.len()])
}

/// Puts the note and those of the steps behind the others, all but the last, which it gives.
fn push_steps(notes: &mut Items, note: &Number, steps: &[u8]) -> Result<Number, ValueFault>
    ensures ok { IfOk result (λ top. (more : List ℕ) → behind notes.old (steps_up (value_of note.now) (steps.now ++ more)) ≡ behind notes.new (steps_up (value_of top) more)) }
    ensures err { IfErr result (λ fault. (kind : FaultKind) → fault ≡ ValueFault.Fault kind → (more : List ℕ) → behind notes.old (steps_up (value_of note.now) (steps.now ++ more)) ≡ Err kind) }
{
    let mut top = *note;
    let mut rest = steps;
    while let Some((step, later)) = rest.split_first() {
        let next = raised(top, *step)?;
        push_note(notes, &top)?;
        top = next;
        rest = later;
    }
    Ok(top)
}

/// Puts a note behind the others.
pub(crate) fn push_note(notes: &mut Items, note: &Number) -> Result<(), NoMemory>
    ensures { OnOk result (notes.new ≡ notes.old ++ value_of note.now ∷ []) }
{
    notes.push(value_of(*note))
}

/// The same with the steps taken so many times.
fn push_times(
    notes: &mut Items,
    note: &Number,
    steps: &[u8],
    count: u32,
) -> Result<Number, ValueFault>
    ensures ok { IfOk result (λ top. behind notes.old (steps_up (value_of note.now) (times count steps.now)) ≡ behind notes.new (Ok (value_of top ∷ []))) }
    ensures err { IfErr result (λ fault. (kind : FaultKind) → fault ≡ ValueFault.Fault kind → behind notes.old (steps_up (value_of note.now) (times count steps.now)) ≡ Err kind) }
{
    let mut top = *note;
    let mut left = count;
    while left > 0 {
        top = push_steps(notes, &top, steps)?;
        left -= 1;
    }
    Ok(top)
}

/// The note, and from it on the steps, taken so many times.
pub(crate) fn notes_up(
    alloc: Global,
    note: &Number,
    steps: &[u8],
    count: u32,
) -> Result<Items, ValueFault>
    ensures { Gives (steps_up (value_of note.now) (times count steps.now)) result }
{
    climbed_times(*note, steps, count)?;
    let mut notes = Items::new(alloc);
    let last = push_times(&mut notes, note, steps, count)?;
    notes.push(value_of(last))?;
    Ok(notes)
}

/// No note of the intervals above this one is too high.
fn check_intervals(note: &Number, intervals: &[u8]) -> Result<(), FaultKind>
    ensures ok { OnOk result (IsOk (intervals_above (value_of note.now) intervals.now)) }
    ensures err { IfErr result (λ kind. intervals_above (value_of note.now) intervals.now ≡ Err kind) }
{
    let mut rest = intervals;
    while let Some((interval, later)) = rest.split_first() {
        raised(*note, *interval)?;
        rest = later;
    }
    Ok(())
}

/// For each interval the note so much above this one.
pub(crate) fn notes_above(
    alloc: Global,
    note: &Number,
    intervals: &[u8],
) -> Result<Items, ValueFault>
    ensures { Gives (intervals_above (value_of note.now) intervals.now) result }
{
    check_intervals(note, intervals)?;
    let mut notes = Items::new(alloc);
    let mut rest = intervals;
    while let Some((interval, later)) = rest.split_first() {
        let higher = raised(*note, *interval)?;
        push_note(&mut notes, &higher)?;
        rest = later;
    }
    Ok(notes)
}
