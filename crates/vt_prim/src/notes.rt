//! The calls on notes.

ghost use Rattle.std.specs.Prelude.{◌≡◌, ◌<◌, length, Ok, Err, IfOk, IfErr, Some};
ghost use Rattle.vt_value.specs.Answers.{Gives};
ghost use Rattle.vt_table.specs.Lists.{chord_intervals, scale_steps};
ghost use Rattle.vt_table.specs.Notes.{note_number};
ghost use Rattle.vt_ring.specs.NoteCalls.{chord_call, degree_call, note_call, octs_call, scale_call};
ghost use Rattle.vt_ring.specs.Signatures.{a_note_and_a_whole, named_note, note_argument};
ghost use Rattle.vt_prim.specs.private.Adding.{answer_of};

use crate::adding::{Number, value_of};
use crate::arguments::{between, one, option_named, symbol_argument, three, two, whole_or};
use crate::climbing::{climbed_first, notes_above, notes_up};
use crate::signatures::integer;
use std::alloc::Global;
use vt_frac::Name;
use vt_ring::whole_argument;
use vt_table::{chord_of, note_of, scale_of};
use vt_value::{FaultKind, Integer, Value, ValueFault};

/// `note V`
#[tactic(auto, unfolding(vt_ring::specs::NoteCalls::note_call))]
pub(crate) fn note_call(args: &[Value]) -> Result<Value, ValueFault>
    ensures { Gives (note_call args.now) result }
{
    let note = note_argument(one(args)?)?;
    let number = note?;
    Ok(value_of(number))
}

/// `scale V, :x`, option `num_octaves:`
#[tactic(auto, unfolding(vt_ring::specs::NoteCalls::scale_call))]
pub(crate) fn scale_call(
    alloc: Global,
    args: &[Value],
    options: &[(Name, Value)],
) -> Result<Value, ValueFault>
    ensures { Gives (scale_call args.now options.now) result }
{
    let (v, x) = two(args)?;
    let note = note_argument(v)?;
    let name = symbol_argument(x)?;
    let number = whole_or(integer(1), option_named(b"num_octaves", options))?;
    let tonic = note?;
    let steps = steps_of(name)?;
    let octaves = between(1, 16, number)?;
    let notes = notes_up(alloc, &tonic, steps, octaves)?;
    Ok(Value::Ring(notes))
}

/// `degree n, V, :x`
#[tactic(auto, unfolding(vt_ring::specs::NoteCalls::degree_call))]
pub(crate) fn degree_call(args: &[Value]) -> Result<Value, ValueFault>
    ensures { Gives (degree_call args.now) result }
{
    let (n, v, x) = three(args)?;
    let number = whole_argument(n)?;
    let note = note_argument(v)?;
    let name = symbol_argument(x)?;
    let degree = between(1, 64, number)?;
    let tonic = note?;
    let steps = steps_of(name)?;
    let reached = climbed_first(tonic, steps, degree.saturating_sub(1))?;
    Ok(value_of(reached))
}

/// `chord V, :x`
#[tactic(auto, unfolding(vt_ring::specs::NoteCalls::chord_call))]
pub(crate) fn chord_call(alloc: Global, args: &[Value]) -> Result<Value, ValueFault>
    ensures { Gives (chord_call args.now) result }
{
    let (v, x) = two(args)?;
    let note = note_argument(v)?;
    let name = symbol_argument(x)?;
    let tonic = note?;
    let intervals = intervals_of(name)?;
    let notes = notes_above(alloc, &tonic, intervals)?;
    Ok(Value::Ring(notes))
}

/// `octs V, n`
#[tactic(auto, unfolding(vt_ring::specs::NoteCalls::octs_call))]
pub(crate) fn octs_call(alloc: Global, args: &[Value]) -> Result<Value, ValueFault>
    ensures { Gives (octs_call args.now) result }
{
    let (note, number) = a_note_and_a_whole(args)?;
    let tonic = note?;
    let count = between(1, 32, number)?;
    let notes = notes_up(alloc, &tonic, &[12], count.saturating_sub(1))?;
    Ok(Value::Ring(notes))
}

/// A number or a symbol, and of it the note.
fn note_argument(value: &Value) -> Result<Result<Number, FaultKind>, FaultKind>
    ensures ok { IfOk result (λ note. note_argument value.now ≡ Ok (answer_of note)) }
    ensures err { IfErr result (λ kind. note_argument value.now ≡ Err kind) }
{
    match value {
        Value::Whole(n) => Ok(Ok(Number::Whole(*n))),
        Value::Part(f) => Ok(Ok(Number::Part(*f))),
        Value::Sym(symbol) => Ok(named_note(symbol.as_bytes())),
        Value::Nil => Err(FaultKind::WrongKind),
        Value::Bool(_) => Err(FaultKind::WrongKind),
        Value::Text(_) => Err(FaultKind::WrongKind),
        Value::Ring(_) => Err(FaultKind::WrongKind),
    }
}

/// The note of a name.
fn named_note(name: &[u8]) -> Result<Number, FaultKind>
    ensures { answer_of result ≡ named_note (note_number name.now) }
{
    match note_of(name) {
        None => Err(FaultKind::BadNote),
        Some(number) => match Integer::new(number) {
            None => Err(FaultKind::BadNote),
            Some(number) => Ok(Number::Whole(number)),
        },
    }
}

/// `V, n`, where V is to be a note.
fn a_note_and_a_whole(args: &[Value]) -> Result<(Result<Number, FaultKind>, Integer), FaultKind>
    ensures ok { IfOk result (λ a. a_note_and_a_whole args.now ≡ Ok (answer_of a.0, a.1)) }
    ensures err { IfErr result (λ kind. a_note_and_a_whole args.now ≡ Err kind) }
{
    let (v, n) = two(args)?;
    let note = note_argument(v)?;
    let number = whole_argument(n)?;
    Ok((note, number))
}

/// The steps of the scale of this name.
fn steps_of(name: &[u8]) -> Result<&'static [u8], FaultKind>
    ensures ok { IfOk result (λ steps. scale_steps name.now ≡ Some steps.now) }
    ensures some { IfOk result (λ steps. 0 < length steps.now) }
    ensures err { IfErr result (λ kind. (scale_steps name.now ≡ None) × (kind ≡ FaultKind.BadValue)) }
{
    match scale_of(name) {
        Some(steps) => Ok(steps),
        None => Err(FaultKind::BadValue),
    }
}

/// The intervals of the chord of this name.
fn intervals_of(name: &[u8]) -> Result<&'static [u8], FaultKind>
    ensures ok { IfOk result (λ intervals. chord_intervals name.now ≡ Some intervals.now) }
    ensures err { IfErr result (λ kind. (chord_intervals name.now ≡ None) × (kind ≡ FaultKind.BadValue)) }
{
    match chord_of(name) {
        Some(intervals) => Ok(intervals),
        None => Err(FaultKind::BadValue),
    }
}
