//! The items of patterns: what each turn of `play_pattern` and `play_pattern_timed` plays, and how many beats it rests.

ghost use Rattle.std.specs.Prelude.{◌≡◌, ◌||◌, ◌∷◌, [], length, map, nat_eq, nat_lt, pos, true, false, Ok, Err, IfOk, IfErr, IsOk, IsTrue, is_some, MatchOption, MatchResult, OnErr};
ghost use Rattle.std.specs.List.{list_all, zip};
ghost use Rattle.std.specs.Option.{option_copied};
ghost use Rattle.vt_frac.specs.Fraction.{whole};
ghost use Rattle.vt_ring.specs.Answers.{all_of, and_then};
ghost use Rattle.vt_ring.specs.Called.{demand};
ghost use Rattle.vt_ring.specs.Signatures.{number_argument};
ghost use Rattle.vt_run.specs.calls.Arguments.{each_of, items_round};
ghost use Rattle.vt_run.specs.calls.PatternCalls.{beats_round, even_items, timed_items};
ghost use Rattle.vt_run.specs.calls.PlayCalls.{notes_asked};
ghost use Rattle.vt_value.specs.Kinds.{number_of, ring_of};
ghost use Rattle.vt_given.specs.Notes.{sounding};
ghost use Rattle.vt_given.specs.Patterns.{sounding_item};
ghost use Rattle.vt_given.specs.private.Rounds.{asked_in, beat_of, beats_at, made_or, not_below, notes_in, number_in, timed_items_by};

use crate::arguments::{a_ring, number_argument, ring_argument, two};
use crate::exact::{is_negative, whole};
use crate::given::Given;
use crate::notes::{Notes, check_kinds, check_names, each_of, notes_to_play};
use crate::timings::item_round;
use std::alloc::Global;
use std::marker::Model;
use vt_frac::{Frac, NoMemory};
use vt_value::{FaultKind, Value, ValueFault};

/// The items of a pattern, each its notes that sound and the beats of the rest behind them, one after another. Contracts see
/// them as the list of those that are left.
#[derive(Drop)]
pub struct PatternItems<'a> {
    values: &'a [Value],
    times: Option<&'a [Value]>,
    at: usize,
}

impl<'a> Model for PatternItems<'a> {
    ghost use Rattle.std.specs.Prelude.{List, drop};
    ghost use Rattle.std.specs.Coded.{codes};
    ghost use Rattle.std.specs.Option.{option_copied};
    ghost use Rattle.vt_frac.specs.Fraction.{Fraction};
    ghost use Rattle.vt_value.specs.contracts.value.Value as any_value;
    ghost use Rattle.vt_value.specs.declared.value.Value as value_types;
    ghost use Rattle.vt_given.specs.private.Rounds.{items_from};

    ghost Value = { List (List value_types.Value × Fraction) };

    ghost coded = { Prim.hlevel (codes, any_value.the_row.coded) };

    ghost view = { λ p. items_from (option_copied p.times) p.at (drop p.at p.values.now) };
}

impl<'a> PatternItems<'a> {
    /// The notes of the next item that sound, and the beats of the rest behind them. It fails only for want of memory, and then
    /// the item is still to come.
    pub fn next(&mut self, alloc: Global) -> Result<Option<(Notes, Frac)>, NoMemory>
        ensures ok { IfOk result (λ item. MatchOption item (self.old ≡ []) (λ next. self.old ≡ next ∷ self.new)) }
        ensures err { OnErr result (self.new ≡ self.old) }
    {
        if self.at >= self.values.len() {
            return Ok(None);
        }
        let value = &self.values[self.at];
        let beats = beats_at(self.times, self.at);
        let notes = notes_of(alloc, value)?;
        self.at += 1;
        Ok(Some((notes, beats)))
    }
}

/// The items of `play_pattern r`: each with a rest of one beat.
pub fn even_items(given: &Given) -> Result<PatternItems<'_>, FaultKind>
    ensures ok { IfOk result (λ made. and_then (even_items given.now) (λ items. Ok (map sounding_item items)) ≡ Ok made) }
    ensures err { IfErr result (λ kind. even_items given.now ≡ Err kind) }
{
    let values = a_ring(given.all_args())?;
    check_all_kinds(values)?;
    check_all_names(values)?;
    Ok(evenly(values))
}

/// The items of `play_pattern_timed r, V`: each with a rest of V beats, or of the beats that V has for it.
pub fn timed_items(given: &Given) -> Result<PatternItems<'_>, FaultKind>
    ensures ok { IfOk result (λ made. and_then (timed_items given.now) (λ items. Ok (map sounding_item items)) ≡ Ok made) }
    ensures err { IfErr result (λ kind. timed_items given.now ≡ Err kind) }
{
    let (values, times) = two(given.all_args())?;
    timed_items_by(ring_argument(values)?, times)
}

fn timed_items_by<'a>(values: &'a [Value], times: &'a Value) -> Result<PatternItems<'a>, FaultKind>
    ensures ok { IfOk result (λ made. and_then (timed_items_by values.now times.now) (λ items. Ok (map sounding_item items)) ≡ Ok made) }
    ensures err { IfErr result (λ kind. timed_items_by values.now times.now ≡ Err kind) }
{
    check_all_kinds(values)?;
    let beats = beats_round(times, values.len())?;
    check_all_names(values)?;
    if !are_forward(beats, values.len()) {
        return Err(FaultKind::BadValue);
    }
    if !values.is_empty() && beats.is_empty() {
        return Err(FaultKind::EmptyRing);
    }
    Ok(timed(values, beats))
}

/// All items, with a rest of one beat each.
fn evenly(values: &[Value]) -> PatternItems<'_>
    ensures { result ≡ map sounding_item (map (λ notes. (notes, whole (pos 1))) (map notes_in values.now)) }
{
    PatternItems {
        values,
        times: None,
        at: 0,
    }
}

/// All items, with these beats.
fn timed<'a>(values: &'a [Value], times: &'a [Value]) -> PatternItems<'a>
    requires { IsTrue (nat_eq (length values.now) 0 || nat_lt 0 (length times.now)) }
    ensures { result ≡ map sounding_item (zip (map notes_in values.now) (map number_in (items_round (length values.now) times.now))) }
{
    PatternItems {
        values,
        times: Some(times),
        at: 0,
    }
}

/// The first value of which some note is of no kind of a note.
fn check_all_kinds(values: &[Value]) -> Result<(), FaultKind>
    ensures { MatchResult result (λ _. all_of (map notes_asked values.now) ≡ Ok (map asked_in values.now)) (λ kind. all_of (map notes_asked values.now) ≡ Err kind) }
{
    for value in values {
        check_kinds(each_of(value))?;
    }
    Ok(())
}

/// The first value of which some note has no such name.
fn check_all_names(values: &[Value]) -> Result<(), FaultKind>
    requires { IsOk (all_of (map notes_asked values.now)) }
    ensures { MatchResult result (λ _. all_of (map all_of (map asked_in values.now)) ≡ Ok (map notes_in values.now)) (λ kind. all_of (map all_of (map asked_in values.now)) ≡ Err kind) }
{
    for value in values {
        check_names(each_of(value))?;
    }
    Ok(())
}

/// The numbers of beats, of which so many are needed.
fn beats_round(value: &Value, n: usize) -> Result<&[Value], FaultKind>
    ensures ok { IfOk result (λ times. beats_round n value.now ≡ Ok (map number_in (items_round n times.now))) }
    ensures each { IfOk result (λ times. each_of value.now ≡ times.now) }
    ensures err { IfErr result (λ kind. beats_round n value.now ≡ Err kind) }
{
    let times = numbers_or_ring(value)?;
    check_beats(times, n)?;
    Ok(times)
}

/// A number alone, or the items of a ring.
fn numbers_or_ring(value: &Value) -> Result<&[Value], FaultKind>
    ensures ok { IfOk result (λ times. each_of value.now ≡ times.now) }
    ensures is { IfOk result (λ times. IsTrue (is_some (number_of value.now) || is_some (ring_of value.now))) }
    ensures err { IfErr result (λ kind. demand (is_some (number_of value.now) || is_some (ring_of value.now)) FaultKind.WrongKind (Ok value.now) ≡ Err kind) }
{
    match value {
        Value::Ring(items) => Ok(items.as_slice()),
        Value::Whole(_) => Ok(each_of(value)),
        Value::Part(_) => Ok(each_of(value)),
        Value::Nil => Err(FaultKind::WrongKind),
        Value::Bool(_) => Err(FaultKind::WrongKind),
        Value::Sym(_) => Err(FaultKind::WrongKind),
        Value::Text(_) => Err(FaultKind::WrongKind),
    }
}

/// The first of so many numbers of beats that is no number.
fn check_beats(times: &[Value], n: usize) -> Result<(), FaultKind>
    ensures { MatchResult result (λ _. all_of (map number_argument (items_round n times.now)) ≡ Ok (map number_in (items_round n times.now))) (λ kind. all_of (map number_argument (items_round n times.now)) ≡ Err kind) }
{
    if times.is_empty() {
        return Ok(());
    }
    for i in 0..n {
        beat_of(times, i)?;
    }
    Ok(())
}

/// Whether none of so many numbers of beats is below 0.
fn are_forward(times: &[Value], n: usize) -> bool
    ensures { result ≡ list_all not_below (map number_in (items_round n times.now)) }
{
    if times.is_empty() {
        return true;
    }
    for i in 0..n {
        if is_negative(beats_at(Some(times), i)) {
            return false;
        }
    }
    true
}

/// The beats of the item at this place.
fn beat_of(times: &[Value], at: usize) -> Result<Frac, FaultKind>
    ensures { result ≡ beat_of times.now at }
{
    number_argument(item_round(times, at)?)
}

fn beats_at(times: Option<&[Value]>, at: usize) -> Frac
    ensures { result ≡ beats_at (option_copied times.entry) at }
{
    match times {
        None => whole(1),
        Some(times) => beat_or_none(beat_of(times, at)),
    }
}

fn beat_or_none(beat: Result<Frac, FaultKind>) -> Frac
    ensures { result ≡ made_or (whole (pos 0)) beat }
{
    match beat {
        Ok(beats) => beats,
        Err(_) => whole(0),
    }
}

/// The notes of an item that sound.
fn notes_of(alloc: Global, value: &Value) -> Result<Notes, NoMemory>
    ensures { IfOk result (λ notes. notes ≡ sounding (notes_in value.now)) }
{
    match notes_to_play(alloc, value) {
        Ok(notes) => Ok(notes),
        Err(ValueFault::Fault(_)) => Ok(Notes::new(alloc)),
        Err(ValueFault::NoMemory) => Err(NoMemory),
    }
}
