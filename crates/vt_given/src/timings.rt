//! What each thread of `at` is given.

ghost use Rattle.std.specs.Prelude.{◌≡◌, ◌||◌, ◌∷◌, [], nat_eq, length, map, pos, true, false, Ok, Err, IfOk, IfErr, IsOk, IsTrue, MatchOption, MatchResult};
ghost use Rattle.std.specs.List.{list_all, zip};
ghost use Rattle.std.specs.Option.{option_copied};
ghost use Rattle.vt_frac.specs.Fraction.{whole};
ghost use Rattle.vt_ring.specs.Answers.{all_of};
ghost use Rattle.vt_ring.specs.Exact.{is_negative};
ghost use Rattle.vt_ring.specs.Items.{item_at};
ghost use Rattle.vt_ring.specs.Signatures.{number_argument};
ghost use Rattle.vt_run.specs.calls.Arguments.{has_item, ring_if_given};
ghost use Rattle.vt_run.specs.calls.ThreadCalls.{timings, values_for};
ghost use Rattle.vt_run.specs.calls.TimeCalls.{seconds_of};
ghost use Rattle.vt_run.specs.Tempo.{is_tempo};
ghost use Rattle.vt_given.specs.private.Rounds.{not_below, number_in, rest_at, seconds_in, timed_by, value_at};

use crate::arguments::{number_argument, one_or_two, ring_argument};
use crate::exact::{exact_quotient, is_negative, whole};
use crate::given::Given;
use crate::notes::each_of;
use std::marker::Model;
use vt_frac::Frac;
use vt_ring::exact_product;
use vt_run::{Delay, State, Tempo};
use vt_value::{FaultKind, Value};

/// What the threads of `at` are given, each its rest in seconds and its value, one after another. Contracts see it as the
/// list of those that are left.
#[derive(Drop)]
pub struct Timings<'a> {
    bpm: Tempo,
    times: &'a [Value],
    items: Option<&'a [Value]>,
    at: usize,
}

impl<'a> Model for Timings<'a> {
    ghost use Rattle.std.specs.Prelude.{List, drop};
    ghost use Rattle.std.specs.Coded.{codes};
    ghost use Rattle.std.specs.Option.{option_copied};
    ghost use Rattle.vt_frac.specs.Fraction.{Fraction};
    ghost use Rattle.vt_value.specs.contracts.value.Value as any_value;
    ghost use Rattle.vt_value.specs.declared.value.Value as values;
    ghost use Rattle.vt_given.specs.private.Rounds.{timed};

    ghost Value = { List (Fraction × values.Value) };

    ghost coded = { Prim.hlevel (codes, any_value.the_row.coded) };

    ghost view = { λ t. timed t.bpm (option_copied t.items) t.at (drop t.at t.times.now) };
}

impl<'a> Timings<'a> {
    /// The rest and the value of the next thread.
    pub fn next(&mut self) -> Option<(Delay, &'a Value)>
        ensures { MatchOption result (self.old ≡ []) (λ timing. self.old ≡ (timing.0, timing.1.now) ∷ self.new) }
    {
        if self.at >= self.times.len() {
            return None;
        }
        let time = &self.times[self.at];
        let rest = rest_at(time, &self.bpm);
        let value = value_at(self.items, self.at, time);
        self.at += 1;
        Some((rest, value))
    }
}

/// What each thread of `at` is given: its rest, and an item of the ring, or else its own number.
pub fn at_timings<'a>(given: &'a Given, state: &State) -> Result<Timings<'a>, FaultKind>
    ensures ok { IfOk result (λ made. timings given.now state.now ≡ Ok made) }
    ensures err { IfErr result (λ kind. timings given.now state.now ≡ Err kind) }
{
    let (times, ring) = one_or_two(given.all_args())?;
    timings_by(each_of(times), ring, &state.settings.bpm)
}

fn timings_by<'a>(
    times: &'a [Value],
    ring: Option<&'a Value>,
    bpm: &Tempo,
) -> Result<Timings<'a>, FaultKind>
    ensures ok { IfOk result (λ made. timed_by times.now (option_copied ring.entry) bpm.now ≡ Ok made) }
    ensures err { IfErr result (λ kind. timed_by times.now (option_copied ring.entry) bpm.now ≡ Err kind) }
{
    check_numbers(times)?;
    let items = ring_if_given(ring)?;
    if !are_forward(times) {
        return Err(FaultKind::BadValue);
    }
    if !have_items(times, items) {
        return Err(FaultKind::EmptyRing);
    }
    check_rests(times, bpm)?;
    Ok(timings_from(times, items, bpm))
}

/// All threads, from the first on.
fn timings_from<'a>(times: &'a [Value], items: Option<&'a [Value]>, bpm: &Tempo) -> Timings<'a>
    requires forward { IsTrue (list_all not_below (map number_in times.now)) }
    requires some { IsTrue (nat_eq (length (map number_in times.now)) 0 || has_item (option_copied items)) }
    ensures { result ≡ zip (map (seconds_in bpm.now) (map number_in times.now)) (values_for (option_copied items.entry) times.now) }
{
    Timings {
        bpm: *bpm,
        times,
        items,
        at: 0,
    }
}

/// The first value that is no number.
fn check_numbers(values: &[Value]) -> Result<(), FaultKind>
    ensures { MatchResult result (λ _. all_of (map number_argument values.now) ≡ Ok (map number_in values.now)) (λ kind. all_of (map number_argument values.now) ≡ Err kind) }
{
    for value in values {
        number_argument(value)?;
    }
    Ok(())
}

/// Whether no number is below 0.
fn are_forward(times: &[Value]) -> bool
    ensures { result ≡ list_all not_below (map number_in times.now) }
{
    let mut left = times;
    while let Some((time, rest)) = left.split_first() {
        if is_negative(number_in(time)) {
            return false;
        }
        left = rest;
    }
    true
}

/// There is no number, or no ring is given, or it has an item.
fn have_items(times: &[Value], items: Option<&[Value]>) -> bool
    ensures { result ≡ (nat_eq (length (map number_in times.now)) 0 || has_item (option_copied items.entry)) }
{
    times.is_empty() || has_item(items)
}

/// The first rest whose seconds do not fit.
fn check_rests(times: &[Value], bpm: &Tempo) -> Result<(), FaultKind>
    ensures { MatchResult result (λ _. all_of (map (λ n. seconds_of n bpm.now) (map number_in times.now)) ≡ Ok (map (seconds_in bpm.now) (map number_in times.now))) (λ kind. all_of (map (λ n. seconds_of n bpm.now) (map number_in times.now)) ≡ Err kind) }
{
    for time in times {
        seconds_of(number_in(time), bpm)?;
    }
    Ok(())
}

/// The rest of a thread, by its number.
fn rest_at(time: &Value, bpm: &Tempo) -> Delay
    ensures { result ≡ rest_at bpm.now time.now }
{
    let beats = number_in(time);
    if is_negative(beats) {
        return no_delay();
    }
    delay_of(beats, bpm)
}

/// So many beats in seconds, and none where that does not fit.
fn delay_of(beats: Frac, bpm: &Tempo) -> Delay
    requires { is_negative beats ≡ false }
    ensures { result ≡ seconds_in bpm.now beats }
{
    keep_tempo(bpm);
    match seconds_of(beats, bpm) {
        Err(_) => no_delay(),
        Ok(seconds) => match Delay::new(seconds) {
            Some(delay) => delay,
            None => unreachable!(),
        },
    }
}

/// What the type of a tempo keeps, told of one. It does nothing.
fn keep_tempo(bpm: &Tempo)
    ensures { IsTrue (is_tempo bpm.now) }
{
    bpm.get();
}

fn no_delay() -> Delay
    ensures { result ≡ whole (pos 0) }
{
    match Delay::new(whole(0)) {
        Some(delay) => delay,
        None => unreachable!(),
    }
}

/// The value of a thread: an item of the ring, or else its own number.
fn value_at<'a>(items: Option<&'a [Value]>, at: usize, time: &'a Value) -> &'a Value
    ensures { result.now ≡ value_at (option_copied items.entry) at time.now }
{
    match items {
        None => time,
        Some(items) => item_or(items, at, time),
    }
}

fn item_or<'a>(items: &'a [Value], at: usize, other: &'a Value) -> &'a Value
    ensures { result.now ≡ value_at (Some items.now) at other.now }
{
    match item_round(items, at) {
        Ok(item) => item,
        Err(_) => other,
    }
}

/// The item at an index, counted round and round. `EmptyRing` where there is no item.
pub(crate) fn item_round(items: &[Value], at: usize) -> Result<&Value, FaultKind>
    ensures { MatchResult result (λ item. item_at items.now (pos at) ≡ Ok item.now) (λ kind. item_at items.now (pos at) ≡ Err kind) }
{
    if items.is_empty() {
        return Err(FaultKind::EmptyRing);
    }
    Ok(&items[at % items.len()])
}

/// The number that a value is, and 0 for another value.
pub(crate) fn number_in(value: &Value) -> Frac
    ensures { result ≡ number_in value.now }
{
    match number_argument(value) {
        Ok(number) => number,
        Err(_) => whole(0),
    }
}

/// So many beats in seconds: `beats * (60 / bpm)`.
pub fn seconds_of(beats: Frac, bpm: &Tempo) -> Result<Frac, FaultKind>
    ensures { result ≡ seconds_of beats bpm.now }
{
    let beat = exact_quotient(whole(60), bpm.get())?;
    exact_product(beats, beat)
}

/// A ring that need not be given.
pub fn ring_if_given(value: Option<&Value>) -> Result<Option<&[Value]>, FaultKind>
    ensures ok { IfOk result (λ ring. ring_if_given (option_copied value.entry) ≡ Ok (option_copied ring)) }
    ensures err { IfErr result (λ kind. ring_if_given (option_copied value.entry) ≡ Err kind) }
{
    match value {
        None => Ok(None),
        Some(value) => Ok(Some(ring_argument(value)?)),
    }
}

/// No ring is given, or it has an item.
pub fn has_item(ring: Option<&[Value]>) -> bool
    ensures { result ≡ has_item (option_copied ring.entry) }
{
    match ring {
        None => true,
        Some(items) => !items.is_empty(),
    }
}
