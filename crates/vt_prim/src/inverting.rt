//! The call `chord_invert`.

ghost use Rattle.std.specs.Prelude.{◌≡◌, ◌<◌, ◌≤◌, Ok, Err, IfErr, IsOk, OnOk, true};
ghost use Rattle.vt_value.specs.Answers.{Gives};
ghost use Rattle.vt_value.specs.declared.fault.FaultKind.{FaultKind};
ghost use Rattle.vt_ring.specs.CountCalls.{are_numbers};
ghost use Rattle.vt_ring.specs.NoteCalls.{chord_invert_call, inverted};
ghost use Rattle.vt_prim.specs.private.Adding.{answer_of};
ghost use Rattle.vt_prim.specs.private.Climbing.{behind};
ghost use Rattle.vt_prim.specs.private.Inverting.{all_up, moved_behind, numeric, octaves_up};

use crate::adding::Number;
use crate::arguments::{between, ring_argument, two};
use crate::climbing::{climbed_times, push_note, rounds};
use crate::counting::are_numbers;
use crate::lists::{prefix_of, rest_of};
use std::alloc::Global;
use vt_ring::whole_argument;
use vt_value::{FaultKind, Items, Value, ValueFault};

/// `chord_invert r, n`
#[tactic(auto, unfolding(vt_ring::specs::NoteCalls::chord_invert_call))]
pub(crate) fn chord_invert_call(alloc: Global, args: &[Value]) -> Result<Value, ValueFault>
    ensures { Gives (chord_invert_call args.now) result }
{
    let (r, n) = two(args)?;
    let items = ring_argument(r)?;
    let number = whole_argument(n)?;
    if !are_numbers(items) {
        return Err(ValueFault::Fault(FaultKind::WrongKind));
    }
    let count = between(0, 64, number)?;
    let notes = inverted(alloc, items, count)?;
    Ok(Value::Ring(notes))
}

/// So many inversions: they raise all notes by whole octaves, and the first ones, which move to the end, by one more.
fn inverted(alloc: Global, items: &[Value], count: u32) -> Result<Items, ValueFault>
    requires few { count ≤ 64 }
    requires numbers { are_numbers items.now ≡ true }
    ensures { Gives (inverted count items.now) result }
{
    if items.is_empty() {
        return Ok(Items::new(alloc));
    }
    let octaves = rounds(count, items.len());
    let first = count as usize % items.len();
    moved_behind(
        alloc,
        octaves,
        prefix_of(items, first),
        rest_of(items, first),
    )
}

/// The numbers that stay, so many octaves higher, and behind them those that move, one octave higher still.
fn moved_behind(
    alloc: Global,
    octaves: u32,
    moving: &[Value],
    staying: &[Value],
) -> Result<Items, ValueFault>
    requires few { octaves ≤ 64 }
    ensures { Gives (moved_behind octaves moving.now staying.now) result }
{
    check_octaves(staying, octaves)?;
    check_octaves(moving, octaves + 1)?;
    let mut notes = Items::new(alloc);
    push_octaves(&mut notes, staying, octaves)?;
    push_octaves(&mut notes, moving, octaves + 1)?;
    Ok(notes)
}

/// Each of the numbers can be so many octaves higher.
fn check_octaves(items: &[Value], octaves: u32) -> Result<(), FaultKind>
    ensures ok { OnOk result (IsOk (all_up octaves items.now)) }
    ensures err { IfErr result (λ kind. all_up octaves items.now ≡ Err kind) }
{
    let mut rest = items;
    while let Some((item, later)) = rest.split_first() {
        octaves_up(item, octaves)?;
        rest = later;
    }
    Ok(())
}

/// Puts the numbers, so many octaves higher, behind the others.
fn push_octaves(notes: &mut Items, items: &[Value], octaves: u32) -> Result<(), ValueFault>
    ensures ok { OnOk result (behind notes.old (all_up octaves items.now) ≡ Ok notes.new) }
    ensures err { IfErr result (λ fault. (kind : FaultKind) → fault ≡ ValueFault.Fault kind → behind notes.old (all_up octaves items.now) ≡ Err kind) }
{
    let mut rest = items;
    while let Some((item, later)) = rest.split_first() {
        let higher = octaves_up(item, octaves)?;
        push_note(notes, &higher)?;
        rest = later;
    }
    Ok(())
}

/// A number so many octaves higher.
fn octaves_up(item: &Value, octaves: u32) -> Result<Number, FaultKind>
    ensures { answer_of result ≡ octaves_up octaves item.now }
{
    let note = numeric(item)?;
    climbed_times(note, &[12], octaves)
}

/// The number that a value is.
fn numeric(item: &Value) -> Result<Number, FaultKind>
    ensures { answer_of result ≡ numeric item.now }
{
    match item {
        Value::Whole(n) => Ok(Number::Whole(*n)),
        Value::Part(f) => Ok(Number::Part(*f)),
        Value::Nil => Err(FaultKind::WrongKind),
        Value::Bool(_) => Err(FaultKind::WrongKind),
        Value::Sym(_) => Err(FaultKind::WrongKind),
        Value::Text(_) => Err(FaultKind::WrongKind),
        Value::Ring(_) => Err(FaultKind::WrongKind),
    }
}
