//! Notes, and the values that stand for them.

ghost use Rattle.std.specs.Prelude.{◌≡◌, ◌||◌, [], ◌∷◌, ◌++◌, bytes_eq, cond, map, option_to_list, Ok, Err, Some, None, IfOk, IsOk, IsTrue, MatchResult, OnOk, OnErr};
ghost use Rattle.vt_event.specs.Kinds.{is_note};
ghost use Rattle.vt_ring.specs.Answers.{MayGive, all_of, and_then};
ghost use Rattle.vt_ring.specs.Signatures.{named_note};
ghost use Rattle.vt_table.specs.Notes.{note_number};
ghost use Rattle.vt_value.specs.Answers.{Gives};
ghost use Rattle.vt_run.specs.calls.Arguments.{each_of};
ghost use Rattle.vt_run.specs.calls.PlayCalls.{is_rest_name, note_to_play, notes_to_play};
ghost use Rattle.vt_given.specs.Notes.{note_or_fault, sounding, sounding_of};

use std::alloc::Global;
use std::marker::Model;
use std::slice::from_ref;
use vt_frac::{Frac, NoMemory};
use vt_table::note_of;
use vt_value::{FaultKind, Integer, Value, ValueFault};

/// A number.
#[derive(Drop)]
enum Number {
    Whole(Integer),
    Part(Frac),
}

/// A note: a number. Contracts see it as that value.
#[derive(Drop)]
pub struct Note {
    number: Number,
}

impl Model for Note {
    ghost use Rattle.std.specs.Coded.{codes};
    ghost use Rattle.vt_value.specs.contracts.value.Value as any_value;
    ghost use Rattle.vt_value.specs.declared.value.Value as values;
    ghost use Rattle.vt_given.specs.private.Numbers.{value_of};

    ghost Value = { values.Value };

    ghost coded = { Prim.hlevel (codes, any_value.the_row.coded) };

    ghost view = { λ note. value_of note.number };
}

impl Note {
    /// The note as a value.
    pub fn to_value(&self) -> Value
        ensures value { result ≡ self.now }
        ensures note { IsTrue (is_note self.now) }
    {
        match &self.number {
            Number::Whole(n) => Value::Whole(*n),
            Number::Part(f) => Value::Part(*f),
        }
    }
}

/// Notes, one after another. Contracts see them as their list.
#[derive(Drop)]
pub struct Notes {
    items: Vec<Note>,
}

impl Model for Notes {
    ghost use Rattle.std.specs.Prelude.{List};
    ghost use Rattle.std.specs.Coded.{codes};
    ghost use Rattle.vt_value.specs.contracts.value.Value as any_value;
    ghost use Rattle.vt_value.specs.declared.value.Value as values;

    ghost Value = { List values.Value };

    ghost coded = { Prim.hlevel (codes, any_value.the_row.coded) };

    ghost view = { λ notes. notes.items.items };
}

impl Notes {
    /// No notes.
    pub(crate) fn new(alloc: Global) -> Notes
        ensures { result ≡ [] }
    {
        Notes {
            items: Vec::new(alloc),
        }
    }

    /// Adds a note at the end, if there is one. It fails only for want of memory.
    fn push(&mut self, note: Option<Note>) -> Result<(), NoMemory>
        ensures { OnOk result (self.new ≡ self.old ++ option_to_list note) }
    {
        match note {
            None => Ok(()),
            Some(note) => {
                self.items.push(note)?;
                Ok(())
            }
        }
    }

    /// The notes in order.
    pub fn as_slice(&self) -> &[Note]
        ensures { result.now ≡ self.now }
    {
        self.items.as_slice()
    }
}

/// The items of a ring, and else the value alone.
pub fn each_of(value: &Value) -> &[Value]
    ensures { result.now ≡ each_of value.now }
{
    match value {
        Value::Ring(items) => items.as_slice(),
        Value::Nil => from_ref(value),
        Value::Bool(_) => from_ref(value),
        Value::Whole(_) => from_ref(value),
        Value::Part(_) => from_ref(value),
        Value::Sym(_) => from_ref(value),
        Value::Text(_) => from_ref(value),
    }
}

/// The notes that a value plays, without the silence among them.
pub fn notes_to_play(alloc: Global, value: &Value) -> Result<Notes, ValueFault>
    ensures { Gives (and_then (notes_to_play value.now) (λ notes. Ok (sounding notes))) result }
{
    let values = each_of(value);
    check_kinds(values)?;
    check_names(values)?;
    sounding_of(alloc, values)
}

/// The first value that is of no kind of a note.
pub fn check_kinds(values: &[Value]) -> Result<(), FaultKind>
    ensures { MatchResult result (λ _. IsOk (all_of (map note_to_play values.now))) (λ kind. all_of (map note_to_play values.now) ≡ Err kind) }
{
    for value in values {
        let _ = note_to_play(value)?;
    }
    Ok(())
}

/// The first value that is no note.
pub fn check_names(values: &[Value]) -> Result<(), FaultKind>
    ensures { MatchResult result (λ _. IsOk (all_of (map note_or_fault values.now))) (λ kind. all_of (map note_or_fault values.now) ≡ Err kind) }
{
    for value in values {
        note_or_fault(value)?;
    }
    Ok(())
}

/// The notes of these values that sound, where all of them may be played.
pub fn sounding_of(alloc: Global, values: &[Value]) -> Result<Notes, ValueFault>
    ensures { MayGive (sounding_of values.now) result }
{
    let mut notes = Notes::new(alloc);
    for value in values {
        let note = note_or_fault(value)?;
        notes.push(note)?;
    }
    Ok(notes)
}

/// A note to play, or none.
fn note_or_fault(value: &Value) -> Result<Option<Note>, FaultKind>
    ensures { result ≡ note_or_fault value.now }
{
    note_to_play(value)?
}

/// A note to play, or none: by its kind, and of a symbol the note that it names.
fn note_to_play(value: &Value) -> Result<Result<Option<Note>, FaultKind>, FaultKind>
    ensures { result ≡ note_to_play value.now }
{
    match value {
        Value::Nil => Ok(Ok(None)),
        Value::Whole(n) => Ok(Ok(Some(whole_note(*n)))),
        Value::Part(f) => Ok(Ok(Some(part_note(*f)))),
        Value::Sym(name) => Ok(named_to_play(name.as_bytes())),
        Value::Bool(_) => Err(FaultKind::WrongKind),
        Value::Text(_) => Err(FaultKind::WrongKind),
        Value::Ring(_) => Err(FaultKind::WrongKind),
    }
}

/// The note of a name, or none for `:r` and `:rest`.
fn named_to_play(name: &[u8]) -> Result<Option<Note>, FaultKind>
    ensures { result ≡ cond (is_rest_name (Some name.now)) (Ok None) (and_then (named_note (note_number name.now)) (λ note. Ok (Some note))) }
{
    if is_word(b"r", name) || is_word(b"rest", name) {
        return Ok(None);
    }
    Ok(Some(named_note(name)?))
}

fn is_word(word: &[u8], name: &[u8]) -> bool
    ensures { result ≡ bytes_eq word.now name.now }
{
    word == name
}

/// The note of a name.
fn named_note(name: &[u8]) -> Result<Note, FaultKind>
    ensures { result ≡ named_note (note_number name.now) }
{
    match note_of(name) {
        None => Err(FaultKind::BadNote),
        Some(number) => match Integer::new(number) {
            None => Err(FaultKind::BadNote),
            Some(number) => Ok(whole_note(number)),
        },
    }
}

fn whole_note(number: Integer) -> Note
    ensures { result ≡ Value.Whole number }
{
    Note {
        number: Number::Whole(number),
    }
}

fn part_note(number: Frac) -> Note
    ensures { result ≡ Value.Part number }
{
    Note {
        number: Number::Part(number),
    }
}
