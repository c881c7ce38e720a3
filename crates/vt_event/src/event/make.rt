//! The events of each kind.

ghost use Rattle.std.specs.Prelude.{◌≡◌, pos, IfOk, IsTrue};
ghost use Rattle.vt_value.specs.declared.value.Value.TheVariants.{Whole};
ghost use Rattle.vt_event.specs.Event.{IsEvent};
ghost use Rattle.vt_event.specs.EventsByKind.{body_event, cue_event, defined_event, ended_event, fault_event, fx_event, log_event, nameless_event, play_event, sample_event, set_event, started_event, synth_event, took_event};
ghost use Rattle.vt_event.specs.Kinds.{is_note, is_sample_name};

use crate::{BlockRef, Event, FxId, Kind, Locals, Options, Place};
use std::alloc::Global;
use vt_frac::{Name, NoMemory};
use vt_path::Path;
use vt_value::{FaultKind, Integer, Value};

impl Event {
    /// A note is played by a synth.
    pub fn of_play(
        place: Place,
        synth: Name,
        note: Value,
        options: Options,
        fx: Option<FxId>,
    ) -> Event
        requires { IsTrue (is_note note) }
        ensures { result ≡ play_event place synth note options fx }
    {
        Event {
            place,
            kind: Kind::Play,
            path: None,
            name: synth,
            value: note,
            options,
            fx,
            body: None,
            line: 0,
        }
    }

    /// A synth is started without a note.
    pub fn of_synth(place: Place, name: Name, options: Options, fx: Option<FxId>) -> Event
        ensures { result ≡ synth_event place name options fx }
    {
        Event {
            place,
            kind: Kind::Synth,
            path: None,
            name,
            value: Value::Nil,
            options,
            fx,
            body: None,
            line: 0,
        }
    }

    /// A sample is played. Its name is a symbol or a text.
    pub fn of_sample(
        alloc: Global,
        place: Place,
        sample: Value,
        options: Options,
        fx: Option<FxId>,
    ) -> Result<Event, NoMemory>
        requires { IsTrue (is_sample_name sample) }
        ensures { IfOk result (λ event. event ≡ sample_event place sample options fx) }
    {
        Ok(Event {
            place,
            kind: Kind::Sample,
            path: None,
            name: Name::of(alloc, &[])?,
            value: sample,
            options,
            fx,
            body: None,
            line: 0,
        })
    }

    /// An effect begins, with its own number, in the effect `fx`.
    pub fn of_fx(place: Place, name: Name, number: u32, options: Options, fx: Option<FxId>) -> Event
        ensures { result ≡ fx_event place name number options fx }
    {
        Event {
            place,
            kind: Kind::Fx,
            path: None,
            name,
            value: effect_number(number),
            options,
            fx,
            body: None,
            line: 0,
        }
    }

    /// A cue is published.
    pub fn of_cue(alloc: Global, place: Place, path: Path, value: Value) -> Result<Event, NoMemory>
        ensures { IfOk result (λ event. event ≡ cue_event place path value) }
    {
        nameless(alloc, place, Kind::Cue, Some(path), value, None, 0)
    }

    /// A value is set.
    pub fn of_set(alloc: Global, place: Place, path: Path, value: Value) -> Result<Event, NoMemory>
        ensures { IfOk result (λ event. event ≡ set_event place path value) }
    {
        nameless(alloc, place, Kind::Set, Some(path), value, None, 0)
    }

    /// A waiting thread goes on, with the path and the value that it waited for.
    pub fn of_took(alloc: Global, place: Place, path: Path, value: Value) -> Result<Event, NoMemory>
        ensures { IfOk result (λ event. event ≡ took_event place path value) }
    {
        nameless(alloc, place, Kind::Took, Some(path), value, None, 0)
    }

    /// A value is written out, or the values of a ring.
    pub fn of_log(alloc: Global, place: Place, value: Value) -> Result<Event, NoMemory>
        ensures { IfOk result (λ event. event ≡ log_event place value) }
    {
        nameless(alloc, place, Kind::Log, None, value, None, 0)
    }

    /// A thread or a text ends by a fault, with its line in the input.
    pub fn of_fault(
        alloc: Global,
        place: Place,
        fault: FaultKind,
        line: u32,
    ) -> Result<Event, NoMemory>
        ensures { IfOk result (λ event. event ≡ fault_event place fault line) }
    {
        nameless(
            alloc,
            place,
            Kind::Fault(fault),
            None,
            Value::Nil,
            None,
            line,
        )
    }

    /// A live loop has this block as its body, with these locals; the line is that of its statement.
    pub fn of_body(
        alloc: Global,
        place: Place,
        path: Path,
        block: BlockRef,
        locals: Locals,
        line: u32,
    ) -> Result<Event, NoMemory>
        ensures { IfOk result (λ event. event ≡ body_event place path block locals line) }
    {
        nameless(
            alloc,
            place,
            Kind::Body,
            Some(path),
            Value::Nil,
            Some((block, locals)),
            line,
        )
    }

    /// A function is defined as this block, with these locals.
    pub fn of_defined(
        alloc: Global,
        place: Place,
        path: Path,
        block: BlockRef,
        locals: Locals,
    ) -> Result<Event, NoMemory>
        ensures { IfOk result (λ event. event ≡ defined_event place path block locals) }
    {
        nameless(
            alloc,
            place,
            Kind::Defined,
            Some(path),
            Value::Nil,
            Some((block, locals)),
            0,
        )
    }

    /// A named thread starts.
    pub fn of_started(alloc: Global, place: Place, path: Path) -> Result<Event, NoMemory>
        ensures { IfOk result (λ event. event ≡ started_event place path) }
    {
        nameless(alloc, place, Kind::Started, Some(path), Value::Nil, None, 0)
    }

    /// A named thread ends; at a path `/!stop/NAME`, the live loop of that name is told to stop.
    pub fn of_ended(alloc: Global, place: Place, path: Path) -> Result<Event, NoMemory>
        ensures { IfOk result (λ event. event ≡ ended_event place path) }
    {
        nameless(alloc, place, Kind::Ended, Some(path), Value::Nil, None, 0)
    }
}

/// An event without a name, options and effect.
fn nameless(
    alloc: Global,
    place: Place,
    kind: Kind,
    path: Option<Path>,
    value: Value,
    body: Option<(BlockRef, Locals)>,
    line: u32,
) -> Result<Event, NoMemory>
    requires { IsEvent (nameless_event place kind path value body line) }
    ensures { IfOk result (λ event. event ≡ nameless_event place kind path value body line) }
{
    Ok(Event {
        place,
        kind,
        path,
        name: Name::of(alloc, &[])?,
        value,
        options: Options::new(alloc),
        fx: None,
        body,
        line,
    })
}

/// The number of an effect as a value.
fn effect_number(number: u32) -> Value
    ensures { result ≡ Whole (pos number) }
{
    match Integer::new(i64::from(number)) {
        Some(number) => Value::Whole(number),
        None => unreachable!(),
    }
}
