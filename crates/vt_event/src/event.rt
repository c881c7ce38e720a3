//! Events: what happened, and where.

ghost use Rattle.std.specs.Prelude.{◌≡◌, IfOk, IsTrue, is_some};
ghost use Rattle.std.specs.Option.{option_copied};
ghost use Rattle.vt_event.specs.Event.{IsEvent};
ghost use Rattle.vt_event.specs.Kinds.{has_body, has_path};

use crate::{BlockRef, FxId, Kind, Locals, Options, Place};
use std::alloc::Global;
use std::marker::Model;
use vt_frac::{Name, NoMemory};
use vt_path::Path;
use vt_value::Value;

mod make;

/// Something that happened at a place. Contracts see it as the record of its fields.
///
/// Its kind says which fields it has; every other field is empty. The type keeps that, so events are made by `of_play` and
/// the other calls of that form, one for each kind, and read by the calls below.
#[derive(Drop)]
pub struct Event {
    place: Place,
    kind: Kind,
    path: Option<Path>,
    name: Name,
    value: Value,
    options: Options,
    fx: Option<FxId>,
    body: Option<(BlockRef, Locals)>,
    line: u32,
}

impl Model for Event {
    ghost use Rattle.std.specs.Coded.{codes};
    ghost use Rattle.vt_value.specs.contracts.value.Value as any_value;
    ghost use Rattle.vt_event.specs.Event.{EventView, IsEvent};

    ghost Value = { EventView };

    ghost coded = { Prim.hlevel (codes, any_value.the_row.coded) };

    ghost view = { λ e. record { place = e.place; kind = e.kind; path = e.path; name = e.name; value = e.value; options = e.options; fx = e.fx; body = e.body; line = e.line } };

    ghost invariant = { λ e. IsEvent (record { place = e.place; kind = e.kind; path = e.path; name = e.name; value = e.value; options = e.options; fx = e.fx; body = e.body; line = e.line }) };
}

impl Event {
    /// Where it stands.
    pub fn place(&self) -> &Place
        ensures { result.now ≡ self.now.place }
    {
        &self.place
    }

    /// What it is.
    pub fn kind(&self) -> Kind
        ensures value { result ≡ self.now.kind }
        ensures event { IsEvent self.now }
    {
        self.kind
    }

    /// The path of a Cue, Set, Took, Body, Defined, Started or Ended.
    pub fn path(&self) -> Option<&Path>
        ensures value { option_copied result ≡ self.now.path }
        ensures some { is_some result ≡ has_path self.now.kind }
    {
        self.path.as_ref()
    }

    /// The synth of a Play or Synth, the name of an Fx; else no bytes.
    pub fn name(&self) -> &Name
        ensures { result.now ≡ self.now.name }
    {
        &self.name
    }

    /// The note of a Play, the name of a Sample, the number of an Fx, the value of a Cue, Set, Log or Took; else nil.
    pub fn value(&self) -> &Value
        ensures { result.now ≡ self.now.value }
    {
        &self.value
    }

    /// The options of a Play, Synth, Sample or Fx; else none.
    pub fn options(&self) -> &Options
        ensures { result.now ≡ self.now.options }
    {
        &self.options
    }

    /// The effect in which a Play, Synth, Sample or Fx stands.
    pub fn fx(&self) -> Option<&FxId>
        ensures { option_copied result ≡ self.now.fx }
    {
        self.fx.as_ref()
    }

    /// The block and the locals of a Body or Defined.
    pub fn body(&self) -> Option<&(BlockRef, Locals)>
        ensures value { option_copied result ≡ self.now.body }
        ensures some { is_some result ≡ has_body self.now.kind }
    {
        self.body.as_ref()
    }

    /// The line of a Fault in the input, that of the `live_loop` statement of a Body; else 0.
    pub fn line(&self) -> u32
        ensures { result ≡ self.now.line }
    {
        self.line
    }

    /// An equal event.
    pub fn copy(&self, alloc: Global) -> Result<Event, NoMemory>
        ensures { IfOk result (λ event. event ≡ self.now) }
    {
        let (place, path) = self.copy_where(alloc)?;
        let (name, value) = self.copy_content(alloc)?;
        let (options, fx) = self.copy_setting(alloc)?;
        Ok(Event {
            place,
            kind: self.kind,
            path,
            name,
            value,
            options,
            fx,
            body: copy_body(alloc, &self.body)?,
            line: self.line,
        })
    }

    fn copy_where(&self, alloc: Global) -> Result<(Place, Option<Path>), NoMemory>
        ensures { IfOk result (λ copied. copied ≡ (self.now.place, self.now.path)) }
    {
        let place = self.place.copy(alloc)?;
        Ok((place, copy_path(alloc, &self.path)?))
    }

    fn copy_content(&self, alloc: Global) -> Result<(Name, Value), NoMemory>
        ensures { IfOk result (λ copied. copied ≡ (self.now.name, self.now.value)) }
    {
        let name = self.name.copy(alloc)?;
        Ok((name, self.value.copy(alloc)?))
    }

    fn copy_setting(&self, alloc: Global) -> Result<(Options, Option<FxId>), NoMemory>
        ensures { IfOk result (λ copied. copied ≡ (self.now.options, self.now.fx)) }
    {
        let options = self.options.copy(alloc)?;
        Ok((options, copy_fx(alloc, &self.fx)?))
    }
}

fn copy_path(alloc: Global, path: &Option<Path>) -> Result<Option<Path>, NoMemory>
    ensures { IfOk result (λ copied. copied ≡ path.now) }
{
    match path {
        None => Ok(None),
        Some(path) => Ok(Some(path.copy(alloc)?)),
    }
}

fn copy_fx(alloc: Global, fx: &Option<FxId>) -> Result<Option<FxId>, NoMemory>
    ensures { IfOk result (λ copied. copied ≡ fx.now) }
{
    match fx {
        None => Ok(None),
        Some(fx) => Ok(Some(fx.copy(alloc)?)),
    }
}

fn copy_body(
    alloc: Global,
    body: &Option<(BlockRef, Locals)>,
) -> Result<Option<(BlockRef, Locals)>, NoMemory>
    ensures { IfOk result (λ copied. copied ≡ body.now) }
{
    match body {
        None => Ok(None),
        Some((block, locals)) => Ok(Some((*block, locals.copy(alloc)?))),
    }
}
