//! What a runner notes of the steps that it makes: the next piece of its thread.

ghost use Rattle.std.specs.Prelude.{◌≡◌, ◌≤◌, ◌<◌, ◌++◌, ℕ, OnErr, OnOk, IsTrue, ◌↔◌, cond, None, Some};
ghost use Rattle.vt_frac.specs.Arithmetic.{sum_of};
ghost use Rattle.vt_frac.specs.Fraction.{fits};
ghost use Rattle.vt_run.specs.Actions.{is_past};
ghost use Rattle.vt_run.specs.Leads.{Leads};
ghost use Rattle.vt_run.specs.Notes.{IsOver, RestFits, capped, finished, fresh, note, piece_of};
ghost use Rattle.vt_run.specs.Pieces.{listed, or_more, stop_of};
ghost use Rattle.vt_run.specs.private.Passing.{IsNextKept, Passed};
ghost use Rattle.vt_run.specs.Evaluation.{Ran, halts, step};

use crate::{Action, Actions, Piece, Stop};
use std::alloc::Global;
use std::cmp::Ordering;
use std::marker::Model;
use vt_frac::{Frac, NoMemory};

/// The notes of a runner: the steps that are done are passed over, the next ones are kept up to a stop. Contracts see them
/// as the record `Notes`.
#[derive(Drop)]
pub struct Recorder {
    skip: u64,
    actions: Actions,
    cost: u64,
    count: u64,
    stop: Option<Stop>,
    limit: u64,
    until: Frac,
    over: bool,
}

impl Model for Recorder {
    ghost use Rattle.std.specs.Coded.{codes};
    ghost use Rattle.vt_value.specs.contracts.value.Value as any_value;
    ghost use Rattle.vt_run.specs.Notes.{IsOpen, Notes};

    ghost Value = { Notes };

    ghost coded = { Prim.hlevel (codes, any_value.the_row.coded) };

    ghost view = { λ r. record { skip = r.skip; actions = r.actions; cost = r.cost; count = r.count; stop = r.stop; limit = r.limit; until = r.until; over = r.over } };

    ghost invariant = { λ r. IsOpen (record { skip = r.skip; actions = r.actions; cost = r.cost; count = r.count; stop = r.stop; limit = r.limit; until = r.until; over = r.over }) };
}

impl Recorder {
    /// Nothing is noted yet, and the first `skip` steps will be passed over.
    pub fn new(alloc: Global, skip: u64, limit: u64, until: Frac) -> Recorder
        requires least { 1 ≤ limit }
        requires most { limit ≤ 4096 }
        ensures { result ≡ fresh skip limit until }
    {
        Recorder {
            skip,
            actions: Actions::new(alloc),
            cost: 0,
            count: 0,
            stop: None,
            limit,
            until,
            over: false,
        }
    }

    /// How many steps are kept.
    pub fn count(&self) -> u64
        ensures value { result ≡ self.now.count }
        ensures few { result ≤ 4096 }
    {
        self.count
    }

    /// Whether nothing more is noted.
    pub fn is_over(&self) -> bool
        ensures { IsTrue result ↔ IsOver self.now }
    {
        self.over || self.stop.is_some()
    }

    /// The piece that is noted, once it has its stop.
    pub fn into_piece(self) -> Option<Piece>
        ensures { result ≡ piece_of self }
    {
        let Recorder {
            skip: _,
            actions,
            cost,
            count: _,
            stop,
            limit: _,
            until: _,
            over: _,
        } = self;
        match stop {
            Some(stop) => Some(Piece {
                actions,
                cost,
                stop,
            }),
            None => None,
        }
    }

    /// The thread has nothing more to do: nothing more is noted.
    pub fn finish(&mut self)
        ensures value { self.new ≡ finished self.old }
        ensures leads { (to : Ran) → Leads halts self.old to self.new }
    {
        self.over = true;
    }

    /// Makes one step. A cost above 2^64 - 1 is given as 2^64 - 1. It fails only for want of memory, and then nothing is
    /// noted of the step.
    pub fn step(&mut self, cost: u64, action: Option<Action>) -> Result<(), NoMemory>
        requires costs { 1 ≤ cost }
        requires fits { RestFits action }
        ensures value { OnOk result (self.new ≡ note self.old (record { cost = cost; action = action })) }
        ensures leads { OnOk result ((exact : ℕ) → capped exact ≡ cost → (ran : Ran) → Leads (step (record { cost = exact; action = action }) ran) self.old ran self.new) }
        ensures err { OnErr result (self.new ≡ self.old) }
    {
        if self.passes() {
            let_go(action);
            Ok(())
        } else {
            self.keep_next(cost, action)
        }
    }

    /// Passes over the next step where it is done already or nothing more is noted, and says whether it did.
    fn passes(&mut self) -> bool
        ensures { Passed result self.old self.new }
    {
        if self.over || self.stop.is_some() {
            return true;
        }
        if self.skip > 0 {
            self.skip -= 1;
            return true;
        }
        false
    }

    /// Keeps the next step. It fails only for want of memory.
    fn keep_next(&mut self, cost: u64, action: Option<Action>) -> Result<(), NoMemory>
        requires next { IsNextKept self.old }
        requires costs { 1 ≤ cost }
        requires fits { RestFits action }
        ensures value { OnOk result (self.new ≡ note self.old (record { cost = cost; action = action })) }
        ensures err { OnErr result (self.new ≡ self.old) }
    {
        let cost = self.cost.saturating_add(cost);
        let stop = stop_after(self.until, &action, self.limit <= cost);
        keep(&mut self.actions, action)?;
        self.cost = cost;
        self.count += 1;
        self.stop = stop;
        Ok(())
    }
}

/// Drops an action.
fn let_go(_action: Option<Action>) {}

/// Adds the action of a step, if it has one. It fails only for want of memory.
fn keep(actions: &mut Actions, action: Option<Action>) -> Result<(), NoMemory>
    ensures ok { OnOk result (actions.new ≡ actions.old ++ listed action) }
    ensures err { OnErr result (actions.new ≡ actions.old) }
{
    match action {
        Some(action) => actions.push(action),
        None => Ok(()),
    }
}

/// The stop that a step makes, by its action, or by the cost where that is at the limit.
fn stop_after(until: Frac, action: &Option<Action>, full: bool) -> Option<Stop>
    requires { RestFits action.now }
    ensures { result ≡ or_more (stop_of until action.now) full }
{
    match stop_by(until, action) {
        Some(stop) => Some(stop),
        None => more_if(full),
    }
}

/// The stop that the action of a step makes.
fn stop_by(until: Frac, action: &Option<Action>) -> Option<Stop>
    requires { RestFits action.now }
    ensures { result ≡ stop_of until action.now }
{
    match action {
        None => None,
        Some(Action::Emit(_)) => None,
        Some(Action::Rest { place, seconds }) => past_if(reaches(until, place.time, *seconds)),
        Some(Action::Read { .. }) => Some(Stop::Asks),
        Some(Action::Wait { .. }) => Some(Stop::Asks),
        Some(Action::Spawn { .. }) => None,
        Some(Action::End { .. }) => Some(Stop::Ended),
    }
}

fn more_if(full: bool) -> Option<Stop>
    ensures { result ≡ cond full (Some Stop.More) None }
{
    if full { Some(Stop::More) } else { None }
}

fn past_if(past: bool) -> Option<Stop>
    ensures { result ≡ cond past (Some Stop.Past) None }
{
    if past { Some(Stop::Past) } else { None }
}

/// Whether a rest reaches the horizon.
fn reaches(until: Frac, time: Frac, seconds: Frac) -> bool
    requires { IsTrue (fits (sum_of time seconds)) }
    ensures { result ≡ is_past until (sum_of time seconds) }
{
    match time.add(seconds) {
        Ok(time) => is_at_or_past(until, time),
        Err(_) => unreachable!(),
    }
}

/// Whether a time is at the horizon or past it.
fn is_at_or_past(until: Frac, time: Frac) -> bool
    ensures { result ≡ is_past until time }
{
    match time.cmp(&until) {
        Ordering::Less => false,
        Ordering::Equal => true,
        Ordering::Greater => true,
    }
}
