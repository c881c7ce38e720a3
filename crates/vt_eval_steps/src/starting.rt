//! The calls that tell of a block or start threads: `define`, `in_thread`, `live_loop` and `at`.

ghost use Rattle.std.specs.Prelude.{◌≡◌, ◌<◌, length, OnOk, Option};
ghost use Rattle.std.specs.Option.{option_copied};
ghost use Rattle.vt_run.specs.calls.FunctionCalls.{define_call};
ghost use Rattle.vt_run.specs.calls.ThreadCalls.{at_call, in_thread_call, live_loop_call, spawns, spawns_timed, starts_timed};
ghost use Rattle.vt_run.specs.Evaluation.{Ran};
ghost use Rattle.vt_run.specs.declared.role.Role.TheVariants.{Timed};
ghost use Rattle.vt_run.specs.declared.state.State.{State};
ghost use Rattle.vt_value.specs.Sizes.{size_of};
ghost use Rattle.vt_run.specs.Scopes.{BlockMeaning};
ghost use Rattle.vt_eval_steps.specs.Lists.{block_given};
ghost use Rattle.vt_eval_steps.specs.Making.{Comes, Makes};
ghost use Rattle.vt_eval_steps.specs.Scenes.{env_at};

use crate::run::Run;
use crate::scene::Scene;
use crate::spawning::may_start;
use crate::spot::Spot;
use vt_effects::{body_event, defined_event, loop_parts, spawn_cost, thread_role};
use vt_frac::NoMemory;
use vt_given::{Given, Timings, a_symbol, at_timings};
use vt_run::{Delay, Role};
use vt_tree::Block;
use vt_value::{FaultKind, Value};

impl Scene<'_> {
    /// `define :x do`
    #[tactic(auto, unfolding(vt_run::specs::calls::FunctionCalls::define_call))]
    pub(crate) fn define_call(
        &self,
        given: &Given,
        block: Option<&Block>,
        at: Spot,
        run: &mut Run,
    ) -> Result<Value, NoMemory>
        ensures { Comes (define_call given.now (block_given (option_copied block.entry)) (env_at self.now) at run.old.state) run.old.notes result run.new }
    {
        let Some(block) = block else {
            return self.fail(FaultKind::WrongCount, at, run);
        };
        match a_symbol(given.all_args()) {
            Err(kind) => self.fail(kind, at, run),
            Ok(name) => {
                let block = self.block_ref(block.number);
                let event = defined_event(self.alloc, self.thread(), name, block, &run.state)?;
                self.emit(event, run)?;
                Ok(Value::Nil)
            }
        }
    }

    /// `in_thread do`
    #[tactic(auto, unfolding(vt_run::specs::calls::ThreadCalls::in_thread_call))]
    pub(crate) fn in_thread_call(
        &self,
        given: &Given,
        block: Option<&Block>,
        at: Spot,
        run: &mut Run,
    ) -> Result<Value, NoMemory>
        ensures { Comes (in_thread_call given.now (block_given (option_copied block.entry)) (env_at self.now) at run.old.state) run.old.notes result run.new }
    {
        let Some(block) = block else {
            return self.fail(FaultKind::WrongCount, at, run);
        };
        match thread_role(self.alloc, given) {
            Err(fault) => self.fail_by(fault, at, run),
            Ok(role) => {
                let cost = spawn_cost(&run.state.locals, None);
                self.start(role, cost, block.number, at, run)
            }
        }
    }

    /// `live_loop :x do`
    #[tactic(auto, unfolding(vt_run::specs::calls::ThreadCalls::live_loop_call))]
    pub(crate) fn live_loop_call(
        &self,
        given: &Given,
        block: Option<&Block>,
        at: Spot,
        run: &mut Run,
    ) -> Result<Value, NoMemory>
        ensures { Comes (live_loop_call given.now (block_given (option_copied block.entry)) (env_at self.now) at run.old.state) run.old.notes result run.new }
    {
        let Some(block) = block else {
            return self.fail(FaultKind::WrongCount, at, run);
        };
        match loop_parts(self.alloc, given) {
            Err(fault) => self.fail_by(fault, at, run),
            Ok(parts) => {
                let body = self.block_ref(block.number);
                let event = body_event(
                    self.alloc,
                    self.thread(),
                    parts.name(),
                    body,
                    at.line(),
                    &run.state,
                )?;
                let cost = spawn_cost(&run.state.locals, parts.init());
                self.emit(event, run)?;
                self.start(parts.into_role(), cost, block.number, at, run)
            }
        }
    }

    /// `at V do`, `at V, r do`
    #[tactic(auto, unfolding(vt_run::specs::calls::ThreadCalls::at_call))]
    pub(crate) fn at_call(
        &self,
        given: &Given,
        block: Option<&Block>,
        at: Spot,
        run: &mut Run,
    ) -> Result<Value, NoMemory>
        ensures { Comes (at_call given.now (block_given (option_copied block.entry)) (env_at self.now) at run.old.state) run.old.notes result run.new }
    {
        let Some(block) = block else {
            return self.fail(FaultKind::WrongCount, at, run);
        };
        match at_timings(given, &run.state) {
            Err(kind) => self.fail(kind, at, run),
            Ok(timings) => self.start_timed(timings, block.number, at, run),
        }
    }

    /// A child for each rest and value, in order. Whether its list may be too long is asked once, where there is one.
    fn start_timed(
        &self,
        timings: Timings<'_>,
        block: u32,
        at: Spot,
        run: &mut Run,
    ) -> Result<Value, NoMemory>
        ensures { (body : BlockMeaning) → body.number ≡ block → Comes (starts_timed timings.entry body (env_at self.now) at run.old.state) run.old.notes result run.new }
    {
        let mut left = timings;
        match left.next() {
            None => Ok(Value::Nil),
            Some(timing) => {
                if may_start(self.thread()) {
                    self.spawn_timed(timing, block, at, run)?;
                    return self.spawn_all_timed(left, block, at, run);
                }
                self.fail(FaultKind::TooNested, at, run)
            }
        }
    }

    /// A child for each rest and value that is left.
    fn spawn_all_timed(
        &self,
        timings: Timings<'_>,
        block: u32,
        at: Spot,
        run: &mut Run,
    ) -> Result<Value, NoMemory>
        requires { length self.now.start.now.place.thread < 32 }
        ensures { (body : BlockMeaning) → body.number ≡ block → Comes (spawns_timed timings.entry body (env_at self.now) at run.old.state) run.old.notes result run.new }
    {
        let mut left = timings;
        while let Some(timing) = left.next() {
            self.spawn_timed(timing, block, at, run)?;
        }
        Ok(Value::Nil)
    }

    /// A child that rests before its block, with a value.
    fn spawn_timed(
        &self,
        timing: (Delay, &Value),
        block: u32,
        at: Spot,
        run: &mut Run,
    ) -> Result<(), NoMemory>
        requires { length self.now.start.now.place.thread < 32 }
        ensures { OnOk result ((body : BlockMeaning) (go : State → Ran) → body.number ≡ block → Makes (spawns (Timed timing.entry.0 timing.entry.1.now at.line) (size_of timing.entry.1.now) body (env_at self.now) run.old.state go) run.old.notes (go run.new.state) run.new.notes) }
    {
        let (rest, value) = timing;
        let given = value.copy(self.alloc)?;
        let cost = spawn_cost(&run.state.locals, Some(value));
        let role = Role::Timed {
            rest,
            given,
            line: at.line(),
        };
        self.spawn(role, cost, block, run)
    }
}
