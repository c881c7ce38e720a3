//! How threads are started.

ghost use Rattle.std.specs.Prelude.{◌≡◌, ◌≤◌, ◌<◌, ◌+◌, ℕ, nat_lt, IfOk, OnOk, length, Some, Option};
ghost use Rattle.std.specs.Option.{option_copied};
ghost use Rattle.vt_run.specs.Actions.{acted, place_of};
ghost use Rattle.vt_run.specs.Costs.{spawn_cost};
ghost use Rattle.vt_run.specs.Evaluation.{Ran, gives};
ghost use Rattle.vt_run.specs.Notes.{capped};
ghost use Rattle.vt_run.specs.Scopes.{BlockMeaning};
ghost use Rattle.vt_run.specs.calls.ThreadCalls.{child_of, is_alive, spawns, starts, unless_nested};
ghost use Rattle.vt_rand.specs.Draw.{after_draws};
ghost use Rattle.vt_run.specs.calls.SettingCalls.{with_stream};
ghost use Rattle.vt_run.specs.declared.state.State.{State};
ghost use Rattle.vt_eval_steps.specs.Making.{Comes, Makes};
ghost use Rattle.vt_eval_steps.specs.Scenes.{env_at};
ghost use Rattle.vt_eval_steps.specs.private.Beginning.{tells_start};

use crate::acting::act;
use crate::run::Run;
use crate::scene::Scene;
use crate::spot::Spot;
use vt_effects::{name_path, place_in, started_event};
use vt_event::{Kind, Place, ThreadId};
use vt_frac::NoMemory;
use vt_path::{Path, literal};
use vt_run::{Action, Answer, Role, Start};
use vt_value::{FaultKind, Value};

impl Scene<'_> {
    /// Starts a child that runs this block of the text. `cost` is that of its start.
    pub(crate) fn spawn(
        &self,
        role: Role,
        cost: u64,
        block: u32,
        run: &mut Run,
    ) -> Result<(), NoMemory>
        requires nested { length self.now.start.now.place.thread < 32 }
        requires costs { 1 ≤ cost }
        ensures { OnOk result ((handed : ℕ) (body : BlockMeaning) (go : State → Ran) → capped (spawn_cost run.old.state.locals handed) ≡ cost → body.number ≡ block → Makes (spawns role handed body (env_at self.now) run.old.state go) run.old.notes (go run.new.state) run.new.notes) }
    {
        if run.notes.is_over() {
            let_go(role);
            return Ok(());
        }
        match run.state.children.checked_add(1) {
            Some(number) => {
                let place = place_in(self.alloc, self.thread(), &run.state)?;
                let start = self.child(role, number, block, run)?;
                run.state.children = number;
                act(cost, Action::Spawn { place, start }, run)
            }
            None => {
                run.notes.count();
                run.notes.finish();
                let_go(role);
                Ok(())
            }
        }
    }

    /// How the child with this number starts. Two words are drawn for its seed.
    fn child(&self, role: Role, number: u32, block: u32, run: &mut Run) -> Result<Start, NoMemory>
        requires { length self.now.start.now.place.thread < 32 }
        ensures state { OnOk result (run.new.state ≡ with_stream (after_draws 2 run.old.state.stream) run.old.state) }
        ensures notes { run.new.notes ≡ run.old.notes }
        ensures start { IfOk result (λ start. (body : BlockMeaning) → body.number ≡ block → number ≡ run.old.state.children + 1 → start ≡ child_of role body (env_at self.now) run.old.state) }
    {
        let place = Place {
            time: run.state.time,
            micro: run.state.micro,
            thread: self.thread().child(self.alloc, number)?,
            step: 1,
        };
        let locals = run.state.locals.copy(self.alloc)?;
        let settings = run.state.settings.copy(self.alloc)?;
        Ok(Start {
            place,
            block: self.block_ref(block),
            locals,
            settings,
            seed: run.state.stream.child_seed(),
            role,
            until: self.start.until,
        })
    }

    /// A child of this role, and nil. One that has a name is started only where none of that name is alive.
    pub(crate) fn start(
        &self,
        role: Role,
        cost: u64,
        block: u32,
        at: Spot,
        run: &mut Run,
    ) -> Result<Value, NoMemory>
        requires { 1 ≤ cost }
        ensures { (handed : ℕ) (body : BlockMeaning) → capped (spawn_cost run.old.state.locals handed) ≡ cost → body.number ≡ block → Comes (starts role handed body (env_at self.now) at run.old.state) run.old.notes result run.new }
    {
        match name_path(self.alloc, &role)? {
            None => self.start_unless_nested(None, role, cost, block, at, run),
            Some(path) => {
                let pattern = literal(self.alloc, &path)?;
                match self.read(pattern, run)? {
                    None => Ok(Value::Nil),
                    Some(answer) => {
                        if is_alive(answer) {
                            return Ok(Value::Nil);
                        }
                        self.start_unless_nested(Some(path), role, cost, block, at, run)
                    }
                }
            }
        }
    }

    /// A child, whose start is told at the path of its name if it has one. A thread whose list is as long as it may be starts
    /// none.
    fn start_unless_nested(
        &self,
        path: Option<Path>,
        role: Role,
        cost: u64,
        block: u32,
        at: Spot,
        run: &mut Run,
    ) -> Result<Value, NoMemory>
        requires { 1 ≤ cost }
        ensures { (handed : ℕ) (body : BlockMeaning) → capped (spawn_cost run.old.state.locals handed) ≡ cost → body.number ≡ block → Comes (unless_nested (env_at self.now) at run.old.state (λ st. tells_start path (env_at self.now) st (λ st. spawns role handed body (env_at self.now) st (gives Value.Nil)))) run.old.notes result run.new }
    {
        if may_start(self.thread()) {
            self.tell_start(path, run)?;
            self.spawn(role, cost, block, run)?;
            return Ok(Value::Nil);
        }
        self.fail(FaultKind::TooNested, at, run)
    }

    /// The start of a thread is told at the path of its name, if it has one.
    fn tell_start(&self, path: Option<Path>, run: &mut Run) -> Result<(), NoMemory>
        ensures state { run.new.state ≡ record run.old.state { step = run.new.state.step } }
        ensures makes { OnOk result ((go : State → Ran) → Makes (tells_start path (env_at self.now) run.old.state go) run.old.notes (go run.new.state) run.new.notes) }
    {
        match path {
            None => Ok(()),
            Some(path) => {
                let event = started_event(self.alloc, self.thread(), path, &run.state)?;
                self.emit(event, run)
            }
        }
    }
}

/// Whether a thread may start another: its list is not as long as it may be.
pub(crate) fn may_start(thread: &ThreadId) -> bool
    ensures { result ≡ nat_lt (length thread.now) 32 }
{
    thread.numbers().len() < 32
}

/// Drops a role.
fn let_go(_role: Role) {}

/// Whether the last that is known of a name is that its thread started.
fn is_alive(answer: &Answer) -> bool
    ensures { result ≡ is_alive answer.now }
{
    match answer {
        Answer::Nothing => false,
        Answer::Found(event) => matches!(event.kind(), Kind::Started),
    }
}
