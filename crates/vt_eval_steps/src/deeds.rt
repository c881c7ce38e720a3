//! The calls that run no block of the text.

ghost use Rattle.std.specs.Prelude.{◌≡◌, Ok, IfOk, OnOk, Result, false};
ghost use Rattle.std.specs.Option.{option_copied};
ghost use Rattle.vt_ring.specs.CallTable.{IsPureOrRandom};
ghost use Rattle.vt_table.specs.Calls.{number_of};
ghost use Rattle.vt_run.specs.calls.Deeds.{Deed, done, value_of};
ghost use Rattle.vt_run.specs.calls.EffectTable.{computed, performed};
ghost use Rattle.vt_run.specs.declared.state.State.{State};
ghost use Rattle.vt_value.specs.declared.fault.FaultKind.{FaultKind};
ghost use Rattle.vt_run.specs.Actions.{emits, place_of};
ghost use Rattle.vt_run.specs.Evaluation.{gives};
ghost use Rattle.vt_effects.specs.Results.{Changes, MayPublish, at_place, place_in};
ghost use Rattle.vt_eval_steps.specs.Calls.{runs_block};
ghost use Rattle.vt_eval_steps.specs.Lists.{block_given};
ghost use Rattle.vt_eval_steps.specs.Making.{Comes};
ghost use Rattle.vt_eval_steps.specs.Scenes.{env_at};

use crate::run::Run;
use crate::scene::Scene;
use crate::spot::Spot;
use vt_effects::{
    computed, cue, current_bpm, look, puts, rt, sample, set, synth, tick, tick_reset, tick_set,
    use_bpm, use_debug, use_random_seed, use_synth, use_synth_defaults, vt,
};
use vt_event::Event;
use vt_frac::NoMemory;
use vt_given::Given;
use vt_run::EndReason;
use vt_table::CallName;
use vt_tree::Block;
use vt_value::{FaultKind, Value, ValueFault};

impl Scene<'_> {
    /// What a call has changed, with its value; or its fault, which has changed nothing.
    fn changed(
        &self,
        answer: Result<Value, ValueFault>,
        at: Spot,
        run: &mut Run,
    ) -> Result<Value, NoMemory>
        ensures { (deed : Result Deed FaultKind) (before : State) → Changes deed before answer run.old.state → Comes (done deed (env_at self.now) at before) run.old.notes result run.new }
    {
        match answer {
            Ok(value) => Ok(value),
            Err(fault) => self.fail_by(fault, at, run),
        }
    }

    /// The value of a call that changes nothing, or its fault.
    fn valued(
        &self,
        answer: Result<Value, FaultKind>,
        at: Spot,
        run: &mut Run,
    ) -> Result<Value, NoMemory>
        ensures { (deed : Result Deed FaultKind) → value_of run.old.state answer ≡ deed → Comes (done deed (env_at self.now) at run.old.state) run.old.notes result run.new }
    {
        match answer {
            Ok(value) => Ok(value),
            Err(kind) => self.fail(kind, at, run),
        }
    }

    /// The event of a call is published; or its fault ends the thread.
    fn published(
        &self,
        answer: Result<Event, ValueFault>,
        at: Spot,
        run: &mut Run,
    ) -> Result<Value, NoMemory>
        requires { IfOk answer (λ event. event.place ≡ place_in self.now.start.now.place.thread run.old.state) }
        ensures { (deed : Result Deed FaultKind) → MayPublish deed self.now.start.now.place.thread run.old.state answer → Comes (done deed (env_at self.now) at run.old.state) run.old.notes result run.new }
    {
        match answer {
            Ok(event) => self.publish(event, run),
            Err(fault) => self.fail_by(fault, at, run),
        }
    }

    /// An event is published where the thread stands, and nil is given.
    fn publish(&self, event: Event, run: &mut Run) -> Result<Value, NoMemory>
        requires { event.place ≡ place_of (env_at self.now) run.old.state }
        ensures { Comes (emits (at_place event) (env_at self.now) run.old.state (gives Value.Nil)) run.old.notes result run.new }
    {
        self.emit(event, run)?;
        Ok(Value::Nil)
    }

    /// A pure or random call.
    pub fn compute(
        &self,
        which: CallName,
        given: &Given,
        at: Spot,
        run: &mut Run,
    ) -> Result<Value, NoMemory>
        requires { IsPureOrRandom (number_of which) }
        ensures { Comes (done (computed which given.now run.old.state) (env_at self.now) at run.old.state) run.old.notes result run.new }
    {
        let answer = computed(self.alloc, which, given, &mut run.state);
        self.changed(answer, at, run)
    }

    /// A call that runs no block of the text, one arm for each call with an effect.
    #[tactic(auto, unfolding(vt_run::specs::calls::EffectTable::performed))]
    pub fn perform(
        &self,
        which: CallName,
        given: &Given,
        block: Option<&Block>,
        at: Spot,
        run: &mut Run,
    ) -> Result<Value, NoMemory>
        requires { runs_block which ≡ false }
        ensures { Comes (performed which given.now (block_given (option_copied block.entry)) (env_at self.now) at run.old.state) run.old.notes result run.new }
    {
        let alloc = self.alloc;
        let thread = self.thread();
        match which {
            CallName::At => self.at_call(given, block, at, run),
            CallName::Cue => self.published(cue(alloc, thread, given, &run.state), at, run),
            CallName::CurrentBpm => Ok(current_bpm(&run.state)),
            CallName::Define => self.define_call(given, block, at, run),
            CallName::Get => self.get_call(given, at, run),
            CallName::InThread => self.in_thread_call(given, block, at, run),
            CallName::LiveLoop => self.live_loop_call(given, block, at, run),
            CallName::Look => self.changed(look(alloc, given, &run.state), at, run),
            CallName::Play => self.play_call(given, at, run),
            CallName::PlayPattern => self.play_pattern_call(given, at, run),
            CallName::PlayPatternTimed => self.play_pattern_timed_call(given, at, run),
            CallName::Print => self.published(puts(alloc, thread, given, &run.state), at, run),
            CallName::Puts => self.published(puts(alloc, thread, given, &run.state), at, run),
            CallName::Rt => self.valued(rt(given, &run.state), at, run),
            CallName::Sample => self.published(sample(alloc, thread, given, &run.state), at, run),
            CallName::Set => self.published(set(alloc, thread, given, &run.state), at, run),
            CallName::Sleep => self.sleep_call(given, at, run),
            CallName::Stop => {
                self.end(EndReason::Stopped, run)?;
                Ok(Value::Nil)
            }
            CallName::Sync => self.sync_call(given, at, run),
            CallName::Synth => self.published(synth(alloc, thread, given, &run.state), at, run),
            CallName::Tick => self.changed(tick(alloc, given, &mut run.state), at, run),
            CallName::TickReset => self.changed(tick_reset(alloc, given, &mut run.state), at, run),
            CallName::TickSet => self.changed(tick_set(alloc, given, &mut run.state), at, run),
            CallName::UseBpm => self.changed(use_bpm(given, &mut run.state), at, run),
            CallName::UseDebug => self.valued(use_debug(given), at, run),
            CallName::UseRandomSeed => self.changed(
                use_random_seed(given, &mut run.state),
                at,
                run,
            ),
            CallName::UseSynth => self.changed(use_synth(alloc, given, &mut run.state), at, run),
            CallName::UseSynthDefaults => self.changed(
                use_synth_defaults(alloc, given, &mut run.state),
                at,
                run,
            ),
            CallName::Vt => Ok(vt(&run.state)),
            CallName::Wait => self.sleep_call(given, at, run),
            _ => self.compute(which, given, at, run),
        }
    }
}

/// Whether a call runs its block where it stands.
pub fn runs_block(which: CallName) -> bool
    ensures { result ≡ runs_block which }
{
    match which {
        CallName::Density => true,
        CallName::Each => true,
        CallName::Loop => true,
        CallName::Map => true,
        CallName::Times => true,
        CallName::WithBpm => true,
        CallName::WithFx => true,
        CallName::WithRandomSeed => true,
        CallName::WithSynth => true,
        _ => false,
    }
}
