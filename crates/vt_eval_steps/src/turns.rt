//! What the calls that run a block do with it, turn by turn.

ghost use Rattle.std.specs.Prelude.{◌≡◌, ◌⊎◌, ◌∷◌, [], ◌<◌, ◌≤◌, ◌^◌, pos, IfOk, OnOk, Option, true};
ghost use Rattle.vt_run.specs.calls.EffectTable.{performed};
ghost use Rattle.vt_run.specs.calls.LoopCalls.{density_call, each_call, map_call, times_call};
ghost use Rattle.vt_run.specs.calls.SettingCalls.{with_bpm_call, with_fx_call, with_random_seed_call, with_synth_call};
ghost use Rattle.vt_run.specs.Environment.{Env};
ghost use Rattle.vt_run.specs.Evaluation.{Ran};
ghost use Rattle.vt_run.specs.Notes.{IsOver};
ghost use Rattle.vt_run.specs.Scopes.{BlockMeaning};
ghost use Rattle.vt_eval_steps.specs.Calls.{runs_block};
ghost use Rattle.vt_eval_steps.specs.Making.{Comes, Makes};
ghost use Rattle.vt_eval_steps.specs.Scenes.{env_at};
ghost use Rattle.vt_eval_steps.specs.private.Beginning.{TakesItem, TakesNumber, TakesTurn};
ghost use Rattle.vt_eval_steps.specs.Turns.{Begins, IsBegunBy, count_of, set_to, turn_ends, turns_left, turns_run};

use crate::run::Run;
use crate::scene::Scene;
use crate::spot::Spot;
use std::alloc::Global;
use std::mem;
use vt_effects::{a_seed, a_tempo, density_of};
use vt_event::FxId;
use vt_frac::{Name, NoMemory};
use vt_given::{Given, a_ring, a_symbol, a_whole};
use vt_rand::Stream;
use vt_run::Tempo;
use vt_table::CallName;
use vt_value::{FaultKind, Integer, Items, Value};

/// What is set back behind a block.
#[derive(Drop)]
pub enum Before {
    /// The synth.
    Synth(Name),
    /// The tempo.
    Bpm(Tempo),
    /// The random stream.
    Random(Stream),
    /// The effect.
    Effect(Option<FxId>),
}

/// What is left to do with the block of a call.
#[derive(Drop)]
pub enum Turns<'g> {
    /// It is run once, and then something is set back.
    Once {
        before: Before,
        begun: bool,
    },
    /// It is run in turns, at most one more than so many, or no further one.
    Loop {
        left: Option<u64>,
    },
    /// A turn for each number from `next` on and below `number`, which is the value.
    Times {
        next: u64,
        number: Integer,
    },
    /// A turn for each number from `next` on and below `end`, and then the tempo is set back.
    Density {
        next: u64,
        end: u32,
        bpm: Tempo,
    },
    /// A turn for each of these values; the value is the ring.
    Each {
        items: &'g [Value],
        ring: &'g [Value],
    },
    /// A turn for each of these values; the value is the ring of the values of all turns, of which these are the first.
    Map {
        items: &'g [Value],
        values: Items,
    },
}

impl<'t> Scene<'t> {
    /// What a call that runs its block does with it, or `None` where a fault has ended the thread.
    #[tactic(auto, unfolding(vt_run::specs::calls::EffectTable::performed))]
    pub fn turns<'g>(
        &self,
        which: CallName,
        given: &'g Given,
        at: Spot,
        run: &mut Run,
    ) -> Result<Option<Turns<'g>>, NoMemory>
        requires { runs_block which ≡ true }
        ensures { IfOk result (λ turns. IsBegunBy (performed which given.now) turns at (env_at self.now) run.old.state run.old.notes run.new.state run.new.notes) }
    {
        match which {
            CallName::Density => self.density(given, at, run),
            CallName::Each => self.each(given, at, run),
            CallName::Loop => Ok(Some(Turns::Loop {
                left: Some(self.left),
            })),
            CallName::Map => self.map(given, at, run),
            CallName::Times => self.times(given, at, run),
            CallName::WithBpm => self.with_bpm(given, at, run),
            CallName::WithFx => self.with_fx(given, at, run),
            CallName::WithRandomSeed => self.with_random_seed(given, at, run),
            CallName::WithSynth => self.with_synth(given, at, run),
            _ => unreachable!(),
        }
    }

    #[tactic(auto, unfolding(vt_run::specs::calls::LoopCalls::density_call))]
    fn density<'g>(
        &self,
        given: &'g Given,
        at: Spot,
        run: &mut Run,
    ) -> Result<Option<Turns<'g>>, NoMemory>
        ensures { IfOk result (λ turns. IsBegunBy (density_call given.now) turns at (env_at self.now) run.old.state run.old.notes run.new.state run.new.notes) }
    {
        match density_of(given, &run.state.settings.bpm) {
            Err(kind) => {
                self.fault(kind, at, run)?;
                Ok(None)
            }
            Ok(faster) => {
                let bpm = mem::replace(&mut run.state.settings.bpm, faster.1);
                Ok(Some(Turns::Density {
                    next: 0,
                    end: faster.0,
                    bpm,
                }))
            }
        }
    }

    #[tactic(auto, unfolding(vt_run::specs::calls::LoopCalls::each_call))]
    fn each<'g>(
        &self,
        given: &'g Given,
        at: Spot,
        run: &mut Run,
    ) -> Result<Option<Turns<'g>>, NoMemory>
        ensures { IfOk result (λ turns. IsBegunBy (each_call given.now) turns at (env_at self.now) run.old.state run.old.notes run.new.state run.new.notes) }
    {
        match a_ring(given.all_args()) {
            Err(kind) => {
                self.fault(kind, at, run)?;
                Ok(None)
            }
            Ok(items) => Ok(Some(Turns::Each { items, ring: items })),
        }
    }

    #[tactic(auto, unfolding(vt_run::specs::calls::LoopCalls::map_call))]
    fn map<'g>(
        &self,
        given: &'g Given,
        at: Spot,
        run: &mut Run,
    ) -> Result<Option<Turns<'g>>, NoMemory>
        ensures { IfOk result (λ turns. IsBegunBy (map_call given.now) turns at (env_at self.now) run.old.state run.old.notes run.new.state run.new.notes) }
    {
        match a_ring(given.all_args()) {
            Err(kind) => {
                self.fault(kind, at, run)?;
                Ok(None)
            }
            Ok(items) => Ok(Some(Turns::Map {
                items,
                values: Items::new(self.alloc),
            })),
        }
    }

    #[tactic(auto, unfolding(vt_run::specs::calls::LoopCalls::times_call))]
    fn times<'g>(
        &self,
        given: &'g Given,
        at: Spot,
        run: &mut Run,
    ) -> Result<Option<Turns<'g>>, NoMemory>
        ensures { IfOk result (λ turns. IsBegunBy (times_call given.now) turns at (env_at self.now) run.old.state run.old.notes run.new.state run.new.notes) }
    {
        match a_whole(given.all_args()) {
            Err(kind) => {
                self.fault(kind, at, run)?;
                Ok(None)
            }
            Ok(number) => Ok(Some(Turns::Times { next: 0, number })),
        }
    }

    #[tactic(auto, unfolding(vt_run::specs::calls::SettingCalls::with_bpm_call))]
    fn with_bpm<'g>(
        &self,
        given: &'g Given,
        at: Spot,
        run: &mut Run,
    ) -> Result<Option<Turns<'g>>, NoMemory>
        ensures { IfOk result (λ turns. IsBegunBy (with_bpm_call given.now) turns at (env_at self.now) run.old.state run.old.notes run.new.state run.new.notes) }
    {
        match a_tempo(given) {
            Err(kind) => {
                self.fault(kind, at, run)?;
                Ok(None)
            }
            Ok(bpm) => {
                let before = Before::Bpm(mem::replace(&mut run.state.settings.bpm, bpm));
                Ok(Some(Turns::Once {
                    before,
                    begun: false,
                }))
            }
        }
    }

    #[tactic(auto, unfolding(vt_run::specs::calls::SettingCalls::with_synth_call))]
    fn with_synth<'g>(
        &self,
        given: &'g Given,
        at: Spot,
        run: &mut Run,
    ) -> Result<Option<Turns<'g>>, NoMemory>
        ensures { IfOk result (λ turns. IsBegunBy (with_synth_call given.now) turns at (env_at self.now) run.old.state run.old.notes run.new.state run.new.notes) }
    {
        match a_symbol(given.all_args()) {
            Err(kind) => {
                self.fault(kind, at, run)?;
                Ok(None)
            }
            Ok(name) => {
                let synth = Name::of(self.alloc, name.as_bytes())?;
                let before = Before::Synth(mem::replace(&mut run.state.settings.synth, synth));
                Ok(Some(Turns::Once {
                    before,
                    begun: false,
                }))
            }
        }
    }

    #[tactic(auto, unfolding(vt_run::specs::calls::SettingCalls::with_random_seed_call))]
    fn with_random_seed<'g>(
        &self,
        given: &'g Given,
        at: Spot,
        run: &mut Run,
    ) -> Result<Option<Turns<'g>>, NoMemory>
        ensures { IfOk result (λ turns. IsBegunBy (with_random_seed_call given.now) turns at (env_at self.now) run.old.state run.old.notes run.new.state run.new.notes) }
    {
        match a_seed(given) {
            Err(kind) => {
                self.fault(kind, at, run)?;
                Ok(None)
            }
            Ok(seed) => {
                let stream = Stream::from_seed(seed);
                let before = Before::Random(mem::replace(&mut run.state.stream, stream));
                Ok(Some(Turns::Once {
                    before,
                    begun: false,
                }))
            }
        }
    }

    #[tactic(auto, unfolding(vt_run::specs::calls::SettingCalls::with_fx_call))]
    fn with_fx<'g>(
        &self,
        given: &'g Given,
        at: Spot,
        run: &mut Run,
    ) -> Result<Option<Turns<'g>>, NoMemory>
        ensures { IfOk result (λ turns. IsBegunBy (with_fx_call given.now) turns at (env_at self.now) run.old.state run.old.notes run.new.state run.new.notes) }
    {
        match a_symbol(given.all_args()) {
            Err(kind) => {
                self.fault(kind, at, run)?;
                Ok(None)
            }
            Ok(name) => {
                let fx = self.begin_fx(name, given.options(), run)?;
                let before = Before::Effect(fx);
                Ok(Some(Turns::Once {
                    before,
                    begun: false,
                }))
            }
        }
    }

    /// What is left behind a turn, by its value.
    pub fn end_turn(
        &self,
        turns: &mut Turns<'_>,
        value: Value,
        at: Spot,
        run: &mut Run,
    ) -> Result<(), NoMemory>
        ensures makes { OnOk result ((block : BlockMeaning) → Makes (turn_ends turns.old value block (env_at self.now) at run.old.state) run.old.notes (turns_run turns.new block (env_at self.now) at run.new.state) run.new.notes) }
        ensures left { OnOk result (turns_left turns.new ≡ turns_left turns.old) }
    {
        match turns {
            Turns::Loop { .. } => {
                if !run.state.moved {
                    self.fault(FaultKind::NoSleep, at, run)?;
                }
                Ok(())
            }
            Turns::Map { values, .. } => values.push(value),
            Turns::Once { .. } => Ok(()),
            Turns::Times { .. } => Ok(()),
            Turns::Density { .. } => Ok(()),
            Turns::Each { .. } => Ok(()),
        }
    }

    /// The value of a call, of whose turns none is left.
    pub fn finish_turns(&self, turns: Turns<'_>, at: Spot, run: &mut Run) -> Result<Value, NoMemory>
        requires { IsOver run.old.notes ⊎ (turns_left turns ≡ 0) }
        ensures { (block : BlockMeaning) → Comes (turns_run turns.entry block (env_at self.now) at run.old.state) run.old.notes result run.new }
    {
        match turns {
            Turns::Once { before, .. } => {
                set_back(before, run);
                Ok(Value::Nil)
            }
            Turns::Loop { .. } => {
                run.notes.finish();
                Ok(Value::Nil)
            }
            Turns::Times { number, .. } => Ok(Value::Whole(number)),
            Turns::Density { bpm, .. } => {
                run.state.settings.bpm = bpm;
                Ok(Value::Nil)
            }
            Turns::Each { ring, .. } => ring_of(self.alloc, ring),
            Turns::Map { values, .. } => self.or_fault(Value::of_items(values), at, run),
        }
    }
}

impl Turns<'_> {
    /// Begins the next turn, and gives the values for the parameters of its block. `None` where there is none, or where nothing
    /// more is noted.
    pub fn begin(&mut self, alloc: Global, run: &mut Run) -> Result<Option<Items>, NoMemory>
        ensures { IfOk result (λ values. Begins values self.old run.old.state run.old.notes self.new run.new.state run.new.notes) }
    {
        if run.notes.is_over() {
            return Ok(None);
        }
        match self {
            Turns::Once { begun, .. } => {
                if *begun {
                    return Ok(None);
                }
                *begun = true;
                Ok(Some(Items::new(alloc)))
            }
            Turns::Loop { left } => begin_turn(alloc, left, run),
            Turns::Times { next, number } => begin_number(alloc, next, count_of(*number), run),
            Turns::Density { next, end, .. } => begin_number(alloc, next, u64::from(*end), run),
            Turns::Each { items, .. } => begin_item(alloc, items, run),
            Turns::Map { items, .. } => begin_item(alloc, items, run),
        }
    }
}

/// Begins the next turn of a loop.
fn begin_turn(
    alloc: Global,
    left: &mut Option<u64>,
    run: &mut Run,
) -> Result<Option<Items>, NoMemory>
    ensures { IfOk result (λ values. TakesTurn values left.old run.old.state run.old.notes left.new run.new.state run.new.notes) }
{
    match *left {
        None => Ok(None),
        Some(more) => {
            *left = more.checked_sub(1);
            run.tick()?;
            run.state.moved = false;
            Ok(Some(Items::new(alloc)))
        }
    }
}

/// Begins the turn of the next number.
fn begin_number(
    alloc: Global,
    next: &mut u64,
    end: u64,
    run: &mut Run,
) -> Result<Option<Items>, NoMemory>
    requires { end ≤ 2 ^ 63 }
    ensures state { run.new.state ≡ run.old.state }
    ensures number { IfOk result (λ values. TakesNumber values next.old end run.old.notes next.new run.new.notes) }
{
    if *next >= end {
        return Ok(None);
    }
    let value = number_value(*next);
    *next += 1;
    run.tick()?;
    Ok(Some(one_value(alloc, value)?))
}

/// Begins the turn of the next item.
fn begin_item(alloc: Global, items: &mut &[Value], run: &mut Run) -> Result<Option<Items>, NoMemory>
    ensures state { run.new.state ≡ run.old.state }
    ensures item { IfOk result (λ values. TakesItem values items.old.now run.old.notes items.new.now run.new.notes) }
{
    match items.split_first() {
        None => Ok(None),
        Some((item, rest)) => {
            let value = item.copy(alloc)?;
            *items = rest;
            run.tick()?;
            Ok(Some(one_value(alloc, value)?))
        }
    }
}

/// One value.
fn one_value(alloc: Global, value: Value) -> Result<Items, NoMemory>
    ensures { IfOk result (λ items. items ≡ value ∷ []) }
{
    let mut items = Items::new(alloc);
    items.push(value)?;
    Ok(items)
}

/// Sets back what was before a block.
fn set_back(before: Before, run: &mut Run)
    ensures state { run.new.state ≡ set_to before run.old.state }
    ensures notes { run.new.notes ≡ run.old.notes }
{
    match before {
        Before::Synth(name) => run.state.settings.synth = name,
        Before::Bpm(bpm) => run.state.settings.bpm = bpm,
        Before::Random(stream) => run.state.stream = stream,
        Before::Effect(fx) => run.state.settings.fx = fx,
    }
}

/// How many turns a number makes: none where it is below 0.
fn count_of(number: Integer) -> u64
    ensures value { result ≡ count_of number }
    ensures small { result < 2 ^ 63 }
{
    let n = number.get();
    if n < 0 { 0 } else { n as u64 }
}

/// The value of the number of a turn.
fn number_value(number: u64) -> Value
    requires { number < 2 ^ 63 }
    ensures { result ≡ Value.Whole (pos number) }
{
    match Integer::new(number as i64) {
        Some(number) => Value::Whole(number),
        None => unreachable!(),
    }
}

/// The ring of copies of these values.
fn ring_of(alloc: Global, items: &[Value]) -> Result<Value, NoMemory>
    ensures { IfOk result (λ ring. ring ≡ Value.Ring items.now) }
{
    let mut copies = Items::new(alloc);
    for item in items {
        copies.push(item.copy(alloc)?)?;
    }
    Ok(Value::Ring(copies))
}
