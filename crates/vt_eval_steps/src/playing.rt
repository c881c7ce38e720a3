//! The calls that play notes: `play`, `play_pattern` and `play_pattern_timed`.

ghost use Rattle.std.specs.Prelude.{◌≡◌, List, map, OnOk};
ghost use Rattle.vt_run.specs.Actions.{emits_all};
ghost use Rattle.vt_run.specs.Evaluation.{Ran, gives};
ghost use Rattle.vt_run.specs.calls.Deeds.{done};
ghost use Rattle.vt_run.specs.calls.PatternCalls.{Item, plays_items, play_pattern_call, play_pattern_timed_call};
ghost use Rattle.vt_run.specs.calls.PlayCalls.{play_call, plays_note};
ghost use Rattle.vt_run.specs.declared.state.State.{State};
ghost use Rattle.vt_given.specs.Patterns.{sounding_item};
ghost use Rattle.vt_eval_steps.specs.Items.{plays_item};
ghost use Rattle.vt_eval_steps.specs.Making.{Comes, Makes};
ghost use Rattle.vt_eval_steps.specs.Scenes.{env_at};

use crate::run::Run;
use crate::scene::Scene;
use crate::spot::Spot;
use vt_effects::{note_event, play, rest_of};
use vt_event::Options;
use vt_frac::{Frac, NoMemory};
use vt_given::{Given, Note, Notes, PatternItems, even_items, timed_items};
use vt_value::Value;

impl Scene<'_> {
    /// Plays notes one after another, each where the thread then stands.
    fn play_notes(&self, notes: &[Note], options: &Options, run: &mut Run) -> Result<(), NoMemory>
        ensures { OnOk result ((go : State → Ran) → Makes (emits_all (map (plays_note options.now run.old.state.settings) notes.now) (env_at self.now) run.old.state go) run.old.notes (go run.new.state) run.new.notes) }
    {
        let mut left = notes;
        while let Some((note, rest)) = left.split_first() {
            let event = note_event(self.alloc, self.thread(), options, note, &run.state)?;
            self.emit(event, run)?;
            left = rest;
        }
        Ok(())
    }

    /// `play V`, with any options.
    pub(crate) fn play_call(
        &self,
        given: &Given,
        at: Spot,
        run: &mut Run,
    ) -> Result<Value, NoMemory>
        ensures { Comes (done (play_call given.now run.old.state) (env_at self.now) at run.old.state) run.old.notes result run.new }
    {
        match play(self.alloc, given) {
            Ok(notes) => {
                self.play_notes(notes.as_slice(), given.options(), run)?;
                Ok(Value::Nil)
            }
            Err(fault) => self.fail_by(fault, at, run),
        }
    }

    /// The items of a pattern one after another, each played and followed by its rest. Past a stop nothing more is done.
    fn play_items(
        &self,
        items: PatternItems<'_>,
        options: &Options,
        at: Spot,
        run: &mut Run,
    ) -> Result<Value, NoMemory>
        ensures { (all : List Item) → map sounding_item all ≡ items.entry → Comes (plays_items all options.now (env_at self.now) at run.old.state) run.old.notes result run.new }
    {
        let mut left = items;
        while let Some((notes, beats)) = left.next(self.alloc)? {
            if run.notes.is_over() {
                return Ok(Value::Nil);
            }
            self.play_item(&notes, beats, options, at, run)?;
        }
        Ok(Value::Nil)
    }

    /// One item of a pattern: its step, its notes, and its rest.
    fn play_item(
        &self,
        notes: &Notes,
        beats: Frac,
        options: &Options,
        at: Spot,
        run: &mut Run,
    ) -> Result<Value, NoMemory>
        ensures { (item : Item) → sounding_item item ≡ (notes.now, beats) → Comes (plays_item item options.now (env_at self.now) at run.old.state) run.old.notes result run.new }
    {
        run.tick()?;
        self.play_notes(notes.as_slice(), options, run)?;
        match rest_of(&run.state, beats) {
            Ok(seconds) => self.rest(seconds, run),
            Err(kind) => self.fail(kind, at, run),
        }
    }

    /// `play_pattern r`, with any options.
    #[tactic(auto, unfolding(vt_run::specs::calls::PatternCalls::play_pattern_call))]
    pub(crate) fn play_pattern_call(
        &self,
        given: &Given,
        at: Spot,
        run: &mut Run,
    ) -> Result<Value, NoMemory>
        ensures { Comes (play_pattern_call given.now (env_at self.now) at run.old.state) run.old.notes result run.new }
    {
        match even_items(given) {
            Ok(items) => self.play_items(items, given.options(), at, run),
            Err(kind) => self.fail(kind, at, run),
        }
    }

    /// `play_pattern_timed r, V`, with any options.
    #[tactic(auto, unfolding(vt_run::specs::calls::PatternCalls::play_pattern_timed_call))]
    pub(crate) fn play_pattern_timed_call(
        &self,
        given: &Given,
        at: Spot,
        run: &mut Run,
    ) -> Result<Value, NoMemory>
        ensures { Comes (play_pattern_timed_call given.now (env_at self.now) at run.old.state) run.old.notes result run.new }
    {
        match timed_items(given) {
            Ok(items) => self.play_items(items, given.options(), at, run),
            Err(kind) => self.fail(kind, at, run),
        }
    }
}
