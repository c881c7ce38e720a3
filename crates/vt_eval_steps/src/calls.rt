//! Calls of functions: how a definition is read, and what a read finds.

ghost use Rattle.std.specs.Prelude.{◌≡◌, ◌+◌, ℕ, IfOk, IfSome, MatchOption, Some, None, IsTrue};
ghost use Rattle.std.specs.Option.{option_copied};
ghost use Rattle.vt_event.specs.Order.{place_order};
ghost use Rattle.vt_frac.specs.Names.{IsName};
ghost use Rattle.vt_path.specs.Inner.{inner_of};
ghost use Rattle.vt_path.specs.Match.{literal_of};
ghost use Rattle.vt_path.specs.declared.inner_path.InnerKind.TheVariants as inner_kind;
ghost use Rattle.vt_run.specs.Actions.{reads};
ghost use Rattle.vt_run.specs.Threads.{block_of, called, env_of};
ghost use Rattle.vt_run.specs.calls.FunctionCalls.{body_found, is_none_given, takes_given};
ghost use Rattle.vt_run.proofs.facts.BlocksOfTexts.{IsFitBlock};
ghost use Rattle.vt_run.specs.calls.LiveLoops.{is_stopped};
ghost use Rattle.vt_value.specs.Comparison.{holds};
ghost use Rattle.vt_value.specs.declared.comparison.OrderOp.TheVariants.{Gt};
ghost use Rattle.vt_eval_steps.specs.Calls.{found_within};
ghost use Rattle.vt_eval_steps.specs.declared.scene.Scene.{Scene};
ghost use Rattle.vt_eval_steps.specs.Making.{ComesOn};
ghost use Rattle.vt_eval_steps.specs.Scenes.{env_at};

use crate::run::Run;
use crate::scene::{Scene, block_at};
use std::alloc::Global;
use std::cmp::Ordering;
use vt_event::{Locals, Place};
use vt_frac::{Name, NoMemory};
use vt_given::Given;
use vt_path::{InnerKind, Pattern, inner, literal};
use vt_run::Answer;
use vt_tree::Block;

/// A block that a read found, with the locals that were copied with it.
#[derive(Clone, Copy)]
pub struct Found<'t> {
    /// The block.
    pub block: &'t Block,
    /// The number of its text.
    pub text: u32,
    /// The locals.
    pub locals: &'t Locals,
    /// The line of the event that told of it.
    pub line: u32,
}

impl<'t> Scene<'t> {
    /// Reads the definition of a function.
    pub fn read_function(&self, name: &Name, run: &mut Run) -> Result<Option<&'t Answer>, NoMemory>
        requires { IsName name.now }
        ensures { IfOk result (λ answer. ComesOn (option_copied answer) (reads (literal_of (inner_of inner_kind.Def name.now)) (env_at self.now) run.old.state) run.old.notes run.new.state run.new.notes) }
    {
        let pattern = function_pattern(self.alloc, name)?;
        self.read(pattern, run)
    }

    /// What a read of a body or a function found: nothing, where it is answered by nothing or by an event without a block of
    /// these texts.
    pub fn found(&self, answer: &'t Answer) -> Option<Found<'t>>
        ensures found { MatchOption result ((n : ℕ) → body_found (env_of self.now.start.now self.now.text self.now.answers.now (self.now.left + 1) (called self.now.texts.now self.now.start.now self.now.answers.now n)) answer.now ≡ None) (λ found. (n : ℕ) → body_found (env_of self.now.start.now self.now.text self.now.answers.now (self.now.left + 1) (called self.now.texts.now self.now.start.now self.now.answers.now n)) answer.now ≡ Some (found_within self.now found n)) }
        ensures fit { IfSome result (λ found. IsFitBlock self.now.texts.now found.text found.block.now) }
        ensures there { IfSome result (λ found. (number : ℕ) × (block_of self.now.texts.now (record { text = found.text; block = number }) ≡ Some found.block.now)) }
    {
        let Answer::Found(event) = answer else {
            return None;
        };
        let (block, locals) = event.body()?;
        Some(Found {
            block: block_at(self.texts, *block)?,
            text: block.text,
            locals,
            line: event.line(),
        })
    }
}

impl Found<'_> {
    /// Whether it takes these arguments: as many as it has parameters, and no option.
    pub fn takes(&self, given: &Given) -> bool
        ensures { (scene : Scene) (n : ℕ) → result ≡ takes_given (found_within scene self.now n) given.now }
    {
        given.all_args().len() == self.block.params.len() && given.options().as_slice().is_empty()
    }
}

/// The pattern of the definition of this name alone.
fn function_pattern(alloc: Global, name: &Name) -> Result<Pattern, NoMemory>
    requires { IsName name.now }
    ensures { IfOk result (λ pattern. pattern ≡ literal_of (inner_of inner_kind.Def name.now)) }
{
    let path = inner(alloc, InnerKind::Def, name.as_bytes())?;
    literal(alloc, &path)
}

/// Whether the last stop that was told stands above the place at which the thread started.
pub fn is_stopped(start: &Place, answer: &Answer) -> bool
    ensures { result ≡ is_stopped start.now answer.now }
{
    match answer {
        Answer::Nothing => false,
        Answer::Found(event) => is_above(event.place(), start),
    }
}

/// Whether a place stands above another.
fn is_above(place: &Place, start: &Place) -> bool
    ensures { result ≡ holds Gt (place_order place.now start.now) }
{
    match place.cmp(start) {
        Ordering::Less => false,
        Ordering::Equal => false,
        Ordering::Greater => true,
    }
}
