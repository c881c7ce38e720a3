//! A runner: it gives the actions of one thread, a piece at a time.

ghost use Rattle.std.specs.Prelude.{◌≡◌, ◌≤◌, ◌<◌, ◌+◌, ◌^◌, [], ◌++◌, None, Some, false, true, IfOk, IsSome, OnErr};
ghost use Rattle.vt_event.specs.Order.{place_of};
ghost use Rattle.vt_run.specs.declared.texts.Texts.{Texts};
ghost use Rattle.vt_run.specs.Pieces.{GoesOn, HasNextPlace, MayBeAnswer, given};
ghost use Rattle.vt_run.specs.Progress.{IsPieceBetween, Progress, done_steps, next_place_of, place_with};
ghost use Rattle.vt_run.specs.Threads.{block_of};

use crate::{Answer, Piece, Start, Texts};
use std::alloc::Global;
use vt_event::PlaceRef;
use vt_frac::NoMemory;

/// Gives the actions of one thread, a piece at a time: its meaning by the definitions, cut at each stop.
pub trait Runner: Sized + Drop + Send {
    /// How far it has come: how the thread started, the answers given so far, how many evaluation steps are done, the stop of
    /// the last piece, if there was one, and whether it has failed for want of memory.
    ghost progress_of: { Self → Progress };

    /// Whether it stands for these texts.
    ghost Stands: { Self → Texts → Type 0 };

    /// A runner that has done nothing. It stands for all texts.
    fn begin(alloc: Global, start: Start) -> Result<Self, NoMemory>
        requires first { start.place.step ≡ 1 }
        requires micro { start.place.micro < 2 ^ 31 }
        ensures start { IfOk result (λ runner. (progress_of runner).start ≡ start) }
        ensures answers { IfOk result (λ runner. (progress_of runner).answers ≡ []) }
        ensures done { IfOk result (λ runner. (progress_of runner).done ≡ 0) }
        ensures last { IfOk result (λ runner. (progress_of runner).last ≡ None) }
        ensures fresh { IfOk result (λ runner. (progress_of runner).failed ≡ false) }
        ensures stands { IfOk result (λ runner. (texts : Texts) → Stands runner texts) };

    /// The next piece of the thread, with the answer that it asked for: the fewest next steps that reach an ask, the end,
    /// a rest to the horizon, or the limit of cost. After want of memory nothing more is done, the answer is not among those
    /// given, and every later call fails.
    fn next(
        &mut self,
        alloc: Global,
        texts: &Texts,
        answer: Option<Answer>,
        limit: u64,
    ) -> Result<Piece, NoMemory>
        requires stands { Stands self.old texts.now }
        requires block { IsSome (block_of texts.now (progress_of self.old).start.block) }
        requires goes_on { GoesOn (progress_of self.old).last answer }
        requires answer { MayBeAnswer (done_steps texts.now (progress_of self.old)) answer }
        requires step { (place_with answer texts.now (progress_of self.old)).step < 2 ^ 31 }
        requires few { (progress_of self.old).done < 2 ^ 63 }
        requires least { 1 ≤ limit }
        requires most { limit ≤ 4096 }
        ensures piece { IfOk result (λ piece. IsPieceBetween texts.now (progress_of self.old) (progress_of self.new) limit piece) }
        ensures start { (progress_of self.new).start ≡ (progress_of self.old).start }
        ensures answers { IfOk result (λ _. (progress_of self.new).answers ≡ (progress_of self.old).answers ++ given answer) }
        ensures last { IfOk result (λ piece. (progress_of self.new).last ≡ Some piece.stop) }
        ensures grown { IfOk result (λ _. (progress_of self.new).done ≤ (progress_of self.old).done + 4096) }
        ensures stands { Stands self.new texts.now }
        ensures good { IfOk result (λ _. ((progress_of self.old).failed ≡ false) × ((progress_of self.new).failed ≡ false)) }
        ensures failed { OnErr result ((progress_of self.new).failed ≡ true) }
        ensures same_answers { OnErr result ((progress_of self.new).answers ≡ (progress_of self.old).answers) }
        ensures same_steps { OnErr result ((progress_of self.new).done ≡ (progress_of self.old).done) }
        ensures same_stop { OnErr result ((progress_of self.new).last ≡ (progress_of self.old).last) };

    /// The place of the next action.
    fn place(&self) -> PlaceRef<'_>
        requires good { (progress_of self.now).failed ≡ false }
        requires there { HasNextPlace ((progress_of self.now).last) }
        ensures { (texts : Texts) → Stands self.now texts → place_of result ≡ next_place_of texts (progress_of self.now) };
}
