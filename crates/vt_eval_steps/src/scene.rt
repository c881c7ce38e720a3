//! What stays the same while a block is evaluated.

ghost use Rattle.std.specs.Prelude.{◌≡◌, ◌≤◌, ◌-◌, IfSome, option_and_then};
ghost use Rattle.std.specs.Option.{option_copied};
ghost use Rattle.vt_check.specs.Checked.{block_at as checked_block};
ghost use Rattle.vt_run.specs.Threads.{block_of, tree_of};
ghost use Rattle.vt_run.proofs.facts.BlocksOfTexts.{IsFitBlock};

use std::alloc::Global;
use vt_event::{BlockRef, ThreadId};
use vt_frac::Frac;
use vt_run::{Answer, Start, Texts, Verdict};
use vt_tree::Block;

/// What stays the same while a block is evaluated.
#[derive(Clone, Copy)]
pub struct Scene<'t> {
    /// Where memory comes from.
    pub alloc: Global,
    /// The texts of the session.
    pub texts: &'t Texts,
    /// How the thread started.
    pub start: &'t Start,
    /// The answers of its reads and waits, in order.
    pub answers: &'t [Answer],
    /// The number of the text in which the block stands.
    pub text: u32,
    /// How many calls may still stand within one another. It is never used up before the piece ends.
    pub left: u64,
}

impl<'t> Scene<'t> {
    /// The same in another text.
    pub fn in_text(&self, text: u32) -> Scene<'t>
        ensures { result ≡ record self.now { text = text } }
    {
        Scene {
            alloc: self.alloc,
            texts: self.texts,
            start: self.start,
            answers: self.answers,
            text,
            left: self.left,
        }
    }

    /// The same for a block of another text that is called here: one call less may stand within it.
    pub fn called(&self, text: u32) -> Scene<'t>
        requires { 1 ≤ self.now.left }
        ensures { result ≡ record self.now { text = text; left = self.now.left - 1 } }
    {
        Scene {
            alloc: self.alloc,
            texts: self.texts,
            start: self.start,
            answers: self.answers,
            text,
            left: self.left - 1,
        }
    }

    /// The thread.
    pub fn thread(&self) -> &ThreadId
        ensures { result.now ≡ self.now.start.now.place.thread }
    {
        &self.start.place.thread
    }

    /// A block of this text.
    pub fn block_ref(&self, number: u32) -> BlockRef
        ensures { result ≡ record { text = self.now.text; block = number } }
    {
        BlockRef {
            text: self.text,
            block: number,
        }
    }
}

/// A block of the texts, if there is one.
pub fn block_at(texts: &Texts, block: BlockRef) -> Option<&Block>
    ensures block { option_copied result ≡ block_of texts.now block }
    ensures fit { IfSome result (λ found. IsFitBlock texts.now block.text found.now) }
{
    block_among(texts.as_slice(), block)
}

/// A block of these texts, if there is one.
fn block_among(texts: &[(Frac, Verdict)], block: BlockRef) -> Option<&Block>
    ensures { option_copied result ≡ block_of texts.now block }
{
    if block.text == 0 {
        return None;
    }
    match texts.get(block.text as usize - 1) {
        None => None,
        Some(text) => block_in(&text.1, block.block),
    }
}

/// A block of a text, where it is not refused.
fn block_in(verdict: &Verdict, number: u32) -> Option<&Block>
    ensures block { option_copied result ≡ option_and_then (λ tree. checked_block tree number) (tree_of verdict.now) }
{
    match verdict {
        Verdict::Good(tree) => tree.block(number),
        Verdict::Bad { .. } => None,
    }
}
