//! The texts of a session, each with its verdict.

ghost use Rattle.std.specs.Prelude.{◌≡◌, [], ◌∷◌, ◌++◌, OnErr, OnOk};
ghost use Rattle.vt_run.specs.private.Verdicts.{IsVerdictChecked};

use std::alloc::Global;
use std::marker::Model;
use vt_check::Checked;
use vt_frac::{Frac, NoMemory};
use vt_value::FaultKind;

/// What a text is found to be.
#[derive(Drop)]
pub enum Verdict {
    /// It is read, and the checks allow it.
    Good(Checked),
    /// It is refused: `Lex`, `Syntax` or `Check`, with the line of its first fault.
    Bad { kind: FaultKind, line: u32 },
}

/// The texts of a session in order, each with the time at which it starts, in seconds, and its verdict. Text number k is
/// the k-th, from 1.
#[derive(Drop)]
pub struct Texts {
    items: Vec<(Frac, Verdict)>,
}

impl Model for Texts {
    ghost use Rattle.std.specs.Prelude.{List};
    ghost use Rattle.std.specs.Coded.{codes};
    ghost use Rattle.vt_frac.specs.Fraction.{Fraction};
    ghost use Rattle.vt_run.specs.declared.texts.Verdict.{Verdict};
    ghost use Rattle.vt_tree.specs.contracts.statement.Block as any_block;

    ghost Value = { List (Fraction × Verdict) };

    ghost coded = { Prim.hlevel (codes, any_block.the_row.coded) };

    ghost use Rattle.vt_run.specs.Limits.{AreChecked};

    ghost view = { λ texts. texts.items.items };

    ghost invariant = { λ texts. AreChecked texts.items.items };
}

impl Texts {
    ghost use Rattle.vt_run.specs.Limits.{AreChecked};

    /// No texts.
    pub fn new(alloc: Global) -> Texts
        ensures { result ≡ [] }
    {
        Texts {
            items: Vec::new(alloc),
        }
    }

    /// Adds a text at the end. It fails only for want of memory.
    pub fn push(&mut self, time: Frac, verdict: Verdict) -> Result<(), NoMemory>
        ensures ok { OnOk result (self.new ≡ self.old ++ (time, verdict) ∷ []) }
        ensures err { OnErr result (self.new ≡ self.old) }
    {
        keep_checked(&verdict);
        self.items.push((time, verdict))?;
        Ok(())
    }

    /// The texts in order.
    pub fn as_slice(&self) -> &[(Frac, Verdict)]
        ensures value { result.now ≡ self.now }
        ensures checked { AreChecked self.now }
    {
        self.items.as_slice()
    }
}

/// What the type of a checked tree keeps, told of a verdict. It does nothing.
fn keep_checked(verdict: &Verdict)
    ensures { IsVerdictChecked verdict.now }
{
    match verdict {
        Verdict::Good(tree) => {
            tree.block(0);
        }
        Verdict::Bad { .. } => {}
    }
}
