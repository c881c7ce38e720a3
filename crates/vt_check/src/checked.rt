//! Trees that passed the checks, and their blocks.

ghost use Rattle.std.specs.Prelude.{◌≡◌, option_copied, IfErr, IfOk, IfSome, OnOk};
ghost use Rattle.vt_tree.specs.WellFormed.{IsWellFormed};
ghost use Rattle.vt_check.specs.Checked.{IsCause};
ghost use Rattle.vt_check.specs.Allowed.{IsAllowed};

use crate::context::Context;
use crate::fault::CheckFault;
use crate::find::find_block;
use crate::walk::check_block;
use std::alloc::Global;
use std::marker::Model;
use vt_tree::Block;

/// The tree of a text that the checks allow. Contracts see it as that tree.
#[derive(Debug, Drop)]
pub struct Checked {
    tree: Block,
}

impl Model for Checked {
    ghost use Rattle.vt_tree.specs.declared.statement.Block.{Block};
    ghost use Rattle.vt_tree.specs.contracts.statement.Block as block_contracts;
    ghost use Rattle.std.specs.Coded.{codes};

    ghost Value = { Block };

    ghost coded = { Prim.hlevel (codes, block_contracts.the_row.coded) };

    ghost use Rattle.vt_check.specs.Checked.{IsChecked};

    ghost view = { λ checked. checked.tree };

    ghost invariant = { λ checked. IsChecked checked.tree };
}

impl Checked {
    ghost use Rattle.vt_tree.specs.declared.statement.Block.{out-Block};
    ghost use Rattle.vt_check.specs.Checked.{block_at, IsChecked, IsSoundBlock};

    /// The block of this number; the text itself is block 0. None exactly where the text has no block of that number.
    pub fn block(&self, number: u32) -> Option<&Block>
        ensures block { option_copied result ≡ block_at self.now number }
        ensures number { IfSome result (λ block. (out-Block block.now).number ≡ number) }
        ensures sound { IfSome result (λ block. IsSoundBlock block.now) }
        ensures kept { IsChecked self.now }
    {
        find_block(&self.tree, number)
    }
}

/// The tree, if no check refuses it; else the first fault in the order of the tokens, and at one call in the order of
/// `CheckKind`, with the line of the innermost statement that the call stands in. With a fault the tree is dropped.
pub fn check(alloc: Global, block: Block) -> Result<Checked, CheckFault>
    requires { IsWellFormed block }
    ensures same { IfOk result (λ checked. checked ≡ block) }
    ensures allowed { OnOk result (IsAllowed block) }
    ensures refused { IfErr result (IsCause block) }
{
    check_block(alloc, &block, Context::of_text())?;
    Ok(Checked { tree: block })
}
