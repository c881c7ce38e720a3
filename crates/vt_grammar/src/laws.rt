//! What a text means is one thing: the laws of the relation between tokens and trees.
ghost use Rattle.vt_grammar.specs.Formed.{AreFormedWhereLexed, IsFormedWhereRead};
ghost use Rattle.vt_grammar.specs.Order.{IsInOrder};
ghost use Rattle.vt_grammar.specs.Text.{PrefixesBegin, ReadBegins, IsReadOnce, NeverBoth, IsRefusedOnce};
ghost use Rattle.vt_grammar.specs.Verdict.{AlwaysOne, IsLineWhereRefused, IsTreeWhereRead};

/// A prefix of tokens that begin a text begins a text.
pub fn prefix_law()
    ensures { PrefixesBegin }
{}

/// Tokens that are read begin a text.
pub fn whole_law()
    ensures { ReadBegins }
{}

/// No tokens are read as two trees.
pub fn single_law()
    ensures { IsReadOnce }
{}

/// No tokens are both read and refused.
pub fn apart_law()
    ensures { NeverBoth }
{}

/// Tokens are refused on one line alone.
pub fn once_law()
    ensures { IsRefusedOnce }
{}

/// All tokens are read as a tree or refused on a line.
pub fn always_law()
    ensures { AlwaysOne }
{}

/// The verdict on tokens is the tree that they are read as, or the line on which they are refused.
pub fn verdict_law()
    ensures tree { IsTreeWhereRead }
    ensures line { IsLineWhereRefused }
{}

/// Tokens whose bytes have the forms of their kinds are read as a tree that is well formed, and those of a lexed text have.
pub fn formed_law()
    ensures read { IsFormedWhereRead }
    ensures lexed { AreFormedWhereLexed }
{}

/// The calls and the blocks of a tree stand in the order of the tokens that it is read from.
pub fn order_law()
    ensures { IsInOrder }
{}
