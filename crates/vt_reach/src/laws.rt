//! What the definitions of the reach give. These functions do nothing; each has a law for its contract.

ghost use Rattle.vt_reach.specs.Uses.{AreInnerAlike, HasEachBlock};

/// Each block of a text is among the blocks of the reach to which the text was added, under its number, with what is mentioned
/// inside it.
pub fn each_block_is_found()
    ensures { HasEachBlock }
{}

/// A pattern that matches a path is inner exactly where the path is.
pub fn inner_paths_have_inner_patterns()
    ensures { AreInnerAlike }
{}
