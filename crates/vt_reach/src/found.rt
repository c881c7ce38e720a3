//! What is found in a part of a text: what it mentions, and its blocks.

ghost use Rattle.std.specs.Prelude.{◌≡◌, IfOk, OnOk};
ghost use Rattle.vt_reach.specs.Founds.{in_block, joined, nothing, only};

use crate::mention::{Key, Mentions, copy_mentions};
use sqlite_items::Items;
use std::alloc::Global;
use vt_frac::NoMemory;

/// A block: the function or the live loop whose body it is, if it is one, and all that is mentioned in it and in the blocks
/// inside it.
#[derive(Debug, Drop)]
pub struct BlockUse {
    pub body_of: Option<Key>,
    pub mentions: Mentions,
}

/// What a part of a text mentions, and the blocks that stand in it, in the order of their first tokens.
#[derive(Debug, Drop)]
pub struct Found {
    pub mentions: Mentions,
    pub blocks: Items<BlockUse>,
}

/// A block of a text: the number of the text and its own, whose body it is, and what is mentioned in it.
#[derive(Debug, Drop)]
pub struct Row {
    pub text: u32,
    pub block: usize,
    pub body_of: Option<Key>,
    pub mentions: Mentions,
}

impl Found {
    pub(crate) fn nothing(alloc: Global) -> Found
        ensures { result ≡ nothing }
    {
        Found {
            mentions: Items::new(alloc),
            blocks: Items::new(alloc),
        }
    }

    pub(crate) fn only(alloc: Global, mentions: Mentions) -> Found
        ensures { result ≡ only mentions }
    {
        Found {
            mentions,
            blocks: Items::new(alloc),
        }
    }

    /// Adds what is found next.
    pub(crate) fn add(&mut self, more: Found) -> Result<(), NoMemory>
        ensures { OnOk result (self.new ≡ joined self.old more) }
    {
        let Found { mentions, blocks } = more;
        self.mentions.append(mentions)?;
        self.blocks.append(blocks)?;
        Ok(())
    }

    /// A block, by whose body it is, what it mentions itself, and what is found inside it.
    pub(crate) fn block(
        alloc: Global,
        key: Option<Key>,
        mentions: Mentions,
        inside: Found,
    ) -> Result<Found, NoMemory>
        ensures { IfOk result (λ found. found ≡ in_block key mentions inside) }
    {
        let Found {
            mentions: more,
            blocks: inner,
        } = inside;
        let mut all = mentions;
        all.append(more)?;
        let own = copy_mentions(alloc, all.as_slice())?;
        let mut blocks = Items::new(alloc);
        blocks.push(BlockUse {
            body_of: key,
            mentions: own,
        })?;
        blocks.append(inner)?;
        Ok(Found {
            mentions: all,
            blocks,
        })
    }
}
