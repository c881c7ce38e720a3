//! What a part of a text mentions.

ghost use Rattle.std.specs.Prelude.{◌≡◌, ◌↔◌, IfOk, IsTrue};

use sqlite_items::Items;
use std::alloc::Global;
use vt_frac::{Name, NoMemory};
use vt_path::Path;

/// What is run by its name.
#[derive(Debug, Drop)]
pub enum Key {
    /// The function of this name.
    Function(Name),
    /// The live loop of this name.
    Loop(Name),
}

/// What a part of a text mentions.
#[derive(Debug, Drop)]
pub enum Mention {
    /// An event at this path.
    Writes(Path),
    /// An event at a path that is not known before the text runs: any that is not inner.
    WritesAny,
    /// The bodies of a function or of a live loop, in whatever text they stand.
    Runs(Key),
}

/// What parts of a text mention, one after another.
pub type Mentions = Items<Mention>;

impl Key {
    /// An equal key.
    pub(crate) fn copy(&self, alloc: Global) -> Result<Key, NoMemory>
        ensures { IfOk result (λ copy. copy ≡ self.now) }
    {
        match self {
            Key::Function(name) => Ok(Key::Function(name.copy(alloc)?)),
            Key::Loop(name) => Ok(Key::Loop(name.copy(alloc)?)),
        }
    }

    /// Whether it is this key.
    pub(crate) fn is(&self, other: &Key) -> bool
        ensures { IsTrue result ↔ (self.now ≡ other.now) }
    {
        match self {
            Key::Function(name) => other.is_function(name.as_bytes()),
            Key::Loop(name) => other.is_loop(name.as_bytes()),
        }
    }

    fn is_function(&self, name: &[u8]) -> bool
        ensures { IsTrue result ↔ (Key.Function name.now ≡ self.now) }
    {
        match self {
            Key::Function(own) => name == own.as_bytes(),
            Key::Loop(_) => false,
        }
    }

    fn is_loop(&self, name: &[u8]) -> bool
        ensures { IsTrue result ↔ (Key.Loop name.now ≡ self.now) }
    {
        match self {
            Key::Function(_) => false,
            Key::Loop(own) => name == own.as_bytes(),
        }
    }
}

impl Mention {
    /// An equal mention.
    pub(crate) fn copy(&self, alloc: Global) -> Result<Mention, NoMemory>
        ensures { IfOk result (λ copy. copy ≡ self.now) }
    {
        match self {
            Mention::Writes(path) => Ok(Mention::Writes(path.copy(alloc)?)),
            Mention::WritesAny => Ok(Mention::WritesAny),
            Mention::Runs(key) => Ok(Mention::Runs(key.copy(alloc)?)),
        }
    }
}

/// Equal mentions.
pub(crate) fn copy_mentions(alloc: Global, mentions: &[Mention]) -> Result<Mentions, NoMemory>
    ensures { IfOk result (λ copies. copies ≡ mentions.now) }
{
    let mut copies = Items::new(alloc);
    for mention in mentions {
        copies.push(mention.copy(alloc)?)?;
    }
    Ok(copies)
}
