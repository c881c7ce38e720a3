//! Copies of names with their values.

ghost use Rattle.std.specs.Prelude.{◌≡◌, IfOk};

use crate::sequence::Sequence;
use std::alloc::Global;
use vt_frac::{Name, NoMemory};
use vt_value::Value;

impl Sequence<(Name, Value)> {
    /// An equal list.
    pub fn copy(&self, alloc: Global) -> Result<Sequence<(Name, Value)>, NoMemory>
        ensures { IfOk result (λ copied. copied ≡ self.now) }
    {
        copy_pairs(alloc, self.as_slice())
    }
}

fn copy_pairs(alloc: Global, pairs: &[(Name, Value)]) -> Result<Sequence<(Name, Value)>, NoMemory>
    ensures { IfOk result (λ copies. copies ≡ pairs.now) }
{
    let mut copies = Sequence::new(alloc);
    for pair in pairs {
        copies.push(copy_pair(alloc, pair)?)?;
    }
    Ok(copies)
}

fn copy_pair(alloc: Global, pair: &(Name, Value)) -> Result<(Name, Value), NoMemory>
    ensures { IfOk result (λ copied. copied ≡ pair.now) }
{
    let (name, value) = pair;
    let name = name.copy(alloc)?;
    let value = value.copy(alloc)?;
    Ok((name, value))
}
