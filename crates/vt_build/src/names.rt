//! Names of a tree.
ghost use Rattle.std.specs.Prelude.{◌∷◌, []};
ghost use Rattle.vt_build.specs.private.Made.{Makes};

use crate::fault::Fault;
use sqlite_items::Items;
use std::alloc::Global;
use vt_frac::Name;
use vt_tree::Names;

/// The name of these bytes.
pub fn name_of(alloc: Global, bytes: &[u8]) -> Result<Name, Fault>
    ensures { Makes bytes.now result }
{
    Ok(Name::of(alloc, bytes)?)
}

/// The names of which this is the first.
pub fn first_name(alloc: Global, name: &[u8]) -> Result<Names, Fault>
    ensures { Makes (name.now ∷ []) result }
{
    let mut found = Items::new(alloc);
    let name = name_of(alloc, name)?;
    found.push(name)?;
    Ok(found)
}
