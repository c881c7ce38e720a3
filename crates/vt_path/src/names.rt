//! Some names, in order.

ghost use Rattle.std.specs.Prelude.{◌≡◌, IfOk};
ghost use Rattle.vt_path.specs.Pattern.{names_text};

use std::alloc::Global;
use std::marker::Model;
use vt_frac::{Name, NoMemory};

/// Some names, in order. Contracts see them as their list.
#[derive(Debug, Drop)]
pub struct Names {
    pub(crate) names: Vec<Name>,
}

impl Model for Names {
    ghost use Rattle.std.specs.Prelude.{List, ℕ};

    ghost Value = { List (List ℕ) };

    ghost view = { λ names. names.names.items };
}

/// The names with a comma before each but the first.
pub(crate) fn names_bytes(alloc: Global, names: &[Name]) -> Result<Vec<u8>, NoMemory>
    ensures { IfOk result (λ text. text.items ≡ names_text names.now) }
{
    let mut text = Vec::new(alloc);
    for (i, name) in names.iter().enumerate() {
        if i > 0 {
            text.push(b',')?;
        }
        text.extend_from_slice(name.as_bytes())?;
    }
    Ok(text)
}

/// Equal names.
pub(crate) fn copy_names(alloc: Global, names: &[Name]) -> Result<Vec<Name>, NoMemory>
    ensures { IfOk result (λ copies. copies.items ≡ names.now) }
{
    let mut copies = Vec::new(alloc);
    for name in names {
        copies.push(name.copy(alloc)?)?;
    }
    Ok(copies)
}
