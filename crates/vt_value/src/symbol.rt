//! Symbols.

ghost use Rattle.std.specs.Prelude.{◌≡◌, ◌↔◌, IsTrue, IsSome, IfSome, IfOk};
ghost use Rattle.vt_frac.specs.Names.{is_symbol_name};

use std::alloc::Global;
use std::marker::Model;
use vt_frac::{Name, NoMemory, is_symbol_name};

/// The name of a symbol: a letter or `_`, then letters, digits and `_`, 1 to 64 bytes in all. Contracts see it as its bytes.
#[derive(Debug, Drop)]
pub struct Symbol {
    name: Name,
}

impl Model for Symbol {
    ghost use Rattle.std.specs.Prelude.{List, ℕ, IsTrue};
    ghost use Rattle.vt_frac.specs.Names.{is_symbol_name};

    ghost Value = { List ℕ };

    ghost view = { λ symbol. symbol.name };

    ghost invariant = { λ symbol. IsTrue (is_symbol_name symbol.name) };
}

impl Symbol {
    /// The symbol of this name, or `None` where it is no symbol's name.
    pub fn new(name: Name) -> Option<Symbol>
        ensures some { IsSome result ↔ IsTrue (is_symbol_name name) }
        ensures value { IfSome result (λ symbol. symbol ≡ name) }
    {
        if !is_symbol_name(name.as_bytes()) {
            return None;
        }
        Some(Symbol { name })
    }

    /// An equal symbol.
    pub fn copy(&self, alloc: Global) -> Result<Symbol, NoMemory>
        ensures { IfOk result (λ symbol. symbol ≡ self.now) }
    {
        Ok(Symbol {
            name: self.name.copy(alloc)?,
        })
    }

    /// The bytes of its name, without the colon.
    pub fn as_bytes(&self) -> &[u8]
        ensures value { result.now ≡ self.now }
        ensures name { IsTrue (is_symbol_name self.now) }
    {
        self.name.as_bytes()
    }
}
