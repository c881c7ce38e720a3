//! Names in order, and the row of a name.

ghost use Rattle.std.specs.Prelude.{◌≡◌, ◌↔◌, ◌<◌, ◌≤◌, Contains, IfSome, IsNone, IsTrue, List, length, map, ℕ};
ghost use Rattle.vt_table.specs.Names.{rises, row_of};

use std::marker::Model;

/// What has a name; a slice of bytes is its own.
pub trait Named: Drop {
    ghost name_of: { Self → List ℕ };

    fn name(&self) -> &[u8]
        ensures { result.now ≡ name_of self.now };
}

impl<'a> Named for &'a [u8] {
    ghost name_of = { λ name. name.now };

    fn name(&self) -> &[u8] {
        self
    }
}

/// N names in strictly rising order of their bytes, or N rows of a table by their names. Contracts
/// see the list of the names.
#[derive(Drop)]
pub struct NameTable<const N: usize, T: Named = &'static [u8]> {
    names: [T; N],
}

impl<const N: usize, T: Named> Model for NameTable<N, T> {
    ghost use Rattle.std.specs.Prelude.{◌≤◌, IsTrue, length, List, map, ℕ};
    ghost use Rattle.vt_table.specs.Names.{rises};

    ghost Value = { List (List ℕ) };

    ghost view = { λ table. map T.name_of table.names };

    ghost invariant = { λ table. IsTrue (rises (map T.name_of table.names)) × (length table.names ≤ 65536) };
}

impl<const N: usize, T: Named> NameTable<N, T> {
    /// The table of these names, of which there are at most 65,536.
    pub fn of(names: [T; N]) -> NameTable<N, T>
        requires rising { IsTrue (rises (map T.name_of names)) }
        requires short { N ≤ 65536 }
        ensures { result ≡ map T.name_of names }
    {
        NameTable { names }
    }

    /// The row of the name, counted from 0, by a binary search. None exactly where no row has it.
    pub fn find(&self, name: &[u8]) -> Option<u16>
        ensures row { result ≡ row_of self.now name.now }
        ensures bound { IfSome result (λ row. row < length self.now) }
        ensures none { IsNone result ↔ ¬ Contains self.now name.now }
    {
        row_named(&self.names, name)
    }
}

/// The row of the name among rows whose names rise strictly, as `NameTable::find` gives it.
pub(crate) fn row_named<T: Named>(rows: &[T], name: &[u8]) -> Option<u16>
    requires rising { IsTrue (rises (map T.name_of rows.now)) }
    requires short { length rows.now ≤ 65536 }
    ensures row { result ≡ row_of (map T.name_of rows.now) name.now }
    ensures bound { IfSome result (λ row. row < length rows.now) }
    ensures none { IsNone result ↔ ¬ Contains (map T.name_of rows.now) name.now }
{
    match rows.binary_search_by(|other| other.name().cmp(&name)) {
        Ok(row) => Some(row as u16),
        _ => None,
    }
}
