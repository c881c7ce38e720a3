//! What the names of symbols may be.

ghost use Rattle.std.specs.Prelude.{◌≡◌};
ghost use Rattle.std.specs.List.{list_all};
ghost use Rattle.vt_frac.specs.Names.{begins, begins_symbol, is_name_byte, is_symbol_name};

/// The most bytes of a name.
const MOST_BYTES: usize = 64;

/// Whether the bytes are a symbol's name: a letter or `_`, then letters, digits and `_`, at most 64 in all.
#[tactic(auto, unfolding(crate::specs::Names::is_symbol_name))]
pub fn is_symbol_name(name: &[u8]) -> bool
    ensures { result ≡ is_symbol_name name.now }
{
    begins_name(name) && are_name_bytes(name) && name.len() <= MOST_BYTES
}

/// Whether a name may begin as these bytes do.
fn begins_name(name: &[u8]) -> bool
    ensures { result ≡ begins begins_symbol name.now }
{
    match name {
        [] => false,
        [first, ..] => begins_symbol(*first),
    }
}

fn are_name_bytes(name: &[u8]) -> bool
    ensures { result ≡ list_all is_name_byte name.now }
{
    name.iter().all(|byte| is_name_byte(*byte))
}

fn begins_symbol(byte: u8) -> bool
    ensures { result ≡ begins_symbol byte }
{
    byte.is_ascii_alphabetic() || byte == b'_'
}

fn is_name_byte(byte: u8) -> bool
    ensures { result ≡ is_name_byte byte }
{
    byte.is_ascii_alphanumeric() || byte == b'_'
}
