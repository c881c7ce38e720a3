//! The classes of bytes, and how many of one class stand at a head.
ghost use Rattle.std.specs.Prelude.{◌≡◌, not, ◌==◌, slice_index_or, ◌≤◌, length};
ghost use Rattle.std.specs.List.{prefix_len};
ghost use Rattle.std.specs.Char.{is_ascii_digit};
ghost use Rattle.vt_frac.specs.Names.{begins_name, begins_symbol, is_name_byte};
ghost use Rattle.vt_lex.specs.Bytes.{is_blank, is_space};

pub(crate) fn is_blank(byte: u8) -> bool
    ensures { result ≡ is_blank byte }
{
    byte == b' ' || byte == b'\t' || byte == b'\r'
}

pub(crate) fn is_space(byte: u8) -> bool
    ensures { result ≡ is_space byte }
{
    is_blank(byte) || byte == b'\n'
}

pub(crate) fn begins_name(byte: u8) -> bool
    ensures { result ≡ begins_name byte }
{
    byte.is_ascii_lowercase() || byte == b'_'
}

pub(crate) fn begins_symbol(byte: u8) -> bool
    ensures { result ≡ begins_symbol byte }
{
    byte.is_ascii_alphabetic() || byte == b'_'
}

fn is_name_byte(byte: u8) -> bool
    ensures { result ≡ is_name_byte byte }
{
    byte.is_ascii_alphanumeric() || byte == b'_'
}

/// How many bytes of a name stand at the head.
pub(crate) fn name_len(bytes: &[u8]) -> usize
    ensures longest { result ≡ prefix_len is_name_byte bytes.now }
    ensures within { result ≤ length bytes.now }
{
    bytes.iter().take_while(|b| is_name_byte(**b)).count()
}

/// How many digits stand at the head.
pub(crate) fn digits_len(bytes: &[u8]) -> usize
    ensures longest { result ≡ prefix_len is_ascii_digit bytes.now }
    ensures within { result ≤ length bytes.now }
{
    bytes.iter().take_while(|b| b.is_ascii_digit()).count()
}

/// The byte at this place, or another one where the bytes end before it.
pub(crate) fn byte_or(bytes: &[u8], at: usize, other: u8) -> u8
    ensures { result ≡ slice_index_or bytes.now at other }
{
    bytes.get(at).copied().unwrap_or(other)
}

/// How many bytes stand at the head before the next newline.
pub(crate) fn line_len(bytes: &[u8]) -> usize
    ensures { result ≡ prefix_len (λ b. not (b == 10)) bytes.now }
{
    bytes.iter().take_while(|b| **b != b'\n').count()
}
