//! The classes of bytes in a session, and how many of one class stand at a head.
ghost use Rattle.std.specs.Prelude.{◌≡◌, ◌≤◌, length, not};
ghost use Rattle.std.specs.List.{list_all, prefix_len};
ghost use Rattle.std.specs.Char.{is_ascii_digit};
ghost use Rattle.std.specs.Str.{bytes_eq};
ghost use Rattle.vt_frac.specs.Decimal.{are_digits};
ghost use Rattle.vt_lex.specs.Bytes.{is_blank, is_space};
ghost use Rattle.vt_session.specs.Words.{is_bare_byte};
ghost use Rattle.vt_session.specs.private.Reading.{ends_word};

fn is_blank(byte: u8) -> bool
    ensures { result ≡ is_blank byte }
{
    byte == b' ' || byte == b'\t' || byte == b'\r'
}

fn is_space(byte: u8) -> bool
    ensures { result ≡ is_space byte }
{
    is_blank(byte) || byte == b'\n'
}

fn is_bare_byte(byte: u8) -> bool
    ensures { result ≡ is_bare_byte byte }
{
    !(is_blank(byte) || byte == b'"')
}

/// Whether only blanks and newlines stand here.
pub(crate) fn are_spaces(bytes: &[u8]) -> bool
    ensures { result ≡ list_all is_space bytes.now }
{
    bytes.iter().all(|byte| is_space(*byte))
}

/// How many blanks stand at the head.
pub(crate) fn blanks_len(bytes: &[u8]) -> usize
    ensures longest { result ≡ prefix_len is_blank bytes.now }
    ensures within { result ≤ length bytes.now }
{
    bytes.iter().take_while(|byte| is_blank(**byte)).count()
}

/// How many bytes stand at the head before the next blank.
pub(crate) fn name_len(bytes: &[u8]) -> usize
    ensures longest { result ≡ prefix_len (λ byte. not (is_blank byte)) bytes.now }
    ensures within { result ≤ length bytes.now }
{
    bytes.iter().take_while(|byte| !is_blank(**byte)).count()
}

/// How many bytes of a word without quotes stand at the head.
pub(crate) fn bare_len(bytes: &[u8]) -> usize
    ensures longest { result ≡ prefix_len is_bare_byte bytes.now }
    ensures within { result ≤ length bytes.now }
{
    bytes.iter().take_while(|byte| is_bare_byte(**byte)).count()
}

/// Whether a word may end before these bytes: they begin with a blank, or there are none.
pub(crate) fn ends_word(bytes: &[u8]) -> bool
    ensures { result ≡ ends_word bytes.now }
{
    match bytes {
        [] => true,
        [first, ..] => is_blank(*first),
    }
}

/// Whether the bytes are these.
pub(crate) fn are_bytes(bytes: &[u8], others: &[u8]) -> bool
    ensures { result ≡ bytes_eq bytes.now others.now }
{
    bytes == others
}

/// There is a digit, and nothing but digits.
pub(crate) fn are_digits(bytes: &[u8]) -> bool
    ensures { result ≡ are_digits bytes.now }
{
    !bytes.is_empty() && all_digits(bytes)
}

fn all_digits(bytes: &[u8]) -> bool
    ensures { result ≡ list_all is_ascii_digit bytes.now }
{
    bytes.iter().all(|byte| byte.is_ascii_digit())
}
