//! The lines of a session, one after another.
ghost use Rattle.std.specs.Prelude.{◌≡◌, ◌<◌, ◌+◌, ◌≤◌, ◌==◌, ◌∷◌, not, length};
ghost use Rattle.std.specs.List.{prefix_len};
ghost use Rattle.vt_session.specs.Lines.{content_of, is_newline, lines_of};

/// The first line, with its newline, and the bytes that follow it.
pub(crate) fn split_line(bytes: &[u8]) -> (&[u8], &[u8])
    requires { 0 < length bytes.now }
    ensures first { lines_of bytes.now ≡ result.0.now ∷ lines_of result.1.now }
    ensures sizes { length bytes.now ≡ length result.0.now + length result.1.now }
    ensures some { 0 < length result.0.now }
{
    let len = line_len(bytes);
    if len < bytes.len() {
        bytes.split_at(len + 1)
    } else {
        bytes.split_at(len)
    }
}

/// The line without its newline.
pub(crate) fn content(line: &[u8]) -> &[u8]
    ensures { result.now ≡ content_of line.now }
{
    &line[..line_len(line)]
}

/// How many bytes stand before the first newline.
fn line_len(bytes: &[u8]) -> usize
    ensures longest { result ≡ prefix_len (λ byte. not (is_newline byte)) bytes.now }
    ensures within { result ≤ length bytes.now }
{
    bytes.iter().take_while(|byte| **byte != b'\n').count()
}
