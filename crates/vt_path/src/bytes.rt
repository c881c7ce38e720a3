//! The bytes of paths.

ghost use Rattle.std.specs.Prelude.{◌↔◌, IsTrue};
ghost use Rattle.vt_path.specs.Byte.{IsPathByte};

/// Whether the byte is a letter, a digit, or one of `_ . - :`.
#[tactic(auto, unfolding(crate::specs::Byte::IsPathByte))]
pub fn is_path_byte(byte: u8) -> bool
    ensures { IsTrue result ↔ IsPathByte byte }
{
    matches!(byte, b'a'..=b'z' | b'A'..=b'Z' | b'0'..=b'9' | b'_' | b'.' | b'-' | b':')
}
