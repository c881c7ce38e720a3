//! Notes by name.

ghost use Rattle.std.specs.Prelude.{◌≡◌, ◌<◌, ◌≤ℤ◌, IfSome, pos, negsuc};
ghost use Rattle.vt_table.specs.Notes.{note_number, octave_of, pitch_of, shift_of, spelled};

/// The MIDI number of a note's name, as 60 of `c4`: a letter from a to g, then `s` for sharp or `b`
/// for flat or neither, then a digit for the octave or none for octave 4, in either case. None
/// exactly where the name is none of these.
pub fn note_of(name: &[u8]) -> Option<i64>
    ensures { result ≡ note_number name.now }
{
    match *name {
        [letter] => note_spelled(letter, None, None),
        [letter, digit] if digit.is_ascii_digit() => note_spelled(letter, None, Some(digit)),
        [letter, sign] => note_spelled(letter, Some(sign), None),
        [letter, sign, digit] => note_spelled(letter, Some(sign), Some(digit)),
        _ => None,
    }
}

fn note_spelled(letter: u8, sign: Option<u8>, digit: Option<u8>) -> Option<i64>
    ensures { result ≡ spelled letter sign digit }
{
    let pitch = half_tones(letter)?;
    let shift = shift(sign)?;
    let octave = octave(digit)?;
    Some(12 * (octave as i64 + 1) + pitch + shift)
}

fn half_tones(letter: u8) -> Option<i64>
    ensures value { result ≡ pitch_of letter }
    ensures bound { IfSome result (λ tones. (pos 0 ≤ℤ tones) × (tones ≤ℤ pos 11)) }
{
    match letter.to_ascii_lowercase() {
        b'c' => Some(0),
        b'd' => Some(2),
        b'e' => Some(4),
        b'f' => Some(5),
        b'g' => Some(7),
        b'a' => Some(9),
        b'b' => Some(11),
        _ => None,
    }
}

fn shift(sign: Option<u8>) -> Option<i64>
    ensures value { result ≡ shift_of sign }
    ensures bound { IfSome result (λ tones. (negsuc 0 ≤ℤ tones) × (tones ≤ℤ pos 1)) }
{
    let Some(sign) = sign else {
        return Some(0);
    };
    match sign.to_ascii_lowercase() {
        b's' => Some(1),
        b'b' => Some(-1),
        _ => None,
    }
}

fn octave(digit: Option<u8>) -> Option<u8>
    ensures value { result ≡ octave_of digit }
    ensures bound { IfSome result (λ octave. octave < 10) }
{
    match digit {
        None => Some(4),
        Some(digit) if digit.is_ascii_digit() => Some(digit - b'0'),
        Some(_) => None,
    }
}
