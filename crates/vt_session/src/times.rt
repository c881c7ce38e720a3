//! How times are read.
ghost use Rattle.std.specs.Prelude.{◌≡◌, ◌<◌, length, position, IfSome};
ghost use Rattle.vt_session.specs.Times.{is_slash, ratio_of, time_of, whole_of};

use crate::bytes::are_digits;
use vt_frac::{DecimalFault, Frac};

/// The time that a word spells, in seconds.
pub(crate) fn time_of(word: &[u8]) -> Option<Frac>
    ensures { result ≡ time_of word.now }
{
    match first_slash(word) {
        Some(at) => ratio_of(whole_of(&word[..at]), whole_of(&word[at + 1..])),
        None => Frac::read_decimal(word).ok(),
    }
}

fn first_slash(word: &[u8]) -> Option<usize>
    ensures place { result ≡ position is_slash word.now }
    ensures within { IfSome result (λ at. at < length word.now) }
{
    word.iter().position(|byte| *byte == b'/')
}

/// A number of digits alone.
fn whole_of(word: &[u8]) -> Result<Frac, DecimalFault>
    ensures { result ≡ whole_of word.now }
{
    if are_digits(word) {
        Frac::read_decimal(word)
    } else {
        Err(DecimalFault::Shape)
    }
}

/// One number over another that is not 0.
fn ratio_of(above: Result<Frac, DecimalFault>, below: Result<Frac, DecimalFault>) -> Option<Frac>
    ensures { result ≡ ratio_of above below }
{
    match above {
        Ok(above) => match below {
            Ok(below) => Frac::new(above.numer(), below.numer()).ok(),
            Err(_) => None,
        },
        Err(_) => None,
    }
}
