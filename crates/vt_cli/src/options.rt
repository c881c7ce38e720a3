//! Options as they are written, and the numbers that they have.
ghost use Rattle.std.specs.Prelude.{◌≡◌, ◌≤◌, IfSome, IsTrue, length, option_copied};
ghost use Rattle.std.specs.List.{list_any};
ghost use Rattle.std.specs.Str.{bytes_eq};
ghost use Rattle.vt_frac.specs.Decimal.{are_digits, digits_value};
ghost use Rattle.vt_check.specs.Written.{has_twice};
ghost use Rattle.vt_cli.specs.Options.{number_or, number_within, value_of};
ghost use Rattle.vt_cli.specs.private.Pairs.{IsBetween, written};

use crate::line::are_line_digits;

/// An option: its name, with the `--` before it, and its value.
#[derive(Clone, Copy)]
pub struct Pair<'a> {
    pub name: &'a [u8],
    pub value: &'a [u8],
}

/// The most digits of a whole number.
const MOST_DIGITS: usize = 20;

/// Whether an option has this name.
pub fn is_named(option: &Pair<'_>, name: &[u8]) -> bool
    ensures { result ≡ bytes_eq name.now option.now.name.now }
{
    name == option.name
}

/// Whether one of the options has this name.
fn has_name(options: &[Pair<'_>], name: &[u8]) -> bool
    ensures { result ≡ list_any (λ other. bytes_eq name.now other.0) (written options.now) }
{
    for other in options {
        if is_named(other, name) {
            return true;
        }
    }
    false
}

/// Whether two options have the same name.
pub fn has_name_twice(options: &[Pair<'_>]) -> bool
    ensures { result ≡ has_twice (λ option. option.0) (written options.now) }
{
    for (i, option) in options.iter().enumerate() {
        if has_name(&options[i + 1..], option.name) {
            return true;
        }
    }
    false
}

/// The value of the option with this name, if it is there.
pub fn value_of<'a>(options: &[Pair<'a>], name: &[u8]) -> Option<&'a [u8]>
    ensures { option_copied result ≡ value_of name.now (written options.now) }
{
    for option in options {
        if is_named(option, name) {
            return Some(option.value);
        }
    }
    None
}

/// The number that at most 20 digits write.
fn number_of(digits: &[u8]) -> u128
    requires digits { IsTrue (are_digits digits.now) }
    requires few { length digits.now ≤ 20 }
    ensures { result ≡ digits_value digits.now }
{
    let mut number = 0;
    for digit in digits {
        number = number * 10 + u128::from(*digit - b'0');
    }
    number
}

/// The whole number that a word is, if it is one within these limits.
#[tactic(auto, unfolding(crate::specs::Options::number_within))]
fn number_within(least: u64, most: u64, word: &[u8]) -> Option<u64>
    ensures value { result ≡ number_within least most word.now }
    ensures within { IfSome result (IsBetween least most) }
{
    if !are_line_digits(word) || word.len() > MOST_DIGITS {
        return None;
    }
    let number = number_of(word);
    if number >= u128::from(least) && number <= u128::from(most) {
        Some(number as u64)
    } else {
        None
    }
}

/// The number that an option has, or the one that it has where it is not there.
pub fn number_or(least: u64, most: u64, otherwise: u64, word: Option<&[u8]>) -> Option<u64>
    requires { IsBetween least most otherwise }
    ensures value { result ≡ number_or least most otherwise (option_copied word.entry) }
    ensures within { IfSome result (IsBetween least most) }
{
    match word {
        None => Some(otherwise),
        Some(word) => number_within(least, most, word),
    }
}
