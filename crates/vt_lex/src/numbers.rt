//! Which numbers fit.
ghost use Rattle.std.specs.Prelude.{◌≡◌, ◌<◌, ◌≤◌, length};
ghost use Rattle.std.specs.Str.Parse.{digits_value, AllDigits};
ghost use Rattle.vt_lex.specs.Numbers.{whole_fits, decimal_fits};

use vt_frac::Frac;

const MAX_DIGITS: usize = 19;

const MAX_WHOLE: u64 = 9_223_372_036_854_775_807;

/// The number that these digits write.
fn value_of_digits(digits: &[u8]) -> u64
    requires few { length digits.now ≤ 19 }
    requires digits { AllDigits 10 digits.now }
    ensures { result ≡ digits_value 10 digits.now }
{
    let mut value = 0;
    for digit in digits {
        value = value * 10 + (*digit - b'0') as u64;
    }
    value
}

/// Whether these digits are a whole number.
pub(crate) fn whole_fits(digits: &[u8]) -> bool
    requires { AllDigits 10 digits.now }
    ensures { result ≡ whole_fits (length digits.now) digits.now }
{
    digits.len() <= MAX_DIGITS && value_of_digits(digits) <= MAX_WHOLE
}

/// Whether digits, a dot and digits are a decimal number.
#[tactic(auto, unfolding(crate::specs::Numbers::decimal_fits))]
pub(crate) fn decimal_fits(form: &[u8]) -> bool
    ensures { result ≡ decimal_fits form.now }
{
    Frac::read_decimal(form).is_ok()
}
