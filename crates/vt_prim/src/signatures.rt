//! The arguments that several calls share.

ghost use Rattle.std.specs.Prelude.{◌≡◌, pos, Ok, Err, IfOk, IfErr};
ghost use Rattle.vt_frac.specs.Fraction.{whole};
ghost use Rattle.vt_ring.specs.Signatures.{a_number, a_ring, a_ring_and_a_whole, a_whole, perhaps_a_number, perhaps_a_whole, two_numbers, two_wholes};

use crate::adding::fraction;
use crate::arguments::{
    number_argument, number_or, one, one_or_none, ring_argument, two, whole_or,
};
use vt_frac::Frac;
use vt_ring::whole_argument;
use vt_value::{FaultKind, Integer, Value};

/// `r`
pub(crate) fn a_ring(args: &[Value]) -> Result<&[Value], FaultKind>
    ensures ok { IfOk result (λ items. a_ring args.now ≡ Ok items.now) }
    ensures err { IfErr result (λ kind. a_ring args.now ≡ Err kind) }
{
    ring_argument(one(args)?)
}

/// `r, n`
pub(crate) fn a_ring_and_a_whole(args: &[Value]) -> Result<(&[Value], i64), FaultKind>
    ensures ok { IfOk result (λ a. a_ring_and_a_whole args.now ≡ Ok (a.0.now, a.1)) }
    ensures err { IfErr result (λ kind. a_ring_and_a_whole args.now ≡ Err kind) }
{
    let (r, n) = two(args)?;
    let items = ring_argument(r)?;
    let number = whole_argument(n)?;
    Ok((items, number.get()))
}

/// `n`
pub(crate) fn a_whole(args: &[Value]) -> Result<Integer, FaultKind>
    ensures { result ≡ a_whole args.now }
{
    whole_argument(one(args)?)
}

/// `N`
pub(crate) fn a_number(args: &[Value]) -> Result<Frac, FaultKind>
    ensures { result ≡ a_number args.now }
{
    number_argument(one(args)?)
}

/// Nothing or `n`, with what n is if it is not given.
pub(crate) fn perhaps_a_whole(other: u32, args: &[Value]) -> Result<Integer, FaultKind>
    ensures { result ≡ perhaps_a_whole (pos other) args.now }
{
    whole_or(integer(other), one_or_none(args)?)
}

/// Nothing or `N`, where N is 1 if it is not given.
pub(crate) fn perhaps_a_number(args: &[Value]) -> Result<Frac, FaultKind>
    ensures { result ≡ perhaps_a_number args.now }
{
    number_or(one_whole(), one_or_none(args)?)
}

/// `N, N`
pub(crate) fn two_numbers(args: &[Value]) -> Result<(Frac, Frac), FaultKind>
    ensures { result ≡ two_numbers args.now }
{
    let (a, b) = two(args)?;
    let f = number_argument(a)?;
    let g = number_argument(b)?;
    Ok((f, g))
}

/// `n, n`
pub(crate) fn two_wholes(args: &[Value]) -> Result<(Integer, Integer), FaultKind>
    ensures { result ≡ two_wholes args.now }
{
    let (a, b) = two(args)?;
    let m = whole_argument(a)?;
    let n = whole_argument(b)?;
    Ok((m, n))
}

/// A whole number of 32 bits, as one of the language.
pub(crate) fn integer(number: u32) -> Integer
    ensures { result ≡ pos number }
{
    match Integer::new(i64::from(number)) {
        Some(integer) => integer,
        None => unreachable!(),
    }
}

/// 1, as a fraction.
pub(crate) fn one_whole() -> Frac
    ensures { result ≡ whole (pos 1) }
{
    fraction(integer(1))
}
