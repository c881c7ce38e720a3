//! Numbers to which others are added. They take no memory, so a fault among many of them is found before any is taken.

ghost use Rattle.std.specs.Prelude.{◌≡◌, ℤ, Ok, Err, Some, None};
ghost use Rattle.vt_frac.specs.Fraction.{whole};
ghost use Rattle.vt_value.specs.Arithmetic.{arith_of, as_part, as_whole, fitting, whole_arith};
ghost use Rattle.vt_prim.specs.private.Adding.{answer_of, value_of};

use vt_frac::{Frac, FracFault};
use vt_value::{ArithOp, FaultKind, Integer, Value};

/// A number.
#[derive(Clone, Copy)]
pub(crate) enum Number {
    Whole(Integer),
    Part(Frac),
}

/// The number as a value.
pub(crate) fn value_of(number: Number) -> Value
    ensures { result ≡ value_of number }
{
    match number {
        Number::Whole(n) => Value::Whole(n),
        Number::Part(f) => Value::Part(f),
    }
}

/// The sum of a number and a value, which is to be a number.
pub(crate) fn plus(number: Number, value: &Value) -> Result<Number, FaultKind>
    ensures { answer_of result ≡ arith_of ArithOp.Add (value_of number) value.now }
{
    match number {
        Number::Whole(m) => match value {
            Value::Whole(n) => whole_number(sum_of_wholes(m, *n)),
            Value::Part(g) => part_number(fraction(m).add(*g)),
            Value::Nil => Err(FaultKind::WrongKind),
            Value::Bool(_) => Err(FaultKind::WrongKind),
            Value::Sym(_) => Err(FaultKind::WrongKind),
            Value::Text(_) => Err(FaultKind::WrongKind),
            Value::Ring(_) => Err(FaultKind::WrongKind),
        },
        Number::Part(f) => match value {
            Value::Whole(n) => part_number(f.add(fraction(*n))),
            Value::Part(g) => part_number(f.add(*g)),
            Value::Nil => Err(FaultKind::WrongKind),
            Value::Bool(_) => Err(FaultKind::WrongKind),
            Value::Sym(_) => Err(FaultKind::WrongKind),
            Value::Text(_) => Err(FaultKind::WrongKind),
            Value::Ring(_) => Err(FaultKind::WrongKind),
        },
    }
}

fn whole_number(sum: Result<Integer, FaultKind>) -> Result<Number, FaultKind>
    ensures { answer_of result ≡ as_whole sum }
{
    match sum {
        Ok(n) => Ok(Number::Whole(n)),
        Err(kind) => Err(kind),
    }
}

fn part_number(sum: Result<Frac, FracFault>) -> Result<Number, FaultKind>
    ensures { answer_of result ≡ as_part sum }
{
    match sum {
        Ok(f) => Ok(Number::Part(f)),
        Err(FracFault::Zero) => Err(FaultKind::ZeroDivisor),
        Err(FracFault::Overflow) => Err(FaultKind::Overflow),
    }
}

fn sum_of_wholes(m: Integer, n: Integer) -> Result<Integer, FaultKind>
    ensures { result ≡ whole_arith ArithOp.Add m n }
{
    fitting(m.get().checked_add(n.get()))
}

/// The whole number, or `Overflow` where it is out of range or none.
fn fitting(number: Option<i64>) -> Result<Integer, FaultKind>
    ensures some { (z : ℤ) → number ≡ Some z → result ≡ fitting z }
    ensures none { number ≡ None → result ≡ Err FaultKind.Overflow }
{
    match number {
        None => Err(FaultKind::Overflow),
        Some(z) => Integer::new(z).ok_or(FaultKind::Overflow),
    }
}

/// The whole number as a fraction.
pub(crate) fn fraction(number: Integer) -> Frac
    ensures { result ≡ whole number }
{
    match Value::Whole(number).number() {
        Some(fraction) => fraction,
        None => unreachable!(),
    }
}
