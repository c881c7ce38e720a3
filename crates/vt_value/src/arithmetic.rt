//! The arithmetic operators.

ghost use Rattle.std.specs.Prelude.{◌≡◌, ◌≢◌, ◌++◌, ℤ, pos, Ok, Err};
ghost use Rattle.std.specs.Option.{option_copied};
ghost use Rattle.vt_value.specs.Answers.{Gives};
ghost use Rattle.vt_value.specs.Arithmetic.{arith_of, as_part, as_whole, exact_arith, fitting, floor_div, floor_rem, whole_arith};
ghost use Rattle.vt_value.specs.private.Operands.{number_arith, ring_arith, text_arith};

use crate::integer::fraction;
use crate::join::{join_rings, join_texts};
use crate::{FaultKind, Integer, Value, ValueFault};
use std::alloc::Global;
use vt_frac::{Frac, FracFault};

/// An arithmetic operator: `+`, `-`, `*`, `/` or `%`.
#[derive(Clone, Copy, Debug, PartialEq, Eq)]
pub enum ArithOp {
    Add,
    Sub,
    Mul,
    Div,
    Rem,
}

/// What the operator gives for two values. Two whole numbers give a whole number, where `/` rounds down and `%` has the divisor's sign, and with a fraction on either side the exact fraction. `+` joins two texts or two rings. The faults are `ZeroDivisor`, `Overflow`, `TooLarge` and, for every other pair, `WrongKind`.
pub fn arith(alloc: Global, op: ArithOp, a: &Value, b: &Value) -> Result<Value, ValueFault>
    ensures { Gives (arith_of op a.now b.now) result }
{
    match a {
        Value::Whole(m) => match b.whole() {
            Some(n) => whole_value(whole_arith(op, *m, n)),
            None => number_arith(op, fraction(*m), b.number()),
        },
        Value::Part(f) => number_arith(op, *f, b.number()),
        Value::Text(bytes) => text_arith(alloc, op, bytes.as_bytes(), b.text()),
        Value::Ring(items) => ring_arith(alloc, op, items.as_slice(), b.ring()),
        Value::Nil => Err(ValueFault::Fault(FaultKind::WrongKind)),
        Value::Bool(_) => Err(ValueFault::Fault(FaultKind::WrongKind)),
        Value::Sym(_) => Err(ValueFault::Fault(FaultKind::WrongKind)),
    }
}

/// A number with what may be one.
fn number_arith(op: ArithOp, f: Frac, other: Option<Frac>) -> Result<Value, ValueFault>
    ensures { Gives (number_arith op f other) result }
{
    match other {
        None => Err(ValueFault::Fault(FaultKind::WrongKind)),
        Some(g) => part_value(exact_arith(op, f, g)),
    }
}

/// A text with what may be one.
fn text_arith(
    alloc: Global,
    op: ArithOp,
    bytes: &[u8],
    other: Option<&[u8]>,
) -> Result<Value, ValueFault>
    ensures { Gives (text_arith op bytes.now (option_copied other.entry)) result }
{
    match op {
        ArithOp::Add => match other {
            None => Err(ValueFault::Fault(FaultKind::WrongKind)),
            Some(others) => join_texts(alloc, bytes, others),
        },
        ArithOp::Sub => Err(ValueFault::Fault(FaultKind::WrongKind)),
        ArithOp::Mul => Err(ValueFault::Fault(FaultKind::WrongKind)),
        ArithOp::Div => Err(ValueFault::Fault(FaultKind::WrongKind)),
        ArithOp::Rem => Err(ValueFault::Fault(FaultKind::WrongKind)),
    }
}

/// A ring with what may be one.
fn ring_arith(
    alloc: Global,
    op: ArithOp,
    items: &[Value],
    other: Option<&[Value]>,
) -> Result<Value, ValueFault>
    ensures { Gives (ring_arith op items.now (option_copied other.entry)) result }
{
    match op {
        ArithOp::Add => match other {
            None => Err(ValueFault::Fault(FaultKind::WrongKind)),
            Some(others) => join_rings(alloc, items, others),
        },
        ArithOp::Sub => Err(ValueFault::Fault(FaultKind::WrongKind)),
        ArithOp::Mul => Err(ValueFault::Fault(FaultKind::WrongKind)),
        ArithOp::Div => Err(ValueFault::Fault(FaultKind::WrongKind)),
        ArithOp::Rem => Err(ValueFault::Fault(FaultKind::WrongKind)),
    }
}

fn whole_value(answer: Result<Integer, FaultKind>) -> Result<Value, ValueFault>
    ensures { Gives (as_whole answer) result }
{
    match answer {
        Ok(n) => Ok(Value::Whole(n)),
        Err(kind) => Err(ValueFault::Fault(kind)),
    }
}

fn part_value(answer: Result<Frac, FracFault>) -> Result<Value, ValueFault>
    ensures { Gives (as_part answer) result }
{
    match answer {
        Ok(f) => Ok(Value::Part(f)),
        Err(FracFault::Zero) => Err(ValueFault::Fault(FaultKind::ZeroDivisor)),
        Err(FracFault::Overflow) => Err(ValueFault::Fault(FaultKind::Overflow)),
    }
}

fn exact_arith(op: ArithOp, f: Frac, g: Frac) -> Result<Frac, FracFault>
    ensures { result ≡ exact_arith op f g }
{
    match op {
        ArithOp::Add => f.add(g),
        ArithOp::Sub => f.sub(g),
        ArithOp::Mul => f.mul(g),
        ArithOp::Div => f.div(g),
        ArithOp::Rem => f.rem(g),
    }
}

fn whole_arith(op: ArithOp, m: Integer, n: Integer) -> Result<Integer, FaultKind>
    ensures { result ≡ whole_arith op m n }
{
    match op {
        ArithOp::Add => fitting(m.get().checked_add(n.get())),
        ArithOp::Sub => fitting(m.get().checked_sub(n.get())),
        ArithOp::Mul => fitting(m.get().checked_mul(n.get())),
        ArithOp::Div => whole_quotient(m, n),
        ArithOp::Rem => whole_rest(m, n),
    }
}

/// The whole number, or `Overflow` where it is out of range or none.
fn fitting(number: Option<i64>) -> Result<Integer, FaultKind>
    ensures some { (z : ℤ) → number ≡ Some z → result ≡ fitting z }
    ensures none { number ≡ None → result ≡ Err FaultKind.Overflow }
{
    match number {
        None => Err(FaultKind::Overflow),
        Some(z) => Integer::new(z).ok_or(FaultKind::Overflow),
    }
}

fn whole_quotient(m: Integer, n: Integer) -> Result<Integer, FaultKind>
    ensures { result ≡ whole_arith ArithOp.Div m n }
{
    if n.get() == 0 {
        return Err(FaultKind::ZeroDivisor);
    }
    fitting(Some(rounded_down(m, n)))
}

fn whole_rest(m: Integer, n: Integer) -> Result<Integer, FaultKind>
    ensures { result ≡ whole_arith ArithOp.Rem m n }
{
    if n.get() == 0 {
        return Err(FaultKind::ZeroDivisor);
    }
    fitting(Some(rest(m, n)))
}

fn rounded_down(m: Integer, n: Integer) -> i64
    requires { n ≢ pos 0 }
    ensures { result ≡ floor_div m n }
{
    let dividend = m.get();
    let divisor = n.get();
    if divisor < 0 {
        (-dividend).div_euclid(-divisor)
    } else {
        dividend.div_euclid(divisor)
    }
}

fn rest(m: Integer, n: Integer) -> i64
    requires { n ≢ pos 0 }
    ensures { result ≡ floor_rem m n }
{
    let dividend = m.get();
    let divisor = n.get();
    if divisor < 0 {
        -(-dividend).rem_euclid(-divisor)
    } else {
        dividend.rem_euclid(divisor)
    }
}
