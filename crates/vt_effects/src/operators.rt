//! Literals, operators and indexes.

ghost use Rattle.std.specs.Prelude.{◌≡◌, neg_ℤ, Ok, Err, IfOk, IfErr};
ghost use Rattle.vt_frac.specs.Arithmetic.{floor_of};
ghost use Rattle.vt_frac.specs.Fraction.{Fraction};
ghost use Rattle.vt_ring.specs.Items.{item_at};
ghost use Rattle.vt_tree.specs.Forms.{IsLiteral};
ghost use Rattle.vt_value.specs.Answers.{Gives};
ghost use Rattle.vt_run.specs.Operators.{compares, index_of, literal_value, unary_of};
ghost use Rattle.vt_effects.specs.Operated.{is_decided, operated};
ghost use Rattle.vt_effects.specs.private.Negation.{negated};

use std::alloc::Global;
use vt_frac::{Frac, Name, NoMemory};
use vt_given::{number_argument, ring_argument};
use vt_ring::ring_at;
use vt_tree::{ChainOp, Literal, UnaryOp};
use vt_value::{ArithOp, FaultKind, Integer, OrderOp, Symbol, Value, ValueFault, arith, compare};

/// A literal's value.
pub fn literal_value(alloc: Global, literal: &Literal) -> Result<Value, NoMemory>
    requires { IsLiteral literal.now }
    ensures { IfOk result (λ value. value ≡ literal_value literal.now) }
{
    match literal {
        Literal::Nil => Ok(Value::Nil),
        Literal::Bool(b) => Ok(Value::Bool(*b)),
        Literal::Whole(n) => match Integer::new(*n) {
            Some(n) => Ok(Value::Whole(n)),
            None => unreachable!(),
        },
        Literal::Decimal(f) => Ok(Value::Part(*f)),
        Literal::Text(bytes) => Ok(Value::Text(bytes.copy(alloc)?)),
        Literal::Sym(name) => match Symbol::new(name.copy(alloc)?) {
            Some(name) => Ok(Value::Sym(name)),
            None => unreachable!(),
        },
    }
}

/// `-v` of a number; `!v` and `not v`.
pub fn unary(op: UnaryOp, value: &Value) -> Result<Value, FaultKind>
    ensures { result ≡ unary_of op value.now }
{
    match op {
        UnaryOp::Minus => negative(value),
        UnaryOp::Not => Ok(Value::Bool(!value.truthy())),
    }
}

fn negative(value: &Value) -> Result<Value, FaultKind>
    ensures { result ≡ unary_of UnaryOp.Minus value.now }
{
    match value {
        Value::Whole(n) => Ok(Value::Whole(negated_whole(*n))),
        Value::Part(f) => Ok(Value::Part(negated(*f))),
        Value::Nil => Err(FaultKind::WrongKind),
        Value::Bool(_) => Err(FaultKind::WrongKind),
        Value::Sym(_) => Err(FaultKind::WrongKind),
        Value::Text(_) => Err(FaultKind::WrongKind),
        Value::Ring(_) => Err(FaultKind::WrongKind),
    }
}

fn negated_whole(n: Integer) -> Integer
    ensures { result ≡ neg_ℤ n }
{
    match Integer::new(-n.get()) {
        Some(negated) => negated,
        None => unreachable!(),
    }
}

fn negated(f: Frac) -> Frac
    ensures { result ≡ negated f }
{
    match Frac::new(-f.numer(), f.denom()) {
        Ok(negated) => negated,
        Err(_) => unreachable!(),
    }
}

/// `v[i]`: the item of a ring at the floor of a number, wrapping.
pub fn index(alloc: Global, value: &Value, at: &Value) -> Result<Value, ValueFault>
    ensures { Gives (index_of value.now at.now) result }
{
    let items = ring_argument(value)?;
    let number = number_argument(at)?;
    let item = item_at_floor(items, number)?;
    Ok(item.copy(alloc)?)
}

fn item_at_floor(items: &[Value], number: Frac) -> Result<&Value, FaultKind>
    ensures ok { IfOk result (λ item. item_at items.now (floor_of number) ≡ Ok item.now) }
    ensures err { IfErr result (λ kind. item_at items.now (floor_of number) ≡ Err kind) }
{
    ring_at(items, number.floor())
}

/// Whether the value before an operator is its result already.
pub fn is_decided(op: ChainOp, value: &Value) -> bool
    ensures { result ≡ is_decided op value.now }
{
    match op {
        ChainOp::And => !value.truthy(),
        ChainOp::Or => value.truthy(),
        ChainOp::Eq => false,
        ChainOp::Ne => false,
        ChainOp::Lt => false,
        ChainOp::Le => false,
        ChainOp::Gt => false,
        ChainOp::Ge => false,
        ChainOp::Add => false,
        ChainOp::Sub => false,
        ChainOp::Mul => false,
        ChainOp::Div => false,
        ChainOp::Rem => false,
    }
}

/// What an operator makes of the values before and behind it, where the first does not decide.
pub fn operated(
    alloc: Global,
    op: ChainOp,
    value: &Value,
    other: Value,
) -> Result<Value, ValueFault>
    ensures { Gives (operated op value.now other) result }
{
    match op {
        ChainOp::And => Ok(other),
        ChainOp::Or => Ok(other),
        ChainOp::Eq => Ok(Value::Bool(value.same(&other))),
        ChainOp::Ne => Ok(Value::Bool(!value.same(&other))),
        ChainOp::Lt => compares(OrderOp::Lt, value, &other),
        ChainOp::Le => compares(OrderOp::Le, value, &other),
        ChainOp::Gt => compares(OrderOp::Gt, value, &other),
        ChainOp::Ge => compares(OrderOp::Ge, value, &other),
        ChainOp::Add => arith(alloc, ArithOp::Add, value, &other),
        ChainOp::Sub => arith(alloc, ArithOp::Sub, value, &other),
        ChainOp::Mul => arith(alloc, ArithOp::Mul, value, &other),
        ChainOp::Div => arith(alloc, ArithOp::Div, value, &other),
        ChainOp::Rem => arith(alloc, ArithOp::Rem, value, &other),
    }
}

fn compares(op: OrderOp, value: &Value, other: &Value) -> Result<Value, ValueFault>
    ensures { Gives (compares op value.now other.now) result }
{
    let holds = compare(op, value, other)?;
    Ok(Value::Bool(holds))
}
