//! The order operators.

ghost use Rattle.std.specs.Prelude.{◌≡◌};
ghost use Rattle.vt_value.specs.Comparison.{compare_of, holds};

use crate::{FaultKind, Value};
use std::cmp::Ordering;

/// An order operator: below, at most, above, at least.
#[derive(Clone, Copy, Debug, PartialEq, Eq)]
pub enum OrderOp {
    Lt,
    Le,
    Gt,
    Ge,
}

/// Whether the operator holds of two numbers; `WrongKind` exactly where one is no number.
pub fn compare(op: OrderOp, a: &Value, b: &Value) -> Result<bool, FaultKind>
    ensures { result ≡ compare_of op a.now b.now }
{
    match a.number() {
        None => Err(FaultKind::WrongKind),
        Some(f) => match b.number() {
            None => Err(FaultKind::WrongKind),
            Some(g) => Ok(holds(op, f.cmp(&g))),
        },
    }
}

fn holds(op: OrderOp, order: Ordering) -> bool
    ensures { result ≡ holds op order }
{
    match op {
        OrderOp::Lt => match order {
            Ordering::Less => true,
            Ordering::Equal => false,
            Ordering::Greater => false,
        },
        OrderOp::Le => match order {
            Ordering::Less => true,
            Ordering::Equal => true,
            Ordering::Greater => false,
        },
        OrderOp::Gt => match order {
            Ordering::Less => false,
            Ordering::Equal => false,
            Ordering::Greater => true,
        },
        OrderOp::Ge => match order {
            Ordering::Less => false,
            Ordering::Equal => true,
            Ordering::Greater => true,
        },
    }
}
