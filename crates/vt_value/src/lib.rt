//! The values of the language, and arithmetic and comparison on them.
#![tactic(auto)]

mod arithmetic;
mod comparison;
mod copy;
mod fault;
mod heaviest;
mod integer;
mod items;
mod join;
mod kinds;
mod same;
mod size;
mod symbol;
mod value;
mod write;

pub use arithmetic::{ArithOp, arith};
pub use comparison::{OrderOp, compare};
pub use fault::{FaultKind, ValueFault};
pub use integer::Integer;
pub use items::Items;
pub use join::{MAX_ITEMS, MAX_SIZE};
pub use size::sizes;
pub use symbol::Symbol;
pub use value::Value;
