//! Exact fractions, names, and the one answer for want of memory.
#![tactic(auto)]

mod fault;
mod frac;
mod laws;
mod name;
mod no_memory;
mod symbol_name;

pub use fault::{DecimalFault, FracFault};
pub use frac::Frac;
pub use laws::{reduced_is_lowest, reduced_keeps_the_value};
pub use name::Name;
pub use no_memory::NoMemory;
pub use symbol_name::is_symbol_name;
