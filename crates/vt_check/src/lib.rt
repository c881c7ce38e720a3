//! The checks: what a text may say before it runs.
#![tactic(auto)]

mod checked;
mod conditions;
mod context;
mod fault;
mod find;
mod first_fault;
mod laws;
mod paths;
mod walk;
mod written;

pub use checked::{Checked, check};
pub use fault::{CheckFault, CheckKind};
pub use laws::{always_one, never_both, one_fault, verdict_law};
