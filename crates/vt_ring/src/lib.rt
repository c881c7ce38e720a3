//! Rings: the calls that build, cut, turn, repeat and shuffle lists of values.
//!
//! Each call answers the list that its definition gives, or the definition's fault. A call that takes memory can answer
//! `NoMemory` in place of a list, and never in place of a fault.
#![tactic(auto)]

mod arguments;
mod at;
mod copies;
mod exact;
mod knitting;
mod laws;
mod lines;
mod parts;
mod ranges;
mod repeating;
mod series;
mod shuffling;
mod spreading;
mod truths;
mod turning;
mod within;

pub use arguments::whole_argument;
pub use at::ring_at;
pub use exact::{exact_difference, exact_product, exact_sum};
pub use knitting::knit;
pub use laws::{
    calls_give_within, ceiling_is_least, rotates_by_index, rounded_up_is_least, sort_is_in_order,
};
pub use lines::line;
pub use parts::{drop_first, take};
pub use ranges::range;
pub use repeating::{repeat, stretch};
pub use shuffling::shuffled;
pub use spreading::spread;
pub use truths::bools;
pub use turning::{mirror, reflect, reverse, rotate};
