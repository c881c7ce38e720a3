//! The reach of a block: which paths a thread that runs it may write, itself and by whatever it starts or calls.
#![tactic(auto)]

mod bodies;
mod calls;
mod found;
mod laws;
mod lists;
mod mention;
mod paths;
mod reach;
mod search;
mod walk;

pub use found::{BlockUse, Found, Row};
pub use laws::{each_block_is_found, inner_paths_have_inner_patterns};
pub use mention::{Key, Mention, Mentions};
pub use reach::Reach;
