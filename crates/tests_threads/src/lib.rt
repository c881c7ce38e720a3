//! Tests that start threads, of the libraries below, by their public calls.
#![tactic(auto)]

#[cfg(test)]
mod counter;
#[cfg(test)]
mod lock;
#[cfg(test)]
mod shelf;
