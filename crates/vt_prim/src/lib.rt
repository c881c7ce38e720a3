//! The pure and random calls of the language.
#![tactic(auto)]

mod adding;
mod arguments;
mod climbing;
mod counting;
mod draws;
mod inverting;
mod lists;
mod making;
mod notes;
mod numbers;
mod parts;
mod picking;
mod random;
mod rows;
mod shuffling;
mod signatures;
mod sorting;

pub use rows::call;
