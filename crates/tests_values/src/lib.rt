//! Tests of numbers, values, paths, tables and calls, over the public calls: one file a library.
#![tactic(auto)]

#[cfg(test)]
mod answers;
#[cfg(test)]
mod frac;
#[cfg(test)]
mod path;
#[cfg(test)]
mod prim;
#[cfg(test)]
mod rand;
#[cfg(test)]
mod reader;
#[cfg(test)]
mod table;
#[cfg(test)]
mod value;
