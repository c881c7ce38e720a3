//! Tests of what calls are given, and of what the calls without blocks do, over the public calls.
#![tactic(auto)]

#[cfg(test)]
mod calls;
#[cfg(test)]
mod events;
#[cfg(test)]
mod reader;
#[cfg(test)]
mod turns;
