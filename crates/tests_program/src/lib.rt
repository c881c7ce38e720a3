//! Tests of ends, events, score texts, sessions and generated sessions over the public calls: one file a library.
#![tactic(auto)]

#[cfg(test)]
mod event;
#[cfg(test)]
mod generated;
#[cfg(test)]
mod io;
#[cfg(test)]
mod session;
#[cfg(test)]
mod state;
#[cfg(test)]
mod text;
