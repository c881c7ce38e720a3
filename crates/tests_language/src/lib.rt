//! Tests of the language over the public calls: one file a library.
#![tactic(auto)]

#[cfg(test)]
mod check;
#[cfg(test)]
mod lex;
#[cfg(test)]
mod parse;
#[cfg(test)]
mod reach;
#[cfg(test)]
mod run;
#[cfg(test)]
mod serial;
