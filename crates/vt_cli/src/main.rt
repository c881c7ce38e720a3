//! The program: it renders a piece, checks the texts of a session, or writes a generated one, as its words say.
#![tactic(auto)]

mod answer;
mod check;
mod command;
mod gen_words;
mod laws;
mod line;
mod options;
mod perform;
mod piece;
mod status;
#[cfg(test)]
mod tests;
mod transfer;
mod words;

use command::Command;
use perform::perform;
use status::Status;
use std::io::ErrorKind;
use std::process::ExitCode;
use std::{env, io};
use vt_io::{ReaderSource, WriterSink};

/// The words after the program's name. Err where one is no text, or where memory is wanting.
fn arguments(rt: &HostRuntime) -> io::Result<Vec<String>> {
    let mut words = Vec::new(rt.alloc());
    let mut all = env::args(rt)?;
    let _program = all.next();
    for word in all {
        words.push(word)?;
    }
    Ok(words)
}

fn main(rt: HostRuntime) -> ExitCode {
    let mut src = ReaderSource::of(rt.stdin());
    let mut out = WriterSink::of(rt.stdout());
    let status = match arguments(&rt) {
        Ok(words) => perform(&rt, &words, &mut src, &mut out),
        Err(error) if error.kind() == ErrorKind::OutOfMemory => Status::NoMemory,
        // A word that is no text: the words are no command, as no words are.
        Err(_) => perform(&rt, &[], &mut src, &mut out),
    };
    ExitCode::from(status.code())
}
