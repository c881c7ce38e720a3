//! The words of the command line.
ghost use Rattle.std.specs.Prelude.{◌≡◌, IfOk, map, string_bytes};
ghost use Rattle.vt_cli.specs.Commands.{IsInLimits, alone, command_of, gen_of_words};
ghost use Rattle.vt_cli.specs.Options.{options_of};
ghost use Rattle.vt_cli.specs.private.Pairs.{AreOptionsRead, IsCommandRead};

use crate::Command;
use crate::gen_words::gen_of;
use crate::options::Pair;
use std::alloc::{AllocFailed, Global};
use thiserror::Error;

/// Why words are not read.
#[derive(Clone, Copy, Debug, PartialEq, Eq, Error)]
pub enum WordsFault {
    #[error("the words are no command")]
    Usage,
    #[error("out of memory")]
    NoMemory,
}

impl<T: Drop> From<AllocFailed<T>> for WordsFault {
    ghost use Rattle.vt_cli.specs.declared.words.WordsFault.TheVariants.{NoMemory};

    ghost from_gives = { λ _ e. e ≡ NoMemory };

    fn from(_: AllocFailed<T>) -> WordsFault {
        WordsFault::NoMemory
    }
}

/// The command that the words are.
pub fn read_words(alloc: Global, words: &[String]) -> Result<Command, WordsFault>
    ensures command { IsCommandRead (command_of (map string_bytes words.now)) result }
    ensures within { IfOk result IsInLimits }
{
    match words {
        [] => Err(WordsFault::Usage),
        [word, more @ ..] => {
            if word.as_str() == "render" {
                read_alone(Command::Render, more)
            } else if word.as_str() == "check" {
                read_alone(Command::Check, more)
            } else if word.as_str() == "gen" {
                read_gen(alloc, more)
            } else {
                Err(WordsFault::Usage)
            }
        }
    }
}

/// The command, where no words are behind it.
fn read_alone(command: Command, more: &[String]) -> Result<Command, WordsFault>
    requires { IsInLimits command }
    ensures command { IsCommandRead (alone command (map string_bytes more.now)) result }
    ensures within { IfOk result IsInLimits }
{
    match more {
        [] => Ok(command),
        [_, ..] => Err(WordsFault::Usage),
    }
}

/// `gen` with the options that the words are.
fn read_gen(alloc: Global, words: &[String]) -> Result<Command, WordsFault>
    ensures command { IsCommandRead (gen_of_words (options_of (map string_bytes words.now))) result }
    ensures within { IfOk result IsInLimits }
{
    let options = read_options(alloc, words)?;
    match gen_of(options.as_slice()) {
        Some(command) => Ok(command),
        None => Err(WordsFault::Usage),
    }
}

/// The options that the words are: a name and a value, and so on.
fn read_options(alloc: Global, words: &[String]) -> Result<Vec<Pair<'_>>, WordsFault>
    ensures { AreOptionsRead (options_of (map string_bytes words.now)) result }
{
    let mut options = Vec::new(alloc);
    let mut left = words;
    'options: loop {
        match left {
            [] => return Ok(options),
            [_] => return Err(WordsFault::Usage),
            [name, value, rest @ ..] => {
                let name = name.as_str().as_bytes();
                let value = value.as_str().as_bytes();
                options.push(Pair { name, value })?;
                left = rest;
            }
        }
    }
}
