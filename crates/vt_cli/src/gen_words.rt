//! The options of `gen`.
ghost use Rattle.std.specs.Prelude.{◌≡◌, IfSome, option_copied};
ghost use Rattle.std.specs.List.{list_all};
ghost use Rattle.vt_cli.specs.Commands.{IsInLimits, gen_of, gen_of_values, gen_with, is_gen_option, prints_session};
ghost use Rattle.vt_cli.specs.private.Pairs.{IsBetween, written};

use crate::Command;
use crate::options::{Pair, has_name_twice, is_named, number_or, value_of};

/// `gen` with these options, where they are its own, each at most once.
pub fn gen_of(options: &[Pair<'_>]) -> Option<Command>
    ensures command { result ≡ gen_of (written options.now) }
    ensures within { IfSome result IsInLimits }
{
    if are_gen_options(options)
        && !has_name_twice(options)
        && prints_session(value_of(options, b"--print"))
    {
        gen_of_values(options)
    } else {
        None
    }
}

/// Whether all are options of `gen`.
fn are_gen_options(options: &[Pair<'_>]) -> bool
    ensures { result ≡ list_all (λ option. is_gen_option option.0) (written options.now) }
{
    for option in options {
        if !is_gen_option(option) {
            return false;
        }
    }
    true
}

/// Whether it is an option of `gen`.
fn is_gen_option(option: &Pair<'_>) -> bool
    ensures { result ≡ is_gen_option option.now.name.now }
{
    is_named(option, b"--seed")
        || is_named(option, b"--loops")
        || is_named(option, b"--beats")
        || is_named(option, b"--print")
}

/// Whether what is written is the session: so it is said, or nothing is.
fn prints_session(word: Option<&[u8]>) -> bool
    ensures { result ≡ prints_session (option_copied word.entry) }
{
    match word {
        None => true,
        Some(word) => word == b"session".as_slice(),
    }
}

/// `gen` with the numbers of these options.
#[tactic(auto, unfolding(crate::specs::Commands::gen_of_values))]
fn gen_of_values(options: &[Pair<'_>]) -> Option<Command>
    ensures command { result ≡ gen_of_values (written options.now) }
    ensures within { IfSome result IsInLimits }
{
    let seed = number_or(0, u64::MAX, 0, value_of(options, b"--seed"));
    let loops = number_or(1, 64, 4, value_of(options, b"--loops"));
    let beats = number_or(1, 1024, 16, value_of(options, b"--beats"));
    gen_with(seed, loops, beats)
}

/// `gen` with these numbers, where each is one.
fn gen_with(seed: Option<u64>, loops: Option<u64>, beats: Option<u64>) -> Option<Command>
    requires loops { IfSome loops (IsBetween 1 64) }
    requires beats { IfSome beats (IsBetween 1 1024) }
    ensures command { result ≡ gen_with seed loops beats }
    ensures within { IfSome result IsInLimits }
{
    match seed {
        Some(seed) => match loops {
            Some(loops) => match beats {
                Some(beats) => Some(Command::Gen {
                    seed,
                    loops: loops as u32,
                    beats: beats as u32,
                }),
                None => None,
            },
            None => None,
        },
        None => None,
    }
}
