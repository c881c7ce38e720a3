//! What the words and the input come to, whole in memory.
ghost use Rattle.std.specs.Prelude.{◌≡◌, ◌≤◌, IfOk, IfSome, length};
ghost use Rattle.std.specs.List.{list_any};
ghost use Rattle.vt_cli.specs.Commands.{IsInLimits};
ghost use Rattle.vt_cli.specs.Check.{verdicts_of};
ghost use Rattle.vt_cli.specs.Outcome.{AnswerView, answer_to, bad_session, checked, generated, is_fault, outcome_of, rendered};
ghost use Rattle.vt_cli.specs.Reading.{limit};

use crate::check::{check_texts, write_number};
use crate::piece::score_of;
use crate::transfer::LIMIT;
use crate::{Command, Status};
use std::alloc::Global;
use std::marker::Model;
use vt_event::{Event, Kind, Score};
use vt_frac::NoMemory;
use vt_gen::session_text;
use vt_session::{Session, SessionFault, read_session};
use vt_text::score_text;

/// A status and the text that is due with it.
#[derive(Drop)]
pub struct Answer {
    status: Status,
    text: Vec<u8>,
}

impl Model for Answer {
    ghost Value = { AnswerView };

    ghost view = { λ answer. record { status = answer.status; text = answer.text.items } };
}

impl Answer {
    pub fn status(&self) -> Status
        ensures { result ≡ self.now.status }
    {
        self.status
    }

    pub fn text(&self) -> &[u8]
        ensures { result.now ≡ self.now.text }
    {
        &self.text
    }
}

fn fixed(alloc: Global, status: Status, text: &[u8]) -> Result<Answer, NoMemory>
    ensures { IfOk result (λ answer. answer ≡ record { status = status; text = text.now }) }
{
    Ok(Answer {
        status,
        text: text.to_vec(alloc)?,
    })
}

fn has_fault(events: &[Event]) -> bool
    ensures { result ≡ list_any (λ event. is_fault event.kind) events.now }
{
    events
        .iter()
        .any(|event| matches!(event.kind(), Kind::Fault(_)))
}

fn rendered(alloc: Global, score: &Score) -> Result<Answer, NoMemory>
    ensures { IfOk result (λ answer. answer ≡ rendered score.now) }
{
    let text = score_text(alloc, score)?;
    let status = if has_fault(score.events.as_slice()) {
        Status::Faulty
    } else {
        Status::Fine
    };
    Ok(Answer { status, text })
}

fn render(alloc: Global, input: &[u8]) -> Result<Answer, NoMemory>
    requires { length input.now ≤ limit }
    ensures { IfOk result (λ answer. answer ≡ answer_to Command.Render input.now) }
{
    let score = score_of(alloc, input)?;
    rendered(alloc, &score)
}

/// A line for each text of the session.
fn checked(alloc: Global, session: &Session) -> Result<Answer, NoMemory>
    ensures { IfOk result (λ answer. answer ≡ checked (verdicts_of session.now)) }
{
    let mut text = Vec::new(alloc);
    let all_good = check_texts(alloc, &mut text, session.texts().as_slice())?;
    let status = if all_good {
        Status::Fine
    } else {
        Status::Faulty
    };
    Ok(Answer { status, text })
}

/// That the line with this number breaks a rule of sessions.
fn bad_session(alloc: Global, line: u32) -> Result<Answer, NoMemory>
    ensures { IfOk result (λ answer. answer ≡ bad_session line) }
{
    let mut text = Vec::from_slice(alloc, b"bad session at line ")?;
    write_number(&mut text, line)?;
    text.extend_from_slice(b"\n")?;
    Ok(Answer {
        status: Status::BadSession,
        text,
    })
}

fn check(alloc: Global, input: &[u8]) -> Result<Answer, NoMemory>
    requires { length input.now ≤ limit }
    ensures { IfOk result (λ answer. answer ≡ answer_to Command.Check input.now) }
{
    match read_session(alloc, input) {
        Ok(session) => checked(alloc, &session),
        Err(SessionFault::BadSession { line }) => bad_session(alloc, line),
        Err(SessionFault::NoMemory) => Err(NoMemory),
    }
}

fn generated(alloc: Global, seed: u64, loops: u32, beats: u32) -> Result<Answer, NoMemory>
    requires { IsInLimits (Command.Gen seed loops beats) }
    ensures { IfOk result (λ answer. answer ≡ generated seed loops beats) }
{
    let text = session_text(alloc, seed, loops, beats)?;
    Ok(Answer {
        status: Status::Fine,
        text,
    })
}

/// What a command answers to an input within the limit.
fn answer_to(alloc: Global, command: Command, input: &[u8]) -> Result<Answer, NoMemory>
    requires short { length input.now ≤ limit }
    requires within { IsInLimits command }
    ensures { IfOk result (λ answer. answer ≡ answer_to command input.now) }
{
    match command {
        Command::Render => render(alloc, input),
        Command::Check => check(alloc, input),
        Command::Gen { seed, loops, beats } => generated(alloc, seed, loops, beats),
    }
}

/// What a command, or none, comes to on an input.
pub fn answer_of(alloc: Global, command: Option<Command>, input: &[u8]) -> Result<Answer, NoMemory>
    requires { IfSome command IsInLimits }
    ensures { IfOk result (λ answer. answer ≡ outcome_of command input.now) }
{
    match command {
        None => fixed(
            alloc,
            Status::Usage,
            b"usage: render, check or gen, then pairs --name value\n",
        ),
        Some(command) => {
            if input.len() <= LIMIT {
                answer_to(alloc, command, input)
            } else {
                fixed(alloc, Status::TooLong, b"too long\n")
            }
        }
    }
}
