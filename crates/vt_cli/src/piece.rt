//! From lines to a score: each action at its virtual time.
ghost use Rattle.std.specs.Prelude.{◌≡◌, ◌+◌, ◌^◌, ◌<◌, ◌≤◌, ◌∷◌, [], List, length, pos, position, IfOk, IfSome};
ghost use Rattle.vt_frac.specs.Fraction.{Fraction, whole};
ghost use Rattle.vt_frac.specs.Arithmetic.{sum_of};
ghost use Rattle.vt_cli.specs.Piece.{horizon, next_time_of, note_event, place_at, asleep_until, ended, preceded, score_after, score_of, score_of_lines, is_refused, refused_score};

use crate::line::{Line, Note, read_lines};
use std::alloc::Global;
use vt_event::{Event, Events, Living, LivingState, Livings, Options, Place, Score, ThreadId};
use vt_frac::{Frac, Name, NoMemory};
use vt_value::{FaultKind, Value};

/// The number of the one text, and so of its thread.
const TEXT: u32 = 1;

/// The time after a rest, in seconds.
#[derive(Clone, Copy)]
pub enum NextTime {
    /// It is before the horizon.
    Before(Frac),
    /// It is at or past the horizon.
    AtOrPast(Frac),
    /// It fits no fraction.
    Unfit,
}

fn zero() -> Frac
    ensures { result ≡ whole (pos 0) }
{
    Frac::new(0, 1).unwrap()
}

fn horizon() -> Frac
    ensures { result ≡ horizon }
{
    Frac::new(60, 1).unwrap()
}

fn next_time_of(time: Frac, amount: Frac) -> NextTime
    ensures { result ≡ next_time_of (sum_of time amount) }
{
    match time.add(amount) {
        Ok(later) => {
            if later.cmp(&horizon()).is_lt() {
                NextTime::Before(later)
            } else {
                NextTime::AtOrPast(later)
            }
        }
        Err(_) => NextTime::Unfit,
    }
}

fn place(alloc: Global, time: Frac, step: u32) -> Place
    ensures { result ≡ place_at time step }
{
    Place {
        time,
        micro: 0,
        thread: ThreadId::of_text(alloc, TEXT),
        step,
    }
}

fn note_event(alloc: Global, place: Place, note: Note) -> Result<Event, NoMemory>
    ensures { IfOk result (λ event. event ≡ note_event place note.number) }
{
    let synth = Name::of(alloc, b"beep")?;
    let note = Value::Whole(note.number);
    Ok(Event::of_play(place, synth, note, Options::new(alloc), None))
}

/// The score of events after which no thread lives.
fn ended(alloc: Global, events: Events) -> Score
    ensures { result ≡ preceded events ended }
{
    Score {
        events,
        living: Livings::new(alloc),
    }
}

/// The score of events and then a fault.
fn faulted(alloc: Global, mut events: Events, fault: Event) -> Result<Score, NoMemory>
    ensures { IfOk result (λ score. score ≡ preceded events (preceded (fault ∷ []) ended)) }
{
    events.push(fault)?;
    Ok(ended(alloc, events))
}

/// The score of events after which the thread is asleep.
fn asleep(alloc: Global, events: Events, time: Frac) -> Result<Score, NoMemory>
    ensures { IfOk result (λ score. score ≡ preceded events (asleep_until time)) }
{
    let mut living = Livings::new(alloc);
    living.push(Living {
        thread: ThreadId::of_text(alloc, TEXT),
        state: LivingState::Asleep(time),
    })?;
    Ok(Score { events, living })
}

fn play_lines(alloc: Global, lines: &[Line]) -> Result<Score, NoMemory>
    requires { length lines.now < 2 ^ 31 }
    ensures { IfOk result (λ score. score ≡ score_after [] lines.now) }
{
    let mut events = Events::new(alloc);
    let mut time = zero();
    let mut step = 1u32;
    'play: for (index, line) in lines.iter().enumerate() {
        match *line {
            Line::Nothing => {}
            Line::Refused => {}
            Line::Play(note) => {
                let event = note_event(alloc, place(alloc, time, step), note)?;
                events.push(event)?;
                step += 1;
            }
            Line::Sleep(amount) => match next_time_of(time, amount) {
                NextTime::Before(later) => {
                    time = later;
                    step += 1;
                }
                NextTime::AtOrPast(later) => return asleep(alloc, events, later),
                NextTime::Unfit => {
                    let here = place(alloc, time, step);
                    let line = index as u32 + 1;
                    let fault = Event::of_fault(alloc, here, FaultKind::Overflow, line)?;
                    return faulted(alloc, events, fault);
                }
            },
        }
    }
    Ok(ended(alloc, events))
}

fn refused(alloc: Global, line: u32) -> Result<Score, NoMemory>
    ensures { IfOk result (λ score. score ≡ refused_score line) }
{
    let here = place(alloc, zero(), 0);
    let fault = Event::of_fault(alloc, here, FaultKind::Syntax, line)?;
    faulted(alloc, Events::new(alloc), fault)
}

fn first_refused(lines: &[Line]) -> Option<usize>
    ensures found { result ≡ position is_refused lines.now }
    ensures within { IfSome result (λ index. index < length lines.now) }
{
    lines.iter().position(|line| matches!(line, Line::Refused))
}

fn score_of_lines(alloc: Global, lines: &[Line]) -> Result<Score, NoMemory>
    requires { length lines.now < 2 ^ 31 }
    ensures { IfOk result (λ score. score ≡ score_of_lines lines.now) }
{
    match first_refused(lines) {
        Some(index) => refused(alloc, index as u32 + 1),
        None => play_lines(alloc, lines),
    }
}

/// The score of a piece.
pub fn score_of(alloc: Global, text: &[u8]) -> Result<Score, NoMemory>
    requires { length text.now < 2 ^ 30 }
    ensures { IfOk result (λ score. score ≡ score_of text.now) }
{
    let lines = read_lines(alloc, text)?;
    score_of_lines(alloc, &lines)
}
