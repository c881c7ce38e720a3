//! The whole text.

ghost use Rattle.std.specs.Prelude.{◌≡◌, ◌++◌, IfOk, OnOk, length};
ghost use Rattle.vt_text.specs.ScoreText.{event_line, event_lines, living_line, living_lines, newline, score_text_of, shown};

use crate::lines::{write_event, write_living};
use crate::parts::{write_bytes, write_number};
use std::alloc::Global;
use vt_event::{Event, Living, Score};
use vt_frac::NoMemory;

/// An event's line with its newline.
fn write_event_line(alloc: Global, out: &mut Vec<u8>, event: &Event) -> Result<(), NoMemory>
    ensures { OnOk result (out.new.items ≡ out.old.items ++ (event_line event.now ++ newline)) }
{
    write_event(alloc, out, event)?;
    write_bytes(out, b"\n")
}

/// A living thread's line with its newline.
fn write_living_line(alloc: Global, out: &mut Vec<u8>, living: &Living) -> Result<(), NoMemory>
    ensures { OnOk result (out.new.items ≡ out.old.items ++ (living_line living.now ++ newline)) }
{
    write_living(alloc, out, living)?;
    write_bytes(out, b"\n")
}

/// The lines of the events that are shown.
fn write_events(alloc: Global, out: &mut Vec<u8>, events: &[Event]) -> Result<(), NoMemory>
    ensures { OnOk result (out.new.items ≡ out.old.items ++ event_lines events.now) }
{
    for event in events {
        let kind = event.kind();
        if kind.is_shown() {
            write_event_line(alloc, out, event)?;
        }
    }
    Ok(())
}

/// How many events are shown.
fn count_shown(events: &[Event]) -> usize
    ensures { result ≡ length (shown events.now) }
{
    let mut count = 0;
    for event in events {
        if event.kind().is_shown() {
            count += 1;
        }
    }
    count
}

fn write_livings(alloc: Global, out: &mut Vec<u8>, livings: &[Living]) -> Result<(), NoMemory>
    ensures { OnOk result (out.new.items ≡ out.old.items ++ living_lines livings.now) }
{
    for living in livings {
        write_living_line(alloc, out, living)?;
    }
    Ok(())
}

/// The text of a score: a line for each event that is shown, a line for each living thread, and the line of the end, each
/// with its newline. It fails only for want of memory.
#[tactic(auto, unfolding(crate::specs::ScoreText::score_text_of))]
pub fn score_text(alloc: Global, score: &Score) -> Result<Vec<u8>, NoMemory>
    ensures { IfOk result (λ text. text.items ≡ score_text_of score.now) }
{
    let events = score.events.as_slice();
    let mut text = Vec::new(alloc);
    write_events(alloc, &mut text, events)?;
    write_livings(alloc, &mut text, score.living.as_slice())?;
    write_bytes(&mut text, b"end ")?;
    write_number(&mut text, count_shown(events) as u64)?;
    write_bytes(&mut text, b"\n")?;
    Ok(text)
}
