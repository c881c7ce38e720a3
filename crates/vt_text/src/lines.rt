//! The lines of events and of living threads.

ghost use Rattle.std.specs.Prelude.{◌≡◌, ◌++◌, IfOk, IsTrue, OnOk};
ghost use Rattle.vt_event.specs.Kinds.{is_shown};
ghost use Rattle.vt_text.specs.ScoreText.{event_line, living_line};

use crate::deeds::write_deed;
use crate::parts::{write_bytes, write_place, write_thread};
use std::alloc::Global;
use vt_event::{Event, Living, LivingState};
use vt_frac::NoMemory;

#[tactic(auto, unfolding(crate::specs::ScoreText::event_line))]
pub fn write_event(alloc: Global, out: &mut Vec<u8>, event: &Event) -> Result<(), NoMemory>
    ensures { OnOk result (out.new.items ≡ out.old.items ++ event_line event.now) }
{
    write_place(alloc, out, event.place())?;
    write_bytes(out, b" ")?;
    write_deed(alloc, out, event)
}

#[tactic(auto, unfolding(crate::specs::ScoreText::living_line))]
pub fn write_living(alloc: Global, out: &mut Vec<u8>, living: &Living) -> Result<(), NoMemory>
    ensures { OnOk result (out.new.items ≡ out.old.items ++ living_line living.now) }
{
    match &living.state {
        LivingState::Asleep(time) => {
            write_bytes(out, b"asleep ")?;
            write_thread(out, &living.thread)?;
            write_bytes(out, b" ")?;
            time.write(alloc, out)
        }
        LivingState::Waiting(pattern) => {
            write_bytes(out, b"waiting ")?;
            write_thread(out, &living.thread)?;
            write_bytes(out, b" ")?;
            pattern.write(alloc, out)
        }
    }
}

/// The line of an event of a kind that a score shows, without its newline. It fails only for want of memory.
pub fn line(alloc: Global, event: &Event) -> Result<Vec<u8>, NoMemory>
    requires { IsTrue (is_shown event.now.kind) }
    ensures { IfOk result (λ text. text.items ≡ event_line event.now) }
{
    let mut text = Vec::new(alloc);
    write_event(alloc, &mut text, event)?;
    Ok(text)
}
