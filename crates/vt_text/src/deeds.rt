//! What an event line says behind its place.

ghost use Rattle.std.specs.Prelude.{◌≡◌, ◌++◌, OnOk, codes, decimal};
ghost use Rattle.vt_value.specs.Faults.{fault_word};
ghost use Rattle.vt_value.specs.Text.{value_text};
ghost use Rattle.vt_text.specs.ScoreText.{after_blank, deed_text, setting_text, shown_path, spread_text};

use crate::parts::{
    write_after_blank, write_bytes, write_fx, write_number, write_options, write_path, write_spread,
};
use std::alloc::Global;
use vt_event::{Event, Kind};
use vt_frac::NoMemory;
use vt_value::FaultKind;

/// The options of an event, and the effect in which it stands.
fn write_setting(alloc: Global, out: &mut Vec<u8>, event: &Event) -> Result<(), NoMemory>
    ensures { OnOk result (out.new.items ≡ out.old.items ++ setting_text event.now) }
{
    write_options(alloc, out, event.options())?;
    write_fx(out, event.fx())
}

fn write_play(alloc: Global, out: &mut Vec<u8>, event: &Event) -> Result<(), NoMemory>
    ensures { OnOk result (out.new.items ≡ out.old.items ++ deed_text Kind.Play event.now) }
{
    write_bytes(out, b"play :")?;
    write_bytes(out, event.name().as_bytes())?;
    write_after_blank(alloc, out, event.value())?;
    write_setting(alloc, out, event)
}

fn write_synth(alloc: Global, out: &mut Vec<u8>, event: &Event) -> Result<(), NoMemory>
    ensures { OnOk result (out.new.items ≡ out.old.items ++ deed_text Kind.Synth event.now) }
{
    write_bytes(out, b"synth :")?;
    write_bytes(out, event.name().as_bytes())?;
    write_setting(alloc, out, event)
}

fn write_sample(alloc: Global, out: &mut Vec<u8>, event: &Event) -> Result<(), NoMemory>
    ensures { OnOk result (out.new.items ≡ out.old.items ++ deed_text Kind.Sample event.now) }
{
    write_bytes(out, b"sample ")?;
    event.value().write(alloc, out)?;
    write_setting(alloc, out, event)
}

fn write_effect(alloc: Global, out: &mut Vec<u8>, event: &Event) -> Result<(), NoMemory>
    ensures { OnOk result (out.new.items ≡ out.old.items ++ deed_text Kind.Fx event.now) }
{
    write_bytes(out, b"fx ")?;
    event.value().write(alloc, out)?;
    write_bytes(out, b" :")?;
    write_bytes(out, event.name().as_bytes())?;
    write_setting(alloc, out, event)
}

fn write_cue(alloc: Global, out: &mut Vec<u8>, event: &Event) -> Result<(), NoMemory>
    ensures { OnOk result (out.new.items ≡ out.old.items ++ deed_text Kind.Cue event.now) }
{
    write_bytes(out, b"cue ")?;
    write_path(alloc, out, event.path())?;
    write_spread(alloc, out, event.value())
}

fn write_set(alloc: Global, out: &mut Vec<u8>, event: &Event) -> Result<(), NoMemory>
    ensures { OnOk result (out.new.items ≡ out.old.items ++ deed_text Kind.Set event.now) }
{
    write_bytes(out, b"set ")?;
    write_path(alloc, out, event.path())?;
    write_after_blank(alloc, out, event.value())
}

fn write_log(alloc: Global, out: &mut Vec<u8>, event: &Event) -> Result<(), NoMemory>
    ensures { OnOk result (out.new.items ≡ out.old.items ++ deed_text Kind.Log event.now) }
{
    write_bytes(out, b"log")?;
    write_spread(alloc, out, event.value())
}

fn write_took(alloc: Global, out: &mut Vec<u8>, event: &Event) -> Result<(), NoMemory>
    ensures { OnOk result (out.new.items ≡ out.old.items ++ deed_text Kind.Took event.now) }
{
    write_bytes(out, b"took ")?;
    write_path(alloc, out, event.path())?;
    write_spread(alloc, out, event.value())
}

fn write_fault(out: &mut Vec<u8>, fault: FaultKind, line: u32) -> Result<(), NoMemory>
    ensures { OnOk result (out.new.items ≡ out.old.items ++ (codes "fault " ++ fault_word fault ++ codes " " ++ decimal line)) }
{
    write_bytes(out, b"fault ")?;
    write_bytes(out, fault.word().as_bytes())?;
    write_bytes(out, b" ")?;
    write_number(out, u64::from(line))
}

pub fn write_deed(alloc: Global, out: &mut Vec<u8>, event: &Event) -> Result<(), NoMemory>
    ensures { OnOk result (out.new.items ≡ out.old.items ++ deed_text event.now.kind event.now) }
{
    match event.kind() {
        Kind::Play => write_play(alloc, out, event),
        Kind::Synth => write_synth(alloc, out, event),
        Kind::Sample => write_sample(alloc, out, event),
        Kind::Fx => write_effect(alloc, out, event),
        Kind::Cue => write_cue(alloc, out, event),
        Kind::Set => write_set(alloc, out, event),
        Kind::Log => write_log(alloc, out, event),
        Kind::Took => write_took(alloc, out, event),
        Kind::Fault(fault) => write_fault(out, fault, event.line()),
        Kind::Body => Ok(()),
        Kind::Defined => Ok(()),
        Kind::Started => Ok(()),
        Kind::Ended => Ok(()),
    }
}
