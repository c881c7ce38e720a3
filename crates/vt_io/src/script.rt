//! A source and a sink in memory that fail in the calls that are listed.

ghost use Rattle.std.specs.Prelude.{◌≡◌, ◌++◌, ◌-◌, ◌^◌, ◌<◌, ◌≤◌, ◌↔◌, ◌⊎◌, IsTrue, List, [], ℕ, Some, Contains, drop, take, length, min, IfOk, IsErr, IsOk, OnErr, OnOk};
ghost use Rattle.std.specs.Io.{ReadsAtMost, WritesAtMost};
ghost use Rattle.std.specs.Io.KnownBytes.{ReadConsumes, WriteAppends};
ghost use Rattle.std.specs.declared.option.Option.{Option};
ghost use Rattle.vt_io.specs.Faults.{HasCause, next_count};
ghost use Rattle.vt_io.specs.Script.{IsListed, new_script, after_success, after_failure};

use crate::{Failed, QuietSource, Sink, Source};
use std::alloc::Global;
use std::marker::Model;
use vt_frac::NoMemory;

/// Which calls fail, and how many bytes another one moves at most.
#[derive(Drop)]
struct Script {
    piece: usize,
    fail_at: Vec<u32>,
    calls: u64,
    faults: u64,
}

impl Model for Script {
    ghost use Rattle.std.specs.Prelude.{◌<◌};
    ghost use Rattle.vt_io.specs.Script as script;

    ghost Value = { script.Script };

    ghost view = { λ s. record { piece = s.piece; fail_at = s.fail_at.items; calls = s.calls; faults = s.faults } };

    ghost invariant = { λ s. 0 < s.piece };
}

impl Script {
    fn of(alloc: Global, piece: usize, fail_at: &[u32]) -> Result<Script, NoMemory>
        requires { 0 < piece }
        ensures { IfOk result (λ s. s ≡ new_script piece fail_at.now) }
    {
        Ok(Script {
            piece,
            fail_at: fail_at.to_vec(alloc)?,
            calls: 0,
            faults: 0,
        })
    }

    /// Counts a call, which fails where it is listed, and answers how many bytes it moves at most.
    fn next(&mut self) -> Result<usize, Failed>
        ensures piece { IfOk result (λ most. most ≡ self.old.piece) }
        ensures some { IfOk result (λ most. 0 < most) }
        ensures fails { IsErr result ↔ IsListed self.old }
        ensures past_the_list { 2 ^ 32 ≤ next_count self.old.calls → IsOk result }
        ensures ok { OnOk result (self.new ≡ after_success self.old) }
        ensures err { OnErr result (self.new ≡ after_failure self.old) }
        ensures cause { HasCause self.old.faults self.new.faults result }
    {
        self.calls = self.calls.saturating_add(1);
        if is_listed(&self.fail_at, self.calls) {
            return Err(self.fault());
        }
        Ok(self.piece)
    }

    /// Counts a fault.
    fn fault(&mut self) -> Failed
        ensures counted { self.new ≡ record self.old { faults = next_count self.old.faults } }
        ensures later { self.old.faults ≤ self.new.faults }
    {
        self.faults = self.faults.saturating_add(1);
        Failed
    }
}

fn is_listed(fail_at: &[u32], call: u64) -> bool
    ensures listed { IsTrue result ↔ Contains fail_at.now call }
    ensures past_the_list { 2 ^ 32 ≤ call → ¬ IsTrue result }
{
    fail_at.iter().any(|k| *k as u64 == call)
}

/// Gives at most a piece of its bytes in a call, and fails in the calls that are listed (from 1). The count of calls
/// stays at the last value of 64 bits, and a listed number has 32, so no call past the list fails. Contracts see it as
/// the bytes that it has left and its script.
#[derive(Drop)]
pub struct ScriptSource {
    bytes: QuietSource,
    script: Script,
}

impl Model for ScriptSource {
    ghost use Rattle.vt_io.specs.Script.{ScriptedSource};

    ghost Value = { ScriptedSource };

    ghost view = { λ s. record { left = s.bytes; script = s.script } };
}

impl ScriptSource {
    /// The source of these bytes that gives at most `piece` of them in a call. Its k-th call (from 1) fails where k is
    /// in `fail_at`. No call and no fault is counted yet. It fails only for want of memory.
    pub fn of(
        alloc: Global,
        bytes: &[u8],
        piece: usize,
        fail_at: &[u32],
    ) -> Result<ScriptSource, NoMemory>
        requires { 0 < piece }
        ensures { IfOk result (λ source. source ≡ record { left = bytes.now; script = new_script piece fail_at.now }) }
    {
        Ok(ScriptSource {
            bytes: QuietSource::of(alloc, bytes)?,
            script: Script::of(alloc, piece, fail_at)?,
        })
    }
}

impl Source for ScriptSource {
    ghost left = { λ s. Some s.left };

    ghost faults = { λ s. s.script.faults };

    /// Reads as many of the bytes left as the piece and `buf` allow. It fails exactly where the call is listed, and
    /// gives nothing then.
    #[tactic(auto, using(crate::proofs::Buffers::beyond_prefix))]
    fn read(&mut self, buf: &mut [u8]) -> Result<usize, Failed>
        ensures bound { ReadsAtMost result buf.new }
        ensures bytes { ReadConsumes (Some self.old.left) (Some self.new.left) result buf.new }
        ensures beyond { IfOk result (λ n. drop n buf.new ≡ drop n buf.old) }
        ensures cause { HasCause self.old.script.faults self.new.script.faults result }

        ensures fails { IsErr result ↔ IsListed self.old.script }
        ensures past_the_list { 2 ^ 32 ≤ next_count self.old.script.calls → IsOk result }
        ensures amount { IfOk result (λ n. n ≡ min (min self.old.script.piece (length buf.old)) (length self.old.left)) }
        ensures given { IfOk result (λ n. self.new ≡
            record { left = drop n self.old.left; script = after_success self.old.script }) }
        ensures failed { OnErr result (self.new ≡
            record { left = self.old.left; script = after_failure self.old.script }) }
        ensures unread { OnErr result (buf.new ≡ buf.old) }
    {
        let most = self.script.next()?.min(buf.len());
        self.bytes.read(&mut buf[..most])
    }
}

/// Takes at most a piece in a call while it has space, and fails in the calls that are listed (from 1). Past the list
/// it fails only where no space is left. Contracts see it as the bytes that it has taken, the space that is left and its script.
#[derive(Drop)]
pub struct ScriptSink {
    bytes: Vec<u8>,
    room: usize,
    script: Script,
}

impl Model for ScriptSink {
    ghost use Rattle.std.specs.Prelude.{◌+◌, ◌≤◌, vec_len, vec_capacity};
    ghost use Rattle.vt_io.specs.Script.{ScriptedSink};

    ghost Value = { ScriptedSink };

    ghost view = { λ s. record { taken = s.bytes.items; room = s.room; script = s.script } };

    ghost invariant = { λ s. vec_len s.bytes + s.room ≤ vec_capacity s.bytes };
}

impl ScriptSink {
    /// The sink with space for `room` bytes that takes at most `piece` of them in a call. Its k-th call (from 1) fails
    /// where k is in `fail_at`, and each call fails once no space is left. No call and no fault is counted yet. It fails
    /// only for want of memory.
    pub fn of(
        alloc: Global,
        piece: usize,
        fail_at: &[u32],
        room: usize,
    ) -> Result<ScriptSink, NoMemory>
        requires { 0 < piece }
        ensures { IfOk result (λ sink. sink ≡ record {
          taken = [];
          room = room;
          script = new_script piece fail_at.now;
        }) }
    {
        Ok(ScriptSink {
            bytes: Vec::with_capacity(alloc, room)?,
            room,
            script: Script::of(alloc, piece, fail_at)?,
        })
    }

    /// The bytes that it has taken.
    pub fn taken(&self) -> &[u8]
        ensures { result.now ≡ self.now.taken }
    {
        &self.bytes
    }
}

impl Sink for ScriptSink {
    ghost taken = { λ s. Some s.taken };

    ghost faults = { λ s. s.script.faults };

    /// Takes as many bytes of `piece` as the script's piece and the space left allow. It fails exactly where the call
    /// is listed or no space is left, and takes nothing then.
    fn write(&mut self, piece: &[u8]) -> Result<usize, Failed>
        requires { 0 < length piece.now }

        ensures some { IfOk result (λ n. 0 < n) }
        ensures bound { WritesAtMost result piece.now }
        ensures bytes { WriteAppends (Some self.old.taken) (Some self.new.taken) result piece.now }
        ensures cause { HasCause self.old.script.faults self.new.script.faults result }

        ensures fails { IsErr result ↔ (IsListed self.old.script ⊎ (self.old.room ≡ 0)) }
        ensures past_the_list { 2 ^ 32 ≤ next_count self.old.script.calls → 0 < self.old.room → IsOk result }
        ensures amount { IfOk result (λ n. n ≡ min (min (length piece.now) self.old.script.piece) self.old.room) }
        ensures written { IfOk result (λ n. self.new ≡ record {
          taken = self.old.taken ++ take n piece.now;
          room = self.old.room - n;
          script = after_success self.old.script;
        }) }
        ensures failed { OnErr result (self.new ≡ record {
          taken = self.old.taken;
          room = self.old.room;
          script = after_failure self.old.script;
        }) }
    {
        let most = self.script.next()?;
        if self.room == 0 {
            return Err(self.script.fault());
        }
        let count = piece.len().min(most).min(self.room);
        self.bytes.extend_from_slice(&piece[..count]).unwrap();
        self.room -= count;
        Ok(count)
    }
}
