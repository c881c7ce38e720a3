//! Any reader of std as a source.

ghost use Rattle.std.specs.Prelude.{◌≡◌, drop, IfOk, OnErr, OnOk};
ghost use Rattle.std.specs.Io.{ReadsAtMost};
ghost use Rattle.std.specs.Io.KnownBytes.{ReadConsumes};
ghost use Rattle.vt_io.specs.Faults.{HasCause, next_count};

use crate::{Failed, Source};
use std::io::Read;
use std::marker::Model;

/// A read goes through a block of this size, so that what stands in the caller's buffer past the bytes that came
/// is left alone whatever the reader does there.
const BLOCK: usize = 4096;

/// A reader of std, with a count of its errors. Contracts see it as the bytes that the reader has left, where it tells,
/// and that count.
#[derive(Drop)]
pub struct ReaderSource<T: Read> {
    inner: T,
    faults: u64,
}

impl<T: Read> Model for ReaderSource<T> {
    ghost use Rattle.vt_io.specs.Faults.{CountedSource};

    ghost Value = { CountedSource };

    ghost view = { λ s. record { left = T.remaining s.inner; faults = s.faults } };
}

impl<T: Read> ReaderSource<T> {
    /// The source that reads from `inner`. No fault is counted yet.
    pub fn of(inner: T) -> ReaderSource<T>
        ensures { result ≡ record { left = T.remaining inner; faults = 0 } }
    {
        ReaderSource { inner, faults: 0 }
    }
}

impl<T: Read> Source for ReaderSource<T> {
    ghost left = { λ s. s.left };

    ghost faults = { λ s. s.faults };

    /// One read of the reader. Each of its errors is a fault.
    fn read(&mut self, buf: &mut [u8]) -> Result<usize, Failed>
        ensures bound { ReadsAtMost result buf.new }
        ensures bytes { ReadConsumes self.old.left self.new.left result buf.new }
        ensures beyond { IfOk result (λ n. drop n buf.new ≡ drop n buf.old) }
        ensures cause { HasCause self.old.faults self.new.faults result }

        ensures fine { OnOk result (self.new.faults ≡ self.old.faults) }
        ensures counted { OnErr result (self.new.faults ≡ next_count self.old.faults) }
        ensures unread { OnErr result (buf.new ≡ buf.old) }
    {
        let mut block = [0u8; BLOCK];
        let most = buf.len().min(BLOCK);
        let Ok(count) = self.inner.read(&mut block[..most]) else {
            self.faults = self.faults.saturating_add(1);
            return Err(Failed);
        };
        buf[..count].copy_from_slice(&block[..count]);
        Ok(count)
    }
}
