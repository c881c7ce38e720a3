//! Any writer of std as a sink.

ghost use Rattle.std.specs.Prelude.{◌≡◌, ◌<◌, length, IfOk, OnErr, OnOk};
ghost use Rattle.std.specs.Io.{WritesAtMost};
ghost use Rattle.std.specs.Io.KnownBytes.{WriteAppends};
ghost use Rattle.vt_io.specs.Faults.{HasCause, next_count};

use crate::{Failed, Sink};
use std::io::Write;
use std::marker::Model;

/// A writer of std, with a count of its errors. To take nothing of a piece counts as one. Contracts see it as the bytes
/// that the writer holds, where it tells, and that count.
#[derive(Drop)]
pub struct WriterSink<T: Write> {
    inner: T,
    faults: u64,
}

impl<T: Write> Model for WriterSink<T> {
    ghost use Rattle.vt_io.specs.Faults.{CountedSink};

    ghost Value = { CountedSink };

    ghost view = { λ s. record { taken = T.contents s.inner; faults = s.faults } };
}

impl<T: Write> WriterSink<T> {
    /// The sink that writes to `inner`. No fault is counted yet.
    pub fn of(inner: T) -> WriterSink<T>
        ensures { result ≡ record { taken = T.contents inner; faults = 0 } }
    {
        WriterSink { inner, faults: 0 }
    }
}

impl<T: Write> Sink for WriterSink<T> {
    ghost taken = { λ s. s.taken };

    ghost faults = { λ s. s.faults };

    /// One write of the writer. Each of its errors is a fault, and so is that it takes nothing.
    fn write(&mut self, piece: &[u8]) -> Result<usize, Failed>
        requires { 0 < length piece.now }

        ensures some { IfOk result (λ n. 0 < n) }
        ensures bound { WritesAtMost result piece.now }
        ensures bytes { WriteAppends self.old.taken self.new.taken result piece.now }
        ensures cause { HasCause self.old.faults self.new.faults result }

        ensures fine { OnOk result (self.new.faults ≡ self.old.faults) }
        ensures counted { OnErr result (self.new.faults ≡ next_count self.old.faults) }
    {
        match self.inner.write(piece) {
            Ok(count) if count > 0 => Ok(count),
            _ => {
                self.faults = self.faults.saturating_add(1);
                Err(Failed)
            }
        }
    }
}
