//! What is read from and written to.

ghost use Rattle.std.specs.Prelude.{◌≡◌, ◌<◌, List, ℕ, drop, length, IfOk};
ghost use Rattle.std.specs.Io.{ReadsAtMost, WritesAtMost};
ghost use Rattle.std.specs.Io.KnownBytes.{ReadConsumes, WriteAppends};
ghost use Rattle.std.specs.declared.option.Option.{Option};
ghost use Rattle.vt_io.specs.Faults.{HasCause};

use thiserror::Error;

/// A read or a write failed.
#[derive(Clone, Copy, Debug, PartialEq, Eq, Error)]
#[error("a read or a write failed")]
pub struct Failed;

/// What is read from.
pub trait Source {
    /// The bytes that it has left, where it tells.
    ghost left: { Self → Option (List ℕ) };

    /// Its count of faults, which never falls.
    ghost faults: { Self → ℕ };

    /// Reads some of the bytes that are left into the first bytes of `buf`, and answers how many; the rest of `buf` is as
    /// before. None into a buffer that is not empty is the end. It fails only where the count of faults rose in the
    /// call or stands at 2^64 - 1; what is left is then as before, and nothing is said of `buf`.
    fn read(&mut self, buf: &mut [u8]) -> Result<usize, Failed>
        ensures bound { ReadsAtMost result buf.new }
        ensures bytes { ReadConsumes (left self.old) (left self.new) result buf.new }
        ensures beyond { IfOk result (λ n. drop n buf.new ≡ drop n buf.old) }
        ensures cause { HasCause (faults self.old) (faults self.new) result };
}

/// What is written to.
pub trait Sink {
    /// The bytes that it has taken, where it tells.
    ghost taken: { Self → Option (List ℕ) };

    /// Its count of faults, which never falls.
    ghost faults: { Self → ℕ };

    /// Takes one byte or more from the first bytes of `piece`, and answers how many. It fails only where the count of faults
    /// rose in the call or stands at 2^64 - 1, and nothing is taken then.
    fn write(&mut self, piece: &[u8]) -> Result<usize, Failed>
        requires { 0 < length piece.now }
        ensures some { IfOk result (λ n. 0 < n) }
        ensures bound { WritesAtMost result piece.now }
        ensures bytes { WriteAppends (taken self.old) (taken self.new) result piece.now }
        ensures cause { HasCause (faults self.old) (faults self.new) result };
}
