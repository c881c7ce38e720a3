//! What a lock may keep.
ghost use Rattle.std.specs.Prelude.{ℕ, List};

/// A value that a lock keeps: it has a key, which never changes, and a log, which grows by entries of workers.
///
/// All three members are meanings alone and take no code. The number of a worker is below 64. `Key` and `Entry` are
/// types whose meanings are plain data.
pub trait Kept: Sized + Drop + Send {
    type Key;

    type Entry;

    ghost key: { Self → Self.Key };

    ghost log: { Self → List Self.Entry };

    ghost worker: { Self.Entry → ℕ };
}
