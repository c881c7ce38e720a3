//! What holds of threads that began as the texts can. These functions do nothing; each has a law for its contract.

ghost use Rattle.vt_reached.specs.Leading.{StepsAreLed};

/// The reach is sound: what a thread tells where a pattern can find it is what the texts can lead to, and at a path that the
/// block of its start may write; what it starts begins as the texts can, and may write no more than its starter. It is so of a
/// thread of checked texts that began as the texts can, and whose reads were answered by events that they lead to and that
/// match what was asked.
pub fn steps_are_led()
    ensures { StepsAreLed }
{}
