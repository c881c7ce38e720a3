//! What an event may be.

ghost use Rattle.std.specs.Prelude.{◌≡◌};
ghost use Rattle.vt_event.specs.Kinds.{is_shown};

use vt_value::FaultKind;

/// What happened. A score shows all but the last four, which are inner events.
#[derive(Clone, Copy, PartialEq, Eq)]
pub enum Kind {
    /// A note was played.
    Play,
    /// A synth was started without a note.
    Synth,
    /// A sample was played.
    Sample,
    /// An effect began.
    Fx,
    /// A cue was published.
    Cue,
    /// A value was set.
    Set,
    /// Values were written out.
    Log,
    /// A waiting thread went on.
    Took,
    /// A thread or a text ended by a fault.
    Fault(FaultKind),
    /// A live loop has a body.
    Body,
    /// A function was defined.
    Defined,
    /// A named thread started.
    Started,
    /// A named thread ended, or a live loop is told to stop.
    Ended,
}

impl Kind {
    /// Whether a score shows events of this kind.
    pub fn is_shown(self) -> bool
        ensures { result ≡ is_shown self }
    {
        match self {
            Kind::Play => true,
            Kind::Synth => true,
            Kind::Sample => true,
            Kind::Fx => true,
            Kind::Cue => true,
            Kind::Set => true,
            Kind::Log => true,
            Kind::Took => true,
            Kind::Fault(_) => true,
            Kind::Body => false,
            Kind::Defined => false,
            Kind::Started => false,
            Kind::Ended => false,
        }
    }
}
