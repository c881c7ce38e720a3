//! A session as its texts and its inputs.
ghost use Rattle.std.specs.Prelude.{◌≡◌};
ghost use Rattle.vt_session.specs.Sessions.{IsSound};

use crate::TextParts;
use std::marker::Model;
use vt_event::Inputs;

/// A session: its texts and its timed inputs, each in the order of the lines. Contracts see it as the record of the two lists.
///
/// The texts and the inputs are orderly: no time is below an earlier one of its list, and the i-th input (from 1) stands at
/// its time, micro step 0, thread `[0]` and step i. The type keeps that. In the session of lines there is text 1 besides, at
/// time 0 (`text_one_is_first`).
#[derive(Drop)]
pub struct Session {
    texts: TextParts,
    inputs: Inputs,
}

impl Model for Session {
    ghost use Rattle.std.specs.Coded.{codes};
    ghost use Rattle.vt_value.specs.contracts.value.Value as any_value;
    ghost use Rattle.vt_session.specs.Sessions.{SessionView, IsSound};

    ghost Value = { SessionView };

    ghost coded = { Prim.hlevel (codes, any_value.the_row.coded) };

    ghost view = { λ session. record { texts = session.texts; inputs = session.inputs } };

    ghost invariant = { λ session. IsSound (record { texts = session.texts; inputs = session.inputs }) };
}

impl Session {
    /// The session of these texts and inputs.
    pub(crate) fn of(texts: TextParts, inputs: Inputs) -> Session
        requires { IsSound (record { texts = texts; inputs = inputs }) }
        ensures { result ≡ record { texts = texts; inputs = inputs } }
    {
        Session { texts, inputs }
    }

    /// Its texts.
    pub fn texts(&self) -> &TextParts
        ensures value { result.now ≡ self.now.texts }
        ensures sound { IsSound self.now }
    {
        &self.texts
    }

    /// Its inputs.
    pub fn inputs(&self) -> &Inputs
        ensures value { result.now ≡ self.now.inputs }
        ensures sound { IsSound self.now }
    {
        &self.inputs
    }
}
