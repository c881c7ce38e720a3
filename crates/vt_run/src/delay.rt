//! How long a thread waits before it begins, in seconds.

ghost use Rattle.std.specs.Prelude.{◌≡◌, ◌↔◌, IfSome, IsSome, IsTrue};
ghost use Rattle.vt_run.specs.Delays.{is_delay};

use std::marker::Model;
use vt_frac::Frac;

/// A number of seconds of at least 0. Contracts see it as that fraction.
#[derive(Clone, Copy)]
pub struct Delay {
    seconds: Frac,
}

impl Model for Delay {
    ghost use Rattle.std.specs.Prelude.{IsTrue};
    ghost use Rattle.vt_frac.specs.Fraction.{Fraction};
    ghost use Rattle.vt_run.specs.Delays.{is_delay};

    ghost Value = { Fraction };

    ghost view = { λ delay. delay.seconds };

    ghost invariant = { λ delay. IsTrue (is_delay delay.seconds) };

    ghost inverse = { λ seconds. record { seconds = seconds } };
}

impl Delay {
    /// The delay of so many seconds, or `None` where they are below 0.
    pub fn new(seconds: Frac) -> Option<Delay>
        ensures some { IsSome result ↔ IsTrue (is_delay seconds) }
        ensures value { IfSome result (λ delay. delay ≡ seconds) }
    {
        if seconds.numer() >= 0 {
            Some(Delay { seconds })
        } else {
            None
        }
    }

    /// The seconds.
    pub fn get(&self) -> Frac
        ensures value { result ≡ self.now }
        ensures least { IsTrue (is_delay self.now) }
    {
        self.seconds
    }
}
