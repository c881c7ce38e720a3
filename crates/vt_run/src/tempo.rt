//! Tempos, in beats per minute.

ghost use Rattle.std.specs.Prelude.{◌≡◌, ◌↔◌, IfSome, IsSome, IsTrue};
ghost use Rattle.vt_run.specs.Tempo.{is_tempo};

use std::marker::Model;
use vt_frac::Frac;

/// A tempo in beats per minute: a fraction above 0. Contracts see it as that fraction.
#[derive(Clone, Copy)]
pub struct Tempo {
    beats: Frac,
}

impl Model for Tempo {
    ghost use Rattle.std.specs.Prelude.{IsTrue};
    ghost use Rattle.vt_frac.specs.Fraction.{Fraction};
    ghost use Rattle.vt_run.specs.Tempo.{is_tempo};

    ghost Value = { Fraction };

    ghost view = { λ tempo. tempo.beats };

    ghost invariant = { λ tempo. IsTrue (is_tempo tempo.beats) };

    ghost inverse = { λ beats. record { beats = beats } };
}

impl Tempo {
    /// The tempo of so many beats per minute, or `None` where they are not above 0.
    pub fn new(beats: Frac) -> Option<Tempo>
        ensures some { IsSome result ↔ IsTrue (is_tempo beats) }
        ensures value { IfSome result (λ tempo. tempo ≡ beats) }
    {
        if beats.numer() > 0 {
            Some(Tempo { beats })
        } else {
            None
        }
    }

    /// The beats per minute.
    pub fn get(&self) -> Frac
        ensures value { result ≡ self.now }
        ensures above { IsTrue (is_tempo self.now) }
    {
        self.beats
    }
}
