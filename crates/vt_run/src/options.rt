//! The options of a rendering, within their limits.

ghost use Rattle.std.specs.Prelude.{◌≡◌, ◌↔◌, IfSome, IsSome, IsTrue};
ghost use Rattle.vt_run.specs.RenderLimits.{are_within, is_horizon};

use std::marker::Model;
use vt_frac::Frac;

/// The options of a rendering, each within its limits: 1 to 64 workers, a horizon from 0 to 3600 seconds, a budget from
/// 1 to 2^24. Contracts see them as the record of their fields.
#[derive(Clone, Copy)]
pub struct RenderOptions {
    workers: u32,
    until: Frac,
    budget: u64,
    seed: u64,
}

impl Model for RenderOptions {
    ghost use Rattle.std.specs.Prelude.{IsTrue};
    ghost use Rattle.vt_run.specs.RenderLimits.{OptionsView, are_within};

    ghost Value = { OptionsView };

    ghost view = { λ o. record { workers = o.workers; until = o.until; budget = o.budget; seed = o.seed } };

    ghost invariant = { λ o. IsTrue (are_within (record { workers = o.workers; until = o.until; budget = o.budget; seed = o.seed })) };

    ghost inverse = { λ v. record { workers = v.workers; until = v.until; budget = v.budget; seed = v.seed } };
}

impl RenderOptions {
    /// These options, or `None` where one of them is outside its limits.
    pub fn new(workers: u32, until: Frac, budget: u64, seed: u64) -> Option<RenderOptions>
        ensures some { IsSome result ↔ IsTrue (are_within (record { workers = workers; until = until; budget = budget; seed = seed })) }
        ensures value { IfSome result (λ options. options ≡ record { workers = workers; until = until; budget = budget; seed = seed }) }
    {
        if workers >= 1 && workers <= 64 && is_horizon(until) && budget >= 1 && budget <= 16777216 {
            Some(RenderOptions {
                workers,
                until,
                budget,
                seed,
            })
        } else {
            None
        }
    }

    /// How many workers render.
    pub fn workers(&self) -> u32
        ensures value { result ≡ self.now.workers }
        ensures within { IsTrue (are_within self.now) }
    {
        self.workers
    }

    /// The horizon, in seconds: what stands at or past it is not rendered.
    pub fn until(&self) -> Frac
        ensures { result ≡ self.now.until }
    {
        self.until
    }

    /// The greatest cost of a rendering.
    pub fn budget(&self) -> u64
        ensures { result ≡ self.now.budget }
    {
        self.budget
    }

    /// The seed of each text's random stream.
    pub fn seed(&self) -> u64
        ensures { result ≡ self.now.seed }
    {
        self.seed
    }
}

/// Whether it is a number of seconds from 0 to 3600.
fn is_horizon(until: Frac) -> bool
    ensures { result ≡ is_horizon until }
{
    until.numer() >= 0 && i128::from(until.numer()) <= 3600 * i128::from(until.denom())
}
