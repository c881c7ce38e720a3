//! What `density` is given.

ghost use Rattle.std.specs.Prelude.{◌≡◌};
ghost use Rattle.vt_frac.specs.Fraction.{IsFraction};
ghost use Rattle.vt_ring.specs.Arguments.{between};
ghost use Rattle.vt_run.specs.calls.LoopCalls.{density_of};

use vt_frac::Frac;
use vt_given::{Given, a_whole, whole};
use vt_ring::exact_product;
use vt_run::Tempo;
use vt_value::{FaultKind, Integer};

/// A density from 1 to 64, and the tempo that is so many times this one.
pub fn density_of(given: &Given, bpm: &Tempo) -> Result<(u32, Tempo), FaultKind>
    ensures { result ≡ density_of given.now bpm.now }
{
    let n = density(a_whole(given.all_args())?)?;
    let beats = bpm.get();
    keep_fraction(&beats);
    let faster = exact_product(beats, whole(n))?;
    match Tempo::new(faster) {
        Some(tempo) => Ok((n, tempo)),
        None => unreachable!(),
    }
}

fn density(number: Integer) -> Result<u32, FaultKind>
    ensures { result ≡ between 1 64 number }
{
    let n = number.get();
    if n < 1 || n > 64 {
        return Err(FaultKind::BadValue);
    }
    Ok(n as u32)
}

/// What the type of a fraction keeps, told of one. It does nothing.
fn keep_fraction(fraction: &Frac)
    ensures { IsFraction fraction.now }
{
    fraction.denom();
}
