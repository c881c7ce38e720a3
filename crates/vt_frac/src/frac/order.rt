//! The order of the values.

ghost use Rattle.std.specs.Prelude.{◌≡◌, ◌↔◌, ◌*ℤ◌, pos, refl};
ghost use Rattle.std.specs.Cmp.{partial_order_from_agreeing_total};
ghost use Rattle.std.specs.Ordering.{as_partial_cmp, int_cmp};
ghost use Rattle.vt_frac.specs.Order.{order_of};
ghost use Rattle.vt_frac.specs.OrderLaws.{order_total, order_ties};

use super::Frac;
use super::lowest::cross;
use std::cmp::Ordering;

impl Ord for Frac {
    ghost cmp = { order_of };

    ghost total = { order_total };

    ghost matches_partial_cmp = { λ a b. refl };

    ghost matches_eq = { order_ties };

    /// The order of the values, by 128-bit cross products.
    fn cmp(&self, other: &Frac) -> Ordering
        ensures order { result ≡ order_of self.now other.now }
        ensures values { result ≡ int_cmp (self.now.numer *ℤ pos other.now.denom) (other.now.numer *ℤ pos self.now.denom) }
        ensures same { (result ≡ Ordering.Equal) ↔ (self.now ≡ other.now) }
    {
        cross(self, other).cmp(&cross(other, self))
    }
}

impl PartialOrd for Frac {
    ghost partial_cmp = { as_partial_cmp order_of };

    ghost laws = { partial_order_from_agreeing_total order_of order_total (λ a b. refl) order_ties };

    fn partial_cmp(&self, other: &Frac) -> Option<Ordering> {
        Some(self.cmp(other))
    }
}
