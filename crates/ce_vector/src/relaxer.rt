// Relaxation of many entries between one pair of bounds.
//
// Source: [GranlundMontgomery1994], division by an invariant integer by multiplication. One
// division makes the reciprocal of the divisor, rounded down; an entry then costs a multiplication,
// and its quotient is one too small at most, which the remainder tells.
ghost use Rattle.std.specs.Prelude.{◌≡◌, ◌≤◌, ◌*◌, ◌^◌};
ghost use Rattle.ce_vector.specs.Relaxation.{relaxed};
ghost use Rattle.ce_rows.specs.Limits.{entry_limit};

use crate::relaxation::MOST;
use ce_rows::Scale;
use std::marker::Model;

/// The divisor of a relaxation between two bounds of the growth rate, with its reciprocal.
#[derive(Drop)]
pub struct Relaxer {
    low: u64,
    high: u64,
    exponent: u32,
    divisor: u64,
    reciprocal: u64,
}

impl Model for Relaxer {
    ghost use Rattle.ce_vector.specs.Relaxation.{Between};

    ghost Value = { Between };

    ghost use Rattle.ce_vector.specs.RelaxerInside.{between_of, HasReciprocal};

    ghost view = { between_of };

    ghost invariant = { HasReciprocal };
}

impl Relaxer {
    /// Divides once, for all entries between these bounds.
    pub fn between(low: u64, high: u64, scale: Scale) -> Relaxer
        requires low { 2 ^ scale ≤ low }
        requires low_most { low ≤ 2 * 2 ^ scale }
        requires high { 2 ^ scale ≤ high }
        requires high_most { high ≤ 2 * 2 ^ scale }
        ensures { result ≡ record { exponent = scale; low = low; high = high } }
    {
        let one = scale.one();
        let divisor = one + (low + high) / 2;
        let reciprocal = ((u128::from(one) << 64) / u128::from(divisor)) as u64;
        Relaxer {
            low,
            high,
            exponent: scale.exponent(),
            divisor,
            reciprocal,
        }
    }

    /// One normalized step of the iteration at an entry x with the block sum s, as `relax`, without
    /// a division.
    pub fn relax(&self, x: u64, s: u64) -> u64
        requires entry { x ≤ entry_limit }
        requires sum { s ≤ 2 ^ 61 }
        ensures value { result ≡ relaxed self.now.exponent x s self.now.low self.now.high }
        ensures some { 1 ≤ result }
        ensures most { result ≤ entry_limit }
    {
        let sum = x + s;
        let estimate = ((u128::from(sum) * u128::from(self.reciprocal)) >> 64) as u64;
        // The true remainder fits, so whatever wraps round on the way there comes back.
        let rest = (sum << self.exponent).wrapping_sub(estimate.wrapping_mul(self.divisor));
        let quotient = if rest < self.divisor {
            estimate
        } else {
            estimate + 1
        };
        quotient.min(MOST).max(1)
    }
}
