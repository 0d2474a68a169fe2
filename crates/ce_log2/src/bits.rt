// The bits of a bound, rounded down or up.
ghost use Rattle.std.specs.Prelude.{◌≡◌, ◌*◌, ◌+◌, ◌-◌, ◌^◌, ◌<◌, ◌≤◌};
ghost use Rattle.ce_log2.specs.Logarithm.{IsAboveLogarithm, IsBelowLogarithm};
ghost use Rattle.ce_log2.specs.Squaring.{bits_above_of, bits_below_of, steps_down, steps_up};

use crate::squared::{Squared, squared_down, squared_up};
use ce_rows::Scale;

const STEPS: u32 = 16;

// The bits and the rest of a number over 2^62 after sixteen squarings.
fn steps_rounded_down(start: u64) -> Squared
    requires least { 2 ^ 62 ≤ start }
    requires most { start < 2 ^ 63 }
    ensures { result ≡ steps_down 16 start }
{
    let mut s = Squared {
        bits: 0,
        rest: start,
    };
    for _ in 0..STEPS {
        s = squared_down(s);
    }
    s
}

// The same, rounded up.
fn steps_rounded_up(start: u64) -> Squared
    requires least { 2 ^ 62 ≤ start }
    requires most { start ≤ 2 ^ 63 }
    ensures { result ≡ steps_up 16 start }
{
    let mut s = Squared {
        bits: 0,
        rest: start,
    };
    for _ in 0..STEPS {
        s = squared_up(s);
    }
    s
}

// A bound over 2^62.
fn scaled(bound: u64, scale: Scale) -> u64
    requires one { 2 ^ scale ≤ bound }
    requires two { bound ≤ 2 * 2 ^ scale }
    ensures value { result ≡ bound * 2 ^ (62 - scale) }
    ensures least { 2 ^ 62 ≤ result }
    ensures most { result ≤ 2 ^ 63 }
    ensures exponent { scale ≤ 62 }
{
    bound * (1 << (62 - scale.exponent()))
}

// The process alone. What its number means is a clause of `bits_below`, where the number is a
// variable, so that no check computes a power of 65536.
fn find_bits_below(low: u64, scale: Scale) -> u32
    requires one { 2 ^ scale ≤ low }
    requires two { low ≤ 2 * 2 ^ scale }
    ensures value { result ≡ bits_below_of scale low }
    ensures exponent { scale ≤ 62 }
{
    let start = scaled(low, scale);
    if low == 2 * scale.one() {
        return 65536;
    }
    steps_rounded_down(start).bits
}

// The same, rounded up.
fn find_bits_above(high: u64, scale: Scale) -> u32
    requires one { 2 ^ scale ≤ high }
    requires two { high ≤ 2 * 2 ^ scale }
    ensures value { result ≡ bits_above_of scale high }
    ensures exponent { scale ≤ 62 }
{
    let s = steps_rounded_up(scaled(high, scale));
    if s.rest == 1 << 62 {
        s.bits
    } else {
        s.bits + 1
    }
}

/// The binary logarithm of a low bound over S, in units of 2^-16, rounded down: less than two units
/// below it.
pub fn bits_below(low: u64, scale: Scale) -> u32
    requires one { 2 ^ scale ≤ low }
    requires two { low ≤ 2 * 2 ^ scale }
    ensures value { result ≡ bits_below_of scale low }
    ensures below { IsBelowLogarithm scale low result }
    ensures near { IsBelowLogarithm scale low (result + 2) → ⊥ }
{
    find_bits_below(low, scale)
}

/// The binary logarithm of a high bound over S, in units of 2^-16, rounded up: less than two units
/// above it.
pub fn bits_above(high: u64, scale: Scale) -> u32
    requires one { 2 ^ scale ≤ high }
    requires two { high ≤ 2 * 2 ^ scale }
    ensures value { result ≡ bits_above_of scale high }
    ensures above { IsAboveLogarithm scale high result }
    ensures near { 2 ≤ result → IsAboveLogarithm scale high (result - 2) → ⊥ }
{
    find_bits_above(high, scale)
}
