// The forward orbit of an angle under angle doubling, up to its first repeat.
//
// An `Angle` comes in, and an `Orbit` of at most 128 places goes out. Contracts see an orbit as its
// angle, the list of its numerators over the angle's denominator, and the place that the repeat
// comes back to. The main fact is `Orbit::of`'s: the places are the forward orbit
// (specs/Orbit.antt). Its search, `first_repeat`, goes by any degree. The closed half-circles on
// both sides of the critical diameter stand in specs/Halves.antt, the kneading sequence in
// specs/Kneading.antt.
#![tactic(auto)]

mod key;
mod laws;
mod orbit;
mod search;
mod symbol;
#[cfg(test)]
mod tests;

pub use key::KneadKey;
pub use laws::{
    alone_is_the_angle_zero, at_most_one_end, ends_are_in_both_halves, key_order_tells_keys_apart,
    keys_are_kneading_sequences, kneading_sequences_go_round, long_orbits_are_long,
    orbits_are_short_or_long, orbits_are_unique, orbits_exist, orbits_of_maps_exist,
    separated_symbols_are_opposite,
};
pub use orbit::{Orbit, OrbitTooLong};
pub use search::{FirstRepeat, MOST_PLACES, first_repeat, multiplied};
pub use symbol::Symbol;
