// The transition matrix of a unicritical polynomial z^d + c of degree 2 to 16, as rows of
// successors.
//
// A `Degree` and an `Angle` come in, and a `DegreeOrbit` of at most 128 places and its `Rows` go
// out. The critical portrait of the angle stands in specs/Degree.antt; pairs, images, walks and
// rows are those of ce_thurston over any orbit with a portrait. The main fact is `degree_rows`':
// the walk counts of the rows are those of the pairs.
#![tactic(auto)]

mod degree;
mod laws;
mod orbit;
mod rows;
#[cfg(test)]
mod tests;

pub use degree::Degree;
pub use laws::{
    degree_images_are_pairs, degree_orbits_are_unique, degree_orbits_exist,
    degree_pairs_are_listed, degree_rows_are_in_range, degree_two_is_doubling,
};
pub use orbit::DegreeOrbit;
pub use rows::degree_rows;
