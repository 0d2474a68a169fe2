// Vectors on the way to the eigenvector of the growth rate.
//
// Rows and ranks come in, vectors of entries go out. `lazy_rounds` is power iteration with I + B
// from ones (specs/PowerIteration.antt), which `scale_start` scales up to the start of a run
// (specs/Start.antt). `relax` and `shift` are what a run does to one entry
// (specs/Relaxation.antt); a `Relaxer` relaxes many entries between the same bounds.
#![tactic(auto)]

mod iteration;
mod laws;
mod relaxation;
mod relaxer;
mod start;
#[cfg(test)]
mod tests;

pub use iteration::{lazy_round, lazy_rounds};
pub use laws::doublings_are_the_most;
pub use relaxation::{relax, shift};
pub use relaxer::Relaxer;
pub use start::scale_start;
