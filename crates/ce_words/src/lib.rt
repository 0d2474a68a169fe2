// The shared state of a run: the bounds of the growth rate, the entries of the vector, the count of
// rescalings and the stop word, which threads change by single atomic steps, with no lock.
//
// A `Board` has the words, and a `Seat` is a thread's token: it has no byte, and its ghost state is
// its log, the list of its steps with their answers. What holds between any two steps, whatever
// the schedule, is specs/Invariant.antt, point by point; what one step does and tells its caller is
// specs/Steps.antt, and the clause `step` of each call. `Gate` is a hook for tests of schedules.
#![tactic(auto)]

mod board;
mod gate;
mod laws;
mod plays;
mod rule;
#[cfg(test)]
mod tests;
mod view;

pub use board::Board;
pub use gate::{FreeGate, Gate};
pub use laws::{steps_keep_the_invariant, steps_tell};
pub use view::{Part, Place, Role, Run, Seat, View};
