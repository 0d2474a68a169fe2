// Whole runs: rows or an angle come in, and a certificate with all readings goes out.
//
// `prepare` gives the initial enclosure. `solve_rows` takes all memory, has workers and sessions
// run side by side by `run_crew`, and hands out by `collect` what they found: the closing of a run
// of exactly so many workers, by the clause `solved`, which is IsSolved of specs/SolvedRows.
// `solve` does it for an angle. The law `solved_runs_enclose` says what the numbers are worth, and
// `runs_enclose` that bounds which were certified with old entries enclose too.
#![tactic(auto)]

mod angle;
mod collecting;
mod crew;
mod laws;
mod preparing;
mod settings;
mod solving;
#[cfg(test)]
mod tests;

pub use angle::{Answer, SolveError, solve};
pub use collecting::{Solved, collect};
pub use crew::{Actor, run_crew};
pub use laws::{
    no_turns_change_nothing, one_worker_has_one_run, runs_enclose, solved_runs_enclose,
};
pub use preparing::{Prepared, prepare};
pub use settings::Settings;
pub use solving::{hire, open_board, solve_rows};
