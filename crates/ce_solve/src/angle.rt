// A whole run for an angle.
ghost use Rattle.std.specs.Prelude.{◌≡◌, Err, IfOk};
ghost use Rattle.std.specs.Result.{IfErr};
ghost use Rattle.ce_orbit.specs.Orbit.{HasOrbitAbove};
ghost use Rattle.ce_solve.specs.Limits.{AreWithinLimits};
ghost use Rattle.ce_solve.specs.SolvedAngle.{HasReadingsOf, IsCause, IsSolutionFor, MayAnswer};
ghost use Rattle.ce_solve.specs.SolvedRows.{closing_in};
ghost use Rattle.ce_orbit.specs.Iterates.{most_places};

use crate::collecting::Solved;
use crate::settings::Settings;
use crate::solving::solve_rows;
use ce_angle::Angle;
use ce_orbit::Orbit;
use ce_rows::NoMemory;
use ce_thurston::rows_of;
use ce_words::Gate;
use std::alloc::Global;
use std::thread::Threads;

/// What a run for an angle came to.
#[derive(Drop)]
pub struct Answer {
    pub angle: Angle,
    pub solved: Solved,
}

/// Why there is no answer.
#[derive(Clone, Copy, Debug, PartialEq, Eq, Drop)]
pub enum SolveError {
    /// The orbit has more than 128 angles.
    OrbitTooLong,
    NoMemory,
}

// A run on the rows of an orbit, at the settings' scale.
fn solve_orbit<R: Threads + Sync, G: Gate + Sync>(
    rt: &R,
    alloc: Global,
    orbit: &Orbit,
    settings: &Settings,
    gate: &G,
) -> Result<Solved, NoMemory>
    requires { AreWithinLimits settings.now }
    ensures solved { IfOk result (λ solved. IsSolutionFor settings.now orbit.now (closing_in solved)) }
    ensures readings { IfOk result (λ solved. HasReadingsOf settings.now (closing_in solved)) }
{
    let rows = rows_of(alloc, orbit)?.with_scale(settings.scale);
    let told = Settings {
        rounds: settings.rounds,
        turns: settings.turns,
        workers: settings.workers,
        sessions: settings.sessions,
        reads: settings.reads,
        scale: settings.scale,
    };
    solve_rows(rt, alloc, &rows, told, gate)
}

/// A whole run on the pairs of an angle's orbit.
pub fn solve<R: Threads + Sync, G: Gate + Sync>(
    rt: &R,
    alloc: Global,
    angle: Angle,
    settings: &Settings,
    gate: &G,
) -> Result<Answer, SolveError>
    requires { AreWithinLimits settings.now }
    ensures answer { IfOk result (MayAnswer settings.now angle) }
    ensures cause { IfErr result (IsCause angle) }
    ensures long { HasOrbitAbove most_places angle → result ≡ Err SolveError.OrbitTooLong }
{
    let Ok(orbit) = Orbit::of(angle) else {
        return Err(SolveError::OrbitTooLong);
    };
    match solve_orbit(rt, alloc, &orbit, settings, gate) {
        Ok(solved) => Ok(Answer { angle, solved }),
        Err(_) => Err(SolveError::NoMemory),
    }
}
