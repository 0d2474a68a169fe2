// The command `angle`: the line of one angle.
ghost use Rattle.std.specs.Prelude.{◌≡◌, ◌≤◌, IfOk, [], string_bytes};
ghost use Rattle.ce_rows.specs.Scale.{IsExponent};
ghost use Rattle.ce_rows.specs.Limits.{most_rounds, most_turns, most_workers};
ghost use Rattle.ce_solve.specs.Limits.{AreWithinLimits};
ghost use Rattle.core_entropy.specs.Angle.{IsAngleText, angle_task, line_of};
ghost use Rattle.core_entropy.specs.Output.{HasEnded};
ghost use Rattle.core_entropy.specs.Status.{ended_with};

use crate::line::append_line;
use crate::status::Status;
use ce_angle::Angle;
use ce_orbit::Orbit;
use ce_port::{Sink, write_piece};
use ce_rows::{Interval, NoMemory, Scale};
use ce_solve::{Settings, solve_rows};
use ce_thurston::rows_of;
use ce_words::Gate;
use std::alloc::Global;
use std::marker::Sync;
use std::thread::Threads;

// The line of an orbit.
fn line_of_orbit<R: Threads + Sync, G: Gate + Sync>(
    rt: &R,
    alloc: Global,
    orbit: &Orbit,
    settings: Settings,
    gate: &G,
) -> Result<String, NoMemory>
    requires { AreWithinLimits settings }
    ensures { IfOk result
        (λ line. IsAngleText orbit.now.angle settings.rounds settings.turns settings.workers
        settings.scale (string_bytes line)) }
{
    // The length brings in that this is an orbit, of at most 128 angles.
    let _len = orbit.len();
    let scale = settings.scale;
    let rows = rows_of(alloc, orbit)?.with_scale(scale);
    let solved = solve_rows(rt, alloc, &rows, settings, gate)?;
    let interval = Interval {
        low: solved.certificate.low,
        high: solved.certificate.high,
    };
    line_of_interval(alloc, orbit.angle(), scale, interval)
}

// The line of an angle with its interval, as a text of its own.
fn line_of_interval(
    alloc: Global,
    angle: Angle,
    scale: Scale,
    interval: Interval,
) -> Result<String, NoMemory>
    ensures { IfOk result (λ line. string_bytes line ≡ line_of angle scale interval) }
{
    let mut line = String::new(alloc);
    append_line(&mut line, angle, scale, interval)?;
    Ok(line)
}

/// Writes the line of an angle after so many rounds of power iteration and a run of so many workers
/// with so many turns. A scale is its exponent.
pub fn write_angle<R: Threads + Sync, G: Gate + Sync, O: Sink>(
    rt: &R,
    alloc: Global,
    angle: Angle,
    rounds: u32,
    turns: u32,
    workers: u32,
    scale: u32,
    gate: &G,
    out: &mut O,
) -> Result<(), Status>
    requires rounds { rounds ≤ most_rounds }
    requires turns { turns ≤ most_turns }
    requires some { 1 ≤ workers }
    requires workers { workers ≤ most_workers }
    requires scale { IsExponent scale }
    ensures { HasEnded O.taken O.faults (angle_task rounds turns workers scale angle)
        [] (ended_with result)
        out.old out.new }
{
    let Some(scale) = Scale::new(scale) else {
        unreachable!()
    };
    let orbit = Orbit::of(angle)?;
    let settings = Settings {
        rounds,
        turns,
        workers,
        sessions: 0,
        reads: 0,
        scale,
    };
    let line = line_of_orbit(rt, alloc, &orbit, settings, gate)?;
    write_piece(out, line.as_bytes())?;
    Ok(())
}
