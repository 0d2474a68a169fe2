// The command `degree`: the line of one angle under multiplication by a degree.
ghost use Rattle.std.specs.Prelude.{◌≡◌, ◌≤◌, ◌++◌, IfOk, OnOk, [], codes, string_bytes};
ghost use Rattle.std.specs.Fmt.{decimal};
ghost use Rattle.ce_rows.specs.Scale.{IsExponent};
ghost use Rattle.ce_rows.specs.Limits.{most_rounds, most_turns, most_workers};
ghost use Rattle.ce_solve.specs.Limits.{AreWithinLimits};
ghost use Rattle.core_entropy.specs.Degree.{IsDegreeText, degree_line, degree_task};
ghost use Rattle.core_entropy.specs.Output.{HasEnded};
ghost use Rattle.core_entropy.specs.Status.{ended_with};

use crate::line::append_line;
use crate::status::Status;
use ce_angle::Angle;
use ce_degree::{Degree, DegreeOrbit, degree_rows};
use ce_port::{Sink, write_piece};
use ce_rows::{Interval, NoMemory, Scale};
use ce_solve::{Settings, solve_rows};
use ce_words::Gate;
use std::alloc::Global;
use std::marker::Sync;
use std::thread::Threads;

// Appends the words before the line of an angle.
fn append_degree(text: &mut String, degree: u32) -> Result<(), NoMemory>
    ensures { OnOk result (string_bytes text.new ≡ string_bytes text.old
        ++ (codes "degree " ++ decimal degree ++ codes " ")) }
{
    write!(text, "degree {degree} ")?;
    Ok(())
}

// The line of an angle in a degree, as a text of its own.
fn line_of_interval(
    alloc: Global,
    degree: Degree,
    angle: Angle,
    scale: Scale,
    interval: Interval,
) -> Result<String, NoMemory>
    ensures { IfOk result (λ line. string_bytes line ≡ degree_line degree angle scale interval) }
{
    let mut line = String::new(alloc);
    append_degree(&mut line, degree.get())?;
    append_line(&mut line, angle, scale, interval)?;
    Ok(line)
}

// The line of an angle whose orbit in a degree is known.
fn line_of_orbit<R: Threads + Sync, G: Gate + Sync>(
    rt: &R,
    alloc: Global,
    degree: Degree,
    angle: Angle,
    orbit: &DegreeOrbit,
    settings: Settings,
    gate: &G,
) -> Result<String, NoMemory>
    requires degree { orbit.now.degree ≡ degree }
    requires angle { orbit.now.angle ≡ angle }
    requires settings { AreWithinLimits settings }
    ensures { IfOk result
        (λ line. IsDegreeText degree angle settings.rounds settings.turns settings.workers
        settings.scale (string_bytes line)) }
{
    // The length brings in that this is an orbit, of at most 128 angles.
    let _len = orbit.len();
    let scale = settings.scale;
    let rows = degree_rows(alloc, orbit)?.with_scale(scale);
    let solved = solve_rows(rt, alloc, &rows, settings, gate)?;
    let interval = Interval {
        low: solved.certificate.low,
        high: solved.certificate.high,
    };
    line_of_interval(alloc, degree, angle, scale, interval)
}

/// Writes the line of an angle in a degree after so many rounds of power iteration and a run of so
/// many workers with so many turns. A scale is its exponent.
pub fn write_degree<R: Threads + Sync, G: Gate + Sync, O: Sink>(
    rt: &R,
    alloc: Global,
    degree: u32,
    angle: Angle,
    rounds: u32,
    turns: u32,
    workers: u32,
    scale: u32,
    gate: &G,
    out: &mut O,
) -> Result<(), Status>
    requires least { 2 ≤ degree }
    requires most { degree ≤ 16 }
    requires rounds { rounds ≤ most_rounds }
    requires turns { turns ≤ most_turns }
    requires some { 1 ≤ workers }
    requires workers { workers ≤ most_workers }
    requires scale { IsExponent scale }
    ensures { HasEnded O.taken O.faults (degree_task degree rounds turns workers scale angle)
        [] (ended_with result)
        out.old out.new }
{
    let Some(degree) = Degree::new(degree) else {
        unreachable!()
    };
    let Some(scale) = Scale::new(scale) else {
        unreachable!()
    };
    let orbit = DegreeOrbit::of(degree, angle)?;
    let settings = Settings {
        rounds,
        turns,
        workers,
        sessions: 0,
        reads: 0,
        scale,
    };
    let line = line_of_orbit(rt, alloc, degree, angle, &orbit, settings, gate)?;
    write_piece(out, line.as_bytes())?;
    Ok(())
}
