// The command `watch`: what sessions read while workers run, and the line of an angle.
ghost use Rattle.std.specs.Prelude.{◌≡◌, ◌≤◌, ◌++◌, [], IfErr, OnErr, OnOk, string_bytes};
ghost use Rattle.std.specs.List.{flat_map};
ghost use Rattle.ce_port.specs.Pieces.{GrewAllBut};
ghost use Rattle.ce_port.specs.WriteAll.{GrewByPrefix};
ghost use Rattle.ce_rows.specs.Scale.{IsExponent};
ghost use Rattle.ce_rows.specs.Limits.{most_reads, most_rounds, most_sessions, most_turns, most_workers};
ghost use Rattle.ce_solve.specs.Limits.{AreWithinLimits};
ghost use Rattle.core_entropy.specs.Output.{HasEnded, Wrote};
ghost use Rattle.core_entropy.specs.Status.{IsEndOfAnswer, IsStopped, ended_with};
ghost use Rattle.core_entropy.specs.Watch.{IsWatchText, reading_line, watch_task, watch_text};
ghost use Rattle.core_entropy.specs.declared.status.Status.{Status};

use crate::line::append_line;
use crate::status::Status;
use ce_angle::Angle;
use ce_live::Reading;
use ce_orbit::Orbit;
use ce_port::{Sink, turn_page, write_piece};
use ce_rows::{Interval, NoMemory, Scale};
use ce_solve::{Settings, solve_rows};
use ce_thurston::rows_of;
use ce_words::Gate;
use std::alloc::Global;
use std::marker::Sync;
use std::thread::Threads;

// Appends the line of a reading.
fn append_reading(text: &mut String, reading: Reading) -> Result<(), NoMemory>
    ensures { OnOk result (string_bytes text.new ≡ string_bytes text.old ++ reading_line reading) }
{
    let session = reading.session;
    let number = reading.number;
    let interval = reading.interval;
    write!(text, "session {session} reading {number} {interval}\n")?;
    Ok(())
}

// Writes what stands on a page and the lines of readings, but for what stands on the page then.
fn write_readings<O: Sink>(
    out: &mut O,
    page: &mut String,
    readings: &[Reading],
) -> Result<(), Status>
    ensures done { OnOk result (GrewAllBut (O.taken out.old) (O.taken out.new)
        (string_bytes page.new) (string_bytes page.old ++ flat_map reading_line readings.now)) }
    ensures part { OnErr result (GrewByPrefix (O.taken out.old) (O.taken out.new)
        (string_bytes page.old ++ flat_map reading_line readings.now)) }
    ensures stopped { IfErr result (IsStopped (O.faults out.old) (O.faults out.new)) }
    ensures counted { O.faults out.old ≤ O.faults out.new }
{
    for k in 0..readings.len() {
        append_reading(page, readings[k])?;
        turn_page(out, page)?;
    }
    Ok(())
}

// Writes the readings and the line of an angle.
fn write_watched<O: Sink>(
    alloc: Global,
    angle: Angle,
    scale: Scale,
    readings: &[Reading],
    interval: Interval,
    out: &mut O,
) -> Result<(), Status>
    ensures wrote { Wrote O.taken O.faults
        (λ text. text ≡ watch_text angle scale readings.now interval)
        (ended_with result) out.old out.new }
    ensures end { IsEndOfAnswer Status.Done (ended_with result) }
{
    let mut page = String::new(alloc);
    write_readings(out, &mut page, readings)?;
    append_line(&mut page, angle, scale, interval)?;
    write_piece(out, page.as_bytes())?;
    Ok(())
}

// Writes the readings and the line of an orbit.
fn watch_orbit<R: Threads + Sync, G: Gate + Sync, O: Sink>(
    rt: &R,
    alloc: Global,
    orbit: &Orbit,
    settings: Settings,
    gate: &G,
    out: &mut O,
) -> Result<(), Status>
    requires { AreWithinLimits settings }
    ensures wrote { Wrote O.taken O.faults
        (IsWatchText orbit.now.angle settings.rounds settings.turns
        settings.workers settings.sessions settings.reads settings.scale)
        (ended_with result) out.old out.new }
    ensures end { IsEndOfAnswer Status.Done (ended_with result) }
{
    // The length brings in that this is an orbit, of at most 128 angles.
    let _len = orbit.len();
    let scale = settings.scale;
    let rows = rows_of(alloc, orbit)?.with_scale(scale);
    let solved = solve_rows(rt, alloc, &rows, settings, gate)?;
    let interval = Interval {
        low: solved.certificate.low,
        high: solved.certificate.high,
    };
    write_watched(alloc, orbit.angle(), scale, &solved.readings, interval, out)
}

/// Writes what so many sessions read while workers run, each so many times, and the line of an
/// angle, after so many rounds of power iteration and a run of so many workers with so many turns.
/// A scale is its exponent.
pub fn write_watch<R: Threads + Sync, G: Gate + Sync, O: Sink>(
    rt: &R,
    alloc: Global,
    angle: Angle,
    rounds: u32,
    turns: u32,
    workers: u32,
    sessions: u32,
    reads: u32,
    scale: u32,
    gate: &G,
    out: &mut O,
) -> Result<(), Status>
    requires rounds { rounds ≤ most_rounds }
    requires turns { turns ≤ most_turns }
    requires some { 1 ≤ workers }
    requires workers { workers ≤ most_workers }
    requires sessions { sessions ≤ most_sessions }
    requires reads { reads ≤ most_reads }
    requires scale { IsExponent scale }
    ensures { HasEnded O.taken O.faults
        (watch_task rounds turns workers sessions reads scale angle) []
        (ended_with result) out.old out.new }
{
    let Some(scale) = Scale::new(scale) else {
        unreachable!()
    };
    let orbit = Orbit::of(angle)?;
    let settings = Settings {
        rounds,
        turns,
        workers,
        sessions,
        reads,
        scale,
    };
    watch_orbit(rt, alloc, &orbit, settings, gate, out)
}
