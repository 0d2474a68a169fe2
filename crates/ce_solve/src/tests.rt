// Whole runs with worked numbers, readings in their order, and actors that run side by side.
ghost use Rattle.std.specs.Prelude.{◌≤◌, IfOk};
ghost use Rattle.ce_solve.specs.Limits.{AreWithinLimits};
ghost use Rattle.ce_rows.specs.Limits.{most_reads, most_rounds, most_sessions, most_turns, most_workers};

use crate::{Settings, SolveError, Solved, solve};
use ce_angle::Angle;
use ce_rows::Scale;
use ce_words::{FreeGate, Gate};
use std::alloc::Global;
use std::marker::Sync;
use std::sync::atomic::AtomicU64;
use std::sync::atomic::Ordering::SeqCst;
use std::test::Fail;
use std::thread::Threads;

// What a run is told.
fn told(
    rounds: u32,
    turns: u32,
    workers: u32,
    sessions: u32,
    reads: u32,
    exponent: u32,
) -> Result<Settings, Fail>
    requires rounds { rounds ≤ most_rounds }
    requires turns { turns ≤ most_turns }
    requires some { 1 ≤ workers }
    requires workers { workers ≤ most_workers }
    requires sessions { sessions ≤ most_sessions }
    requires reads { reads ≤ most_reads }
    ensures { IfOk result AreWithinLimits }
{
    let scale = Scale::new(exponent).ok_or("a scale")?;
    Ok(Settings {
        rounds,
        turns,
        workers,
        sessions,
        reads,
        scale,
    })
}

// What a run for an angle comes to.
fn solved<R: Threads + Sync, G: Gate + Sync>(
    rt: &R,
    alloc: Global,
    num: u64,
    den: u64,
    settings: &Settings,
    gate: &G,
) -> Result<Solved, Fail>
    requires { AreWithinLimits settings.now }
{
    let angle = Angle::new(num, den)?;
    let answer = solve(rt, alloc, angle, settings, gate)?;
    Ok(answer.solved)
}

#[test]
fn one_worker_has_worked_ends(rt: HostRuntime) -> Result<(), Fail> {
    let table = [
        (1, 4, 0, 0, 32, 4294967296, 8589934592),
        (1, 4, 0, 1, 32, 6957847019, 7423400265),
        (1, 4, 0, 3, 32, 7276435725, 7291510696),
        (1, 4, 0, 3, 48, 476868491731991, 477856444907111),
        (1, 5, 36, 400, 32, 5992926758, 5992926759),
        (1, 5, 36, 400, 48, 392752448021136, 392752448021137),
        (13, 31, 36, 400, 32, 6497754647, 6497754648),
        (2, 5, 36, 400, 32, 4294967296, 4294967296),
    ];
    for (num, den, rounds, turns, exponent, low, high) in table {
        let settings = told(rounds, turns, 1, 0, 0, exponent)?;
        let found = solved(&rt, rt.alloc(), num, den, &settings, &FreeGate)?;
        let ends = (found.certificate.low, found.certificate.high);
        assert_eq!(rt; ends, (low, high), "{num}/{den} after {turns} turns");
    }
    Ok(())
}

#[test]
fn many_workers_stay_inside_the_initial_enclosure(rt: HostRuntime) -> Result<(), Fail> {
    let initial = solved(
        &rt,
        rt.alloc(),
        13,
        31,
        &told(36, 0, 1, 0, 0, 32)?,
        &FreeGate,
    )?
    .certificate;
    let closing = solved(
        &rt,
        rt.alloc(),
        13,
        31,
        &told(36, 400, 4, 0, 0, 32)?,
        &FreeGate,
    )?
    .certificate;
    assert!(rt; initial.low <= closing.low && closing.high <= initial.high);
    Ok(())
}

#[test]
fn readings_stand_by_session_and_then_by_number(rt: HostRuntime) -> Result<(), Fail> {
    let settings = told(36, 400, 2, 2, 2, 32)?;
    let found = solved(&rt, rt.alloc(), 1, 3, &settings, &FreeGate)?;
    assert_eq!(rt; found.readings.len(), 4);
    for (reading, want) in found.readings.iter().zip([(0, 0), (0, 1), (1, 0), (1, 1)]) {
        assert_eq!(rt; (reading.session, reading.number), want);
        assert_eq!(rt;
            (reading.interval.low, reading.interval.high),
            (4294967296, 4294967296)
        );
    }
    Ok(())
}

#[test]
fn a_long_orbit_is_refused(rt: HostRuntime) -> Result<(), Fail> {
    let settings = told(0, 0, 1, 0, 0, 32)?;
    let refused = solve(&rt, rt.alloc(), Angle::new(1, 131)?, &settings, &FreeGate);
    assert!(rt; matches!(&refused, Err(SolveError::OrbitTooLong)));
    Ok(())
}

// Lets the actors 0 and 1, each at its pass with one number, raise a flag and look for the other's.
#[derive(Drop)]
struct Meeting {
    number: u32,
    first: AtomicU64,
    second: AtomicU64,
    met: AtomicU64,
}

impl Meeting {
    fn at(number: u32) -> Meeting {
        Meeting {
            number,
            first: AtomicU64::new(0),
            second: AtomicU64::new(0),
            met: AtomicU64::new(0),
        }
    }
}

// Raises one flag, and looks for another one, so many times at most.
fn meet(own: &AtomicU64, other: &AtomicU64, met: &AtomicU64) {
    own.store(1, SeqCst);
    for _ in 0..100000000u32 {
        if other.load(SeqCst) == 1 {
            met.fetch_add(1, SeqCst);
            return;
        }
    }
}

impl Gate for Meeting {
    fn pass(&self, actor: u32, turn: u32) {
        if turn == self.number && actor == 0 {
            meet(&self.first, &self.second, &self.met);
        }
        if turn == self.number && actor == 1 {
            meet(&self.second, &self.first, &self.met);
        }
    }
}

#[test]
fn workers_run_side_by_side(rt: HostRuntime) -> Result<(), Fail> {
    let gate = Meeting::at(0);
    let _found = solved(&rt, rt.alloc(), 1, 4, &told(2, 1, 2, 0, 0, 32)?, &gate)?;
    assert_eq!(rt; gate.met.load(SeqCst), 2);
    Ok(())
}

// The session's second reading waits for the worker's second turn, so it sees what the first found.
#[test]
fn a_session_reads_beside_a_worker(rt: HostRuntime) -> Result<(), Fail> {
    let gate = Meeting::at(1);
    let settings = told(0, 2, 1, 1, 2, 32)?;
    let found = solved(&rt, rt.alloc(), 1, 4, &settings, &gate)?;
    assert_eq!(rt; gate.met.load(SeqCst), 2);
    assert_eq!(rt; found.readings.len(), 2);
    let last = found.readings[1].interval;
    assert!(rt; 6957847019 <= last.low && last.high <= 7423400265);
    Ok(())
}
