// Workers and sessions under gates that hold one of them until another has come by.
use crate::run::run_command;
use crate::tests::{ROOM, words_of};
use ce_port::{SureSink, SureSource};
use ce_words::Gate;
use std::marker::Sync;
use std::process::Abort;
use std::sync::atomic::AtomicU64;
use std::sync::atomic::Ordering::SeqCst;
use std::test::Fail;
use std::thread::Threads;

// At a pass with a number an actor raises a flag and looks for the flag of another.
#[derive(Drop)]
struct MeetingGate {
    first: (u32, u32),
    second: (u32, u32),
    first_flag: AtomicU64,
    second_flag: AtomicU64,
    met: AtomicU64,
}

// Raises a flag and looks for another one, 100,000,000 times.
fn meet(own: &AtomicU64, other: &AtomicU64, met: &AtomicU64) {
    own.store(1, SeqCst);
    for _ in 0..100_000_000u64 {
        if other.load(SeqCst) == 1 {
            met.fetch_add(1, SeqCst);
            return;
        }
    }
}

impl Gate for MeetingGate {
    fn pass(&self, actor: u32, turn: u32) {
        if (actor, turn) == self.first {
            meet(&self.first_flag, &self.second_flag, &self.met);
        }
        if (actor, turn) == self.second {
            meet(&self.second_flag, &self.first_flag, &self.met);
        }
    }
}

// Holds an actor at a pass with a number until another has passed so often, for 1,000,000 looks.
#[derive(Drop)]
struct HoldingGate {
    held: (u32, u32),
    other: u32,
    times: u64,
    passes: AtomicU64,
}

impl Gate for HoldingGate {
    fn pass(&self, actor: u32, turn: u32) {
        if actor == self.other {
            self.passes.fetch_add(1, SeqCst);
        }
        if (actor, turn) == self.held {
            for _ in 0..1_000_000u64 {
                if self.times <= self.passes.load(SeqCst) {
                    return;
                }
            }
        }
    }
}

// The numbers of a printed interval.
fn ends_of(line: &str) -> Option<(u64, u64)> {
    let (_, ends) = line.split_once(" low ")?;
    let (low, high) = ends.split_once(" high ")?;
    match (low.parse::<u64>(), high.parse::<u64>()) {
        (Ok(low), Ok(high)) => Some((low, high)),
        _ => None,
    }
}

// Runs a command under a gate, and gives what it writes.
fn text_under<G: Gate + Sync>(
    rt: &(impl Abort + AllocGlobal + Threads + Sync),
    line: &str,
    gate: &G,
) -> Result<String, Fail> {
    let words = words_of(rt.alloc(), line)?;
    let mut source = SureSource::new(Vec::new(rt.alloc()));
    let mut out = SureSink::new(rt.alloc(), ROOM)?;
    let mut err = SureSink::new(rt.alloc(), ROOM)?;
    let status = run_command(
        rt,
        rt.alloc(),
        &words,
        gate,
        &mut source,
        &mut out,
        &mut err,
    );
    assert_eq!(rt; status.code(), 0, "{line}");
    let Ok(text) = std::str::from_utf8(out.taken()) else {
        return Err(Fail::from("not UTF-8"));
    };
    Ok(String::from_str(rt.alloc(), text)?)
}

#[test]
fn actors_run_beside_each_other(rt: HostRuntime) -> Result<(), Fail> {
    let table = [
        ("angle 1/4 --rounds 2 --workers 2 --turns 1", (0, 0), (1, 0)),
        (
            "watch 1/4 --rounds 0 --workers 1 --turns 2 --sessions 1 --reads 2",
            (0, 1),
            (1, 1),
        ),
    ];
    for (line, first, second) in table {
        let gate = MeetingGate {
            first,
            second,
            first_flag: AtomicU64::new(0),
            second_flag: AtomicU64::new(0),
            met: AtomicU64::new(0),
        };
        let text = text_under(&rt, line, &gate)?;
        assert_eq!(rt; gate.met.load(SeqCst), 2, "{line}");
        for own in text.as_str().lines() {
            if own.starts_with("session 0 reading 1 ") {
                let (low, high) = ends_of(own).ok_or("no interval")?;
                assert!(rt; 6957847019 <= low && high <= 7423400265, "{own}");
            }
        }
    }
    Ok(())
}

#[test]
fn held_actors_have_enclosing_intervals(rt: HostRuntime) -> Result<(), Fail> {
    let line = "watch 1/4 --rounds 2 --workers 3 --sessions 2 --reads 5 --turns 20";
    let table = [
        ((0, 0), 1, 20),
        ((1, 3), 2, 10),
        ((2, 1), 0, 5),
        ((3, 1), 0, 8),
        ((4, 4), 3, 5),
    ];
    for (held, other, times) in table {
        let gate = HoldingGate {
            held,
            other,
            times,
            passes: AtomicU64::new(0),
        };
        let text = text_under(&rt, line, &gate)?;
        let mut count = 0u64;
        // The rate is the root above 1 of x^3 = x^2 + 2, times 2^32.
        for own in text.as_str().lines() {
            let (low, high) = ends_of(own).ok_or("no interval")?;
            assert!(rt; 6979321856 <= low && low <= 7282635751, "{own}");
            assert!(rt; 7282635752 <= high && high <= 7730941133, "{own}");
            count = count.min(100) + 1;
        }
        assert_eq!(rt; count, 11);
    }
    Ok(())
}
