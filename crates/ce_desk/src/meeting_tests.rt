// The desk works: a session and a worker of its crew each see the other at work.
ghost use Rattle.std.specs.Prelude.{◌≢◌, length};
ghost use Rattle.ce_port.specs.Source.{GivesWithin};

use crate::serving::{DeskStop, serve};
use crate::settings::DeskSettings;
use ce_port::{MemSink, ReadStep, Source};
use ce_rows::Scale;
use ce_words::Gate;
use std::sync::atomic::AtomicU64;
use std::sync::atomic::Ordering::SeqCst;
use std::test::Fail;

// How often each looks for the other.
const LOOKS: u32 = 100_000_000;

// Who has come how far, and who saw it: 1 stands for yes.
#[derive(Drop)]
struct Meeting {
    third_line_asked: AtomicU64,
    turn_one_begun: AtomicU64,
    source_saw_turn: AtomicU64,
    worker_saw_line: AtomicU64,
}

// Looks for a 1, and notes whether it came.
fn look(sign: &AtomicU64, note: &AtomicU64) {
    for _ in 0..LOOKS {
        if sign.load(SeqCst) == 1 {
            note.store(1, SeqCst);
            return;
        }
    }
}

// The line that a call gives; none stands for the end.
fn line_of(call: u32) -> &'static [u8] {
    match call {
        1 => b"open 1/4 2\n",
        2 | 3 => b"read 0\n",
        4 => b"quit\n",
        _ => b"",
    }
}

// Gives a line, where there is room for it.
fn give(line: &[u8], buf: &mut [u8]) -> ReadStep
    ensures within { GivesWithin result (length buf.new) }
    ensures sure { result ≢ ReadStep.Failed }
{
    if line.is_empty() || buf.len() < line.len() {
        return ReadStep::End;
    }
    buf[..line.len()].copy_from_slice(line);
    ReadStep::Bytes(line.len())
}

// Gives one line a call. Before the third it looks whether the worker's second turn has begun.
#[derive(Drop)]
struct LineSource<'a> {
    calls: u32,
    meeting: &'a Meeting,
}

impl Source for LineSource<'_> {
    ghost use Rattle.std.specs.Prelude.{None};

    ghost left = { λ _. None };

    ghost faults = { λ _. 0 };

    fn read(&mut self, buf: &mut [u8]) -> ReadStep {
        self.calls = self.calls.saturating_add(1);
        if self.calls == 3 {
            self.meeting.third_line_asked.store(1, SeqCst);
            look(&self.meeting.turn_one_begun, &self.meeting.source_saw_turn);
        }
        give(line_of(self.calls), buf)
    }
}

// In its first turn the worker looks whether the third line is asked for.
#[derive(Drop)]
struct MeetingGate<'a> {
    meeting: &'a Meeting,
}

impl Gate for MeetingGate<'_> {
    fn pass(&self, _actor: u32, turn: u32) {
        if turn == 0 {
            look(
                &self.meeting.third_line_asked,
                &self.meeting.worker_saw_line,
            );
        } else {
            self.meeting.turn_one_begun.store(1, SeqCst);
        }
    }
}

#[test]
fn desk_works(rt: HostRuntime) -> Result<(), Fail> {
    let Some(scale) = Scale::new(32) else {
        panic!(rt; "scale")
    };
    let meeting = Meeting {
        third_line_asked: AtomicU64::new(0),
        turn_one_begun: AtomicU64::new(0),
        source_saw_turn: AtomicU64::new(0),
        worker_saw_line: AtomicU64::new(0),
    };
    let settings = DeskSettings {
        rounds: 0,
        workers: 2,
        scale,
    };
    let source = LineSource {
        calls: 0,
        meeting: &meeting,
    };
    let out = MemSink::new(rt.alloc(), 4096, 4096, Vec::new(rt.alloc()))?;
    let gate = MeetingGate { meeting: &meeting };
    let end = serve(&rt, rt.alloc(), settings, source, out, &gate);
    assert_eq!(rt; end.stop, DeskStop::Done);
    assert_eq!(rt; meeting.source_saw_turn.load(SeqCst), 1);
    assert_eq!(rt; meeting.worker_saw_line.load(SeqCst), 1);
    // The first line has 50 bytes, a reading 38, and each end 10 digits, so lows compare as texts.
    let Some(low) = end.out.taken().get(99..109) else {
        panic!(rt; "no second reading")
    };
    assert!(rt; low >= b"6957847019".as_slice());
    Ok(())
}
