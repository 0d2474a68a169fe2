// The worked scripts, over a source and a sink in memory.
ghost use Rattle.std.specs.Prelude.{◌≤◌};
ghost use Rattle.ce_rows.specs.Limits.{most_workers};

use crate::serving::{DeskStop, serve};
use crate::settings::DeskSettings;
use ce_port::{MemSink, MemSource};
use ce_rows::Scale;
use ce_words::FreeGate;
use std::marker::Sync;
use std::process::Abort;
use std::test::Fail;
use std::thread::Threads;

// Serves an input with 0 rounds and so many actors in the crew, and compares how it ends and what
// it writes.
fn expect_desk(
    rt: &(impl Abort + AllocGlobal + Threads + Sync),
    workers: u32,
    input: &[u8],
    piece: usize,
    stop: DeskStop,
    want: &str,
) -> Result<(), Fail>
    requires workers { (1 ≤ workers) × (workers ≤ most_workers) }
    requires piece { 1 ≤ piece }
{
    let Some(scale) = Scale::new(32) else {
        panic!(rt; "scale")
    };
    let settings = DeskSettings {
        rounds: 0,
        workers,
        scale,
    };
    let source = MemSource::new(
        Vec::from_slice(rt.alloc(), input)?,
        piece,
        Vec::new(rt.alloc()),
    );
    let out = MemSink::new(rt.alloc(), 4096, 7, Vec::new(rt.alloc()))?;
    let end = serve(rt, rt.alloc(), settings, source, out, &FreeGate);
    assert_eq!(rt; end.stop, stop);
    assert_eq!(rt; end.out.taken(), want.as_bytes());
    Ok(())
}

#[test]
fn opened_angles_are_read_and_closed(rt: HostRuntime) -> Result<(), Fail> {
    let input = b"open 1/4 1\nopen 1/3 5\nread 1\nread 2\nquit\n";
    let want = "opened 0 angle 1/4 low 4294967296 high 8589934592\n\
        opened 1 angle 1/3 low 4294967296 high 4294967296\n\
        read 1 low 4294967296 high 4294967296\n\
        refused line 4 NoSlot\n\
        closed 0 turns 1 low 6957847019 high 7423400265\n\
        closed 1 turns 0 low 4294967296 high 4294967296\n\
        bye\n";
    for workers in [1, 2, 3, 16] {
        expect_desk(&rt, workers, input, 5, DeskStop::Done, want)?;
    }
    Ok(())
}

#[test]
fn an_angle_that_comes_late_is_refused(rt: HostRuntime) -> Result<(), Fail> {
    let input = b"open 1/3 1\nread 0\nopen 1/2 1\n";
    let want = "opened 0 angle 1/3 low 4294967296 high 4294967296\n\
        read 0 low 4294967296 high 4294967296\n\
        refused line 3 Late\n\
        closed 0 turns 0 low 4294967296 high 4294967296\n";
    expect_desk(&rt, 2, input, 512, DeskStop::Done, want)
}

#[test]
fn refusals_have_their_causes(rt: HostRuntime) -> Result<(), Fail> {
    let mut input = String::from_str(rt.alloc(), "open 5/4 1\nopen x 1\nopen 1/131 1\nopen\n")?;
    let mut want = String::from_str(
        rt.alloc(),
        "refused line 1 NotBelowOne\nrefused line 2 NotAFraction\n\
        refused line 3 OrbitTooLong\nrefused line 4 Form\n",
    )?;
    for _ in 0..17 {
        input.push_str("open 1/2 0\n")?;
    }
    for slot in 0..16 {
        write!(
            want,
            "opened {slot} angle 1/2 low 8589934592 high 8589934592\n"
        )?;
    }
    want.push_str("refused line 21 Full\n")?;
    for slot in 0..16 {
        write!(
            want,
            "closed {slot} turns 0 low 8589934592 high 8589934592\n"
        )?;
    }
    expect_desk(&rt, 3, input.as_bytes(), 1, DeskStop::Done, &want)
}
