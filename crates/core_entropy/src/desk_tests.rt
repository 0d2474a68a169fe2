// A desk over streams in memory: its replies, and what is left where a stream fails.
use crate::desk::run_desk;
use crate::status::Status;
use crate::tests::{ROOM, expect_run, words_of};
use ce_port::{MemSink, MemSource, SureSink};
use ce_words::FreeGate;
use std::marker::Sync;
use std::process::Abort;
use std::test::Fail;
use std::thread::Threads;

const SCRIPT: &str = "open 1/4 1\nopen 1/3 5\nread 1\nread 2\nopen 1/5 1\nquit\n";

const REPLIES: &str = "opened 0 angle 1/4 low 4294967296 high 8589934592\n\
    opened 1 angle 1/3 low 4294967296 high 4294967296\n\
    read 1 low 4294967296 high 4294967296\n\
    refused line 4 NoSlot\n\
    refused line 5 Late\n\
    closed 0 turns 1 low 6957847019 high 7423400265\n\
    closed 1 turns 0 low 4294967296 high 4294967296\n\
    bye\n";

// Runs what words ask for, on a source that gives 16 bytes a call and a sink that takes as many,
// where each fails at these calls. What is written begins a text; gives how much of it there is.
fn written(
    rt: &(impl Abort + AllocGlobal + Threads + Sync),
    line: &str,
    input: &str,
    reads: Vec<u64>,
    writes: Vec<u64>,
    status: Status,
    text: &str,
    error: &str,
) -> Result<usize, Fail> {
    let words = words_of(rt.alloc(), line)?;
    let bytes = Vec::from_slice(rt.alloc(), input.as_bytes())?;
    let source = MemSource::new(bytes, 16, reads);
    let out = MemSink::new(rt.alloc(), ROOM, 16, writes)?;
    let mut err = SureSink::new(rt.alloc(), ROOM)?;
    let run = run_desk(rt, rt.alloc(), &words, source, out, &mut err, &FreeGate);
    assert_eq!(rt; run.status, status, "{line}");
    assert!(rt; text.as_bytes().starts_with(run.out.taken()), "{line}");
    assert_eq!(rt; err.taken(), error.as_bytes(), "{line}");
    Ok(run.out.taken().len())
}

#[test]
fn desks_reply_to_their_lines(rt: HostRuntime) -> Result<(), Fail> {
    let late = "opened 0 angle 1/3 low 4294967296 high 4294967296\n\
        read 0 low 4294967296 high 4294967296\n\
        refused line 3 Late\n\
        closed 0 turns 0 low 4294967296 high 4294967296\n";
    let usage = "error: usage\n";
    let table = [
        (
            "desk --rounds 0 --workers 2",
            SCRIPT,
            Status::Done,
            REPLIES,
            "",
        ),
        (
            "desk --rounds 0 --workers 2",
            "open 1/3 1\nread 0\nopen 1/2 1\n",
            Status::Done,
            late,
            "",
        ),
        ("desk", "", Status::Done, "", ""),
        ("desk", "quit\n", Status::Done, "bye\n", ""),
        ("desk 1/4", SCRIPT, Status::Usage, "", usage),
        ("desk --workers 17", SCRIPT, Status::Usage, "", usage),
        ("angle 1/4", SCRIPT, Status::Usage, "", usage),
        ("", SCRIPT, Status::Usage, "", usage),
    ];
    for (line, input, status, text, error) in table {
        let none = Vec::new(rt.alloc());
        let nowhere = Vec::new(rt.alloc());
        let len = written(&rt, line, input, none, nowhere, status, text, error)?;
        assert_eq!(rt; len, text.len(), "{line}");
    }
    expect_run(&rt, "desk", SCRIPT, 2, "", usage)
}

#[test]
fn desks_break_off_where_a_stream_fails(rt: HostRuntime) -> Result<(), Fail> {
    let line = "desk --rounds 0 --workers 2";
    // The lines are read by 4 calls, and no call writes more than one line.
    for k in 1..5u64 {
        let reads = vec![in rt.alloc(); k]?;
        let none = Vec::new(rt.alloc());
        let fault = "error: read fault\n";
        written(
            &rt,
            line,
            SCRIPT,
            reads,
            none,
            Status::ReadFault,
            REPLIES,
            fault,
        )?;
    }
    for k in 1..9u64 {
        let none = Vec::new(rt.alloc());
        let writes = vec![in rt.alloc(); k]?;
        let fault = "error: write fault\n";
        let len = written(
            &rt,
            line,
            SCRIPT,
            none,
            writes,
            Status::WriteFault,
            REPLIES,
            fault,
        )?;
        assert!(rt; len < REPLIES.len(), "call {k}");
    }
    Ok(())
}
