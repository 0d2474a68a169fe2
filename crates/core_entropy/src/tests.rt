// What tests of whole runs share; the worked lines of one angle, and the refusals.
ghost use Rattle.std.specs.Prelude.{◌≤◌};

use crate::run::run_command;
use crate::status::Status;
use ce_port::{MemSink, MemSource, Sink, SureSink, SureSource};
use ce_words::FreeGate;
use std::alloc::Global;
use std::marker::Sync;
use std::process::Abort;
use std::test::Fail;
use std::thread::Threads;

pub(crate) const ROOM: usize = 2048;

// The words of a line, which are separated by single spaces; an empty line has none.
pub(crate) fn words_of(alloc: Global, line: &str) -> Result<Vec<String>, Fail> {
    let mut words = Vec::new(alloc);
    if line.is_empty() {
        return Ok(words);
    }
    for word in line.split(' ') {
        words.push(String::from_str(alloc, word)?)?;
    }
    Ok(words)
}

// Runs a command on a source that gives an input.
fn run_on<O: Sink, E: Sink>(
    rt: &(impl AllocGlobal + Threads + Sync),
    words: &[String],
    input: &str,
    out: &mut O,
    err: &mut E,
) -> Result<Status, Fail> {
    let mut source = SureSource::new(Vec::from_slice(rt.alloc(), input.as_bytes())?);
    Ok(run_command(rt, rt.alloc(), words, &FreeGate, &mut source, out, err))
}

// Runs a command on an input, and compares its exit code and what it writes.
pub(crate) fn expect_run(
    rt: &(impl Abort + AllocGlobal + Threads + Sync),
    line: &str,
    input: &str,
    code: u8,
    text: &str,
    error: &str,
) -> Result<(), Fail> {
    let words = words_of(rt.alloc(), line)?;
    let mut out = SureSink::new(rt.alloc(), ROOM)?;
    let mut err = SureSink::new(rt.alloc(), ROOM)?;
    let status = run_on(rt, &words, input, &mut out, &mut err)?;
    assert_eq!(rt; status.code(), code, "{line}");
    assert_eq!(rt; out.taken(), text.as_bytes(), "{line}");
    assert_eq!(rt; err.taken(), error.as_bytes(), "{line}");
    Ok(())
}

// Runs a command whose output takes 16 bytes a call, with each call failing in turn, and once with
// an error stream that fails.
pub(crate) fn expect_prefixes(
    rt: &(impl Abort + AllocGlobal + Threads + Sync),
    line: &str,
    input: &str,
    text: &str,
) -> Result<(), Fail> {
    let words = words_of(rt.alloc(), line)?;
    for k in 0..text.len() / 16 + 1 {
        let before = 16 * k;
        if before == text.len() {
            break;
        }
        let fails = vec![in rt.alloc(); k as u64 + 1]?;
        let mut out = MemSink::new(rt.alloc(), ROOM, 16, fails)?;
        let mut err = SureSink::new(rt.alloc(), ROOM)?;
        let status = run_on(rt, &words, input, &mut out, &mut err)?;
        assert_eq!(rt; status, Status::WriteFault, "{line}, call {k}");
        assert!(rt; before <= text.len());
        assert_eq!(rt; out.taken(), &text.as_bytes()[..before], "{line}, call {k}");
        assert_eq!(rt;
            err.taken(),
            b"error: write fault\n".as_slice(),
            "{line}, call {k}"
        );
    }
    let mut out = MemSink::new(rt.alloc(), ROOM, 16, vec![in rt.alloc(); 1]?)?;
    let mut err = MemSink::new(rt.alloc(), ROOM, 16, vec![in rt.alloc(); 1]?)?;
    let status = run_on(rt, &words, input, &mut out, &mut err)?;
    assert_eq!(rt; status, Status::WriteFault, "{line}");
    assert!(rt; err.taken().is_empty(), "{line}");
    Ok(())
}

// Runs a command whose source gives at most so many bytes a call, and fails at one call, if any.
pub(crate) fn expect_read(
    rt: &(impl Abort + AllocGlobal + Threads + Sync),
    line: &str,
    input: &str,
    most: usize,
    fails: Vec<u64>,
    code: u8,
    text: &str,
) -> Result<(), Fail>
    requires { 1 ≤ most }
{
    let words = words_of(rt.alloc(), line)?;
    let bytes = Vec::from_slice(rt.alloc(), input.as_bytes())?;
    let mut source = MemSource::new(bytes, most, fails);
    let mut out = SureSink::new(rt.alloc(), ROOM)?;
    let mut err = SureSink::new(rt.alloc(), ROOM)?;
    let status = run_command(
        rt,
        rt.alloc(),
        &words,
        &FreeGate,
        &mut source,
        &mut out,
        &mut err,
    );
    assert_eq!(rt; status.code(), code, "{line}");
    assert_eq!(rt; out.taken(), text.as_bytes(), "{line}");
    Ok(())
}

#[test]
fn angles_have_their_lines(rt: HostRuntime) -> Result<(), Fail> {
    let table = [
        (
            "angle 0/1 --turns 0",
            "angle 0/1 low 4294967296 high 4294967296\n",
        ),
        (
            "angle 1/2 --turns 0",
            "angle 1/2 low 8589934592 high 8589934592\n",
        ),
        (
            "angle 1/4 --turns 0",
            "angle 1/4 low 7282635751 high 7282635752\n",
        ),
        (
            "angle 1/5 --turns 0",
            "angle 1/5 low 5992926757 high 5992926759\n",
        ),
        (
            "angle 1/6 --turns 0",
            "angle 1/6 low 6534276085 high 6534276086\n",
        ),
        (
            "angle 1/7 --turns 0",
            "angle 1/7 low 4294967296 high 4294967296\n",
        ),
        (
            "angle 13/31 --turns 0",
            "angle 13/31 low 6497754638 high 6497754660\n",
        ),
        (
            "angle 1/3 --rounds 5 --turns 0",
            "angle 1/3 low 4294967296 high 4294967296\n",
        ),
        (
            "angle 1/4 --rounds 0 --turns 0",
            "angle 1/4 low 4294967296 high 8589934592\n",
        ),
        (
            "angle 1/4 --rounds 1 --turns 0",
            "angle 1/4 low 6442450944 high 8589934592\n",
        ),
        (
            "angle 2/8 --rounds=2 --turns 0",
            "angle 1/4 low 6979321856 high 7730941133\n",
        ),
        (
            "angle 1/5 --rounds 1 --turns 0",
            "angle 1/5 low 4294967296 high 7158278827\n",
        ),
        (
            "angle 1/4 --rounds 2 --turns 0 --scale 48",
            "angle 1/4 scale 48 low 457396837154816 high 506654958079181\n",
        ),
        (
            "angle 1/4 --rounds 0 --turns 1 --workers 1",
            "angle 1/4 low 6957847019 high 7423400265\n",
        ),
        (
            "angle 1/4 --rounds 0 --turns 3 --workers 1",
            "angle 1/4 low 7276435725 high 7291510696\n",
        ),
        (
            "angle 1/4 --rounds 0 --turns 3 --workers 1 --scale 48",
            "angle 1/4 scale 48 low 476868491731991 high 477856444907111\n",
        ),
        (
            "angle 1/5 --workers 1",
            "angle 1/5 low 5992926758 high 5992926759\n",
        ),
        (
            "angle 13/31 --workers 1",
            "angle 13/31 low 6497754647 high 6497754648\n",
        ),
        ("angle 2/5", "angle 2/5 low 4294967296 high 4294967296\n"),
        (
            "degree 3 1/4",
            "degree 3 angle 1/4 low 4294967296 high 4294967296\n",
        ),
        (
            "degree 3 1/3 --rounds 0 --turns 0",
            "degree 3 angle 1/3 low 8589934592 high 8589934592\n",
        ),
        (
            "degree 3 1/9 --rounds 2 --turns 0",
            "degree 3 angle 1/9 low 6979321856 high 7730941133\n",
        ),
        (
            "degree 2 1/4 --rounds 2 --turns 0",
            "degree 2 angle 1/4 low 6979321856 high 7730941133\n",
        ),
        ("compare 1/3 2/3", "compare 1/3 2/3 equal\n"),
        ("compare 1/7 1/3", "compare 1/7 1/3 equal\n"),
        ("compare 1/2 1/4", "compare 1/2 1/4 above\n"),
        ("compare 1/4 1/5 --rounds 1", "compare 1/4 1/5 open\n"),
    ];
    for (line, want) in table {
        expect_run(&rt, line, "", 0, want, "")?;
    }
    Ok(())
}

#[test]
fn refusals_have_their_codes_and_lines(rt: HostRuntime) -> Result<(), Fail> {
    let table = [
        ("", "", 2, "error: usage\n"),
        ("angel 1/4", "", 2, "error: usage\n"),
        ("angle 5/4 --rounds 37", "", 2, "error: usage\n"),
        ("check x", "", 2, "error: usage\n"),
        ("map 129", "", 2, "error: usage\n"),
        ("degree 17 1/4", "", 2, "error: usage\n"),
        ("part 4 3 7", "", 2, "error: usage\n"),
        ("part 4 3 2", "", 2, "error: usage\n"),
        ("angle 5/4 --rounds 3", "", 3, "error: NotBelowOne\n"),
        ("angle 3/0", "", 3, "error: ZeroDenominator\n"),
        ("angle 01/4", "", 3, "error: NotAFraction\n"),
        ("angle -- -1/4", "", 3, "error: NotAFraction\n"),
        ("angle ", "", 3, "error: NotAFraction\n"),
        ("angle 1/2147483649", "", 3, "error: DenominatorTooLarge\n"),
        ("compare 5/4 x", "", 3, "error: NotBelowOne\n"),
        ("compare 1/131 x", "", 3, "error: NotAFraction\n"),
        ("angle 1/131", "", 3, "error: OrbitTooLong\n"),
        ("show 1/897581056", "", 3, "error: OrbitTooLong\n"),
        ("watch 1/131", "", 3, "error: OrbitTooLong\n"),
        ("degree 3 1/257", "", 3, "error: OrbitTooLong\n"),
        ("compare 1/4 1/131", "", 3, "error: OrbitTooLong\n"),
        ("replay 1/131", "load 0 3\n", 3, "error: OrbitTooLong\n"),
        (
            "replay 1/4",
            "load 0 0\nload 0 3\n",
            3,
            "error: BadEvent line 2\n",
        ),
        ("replay 1/4", "low 16\n", 3, "error: BadEvent line 1\n"),
        ("replay 1/4", "low 0", 3, "error: BadEvent line 1\n"),
        ("replay 1/4", "\n", 3, "error: BadEvent line 1\n"),
        ("replay 1/4", "low 00\n", 3, "error: BadEvent line 1\n"),
    ];
    for (line, input, code, error) in table {
        expect_run(&rt, line, input, code, "", error)?;
    }
    Ok(())
}
