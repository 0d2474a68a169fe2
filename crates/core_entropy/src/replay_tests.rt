// Replayed scripts.
use crate::tests::expect_run;
use crate::worked::RELAXED;
use std::alloc::Global;
use std::test::Fail;

const ALONE: &str = "entries 144115188075855872 144115188075855872 144115188075855872\n\
    angle 1/4 low 4294967296 high 8589934592\n";

const RELAX: &str = "relax 0 0\nrelax 0 1\nrelax 0 2\nraise 0\nlower 0\n";

// So many lines of one event.
fn lines_of(alloc: Global, event: &str, count: usize) -> Result<String, Fail> {
    let mut script = String::new(alloc);
    for _ in 0..count {
        script.push_str(event)?;
    }
    Ok(script)
}

#[test]
fn scripts_are_replayed(rt: HostRuntime) -> Result<(), Fail> {
    let copied = "load 0 2\nrelax 1 0\nload 0 0\nraise 0\nlower 0\n";
    let copied_text = "entries 115292150460684697 144115188075855872 144115188075855872\n\
        angle 1/4 low 5368709120 high 8589934592\n";
    let shrunk = "shrink 0 0\nshrink 0 0\nshrink 0 0\nshrink 0 0\nshrink 0 0\n\
        shrink 0 0\nshrink 0 0\nshrink 0 0\nraise 0\nlower 0\n";
    let shrunk_text = "entries 1 144115188075855872 144115188075855872\n\
        angle 1/4 low 4294967296 high 8589934592\n";
    let start = "entries 144115188075855872 144115188075855872 144115188075855872\n\
        angle 1/4 scale 48 low 281474976710656 high 562949953421312\n";
    let relaxed = "entries 115292150460684697 161409010644958576 186773283746309209\n\
        angle 1/4 scale 48 low 455989462271262 high 486499959746813\n";
    let iterated = "entries 151125177156344256 217252249745133056 256250989189701824\n\
        angle 1/4 low 7282635751 high 7282635752\n";
    let table = [
        ("replay 1/4 --rounds 0", copied, copied_text),
        ("replay 1/4 --rounds 0", RELAX, RELAXED),
        ("replay 1/4 --rounds 0", "", ALONE),
        ("replay 1/4 --rounds 0", shrunk, shrunk_text),
        (
            "replay 1/4 --rounds 0",
            "stop 0\nhalted 1\nraise 1\n",
            ALONE,
        ),
        ("replay 1/4 --rounds 0 --scale 48", "", start),
        ("replay 1/4 --rounds 0 --scale 48", RELAX, relaxed),
        ("replay 1/4", "", iterated),
    ];
    for (line, script, text) in table {
        expect_run(&rt, line, script, 0, text, "")?;
    }
    Ok(())
}

#[test]
fn scripts_have_at_most_a_mebibyte(rt: HostRuntime) -> Result<(), Fail> {
    let most = lines_of(rt.alloc(), "low 0\n", 174_762)?;
    expect_run(&rt, "replay 1/4 --rounds 0", most.as_str(), 0, ALONE, "")?;
    let more = lines_of(rt.alloc(), "x", 1_048_577)?;
    for line in ["replay 1/4", "replay 1/131"] {
        expect_run(&rt, line, more.as_str(), 3, "", "error: InputTooLong\n")?;
    }
    Ok(())
}
