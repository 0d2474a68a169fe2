// The texts of the commands, on streams that work, that fail at each call, and that give little.
use crate::run::run_command;
use crate::tests::{ROOM, expect_prefixes, expect_read, expect_run, words_of};
use crate::worked::{
    CLASSES, FIRST, MERGED, PART, PARTS, PROBED, RELAXED, SECOND, SHOWN, THREE, WATCHED,
};
use ce_port::{SureSink, SureSource};
use ce_words::FreeGate;
use std::test::Fail;

const RELAX: &str = "relax 0 0\nrelax 0 1\nrelax 0 2\nraise 0\nlower 0\n";

#[test]
fn texts_are_written_or_broken_off(rt: HostRuntime) -> Result<(), Fail> {
    let angle = "angle 1/4 low 6979321856 high 7730941133\n";
    let degree = "degree 3 angle 1/2 low 4294967296 high 4294967296\n";
    let table = [
        ("angle 1/4 --rounds 2 --turns 0", "", angle),
        ("show 2/12", "", SHOWN),
        ("watch 1/3 --sessions 2 --reads 2", "", WATCHED),
        ("map 3 --rounds 0 --turns 0", "", THREE),
        ("check", FIRST, "accepted 2\n"),
        ("upgrade", FIRST, SECOND),
        ("replay 1/4 --rounds 0", RELAX, RELAXED),
        ("probe 2 3 --rounds 0", "", PROBED),
        ("degree 3 1/2 --rounds 2 --turns 0", "", degree),
        ("part 4 1 3 --rounds 0 --turns 0", "", PART),
        ("merge", PARTS, MERGED),
        ("atlas 5 --rounds 2", "", CLASSES),
        ("compare 1/4 1/2", "", "compare 1/4 1/2 below\n"),
    ];
    for (line, input, text) in table {
        expect_run(&rt, line, input, 0, text, "")?;
        expect_prefixes(&rt, line, input, text)?;
        if !input.is_empty() {
            // The last call finds the end of the input.
            for k in 0..input.len().div_ceil(16) + 1 {
                let fails = vec![in rt.alloc(); k as u64 + 1]?;
                expect_read(&rt, line, input, 16, fails, 4, "")?;
            }
            expect_read(&rt, line, input, 1, Vec::new(rt.alloc()), 0, text)?;
        }
    }
    Ok(())
}

#[test]
fn the_longest_orbit_is_shown(rt: HostRuntime) -> Result<(), Fail> {
    let words = words_of(rt.alloc(), "show 1/448790528")?;
    let mut out = SureSink::new(rt.alloc(), 300_000)?;
    let mut err = SureSink::new(rt.alloc(), ROOM)?;
    let status = run_command(
        &rt,
        rt.alloc(),
        &words,
        &FreeGate,
        &mut SureSource::new(Vec::new(rt.alloc())),
        &mut out,
        &mut err,
    );
    assert_eq!(rt; status.code(), 0);
    let text = out.taken();
    let start = b"angle 1/448790528\npreperiod 22 period 106\norbit 1/448790528 1/22".as_slice();
    let end = b"\nrow 8127 pair 126 127 to 8001 231\n".as_slice();
    assert!(rt; text.starts_with(start) && text.ends_with(end));
    Ok(())
}
