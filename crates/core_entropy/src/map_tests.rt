// Maps that are good, changed, cut off and forged.
use crate::tests::expect_run;
use crate::worked::{FIRST, FIVE_FIRST, FIVE_SECOND, NO_FIRST, NO_SECOND, SECOND, THREE};
use ce_check::{Cause, Verdict, check_map};
use std::alloc::{AllocError, Global};
use std::test::Fail;

// A text with one of its lines, counted from 1, in another form. The place 0 changes nothing.
fn changed(alloc: Global, text: &str, place: usize, line: &str) -> Result<String, AllocError> {
    let mut new = String::new(alloc);
    for (k, own) in text.lines().enumerate() {
        new.push_str(if k + 1 == place { line } else { own })?;
        new.push_str("\n")?;
    }
    Ok(new)
}

#[test]
fn maps_have_their_verdicts(rt: HostRuntime) -> Result<(), Fail> {
    let low = "angle 1/2 low 8589934593 high 8589934592";
    let lower = "angle 1/2 low 8589934591 high 8589934592";
    let high = "angle 1/2 low 8589934592 high 8589934591";
    let unreduced = "angle 2/4 low 8589934592 high 8589934592";
    let twice = "high 13 16 19 9 1 1\nangle 1/5 low 5651272757 high 6277259895\nranks 0 0 0 0 1 2\n\
        low 0 13 16 19 9 1 1\nhigh 13 16 19 9 1 1";
    let table = [
        (FIRST, 0, "", 0, "accepted 2\n"),
        (SECOND, 0, "", 0, "accepted 2\n"),
        (FIVE_FIRST, 0, "", 0, "accepted 10\n"),
        (FIVE_SECOND, 0, "", 0, "accepted 10\n"),
        (FIRST, 6, low, 1, "refused line 6 Low\n"),
        (FIRST, 6, lower, 0, "accepted 2\n"),
        (FIRST, 6, high, 1, "refused line 6 High\n"),
        (FIRST, 6, unreduced, 1, "refused line 6 Order\n"),
        (FIRST, 7, "ranks 0 0", 1, "refused line 6 Length\n"),
        (FIRST, 7, "ranks 1", 1, "refused line 6 Rank\n"),
        (FIRST, 9, "high 0", 1, "refused line 6 Entry\n"),
        (FIRST, 8, "low 0 01", 1, "refused line 8 Form\n"),
        (FIRST, 10, "end 3", 1, "refused line 10 Count\n"),
        (FIRST, 10, "end 2\nx", 1, "refused line 11 Tail\n"),
        (NO_FIRST, 0, "", 1, "refused line 2 Missing\n"),
        (NO_SECOND, 0, "", 1, "refused line 6 Missing\n"),
        ("", 0, "", 1, "refused line 1 Form\n"),
        (SECOND, 5, "high 0e", 1, "refused line 5 Form\n"),
        (SECOND, 5, "high E", 1, "refused line 5 Form\n"),
        (FIVE_FIRST, 9, twice, 1, "refused line 10 Order\n"),
        (
            FIVE_FIRST,
            19,
            "ranks 0 1 3 2 1 4",
            1,
            "refused line 18 Rank\n",
        ),
        (
            FIVE_FIRST,
            19,
            "ranks 0 0 3 2 0 4",
            1,
            "refused line 18 High\n",
        ),
        (
            FIVE_FIRST,
            21,
            "high 0 8 1 1 8 1",
            1,
            "refused line 18 Entry\n",
        ),
        (
            FIVE_FIRST,
            21,
            "high 4611686018427387904",
            1,
            "refused line 21 Form\n",
        ),
    ];
    for (text, place, line, code, want) in table {
        let map = changed(rt.alloc(), text, place, line)?;
        expect_run(&rt, "check", map.as_str(), code, want, "")?;
    }
    expect_run(&rt, "map 5 --rounds 3 --turns 0", "", 0, FIVE_SECOND, "")?;
    expect_run(&rt, "upgrade", FIVE_FIRST, 0, FIVE_SECOND, "")?;
    expect_run(&rt, "upgrade", FIVE_SECOND, 0, FIVE_SECOND, "")?;
    expect_run(&rt, "upgrade", NO_FIRST, 1, "refused line 2 Missing\n", "")?;
    expect_run(&rt, "merge", "", 1, "refused line 1 Form\n", "")
}

// Whether a digit in the place of another, after these bytes of its line, may leave a map good: in
// a lesser low end, in a greater high end, and in the vectors.
fn may_stay_good(line: &str, old: u8, new: u8) -> bool {
    if line.starts_with("angle ") {
        if line.contains(" high ") {
            old < new
        } else {
            line.contains(" low ") && new < old
        }
    } else {
        line.starts_with("low 0 ") || line.starts_with("high ")
    }
}

#[test]
fn cut_and_forged_maps_are_refused(rt: HostRuntime) -> Result<(), Fail> {
    for text in [FIVE_FIRST, FIVE_SECOND] {
        let mut line = 1;
        for k in 0..text.len() {
            let verdict = check_map(rt.alloc(), &text.as_bytes()[..k])?;
            let want = Verdict::Refused {
                line,
                cause: Cause::Form,
            };
            assert_eq!(rt; verdict, want, "cut at byte {k}");
            if text.as_bytes()[k] == b'\n' {
                line = u64::min(line, 1000) + 1;
            }
        }
    }
    let mut forged = Vec::from_slice(rt.alloc(), THREE.as_bytes())?;
    for k in 0..forged.len() {
        let old = forged[k];
        let before = THREE.get(..k).unwrap_or("");
        let line = before.rsplit_once('\n').map_or(before, |split| split.1);
        for new in b"0189abx /-\n\0" {
            forged[k] = *new;
            let verdict = check_map(rt.alloc(), &forged)?;
            let good = *new == old || may_stay_good(line, old, *new);
            let accepted = verdict == (Verdict::Accepted { count: 4 });
            let refused = matches!(verdict, Verdict::Refused { .. });
            assert!(rt; refused || accepted && good, "byte {k} as {new}");
        }
        forged[k] = old;
    }
    Ok(())
}
