// Parts of order 4 with the angle 1/4, by hand.
use crate::{MergeCause, Merged, merge};
use std::alloc::{AllocError, Global};
use std::test::Fail;

const HEAD: &str = "core-entropy-part 2 order 4 scale 32\n";

const A: &str = "angle 1/4 low 6442450944 high 8589934592
ranks 0 0 0
low 0 2 3 3
high 2 3 3
";

const B: &str = "angle 1/4 low 4294967296 high 7730941133
ranks 0 0 0
low 0 1 1 1
high 5 8 9
";

// As A, with other vectors.
const DOUBLED: &str = "angle 1/4 low 6442450944 high 8589934592
ranks 0 0 0
low 0 4 6 6
high 4 6 6
";

const ZERO: &str = "angle 0/1 low 4294967296 high 4294967296
ranks 0
low 0 1
high 1
";

const HALF: &str = "angle 1/2 low 8589934592 high 8589934592
ranks 0
low 0 1
high 1
";

const BEST: &str = "angle 1/4 low 6979321856 high 7730941133
ranks 0 0 0
low 0 5 8 9
high 5 8 9
";

// Pieces in a row.
fn join(alloc: Global, pieces: &[&str]) -> Result<String, AllocError> {
    let mut text = String::new(alloc);
    for piece in pieces {
        text.push_str(piece)?;
    }
    Ok(text)
}

#[test]
fn parts_are_merged(rt: HostRuntime) -> Result<(), Fail> {
    let table: [(&[&str], &[&str]); 10] = [
        (&[HEAD, "end 0\n"], &[HEAD, "end 0\n"]),
        (&[HEAD, A, "end 1\n"], &[HEAD, A, "end 1\n"]),
        (&[HEAD, B, "end 1\n"], &[HEAD, B, "end 1\n"]),
        (
            &[HEAD, A, "end 1\n", HEAD, B, "end 1\n"],
            &[HEAD, A, B, "end 2\n"],
        ),
        (
            &[HEAD, B, "end 1\n", HEAD, A, "end 1\n"],
            &[HEAD, A, B, "end 2\n"],
        ),
        (&[HEAD, A, B, "end 2\n"], &[HEAD, A, B, "end 2\n"]),
        (
            &[
                HEAD, A, "end 1\n", HEAD, B, "end 1\n", HEAD, BEST, "end 1\n",
            ],
            &[HEAD, BEST, "end 1\n"],
        ),
        (&[HEAD, BEST, B, A, "end 3\n"], &[HEAD, BEST, "end 1\n"]),
        (&[HEAD, A, DOUBLED, "end 2\n"], &[HEAD, A, "end 1\n"]),
        (&[HEAD, DOUBLED, A, "end 2\n"], &[HEAD, DOUBLED, "end 1\n"]),
    ];
    for (parts, want) in table {
        let text = join(rt.alloc(), parts)?;
        let want = join(rt.alloc(), want)?;
        let Merged::Text(got) = merge(rt.alloc(), text.as_bytes()).expect(&rt, "memory") else {
            return Err(Fail::from("refused"));
        };
        assert!(rt; got.as_slice() == want.as_bytes(), "{text}");
    }
    Ok(())
}

#[test]
fn the_order_of_parts_does_not_matter(rt: HostRuntime) -> Result<(), Fail> {
    let end = "end 1\n";
    let orders: [[&str; 3]; 3] = [[ZERO, A, HALF], [HALF, ZERO, A], [A, HALF, ZERO]];
    let want = join(rt.alloc(), &[HEAD, ZERO, A, HALF, "end 3\n"])?;
    for [x, y, z] in orders {
        let text = join(rt.alloc(), &[HEAD, x, end, HEAD, y, end, HEAD, z, end])?;
        let Merged::Text(got) = merge(rt.alloc(), text.as_bytes()).expect(&rt, "memory") else {
            return Err(Fail::from("refused"));
        };
        assert!(rt; got.as_slice() == want.as_bytes(), "{text}");
    }
    Ok(())
}

#[test]
fn parts_that_are_cut_are_refused(rt: HostRuntime) -> Result<(), Fail> {
    let text = join(rt.alloc(), &[HEAD, ZERO, "end 1\n", HEAD, A, "end 1\n"])?;
    let first = join(rt.alloc(), &[HEAD, ZERO, "end 1\n"])?;
    for len in 0..text.len() {
        match merge(rt.alloc(), &text.as_bytes()[..len]).expect(&rt, "memory") {
            Merged::Text(_) => assert_eq!(rt; len, first.len()),
            Merged::Refused { cause, .. } => assert_eq!(rt; cause, MergeCause::Form, "{len}"),
        }
    }
    Ok(())
}

#[test]
fn other_bytes_are_refused(rt: HostRuntime) -> Result<(), Fail> {
    let table: [(&[&str], u64, MergeCause); 17] = [
        (&[], 1, MergeCause::Form),
        (&[HEAD, A, "end 2\n"], 6, MergeCause::Count),
        (&[HEAD, A, "end 1"], 6, MergeCause::Form),
        (&[HEAD, A, "end 1\n", "x"], 7, MergeCause::Form),
        (
            &["core-entropy-map 2 order 4 scale 32\n", A, "end 1\n"],
            1,
            MergeCause::Form,
        ),
        (
            &["core-entropy-part 2 order 129 scale 32\n", A, "end 1\n"],
            1,
            MergeCause::Form,
        ),
        (
            &[
                HEAD,
                A,
                "end 1\n",
                "core-entropy-part 2 order 5 scale 32\n",
                A,
                "end 1\n",
            ],
            7,
            MergeCause::Header,
        ),
        (
            &[
                HEAD,
                A,
                "end 1\n",
                "core-entropy-part 2 order 4 scale 48\n",
                A,
                "end 1\n",
            ],
            7,
            MergeCause::Header,
        ),
        (
            &["core-entropy-part 2 order 3 scale 32\n", A, "end 1\n"],
            2,
            MergeCause::Order,
        ),
        (
            &[
                HEAD,
                A,
                "angle 1/5 low 1 high 8589934592\nranks 0\nlow 0 1\nhigh 1\n",
            ],
            6,
            MergeCause::Order,
        ),
        (
            &[
                HEAD,
                A,
                "angle 0/1 low 1 high 4294967296\nranks 0\nlow 0 1\nhigh 1\n",
            ],
            6,
            MergeCause::Order,
        ),
        (
            &[
                HEAD,
                A,
                "angle 1/3 low 4294967297 high 4294967297\nranks 0\nlow 0 1\nhigh 1\n",
            ],
            6,
            MergeCause::Low,
        ),
        (
            &["core-entropy-part 2 order 4 scale 48\n", A, "end 1\n"],
            2,
            MergeCause::High,
        ),
        (
            &[
                HEAD,
                "angle 1/4 low 6442450944 high 8589934592\nranks 0 0\nlow 0 2 3 3\nhigh 2 3 3\n",
            ],
            2,
            MergeCause::Length,
        ),
        (
            &[
                HEAD,
                "angle 1/4 low 6442450944 high 8589934592\nranks 0 0 1\nlow 0 2 3 3\nhigh 2 3 3\n",
            ],
            2,
            MergeCause::Rank,
        ),
        (
            &[
                HEAD,
                "angle 1/4 low 6442450944 high 8589934592\nranks 0 0 0\nlow 0 2 3 3\nhigh 0 3 3\n",
            ],
            2,
            MergeCause::Entry,
        ),
        (
            &[
                HEAD,
                ZERO,
                "end 1\n",
                HEAD,
                "angle 1/4 low 6442450945 high 8589934592\nranks 0 0 0\nlow 0 2 3 3\nhigh 2 3 3\n",
            ],
            8,
            MergeCause::Low,
        ),
    ];
    for (parts, want_line, want_cause) in table {
        let text = join(rt.alloc(), parts)?;
        let Merged::Refused { line, cause } = merge(rt.alloc(), text.as_bytes()).expect(
            &rt, "memory",
        ) else {
            return Err(Fail::from("merged"));
        };
        assert_eq!(rt; line, want_line, "{text}");
        assert_eq!(rt; cause, want_cause, "{text}");
    }
    Ok(())
}
