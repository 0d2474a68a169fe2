// Walks over small maps, the headers of parts, and the text of version 2, by hand.
use crate::{
    MapView, Numbers, PartHeader, Step, append_end, append_header, append_item, append_part_header,
    append_view, part_header,
};
use ce_angle::Angle;
use ce_cert::CertView;
use ce_rows::{NoMemory, Scale};
use std::alloc::{AllocError, Global};
use std::process::Abort;
use std::test::Fail;

const TWO: [&str; 10] = [
    "core-entropy-map 1 order 2",
    "angle 0/1 low 4294967296 high 4294967296",
    "ranks 0",
    "low 0 1",
    "high 1",
    "angle 1/2 low 8589934592 high 8589934592",
    "ranks 0",
    "low 0 1",
    "high 1",
    "end 2",
];

// The lines with a line feed after each, where one of them is another one.
fn text_of(alloc: Global, lines: &[&str], place: usize, line: &str) -> Result<String, AllocError> {
    let mut text = String::new(alloc);
    for (k, own) in lines.iter().enumerate() {
        text.push_str(if k == place { line } else { *own })?;
        text.push_str("\n")?;
    }
    Ok(text)
}

// The numbers of a list.
fn all_of(alloc: Global, numbers: Numbers<'_>) -> Result<Vec<u64>, AllocError> {
    let mut numbers = numbers;
    let mut list = Vec::new(alloc);
    for _ in 0..numbers.count() {
        if let Some(number) = numbers.next() {
            list.push(number)?;
        }
    }
    Ok(list)
}

#[test]
fn a_walk_answers_part_after_part(rt: HostRuntime) -> Result<(), Fail> {
    let text = text_of(rt.alloc(), &TWO, 10, "")?;
    let bytes = text.as_bytes();
    let scale = Scale::new(32).ok_or("no scale")?;
    let mut view = MapView::new(bytes);
    let header = Step::Header {
        order: 2,
        version: 1,
        scale,
    };
    assert_eq!(rt; view.next(), header);
    let Step::Item(first) = view.next() else {
        return Err(Fail::from("no first item"));
    };
    assert_eq!(rt; (first.line, first.from, first.text.len()), (2, 27, 64));
    assert_eq!(rt; (first.num, first.den, first.low_rank), (0, 1, 0));
    assert_eq!(rt; (first.low, first.high), (4294967296, 4294967296));
    assert_eq!(rt; all_of(rt.alloc(), first.ranks)?.as_slice(), [0].as_slice());
    assert_eq!(rt;
        all_of(rt.alloc(), first.low_vector)?.as_slice(),
        [1].as_slice()
    );
    let Step::Item(second) = view.next() else {
        return Err(Fail::from("no second item"));
    };
    assert_eq!(rt; (second.line, second.num, second.den), (6, 1, 2));
    assert_eq!(rt; view.next(), Step::End { line: 10, count: 2 });
    assert_eq!(rt; view.at(), bytes.len());
    assert_eq!(rt; view.next(), Step::Over);
    assert_eq!(rt; view.next(), Step::Over);
    Ok(())
}

// The last answer of a walk, after its items.
fn end_of<'a>(bytes: &'a [u8]) -> Step<'a> {
    let mut view = MapView::new(bytes);
    let mut step = view.next();
    for _ in 0..8 {
        if !matches!(step, Step::Form { .. } | Step::Tail { .. } | Step::Over) {
            step = view.next();
        }
    }
    step
}

#[test]
fn the_first_line_that_does_not_fit_is_named(rt: HostRuntime) -> Result<(), Fail> {
    let table = [
        (0, "core-entropy-map 1 order 0", 1),
        (0, "core-entropy-map 1 order 65", 1),
        (0, "core-entropy-map 2 order 2", 1),
        (0, "core-entropy-map 1 order 2 scale 32", 1),
        (0, "core-entropy-map 2 order 2 scale 40", 1),
        (0, "core-entropy-map 2 order 129 scale 32", 1),
        (0, "core-entropy-map 3 order 2", 1),
        (0, "core-entropy-map 01 order 2", 1),
        (1, "angle 0 /1 low 4294967296 high 4294967296", 2),
        (1, "angle 0/1 low 4294967296 high 4294967296 ", 2),
        (1, "angle 0/1 low 4611686018427387904 high 4294967296", 2),
        (1, "end x", 2),
        (2, "ranks", 3),
        (2, "ranks 0 00", 3),
        (2, "ranks  0", 3),
        (2, "ranks a", 3),
        (3, "low 0", 4),
        (3, "low 0 01", 4),
        (3, "low 0 a", 4),
        (3, "low 0 18446744073709551617", 4),
        (3, "low 0 4611686018427387904", 4),
        (3, "low a 1", 4),
        (4, "high", 5),
        (4, "high 1\r", 5),
        (5, "", 6),
        (9, "end 02", 10),
        (9, "end", 10),
    ];
    for (place, line, want) in table {
        let text = text_of(rt.alloc(), &TWO, place, line)?;
        assert_eq!(rt;
            end_of(text.as_bytes()),
            Step::Form { line: want },
            "{line}"
        );
    }
    assert_eq!(rt; end_of(b""), Step::Form { line: 1 });
    let open = "core-entropy-map 1 order 2";
    assert_eq!(rt; end_of(open.as_bytes()), Step::Form { line: 1 });
    let tail = text_of(rt.alloc(), &TWO, 9, "end 2\nx")?;
    assert_eq!(rt; end_of(tail.as_bytes()), Step::Tail { line: 11 });
    Ok(())
}

#[test]
fn entries_of_version_2_are_hexadecimal(rt: HostRuntime) -> Result<(), Fail> {
    let text = "angle 1/4 low 7158278826 high 7669584458\nranks 0 0 0\nlow 0 e 15 19\nhigh e 15 \
        3fffffffffffffff\n";
    let mut view = MapView::items(text.as_bytes(), 0, 1, 2);
    let Step::Item(item) = view.next() else {
        return Err(Fail::from("no item"));
    };
    assert_eq!(rt;
        all_of(rt.alloc(), item.low_vector)?.as_slice(),
        [14, 21, 25].as_slice()
    );
    let high = [14, 21, 4611686018427387903];
    assert_eq!(rt;
        all_of(rt.alloc(), item.high_vector)?.as_slice(),
        high.as_slice()
    );
    assert_eq!(rt; view.next(), Step::Form { line: 5 });
    let table = [
        ("low 0 e 15 1A", 3),
        ("low 0 0e 15 19", 3),
        ("low 0 e 15 4000000000000000", 3),
        ("low 0 e 15 10000000000000000", 3),
        ("low 0 g 15 19", 3),
    ];
    let lines = [
        "angle 1/4 low 7158278826 high 7669584458",
        "ranks 0 0 0",
        "low 0 e 15 19",
        "high e 15 19",
    ];
    for (line, want) in table {
        let text = text_of(rt.alloc(), &lines, 2, line)?;
        let mut view = MapView::items(text.as_bytes(), 0, 1, 2);
        assert_eq!(rt; view.next(), Step::Form { line: want }, "{line}");
    }
    Ok(())
}

// The text of a map of order 4 with the item of 1/4 after three rounds, and then one whose numbers
// are next to those that have a digit more.
fn written(rt: &(impl Abort + AllocGlobal)) -> Result<Vec<u8>, NoMemory> {
    let scale = Scale::new(32).expect(rt, "a scale");
    let quarter = CertView {
        ranks: &[0, 0, 0],
        low_rank: 0,
        low_vector: &[14, 21, 25],
        high_vector: &[14, 21, 25],
        low: 7158278826,
        high: 7669584458,
    };
    let edges = CertView {
        ranks: &[0, 9, 10, 99, 100, 4294967295],
        low_rank: 10,
        low_vector: &[9, 10, 15, 16, 255, 256],
        high_vector: &[1, 4095, 4096, 65535, 1 << 61, (1 << 62) - 1],
        low: 0,
        high: 4611686018427387903,
    };
    let mut text = Vec::new(rt.alloc());
    append_header(&mut text, 4, scale)?;
    append_item(&mut text, Angle::new(1, 4).expect(rt, "an angle"), &quarter)?;
    append_item(&mut text, Angle::new(9, 10).expect(rt, "an angle"), &edges)?;
    append_end(&mut text, 2)?;
    Ok(text)
}

#[test]
fn what_is_appended_is_the_text_of_version_2(rt: HostRuntime) -> Result<(), Fail> {
    let want = "core-entropy-map 2 order 4 scale 32
angle 1/4 low 7158278826 high 7669584458
ranks 0 0 0
low 0 e 15 19
high e 15 19
angle 9/10 low 0 high 4611686018427387903
ranks 0 9 10 99 100 4294967295
low 10 9 a f 10 ff 100
high 1 fff 1000 ffff 2000000000000000 3fffffffffffffff
end 2
";
    assert_eq!(rt; written(&rt)?.as_slice(), want.as_bytes());
    let first = "angle 1/4 low 1 high 2\nranks 0 10\nlow 0 9 17\nhigh 16 300\n";
    let second = "angle 1/4 low 1 high 2\nranks 0 10\nlow 0 9 11\nhigh 10 12c\n";
    let mut view = MapView::items(first.as_bytes(), 0, 1, 1);
    let Step::Item(item) = view.next() else {
        return Err(Fail::from("no item"));
    };
    let mut text = Vec::new(rt.alloc());
    append_view(&mut text, &item)?;
    assert_eq!(rt; text.as_slice(), second.as_bytes());
    Ok(())
}

#[test]
fn a_part_has_a_header_of_its_own(rt: HostRuntime) -> Result<(), Fail> {
    let scale = Scale::new(48).ok_or("no scale")?;
    let mut text = Vec::new(rt.alloc());
    append_part_header(&mut text, 128, scale)?;
    let want = "core-entropy-part 2 order 128 scale 48\n";
    assert_eq!(rt; text.as_slice(), want.as_bytes());
    let after = "end 0\ncore-entropy-part 2 order 128 scale 48\nend 0\n";
    let found = Some(PartHeader {
        order: 128,
        scale,
        end: 45,
    });
    assert_eq!(rt; part_header(after.as_bytes(), 6), found);
    let table = [
        "",
        "core-entropy-part 2 order 128 scale 48",
        "core-entropy-part 2 order 129 scale 48\n",
        "core-entropy-part 2 order 0 scale 48\n",
        "core-entropy-part 2 order 4 scale 40\n",
        "core-entropy-part 1 order 4\n",
        "core-entropy-map 2 order 4 scale 32\n",
    ];
    for line in table {
        assert_eq!(rt; part_header(line.as_bytes(), 0), None, "{line}");
    }
    Ok(())
}
