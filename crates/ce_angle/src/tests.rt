// An angle is written here as its two parts, a numerator and a denominator.
use crate::AngleError::{DenominatorTooLarge, NotAFraction, NotBelowOne, ZeroDenominator};
use crate::{Angle, AngleError, Farey};
use std::cmp::Ordering;

fn parts(angle: Result<Angle, AngleError>) -> Result<(u32, u32), AngleError> {
    let angle = angle?;
    Ok((angle.num(), angle.den()))
}

#[test]
fn texts_are_read_in_lowest_terms(rt: HostRuntime) {
    let table = [
        ("1/4", (1, 4)),
        ("2/8", (1, 4)),
        ("1/3", (1, 3)),
        ("0/1", (0, 1)),
        ("0/7", (0, 1)),
        ("1/2147483648", (1, 2147483648)),
        ("2147483646/2147483648", (1073741823, 1073741824)),
    ];
    for (text, want) in table {
        assert_eq!(rt; parts(Angle::parse(text.as_bytes())), Ok(want), "{text}");
    }
}

#[test]
fn angles_are_spelled_in_lowest_terms(rt: HostRuntime) {
    let table = [
        ("1/4", "1/4"),
        ("2/8", "1/4"),
        ("0/7", "0/1"),
        ("2147483647/2147483648", "2147483647/2147483648"),
    ];
    for (text, want) in table {
        let angle = Angle::parse(text.as_bytes()).expect(&rt, "an angle");
        let spelled = format!(in rt.alloc(); "{angle}").expect(&rt, "memory");
        assert_eq!(rt; spelled.as_str(), want, "{text}");
    }
}

#[test]
fn texts_that_are_no_angle_get_the_first_reason(rt: HostRuntime) {
    let table = [
        ("", NotAFraction),
        ("x", NotAFraction),
        ("1", NotAFraction),
        ("/", NotAFraction),
        ("1/", NotAFraction),
        ("/4", NotAFraction),
        ("1/4/", NotAFraction),
        ("1//4", NotAFraction),
        ("+1/4", NotAFraction),
        ("-1/4", NotAFraction),
        ("1 /4", NotAFraction),
        ("1/4\n", NotAFraction),
        ("01/4", NotAFraction),
        ("00/4", NotAFraction),
        ("1/04", NotAFraction),
        ("12345678901/5", NotAFraction),
        ("1/12345678901", NotAFraction),
        ("1/0", ZeroDenominator),
        ("3/0", ZeroDenominator),
        ("0/0", ZeroDenominator),
        ("4/4", NotBelowOne),
        ("5/4", NotBelowOne),
        ("9999999999/2147483649", NotBelowOne),
        // As written, and not as reduced: the second one is 1/4.
        ("1/2147483649", DenominatorTooLarge),
        ("2147483649/8589934596", DenominatorTooLarge),
    ];
    for (text, want) in table {
        assert_eq!(rt; parts(Angle::parse(text.as_bytes())), Err(want), "{text}");
    }
}

#[test]
fn numbers_are_reduced_or_refused(rt: HostRuntime) {
    let table = [
        (6, 8, Ok((3, 4))),
        (0, 7, Ok((0, 1))),
        (2, 3, Ok((2, 3))),
        (1073741824, 2147483648, Ok((1, 2))),
        (2147483647, 2147483648, Ok((2147483647, 2147483648))),
        (5, 0, Err(ZeroDenominator)),
        (0, 0, Err(ZeroDenominator)),
        (8, 8, Err(NotBelowOne)),
        (18446744073709551615, 2147483649, Err(NotBelowOne)),
        (3, 2147483649, Err(DenominatorTooLarge)),
    ];
    for (num, den, want) in table {
        assert_eq!(rt; parts(Angle::new(num, den)), want, "{num}/{den}");
    }
    assert_eq!(rt; Angle::parse(b"2/8"), Angle::new(1, 4));
}

#[test]
fn angles_up_to_an_order_rise(rt: HostRuntime) {
    // an order, and its angles
    let table = [
        (1, [(0, 1)].as_slice()),
        (2, [(0, 1), (1, 2)].as_slice()),
        (
            4,
            [(0, 1), (1, 4), (1, 3), (1, 2), (2, 3), (3, 4)].as_slice(),
        ),
    ];
    for (order, want) in table {
        let mut farey = Farey::start(order);
        for (num, den) in want {
            let angle = farey.next().expect(&rt, "an angle");
            assert_eq!(rt; (angle.num(), angle.den()), (*num, *den), "order {order}");
        }
        assert!(rt; farey.next().is_none(), "order {order}");
        assert!(rt; farey.next().is_none(), "order {order}, again");
    }
}

#[test]
fn angles_are_counted(rt: HostRuntime) {
    // an order, and the number of its angles: the sum of Euler's phi
    let table = [(5, 10), (64, 1260), (128, 5022)];
    for (order, want) in table {
        let mut farey = Farey::start(order);
        let mut count = 0u32;
        for _ in 0..10000 {
            if farey.next().is_some() {
                count = count.saturating_add(1);
            }
        }
        assert_eq!(rt; count, want, "order {order}");
    }
    let mut longest = Farey::start(2147483648);
    for (num, den) in [(0, 1), (1, 2147483648), (1, 2147483647)] {
        let angle = longest.next().expect(&rt, "an angle");
        assert_eq!(rt; (angle.num(), angle.den()), (num, den));
    }
}

#[test]
fn angles_are_doubled_and_compared(rt: HostRuntime) -> Result<(), AngleError> {
    let table = [
        ((1, 4), (1, 2)),
        ((1, 2), (0, 1)),
        ((2, 3), (1, 3)),
        ((0, 1), (0, 1)),
        ((5, 6), (2, 3)),
    ];
    for ((num, den), want) in table {
        let angle = Angle::new(num, den)?;
        assert_eq!(rt; parts(Ok(angle.double())), Ok(want), "{num}/{den}");
    }
    let half = Angle::new(1, 2)?;
    assert_eq!(rt; Angle::new(1, 3)?.compare(&half), Ordering::Less);
    assert_eq!(rt; Angle::new(2, 4)?.compare(&half), Ordering::Equal);
    assert_eq!(rt;
        Angle::new(2147483646, 2147483647)?.compare(&half),
        Ordering::Greater
    );
    Ok(())
}
