// Orbits and kneading sequences of the first angles, by hand.
use crate::{Orbit, OrbitTooLong, Symbol};
use ce_angle::Angle;
use std::test::Fail;

#[test]
fn places_are_the_forward_orbit(rt: HostRuntime) -> Result<(), Fail> {
    // an angle, the numerators at its places, and the place after each
    let table = [
        (0, 1, [0].as_slice(), [0].as_slice()),
        (1, 2, [1, 0].as_slice(), [1, 1].as_slice()),
        (1, 3, [1, 2].as_slice(), [1, 0].as_slice()),
        (1, 4, [1, 2, 0].as_slice(), [1, 2, 2].as_slice()),
        (1, 5, [1, 2, 4, 3].as_slice(), [1, 2, 3, 0].as_slice()),
        (2, 5, [2, 4, 3, 1].as_slice(), [1, 2, 3, 0].as_slice()),
        (1, 6, [1, 2, 4].as_slice(), [1, 2, 1].as_slice()),
    ];
    for (num, den, places, next) in table {
        let angle = Angle::new(num, den)?;
        let orbit = Orbit::of(angle)?;
        assert_eq!(rt; orbit.angle(), angle, "{num}/{den}");
        assert_eq!(rt; orbit.len() as usize, places.len(), "{num}/{den}");
        assert_eq!(rt; orbit.len() as usize, next.len(), "{num}/{den}");
        for i in 0..orbit.len() {
            assert_eq!(rt;
                orbit.place(i),
                places[i as usize],
                "place {i} of {num}/{den}"
            );
            assert_eq!(rt;
                orbit.next(i),
                next[i as usize],
                "after place {i} of {num}/{den}"
            );
        }
    }
    Ok(())
}

#[test]
fn places_are_separated_where_one_symbol_is_one_and_the_other_zero(
    rt: HostRuntime,
) -> Result<(), Fail> {
    // an angle and its kneading sequence, where `*` is an end of the critical diameter
    let table = [
        (0, 1, "*"),
        (1, 2, "10"),
        (1, 3, "1*"),
        (2, 3, "1*"),
        (1, 4, "110"),
        (1, 5, "110*"),
        (2, 5, "101*"),
        (1, 6, "110"),
        (1, 7, "11*"),
    ];
    for (num, den, symbols) in table {
        let orbit = Orbit::of(Angle::new(num, den)?)?;
        let mut spelled = String::new(rt.alloc());
        for i in 0..orbit.len() {
            let symbol = orbit.symbol(i);
            write!(spelled, "{symbol}")?;
        }
        assert_eq!(rt; spelled.as_str(), symbols, "{num}/{den}");
        let symbols = symbols.as_bytes();
        assert_eq!(rt; orbit.len() as usize, symbols.len(), "{num}/{den}");
        for i in 0..orbit.len() {
            let symbol = match symbols[i as usize] {
                b'1' => Symbol::One,
                b'0' => Symbol::Zero,
                _ => Symbol::Star,
            };
            assert_eq!(rt; orbit.symbol(i), symbol, "place {i} of {num}/{den}");
            for j in 0..orbit.len() {
                let pair = (symbols[i as usize], symbols[j as usize]);
                let want = pair == (b'1', b'0') || pair == (b'0', b'1');
                assert_eq!(rt; orbit.separated(i, j), want, "{i} and {j} of {num}/{den}");
            }
        }
    }
    Ok(())
}

#[test]
fn an_orbit_has_at_most_128_places(rt: HostRuntime) -> Result<(), Fail> {
    let table = [
        (1, 448790528, Ok(128)),
        (1, 897581056, Err(OrbitTooLong)),
        (1, 131, Err(OrbitTooLong)),
    ];
    for (num, den, want) in table {
        let orbit = Orbit::of(Angle::new(num, den)?);
        assert_eq!(rt; orbit.map(|orbit| orbit.len()), want, "{num}/{den}");
    }
    Ok(())
}

#[test]
fn orbits_end_in_a_cycle(rt: HostRuntime) -> Result<(), Fail> {
    // an angle, its preperiod and its period
    let table = [
        (0, 1, 0, 1),
        (1, 2, 1, 1),
        (1, 3, 0, 2),
        (1, 4, 2, 1),
        (1, 5, 0, 4),
        (1, 6, 1, 2),
        (1, 448790528, 22, 106),
    ];
    for (num, den, preperiod, period) in table {
        let orbit = Orbit::of(Angle::new(num, den)?)?;
        assert_eq!(rt; orbit.preperiod(), preperiod, "{num}/{den}");
        assert_eq!(rt; orbit.period(), period, "{num}/{den}");
    }
    Ok(())
}

#[test]
fn keys_are_kneading_sequences_with_preperiod_and_period(rt: HostRuntime) -> Result<(), Fail> {
    // an angle, its preperiod and period, and its symbols
    let table = [
        (0, 1, 0, 1, "*"),
        (1, 4, 2, 1, "110"),
        (1, 5, 0, 4, "110*"),
        (1, 6, 1, 2, "110"),
    ];
    for (num, den, preperiod, period, symbols) in table {
        let key = Orbit::of(Angle::new(num, den)?)?.key();
        assert_eq!(rt;
            (key.preperiod, key.period),
            (preperiod, period),
            "{num}/{den}"
        );
        let symbols = symbols.as_bytes();
        for i in 0..128 {
            let want = match symbols.get(i) {
                Some(b'1') => Symbol::One,
                Some(b'*') => Symbol::Star,
                _ => Symbol::Zero,
            };
            assert_eq!(rt; key.symbols[i], want, "place {i} of {num}/{den}");
        }
    }
    let quarter = Orbit::of(Angle::new(1, 4)?)?.key();
    assert!(rt; quarter == Orbit::of(Angle::new(3, 4)?)?.key());
    // The same symbols with another preperiod, which comes first in the order.
    let sixth = Orbit::of(Angle::new(1, 6)?)?.key();
    assert!(rt; quarter != sixth);
    assert!(rt; sixth < quarter);
    Ok(())
}
