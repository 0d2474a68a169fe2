// Classes of the first angles, by hand from their kneading sequences; the counts of the orders 64
// and 128 are those of a count apart from this program.
ghost use Rattle.ce_solve.specs.Limits.{AreWithinLimits};

use crate::{angles_up_to, classes, probe_angles, solve_classes, solve_list, solve_probe, sweep};
use ce_angle::Angle;
use ce_rows::Scale;
use ce_solve::{Settings, SolveError};
use ce_words::FreeGate;
use std::test::Fail;

#[test]
fn angles_are_in_one_class_where_their_keys_are_equal(rt: HostRuntime) {
    let angles = angles_up_to(rt.alloc(), 4).expect(&rt, "memory");
    let found = classes(rt.alloc(), &angles).expect(&rt, "classes");
    assert_eq!(rt; found.of.as_slice(), [0u32, 1, 2, 3, 2, 1].as_slice());
    assert_eq!(rt; found.first.as_slice(), [0u32, 1, 2, 3].as_slice());
}

#[test]
fn classes_are_counted(rt: HostRuntime) {
    // an order, its angles and their classes
    let table = [(1, 1, 1), (5, 10, 6), (64, 1260, 589), (128, 5022, 2385)];
    for (order, count, want) in table {
        let angles = angles_up_to(rt.alloc(), order).expect(&rt, "memory");
        assert_eq!(rt; angles.len(), count, "order {order}");
        let found = classes(rt.alloc(), &angles).expect(&rt, "classes");
        assert_eq!(rt; found.of.len(), count, "order {order}");
        assert_eq!(rt; found.first.len(), want, "order {order}");
    }
}

#[test]
fn long_orbits_are_refused(rt: HostRuntime) -> Result<(), Fail> {
    let angles = [Angle::new(1, 4)?, Angle::new(1, 131)?];
    let found = classes(rt.alloc(), &angles);
    assert!(rt; matches!(&found, Err(SolveError::OrbitTooLong)));
    Ok(())
}

// Two rounds and no turns of one worker.
fn two_rounds(scale: Scale) -> Settings
    ensures { AreWithinLimits result }
{
    Settings {
        rounds: 2,
        turns: 0,
        workers: 1,
        sessions: 0,
        reads: 0,
        scale,
    }
}

#[test]
fn each_angle_gets_an_answer(rt: HostRuntime) -> Result<(), Fail> {
    let scale = Scale::new(32).expect(&rt, "a scale");
    let settings = two_rounds(scale);
    let angles = [Angle::new(1, 2)?, Angle::new(1, 4)?, Angle::new(1, 2)?];
    let answers = solve_list(&rt, rt.alloc(), &angles, settings, &FreeGate);
    let answers = answers.expect(&rt, "answers");
    assert_eq!(rt; answers.len(), 3);
    for (answer, pairs) in answers.iter().zip([1usize, 3, 1]) {
        assert_eq!(rt; answer.solved.certificate.ranks.len(), pairs);
    }
    assert_eq!(rt; answers[1].angle, Angle::new(1, 4)?);
    let long = [Angle::new(1, 4)?, Angle::new(1, 131)?];
    let refused = solve_list(&rt, rt.alloc(), &long, settings, &FreeGate);
    assert!(rt; matches!(&refused, Err(SolveError::OrbitTooLong)));
    let swept = sweep(&rt, rt.alloc(), 5, settings, &FreeGate).expect(&rt, "answers");
    assert_eq!(rt; swept.len(), 10);
    Ok(())
}

#[test]
fn probes_are_generated(rt: HostRuntime) -> Result<(), Fail> {
    let angles = probe_angles(rt.alloc(), 2, 3).expect(&rt, "memory");
    let want = [Angle::new(1, 2)?, Angle::new(2, 5)?, Angle::new(2, 3)?];
    assert_eq!(rt; angles.as_slice(), want.as_slice());
    let scale = Scale::new(48).expect(&rt, "a scale");
    let settings = two_rounds(scale);
    let answers = solve_probe(&rt, rt.alloc(), 7, 200, settings, &FreeGate).expect(&rt, "memory");
    assert_eq!(rt; answers.len(), 200);
    Ok(())
}

#[test]
fn each_class_is_solved_once(rt: HostRuntime) {
    let scale = Scale::new(32).expect(&rt, "a scale");
    let settings = two_rounds(scale);
    let angles = angles_up_to(rt.alloc(), 4).expect(&rt, "memory");
    let found = solve_classes(&rt, rt.alloc(), &angles, settings, &FreeGate).expect(
        &rt,
        "solutions",
    );
    assert_eq!(rt;
        found.classes.of.as_slice(),
        [0u32, 1, 2, 3, 2, 1].as_slice()
    );
    assert_eq!(rt; found.solved.len(), 4);
    for (solved, pairs) in found.solved.iter().zip([1usize, 3, 1, 1]) {
        assert_eq!(rt; solved.certificate.ranks.len(), pairs);
    }
}
