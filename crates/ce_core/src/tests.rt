// Events on the rows of the angle 1/4, from three equal entries and the bounds that they give.
ghost use Rattle.std.specs.Prelude.{◌≡◌, All, length, IfOk, OnOk};
ghost use Rattle.ce_core.specs.Runs.{HasAskedAtMost};
ghost use Rattle.ce_core.specs.Script.{IsEventBelow};

use crate::{Core, Event, parse_script};
use ce_cert::{Bounds, bounds};
use ce_rows::Row::{One, Two};
use ce_rows::{Interval, NoMemory, QUARTER, Rows, Scale, is_ranking};
use std::alloc::Global;
use std::test::Fail;

const HALF: u64 = 1 << 57;

// The rows of 1/4.
fn quarter(alloc: Global, scale: Scale) -> Result<Rows, NoMemory>
    ensures { IfOk result (λ rows. length rows.list ≡ 3) }
{
    Ok(Rows::from_slice(alloc, &QUARTER)?.with_scale(scale))
}

// The machine whose initial enclosure is the bounds of its start.
fn machine<'a>(alloc: Global, rows: &'a Rows, ranks: &'a [u32]) -> Result<Core<'a>, Fail>
    requires { length rows.now.list ≡ 3 }
    ensures rows { IfOk result (λ core. core.rows ≡ rows.now) }
    ensures asked { IfOk result (λ core. HasAskedAtMost 0 core.machine) }
{
    let start = [HALF; 3];
    let ranking = if is_ranking(rows, ranks) {
        Some(())
    } else {
        None
    };
    ranking.ok_or("no ranking")?;
    // The length brings in that the rows are in range.
    let _len = rows.len();
    let Bounds { low, high, .. } = bounds(rows, ranks, &start, &mut [0; 3]);
    let one = rows.scale().one();
    if low < one || 2 * one < high {
        return Err(Fail::from("no enclosure"));
    }
    Ok(Core::new(alloc, rows, ranks, &start, Interval { low, high })?)
}

// The events that a script spells for a machine.
fn events_of(alloc: Global, core: &Core<'_>, script: &str) -> Result<Vec<Event>, Fail>
    ensures { IfOk result (λ events. All (IsEventBelow (length core.now.rows.list)) events.items) }
{
    Ok(parse_script(alloc, script.as_bytes(), core.len())?)
}

// The answers to events.
fn answers_to(alloc: Global, core: &mut Core<'_>, events: &[Event]) -> Result<Vec<u64>, Fail>
    requires events { All (IsEventBelow (length core.old.rows.list)) events.now }
    requires asked { HasAskedAtMost 0 core.old.machine }
    ensures { OnOk result (core.new.rows ≡ core.old.rows) }
{
    let mut answers = Vec::new(alloc);
    for event in events {
        answers.push(core.step(*event))?;
    }
    Ok(answers)
}

fn interval(low: u64, high: u64) -> Interval {
    Interval { low, high }
}

// The entries of a machine.
fn entries_of(core: &Core<'_>) -> [u64; 3]
    requires { length core.now.rows.list ≡ 3 }
{
    [core.entry(0), core.entry(1), core.entry(2)]
}

#[test]
fn events_give_their_answers(rt: HostRuntime) -> Result<(), Fail> {
    let rows = quarter(rt.alloc(), Scale::new(32).ok_or("no scale")?)?;
    let ranks = [0; 3];
    let mut core = machine(rt.alloc(), &rows, &ranks)?;
    let script = "load 0 2\nrelax 1 0\nload 0 0\nraise 0\nlower 0\nraise 2\nlow 1\nhigh 1\nstop 0\n\
        halted 1\nask 0\nshift 1\nask 0\nask 1\nshift 15\n";
    let answers: [u64; 15] = [
        HALF,
        115292150460684697,
        115292150460684697,
        5368709120,
        8589934592,
        5368709120,
        5368709120,
        8589934592,
        0,
        0,
        1,
        1,
        1,
        2,
        2,
    ];
    let events = events_of(rt.alloc(), &core, script)?;
    assert_eq!(rt;
        answers_to(rt.alloc(), &mut core, &events)?.as_slice(),
        answers.as_slice()
    );
    assert_eq!(rt; entries_of(&core), [115292150460684697, HALF, HALF]);
    let narrowed = interval(5368709120, 8589934592);
    let initial = interval(4294967296, 8589934592);
    assert_eq!(rt;
        [core.interval(), core.seen(0), core.seen(3)],
        [narrowed, narrowed, initial]
    );
    Ok(())
}

#[test]
fn relaxed_entries_narrow_the_interval(rt: HostRuntime) -> Result<(), Fail> {
    let table = [
        (32, 6957847019, 7423400265),
        (48, 455989462271262, 486499959746813),
    ];
    let ranks = [0; 3];
    let script = "relax 0 0\nrelax 0 1\nrelax 0 2\nraise 0\nlower 0\n";
    for (exponent, low, high) in table {
        let rows = quarter(rt.alloc(), Scale::new(exponent).ok_or("no scale")?)?;
        let mut core = machine(rt.alloc(), &rows, &ranks)?;
        let events = events_of(rt.alloc(), &core, script)?;
        core.play(&events);
        assert_eq!(rt; core.len(), 3);
        assert_eq!(rt;
            entries_of(&core),
            [115292150460684697, 161409010644958576, 186773283746309209]
        );
        assert_eq!(rt; core.interval(), Interval { low, high });
    }
    Ok(())
}

#[test]
fn rescaled_entries_keep_the_interval(rt: HostRuntime) -> Result<(), Fail> {
    let rows = quarter(rt.alloc(), Scale::new(32).ok_or("no scale")?)?;
    let ranks = [0; 3];
    let mut core = machine(rt.alloc(), &rows, &ranks)?;
    let script = "shrink 0 0\nshrink 0 0\nshrink 0 0\nshrink 0 0\nshrink 0 0\nshrink 0 0\n\
        shrink 0 0\nshrink 0 0\nraise 0\nlower 0\n";
    let answers: [u64; 10] = [
        1 << 49,
        1 << 41,
        1 << 33,
        1 << 25,
        1 << 17,
        1 << 9,
        2,
        1,
        4294967296,
        8589934592,
    ];
    let events = events_of(rt.alloc(), &core, script)?;
    assert_eq!(rt;
        answers_to(rt.alloc(), &mut core, &events)?.as_slice(),
        answers.as_slice()
    );
    assert_eq!(rt; entries_of(&core), [1, HALF, HALF]);
    Ok(())
}

#[test]
fn equal_bounds_stop(rt: HostRuntime) -> Result<(), Fail> {
    let rows = Rows::from_slice(rt.alloc(), &[Two(0, 0), Two(0, 1), One(1)])?;
    let ranks = [0, 1, 2];
    let mut core = machine(rt.alloc(), &rows, &ranks)?;
    let events = events_of(rt.alloc(), &core, "halted 1\nstop 3\nhalted 1\n")?;
    let answers: [u64; 3] = [0, 1, 1];
    assert_eq!(rt;
        answers_to(rt.alloc(), &mut core, &events)?.as_slice(),
        answers.as_slice()
    );
    Ok(())
}
