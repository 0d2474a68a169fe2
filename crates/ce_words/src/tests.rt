// Seats that step on the words of the rows of the angle 1/4, and of a cycle with equal bounds.
ghost use Rattle.std.specs.Prelude.{◌≡◌, ◌<◌, [], ◌∷◌, IfOk, IsTrue, All, length};
ghost use Rattle.ce_rows.specs.Blocks.{IsRanking};
ghost use Rattle.ce_words.specs.Logs.{in_part};
ghost use Rattle.ce_words.specs.Seats.{board_run, Sits};
ghost use Rattle.ce_words.specs.Views.{rows_of, view, opened};

use crate::{Board, Part, Seat};
use ce_cert::{Bounds, bounds};
use ce_rows::Row::One;
use ce_rows::{Interval, QUARTER, Row, Rows, is_ranking};
use std::alloc::Global;
use std::test::Fail;
use std::thread::{Threads, for_each_mut};

const START: [u64; 3] = [1, 1, 1];

const RANKS: [u32; 3] = [0, 0, 0];

// Three rows on a cycle, whose bounds are equal.
const CYCLE: [Row; 3] = [One(1), One(2), One(0)];

// A board whose initial enclosure is the bounds of three equal entries.
fn made(alloc: Global, rows: &Rows) -> Result<(Board, Seat), Fail>
    requires { length rows.now.list ≡ 3 }
    ensures rows { IfOk result (λ made. rows_of (board_run made.0) ≡ rows.now) }
    ensures seat { IfOk result (λ made. Sits made.0 made.1) }
    ensures view { IfOk result (λ made. view made.1 ≡ opened (board_run made.0)) }
    ensures ranking { IfOk result (λ _. IsRanking rows.now.list (0 ∷ 0 ∷ 0 ∷ [])) }
{
    let ranking = if is_ranking(rows, &RANKS) {
        Some(())
    } else {
        None
    };
    ranking.ok_or("no ranking")?;
    // The length brings in that the rows are in range.
    let _len = rows.len();
    let Bounds { low, high, .. } = bounds(rows, &RANKS, &START, &mut [0; 3]);
    let one = rows.scale().one();
    if low < one || 2 * one < high {
        return Err(Fail::from("no initial enclosure"));
    }
    Ok(Board::new(alloc, rows, &RANKS, &START, Interval { low, high })?)
}

#[test]
fn seats_see_the_best_of_what_was_certified(rt: HostRuntime) -> Result<(), Fail> {
    let rows = Rows::from_slice(rt.alloc(), &QUARTER)?;
    let (board, mut first) = made(rt.alloc(), &rows)?;
    let mut a = board.split(&mut first, Part { from: 0, to: 0 });
    let mut b = board.split(&mut first, Part { from: 0, to: 0 });
    let strong = bounds(&rows, &RANKS, &[5, 8, 9], &mut [0; 3]);
    let weak = bounds(&rows, &RANKS, &[2, 3, 3], &mut [0; 3]);
    assert_eq!(rt; (strong.low, strong.high), (6979321856, 7730941133));
    assert_eq!(rt; weak.low, 6442450944);
    let seen = board.load_bounds(&mut a);
    assert_eq!(rt; (seen.low, seen.high), (4294967296, 8589934592));
    assert_eq!(rt; board.raise_low(&mut a, strong.low), 6979321856);
    assert_eq!(rt; board.raise_low(&mut b, weak.low), 6979321856);
    assert_eq!(rt; board.lower_high(&mut b, strong.high), 7730941133);
    let seen = board.load_bounds(&mut a);
    assert_eq!(rt; (seen.low, seen.high), (6979321856, 7730941133));
    board.join(&mut first, a);
    board.join(&mut first, b);
    let settled = board.settled(&mut first);
    let closed = board.close(first);
    assert_eq!(rt; (settled.low, settled.high), (6979321856, 7730941133));
    assert_eq!(rt; (closed.low, closed.high), (6979321856, 7730941133));
    Ok(())
}

#[test]
fn entries_and_rescalings_are_seen_by_all(rt: HostRuntime) -> Result<(), Fail> {
    let rows = Rows::from_slice(rt.alloc(), &QUARTER)?;
    let (board, mut first) = made(rt.alloc(), &rows)?;
    let mut b = board.split(&mut first, Part { from: 0, to: 3 });
    let mut a = board.split(&mut first, Part { from: 0, to: 0 });
    board.store_entry(&mut b, 2, 7, false);
    assert_eq!(rt; board.load_entry(&mut a, 2), 7);
    assert_eq!(rt; board.load_entry(&mut b, 2), 7);
    board.store_entry(&mut b, 2, 1, true);
    let values = [
        board.load_entry(&mut a, 0),
        board.load_entry(&mut a, 1),
        board.load_entry(&mut a, 2),
    ];
    assert_eq!(rt; values, [1, 1, 1]);
    board.ask_shift(&mut a, 1);
    assert_eq!(rt; board.load_shift(&mut b), 1);
    board.ask_shift(&mut b, 1);
    assert_eq!(rt; board.load_shift(&mut a), 1);
    assert_eq!(rt; board.load_stop(&mut a), false);
    Ok(())
}

#[test]
fn equal_bounds_stop(rt: HostRuntime) -> Result<(), Fail> {
    let rows = Rows::from_slice(rt.alloc(), &CYCLE)?;
    let (board, mut a) = made(rt.alloc(), &rows)?;
    let mut b = board.split(&mut a, Part { from: 0, to: 3 });
    let seen = board.load_bounds(&mut a);
    assert_eq!(rt; (seen.low, seen.high), (4294967296, 4294967296));
    if seen.low == seen.high {
        board.set_stop(&mut a);
    }
    assert_eq!(rt; board.load_stop(&mut b), true);
    Ok(())
}

// A seat that stores to an entry, or that loads it.
#[derive(Drop)]
struct Actor {
    seat: Seat,
    stores: bool,
    last: u64,
    fell: bool,
}

// Stores 1 to 1,000 to the entry 0, or loads it 1,000 times.
fn run_one(board: &Board, actor: &mut Actor)
    requires rows { 0 < length (board_run board.now).rows }
    requires seat { Sits board.now actor.old.seat }
    requires own { IsTrue actor.old.stores → in_part 0 (view actor.old.seat).place.part ≡ 1 }
{
    for value in 1..1001u64 {
        if actor.stores {
            board.store_entry(&mut actor.seat, 0, value, false);
        } else {
            let seen = board.load_entry(&mut actor.seat, 0);
            actor.fell = actor.fell || seen < actor.last || seen > 1000;
            actor.last = seen;
        }
    }
}

// Each actor in a thread of its own.
fn run_all(rt: &(impl Threads + Sync), board: &Board, actors: &mut [Actor])
    requires rows { 0 < length (board_run board.now).rows }
    requires seats { All (λ actor. Sits board.now actor.seat) actors.old }
    requires own { All (λ actor. IsTrue actor.stores → in_part 0 (view actor.seat).place.part ≡ 1) actors.old }
{
    let count = actors.len();
    if count == 0 {
        return;
    }
    for_each_mut(rt, actors, count, &|_, actor| run_one(board, actor));
}

#[test]
fn values_that_rise_never_fall_for_another_thread(rt: HostRuntime) -> Result<(), Fail> {
    let rows = Rows::from_slice(rt.alloc(), &QUARTER)?;
    let (board, mut first) = made(rt.alloc(), &rows)?;
    let owner = board.split(&mut first, Part { from: 0, to: 3 });
    let other = board.split(&mut first, Part { from: 0, to: 0 });
    let mut actors = Vec::new(rt.alloc());
    actors.push(Actor {
        seat: owner,
        stores: true,
        last: 1,
        fell: false,
    })?;
    actors.push(Actor {
        seat: other,
        stores: false,
        last: 1,
        fell: false,
    })?;
    run_all(&rt, &board, actors.as_mut_slice());
    for actor in actors.as_slice() {
        assert_eq!(rt; actor.fell, false);
    }
    Ok(())
}
