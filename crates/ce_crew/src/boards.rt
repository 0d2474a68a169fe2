// Rows, boards and workers for the tests.
ghost use Rattle.std.specs.Prelude.{◌≡◌, ◌≤◌, [], IfOk, length};
ghost use Rattle.ce_cert.specs.Start.{IsStart};
ghost use Rattle.ce_cert.specs.Vectors.{IsVectorOf};
ghost use Rattle.ce_words.specs.Invariant.{most_rescalings};
ghost use Rattle.ce_words.specs.Seats.{board_run, Sits};
ghost use Rattle.ce_words.specs.Views.{rows_of, view, opened, cut_left, CanCut};
ghost use Rattle.ce_words.specs.declared.view.Role.TheVariants.{First};
ghost use Rattle.ce_crew.specs.Gains.{IsRunStart, IsGraphOf};
ghost use Rattle.ce_crew.specs.Rooms.{AreBoundsOf};
ghost use Rattle.ce_crew.specs.Workers.{IsWorker};

use crate::{WorkRoom, Worker};
use ce_cert::{Bounds, bounds};
use ce_rows::Row::One;
use ce_rows::{FIFTH, Interval, NoMemory, QUARTER, Rows, is_ranking};
use ce_words::{Board, Part, Seat};
use std::alloc::Global;
use std::test::Fail;

// The rows of 1/4.
pub(crate) fn quarter(alloc: Global) -> Result<Rows, NoMemory>
    ensures { IfOk result (λ rows. length rows.list ≡ 3) }
{
    Rows::from_slice(alloc, &QUARTER)
}

// The rows of 1/5.
pub(crate) fn fifth(alloc: Global) -> Result<Rows, NoMemory>
    ensures { IfOk result (λ rows. length rows.list ≡ 6) }
{
    Rows::from_slice(alloc, &FIFTH)
}

// The row of 1/3, which is its own successor.
pub(crate) fn third(alloc: Global) -> Result<Rows, NoMemory>
    ensures { IfOk result (λ rows. length rows.list ≡ 1) }
{
    Rows::from_slice(alloc, &[One(0)])
}

// The board of a run, with its first seat.
fn opened_board(
    alloc: Global,
    rows: &Rows,
    ranks: &[u32],
    start: &[u64],
    initial: Interval,
) -> Result<(Board, Seat), Fail>
    requires start { IsStart rows.now ranks.now start.now initial.low initial.high }
    ensures start { IfOk result (λ made. IsRunStart (board_run made.0)) }
    ensures rows { IfOk result (λ made. rows.now ≡ rows_of (board_run made.0)) }
    ensures ranks { IfOk result (λ made. ranks.now ≡ (board_run made.0).ranks) }
    ensures seat { IfOk result (λ made. Sits made.0 made.1) }
    ensures view { IfOk result (λ made. view made.1 ≡ opened (board_run made.0)) }
{
    Ok(Board::new(alloc, rows, ranks, start, initial)?)
}

// A board whose initial enclosure is the bounds of its start, and these bounds.
pub(crate) fn begun(
    alloc: Global,
    rows: &Rows,
    ranks: &[u32],
    start: &[u64],
) -> Result<(Board, Seat, Bounds), Fail>
    requires ranks { length ranks.now ≡ length rows.now.list }
    requires vector { IsVectorOf rows.now start.now }
    ensures start { IfOk result (λ made. IsRunStart (board_run made.0)) }
    ensures graph { IfOk result (λ made. IsGraphOf (board_run made.0) rows.now ranks.now) }
    ensures bounds { IfOk result (λ made. AreBoundsOf (board_run made.0) start.now made.2) }
    ensures seat { IfOk result (λ made. Sits made.0 made.1) }
    ensures view { IfOk result (λ made. view made.1 ≡ opened (board_run made.0)) }
{
    let ranking = if is_ranking(rows, ranks) {
        Some(())
    } else {
        None
    };
    ranking.ok_or("no ranking")?;
    // The length brings in that the rows are in range.
    let _len = rows.len();
    let mut scratch = Vec::from_slice(alloc, start)?;
    let found = bounds(rows, ranks, start, &mut scratch);
    let one = rows.scale().one();
    if found.low < one || 2 * one < found.high {
        return Err(Fail::from("no initial enclosure"));
    }
    let initial = Interval {
        low: found.low,
        high: found.high,
    };
    let (board, first) = opened_board(alloc, rows, ranks, start, initial)?;
    Ok((board, first, found))
}

// A worker before its first turn, whose part is split off from the first seat's.
pub(crate) fn hired(
    alloc: Global,
    board: &Board,
    first: &mut Seat,
    start: &[u64],
    found: Bounds,
    number: u32,
    turns: u32,
    part: Part,
) -> Result<Worker, NoMemory>
    requires start { IsRunStart (board_run board.now) }
    requires vector { IsVectorOf (rows_of (board_run board.now)) start.now }
    requires bounds { AreBoundsOf (board_run board.now) start.now found }
    requires few { turns ≤ most_rescalings }
    requires seat { Sits board.now first.old }
    requires first { (view first.old).role ≡ First }
    requires log { (view first.old).place.log ≡ [] }
    requires part { CanCut (view first.old) part }
    requires ordered { part.from ≤ part.to }
    requires within { part.to ≤ length (board_run board.now).rows }
    ensures worker { IfOk result (IsWorker board.now) }
    ensures turns { IfOk result (λ worker. worker.turns ≡ turns) }
    ensures sits { IfOk result (λ _. Sits board.now first.new) }
    ensures left { IfOk result (λ _. view first.new ≡ cut_left (view first.old) part) }
{
    let room = WorkRoom::new(alloc, start, found)?;
    let seat = board.split(first, part);
    Ok(Worker::new(room, number, turns, part, seat))
}
