// An opened angle.
ghost use Rattle.std.specs.Prelude.{◌≤◌, IfOk};
ghost use Rattle.ce_desk.specs.CasesInside.{IsOpenCase};
ghost use Rattle.ce_rows.specs.Limits.{most_rounds, most_turns};

use ce_comp::Ranks;
use ce_crew::Worker;
use ce_rows::{Interval, NoMemory, Rows};
use ce_solve::{hire, open_board, prepare};
use ce_words::{Board, Part, Seat};
use std::alloc::Global;

/// Rows and components of an opened angle, and the shared words of its run. All actors share it.
#[derive(Drop)]
pub struct Case {
    pub rows: Rows,
    pub ranks: Ranks,
    pub board: Board,
}

/// The first seat of a slot's board.
#[derive(Drop)]
pub struct SlotSeat {
    pub slot: u32,
    pub seat: Seat,
}

/// A case before its run: with the first seat of its board, its one worker, and the initial
/// enclosure.
#[derive(Drop)]
pub struct Opened {
    pub case: Case,
    pub first: Seat,
    pub worker: Worker,
    pub initial: Interval,
}

// All memory of a case: its one worker owns the whole vector.
pub(crate) fn open_case(
    alloc: Global,
    rows: Rows,
    rounds: u32,
    turns: u32,
) -> Result<Opened, NoMemory>
    requires rounds { rounds ≤ most_rounds }
    requires turns { turns ≤ most_turns }
    ensures { IfOk result (IsOpenCase rows rounds turns) }
{
    let prepared = prepare(alloc, &rows, rounds)?;
    let (board, first) = open_board(alloc, &rows, &prepared)?;
    let mut first = first;
    let whole = Part {
        from: 0,
        to: rows.len(),
    };
    let worker = hire(alloc, &board, &mut first, &prepared, 0, turns, whole)?;
    let initial = Interval {
        low: prepared.bounds.low,
        high: prepared.bounds.high,
    };
    Ok(Opened {
        case: Case {
            rows,
            ranks: prepared.ranks,
            board,
        },
        first,
        worker,
        initial,
    })
}
