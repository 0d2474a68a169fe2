// Workers on the words of the rows of the angles 1/4, 1/5 and 1/3, turn by turn.
ghost use Rattle.std.specs.Prelude.{◌≡◌, ◌≤◌, length};
ghost use Rattle.ce_cert.specs.Vectors.{IsVectorOf};
ghost use Rattle.ce_words.specs.Invariant.{most_rescalings};
ghost use Rattle.ce_words.specs.Seats.{board_run};
ghost use Rattle.ce_crew.specs.Gains.{IsGraphOf};
ghost use Rattle.ce_crew.specs.Workers.{IsWorker};

use crate::boards::{begun, fifth, hired, quarter, third};
use crate::{TurnEnd, WorkEnd, Worker};
use ce_rows::Rows;
use ce_words::{Board, FreeGate, Gate, Part};
use std::alloc::Global;
use std::sync::atomic::AtomicU64;
use std::sync::atomic::Ordering::SeqCst;
use std::test::Fail;

// What a worker leaves: the entries and the count of rescalings, the bounds, and its best vectors.
#[derive(Drop)]
struct Left {
    entries: Vec<u64>,
    rescalings: u64,
    bounds: (u64, u64),
    done: u32,
    halted: bool,
    best: WorkEnd,
}

// What one worker of all entries leaves after its turns.
fn left_by_one(
    alloc: Global,
    rows: &Rows,
    ranks: &[u32],
    start: &[u64],
    turns: u32,
) -> Result<Left, Fail>
    requires ranks { length ranks.now ≡ length rows.now.list }
    requires vector { IsVectorOf rows.now start.now }
    requires few { turns ≤ most_rescalings }
{
    let count = rows.len();
    let (board, mut first, found) = begun(alloc, rows, ranks, start)?;
    let all = Part { from: 0, to: count };
    let mut worker = hired(alloc, &board, &mut first, start, found, 0, turns, all)?;
    worker.run(&board, rows, ranks, &FreeGate);
    let seen = board.load_bounds(&mut first);
    let rescalings = board.load_shift(&mut first);
    let mut entries = Vec::new(alloc);
    for i in 0..count {
        entries.push(board.load_entry(&mut first, i))?;
    }
    let (done, halted) = (worker.done(), worker.halted());
    let (room, _seat) = worker.pause();
    Ok(Left {
        entries,
        rescalings,
        bounds: (seen.low, seen.high),
        done,
        halted,
        best: room.finish(),
    })
}

#[test]
fn one_worker_has_worked_turns(rt: HostRuntime) -> Result<(), Fail> {
    let rows = quarter(rt.alloc())?;
    let small = [144115188075855872; 3];
    let one = left_by_one(rt.alloc(), &rows, &[0; 3], &small, 1)?;
    assert_eq!(rt;
        one.entries.as_slice(),
        [115292150460684697, 161409010644958576, 186773283746309209].as_slice()
    );
    assert_eq!(rt; (one.bounds, one.rescalings), ((6957847019, 7423400265), 0));
    let three = left_by_one(rt.alloc(), &rows, &[0; 3], &small, 3)?;
    assert_eq!(rt; (three.bounds, three.done), ((7276435725, 7291510696), 3));
    let best = [112984308425741398, 162760036224679072, 191812006120499161];
    assert_eq!(rt; three.best.low_vector.as_slice(), best.as_slice());
    assert_eq!(rt; three.best.high_vector.as_slice(), best.as_slice());
    Ok(())
}

#[test]
fn great_entries_are_rescaled(rt: HostRuntime) -> Result<(), Fail> {
    let rows = quarter(rt.alloc())?;
    let great = [576460752303423488; 3];
    let one = left_by_one(rt.alloc(), &rows, &[0; 3], &great, 1)?;
    assert_eq!(rt;
        one.entries.as_slice(),
        [461168601842738790, 645636042579834306, 747093134985236840].as_slice()
    );
    assert_eq!(rt; one.rescalings, 1);
    let two = left_by_one(rt.alloc(), &rows, &[0; 3], &great, 2)?;
    assert_eq!(rt;
        two.entries.as_slice(),
        [1764930359502073, 2546170155208872, 2995542691432668].as_slice()
    );
    assert_eq!(rt; two.bounds, (7272112463, 7301326453));
    let four = left_by_one(rt.alloc(), &rows, &[0; 3], &great, 4)?;
    assert_eq!(rt; four.bounds, (7279819278, 7287649114));
    Ok(())
}

#[test]
fn blocks_and_equal_bounds(rt: HostRuntime) -> Result<(), Fail> {
    let rows = fifth(rt.alloc())?;
    let start = [
        144115188075855872,
        216172782113783808,
        216172782113783808,
        144115188075855872,
        72057594037927936,
        72057594037927936,
    ];
    let fifth = left_by_one(rt.alloc(), &rows, &[0, 0, 0, 0, 1, 2], &start, 2)?;
    assert_eq!(rt; fifth.bounds, (5816503015, 6293010685));
    let rows = third(rt.alloc())?;
    let third = left_by_one(rt.alloc(), &rows, &[0], &[144115188075855872], 2)?;
    assert_eq!(rt; (third.done, third.halted), (0, true));
    assert_eq!(rt; third.bounds, (4294967296, 4294967296));
    Ok(())
}

// Counts how often it is passed, and adds up 1,000 times the actor and the turn.
#[derive(Drop)]
struct CountingGate {
    passes: AtomicU64,
    sum: AtomicU64,
}

impl Gate for CountingGate {
    fn pass(&self, actor: u32, turn: u32) {
        self.passes.fetch_add(1, SeqCst);
        self.sum
            .fetch_add(1000 * u64::from(actor) + u64::from(turn), SeqCst);
    }
}

// One of two turns, if one is left.
fn turn_once(board: &Board, rows: &Rows, ranks: &[u32], gate: &CountingGate, worker: &mut Worker)
    requires worker { IsWorker board.now worker.old }
    requires turns { worker.old.turns ≡ 2 }
    requires graph { IsGraphOf (board_run board.now) rows.now ranks.now }
    ensures worker { IsWorker board.now worker.new }
    ensures turns { worker.new.turns ≡ 2 }
{
    if worker.done() < 2 && !worker.halted() {
        let _end: TurnEnd = worker.turn(board, rows, ranks, gate);
    }
}

#[test]
fn two_workers_alternate(rt: HostRuntime) -> Result<(), Fail> {
    let rows = quarter(rt.alloc())?;
    let ranks = [0; 3];
    let start = [144115188075855872; 3];
    let (board, mut first, found) = begun(rt.alloc(), &rows, &ranks, &start)?;
    let upper = Part { from: 1, to: 3 };
    let lower = Part { from: 0, to: 1 };
    let mut one = hired(rt.alloc(), &board, &mut first, &start, found, 1, 2, upper)?;
    let mut zero = hired(rt.alloc(), &board, &mut first, &start, found, 0, 2, lower)?;
    let gate = CountingGate {
        passes: AtomicU64::new(0),
        sum: AtomicU64::new(0),
    };
    turn_once(&board, &rows, &ranks, &gate, &mut zero);
    let seen = board.load_bounds(&mut first);
    assert_eq!(rt; (seen.low, seen.high), (5368709120, 8589934592));
    turn_once(&board, &rows, &ranks, &gate, &mut one);
    let seen = board.load_bounds(&mut first);
    assert_eq!(rt; (seen.low, seen.high), (6408363901, 7676111764));
    turn_once(&board, &rows, &ranks, &gate, &mut zero);
    let seen = board.load_bounds(&mut first);
    assert_eq!(rt; (seen.low, seen.high), (6787880777, 7676111764));
    turn_once(&board, &rows, &ranks, &gate, &mut one);
    let seen = board.load_bounds(&mut first);
    assert_eq!(rt; (seen.low, seen.high), (7090227106, 7415145213));
    let entries = [
        board.load_entry(&mut first, 0),
        board.load_entry(&mut first, 1),
        board.load_entry(&mut first, 2),
    ];
    assert_eq!(rt;
        entries,
        [108846056587527638, 155111067918485647, 179685480156882948]
    );
    assert_eq!(rt;
        (gate.passes.load(SeqCst), gate.sum.load(SeqCst)),
        (4, 2002)
    );
    Ok(())
}
