// Workers and sessions side by side.
ghost use Rattle.std.specs.Prelude.{◌<◌, ℕ, All, length, slice_index_or};
ghost use Rattle.ce_words.specs.Seats.{board_run};
ghost use Rattle.ce_crew.specs.Gains.{IsGraphOf};
ghost use Rattle.ce_solve.specs.Actors.{CanRun, HasRun};

use ce_crew::Worker;
use ce_live::Session;
use ce_rows::Rows;
use ce_words::{Board, Gate};
use std::thread;
use std::thread::Threads;

/// One that steps on a board, by a thread of its own.
#[derive(Drop)]
pub enum Actor {
    Worker(Worker),
    Session(Session),
}

// All that an actor has to do.
fn run_one<G: Gate>(board: &Board, rows: &Rows, ranks: &[u32], actor: &mut Actor, gate: &G)
    requires actor { CanRun board.now actor.old }
    requires graph { IsGraphOf (board_run board.now) rows.now ranks.now }
    ensures { HasRun board.now actor.old actor.new }
{
    match actor {
        Actor::Worker(worker) => worker.run(board, rows, ranks, gate),
        Actor::Session(session) => session.run(board, gate),
    }
}

/// Runs all actors by threads, each its whole run. Takes no memory, and can't be refused.
pub fn run_crew<R: Threads + Sync, G: Gate + Sync>(
    rt: &R,
    board: &Board,
    rows: &Rows,
    ranks: &[u32],
    actors: &mut [Actor],
    gate: &G,
)
    requires actors { All (CanRun board.now) actors.old }
    requires graph { IsGraphOf (board_run board.now) rows.now ranks.now }
    ensures { (i : ℕ) (d : Actor) → i < length actors.old
        → HasRun board.now (slice_index_or actors.old i d) (slice_index_or actors.new i d) }
{
    let count = actors.len();
    if count == 0 {
        return;
    }
    thread::for_each_mut(
        rt,
        actors,
        count,
        &|_, actor| { run_one(board, rows, ranks, actor, gate) },
    );
}
