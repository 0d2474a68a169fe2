// A worker of a run.
ghost use Rattle.std.specs.Prelude.{◌≡◌, ◌<◌, true, false};
ghost use Rattle.ce_words.specs.Seats.{board_run};
ghost use Rattle.ce_crew.specs.Gains.{IsGraphOf};

use crate::opening::open;
use crate::room::WorkRoom;
use crate::turning::sweep;
use ce_rows::Rows;
use ce_words::{Board, Gate, Part, Seat};

/// How a turn ended.
#[derive(Clone, Copy, Debug, PartialEq, Eq, Drop)]
pub enum TurnEnd {
    /// A whole turn was made.
    Turned,
    /// The bounds are equal: there is nothing left to do.
    Halted,
}

/// A worker of the asynchronous iteration: it owns a part of the vector, and turn by turn relaxes
/// it and offers the bounds of what it finds in the whole vector.
#[derive(Drop)]
pub struct Worker {
    room: WorkRoom,
    number: u32,
    turns: u32,
    done: u32,
    made: u32,
    halted: bool,
    part: Part,
    seat: Seat,
}

impl Worker {
    ghost use Rattle.ce_crew.specs.Workers.{IsWorker, IsBegun, Made, Ran, KeepsIts};

    /// A worker before its first turn. A worker holds no reference.
    pub fn new(room: WorkRoom, number: u32, turns: u32, part: Part, seat: Seat) -> Worker
        ensures begun { IsBegun room number turns part seat result }
    {
        Worker {
            room,
            number,
            turns,
            done: 0,
            made: 0,
            halted: false,
            part,
            seat,
        }
    }

    /// One turn, or a halt: the stop word is set, or the bounds are equal.
    pub fn turn<G: Gate>(&mut self, board: &Board, rows: &Rows, ranks: &[u32], gate: &G) -> TurnEnd
        requires worker { IsWorker board.now self.old }
        requires graph { IsGraphOf (board_run board.now) rows.now ranks.now }
        requires left { self.old.done < self.old.turns }
        requires open { self.old.halted ≡ false }
        ensures worker { IsWorker board.now self.new }
        ensures made { Made result (board_run board.now) self.old self.new }
        ensures keeps { KeepsIts (board_run board.now) self.old self.new }
    {
        gate.pass(self.number, self.done);
        let Some(sight) = open(board, &mut self.seat) else {
            self.halted = true;
            return TurnEnd::Halted;
        };
        let found = sweep(
            board,
            &mut self.seat,
            rows,
            ranks,
            &mut self.room.copy,
            &mut self.room.scratch,
            self.part,
            self.made,
            sight,
        );
        self.room.keep(found.bounds);
        self.made = found.made;
        self.done += 1;
        TurnEnd::Turned
    }

    /// Makes all turns that are left, or fewer and one halt. A worker that was halted adds nothing.
    pub fn run<G: Gate>(&mut self, board: &Board, rows: &Rows, ranks: &[u32], gate: &G)
        requires worker { IsWorker board.now self.old }
        requires graph { IsGraphOf (board_run board.now) rows.now ranks.now }
        ensures worker { IsWorker board.now self.new }
        ensures ran { Ran self.old self.new }
        ensures keeps { KeepsIts (board_run board.now) self.old self.new }
    {
        while self.done < self.turns && !self.halted {
            self.turn(board, rows, ranks, gate);
        }
    }

    /// How many turns were made.
    pub fn done(&self) -> u32
        ensures { result ≡ self.now.done }
    {
        self.done
    }

    /// Whether a turn answered that the worker halted.
    pub fn halted(&self) -> bool
        ensures { result ≡ self.now.halted }
    {
        self.halted
    }

    /// Hands back the room, with its best vectors, and the seat, with its log.
    pub fn pause(self) -> (WorkRoom, Seat)
        ensures { (result.0 ≡ self.room) × (result.1 ≡ self.seat) }
    {
        let Worker {
            room,
            number: _,
            turns: _,
            done: _,
            made: _,
            halted: _,
            part: _,
            seat,
        } = self;
        (room, seat)
    }
}
