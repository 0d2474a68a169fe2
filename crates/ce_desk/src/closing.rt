// What a slot came to.
ghost use Rattle.std.specs.Prelude.{◌≡◌, ◌<◌, ◌≤◌, [], List, length, vec_capacity};
ghost use Rattle.ce_desk.specs.CasesInside.{IsFirstOf, IsDoneFor, AreFirsts};
ghost use Rattle.ce_desk.specs.CrewsInside.{AreDone};
ghost use Rattle.ce_desk.specs.Desk.{Slot};
ghost use Rattle.ce_desk.specs.DeskText.{Closes, AllClose};

use crate::actor::Actor;
use crate::case::{Case, SlotSeat};
use crate::owners::worker_of;
use ce_crew::Worker;
use ce_rows::Interval;
use ce_words::{Board, Seat};

/// The closing interval of a slot, and how many turns its worker made.
#[derive(Clone, Copy, Debug, PartialEq, Eq)]
pub struct Closing {
    pub interval: Interval,
    pub turns: u32,
}

// Joins the worker's seat, and then loads the bounds, which nobody changes any more.
fn close_slot(board: &Board, first: &mut Seat, worker: Worker) -> Closing
    requires slot { (slot : Slot) × IsFirstOf board.now slot first.old
        × IsDoneFor board.now slot worker }
    ensures { (slot : Slot) → IsFirstOf board.now slot first.old
        → IsDoneFor board.now slot worker → Closes slot result }
{
    let turns = worker.done();
    let (_room, seat) = worker.pause();
    board.join(first, seat);
    let interval = board.settled(first);
    Closing { interval, turns }
}

// Closes all slots by ascending numbers, where there is room for what each came to.
pub(crate) fn close_all<S, O>(
    cases: &[Case],
    firsts: &mut [SlotSeat],
    crews: &mut [Actor<S, O>],
    closings: &mut Vec<Closing>,
)
    requires some { 0 < length crews.old }
    requires room { length cases.now ≤ vec_capacity closings.old }
    requires none { closings.old.items ≡ [] }
    requires done { (slots : List Slot) × AreFirsts cases.now slots firsts.old
        × AreDone cases.now slots crews.old }
    ensures { (slots : List Slot) → AreFirsts cases.now slots firsts.old
        → AreDone cases.now slots crews.old
        → AllClose slots closings.new.items }
{
    for slot in 0..cases.len() {
        let worker = worker_of(crews, slot);
        let closing = close_slot(&cases[slot].board, &mut firsts[slot].seat, worker);
        if closings.push(closing).is_err() {
            unreachable!()
        }
    }
}
