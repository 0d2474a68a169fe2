// The actor that talks.
ghost use Rattle.std.specs.Prelude.{◌≡◌, ◌≤◌, ◌<◌, ℕ, true, List, Some, IfOk, length};
ghost use Rattle.std.specs.Result.{IfErr};
ghost use Rattle.ce_lines.specs.Bytes.{room_left};
ghost use Rattle.ce_lines.specs.declared.asked.Asked.TheVariants.{Read as AskedRead};
ghost use Rattle.ce_desk.specs.CasesInside.{AreFirsts, KeepsTurns};
ghost use Rattle.ce_desk.specs.Desk.{Slot, Desk, most_slots};
ghost use Rattle.ce_desk.specs.TalksInside.{Streams, streams, IsTalk, HasTalked, HasHeard, HasEnded};
ghost use Rattle.ce_desk.specs.TalksInside.{IsNext};

use crate::case::{Case, SlotSeat};
use crate::replies::read_line;
use crate::talk::{Talk, TalkEnd};
use ce_port::{Sink, Source};
use std::alloc::Global;

/// Owns the talk and the first seat of each board. What comes next is a slot that is read, or the
/// end.
#[derive(Drop)]
pub struct Session<S, O> {
    pub(crate) talk: Talk<S, O>,
    pub(crate) firsts: Vec<SlotSeat>,
    pub(crate) next: Result<usize, TalkEnd>,
}

// Answers a line that reads a slot.
fn answer_read<S: Source, O: Sink>(
    alloc: Global,
    cases: &[Case],
    firsts: &mut [SlotSeat],
    slot: usize,
    talk: &mut Talk<S, O>,
) -> Result<(), TalkEnd>
    requires there { slot < length cases.now }
    requires few { length cases.now ≤ most_slots }
    requires firsts { (slots : List Slot) × AreFirsts cases.now slots firsts.old }
    ensures lines { talk.new.lines ≡ talk.old.lines }
    ensures count { talk.new.count ≡ talk.old.count }
    ensures firsts { (slots : List Slot) → AreFirsts cases.now slots firsts.old
        → (after : List Slot) × AreFirsts cases.now after firsts.new }
    ensures answered { (rounds exponent : ℕ) (start : Streams) (desk : Desk)
        → AreFirsts cases.now desk.slots firsts.old
        → HasHeard rounds exponent start (Some (AskedRead slot)) desk talk.old.count
        (streams S.left S.faults O.taken O.faults talk.old)
        → (after : Desk) × (after.late ≡ true) × AreFirsts cases.now after.slots firsts.new
        × KeepsTurns desk.slots after.slots
        × IfOk result
        (λ _. HasTalked rounds exponent start after talk.new.count
        (streams S.left S.faults O.taken O.faults talk.new))
        × IfErr result
        (λ end. HasEnded rounds exponent start end after
        (streams S.left S.faults O.taken O.faults talk.new)) }
{
    let interval = cases[slot].board.load_bounds(&mut firsts[slot].seat);
    let line = read_line(alloc, slot as u32, interval)?;
    talk.say(&line)
}

// Answers a line that reads a slot, and takes lines up to the next such one.
fn answer_and_hear<S: Source, O: Sink>(
    alloc: Global,
    cases: &[Case],
    firsts: &mut [SlotSeat],
    slot: usize,
    talk: &mut Talk<S, O>,
) -> Result<usize, TalkEnd>
    requires there { slot < length cases.now }
    requires few { length cases.now ≤ most_slots }
    requires firsts { (slots : List Slot) × AreFirsts cases.now slots firsts.old }
    requires talk { IsTalk talk.old }
    ensures talk { IsTalk talk.new }
    ensures there { IfOk result (λ next. next < length cases.now) }
    ensures firsts { (slots : List Slot) → AreFirsts cases.now slots firsts.old
        → (after : List Slot) × AreFirsts cases.now after firsts.new }
    ensures next { (rounds exponent : ℕ) (start : Streams) (desk : Desk)
        → AreFirsts cases.now desk.slots firsts.old
        → HasHeard rounds exponent start (Some (AskedRead slot)) desk talk.old.count
        (streams S.left S.faults O.taken O.faults talk.old)
        → (after : Desk) × AreFirsts cases.now after.slots firsts.new
        × KeepsTurns desk.slots after.slots
        × IsNext rounds exponent start result after talk.new.count
        (streams S.left S.faults O.taken O.faults talk.new) }
    ensures fewer { IfOk result
        (λ _. room_left talk.new.lines.bytes < room_left talk.old.lines.bytes) }
    ensures room { room_left talk.new.lines.bytes ≤ room_left talk.old.lines.bytes }
{
    answer_read(alloc, cases, firsts, slot, talk)?;
    talk.next_read(alloc, cases.len())
}

// Answers lines to the end of the talk, which it says.
fn answer_all<S: Source, O: Sink>(
    alloc: Global,
    cases: &[Case],
    firsts: &mut [SlotSeat],
    first: Result<usize, TalkEnd>,
    talk: &mut Talk<S, O>,
) -> TalkEnd
    requires there { IfOk first (λ slot. slot < length cases.now) }
    requires few { length cases.now ≤ most_slots }
    requires firsts { (slots : List Slot) × AreFirsts cases.now slots firsts.old }
    requires talk { IsTalk talk.old }
    ensures talk { IsTalk talk.new }
    ensures ended { (rounds exponent : ℕ) (start : Streams) (desk : Desk)
        → AreFirsts cases.now desk.slots firsts.old
        → IsNext rounds exponent start first desk talk.old.count
        (streams S.left S.faults O.taken O.faults talk.old)
        → (after : Desk) × AreFirsts cases.now after.slots firsts.new
        × KeepsTurns desk.slots after.slots
        × HasEnded rounds exponent start result after
        (streams S.left S.faults O.taken O.faults talk.new) }
{
    let mut next = first;
    loop {
        match next {
            Ok(slot) => next = answer_and_hear(alloc, cases, firsts, slot, talk),
            Err(end) => return end,
        }
    }
}

impl<S: Source, O: Sink> Session<S, O> {
    ghost use Rattle.ce_desk.specs.ActorsInside.{IsSession, HasRunSession};

    // Answers lines to the end of the talk.
    pub(crate) fn run(&mut self, alloc: Global, cases: &[Case])
        requires session { IsSession cases.now self.old }
        requires few { length cases.now ≤ most_slots }
        ensures { HasRunSession S.left S.faults O.taken O.faults cases.now self.old self.new }
    {
        let end = answer_all(alloc, cases, &mut self.firsts, self.next, &mut self.talk);
        self.next = Err(end);
    }
}
