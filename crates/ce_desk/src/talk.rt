// Lines and replies.
ghost use Rattle.std.specs.Prelude.{◌≡◌, ◌≢◌, ◌≤◌, ◌<◌, ◌+◌, ℕ, List, true, false, Option, Some};
ghost use Rattle.std.specs.Prelude.{IfOk, Ok, Err, length};
ghost use Rattle.std.specs.Option.{IfSome};
ghost use Rattle.std.specs.Result.{IfErr};
ghost use Rattle.ce_lines.specs.Bytes.{IsNew, WasGiven, room_left};
ghost use Rattle.ce_lines.specs.Asks.{IsAsked};
ghost use Rattle.ce_lines.specs.declared.asked.Asked.TheVariants.{Read as AskedRead};
ghost use Rattle.ce_lines.specs.declared.asked.Asked.TheVariants.{Quit as AskedQuit};
ghost use Rattle.ce_desk.specs.Desk.{Desk, IsFirstCause, IsLateIfOpen, most_slots};
ghost use Rattle.ce_port.specs.Sink.{GrewBy};
ghost use Rattle.ce_port.specs.WriteAll.{GrewByPrefix};
ghost use Rattle.ce_desk.specs.declared.talk.Fault.TheVariants.{NoMemory as Starved};
ghost use Rattle.ce_desk.specs.declared.talk.Fault.TheVariants.{Write as Unwritten};
ghost use Rattle.ce_desk.specs.declared.talk.TalkEnd.TheVariants.{Fault as Failed};

use crate::cause::Cause;
use crate::closing::Closing;
use crate::replies::{closed_line, refused_line};
use ce_lines::{Asked, LineReader, Stop};
use ce_port::{Sink, Source, WriteFault, write_piece};
use ce_rows::NoMemory;
use std::alloc::Global;

/// Why a talk ended before its time.
#[derive(Clone, Copy, Debug, PartialEq, Eq)]
pub enum Fault {
    /// The input has more bytes than a desk reads.
    InputTooLong,
    /// The input failed.
    Read,
    /// The output failed.
    Write,
    /// Memory was refused.
    NoMemory,
}

/// Why no further line is taken.
#[derive(Clone, Copy, Debug, PartialEq, Eq)]
pub enum TalkEnd {
    /// A line asked to quit.
    Quit,
    /// The input is at its end.
    Silence,
    Fault(Fault),
}

impl From<NoMemory> for TalkEnd {
    ghost from_gives = { λ _ end. end ≡ Failed Starved };

    fn from(_error: NoMemory) -> Self {
        TalkEnd::Fault(Fault::NoMemory)
    }
}

impl From<WriteFault> for TalkEnd {
    ghost from_gives = { λ _ end. end ≡ Failed Unwritten };

    fn from(_fault: WriteFault) -> Self {
        TalkEnd::Fault(Fault::Write)
    }
}

// Whether a line asks to quit.
pub(crate) fn quits(asked: &Option<Asked>) -> bool
    ensures yes { result ≡ true → asked.now ≡ Some AskedQuit }
    ensures no { result ≡ false → asked.now ≢ Some AskedQuit }
{
    matches!(asked, Some(Asked::Quit))
}

// The slot, one of so many, that a line reads, or why the line is refused. A line that opens an
// angle comes late.
pub(crate) fn slot_read(asked: &Option<Asked>, slots: usize) -> Result<usize, Cause>
    requires goes_on { asked.now ≢ Some AskedQuit }
    requires few { slots ≤ most_slots }
    ensures slot { IfOk result (λ slot. (asked.now ≡ Some (AskedRead slot)) × (slot < slots)) }
    ensures cause { IfErr result (λ cause. (desk : Desk) (line : Option (List ℕ))
        → length desk.slots ≡ slots → IsLateIfOpen asked.now desk
        → IsAsked line asked.now → IsFirstCause desk line cause) }
{
    match asked {
        Some(Asked::Read { slot }) if (*slot as usize) < slots => Ok(*slot as usize),
        Some(Asked::Read { slot: _ }) => Err(Cause::NoSlot),
        Some(Asked::Open { angle: _, turns: _ }) => Err(Cause::Late),
        Some(Asked::Quit) => unreachable!(),
        None => Err(Cause::Form),
    }
}

/// The lines of a source, and a sink for the replies.
#[derive(Drop)]
pub struct Talk<S, O> {
    lines: LineReader<S>,
    out: O,
    /// How many lines were taken.
    count: u32,
}

impl<S: Source, O: Sink> Talk<S, O> {
    ghost use Rattle.ce_desk.specs.DeskText.{refused_text, closing_lines, closing_text};
    ghost use Rattle.ce_desk.specs.TalksInside.{Streams, streams, IsTalk, HearsLine, HearsEnd};
    ghost use Rattle.ce_desk.specs.TalksInside.{IsSpeechEnd};
    ghost use Rattle.ce_desk.specs.TalksInside.{HasTalked, IsNext, IsAfterLine, IsGood, quits_at};

    // No line was taken.
    pub(crate) fn new(source: S, out: O) -> Talk<S, O>
        ensures talk { IsTalk result }
        ensures lines { IsNew source result.lines.bytes }
        ensures out { result.out ≡ out }
        ensures count { result.count ≡ 0 }
    {
        Talk {
            lines: LineReader::new(source),
            out,
            count: 0,
        }
    }

    // What the next line asks, nothing where it asks none of the three.
    pub(crate) fn hear(&mut self) -> Result<Option<Asked>, TalkEnd>
        requires talk { IsTalk self.old }
        ensures talk { IsTalk self.new }
        ensures heard { IfOk result (HearsLine S.left self.old self.new) }
        ensures ended { IfErr result (HearsEnd S.left S.faults self.old self.new) }
        ensures given { WasGiven S.left self.old.lines.bytes self.new.lines.bytes }
        ensures counted { S.faults self.old.lines.bytes.source
            ≤ S.faults self.new.lines.bytes.source }
        ensures fewer { IfOk result
            (λ _. room_left self.new.lines.bytes < room_left self.old.lines.bytes) }
        ensures room { room_left self.new.lines.bytes ≤ room_left self.old.lines.bytes }
        ensures out { self.new.out ≡ self.old.out }
    {
        match self.lines.next_asked() {
            Ok(asked) => {
                self.count += 1;
                Ok(asked)
            }
            Err(Stop::End) => Err(TalkEnd::Silence),
            Err(Stop::TooLong) => Err(TalkEnd::Fault(Fault::InputTooLong)),
            Err(Stop::Failed) => Err(TalkEnd::Fault(Fault::Read)),
        }
    }

    // Writes a line.
    pub(crate) fn say(&mut self, line: &str) -> Result<(), TalkEnd>
        ensures said { IfOk result
            (λ _. GrewBy (O.taken self.old.out) (O.taken self.new.out) line.now) }
        ensures part { IfErr result
            (λ _. GrewByPrefix (O.taken self.old.out) (O.taken self.new.out) line.now) }
        ensures cut { IfErr result (IsSpeechEnd (O.faults self.old.out) (O.faults self.new.out)) }
        ensures counted { O.faults self.old.out ≤ O.faults self.new.out }
        ensures lines { self.new.lines ≡ self.old.lines }
        ensures count { self.new.count ≡ self.old.count }
    {
        write_piece(&mut self.out, line.as_bytes())?;
        Ok(())
    }

    // Refuses the line that was taken last.
    pub(crate) fn refuse(&mut self, alloc: Global, cause: Cause) -> Result<(), TalkEnd>
        ensures said { IfOk result (λ _.
            GrewBy (O.taken self.old.out) (O.taken self.new.out)
            (refused_text self.old.count cause)) }
        ensures part { IfErr result (λ _.
            GrewByPrefix (O.taken self.old.out) (O.taken self.new.out)
            (refused_text self.old.count cause)) }
        ensures cut { IfErr result (IsSpeechEnd (O.faults self.old.out) (O.faults self.new.out)) }
        ensures counted { O.faults self.old.out ≤ O.faults self.new.out }
        ensures lines { self.new.lines ≡ self.old.lines }
        ensures count { self.new.count ≡ self.old.count }
    {
        let line = refused_line(alloc, self.count, cause)?;
        self.say(&line)
    }

    // Takes a line once the opening is over: the slot, one of so many, that it reads, or nothing
    // where it is refused.
    fn take_line(&mut self, alloc: Global, slots: usize) -> Result<Option<usize>, TalkEnd>
        requires talk { IsTalk self.old }
        requires few { slots ≤ most_slots }
        ensures talk { IsTalk self.new }
        ensures there { IfOk result (λ found. IfSome found (λ slot. slot < slots)) }
        ensures after { (rounds exponent : ℕ) (start : Streams) (desk : Desk) → desk.late ≡ true
            → length desk.slots ≡ slots
            → HasTalked rounds exponent start desk self.old.count
            (streams S.left S.faults O.taken O.faults self.old)
            → IsAfterLine rounds exponent start result desk self.new.count
            (streams S.left S.faults O.taken O.faults self.new) }
        ensures fewer { IfOk result
            (λ _. room_left self.new.lines.bytes < room_left self.old.lines.bytes) }
        ensures room { room_left self.new.lines.bytes ≤ room_left self.old.lines.bytes }
    {
        let asked = self.hear()?;
        if quits(&asked) {
            return Err(TalkEnd::Quit);
        }
        match slot_read(&asked, slots) {
            Ok(slot) => Ok(Some(slot)),
            Err(cause) => {
                self.refuse(alloc, cause)?;
                Ok(None)
            }
        }
    }

    // Refuses lines up to one that reads one of so many slots.
    pub(crate) fn next_read(&mut self, alloc: Global, slots: usize) -> Result<usize, TalkEnd>
        requires talk { IsTalk self.old }
        requires few { slots ≤ most_slots }
        ensures talk { IsTalk self.new }
        ensures there { IfOk result (λ slot. slot < slots) }
        ensures next { (rounds exponent : ℕ) (start : Streams) (desk : Desk) → desk.late ≡ true
            → length desk.slots ≡ slots
            → HasTalked rounds exponent start desk self.old.count
            (streams S.left S.faults O.taken O.faults self.old)
            → IsNext rounds exponent start result desk self.new.count
            (streams S.left S.faults O.taken O.faults self.new) }
        ensures fewer { IfOk result
            (λ _. room_left self.new.lines.bytes < room_left self.old.lines.bytes) }
        ensures room { room_left self.new.lines.bytes ≤ room_left self.old.lines.bytes }
    {
        loop {
            if let Some(slot) = self.take_line(alloc, slots)? {
                return Ok(slot);
            }
        }
    }

    // Writes the closing line of each slot.
    fn say_closings(&mut self, alloc: Global, closings: &[Closing]) -> Result<(), TalkEnd>
        requires few { length closings.now ≤ most_slots }
        ensures said { IfOk result
            (λ _. GrewBy (O.taken self.old.out) (O.taken self.new.out)
            (closing_lines 0 closings.now)) }
        ensures part { IfErr result (λ _.
            GrewByPrefix (O.taken self.old.out) (O.taken self.new.out)
            (closing_lines 0 closings.now)) }
        ensures cut { IfErr result (IsSpeechEnd (O.faults self.old.out) (O.faults self.new.out)) }
        ensures counted { O.faults self.old.out ≤ O.faults self.new.out }
        ensures lines { self.new.lines ≡ self.old.lines }
    {
        for slot in 0..closings.len() {
            let line = closed_line(alloc, slot as u32, closings[slot])?;
            self.say(&line)?;
        }
        Ok(())
    }

    // Writes what follows the replies.
    pub(crate) fn conclude(
        &mut self,
        alloc: Global,
        end: TalkEnd,
        closings: &[Closing],
    ) -> Result<(), TalkEnd>
        requires few { length closings.now ≤ most_slots }
        ensures said { IfOk result (λ _. IsGood end
            × GrewBy (O.taken self.old.out) (O.taken self.new.out)
            (closing_text closings.now (quits_at end))) }
        ensures part { IfErr result (λ _. IsGood end
            → GrewByPrefix (O.taken self.old.out) (O.taken self.new.out)
            (closing_text closings.now (quits_at end))) }
        ensures cut { IfErr result
            (λ cut. IsGood end → IsSpeechEnd (O.faults self.old.out) (O.faults self.new.out) cut) }
        ensures fault { IfErr result
            (λ cut. (IsGood end → ⊥) → (cut ≡ end) × (self.new.out ≡ self.old.out)) }
        ensures counted { O.faults self.old.out ≤ O.faults self.new.out }
        ensures lines { self.new.lines ≡ self.old.lines }
    {
        match end {
            TalkEnd::Quit => {
                self.say_closings(alloc, closings)?;
                self.say("bye\n")
            }
            TalkEnd::Silence => self.say_closings(alloc, closings),
            TalkEnd::Fault(fault) => Err(TalkEnd::Fault(fault)),
        }
    }

    // Hands back the streams.
    pub(crate) fn into_streams(self) -> (S, O)
        ensures source { result.0 ≡ self.lines.bytes.source }
        ensures out { result.1 ≡ self.out }
    {
        let Talk {
            lines,
            out,
            count: _,
        } = self;
        (lines.into_source(), out)
    }
}
