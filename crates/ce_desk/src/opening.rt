// The opening: angles are opened, until a line reads a slot or the lines are at their end.
ghost use Rattle.std.specs.Prelude.{◌≡◌, ◌≤◌, ◌<◌, ◌++◌, [], ◌∷◌, List, Some, IfOk, Ok};
ghost use Rattle.std.specs.Prelude.{Err, length, vec_capacity};
ghost use Rattle.std.specs.Option.{IfSome, IfNone};
ghost use Rattle.std.specs.Result.{IfErr};
ghost use Rattle.ce_lines.specs.Bytes.{room_left};
ghost use Rattle.ce_lines.specs.declared.asked.Asked.TheVariants.{Open as AskedOpen};
ghost use Rattle.ce_thurston.specs.Indices.{rows_at};
ghost use Rattle.ce_desk.specs.CasesInside.{IsOpenCase, AreOpenSlots};
ghost use Rattle.ce_desk.specs.Desk.{Slot, IsOpenCause, IsLateIfOpen, early_desk};
ghost use Rattle.ce_desk.specs.TalksInside.{Streams, streams, IsTalk, HasTalked, HasHeard, HasEnded};
ghost use Rattle.ce_desk.specs.TalksInside.{IsNext, IsAfterLine};
ghost use Rattle.ce_rows.specs.Limits.{most_rounds, most_turns};

use crate::case::{Case, Opened, SlotSeat, open_case};
use crate::cause::Cause;
use crate::replies::opened_line;
use crate::settings::DeskSettings;
use crate::talk::{Talk, TalkEnd, quits, slot_read};
use ce_angle::{Angle, AngleError};
use ce_crew::Worker;
use ce_lines::Asked;
use ce_orbit::Orbit;
use ce_port::{Sink, Source};
use ce_rows::{Interval, NoMemory};
use ce_thurston::rows_of;
use std::alloc::Global;

/// The most angles that are opened.
pub(crate) const MOST_SLOTS: usize = 16;

/// The opened angles by their slots: their cases, the first seats of their boards, and their
/// workers.
#[derive(Drop)]
pub struct Slots {
    pub cases: Vec<Case>,
    pub firsts: Vec<SlotSeat>,
    pub workers: Vec<Worker>,
}

// A case for an orbit.
fn open_orbit(
    alloc: Global,
    settings: &DeskSettings,
    orbit: &Orbit,
    turns: u32,
) -> Result<Opened, NoMemory>
    requires rounds { settings.now.rounds ≤ most_rounds }
    requires turns { turns ≤ most_turns }
    ensures { IfOk result
        (IsOpenCase (rows_at orbit.now settings.now.scale) settings.now.rounds turns) }
{
    // The length brings in that this is an orbit, of at most 128 angles.
    let _len = orbit.len();
    let rows = rows_of(alloc, orbit)?.with_scale(settings.scale);
    open_case(alloc, rows, settings.rounds, turns)
}

// The angle that a line is to open, and the granted turns, where it is to open one.
fn to_open(asked: &Option<Asked>) -> Option<(Result<Angle, AngleError>, u32)>
    ensures some { IfSome result (λ asks. asked.now ≡ Some (AskedOpen asks.0 asks.1)) }
    ensures none { IfNone result (IsLateIfOpen asked.now (early_desk [])) }
{
    match asked {
        Some(Asked::Open { angle, turns }) => Some((*angle, *turns)),
        _ => None,
    }
}

// Puts an item behind, where there is room.
fn put<T: Drop>(list: &mut Vec<T>, item: T)
    requires room { length list.old.items < vec_capacity list.old }
    ensures more { list.new.items ≡ list.old.items ++ item ∷ [] }
    ensures room { vec_capacity list.old ≤ vec_capacity list.new }
{
    if list.push(item).is_err() {
        unreachable!()
    }
}

impl Slots {
    ghost use Rattle.ce_desk.specs.OpeningInside.{HasRoom, HasOpened};

    // No angle is opened; there is room for the most.
    pub(crate) fn new(alloc: Global) -> Result<Slots, NoMemory>
        ensures room { IfOk result HasRoom }
        ensures none { IfOk result
            (λ slots. (slots.cases.items ≡ []) × (slots.firsts.items ≡ [])
            × (slots.workers.items ≡ [])) }
    {
        Ok(Slots {
            cases: Vec::with_capacity(alloc, MOST_SLOTS)?,
            firsts: Vec::with_capacity(alloc, MOST_SLOTS)?,
            workers: Vec::with_capacity(alloc, MOST_SLOTS)?,
        })
    }

    // How many angles are opened.
    fn count(&self) -> u32
        requires { HasRoom self.now }
        ensures { result ≡ length self.now.cases.items }
    {
        self.cases.len() as u32
    }

    // Opens an angle, or says the first cause why not.
    fn open(
        &mut self,
        alloc: Global,
        settings: &DeskSettings,
        angle: Result<Angle, AngleError>,
        turns: u32,
    ) -> Result<(Angle, Interval), Cause>
        requires room { HasRoom self.old }
        requires rounds { settings.now.rounds ≤ most_rounds }
        requires turns { turns ≤ most_turns }
        ensures room { HasRoom self.new }
        ensures opened { IfOk result (HasOpened settings.now angle turns self.old self.new) }
        ensures cause { IfErr result (IsOpenCause (length self.old.cases.items) angle) }
        ensures same { IfErr result (λ _. self.new ≡ self.old) }
    {
        let angle = match angle {
            Ok(angle) => angle,
            Err(error) => return Err(Cause::Angle(error)),
        };
        let Ok(orbit) = Orbit::of(angle) else {
            return Err(Cause::OrbitTooLong);
        };
        if self.cases.len() == MOST_SLOTS {
            return Err(Cause::Full);
        }
        let slot = self.cases.len() as u32;
        let Ok(opened) = open_orbit(alloc, settings, &orbit, turns) else {
            return Err(Cause::NoMemory);
        };
        let Opened {
            case,
            first,
            worker,
            initial,
        } = opened;
        put(&mut self.cases, case);
        put(&mut self.firsts, SlotSeat { slot, seat: first });
        put(&mut self.workers, worker);
        Ok((angle, initial))
    }

    // Answers a line that opens an angle.
    fn answer_open<S: Source, O: Sink>(
        &mut self,
        alloc: Global,
        settings: &DeskSettings,
        angle: Result<Angle, AngleError>,
        turns: u32,
        talk: &mut Talk<S, O>,
    ) -> Result<(), TalkEnd>
        requires room { HasRoom self.old }
        requires rounds { settings.now.rounds ≤ most_rounds }
        requires turns { turns ≤ most_turns }
        requires talk { IsTalk talk.old }
        ensures room { HasRoom self.new }
        ensures lines { talk.new.lines ≡ talk.old.lines }
        ensures count { talk.new.count ≡ talk.old.count }
        ensures more { length self.old.cases.items ≤ length self.new.cases.items }
        ensures answered { (start : Streams) (slots : List Slot)
            → AreOpenSlots self.old.cases.items self.old.firsts.items self.old.workers.items slots
            → HasHeard settings.now.rounds settings.now.scale start (Some (AskedOpen angle turns))
            (early_desk slots) talk.old.count (streams S.left S.faults O.taken O.faults talk.old)
            → (after : List Slot)
            × AreOpenSlots self.new.cases.items self.new.firsts.items self.new.workers.items after
            × IfOk result
            (λ _. HasTalked settings.now.rounds settings.now.scale start
            (early_desk after) talk.new.count (streams S.left S.faults O.taken O.faults talk.new))
            × IfErr result
            (λ end. HasEnded settings.now.rounds settings.now.scale start end
            (early_desk after) (streams S.left S.faults O.taken O.faults talk.new)) }
    {
        let slot = self.count();
        match self.open(alloc, settings, angle, turns) {
            Ok((angle, initial)) => {
                let line = opened_line(alloc, slot, angle, initial)?;
                talk.say(&line)
            }
            Err(cause) => talk.refuse(alloc, cause),
        }
    }

    // Takes a line of the opening: the slot that it reads, or nothing where it opened one or was
    // refused.
    fn take_line<S: Source, O: Sink>(
        &mut self,
        alloc: Global,
        settings: &DeskSettings,
        talk: &mut Talk<S, O>,
    ) -> Result<Option<usize>, TalkEnd>
        requires room { HasRoom self.old }
        requires rounds { settings.now.rounds ≤ most_rounds }
        requires talk { IsTalk talk.old }
        ensures room { HasRoom self.new }
        ensures talk { IsTalk talk.new }
        ensures there { IfOk result
            (λ found. IfSome found (λ slot. slot < length self.new.cases.items)) }
        ensures fewer { IfOk result
            (λ _. room_left talk.new.lines.bytes < room_left talk.old.lines.bytes) }
        ensures after { (start : Streams) (slots : List Slot)
            → AreOpenSlots self.old.cases.items self.old.firsts.items self.old.workers.items slots
            → HasTalked settings.now.rounds settings.now.scale start
            (early_desk slots) talk.old.count (streams S.left S.faults O.taken O.faults talk.old)
            → (after : List Slot)
            × AreOpenSlots self.new.cases.items self.new.firsts.items self.new.workers.items after
            × IsAfterLine settings.now.rounds settings.now.scale start result
            (early_desk after) talk.new.count (streams S.left S.faults O.taken O.faults talk.new) }
    {
        let asked = talk.hear()?;
        if quits(&asked) {
            return Err(TalkEnd::Quit);
        }
        if let Some((angle, turns)) = to_open(&asked) {
            self.answer_open(alloc, settings, angle, turns, talk)?;
            return Ok(None);
        }
        let slots = self.count() as usize;
        match slot_read(&asked, slots) {
            Ok(slot) => Ok(Some(slot)),
            Err(cause) => {
                talk.refuse(alloc, cause)?;
                Ok(None)
            }
        }
    }

    // Answers lines up to the first that reads a slot, and says which.
    pub(crate) fn open_all<S: Source, O: Sink>(
        &mut self,
        alloc: Global,
        settings: &DeskSettings,
        talk: &mut Talk<S, O>,
    ) -> Result<usize, TalkEnd>
        requires room { HasRoom self.old }
        requires rounds { settings.now.rounds ≤ most_rounds }
        requires talk { IsTalk talk.old }
        ensures room { HasRoom self.new }
        ensures talk { IsTalk talk.new }
        ensures there { IfOk result (λ slot. slot < length self.new.cases.items) }
        ensures next { (start : Streams) (slots : List Slot)
            → AreOpenSlots self.old.cases.items self.old.firsts.items self.old.workers.items slots
            → HasTalked settings.now.rounds settings.now.scale start
            (early_desk slots) talk.old.count (streams S.left S.faults O.taken O.faults talk.old)
            → (after : List Slot)
            × AreOpenSlots self.new.cases.items self.new.firsts.items self.new.workers.items after
            × IsNext settings.now.rounds settings.now.scale start result
            (early_desk after) talk.new.count (streams S.left S.faults O.taken O.faults talk.new) }
    {
        loop {
            if let Some(slot) = self.take_line(alloc, settings, talk)? {
                return Ok(slot);
            }
        }
    }
}
