// A whole desk.
ghost use Rattle.std.specs.Prelude.{◌≡◌, ◌≢◌, ◌<◌, ◌≤◌, [], ℕ, false, IfOk, Result, Err, length};
ghost use Rattle.std.specs.Prelude.{vec_capacity};
ghost use Rattle.std.specs.Option.{IfNone, IfSome};
ghost use Rattle.ce_port.specs.Sink.{Rose};
ghost use Rattle.ce_desk.specs.ActorsInside.{IsSession};
ghost use Rattle.ce_desk.specs.CasesInside.{AreFirsts, AreOpenSlots};
ghost use Rattle.ce_desk.specs.CrewsInside.{AreHired};
ghost use Rattle.ce_desk.specs.Desk.{Desk, most_slots};
ghost use Rattle.ce_desk.specs.DeskText.{AllClose};
ghost use Rattle.ce_desk.specs.OpeningInside.{HasRoom};
ghost use Rattle.ce_desk.specs.Served.{ServedAll, ServedSome, IsTooLong, AnsweredEach};
ghost use Rattle.ce_desk.specs.Served.{stop_of};
ghost use Rattle.ce_desk.specs.ServedInside.{StopsBy, HasBegun, IsUnderWay, IsGoingOn};
ghost use Rattle.ce_desk.specs.ServedInside.{HasTalkEnded};
ghost use Rattle.ce_desk.specs.Served.{HasServed};
ghost use Rattle.ce_desk.specs.TalksInside.{IsTalk};
ghost use Rattle.ce_desk.specs.declared.serving.DeskStop.TheVariants.{Done, InputTooLong};
ghost use Rattle.ce_desk.specs.declared.serving.DeskStop.TheVariants.{ReadFault, WriteFault};
ghost use Rattle.ce_desk.specs.declared.talk.TalkEnd.TheVariants.{Fault as Failed};
ghost use Rattle.ce_rows.specs.Limits.{most_rounds, most_workers};

use crate::actor::{Actor, run_beside};
use crate::case::Case;
use crate::closing::{Closing, close_all};
use crate::opening::Slots;
use crate::owners::{deal, idle_crews};
use crate::session::Session;
use crate::settings::DeskSettings;
use crate::talk::{Fault, Talk, TalkEnd};
use ce_port::{Sink, Source};
use ce_words::Gate;
use std::alloc::Global;
use std::thread::Threads;

/// How a desk ended.
#[derive(Clone, Copy, Debug, PartialEq, Eq)]
pub enum DeskStop {
    /// Each line was answered up to `quit` or the end of the input, and all closing lines were
    /// written.
    Done,
    /// The input has more bytes than a desk reads.
    InputTooLong,
    /// The input failed.
    ReadFault,
    /// The output failed.
    WriteFault,
    /// Memory was refused.
    NoMemory,
}

/// How a desk ended, and its streams.
#[derive(Drop)]
pub struct DeskEnd<S, O> {
    pub stop: DeskStop,
    pub source: S,
    pub out: O,
}

// The streams, with the fault that ended the desk.
fn stopped<S: Source, O: Sink>(talk: Talk<S, O>, fault: Fault) -> DeskEnd<S, O>
    ensures stop { result.stop ≡ stop_of fault }
    ensures source { result.source ≡ talk.lines.bytes.source }
    ensures out { result.out ≡ talk.out }
{
    let (source, out) = talk.into_streams();
    let stop = match fault {
        Fault::InputTooLong => DeskStop::InputTooLong,
        Fault::Read => DeskStop::ReadFault,
        Fault::Write => DeskStop::WriteFault,
        Fault::NoMemory => DeskStop::NoMemory,
    };
    DeskEnd { stop, source, out }
}

// The closing lines, and the streams.
fn conclude<S: Source, O: Sink>(
    alloc: Global,
    talk: Talk<S, O>,
    end: TalkEnd,
    closings: Vec<Closing>,
) -> DeskEnd<S, O>
    requires few { length closings.items ≤ most_slots }
    ensures { (rounds exponent : ℕ) (source : S) (out : O) (desk : Desk)
        → HasTalkEnded S.left S.faults O.taken O.faults rounds exponent source out talk end desk
        → AllClose desk.slots closings.items
        → HasServed S.left S.faults O.taken O.faults rounds exponent source out result }
{
    let mut talk = talk;
    match talk.conclude(alloc, end, &closings) {
        Ok(()) => {
            let (source, out) = talk.into_streams();
            DeskEnd {
                stop: DeskStop::Done,
                source,
                out,
            }
        }
        Err(cut) => {
            let TalkEnd::Fault(fault) = cut else {
                unreachable!()
            };
            stopped(talk, fault)
        }
    }
}

// The run of session and crew, and the closing lines.
fn run_and_close<R: Threads + Sync, S: Source + Send + Drop, O: Sink + Send + Drop, G: Gate + Sync>(
    rt: &R,
    alloc: Global,
    cases: Vec<Case>,
    session: Session<S, O>,
    crews: Vec<Actor<S, O>>,
    closings: Vec<Closing>,
    gate: &G,
) -> DeskEnd<S, O>
    requires session { IsSession cases.items session }
    requires few { length cases.items ≤ most_slots }
    requires some { 0 < length crews.items }
    requires room { length crews.items < vec_capacity crews }
    requires closings { (closings.items ≡ []) × (length cases.items ≤ vec_capacity closings) }
    requires going { (rounds exponent : ℕ) × (source : S) × (out : O) × (desk : Desk)
        × AreFirsts cases.items desk.slots session.firsts.items
        × AreHired cases.items desk.slots crews.items
        × IsGoingOn S.left S.faults O.taken O.faults rounds exponent source out session desk }
    ensures { (rounds exponent : ℕ) (source : S) (out : O) (desk : Desk)
        → AreFirsts cases.items desk.slots session.firsts.items
        → AreHired cases.items desk.slots crews.items
        → IsGoingOn S.left S.faults O.taken O.faults rounds exponent source out session desk
        → HasServed S.left S.faults O.taken O.faults rounds exponent source out result }
{
    let mut actors = crews;
    if actors.insert(0, Actor::Session(session)).is_err() {
        unreachable!()
    }
    let (session, crews) = run_beside(rt, alloc, &cases, actors, gate);
    let Session { talk, firsts, next } = session;
    let mut firsts = firsts;
    let mut crews = crews;
    let mut closings = closings;
    close_all(&cases, &mut firsts, &mut crews, &mut closings);
    let Err(end) = next else { unreachable!() };
    conclude(alloc, talk, end, closings)
}

// The end of a desk whose actors did not begin.
fn stopped_early<S: Source, O: Sink>(talk: Talk<S, O>, fault: Fault) -> DeskEnd<S, O>
    requires { IsTalk talk }
    ensures { (rounds exponent : ℕ) (source : S) (out : O) (desk : Desk) (next : Result ℕ TalkEnd)
        → desk.late ≡ false → StopsBy fault next
        → IsUnderWay S.left S.faults O.taken O.faults rounds exponent source out talk next desk
        → HasServed S.left S.faults O.taken O.faults rounds exponent source out result }
{
    stopped(talk, fault)
}

// The fault that ended the opening, if one did.
fn fault_of(next: &Result<usize, TalkEnd>) -> Option<Fault>
    ensures fault { IfSome result (λ fault. next.now ≡ Err (Failed fault)) }
    ensures none { IfNone result ((fault : Fault) → next.now ≢ Err (Failed fault)) }
{
    match next {
        Err(TalkEnd::Fault(fault)) => Some(*fault),
        _ => None,
    }
}

// Hires a crew of so many actors for the opened angles, and runs it beside the session.
fn hire_and_run<R: Threads + Sync, S: Source + Send + Drop, O: Sink + Send + Drop, G: Gate + Sync>(
    rt: &R,
    alloc: Global,
    count: usize,
    slots: Slots,
    talk: Talk<S, O>,
    next: Result<usize, TalkEnd>,
    gate: &G,
) -> DeskEnd<S, O>
    requires some { 0 < count }
    requires few { count ≤ most_workers }
    requires room { HasRoom slots }
    requires talk { IsTalk talk }
    requires there { IfOk next (λ slot. slot < length slots.cases.items) }
    requires opened { (rounds exponent : ℕ) × (source : S) × (out : O) × (desk : Desk)
        × AreOpenSlots slots.cases.items slots.firsts.items slots.workers.items desk.slots
        × IsUnderWay S.left S.faults O.taken O.faults rounds exponent source out talk next desk }
    ensures { (rounds exponent : ℕ) (source : S) (out : O) (desk : Desk) → desk.late ≡ false
        → AreOpenSlots slots.cases.items slots.firsts.items slots.workers.items desk.slots
        → IsUnderWay S.left S.faults O.taken O.faults rounds exponent source out talk next desk
        → HasServed S.left S.faults O.taken O.faults rounds exponent source out result }
{
    let Slots {
        cases,
        firsts,
        workers,
    } = slots;
    let Ok(crews) = idle_crews(alloc, cases.len(), count) else {
        return stopped_early(talk, Fault::NoMemory);
    };
    let Ok(closings) = Vec::with_capacity(alloc, cases.len()) else {
        return stopped_early(talk, Fault::NoMemory);
    };
    let mut crews = crews;
    deal(&mut crews, workers);
    let session = Session { talk, firsts, next };
    run_and_close(rt, alloc, cases, session, crews, closings, gate)
}

// The opening, and what follows it.
fn open_and_run<R: Threads + Sync, S: Source + Send + Drop, O: Sink + Send + Drop, G: Gate + Sync>(
    rt: &R,
    alloc: Global,
    settings: &DeskSettings,
    talk: Talk<S, O>,
    gate: &G,
) -> DeskEnd<S, O>
    requires rounds { settings.now.rounds ≤ most_rounds }
    requires workers { (1 ≤ settings.now.workers) × (settings.now.workers ≤ most_workers) }
    requires talk { IsTalk talk }
    requires begun { (source : S) × (out : O)
        × HasBegun S.left S.faults O.taken O.faults settings.now.rounds
        settings.now.scale source out talk }
    ensures { (source : S) (out : O)
        → HasBegun S.left S.faults O.taken O.faults settings.now.rounds
        settings.now.scale source out talk
        → HasServed S.left S.faults O.taken O.faults settings.now.rounds
        settings.now.scale source out result }
{
    let mut talk = talk;
    let Ok(slots) = Slots::new(alloc) else {
        return stopped_early(talk, Fault::NoMemory);
    };
    let mut slots = slots;
    let next = slots.open_all(alloc, settings, &mut talk);
    if let Some(fault) = fault_of(&next) {
        return stopped_early(talk, fault);
    }
    let count = settings.workers as usize;
    hire_and_run(rt, alloc, count, slots, talk, next, gate)
}

/// Opens the angles that lines ask for, and answers lines about them while a standing crew refines
/// their bounds. At `quit` or the end of the input the closing lines follow.
///
/// A line is answered before the next is taken: whenever reads come to no good end, the replies to
/// all lines that were taken stand whole on the sink, and nothing else does.
pub fn serve<R: Threads + Sync, S: Source + Send + Drop, O: Sink + Send + Drop, G: Gate + Sync>(
    rt: &R,
    alloc: Global,
    settings: DeskSettings,
    source: S,
    out: O,
    gate: &G,
) -> DeskEnd<S, O>
    requires rounds { settings.rounds ≤ most_rounds }
    requires workers { (1 ≤ settings.workers) × (settings.workers ≤ most_workers) }
    // Each line up to `quit` or the end of the input was answered, and the closing lines were
    // written.
    ensures done { result.stop ≡ Done → ServedAll settings.rounds settings.scale
        (S.left source) (S.left result.source) (O.taken out) (O.taken result.out) }
    // Or a prefix of such a text was written for the lines that were taken.
    ensures part { result.stop ≢ Done → ServedSome settings.rounds settings.scale
        (S.left source) (S.left result.source) (O.taken out) (O.taken result.out) }
    ensures too_long { result.stop ≡ InputTooLong
        → IsTooLong (S.left source) (S.left result.source) }
    // Each line before the byte that was too much was answered whole, and no closing line came.
    ensures answered { result.stop ≡ InputTooLong → AnsweredEach settings.rounds settings.scale 1
        (S.left source) (S.left result.source) (O.taken out) (O.taken result.out) }
    // So was each line before a read that failed.
    ensures answered_all { result.stop ≡ ReadFault → AnsweredEach settings.rounds settings.scale 0
        (S.left source) (S.left result.source) (O.taken out) (O.taken result.out) }
    ensures read_fault { result.stop ≡ ReadFault → Rose (S.faults source) (S.faults result.source) }
    ensures write_fault { result.stop ≡ WriteFault → Rose (O.faults out) (O.faults result.out) }
    ensures read { S.faults source ≤ S.faults result.source }
    ensures wrote { O.faults out ≤ O.faults result.out }
{
    open_and_run(rt, alloc, &settings, Talk::new(source, out), gate)
}
