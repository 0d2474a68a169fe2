// Which actor of the crew owns which workers.
ghost use Rattle.std.specs.Prelude.{◌≡◌, ◌<◌, ◌≤◌, ◌+◌, ◌%◌, ℕ, IfOk, length, vec_capacity};
ghost use Rattle.ce_desk.specs.CrewsInside.{AreIdle, AreCrewsOf, HasHandedOut, HaveDealt, Owns};
ghost use Rattle.ce_desk.specs.CrewsInside.{HasTakenBack};
ghost use Rattle.ce_rows.specs.Limits.{most_workers};

use crate::actor::Actor;
use crate::crew::Crew;
use ce_crew::Worker;
use ce_rows::NoMemory;
use std::alloc::Global;

// So many actors of the crew without a worker, and room for one actor more.
pub(crate) fn idle_crews<S: Drop, O: Drop>(
    alloc: Global,
    slots: usize,
    count: usize,
) -> Result<Vec<Actor<S, O>>, NoMemory>
    requires few { count ≤ most_workers }
    ensures { IfOk result
        (λ crews. AreIdle slots count crews.items × (count + 1 ≤ vec_capacity crews)) }
{
    let mut crews = Vec::with_capacity(alloc, count + 1)?;
    for _ in 0..count {
        let crew = Crew::new(alloc, slots)?;
        if crews.push(Actor::Crew(crew)).is_err() {
            return Err(NoMemory);
        }
    }
    Ok(crews)
}

// The actor of the crew, of so many, that runs a slot.
fn actor_of(slot: usize, count: usize) -> usize
    requires { 0 < count }
    ensures value { result ≡ slot % count }
    ensures within { result < count }
{
    slot % count
}

// Hands a worker to the actor that runs the slot.
fn hand_out<S, O>(crews: &mut [Actor<S, O>], slot: usize, worker: Worker)
    requires some { 0 < length crews.old }
    requires crews { (slots : ℕ) × (slot < slots) × AreCrewsOf slots crews.old }
    ensures crews { HasHandedOut slot worker crews.old crews.new }
{
    let actor = actor_of(slot, crews.len());
    let Actor::Crew(crew) = &mut crews[actor] else {
        unreachable!()
    };
    crew.own(slot, worker);
}

// Hands out all workers: actor k runs the slots that leave the rest k when divided by the number of
// actors.
pub(crate) fn deal<S, O>(crews: &mut [Actor<S, O>], workers: Vec<Worker>)
    requires some { 0 < length crews.old }
    requires idle { AreIdle (length workers.items) (length crews.old) crews.old }
    ensures { HaveDealt workers.items crews.new }
{
    let mut slot = 0;
    for worker in workers {
        hand_out(crews, slot, worker);
        slot += 1;
    }
}

// The worker of a slot, from the actor that ran it.
pub(crate) fn worker_of<S, O>(crews: &mut [Actor<S, O>], slot: usize) -> Worker
    requires some { 0 < length crews.old }
    requires own { (worker : Worker) × Owns crews.old slot worker }
    ensures worker { Owns crews.old slot result }
    ensures rest { HasTakenBack slot crews.old crews.new }
{
    let actor = actor_of(slot, crews.len());
    let Actor::Crew(crew) = &mut crews[actor] else {
        unreachable!()
    };
    crew.release(slot)
}
