// The machine of a run, with sixteen actors.
ghost use Rattle.std.specs.Prelude.{◌≡◌, ◌<◌, ◌≤◌, ◌+◌, ◌-◌, ◌*◌, ◌^◌, ℕ};
ghost use Rattle.std.specs.Prelude.{All, length, map, replicate, slice_index, IfOk};
ghost use Rattle.ce_core.specs.FieldsInside.{kept_of};
ghost use Rattle.ce_core.specs.Machine.{actor_count};
ghost use Rattle.ce_rows.specs.Actors.{actor_at_start};
ghost use Rattle.ce_rows.specs.Events.{actor_of, act_of, HasEntryBelow};
ghost use Rattle.ce_rows.specs.declared.act.Act.TheVariants.{Asks};
ghost use Rattle.ce_rows.specs.Limits.{entry_limit};

use crate::actor::Actor;
use crate::shared::Shared;
use ce_rows::{Event, Interval, NoMemory, Rows};
use std::alloc::{AllocError, Global};
use std::marker::Model;

/// The number of actors: 16.
pub(crate) const ACTORS: u32 = 16;

/// The shared state of a run and what each of its actors keeps, with the rows and ranks of the run.
#[derive(Drop)]
pub struct Core<'a> {
    rows: &'a Rows,
    ranks: &'a [u32],
    shared: Shared,
    actors: Vec<Actor>,
    scratch: Vec<u64>,
}

impl<'a> Model for Core<'a> {
    ghost use Rattle.ce_core.specs.State.{CoreState};

    ghost Value = { CoreState };

    ghost use Rattle.ce_core.specs.Inside.{state_of, IsKept};

    ghost view = { state_of };

    ghost invariant = { IsKept };
}

// Actors that have all seen the start.
fn actors_at_start(alloc: Global, start: &[u64], seen: Interval) -> Result<Vec<Actor>, AllocError>
    ensures { IfOk result (λ actors. map kept_of actors.items
        ≡ replicate actor_count (actor_at_start start.now seen.low seen.high)) }
{
    let mut actors = Vec::with_capacity(alloc, ACTORS as usize)?;
    for _ in 0..ACTORS {
        actors.push(Actor {
            copy: Vec::from_slice(alloc, start)?,
            low: seen.low,
            high: seen.high,
            shift: 0,
        })?;
    }
    Ok(actors)
}

impl<'a> Core<'a> {
    ghost use Rattle.ce_rows.specs.Rows.{EnclosesRows};
    ghost use Rattle.ce_cert.specs.Start.{IsStart};
    ghost use Rattle.ce_core.specs.Machine.{kept_by, machine_at_start, after_event, answer_to};
    ghost use Rattle.ce_core.specs.Runs.{HasAskedAtMost, after_events};
    ghost use Rattle.ce_core.specs.Script.{IsEventBelow};

    /// The machine at its start: all copies are the start's entries, and all bounds are the initial
    /// enclosure.
    pub fn new(
        alloc: Global,
        rows: &'a Rows,
        ranks: &'a [u32],
        start: &[u64],
        initial: Interval,
    ) -> Result<Core<'a>, NoMemory>
        requires start { IsStart rows.now ranks.now start.now initial.low initial.high }
        ensures machine { IfOk result (λ core. core ≡ record {
          rows = rows.now;
          ranks = ranks.now;
          machine = machine_at_start actor_count start.now initial.low initial.high;
        }) }
        ensures asked { IfOk result (λ core. HasAskedAtMost 0 core.machine) }
    {
        // The length brings in that there are rows, and that all is in range.
        let _len = rows.len();
        let entries = Vec::from_slice(alloc, start)?;
        let shared = Shared {
            entries,
            low: initial.low,
            high: initial.high,
            shift: 0,
            stop: 0,
        };
        Ok(Core {
            rows,
            ranks,
            shared,
            actors: actors_at_start(alloc, start, initial)?,
            scratch: Vec::from_slice(alloc, start)?,
        })
    }

    /// One event: it changes the machine and gives an answer.
    pub fn step(&mut self, event: Event) -> u64
        requires actor { actor_of event < actor_count }
        requires entry { HasEntryBelow (length self.old.rows.list) event }
        requires asked { act_of event ≡ Asks
            → (kept_by self.old.machine (actor_of event)).shift < 2 ^ 64 - 1 }
        ensures machine { self.new ≡ record self.old {
          machine = after_event self.old.rows self.old.ranks self.old.machine event;
        } }
        ensures answer { result ≡ answer_to self.old.rows self.old.ranks self.old.machine event }
        ensures asked { (count : ℕ) → HasAskedAtMost count self.old.machine
            → HasAskedAtMost (count + 1) self.new.machine }
    {
        let act = event.act();
        let actor = &mut self.actors[event.actor() as usize];
        let number = actor.carried(self.rows, self.ranks, &mut self.scratch, act);
        let answer = self.shared.apply(act, number);
        actor.note(act, answer);
        answer
    }

    /// Events, one after another, from a machine on which no rescaling was asked for.
    pub fn play(&mut self, events: &[Event])
        requires events { All (IsEventBelow (length self.old.rows.list)) events.now }
        requires asked { HasAskedAtMost 0 self.old.machine }
        ensures { self.new ≡ record self.old {
          machine = after_events self.old.rows self.old.ranks self.old.machine events.now;
        } }
    {
        for event in events {
            let _answer = self.step(*event);
        }
    }

    /// The number of entries.
    #[allow(clippy::len_without_is_empty)]
    pub fn len(&self) -> u32
        ensures rows { result ≡ length self.now.rows.list }
        ensures entries { result ≡ length self.now.machine.shared.entries }
    {
        self.rows.len()
    }

    /// The bounds of the growth rate.
    pub fn interval(&self) -> Interval
        ensures low { result.low ≡ self.now.machine.shared.low }
        ensures high { result.high ≡ self.now.machine.shared.high }
        ensures encloses { EnclosesRows self.now.rows result.low result.high }
    {
        Interval {
            low: self.shared.low,
            high: self.shared.high,
        }
    }

    /// An entry of the vector, from 1 to 2^60.
    pub fn entry(&self, i: u32) -> u64
        requires { i < length self.now.rows.list }
        ensures value { result ≡ slice_index self.now.machine.shared.entries i }
        ensures positive { 1 ≤ result }
        ensures small { result ≤ entry_limit }
    {
        self.shared.entries[i as usize]
    }

    /// The bounds as an actor last saw them.
    pub fn seen(&self, actor: u32) -> Interval
        requires { actor < actor_count }
        ensures low { result.low ≡ (kept_by self.now.machine actor).low }
        ensures high { result.high ≡ (kept_by self.now.machine actor).high }
    {
        let actor = &self.actors[actor as usize];
        Interval {
            low: actor.low,
            high: actor.high,
        }
    }
}
