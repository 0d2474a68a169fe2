// Session and crew side by side.
ghost use Rattle.ce_desk.specs.Desk.{most_slots};
ghost use Rattle.std.specs.Prelude.{◌≡◌, ◌≤◌, ◌<◌, ◌∷◌, ℕ, List, All, length, slice_index_or};
ghost use Rattle.ce_desk.specs.ActorsInside.{CanRun, HasRun, HasRunSession, HaveRunCrews};
ghost use Rattle.ce_desk.specs.declared.actor.Actor.TheVariants.{Session as ASession};

use crate::case::Case;
use crate::crew::Crew;
use crate::session::Session;
use ce_port::{Sink, Source};
use ce_words::Gate;
use std::alloc::Global;
use std::thread;
use std::thread::Threads;

/// One that works on the shared cases, by a thread of its own.
#[derive(Drop)]
pub enum Actor<S, O> {
    Session(Session<S, O>),
    Crew(Crew),
}

// All that an actor has to do.
fn run_one<S: Source, O: Sink, G: Gate>(
    alloc: Global,
    cases: &[Case],
    actor: &mut Actor<S, O>,
    gate: &G,
)
    requires actor { CanRun cases.now actor.old }
    requires few { length cases.now ≤ most_slots }
    ensures { HasRun S.left S.faults O.taken O.faults cases.now actor.old actor.new }
{
    match actor {
        Actor::Session(session) => session.run(alloc, cases),
        Actor::Crew(crew) => crew.run(cases, gate),
    }
}

// Runs all actors by threads, each its whole run. No actor waits for another.
fn run_actors<R: Threads + Sync, S: Source + Send, O: Sink + Send, G: Gate + Sync>(
    rt: &R,
    alloc: Global,
    cases: &[Case],
    actors: &mut [Actor<S, O>],
    gate: &G,
)
    requires actors { All (CanRun cases.now) actors.old }
    requires few { length cases.now ≤ most_slots }
    ensures { (i : ℕ) (d : Actor S O) → i < length actors.old
        → HasRun S.left S.faults O.taken O.faults cases.now
        (slice_index_or actors.old i d) (slice_index_or actors.new i d) }
{
    let count = actors.len();
    if count == 0 {
        return;
    }
    thread::for_each_mut(
        rt,
        actors,
        count,
        &|_, actor| { run_one(alloc, cases, actor, gate) },
    );
}

// Runs the session, which stands first, beside the crew, and hands it back with the crew.
pub(crate) fn run_beside<
    R: Threads + Sync,
    S: Source + Send + Drop,
    O: Sink + Send + Drop,
    G: Gate + Sync,
>(
    rt: &R,
    alloc: Global,
    cases: &[Case],
    actors: Vec<Actor<S, O>>,
    gate: &G,
) -> (Session<S, O>, Vec<Actor<S, O>>)
    requires first { (s : Session S O) × (crews : List (Actor S O))
        × (actors.items ≡ ASession s ∷ crews) }
    requires run { All (CanRun cases.now) actors.items }
    requires few { length cases.now ≤ most_slots }
    ensures session { (s : Session S O) (crews : List (Actor S O))
        → actors.items ≡ ASession s ∷ crews
        → HasRunSession S.left S.faults O.taken O.faults cases.now s result.0 }
    ensures crews { (s : Session S O) (crews : List (Actor S O))
        → actors.items ≡ ASession s ∷ crews
        → HaveRunCrews cases.now crews result.1.items }
{
    let mut actors = actors;
    run_actors(rt, alloc, cases, actors.as_mut_slice(), gate);
    let Actor::Session(session) = actors.remove(0) else {
        unreachable!()
    };
    (session, actors)
}
