// An actor of the crew, which owns workers.
ghost use Rattle.std.specs.Prelude.{◌≡◌, ◌<◌, All, IfOk, length, slice_index_or, slice_set};
ghost use Rattle.std.specs.Prelude.{Option, None, Some};
ghost use Rattle.ce_desk.specs.ActorsInside.{CanRunCrew, HasRunCrew};
ghost use Rattle.ce_desk.specs.CasesInside.{CanRunSlot, HasRunSlot};

use crate::Case;
use ce_crew::Worker;
use ce_rows::NoMemory;
use ce_words::Gate;
use std::alloc::Global;

/// The workers of one actor by their slots; there is none where the slot is another actor's.
#[derive(Drop)]
pub struct Crew {
    workers: Vec<Option<Worker>>,
}

// The whole run of the worker of a slot, if there is one.
fn run_slot<G: Gate>(case: &Case, worker: &mut Option<Worker>, gate: &G)
    requires { CanRunSlot case.now worker.old }
    ensures { HasRunSlot case.now worker.old worker.new }
{
    if let Some(worker) = worker {
        worker.run(&case.board, &case.rows, case.ranks.as_slice(), gate);
    }
}

// Runs each worker to its end, by ascending slots.
fn run_slots<G: Gate>(cases: &[Case], workers: &mut [Option<Worker>], gate: &G)
    requires { CanRunCrew cases.now workers.old }
    ensures { HasRunCrew cases.now workers.old workers.new }
{
    for slot in 0..workers.len() {
        run_slot(&cases[slot], &mut workers[slot], gate);
    }
}

impl Crew {
    ghost use Rattle.ce_crew.specs.declared.worker.Worker.{Worker};

    // No worker yet, and so many slots.
    pub(crate) fn new(alloc: Global, slots: usize) -> Result<Crew, NoMemory>
        ensures count { IfOk result (λ crew. length crew.workers.items ≡ slots) }
        ensures none { IfOk result (λ crew. All (λ worker. worker ≡ None) crew.workers.items) }
    {
        let mut workers = Vec::with_capacity(alloc, slots)?;
        for _ in 0..slots {
            if workers.push(None).is_err() {
                return Err(NoMemory);
            }
        }
        Ok(Crew { workers })
    }

    // Takes the worker of a slot in.
    pub(crate) fn own(&mut self, slot: usize, worker: Worker)
        requires { slot < length self.old.workers.items }
        ensures { self.new.workers.items ≡ slice_set self.old.workers.items slot (Some worker) }
    {
        self.workers[slot] = Some(worker);
    }

    // Hands the worker of a slot out.
    pub(crate) fn release(&mut self, slot: usize) -> Worker
        requires there { slot < length self.old.workers.items }
        requires some { (worker : Worker)
            × ((d : Option Worker) → slice_index_or self.old.workers.items slot d ≡ Some worker) }
        ensures worker { (d : Option Worker)
            → slice_index_or self.old.workers.items slot d ≡ Some result }
        ensures rest { self.new.workers.items ≡ slice_set self.old.workers.items slot None }
    {
        let Some(worker) = self.workers[slot].take() else {
            unreachable!()
        };
        worker
    }

    // Runs each worker to its end, by ascending slots.
    pub(crate) fn run<G: Gate>(&mut self, cases: &[Case], gate: &G)
        requires { CanRunCrew cases.now self.old.workers.items }
        ensures { HasRunCrew cases.now self.old.workers.items self.new.workers.items }
    {
        run_slots(cases, &mut self.workers, gate);
    }
}
