// The command `part`: the certificates at some places of the list of all angles up to an order.
ghost use Rattle.std.specs.Prelude.{◌≤◌, [], IfErr, IfOk};
ghost use Rattle.ce_rows.specs.Scale.{IsExponent};
ghost use Rattle.ce_rows.specs.Limits.{greatest_order, most_rounds, most_turns, most_workers};
ghost use Rattle.ce_sweep.specs.Answers.{AreSolvedBy};
ghost use Rattle.core_entropy.specs.Output.{HasEnded, Wrote};
ghost use Rattle.core_entropy.specs.Part.{AreAtPlaces, IsPartText, IsRefusedPart, part_task};
ghost use Rattle.core_entropy.specs.Status.{IsEndOfAnswer, ended_with};
ghost use Rattle.core_entropy.specs.declared.status.Status.{Status};

use crate::commands::map::write_listed;
use crate::status::Status;
use ce_angle::Angle;
use ce_map::append_part_header;
use ce_port::Sink;
use ce_rows::Scale;
use ce_solve::Settings;
use ce_sweep::{Solutions, angles_up_to, solve_short_classes};
use ce_words::Gate;
use std::alloc::Global;
use std::marker::Sync;
use std::thread::Threads;

/// The angles at the places of the list of an order from one on up to but without another. Where
/// the list doesn't have these places, the words are no command.
pub fn angles_at(alloc: Global, order: u32, from: u32, to: u32) -> Result<Vec<Angle>, Status>
    requires some { 1 ≤ order }
    requires few { order ≤ greatest_order }
    ensures at { IfOk result (λ angles. AreAtPlaces order from to angles.items) }
    ensures refused { IfErr result (IsRefusedPart order from to) }
{
    let angles = angles_up_to(alloc, order)?;
    let (from, to) = (from as usize, to as usize);
    if from <= to && to <= angles.len() {
        Ok(Vec::from_slice(alloc, &angles[from..to])?)
    } else {
        Err(Status::Usage)
    }
}

// Writes the part of angles that are solved.
fn write_part_of<O: Sink>(
    alloc: Global,
    order: u32,
    from: u32,
    to: u32,
    angles: &[Angle],
    solutions: &Solutions,
    settings: &Settings,
    out: &mut O,
) -> Result<(), Status>
    requires some { 1 ≤ order }
    requires few { order ≤ greatest_order }
    requires at { AreAtPlaces order from to angles.now }
    requires scale { IsExponent settings.now.scale }
    requires solved { AreSolvedBy settings.now angles.now solutions.now.classes.of.items
        solutions.now.classes.first.items solutions.now.solved.items }
    ensures wrote { Wrote O.taken O.faults
        (IsPartText order from to settings.now.rounds settings.now.turns
        settings.now.workers settings.now.scale) (ended_with result) out.old out.new }
    ensures end { IsEndOfAnswer Status.Done (ended_with result) }
{
    let mut page = Vec::new(alloc);
    append_part_header(&mut page, order, settings.scale)?;
    write_listed(page, angles, solutions, settings, out)
}

/// Writes the part of a map for the angles at these places, after so many rounds of power iteration
/// and runs of so many workers with so many turns. All runs are done before the first byte is
/// written. A scale is its exponent.
pub fn write_part<R: Threads + Sync, G: Gate + Sync, O: Sink>(
    rt: &R,
    alloc: Global,
    order: u32,
    from: u32,
    to: u32,
    angles: &[Angle],
    rounds: u32,
    turns: u32,
    workers: u32,
    scale: u32,
    gate: &G,
    out: &mut O,
) -> Result<(), Status>
    requires some { 1 ≤ order }
    requires few { order ≤ greatest_order }
    requires at { AreAtPlaces order from to angles.now }
    requires rounds { rounds ≤ most_rounds }
    requires turns { turns ≤ most_turns }
    requires one { 1 ≤ workers }
    requires workers { workers ≤ most_workers }
    requires scale { IsExponent scale }
    ensures { HasEnded O.taken O.faults (part_task order from to rounds turns workers scale)
        [] (ended_with result)
        out.old out.new }
{
    let Some(scale) = Scale::new(scale) else {
        unreachable!()
    };
    let settings = Settings {
        rounds,
        turns,
        workers,
        sessions: 0,
        reads: 0,
        scale,
    };
    let solutions = solve_short_classes(rt, alloc, angles, settings, gate)?;
    write_part_of(alloc, order, from, to, angles, &solutions, &settings, out)
}
