// The command `map`: the certificates of all angles up to an order.
ghost use Rattle.std.specs.Prelude.{◌≡◌, ◌≤◌, ◌<◌, ◌++◌, ◌^◌, List, [], All, IfErr, OnErr, OnOk};
ghost use Rattle.std.specs.Prelude.{length};
ghost use Rattle.std.specs.List.{flat_map};
ghost use Rattle.ce_angle.specs.Farey.{AreAnglesUpTo, IsAngleUpTo};
ghost use Rattle.ce_map.specs.Grammar.{Item, end_line, item_text};
ghost use Rattle.ce_port.specs.Pieces.{GrewAllBut};
ghost use Rattle.ce_port.specs.WriteAll.{GrewByPrefix};
ghost use Rattle.ce_rows.specs.Scale.{IsExponent};
ghost use Rattle.ce_rows.specs.Limits.{greatest_order, most_rounds, most_turns, most_workers};
ghost use Rattle.ce_sweep.specs.Answers.{AreSolvedBy};
ghost use Rattle.core_entropy.specs.Map.{IsMapText, map_task};
ghost use Rattle.core_entropy.specs.MapInside.{AreItemsOf};
ghost use Rattle.core_entropy.specs.Output.{HasEnded, Wrote};
ghost use Rattle.core_entropy.specs.Status.{IsEndOfAnswer, IsStopped, ended_with};
ghost use Rattle.core_entropy.specs.declared.status.Status.{Status};

use crate::status::Status;
use ce_angle::Angle;
use ce_map::{append_end, append_header, append_item};
use ce_port::{Sink, turn_bytes, write_piece};
use ce_rows::Scale;
use ce_solve::Settings;
use ce_sweep::{Solutions, angles_up_to, solve_short_classes};
use ce_words::Gate;
use std::alloc::Global;
use std::marker::Sync;
use std::thread::Threads;

// Writes what stands on a page and the items of all angles, but for what stands on the page then.
fn write_solved<O: Sink>(
    out: &mut O,
    page: &mut Vec<u8>,
    angles: &[Angle],
    solutions: &Solutions,
    settings: &Settings,
) -> Result<(), Status>
    requires small { All (IsAngleUpTo 128) angles.now }
    requires solved { AreSolvedBy settings.now angles.now solutions.now.classes.of.items
        solutions.now.classes.first.items solutions.now.solved.items }
    ensures done { (items : List Item)
        → AreItemsOf angles.now solutions.now.classes.of.items solutions.now.solved.items items
        → OnOk result (GrewAllBut (O.taken out.old) (O.taken out.new) page.new.items
        (page.old.items ++ flat_map (item_text 2) items)) }
    ensures part { (items : List Item)
        → AreItemsOf angles.now solutions.now.classes.of.items solutions.now.solved.items items
        → OnErr result (GrewByPrefix (O.taken out.old) (O.taken out.new)
        (page.old.items ++ flat_map (item_text 2) items)) }
    ensures stopped { IfErr result (IsStopped (O.faults out.old) (O.faults out.new)) }
    ensures counted { O.faults out.old ≤ O.faults out.new }
{
    for k in 0..angles.len() {
        let class = solutions.classes.of[k] as usize;
        append_item(page, angles[k], &solutions.solved[class].certificate.view())?;
        turn_bytes(out, page)?;
    }
    Ok(())
}

/// Writes what stands on a page, the items of all angles, and an end.
pub(crate) fn write_listed<O: Sink>(
    mut page: Vec<u8>,
    angles: &[Angle],
    solutions: &Solutions,
    settings: &Settings,
    out: &mut O,
) -> Result<(), Status>
    requires few { length angles.now < 2 ^ 32 }
    requires small { All (IsAngleUpTo 128) angles.now }
    requires scale { IsExponent settings.now.scale }
    requires solved { AreSolvedBy settings.now angles.now solutions.now.classes.of.items
        solutions.now.classes.first.items solutions.now.solved.items }
    ensures wrote { (items : List Item)
        → AreItemsOf angles.now solutions.now.classes.of.items solutions.now.solved.items items
        → Wrote O.taken O.faults (λ text. text
        ≡ (page.items ++ flat_map (item_text 2) items) ++ end_line (length angles.now))
        (ended_with result) out.old out.new }
    ensures end { IsEndOfAnswer Status.Done (ended_with result) }
{
    write_solved(out, &mut page, angles, solutions, settings)?;
    append_end(&mut page, angles.len() as u32)?;
    write_piece(out, &page)?;
    Ok(())
}

// Writes the map of angles that are solved.
fn write_items_of<O: Sink>(
    alloc: Global,
    order: u32,
    angles: &[Angle],
    solutions: &Solutions,
    settings: &Settings,
    out: &mut O,
) -> Result<(), Status>
    requires some { 1 ≤ order }
    requires few { order ≤ greatest_order }
    requires small { All (IsAngleUpTo 128) angles.now }
    requires angles { AreAnglesUpTo order angles.now }
    requires solved { AreSolvedBy settings.now angles.now solutions.now.classes.of.items
        solutions.now.classes.first.items solutions.now.solved.items }
    ensures wrote { Wrote O.taken O.faults (IsMapText order settings.now.rounds settings.now.turns
        settings.now.workers settings.now.scale) (ended_with result) out.old out.new }
    ensures end { IsEndOfAnswer Status.Done (ended_with result) }
{
    let mut page = Vec::new(alloc);
    append_header(&mut page, order, settings.scale)?;
    write_listed(page, angles, solutions, settings, out)
}

/// Writes the map of all angles up to an order, after so many rounds of power iteration and runs of
/// so many workers with so many turns. All runs are done before the first byte is written. A scale
/// is its exponent.
pub fn write_map<R: Threads + Sync, G: Gate + Sync, O: Sink>(
    rt: &R,
    alloc: Global,
    order: u32,
    rounds: u32,
    turns: u32,
    workers: u32,
    scale: u32,
    gate: &G,
    out: &mut O,
) -> Result<(), Status>
    requires some { 1 ≤ order }
    requires few { order ≤ greatest_order }
    requires rounds { rounds ≤ most_rounds }
    requires turns { turns ≤ most_turns }
    requires one { 1 ≤ workers }
    requires workers { workers ≤ most_workers }
    requires scale { IsExponent scale }
    ensures { HasEnded O.taken O.faults (map_task order rounds turns workers scale)
        [] (ended_with result)
        out.old out.new }
{
    let Some(scale) = Scale::new(scale) else {
        unreachable!()
    };
    let settings = Settings {
        rounds,
        turns,
        workers,
        sessions: 0,
        reads: 0,
        scale,
    };
    let angles = angles_up_to(alloc, order)?;
    let solutions = solve_short_classes(rt, alloc, &angles, settings, gate)?;
    write_items_of(alloc, order, &angles, &solutions, &settings, out)
}
