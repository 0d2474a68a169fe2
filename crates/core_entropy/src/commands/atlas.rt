// The command `atlas`: the table of the classes of all angles up to an order.
ghost use Rattle.std.specs.Prelude.{◌≤◌, [], IfOk};
ghost use Rattle.ce_rows.specs.Scale.{IsExponent};
ghost use Rattle.ce_rows.specs.Limits.{greatest_order, most_rounds};
ghost use Rattle.core_entropy.specs.Atlas.{IsAtlasText, atlas_task};
ghost use Rattle.core_entropy.specs.Output.{HasEnded};
ghost use Rattle.core_entropy.specs.Status.{ended_with};

use crate::status::Status;
use ce_atlas::{atlas, table};
use ce_port::{Sink, write_piece};
use ce_rows::{NoMemory, Scale};
use ce_solve::Settings;
use ce_words::Gate;
use std::alloc::Global;
use std::marker::Sync;
use std::thread::Threads;

// The table of an order.
fn table_of<R: Threads + Sync, G: Gate + Sync>(
    rt: &R,
    alloc: Global,
    order: u32,
    rounds: u32,
    scale: Scale,
    gate: &G,
) -> Result<Vec<u8>, NoMemory>
    requires some { 1 ≤ order }
    requires few { order ≤ greatest_order }
    requires rounds { rounds ≤ most_rounds }
    ensures { IfOk result (λ text. IsAtlasText order rounds scale text.items) }
{
    let settings = Settings {
        rounds,
        turns: 0,
        workers: 1,
        sessions: 0,
        reads: 0,
        scale,
    };
    let rows = atlas(rt, alloc, order, settings, gate)?;
    table(alloc, &rows)
}

/// Writes the table of the classes of all angles up to an order, with their initial enclosures. A
/// scale is its exponent.
pub fn write_atlas<R: Threads + Sync, G: Gate + Sync, O: Sink>(
    rt: &R,
    alloc: Global,
    order: u32,
    rounds: u32,
    scale: u32,
    gate: &G,
    out: &mut O,
) -> Result<(), Status>
    requires some { 1 ≤ order }
    requires few { order ≤ greatest_order }
    requires rounds { rounds ≤ most_rounds }
    requires scale { IsExponent scale }
    ensures { HasEnded O.taken O.faults (atlas_task order rounds scale) []
        (ended_with result) out.old out.new }
{
    let Some(scale) = Scale::new(scale) else {
        unreachable!()
    };
    let text = table_of(rt, alloc, order, rounds, scale, gate)?;
    write_piece(out, &text)?;
    Ok(())
}
