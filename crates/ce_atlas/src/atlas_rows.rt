// The classes of all angles up to an order, each with what is known of it.
ghost use Rattle.std.specs.Prelude.{◌≡◌, ◌<◌, ◌≤◌, ◌^◌, length, All, IfOk};
ghost use Rattle.std.specs.List.Sorted.{IsNonDecreasingBy};
ghost use Rattle.ce_orbit.specs.Orbit.{HasOrbitWithin};
ghost use Rattle.ce_solve.specs.Limits.{AreWithinLimits};
ghost use Rattle.ce_sweep.specs.Classes.{AreClasses};
ghost use Rattle.ce_atlas.specs.Atlas.{AreRowsOf, EnclosesClass, IsAtlas, IsRowOf};
ghost use Rattle.ce_atlas.specs.AtlasInside.{AreFirstRows};
ghost use Rattle.ce_atlas.specs.InternalAddress.{most_entry};
ghost use Rattle.ce_orbit.specs.Iterates.{most_places};
ghost use Rattle.ce_rows.specs.Limits.{greatest_order};

use crate::class_sizes::class_sizes;
use crate::count_below::{count_below, sorted_highs};
use crate::{ClassRow, address};
use ce_angle::Angle;
use ce_orbit::Orbit;
use ce_rows::{Interval, NoMemory};
use ce_solve::{Settings, Solved};
use ce_sweep::{Solutions, angles_up_to, solve_short_classes};
use ce_words::Gate;
use std::alloc::Global;
use std::marker::Sync;
use std::thread::Threads;

// The row of a class by its first angle.
fn class_row(first: Angle, size: u32, solved: &Solved, highs: &[u64]) -> ClassRow
    requires short { HasOrbitWithin most_places first }
    requires few { length highs.now < 2 ^ 32 }
    requires rising { IsNonDecreasingBy (λ h. h) highs.now }
    ensures { IsRowOf first size solved.now highs.now result }
{
    let Ok(orbit) = Orbit::of(first) else {
        unreachable!()
    };
    let key = orbit.key();
    let interval = Interval {
        low: solved.certificate.low,
        high: solved.certificate.high,
    };
    ClassRow {
        first,
        angles: size,
        preperiod: key.preperiod,
        period: key.period,
        address: address(&key),
        interval,
        above: count_below(highs, interval.low) as u32,
    }
}

// The rows of all classes.
fn class_rows(
    alloc: Global,
    angles: &[Angle],
    first: &[u32],
    sizes: &[u32],
    solved: &[Solved],
    highs: &[u64],
) -> Result<Vec<ClassRow>, NoMemory>
    requires places { All (λ place. place < length angles.now) first.now }
    requires short { All (HasOrbitWithin most_places) angles.now }
    requires sizes { length sizes.now ≡ length first.now }
    requires solved { length solved.now ≡ length first.now }
    requires few { length highs.now < 2 ^ 32 }
    requires rising { IsNonDecreasingBy (λ h. h) highs.now }
    ensures { IfOk result (λ rows. AreFirstRows (record {
      angles = angles.now;
      first = first.now;
      sizes = sizes.now;
      solutions = solved.now;
      highs = highs.now;
    }) (length first.now) rows.items) }
{
    let mut rows = Vec::with_capacity(alloc, first.len())?;
    for (class, place) in first.iter().enumerate() {
        let row = class_row(angles[*place as usize], sizes[class], &solved[class], highs);
        if rows.push(row).is_err() {
            return Err(NoMemory);
        }
    }
    Ok(rows)
}

// The rows of solved classes.
fn rows_of_classes(
    alloc: Global,
    angles: &[Angle],
    solutions: &Solutions,
) -> Result<Vec<ClassRow>, NoMemory>
    requires few { length angles.now < 2 ^ 32 }
    requires short { All (HasOrbitWithin most_places) angles.now }
    requires classes { AreClasses angles.now solutions.now.classes.of.items solutions.now.classes.first.items }
    requires each { length solutions.now.solved.items ≡ length solutions.now.classes.first.items }
    ensures { IfOk result (λ rows. AreRowsOf angles.now solutions.now.classes.of.items
        solutions.now.classes.first.items solutions.now.solved.items rows.items) }
{
    let first = solutions.classes.first.as_slice();
    let solved = solutions.solved.as_slice();
    let sizes = class_sizes(alloc, solutions.classes.of.as_slice(), first.len())?;
    let highs = sorted_highs(alloc, solved)?;
    class_rows(
        alloc,
        angles,
        first,
        sizes.as_slice(),
        solved,
        highs.as_slice(),
    )
}

/// The atlas of an order: a row for each class of external angles whose denominator is at most the
/// order, by their first angles. Each class is solved once.
pub fn atlas<R: Threads + Sync, G: Gate + Sync>(
    rt: &R,
    alloc: Global,
    order: u32,
    settings: Settings,
    gate: &G,
) -> Result<Vec<ClassRow>, NoMemory>
    requires some { 0 < order }
    requires few { order ≤ greatest_order }
    requires settings { AreWithinLimits settings }
    ensures rows { IfOk result (λ rows. IsAtlas settings order rows.items) }
    ensures enclose { IfOk result (λ rows. All (EnclosesClass settings.scale) rows.items) }
    ensures addresses { IfOk result (λ rows. All (λ row. row.address.len ≤ most_entry) rows.items) }
{
    let angles = angles_up_to(alloc, order)?;
    // Reading the exponent brings in that it is 32 or 48.
    let _exponent = settings.scale.exponent();
    let list = angles.as_slice();
    let solutions = solve_short_classes(rt, alloc, list, settings, gate)?;
    rows_of_classes(alloc, list, &solutions)
}
