// One answer for each angle of a list: one run for each class, and its copies.
ghost use Rattle.std.specs.Prelude.{◌≡◌, ◌<◌, ◌≤◌, ◌^◌, length, map, IfOk, OnOk, All};
ghost use Rattle.std.specs.List.{AllZip, Any};
ghost use Rattle.ce_angle.specs.Farey.{IsAngleUpTo};
ghost use Rattle.ce_orbit.specs.Kneading.{IsKey};
ghost use Rattle.ce_orbit.specs.Orbit.{HasOrbitAbove, HasOrbitWithin};
ghost use Rattle.ce_solve.specs.Limits.{AreWithinLimits};
ghost use Rattle.ce_sweep.specs.Classes.{IsKeyOfAngle};
ghost use Rattle.ce_sweep.specs.Probe.{probe_angles_of};
ghost use Rattle.ce_solve.specs.SolvedAngle.{MayAnswer};
ghost use Rattle.ce_sweep.specs.Answers.{AreAlike, AreSolvedBy, AreSweptBy};
ghost use Rattle.ce_sweep.specs.AnswersInside.{AreCopies, MaySolveKey, SolvesKey, StandsAt};
ghost use Rattle.ce_solve.specs.declared.settings.Settings.{Settings};
ghost use Rattle.ce_orbit.specs.Iterates.{most_places};
ghost use Rattle.ce_rows.specs.Limits.{greatest_order};

use crate::Classes;
use crate::angle_list::angles_up_to;
use crate::kneading_keys::keys_of;
use crate::numbering::number_keys;
use crate::probe_list::probe_angles;
use ce_angle::Angle;
use ce_orbit::KneadKey;
use ce_rows::NoMemory;
use ce_solve::{Answer, Settings, SolveError, Solved, solve_rows};
use ce_thurston::rows_of_key;
use ce_words::Gate;
use rayon::prelude::*;
use std::alloc::Global;
use std::marker::Sync;
use std::thread::Threads;

// A run on the rows of a key.
fn solve_key<R: Threads + Sync, G: Gate + Sync>(
    rt: &R,
    alloc: Global,
    key: &KneadKey,
    settings: Settings,
    gate: &G,
) -> Result<Solved, NoMemory>
    requires key { IsKey key.now }
    requires settings { AreWithinLimits settings }
    ensures { MaySolveKey settings key.now result }
{
    let rows = rows_of_key(alloc, key)?.with_scale(settings.scale);
    solve_rows(rt, alloc, &rows, settings, gate)
}

// A run for each key, in order.
fn solve_keys<R: Threads + Sync, G: Gate + Sync>(
    rt: &R,
    alloc: Global,
    keys: &[KneadKey],
    settings: Settings,
    gate: &G,
) -> Result<Vec<Solved>, NoMemory>
    requires keys { All IsKey keys.now }
    requires settings { AreWithinLimits settings }
    ensures { IfOk result (λ v. AllZip (SolvesKey settings) keys.now v.items) }
{
    let solved = keys
        .par_iter()
        .with_min_len(1)
        .map(
            |key: &KneadKey| -> Result<Solved, NoMemory>
                requires { IsKey key.now × AreWithinLimits settings }
                ensures { MaySolveKey settings key.now result }
            { solve_key(rt, alloc, key, settings, gate) },
        )
        .collect::<Result<Vec<Solved>, NoMemory>>(rt, alloc);
    match solved {
        Ok(solved) => solved,
        Err(_) => Err(NoMemory),
    }
}

// The keys at some places, in order.
fn keys_at(alloc: Global, keys: &[KneadKey], places: &[u32]) -> Result<Vec<KneadKey>, NoMemory>
    requires { All (λ place. place < length keys.now) places.now }
    ensures { IfOk result (λ v. AllZip (StandsAt keys.now) places.now v.items) }
{
    let mut chosen = Vec::with_capacity(alloc, places.len())?;
    for place in places {
        if chosen.push(keys[*place as usize]).is_err() {
            return Err(NoMemory);
        }
    }
    Ok(chosen)
}

/// The classes of a list of angles, and one solution for each class.
#[derive(Drop)]
pub struct Solutions {
    pub classes: Classes,
    pub solved: Vec<Solved>,
}

// The solutions of angles with these keys.
fn solve_by_keys<R: Threads + Sync, G: Gate + Sync>(
    rt: &R,
    alloc: Global,
    angles: &[Angle],
    keys: &[KneadKey],
    settings: Settings,
    gate: &G,
) -> Result<Solutions, NoMemory>
    requires few { length angles.now < 2 ^ 32 }
    requires settings { AreWithinLimits settings }
    requires keys { AllZip IsKeyOfAngle angles.now keys.now }
    ensures { IfOk result (λ s. AreSolvedBy settings angles.now
        s.classes.of.items s.classes.first.items s.solved.items) }
{
    let classes = number_keys(alloc, keys)?;
    let leaders = keys_at(alloc, keys, classes.first.as_slice())?;
    let solved = solve_keys(rt, alloc, leaders.as_slice(), settings, gate)?;
    Ok(Solutions { classes, solved })
}

/// The classes of a list of angles with one solution for each class, which serves each angle of the
/// class. The classes are handed to `rayon`, which may solve them side by side.
pub fn solve_classes<R: Threads + Sync, G: Gate + Sync>(
    rt: &R,
    alloc: Global,
    angles: &[Angle],
    settings: Settings,
    gate: &G,
) -> Result<Solutions, SolveError>
    requires few { length angles.now < 2 ^ 32 }
    requires settings { AreWithinLimits settings }
    ensures solved { IfOk result (λ s. AreSolvedBy settings angles.now
        s.classes.of.items s.classes.first.items s.solved.items) }
    ensures long { result ≡ Err SolveError.OrbitTooLong → Any (HasOrbitAbove most_places) angles.now }
    ensures short { OnOk result (All (HasOrbitWithin most_places) angles.now) }
{
    let keys = keys_of(alloc, angles)?;
    match solve_by_keys(rt, alloc, angles, keys.as_slice(), settings, gate) {
        Ok(solutions) => Ok(solutions),
        Err(_) => Err(SolveError::NoMemory),
    }
}

/// `solve_classes` for angles with denominators of at most 128. An orbit has at most as many angles
/// as its denominator says, so none is too long.
pub fn solve_short_classes<R: Threads + Sync, G: Gate + Sync>(
    rt: &R,
    alloc: Global,
    angles: &[Angle],
    settings: Settings,
    gate: &G,
) -> Result<Solutions, NoMemory>
    requires few { length angles.now < 2 ^ 32 }
    requires settings { AreWithinLimits settings }
    requires small { All (IsAngleUpTo 128) angles.now }
    ensures solved { IfOk result (λ s. AreSolvedBy settings angles.now
        s.classes.of.items s.classes.first.items s.solved.items) }
    ensures short { OnOk result (All (HasOrbitWithin most_places) angles.now) }
{
    match solve_classes(rt, alloc, angles, settings, gate) {
        Ok(solutions) => Ok(solutions),
        Err(SolveError::NoMemory) => Err(NoMemory),
        Err(SolveError::OrbitTooLong) => unreachable!(),
    }
}

// An answer for each angle, with the numbers of its class.
fn copy_answers(
    alloc: Global,
    angles: &[Angle],
    of: &[u32],
    solutions: &[Solved],
) -> Result<Vec<Answer>, NoMemory>
    requires each { length of.now ≡ length angles.now }
    requires below { All (λ class. class < length solutions.now) of.now }
    ensures { IfOk result (λ v. AreCopies angles.now of.now solutions.now v.items) }
{
    let mut answers = Vec::with_capacity(alloc, angles.len())?;
    for (place, angle) in angles.iter().enumerate() {
        let solved = solutions[of[place] as usize].copy(alloc)?;
        let answer = Answer {
            angle: *angle,
            solved,
        };
        if answers.push(answer).is_err() {
            return Err(NoMemory);
        }
    }
    Ok(answers)
}

// An answer for each angle, by the solution of its class.
fn answers_of(
    alloc: Global,
    angles: &[Angle],
    solutions: &Solutions,
) -> Result<Vec<Answer>, NoMemory>
    requires { (settings : Settings) × AreSolvedBy settings angles.now solutions.now.classes.of.items
        solutions.now.classes.first.items solutions.now.solved.items }
    ensures answers { (settings : Settings) → AreSolvedBy settings angles.now solutions.now.classes.of.items
        solutions.now.classes.first.items solutions.now.solved.items
        → IfOk result (λ v. AllZip (MayAnswer settings) angles.now v.items) }
    ensures alike { IfOk result (λ v. AreAlike v.items) }
{
    let of = solutions.classes.of.as_slice();
    copy_answers(alloc, angles, of, solutions.solved.as_slice())
}

/// One answer for each angle, in the list's order. Each class of angles with one kneading sequence
/// is solved once, and its answer is copied.
pub fn solve_list<R: Threads + Sync, G: Gate + Sync>(
    rt: &R,
    alloc: Global,
    angles: &[Angle],
    settings: Settings,
    gate: &G,
) -> Result<Vec<Answer>, SolveError>
    requires few { length angles.now < 2 ^ 32 }
    requires settings { AreWithinLimits settings }
    ensures answers { IfOk result (λ v. AllZip (MayAnswer settings) angles.now v.items) }
    ensures alike { IfOk result (λ v. AreAlike v.items) }
    ensures long { result ≡ Err SolveError.OrbitTooLong → Any (HasOrbitAbove most_places) angles.now }
    ensures short { OnOk result (All (HasOrbitWithin most_places) angles.now) }
{
    let found = solve_classes(rt, alloc, angles, settings, gate)?;
    match answers_of(alloc, angles, &found) {
        Ok(answers) => Ok(answers),
        Err(_) => Err(SolveError::NoMemory),
    }
}

// The answers of angles with denominators of at most 128.
fn solve_short<R: Threads + Sync, G: Gate + Sync>(
    rt: &R,
    alloc: Global,
    angles: &[Angle],
    settings: Settings,
    gate: &G,
) -> Result<Vec<Answer>, NoMemory>
    requires few { length angles.now < 2 ^ 32 }
    requires settings { AreWithinLimits settings }
    requires small { All (IsAngleUpTo 128) angles.now }
    ensures answers { IfOk result (λ v. AllZip (MayAnswer settings) angles.now v.items) }
    ensures alike { IfOk result (λ v. AreAlike v.items) }
{
    let found = solve_short_classes(rt, alloc, angles, settings, gate)?;
    answers_of(alloc, angles, &found)
}

/// One answer for each angle up to an order, in rising order.
pub fn sweep<R: Threads + Sync, G: Gate + Sync>(
    rt: &R,
    alloc: Global,
    order: u32,
    settings: Settings,
    gate: &G,
) -> Result<Vec<Answer>, NoMemory>
    requires some { 0 < order }
    requires few { order ≤ greatest_order }
    requires settings { AreWithinLimits settings }
    ensures answers { IfOk result (λ v. AreSweptBy settings order v.items) }
    ensures alike { IfOk result (λ v. AreAlike v.items) }
{
    let angles = angles_up_to(alloc, order)?;
    solve_short(rt, alloc, angles.as_slice(), settings, gate)
}

/// One answer for each angle of a probe, in order.
pub fn solve_probe<R: Threads + Sync, G: Gate + Sync>(
    rt: &R,
    alloc: Global,
    start: u32,
    count: u32,
    settings: Settings,
    gate: &G,
) -> Result<Vec<Answer>, NoMemory>
    requires start { start ≤ 1000000000 }
    requires count { count ≤ 10000 }
    requires settings { AreWithinLimits settings }
    ensures { IfOk result (λ v. AllZip (MayAnswer settings) (probe_angles_of start count) v.items) }
{
    let angles = probe_angles(alloc, start, count)?;
    solve_short(rt, alloc, angles.as_slice(), settings, gate)
}
