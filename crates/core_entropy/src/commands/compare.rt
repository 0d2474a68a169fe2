// The command `compare`: how two angles stand to each other.
ghost use Rattle.std.specs.Prelude.{◌≡◌, ◌≤◌, ◌++◌, IfOk, IfErr, OnOk, [], codes, string_bytes};
ghost use Rattle.ce_rows.specs.Scale.{IsExponent};
ghost use Rattle.ce_rows.specs.Limits.{most_rounds};
ghost use Rattle.core_entropy.specs.Compare.{AreCompared, HasLongOrbit, IsCauseOf, compare_line};
ghost use Rattle.core_entropy.specs.Compare.{compare_task, relation_word};
ghost use Rattle.core_entropy.specs.Output.{HasEnded, Wrote};
ghost use Rattle.core_entropy.specs.Status.{IsEndOfAnswer, ended_with};
ghost use Rattle.core_entropy.specs.declared.status.Status.{Status};
ghost use Rattle.ce_angle.specs.Spelled.{fraction_text};

use crate::status::Status;
use ce_angle::Angle;
use ce_atlas::{Relation, relate};
use ce_port::{Sink, write_piece};
use ce_rows::{NoMemory, Scale};
use ce_solve::{Settings, SolveError, solve};
use ce_words::Gate;
use std::alloc::Global;
use std::marker::Sync;
use std::thread::Threads;

// The word of a relation.
fn relation_word(relation: Relation) -> &'static str
    ensures { result.now ≡ relation_word relation }
{
    match relation {
        Relation::Equal => "equal",
        Relation::Below => "below",
        Relation::Above => "above",
        Relation::Open => "open",
    }
}

// Appends two angles.
fn append_angles(text: &mut String, a: Angle, b: Angle) -> Result<(), NoMemory>
    ensures { OnOk result (string_bytes text.new ≡ string_bytes text.old
        ++ (codes "compare " ++ fraction_text a ++ codes " " ++ fraction_text b ++ codes " ")) }
{
    write!(text, "compare {a} {b} ")?;
    Ok(())
}

// The line of two angles.
fn line_of(alloc: Global, a: Angle, b: Angle, relation: Relation) -> Result<String, NoMemory>
    ensures { IfOk result (λ line. string_bytes line ≡ compare_line a b relation) }
{
    let mut line = String::new(alloc);
    append_angles(&mut line, a, b)?;
    line.push_str(relation_word(relation))?;
    line.push_str("\n")?;
    Ok(line)
}

// How two angles stand to each other by their initial enclosures.
fn compared<R: Threads + Sync, G: Gate + Sync>(
    rt: &R,
    alloc: Global,
    a: Angle,
    b: Angle,
    rounds: u32,
    scale: Scale,
    gate: &G,
) -> Result<Relation, SolveError>
    requires rounds { rounds ≤ most_rounds }
    ensures relation { IfOk result (AreCompared a b rounds scale) }
    ensures short { OnOk result (¬ (HasLongOrbit a b)) }
    ensures cause { IfErr result (IsCauseOf a b) }
{
    // Reading the exponent brings in that it is 32 or 48.
    let _exponent = scale.exponent();
    let settings = Settings {
        rounds,
        turns: 0,
        workers: 1,
        sessions: 0,
        reads: 0,
        scale,
    };
    let first = solve(rt, alloc, a, &settings, gate)?;
    let second = solve(rt, alloc, b, &settings, gate)?;
    Ok(relate(&first, &second))
}

// Writes the line of two angles.
fn write_relation<O: Sink>(
    alloc: Global,
    a: Angle,
    b: Angle,
    relation: Relation,
    out: &mut O,
) -> Result<(), Status>
    ensures wrote { Wrote O.taken O.faults (λ text. text ≡ compare_line a b relation)
        (ended_with result)
        out.old out.new }
    ensures end { IsEndOfAnswer Status.Done (ended_with result) }
{
    let line = line_of(alloc, a, b, relation)?;
    write_piece(out, line.as_bytes())?;
    Ok(())
}

/// Writes how two angles stand to each other by their initial enclosures after so many rounds of
/// power iteration. A scale is its exponent.
pub fn write_compare<R: Threads + Sync, G: Gate + Sync, O: Sink>(
    rt: &R,
    alloc: Global,
    a: Angle,
    b: Angle,
    rounds: u32,
    scale: u32,
    gate: &G,
    out: &mut O,
) -> Result<(), Status>
    requires rounds { rounds ≤ most_rounds }
    requires scale { IsExponent scale }
    ensures { HasEnded O.taken O.faults (compare_task rounds scale a b) []
        (ended_with result) out.old out.new }
{
    let Some(scale) = Scale::new(scale) else {
        unreachable!()
    };
    match compared(rt, alloc, a, b, rounds, scale, gate) {
        Ok(relation) => write_relation(alloc, a, b, relation, out),
        Err(SolveError::OrbitTooLong) => Err(Status::OrbitTooLong),
        Err(SolveError::NoMemory) => Err(Status::NoMemory),
    }
}
