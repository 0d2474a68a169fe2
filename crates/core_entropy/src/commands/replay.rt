// The command `replay`: the entries of the vector and the line of an angle after a script's events.
ghost use Rattle.std.specs.Prelude.{◌≡◌, ◌<◌, ◌≤◌, ◌++◌, ◌∷◌, ◌*◌, ◌^◌, ℕ, List, All};
ghost use Rattle.std.specs.Prelude.{IfOk, IfErr, OnOk, OnErr, length, string_bytes};
ghost use Rattle.std.specs.Fmt.{decimal};
ghost use Rattle.ce_core.specs.Machine.{machine_at_start};
ghost use Rattle.ce_core.specs.Runs.{HasAskedAtMost};
ghost use Rattle.ce_core.specs.Script.{IsEventBelow, IsScriptOf};
ghost use Rattle.ce_port.specs.Pieces.{GrewAllBut};
ghost use Rattle.ce_port.specs.WriteAll.{GrewByPrefix};
ghost use Rattle.ce_rows.specs.Blocks.{IsRanking};
ghost use Rattle.ce_rows.specs.Rows.{EnclosesRows};
ghost use Rattle.ce_rows.specs.Scale.{IsExponent};
ghost use Rattle.ce_rows.specs.Limits.{most_rounds};
ghost use Rattle.ce_vector.specs.Start.{scaled_up};
ghost use Rattle.ce_thurston.specs.Indices.{rows_at};
ghost use Rattle.core_entropy.specs.Output.{HasEnded, Wrote};
ghost use Rattle.core_entropy.specs.Replay.{IsReplayText, entries_line, replay_task, replay_text};
ghost use Rattle.core_entropy.specs.Replay.{script_limit};
ghost use Rattle.core_entropy.specs.Status.{IsOfWriting, IsStopped, ended_with};

use crate::line::append_line;
use crate::status::Status;
use ce_angle::Angle;
use ce_core::{Core, Event, parse_script};
use ce_orbit::Orbit;
use ce_port::{Sink, turn_page, write_piece};
use ce_rows::{Interval, NoMemory, Rows, Scale};
use ce_solve::{Prepared, prepare};
use ce_thurston::rows_of;
use ce_vector::scale_start;
use std::alloc::Global;

/// The most bytes of a script.
pub const SCRIPT_LIMIT: usize = 1_048_576;

// The machine at its start: the vector scaled up, and the initial enclosure.
fn machine_at<'a>(
    alloc: Global,
    rows: &'a Rows,
    ranks: &'a [u32],
    mut vector: Vec<u64>,
    initial: Interval,
) -> Result<Core<'a>, NoMemory>
    requires ranking { IsRanking rows.now.list ranks.now }
    requires each { length vector.items ≡ length rows.now.list }
    requires some { All (λ x. 1 ≤ x) vector.items }
    requires most { All (λ x. x < 2 ^ 58) vector.items }
    requires initial { EnclosesRows rows.now initial.low initial.high }
    requires low { 2 ^ rows.now.exponent ≤ initial.low }
    requires high { initial.high ≤ 2 * 2 ^ rows.now.exponent }
    ensures machine { IfOk result (λ core. core ≡ record {
      rows = rows.now;
      ranks = ranks.now;
      machine = machine_at_start 16 (scaled_up vector.items) initial.low initial.high;
    }) }
    ensures asked { IfOk result (λ core. HasAskedAtMost 0 core.machine) }
{
    // The length brings in that the rows are in range.
    let _len = rows.len();
    scale_start(&mut vector);
    Core::new(alloc, rows, ranks, &vector, initial)
}

// Appends a space and an entry.
fn append_entry(text: &mut String, entry: u64) -> Result<(), NoMemory>
    ensures { OnOk result (string_bytes text.new ≡ string_bytes text.old ++ 32 ∷ decimal entry) }
{
    write!(text, " {entry}")?;
    Ok(())
}

// Writes what stands on a page and the line of the entries, so many, but for what stands on the
// page then.
fn write_entries<O: Sink>(
    out: &mut O,
    page: &mut String,
    core: &Core<'_>,
    count: u32,
) -> Result<(), Status>
    requires rows { count ≡ length core.now.rows.list }
    requires entries { count ≡ length core.now.machine.shared.entries }
    ensures done { OnOk result (GrewAllBut (O.taken out.old) (O.taken out.new)
        (string_bytes page.new)
        (string_bytes page.old ++ entries_line core.now.machine.shared.entries)) }
    ensures part { OnErr result (GrewByPrefix (O.taken out.old) (O.taken out.new)
        (string_bytes page.old ++ entries_line core.now.machine.shared.entries)) }
    ensures stopped { IfErr result (IsStopped (O.faults out.old) (O.faults out.new)) }
    ensures counted { O.faults out.old ≤ O.faults out.new }
{
    page.push_str("entries")?;
    for i in 0..count {
        append_entry(page, core.entry(i))?;
        turn_page(out, page)?;
    }
    page.push_str("\n")?;
    Ok(())
}

// Writes the line of the entries of a machine, so many, and the line of an angle with its interval.
fn write_machine<O: Sink>(
    alloc: Global,
    angle: Angle,
    scale: Scale,
    core: &Core<'_>,
    count: u32,
    out: &mut O,
) -> Result<(), Status>
    requires rows { count ≡ length core.now.rows.list }
    requires entries { count ≡ length core.now.machine.shared.entries }
    ensures wrote { Wrote O.taken O.faults
        (λ text. text ≡ replay_text angle scale core.now.machine.shared)
        (ended_with result) out.old out.new }
    ensures stopped { IfErr result IsOfWriting }
{
    let mut page = String::new(alloc);
    write_entries(out, &mut page, core, count)?;
    append_line(&mut page, angle, scale, core.interval())?;
    write_piece(out, page.as_bytes())?;
    Ok(())
}

// Writes the text after events, from the start and the initial enclosure of so many rounds: that of
// each script which spells them.
fn write_after<O: Sink>(
    alloc: Global,
    orbit: &Orbit,
    rows: &Rows,
    scale: Scale,
    rounds: u32,
    events: &[Event],
    out: &mut O,
) -> Result<(), Status>
    requires rows { rows.now ≡ rows_at orbit.now scale }
    requires rounds { rounds ≤ most_rounds }
    requires events { All (IsEventBelow (length rows.now.list)) events.now }
    ensures wrote { Wrote O.taken O.faults (λ text. (script : List ℕ)
        → IsScriptOf (length rows.now.list) script events.now
        → IsReplayText orbit.now.angle rounds scale script text)
        (ended_with result) out.old out.new }
    ensures stopped { IfErr result IsOfWriting }
{
    let Prepared {
        ranks,
        vector,
        bounds,
    } = prepare(alloc, rows, rounds)?;
    let initial = Interval {
        low: bounds.low,
        high: bounds.high,
    };
    let mut core = machine_at(alloc, rows, ranks.as_slice(), vector, initial)?;
    core.play(events);
    write_machine(alloc, orbit.angle(), scale, &core, rows.len(), out)
}

// Replays a script for an orbit.
fn replay_orbit<O: Sink>(
    alloc: Global,
    orbit: &Orbit,
    rounds: u32,
    scale: Scale,
    script: &[u8],
    out: &mut O,
) -> Result<(), Status>
    requires rounds { rounds ≤ most_rounds }
    requires fits { length script.now ≤ script_limit }
    ensures { HasEnded O.taken O.faults (replay_task rounds scale orbit.now.angle) script.now
        (ended_with result) out.old out.new }
{
    // The length brings in that this is an orbit, of at most 128 angles.
    let _len = orbit.len();
    let rows = rows_of(alloc, orbit)?.with_scale(scale);
    let events = parse_script(alloc, script, rows.len())?;
    write_after(alloc, orbit, &rows, scale, rounds, &events, out)
}

/// Writes the text of a script replayed for an angle after so many rounds of power iteration: the
/// entries of the vector after the script's events, and the line of the angle. A scale is its
/// exponent.
pub fn write_replay<O: Sink>(
    alloc: Global,
    angle: Angle,
    rounds: u32,
    scale: u32,
    script: &[u8],
    out: &mut O,
) -> Result<(), Status>
    requires rounds { rounds ≤ most_rounds }
    requires scale { IsExponent scale }
    requires fits { length script.now ≤ script_limit }
    ensures { HasEnded O.taken O.faults (replay_task rounds scale angle) script.now
        (ended_with result) out.old out.new }
{
    let Some(scale) = Scale::new(scale) else {
        unreachable!()
    };
    let orbit = Orbit::of(angle)?;
    replay_orbit(alloc, &orbit, rounds, scale, script, out)
}
