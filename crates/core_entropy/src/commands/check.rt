// The command `check`: the verdict on a map.
ghost use Rattle.std.specs.Prelude.{◌≡◌, ◌≤◌, ◌++◌, OnOk, codes, length, string_bytes};
ghost use Rattle.std.specs.Fmt.{decimal};
ghost use Rattle.core_entropy.specs.Checked.{cause_word, check_task, map_limit, status_of};
ghost use Rattle.core_entropy.specs.Checked.{verdict_line};
ghost use Rattle.core_entropy.specs.Output.{HasEnded, Wrote};
ghost use Rattle.core_entropy.specs.Status.{IsEndOfAnswer, ended_with};
ghost use Rattle.ce_angle.specs.Spelled.{ended};

use crate::status::Status;
use ce_check::{Cause, Verdict, check_map};
use ce_port::{Sink, write_piece};
use ce_rows::NoMemory;
use std::alloc::Global;

/// The most bytes of a map.
pub const MAP_LIMIT: usize = 536_870_912;

// The word of a cause.
fn cause_word(cause: Cause) -> &'static str
    ensures { result.now ≡ cause_word cause }
{
    match cause {
        Cause::Form => "Form",
        Cause::Order => "Order",
        Cause::Missing => "Missing",
        Cause::Length => "Length",
        Cause::Rank => "Rank",
        Cause::Entry => "Entry",
        Cause::Low => "Low",
        Cause::High => "High",
        Cause::Count => "Count",
        Cause::Tail => "Tail",
    }
}

// Appends the line of a refusal, but for the word of its cause.
fn append_place(text: &mut String, line: u64) -> Result<(), NoMemory>
    ensures { OnOk result (string_bytes text.new ≡ string_bytes text.old
        ++ (codes "refused line " ++ decimal line ++ codes " ")) }
{
    write!(text, "refused line {line} ")?;
    Ok(())
}

/// Appends the line of a refusal.
pub(crate) fn append_refusal(text: &mut String, line: u64, word: &str) -> Result<(), NoMemory>
    ensures { OnOk result (string_bytes text.new ≡ string_bytes text.old
        ++ ended (codes "refused line " ++ decimal line ++ codes " " ++ word.now)) }
{
    append_place(text, line)?;
    text.push_str(word)?;
    text.push_str("\n")?;
    Ok(())
}

// Appends the line of a verdict.
fn append_verdict(text: &mut String, verdict: Verdict) -> Result<(), NoMemory>
    ensures { OnOk result (string_bytes text.new ≡ string_bytes text.old ++ verdict_line verdict) }
{
    match verdict {
        Verdict::Accepted { count } => {
            write!(text, "accepted {count}\n")?;
            Ok(())
        }
        Verdict::Refused { line, cause } => append_refusal(text, line, cause_word(cause)),
    }
}

// How a command ends that answered a verdict.
fn end_of(verdict: Verdict) -> Result<(), Status>
    ensures { ended_with result ≡ status_of verdict }
{
    match verdict {
        Verdict::Accepted { .. } => Ok(()),
        Verdict::Refused { .. } => Err(Status::Refused),
    }
}

/// Writes the line of a verdict.
pub fn write_verdict<O: Sink>(alloc: Global, verdict: Verdict, out: &mut O) -> Result<(), Status>
    ensures wrote { Wrote O.taken O.faults (λ text. text ≡ verdict_line verdict) (ended_with result)
        out.old out.new }
    ensures end { IsEndOfAnswer (status_of verdict) (ended_with result) }
{
    let mut line = String::new(alloc);
    append_verdict(&mut line, verdict)?;
    write_piece(out, line.as_bytes())?;
    end_of(verdict)
}

/// Writes the verdict on a map.
pub fn write_check<O: Sink>(alloc: Global, bytes: &[u8], out: &mut O) -> Result<(), Status>
    requires fits { length bytes.now ≤ map_limit }
    ensures { HasEnded O.taken O.faults check_task bytes.now (ended_with result) out.old out.new }
{
    let verdict = check_map(alloc, bytes)?;
    write_verdict(alloc, verdict, out)
}
