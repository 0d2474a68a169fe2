// The command `probe`: the initial enclosures of many generated angles, summed up.
ghost use Rattle.std.specs.Prelude.{◌≡◌, ◌<◌, ◌≤◌, ◌+◌, ◌++◌, ◌^◌, [], All, IfOk, OnOk, length};
ghost use Rattle.std.specs.Prelude.{string_bytes};
ghost use Rattle.ce_rows.specs.Scale.{IsExponent};
ghost use Rattle.ce_rows.specs.Limits.{most_rounds};
ghost use Rattle.core_entropy.specs.Output.{HasEnded};
ghost use Rattle.core_entropy.specs.Probe.{IsProbeText, bits_line, high_line, low_line};
ghost use Rattle.core_entropy.specs.Probe.{probe_heading, probe_task};
ghost use Rattle.core_entropy.specs.Probe.{probe_text, summary_of, widest_line};
ghost use Rattle.core_entropy.specs.ProbeInside.{IsOneToTwo, interval_in, intervals_in, least_with};
ghost use Rattle.core_entropy.specs.ProbeInside.{summary_with};
ghost use Rattle.core_entropy.specs.Status.{ended_with};
ghost use Rattle.core_entropy.specs.declared.commands.probe.Summary.{Summary};

use crate::status::Status;
use ce_log2::{bits_above, bits_below};
use ce_port::{Sink, write_piece};
use ce_rows::{Interval, NoMemory, Scale};
use ce_solve::{Answer, Settings};
use ce_sweep::solve_probe;
use ce_words::Gate;
use std::alloc::Global;
use std::marker::Sync;
use std::thread::Threads;

/// What intervals come to: the least and greatest ends, the greatest width, and the sums of the
/// ends' bits in units of 2^-16.
#[derive(Clone, Copy, Debug, PartialEq, Eq)]
pub struct Summary {
    pub low_least: u64,
    pub low_greatest: u64,
    pub high_least: u64,
    pub high_greatest: u64,
    pub widest: u64,
    pub bits_below: u64,
    pub bits_above: u64,
}

const NOTHING: Summary = Summary {
    low_least: 0,
    low_greatest: 0,
    high_least: 0,
    high_greatest: 0,
    widest: 0,
    bits_below: 0,
    bits_above: 0,
};

// The lesser of two numbers, or the first one.
fn least_with(first: bool, least: u64, x: u64) -> u64
    ensures { result ≡ least_with first least x }
{
    if first { x } else { least.min(x) }
}

// A summary with one interval more, which may be the first.
fn summary_with(scale: Scale, first: bool, s: Summary, interval: Interval) -> Summary
    requires below { s.bits_below < 2 ^ 63 }
    requires above { s.bits_above < 2 ^ 63 }
    requires interval { IsOneToTwo scale interval }
    ensures summary { result ≡ summary_with scale first s interval }
    ensures below { result.bits_below ≤ s.bits_below + 2 ^ 32 }
    ensures above { result.bits_above ≤ s.bits_above + 2 ^ 32 }
{
    let Interval { low, high } = interval;
    Summary {
        low_least: least_with(first, s.low_least, low),
        low_greatest: s.low_greatest.max(low),
        high_least: least_with(first, s.high_least, high),
        high_greatest: s.high_greatest.max(high),
        widest: s.widest.max(high - low),
        bits_below: s.bits_below + u64::from(bits_below(low, scale)),
        bits_above: s.bits_above + u64::from(bits_above(high, scale)),
    }
}

// The interval of an answer.
fn interval_of(answer: &Answer) -> Interval
    ensures { result ≡ interval_in answer.now }
{
    Interval {
        low: answer.solved.certificate.low,
        high: answer.solved.certificate.high,
    }
}

// What answers come to.
fn summed_up(answers: &[Answer], scale: Scale) -> Summary
    requires few { length answers.now ≤ 10000 }
    requires each { All (IsOneToTwo scale) (intervals_in answers.now) }
    ensures { result ≡ summary_of scale (intervals_in answers.now) }
{
    let mut summary = NOTHING;
    for i in 0..answers.len() {
        let interval = interval_of(&answers[i]);
        summary = summary_with(scale, i == 0, summary, interval);
    }
    summary
}

// Appends the first line.
fn append_heading(
    text: &mut String,
    start: u32,
    count: u32,
    rounds: u32,
    exponent: u32,
) -> Result<(), NoMemory>
    ensures { OnOk result (string_bytes text.new
        ≡ string_bytes text.old ++ probe_heading start count rounds exponent) }
{
    if exponent == 32 {
        write!(text, "probe {start} count {count} rounds {rounds}\n")?;
    } else {
        write!(
            text,
            "probe {start} count {count} rounds {rounds} scale {exponent}\n"
        )?;
    }
    Ok(())
}

// Appends the line of the low ends.
fn append_lows(text: &mut String, s: Summary) -> Result<(), NoMemory>
    ensures { OnOk result (string_bytes text.new ≡ string_bytes text.old ++ low_line s) }
{
    let least = s.low_least;
    let greatest = s.low_greatest;
    write!(text, "low least {least} greatest {greatest}\n")?;
    Ok(())
}

// Appends the line of the high ends.
fn append_highs(text: &mut String, s: Summary) -> Result<(), NoMemory>
    ensures { OnOk result (string_bytes text.new ≡ string_bytes text.old ++ high_line s) }
{
    let least = s.high_least;
    let greatest = s.high_greatest;
    write!(text, "high least {least} greatest {greatest}\n")?;
    Ok(())
}

// Appends the line of the greatest width.
fn append_widest(text: &mut String, s: Summary) -> Result<(), NoMemory>
    ensures { OnOk result (string_bytes text.new ≡ string_bytes text.old ++ widest_line s) }
{
    let widest = s.widest;
    write!(text, "widest {widest}\n")?;
    Ok(())
}

// Appends the line of the bits.
fn append_bits(text: &mut String, s: Summary) -> Result<(), NoMemory>
    ensures { OnOk result (string_bytes text.new ≡ string_bytes text.old ++ bits_line s) }
{
    let below = s.bits_below;
    let above = s.bits_above;
    write!(text, "bits below {below} above {above}\n")?;
    Ok(())
}

// The five lines.
fn text_of(
    alloc: Global,
    start: u32,
    count: u32,
    rounds: u32,
    exponent: u32,
    summary: Summary,
) -> Result<String, NoMemory>
    ensures { IfOk result
        (λ text. string_bytes text ≡ probe_text start count rounds exponent summary) }
{
    let mut text = String::new(alloc);
    append_heading(&mut text, start, count, rounds, exponent)?;
    append_lows(&mut text, summary)?;
    append_highs(&mut text, summary)?;
    append_widest(&mut text, summary)?;
    append_bits(&mut text, summary)?;
    Ok(text)
}

// The text of a probe.
fn probe_lines<R: Threads + Sync, G: Gate + Sync>(
    rt: &R,
    alloc: Global,
    start: u32,
    count: u32,
    rounds: u32,
    scale: Scale,
    gate: &G,
) -> Result<String, NoMemory>
    requires start { start ≤ 1000000000 }
    requires count { count ≤ 10000 }
    requires rounds { rounds ≤ most_rounds }
    ensures { IfOk result (λ text. IsProbeText start count rounds scale (string_bytes text)) }
{
    let exponent = scale.exponent();
    let settings = Settings {
        rounds,
        turns: 0,
        workers: 1,
        sessions: 0,
        reads: 0,
        scale,
    };
    let answers = solve_probe(rt, alloc, start, count, settings, gate)?;
    let summary = summed_up(&answers, scale);
    text_of(alloc, start, count, rounds, exponent, summary)
}

/// Writes what the initial enclosures of so many generated angles come to. A scale is its exponent.
pub fn write_probe<R: Threads + Sync, G: Gate + Sync, O: Sink>(
    rt: &R,
    alloc: Global,
    start: u32,
    count: u32,
    rounds: u32,
    scale: u32,
    gate: &G,
    out: &mut O,
) -> Result<(), Status>
    requires start { start ≤ 1000000000 }
    requires count { count ≤ 10000 }
    requires rounds { rounds ≤ most_rounds }
    requires scale { IsExponent scale }
    ensures { HasEnded O.taken O.faults (probe_task start count rounds scale) [] (ended_with result)
        out.old out.new }
{
    let Some(scale) = Scale::new(scale) else {
        unreachable!()
    };
    let text = probe_lines(rt, alloc, start, count, rounds, scale, gate)?;
    write_piece(out, text.as_bytes())?;
    Ok(())
}
