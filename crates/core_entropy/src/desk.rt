// The command `desk`, which owns its streams while it runs.
ghost use Rattle.std.specs.Prelude.{◌≡◌, ◌≢◌, ◌⊎◌, ◌≤◌, ℕ, [], IfOk, Ok, Err, map, string_bytes};
ghost use Rattle.std.specs.Result.{IfErr};
ghost use Rattle.ce_command.specs.Table.{IsWithinLimits};
ghost use Rattle.ce_command.specs.declared.command.Command.{Command};
ghost use Rattle.ce_command.specs.declared.words.WordsError.{WordsError};
ghost use Rattle.ce_port.specs.Sink.{Rose};
ghost use Rattle.ce_desk.specs.Served.{IsTooLong};
ghost use Rattle.core_entropy.specs.Desk.{AskForDesk, AskForAnyDesk, DeskHeadline, HasRunDesk};
ghost use Rattle.core_entropy.specs.Desk.{IsDesk, status_of};
ghost use Rattle.core_entropy.specs.Output.{WroteLine};
ghost use Rattle.core_entropy.specs.Status.{IsUnlessNoMemory, error_line};
ghost use Rattle.core_entropy.specs.declared.status.Status.{Status};
ghost use Rattle.ce_rows.specs.Limits.{most_rounds, most_workers};

use crate::run::tell;
use crate::status::Status;
use ce_command::{Command, WordsError, read_words};
use ce_desk::{DeskEnd, DeskSettings, DeskStop, serve};
use ce_port::{Sink, Source};
use ce_rows::Scale;
use ce_words::Gate;
use std::alloc::Global;
use std::marker::Sync;
use std::thread::Threads;

/// How a desk ended, and its streams.
#[derive(Drop)]
pub struct DeskRun<S, O> {
    pub status: Status,
    pub source: S,
    pub out: O,
}

// The settings of a command, where it is `desk`.
fn settings_of(command: Command) -> Result<DeskSettings, Status>
    requires { IsWithinLimits command }
    ensures some { IfOk result (λ s. command ≡ Command.Desk s.rounds s.workers s.scale) }
    ensures limits { IfOk result (λ s. (s.rounds ≤ most_rounds) × (1 ≤ s.workers) × (s.workers ≤ most_workers)) }
    ensures none { IfErr result (λ status. (status ≡ Status.Usage) × ¬ (IsDesk command)) }
{
    let Command::Desk {
        rounds,
        workers,
        scale,
    } = command
    else {
        return Err(Status::Usage);
    };
    let Some(scale) = Scale::new(scale) else {
        unreachable!()
    };
    Ok(DeskSettings {
        rounds,
        workers,
        scale,
    })
}

// The same for words that were read, or why they were not.
fn settings_read(read: Result<Command, WordsError>) -> Result<DeskSettings, Status>
    requires { IfOk read IsWithinLimits }
    ensures some { IfOk result (λ s. read ≡ Ok (Command.Desk s.rounds s.workers s.scale)) }
    ensures limits { IfOk result (λ s. (s.rounds ≤ most_rounds) × (1 ≤ s.workers) × (s.workers ≤ most_workers)) }
    ensures none { IfErr result (λ status. (status ≡ Status.NoMemory)
        ⊎ ((status ≡ Status.Usage) × (read ≢ Err WordsError.NoMemory)
        × ((r w e : ℕ) → read ≢ Ok (Command.Desk r w e)))) }
{
    match read {
        Ok(command) => settings_of(command),
        Err(WordsError::Usage) => Err(Status::Usage),
        Err(WordsError::NoMemory) => Err(Status::NoMemory),
    }
}

// The settings of the desk that words ask for.
fn settings_asked(alloc: Global, words: &[String]) -> Result<DeskSettings, Status>
    ensures asked { IfOk result (λ s.
        AskForDesk (map string_bytes words.now) s.rounds s.workers s.scale) }
    ensures limits { IfOk result (λ s. (s.rounds ≤ most_rounds) × (1 ≤ s.workers) × (s.workers ≤ most_workers)) }
    ensures refused { IfErr result (λ status. (status ≡ Status.NoMemory)
        ⊎ ((status ≡ Status.Usage) × ¬ (AskForAnyDesk (map string_bytes words.now)))) }
{
    settings_read(read_words(alloc, words))
}

// The status of a desk that stopped so.
fn status_at(stop: DeskStop) -> Status
    ensures { result ≡ status_of stop }
{
    match stop {
        DeskStop::Done => Status::Done,
        DeskStop::InputTooLong => Status::InputTooLong,
        DeskStop::ReadFault => Status::ReadFault,
        DeskStop::WriteFault => Status::WriteFault,
        DeskStop::NoMemory => Status::NoMemory,
    }
}

/// Does what words ask for that ask for a desk: takes lines from the source and writes the replies
/// to `out`, and hands both back. A line is answered before the next is taken. Other words are
/// Usage. The error line goes to `err`, whose faults change no status.
pub fn run_desk<
    R: Threads + Sync,
    S: Source + Send + Drop,
    O: Sink + Send + Drop,
    E: Sink,
    G: Gate + Sync,
>(
    rt: &R,
    alloc: Global,
    words: &[String],
    source: S,
    out: O,
    err: &mut E,
    gate: &G,
) -> DeskRun<S, O>
    // Each interval that is written encloses the growth rate of its angle, however the call ends.
    ensures headline { (rounds workers exponent : ℕ)
        → AskForDesk (map string_bytes words.now) rounds workers exponent
        → DeskHeadline rounds exponent (O.taken out) (O.taken result.out) }

    // What was written is the text of a desk for the lines that were taken, whole or a prefix, by
    // the status; and no other status comes. With InputTooLong and ReadFault it is the whole
    // replies to the lines that were taken.
    ensures served { (rounds workers exponent : ℕ)
        → AskForDesk (map string_bytes words.now) rounds workers exponent
        → HasRunDesk S.left S.faults O.taken O.faults rounds exponent source out
        result.status result.source result.out }
    ensures complete { AskForAnyDesk (map string_bytes words.now)
        → ¬ (Rose (S.faults source) (S.faults result.source))
        → ¬ (Rose (O.faults out) (O.faults result.out))
        → ¬ (IsTooLong (S.left source) (S.left result.source))
        → IsUnlessNoMemory result.status Status.Done }

    // Words that ask for no desk are Usage, and change nothing.
    ensures refused { ¬ (AskForAnyDesk (map string_bytes words.now))
        → IsUnlessNoMemory result.status Status.Usage
        × (result.source ≡ source) × (result.out ≡ out) }

    ensures error { WroteLine (error_line result.status) (E.taken err.old) (E.taken err.new)
        (E.faults err.old) (E.faults err.new) }
    ensures silent { error_line result.status ≡ [] → err.new ≡ err.old }
{
    match settings_asked(alloc, words) {
        Ok(settings) => {
            let DeskEnd { stop, source, out } = serve(rt, alloc, settings, source, out, gate);
            let status = tell(err, status_at(stop));
            DeskRun {
                status,
                source,
                out,
            }
        }
        Err(refusal) => {
            let status = tell(err, refusal);
            DeskRun {
                status,
                source,
                out,
            }
        }
    }
}
