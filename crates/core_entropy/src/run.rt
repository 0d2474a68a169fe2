// All that the program does, over any source and any sinks.
ghost use Rattle.std.specs.Prelude.{◌≡◌, ◌≢◌, ℕ, List, [], map, string_bytes};
ghost use Rattle.ce_command.specs.Meaning.{AreGood};
ghost use Rattle.ce_port.specs.Sink.{Rose};
ghost use Rattle.core_entropy.specs.Calls.{CallsFor, IsToldInput};
ghost use Rattle.core_entropy.specs.Desk.{AskForAnyDesk};
ghost use Rattle.core_entropy.specs.Headline.{Headline};
ghost use Rattle.core_entropy.specs.Output.{HasEndedOn, HasRead, WroteLine};
ghost use Rattle.core_entropy.specs.Part.{AskBeyondList};
ghost use Rattle.core_entropy.specs.Status.{IsRefusal, IsUnlessNoMemory, ended_with, error_line};
ghost use Rattle.core_entropy.specs.Table.{task_asked};
ghost use Rattle.core_entropy.specs.declared.status.Status.{Status};

use crate::commands::perform;
use crate::error_line::ErrorLine;
use crate::status::Status;
use ce_command::read_words;
use ce_port::{Sink, Source, write_all};
use ce_words::Gate;
use std::alloc::Global;
use std::marker::Sync;
use std::thread::Threads;

// Does what the words ask for.
fn answer<R: Threads + Sync, G: Gate + Sync, S: Source, O: Sink>(
    rt: &R,
    alloc: Global,
    words: &[String],
    gate: &G,
    source: &mut S,
    out: &mut O,
) -> Result<(), Status>
    ensures ended { HasEndedOn O.taken O.faults
        (task_asked (map string_bytes words.now)) (S.left source.old)
        (ended_with result) out.old out.new }
    ensures read { HasRead S.left S.faults (task_asked (map string_bytes words.now)).limit
        (ended_with result) source.old source.new }
    ensures taken { AreGood (map string_bytes words.now)
        → ¬ (AskBeyondList (map string_bytes words.now))
        → ¬ (AskForAnyDesk (map string_bytes words.now))
        → ended_with result ≢ Status.Usage }
{
    let command = read_words(alloc, words)?;
    perform(rt, alloc, command, gate, source, out)
}

/// Writes the error line of a status to `err`, whose faults change nothing, and gives the status
/// back. Takes no memory.
pub fn tell<E: Sink>(err: &mut E, status: Status) -> Status
    ensures same { result ≡ status }
    ensures line { WroteLine (error_line status) (E.taken err.old) (E.taken err.new)
        (E.faults err.old) (E.faults err.new) }
    ensures silent { error_line status ≡ [] → err.new ≡ err.old }
{
    let line = ErrorLine::of(status);
    let _end = write_all(err, line.as_slice());
    status
}

/// Does what the words after the program's name ask for: reads `source`, if the command has an
/// input, writes the answer to `out` and gives its status, whose error line goes to `err`. Faults
/// of `err` change no status. Words that ask for a desk are Usage here: they are for `run_desk`.
pub fn run_command<R: Threads + Sync, G: Gate + Sync, S: Source, O: Sink, E: Sink>(
    rt: &R,
    alloc: Global,
    words: &[String],
    gate: &G,
    source: &mut S,
    out: &mut O,
    err: &mut E,
) -> Status
    // Each interval that is written encloses the growth rate of its angle, however the call ends.
    ensures headline { Headline (task_asked (map string_bytes words.now)) (S.left source.old)
        (O.taken out.old) (O.taken out.new) }

    // The status is the one that the words and the input call for, unless a stream failed or memory
    // was refused, and by the status a text of the command was written, or some of it, or nothing.
    ensures ended { HasEndedOn O.taken O.faults
        (task_asked (map string_bytes words.now)) (S.left source.old)
        result out.old out.new }
    ensures complete { (input : List ℕ) (s : Status)
        → IsToldInput (task_asked (map string_bytes words.now)).limit (S.left source.old) input
        → CallsFor (task_asked (map string_bytes words.now)) input s
        → ¬ (Rose (S.faults source.old) (S.faults source.new))
        → ¬ (Rose (O.faults out.old) (O.faults out.new))
        → IsUnlessNoMemory result s }
    // Words that `clap` takes, with good numbers, are a command, unless they ask for places that a
    // list doesn't have, or for a desk.
    ensures taken { AreGood (map string_bytes words.now)
        → ¬ (AskBeyondList (map string_bytes words.now))
        → ¬ (AskForAnyDesk (map string_bytes words.now))
        → result ≢ Status.Usage }
    ensures refused { IsRefusal result → out.new ≡ out.old }

    // Only a command that has an input reads it: to its end, or up to one byte above its limit.
    ensures read { HasRead S.left S.faults (task_asked (map string_bytes words.now)).limit
        result source.old source.new }

    ensures error { WroteLine (error_line result) (E.taken err.old) (E.taken err.new)
        (E.faults err.old) (E.faults err.new) }
    ensures silent { error_line result ≡ [] → err.new ≡ err.old }
{
    let status = Status::of(answer(rt, alloc, words, gate, source, out));
    tell(err, status)
}
