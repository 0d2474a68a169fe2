// The program: intervals that enclose the growth rate of Thurston's transition matrix of a rational
// external angle, and the matrix itself.
//
// Words come in, and for some commands an input; one text goes out, or an error line. `run_command`
// in run.rt is the whole program over any source and sinks. Its clause `headline` says that each
// interval in what was written is true (specs/Headline.antt). What a command reads, writes and
// claims is its task (specs/Task.antt), a row for each command in specs/Table.antt; which status a
// task calls for is said in specs/Calls.antt, and what words mean in the crate `ce_command`. The
// way from words to text: run.rt, the match in commands/mod.rt, the command's file there, and
// run.rt again. A desk owns its streams, and has the call `run_desk` in desk.rt.
#![tactic(auto)]

mod commands;
mod desk;
#[cfg(test)]
mod desk_tests;
mod error_line;
mod input;
mod laws;
mod line;
#[cfg(test)]
mod map_tests;
#[cfg(test)]
mod replay_tests;
mod run;
#[cfg(test)]
mod schedule_tests;
mod status;
#[cfg(test)]
mod tests;
#[cfg(test)]
mod text_tests;
mod words;
#[cfg(test)]
mod worked;

use ce_port::{StdSink, StdSource};
use ce_words::FreeGate;
use desk::run_desk;
use run::{run_command, tell};
use std::process::ExitCode;
use words::{begin_with_desk, program_words};

fn main(rt: HostRuntime) -> ExitCode {
    let mut source = StdSource::new(rt.stdin());
    let mut out = StdSink::new(rt.stdout());
    let mut err = StdSink::new(rt.stderr());
    let status = match program_words(&rt) {
        Ok(words) => {
            if begin_with_desk(&words) {
                run_desk(&rt, rt.alloc(), &words, source, out, &mut err, &FreeGate).status
            } else {
                run_command(
                    &rt,
                    rt.alloc(),
                    &words,
                    &FreeGate,
                    &mut source,
                    &mut out,
                    &mut err,
                )
            }
        }
        Err(status) => tell(&mut err, status),
    };
    ExitCode::from(status.code())
}
