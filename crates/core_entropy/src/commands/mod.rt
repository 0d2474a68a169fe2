// The commands: each in a file of its own, and in one arm of `perform`.
ghost use Rattle.std.specs.Prelude.{◌≢◌};
ghost use Rattle.ce_command.specs.Table.{IsWithinLimits};
ghost use Rattle.core_entropy.specs.Desk.{IsDesk};
ghost use Rattle.core_entropy.specs.Output.{HasEndedOn, HasRead};
ghost use Rattle.core_entropy.specs.Part.{AsksBeyondList};
ghost use Rattle.core_entropy.specs.Status.{ended_with};
ghost use Rattle.core_entropy.specs.Table.{task_of};
ghost use Rattle.core_entropy.specs.declared.status.Status.{Status};

mod angle;
mod atlas;
mod check;
mod compare;
mod degree;
mod map;
mod merge;
mod part;
mod probe;
mod replay;
mod show;
mod upgrade;
mod watch;

use crate::commands::angle::write_angle;
use crate::commands::atlas::write_atlas;
use crate::commands::check::{MAP_LIMIT, write_check};
use crate::commands::compare::write_compare;
use crate::commands::degree::write_degree;
use crate::commands::map::write_map;
use crate::commands::merge::write_merge;
use crate::commands::part::{angles_at, write_part};
use crate::commands::probe::write_probe;
use crate::commands::replay::{SCRIPT_LIMIT, write_replay};
use crate::commands::show::write_show;
use crate::commands::upgrade::write_upgrade;
use crate::commands::watch::write_watch;
use crate::input::read_input;
use crate::status::Status;
use ce_command::Command;
use ce_port::{Sink, Source};
use ce_words::Gate;
use std::alloc::Global;
use std::marker::Sync;
use std::thread::Threads;

/// Does what a command asks for: reads its input, where it has one, and writes its text. A desk,
/// which owns its streams, is no such command.
pub fn perform<R: Threads + Sync, G: Gate + Sync, S: Source, O: Sink>(
    rt: &R,
    alloc: Global,
    command: Command,
    gate: &G,
    source: &mut S,
    out: &mut O,
) -> Result<(), Status>
    requires { IsWithinLimits command }
    ensures ended { HasEndedOn O.taken O.faults (task_of command) (S.left source.old)
        (ended_with result) out.old out.new }
    ensures read { HasRead S.left S.faults (task_of command).limit
        (ended_with result) source.old source.new }
    ensures meant { ¬ (AsksBeyondList command) → ¬ (IsDesk command)
        → ended_with result ≢ Status.Usage }
{
    match command {
        Command::Angle {
            angle,
            rounds,
            turns,
            workers,
            scale,
        } => {
            let angle = angle?;
            write_angle(rt, alloc, angle, rounds, turns, workers, scale, gate, out)
        }
        Command::Degree {
            degree,
            angle,
            rounds,
            turns,
            workers,
            scale,
        } => {
            let angle = angle?;
            write_degree(
                rt, alloc, degree, angle, rounds, turns, workers, scale, gate, out,
            )
        }
        Command::Show { angle } => write_show(alloc, angle?, out),
        Command::Replay {
            angle,
            rounds,
            scale,
        } => {
            let angle = angle?;
            let script = read_input(alloc, source, SCRIPT_LIMIT)?;
            write_replay(alloc, angle, rounds, scale, &script, out)
        }
        Command::Check => {
            let map = read_input(alloc, source, MAP_LIMIT)?;
            write_check(alloc, &map, out)
        }
        Command::Upgrade => {
            let map = read_input(alloc, source, MAP_LIMIT)?;
            write_upgrade(alloc, &map, out)
        }
        Command::Part {
            order,
            from,
            to,
            rounds,
            turns,
            workers,
            scale,
        } => {
            let angles = angles_at(alloc, order, from, to)?;
            write_part(
                rt, alloc, order, from, to, &angles, rounds, turns, workers, scale, gate, out,
            )
        }
        Command::Merge => {
            let parts = read_input(alloc, source, MAP_LIMIT)?;
            write_merge(alloc, &parts, out)
        }
        Command::Compare {
            first,
            second,
            rounds,
            scale,
        } => {
            let first = first?;
            let second = second?;
            write_compare(rt, alloc, first, second, rounds, scale, gate, out)
        }
        Command::Atlas {
            order,
            rounds,
            scale,
        } => write_atlas(rt, alloc, order, rounds, scale, gate, out),
        Command::Probe {
            start,
            count,
            rounds,
            scale,
        } => write_probe(rt, alloc, start, count, rounds, scale, gate, out),
        Command::Map {
            order,
            rounds,
            turns,
            workers,
            scale,
        } => write_map(rt, alloc, order, rounds, turns, workers, scale, gate, out),
        Command::Watch {
            angle,
            rounds,
            turns,
            workers,
            sessions,
            reads,
            scale,
        } => {
            let angle = angle?;
            write_watch(
                rt, alloc, angle, rounds, turns, workers, sessions, reads, scale, gate, out,
            )
        }
        Command::Desk { .. } => Err(Status::Usage),
    }
}
