// What words ask for: the commands, a row of words for each, and the way to make each of what it is
// given.
ghost use Rattle.std.specs.Prelude.{◌≡◌, map};
ghost use Rattle.ce_command.specs.Meaning.{name_of, number_at, text_in};
ghost use Rattle.ce_command.specs.Options.{option_form};
ghost use Rattle.ce_command.specs.ReadingInside.{given_by};
ghost use Rattle.ce_command.specs.Table.{form_of};

use crate::options::{
    COUNT, DEGREE, FIRST, FRACTION, FROM, LOOK, ORDER, READS, ROUNDS, RUN, SCALE, SECOND, SESSIONS,
    START, STILL, TALK, TO, TURNS, WORKERS,
};
use crate::parsing::{angle_in, number_in};
use crate::row::Row;
use ce_angle::{Angle, AngleError};
use clap::ArgMatches;

/// A command with its angle and its numbers. An angle is as its word is read; a scale is its
/// exponent, 32 or 48.
#[derive(Clone, Copy, Debug, PartialEq, Eq)]
pub enum Command {
    /// The interval of an angle's growth rate.
    Angle {
        angle: Result<Angle, AngleError>,
        rounds: u32,
        turns: u32,
        workers: u32,
        scale: u32,
    },
    /// The interval of an angle's growth rate under multiplication by a degree.
    Degree {
        degree: u32,
        angle: Result<Angle, AngleError>,
        rounds: u32,
        turns: u32,
        workers: u32,
        scale: u32,
    },
    /// The orbit of an angle, its kneading sequence and its transition matrix.
    Show {
        angle: Result<Angle, AngleError>,
    },
    /// The events of a script, replayed from an angle's start.
    Replay {
        angle: Result<Angle, AngleError>,
        rounds: u32,
        scale: u32,
    },
    /// The verdict on a map.
    Check,
    /// A map as one of version 2, or the verdict on it.
    Upgrade,
    /// The certificates at the places of the list of an order from one on up to another.
    Part {
        order: u32,
        from: u32,
        to: u32,
        rounds: u32,
        turns: u32,
        workers: u32,
        scale: u32,
    },
    /// Parts of maps as one part, or their first flaw.
    Merge,
    /// How two angles stand to each other.
    Compare {
        first: Result<Angle, AngleError>,
        second: Result<Angle, AngleError>,
        rounds: u32,
        scale: u32,
    },
    /// The table of the classes of all angles up to an order.
    Atlas {
        order: u32,
        rounds: u32,
        scale: u32,
    },
    /// What the initial enclosures of so many generated angles come to, from a number on.
    Probe {
        start: u32,
        count: u32,
        rounds: u32,
        scale: u32,
    },
    /// The certificates of all angles up to an order.
    Map {
        order: u32,
        rounds: u32,
        turns: u32,
        workers: u32,
        scale: u32,
    },
    /// What sessions read while workers run for an angle.
    Watch {
        angle: Result<Angle, AngleError>,
        rounds: u32,
        turns: u32,
        workers: u32,
        sessions: u32,
        reads: u32,
        scale: u32,
    },
    /// A desk: so many rounds for each angle that lines open, and so many actors in its crew.
    Desk {
        rounds: u32,
        workers: u32,
        scale: u32,
    },
}

/// A command, without what it is given.
#[derive(Clone, Copy, Debug, PartialEq, Eq)]
pub(crate) enum CommandName {
    Angle,
    Degree,
    Show,
    Replay,
    Check,
    Upgrade,
    Part,
    Merge,
    Compare,
    Atlas,
    Probe,
    Map,
    Watch,
    Desk,
}

// The names, each once.
const NAMES: [CommandName; 14] = [
    CommandName::Angle,
    CommandName::Degree,
    CommandName::Show,
    CommandName::Replay,
    CommandName::Check,
    CommandName::Upgrade,
    CommandName::Part,
    CommandName::Merge,
    CommandName::Compare,
    CommandName::Atlas,
    CommandName::Probe,
    CommandName::Map,
    CommandName::Watch,
    CommandName::Desk,
];

impl CommandName {
    /// The command that a word names.
    pub(crate) fn of(word: &str) -> Option<Self>
        ensures { result ≡ name_of word.now }
    {
        for i in 0..NAMES.len() {
            if NAMES[i].row().name == word {
                return Some(NAMES[i]);
            }
        }
        None
    }

    /// Its row.
    #[tactic(auto, unfolding(crate::specs::Table::form_of))]
    pub(crate) fn row<'a>(self) -> Row<'a>
        ensures name { result.name.now ≡ (form_of self).name }
        ensures positionals { map (λ id. id.now) result.positionals.now
            ≡ (form_of self).positionals }
        ensures numbers { map option_form result.numbers.now ≡ (form_of self).numbers }
        ensures options { map option_form result.options.now ≡ (form_of self).options }
    {
        match self {
            CommandName::Angle => Row::of("angle", &[FRACTION], &[], &RUN),
            CommandName::Degree => Row::of("degree", &["degree", FRACTION], &[DEGREE], &RUN),
            CommandName::Show => Row::of("show", &[FRACTION], &[], &[]),
            CommandName::Replay => Row::of("replay", &[FRACTION], &[], &STILL),
            CommandName::Check => Row::of("check", &[], &[], &[]),
            CommandName::Upgrade => Row::of("upgrade", &[], &[], &[]),
            CommandName::Part => Row::of(
                "part",
                &["order", "from", "to"],
                &[ORDER, FROM, TO],
                &RUN,
            ),
            CommandName::Merge => Row::of("merge", &[], &[], &[]),
            CommandName::Compare => Row::of("compare", &[FIRST, SECOND], &[], &STILL),
            CommandName::Atlas => Row::of("atlas", &["order"], &[ORDER], &STILL),
            CommandName::Probe => Row::of("probe", &["start", "count"], &[START, COUNT], &STILL),
            CommandName::Map => Row::of("map", &["order"], &[ORDER], &RUN),
            CommandName::Watch => Row::of("watch", &[FRACTION], &[], &LOOK),
            CommandName::Desk => Row::of("desk", &[], &[], &TALK),
        }
    }
}

/// The command that what is given makes.
#[tactic(auto, unfolding(crate::specs::Table::form_of))]
pub(crate) fn command_with(name: CommandName, matches: &ArgMatches<'_>) -> Command
    ensures { result ≡ (form_of name).command (text_in (given_by matches.now))
        (number_at (given_by matches.now)) }
{
    match name {
        CommandName::Angle => Command::Angle {
            angle: angle_in(matches, FRACTION),
            rounds: number_in(matches, ROUNDS),
            turns: number_in(matches, TURNS),
            workers: number_in(matches, WORKERS),
            scale: number_in(matches, SCALE),
        },
        CommandName::Degree => Command::Degree {
            degree: number_in(matches, DEGREE),
            angle: angle_in(matches, FRACTION),
            rounds: number_in(matches, ROUNDS),
            turns: number_in(matches, TURNS),
            workers: number_in(matches, WORKERS),
            scale: number_in(matches, SCALE),
        },
        CommandName::Show => Command::Show {
            angle: angle_in(matches, FRACTION),
        },
        CommandName::Replay => Command::Replay {
            angle: angle_in(matches, FRACTION),
            rounds: number_in(matches, ROUNDS),
            scale: number_in(matches, SCALE),
        },
        CommandName::Check => Command::Check,
        CommandName::Upgrade => Command::Upgrade,
        CommandName::Part => Command::Part {
            order: number_in(matches, ORDER),
            from: number_in(matches, FROM),
            to: number_in(matches, TO),
            rounds: number_in(matches, ROUNDS),
            turns: number_in(matches, TURNS),
            workers: number_in(matches, WORKERS),
            scale: number_in(matches, SCALE),
        },
        CommandName::Merge => Command::Merge,
        CommandName::Compare => Command::Compare {
            first: angle_in(matches, FIRST),
            second: angle_in(matches, SECOND),
            rounds: number_in(matches, ROUNDS),
            scale: number_in(matches, SCALE),
        },
        CommandName::Atlas => Command::Atlas {
            order: number_in(matches, ORDER),
            rounds: number_in(matches, ROUNDS),
            scale: number_in(matches, SCALE),
        },
        CommandName::Probe => Command::Probe {
            start: number_in(matches, START),
            count: number_in(matches, COUNT),
            rounds: number_in(matches, ROUNDS),
            scale: number_in(matches, SCALE),
        },
        CommandName::Map => Command::Map {
            order: number_in(matches, ORDER),
            rounds: number_in(matches, ROUNDS),
            turns: number_in(matches, TURNS),
            workers: number_in(matches, WORKERS),
            scale: number_in(matches, SCALE),
        },
        CommandName::Watch => Command::Watch {
            angle: angle_in(matches, FRACTION),
            rounds: number_in(matches, ROUNDS),
            turns: number_in(matches, TURNS),
            workers: number_in(matches, WORKERS),
            sessions: number_in(matches, SESSIONS),
            reads: number_in(matches, READS),
            scale: number_in(matches, SCALE),
        },
        CommandName::Desk => Command::Desk {
            rounds: number_in(matches, ROUNDS),
            workers: number_in(matches, WORKERS),
            scale: number_in(matches, SCALE),
        },
    }
}
