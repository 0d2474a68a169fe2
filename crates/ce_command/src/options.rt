// Options, and the positional words of commands.
ghost use Rattle.std.specs.Prelude.{◌≡◌};
ghost use Rattle.ce_command.specs.Options.{number_in, small_number};

use ce_angle::number;
use ce_rows::Scale;

/// The numbers that an option takes.
#[derive(Clone, Copy, Debug, PartialEq, Eq)]
pub(crate) enum Numbers {
    Between { least: u32, most: u32 },
    /// The exponents of the scales.
    Exponents,
}

/// An option that takes a number.
#[derive(Clone, Copy, Debug, PartialEq, Eq)]
pub(crate) struct NumberOption {
    pub name: &'static str,
    /// The number where the option is not given.
    pub default: u32,
    pub numbers: Numbers,
}

pub(crate) const ROUNDS: NumberOption = NumberOption {
    name: "rounds",
    default: 36,
    numbers: Numbers::Between { least: 0, most: 36 },
};

pub(crate) const TURNS: NumberOption = NumberOption {
    name: "turns",
    default: 400,
    numbers: Numbers::Between {
        least: 0,
        most: 100_000,
    },
};

pub(crate) const WORKERS: NumberOption = NumberOption {
    name: "workers",
    default: 2,
    numbers: Numbers::Between { least: 1, most: 16 },
};

pub(crate) const SESSIONS: NumberOption = NumberOption {
    name: "sessions",
    default: 1,
    numbers: Numbers::Between { least: 1, most: 8 },
};

pub(crate) const READS: NumberOption = NumberOption {
    name: "reads",
    default: 10,
    numbers: Numbers::Between {
        least: 1,
        most: 1000,
    },
};

pub(crate) const SCALE: NumberOption = NumberOption {
    name: "scale",
    default: 32,
    numbers: Numbers::Exponents,
};

/// The number of the first angle of a probe, and how many angles it has.
pub(crate) const START: NumberOption = NumberOption {
    name: "start",
    default: 0,
    numbers: Numbers::Between {
        least: 0,
        most: 1_000_000_000,
    },
};

pub(crate) const COUNT: NumberOption = NumberOption {
    name: "count",
    default: 1,
    numbers: Numbers::Between {
        least: 1,
        most: 10_000,
    },
};

/// The degree of a polynomial.
pub(crate) const DEGREE: NumberOption = NumberOption {
    name: "degree",
    default: 2,
    numbers: Numbers::Between { least: 2, most: 16 },
};

/// The places of a list that a part is of: the first, and the one after the last. The list decides
/// which there are.
pub(crate) const FROM: NumberOption = NumberOption {
    name: "from",
    default: 0,
    numbers: Numbers::Between {
        least: 0,
        most: 4_294_967_295,
    },
};

pub(crate) const TO: NumberOption = NumberOption {
    name: "to",
    default: 0,
    numbers: Numbers::Between {
        least: 0,
        most: 4_294_967_295,
    },
};

/// The greatest denominator of the angles of a map.
pub(crate) const ORDER: NumberOption = NumberOption {
    name: "order",
    default: 1,
    numbers: Numbers::Between {
        least: 1,
        most: 128,
    },
};

/// The options of a command that runs workers.
pub(crate) const RUN: [NumberOption; 4] = [ROUNDS, TURNS, WORKERS, SCALE];

/// The options of a command that runs workers with sessions that look on.
pub(crate) const LOOK: [NumberOption; 6] = [ROUNDS, TURNS, WORKERS, SESSIONS, READS, SCALE];

/// The options of a desk, whose lines say the turns.
pub(crate) const TALK: [NumberOption; 3] = [ROUNDS, WORKERS, SCALE];

/// The options of a command without turns.
pub(crate) const STILL: [NumberOption; 2] = [ROUNDS, SCALE];

/// The positional word of an angle.
pub(crate) const FRACTION: &str = "fraction";

/// The positional words of two angles.
pub(crate) const FIRST: &str = "first";

pub(crate) const SECOND: &str = "second";

impl Numbers {
    /// The number that a text writes, where it is one of these.
    pub(crate) fn read(self, text: &str) -> Option<u32>
        ensures { result ≡ number_in self text.now }
    {
        match self {
            Numbers::Between { least, most } => {
                small(text).filter(|number| least <= *number && *number <= most)
            }
            Numbers::Exponents => small(text).filter(|number| Scale::new(*number).is_some()),
        }
    }
}

// The number that a text types, where it has 32 bits.
fn small(text: &str) -> Option<u32>
    ensures { result ≡ small_number text.now }
{
    match number(text.as_bytes()) {
        Some(number) => u32::try_from(number).ok(),
        None => None,
    }
}
