// Events of a run.
ghost use Rattle.std.specs.Prelude.{◌≡◌};

use crate::Act;

/// One atomic step of an actor of a run. Loads, relaxations and rescalings name an entry of the
/// vector; the others name a word that the actors share.
#[derive(Clone, Copy, Debug, PartialEq, Eq)]
pub enum Event {
    /// Loads an entry into the actor's copy.
    Load { actor: u32, entry: u32 },
    /// Stores the relaxed value of an entry.
    Relax { actor: u32, entry: u32 },
    /// Stores the rescaled value of an entry.
    Shrink { actor: u32, entry: u32 },
    /// Loads the low bound.
    Low { actor: u32 },
    /// Loads the high bound.
    High { actor: u32 },
    /// Raises the low bound to the one of the actor's copy, if that is greater.
    Raise { actor: u32 },
    /// Lowers the high bound to the one of the actor's copy, if that is less.
    Lower { actor: u32 },
    /// Loads the greatest number of rescalings that was asked for.
    Shift { actor: u32 },
    /// Asks for one rescaling more than the actor last saw asked for.
    Ask { actor: u32 },
    /// Loads the stop word.
    Halted { actor: u32 },
    /// Sets the stop word, where the bounds that the actor last saw are equal.
    Stop { actor: u32 },
}

impl Event {
    ghost use Rattle.ce_rows.specs.Events.{actor_of, act_of};

    /// The actor that takes the step.
    pub fn actor(self) -> u32
        ensures { result ≡ actor_of self }
    {
        match self {
            Event::Load { actor, .. }
            | Event::Relax { actor, .. }
            | Event::Shrink { actor, .. }
            | Event::Low { actor }
            | Event::High { actor }
            | Event::Raise { actor }
            | Event::Lower { actor }
            | Event::Shift { actor }
            | Event::Ask { actor }
            | Event::Halted { actor }
            | Event::Stop { actor } => actor,
        }
    }

    /// What the step does.
    pub fn act(self) -> Act
        ensures { result ≡ act_of self }
    {
        match self {
            Event::Load { entry, .. } => Act::Loads(entry),
            Event::Relax { entry, .. } => Act::Relaxes(entry),
            Event::Shrink { entry, .. } => Act::Shrinks(entry),
            Event::Low { .. } => Act::LoadsLow,
            Event::High { .. } => Act::LoadsHigh,
            Event::Raise { .. } => Act::Raises,
            Event::Lower { .. } => Act::Lowers,
            Event::Shift { .. } => Act::LoadsShift,
            Event::Ask { .. } => Act::Asks,
            Event::Halted { .. } => Act::LoadsStop,
            Event::Stop { .. } => Act::Stops,
        }
    }
}
