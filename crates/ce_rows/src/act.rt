// What a step of a run does.

/// An event without its actor: what one atomic step does to the shared state. Contracts of the
/// shared state speak of acts, since no thread there has a number.
#[derive(Clone, Copy, Debug, PartialEq, Eq)]
pub enum Act {
    /// Loads an entry.
    Loads(u32),
    /// Stores the relaxed value of an entry.
    Relaxes(u32),
    /// Stores the rescaled value of an entry.
    Shrinks(u32),
    /// Loads the low bound.
    LoadsLow,
    /// Loads the high bound.
    LoadsHigh,
    /// Raises the low bound to a number, if that is greater.
    Raises,
    /// Lowers the high bound to a number, if that is less.
    Lowers,
    /// Loads the greatest number of rescalings that was asked for.
    LoadsShift,
    /// Raises it to a number, if that is greater.
    Asks,
    /// Loads the stop word.
    LoadsStop,
    /// Sets the stop word.
    Stops,
}

/// One step in the log of an actor: the act, the number that it carried there (0 where it carries
/// none), and its answer.
#[derive(Clone, Copy, Debug, PartialEq, Eq)]
pub struct LogEntry {
    pub act: Act,
    pub carried: u64,
    pub answer: u64,
}
