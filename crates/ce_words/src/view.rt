// What a seat knows. Only `Part` has values at run time: the other types are ghost state.
use ce_rows::{Interval, LogEntry, Row};
use std::collections::LinkedList;

/// The entries from `from` up to but without `to`.
#[derive(Clone, Copy, Debug, PartialEq, Eq, Drop)]
pub struct Part {
    pub from: u32,
    pub to: u32,
}

/// The start of a run: rows with the exponent of their scale, ranks, the vector's start and the
/// initial enclosure.
pub struct Run {
    pub rows: LinkedList<Row>,
    pub exponent: u32,
    pub ranks: LinkedList<u32>,
    pub start: LinkedList<u64>,
    pub initial: Interval,
}

/// A part with the log of its owner.
pub struct Place {
    pub part: Part,
    pub log: LinkedList<LogEntry>,
}

/// A board's first seat, a seat that was split off, or what is left of a joined one.
pub enum Role {
    First,
    Other,
    Spent,
}

/// A seat's ghost state.
pub struct View {
    pub run: Run,
    pub role: Role,
    pub place: Place,
    /// The places of the seats that were joined, in the order of their joining.
    pub joined: LinkedList<Place>,
    /// How many seats were split off and not joined.
    pub out: u64,
}

/// A thread's token for the steps on a board. It has no byte; its ghost state is its view.
pub type Seat = atomic_table::Seat<(), View>;
