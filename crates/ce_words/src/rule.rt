// What the table of words is told once, and what holds between any two steps on it.
ghost use Rattle.ce_words.specs.Invariant.{HoldsInvariant};
ghost use Rattle.ce_words.specs.Views.{run_of, opened};

use crate::view::View;
use atomic_table::TableRule;
use ce_rows::{Interval, Rows};
use std::snapshot::Snapshot;

/// What the table is told when it is made.
#[derive(Drop)]
pub struct Key {
    pub(crate) rows: Snapshot<Rows>,
    pub(crate) ranks: Snapshot<Vec<u32>>,
    pub(crate) words: Snapshot<Vec<u64>>,
    pub(crate) initial: Interval,
}

/// The invariant of the shared state, as the rule of the table.
pub struct Rule;

impl TableRule<(), View, Key> for Rule {
    ghost holds = { λ key. HoldsInvariant (run_of key) };

    ghost first = { λ key. opened (run_of key) };
}
