// Parts of maps, and their merge.
//
// In come parts one after the other, as many machines made them; out comes one part with the best
// items of each angle, or the first flaw of the bytes and its line. No part is believed: each item
// is checked as `check` does. Main facts: the answer of `merge` is the one that the bytes have
// (`IsAnswer` with the laws `good_parts_have_no_flaw` and `parts_have_one_merge`), and the best
// interval of each angle is kept (`merges_keep_the_best`).
#![tactic(auto)]

mod entry;
mod laws;
mod merged;
mod merging;
mod reading;
#[cfg(test)]
mod tests;
mod writing;

pub use laws::{
    best_intervals_enclose, bytes_are_good_parts_or_have_a_flaw, bytes_have_one_flaw,
    good_parts_have_no_flaw, merges_are_merged, merges_ignore_order_and_repetition,
    merges_keep_the_best, parts_have_one_merge,
};
pub use merged::{MergeCause, Merged};
pub use merging::merge;
