// The checker of map files.
//
// In come the bytes of a file; out comes that it is a good map, with the number of its items, or
// its first flaw and the line of it. Rows are computed anew from each angle and the certificate is
// multiplied out, so nothing is searched, iterated or believed. Main fact: `check_map` accepts
// exactly the good maps (`IsVerdict` with the laws `good_maps_have_no_flaw` and
// `maps_have_one_verdict`), and what is accepted encloses (`good_maps_enclose`).
#![tactic(auto)]

mod checking;
mod item;
mod laws;
mod room;
#[cfg(test)]
mod tests;
mod verdict;

pub use checking::check_map;
pub use item::{ItemFlaw, angle_of, check_item};
pub use laws::{
    each_text_has_a_verdict, good_maps_enclose, good_maps_have_no_flaw, items_have_one_verdict,
    maps_have_one_verdict,
};
pub use room::CheckRoom;
pub use verdict::{Cause, Verdict};
