// Lists of angles: classes with one kneading sequence, and one answer for each angle of a list.
//
// Angles come in, and numbers of classes or answers go out, in the list's order. Angles with one
// kneading sequence have the same rows, so one run serves the class: `solve_classes` gives a
// solution a class, by the clause `solved`, and `solve_list` an answer an angle, by `answers`.
// `sweep` does it for all angles up to an order, and `solve_probe` for those of a probe.
#![tactic(auto)]

mod angle_list;
mod answers;
mod class_numbers;
mod kneading_keys;
mod laws;
mod numbering;
mod probe_list;
#[cfg(test)]
mod tests;

pub use angle_list::angles_up_to;
pub use answers::{Solutions, solve_classes, solve_list, solve_probe, solve_short_classes, sweep};
pub use class_numbers::classes;
pub use laws::classes_are_determined;
pub use numbering::Classes;
pub use probe_list::probe_angles;
