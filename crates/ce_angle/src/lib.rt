// The rational external angles: fractions of a turn in lowest terms, from 0 up to but without 1.
//
// Text or two numbers come in, and an `Angle` or the first reason why there is none goes out. The
// main fact is `Angle::parse`'s: its answer is a function of the text, `angle_of_text`. `number`
// reads one number alone.
#![tactic(auto)]

mod angle;
mod farey;
mod laws;
mod order;
mod reading;
mod spelling;
#[cfg(test)]
mod tests;

pub use angle::{Angle, AngleError};
pub use farey::Farey;
pub use laws::{
    angles_are_the_given_numbers, angles_up_to_an_order_are_one_list, lowest_terms_are_unique,
    spelled_angles_read_back,
};
pub use reading::number;
