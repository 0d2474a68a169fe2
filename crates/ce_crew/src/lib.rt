// Workers of the asynchronous iteration: each owns a part of the shared vector, relaxes it turn by
// turn with whatever it finds there, and certifies the bounds of its own copy of the whole vector.
//
// A `Worker` takes a seat of a board and a `WorkRoom`, which has all memory that it needs. What its
// log gains by `Worker::turn` is exactly one turn or one halt (specs/Turn.antt), by its clause
// `made`; `Worker::run` makes all turns that are left. The best vectors that its room keeps are
// those of specs/Best.antt. src/turning.rt names the pieces of a turn.
#![tactic(auto)]

#[cfg(test)]
mod boards;
mod certifying;
mod loading;
mod opening;
mod relaxing;
mod rescaling;
mod room;
#[cfg(test)]
mod tests;
mod turning;
mod worker;

pub use room::{WorkEnd, WorkRoom};
pub use worker::{TurnEnd, Worker};
