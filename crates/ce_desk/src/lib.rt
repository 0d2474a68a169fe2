// A desk: a standing crew for up to 16 angles, and a session that answers lines beside it.
//
// Lines come in, and a reply to each goes out before the next is read; at the end the closing lines
// follow. The main fact is `serve`'s (serving.rt): what it wrote is the text of a desk for the
// lines that it took (specs/DeskText.antt), whole or a prefix of it, by the way that it ended
// (specs/Served.antt). The law of laws.rt says that each interval in such a text is true. The way
// of a line: opening.rt, then session.rt beside crew.rt, then closing.rt.
#![tactic(auto)]

mod actor;
mod case;
mod cause;
mod closing;
mod crew;
mod laws;
#[cfg(test)]
mod meeting_tests;
mod opening;
mod owners;
mod replies;
mod serving;
mod session;
mod settings;
mod talk;
#[cfg(test)]
mod tests;

pub use actor::Actor;
pub use case::{Case, SlotSeat};
pub use cause::Cause;
pub use closing::Closing;
pub use crew::Crew;
pub use laws::desks_tell_truly;
pub use serving::{DeskEnd, DeskStop, serve};
pub use session::Session;
pub use settings::DeskSettings;
pub use talk::{Fault, Talk, TalkEnd};
