// The words of a command, read by the crate `clap`.
//
// A list of words comes in, and the command that they mean goes out, or that they mean none. What
// words mean is the definition `command_of` (specs/Meaning.antt) over one table of commands
// (specs/Table.antt). The main fact is `read_words`'s: it answers exactly that command, or `Usage`
// exactly where there is none.
#![tactic(auto)]

mod command;
mod laws;
mod options;
mod parsing;
mod row;
#[cfg(test)]
mod tests;
mod words;

pub use command::Command;
pub use laws::{
    commands_are_limited, plain_words_mean_what_they_spell, positional_words_are_there,
    words_are_no_command_for_a_cause,
};
pub use words::{WordsError, read_words};
