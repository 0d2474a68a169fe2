// A list of words as a command.
ghost use Rattle.std.specs.Prelude.{◌≡◌, IfOk, IsTrue, Ok, Err, None, Some, map, string_bytes};
ghost use Rattle.ce_command.specs.Meaning.{AreGood, command_of, has_good_numbers};
ghost use Rattle.ce_command.specs.Plain.{IsPlain, PlainWords, given_plainly, spelled};
ghost use Rattle.ce_command.specs.ReadingInside.{MeansBy};
ghost use Rattle.ce_command.specs.Table.{IsWithinLimits, form_of};
ghost use Rattle.ce_command.specs.declared.command.CommandName.{CommandName};

use crate::command::{Command, CommandName, command_with};
use crate::parsing::{has_numbers, matched};
use std::alloc::Global;

/// Why words are not read.
#[derive(Clone, Copy, Debug, PartialEq, Eq)]
pub enum WordsError {
    /// They are no command.
    Usage,
    NoMemory,
}

// Words as a command of this name.
fn command_named(alloc: Global, name: CommandName, words: &[String]) -> Result<Command, WordsError>
    ensures { MeansBy (form_of name) (map string_bytes words.now) result }
{
    let row = name.row();
    let matches = matched(alloc, name, words)?;
    if has_numbers(&matches, row.numbers) && has_numbers(&matches, row.options) {
        Ok(command_with(name, &matches))
    } else {
        Err(WordsError::Usage)
    }
}

/// The command that words mean. The first word names it.
pub fn read_words(alloc: Global, words: &[String]) -> Result<Command, WordsError>
    ensures command { IfOk result
        (λ command. command_of (map string_bytes words.now) ≡ Some command) }
    ensures usage { result ≡ Err WordsError.Usage → command_of (map string_bytes words.now) ≡ None }

    // Words that `clap` takes, and words in plain form, are a command where each number is in form
    // and in range.
    ensures taken { AreGood (map string_bytes words.now) → ¬ (result ≡ Err WordsError.Usage) }
    ensures plain { (name : CommandName) (plain : PlainWords)
        → map string_bytes words.now ≡ spelled (form_of name) plain → IsPlain (form_of name) plain
        → IsTrue (has_good_numbers (form_of name) (given_plainly (form_of name) plain))
        → ¬ (result ≡ Err WordsError.Usage) }

    ensures limits { IfOk result IsWithinLimits }
{
    let Some(first) = words.first() else {
        return Err(WordsError::Usage);
    };
    match CommandName::of(first.as_str()) {
        Some(name) => command_named(alloc, name, words),
        None => Err(WordsError::Usage),
    }
}
