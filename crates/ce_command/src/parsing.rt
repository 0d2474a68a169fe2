// Words by `clap`.
ghost use Rattle.std.specs.Prelude.{◌≡◌, ◌≢◌, IfOk, fold, map, string_bytes};
ghost use Rattle.clap.specs.Words.{app_of, kind_of};
ghost use Rattle.ce_command.specs.Form.{app_with, with_option, with_positional};
ghost use Rattle.ce_command.specs.Options.{number_given, option_form};
ghost use Rattle.ce_angle.specs.Typed.{angle_of_text};
ghost use Rattle.ce_command.specs.Meaning.{are_good, number_at, text_in};
ghost use Rattle.ce_command.specs.ReadingInside.{ReadsBy, given_by};
ghost use Rattle.ce_command.specs.Table.{app_named};

use crate::command::CommandName;
use crate::options::NumberOption;
use crate::words::WordsError;
use ce_angle::{Angle, AngleError};
use clap::error::ErrorKind;
use clap::{Arg, ArgAction, ArgMatches};
use std::alloc::{AllocError, Global};

// A command with positional words, each of which is required.
fn with_positionals<'a>(
    alloc: Global,
    mut command: clap::Command<'a>,
    positionals: &[&'a str],
) -> Result<clap::Command<'a>, AllocError>
    ensures { IfOk result (λ now. app_of now
        ≡ fold with_positional (app_of command.entry) (map (λ id. id.now) positionals.now)) }
{
    for id in positionals {
        let positional = Arg::new(alloc, *id).required(true).action(ArgAction::Set);
        command = command.arg(positional)?;
    }
    Ok(command)
}

// A command with options, each of which takes one value.
fn with_options<'a>(
    alloc: Global,
    mut command: clap::Command<'a>,
    options: &[NumberOption],
) -> Result<clap::Command<'a>, AllocError>
    ensures { IfOk result (λ now. app_of now
        ≡ fold with_option (app_of command.entry) (map option_form options.now)) }
{
    for option in options {
        let argument = Arg::new(alloc, option.name)
            .long(option.name)
            .action(ArgAction::Set);
        command = command.arg(argument)?;
    }
    Ok(command)
}

// What `clap` is told of a command with these words and options. None of the flags of `clap` itself
// is there.
fn described<'a>(
    alloc: Global,
    name: &'a str,
    positionals: &[&'a str],
    options: &[NumberOption],
) -> Result<clap::Command<'a>, AllocError>
    ensures { IfOk result (λ command. app_of command
        ≡ app_with name.now (map (λ id. id.now) positionals.now) (map option_form options.now)) }
{
    let bare = clap::Command::new(alloc, name)
        .disable_help_flag(true)
        .disable_version_flag(true);
    let command = with_positionals(alloc, bare, positionals)?;
    with_options(alloc, command, options)
}

// What `clap` is told of a command.
fn description<'a>(alloc: Global, name: CommandName) -> Result<clap::Command<'a>, AllocError>
    ensures { IfOk result (λ command. app_of command ≡ app_named name) }
{
    let row = name.row();
    described(alloc, row.name, row.positionals, row.options)
}

// What an error of `clap` comes to.
fn refusal(error: &clap::Error) -> WordsError
    ensures usage { result ≡ WordsError.Usage → kind_of error.now ≢ ErrorKind.OutOfMemory }
    ensures memory { result ≡ WordsError.NoMemory → kind_of error.now ≡ ErrorKind.OutOfMemory }
{
    match error.kind() {
        ErrorKind::OutOfMemory => WordsError::NoMemory,
        _ => WordsError::Usage,
    }
}

/// Reads words, the first of which is the command's name.
pub(crate) fn matched<'a>(
    alloc: Global,
    name: CommandName,
    words: &'a [String],
) -> Result<ArgMatches<'a>, WordsError>
    ensures { ReadsBy (app_named name) (map string_bytes words.entry.now) result }
{
    let Ok(command) = description(alloc, name) else {
        return Err(WordsError::NoMemory);
    };
    match command.try_get_matches_from(words) {
        Ok(matches) => Ok(matches),
        Err(error) => Err(refusal(&error)),
    }
}

// The text of a positional word. `clap` reads no words without it.
fn text_of<'a>(matches: &ArgMatches<'a>, id: &str) -> &'a str
    ensures { result.now ≡ text_in (given_by matches.now) id.now }
{
    matches.get_str(id).unwrap_or("")
}

// The number of an option, where its value is in form and in range.
fn number_of(matches: &ArgMatches<'_>, option: NumberOption) -> Option<u32>
    ensures { result ≡ number_given (given_by matches.now) (option_form option) }
{
    match matches.get_str(option.name) {
        None => Some(option.default),
        Some(text) => option.numbers.read(text),
    }
}

/// Whether each of these numbers is in form and in range, where it is given.
pub(crate) fn has_numbers(matches: &ArgMatches<'_>, options: &[NumberOption]) -> bool
    ensures { result ≡ are_good (given_by matches.now) (map option_form options.now) }
{
    for option in options {
        if number_of(matches, *option).is_none() {
            return false;
        }
    }
    true
}

/// The angle of a positional word.
pub(crate) fn angle_in(matches: &ArgMatches<'_>, id: &str) -> Result<Angle, AngleError>
    ensures { result ≡ angle_of_text (text_in (given_by matches.now) id.now) }
{
    Angle::parse(text_of(matches, id).as_bytes())
}

/// The number of an option, or its usual one where none is given in form and in range.
pub(crate) fn number_in(matches: &ArgMatches<'_>, option: NumberOption) -> u32
    ensures { result ≡ number_at (given_by matches.now) (option_form option) }
{
    number_of(matches, option).unwrap_or(option.default)
}
