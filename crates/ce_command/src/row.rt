// A row of words: what the table of the commands has for each.
ghost use Rattle.std.specs.Prelude.{◌≡◌};

use crate::options::NumberOption;

/// The words of a command: its name, its positional words, those of them that are numbers, and its
/// options.
#[derive(Clone, Copy, Debug)]
pub(crate) struct Row<'a> {
    pub name: &'a str,
    pub positionals: &'a [&'a str],
    pub numbers: &'a [NumberOption],
    pub options: &'a [NumberOption],
}

impl<'a> Row<'a> {
    /// The row of these words.
    pub(crate) fn of(
        name: &'a str,
        positionals: &'a [&'a str],
        numbers: &'a [NumberOption],
        options: &'a [NumberOption],
    ) -> Self
        ensures name { result.name.now ≡ name.now }
        ensures positionals { result.positionals.now ≡ positionals.now }
        ensures numbers { result.numbers.now ≡ numbers.now }
        ensures options { result.options.now ≡ options.now }
    {
        Row {
            name,
            positionals,
            numbers,
            options,
        }
    }
}
