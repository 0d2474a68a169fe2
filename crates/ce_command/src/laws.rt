// What is true of all words. Each law stands on a function that does nothing.
ghost use Rattle.std.specs.Prelude.{◌≡◌, ◌⊎◌, ◌↔◌, Contains, IsSome, IsTrue, List, [], ℕ, None};
ghost use Rattle.std.specs.Prelude.{Some};
ghost use Rattle.clap.specs.Words.{fault_of, takes};
ghost use Rattle.ce_command.specs.Meaning.{AreFaulty, GiveBadNumber, NameNone, command_from};
ghost use Rattle.ce_command.specs.Meaning.{command_of, given_to};
ghost use Rattle.ce_command.specs.Plain.{IsPlain, PlainWords, given_plainly, spelled};
ghost use Rattle.ce_command.specs.Table.{IsWithinLimits, app_named, form_of};
ghost use Rattle.ce_command.specs.declared.command.Command.{Command};
ghost use Rattle.ce_command.specs.declared.command.CommandName.{CommandName};

/// Words are no command exactly where they name none, where `clap` finds a fault in them, and where
/// a number is out of form or range.
pub fn words_are_no_command_for_a_cause()
    ensures { (words : List (List ℕ)) → (command_of words ≡ None)
        ↔ (NameNone words ⊎ AreFaulty words ⊎ GiveBadNumber words) }
{}

/// Words in plain form mean what they spell, and `clap` takes them.
pub fn plain_words_mean_what_they_spell()
    ensures means { (name : CommandName) (plain : PlainWords) → IsPlain (form_of name) plain
        → command_of (spelled (form_of name) plain)
        ≡ command_from (form_of name) (given_plainly (form_of name) plain) }
    ensures taken { (name : CommandName) (plain : PlainWords) → IsPlain (form_of name) plain
        → IsTrue (takes (app_named name) (spelled (form_of name) plain)) }
{}

/// The numbers of a command are within their limits.
pub fn commands_are_limited()
    ensures { (words : List (List ℕ)) (command : Command) → command_of words ≡ Some command
        → IsWithinLimits command }
{}

/// Where `clap` finds no fault in words, each positional word is there.
pub fn positional_words_are_there()
    ensures { (name : CommandName) (words : List (List ℕ)) (id : List ℕ)
        → fault_of (app_named name) words ≡ []
        → Contains (form_of name).positionals id → IsSome (given_to name words id) }
{}
