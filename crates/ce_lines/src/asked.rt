// What a line asks of a desk.
ghost use Rattle.std.specs.Prelude.{◌≡◌, ◌≢◌, true, false, ◌++◌, ◌∷◌, ℕ, List, codes};
ghost use Rattle.std.specs.Prelude.{min};
ghost use Rattle.std.specs.Char.{is_ascii_digit};
ghost use Rattle.std.specs.List.{list_all};
ghost use Rattle.std.specs.Option.{IfSome, IfNone};
ghost use Rattle.ce_angle.specs.Cuts.{Lacks};
ghost use Rattle.ce_lines.specs.Asks.{is_numeral, Spells, IsGrant, IsFormless, Asks};

use ce_angle::{Angle, AngleError};

/// What a line asks.
#[derive(Clone, Copy, Debug, PartialEq, Eq)]
pub enum Asked {
    /// An angle, as its word is read, is to be opened, and its worker is granted so many turns.
    Open {
        angle: Result<Angle, AngleError>,
        turns: u32,
    },
    /// The interval of a slot. The greatest number stands for all greater ones too.
    Read {
        slot: u32,
    },
    Quit,
}

// The most turns that are granted.
const MOST_TURNS: u32 = 100_000;

// The parts of a text before and after the first space.
fn split_at_space(text: &[u8]) -> Option<(&[u8], &[u8])>
    ensures whole { IfSome result (λ parts. text.now ≡ parts.0.now ++ 32 ∷ parts.1.now) }
    ensures first { IfSome result (λ parts. Lacks 32 parts.0.now) }
    ensures none { IfNone result (Lacks 32 text.now) }
{
    let place = text.iter().position(|byte| *byte == b' ')?;
    Some((&text[..place], &text[place + 1..]))
}

// Whether each byte is a digit.
fn is_digits(text: &[u8]) -> bool
    ensures { result ≡ list_all is_ascii_digit text.now }
{
    text.iter().all(|byte| byte.is_ascii_digit())
}

// Whether a text is digits without a leading zero.
fn is_number(text: &[u8]) -> bool
    ensures { result ≡ is_numeral text.now }
{
    let len = text.len();
    if len == 0 {
        return false;
    }
    if len > 1 && text[0] == b'0' {
        return false;
    }
    is_digits(text)
}

// The number that a text spells, or `most` where it is greater.
fn number_up_to(text: &[u8], most: u32) -> Option<u32>
    ensures spelled { IfSome result
        (λ number. (value : ℕ) × Spells text.now value × (number ≡ min value most)) }
    ensures none { IfNone result ((value : ℕ) → Spells text.now value → ⊥) }
{
    if !is_number(text) {
        return None;
    }
    let mut value: u64 = 0;
    for byte in text {
        value = (value * 10 + u64::from(*byte - b'0')).min(u64::from(most));
    }
    Some(value as u32)
}

// What stands after `open `.
fn open_of(text: &[u8]) -> Option<Asked>
    ensures open { IfSome result (λ asked. Asks (codes "open " ++ text.now) asked) }
    ensures none { IfNone result ((word : List ℕ) (turns : ℕ) → IsGrant text.now word turns → ⊥) }
{
    let (word, number) = split_at_space(text)?;
    if word.is_empty() {
        return None;
    }
    let turns = number_up_to(number, MOST_TURNS + 1)?;
    if turns > MOST_TURNS {
        return None;
    }
    Some(Asked::Open {
        angle: Angle::parse(word),
        turns,
    })
}

// What stands after `read `.
fn read_of(text: &[u8]) -> Option<Asked>
    ensures read { IfSome result (λ asked. Asks (codes "read " ++ text.now) asked) }
    ensures none { IfNone result ((slot : ℕ) → Spells text.now slot → ⊥) }
{
    let slot = number_up_to(text, u32::MAX)?;
    Some(Asked::Read { slot })
}

// Whether a text is a word.
fn is_word(text: &[u8], word: &[u8]) -> bool
    ensures yes { result ≡ true → text.now ≡ word.now }
    ensures no { result ≡ false → text.now ≢ word.now }
{
    text == word
}

// What a line of two words or more asks.
fn asked_by(name: &[u8], rest: &[u8]) -> Option<Asked>
    requires { Lacks 32 name.now }
    ensures some { IfSome result (λ asked. Asks (name.now ++ 32 ∷ rest.now) asked) }
    ensures none { IfNone result (IsFormless (name.now ++ 32 ∷ rest.now)) }
{
    if is_word(name, b"open") {
        open_of(rest)
    } else if is_word(name, b"read") {
        read_of(rest)
    } else {
        None
    }
}

/// What a line asks, without its line feed.
pub(crate) fn asked_of(line: &[u8]) -> Option<Asked>
    ensures some { IfSome result (λ asked. Asks line.now asked) }
    ensures none { IfNone result (IsFormless line.now) }
{
    if is_word(line, b"quit") {
        return Some(Asked::Quit);
    }
    let (name, rest) = split_at_space(line)?;
    asked_by(name, rest)
}
