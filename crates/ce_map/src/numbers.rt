// Lists of numbers.
ghost use Rattle.std.specs.Prelude.{◌≡◌, ◌≢◌, ◌≤◌, ℕ, List, [], ◌∷◌, ◌++◌, length, take, Some};
ghost use Rattle.std.specs.Prelude.{None, IfSome, IfNone, MatchOption};
ghost use Rattle.ce_map.specs.BaseInside.{radix_of};
ghost use Rattle.ce_map.specs.Digits.{numbers_text};
ghost use Rattle.ce_map.specs.DigitsInside.{number_front};
ghost use Rattle.ce_map.specs.Grammar.{IsList};
ghost use Rattle.ce_map.specs.Lists.{IsListOf, list_text};
ghost use Rattle.ce_map.specs.ListsInside.{IsListAt, begins_with};

use crate::digits::{Base, number, rest_of};

/// The numbers of one list that are left, read one after another from the text of an item.
#[derive(Clone, Copy, Debug, PartialEq, Eq)]
pub struct Numbers<'a> {
    text: &'a [u8],
    base: Base,
    count: usize,
}

impl<'a> Numbers<'a> {
    /// The numbers that are left as they are written, with a space before each.
    pub fn text(&self) -> &'a [u8]
        ensures { result.now ≡ list_text self.now }
    {
        self.text
    }

    /// How many numbers are left.
    pub fn count(&self) -> usize
        ensures { (base : ℕ) (list : List ℕ) → IsListOf base list self.now → result ≡ length list }
    {
        self.count
    }

    /// The next number, or none for ever.
    #[inline(always)]
    pub fn next(&mut self) -> Option<u64>
        ensures some { (base n : ℕ) (list : List ℕ) → IsListOf base (n ∷ list) self.old
            → result ≡ Some n }
        ensures rest { (base n : ℕ) (list : List ℕ) → IsListOf base (n ∷ list) self.old
            → IsListOf base list self.new }
        ensures none { (base : ℕ) → IsListOf base [] self.old → result ≡ None }
        ensures ended { (base : ℕ) → IsListOf base [] self.old → IsListOf base [] self.new }
    {
        if self.count == 0 || !begins_with(self.text, b' ') {
            return None;
        }
        let (value, rest) = number_in(rest_of(self.text, 1), self.base)?;
        self.text = rest;
        self.count -= 1;
        Some(value)
    }
}

// Whether a byte stands at the front.
#[inline(always)]
fn begins_with(text: &[u8], byte: u8) -> bool
    ensures { result ≡ begins_with byte text.now }
{
    match text {
        [] => false,
        [first, ..] => *first == byte,
    }
}

// The first bytes of a text, so many.
#[inline(always)]
pub(crate) fn front_of(text: &[u8], count: usize) -> &[u8]
    requires { count ≤ length text.now }
    ensures { result.now ≡ take count text.now }
{
    &text[..count]
}

// The number at the front of a text, and what is left. Each base has code of its own, since a
// product by a known number is faster.
#[inline(always)]
fn number_in(text: &[u8], base: Base) -> Option<(u64, &[u8])>
    ensures { MatchOption result (number_front (radix_of base) text.now ≡ None)
        (λ r. number_front (radix_of base) text.now ≡ Some (r.0, r.1.now)) }
{
    match base {
        Base::Ten => number(text, 10),
        Base::Sixteen => number(text, 16),
    }
}

/// A list with the line feed after it, at the front of a text, and what is left.
pub(crate) fn list(text: &[u8], base: Base) -> Option<(Numbers<'_>, &[u8])>
    ensures found { IfSome result (λ r. IsListAt (radix_of base) text.now r.0 r.1.now) }
    ensures none { IfNone result ((list rest : List ℕ) → IsList list
        → text.now ≢ numbers_text (radix_of base) list ++ 10 ∷ rest) }
{
    match base {
        Base::Ten => list_in(text, Base::Ten),
        Base::Sixteen => list_in(text, Base::Sixteen),
    }
}

// The same, for a base that is known where it is called.
#[inline(always)]
fn list_in(text: &[u8], base: Base) -> Option<(Numbers<'_>, &[u8])>
    ensures found { IfSome result (λ r. IsListAt (radix_of base) text.now r.0 r.1.now) }
    ensures none { IfNone result ((list rest : List ℕ) → IsList list
        → text.now ≢ numbers_text (radix_of base) list ++ 10 ∷ rest) }
{
    let mut count: usize = 0;
    let mut rest = text;
    while begins_with(rest, b' ') {
        let (_, after) = number(rest_of(rest, 1), base.radix())?;
        count += 1;
        rest = after;
    }
    if count == 0 || !begins_with(rest, b'\n') {
        return None;
    }
    let text = front_of(text, text.len() - rest.len());
    Some((Numbers { text, base, count }, rest_of(rest, 1)))
}
