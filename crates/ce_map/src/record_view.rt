// An item of a map, as a view of its bytes.
ghost use Rattle.std.specs.Prelude.{◌≡◌, ◌≢◌, ◌∷◌, ◌++◌, ℕ, List, IfSome, IfNone, IfOk, codes};
ghost use Rattle.std.specs.Result.{IfErr};
ghost use Rattle.std.specs.Fmt.{decimal};
ghost use Rattle.ce_map.specs.BaseInside.{radix_of};
ghost use Rattle.ce_map.specs.Digits.{IsNumber, numbers_text};
ghost use Rattle.ce_map.specs.Grammar.{IsList, base_of};
ghost use Rattle.ce_map.specs.ItemsInside.{IsNamedListAt, IsLowAt, IsItemAt, IsUnfitItem};

use crate::Numbers;
use crate::digits::{Base, number};
use crate::fields::word;
use crate::lines::angle_line;
use crate::numbers::{front_of, list};

/// An item as it is written: its first line, its place, its text, its numbers and its lists. The
/// numbers are below 2^62; low and high are in units of 1/S.
#[derive(Clone, Copy, Debug, PartialEq, Eq)]
pub struct RecordView<'a> {
    pub line: u64,
    pub from: usize,
    pub text: &'a [u8],
    pub num: u64,
    pub den: u64,
    pub low: u64,
    pub high: u64,
    pub low_rank: u64,
    pub ranks: Numbers<'a>,
    pub low_vector: Numbers<'a>,
    pub high_vector: Numbers<'a>,
}

// The base of the entries of vectors.
fn entry_base(version: u32) -> Base
    ensures { radix_of result ≡ base_of version }
{
    if version == 1 {
        Base::Ten
    } else {
        Base::Sixteen
    }
}

// A name and a list with the line feed after it, at the front of a text, and what is left.
fn named_list<'a>(text: &'a [u8], name: &[u8], base: Base) -> Option<(Numbers<'a>, &'a [u8])>
    ensures found { IfSome result
        (λ r. IsNamedListAt name.now (radix_of base) text.now r.0 r.1.now) }
    ensures none { IfNone result ((numbers rest : List ℕ) → IsList numbers
        → text.now ≢ name.now ++ (numbers_text (radix_of base) numbers ++ 10 ∷ rest)) }
{
    list(word(text, name)?, base)
}

// The third line of an item at the front of a text: the low rank, the low vector, and what is left.
fn low_line(text: &[u8], base: Base) -> Option<(u64, Numbers<'_>, &[u8])>
    ensures found { IfSome result
        (λ r. IsLowAt (codes "low ") (radix_of base) text.now r.0 r.1 r.2.now) }
    ensures none { IfNone result ((rank : ℕ) (numbers rest : List ℕ) → IsNumber rank
        → IsList numbers → text.now ≢ codes "low "
        ++ (decimal rank ++ (numbers_text (radix_of base) numbers ++ 10 ∷ rest))) }
{
    let rest = word(text, b"low ")?;
    let (low_rank, rest) = number(rest, 10)?;
    let (numbers, rest) = list(rest, base)?;
    Some((low_rank, numbers, rest))
}

/// The item of a version at the front of a text, and what is left, or how many of its lines fit. It
/// stands at a line and a place of the file.
pub(crate) fn item_view(
    text: &[u8],
    version: u32,
    line: u64,
    from: usize,
) -> Result<(RecordView<'_>, &[u8]), u64>
    ensures found { IfOk result (λ r. IsItemAt version text.now line from r.0 r.1.now) }
    ensures none { IfErr result (IsUnfitItem version text.now) }
{
    let base = entry_base(version);
    let Some((first, rest)) = angle_line(text) else {
        return Err(0);
    };
    let Some((ranks, rest)) = named_list(rest, b"ranks", Base::Ten) else {
        return Err(1);
    };
    let Some((low_rank, low_vector, rest)) = low_line(rest, base) else {
        return Err(2);
    };
    let Some((high_vector, rest)) = named_list(rest, b"high", base) else {
        return Err(3);
    };
    let view = RecordView {
        line,
        from,
        text: front_of(text, text.len() - rest.len()),
        num: first.num,
        den: first.den,
        low: first.low,
        high: first.high,
        low_rank,
        ranks,
        low_vector,
        high_vector,
    };
    Ok((view, rest))
}
