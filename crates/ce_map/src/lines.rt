// The lines with single numbers: a header, the first line of an item, an end.
ghost use Rattle.std.specs.Prelude.{◌≡◌, MatchOption, Some, None, codes};
ghost use Rattle.ce_map.specs.LinesInside.{angle_front, end_front, first_version, header_front};
ghost use Rattle.ce_map.specs.LinesInside.{header_if, second_version, version_front};
ghost use Rattle.ce_map.specs.PartsInside.{part_front};
ghost use Rattle.ce_map.specs.HeadersInside.{header_in};

use crate::fields::{field, word};
use ce_rows::Scale;

// The greatest order of a map, and of one of version 1.
const MOST_ORDER: u64 = 128;

const MOST_ORDER_OF_FIRST: u64 = 64;

// The exponents of the two scales. Version 1 has the first one alone.
const EXPONENT: u64 = 32;

const FINE_EXPONENT: u64 = 48;

/// The numbers of an item's first line.
#[derive(Clone, Copy, Debug, PartialEq, Eq)]
pub(crate) struct AngleLine {
    pub num: u64,
    pub den: u64,
    pub low: u64,
    pub high: u64,
}

/// What a header says.
#[derive(Clone, Copy, Debug, PartialEq, Eq)]
pub(crate) struct HeaderLine {
    pub version: u32,
    pub order: u32,
    pub scale: Scale,
}

/// The first line of an item at the front of a text, and what is left.
#[tactic(auto, unfolding(crate::specs::LinesInside::angle_front, crate::specs::LinesInside::four_front))]
pub(crate) fn angle_line(text: &[u8]) -> Option<(AngleLine, &[u8])>
    ensures { MatchOption result (angle_front text.now ≡ None)
        (λ r. angle_front text.now ≡ Some (r.0, r.1.now)) }
{
    let rest = word(text, b"angle ")?;
    let (num, rest) = field(rest, b"/")?;
    let (den, rest) = field(rest, b" low ")?;
    let (low, rest) = field(rest, b" high ")?;
    let (high, rest) = field(rest, b"\n")?;
    Some((
        AngleLine {
            num,
            den,
            low,
            high,
        },
        rest,
    ))
}

/// An end at the front of a text, and what is left.
#[tactic(auto, unfolding(crate::specs::LinesInside::end_front, crate::specs::LinesInside::one_front))]
pub(crate) fn end_line(text: &[u8]) -> Option<(u64, &[u8])>
    ensures { MatchOption result (end_front text.now ≡ None)
        (λ r. end_front text.now ≡ Some (r.0, r.1.now)) }
{
    let rest = word(text, b"end ")?;
    field(rest, b"\n")
}

// The header with these numbers, if there is one.
#[tactic(auto, unfolding(crate::specs::LinesInside::header_if))]
fn header_of(version: u32, order: u64, exponent: u64, rest: &[u8]) -> Option<(HeaderLine, &[u8])>
    ensures { MatchOption result
        (header_if (record { version = version; order = order; exponent = exponent }) rest.now
        ≡ None)
        (λ r. header_if (record { version = version; order = order; exponent = exponent }) rest.now
        ≡ Some (header_in r.0, r.1.now)) }
{
    let most = if version == 1 {
        MOST_ORDER_OF_FIRST
    } else {
        MOST_ORDER
    };
    if order == 0 || order > most {
        return None;
    }
    if exponent != EXPONENT && !(version == 2 && exponent == FINE_EXPONENT) {
        return None;
    }
    let scale = Scale::new(exponent as u32)?;
    Some((
        HeaderLine {
            version,
            order: order as u32,
            scale,
        },
        rest,
    ))
}

// What follows the version in a header of version 1.
#[tactic(auto, unfolding(crate::specs::LinesInside::first_version))]
fn header_of_first(text: &[u8]) -> Option<(HeaderLine, &[u8])>
    ensures { MatchOption result (first_version (codes "\n") text.now ≡ None)
        (λ r. first_version (codes "\n") text.now ≡ Some (header_in r.0, r.1.now)) }
{
    let (order, rest) = field(text, b"\n")?;
    header_of(1, order, EXPONENT, rest)
}

// What follows the version in a header of version 2.
#[tactic(auto, unfolding(crate::specs::LinesInside::second_version))]
fn header_of_second(text: &[u8]) -> Option<(HeaderLine, &[u8])>
    ensures { MatchOption result (second_version (codes " scale ") (codes "\n") text.now ≡ None)
        (λ r. second_version (codes " scale ") (codes "\n") text.now
        ≡ Some (header_in r.0, r.1.now)) }
{
    let (order, rest) = field(text, b" scale ")?;
    let (exponent, rest) = field(rest, b"\n")?;
    header_of(2, order, exponent, rest)
}

/// A header at the front of a text, and what is left.
#[tactic(auto, unfolding(crate::specs::LinesInside::header_front, crate::specs::LinesInside::header_front_by, crate::specs::LinesInside::version_front))]
pub(crate) fn header_line(text: &[u8]) -> Option<(HeaderLine, &[u8])>
    ensures { MatchOption result (header_front text.now ≡ None)
        (λ r. header_front text.now ≡ Some (header_in r.0, r.1.now)) }
{
    let rest = word(text, b"core-entropy-map ")?;
    let (version, rest) = field(rest, b" order ")?;
    match version {
        1 => header_of_first(rest),
        2 => header_of_second(rest),
        _ => None,
    }
}

/// The header of a part at the front of a text, and what is left.
#[tactic(auto, unfolding(crate::specs::PartsInside::part_front, crate::specs::PartsInside::part_front_by))]
pub(crate) fn part_line(text: &[u8]) -> Option<(HeaderLine, &[u8])>
    ensures { MatchOption result (part_front text.now ≡ None)
        (λ r. part_front text.now ≡ Some (header_in r.0, r.1.now)) }
{
    let rest = word(text, b"core-entropy-part 2 order ")?;
    header_of_second(rest)
}
