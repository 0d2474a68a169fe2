// Numbers at the front of a text.
ghost use Rattle.std.specs.Prelude.{◌≡◌, ◌<◌, ◌≤◌, length, drop, MatchOption, Some, None};
ghost use Rattle.ce_map.specs.DigitsInside.{digit_in, digits_front, in_range, is_plain};
ghost use Rattle.ce_map.specs.DigitsInside.{number_front};
ghost use Rattle.ce_map.specs.BaseInside.{radix_of};

// A number that is as great or greater has no further digit below 2^62.
const MOST_BEFORE_DIGIT: u64 = 1 << 60;

const LIMIT: u64 = 1 << 62;

// So many digits after the first one are read with no test of their number: most numbers of a map
// have no more.
const FEW_DIGITS: usize = 4;

/// The base that a list of numbers is written in.
#[derive(Clone, Copy, Debug, PartialEq, Eq)]
pub(crate) enum Base {
    Ten,
    Sixteen,
}

impl Base {
    #[inline(always)]
    pub fn radix(self) -> u64
        ensures { result ≡ radix_of self }
    {
        match self {
            Base::Ten => 10,
            Base::Sixteen => 16,
        }
    }
}

// The value of each byte as a digit, and 16 where it is none. A look-up has no branch that depends
// on whether a digit is a letter.
static DIGITS: [u8; 256] = [
    16, 16, 16, 16, 16, 16, 16, 16, 16, 16, 16, 16, 16, 16, 16, 16, 16, 16, 16, 16, 16, 16, 16, 16,
    16, 16, 16, 16, 16, 16, 16, 16, 16, 16, 16, 16, 16, 16, 16, 16, 16, 16, 16, 16, 16, 16, 16, 16,
    0, 1, 2, 3, 4, 5, 6, 7, 8, 9, 16, 16, 16, 16, 16, 16, 16, 16, 16, 16, 16, 16, 16, 16, 16, 16,
    16, 16, 16, 16, 16, 16, 16, 16, 16, 16, 16, 16, 16, 16, 16, 16, 16, 16, 16, 16, 16, 16, 16, 10,
    11, 12, 13, 14, 15, 16, 16, 16, 16, 16, 16, 16, 16, 16, 16, 16, 16, 16, 16, 16, 16, 16, 16, 16,
    16, 16, 16, 16, 16, 16, 16, 16, 16, 16, 16, 16, 16, 16, 16, 16, 16, 16, 16, 16, 16, 16, 16, 16,
    16, 16, 16, 16, 16, 16, 16, 16, 16, 16, 16, 16, 16, 16, 16, 16, 16, 16, 16, 16, 16, 16, 16, 16,
    16, 16, 16, 16, 16, 16, 16, 16, 16, 16, 16, 16, 16, 16, 16, 16, 16, 16, 16, 16, 16, 16, 16, 16,
    16, 16, 16, 16, 16, 16, 16, 16, 16, 16, 16, 16, 16, 16, 16, 16, 16, 16, 16, 16, 16, 16, 16, 16,
    16, 16, 16, 16, 16, 16, 16, 16, 16, 16, 16, 16, 16, 16, 16, 16, 16, 16, 16, 16, 16, 16, 16, 16,
    16, 16, 16, 16, 16, 16, 16, 16, 16, 16, 16, 16, 16, 16,
];

#[inline(always)]
fn digit_of(byte: u8) -> u64
    ensures value { result ≡ digit_in byte }
    ensures small { result ≤ 16 }
{
    u64::from(DIGITS[byte as usize])
}

/// What is left of a text without its first bytes, so many.
#[inline(always)]
pub(crate) fn rest_of(text: &[u8], count: usize) -> &[u8]
    requires { count ≤ length text.now }
    ensures { result.now ≡ drop count text.now }
{
    &text[count..]
}

// The number that the digits at the front make after those of a first one, if it is in range.
#[inline(always)]
fn number_on(first: u64, text: &[u8], radix: u64) -> Option<(u64, &[u8])>
    requires low { 10 ≤ radix }
    requires high { radix ≤ 16 }
    ensures { MatchOption result (in_range (digits_front radix first text.now) ≡ None)
        (λ r. in_range (digits_front radix first text.now) ≡ Some (r.0, r.1.now)) }
{
    let mut value = first;
    for i in 0..text.len() {
        let digit = digit_of(text[i]);
        if digit >= radix {
            return within(value, rest_of(text, i));
        }
        if value >= MOST_BEFORE_DIGIT {
            return None;
        }
        value = value * radix + digit;
    }
    within(value, rest_of(text, text.len()))
}

// The same after one digit, where some bytes follow. A few digits are in range.
#[inline(always)]
fn number_after(first: u64, text: &[u8], radix: u64) -> Option<(u64, &[u8])>
    requires first { first < 16 }
    requires low { 10 ≤ radix }
    requires high { radix ≤ 16 }
    requires some { 4 ≤ length text.now }
    ensures { MatchOption result (in_range (digits_front radix first text.now) ≡ None)
        (λ r. in_range (digits_front radix first text.now) ≡ Some (r.0, r.1.now)) }
{
    let mut value = first;
    for i in 0..FEW_DIGITS {
        let digit = digit_of(text[i]);
        if digit >= radix {
            return Some((value, rest_of(text, i)));
        }
        value = value * radix + digit;
    }
    number_on(value, rest_of(text, FEW_DIGITS), radix)
}

// A number, if it is in range.
#[inline(always)]
fn within(value: u64, rest: &[u8]) -> Option<(u64, &[u8])>
    ensures { MatchOption result (in_range (value, rest.now) ≡ None)
        (λ r. in_range (value, rest.now) ≡ Some (r.0, r.1.now)) }
{
    if value < LIMIT {
        Some((value, rest))
    } else {
        None
    }
}

// Whether no digit stands at the front.
#[inline(always)]
fn begins_plain(text: &[u8], radix: u64) -> bool
    ensures { result ≡ is_plain radix text.now }
{
    match text {
        [] => true,
        [byte, ..] => digit_of(*byte) >= radix,
    }
}

// The number at the front of a text, which may be short.
fn number_in_short(text: &[u8], radix: u64) -> Option<(u64, &[u8])>
    requires low { 10 ≤ radix }
    requires high { radix ≤ 16 }
    ensures { MatchOption result (number_front radix text.now ≡ None)
        (λ r. number_front radix text.now ≡ Some (r.0, r.1.now)) }
{
    if text.is_empty() {
        return None;
    }
    let byte = text[0];
    let first = digit_of(byte);
    let rest = rest_of(text, 1);
    if first >= radix {
        return None;
    }
    if byte != b'0' {
        return number_on(first, rest, radix);
    }
    if begins_plain(rest, radix) {
        Some((0, rest))
    } else {
        None
    }
}

/// The number at the front of a text, and what is left: all digits there, without a leading zero,
/// and below 2^62.
#[inline(always)]
pub(crate) fn number(text: &[u8], radix: u64) -> Option<(u64, &[u8])>
    requires low { 10 ≤ radix }
    requires high { radix ≤ 16 }
    ensures { MatchOption result (number_front radix text.now ≡ None)
        (λ r. number_front radix text.now ≡ Some (r.0, r.1.now)) }
{
    if text.len() <= FEW_DIGITS {
        return number_in_short(text, radix);
    }
    let first = digit_of(text[0]);
    if first >= radix {
        return None;
    }
    let rest = rest_of(text, 1);
    if begins_plain(rest, radix) {
        return Some((first, rest));
    }
    if first == 0 {
        return None;
    }
    number_after(first, rest, radix)
}
