// Pieces of a text: words and numbers. Each is appended by one call, a number with the space before
// it. Nine of ten entries have one digit and most ranks at most three, so these need no loop.
ghost use Rattle.std.specs.Prelude.{◌≡◌, ◌<◌, ◌≤◌, ◌++◌, ◌∷◌, OnOk, OnErr, false, drop, take};
ghost use Rattle.std.specs.Fmt.{decimal, digit_glyph};
ghost use Rattle.ce_map.specs.AppendInside.{Extends};
ghost use Rattle.ce_map.specs.Digits.{IsNumber, number_text};

use crate::digits::rest_of;
use ce_rows::NoMemory;
use itoa::write_digits;

// A number has at most 20 digits, and a space may stand before it.
const ROOM: usize = 21;

/// A piece.
#[inline(always)]
pub(crate) fn put(text: &mut Vec<u8>, piece: &[u8]) -> Result<(), NoMemory>
    ensures extends { Extends text.old.items text.new.items }
    ensures ok { OnOk result (text.new.items ≡ text.old.items ++ piece.now) }
{
    match text.extend_from_slice(piece) {
        Ok(()) => Ok(()),
        Err(_) => Err(NoMemory),
    }
}

// The decimal digits of a number.
fn put_decimal(text: &mut Vec<u8>, n: u64) -> Result<(), NoMemory>
    ensures extends { Extends text.old.items text.new.items }
    ensures ok { OnOk result (text.new.items ≡ text.old.items ++ decimal n) }
{
    let mut digits = [0; ROOM];
    let start = write_digits(n, &mut digits, ROOM);
    put(text, rest_of(&digits, start))
}

// The hexadecimal digit of a number below 16.
#[inline(always)]
fn glyph(digit: u64) -> u8
    requires { digit < 16 }
    ensures { result ≡ digit_glyph false digit }
{
    if digit < 10 {
        digit as u8 + b'0'
    } else {
        digit as u8 - 10 + b'a'
    }
}

// A space and a number of one hexadecimal digit, which is decimal too where it is below ten.
#[inline(always)]
fn put_one_digit(text: &mut Vec<u8>, n: u64) -> Result<(), NoMemory>
    requires { n < 16 }
    ensures extends { Extends text.old.items text.new.items }
    ensures decimal { n < 10 → OnOk result (text.new.items ≡ text.old.items ++ 32 ∷ decimal n) }
    ensures hexadecimal { OnOk result (text.new.items ≡ text.old.items ++ 32 ∷ number_text 16 n) }
{
    put(text, &[b' ', glyph(n)])
}

// A space and a number of two decimal digits.
#[inline(always)]
fn put_two_digits(text: &mut Vec<u8>, n: u64) -> Result<(), NoMemory>
    requires some { 10 ≤ n }
    requires few { n < 100 }
    ensures extends { Extends text.old.items text.new.items }
    ensures ok { OnOk result (text.new.items ≡ text.old.items ++ 32 ∷ decimal n) }
{
    put(text, &[b' ', glyph(n / 10), glyph(n % 10)])
}

// A space and a number of three decimal digits.
#[inline(always)]
fn put_three_digits(text: &mut Vec<u8>, n: u64) -> Result<(), NoMemory>
    requires some { 100 ≤ n }
    requires few { n < 1000 }
    ensures extends { Extends text.old.items text.new.items }
    ensures ok { OnOk result (text.new.items ≡ text.old.items ++ 32 ∷ decimal n) }
{
    let tens = n / 10;
    put(
        text,
        &[b' ', glyph(tens / 10), glyph(tens % 10), glyph(n % 10)],
    )
}

// A space and the decimal digits of a number, of any length.
fn put_long_rank(text: &mut Vec<u8>, n: u64) -> Result<(), NoMemory>
    ensures extends { Extends text.old.items text.new.items }
    ensures ok { OnOk result (text.new.items ≡ text.old.items ++ 32 ∷ decimal n) }
{
    let mut digits = [0; ROOM];
    let start = write_digits(n, &mut digits, ROOM) - 1;
    digits[start] = b' ';
    put(text, rest_of(&digits, start))
}

/// A space and the decimal digits of a number.
#[inline(always)]
pub(crate) fn put_rank(text: &mut Vec<u8>, n: u64) -> Result<(), NoMemory>
    ensures extends { Extends text.old.items text.new.items }
    ensures ok { OnOk result (text.new.items ≡ text.old.items ++ 32 ∷ decimal n) }
{
    if n < 10 {
        return put_one_digit(text, n);
    }
    if n < 100 {
        return put_two_digits(text, n);
    }
    if n < 1000 {
        return put_three_digits(text, n);
    }
    put_long_rank(text, n)
}

// Writes the hexadecimal digits of a number at the end, and returns where they start.
#[inline(always)]
fn write_hexadecimal(n: u64, digits: &mut [u8; ROOM]) -> usize
    requires { IsNumber n }
    ensures within { 1 ≤ result }
    ensures most { result ≤ 21 }
    ensures written { drop result digits.new ≡ number_text 16 n }
{
    let mut left = n;
    let mut at = ROOM;
    while left >= 16 {
        at -= 1;
        digits[at] = glyph(left % 16);
        left /= 16;
    }
    at -= 1;
    digits[at] = glyph(left);
    at
}

// A space and the hexadecimal digits of a number, of any length.
fn put_long_entry(text: &mut Vec<u8>, n: u64) -> Result<(), NoMemory>
    requires { IsNumber n }
    ensures extends { Extends text.old.items text.new.items }
    ensures ok { OnOk result (text.new.items ≡ text.old.items ++ 32 ∷ number_text 16 n) }
{
    let mut digits = [0; ROOM];
    let start = write_hexadecimal(n, &mut digits) - 1;
    digits[start] = b' ';
    put(text, rest_of(&digits, start))
}

/// A space and the hexadecimal digits of a number.
#[inline(always)]
pub(crate) fn put_entry(text: &mut Vec<u8>, n: u64) -> Result<(), NoMemory>
    requires { IsNumber n }
    ensures extends { Extends text.old.items text.new.items }
    ensures ok { OnOk result (text.new.items ≡ text.old.items ++ 32 ∷ number_text 16 n) }
{
    if n < 16 {
        return put_one_digit(text, n);
    }
    put_long_entry(text, n)
}

/// A word and the decimal digits of a number.
pub(crate) fn put_field(text: &mut Vec<u8>, word: &[u8], n: u64) -> Result<(), NoMemory>
    ensures extends { Extends text.old.items text.new.items }
    ensures ok { OnOk result (text.new.items ≡ text.old.items ++ (word.now ++ decimal n)) }
{
    put(text, word)?;
    put_decimal(text, n)
}

/// What was put, or the text as it was.
pub(crate) fn whole(
    text: &mut Vec<u8>,
    len: usize,
    put: Result<(), NoMemory>,
) -> Result<(), NoMemory>
    ensures same { result ≡ put }
    ensures ok { OnOk result (text.new.items ≡ text.old.items) }
    ensures err { OnErr result (text.new.items ≡ take len text.old.items) }
{
    if put.is_err() {
        text.truncate(len);
    }
    put
}
