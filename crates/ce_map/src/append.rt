// The text of a map, appended piece by piece. Version 2 is written.
ghost use Rattle.std.specs.Prelude.{◌≡◌, ◌≤◌, ◌++◌, All, OnOk, OnErr};
ghost use Rattle.ce_cert.specs.Evidence.{evidence_of};
ghost use Rattle.ce_map.specs.AppendInside.{Extends};
ghost use Rattle.ce_map.specs.Digits.{IsNumber, numbers_text};
ghost use Rattle.ce_map.specs.Grammar.{IsHeader, IsItem, Item, header_line, item_text, end_line};
ghost use Rattle.ce_map.specs.Grammar.{angle_line, ranks_line, low_line, high_line};
ghost use Rattle.ce_map.specs.PartGrammar.{IsPartHeader, part_line};
ghost use Rattle.ce_rows.specs.Limits.{greatest_order};

use crate::pieces::{put, put_entry, put_field, put_rank, whole};
use ce_angle::Angle;
use ce_cert::CertView;
use ce_rows::{NoMemory, Scale};

// A list of decimal numbers.
fn put_ranks(text: &mut Vec<u8>, ranks: &[u32]) -> Result<(), NoMemory>
    ensures extends { Extends text.old.items text.new.items }
    ensures ok { OnOk result (text.new.items ≡ text.old.items ++ numbers_text 10 ranks.now) }
{
    for rank in ranks {
        put_rank(text, u64::from(*rank))?;
    }
    Ok(())
}

// A list of hexadecimal numbers.
fn put_entries(text: &mut Vec<u8>, vector: &[u64]) -> Result<(), NoMemory>
    requires { All IsNumber vector.now }
    ensures extends { Extends text.old.items text.new.items }
    ensures ok { OnOk result (text.new.items ≡ text.old.items ++ numbers_text 16 vector.now) }
{
    for entry in vector {
        put_entry(text, *entry)?;
    }
    Ok(())
}

/// The first line of an item.
pub(crate) fn put_angle_line(
    text: &mut Vec<u8>,
    num: u64,
    den: u64,
    low: u64,
    high: u64,
) -> Result<(), NoMemory>
    ensures extends { Extends text.old.items text.new.items }
    ensures ok { (item : Item) → item.angle.num ≡ num → item.angle.den ≡ den
        → item.evidence.low ≡ low → item.evidence.high ≡ high
        → OnOk result (text.new.items ≡ text.old.items ++ angle_line item) }
{
    put_field(text, b"angle ", num)?;
    put_field(text, b"/", den)?;
    put_field(text, b" low ", low)?;
    put_field(text, b" high ", high)?;
    put(text, b"\n")
}

// The second line of an item.
fn put_ranks_line(text: &mut Vec<u8>, angle: Angle, cert: &CertView<'_>) -> Result<(), NoMemory>
    ensures extends { Extends text.old.items text.new.items }
    ensures ok { OnOk result (text.new.items
        ≡ text.old.items
        ++ ranks_line (record { angle = angle; evidence = evidence_of cert.now })) }
{
    put(text, b"ranks")?;
    put_ranks(text, cert.ranks)?;
    put(text, b"\n")
}

// The third line of an item.
fn put_low_line(text: &mut Vec<u8>, angle: Angle, cert: &CertView<'_>) -> Result<(), NoMemory>
    requires { All IsNumber cert.now.low_vector.now }
    ensures extends { Extends text.old.items text.new.items }
    ensures ok { OnOk result (text.new.items
        ≡ text.old.items
        ++ low_line 2 (record { angle = angle; evidence = evidence_of cert.now })) }
{
    put_field(text, b"low ", u64::from(cert.low_rank))?;
    put_entries(text, cert.low_vector)?;
    put(text, b"\n")
}

// The fourth line of an item.
fn put_high_line(text: &mut Vec<u8>, angle: Angle, cert: &CertView<'_>) -> Result<(), NoMemory>
    requires { All IsNumber cert.now.high_vector.now }
    ensures extends { Extends text.old.items text.new.items }
    ensures ok { OnOk result (text.new.items
        ≡ text.old.items
        ++ high_line 2 (record { angle = angle; evidence = evidence_of cert.now })) }
{
    put(text, b"high")?;
    put_entries(text, cert.high_vector)?;
    put(text, b"\n")
}

// All lines of an item.
fn put_item(text: &mut Vec<u8>, angle: Angle, cert: &CertView<'_>) -> Result<(), NoMemory>
    requires low { All IsNumber cert.now.low_vector.now }
    requires high { All IsNumber cert.now.high_vector.now }
    ensures extends { Extends text.old.items text.new.items }
    ensures ok { OnOk result (text.new.items
        ≡ text.old.items
        ++ item_text 2 (record { angle = angle; evidence = evidence_of cert.now })) }
{
    let num = u64::from(angle.num());
    let den = u64::from(angle.den());
    put_angle_line(text, num, den, cert.low, cert.high)?;
    put_ranks_line(text, angle, cert)?;
    put_low_line(text, angle, cert)?;
    put_high_line(text, angle, cert)
}

// A header.
fn put_header(text: &mut Vec<u8>, order: u32, scale: Scale) -> Result<(), NoMemory>
    ensures extends { Extends text.old.items text.new.items }
    ensures ok { OnOk result (text.new.items
        ≡ text.old.items ++ header_line (record { version = 2; order = order; exponent = scale })) }
{
    put_field(text, b"core-entropy-map ", 2)?;
    put_field(text, b" order ", u64::from(order))?;
    put_field(text, b" scale ", u64::from(scale.exponent()))?;
    put(text, b"\n")
}

// The header of a part.
fn put_part_header(text: &mut Vec<u8>, order: u32, scale: Scale) -> Result<(), NoMemory>
    ensures extends { Extends text.old.items text.new.items }
    ensures ok { OnOk result (text.new.items
        ≡ text.old.items ++ part_line (record { version = 2; order = order; exponent = scale })) }
{
    let exponent = u64::from(scale.exponent());
    put_field(text, b"core-entropy-part 2 order ", u64::from(order))?;
    put_field(text, b" scale ", exponent)?;
    put(text, b"\n")
}

// An end.
fn put_end(text: &mut Vec<u8>, count: u32) -> Result<(), NoMemory>
    ensures extends { Extends text.old.items text.new.items }
    ensures ok { OnOk result (text.new.items ≡ text.old.items ++ end_line count) }
{
    put_field(text, b"end ", u64::from(count))?;
    put(text, b"\n")
}

/// Appends the header of a map of version 2 with an order from 1 to 128, or leaves the text as it
/// was.
pub fn append_header(text: &mut Vec<u8>, order: u32, scale: Scale) -> Result<(), NoMemory>
    requires some { 1 ≤ order }
    requires few { order ≤ greatest_order }
    ensures ok { OnOk result (text.new.items
        ≡ text.old.items ++ header_line (record { version = 2; order = order; exponent = scale })) }
    ensures header { IsHeader (record { version = 2; order = order; exponent = scale }) }
    ensures err { OnErr result (text.new.items ≡ text.old.items) }
{
    let len = text.len();
    let put = put_header(text, order, scale);
    whole(text, len, put)
}

/// Appends the header of a part of a map with an order from 1 to 128, or leaves the text as it was.
/// Its items and its end are those of a map.
pub fn append_part_header(text: &mut Vec<u8>, order: u32, scale: Scale) -> Result<(), NoMemory>
    requires some { 1 ≤ order }
    requires few { order ≤ greatest_order }
    ensures ok { OnOk result (text.new.items
        ≡ text.old.items ++ part_line (record { version = 2; order = order; exponent = scale })) }
    ensures header { IsPartHeader (record { version = 2; order = order; exponent = scale }) }
    ensures err { OnErr result (text.new.items ≡ text.old.items) }
{
    let len = text.len();
    let put = put_part_header(text, order, scale);
    whole(text, len, put)
}

/// Appends an item of version 2, or leaves the text as it was. No list is empty, and all numbers
/// are below 2^62.
pub fn append_item(text: &mut Vec<u8>, angle: Angle, cert: &CertView<'_>) -> Result<(), NoMemory>
    requires { IsItem (record { angle = angle; evidence = evidence_of cert.now }) }
    ensures ok { OnOk result (text.new.items
        ≡ text.old.items
        ++ item_text 2 (record { angle = angle; evidence = evidence_of cert.now })) }
    ensures err { OnErr result (text.new.items ≡ text.old.items) }
{
    let len = text.len();
    let put = put_item(text, angle, cert);
    whole(text, len, put)
}

/// Appends the end of a map with so many items, or leaves the text as it was.
pub fn append_end(text: &mut Vec<u8>, count: u32) -> Result<(), NoMemory>
    ensures ok { OnOk result (text.new.items ≡ text.old.items ++ end_line count) }
    ensures err { OnErr result (text.new.items ≡ text.old.items) }
{
    let len = text.len();
    let put = put_end(text, count);
    whole(text, len, put)
}
