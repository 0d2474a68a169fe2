// The atlas as comma-separated values.
ghost use Rattle.std.specs.Prelude.{◌≡◌, ◌++◌, ◌∷◌, ◌≤◌, ℕ, List, All, decimal, length, map, string_bytes};
ghost use Rattle.std.specs.Prelude.{IfOk, OnOk};
ghost use Rattle.ce_angle.specs.Spelled.{fraction_text};
ghost use Rattle.ce_atlas.specs.InternalAddress.{most_entry};
ghost use Rattle.ce_atlas.specs.Table.{after_spaces, fields_of_row, line_of, names, spaced, table_text};
ghost use Rattle.ce_atlas.specs.WritingInside.{HasWritten, IsPlain};

use crate::ClassRow;
use ce_angle::Angle;
use ce_rows::NoMemory;
use csv::{Writer, WriterBuilder};
use std::alloc::Global;
use std::string::String;

fn number_text(alloc: Global, n: u64) -> Result<String, NoMemory>
    ensures value { IfOk result (λ s. string_bytes s ≡ decimal n) }
    ensures plain { IfOk result (λ s. IsPlain (string_bytes s)) }
{
    match format!(in alloc; "{n}") {
        Ok(text) => Ok(text),
        Err(_) => Err(NoMemory),
    }
}

fn angle_text(alloc: Global, angle: Angle) -> Result<String, NoMemory>
    ensures value { IfOk result (λ s. string_bytes s ≡ fraction_text angle) }
    ensures plain { IfOk result (λ s. IsPlain (string_bytes s)) }
{
    // The numerator brings in that numbers are small.
    let _num = angle.num();
    match format!(in alloc; "{angle}") {
        Ok(text) => Ok(text),
        Err(_) => Err(NoMemory),
    }
}

// Appends a space and a number.
fn push_number(alloc: Global, text: &mut Vec<u8>, n: u32) -> Result<(), NoMemory>
    ensures { OnOk result (text.new.items ≡ text.old.items ++ 32 ∷ decimal n) }
{
    let Ok(piece) = format!(in alloc; " {n}") else {
        return Err(NoMemory);
    };
    match text.extend_from_slice(piece.as_bytes()) {
        Ok(()) => Ok(()),
        Err(_) => Err(NoMemory),
    }
}

// Appends numbers, each after a space.
fn push_numbers(alloc: Global, text: &mut Vec<u8>, numbers: &[u32]) -> Result<(), NoMemory>
    ensures { OnOk result (text.new.items ≡ text.old.items ++ after_spaces numbers.now) }
{
    for n in numbers {
        push_number(alloc, text, *n)?;
    }
    Ok(())
}

// Numbers with a space between.
fn spaced_text(alloc: Global, numbers: &[u32]) -> Result<Vec<u8>, NoMemory>
    ensures value { IfOk result (λ text. text.items ≡ spaced numbers.now) }
    ensures plain { IfOk result (λ text. IsPlain text.items) }
{
    let mut text = Vec::new(alloc);
    if let Some((first, rest)) = numbers.split_first() {
        let start = number_text(alloc, u64::from(*first))?;
        if text.extend_from_slice(start.as_bytes()).is_err() {
            return Err(NoMemory);
        }
        push_numbers(alloc, &mut text, rest)?;
    }
    Ok(text)
}

// Writes fields as a record.
fn write_record(writer: &mut Writer<Vec<u8>>, fields: &[&[u8]]) -> Result<(), NoMemory>
    requires plain { All IsPlain (map (λ f. f.now) fields.now) }
    requires some { 2 ≤ length fields.now }
    ensures { (text : List ℕ) → HasWritten text writer.old
        → OnOk result (HasWritten (text ++ line_of (map (λ f. f.now) fields.now)) writer.new) }
{
    let Ok(()) = writer.write_fields(fields) else {
        return Err(NoMemory);
    };
    Ok(())
}

// Writes the names of the fields.
fn write_names(writer: &mut Writer<Vec<u8>>) -> Result<(), NoMemory>
    ensures { (text : List ℕ) → HasWritten text writer.old
        → OnOk result (HasWritten (text ++ line_of names) writer.new) }
{
    let names: [&[u8]; 9] = [
        b"class",
        b"first",
        b"angles",
        b"preperiod",
        b"period",
        b"address",
        b"low",
        b"high",
        b"above",
    ];
    write_record(writer, names.as_slice())
}

// Writes a row as a record.
fn write_row(
    alloc: Global,
    writer: &mut Writer<Vec<u8>>,
    number: u64,
    row: &ClassRow,
) -> Result<(), NoMemory>
    requires { row.now.address.len ≤ most_entry }
    ensures { (text : List ℕ) → HasWritten text writer.old
        → OnOk result (HasWritten (text ++ line_of (fields_of_row number row.now)) writer.new) }
{
    let class = number_text(alloc, number)?;
    let first = angle_text(alloc, row.first)?;
    let angles = number_text(alloc, u64::from(row.angles))?;
    let preperiod = number_text(alloc, u64::from(row.preperiod))?;
    let period = number_text(alloc, u64::from(row.period))?;
    let address = spaced_text(alloc, &row.address.entries[..row.address.len as usize])?;
    let low = number_text(alloc, row.interval.low)?;
    let high = number_text(alloc, row.interval.high)?;
    let above = number_text(alloc, u64::from(row.above))?;
    let fields: [&[u8]; 9] = [
        class.as_bytes(),
        first.as_bytes(),
        angles.as_bytes(),
        preperiod.as_bytes(),
        period.as_bytes(),
        address.as_slice(),
        low.as_bytes(),
        high.as_bytes(),
        above.as_bytes(),
    ];
    write_record(writer, fields.as_slice())
}

/// The atlas as comma-separated values: a line of names, and a line for each class, with the
/// entries of its address between spaces.
pub fn table(alloc: Global, rows: &[ClassRow]) -> Result<Vec<u8>, NoMemory>
    requires { All (λ row. row.address.len ≤ most_entry) rows.now }
    ensures { IfOk result (λ text. text.items ≡ table_text rows.now) }
{
    let mut writer = WriterBuilder::new().from_writer(Vec::new(alloc));
    write_names(&mut writer)?;
    for (number, row) in rows.iter().enumerate() {
        write_row(alloc, &mut writer, number as u64, row)?;
    }
    let Ok(text) = writer.into_inner() else {
        return Err(NoMemory);
    };
    Ok(text)
}
