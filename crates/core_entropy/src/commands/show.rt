// The command `show`: an orbit with its kneading sequence and its transition matrix.
ghost use Rattle.std.specs.Prelude.{◌≡◌, ◌≢◌, ◌<◌, ◌≤◌, ◌++◌, ◌∷◌, [], OnOk, OnErr, IfOk, IfErr};
ghost use Rattle.std.specs.Prelude.{codes, length, slice_index, string_bytes};
ghost use Rattle.std.specs.Fmt.{decimal};
ghost use Rattle.std.specs.List.{flat_map};
ghost use Rattle.ce_angle.specs.LowestTerms.{in_lowest_terms};
ghost use Rattle.ce_orbit.specs.Iterates.{most_places};
ghost use Rattle.ce_orbit.specs.Symbols.{symbol_text};
ghost use Rattle.ce_port.specs.Pieces.{GrewAllBut};
ghost use Rattle.ce_port.specs.WriteAll.{GrewByPrefix};
ghost use Rattle.ce_thurston.specs.Indices.{rows_of_orbit};
ghost use Rattle.core_entropy.specs.Output.{HasEnded};
ghost use Rattle.core_entropy.specs.Show.{show_task, angle_heading, cycle_line, orbit_line};
ghost use Rattle.core_entropy.specs.Show.{place_text, symbols_line, rows_text, pair_line};
ghost use Rattle.ce_thurston.specs.Indices.{pairs_below};
ghost use Rattle.core_entropy.specs.Show.{row_line, spaced};
ghost use Rattle.ce_rows.specs.Rows.{targets_of};
ghost use Rattle.core_entropy.specs.Show.{head_text};
ghost use Rattle.core_entropy.specs.Status.{ended_with, IsStopped};
ghost use Rattle.ce_angle.specs.Spelled.{ended};

use crate::status::Status;
use ce_angle::Angle;
use ce_orbit::{Orbit, Symbol};
use ce_port::{Sink, turn_page, write_piece};
use ce_rows::{NoMemory, Row, Rows};
use ce_thurston::{pair_index, rows_of};
use itoa::Buffer;
use std::alloc::Global;

// Appends the line of the angle.
fn append_heading(text: &mut String, angle: Angle) -> Result<(), NoMemory>
    ensures { OnOk result (string_bytes text.new ≡ string_bytes text.old ++ angle_heading angle) }
{
    write!(text, "angle {angle}\n")?;
    Ok(())
}

// Appends the line of the preperiod and the period.
fn append_cycle(text: &mut String, orbit: &Orbit) -> Result<(), NoMemory>
    ensures { OnOk result (string_bytes text.new ≡ string_bytes text.old ++ cycle_line orbit.now) }
{
    let preperiod = orbit.preperiod();
    let period = orbit.period();
    write!(text, "preperiod {preperiod} period {period}\n")?;
    Ok(())
}

// The angle at a place.
fn angle_at(orbit: &Orbit, i: u32) -> Angle
    requires { i < length orbit.now.places }
    ensures { result ≡ in_lowest_terms
        (record { num = slice_index orbit.now.places i; den = orbit.now.angle.den }) }
{
    let den = orbit.angle().den();
    match Angle::new(u64::from(orbit.place(i)), u64::from(den)) {
        Ok(angle) => angle,
        Err(_) => unreachable!(),
    }
}

// Appends a space and the angle at a place.
fn append_place(text: &mut String, orbit: &Orbit, i: u32) -> Result<(), NoMemory>
    requires { i < length orbit.now.places }
    ensures { OnOk result (string_bytes text.new
        ≡ string_bytes text.old ++ 32 ∷ place_text orbit.now (slice_index orbit.now.places i)) }
{
    let angle = angle_at(orbit, i);
    write!(text, " {angle}")?;
    Ok(())
}

// Appends the line of the orbit's angles.
fn append_orbit(text: &mut String, orbit: &Orbit) -> Result<(), NoMemory>
    ensures { OnOk result (string_bytes text.new ≡ string_bytes text.old ++ orbit_line orbit.now) }
{
    text.push_str("orbit")?;
    for i in 0..orbit.len() {
        append_place(text, orbit, i)?;
    }
    text.push_str("\n")?;
    Ok(())
}

// Appends a space and a symbol.
fn append_symbol(text: &mut String, symbol: Symbol) -> Result<(), NoMemory>
    ensures { OnOk result
        (string_bytes text.new ≡ string_bytes text.old ++ 32 ∷ symbol_text symbol) }
{
    write!(text, " {symbol}")?;
    Ok(())
}

// Appends the line of the kneading sequence.
fn append_symbols(text: &mut String, orbit: &Orbit) -> Result<(), NoMemory>
    ensures { OnOk result
        (string_bytes text.new ≡ string_bytes text.old ++ symbols_line orbit.now) }
{
    text.push_str("symbols")?;
    for i in 0..orbit.len() {
        append_symbol(text, orbit.symbol(i))?;
    }
    text.push_str("\n")?;
    Ok(())
}

// Appends the line with the number of pairs.
fn append_pair_count(text: &mut String, rows: &Rows) -> Result<(), NoMemory>
    ensures { OnOk result (string_bytes text.new
        ≡ string_bytes text.old ++ ended (codes "pairs " ++ decimal (length rows.now.list))) }
{
    let count = rows.len();
    write!(text, "pairs {count}\n")?;
    Ok(())
}

// The lines before the rows.
fn head_of(alloc: Global, orbit: &Orbit, rows: &Rows) -> Result<String, NoMemory>
    requires { rows.now.list ≡ rows_of_orbit orbit.now }
    ensures { IfOk result (λ text. string_bytes text ≡ head_text orbit.now) }
{
    let mut text = String::new(alloc);
    append_heading(&mut text, orbit.angle())?;
    append_cycle(&mut text, orbit)?;
    append_orbit(&mut text, orbit)?;
    append_symbols(&mut text, orbit)?;
    append_pair_count(&mut text, rows)?;
    Ok(text)
}

// Appends a word and a number after it. Rows are the most of the text, so no formatter stands
// between.
fn append_number(text: &mut String, word: &str, number: u32) -> Result<(), NoMemory>
    ensures { OnOk result
        (string_bytes text.new ≡ string_bytes text.old ++ word.now ++ decimal number) }
{
    let mut digits = Buffer::new();
    text.push_str(word)?;
    text.push_str(digits.format(number))?;
    Ok(())
}

// Appends the successors of a row, each after a space.
fn append_successors(text: &mut String, row: Row) -> Result<(), NoMemory>
    ensures { OnOk result
        (string_bytes text.new ≡ string_bytes text.old ++ spaced decimal (targets_of row)) }
{
    match row {
        Row::One(x) => append_number(text, " ", x),
        Row::Two(x, y) => {
            append_number(text, " ", x)?;
            append_number(text, " ", y)
        }
    }
}

// Appends the line of a row.
fn append_row(text: &mut String, k: u32, places: (u32, u32), row: Row) -> Result<(), NoMemory>
    ensures { OnOk result (string_bytes text.new ≡ string_bytes text.old ++ row_line k places row) }
{
    append_number(text, "row ", k)?;
    append_number(text, " pair ", places.0)?;
    append_number(text, " ", places.1)?;
    text.push_str(" to")?;
    append_successors(text, row)?;
    text.push_str("\n")?;
    Ok(())
}

// Writes what stands on a page and the lines of the pairs with an upper place, but for what stands
// on the page then.
fn write_column<O: Sink>(
    out: &mut O,
    page: &mut String,
    orbit: &Orbit,
    rows: &Rows,
    j: u32,
) -> Result<(), Status>
    requires rows { rows.now.list ≡ rows_of_orbit orbit.now }
    requires place { j < length orbit.now.places }
    requires few { j < most_places }
    requires other { length orbit.now.places ≢ 1 }
    ensures done { OnOk result (GrewAllBut (O.taken out.old) (O.taken out.new)
        (string_bytes page.new)
        (string_bytes page.old ++ flat_map (pair_line orbit.now) (pairs_below j))) }
    ensures part { OnErr result (GrewByPrefix (O.taken out.old) (O.taken out.new)
        (string_bytes page.old ++ flat_map (pair_line orbit.now) (pairs_below j))) }
    ensures stopped { IfErr result (IsStopped (O.faults out.old) (O.faults out.new)) }
    ensures counted { O.faults out.old ≤ O.faults out.new }
{
    for i in 0..j {
        let k = pair_index(i, j);
        append_row(page, k, (i, j), rows.row(k))?;
        turn_page(out, page)?;
    }
    Ok(())
}

// The same of all pairs of different places.
fn write_columns<O: Sink>(
    out: &mut O,
    page: &mut String,
    orbit: &Orbit,
    rows: &Rows,
) -> Result<(), Status>
    requires rows { rows.now.list ≡ rows_of_orbit orbit.now }
    requires other { length orbit.now.places ≢ 1 }
    ensures done { OnOk result (GrewAllBut (O.taken out.old) (O.taken out.new)
        (string_bytes page.new) (string_bytes page.old ++ rows_text orbit.now)) }
    ensures part { OnErr result (GrewByPrefix (O.taken out.old) (O.taken out.new)
        (string_bytes page.old ++ rows_text orbit.now)) }
    ensures stopped { IfErr result (IsStopped (O.faults out.old) (O.faults out.new)) }
    ensures counted { O.faults out.old ≤ O.faults out.new }
{
    for j in 0..orbit.len() {
        write_column(out, page, orbit, rows, j)?;
    }
    Ok(())
}

// The same of all rows; an orbit of one place has it twice.
fn write_rows<O: Sink>(
    out: &mut O,
    page: &mut String,
    orbit: &Orbit,
    rows: &Rows,
) -> Result<(), Status>
    requires { rows.now.list ≡ rows_of_orbit orbit.now }
    ensures done { OnOk result (GrewAllBut (O.taken out.old) (O.taken out.new)
        (string_bytes page.new) (string_bytes page.old ++ rows_text orbit.now)) }
    ensures part { OnErr result (GrewByPrefix (O.taken out.old) (O.taken out.new)
        (string_bytes page.old ++ rows_text orbit.now)) }
    ensures stopped { IfErr result (IsStopped (O.faults out.old) (O.faults out.new)) }
    ensures counted { O.faults out.old ≤ O.faults out.new }
{
    if orbit.len() == 1 {
        append_row(page, 0, (0, 0), rows.row(0))?;
        Ok(())
    } else {
        write_columns(out, page, orbit, rows)
    }
}

/// Writes the text that shows an angle's orbit.
pub fn write_show<O: Sink>(alloc: Global, angle: Angle, out: &mut O) -> Result<(), Status>
    ensures { HasEnded O.taken O.faults (show_task angle) [] (ended_with result) out.old out.new }
{
    let orbit = Orbit::of(angle)?;
    let rows = rows_of(alloc, &orbit)?;
    let mut page = head_of(alloc, &orbit, &rows)?;
    write_rows(out, &mut page, &orbit, &rows)?;
    write_piece(out, page.as_bytes())?;
    Ok(())
}
