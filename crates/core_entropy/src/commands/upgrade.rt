// The command `upgrade`: a map as one of version 2, or the verdict on it.
ghost use Rattle.std.specs.Prelude.{◌≡◌, ◌≤◌, ◌∷◌, ◌++◌, ℕ, List, IfErr, OnErr, OnOk, length};
ghost use Rattle.std.specs.List.{flat_map};
ghost use Rattle.ce_check.specs.Verdicts.{HasGoodMap};
ghost use Rattle.ce_check.specs.declared.verdict.Verdict.TheVariants as verdict;
ghost use Rattle.ce_map.specs.Grammar.{Header, IsMapOf, Item, item_text};
ghost use Rattle.ce_map.specs.Views.{Shows};
ghost use Rattle.ce_map.specs.Walk.{start_of};
ghost use Rattle.ce_port.specs.Pieces.{GrewAllBut};
ghost use Rattle.ce_port.specs.WriteAll.{GrewByPrefix};
ghost use Rattle.core_entropy.specs.Checked.{IsUpgradeAnswer, map_limit, upgrade_task};
ghost use Rattle.core_entropy.specs.Output.{HasEnded, Wrote};
ghost use Rattle.core_entropy.specs.Status.{IsEndOfAnswer, IsStopped, ended_with};
ghost use Rattle.core_entropy.specs.UpgradeInside.{AreLeft, AreLeftCounted, IsAtStart, IsNextItem};
ghost use Rattle.core_entropy.specs.declared.status.Status.{Status};

use crate::commands::check::write_verdict;
use crate::status::Status;
use ce_check::{Verdict, check_map};
use ce_map::{MapView, RecordView, Step, append_end, append_header, append_view};
use ce_port::{Sink, turn_bytes, write_piece};
use ce_rows::Scale;
use std::alloc::Global;

// The order and the scale of a map, at its start.
fn first_header(view: &mut MapView<'_>) -> (u32, Scale)
    requires { IsAtStart view.old }
    ensures header { (bytes : List ℕ) (h : Header) (items : List Item) (count : ℕ)
        → view.old ≡ start_of bytes
        → IsMapOf bytes h items count → result.0 ≡ h.order }
    ensures scale { (bytes : List ℕ) (h : Header) (items : List Item) (count : ℕ)
        → view.old ≡ start_of bytes
        → IsMapOf bytes h items count → result.1 ≡ h.exponent }
    ensures left { (bytes : List ℕ) (h : Header) (items : List Item) (count : ℕ)
        → view.old ≡ start_of bytes
        → IsMapOf bytes h items count → AreLeft h.version items view.new }
{
    match view.next() {
        Step::Header { order, scale, .. } => (order, scale),
        Step::Form { .. } => unreachable!(),
        Step::Item(_) | Step::End { .. } | Step::Tail { .. } | Step::Over => unreachable!(),
    }
}

// The next item of a map, where one is next.
fn next_item<'a>(view: &mut MapView<'a>) -> RecordView<'a>
    requires { IsNextItem view.old }
    ensures shows { (version : ℕ) (item : Item) (items : List Item)
        → AreLeft version (item ∷ items) view.old
        → Shows version item result }
    ensures left { (version : ℕ) (item : Item) (items : List Item)
        → AreLeft version (item ∷ items) view.old
        → AreLeft version items view.new }
{
    match view.next() {
        Step::Item(item) => item,
        Step::End { .. } => unreachable!(),
        Step::Form { .. } => unreachable!(),
        Step::Header { .. } | Step::Tail { .. } | Step::Over => unreachable!(),
    }
}

// Writes what stands on a page and the items of a map, so many, but for what stands on the page
// then.
fn write_items<O: Sink>(
    out: &mut O,
    page: &mut Vec<u8>,
    view: &mut MapView<'_>,
    count: u32,
) -> Result<(), Status>
    requires { AreLeftCounted count view.old }
    ensures done { (version : ℕ) (items : List Item)
        → AreLeft version items view.old → length items ≡ count
        → OnOk result (GrewAllBut (O.taken out.old) (O.taken out.new) page.new.items
        (page.old.items ++ flat_map (item_text 2) items)) }
    ensures part { (version : ℕ) (items : List Item)
        → AreLeft version items view.old → length items ≡ count
        → OnErr result (GrewByPrefix (O.taken out.old) (O.taken out.new)
        (page.old.items ++ flat_map (item_text 2) items)) }
    ensures stopped { IfErr result (IsStopped (O.faults out.old) (O.faults out.new)) }
    ensures counted { O.faults out.old ≤ O.faults out.new }
{
    for i in 0..count {
        let item = next_item(view);
        append_view(page, &item)?;
        turn_bytes(out, page)?;
    }
    Ok(())
}

// Writes a good map as one of version 2.
fn write_upgraded<O: Sink>(
    alloc: Global,
    bytes: &[u8],
    count: u64,
    out: &mut O,
) -> Result<(), Status>
    requires { HasGoodMap bytes.now count }
    ensures wrote { Wrote O.taken O.faults (IsUpgradeAnswer bytes.now (verdict.Accepted count))
        (ended_with result)
        out.old out.new }
    ensures end { IsEndOfAnswer Status.Done (ended_with result) }
{
    let Ok(count) = u32::try_from(count) else {
        unreachable!()
    };
    let mut view = MapView::new(bytes);
    let (order, scale) = first_header(&mut view);
    let mut page = Vec::new(alloc);
    append_header(&mut page, order, scale)?;
    write_items(out, &mut page, &mut view, count)?;
    append_end(&mut page, count)?;
    write_piece(out, &page)?;
    Ok(())
}

/// Writes a map as one of version 2, or the verdict on it.
pub fn write_upgrade<O: Sink>(alloc: Global, bytes: &[u8], out: &mut O) -> Result<(), Status>
    requires fits { length bytes.now ≤ map_limit }
    ensures { HasEnded O.taken O.faults upgrade_task bytes.now (ended_with result) out.old out.new }
{
    match check_map(alloc, bytes)? {
        Verdict::Accepted { count } => write_upgraded(alloc, bytes, count, out),
        Verdict::Refused { line, cause } => {
            write_verdict(alloc, Verdict::Refused { line, cause }, out)
        }
    }
}
