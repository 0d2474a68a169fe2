// Parts are read and checked, one after another.

ghost use Rattle.std.specs.Prelude.{◌≡◌, ◌≤◌, ◌<◌, ◌+◌, ◌^◌, ◌++◌, ◌∷◌, ℕ, List, [], IfOk, IfSome};
ghost use Rattle.std.specs.Prelude.{IfNone, OnOk, OnSome, length, drop};
ghost use Rattle.std.specs.Result.{IfErr};
ghost use Rattle.ce_angle.specs.Farey.{IsAngleUpTo};
ghost use Rattle.ce_check.specs.Flaws.{HasFlaw};
ghost use Rattle.ce_map.specs.Grammar.{Item};
ghost use Rattle.ce_map.specs.PartGrammar.{IsPartAt};
ghost use Rattle.ce_map.specs.Views.{Shows};
ghost use Rattle.ce_merge.specs.Flaws.{IsItemCause, MayFollow};
ghost use Rattle.ce_merge.specs.ReadingInside.{IsItemLook, IsLastKey, IsShown, key_of};
ghost use Rattle.ce_merge.specs.ReadingInside.{IsFound, IsFurther, IsHeaderCause, IsInPart};
ghost use Rattle.ce_merge.specs.ReadingInside.{IsPartEnd, header_at};
ghost use Rattle.ce_rows.specs.Limits.{greatest_order};

use crate::MergeCause;
use crate::entry::Entry;
use ce_angle::Angle;
use ce_cert::Flaw;
use ce_check::{CheckRoom, ItemFlaw, angle_of, check_item};
use ce_map::{MapView, PartHeader, RecordView, Step, part_header};
use ce_rows::{NoMemory, Scale};
use std::alloc::Global;

/// What the bytes are: good parts of an order and a scale, or a first flaw.
#[derive(Clone, Copy, Debug, PartialEq, Eq)]
pub(crate) enum Found {
    Good { order: u32, scale: Scale },
    Refused { line: u64, cause: MergeCause },
}

// The place and the line after a part, or the line and the cause of the flaw in it.
#[derive(Clone, Copy)]
enum PartEnd {
    Whole(usize, u64),
    Flawed(u64, MergeCause),
}

// Keys of angles are in units of 2^-14.
const KEY_BITS: u32 = 14;

// A number for an angle up to 128: greater for a greater angle, and the same for the same alone,
// since two such angles differ by at least 2^-14.
fn key_of(angle: Angle) -> u64
    requires { IsAngleUpTo 128 angle }
    ensures { result ≡ key_of angle }
{
    (u64::from(angle.num()) << KEY_BITS) / u64::from(angle.den())
}

// The cause that a flaw of a certificate is.
fn cause_of(flaw: Flaw) -> MergeCause
    ensures { (order exponent : ℕ) (items : List Item) (item : Item)
        → MayFollow order items item.angle → HasFlaw exponent item flaw
        → IsItemCause order exponent items item result }
{
    match flaw {
        Flaw::Length => MergeCause::Length,
        Flaw::Rank => MergeCause::Rank,
        Flaw::Entry => MergeCause::Entry,
        Flaw::Low => MergeCause::Low,
        Flaw::High => MergeCause::High,
    }
}

// The angle up to an order that a fraction is, if it is one.
fn angle_up_to(num: u64, den: u64, order: u32) -> Option<Angle>
    ensures some { IfSome result (λ angle. angle ≡ record { num = num; den = den }) }
    ensures angle { IfSome result (IsAngleUpTo order) }
    ensures none { IfNone result (¬ (IsAngleUpTo order (record { num = num; den = den }))) }
{
    let Some(angle) = angle_of(num, den) else {
        return None;
    };
    if angle.den() > order {
        return None;
    }
    Some(angle)
}

// The key of a fraction that may follow items of which the last has a key, if it may.
fn key_after(num: u64, den: u64, order: u32, last: u64) -> Option<u64>
    requires { order ≤ greatest_order }
    ensures some { IfSome result (λ key. key ≡ key_of (record { num = num; den = den })) }
    ensures up { OnSome result (IsAngleUpTo order (record { num = num; den = den })) }
    ensures follows { (items : List Item) → IsLastKey order items last
        → IfSome result (λ _. MayFollow order items (record { num = num; den = den })) }
    ensures none { (items : List Item) → IsLastKey order items last
        → IfNone result (¬ (MayFollow order items (record { num = num; den = den }))) }
{
    let Some(angle) = angle_up_to(num, den, order) else {
        return None;
    };
    let key = key_of(angle);
    if key < last {
        return None;
    }
    Some(key)
}

// The key of an item after items of which the last has a key, or what is wrong with it.
fn look_at(
    alloc: Global,
    room: &mut CheckRoom,
    item: &RecordView<'_>,
    order: u32,
    scale: Scale,
    last: u64,
) -> Result<Result<u64, MergeCause>, NoMemory>
    requires few { order ≤ greatest_order }
    requires shown { IsShown item.now }
    ensures { (items : List Item) (shown : Item) → Shows 2 shown item.now
        → IsLastKey order items last → IfOk result (IsItemLook order scale items shown) }
{
    let Some(key) = key_after(item.num, item.den, order, last) else {
        return Ok(Err(MergeCause::Order));
    };
    match check_item(alloc, room, item, scale)? {
        None => Ok(Ok(key)),
        Some(ItemFlaw::Cert(flaw)) => Ok(Err(cause_of(flaw))),
        Some(ItemFlaw::Angle) => unreachable!(),
    }
}

// What is remembered of an item with a key.
fn entry_of(item: &RecordView<'_>, key: u64) -> Entry
    requires { item.now.from + length item.now.text.now < 2 ^ 64 }
    ensures key { result.key ≡ key }
    ensures low { result.low ≡ item.now.low }
    ensures high { result.high ≡ item.now.high }
    ensures from { result.from ≡ item.now.from }
    ensures to { result.to ≡ item.now.from + length item.now.text.now }
{
    Entry {
        key,
        low: item.low,
        high: item.high,
        from: item.from,
        to: item.from + item.text.len(),
    }
}

// Appends an entry.
fn remember(entries: &mut Vec<Entry>, entry: Entry) -> Result<(), NoMemory>
    ensures { OnOk result (entries.new.items ≡ entries.old.items ++ entry ∷ []) }
{
    match entries.push(entry) {
        Ok(()) => Ok(()),
        Err(_) => Err(NoMemory),
    }
}

// The items of a part and its end, after its header.
fn read_part(
    alloc: Global,
    room: &mut CheckRoom,
    view: &mut MapView<'_>,
    order: u32,
    scale: Scale,
    entries: &mut Vec<Entry>,
) -> Result<PartEnd, NoMemory>
    requires few { order ≤ greatest_order }
    requires short { length view.old.bytes < 2 ^ 63 }
    requires begun { IsInPart (header_at order scale) view.old entries.old.items 0 0 }
    ensures end { IfOk result (IsPartEnd (header_at order scale) view.old.bytes entries.new.items) }
    ensures further { IfOk result (IsFurther view.old.at) }
{
    let mut last: u64 = 0;
    let mut count: u64 = 0;
    loop {
        match view.next() {
            Step::Item(item) => match look_at(alloc, room, &item, order, scale, last)? {
                Ok(key) => {
                    remember(entries, entry_of(&item, key))?;
                    last = key;
                    count += 1;
                }
                Err(cause) => return Ok(PartEnd::Flawed(item.line, cause)),
            },
            Step::End { line, count: told } => {
                if told != count {
                    return Ok(PartEnd::Flawed(line, MergeCause::Count));
                }
                return Ok(PartEnd::Whole(view.at(), line + 1));
            }
            Step::Form { line } => return Ok(PartEnd::Flawed(line, MergeCause::Form)),
            Step::Header { .. } | Step::Tail { .. } | Step::Over => unreachable!(),
        }
    }
}

// The header of a part with an order and a scale, at a place where bytes are left, or what is wrong
// there.
fn next_header(bytes: &[u8], at: usize, order: u32, scale: Scale) -> Result<PartHeader, MergeCause>
    requires { at ≤ length bytes.now }
    ensures place { IfOk result (λ h. IsPartAt bytes.now at (header_at order scale) h.end) }
    ensures cause { IfErr result (IsHeaderCause (header_at order scale) (drop at bytes.now)) }
{
    let Some(later) = part_header(bytes, at) else {
        return Err(MergeCause::Form);
    };
    if later.order != order || later.scale != scale {
        return Err(MergeCause::Header);
    }
    Ok(later)
}

/// The entries of the items of good parts, in their order, or the first flaw of the bytes.
pub(crate) fn read_parts(
    alloc: Global,
    bytes: &[u8],
    entries: &mut Vec<Entry>,
) -> Result<Found, NoMemory>
    requires { entries.old.items ≡ [] }
    ensures { IfOk result (IsFound bytes.now entries.new.items) }
{
    let Some(first) = part_header(bytes, 0) else {
        return Ok(Found::Refused {
            line: 1,
            cause: MergeCause::Form,
        });
    };
    let PartHeader { order, scale, .. } = first;
    let mut room = CheckRoom::new(alloc)?;
    let mut header = first;
    let mut line: u64 = 1;
    loop {
        let mut view = MapView::items(bytes, header.end, line + 1, 2);
        let end = read_part(alloc, &mut room, &mut view, order, scale, entries)?;
        match end {
            PartEnd::Flawed(line, cause) => return Ok(Found::Refused { line, cause }),
            PartEnd::Whole(at, next) => {
                if at == bytes.len() {
                    return Ok(Found::Good { order, scale });
                }
                match next_header(bytes, at, order, scale) {
                    Ok(later) => header = later,
                    Err(cause) => return Ok(Found::Refused { line: next, cause }),
                }
                line = next;
            }
        }
    }
}
