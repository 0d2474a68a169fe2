// A whole map file.
ghost use Rattle.std.specs.Prelude.{◌≡◌, ◌≤◌, ◌∷◌, ◌↔◌, ℕ, [], IsTrue, IfOk, IfSome};
ghost use Rattle.ce_angle.specs.Farey.{IsAngleUpTo};
ghost use Rattle.ce_check.specs.ChecksInside.{IsAfterHeader, IsEndLook, IsItemLook, cause_of};
ghost use Rattle.ce_check.specs.ChecksInside.{expected};
ghost use Rattle.ce_check.specs.Flaws.{IsAbove};
ghost use Rattle.ce_check.specs.Verdicts.{IsVerdict};
ghost use Rattle.ce_map.specs.Grammar.{Item};
ghost use Rattle.ce_map.specs.Views.{IsShown, Shows};
ghost use Rattle.ce_map.specs.declared.view.Stage.TheVariants as Stage;
ghost use Rattle.ce_rows.specs.Limits.{greatest_order};

use crate::item::angle_of;
use crate::{Cause, CheckRoom, ItemFlaw, Verdict, check_item};
use ce_angle::{Angle, Farey};
use ce_cert::Flaw;
use ce_map::{MapView, RecordView, Step};
use ce_rows::{NoMemory, Scale};
use std::alloc::Global;
use std::cmp::Ordering;

// Whether a fraction is an angle up to an order above another one.
fn is_above(num: u64, den: u64, order: u32, than: Angle) -> bool
    ensures { IsTrue result ↔ IsAbove order (than ∷ []) (record { num = num; den = den }) }
{
    let Some(angle) = angle_of(num, den) else {
        return false;
    };
    if angle.den() > order {
        return false;
    }
    match angle.compare(&than) {
        Ordering::Greater => true,
        _ => false,
    }
}

// The cause that a flaw of a certificate is.
fn cause_of(flaw: Flaw) -> Cause
    ensures { result ≡ cause_of flaw }
{
    match flaw {
        Flaw::Length => Cause::Length,
        Flaw::Rank => Cause::Rank,
        Flaw::Entry => Cause::Entry,
        Flaw::Low => Cause::Low,
        Flaw::High => Cause::High,
    }
}

// What is wrong with an item where an angle of an order is expected, or none.
fn look_at(
    alloc: Global,
    room: &mut CheckRoom,
    item: &RecordView<'_>,
    next: Option<Angle>,
    order: u32,
    scale: Scale,
) -> Result<Option<Cause>, NoMemory>
    requires few { order ≤ greatest_order }
    requires next { IfSome next (IsAngleUpTo order) }
    requires shown { IsShown item.now }
    ensures { (version : ℕ) (shown : Item) → Shows version shown item.now
        → IfOk result (IsItemLook order scale (expected next) shown) }
{
    let Some(angle) = next else {
        return Ok(Some(Cause::Order));
    };
    if u64::from(angle.num()) != item.num || u64::from(angle.den()) != item.den {
        if is_above(item.num, item.den, order, angle) {
            return Ok(Some(Cause::Missing));
        }
        return Ok(Some(Cause::Order));
    }
    match check_item(alloc, room, item, scale)? {
        None => Ok(None),
        Some(ItemFlaw::Cert(flaw)) => Ok(Some(cause_of(flaw))),
        Some(ItemFlaw::Angle) => unreachable!(),
    }
}

// The verdict where an end stands after so many good items, with the number that it has.
fn look_at_end(view: &mut MapView<'_>, complete: bool, items: u64, line: u64, told: u64) -> Verdict
    requires { view.old.stage ≡ Stage.Ended }
    ensures { IsEndLook complete items told line view.old result }
{
    if !complete {
        return Verdict::Refused {
            line,
            cause: Cause::Missing,
        };
    }
    if told != items {
        return Verdict::Refused {
            line,
            cause: Cause::Count,
        };
    }
    match view.next() {
        Step::Tail { line } => Verdict::Refused {
            line,
            cause: Cause::Tail,
        },
        Step::Over => Verdict::Accepted { count: items },
        _ => unreachable!(),
    }
}

// The verdict on the parts after a header.
fn check_parts(
    alloc: Global,
    view: &mut MapView<'_>,
    order: u32,
    scale: Scale,
) -> Result<Verdict, NoMemory>
    requires { IsAfterHeader order scale view.old }
    ensures { IfOk result (IsVerdict view.old.bytes) }
{
    let mut room = CheckRoom::new(alloc)?;
    let mut angles = Farey::start(order);
    let mut next = angles.next();
    let mut count: u64 = 0;
    loop {
        match view.next() {
            Step::Item(item) => {
                if let Some(cause) = look_at(alloc, &mut room, &item, next, order, scale)? {
                    return Ok(Verdict::Refused {
                        line: item.line,
                        cause,
                    });
                }
                count += 1;
                next = angles.next();
            }
            Step::End { line, count: told } => {
                return Ok(look_at_end(view, next.is_none(), count, line, told));
            }
            Step::Form { line } => {
                return Ok(Verdict::Refused {
                    line,
                    cause: Cause::Form,
                });
            }
            Step::Header { .. } | Step::Tail { .. } | Step::Over => unreachable!(),
        }
    }
}

/// Whether the bytes are a good map, of version 1 or 2, or their first flaw. One room serves all
/// items; for each item its rows alone take memory.
pub fn check_map(alloc: Global, bytes: &[u8]) -> Result<Verdict, NoMemory>
    ensures { IfOk result (IsVerdict bytes.now) }
{
    let mut view = MapView::new(bytes);
    match view.next() {
        Step::Header { order, scale, .. } => check_parts(alloc, &mut view, order, scale),
        Step::Form { line } => Ok(Verdict::Refused {
            line,
            cause: Cause::Form,
        }),
        _ => unreachable!(),
    }
}
