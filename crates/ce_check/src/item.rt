// One item of a map.
ghost use Rattle.std.specs.Prelude.{◌≡◌, ◌≤◌, ℕ, List, length, take, map, vec_len, IfOk, IfSome};
ghost use Rattle.std.specs.Prelude.{IfNone};
ghost use Rattle.ce_angle.specs.Fraction.{IsAngle};
ghost use Rattle.ce_check.specs.GoodMap.{IsShortOrbitOf};
ghost use Rattle.ce_check.specs.ItemsInside.{cut, IsFlawOfItem};
ghost use Rattle.ce_check.specs.Verdicts.{IsItemVerdict};
ghost use Rattle.ce_map.specs.Grammar.{Item};
ghost use Rattle.ce_map.specs.Lists.{IsListOf};
ghost use Rattle.ce_map.specs.Views.{Shows};
ghost use Rattle.ce_orbit.specs.Orbit.{ForwardOrbit};

use crate::CheckRoom;
use ce_angle::Angle;
use ce_cert::{CertView, Flaw, check};
use ce_map::{Numbers, RecordView};
use ce_orbit::Orbit;
use ce_rows::{NoMemory, Rows, Scale};
use ce_thurston::rows_of;
use std::alloc::Global;

/// What is wrong with an item.
#[derive(Clone, Copy, Debug, PartialEq, Eq)]
pub enum ItemFlaw {
    /// Its fraction is no angle in lowest terms with a denominator of at most 2^31 and an orbit of
    /// at most 128 angles.
    Angle,
    /// Its certificate does not hold for the rows of its angle.
    Cert(Flaw),
}

// Puts the numbers of a list, so many, at the start of room that has as much.
fn read_entries(numbers: Numbers<'_>, room: &mut Vec<u64>, count: usize)
    requires { count ≤ vec_len room.old }
    ensures long { vec_len room.new ≡ vec_len room.old }
    ensures list { (base : ℕ) (list : List ℕ) → IsListOf base list numbers.entry
        → length list ≡ count
        → take count room.new.items ≡ list }
{
    let mut left = numbers;
    for i in 0..count {
        let Some(entry) = left.next() else {
            return;
        };
        room[i] = entry;
    }
}

// The same for ranks, where those that are too great for 32 bits are the greatest of 32 bits.
fn read_ranks(numbers: Numbers<'_>, room: &mut Vec<u32>, count: usize)
    requires { count ≤ vec_len room.old }
    ensures long { vec_len room.new ≡ vec_len room.old }
    ensures list { (base : ℕ) (list : List ℕ) → IsListOf base list numbers.entry
        → length list ≡ count
        → take count room.new.items ≡ map cut list }
{
    let mut left = numbers;
    for i in 0..count {
        let Some(rank) = left.next() else {
            return;
        };
        room[i] = cut_rank(rank);
    }
}

// A rank, or the greatest number of 32 bits where it is greater.
fn cut_rank(rank: u64) -> u32
    ensures { result ≡ cut rank }
{
    rank.min(u64::from(u32::MAX)) as u32
}

/// The angle that a fraction is, if it is one in lowest terms within the limits.
pub fn angle_of(num: u64, den: u64) -> Option<Angle>
    ensures some { IfSome result (λ angle. angle ≡ record { num = num; den = den }) }
    ensures angle { IfSome result IsAngle }
    ensures none { IfNone result (¬ (IsAngle (record { num = num; den = den }))) }
{
    let Ok(angle) = Angle::new(num, den) else {
        return None;
    };
    if u64::from(angle.num()) != num || u64::from(angle.den()) != den {
        return None;
    }
    Some(angle)
}

// The orbit of a fraction, if it is an angle in lowest terms with an orbit that is short enough.
fn orbit_of(num: u64, den: u64) -> Option<Orbit>
    ensures some { IfSome result (IsShortOrbitOf (record { num = num; den = den })) }
    ensures none { IfNone result ((o : ForwardOrbit)
        → ¬ (IsShortOrbitOf (record { num = num; den = den }) o)) }
{
    let angle = angle_of(num, den)?;
    match Orbit::of(angle) {
        Ok(orbit) => Some(orbit),
        Err(_) => None,
    }
}

// The first flaw of an item for rows, if there is one.
fn flaw_of(room: &mut CheckRoom, item: &RecordView<'_>, rows: &Rows) -> Option<Flaw>
    ensures { (version : ℕ) (shown : Item) → Shows version shown item.now
        → IsFlawOfItem rows.now shown.evidence result }
{
    let len = rows.len() as usize;
    if item.ranks.count() != len
        || item.low_vector.count() != len
        || item.high_vector.count() != len
    {
        return Some(Flaw::Length);
    }
    read_ranks(item.ranks, &mut room.ranks, len);
    read_entries(item.low_vector, &mut room.low_vector, len);
    read_entries(item.high_vector, &mut room.high_vector, len);
    let cert = CertView {
        ranks: &room.ranks[..len],
        low_rank: cut_rank(item.low_rank),
        low_vector: &room.low_vector[..len],
        high_vector: &room.high_vector[..len],
        low: item.low,
        high: item.high,
    };
    check(rows, &cert)
}

/// The first flaw of an item at a scale, if there is one. The rows of its angle alone take memory.
pub fn check_item(
    alloc: Global,
    room: &mut CheckRoom,
    item: &RecordView<'_>,
    scale: Scale,
) -> Result<Option<ItemFlaw>, NoMemory>
    ensures { (version : ℕ) (shown : Item) → Shows version shown item.now
        → IfOk result (IsItemVerdict scale shown) }
{
    let Some(orbit) = orbit_of(item.num, item.den) else {
        return Ok(Some(ItemFlaw::Angle));
    };
    let rows = rows_of(alloc, &orbit)?.with_scale(scale);
    match flaw_of(room, item, &rows) {
        Some(flaw) => Ok(Some(ItemFlaw::Cert(flaw))),
        None => Ok(None),
    }
}
