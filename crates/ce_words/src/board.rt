// The words of a run: word 0 is the low bound, word 1 the high bound, word 2 the count of
// rescalings that were asked for, word 3 the stop word, and word 4 + i the entry i.
ghost use Rattle.std.specs.Prelude.{◌≡◌, ◌∷◌, ◌≤◌, ◌<◌, ◌+◌, true, IfOk, ℕ, length, slice_index, if◌then◌else◌};
ghost use Rattle.ce_cert.specs.Start.{IsStart};
ghost use Rattle.ce_rows.specs.Rows.{EnclosesRows, IsLowerBoundOf, IsUpperBoundOf};
ghost use Rattle.ce_rows.specs.declared.act.Act.TheVariants.{Loads, Relaxes, Shrinks, LoadsLow, LoadsHigh, Raises};
ghost use Rattle.ce_rows.specs.declared.act.Act.TheVariants.{Lowers, LoadsShift, LoadsStop, Stops};
ghost use Rattle.ce_words.specs.Logs.{is_raise, is_lower, is_ask, is_stop, times, halts, last_value, in_part};
ghost use Rattle.ce_words.specs.Logs.{by_place, Each};
ghost use Rattle.ce_words.specs.Views.{run_of, rows_of, view, opened, noted, logged, seen_low, seen_high, cut_left};
ghost use Rattle.ce_words.specs.Views.{cut_right, both_of, CanCut};
ghost use Rattle.ce_rows.specs.Limits.{entry_limit};

use crate::plays::{
    AskShift, Cut, Glue, LoadEntry, LoadHigh, LoadLow, LoadShift, LoadStop, LowerHigh, Parting,
    RaiseLow, RelaxEntry, SetStop, ShrinkEntry,
};
use crate::rule::{Key, Rule};
use crate::view::{Part, Seat, View};
use atomic_table::Table;
use ce_rows::{Interval, NoMemory, Rows};
use std::alloc::Global;
use std::marker::Brand;
use std::snapshot::Snapshot;

/// The shared state of a run: bounds and entries that threads update by single atomic steps.
#[derive(Drop)]
pub struct Board {
    table: Table<(), View, Key, Rule, Global>,
    ghost sized: { table.shared.table_id.words ≡ 4 + length (run_of table.shared.key).rows },
    ghost no_slots: { table.shared.table_id.slots ≡ 0 },
}

impl Board {
    ghost use Rattle.ce_words.specs.Invariant.{most_rescalings};
    ghost use Rattle.ce_words.specs.Seats.{board_run, Sits};
    ghost use Rattle.ce_words.specs.Steps.{IsWhole, IsSettled, IsStep, LiesInside, HasAsked, WasSet};
    ghost use Rattle.ce_words.specs.declared.view.Role.TheVariants.{First, Other};

    /// The words of a run at its start, and the first seat, which owns all entries.
    pub fn new(
        alloc: Global,
        rows: &Rows,
        ranks: &[u32],
        start: &[u64],
        initial: Interval,
    ) -> Result<(Board, Seat), NoMemory>
        requires start { IsStart rows.now ranks.now start.now initial.low initial.high }
        ensures run { IfOk result (λ made. board_run made.0 ≡ record {
          rows = rows.now.list;
          exponent = rows.now.exponent;
          ranks = ranks.now;
          start = start.now;
          initial = initial;
        }) }
        ensures seat { IfOk result (λ made. Sits made.0 made.1) }
        ensures view { IfOk result (λ made. view made.1 ≡ opened (board_run made.0)) }
    {
        let mut words = Vec::with_capacity(alloc, 4)?;
        words.extend_from_slice(&[initial.low, initial.high, 0, 0])?;
        words.extend_from_slice(start)?;
        let mut kept_ranks = Vec::new(alloc);
        kept_ranks.extend_from_slice(ranks)?;
        let key = Key {
            rows: Snapshot::of(rows),
            ranks: Snapshot::of(&kept_ranks),
            words: Snapshot::of(&words),
            initial,
        };
        let (table, seat) = Table::of_words(alloc, words.as_slice(), &key)?;
        Ok((Board { table }, seat))
    }

    /// A new seat for a part that the first seat never split off, or for an empty part. Its log is
    /// a copy of the first seat's.
    pub fn split(&self, first: &mut Seat, part: Part) -> Seat
        requires seat { Sits self.now first.old }
        requires first { (view first.old).role ≡ First }
        requires part { CanCut (view first.old) part }
        ensures sits { Sits self.now first.new }
        ensures left { view first.new ≡ cut_left (view first.old) part }
        ensures seat { Sits self.now result }
        ensures right { view result ≡ cut_right (view first.old) part }
    {
        self.split_as::<Brand>(first, part)
    }

    // The same, where the part is also a ghost argument.
    fn split_as<J: Parting>(&self, first: &mut Seat, _part: Part) -> Seat
        requires picked { J.part ≡ _part }
        requires seat { Sits self.now first.old }
        requires first { (view first.old).role ≡ First }
        requires part { CanCut (view first.old) _part }
        ensures sits { Sits self.now first.new }
        ensures left { view first.new ≡ cut_left (view first.old) _part }
        ensures seat { Sits self.now result }
        ensures right { view result ≡ cut_right (view first.old) _part }
    {
        self.table.shared.split_seat::<Cut<J>>(first)
    }

    /// Ends a seat that was split off: the first seat knows its log from here on, and nobody stores
    /// to its part again.
    pub fn join(&self, first: &mut Seat, other: Seat)
        requires seat { Sits self.now first.old }
        requires first { (view first.old).role ≡ First }
        requires other { Sits self.now other }
        requires split { (view other).role ≡ Other }
        ensures sits { Sits self.now first.new }
        ensures view { view first.new ≡ both_of (view first.old) (view other) }
    {
        self.table.shared.join_seat::<Glue>(first, other);
    }

    // One load of the low bound. The seat has seen it then.
    fn load_low(&self, seat: &mut Seat) -> u64
        requires { Sits self.now seat.old }
        ensures sits { Sits self.now seat.new }
        ensures view { view seat.new ≡ noted (view seat.old) (logged LoadsLow 0 result) }
        ensures step { IsStep (view seat.old) LoadsLow 0 result }
    {
        self.table.shared.load::<LoadLow>(seat, 0)
    }

    // One load of the high bound. The seat has seen it then.
    fn load_high(&self, seat: &mut Seat) -> u64
        requires { Sits self.now seat.old }
        ensures sits { Sits self.now seat.new }
        ensures view { view seat.new ≡ noted (view seat.old) (logged LoadsHigh 0 result) }
        ensures step { IsStep (view seat.old) LoadsHigh 0 result }
    {
        self.table.shared.load::<LoadHigh>(seat, 1)
    }

    /// The low bound at one step and then the high bound at another: they enclose, since low only
    /// rises and high only falls.
    pub fn load_bounds(&self, seat: &mut Seat) -> Interval
        requires { Sits self.now seat.old }
        ensures sits { Sits self.now seat.new }
        ensures view { view seat.new
            ≡ noted (noted (view seat.old) (logged LoadsLow 0 result.low)) (logged LoadsHigh 0 result.high) }
        ensures low_step { IsStep (view seat.old) LoadsLow 0 result.low }
        ensures high_step { IsStep (noted (view seat.old) (logged LoadsLow 0 result.low)) LoadsHigh 0 result.high }
        ensures encloses { EnclosesRows (rows_of (board_run self.now)) result.low result.high }
        ensures inside_initial { let run = board_run self.now in
            LiesInside run.initial.low run.initial.high result.low result.high }
        ensures inside_seen { LiesInside (seen_low (view seat.old)) (seen_high (view seat.old)) result.low result.high }
        ensures raised { (c : ℕ) → 0 < by_place (λ p. times is_raise c p.log) (view seat.old) → c ≤ result.low }
        ensures lowered { (c : ℕ) → 0 < by_place (λ p. times is_lower c p.log) (view seat.old) → result.high ≤ c }
        ensures stopped { 0 < by_place (λ p. halts p.log) (view seat.old) → result.low ≡ result.high }
    {
        let low = self.load_low(seat);
        let high = self.load_high(seat);
        Interval { low, high }
    }

    /// Raises the low bound to a proved one, if that is greater, and answers the low bound after
    /// the step.
    pub fn raise_low(&self, seat: &mut Seat, low: u64) -> u64
        requires seat { Sits self.now seat.old }
        requires below { IsLowerBoundOf (rows_of (board_run self.now)) low }
        ensures sits { Sits self.now seat.new }
        ensures view { view seat.new ≡ noted (view seat.old) (logged Raises low result) }
        ensures step { IsStep (view seat.old) Raises low result }
        ensures below { IsLowerBoundOf (rows_of (board_run self.now)) result }
        ensures raised { low ≤ result }
        ensures seen { seen_low (view seat.old) ≤ result }
    {
        let before = self.table.shared.fetch_max::<RaiseLow>(seat, 0, low);
        before.max(low)
    }

    /// Lowers the high bound to a proved one, if that is less, and answers the high bound after the
    /// step.
    pub fn lower_high(&self, seat: &mut Seat, high: u64) -> u64
        requires seat { Sits self.now seat.old }
        requires above { IsUpperBoundOf (rows_of (board_run self.now)) high }
        ensures sits { Sits self.now seat.new }
        ensures view { view seat.new ≡ noted (view seat.old) (logged Lowers high result) }
        ensures step { IsStep (view seat.old) Lowers high result }
        ensures above { IsUpperBoundOf (rows_of (board_run self.now)) result }
        ensures lowered { result ≤ high }
        ensures seen { result ≤ seen_high (view seat.old) }
    {
        let before = self.table.shared.fetch_min::<LowerHigh>(seat, 1, high);
        before.min(high)
    }

    /// One load of an entry: a value that it held, and of an own entry the one last stored.
    pub fn load_entry(&self, seat: &mut Seat, i: u32) -> u64
        requires seat { Sits self.now seat.old }
        requires entry { i < length (board_run self.now).rows }
        ensures sits { Sits self.now seat.new }
        ensures view { view seat.new ≡ noted (view seat.old) (logged (Loads i) 0 result) }
        ensures step { IsStep (view seat.old) (Loads i) 0 result }
        ensures positive { 1 ≤ result }
        ensures small { result ≤ entry_limit }
        ensures owned { Each (λ p. in_part i p.part ≡ 1
            → result ≡ last_value i (slice_index (board_run self.now).start i) p.log)
            ((view seat.old).place ∷ (view seat.old).joined) }
    {
        self.table.shared.load::<LoadEntry>(seat, 4 + i as usize)
    }

    /// One store to an own entry, logged as a rescaling or as a relaxation.
    pub fn store_entry(&self, seat: &mut Seat, i: u32, value: u64, shrinks: bool)
        requires seat { Sits self.now seat.old }
        requires entry { i < length (board_run self.now).rows }
        requires own { in_part i (view seat.old).place.part ≡ 1 }
        requires positive { 1 ≤ value }
        requires small { value ≤ entry_limit }
        ensures sits { Sits self.now seat.new }
        ensures view { view seat.new
            ≡ noted (view seat.old) (logged (if shrinks then Shrinks i else Relaxes i) value value) }
        ensures step { IsStep (view seat.old) (if shrinks then Shrinks i else Relaxes i) value value }
    {
        let word = 4 + i as usize;
        if shrinks {
            self.table.shared.store::<ShrinkEntry>(seat, word, value);
        } else {
            self.table.shared.store::<RelaxEntry>(seat, word, value);
        }
    }

    /// One load of the count of rescalings that were asked for.
    pub fn load_shift(&self, seat: &mut Seat) -> u64
        requires { Sits self.now seat.old }
        ensures sits { Sits self.now seat.new }
        ensures view { view seat.new ≡ noted (view seat.old) (logged LoadsShift 0 result) }
        ensures step { IsStep (view seat.old) LoadsShift 0 result }
        ensures few { result ≤ most_rescalings }
        ensures asked { (c : ℕ) → 0 < by_place (λ p. times is_ask c p.log) (view seat.old) → c ≤ result }
    {
        self.table.shared.load::<LoadShift>(seat, 2)
    }

    /// Raises the count of rescalings that were asked for to a number, if that is greater.
    pub fn ask_shift(&self, seat: &mut Seat, count: u64)
        requires seat { Sits self.now seat.old }
        requires few { count ≤ most_rescalings }
        ensures sits { Sits self.now seat.new }
        ensures asked { HasAsked (view seat.old) count (view seat.new) }
    {
        self.table.shared.fetch_max::<AskShift>(seat, 2, count);
    }

    /// Whether the stop word is set. Once it is set it stays so, and the bounds are equal.
    pub fn load_stop(&self, seat: &mut Seat) -> bool
        requires { Sits self.now seat.old }
        ensures sits { Sits self.now seat.new }
        ensures view { view seat.new ≡ noted (view seat.old) (logged LoadsStop 0 (if result then 1 else 0)) }
        ensures step { IsStep (view seat.old) LoadsStop 0 (if result then 1 else 0) }
        ensures set { 0 < by_place (λ p. times is_stop 1 p.log) (view seat.old) → result ≡ true }
    {
        self.table.shared.load::<LoadStop>(seat, 3) == 1
    }

    /// Sets the stop word, where the bounds that the seat last saw are equal.
    pub fn set_stop(&self, seat: &mut Seat)
        requires seat { Sits self.now seat.old }
        requires equal { seen_low (view seat.old) ≡ seen_high (view seat.old) }
        ensures sits { Sits self.now seat.new }
        ensures view { view seat.new ≡ noted (view seat.old) (logged Stops 1 1) }
        ensures step { IsStep (view seat.old) Stops 1 1 }
    {
        self.table.shared.store::<SetStop>(seat, 3, 1);
    }

    /// The bounds, once every seat that was split off was joined: the best of the initial enclosure
    /// and of all that any seat certified.
    pub fn settled(&self, first: &mut Seat) -> Interval
        requires seat { Sits self.now first.old }
        requires whole { IsWhole (view first.old) }
        ensures sits { Sits self.now first.new }
        ensures view { view first.new
            ≡ noted (noted (view first.old) (logged LoadsLow 0 result.low)) (logged LoadsHigh 0 result.high) }
        ensures encloses { EnclosesRows (rows_of (board_run self.now)) result.low result.high }
        ensures settled { IsSettled (view first.old) result.low result.high }
        ensures set { WasSet (view first.old) }
    {
        self.load_bounds(first)
    }

    /// The same as `settled`, and the board is gone.
    pub fn close(self, first: Seat) -> Interval
        requires seat { Sits self first }
        requires whole { IsWhole (view first) }
        ensures encloses { EnclosesRows (rows_of (board_run self)) result.low result.high }
        ensures settled { IsSettled (view first) result.low result.high }
        ensures set { WasSet (view first) }
    {
        let Board { table } = self;
        let closed = table.close_with(first);
        let low = closed.word(0);
        let high = closed.word(1);
        closed.free();
        Interval { low, high }
    }
}
