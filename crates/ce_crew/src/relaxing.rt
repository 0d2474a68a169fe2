// The sweep of a turn over the worker's part of the vector.
ghost use Rattle.std.specs.Prelude.{◌≡◌, ◌<◌, ◌≤◌, [], ◌∷◌, length};
ghost use Rattle.std.specs.List.{flat_map};
ghost use Rattle.ce_core.specs.Machine.{carried};
ghost use Rattle.ce_rows.specs.declared.act.Act.TheVariants.{Relaxes};
ghost use Rattle.ce_words.specs.Logs.{in_part};
ghost use Rattle.ce_words.specs.Seats.{board_run};
ghost use Rattle.ce_words.specs.Views.{view, rows_of, kept, seen_low, seen_high};
ghost use Rattle.ce_crew.specs.Gains.{Gains, IsAtWork, IsRunStart, IsGraphOf};
ghost use Rattle.ce_crew.specs.Turn.{relaxing_acts, entries_between};
ghost use Rattle.ce_rows.specs.Limits.{entry_limit};

use crate::loading::{load_images, load_one};
use ce_rows::Rows;
use ce_vector::Relaxer;
use ce_words::{Board, Part, Seat};

// Stores a relaxed value, which is the machine's.
fn store_relaxed(board: &Board, seat: &mut Seat, copy: &mut [u64], i: u32, value: u64)
    requires work { IsAtWork board.now seat.old copy.old }
    requires entry { i < length (board_run board.now).rows }
    requires own { in_part i (view seat.old).place.part ≡ 1 }
    requires some { 1 ≤ value }
    requires most { value ≤ entry_limit }
    requires value { let run = board_run board.now in
        value ≡ carried (rows_of run) run.ranks (kept run (view seat.old).place.log) (Relaxes i) }
    ensures work { IsAtWork board.now seat.new copy.new }
    ensures gains { Gains (Relaxes i ∷ []) value (view seat.old) (view seat.new) copy.old copy.new }
{
    board.store_entry(seat, i, value, false);
    copy[i as usize] = value;
}

// Relaxes one entry between the bounds that the seat last saw: loads it and its images in its
// block, and stores the relaxed value, which it answers.
fn relax_entry(
    board: &Board,
    seat: &mut Seat,
    rows: &Rows,
    ranks: &[u32],
    copy: &mut [u64],
    relaxer: &Relaxer,
    i: u32,
) -> u64
    requires start { IsRunStart (board_run board.now) }
    requires work { IsAtWork board.now seat.old copy.old }
    requires graph { IsGraphOf (board_run board.now) rows.now ranks.now }
    requires entry { i < length rows.now.list }
    requires own { in_part i (view seat.old).place.part ≡ 1 }
    requires between { relaxer.now ≡ record {
      exponent = rows.now.exponent;
      low = seen_low (view seat.old);
      high = seen_high (view seat.old);
    } }
    ensures work { IsAtWork board.now seat.new copy.new }
    ensures gains { Gains (relaxing_acts (board_run board.now) i) result
        (view seat.old) (view seat.new) copy.old copy.new }
{
    load_one(board, seat, copy, i);
    let sum = load_images(board, seat, rows, ranks, copy, i);
    let value = relaxer.relax(copy[i as usize], sum);
    store_relaxed(board, seat, copy, i, value);
    value
}

// Relaxes the entries of the seat's part in ascending order. Answers the greatest relaxed value.
pub(crate) fn relax_part(
    board: &Board,
    seat: &mut Seat,
    rows: &Rows,
    ranks: &[u32],
    copy: &mut [u64],
    relaxer: &Relaxer,
    part: Part,
) -> u64
    requires start { IsRunStart (board_run board.now) }
    requires work { IsAtWork board.now seat.old copy.old }
    requires graph { IsGraphOf (board_run board.now) rows.now ranks.now }
    requires part { part ≡ (view seat.old).place.part }
    requires ordered { part.from ≤ part.to }
    requires within { part.to ≤ length rows.now.list }
    requires between { relaxer.now ≡ record {
      exponent = rows.now.exponent;
      low = seen_low (view seat.old);
      high = seen_high (view seat.old);
    } }
    ensures work { IsAtWork board.now seat.new copy.new }
    ensures gains { Gains (flat_map (relaxing_acts (board_run board.now)) (entries_between part.from part.to)) result
        (view seat.old) (view seat.new) copy.old copy.new }
{
    let mut greatest = 0;
    for i in part.from..part.to {
        let value = relax_entry(board, seat, rows, ranks, copy, relaxer, i);
        greatest = value.max(greatest);
    }
    greatest
}
