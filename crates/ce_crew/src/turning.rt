// A turn after its opening.
ghost use Rattle.std.specs.Prelude.{◌≡◌, ◌<◌, ◌≤◌, length};
ghost use Rattle.ce_cert.specs.Vectors.{IsVectorOf};
ghost use Rattle.ce_rows.specs.Rows.{EnclosesRows};
ghost use Rattle.ce_words.specs.Invariant.{most_rescalings};
ghost use Rattle.ce_words.specs.Seats.{board_run, Sits};
ghost use Rattle.ce_words.specs.Steps.{LiesInside};
ghost use Rattle.ce_words.specs.Views.{view, rows_of, kept, seen_low, seen_high};
ghost use Rattle.ce_crew.specs.Gains.{Finishes, EndsOffering, IsRunStart, IsGraphOf};
ghost use Rattle.ce_crew.specs.Rooms.{AreBoundsOf};
ghost use Rattle.ce_crew.specs.Turn.{rescalings_after};

use crate::certifying::certify;
use crate::loading::load_all;
use crate::opening::Sight;
use crate::relaxing::relax_part;
use crate::rescaling::rescale_or_ask;
use ce_cert::Bounds;
use ce_rows::Rows;
use ce_vector::Relaxer;
use ce_words::{Board, Part, Seat};

// What a turn found: the bounds of the vector, and how many rescalings are made then.
#[derive(Clone, Copy, Drop)]
pub(crate) struct Found {
    pub bounds: Bounds,
    pub made: u32,
}

// Relaxes the part between the bounds that were seen, sees to great entries, loads the whole vector
// and offers its bounds.
pub(crate) fn sweep(
    board: &Board,
    seat: &mut Seat,
    rows: &Rows,
    ranks: &[u32],
    copy: &mut [u64],
    scratch: &mut [u64],
    part: Part,
    made: u32,
    sight: Sight,
) -> Found
    requires start { IsRunStart (board_run board.now) }
    requires seat { Sits board.now seat.old }
    requires graph { IsGraphOf (board_run board.now) rows.now ranks.now }
    requires copy { IsVectorOf (rows_of (board_run board.now)) copy.old }
    requires scratch { length scratch.old ≡ length rows.now.list }
    requires part { part ≡ (view seat.old).place.part }
    requires ordered { part.from ≤ part.to }
    requires within { part.to ≤ length rows.now.list }
    requires few { made < most_rescalings }
    requires low { sight.bounds.low ≡ seen_low (view seat.old) }
    requires high { sight.bounds.high ≡ seen_high (view seat.old) }
    requires asked { sight.asked ≡ (kept (view seat.old).run (view seat.old).place.log).shift }
    requires encloses { EnclosesRows (rows_of (board_run board.now)) sight.bounds.low sight.bounds.high }
    requires inside { LiesInside (board_run board.now).initial.low (board_run board.now).initial.high
        sight.bounds.low sight.bounds.high }
    ensures seat { Sits board.now seat.new }
    ensures copy { IsVectorOf (rows_of (board_run board.now)) copy.new }
    ensures made { result.made ≡ rescalings_after made sight.asked }
    ensures bounds { AreBoundsOf (board_run board.now) copy.new result.bounds }
    ensures finishes { Finishes (board_run board.now) part made sight.asked (view seat.old) (view seat.new) }
    ensures offers { EndsOffering (board_run board.now) result.bounds copy.new
        (view seat.old).place.log (view seat.new).place.log }
{
    let relaxer = Relaxer::between(sight.bounds.low, sight.bounds.high, rows.scale());
    let greatest = relax_part(board, seat, rows, ranks, copy, &relaxer, part);
    let made = rescale_or_ask(board, seat, copy, part, made, sight.asked, greatest);
    load_all(board, seat, copy, rows.len());
    let bounds = certify(board, seat, rows, ranks, copy, scratch);
    Found { bounds, made }
}
