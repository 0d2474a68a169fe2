// What a turn does about entries that grow too great.
ghost use Rattle.std.specs.Prelude.{◌≡◌, ◌<◌, ◌≤◌, ◌+◌, ℕ, List, [], ◌∷◌, length, map, slice_index};
ghost use Rattle.ce_rows.specs.declared.act.Act.TheVariants.{Shrinks, Asks};
ghost use Rattle.ce_words.specs.Invariant.{most_rescalings};
ghost use Rattle.ce_words.specs.Logs.{in_part};
ghost use Rattle.ce_words.specs.Seats.{board_run, Sits};
ghost use Rattle.ce_words.specs.Views.{view, kept};
ghost use Rattle.ce_crew.specs.Gains.{Gains, GainsRescaling, IsAtWork, IsRunStart, HasLoaded};
ghost use Rattle.ce_crew.specs.Turn.{entries_between, rescalings_after};

use ce_vector::shift;
use ce_words::{Board, Part, Seat};

// A value from which on a rescaling is asked for.
const GREAT: u64 = 1 << 59;

// Stores the rescaled value of an entry.
fn rescale_entry(board: &Board, seat: &mut Seat, copy: &mut [u64], i: u32)
    requires work { IsAtWork board.now seat.old copy.old }
    requires entry { i < length (board_run board.now).rows }
    requires own { in_part i (view seat.old).place.part ≡ 1 }
    requires loaded { let run = board_run board.now in
        slice_index copy.old i ≡ slice_index (kept run (view seat.old).place.log).copy i }
    ensures work { IsAtWork board.now seat.new copy.new }
    ensures gains { Gains (Shrinks i ∷ []) 0 (view seat.old) (view seat.new) copy.old copy.new }
{
    let value = shift(copy[i as usize]);
    board.store_entry(seat, i, value, true);
    copy[i as usize] = value;
}

// Rescales the entries of the seat's part in ascending order.
fn rescale_part(board: &Board, seat: &mut Seat, copy: &mut [u64], part: Part)
    requires start { IsRunStart (board_run board.now) }
    requires work { IsAtWork board.now seat.old copy.old }
    requires part { part ≡ (view seat.old).place.part }
    requires ordered { part.from ≤ part.to }
    requires within { part.to ≤ length (board_run board.now).rows }
    requires loaded { HasLoaded (board_run board.now) (view seat.old) part copy.old }
    ensures work { IsAtWork board.now seat.new copy.new }
    ensures gains { Gains (map (λ j. Shrinks j) (entries_between part.from part.to)) 0
        (view seat.old) (view seat.new) copy.old copy.new }
{
    for i in part.from..part.to {
        rescale_entry(board, seat, copy, i);
    }
}

// Asks for one rescaling more than the seat last saw asked for.
fn ask(board: &Board, seat: &mut Seat, asked: u64)
    requires seat { Sits board.now seat.old }
    requires asked { let run = board_run board.now in asked ≡ (kept run (view seat.old).place.log).shift }
    requires few { asked < most_rescalings }
    ensures seat { Sits board.now seat.new }
    ensures gains { (copy : List ℕ) → Gains (Asks ∷ []) 0 (view seat.old) (view seat.new) copy copy }
{
    board.ask_shift(seat, asked + 1);
}

// Rescales the part, where more rescalings were asked for than were made; otherwise asks for one,
// where an entry has grown great. Answers how many rescalings are made then.
pub(crate) fn rescale_or_ask(
    board: &Board,
    seat: &mut Seat,
    copy: &mut [u64],
    part: Part,
    made: u32,
    asked: u64,
    greatest: u64,
) -> u32
    requires start { IsRunStart (board_run board.now) }
    requires work { IsAtWork board.now seat.old copy.old }
    requires part { part ≡ (view seat.old).place.part }
    requires ordered { part.from ≤ part.to }
    requires within { part.to ≤ length (board_run board.now).rows }
    requires loaded { HasLoaded (board_run board.now) (view seat.old) part copy.old }
    requires asked { let run = board_run board.now in asked ≡ (kept run (view seat.old).place.log).shift }
    requires few { made < most_rescalings }
    ensures work { IsAtWork board.now seat.new copy.new }
    ensures rescaling { GainsRescaling part made asked greatest (view seat.old) (view seat.new) copy.old copy.new }
    ensures made { result ≡ rescalings_after made asked }
{
    if u64::from(made) < asked {
        rescale_part(board, seat, copy, part);
        return made + 1;
    }
    if greatest >= GREAT {
        ask(board, seat, asked);
    }
    made
}
