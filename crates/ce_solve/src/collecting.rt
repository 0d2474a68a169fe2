// The end of a run: all seats are joined, and the best vectors and all readings are handed out.
ghost use Rattle.std.specs.Prelude.{IfOk, ◌≡◌, ◌<◌, ◌≤◌, ◌+◌, ◌++◌, [], ◌∷◌, ℕ, List, All, length, vec_capacity};
ghost use Rattle.ce_words.specs.Seats.{board_run, Sits};
ghost use Rattle.ce_words.specs.Logs.{Each};
ghost use Rattle.ce_words.specs.Steps.{LiesInside};
ghost use Rattle.ce_words.specs.Views.{view, both_of, rows_of};
ghost use Rattle.ce_words.specs.declared.view.Place.{Place};
ghost use mathlib.Core.Option.{some};
ghost use lib.ListN.{get_elem?};
ghost use Rattle.ce_cert.specs.Certificate.{IsCertificate};
ghost use Rattle.ce_cert.specs.Evidence.{evidence_in};
ghost use Rattle.ce_cert.specs.Quotients.{low_rank_of};
ghost use Rattle.ce_solve.specs.ChaoticRun.{IsRun, HasKnownEnds, part_of};
ghost use Rattle.ce_solve.specs.ClosingVectors.{IsClosingLow, IsClosingHigh};
ghost use Rattle.ce_words.specs.declared.view.Role.TheVariants.{First};
ghost use Rattle.ce_crew.specs.declared.room.WorkEnd.{WorkEnd};
ghost use Rattle.ce_crew.specs.Gains.{IsRunStart};
ghost use Rattle.ce_solve.specs.Actors.{IsTold, IsToldSession, IsFirstSeat, IsInitialCertificate, HasTurns, IsOver};
ghost use Rattle.ce_solve.specs.Actors.{IsOverWorker, IsOverSession, worker_places, places_of, readings_of};
ghost use Rattle.ce_solve.specs.Actors.{joined_all};
ghost use Rattle.ce_solve.specs.ActorsInside.{IsBestWith, IsBetterOf, AreClosingEnds};
ghost use Rattle.ce_solve.specs.declared.crew.Actor.TheVariants.{Worker, Session};

use crate::crew::Actor;
use ce_cert::{Bounds, Certificate};
use ce_crew::{WorkEnd, Worker};
use ce_live::{Reading, Session};
use ce_rows::NoMemory;
use ce_words::{Board, Seat};
use std::alloc::Global;

// A bound with its vector, or another one.
#[derive(Drop)]
struct End {
    bounds: Bounds,
    vector: Vec<u64>,
}

fn greater_low(best: End, other: End) -> End
    ensures new { best.bounds.low < other.bounds.low → result ≡ other }
    ensures same { other.bounds.low ≤ best.bounds.low → result ≡ best }
{
    if best.bounds.low < other.bounds.low {
        other
    } else {
        best
    }
}

fn lesser_high(best: End, other: End) -> End
    ensures new { other.bounds.high < best.bounds.high → result ≡ other }
    ensures same { best.bounds.high ≤ other.bounds.high → result ≡ best }
{
    if other.bounds.high < best.bounds.high {
        other
    } else {
        best
    }
}

// The better of two ends, the first where they are equal.
fn better_of(best: WorkEnd, other: WorkEnd) -> WorkEnd
    ensures { IsBetterOf best other result }
{
    let low = greater_low(
        End {
            bounds: best.low,
            vector: best.low_vector,
        },
        End {
            bounds: other.low,
            vector: other.low_vector,
        },
    );
    let high = lesser_high(
        End {
            bounds: best.high,
            vector: best.high_vector,
        },
        End {
            bounds: other.high,
            vector: other.high_vector,
        },
    );
    WorkEnd {
        low_vector: low.vector,
        low: low.bounds,
        high_vector: high.vector,
        high: high.bounds,
    }
}

// Joins a worker's seat, and keeps its best vectors where they are better.
fn join_worker(board: &Board, first: &mut Seat, worker: Worker, best: WorkEnd) -> WorkEnd
    requires first { Sits board.now first.old }
    requires role { (view first.old).role ≡ First }
    requires over { (beginning : List ℕ) × IsOverWorker board.now beginning worker }
    ensures first { Sits board.now first.new }
    ensures view { view first.new ≡ both_of (view first.old) (view worker.seat) }
    ensures best { (end : WorkEnd) × IsBetterOf best end result
        × (end.low ≡ worker.room.low) × (end.low_vector.items ≡ worker.room.low_vector.items)
        × (end.high ≡ worker.room.high) × (end.high_vector.items ≡ worker.room.high_vector.items) }
{
    let (room, seat) = worker.pause();
    board.join(first, seat);
    better_of(best, room.finish())
}

// Appends readings to those before, for which there is room.
fn append(readings: &mut Vec<Reading>, more: Vec<Reading>)
    requires room { length readings.old.items + length more.items ≤ vec_capacity readings.old }
    ensures all { readings.new.items ≡ readings.old.items ++ more.items }
    ensures room { vec_capacity readings.old ≤ vec_capacity readings.new }
{
    if readings.extend_from_slice(&more).is_err() {
        unreachable!()
    }
}

// Joins a session's seat, and appends its readings.
fn join_session(board: &Board, first: &mut Seat, session: Session, readings: &mut Vec<Reading>)
    requires first { Sits board.now first.old }
    requires role { (view first.old).role ≡ First }
    requires over { IsOverSession board.now session }
    requires room { length readings.old.items + length session.room.readings ≤ vec_capacity readings.old }
    ensures first { Sits board.now first.new }
    ensures view { view first.new ≡ both_of (view first.old) (view session.seat) }
    ensures told { IsToldSession session }
    ensures all { readings.new.items ≡ readings.old.items ++ session.room.readings }
    ensures room { vec_capacity readings.old ≤ vec_capacity readings.new }
{
    let (seat, more) = session.finish();
    board.join(first, seat);
    append(readings, more);
}

// Joins an actor's seat, and keeps what it has: best vectors, or readings.
fn join_actor(
    board: &Board,
    first: &mut Seat,
    actor: Actor,
    best: WorkEnd,
    readings: &mut Vec<Reading>,
) -> WorkEnd
    requires first { Sits board.now first.old }
    requires role { (view first.old).role ≡ First }
    requires over { (beginning : List ℕ) × IsOver board.now beginning actor }
    requires room { length readings.old.items + length (readings_of (actor ∷ [])) ≤ vec_capacity readings.old }
    ensures first { Sits board.now first.new }
    ensures view { view first.new ≡ joined_all (view first.old) (places_of (actor ∷ [])) }
    ensures told { IsTold actor }
    ensures best { IsBestWith actor best result }
    ensures all { readings.new.items ≡ readings.old.items ++ readings_of (actor ∷ []) }
    ensures room { vec_capacity readings.old ≤ vec_capacity readings.new }
{
    match actor {
        Actor::Worker(worker) => join_worker(board, first, worker, best),
        Actor::Session(session) => {
            join_session(board, first, session, readings);
            best
        }
    }
}

// Joins all seats in turn.
fn join_all(
    board: &Board,
    first: &mut Seat,
    actors: Vec<Actor>,
    best: WorkEnd,
    readings: &mut Vec<Reading>,
) -> WorkEnd
    requires start { IsRunStart (board_run board.now) }
    requires first { Sits board.now first.old }
    requires role { (view first.old).role ≡ First }
    requires over { All (IsOver board.now best.low_vector.items) actors.items }
    requires best { AreClosingEnds (board_run board.now) best.low_vector.items [] best }
    requires empty { readings.old.items ≡ [] }
    requires room { length (readings_of actors.items) ≤ vec_capacity readings.old }
    ensures first { Sits board.now first.new }
    ensures view { view first.new ≡ joined_all (view first.old) (places_of actors.items) }
    ensures told { Each IsTold actors.items }
    ensures best { AreClosingEnds (board_run board.now) best.low_vector.items (worker_places actors.items) result }
    ensures all { readings.new.items ≡ readings_of actors.items }
{
    let mut best = best;
    for actor in actors {
        best = join_actor(board, first, actor, best, readings);
    }
    best
}

/// What a run came to: the certificate of its closing bounds, and the readings of its sessions, by
/// session and then by number.
#[derive(Drop)]
pub struct Solved {
    pub certificate: Certificate,
    pub readings: Vec<Reading>,
}

/// Joins all seats, closes the board, and hands out the certificate of the closing bounds and all
/// readings. Takes no memory.
pub fn collect(
    board: Board,
    first: Seat,
    actors: Vec<Actor>,
    initial: Certificate,
    readings: Vec<Reading>,
) -> Solved
    requires start { IsRunStart (board_run board) }
    requires seat { Sits board first }
    requires first { IsFirstSeat (view first) (length actors.items) }
    requires over { All (IsOver board initial.low_vector.items) actors.items }
    requires parts { (k : ℕ) (p : Place) → get_elem? (worker_places actors.items) k ≡ some p
        → p.part ≡ part_of (length (board_run board).rows) (length (worker_places actors.items)) k }
    requires initial { IsInitialCertificate (board_run board) initial }
    requires empty { readings.items ≡ [] }
    requires room { length (readings_of actors.items) ≤ vec_capacity readings }
    ensures run { (turns : ℕ) → All (HasTurns turns) actors.items → IsRun (board_run board) turns
        (worker_places actors.items) result.certificate.low result.certificate.high }
    ensures certificate { IsCertificate (rows_of (board_run board)) (evidence_in result.certificate) }
    ensures ranks { result.certificate.ranks.items ≡ (board_run board).ranks }
    ensures low_rank { result.certificate.low_rank
        ≡ low_rank_of (rows_of (board_run board)) (board_run board).ranks result.certificate.low_vector.items }
    ensures low_vector { IsClosingLow (board_run board) (board_run board).initial.low initial.low_vector.items
        (worker_places actors.items) result.certificate.low result.certificate.low_vector.items }
    ensures high_vector { IsClosingHigh (board_run board) (board_run board).initial.high initial.low_vector.items
        (worker_places actors.items) result.certificate.high result.certificate.high_vector.items }
    ensures readings { result.readings.items ≡ readings_of actors.items }
    ensures told { Each IsTold actors.items }
    ensures contain { Each (λ r. LiesInside r.interval.low r.interval.high
        result.certificate.low result.certificate.high) (readings_of actors.items) }
    ensures inside_initial { Each (λ r. LiesInside (board_run board).initial.low (board_run board).initial.high
        r.interval.low r.interval.high) (readings_of actors.items) }
    ensures ends { Each (λ r. HasKnownEnds (board_run board) (worker_places actors.items)
        r.interval.low r.interval.high) (readings_of actors.items) }
{
    let bounds = Bounds {
        low: initial.low,
        low_rank: initial.low_rank,
        high: initial.high,
    };
    let best = WorkEnd {
        low_vector: initial.low_vector,
        low: bounds,
        high_vector: initial.high_vector,
        high: bounds,
    };
    let mut first = first;
    let mut readings = readings;
    let best = join_all(&board, &mut first, actors, best, &mut readings);
    let closed = board.close(first);
    Solved {
        certificate: Certificate {
            ranks: initial.ranks,
            low_rank: best.low.low_rank,
            low_vector: best.low_vector,
            high_vector: best.high_vector,
            low: closed.low,
            high: closed.high,
        },
        readings,
    }
}

impl Solved {
    ghost use Rattle.ce_solve.specs.SolvedRows.{closing_in};

    /// The same certificate and the same readings.
    pub fn copy(&self, alloc: Global) -> Result<Solved, NoMemory>
        ensures { IfOk result (λ solved. closing_in solved ≡ closing_in self.now) }
    {
        let ranks = Vec::from_slice(alloc, self.certificate.ranks.as_slice())?;
        let low_vector = Vec::from_slice(alloc, self.certificate.low_vector.as_slice())?;
        let high_vector = Vec::from_slice(alloc, self.certificate.high_vector.as_slice())?;
        let readings = Vec::from_slice(alloc, self.readings.as_slice())?;
        let certificate = Certificate {
            ranks,
            low_rank: self.certificate.low_rank,
            low_vector,
            high_vector,
            low: self.certificate.low,
            high: self.certificate.high,
        };
        Ok(Solved {
            certificate,
            readings,
        })
    }
}
