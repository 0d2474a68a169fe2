// A whole run over rows.
ghost use Rattle.std.specs.Prelude.{◌≡◌, ◌<◌, ◌≤◌, ◌+◌, ◌-◌, ◌*◌, ◌/◌, ℕ, [], IfOk, OnErr, All, length};
ghost use Rattle.std.specs.Prelude.{vec_capacity};
ghost use mathlib.Core.Option.{some};
ghost use lib.ListN.{get_elem?};
ghost use Rattle.ce_words.specs.Seats.{board_run, Sits};
ghost use Rattle.ce_words.specs.Views.{view, opened};
ghost use Rattle.ce_solve.specs.ChaoticRun.{part_of};
ghost use Rattle.ce_solve.specs.SolvedRows.{AreReadingsFrom, IsSolved, closing_in};
ghost use Rattle.ce_solve.specs.ActorsInside.{IsClosingOf, IsHired, IsSeatedSession, ArePartsFrom, AreSessionsFrom};
ghost use Rattle.ce_solve.specs.ActorsInside.{sessions_in};
ghost use Rattle.ce_rows.specs.Rows.{most_rows};
ghost use Rattle.ce_rows.specs.Limits.{most_reads, most_rounds, most_sessions, most_turns, most_workers};
ghost use Rattle.ce_solve.specs.Prepared.{MayBegin, IsOpenedFor, IsRunFor};
ghost use Rattle.ce_words.specs.Views.{cut_left};
ghost use Rattle.ce_solve.specs.Actors.{worker_places, IsHiredWorker, IsFirstBelow, IsFirstSeat};
ghost use Rattle.ce_solve.specs.Actors.{IsInitialCertificate};

use crate::collecting::{Solved, collect};
use crate::crew::{Actor, run_crew};
use crate::preparing::{Prepared, prepare};
use crate::settings::Settings;
use ce_cert::Certificate;
use ce_crew::{WorkRoom, Worker};
use ce_live::{ReadRoom, Reading, Session};
use ce_rows::{Interval, NoMemory, Rows};
use ce_vector::scale_start;
use ce_words::{Board, Gate, Part, Seat};
use std::alloc::Global;
use std::thread::Threads;

/// The board of a run, whose vector starts as the prepared one, scaled up.
pub fn open_board(
    alloc: Global,
    rows: &Rows,
    prepared: &Prepared,
) -> Result<(Board, Seat), NoMemory>
    requires { MayBegin rows.now prepared.now }
    ensures run { IfOk result (λ made. IsOpenedFor rows.now prepared.now (board_run made.0)) }
    ensures seat { IfOk result (λ made. Sits made.0 made.1) }
    ensures view { IfOk result (λ made. view made.1 ≡ opened (board_run made.0)) }
{
    let mut start = Vec::from_slice(alloc, &prepared.vector)?;
    scale_start(&mut start);
    let initial = Interval {
        low: prepared.bounds.low,
        high: prepared.bounds.high,
    };
    Board::new(alloc, rows, prepared.ranks.as_slice(), &start, initial)
}

// The part of a worker: an even share of the entries.
fn part_for(entries: u32, workers: u32, k: u32) -> Part
    requires entries { entries ≤ most_rows }
    requires workers { workers ≤ most_workers }
    requires worker { k < workers }
    ensures { result ≡ part_of entries workers k }
{
    Part {
        from: k * entries / workers,
        to: (k + 1) * entries / workers,
    }
}

/// A worker with all its memory, at the upper end of what the first seat still owns.
pub fn hire(
    alloc: Global,
    board: &Board,
    first: &mut Seat,
    prepared: &Prepared,
    k: u32,
    turns: u32,
    part: Part,
) -> Result<Worker, NoMemory>
    requires opened { IsRunFor prepared.now (board_run board.now) }
    requires turns { turns ≤ most_turns }
    requires first { (count : ℕ) × IsFirstBelow board.now first.old part.to count }
    requires ordered { part.from ≤ part.to }
    requires within { part.to ≤ length (board_run board.now).rows }
    ensures left { IfOk result (λ w. view first.new ≡ cut_left (view first.old) part) }
    ensures sits { IfOk result (λ w. Sits board.now first.new) }
    ensures hired { IfOk result (IsHiredWorker board.now prepared.now.vector.items turns) }
    ensures part { IfOk result (λ w. (view w.seat).place.part ≡ part) }
    ensures number { IfOk result (λ w. w.number ≡ k) }
    ensures same { OnErr result (first.new ≡ first.old) }
{
    let room = WorkRoom::new(alloc, &prepared.vector, prepared.bounds)?;
    let seat = board.split(first, part);
    Ok(Worker::new(room, k, turns, part, seat))
}

// All workers, by their numbers. Parts are split off from the upper end, so the last worker comes
// first.
fn hire_all(
    alloc: Global,
    board: &Board,
    first: &mut Seat,
    prepared: &Prepared,
    entries: u32,
    settings: &Settings,
) -> Result<Vec<Actor>, NoMemory>
    requires opened { IsRunFor prepared.now (board_run board.now) }
    requires entries { entries ≡ length (board_run board.now).rows }
    requires few { entries ≤ most_rows }
    requires workers { (1 ≤ settings.now.workers) × (settings.now.workers ≤ most_workers) }
    requires turns { settings.now.turns ≤ most_turns }
    requires sessions { settings.now.sessions ≤ most_sessions }
    requires first { IsFirstBelow board.now first.old entries 0 }
    ensures first { IfOk result (λ actors. IsFirstBelow board.now first.new 0 (length actors.items)) }
    ensures hired { IfOk result (λ actors. All (IsHired board.now prepared.now.vector.items settings.now.turns
        settings.now.reads) actors.items) }
    ensures parts { IfOk result (λ actors. ArePartsFrom entries settings.now.workers 0 (worker_places actors.items)) }
    ensures count { IfOk result (λ actors. length (worker_places actors.items) ≡ settings.now.workers) }
    ensures all { IfOk result (λ actors. length actors.items ≡ settings.now.workers) }
    ensures none { IfOk result (λ actors. sessions_in actors.items ≡ 0) }
    ensures sessions { IfOk result (λ actors. AreSessionsFrom 0 actors.items) }
{
    let mut actors = Vec::with_capacity(alloc, (settings.workers + settings.sessions) as usize)?;
    for i in 0..settings.workers {
        let k = settings.workers - 1 - i;
        let part = part_for(entries, settings.workers, k);
        let worker = hire(alloc, board, first, prepared, k, settings.turns, part)?;
        if actors.insert(0, Actor::Worker(worker)).is_err() {
            return Err(NoMemory);
        }
    }
    Ok(actors)
}

// A session with all its memory, which owns no entry.
fn seat_session(
    alloc: Global,
    board: &Board,
    first: &mut Seat,
    number: u32,
    settings: &Settings,
) -> Result<Session, NoMemory>
    requires first { (count : ℕ) × IsFirstBelow board.now first.old 0 count }
    requires workers { settings.now.workers ≤ most_workers }
    requires number { number < most_sessions }
    ensures left { IfOk result (λ s. view first.new ≡ cut_left (view first.old) (record { from = 0; to = 0 })) }
    ensures sits { IfOk result (λ s. Sits board.now first.new) }
    ensures seated { IfOk result (IsSeatedSession board.now settings.now.reads) }
    ensures number { IfOk result (λ s. s.session ≡ number) }
{
    let room = ReadRoom::new(alloc, settings.reads)?;
    let seat = board.split(first, Part { from: 0, to: 0 });
    Ok(Session::new(room, number, settings.workers + number, seat))
}

// All workers and then all sessions.
fn assemble(
    alloc: Global,
    board: &Board,
    first: &mut Seat,
    prepared: &Prepared,
    entries: u32,
    settings: &Settings,
) -> Result<Vec<Actor>, NoMemory>
    requires opened { IsRunFor prepared.now (board_run board.now) }
    requires entries { entries ≡ length (board_run board.now).rows }
    requires few { entries ≤ most_rows }
    requires workers { (1 ≤ settings.now.workers) × (settings.now.workers ≤ most_workers) }
    requires turns { settings.now.turns ≤ most_turns }
    requires sessions { settings.now.sessions ≤ most_sessions }
    requires first { IsFirstBelow board.now first.old entries 0 }
    ensures first { IfOk result (λ actors. IsFirstBelow board.now first.new 0 (length actors.items)) }
    ensures hired { IfOk result (λ actors. All (IsHired board.now prepared.now.vector.items settings.now.turns
        settings.now.reads) actors.items) }
    ensures parts { IfOk result (λ actors. ArePartsFrom entries settings.now.workers 0 (worker_places actors.items)) }
    ensures count { IfOk result (λ actors. length (worker_places actors.items) ≡ settings.now.workers) }
    ensures all { IfOk result (λ actors. length actors.items ≡ settings.now.workers + settings.now.sessions) }
    ensures many { IfOk result (λ actors. sessions_in actors.items ≡ settings.now.sessions) }
    ensures sessions { IfOk result (λ actors. AreSessionsFrom 0 actors.items) }
{
    let mut actors = hire_all(alloc, board, first, prepared, entries, settings)?;
    for s in 0..settings.sessions {
        let session = seat_session(alloc, board, first, s, settings)?;
        if actors.push(Actor::Session(session)).is_err() {
            return Err(NoMemory);
        }
    }
    Ok(actors)
}

// The certificate of the initial enclosure, with one vector for both ends.
fn initial_certificate(alloc: Global, prepared: &Prepared) -> Result<Certificate, NoMemory>
    ensures ranks { IfOk result (λ c. c.ranks.items ≡ prepared.now.ranks.ranks) }
    ensures low { IfOk result (λ c. c.low ≡ prepared.now.bounds.low) }
    ensures low_rank { IfOk result (λ c. c.low_rank ≡ prepared.now.bounds.low_rank) }
    ensures high { IfOk result (λ c. c.high ≡ prepared.now.bounds.high) }
    ensures low_vector { IfOk result (λ c. c.low_vector.items ≡ prepared.now.vector.items) }
    ensures high_vector { IfOk result (λ c. c.high_vector.items ≡ prepared.now.vector.items) }
{
    Ok(Certificate {
        ranks: Vec::from_slice(alloc, prepared.ranks.as_slice())?,
        low_rank: prepared.bounds.low_rank,
        low_vector: Vec::from_slice(alloc, &prepared.vector)?,
        high_vector: Vec::from_slice(alloc, &prepared.vector)?,
        low: prepared.bounds.low,
        high: prepared.bounds.high,
    })
}

// Runs a crew on its board, and collects what it found: takes no memory.
fn run_and_collect<R: Threads + Sync, G: Gate + Sync>(
    rt: &R,
    board: Board,
    first: Seat,
    rows: &Rows,
    prepared: &Prepared,
    actors: Vec<Actor>,
    initial: Certificate,
    readings: Vec<Reading>,
    gate: &G,
) -> Solved
    requires opened { IsOpenedFor rows.now prepared.now (board_run board) }
    requires seat { Sits board first }
    requires first { IsFirstSeat (view first) (length actors.items) }
    requires hired { (t : ℕ) × (r : ℕ) × All (IsHired board initial.low_vector.items t r) actors.items
        × (r * length actors.items ≤ r * length (worker_places actors.items) + vec_capacity readings) }
    requires parts { ArePartsFrom (length rows.now.list) (length (worker_places actors.items)) 0
        (worker_places actors.items) }
    requires initial { IsInitialCertificate (board_run board) initial }
    requires empty { readings.items ≡ [] }
    ensures closing { (t : ℕ) (r : ℕ) → All (IsHired board initial.low_vector.items t r) actors.items
        → IsClosingOf (board_run board) t (length (worker_places actors.items)) initial.low_vector.items result }
    ensures readings { (t : ℕ) (r : ℕ) → All (IsHired board initial.low_vector.items t r) actors.items
        → AreSessionsFrom 0 actors.items → AreReadingsFrom 0 (sessions_in actors.items) r result.readings.items }
{
    let mut actors = actors;
    run_crew(
        rt,
        &board,
        rows,
        prepared.ranks.as_slice(),
        actors.as_mut_slice(),
        gate,
    );
    collect(board, first, actors, initial, readings)
}

/// A whole run over rows, at the rows' scale: all memory is taken first, then all actors run, and
/// what they found is collected. The scale of the settings is not read.
pub fn solve_rows<R: Threads + Sync, G: Gate + Sync>(
    rt: &R,
    alloc: Global,
    rows: &Rows,
    settings: Settings,
    gate: &G,
) -> Result<Solved, NoMemory>
    requires rounds { settings.rounds ≤ most_rounds }
    requires turns { settings.turns ≤ most_turns }
    requires workers { (1 ≤ settings.workers) × (settings.workers ≤ most_workers) }
    requires sessions { settings.sessions ≤ most_sessions }
    requires reads { settings.reads ≤ most_reads }
    ensures solved { IfOk result (λ solved. IsSolved rows.now settings.rounds settings.turns settings.workers
        (closing_in solved)) }
    ensures readings { IfOk result (λ solved. AreReadingsFrom 0 settings.sessions settings.reads
        solved.readings.items) }
{
    let prepared = prepare(alloc, rows, settings.rounds)?;
    let initial = initial_certificate(alloc, &prepared)?;
    let readings: Vec<Reading> = Vec::with_capacity(
        alloc,
        (settings.sessions * settings.reads) as usize,
    )?;
    let (board, first) = open_board(alloc, rows, &prepared)?;
    let mut first = first;
    let actors = assemble(alloc, &board, &mut first, &prepared, rows.len(), &settings)?;
    Ok(run_and_collect(
        rt, board, first, rows, &prepared, actors, initial, readings, gate,
    ))
}
