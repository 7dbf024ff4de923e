//! Pieces of work run by an owner and thieves.

ghost use Rattle.std.specs.Prelude.{◌≡◌, ◌<◌, ◌≤◌, ◌+◌, List, [], IfOk, vec_len, All, map, nat_eq};
ghost use Rattle.std.specs.List.{AllByRecursion, AllZip, IsDistinct};
ghost use Rattle.crossbeam_deque.specs.Handles.{worker_deque, worker_view};
ghost use Rattle.sip_workers.specs.declared.piece.Piece.{Piece};
ghost use Rattle.sip_workers.specs.Ran.{Ran, AllRan};
ghost use Rattle.sip_workers.specs.Balance.{log};
ghost use Rattle.sip_workers.specs.Seats.{IsReady, AreSeats, Serves, IsThiefsResult, AreResults};

use crate::deque::{Cut, Joined, Owner, Pops, Puts};
use crate::seat::{Seat, Served, run_piece};
use crate::{Gate, Job, NoMemory, Piece};
use std::alloc::Global;
use std::thread;
use std::thread::Threads;

/// Runs each piece once, on up to `workers` threads, and gives each done with the shard number of
/// its piece, in any order. With one worker, or one piece, it starts no thread.
///
/// `gate` is called for each piece as it begins.
///
/// # Errors
///
/// `NoMemory`; then some pieces may not have run.
pub fn run_pieces<R: Threads + Sync, J: Job + Send + Drop, G: Gate>(
    rt: &R,
    alloc: Global,
    pieces: Vec<Piece<J>>,
    workers: usize,
    gate: &G,
) -> Result<Vec<(usize, J::Done)>, NoMemory>
where
    J::Done: Send + Drop,
    requires some { 0 < workers }
    requires most { workers ≤ 64 }
    ensures each_once { IfOk result (λ dones. AllRan J.gives pieces.items dones.items) }
    ensures differ { IsDistinct nat_eq (map (λ p. p.shard) pieces.items)
        → IfOk result (λ dones. IsDistinct nat_eq (map (λ d. d.0) dones.items)) }
{
    dones_of(rt, alloc, pieces, workers, gate)
}

/// Runs each piece once, one after another, on the calling thread, as `run_pieces` does with one
/// worker. It starts no thread, and needs no handle.
///
/// `gate` is called for each piece as it begins.
///
/// # Errors
///
/// `NoMemory`; then some pieces may not have run.
pub fn run_alone<J: Job + Drop, G: Gate>(
    alloc: Global,
    pieces: Vec<Piece<J>>,
    gate: &G,
) -> Result<Vec<(usize, J::Done)>, NoMemory>
where
    J::Done: Drop,
    ensures each_once { IfOk result (λ dones. AllRan J.gives pieces.items dones.items) }
    ensures differ { IsDistinct nat_eq (map (λ p. p.shard) pieces.items)
        → IfOk result (λ dones. IsDistinct nat_eq (map (λ d. d.0) dones.items)) }
{
    in_turn(alloc, pieces, gate)
}

// If there is nothing to share, no thread is started.
fn dones_of<R: Threads + Sync, J: Job + Send + Drop, G: Gate>(
    rt: &R,
    alloc: Global,
    pieces: Vec<Piece<J>>,
    workers: usize,
    gate: &G,
) -> Result<Vec<(usize, J::Done)>, NoMemory>
where
    J::Done: Send + Drop,
    requires some { 0 < workers }
    requires most { workers ≤ 64 }
    ensures { IfOk result (λ dones. AllRan J.gives pieces.items dones.items) }
{
    if workers == 1 || pieces.len() == 1 {
        in_turn(alloc, pieces, gate)
    } else {
        shared_out(rt, alloc, pieces, workers, gate)
    }
}

// The pieces one after another, on the calling thread.
fn in_turn<J: Job + Drop, G: Gate>(
    alloc: Global,
    pieces: Vec<Piece<J>>,
    gate: &G,
) -> Result<Vec<(usize, J::Done)>, NoMemory>
where
    J::Done: Drop,
    ensures { IfOk result (λ dones. AllRan J.gives pieces.items dones.items) }
{
    let mut dones = Vec::with_capacity(alloc, pieces.len())?;
    for piece in pieces {
        dones.push(run_piece(piece, gate))?;
    }
    Ok(dones)
}

// Puts the pieces into a deque, from which the owner and the thieves take them.
fn shared_out<R: Threads + Sync, J: Job + Send + Drop, G: Gate>(
    rt: &R,
    alloc: Global,
    pieces: Vec<Piece<J>>,
    workers: usize,
    gate: &G,
) -> Result<Vec<(usize, J::Done)>, NoMemory>
where
    J::Done: Send + Drop,
    requires some { 0 < workers }
    requires most { workers ≤ 64 }
    ensures { IfOk result (λ dones. AllRan J.gives pieces.items dones.items) }
{
    let most = pieces.len();
    let owner = filled(alloc, pieces)?;
    let seats = seated(alloc, owner, workers - 1)?;
    let results = served(rt, alloc, seats, most, gate)?;
    finished(results, gate)
}

// A deque with room for all pieces, with all of them in it.
fn filled<J: Drop>(alloc: Global, pieces: Vec<Piece<J>>) -> Result<Owner<J>, NoMemory>
    ensures { IfOk result (λ owner. worker_view owner ≡ log 64 pieces.items []) }
{
    let mut owner = Owner::<J>::fifo_as(alloc, pieces.len())?;
    for piece in pieces {
        match owner.push_as::<Puts>(piece) {
            Ok(()) => {}
            Err(_) => return Err(NoMemory),
        }
    }
    Ok(owner)
}

// The seats for the threads: the thieves, each with a pass that was split off, and the owner last.
fn seated<J: Drop>(
    alloc: Global,
    mut owner: Owner<J>,
    thieves: usize,
) -> Result<Vec<Seat<J>>, NoMemory>
    requires few { thieves < 64 }
    requires whole { (worker_view owner).parts ≡ 64 }
    requires nothing { (worker_view owner).taken ≡ [] }
    ensures { IfOk result (λ seats. AreSeats (worker_view owner).put thieves seats.items) }
{
    let mut seats = Vec::new(alloc);
    for _ in 0..thieves {
        let thief = owner.stealer()?;
        let pass = owner.another::<Cut>();
        seats.push(Seat::Thief(thief, pass))?;
    }
    seats.push(Seat::Owner(owner))?;
    Ok(seats)
}

// Runs each seat on a thread of its own.
fn served<R: Threads + Sync, J: Job + Send + Drop, G: Gate>(
    rt: &R,
    alloc: Global,
    seats: Vec<Seat<J>>,
    most: usize,
    gate: &G,
) -> Result<Vec<Result<Served<J, J::Done>, NoMemory>>, NoMemory>
where
    J::Done: Send + Drop,
    requires ready { All IsReady seats.items }
    ensures { IfOk result (λ results. AllZip (Serves J.gives) seats.items results.items) }
{
    let results = thread::map_vec(
        rt,
        seats,
        &|seat: Seat<J>| -> Result<Served<J, J::Done>, NoMemory>
            requires { IsReady seat }
            ensures { Serves J.gives seat result }
        { seat.work(alloc, most, gate) },
    )?;
    Ok(results)
}

// The owner's result is the last one. The owner gets every pass back, and takes the pieces left.
fn finished<J: Job + Drop, G: Gate>(
    mut results: Vec<Result<Served<J, J::Done>, NoMemory>>,
    gate: &G,
) -> Result<Vec<(usize, J::Done)>, NoMemory>
where
    J::Done: Drop,
    requires given { (put : List (Piece J)) × AreResults J.gives put results.items }
    ensures { (put : List (Piece J)) → AreResults J.gives put results.items
        → IfOk result (λ dones. AllRan J.gives put dones.items) }
{
    let (owner, dones) = Served::owner(results.pop())?;
    let (owner, dones) = joined(owner, dones, results)?;
    drained(owner, dones, gate)
}

// The owner gets every pass back. The dones of the thieves are put behind its own.
fn joined<J: Job + Drop>(
    mut owner: Owner<J>,
    mut dones: Vec<(usize, J::Done)>,
    mut thieves: Vec<Result<Served<J, J::Done>, NoMemory>>,
) -> Result<(Owner<J>, Vec<(usize, J::Done)>), NoMemory>
where
    J::Done: Drop,
    requires parts { (worker_view owner).parts + vec_len thieves ≡ 64 }
    requires thieves { AllByRecursion (IsThiefsResult J.gives owner) thieves.items }
    requires ran { Ran J.gives (worker_view owner).taken dones.items }
    ensures whole { IfOk result (λ r. (worker_view r.0).parts ≡ 64) }
    ensures put { IfOk result (λ r. (worker_view r.0).put ≡ (worker_view owner).put) }
    ensures ran { IfOk result (λ r. Ran J.gives (worker_view r.0).taken r.1.items) }
{
    while let Some(result) = thieves.pop() {
        let (pass, mut theirs) = Served::thief(result)?;
        owner.absorb::<Joined>(pass);
        dones.append(&mut theirs)?;
    }
    Ok((owner, dones))
}

// The owner takes the pieces that no seat took. After that none is left.
fn drained<J: Job + Drop, G: Gate>(
    mut owner: Owner<J>,
    mut dones: Vec<(usize, J::Done)>,
    gate: &G,
) -> Result<Vec<(usize, J::Done)>, NoMemory>
where
    J::Done: Drop,
    requires whole { (worker_view owner).parts ≡ 64 }
    requires ran { Ran J.gives (worker_view owner).taken dones.items }
    ensures { IfOk result (λ all. AllRan J.gives (worker_view owner).put all.items) }
{
    while let Some(piece) = owner.pop_as::<Pops>() {
        dones.push(run_piece(piece, gate))?;
    }
    Ok(dones)
}
