//! A worker's seat at the deque: the owner's, or a thief's.

ghost use Rattle.std.specs.Prelude.{◌≡◌, ◌<◌, [], ◌∷◌, ◌++◌, Some, Ok, IfOk, IfSome, IfNone, IsOk};
ghost use Rattle.crossbeam_deque.specs.Handles.{view, IsPassOf, worker_deque, worker_view, stealer_deque};
ghost use Rattle.sip_workers.specs.Ran.{IsDoneOf, Ran};
ghost use Rattle.sip_workers.specs.Balance.{log};
ghost use Rattle.sip_workers.specs.declared.seat.Served.TheVariants as ended;
ghost use Rattle.sip_workers.specs.Seats.{IsReady, Serves};

use crate::deque::{Owner, Pops, Steals, Thief, ThiefPass};
use crate::{Gate, Job, NoMemory, Piece};
use crossbeam_deque::Steal;
use std::alloc::Global;

// How often in a row a thief looks again for one piece when it is told to retry.
const MOST_RETRIES: usize = 1000;

// A seat of the parallel map.
#[derive(Drop)]
pub enum Seat<J> {
    Owner(Owner<J>),
    Thief(Thief<J>, ThiefPass<J>),
}

impl<J: Job + Drop> Seat<J>
where
    J::Done: Drop,
{
    // Takes pieces, at most `most`, until it finds none.
    pub fn work<G: Gate>(
        self,
        alloc: Global,
        most: usize,
        gate: &G,
    ) -> Result<Served<J, J::Done>, NoMemory>
        requires { IsReady self }
        ensures { Serves J.gives self result }
    {
        match self {
            Seat::Owner(owner) => {
                let (owner, dones) = own(alloc, owner, most, gate)?;
                Ok(Served::Owner(owner, dones))
            }
            Seat::Thief(thief, pass) => {
                let (pass, dones) = thieve(alloc, &thief, pass, most, gate)?;
                Ok(Served::Thief(pass, dones))
            }
        }
    }
}

// What a seat gives back, and the dones of the pieces that it took.
#[derive(Drop)]
pub enum Served<J, D> {
    Owner(Owner<J>, Vec<(usize, D)>),
    Thief(ThiefPass<J>, Vec<(usize, D)>),
}

impl<J: Drop, D: Drop> Served<J, D> {
    // The owner and its dones, if the owner's seat gave them back.
    pub fn owner(
        seat: Option<Result<Served<J, D>, NoMemory>>,
    ) -> Result<(Owner<J>, Vec<(usize, D)>), NoMemory>
        ensures { IfOk result (λ r. seat ≡ Some (Ok (ended.Owner r.0 r.1))) }
    {
        match seat {
            Some(Ok(Served::Owner(owner, dones))) => Ok((owner, dones)),
            _ => Err(NoMemory),
        }
    }

    // A thief's pass and its dones, if the thief's seat gave them back.
    pub fn thief(
        seat: Result<Served<J, D>, NoMemory>,
    ) -> Result<(ThiefPass<J>, Vec<(usize, D)>), NoMemory>
        ensures { IfOk result (λ r. seat ≡ Ok (ended.Thief r.0 r.1)) }
    {
        match seat {
            Ok(Served::Thief(pass, dones)) => Ok((pass, dones)),
            _ => Err(NoMemory),
        }
    }
}

pub fn run_piece<J: Job, G: Gate>(piece: Piece<J>, gate: &G) -> (usize, J::Done)
    ensures { IsDoneOf J.gives piece result }
{
    let Piece { shard, job } = piece;
    gate.begin(shard);
    (shard, job.run())
}

// The owner takes pieces until the deque is empty, at most `most` of them.
fn own<J: Job + Drop, G: Gate>(
    alloc: Global,
    mut owner: Owner<J>,
    most: usize,
    gate: &G,
) -> Result<(Owner<J>, Vec<(usize, J::Done)>), NoMemory>
where
    J::Done: Drop,
    requires part { 0 < (worker_view owner).parts }
    requires nothing { (worker_view owner).taken ≡ [] }
    ensures same { IfOk result (λ r. worker_deque r.0 ≡ worker_deque owner) }
    ensures parts { IfOk result (λ r. (worker_view r.0).parts ≡ (worker_view owner).parts) }
    ensures put { IfOk result (λ r. (worker_view r.0).put ≡ (worker_view owner).put) }
    ensures ran { IfOk result (λ r. Ran J.gives (worker_view r.0).taken r.1.items) }
{
    let mut dones = Vec::new(alloc);
    for _ in 0..most {
        let Some(piece) = owner.pop_as::<Pops>() else {
            break;
        };
        dones.push(run_piece(piece, gate))?;
    }
    Ok((owner, dones))
}

// A thief steals a piece, or finds none.
fn steal<J>(thief: &Thief<J>, pass: &mut ThiefPass<J>) -> Option<Piece<J>>
    requires table { IsPassOf (stealer_deque thief.now) pass.old }
    requires part { 0 < (view pass.old).parts }
    ensures same { IsPassOf (stealer_deque thief.now) pass.new }
    ensures none { IfNone result (view pass.new ≡ view pass.old) }
    ensures some { IfSome result (λ piece. view pass.new
        ≡ log (view pass.old).parts (view pass.old).put ((view pass.old).taken ++ piece ∷ [])) }
{
    for _ in 0..MOST_RETRIES {
        match thief.steal_as::<Steals>(pass) {
            Steal::Success(piece) => return Some(piece),
            Steal::Empty => return None,
            Steal::Retry => {}
        }
    }
    None
}

// A thief steals one piece at a time until it finds none, at most `most` of them.
fn thieve<J: Job + Drop, G: Gate>(
    alloc: Global,
    thief: &Thief<J>,
    mut pass: ThiefPass<J>,
    most: usize,
    gate: &G,
) -> Result<(ThiefPass<J>, Vec<(usize, J::Done)>), NoMemory>
where
    J::Done: Drop,
    requires table { IsPassOf (stealer_deque thief.now) pass }
    requires new { view pass ≡ log 1 [] [] }
    ensures same { IfOk result (λ r. IsPassOf (stealer_deque thief.now) r.0) }
    ensures parts { IfOk result (λ r. (view r.0).parts ≡ 1) }
    ensures put { IfOk result (λ r. (view r.0).put ≡ []) }
    ensures ran { IfOk result (λ r. Ran J.gives (view r.0).taken r.1.items) }
{
    let mut dones = Vec::new(alloc);
    for _ in 0..most {
        let Some(piece) = steal(thief, &mut pass) else {
            break;
        };
        dones.push(run_piece(piece, gate))?;
    }
    Ok((pass, dones))
}
