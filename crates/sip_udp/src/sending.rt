//! Sends the outputs of a round.

ghost use Rattle.std.specs.Prelude.{◌≡◌, ◌<◌, ◌++◌, Bool, IfOk, OnErr, map};
ghost use Rattle.std.specs.Vec.{vec_len, vec_capacity};
ghost use Rattle.sip_udp.specs.Prepared.{key_of};
ghost use Rattle.sip_udp.specs.Sending.{Asks, SendsAll, calls_for, failures_of};

use crate::outlet::Outlet;
use sip_message::SharedKey;
use sip_round::{Event, Output, PlacedOutput};
use std::alloc::{AllocError, Global};

/// Sends each Send of the outputs, in order, even after one failed. Gives a failed event for each
/// that failed and has a key, in the same order.
///
/// # Errors
///
/// Memory ran out. Then nothing was sent: all memory is taken before the first send.
pub fn send_all<O: Outlet>(
    alloc: Global,
    outlet: &mut O,
    outputs: &[PlacedOutput],
) -> Result<Vec<Event>, AllocError>
    ensures sends { IfOk result (λ failed. SendsAll (O.asked outlet.old) (O.asked outlet.new)
        (map (λ placed. placed.output) outputs.now) failed.items) }
    ensures unasked { OnErr result (outlet.new ≡ outlet.old) }
{
    let keys = keys_of(alloc, outputs)?;
    let mut failed = Vec::with_capacity(alloc, outputs.len())?;
    let mut left = outputs;
    for key in keys {
        let Some((placed, rest)) = left.split_first() else {
            return Ok(failed);
        };
        send_one(outlet, &placed.output, key, &mut failed);
        left = rest;
    }
    Ok(failed)
}

// For each output, the key under which its failure is reported.
fn keys_of(alloc: Global, outputs: &[PlacedOutput]) -> Result<Vec<Option<SharedKey>>, AllocError>
    ensures { IfOk result (λ keys. keys.items ≡ map (λ placed. key_of placed.output) outputs.now) }
{
    let mut keys = Vec::with_capacity(alloc, outputs.len())?;
    for placed in outputs {
        keys.push(key_of(&placed.output)?)?;
    }
    Ok(keys)
}

fn key_of(output: &Output) -> Result<Option<SharedKey>, AllocError>
    ensures { IfOk result (λ key. key ≡ key_of output.now) }
{
    match output {
        Output::Send { key: Some(key), .. } => Ok(Some(key.clone()?)),
        Output::Send { key: None, .. } | Output::Dropped { .. } | Output::Notice(_) => Ok(None),
    }
}

// Sends one output, if it is a Send, and adds its failure if it wasn't sent and has a key.
fn send_one<O: Outlet>(
    outlet: &mut O,
    output: &Output,
    key: Option<SharedKey>,
    failed: &mut Vec<Event>,
)
    requires key { key ≡ key_of output.now }
    requires room { vec_len failed.old < vec_capacity failed.old }
    ensures sends { (is_sent : Bool)
        × Asks (O.asked outlet.old) (O.asked outlet.new) (calls_for (output.now, is_sent))
        × (failed.new.items ≡ failed.old.items ++ failures_of (output.now, is_sent)) }
    ensures room { vec_capacity failed.new ≡ vec_capacity failed.old }
{
    let Output::Send { to, bytes, .. } = output else {
        return;
    };
    let is_sent = outlet.send(*to, bytes.as_slice());
    if let (false, Some(key)) = (is_sent, key) {
        failed.push_reserved(Event::Failed(key));
    }
}
