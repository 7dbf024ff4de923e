//! A run: all rounds of one agent.

ghost use Rattle.std.specs.Prelude.{◌≡◌, ◌⊎◌, ◌<◌, ◌≤◌, Bool, IfOk, IfErr, None, Some, map};
ghost use Rattle.sip_round.specs.Answers as answers;
ghost use Rattle.sip_round.specs.Given.{GivesNothingAfterEnds, GivesOwnNotices, GivesOwnSends, GivesProvisionalsInOrder, GivesRequestsById, GivesRequestsOnce, GivesStartedRequests};
ghost use Rattle.sip_round.specs.declared.round_fault.RoundFault.TheVariants as round_fault;

use crate::agent::Agent;
use crate::config::Config;
use crate::laws::{
    nothing_given_after_ends, own_notices_given, own_sends_given, provisionals_given_in_order,
    requests_given_by_id, requests_given_once, started_requests_given,
};
use crate::output::Output;
use crate::round::Round;
use crate::round_fault::RoundFault;
use sip_message::Cut;
use sip_workers::Gate;
use std::alloc::Global;
use std::thread::Threads;

/// The outputs of each round, from an agent that begins with this configuration. It has `shards`
/// shards, among which `cut` distributes names, and up to `workers` workers.
///
/// Among all outputs, the Sends with a transaction's key are exactly what that transaction's own
/// history says to send, in order (`sends_of_each_transaction`), and the notices with a Call-ID are
/// exactly those that the call's own history says (`notices_of_each_call`). At most one notice
/// `request` has a given id, since each life of a server transaction hands its request up once
/// (`each_request_once`). These notices come by rising ids, in the order of the events with which
/// the requests came (`requests_by_id`). Each life of a client transaction begins with a request
/// that is started, and that request goes out (`started_requests`). The reliable provisional
/// responses to an INVITE that come in one life of a dialog are told in order, and each once
/// (`provisionals_in_order`). After the rounds in which a transaction has ended, nothing that is
/// told of a call comes from it (`nothing_after_the_end`).
///
/// # Errors
///
/// The first round that is refused, by its index from 0, with its fault. Or `NoMemory`, with the
/// index of the round that ran out of memory, if neither it nor an earlier one is refused for
/// another reason. If the agent itself runs out of memory before the first round, whatever the
/// rounds are, the index is 0 and `broken` is true.
pub fn run<R: Threads + Sync, C: Cut + Drop, G: Gate>(
    rt: &R,
    alloc: Global,
    config: Config,
    shards: usize,
    workers: usize,
    cut: C,
    gate: &G,
    rounds: &[Round],
) -> Result<Vec<Vec<Output>>, (usize, RoundFault)>
    requires some_shard { 0 < shards }
    requires most_shards { shards ≤ 256 }
    requires some_worker { 0 < workers }
    requires most_workers { workers ≤ 64 }
    ensures answers { IfOk result (λ made. map (λ outputs. outputs.items) made.items
        ≡ answers.answers config rounds.now) }
    ensures unrefused { IfOk result (λ made. answers.refused config rounds.now ≡ None) }
    ensures refused { IfErr result
        (λ fault. ((broken : Bool) × (fault.1 ≡ round_fault.NoMemory broken)
        × answers.EndsWithoutMemory config rounds.now fault.0 broken)
        ⊎ (answers.refused config rounds.now ≡ Some fault)) }
    ensures each_request_once { IfOk result (λ made.
        GivesRequestsOnce config rounds.now (map (λ outputs. outputs.items) made.items)) }
    ensures requests_by_id { IfOk result (λ made.
        GivesRequestsById (map (λ outputs. outputs.items) made.items)) }
    ensures started_requests { IfOk result (λ made.
        GivesStartedRequests config rounds.now (map (λ outputs. outputs.items) made.items)) }
    ensures provisionals_in_order { IfOk result (λ made.
        GivesProvisionalsInOrder config rounds.now (map (λ outputs. outputs.items) made.items)) }
    ensures nothing_after_the_end { IfOk result (λ made.
        GivesNothingAfterEnds config rounds.now (map (λ outputs. outputs.items) made.items)) }
    ensures sends_of_each_transaction { IfOk result (λ made.
        GivesOwnSends config rounds.now (map (λ outputs. outputs.items) made.items)) }
    ensures notices_of_each_call { IfOk result (λ made.
        GivesOwnNotices config rounds.now (map (λ outputs. outputs.items) made.items)) }
{
    requests_given_once();
    requests_given_by_id();
    started_requests_given();
    provisionals_given_in_order(&config);
    nothing_given_after_ends(&config);
    own_sends_given();
    own_notices_given();
    let Ok(mut agent) = Agent::new(alloc, config, shards, cut) else {
        return Err((0, RoundFault::NoMemory { broken: true }));
    };
    let mut made = Vec::new(alloc);
    for (index, round) in rounds.iter().enumerate() {
        let outputs = match agent.run_round(rt, round, workers, gate) {
            Ok(outputs) => outputs,
            Err(fault) => return Err((index, fault)),
        };
        let Ok(()) = made.push(outputs) else {
            return Err((index, RoundFault::NoMemory { broken: true }));
        };
    }
    Ok(made)
}
