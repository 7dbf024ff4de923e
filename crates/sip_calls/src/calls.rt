//! The machine of one call: how each input changes it, and what it gives.

ghost use Rattle.std.specs.Prelude.{◌≡◌, ◌≤◌, ◌^◌, IfOk, None, Some, false, true, if◌then◌else◌};
ghost use Rattle.sip_held_dialogs.specs.Requests.{local_tag_of};
ghost use Rattle.sip_user.specs.declared.item.Item.TheVariants.{User};
ghost use Rattle.sip_calls.specs.Call as spec;
ghost use Rattle.sip_calls.specs.Call.{call_due, call_machine, call_step};
ghost use Rattle.sip_calls.specs.Idle.{call_ticks_are_idle};
ghost use Rattle.std.proofs.lemmas.Map.Lookups.{exact_bytes};

use crate::call::Call;
use keyed_machine::StateMachine;
use seeded_hash::HashSeed;
use sip_clients::{Clients, Event, made_name};
use sip_held_dialogs::request::{has_to_tag, own_tag};
use sip_message::{Addr, CallId, Id, Message, Token};
use sip_served::{Arrival, ServerSide};
use sip_transactions::{Up, UpKind};
use sip_user::outputs::refused;
use sip_user::{CallOut, Item, Notice, Refusal, UserCommand};
use std::alloc::{AllocError, Global};

/// The index of the To tag of answers among the names of its event.
const ANSWER_TAG_NAME: u8 = 0;

/// What all calls of an agent share.
#[derive(Clone, Copy)]
pub struct Calls {
    /// The agent's own address.
    pub local: Addr,
    /// The key of the words at the end of made names, and of the hashes of calls.
    pub seed: [u8; 32],
}

impl StateMachine for Calls {
    type Key = CallId;

    type State = Call;

    /// An item, and the id of its event.
    type Input = (Id, Item);

    type Output = CallOut;

    ghost machine = { call_machine };

    ghost due = { call_due };

    ghost exact = { exact_bytes };

    ghost copies = { λ _ _ same. same };

    ghost idle = { call_ticks_are_idle };

    fn due_of(&self, state: &Call) -> Option<u64> {
        if state.holds() {
            state.next_due()
        } else {
            Some(0)
        }
    }

    fn may_begin(&self, input: &(Id, Item)) -> bool {
        match &input.1 {
            Item::Up(up) => match &up.kind {
                UpKind::Request(request, _) => !has_to_tag(request.get()),
                _ => false,
            },
            Item::User(command) => {
                matches!(command, UserCommand::Invite(_) | UserCommand::Plain(_))
            }
        }
    }

    fn begin(
        &self,
        alloc: Global,
        _key: &CallId,
        moment: u64,
        input: (Id, Item),
    ) -> Result<(Option<Call>, Vec<CallOut>), AllocError>
        requires { moment ≤ 2 ^ 62 }
        ensures next { IfOk result (λ after. after.0
            ≡ (call_step self.now None (Some input) moment).0) }
        ensures adds { IfOk result (λ after. after.1.items
            ≡ (call_step self.now None (Some input) moment).1) }
    {
        let (id, item) = input;
        let mut call = self.new_call(alloc);
        let outs = take_first(alloc, &mut call, self.event(id, moment), item)?;
        Ok((kept(call), outs))
    }

    fn step(
        &self,
        alloc: Global,
        _key: &CallId,
        state: &mut Call,
        moment: u64,
        input: (Id, Item),
    ) -> Result<(bool, Vec<CallOut>), AllocError>
        requires { moment ≤ 2 ^ 62 }
        ensures next { IfOk result (λ after. (if after.0 then Some state.new else None)
            ≡ (call_step self.now (Some state.old) (Some input) moment).0) }
        ensures adds { IfOk result (λ after. after.1.items
            ≡ (call_step self.now (Some state.old) (Some input) moment).1) }
    {
        let (id, item) = input;
        let outs = take_next(alloc, state, self.event(id, moment), item)?;
        Ok((state.holds(), outs))
    }

    fn tick(
        &self,
        _alloc: Global,
        _key: &CallId,
        state: Call,
        moment: u64,
    ) -> Result<(Option<Call>, Vec<CallOut>), AllocError>
        requires { moment ≤ 2 ^ 62 }
        ensures next { IfOk result (λ after. after.0
            ≡ (call_step self.now (Some state) None moment).0) }
        ensures adds { IfOk result (λ after. after.1.items
            ≡ (call_step self.now (Some state) None moment).1) }
    {
        let mut call = state;
        let outs = call.tick(moment)?;
        Ok((kept(call), outs))
    }
}

impl Calls {
    fn event(&self, id: Id, now: u64) -> Event
        ensures { result ≡ spec.event_of self.now id now }
    {
        Event {
            local: self.local,
            seed: self.seed,
            id,
            moment: now,
        }
    }

    fn new_call(&self, alloc: Global) -> Call
        ensures { result ≡ spec.new_call self.now.local }
    {
        Call {
            served: ServerSide::new(alloc, self.local, HashSeed::of(&self.seed)),
            clients: Clients::new(alloc),
        }
    }
}

// A call under which nothing was held takes an item.
fn take_first(
    alloc: Global,
    call: &mut Call,
    event: Event,
    item: Item,
) -> Result<Vec<CallOut>, AllocError>
    requires { event.moment ≤ 2 ^ 62 }
    ensures { IfOk result (λ outs. (call.new, outs.items)
        ≡ spec.item_of_call false call.old event item) }
{
    match item {
        Item::Up(up) => take_up(alloc, call, event, up),
        Item::User(command) => take_first_command(alloc, call, event, command),
    }
}

// A call takes an item.
fn take_next(
    alloc: Global,
    call: &mut Call,
    event: Event,
    item: Item,
) -> Result<Vec<CallOut>, AllocError>
    requires { event.moment ≤ 2 ^ 62 }
    ensures { IfOk result (λ outs. (call.new, outs.items)
        ≡ spec.item_of_call true call.old event item) }
{
    match item {
        Item::Up(up) => take_up(alloc, call, event, up),
        Item::User(command) => take_command(alloc, call, event, command),
    }
}

// A call under which nothing is held is over.
fn kept(call: Call) -> Option<Call>
    ensures { result ≡ spec.kept_call call }
{
    if call.holds() { Some(call) } else { None }
}

// What a transaction hands up.
fn take_up(alloc: Global, call: &mut Call, event: Event, up: Up) -> Result<Vec<CallOut>, AllocError>
    requires { event.moment ≤ 2 ^ 62 }
    ensures { IfOk result (λ outs. (call.new, outs.items)
        ≡ spec.received call.old event up up.kind) }
{
    let Up {
        key,
        id,
        call_id,
        kind,
    } = up;
    match kind {
        UpKind::Request(request, reply_to) => {
            let tag = tag_of_answers(alloc, event, request.get())?;
            let arrival = Arrival {
                id,
                key,
                request,
                reply_to,
                tag,
            };
            call.served.request(call_id, arrival, event.moment)
        }
        UpKind::Ack(ack) => call.served.ack(call_id, ack.get()),
        UpKind::Response(response) => call.response(event, id, call_id, response.into_inner()),
        UpKind::Timeout => fail_request(alloc, call, id, Notice::Timeout { call_id, id }, true),
        UpKind::Failed => fail_request(alloc, call, id, Notice::Failed { call_id, id }, false),
    }
}

// The To tag of the answers to a request: its own, or the one that its event makes.
fn tag_of_answers(alloc: Global, event: Event, request: &Message) -> Result<Token, AllocError>
    ensures { IfOk result (λ tag. tag ≡ local_tag_of request.now (spec.made_tag event)) }
{
    match own_tag(alloc, request)? {
        Some(own) => Ok(own),
        None => made_name(alloc, event.seed, event.id, ANSWER_TAG_NAME),
    }
}

// A transaction is lost: the user is told, and then what ends with its request ends.
fn fail_request(
    alloc: Global,
    call: &mut Call,
    id: Id,
    notice: Notice,
    timed_out: bool,
) -> Result<Vec<CallOut>, AllocError>
    ensures { IfOk result (λ outs. (call.new, outs.items)
        ≡ spec.transaction_lost call.old id notice timed_out) }
{
    let mut outs = Vec::new(alloc);
    outs.push(CallOut::Notice(notice))?;
    outs.append(&mut call.fail_request(id, timed_out)?)?;
    Ok(outs)
}

// A command of the user while nothing is held.
fn take_first_command(
    alloc: Global,
    call: &mut Call,
    event: Event,
    command: UserCommand,
) -> Result<Vec<CallOut>, AllocError>
    ensures { IfOk result (λ outs. (call.new, outs.items)
        ≡ spec.item_of_call false call.old event (User command)) }
{
    match &command {
        UserCommand::Invite(invite) => call.clients.invite(event, invite),
        UserCommand::Plain(plain) => call.clients.plain(event, plain),
        _ => {
            let call_id = command.call_id().clone()?;
            refused(alloc, event.id, call_id, Refusal::NoSuchCall)
        }
    }
}

// A command of the user.
fn take_command(
    alloc: Global,
    call: &mut Call,
    event: Event,
    command: UserCommand,
) -> Result<Vec<CallOut>, AllocError>
    requires { event.moment ≤ 2 ^ 62 }
    ensures { IfOk result (λ outs. (call.new, outs.items)
        ≡ spec.item_of_call true call.old event (User command)) }
{
    match command {
        UserCommand::Invite(invite) => {
            refused(alloc, event.id, invite.call_id.clone()?, Refusal::CallInUse)
        }
        UserCommand::Plain(plain) => {
            refused(alloc, event.id, plain.call_id.clone()?, Refusal::CallInUse)
        }
        UserCommand::Request(request) => call.request(event, &request),
        UserCommand::Respond(respond) => call.served.respond(event.id, respond, event.moment),
        UserCommand::Ack(ack) => call.ack(event, &ack),
        UserCommand::Prack(prack) => call.prack(event, &prack),
        UserCommand::Cancel(cancel) => call.cancel(event, &cancel),
        UserCommand::AbandonRequest(abandon) => call.abandon_request(event, &abandon),
        UserCommand::AbandonDialog(abandon) => call.abandon_dialog(event, &abandon),
    }
}
