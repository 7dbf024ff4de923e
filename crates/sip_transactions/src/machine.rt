//! One input of one transaction.

ghost use Rattle.std.specs.Prelude.{◌≡◌, ℕ, ◌≤◌, ◌^◌, IfOk, IfSome, Some, None, if◌then◌else◌};
ghost use Rattle.std.specs.Option.{option_copied};
ghost use Rattle.sip_transactions.specs.Steps.Input.{role_of};
ghost use Rattle.sip_transactions.specs.Steps.Life.{step_for, begun, keeps_request, life_after, acted, acted_if, acted_at_arrival};
ghost use Rattle.sip_transactions.specs.Timers.{IsTimely};
ghost use Rattle.sip_transactions.specs.Repeats.{RepeatsInTime};
ghost use Rattle.sip_transactions.specs.Steps.Output.{outputs_of};

use crate::input::Input;
use crate::life::{Context, Life};
use crate::made::made_bytes;
use crate::output::Out;
use crate::rows::step_of;
use crate::said::{passed_on, said};
use crate::state::Role;
use crate::step::{Next, Sent, Step, UpAction};
use crate::trigger::trigger_of;
use keyed_machine::StateMachine;
use sip_message::{Addr, Id, Key, Message, SharedKey};
use sip_text::{Boxed, Text};
use std::alloc::{AllocError, Global};

/// What is held after an input, and the outputs that it adds.
type After = (Option<Life>, Vec<Out>);

fn role_of(key: &Key) -> Role
    ensures { result ≡ role_of key.now }
{
    match key {
        Key::Client { method, .. } if method.as_slice() == b"INVITE".as_slice() =>
            Role::InviteClient,
        Key::Client { .. } => Role::Client,
        Key::Server { method, .. } if method.as_slice() == b"INVITE".as_slice() =>
            Role::InviteServer,
        Key::Server { .. } => Role::Server,
    }
}

// What the row for an input, or for a tick, does, if there is one. No row is for a transaction that
// is given up: it ends.
#[tactic(auto, unfolding(crate::specs::Steps::Life::step_for))]
fn step_for(key: &SharedKey, held: Option<&Life>, now: u64, input: Option<&Input>) -> Option<Step>
    ensures value { result ≡ step_for key.now (option_copied held.entry) now
        (option_copied input.entry) }
    ensures timely { IfSome result
        (λ step. RepeatsInTime step.due now (option_copied held.entry)) }
{
    if let Some(Input::Abandon) = input {
        return Some(Step::end(UpAction::Nothing));
    }
    let trigger = trigger_of(held, now, input)?;
    step_of(role_of(key.get()), held.map(|life| life.state), trigger)
}

// A row without a state. It made a message with these bytes.
fn act(
    alloc: Global,
    key: &SharedKey,
    now: u64,
    context: Context,
    step: Step,
    made: Option<Text>,
    arrived: Option<(Boxed<Message>, Addr)>,
) -> Result<After, AllocError>
    requires bound { now ≤ 2 ^ 62 }
    requires timely { IsTimely step.due now context.timers }
    ensures next { IfOk result (λ after. after.0 ≡ life_after None context step now made) }
    ensures adds { IfOk result (λ after. after.1.items
        ≡ outputs_of key.now context step made arrived) }
{
    // A written text may have spare room; the copy has none.
    let kept = made.clone()?;
    let outputs = said(alloc, key, &context, step, made, arrived)?;
    Ok((context.begin(step, now, kept), outputs))
}

// The same for a life that is held. Returns whether it goes on, and what the row says.
fn act_on(
    alloc: Global,
    key: &SharedKey,
    now: u64,
    life: &mut Life,
    step: Step,
    made: Option<Text>,
    arrived: Option<(Boxed<Message>, Addr)>,
) -> Result<(bool, Vec<Out>), AllocError>
    requires bound { now ≤ 2 ^ 62 }
    requires timely { IsTimely step.due now life.old.context.timers }
    ensures next { IfOk result (λ after. (if after.0 then Some life.new else None)
        ≡ life_after (Some life.old.state) life.old.context step now made) }
    ensures adds { IfOk result (λ after. after.1.items
        ≡ outputs_of key.now life.old.context step made arrived) }
{
    let kept = made.clone()?;
    let outputs = said(alloc, key, &life.context, step, made, arrived)?;
    Ok((life.go_on(step, now, kept), outputs))
}

// A row of the life that is held.
fn go_on(
    alloc: Global,
    key: &SharedKey,
    now: u64,
    input: Input,
    life: &mut Life,
    step: Step,
) -> Result<(bool, Vec<Out>), AllocError>
    requires bound { now ≤ 2 ^ 62 }
    requires timely { IsTimely step.due now life.old.context.timers }
    ensures next { IfOk result (λ after. (if after.0 then Some life.new else None)
        ≡ (acted key.now now (Some input) (Some life.old.state) life.old.context step).0) }
    ensures adds { IfOk result (λ after. after.1.items
        ≡ (acted key.now now (Some input) (Some life.old.state) life.old.context step).1) }
{
    let made = made_bytes(alloc, life.context.request(), step.sent, input.message())?;
    act_on(alloc, key, now, life, step, made, input.into_arrived())
}

// A row if no life is held.
#[tactic(auto, unfolding(crate::specs::Steps::Life::begun))]
fn begin(
    alloc: Global,
    key: &SharedKey,
    now: u64,
    input: Input,
    step: Step,
) -> Result<After, AllocError>
    requires bound { now ≤ 2 ^ 62 }
    requires timely { RepeatsInTime step.due now None }
    ensures next { let context = begun (role_of key.now) (Some input) in
        IfOk result (λ after. after.0
        ≡ (acted_if key.now now (Some input) None context step).0) }
    ensures adds { let context = begun (role_of key.now) (Some input) in
        IfOk result (λ after. after.1.items
        ≡ (acted_if key.now now (Some input) None context step).1) }
{
    match input {
        Input::Receive {
            id,
            message,
            reply_to,
        } => arrive(alloc, key, now, id, message, reply_to, step),
        Input::Start {
            id,
            call_id,
            message,
            to,
        } => {
            let keeps = keeps_request(role_of(key.get()));
            let request = if keeps { Some(message.get()) } else { None };
            let made = made_bytes(alloc, request, step.sent, Some(message.get()))?;
            let request = if keeps { Some(message) } else { None };
            act(
                alloc,
                key,
                now,
                Context::new(id, call_id, to, request),
                step,
                made,
                None,
            )
        }
        Input::Answer { .. } | Input::Failed { .. } | Input::Abandon => {
            Ok((None, Vec::new(alloc)))
        }
    }
}

fn keeps_request(role: Role) -> bool
    ensures { result ≡ keeps_request role }
{
    match role {
        Role::InviteClient => true,
        Role::Client | Role::InviteServer | Role::Server => false,
    }
}

// A message that comes while no life is held. If the row begins none, no context is made.
fn arrive(
    alloc: Global,
    key: &SharedKey,
    now: u64,
    id: Id,
    message: Boxed<Message>,
    reply_to: Addr,
    step: Step,
) -> Result<After, AllocError>
    requires bound { now ≤ 2 ^ 62 }
    requires timely { RepeatsInTime step.due now None }
    ensures next { IfOk result (λ after. after.0
        ≡ (acted_at_arrival key.now now id message reply_to step).0) }
    ensures adds { IfOk result (λ after. after.1.items
        ≡ (acted_at_arrival key.now now id message reply_to step).1) }
{
    match (step.next, step.sent) {
        (Next::Ended, Sent::Nothing) => pass(alloc, key, id, message, reply_to, step),
        _ => begin_by_message(alloc, key, now, id, message, reply_to, step),
    }
}

// A row that begins no life and sends nothing.
#[tactic(auto, using(crate::proofs::Passing::passed_next, crate::proofs::Passing::passed_adds))]
fn pass(
    alloc: Global,
    key: &SharedKey,
    id: Id,
    message: Boxed<Message>,
    reply_to: Addr,
    step: Step,
) -> Result<After, AllocError>
    requires ended { step.next ≡ Next.Ended }
    requires silent { step.sent ≡ Sent.Nothing }
    ensures next { (now : ℕ) → IfOk result
        (λ after. after.0 ≡ (acted_at_arrival key.now now id message reply_to step).0) }
    ensures adds { (now : ℕ) → IfOk result
        (λ after. after.1.items ≡ (acted_at_arrival key.now now id message reply_to step).1) }
{
    let outputs = passed_on(alloc, key, id, message, reply_to, step.handed)?;
    Ok((None, outputs))
}

fn begin_by_message(
    alloc: Global,
    key: &SharedKey,
    now: u64,
    id: Id,
    message: Boxed<Message>,
    reply_to: Addr,
    step: Step,
) -> Result<After, AllocError>
    requires bound { now ≤ 2 ^ 62 }
    requires timely { RepeatsInTime step.due now None }
    ensures next { IfOk result (λ after. after.0
        ≡ (acted_at_arrival key.now now id message reply_to step).0) }
    ensures adds { IfOk result (λ after. after.1.items
        ≡ (acted_at_arrival key.now now id message reply_to step).1) }
{
    let made = made_bytes(alloc, None, step.sent, Some(message.get()))?;
    let context = Context::new(id, message.get().call_id.clone()?, reply_to, None);
    act(
        alloc,
        key,
        now,
        context,
        step,
        made,
        Some((message, reply_to)),
    )
}

/// The machine of every transaction.
#[derive(Clone, Copy)]
pub struct Transactions;

impl StateMachine for Transactions {
    ghost use Rattle.std.specs.Prelude.{◌^◌};
    ghost use Rattle.sip_message.specs.Keys.{exact_keys};
    ghost use Rattle.sip_transactions.specs.Machine.{transaction_machine, life_due};
    ghost use Rattle.sip_transactions.specs.Idle.{ticks_are_idle};
    ghost use Rattle.sip_transactions.specs.Rules.Step.{step_at};

    type Key = SharedKey;

    type State = Life;

    type Input = Input;

    type Output = Out;

    ghost machine = { λ _. transaction_machine };

    ghost due = { life_due };

    fn due_of(&self, state: &Life) -> Option<u64> {
        state.context.timers.first_due()
    }

    fn may_begin(&self, input: &Input) -> bool {
        match input {
            Input::Receive { message, .. } => message.get().is_request(),
            Input::Start { .. } => true,
            Input::Answer { .. } | Input::Failed { .. } | Input::Abandon => false,
        }
    }

    #[tactic(auto, unfolding(crate::specs::Steps::Life::stepped), using(crate::proofs::Rules::step_is))]
    fn begin(
        &self,
        alloc: Global,
        key: &SharedKey,
        moment: u64,
        input: Input,
    ) -> Result<(Option<Life>, Vec<Out>), AllocError>
        requires { moment ≤ 2 ^ 62 }
        ensures next { IfOk result (λ after. after.0
            ≡ (step_at key.now None moment (Some input)).0) }
        ensures adds { IfOk result (λ after. after.1.items
            ≡ (step_at key.now None moment (Some input)).1) }
    {
        let Some(step) = step_for(key, None, moment, Some(&input)) else {
            return Ok((None, Vec::new(alloc)));
        };
        begin(alloc, key, moment, input, step)
    }

    #[tactic(auto, unfolding(crate::specs::Steps::Life::stepped), using(crate::proofs::Rules::step_is))]
    fn step(
        &self,
        alloc: Global,
        key: &SharedKey,
        state: &mut Life,
        moment: u64,
        input: Input,
    ) -> Result<(bool, Vec<Out>), AllocError>
        requires { moment ≤ 2 ^ 62 }
        ensures next { IfOk result (λ after. (if after.0 then Some state.new else None)
            ≡ (step_at key.now (Some state.old) moment (Some input)).0) }
        ensures adds { IfOk result (λ after. after.1.items
            ≡ (step_at key.now (Some state.old) moment (Some input)).1) }
    {
        let Some(step) = step_for(key, Some(state), moment, Some(&input)) else {
            return Ok((true, Vec::new(alloc)));
        };
        go_on(alloc, key, moment, input, state, step)
    }

    #[tactic(auto, unfolding(crate::specs::Steps::Life::stepped), using(crate::proofs::Rules::step_is))]
    fn tick(
        &self,
        alloc: Global,
        key: &SharedKey,
        mut state: Life,
        moment: u64,
    ) -> Result<(Option<Life>, Vec<Out>), AllocError>
        requires { moment ≤ 2 ^ 62 }
        ensures next { IfOk result (λ after. after.0
            ≡ (step_at key.now (Some state) moment None).0) }
        ensures adds { IfOk result (λ after. after.1.items
            ≡ (step_at key.now (Some state) moment None).1) }
    {
        let Some(step) = step_for(key, Some(&state), moment, None) else {
            return Ok((Some(state), Vec::new(alloc)));
        };
        let made = made_bytes(alloc, state.context.request(), step.sent, None)?;
        let (goes_on, outputs) = act_on(alloc, key, moment, &mut state, step, made, None)?;
        Ok((if goes_on { Some(state) } else { None }, outputs))
    }

    ghost exact = { exact_keys };

    ghost copies = { λ _ _ same. same };

    ghost idle = { λ _ moment. ticks_are_idle moment };
}
