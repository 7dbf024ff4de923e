//! The functions by which C asks for commands, by their fields. Each takes the headers that were
//! given before it with `sip_ua_raw_header`.

ghost use Rattle.std.specs.Prelude.{◌≡◌};
ghost use Rattle.sip_host.specs.Asking.{TakesCommand, TakesHeader, abandon_dialog_of, abandon_request_of, ack_of, cancel_of, command_of, invite_of, plain_of, prack_of, request_of, respond_of};
ghost use Rattle.sip_c.specs.Called.{Asks, Calls, addr_of, asked_of, reliability_of, support_of};
ghost use Rattle.sip_c.specs.Status as spec;

use crate::handle::Handle;
use crate::status::{NO_AGENT, OK, number_of, number_of_answer};
use crate::values::{self, Address, Asked};
use sip_host::{
    AbandonDialogFields, AbandonRequestFields, BodyFields, CancelFields, CommandFields, HostFault,
    InviteFields, PlainFields, RequestFields, RespondFields,
};
use sip_message::Id;
use std::alloc::Global;

/// A header of the next command: its name and its value.
#[unsafe(no_mangle)]
pub extern "C" fn sip_ua_raw_header(
    alloc: Global,
    handle: &mut Handle,
    name: &[u8],
    value: &[u8],
) -> u32
    ensures { Calls handle.old.owned.host handle.new.owned.host result
        (TakesHeader name.now value.now) }
{
    let Some(mut host) = handle.take(alloc) else {
        return NO_AGENT;
    };
    let answer = host.header(name, value);
    handle.put(host);
    number_of_answer(answer)
}

/// Starts a call: a first INVITE to an address.
#[unsafe(no_mangle)]
pub extern "C" fn sip_ua_raw_invite(
    alloc: Global,
    handle: &mut Handle,
    call_id: &[u8],
    address: &Address,
    request_uri: &[u8],
    from: &[u8],
    to: &[u8],
    supports_100rel: bool,
    requires_100rel: bool,
    body: &[u8],
    asked: &mut Asked,
) -> u32
    ensures { Asks handle.old.owned.host handle.new.owned.host result asked.new
        (TakesCommand (invite_of (record {
          call_id = call_id.entry;
          address = addr_of address.now;
          request_uri = request_uri.entry;
          from = from.entry;
          to = to.entry;
          support = support_of supports_100rel requires_100rel;
          body = body.entry;
        }))) }
{
    let fields = InviteFields {
        call_id,
        address: address.addr(),
        request_uri,
        from,
        to,
        support: values::support_of(supports_100rel, requires_100rel),
        body,
    };
    ask(alloc, handle, &CommandFields::Invite(fields), asked)
}

/// Sends a request outside of any dialog.
#[unsafe(no_mangle)]
pub extern "C" fn sip_ua_raw_plain(
    alloc: Global,
    handle: &mut Handle,
    call_id: &[u8],
    address: &Address,
    method: &[u8],
    request_uri: &[u8],
    from: &[u8],
    to: &[u8],
    body: &[u8],
    asked: &mut Asked,
) -> u32
    ensures { Asks handle.old.owned.host handle.new.owned.host result asked.new
        (TakesCommand (plain_of (record {
          call_id = call_id.entry;
          address = addr_of address.now;
          method = method.entry;
          request_uri = request_uri.entry;
          from = from.entry;
          to = to.entry;
          body = body.entry;
        }))) }
{
    let fields = PlainFields {
        call_id,
        address: address.addr(),
        method,
        request_uri,
        from,
        to,
        body,
    };
    ask(alloc, handle, &CommandFields::Plain(fields), asked)
}

/// Sends a request in a dialog.
#[unsafe(no_mangle)]
pub extern "C" fn sip_ua_raw_request(
    alloc: Global,
    handle: &mut Handle,
    call_id: &[u8],
    local_tag: &[u8],
    remote_tag: &[u8],
    method: &[u8],
    body: &[u8],
    asked: &mut Asked,
) -> u32
    ensures { Asks handle.old.owned.host handle.new.owned.host result asked.new
        (TakesCommand (request_of (record {
          call_id = call_id.entry;
          local_tag = local_tag.entry;
          remote_tag = remote_tag.entry;
          method = method.entry;
          body = body.entry;
        }))) }
{
    let fields = RequestFields {
        call_id,
        local_tag,
        remote_tag,
        method,
        body,
    };
    ask(alloc, handle, &CommandFields::Request(fields), asked)
}

/// Sends a response to a request, by the request's id.
#[unsafe(no_mangle)]
pub extern "C" fn sip_ua_raw_respond(
    alloc: Global,
    handle: &mut Handle,
    call_id: &[u8],
    round: u64,
    place: u32,
    status: u16,
    is_reliable: bool,
    reason: &[u8],
    body: &[u8],
    asked: &mut Asked,
) -> u32
    ensures { Asks handle.old.owned.host handle.new.owned.host result asked.new
        (TakesCommand (respond_of (record {
          call_id = call_id.entry;
          id = record { round = round; place = place };
          status = status;
          reliability = reliability_of is_reliable;
          reason = reason.entry;
          body = body.entry;
        }))) }
{
    let fields = RespondFields {
        call_id,
        id: Id { round, place },
        status,
        reliability: values::reliability_of(is_reliable),
        reason,
        body,
    };
    ask(alloc, handle, &CommandFields::Respond(fields), asked)
}

/// Sends the ACK of the oldest 2xx of a dialog that is owed one.
#[unsafe(no_mangle)]
pub extern "C" fn sip_ua_raw_ack(
    alloc: Global,
    handle: &mut Handle,
    call_id: &[u8],
    local_tag: &[u8],
    remote_tag: &[u8],
    body: &[u8],
    asked: &mut Asked,
) -> u32
    ensures { Asks handle.old.owned.host handle.new.owned.host result asked.new
        (TakesCommand (ack_of (record {
          call_id = call_id.entry;
          local_tag = local_tag.entry;
          remote_tag = remote_tag.entry;
          body = body.entry;
        }))) }
{
    let fields = BodyFields {
        call_id,
        local_tag,
        remote_tag,
        body,
    };
    ask(alloc, handle, &CommandFields::Ack(fields), asked)
}

/// Sends the PRACK of the oldest provisional response of a dialog that is owed one.
#[unsafe(no_mangle)]
pub extern "C" fn sip_ua_raw_prack(
    alloc: Global,
    handle: &mut Handle,
    call_id: &[u8],
    local_tag: &[u8],
    remote_tag: &[u8],
    body: &[u8],
    asked: &mut Asked,
) -> u32
    ensures { Asks handle.old.owned.host handle.new.owned.host result asked.new
        (TakesCommand (prack_of (record {
          call_id = call_id.entry;
          local_tag = local_tag.entry;
          remote_tag = remote_tag.entry;
          body = body.entry;
        }))) }
{
    let fields = BodyFields {
        call_id,
        local_tag,
        remote_tag,
        body,
    };
    ask(alloc, handle, &CommandFields::Prack(fields), asked)
}

/// Cancels an INVITE that was sent, by the INVITE's id.
#[unsafe(no_mangle)]
pub extern "C" fn sip_ua_raw_cancel(
    alloc: Global,
    handle: &mut Handle,
    call_id: &[u8],
    round: u64,
    place: u32,
    asked: &mut Asked,
) -> u32
    ensures { Asks handle.old.owned.host handle.new.owned.host result asked.new
        (TakesCommand (cancel_of (record {
          call_id = call_id.entry;
          id = record { round = round; place = place };
        }))) }
{
    let fields = CancelFields {
        call_id,
        id: Id { round, place },
    };
    ask(alloc, handle, &CommandFields::Cancel(fields), asked)
}

/// Gives up a request that was sent, by the request's id.
#[unsafe(no_mangle)]
pub extern "C" fn sip_ua_raw_abandon_request(
    alloc: Global,
    handle: &mut Handle,
    call_id: &[u8],
    round: u64,
    place: u32,
    asked: &mut Asked,
) -> u32
    ensures { Asks handle.old.owned.host handle.new.owned.host result asked.new
        (TakesCommand (abandon_request_of (record {
          call_id = call_id.entry;
          id = record { round = round; place = place };
        }))) }
{
    let fields = AbandonRequestFields {
        call_id,
        id: Id { round, place },
    };
    ask(alloc, handle, &CommandFields::AbandonRequest(fields), asked)
}

/// Gives up a dialog, by its tags.
#[unsafe(no_mangle)]
pub extern "C" fn sip_ua_raw_abandon_dialog(
    alloc: Global,
    handle: &mut Handle,
    call_id: &[u8],
    local_tag: &[u8],
    remote_tag: &[u8],
    asked: &mut Asked,
) -> u32
    ensures { Asks handle.old.owned.host handle.new.owned.host result asked.new
        (TakesCommand (abandon_dialog_of (record {
          call_id = call_id.entry;
          local_tag = local_tag.entry;
          remote_tag = remote_tag.entry;
        }))) }
{
    let fields = AbandonDialogFields {
        call_id,
        local_tag,
        remote_tag,
    };
    ask(alloc, handle, &CommandFields::AbandonDialog(fields), asked)
}

// Asks for a command, tells the answer, and gives its number.
fn ask(alloc: Global, handle: &mut Handle, fields: &CommandFields<'_>, asked: &mut Asked) -> u32
    ensures { Asks handle.old.owned.host handle.new.owned.host result asked.new
        (TakesCommand (command_of fields.now)) }
{
    let Some(mut host) = handle.take(alloc) else {
        *asked = values::nothing_asked();
        return NO_AGENT;
    };
    let answer = host.command(fields);
    handle.put(host);
    tell(answer, asked)
}

// Tells the answer to a command, and gives its number.
fn tell(answer: Result<Id, HostFault>, asked: &mut Asked) -> u32
    ensures number { result ≡ spec.number_of_answer answer }
    ensures told { asked.new ≡ asked_of answer }
{
    *asked = values::asked_of(answer);
    match answer {
        Ok(_) => OK,
        Err(fault) => number_of(fault),
    }
}
