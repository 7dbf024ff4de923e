//! The responses that the users give to requests.

use crate::hang_up::nothing;
use sip_message::{
    CallId, Content, ContentHeaders, DisplayText, Id, NameAddr, Parameters, Reason, Uri,
};
use sip_round::Event;
use sip_text::{Series, Text};
use sip_user::{Reliability, Respond, UserCommand};
use std::alloc::{AllocError, Global};

pub(crate) const RINGING: u16 = 180;

pub(crate) const SESSION_PROGRESS: u16 = 183;

pub(crate) const SUCCESS: u16 = 200;

pub(crate) const TEMPORARILY_UNAVAILABLE: u16 = 480;

const NOT_ACCEPTABLE_HERE: u16 = 488;

const NOT_IMPLEMENTED: u16 = 501;

/// The status of the answer to a request with this method: 200 for BYE and OPTIONS, 488 for INVITE,
/// and 501 for all others.
pub(crate) fn status_for(method: &[u8]) -> u16 {
    if method == b"BYE".as_slice() || method == b"OPTIONS".as_slice() {
        SUCCESS
    } else if method == b"INVITE".as_slice() {
        NOT_ACCEPTABLE_HERE
    } else {
        NOT_IMPLEMENTED
    }
}

/// Asks for a response with this status, with the usual reason and without a body.
///
/// # Errors
///
/// Memory ran out.
pub(crate) fn respond(
    alloc: Global,
    call_id: &CallId,
    id: Id,
    status: u16,
    events: &mut Vec<Event>,
) -> Result<(), AllocError> {
    let content = nothing(alloc);
    let reliability = Reliability::Plain;
    respond_with(alloc, call_id, id, status, reliability, content, events)
}

/// Asks for a response with this status and content, with the usual reason.
///
/// # Errors
///
/// Memory ran out.
pub(crate) fn respond_with(
    alloc: Global,
    call_id: &CallId,
    id: Id,
    status: u16,
    reliability: Reliability,
    content: Content,
    events: &mut Vec<Event>,
) -> Result<(), AllocError> {
    let call_id = call_id.clone()?;
    let reason = Text::copy_of(alloc, reason_of(status))?;
    let respond = Respond {
        call_id,
        id,
        status,
        reliability,
        content,
        reason: Reason::new(reason).unwrap_or(Reason::nothing(alloc)),
    };
    events.push(Event::Command(UserCommand::Respond(respond)))?;
    Ok(())
}

/// This Contact, and no body.
pub(crate) fn contact(alloc: Global, uri: Uri) -> Result<Content, AllocError> {
    let mut contacts = Series::new(alloc);
    contacts.push(NameAddr {
        display: DisplayText::nothing(alloc),
        uri,
        parameters: Parameters::new(alloc),
    })?;
    let headers = ContentHeaders {
        contacts,
        supported: Series::new(alloc),
        require: Series::new(alloc),
        others: Series::new(alloc),
    };
    Content::new(alloc, headers, Text::from_vec(Vec::new(alloc)))
}

// The reason that RFC 3261, section 21, gives for a status; empty for those not used here.
fn reason_of(status: u16) -> &'static [u8] {
    match status {
        RINGING => b"Ringing",
        SESSION_PROGRESS => b"Session Progress",
        SUCCESS => b"OK",
        300 => b"Multiple Choices",
        301 => b"Moved Permanently",
        302 => b"Moved Temporarily",
        404 => b"Not Found",
        TEMPORARILY_UNAVAILABLE => b"Temporarily Unavailable",
        486 => b"Busy Here",
        NOT_ACCEPTABLE_HERE => b"Not Acceptable Here",
        NOT_IMPLEMENTED => b"Not Implemented",
        503 => b"Service Unavailable",
        600 => b"Busy Everywhere",
        603 => b"Decline",
        _ => b"",
    }
}
