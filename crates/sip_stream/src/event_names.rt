//! The call that an event names, and the transaction that takes it.

use sip_message::{Message, ReadFault, SharedKey, key_of};
use sip_reader::read;
use sip_round::Event;
use sip_text::Text;
use std::alloc::{AllocError, Global};

/// What an event names.
#[derive(Drop)]
pub(crate) struct EventNames {
    pub(crate) call_id: Text,
    /// The key of the transaction that takes a datagram. That may be one of another call: a
    /// Call-ID is no part of a key (RFC 3261, sections 17.1.3 and 17.2.3).
    pub(crate) key: Option<SharedKey>,
}

impl EventNames {
    /// What the event names; none of a failed send, or of a datagram that spells no message.
    ///
    /// # Errors
    ///
    /// Memory ran out.
    pub(crate) fn of(alloc: Global, event: &Event) -> Result<Option<EventNames>, AllocError> {
        match event {
            Event::Datagram { bytes, .. } => match read(alloc, bytes.as_slice()) {
                Ok(message) => Ok(Some(EventNames::in_message(alloc, &message)?)),
                Err(ReadFault::NoMemory) => Err(AllocError),
                Err(_) => Ok(None),
            },
            Event::Command(command) => Ok(Some(EventNames {
                call_id: Text::copy_of(alloc, command.call_id().as_slice())?,
                key: None,
            })),
            Event::Failed(_) => Ok(None),
        }
    }

    fn in_message(alloc: Global, message: &Message) -> Result<EventNames, AllocError> {
        Ok(EventNames {
            call_id: Text::copy_of(alloc, message.call_id.as_slice())?,
            key: Some(key_of(alloc, message)?),
        })
    }
}
