//! How `listen` answers INVITEs.

use crate::answer::SUCCESS;
use crate::sdp;
use sip_message::Uri;
use sip_text::Text;
use std::alloc::{AllocError, Global};

/// How an INVITE is answered.
#[derive(Drop)]
pub struct ListenPlan {
    /// It gets 180 first, and its answer this many ms later, unless its caller cancels it.
    pub ring: Option<u32>,
    /// If its caller supports that, it gets a reliable 183 before all that, and the rest after that
    /// 183 is acknowledged.
    pub reliable: bool,
    /// The status of its answer, from 200 to 699.
    pub status: u16,
    /// The body of a response with a status from 200 to 299.
    pub body: AnswerBody,
    /// Where a response that isn't a 2xx sends its caller (RFC 3261, section 21.3).
    pub contact: Option<Uri>,
    /// How many calls have to get a 2xx.
    pub must_answer: u32,
}

/// The body of a 2xx to an INVITE.
#[derive(Drop)]
pub enum AnswerBody {
    /// A session description without media, as an answer to that of the INVITE.
    Inactive,
    /// This text.
    Given(Text),
    /// No body.
    Nothing,
}

impl AnswerBody {
    /// The body for an INVITE with the body `offer`, from this IP; `version` INVITEs came before it
    /// in its dialog.
    pub(crate) fn to(
        &self,
        alloc: Global,
        ip: [u8; 4],
        version: u32,
        offer: &Text,
    ) -> Result<Text, AllocError> {
        match self {
            AnswerBody::Inactive => sdp::inactive(alloc, ip, version, offer.as_slice()),
            AnswerBody::Given(text) => text.clone(),
            AnswerBody::Nothing => Ok(Text::from_vec(Vec::new(alloc))),
        }
    }
}

impl ListenPlan {
    /// 200 at once, without a body.
    pub(crate) fn usual() -> ListenPlan {
        ListenPlan {
            ring: None,
            reliable: false,
            status: SUCCESS,
            body: AnswerBody::Nothing,
            contact: None,
            must_answer: 0,
        }
    }

    /// Whether its final response makes a dialog, as a 2xx does (RFC 3261, section 12.1).
    pub(crate) fn makes_dialogs(&self) -> bool {
        (200..=299).contains(&self.status)
    }
}
