//! What the rounds of a journal leave open of one call.

use sip_message::Id;
use sip_text::Text;
use sip_user::{Notice, UserCommand};
use std::alloc::{AllocError, Global};
use std::collections::{BTreeMap, BTreeSet};

/// The lowest status of a final response (RFC 3261, section 7.2).
const FINAL: u16 = 200;

/// The lowest status above those of a 2xx.
const ABOVE_SUCCESS: u16 = 300;

/// How long after its last event or notice a call with nothing open may still hold something, in
/// ms. Each timer of a transaction ends within 64*T1, which is 32 s, or within T4, 5 s, after that.
const LINGER: u64 = 37_000;

/// The tags of a dialog.
#[derive(PartialEq, Eq, PartialOrd, Ord, Drop)]
struct DialogTags {
    local: Text,
    remote: Text,
}

impl DialogTags {
    fn copy_of(local: &Text, remote: &Text) -> Result<DialogTags, AllocError> {
        Ok(DialogTags {
            local: local.clone()?,
            remote: remote.clone()?,
        })
    }
}

/// A request that came and has no final response.
#[derive(Drop)]
struct Received {
    is_invite: bool,
    tags: DialogTags,
}

/// What the rounds of a journal have told of one call so far.
#[derive(Drop)]
pub(crate) struct CallRecord {
    first_round: u64,
    last_moment: u64,
    // One's own requests without outcome, and whether a 2xx makes a dialog.
    sent: BTreeMap<Id, bool>,
    received: BTreeMap<Id, Received>,
    // The dialogs that haven't ended.
    dialogs: BTreeSet<DialogTags>,
    // The Call-IDs of the calls that are linked with it.
    linked: BTreeSet<Text>,
}

impl CallRecord {
    /// A call whose first event comes in the round with this number, at this moment in ms.
    pub(crate) fn new(alloc: Global, round: u64, moment: u64) -> CallRecord {
        CallRecord {
            first_round: round,
            last_moment: moment,
            sent: BTreeMap::new(alloc),
            received: BTreeMap::new(alloc),
            dialogs: BTreeSet::new(alloc),
            linked: BTreeSet::new(alloc),
        }
    }

    /// The number of the round of its first event.
    pub(crate) fn first_round(&self) -> u64 {
        self.first_round
    }

    /// Whether the agent may still hold something of the call at this moment. It may say so also of
    /// a call of which nothing is held.
    pub(crate) fn may_be_held(&self, moment: u64) -> bool {
        !self.sent.is_empty()
            || !self.received.is_empty()
            || !self.dialogs.is_empty()
            || self.last_moment.saturating_add(LINGER) >= moment
    }

    /// Something of the call came at this moment.
    pub(crate) fn touch(&mut self, moment: u64) {
        self.last_moment = moment;
    }

    /// A transaction of one of the two calls took a datagram with the Call-ID of the other one: it
    /// is linked with the call with this Call-ID.
    pub(crate) fn link(&mut self, call_id: Text) -> Result<(), AllocError> {
        self.linked.insert(call_id)?;
        Ok(())
    }

    /// The Call-IDs of the calls that are linked with it.
    pub(crate) fn linked(&self) -> &BTreeSet<Text> {
        &self.linked
    }

    /// The command with this id was carried out.
    pub(crate) fn take_command(&mut self, id: Id, command: &UserCommand) -> Result<(), AllocError> {
        match command {
            UserCommand::Invite(_) => {
                self.sent.insert(id, true)?;
            }
            UserCommand::Plain(_) | UserCommand::Request(_) => {
                self.sent.insert(id, false)?;
            }
            UserCommand::Respond(respond) => self.answer(respond.id, respond.status)?,
            UserCommand::AbandonRequest(abandon) => {
                self.sent.remove(&abandon.id);
            }
            UserCommand::Ack(_)
            | UserCommand::Prack(_)
            | UserCommand::Cancel(_)
            | UserCommand::AbandonDialog(_) => {}
        }
        Ok(())
    }

    // A request that came was answered. A 2xx to an INVITE makes a dialog.
    fn answer(&mut self, id: Id, status: u16) -> Result<(), AllocError> {
        if status < FINAL {
            return Ok(());
        }
        if let Some(Received { is_invite, tags }) = self.received.remove(&id) {
            if is_invite && status < ABOVE_SUCCESS {
                self.dialogs.insert(tags)?;
            }
        }
        Ok(())
    }

    /// The user was told this of the call.
    pub(crate) fn take_notice(&mut self, notice: &Notice) -> Result<(), AllocError> {
        match notice {
            Notice::Request {
                id,
                method,
                local_tag,
                remote_tag,
                ..
            } => {
                let is_invite = method.as_slice() == b"INVITE".as_slice();
                let tags = DialogTags::copy_of(local_tag, remote_tag)?;
                self.received.insert(*id, Received { is_invite, tags })?;
            }
            Notice::Response {
                id,
                status,
                local_tag,
                remote_tag,
                ..
            } => {
                let tags = DialogTags::copy_of(local_tag, remote_tag)?;
                self.take_response(*id, status.code(), tags)?;
            }
            Notice::Timeout { id, .. } | Notice::Failed { id, .. } => {
                self.sent.remove(id);
            }
            Notice::Cancel { id, .. } => {
                self.received.remove(id);
            }
            Notice::Ended {
                local_tag,
                remote_tag,
                ..
            } => {
                let tags = DialogTags::copy_of(local_tag, remote_tag)?;
                self.dialogs.remove(&tags);
            }
            Notice::Ack { .. }
            | Notice::Prack { .. }
            | Notice::NoAck { .. }
            | Notice::NoPrack { .. }
            | Notice::Refused { .. } => {}
        }
        Ok(())
    }

    // A response to one's own request came. Of a request that had its outcome only an INVITE can
    // get another 2xx, which makes another dialog (RFC 3261, section 13.2.2.4).
    fn take_response(&mut self, id: Id, status: u16, tags: DialogTags) -> Result<(), AllocError> {
        if status < FINAL {
            return Ok(());
        }
        let makes_dialog = self.sent.remove(&id).unwrap_or(true);
        if makes_dialog && status < ABOVE_SUCCESS {
            self.dialogs.insert(tags)?;
        }
        Ok(())
    }
}
