//! A dialog that is held.

ghost use Rattle.std.specs.Prelude.{◌≡◌, IfOk};
ghost use Rattle.sip_held_dialogs.specs.Requests.{dialog_id_of_tags};

use crate::pending_request::PendingRequest;
use sip_dialog::Dialog;
use sip_grammar::LowerText;
use sip_message::{Addr, Id};
use sip_reliable::Inbound;
use sip_text::{Series, Text};
use std::alloc::{AllocError, Global};

/// The name by which a dialog is found: its local and its remote tag in lower case, since tags are
/// compared without case (RFC 3261, sections 7.3.1 and 12). A missing tag is empty.
#[derive(PartialEq, Eq, Hash)]
pub struct DialogId {
    pub local: Text,
    pub remote: Text,
}

impl DialogId {
    /// The name of the dialog of these tags.
    pub fn of_tags(alloc: Global, local: &[u8], remote: &[u8]) -> Result<DialogId, AllocError>
        ensures { IfOk result (λ name. name ≡ dialog_id_of_tags local.now remote.now) }
    {
        Ok(DialogId {
            local: LowerText::of(alloc, local)?.into_text(),
            remote: LowerText::of(alloc, remote)?.into_text(),
        })
    }
}

/// A dialog, from the event that made it to the one that ends it.
pub struct HeldDialog {
    pub dialog: Dialog,
    /// The address of its requests if the URI of their next hop names no IPv4 address.
    pub address: Addr,
    /// The INVITE that made it.
    pub invite: Id,
    /// The event that made it. This distinguishes the dialog from another one with the same name.
    pub created_by: Id,
    /// The latest RSeq to that INVITE that was taken in the dialog, if any.
    pub last_rseq: Inbound,
    /// The ACKs and PRACKs that are owed in it, the oldest first.
    pub pending_requests: Series<PendingRequest>,
}

/// A dialog that a request belongs to: its name, and the event that made it.
pub struct DialogReference {
    pub name: DialogId,
    pub created_by: Id,
}

impl Drop for DialogId {
    fn drop(self) {
        let DialogId {
            local: _,
            remote: _,
        } = self;
    }
}

impl Clone for DialogId {
    ghost is_clone = { λ original copy. copy ≡ original };

    fn clone(&self) -> Result<DialogId, AllocError> {
        Ok(DialogId {
            local: self.local.clone()?,
            remote: self.remote.clone()?,
        })
    }
}

impl Drop for HeldDialog {
    fn drop(self) {
        let HeldDialog {
            dialog: _,
            address: _,
            invite: _,
            created_by: _,
            last_rseq: _,
            pending_requests: _,
        } = self;
    }
}

impl Drop for DialogReference {
    fn drop(self) {
        let DialogReference {
            name: _,
            created_by: _,
        } = self;
    }
}
