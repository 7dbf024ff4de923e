//! The dialogs that INVITEs to a listener make.

use crate::hang_up::end_dialog;
use sip_message::{CallId, Id};
use sip_round::Event;
use sip_text::Text;
use std::alloc::{AllocError, Global};
use std::collections::BTreeMap;

/// A dialog that an INVITE makes.
#[derive(Drop)]
struct Made {
    call_id: CallId,
    local_tag: Text,
    remote_tag: Text,
    re_invites: u32,
    // Whether the ACK of its 2xx came. Before that no BYE may end it (RFC 3261, section 15).
    is_confirmed: bool,
}

/// The dialogs that INVITEs make. Of two tags the first is one's own. A peer can make many in one
/// call, so nothing here looks at all dialogs of a call.
#[derive(Drop)]
pub(crate) struct MadeDialogs {
    /// By the INVITE.
    made: BTreeMap<Id, Made>,
    /// The INVITE of each, by one's own tag, which no other dialog has.
    invites: BTreeMap<Text, Id>,
}

impl MadeDialogs {
    /// None.
    pub(crate) fn new(alloc: Global) -> MadeDialogs {
        MadeDialogs {
            made: BTreeMap::new(alloc),
            invites: BTreeMap::new(alloc),
        }
    }

    /// Adds the dialog that this INVITE makes.
    pub(crate) fn add(
        &mut self,
        call_id: &CallId,
        id: Id,
        tags: (&Text, &Text),
    ) -> Result<(), AllocError> {
        let (local_tag, remote_tag) = tags;
        self.invites.insert(local_tag.clone()?, id)?;
        let made = Made {
            call_id: call_id.clone()?,
            local_tag: local_tag.clone()?,
            remote_tag: remote_tag.clone()?,
            re_invites: 0,
            is_confirmed: false,
        };
        self.made.insert(id, made)?;
        Ok(())
    }

    /// Counts an INVITE in the dialog of these tags. Returns its number, from 1, if there is such a
    /// dialog.
    pub(crate) fn re_invited(&mut self, call_id: &CallId, tags: (&Text, &Text)) -> Option<u32> {
        let id = self.invite_of(call_id, tags)?;
        let made = self.made.get_mut(&id)?;
        made.re_invites = made.re_invites.saturating_add(1);
        Some(made.re_invites)
    }

    // The INVITE that made the dialog of these tags.
    fn invite_of(&self, call_id: &CallId, tags: (&Text, &Text)) -> Option<Id> {
        let (local_tag, remote_tag) = tags;
        let id = *self.invites.get(local_tag)?;
        let made = self.made.get(&id)?;
        let is_same = made.remote_tag == *remote_tag && made.call_id == *call_id;
        is_same.then_some(id)
    }

    /// The ACK of this INVITE came.
    pub(crate) fn confirm(&mut self, id: Id) {
        if let Some(made) = self.made.get_mut(&id) {
            made.is_confirmed = true;
        }
    }

    /// Sends a BYE in the dialog of this INVITE, for example if no ACK came in time (RFC 3261,
    /// section 13.3.1.4).
    pub(crate) fn end(
        &self,
        alloc: Global,
        id: Id,
        events: &mut Vec<Event>,
    ) -> Result<(), AllocError> {
        match self.made.get(&id) {
            Some(made) => {
                let (call_id, local_tag) = (&made.call_id, &made.local_tag);
                end_dialog(alloc, call_id, local_tag, &made.remote_tag, events)
            }
            None => Ok(()),
        }
    }

    /// This INVITE was cancelled, or its dialog gets a BYE.
    pub(crate) fn remove_of(&mut self, id: Id) {
        if let Some(made) = self.made.remove(&id) {
            self.invites.remove(&made.local_tag);
        }
    }

    /// The dialog of these tags ended.
    pub(crate) fn remove(&mut self, call_id: &CallId, tags: (&Text, &Text)) {
        if let Some(id) = self.invite_of(call_id, tags) {
            self.remove_of(id);
        }
    }

    /// Sends a BYE in each confirmed dialog, and removes it.
    pub(crate) fn hang_up(
        &mut self,
        alloc: Global,
        events: &mut Vec<Event>,
    ) -> Result<(), AllocError> {
        let mut ended = Vec::new(alloc);
        for (id, made) in self.made.iter() {
            if made.is_confirmed {
                self.end(alloc, *id, events)?;
                ended.push(*id)?;
            }
        }
        for id in ended {
            self.remove_of(id);
        }
        Ok(())
    }
}
