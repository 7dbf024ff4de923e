//! The 2xx responses to an INVITE, by the dialog of each.

ghost use Rattle.std.specs.Prelude.{◌≡◌, [], IfOk, OnOk};
ghost use Rattle.std.specs.Option.{option_copied};
ghost use Rattle.indexmap.specs.IndexMap.{insert_entry};
ghost use Rattle.sip_held_dialogs.specs.Dialogs.{is_dialog_id};
ghost use Rattle.sip_clients.specs.Answers as spec;

use indexmap::IndexMap;
use seeded_hash::HashSeed;
use sip_held_dialogs::DialogId;
use sip_message::Addr;
use sip_same::{SameValue, are_same_maps};
use sip_text::Text;
use std::alloc::{AllocError, Global};
use std::marker::Model;

/// An ACK that was sent: its bytes go out again each time its 2xx is retransmitted (RFC 3261,
/// section 13.2.2.4).
pub struct SentAck {
    pub to: Addr,
    pub bytes: Text,
}

impl Drop for SentAck {
    fn drop(self) {
        let SentAck { to: _, bytes: _ } = self;
    }
}

/// The dialogs of the 2xx responses that came, each with the ACK of its 2xx once one was sent. A
/// contract sees their list.
pub struct Answers {
    acks: IndexMap<DialogId, Option<SentAck>, HashSeed>,
}

impl Model for Answers {
    ghost use Rattle.std.specs.Prelude.{List, Option};
    ghost use Rattle.sip_held_dialogs.specs.declared.held_dialog.DialogId.{DialogId};
    ghost use Rattle.sip_clients.specs.declared.answers.SentAck.{SentAck};

    ghost Value = { List (DialogId × Option SentAck) };

    ghost view = { λ a. a.acks.entries };
}

impl Answers {
    /// No 2xx came. A peer chooses the tags of those that come, so their hashes have a secret seed.
    /// Takes no memory.
    pub(crate) fn new(alloc: Global, hash_seed: HashSeed) -> Answers
        ensures { result ≡ [] }
    {
        Answers {
            acks: IndexMap::with_hasher(alloc, hash_seed),
        }
    }

    /// The seed of the hashes.
    pub(crate) fn hash_seed(&self) -> HashSeed {
        *self.acks.hasher()
    }

    /// Whether a 2xx of this dialog came.
    pub(crate) fn contains(&self, name: &DialogId) -> bool
        ensures { result ≡ spec.has_answer name.now self.now }
    {
        self.acks.get(name).is_some()
    }

    /// The ACK that was sent for the 2xx of this dialog, if one was sent.
    pub(crate) fn ack(&self, name: &DialogId) -> Option<&SentAck>
        ensures { option_copied result ≡ spec.ack_of name.now self.now }
    {
        match self.acks.get(name) {
            Some(Some(ack)) => Some(ack),
            Some(None) | None => None,
        }
    }

    /// Notes a 2xx of this dialog, with its ACK if one was sent.
    pub(crate) fn note(&mut self, name: DialogId, ack: Option<SentAck>) -> Result<(), AllocError>
        ensures { OnOk result (self.new ≡ insert_entry is_dialog_id self.old name ack) }
    {
        self.acks.insert(name, ack)?;
        Ok(())
    }
}

impl SameValue for Answers {
    fn is_same(&self, other: &Answers) -> bool {
        are_same_maps(&self.acks, &other.acks)
    }
}

impl Drop for Answers {
    fn drop(self) {
        let Answers { acks: _ } = self;
    }
}
