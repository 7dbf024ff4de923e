//! The server side of one Call-ID, which is broken after memory ran out.

ghost use Rattle.std.specs.Prelude.{◌≡◌, ◌≤◌, ◌^◌, true, false, Ok, Err, IfErr, IfOk, IsTrue, if◌then◌else◌};

use crate::server_side::ServerSide;
use keyed_machine::ShardFault;
use seeded_hash::HashSeed;
use sip_held_dialogs::Dialogs;
use sip_message::{Addr, Id, Token};
use sip_user::{CallOut, Item};
use std::alloc::{AllocError, Global};
use std::marker::Model;

/// The server requests and the dialogs of one Call-ID (RFC 3261, sections 8.2, 9.2, 12 and 13.3;
/// RFC 3262, section 3).
///
/// A contract sees what is held, and whether an earlier call returned `NoMemory`. After that it
/// holds nothing, and every call that can fail returns `Broken`.
pub struct Served {
    broken: bool,
    side: ServerSide,
}

impl Model for Served {
    ghost use Rattle.sip_served.specs.Served.{ServedState};

    ghost Value = { ServedState };

    ghost view = { λ s. record { broken = s.broken; state = s.side } };
}

impl Served {
    ghost use Rattle.std.specs.Borrow.{sem};
    ghost use Rattle.sip_served.specs.Lending.{ServedLends};
    ghost use Rattle.sip_served.specs.Served.{after, lost};
    ghost use Rattle.sip_served.specs.State.{empty_at, holds};
    ghost use Rattle.sip_served.specs.Rules.Arrivals.{server_item};
    ghost use Rattle.sip_served.specs.Rules.Ticks.{server_due, server_tick};

    /// The server side of a Call-ID under which nothing is held, at the address `local`. Everyone
    /// knows the seed of its hashes: [`Served::with_hash_seed`] is for tags that a peer chooses.
    /// Takes no memory.
    pub fn new(alloc: Global, local: Addr) -> Served
        ensures { result ≡ record { broken = false; state = empty_at local } }
    {
        Served::with_hash_seed(alloc, local, HashSeed::known())
    }

    /// The same, with the seed of its hashes. Takes no memory.
    pub fn with_hash_seed(alloc: Global, local: Addr, hash_seed: HashSeed) -> Served
        ensures { result ≡ record { broken = false; state = empty_at local } }
    {
        Served {
            broken: false,
            side: ServerSide::new(alloc, local, hash_seed),
        }
    }

    /// Whether any request or dialog is held. Takes no memory.
    pub fn holds(&self) -> bool
        ensures { result ≡ holds self.now.state }
    {
        self.side.holds()
    }

    /// The first moment, in ms, at which a tick does something, if there is one. Takes no memory.
    pub fn next_due(&self) -> Option<u64>
        ensures { result ≡ server_due self.now.state }
    {
        self.side.next_due()
    }

    /// The held dialogs, for writing. Takes no memory.
    pub fn dialogs(&mut self) -> &mut Dialogs
        ensures* writes_back { sem 𝓛 (ServedLends self.entry result) }
        ensures value { result.now.entries ≡ self.old.state.dialogs }
    {
        self.side.dialogs()
    }

    /// Takes what a transaction hands up, or a command of the user, at the moment `now` in ms. The
    /// id is that of its event. `tag` is the To tag for the answers to a request without one.
    ///
    /// # Errors
    ///
    /// `Broken` after an earlier call answered `NoMemory`.
    pub fn item(
        &mut self,
        tag: Token,
        id: Id,
        item: Item,
        now: u64,
    ) -> Result<Vec<CallOut>, ShardFault>
        requires { now ≤ 2 ^ 62 }
        ensures broken { IsTrue self.old.broken → result ≡ Err ShardFault.Broken }
        ensures only_broken { result ≡ Err ShardFault.Broken → IsTrue self.old.broken }
        ensures broken_stays { result ≡ Err ShardFault.Broken → self.new ≡ self.old }
        ensures no_memory { result ≡ Err ShardFault.NoMemory → self.new ≡ lost self.old }
        ensures ok { IfOk result (λ outs. (self.new, outs.items)
            ≡ after self.old (server_item self.old.state tag id item now)) }
    {
        let local = self.local()?;
        let taken = self.side.item(tag, id, item, now);
        self.keep(local, taken)
    }

    /// Does what is due at the moment `now`, in ms.
    ///
    /// # Errors
    ///
    /// `Broken` after an earlier call answered `NoMemory`.
    pub fn tick(&mut self, now: u64) -> Result<Vec<CallOut>, ShardFault>
        requires { now ≤ 2 ^ 62 }
        ensures broken { IsTrue self.old.broken → result ≡ Err ShardFault.Broken }
        ensures only_broken { result ≡ Err ShardFault.Broken → IsTrue self.old.broken }
        ensures broken_stays { result ≡ Err ShardFault.Broken → self.new ≡ self.old }
        ensures no_memory { result ≡ Err ShardFault.NoMemory → self.new ≡ lost self.old }
        ensures ok { IfOk result (λ outs. (self.new, outs.items)
            ≡ after self.old (server_tick self.old.state now)) }
    {
        let local = self.local()?;
        let taken = self.side.tick(now);
        self.keep(local, taken)
    }

    // The address, which is kept even when all else is lost. A broken side is refused.
    fn local(&self) -> Result<Addr, ShardFault>
        ensures { result ≡ (if self.now.broken then Err ShardFault.Broken
            else Ok self.now.state.local) }
    {
        if self.broken {
            Err(ShardFault::Broken)
        } else {
            Ok(self.side.local())
        }
    }

    // After memory ran out nothing is held.
    fn keep(
        &mut self,
        local: Addr,
        taken: Result<Vec<CallOut>, AllocError>,
    ) -> Result<Vec<CallOut>, ShardFault>
        ensures ok { IfOk result (λ outs. (taken ≡ Ok outs) × (self.new ≡ self.old)) }
        ensures err { IfErr result (λ fault. (fault ≡ ShardFault.NoMemory)
            × (self.new ≡ record { broken = true; state = empty_at local })) }
    {
        match taken {
            Ok(outs) => Ok(outs),
            Err(_) => {
                self.broken = true;
                self.side.clear(local);
                Err(ShardFault::NoMemory)
            }
        }
    }
}

impl Drop for Served {
    fn drop(self) {
        let Served { broken: _, side: _ } = self;
    }
}
