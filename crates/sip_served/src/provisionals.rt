//! The reliable provisional responses to an INVITE that wait for their PRACK.

ghost use Rattle.std.specs.Prelude.{◌≡◌, ◌++◌, ◌∷◌, [], OnOk};
ghost use Rattle.sip_served.specs.Provisionals.{without_rseq};

use sip_message::Message;
use sip_text::Boxed;
use std::alloc::{AllocError, Global};
use std::marker::Model;

/// A reliable provisional response that was sent.
#[derive(Drop)]
pub struct ReliableResponse {
    /// Its RSeq.
    pub number: u32,
    pub response: Boxed<Message>,
}

/// The reliable provisional responses to an INVITE that wait for their PRACK, in the order of their
/// numbers.
///
/// Contracts see them as a list.
#[derive(Drop)]
pub struct Provisionals {
    responses: Vec<ReliableResponse>,
}

impl Model for Provisionals {
    ghost use Rattle.std.specs.Prelude.{List};
    ghost use Rattle.sip_served.specs.declared.provisionals.ReliableResponse.{ReliableResponse};

    ghost Value = { List ReliableResponse };

    ghost view = { λ p. p.responses.items };
}

impl Provisionals {
    /// No response waits. Takes no memory.
    pub(crate) fn new(alloc: Global) -> Provisionals
        ensures { result ≡ [] }
    {
        Provisionals {
            responses: Vec::new(alloc),
        }
    }

    pub(crate) fn as_slice(&self) -> &[ReliableResponse]
        ensures { result.now ≡ self.now }
    {
        self.responses.as_slice()
    }

    /// Adds a response that was sent.
    pub(crate) fn push(&mut self, response: ReliableResponse) -> Result<(), AllocError>
        ensures { OnOk result (self.new ≡ self.old ++ response ∷ []) }
    {
        self.responses.push(response)?;
        Ok(())
    }

    /// Removes the response with this number, whose PRACK came.
    pub(crate) fn remove(&mut self, number: u32)
        ensures { self.new ≡ without_rseq number self.old }
    {
        self.responses.retain(|one| one.number != number);
    }
}
