//! Drafts in which no header is missing, repeated or in another form, and the messages that they
//! become.
ghost use Rattle.std.specs.Prelude.{◌≡◌, Some, []};
ghost use Rattle.sip_headers.specs.Complete as complete;
ghost use Rattle.sip_headers.specs.Numbers as numbered;

use crate::header_fields::HeaderFields;
use crate::numbers::Numbers;
use crate::slot::Slot;
use sip_grammar::Token;
use sip_header_values::ViaDraft;
use sip_message::{Message, ReadFault, StartLine, Vias};
use sip_text::{Series, Text};
use std::alloc::Global;
use std::marker::Model;
use std::mem;

/// A draft without a fault, on the heap. A contract sees it as the draft.
#[derive(Drop)]
pub struct Faultless {
    draft: Box<HeaderFields>,
}

impl Model for Faultless {
    ghost use Rattle.sip_headers.specs.Complete.{IsComplete};
    ghost use Rattle.sip_headers.specs.declared.header_fields.HeaderFields.{HeaderFields};

    ghost Value = { HeaderFields };

    ghost view = { λ a. a.draft.value };

    ghost invariant = { λ a. IsComplete a.draft.value };
}

impl Faultless {
    /// The draft, if it has no fault.
    ///
    /// # Errors
    ///
    /// BadHeader if a line is no header line, or a value isn't in its header's form; Missing for
    /// the first mandatory header that isn't there; Repeated for the first that is there twice.
    pub fn new(draft: Box<HeaderFields>) -> Result<Faultless, ReadFault>
        ensures { result ≡ complete.faultless draft.value }
    {
        match draft.fault() {
            Some(fault) => Err(fault),
            None => Ok(Faultless { draft }),
        }
    }

    /// The numbers, or None if a word in a number's place isn't one.
    pub fn numbers(&self) -> Option<Numbers>
        ensures { result ≡ numbered.numbers_in self.now }
    {
        self.draft.numbers()
    }

    /// The method of the CSeq.
    pub fn method(&self) -> &Token
        ensures { complete.method_in self.now ≡ Some result.now }
    {
        match &self.draft.cseq {
            Slot::Once(cseq) => &cseq.method,
            _ => unreachable!(),
        }
    }

    /// Takes the Via values out.
    pub fn take_vias(&mut self, alloc: Global) -> Series<ViaDraft>
        ensures taken { self.old.vias ≡ Some result }
        ensures rest { self.new ≡ record self.old { vias = Some [] } }
    {
        mem::replace(&mut self.draft.vias, Some(Series::new(alloc))).unwrap()
    }

    /// The message with these headers, Via values and numbers.
    pub fn into_message(self, start: StartLine, vias: Vias, numbers: Numbers, body: Text) -> Message
        ensures { numbered.message_with start vias numbers self body ≡ Some result }
    {
        Box::into_inner(self.draft).into_message(start, vias, numbers, body)
    }
}
