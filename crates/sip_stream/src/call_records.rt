//! What the rounds of a journal leave open of each call.

use crate::call_record::CallRecord;
use crate::event_names::EventNames;
use sip_message::{Id, Key, SharedKey};
use sip_reader::header_values;
use sip_round::{Event, Output, Round};
use sip_text::Text;
use sip_user::Notice;
use std::alloc::{AllocError, Global};
use std::collections::{BTreeMap, BTreeSet};

/// The header of the Call-ID (RFC 3261, section 20.8).
const CALL_ID: &[u8] = b"Call-ID";

/// How many calls are recorded at least before those that ended are looked for.
const FEW: usize = 1024;

/// The records of the calls of which something may be held, by their Call-IDs.
#[derive(Drop)]
pub(crate) struct CallRecords {
    alloc: Global,
    calls: BTreeMap<Text, CallRecord>,
    // The transactions of these calls, each with its first call.
    transactions: BTreeMap<SharedKey, Text>,
    // At how many calls those that ended are looked for again.
    many: usize,
}

impl CallRecords {
    /// None.
    pub(crate) fn new(alloc: Global) -> CallRecords {
        CallRecords {
            alloc,
            calls: BTreeMap::new(alloc),
            transactions: BTreeMap::new(alloc),
            many: FEW,
        }
    }

    /// The round with this number had these outputs.
    ///
    /// # Errors
    ///
    /// Memory ran out.
    pub(crate) fn take_round(
        &mut self,
        number: u64,
        round: &Round,
        outputs: &[Output],
    ) -> Result<(), AllocError> {
        let refused = refused_places(self.alloc, outputs)?;
        let mut id = Id {
            round: number,
            place: 0,
        };
        for event in round.events.as_slice() {
            id.place = id.place.saturating_add(1);
            let is_refused = refused.contains(&id.place);
            self.take_event(id, round.moment, event, is_refused)?;
        }
        self.take_outputs(number, round.moment, outputs)?;
        if self.calls.len() >= self.many {
            self.forget(round.moment)?;
            self.many = self.calls.len().saturating_mul(2).max(FEW);
        }
        Ok(())
    }

    fn take_event(
        &mut self,
        id: Id,
        moment: u64,
        event: &Event,
        is_refused: bool,
    ) -> Result<(), AllocError> {
        let Some(EventNames { call_id, key }) = EventNames::of(self.alloc, event)? else {
            return Ok(());
        };
        let record = self.record_of(call_id.clone()?, id.round, moment)?;
        match event {
            Event::Command(command) if !is_refused => record.take_command(id, command)?,
            _ => {}
        }
        match key {
            Some(key) => self.take_transaction(key, &call_id),
            None => Ok(()),
        }
    }

    fn take_outputs(
        &mut self,
        number: u64,
        moment: u64,
        outputs: &[Output],
    ) -> Result<(), AllocError> {
        for output in outputs {
            match output {
                Output::Notice(notice) => {
                    let call_id = Text::copy_of(self.alloc, call_id_in(notice))?;
                    self.record_of(call_id, number, moment)?
                        .take_notice(notice)?;
                }
                Output::Send {
                    key: Some(key),
                    bytes,
                    ..
                } => self.take_send(key, bytes)?,
                Output::Send { .. } | Output::Dropped { .. } => {}
            }
        }
        Ok(())
    }

    // A transaction sent this. A client transaction is one of the call that its request names; the
    // event that began a server transaction told of what call it is.
    fn take_send(&mut self, key: &SharedKey, bytes: &Text) -> Result<(), AllocError> {
        if let Key::Server { .. } = key.get() {
            return Ok(());
        }
        let values = header_values(self.alloc, bytes.as_slice(), CALL_ID)?;
        match values.first() {
            Some(call_id) => self.take_transaction(key.clone()?, call_id),
            None => Ok(()),
        }
    }

    // The transaction with this key is one of this call, or takes a datagram that names the call.
    // It is linked with the first such call: what is held of one may come of events of the other.
    fn take_transaction(&mut self, key: SharedKey, call_id: &Text) -> Result<(), AllocError> {
        let first = match self.transactions.get(&key) {
            Some(first) if first == call_id => return Ok(()),
            Some(first) => first.clone()?,
            None => {
                self.transactions.insert(key, call_id.clone()?)?;
                return Ok(());
            }
        };
        self.link(&first, call_id)?;
        self.link(call_id, &first)
    }

    fn link(&mut self, call_id: &Text, other: &Text) -> Result<(), AllocError> {
        match self.calls.get_mut(call_id) {
            Some(record) => record.link(other.clone()?),
            None => Ok(()),
        }
    }

    // The record of a call of which something comes at this moment.
    fn record_of(
        &mut self,
        call_id: Text,
        number: u64,
        moment: u64,
    ) -> Result<&mut CallRecord, AllocError> {
        let new = CallRecord::new(self.alloc, number, moment);
        let record = self.calls.entry(call_id)?.or_insert(new);
        record.touch(moment);
        Ok(record)
    }

    /// Forgets the calls of which nothing is held at this moment any more, unless they are linked
    /// with one of which something may be.
    ///
    /// # Errors
    ///
    /// Memory ran out.
    pub(crate) fn forget(&mut self, moment: u64) -> Result<(), AllocError> {
        let needed = self.needed_calls(moment)?;
        self.calls.retain(|call_id, _| needed.contains(call_id));
        self.transactions
            .retain(|_, first| needed.contains(&*first));
        Ok(())
    }

    // The calls of which something may be held at this moment, and those that are linked with one
    // of these, directly or by others.
    fn needed_calls(&self, moment: u64) -> Result<BTreeSet<Text>, AllocError> {
        let mut needed = BTreeSet::new(self.alloc);
        let mut found = self.held_calls(moment)?;
        for _ in 0..u64::MAX {
            let Some(call_id) = found.pop() else {
                break;
            };
            if needed.insert(call_id.clone()?)? {
                self.add_linked(call_id, &mut found)?;
            }
        }
        Ok(needed)
    }

    fn held_calls(&self, moment: u64) -> Result<Vec<&Text>, AllocError> {
        let mut held = Vec::new(self.alloc);
        for (call_id, record) in self.calls.iter() {
            if record.may_be_held(moment) {
                held.push(call_id)?;
            }
        }
        Ok(held)
    }

    fn add_linked<'a>(
        &'a self,
        call_id: &Text,
        found: &mut Vec<&'a Text>,
    ) -> Result<(), AllocError> {
        if let Some(record) = self.calls.get(call_id) {
            for other in record.linked().iter() {
                found.push(other)?;
            }
        }
        Ok(())
    }

    /// The number of the first round with an event of a call that is recorded; none if no call is.
    pub(crate) fn first_round(&self) -> Option<u64> {
        let mut first = None;
        for record in self.calls.values() {
            first = match first {
                Some(number) if number <= record.first_round() => Some(number),
                _ => Some(record.first_round()),
            };
        }
        first
    }

    /// Whether this event of the round with this number is one of a call that is recorded, or a
    /// failed send, which does nothing where no transaction has its key.
    ///
    /// # Errors
    ///
    /// Memory ran out.
    pub(crate) fn keep(&self, number: u64, event: &Event) -> Result<bool, AllocError> {
        if let Event::Failed(_) = event {
            return Ok(true);
        }
        let Some(names) = EventNames::of(self.alloc, event)? else {
            return Ok(false);
        };
        Ok(match self.calls.get(&names.call_id) {
            Some(record) => record.first_round() <= number,
            None => false,
        })
    }
}

// The Call-ID of a notice.
fn call_id_in(notice: &Notice) -> &[u8] {
    let call_id = match notice {
        Notice::Request { call_id, .. }
        | Notice::Response { call_id, .. }
        | Notice::Ack { call_id, .. }
        | Notice::Prack { call_id, .. }
        | Notice::Timeout { call_id, .. }
        | Notice::Failed { call_id, .. }
        | Notice::NoAck { call_id, .. }
        | Notice::NoPrack { call_id, .. }
        | Notice::Cancel { call_id, .. }
        | Notice::Ended { call_id, .. }
        | Notice::Refused { call_id, .. } => call_id,
    };
    call_id.as_slice()
}

// The places of the events that were refused.
fn refused_places(alloc: Global, outputs: &[Output]) -> Result<BTreeSet<u32>, AllocError> {
    let mut places = BTreeSet::new(alloc);
    for output in outputs {
        if let Output::Notice(Notice::Refused { place, .. }) = output {
            places.insert(*place)?;
        }
    }
    Ok(places)
}
