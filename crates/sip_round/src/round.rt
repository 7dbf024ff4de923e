//! A round: a moment and its events.

ghost use Rattle.std.specs.Prelude.{◌≡◌};
ghost use Rattle.std.specs.Option.{option_copied};
ghost use Rattle.sip_round.specs.Places as spec;

use sip_message::{Addr, SharedKey};
use sip_text::{Series, Text};
use sip_user::UserCommand;

/// One event of a round.
#[derive(Drop)]
pub enum Event {
    /// A datagram came in.
    Datagram { from: Addr, bytes: Text },
    /// A message of the transaction with this key couldn't be sent.
    Failed(SharedKey),
    /// The user asks a call for something.
    Command(UserCommand),
}

/// A moment, and the events at that moment.
#[derive(Drop)]
pub struct Round {
    /// In ms. It never decreases from round to round.
    pub moment: u64,
    /// Numbered by place, from 1.
    pub events: Series<Event>,
}

/// The event at this place, if these are the events of a round. An output names its event by such a
/// place. There is none at place 0. Takes no memory.
pub fn event_at(events: &[Event], place: u32) -> Option<&Event>
    ensures { option_copied result ≡ spec.event_at events.now place }
{
    let before = (place as usize).checked_sub(1)?;
    events.get(before)
}

/// The bytes of the datagram that came in at this place, if these are the events of a round. None
/// if the event there isn't a datagram, or if there is none. Takes no memory.
pub fn datagram_at(events: &[Event], place: u32) -> Option<&Text>
    ensures { option_copied result ≡ spec.datagram_at events.now place }
{
    match event_at(events, place) {
        Some(Event::Datagram { bytes, .. }) => Some(bytes),
        Some(Event::Failed(_)) | Some(Event::Command(_)) | None => None,
    }
}
