//! The events of a round that a shorter journal keeps.

ghost use Rattle.std.specs.Prelude.{◌≡◌, IfOk};
ghost use Rattle.sip_stream.specs.Shorter as spec;
ghost use Rattle.sip_stream.specs.Shorter.{StaysOrIsNothing, Thins};

use crate::call_records::CallRecords;
use sip_message::Addr;
use sip_round::{Event, Round};
use sip_text::{Series, Text};
use std::alloc::{AllocError, Global};

/// The source of a datagram that does nothing.
const NOWHERE: Addr = Addr {
    ip: [0, 0, 0, 0],
    port: 0,
};

/// The round with this number, with the events of the calls that are recorded, each at its place.
/// Any other event before one of these is a datagram without bytes, which is dropped and does
/// nothing else.
///
/// # Errors
///
/// Memory ran out.
pub(crate) fn kept_events(
    alloc: Global,
    records: &CallRecords,
    number: u64,
    round: Round,
) -> Result<Round, AllocError>
    ensures { IfOk result (Thins round) }
{
    let Round { moment, events } = round;
    let mut kept = Vec::new(alloc);
    let mut len = 0;
    for event in events.into_vec() {
        let (event, stays) = kept_or_nothing(alloc, records, number, event)?;
        kept.push(event)?;
        len = if stays { kept.len() } else { len };
    }
    kept.truncate(len);
    let events = Series::from_vec(kept);
    Ok(Round { moment, events })
}

// The event, or one that does nothing; and whether the event stays.
fn kept_or_nothing(
    alloc: Global,
    records: &CallRecords,
    number: u64,
    event: Event,
) -> Result<(Event, bool), AllocError>
    ensures { IfOk result (λ kept. StaysOrIsNothing event kept.0) }
{
    if records.keep(number, &event)? {
        Ok((event, true))
    } else {
        Ok((nothing(alloc), false))
    }
}

// An event that does nothing.
fn nothing(alloc: Global) -> Event
    ensures { result ≡ spec.nothing }
{
    let bytes = Text::from_vec(Vec::new(alloc));
    Event::Datagram {
        from: NOWHERE,
        bytes,
    }
}
