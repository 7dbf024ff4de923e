//! Responses that a repeat of a request has sent again, though it came from elsewhere.

ghost use Rattle.std.specs.Prelude.{◌≡◌, ◌-◌, filter, length, not};
ghost use Rattle.sip_udp.specs.Reflected as spec;

use sip_round::{Event, Output, PlacedOutput, event_at};

/// How a response begins (RFC 3261, section 7.2).
const RESPONSE: &[u8] = b"SIP/2.0 ";

/// Takes out of a round's outputs the responses that go to another IP address than the datagram
/// that caused them came from, and gives how many these are. The agent sends a response again to
/// whoever sent its request first: if that source was forged, each small repeat would send a large
/// response to a victim.
pub(crate) fn take_reflected(events: &[Event], outputs: &mut Vec<PlacedOutput>) -> usize
    ensures left { outputs.new.items
        ≡ filter (λ placed. not (spec.is_reflected events.now placed)) outputs.old.items }
    ensures count { result ≡ length outputs.old.items - length outputs.new.items }
{
    let before = outputs.len();
    outputs.retain(|placed| !is_reflected(events, placed));
    before.saturating_sub(outputs.len())
}

fn is_reflected(events: &[Event], placed: &PlacedOutput) -> bool
    ensures { result ≡ spec.is_reflected events.now placed.now }
{
    match (event_at(events, placed.place), &placed.output) {
        (Some(Event::Datagram { from, .. }), Output::Send { to, bytes, .. }) => {
            bytes.as_slice().starts_with(RESPONSE) && to.ip != from.ip
        }
        _ => false,
    }
}
