//! The bytes of datagrams that were dropped: a journal needs none of them.

use sip_round::{Event, Output, PlacedOutput};
use sip_text::Text;
use std::alloc::{AllocError, Global};
use std::mem;

/// The bytes of a datagram that was dropped, and its place in its round.
#[derive(Drop)]
pub(crate) struct DroppedBytes {
    place: u32,
    bytes: Text,
}

/// Takes the bytes of the datagrams that were dropped out of the events of a round. What is dropped
/// changes nothing, so a journal that has such datagrams without bytes leads to the same agent, and
/// garbage costs a peer more than the disk.
///
/// # Errors
///
/// Memory ran out. Then some bytes are lost.
pub(crate) fn take_dropped(
    alloc: Global,
    events: &mut [Event],
    outputs: &[PlacedOutput],
) -> Result<Vec<DroppedBytes>, AllocError> {
    let mut taken = Vec::new(alloc);
    for placed in outputs {
        let Output::Dropped { place, .. } = &placed.output else {
            continue;
        };
        let place = *place;
        let mut bytes = Text::from_vec(Vec::new(alloc));
        exchange(events, place, &mut bytes);
        taken.push(DroppedBytes { place, bytes })?;
    }
    Ok(taken)
}

/// Puts the bytes back.
pub(crate) fn put_back(events: &mut [Event], taken: Vec<DroppedBytes>) {
    for dropped in taken {
        let DroppedBytes { place, mut bytes } = dropped;
        exchange(events, place, &mut bytes);
    }
}

// Exchanges the bytes of the datagram at this place with others.
fn exchange(events: &mut [Event], place: u32, others: &mut Text) {
    let index = (place as usize).wrapping_sub(1);
    if let Some(Event::Datagram { bytes, .. }) = events.get_mut(index) {
        mem::swap(bytes, others);
    }
}
