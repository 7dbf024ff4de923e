//! The numbers of a message, which were words in its header lines.
ghost use Rattle.std.specs.Prelude.{◌≡◌, IfOk};
ghost use Rattle.sip_text.specs.Forms.{each};
ghost use Rattle.sip_headers.specs.Numbers as numbered;

use crate::header_fields::HeaderFields;
use crate::slot::Slot;
use sip_header_values::{Numeral, RAckDraft, ViaDraft};
use sip_message::{RAck, Via};
use sip_text::Series;
use std::alloc::{AllocError, Global};

/// The numbers of a message, without the ports of its Via values.
#[derive(Clone, Copy)]
pub struct Numbers {
    pub max_forwards: Option<u32>,
    pub cseq: u32,
    pub rseq: Option<u32>,
    /// The RSeq and the CSeq of its RAck.
    pub rack: Option<(u32, u32)>,
    pub content_length: Option<u32>,
}

impl HeaderFields {
    /// The numbers, or None if a word in a number's place isn't one, or a header doesn't occur as
    /// often as it has to.
    #[tactic(auto, unfolding(crate::specs::Numbers::numbers_in))]
    pub fn numbers(&self) -> Option<Numbers>
        ensures { result ≡ numbered.numbers_in self.now }
    {
        let Slot::Once(cseq) = &self.cseq else {
            return None;
        };
        let cseq = known(cseq.number)?;
        let max_forwards = known_slot(&self.max_forwards)?;
        let rseq = known_slot(&self.rseq)?;
        let rack = known_rack(&self.rack)?;
        let content_length = known_slot(&self.content_length)?;
        Some(Numbers {
            max_forwards,
            cseq,
            rseq,
            rack,
            content_length,
        })
    }
}

pub(crate) fn rack_with(rack: Slot<RAckDraft>, known: Option<(u32, u32)>) -> Option<RAck>
    ensures { result ≡ numbered.rack_with rack known }
{
    match (rack, known) {
        (Slot::Once(RAckDraft { method, .. }), Some((rseq, cseq))) => {
            Some(RAck { rseq, cseq, method })
        }
        _ => None,
    }
}

fn known(word: Numeral) -> Option<u32>
    ensures { result ≡ numbered.known word }
{
    match word {
        Numeral::Number(number) => Some(number),
        Numeral::NotANumber => None,
    }
}

fn known_slot(slot: &Slot<Numeral>) -> Option<Option<u32>>
    ensures { result ≡ numbered.known_slot slot.now }
{
    match slot {
        Slot::Absent => Some(None),
        Slot::Once(word) => Some(Some(known(*word)?)),
        Slot::Twice | Slot::Bad => None,
    }
}

fn known_port(word: Option<Numeral>) -> Option<Option<u16>>
    ensures { result ≡ numbered.known_port word }
{
    match word {
        None => Some(None),
        Some(word) => Some(Some(port_of(word)?)),
    }
}

fn port_of(word: Numeral) -> Option<u16>
    ensures { result ≡ numbered.port_of word }
{
    let number = known(word)?;
    if number > u32::from(u16::MAX) {
        return None;
    }
    Some(number as u16)
}

fn known_rack(slot: &Slot<RAckDraft>) -> Option<Option<(u32, u32)>>
    ensures { result ≡ numbered.known_rack slot.now }
{
    match slot {
        Slot::Absent => Some(None),
        Slot::Once(rack) => {
            let rseq = known(rack.rseq)?;
            let cseq = known(rack.cseq)?;
            Some(Some((rseq, cseq)))
        }
        Slot::Twice | Slot::Bad => None,
    }
}

/// The Via values with their ports, or None if a word in a port's place isn't one.
pub fn with_ports(
    alloc: Global,
    drafts: Series<ViaDraft>,
) -> Result<Option<Series<Via>>, AllocError>
    ensures { IfOk result (λ vias. vias ≡ each numbered.via_with drafts) }
{
    let drafts = drafts.into_vec();
    let mut vias = Vec::with_capacity(alloc, drafts.len())?;
    for draft in drafts {
        let Some(via) = with_port(draft) else {
            return Ok(None);
        };
        vias.push(via)?;
    }
    Ok(Some(Series::from_vec(vias)))
}

fn with_port(draft: ViaDraft) -> Option<Via>
    ensures { result ≡ numbered.via_with draft }
{
    let ViaDraft {
        transport,
        host,
        port,
        parameters,
    } = draft;
    let port = known_port(port)?;
    Some(Via {
        transport,
        host,
        port,
        parameters,
    })
}
