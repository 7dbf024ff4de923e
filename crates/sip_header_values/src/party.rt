//! From and To (RFC 3261, sections 20.20 and 20.39).
ghost use Rattle.std.specs.Prelude.{◌≡◌};

use crate::address::address_in;
use crate::row::Row;
use sip_grammar::{PartyDisplayRule, PartyParameters};
use sip_message::Party;
use std::alloc::{AllocError, Global};

/// The address of a From or a To, whose `tag` is a token.
pub struct PartyRow;

impl Row for PartyRow {
    ghost use Rattle.sip_header_values.specs.Address.{party_from};

    type Value = Party;

    ghost reads = { party_from };

    #[tactic(auto, unfolding(sip_grammar::specs::PartyDisplay::is_party_display))]
    fn read(alloc: Global, text: &[u8]) -> Result<Option<Party>, AllocError> {
        let Some((display, (uri, parameters))) = address_in::<PartyDisplayRule>(alloc, text)? else {
            return Ok(None);
        };
        let Some(parameters) = PartyParameters::new(parameters) else {
            return Ok(None);
        };
        Ok(Some(Party {
            display,
            uri,
            parameters,
        }))
    }
}
