//! The values of headers, read from their texts (RFC 3261, section 20).
#![tactic(auto)]

mod address;
mod laws;
mod numeral;
mod parameter;
mod party;
mod row;
mod sequence;
mod token_list;
mod via;
mod word;

pub use address::{AddressListRow, AddressRow};
pub use laws::{
    one_cseq, one_list_of_addresses, one_list_of_tokens, one_list_of_vias, one_number, one_party,
    one_rack,
};
pub use numeral::{NumberRow, Numeral};
pub use party::PartyRow;
pub use row::{Row, split_of};
pub use sequence::{CSeqDraft, CSeqRow, RAckDraft, RAckRow};
pub use token_list::TokenListRow;
pub use via::{ViaDraft, ViaListRow, ViaRow};
pub use word::CallIdRow;
