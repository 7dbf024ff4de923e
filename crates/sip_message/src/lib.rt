//! SIP messages: their types, their text, responses, the stamp of their source, and the keys of
//! their transactions.
#![tactic(auto)]

mod addr;
mod content;
mod cseq;
mod cut;
mod fault;
mod header;
mod hop_by_hop;
mod id;
mod key;
mod keys;
mod laws;
mod message;
mod name_addr;
mod party;
mod rack;
mod response;
mod same;
mod sent_by;
mod shared_key;
mod source;
mod start_line;
mod via;
mod vias;
mod writer;

pub use addr::{Addr, ip_in, ip_text};
pub use content::{Content, ContentHeaders};
pub use cseq::CSeq;
pub use cut::{Cut, First, Spread};
pub use fault::ReadFault;
pub use header::Header;
pub use hop_by_hop::{ack_for, cancel_for};
pub use id::Id;
pub use key::Key;
pub use keys::{is_sent_by, key_of};
pub use laws::a_body_alone_brings_its_type;
pub use message::{MAX_FORWARDS, Message};
pub use name_addr::NameAddr;
pub use party::Party;
pub use rack::RAck;
pub use response::response_to;
pub use sent_by::SentBy;
pub use shared_key::SharedKey;
pub use sip_grammar::{
    CallId, DisplayText, HeaderName, HeaderValue, Host, OtherName, Parameter, ParameterValue,
    Parameters, PartyDisplay, PartyParameters, Reason, RequestUri, StatusCode, Token, Uri,
};
pub use source::stamp_source;
pub use start_line::StartLine;
pub use via::Via;
pub use vias::Vias;
pub use writer::write;
