//! The parts of SIP messages: texts that satisfy a rule of the grammar by their type.
#![tactic(auto)]

mod call_id;
mod checked;
mod display_text;
mod header_entry;
mod header_name;
mod header_value;
mod host;
mod lower_text;
mod other_name;
mod parameter;
mod parameter_text;
mod parameter_value;
mod parameters;
mod party_display;
mod party_parameters;
mod reason;
mod request_uri;
mod same;
mod status_code;
mod token;
mod uri;
mod usual_token;
mod word;

pub use call_id::{CallId, CallIdRule};
pub use checked::{Checked, Rule};
pub use display_text::{DisplayText, DisplayTextRule, is_display_text};
pub use header_entry::{HeaderEntry, HeaderKind};
pub use header_name::HeaderName;
pub use header_value::{HeaderValue, HeaderValueRule, has_no_line_byte};
pub use host::{Host, HostBytes, HostRule, is_host};
pub use lower_text::{LowerText, LowerTextRule};
pub use other_name::{OtherName, OtherNameRule};
pub use parameter::Parameter;
pub use parameter_text::{FirstParameter, behind_semicolon, first_parameter};
pub use parameter_value::{ParameterValue, ParameterValueRule};
pub use parameters::Parameters;
pub use party_display::{PartyDisplay, PartyDisplayRule, is_party_display};
pub use party_parameters::PartyParameters;
pub use reason::{Reason, ReasonRule};
pub use request_uri::{RequestUri, RequestUriRule};
pub use status_code::StatusCode;
pub use token::Token;
pub use uri::{Uri, UriBytes, UriRule, is_uri};
pub use word::is_word;
