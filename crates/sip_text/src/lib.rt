//! Bytes, lists, tokens and numbers of SIP's text.
#![tactic(auto)]

mod boxed;
mod character;
mod fault;
mod find;
mod folding;
mod laws;
mod line;
mod number;
mod open_quote;
mod order;
mod parameters;
mod pieces;
mod quoted;
mod run;
mod same;
mod separator;
mod series;
mod text;
mod token;
mod trim;
mod values;

pub use boxed::Boxed;
pub use character::{TokenBytes, is_blank, is_line_byte};
pub use fault::TextFault;
pub use find::{find_byte, find_either};
pub use folding::{begins_blank, lines, unfold};
pub use laws::{one_cut, one_list_of_parameters, one_split, quoted_strings};
pub use line::next_line;
pub use number::{decimal, hex_digit, number_u32, number_up_to};
pub use open_quote::has_open_quote;
pub use order::byte_order;
pub use parameters::{
    ParameterText, ValueBytes, is_blanks, is_parameter_value, is_value_word, parameter_in, params,
};
pub use pieces::{cut, cut_blank};
pub use quoted::is_quoted;
pub use run::{ByteClass, each_is, is_run, run_before, run_len};
pub use separator::{Place, Separator};
pub use series::Series;
pub use text::Text;
pub use token::{is_token, token_eq};
pub use trim::{trimmed, trimmed_end, trimmed_start};
pub use values::split_values;
