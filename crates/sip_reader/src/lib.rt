//! Messages, read from their texts.
#![tactic(auto)]

mod first_line;
mod head;
mod laws;
mod leading_line_ends;
mod reader;
mod rules;
mod start_reader;
mod untyped_line;

pub use first_line::FirstLine;
pub use head::{header_lines, header_values, start_line};
pub use laws::{
    folds_are_laid, head_of_a_message, headers_of_a_content, lines_are_laid, no_fault_of_a_message,
    one_head, one_message, what_is_read, written_is_spelled,
};
pub use reader::{MAX_BYTES, read};
pub use rules::keeps_rules;
pub use untyped_line::HeaderLine;
