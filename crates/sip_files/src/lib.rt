//! The event file, the session file and the output file, and replays of events into outputs. A
//! session file that is written as a run goes on is a journal: another process can go on from its
//! rounds.
#![tactic(auto)]

mod command_line;
mod command_writer;
mod counted_read;
mod counted_write;
mod draft;
mod event_line;
mod event_lines;
mod events_fault;
mod events_file;
mod events_writer;
mod failed_line;
mod field_writer;
mod fields;
mod file_replay;
mod first_round;
mod given_header;
mod given_headers;
mod header_writer;
pub mod laws;
mod lines_fault;
mod numbers;
mod outputs_file;
mod progress;
mod round_lines;
mod types;
mod unregister;
mod version;
mod words;

pub use counted_read::CountedRead;
pub use counted_write::CountedWrite;
pub use event_line::{read_command_line, read_event_line, read_header_line};
pub use event_lines::read_event_lines;
pub use events_fault::EventsFault;
pub use events_file::{MAX_EVENTS, read_events, read_file};
pub use events_writer::{write_event, write_file_head, write_file_round, write_head, write_round};
pub use file_replay::{ReplayFault, read_all, replay, write_whole};
pub use first_round::first_round_of;
pub use given_header::{GivenHeader, read_given};
pub use given_headers::with_given;
pub use header_writer::write_header_line;
pub use lines_fault::LinesFault;
pub use outputs_file::{write_output, write_outputs};
pub use round_lines::read_round;
pub use version::FileKind;
