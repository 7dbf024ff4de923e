//! Replays of files of any length: read, run and written round by round. Shorter journals: which
//! events a journal can do without, and whether a shorter journal leaves an agent that answers all
//! that follows as the longer one's agent does.
#![tactic(auto)]

mod call_record;
mod call_records;
mod compacted;
mod compaction;
mod equivalence;
mod event_names;
mod in_memory;
mod journal_rounds;
mod kept_events;
mod one_cut;
mod resumed_agent;
mod round_reader;
mod round_text;
mod stream_fault;
mod streamed_replay;
mod streaming;

pub use compacted::{Compacted, compact};
pub use compaction::write_shorter;
pub use equivalence::leaves_the_same;
pub use one_cut::OneCut;
pub use resumed_agent::resumed_by;
pub use round_reader::RoundReader;
pub use stream_fault::StreamFault;
pub use streamed_replay::replay_streamed;
