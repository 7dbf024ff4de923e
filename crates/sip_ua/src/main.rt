//! `ua`: a SIP user agent over UDP, which also runs on event files.
#![tactic(auto)]

mod address;
mod compacting;
mod cut_name;
mod failure;
mod host;
mod journalled_call;
mod noting;
mod options;
mod plan;
mod program;
mod receive_buffer;
mod repair;
mod run_file;
mod shortening;
mod status;
mod talking;
mod words;

use program::ua;
use status::no_words;
use std::process::ExitCode;
use words::given_words;

fn main(rt: HostRuntime) -> ExitCode {
    let status = match given_words(&rt) {
        Ok(words) => ua(
            &rt,
            rt.alloc(),
            words.as_slice(),
            &mut rt.stdin(),
            &mut rt.stdout(),
            &mut rt.stderr(),
        ),
        Err(error) => no_words(&error, &mut rt.stderr()),
    };
    ExitCode::from(status)
}
