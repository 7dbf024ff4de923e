//! The header lines of the pipe that wait for the line of their command.

ghost use Rattle.std.specs.Prelude.{◌≡◌, ◌++◌, Some, [], IfOk, OnOk};
ghost use Rattle.sip_udp.specs.Piping as piping;
ghost use Rattle.sip_udp.specs.declared.pipe_input.Said.TheVariants as said;

use crate::pipe_input::{PipeLine, Said};
use crate::wrong_word::Wrong;
use sip_files::{GivenHeader, with_given};
use sip_round::Event;
use sip_text::Series;
use sip_user::UserCommand;
use std::alloc::{AllocError, Global};
use std::io::Write;
use std::mem;

/// A line, and what is wrong with it.
#[derive(Clone, Copy)]
struct Line {
    number: u64,
    wrong: Option<Wrong>,
}

/// Lines of the pipe that have no part in a command yet.
#[derive(Drop)]
pub(crate) struct WaitingHeaders {
    lines: Vec<Line>,
    /// What they say, if each of them is a header line.
    pub headers: Option<Series<GivenHeader>>,
}

impl WaitingHeaders {
    /// No lines.
    pub(crate) fn new(alloc: Global) -> WaitingHeaders
        ensures { result.headers ≡ Some [] }
    {
        WaitingHeaders {
            lines: Vec::new(alloc),
            headers: Some(Series::new(alloc)),
        }
    }

    /// Takes the next line. A command is asked for with the header lines before it. Lines that have
    /// no part in one are reported on `errors`.
    ///
    /// # Errors
    ///
    /// Memory ran out.
    pub(crate) fn take<E: Write>(
        &mut self,
        alloc: Global,
        line: PipeLine,
        events: &mut Vec<Event>,
        errors: &mut E,
    ) -> Result<(), AllocError>
        ensures asked { OnOk result (events.new.items
            ≡ events.old.items ++ piping.asked_by self.old.headers line.said) }
        ensures wait { OnOk result (self.new.headers
            ≡ piping.headers_after self.old.headers line.said) }
    {
        let PipeLine {
            number,
            said,
            wrong,
        } = line;
        if let Said::Comment = said {
            return Ok(());
        }
        self.lines.push(Line { number, wrong })?;
        match said {
            Said::Comment => Ok(()),
            Said::Command(command) => self.ask(alloc, command, events, errors),
            Said::NoCommand | Said::TooLong => {
                self.refuse(alloc, errors);
                Ok(())
            }
            Said::Header(header) => self.add(header),
            Said::NoHeader => {
                self.headers = None;
                Ok(())
            }
        }
    }

    /// Reports these lines with their numbers and what is wrong with each. Then it has none.
    pub(crate) fn refuse<E: Write>(&mut self, alloc: Global, errors: &mut E)
        ensures { self.new.headers ≡ Some [] }
    {
        let lines = mem::replace(self, WaitingHeaders::new(alloc));
        tell(&lines.lines, errors);
    }

    // Adds one more header line.
    fn add(&mut self, header: GivenHeader) -> Result<(), AllocError>
        ensures { OnOk result (self.new.headers
            ≡ piping.headers_after self.old.headers (said.Header header)) }
    {
        match &mut self.headers {
            Some(headers) => headers.push(header),
            None => Ok(()),
        }
    }

    // Asks for a command. Its line is the last of these lines.
    fn ask<E: Write>(
        &mut self,
        alloc: Global,
        command: UserCommand,
        events: &mut Vec<Event>,
        errors: &mut E,
    ) -> Result<(), AllocError>
        ensures asked { OnOk result (events.new.items
            ≡ events.old.items ++ piping.asked_by self.old.headers (said.Command command)) }
        ensures wait { OnOk result (self.new.headers ≡ Some []) }
    {
        let WaitingHeaders { lines, headers } = mem::replace(self, WaitingHeaders::new(alloc));
        match command_with(alloc, headers, command)? {
            Some(command) => events.push(Event::Command(command))?,
            None => tell(&lines, errors),
        }
        Ok(())
    }
}

// The command with the lines before it, if they are header lines and the command takes them.
fn command_with(
    alloc: Global,
    headers: Option<Series<GivenHeader>>,
    command: UserCommand,
) -> Result<Option<UserCommand>, AllocError>
    ensures { IfOk result (λ made. made ≡ piping.command_with headers command) }
{
    match headers {
        Some(headers) => with_given(alloc, headers, command),
        None => Ok(None),
    }
}

fn tell<E: Write>(lines: &[Line], errors: &mut E) {
    for line in lines {
        let Line { number, wrong } = *line;
        let _ = writeln!(errors, "ua: line {number} is not a command");
        let Some(Wrong { word, what }) = wrong else {
            continue;
        };
        let _ = match word {
            Some(word) => writeln!(errors, "ua: line {number}, word {word}: expected {what}"),
            None => writeln!(errors, "ua: line {number}: {what}"),
        };
    }
}
