//! A host's agent: events go in, rounds run, outputs come out.

ghost use Rattle.std.specs.Prelude.{◌≡◌, ◌⊎◌, Option, ◌<◌, ◌≤◌, ◌+◌, ◌∷◌, [], ℕ, List, IfOk, IfSome, Err, None, Ok, OnErr, OnOk, Some, length, false, nat_lt, true, if◌then◌else◌};
ghost use Rattle.std.specs.List.{AllByRecursion, slice_get};
ghost use Rattle.std.specs.Option.{option_copied, option_map};
ghost use Rattle.sip_clients.specs.Name.{opening_tag};
ghost use Rattle.sip_timers.specs.Queue.{is_due};
ghost use Rattle.sip_round.specs.Answers.{StandsFor};
ghost use Rattle.sip_round.specs.NextDue.{IsDueAfter, IsQuietAfter};
ghost use Rattle.sip_round.specs.Places.{datagram_at, event_at};
ghost use Rattle.sip_round.specs.declared.config.Config.{Config as AConfig};
ghost use Rattle.sip_round.specs.declared.round.Round.{Round as ARound};
ghost use Rattle.sip_message.specs.declared.message.Message.{Message};
ghost use Rattle.sip_reader.specs.Head.{HasHeaderLines};
ghost use Rattle.sip_reader.specs.Spells.{Answers};
ghost use Rattle.sip_reader.specs.declared.first_line.FirstLine.{FirstLine as AFirstLine};
ghost use Rattle.sip_reader.specs.declared.untyped_line.HeaderLine.{HeaderLine as AHeaderLine};
ghost use Rattle.sip_files.specs.Given.{with_given};
ghost use Rattle.sip_round.specs.declared.round.Event.TheVariants.{Command};
ghost use Rattle.sip_host.specs.Asking.{TakesCommand, TakesHeader, command_of, without_headers};
ghost use Rattle.sip_host.specs.Handing.{datagram_in, head_of, length_of_line, line_text, lines_text, put_if, put_in, start_of, start_text, text_of, values_text};
ghost use Rattle.sip_host.specs.Hosting.{Begins, BeginsAt, HasLinesAt, HasValuesAt, HoldsSo, RunsRound, TakesDatagram, TakesFailure, TakesLine, TakesLines, TellsIfItBegins, after_one, after_taking, last_events, last_id_of, output_at, shard_of, with_events};
ghost use Rattle.sip_host.specs.Traits.{TellsTraitsAt};
ghost use Rattle.sip_host.specs.Resuming.{GoesOn, Resumes, is_idle, text_of_round};
ghost use Rattle.sip_files.specs.Rounds.{SpellsRound};
ghost use Rattle.sip_files.specs.Written.{FitsSession};
ghost use Rattle.sip_round.specs.AgentState.{refusal_of};
ghost use Rattle.sip_round.specs.declared.round_fault.RoundFault.TheVariants as round_fault;
ghost use Rattle.sip_host.specs.declared.field.Field.TheVariants as field;
ghost use Rattle.sip_host.specs.declared.host_fault.HostFault.TheVariants as fault;

use crate::asking::command_of;
use crate::field::Field;
use crate::fields::CommandFields;
use crate::given::header_of;
use crate::handing::{failure_of, put, put_line, put_output, put_start};
use crate::header_texts as texts;
use crate::holdings::Holdings;
use crate::host_fault::HostFault;
use crate::line_length::LineLength;
use crate::next_output::NextOutput;
use crate::request_traits::{self, RequestTraits};
use crate::resume_fault::ResumeFault;
use crate::session_events::SessionEvents;
use crate::session_round::SessionRound;
use crate::start_length::StartLength;
use sip_files::{
    GivenHeader, first_round_of, read_event_line, read_event_lines, read_round, with_given,
};
use sip_message::{Addr, Id, ReadFault, Spread, Token};
use sip_reader::{FirstLine, HeaderLine, header_lines, header_values, read, start_line};
use sip_round::{
    Agent, Config, Event, MAX_EVENTS_OF_ROUND, NoMemory, PlacedOutput, Round, RoundFault,
    datagram_at, event_at,
};
use sip_text::{Series, Text};
use std::alloc::{AllocError, Global};
use std::mem;

/// One user agent, the headers of its next command, the events of its next round, and its last
/// round with the outputs.
#[derive(Drop)]
pub struct Host {
    alloc: Global,
    agent: Agent<Spread>,
    // The headers of the next command that is made of fields.
    headers: Series<GivenHeader>,
    events: SessionEvents,
    last_round: Option<SessionRound>,
    outputs: Vec<PlacedOutput>,
    taken: usize,
}

impl Host {
    /// A host before its first round. Its agent has `shards` shards.
    ///
    /// # Errors
    ///
    /// `NoMemory`.
    pub fn new(alloc: Global, config: Config, shards: usize) -> Result<Host, NoMemory>
        requires some { 0 < shards }
        requires most { shards ≤ 256 }
        ensures { IfOk result (Begins config shards) }
    {
        Ok(Host {
            alloc,
            agent: Agent::new(alloc, config, shards, Spread)?,
            headers: Series::new(alloc),
            events: SessionEvents::new(alloc),
            last_round: None,
            outputs: Vec::new(alloc),
            taken: 0,
        })
    }

    /// A datagram came in. It is an event of the next round.
    ///
    /// # Errors
    ///
    /// `TooManyEvents`, otherwise `NoMemory`. Then nothing has changed.
    pub fn datagram(&mut self, from: Addr, bytes: &[u8]) -> Result<(), HostFault>
        ensures { TakesDatagram from bytes.now self.old self.new result }
    {
        self.has_room()?;
        let bytes = Text::copy_of(self.alloc, bytes)?;
        self.events.push(Event::Datagram { from, bytes })?;
        Ok(())
    }

    /// A line of an event file that says an event, such as a command, without its line end. The
    /// event is one of the next round.
    ///
    /// # Errors
    ///
    /// `TooManyEvents`; otherwise `BadLine` if the line says no event, or `NoMemory`. Then nothing
    /// has changed.
    pub fn event_line(&mut self, line: &[u8]) -> Result<(), HostFault>
        ensures { TakesLine line.now self.old self.new result }
    {
        self.has_room()?;
        let Some(event) = read_event_line(self.alloc, line)? else {
            return Err(HostFault::BadLine);
        };
        self.events.push(event)?;
        Ok(())
    }

    /// The lines of an event as they stand in a session file, the last one without its end. The
    /// header lines of a command may stand before its line. The event is one of the next round.
    ///
    /// # Errors
    ///
    /// As for [`Host::event_line`].
    pub fn event_lines(&mut self, lines: &[u8]) -> Result<(), HostFault>
        ensures { TakesLines lines.now self.old self.new result }
    {
        self.has_room()?;
        let Some(event) = read_event_lines(self.alloc, lines)? else {
            return Err(HostFault::BadLine);
        };
        self.events.push(event)?;
        Ok(())
    }

    /// A header of the next command that is made of fields: its name, the long or the compact one
    /// in any case, and its value. It is kept until that command takes it.
    ///
    /// # Errors
    ///
    /// `BadField` of the headers if the user may not give the header or the value doesn't have its
    /// form; or `NoMemory`. Then all headers are discarded, and nothing else has changed.
    pub fn header(&mut self, name: &[u8], value: &[u8]) -> Result<(), HostFault>
        ensures { TakesHeader name.now value.now self.old self.new result }
    {
        let mut headers = self.take_headers();
        let Some(header) = header_of(self.alloc, name, value)? else {
            return Err(HostFault::BadField(Field::Headers));
        };
        headers.push(header)?;
        self.headers = headers;
        Ok(())
    }

    /// Asks for a command. It is an event of the next round, and takes the headers that are kept
    /// for it. Gives the id of the event.
    ///
    /// # Errors
    ///
    /// `TooManyEvents`; `BadField` for the first field that doesn't keep its rule, or of the
    /// headers if the command doesn't take them; or `NoMemory`. Then the headers are discarded, and
    /// nothing else has changed.
    pub fn command(&mut self, fields: &CommandFields<'_>) -> Result<Id, HostFault>
        ensures { TakesCommand (command_of fields.now) self.old self.new result }
    {
        let headers = self.take_headers();
        self.has_room()?;
        let command = command_of(self.alloc, fields)?;
        let Some(command) = with_given(self.alloc, headers, command)? else {
            return Err(HostFault::BadField(Field::Headers));
        };
        self.events.push(Event::Command(command))?;
        let round = self.agent.next_round();
        let place = self.events.len() as u32;
        Ok(Id { round, place })
    }

    /// The output with this index, from 0, of the last round is a send that failed. That is an
    /// event of the next round if the send belongs to a transaction.
    ///
    /// # Errors
    ///
    /// `NoSend` if that output isn't a send; otherwise `TooManyEvents` or `NoMemory`. Then nothing
    /// has changed.
    pub fn failed(&mut self, output: usize) -> Result<(), HostFault>
        ensures { TakesFailure output self.old self.new result }
    {
        let Some(placed) = self.outputs.get(output) else {
            return Err(HostFault::NoSend);
        };
        let Some(event) = failure_of(&placed.output)? else {
            return Ok(());
        };
        self.add(event)?;
        Ok(())
    }

    /// Runs one round with the events, at a moment in ms. The outputs of the round before must have
    /// been taken.
    ///
    /// # Errors
    ///
    /// `OutputsLeft`; otherwise the reason why the agent refuses the round. All faults but
    /// `Round(NoMemory)` with `broken` leave the host and its events as they are.
    pub fn run(&mut self, moment: u64) -> Result<(), HostFault>
        ensures { RunsRound moment self.old self.new result }
    {
        if self.taken < self.outputs.len() {
            return Err(HostFault::OutputsLeft);
        }
        let events = mem::replace(&mut self.events, SessionEvents::new(self.alloc));
        let round = events.at(moment);
        match self.agent.run_round_in_turn_with_places(round.get()) {
            Ok(outputs) => {
                self.last_round = Some(round);
                self.outputs = outputs;
                self.taken = 0;
                Ok(())
            }
            Err(fault) => {
                self.events = round.into_events();
                Err(HostFault::Round(fault))
            }
        }
    }

    /// The lines of the last round, as a session file has them behind its head; none before the
    /// first round. A host that writes them to a journal, before it sends what the round gives, can
    /// go on from there in another process: see [`Host::resume`].
    ///
    /// # Errors
    ///
    /// Memory ran out.
    pub fn round_text(&self) -> Result<Vec<u8>, AllocError>
        ensures written { IfOk result (λ text. text.items ≡ text_of_round self.now.last_round) }
        ensures spelled { IfOk result (λ text. IfSome self.now.last_round
            (SpellsRound text.items)) }
    {
        match &self.last_round {
            Some(round) => round.text(self.alloc),
            None => Ok(Vec::new(self.alloc)),
        }
    }

    /// Runs the first round of a text again, as [`Host::round_text`] gave it, and tells how long
    /// its lines are. It gives no outputs. The text can go on with the lines of more rounds, each
    /// for a further call. A host that is new, and begun as the one of the journal was, goes on as
    /// that one once all its rounds were run again. A process can die while it writes: cut a
    /// journal behind its last line feed first.
    ///
    /// # Errors
    ///
    /// `Busy`; otherwise the first fault of the lines, or the reason why the agent refuses the
    /// round. All faults but `Round(NoMemory)` with `broken` leave the host as it is.
    pub fn resume(&mut self, text: &[u8]) -> Result<usize, ResumeFault>
        ensures { Resumes text.now self.old self.new result }
    {
        if !self.is_idle() {
            return Err(ResumeFault::Busy);
        }
        let lines = first_round_of(text);
        let round = read_round(self.alloc, lines)?;
        self.go_on(round)?;
        Ok(lines.len())
    }

    /// The next output of the last round, if one is left. If its text fits into the buffer, it goes
    /// to the beginning of the buffer, and the output is taken. Otherwise nothing is written, and
    /// the output is left.
    ///
    /// # Errors
    ///
    /// `NoMemory`; then nothing has changed.
    pub fn next_output(&mut self, buffer: &mut [u8]) -> Result<Option<NextOutput>, HostFault>
        ensures end { output_at self.old self.old.taken ≡ None
            → (result ≡ Ok None) × (self.new ≡ self.old) × (buffer.new ≡ buffer.old) }
        ensures given { IfSome (slice_get self.old.outputs.items self.old.taken)
            (λ placed. OnOk result ((result ≡ Ok (Some (head_of self.old.taken placed)))
            × (buffer.new ≡ put_in (text_of placed.output) buffer.old)
            × (self.new ≡ after_taking self.old placed.output (length buffer.old)))) }
        ensures fault { OnErr result ((result ≡ Err fault.NoMemory) × (self.new ≡ self.old)
            × (buffer.new ≡ buffer.old)) }
    {
        let index = self.taken;
        let Some(placed) = self.outputs.get(index) else {
            return Ok(None);
        };
        let head = put_output(self.alloc, index, placed, buffer)?;
        if buffer.len() < head.len {
            return Ok(Some(head));
        }
        self.taken += 1;
        Ok(Some(head))
    }

    /// The next output of the last round, if one is left. [`Host::take`] takes it. Takes no memory.
    pub fn peek(&self) -> Option<&PlacedOutput>
        ensures { option_copied result ≡ slice_get self.now.outputs.items self.now.taken }
    {
        self.outputs.get(self.taken)
    }

    /// How many outputs of the last round were taken, which is the index of the next. Takes no
    /// memory.
    pub fn taken(&self) -> usize
        ensures { result ≡ self.now.taken }
    {
        self.taken
    }

    /// Takes the next output of the last round, if one is left. Takes no memory.
    pub fn take(&mut self)
        ensures { self.new ≡ after_one self.old }
    {
        if self.outputs.len() <= self.taken {
            return;
        }
        self.taken += 1;
    }

    /// What the host holds, and what waits in it. Takes no memory.
    pub fn holdings(&self) -> Holdings
        ensures { HoldsSo self.now result }
    {
        let (transactions, calls) = self.agent.live();
        Holdings {
            transactions,
            calls,
            next_round: self.agent.next_round(),
            events: self.events.len(),
            outputs: self.outputs.len().saturating_sub(self.taken),
        }
    }

    /// The event at this place of the last round; the outputs of that round name such places. There
    /// is none at place 0. A notice with a place is about the datagram that came in there. Takes no
    /// memory.
    pub fn event(&self, place: u32) -> Option<&Event>
        ensures { option_copied result ≡ event_at (last_events self.now) place }
    {
        event_at(self.last_events(), place)
    }

    /// What the start line of the datagram says that came in at this place of the last round, even
    /// if it was dropped. None if no datagram came in there, or if its first line isn't a start
    /// line.
    ///
    /// # Errors
    ///
    /// Memory ran out.
    pub fn start_line(&self, place: u32) -> Result<Option<FirstLine<Token>>, AllocError>
        ensures { IfOk result (BeginsAt self.now place) }
    {
        match datagram_at(self.last_events(), place) {
            Some(bytes) => start_line(self.alloc, bytes.as_slice()),
            None => Ok(None),
        }
    }

    /// What the request that came in at this place of the last round says of itself, and its notice
    /// doesn't: whether it is in a dialog, and its use of reliable provisional responses. None if
    /// no request came in there.
    ///
    /// # Errors
    ///
    /// Memory ran out.
    pub fn request_traits(&self, place: u32) -> Result<Option<RequestTraits>, AllocError>
        ensures { IfOk result (TellsTraitsAt self.now place) }
    {
        match datagram_at(self.last_events(), place) {
            Some(bytes) => request_traits::traits_in(self.alloc, bytes.as_slice()),
            None => Ok(None),
        }
    }

    /// The values of a header in the datagram that came in at this place of the last round, even if
    /// it was dropped: one for each header line with this name, the long or the compact one, in any
    /// case of the letters, in order (RFC 3261, section 7.3.1). None if no datagram came in there.
    ///
    /// # Errors
    ///
    /// Memory ran out.
    pub fn header_values(&self, place: u32, name: &[u8]) -> Result<Series<Text>, AllocError>
        ensures { IfOk result (HasValuesAt self.now place name.now) }
    {
        match datagram_at(self.last_events(), place) {
            Some(bytes) => header_values(self.alloc, bytes.as_slice(), name),
            None => Ok(Series::new(self.alloc)),
        }
    }

    /// All header lines of the datagram that came in at this place of the last round, even if it
    /// was dropped, in order: each name as it is written, and each value without its folds. None if
    /// no datagram came in there.
    ///
    /// # Errors
    ///
    /// Memory ran out.
    pub fn header_lines(&self, place: u32) -> Result<Series<HeaderLine>, AllocError>
        ensures headers { IfOk result (λ headers. IfSome (datagram_at (last_events self.now) place)
            (HasHeaderLines headers)) }
        ensures none { IfOk result (λ headers. datagram_at (last_events self.now) place ≡ None
            → headers ≡ []) }
    {
        match datagram_at(self.last_events(), place) {
            Some(bytes) => header_lines(self.alloc, bytes.as_slice()),
            None => Ok(Series::new(self.alloc)),
        }
    }

    /// The source and the length of the datagram that came in at this place of the last round, if
    /// one did. Its bytes go to the beginning of the buffer, if they fit. Takes no memory.
    pub fn datagram_at(&self, place: u32, buffer: &mut [u8]) -> Option<(Addr, usize)>
        ensures told { result ≡ option_map (λ came. (came.0, length came.1))
            (datagram_in (event_at (last_events self.now) place)) }
        ensures put { buffer.new ≡ put_if (option_map (λ came. came.1)
            (datagram_in (event_at (last_events self.now) place))) buffer.old }
    {
        match self.event(place) {
            Some(Event::Datagram { from, bytes }) => {
                put(bytes.as_slice(), buffer);
                Some((*from, bytes.len()))
            }
            Some(Event::Failed(_)) | Some(Event::Command(_)) | None => None,
        }
    }

    /// What [`Host::start_line`] gives, as lengths. The texts go to the beginning of the buffer, if
    /// all of them fit: the method of a request, and then its Request-URI.
    ///
    /// # Errors
    ///
    /// Memory ran out; then nothing was written.
    pub fn start_text(
        &self,
        place: u32,
        buffer: &mut [u8],
    ) -> Result<Option<StartLength>, AllocError>
        ensures told { IfOk result (λ told. (says : Option (AFirstLine (List ℕ)))
            × BeginsAt self.now place says × (told ≡ option_map start_of says)
            × (buffer.new ≡ put_if (option_map start_text says) buffer.old)) }
        ensures same { OnErr result (buffer.new ≡ buffer.old) }
    {
        match self.start_line(place)? {
            Some(first) => Ok(Some(put_start(&first, buffer))),
            None => Ok(None),
        }
    }

    /// The length of one of the values that [`Host::header_values`] gives, by its number from 0, if
    /// there is such a value. Its text goes to the beginning of the buffer, if it fits.
    ///
    /// # Errors
    ///
    /// Memory ran out; then nothing was written.
    pub fn header_value(
        &self,
        place: u32,
        name: &[u8],
        number: usize,
        buffer: &mut [u8],
    ) -> Result<Option<usize>, AllocError>
        ensures told { IfOk result (λ told. (values : List (List ℕ))
            × HasValuesAt self.now place name.now values
            × (told ≡ option_map length (slice_get values number))
            × (buffer.new ≡ put_if (slice_get values number) buffer.old)) }
        ensures same { OnErr result (buffer.new ≡ buffer.old) }
    {
        let values = self.header_values(place, name)?;
        let Some(value) = values.as_slice().get(number) else {
            return Ok(None);
        };
        put(value.as_slice(), buffer);
        Ok(Some(value.len()))
    }

    /// The lengths of one of the header lines that [`Host::header_lines`] gives, by its number from
    /// 0, if there is such a line. Its name and, directly after it, its value go to the beginning
    /// of the buffer, if they fit.
    ///
    /// # Errors
    ///
    /// Memory ran out; then nothing was written.
    pub fn header_line(
        &self,
        place: u32,
        number: usize,
        buffer: &mut [u8],
    ) -> Result<Option<LineLength>, AllocError>
        ensures told { IfOk result (λ told. (lines : List AHeaderLine)
            × HasLinesAt self.now place lines
            × (told ≡ option_map length_of_line (slice_get lines number))
            × (buffer.new ≡ put_if (option_map line_text (slice_get lines number)) buffer.old)) }
        ensures same { OnErr result (buffer.new ≡ buffer.old) }
    {
        let lines = self.header_lines(place)?;
        match lines.as_slice().get(number) {
            Some(line) => Ok(Some(put_line(line, buffer))),
            None => Ok(None),
        }
    }

    /// All values that [`Host::header_values`] gives, as one text: each with a line feed behind it,
    /// which no value has.
    ///
    /// # Errors
    ///
    /// Memory ran out.
    pub fn values_text(&self, place: u32, name: &[u8]) -> Result<Vec<u8>, AllocError>
        ensures { IfOk result (λ text. (values : List (List ℕ))
            × HasValuesAt self.now place name.now values × (text.items ≡ values_text values)) }
    {
        let values = self.header_values(place, name)?;
        texts::values_text(self.alloc, values.as_slice())
    }

    /// All header lines that [`Host::header_lines`] gives, as one text: the name of each, a colon,
    /// its value and a line feed.
    ///
    /// # Errors
    ///
    /// Memory ran out.
    pub fn lines_text(&self, place: u32) -> Result<Vec<u8>, AllocError>
        ensures { IfOk result (λ text. (lines : List AHeaderLine)
            × HasLinesAt self.now place lines × (text.items ≡ lines_text lines)) }
    {
        let lines = self.header_lines(place)?;
        texts::lines_text(self.alloc, lines.as_slice())
    }

    /// Whether a datagram would begin a transaction if it came in the next round: it is a request
    /// other than ACK, and no transaction with its key is held (RFC 3261, section 17.2.3). A host
    /// that holds too much can leave such a datagram unread. Events that wait for the next round
    /// don't count.
    ///
    /// # Errors
    ///
    /// Memory ran out.
    pub fn would_begin(&self, bytes: &[u8]) -> Result<bool, AllocError>
        ensures { IfOk result (TellsIfItBegins bytes.now self.now) }
    {
        match read(self.alloc, bytes) {
            Ok(message) => self.agent.would_begin(&message),
            Err(fault) => begins_nothing(fault),
        }
    }

    /// The tag that the agent gives itself where the command with this id sends an INVITE, or
    /// another request outside of dialogs (RFC 3261, section 8.1.1.3). Dialogs are held by it,
    /// whatever tag a peer's response has in its place.
    ///
    /// # Errors
    ///
    /// Memory ran out.
    pub fn opening_tag(&self, id: Id) -> Result<Token, AllocError>
        ensures { IfOk result (λ tag. tag ≡ opening_tag self.now.agent.calls.seed id) }
    {
        self.agent.opening_tag(id)
    }

    /// The id of the event that was given last, if the next round has one. Notices about a
    /// command's request carry this id. Takes no memory.
    pub fn last_id(&self) -> Option<Id>
        ensures { length self.now.events ≤ 65536 → result ≡ last_id_of self.now }
    {
        let place = u32::try_from(self.events.len()).ok()?;
        if place == 0 {
            return None;
        }
        let round = self.agent.next_round();
        Some(Id { round, place })
    }

    /// The first moment, in ms, at which a held transaction or call is due, if there is one. Until
    /// then a host without events may sleep. Takes no memory.
    pub fn next_due(&self) -> Option<u64>
        ensures broken { self.now.agent.shards ≡ None → result ≡ None }
        ensures before { (config : AConfig) (rounds : List ARound)
            → StandsFor shard_of self.now.agent config rounds
            → (moment : ℕ) → is_due moment result ≡ false → IsQuietAfter config rounds moment }
        ensures due { IfSome result (λ due. (config : AConfig) (rounds : List ARound)
            → StandsFor shard_of self.now.agent config rounds → IsDueAfter config rounds due) }
    {
        self.agent.next_due()
    }

    // Takes the headers of the next command, which has none after that.
    fn take_headers(&mut self) -> Series<GivenHeader>
        ensures taken { result ≡ self.old.headers }
        ensures left { self.new ≡ without_headers self.old }
    {
        mem::replace(&mut self.headers, Series::new(self.alloc))
    }

    // Whether no event waits for the next round, and all outputs of the last one are taken.
    fn is_idle(&self) -> bool
        ensures { result ≡ is_idle self.now }
    {
        self.events.len() == 0 && self.outputs.len() <= self.taken
    }

    // Runs a round whose outputs nobody takes.
    fn go_on(&mut self, round: Round) -> Result<(), RoundFault>
        requires idle { is_idle self.old ≡ true }
        requires fits { AllByRecursion FitsSession round.events }
        ensures goes_on { OnOk result (GoesOn round self.old self.new) }
        ensures refused { IfSome (refusal_of self.old.agent round) (λ why. result ≡ Err why) }
        ensures memory { refusal_of self.old.agent round ≡ None
            → OnErr result ((result ≡ Err (round_fault.NoMemory false))
            ⊎ (result ≡ Err (round_fault.NoMemory true))) }
        ensures same { OnErr result (¬ (result ≡ Err (round_fault.NoMemory true))
            → self.new ≡ self.old) }
        ensures broken { result ≡ Err (round_fault.NoMemory true) → self.new.agent.shards ≡ None }
    {
        self.agent.run_round_in_turn(&round)?;
        self.last_round = Some(SessionRound::of(round));
        self.outputs = Vec::new(self.alloc);
        self.taken = 0;
        Ok(())
    }

    // The events of the last round.
    fn last_events(&self) -> &[Event]
        ensures { result.now ≡ last_events self.now }
    {
        match &self.last_round {
            Some(round) => round.get().events.as_slice(),
            None => &[],
        }
    }

    // Adds an event to the next round.
    fn add(&mut self, event: Event) -> Result<(), HostFault>
        requires { FitsSession event }
        ensures added { OnOk result (self.new ≡ with_events self.old (event ∷ [])) }
        ensures same { OnErr result (self.new ≡ self.old) }
        ensures fault { OnErr result ((result ≡ Err fault.NoMemory)
            ⊎ ((result ≡ Err fault.TooManyEvents) × (65536 ≤ length self.old.events))) }
    {
        self.has_room()?;
        self.events.push(event)?;
        Ok(())
    }

    // Whether the next round has room for one more event.
    fn has_room(&self) -> Result<(), HostFault>
        ensures { result ≡ (if nat_lt (length self.now.events) 65536 then Ok tt
            else Err fault.TooManyEvents) }
    {
        if self.events.len() < MAX_EVENTS_OF_ROUND {
            Ok(())
        } else {
            Err(HostFault::TooManyEvents)
        }
    }
}

// A datagram that couldn't be read begins nothing, unless that was for want of memory.
fn begins_nothing(fault: ReadFault) -> Result<bool, AllocError>
    ensures { IfOk result (λ begins. (begins ≡ false)
        × ((message : Message) → ¬ Answers (Err fault) message)) }
{
    match fault {
        ReadFault::NoMemory => Err(AllocError),
        _ => Ok(false),
    }
}
