//! What a user agent over UDP needs to run.

ghost use Rattle.std.specs.Prelude.{◌≡◌, ◌^◌, ◌<◌, ◌≤◌, IfOk, IsSome, None};
ghost use Rattle.std.specs.Option.{option_map};
ghost use Rattle.sip_udp.specs.Admission.{share_of};
ghost use Rattle.sip_agents.specs.Stripes.{config_of};

use crate::admission::RequestLimits;
use crate::division::Division;
use crate::fault::UaFault;
use crate::input_end::InputEnd;
use crate::past::Past;
use crate::record::{Keeping, Record};
use crate::record_file::RecordFile;
use sip_agents::{STRIPE, config_of};
use sip_files::FileKind;
use sip_message::Addr;
use sip_round::Config;
use std::net::UdpSocket;
use std::sync::Arc;

/// What a user agent over UDP needs to run.
pub struct Endpoint<F> {
    pub socket: UdpSocket,
    /// The configuration with which its agent is started.
    pub config: Config,
    pub division: Division,
    /// Where the run is recorded, if it is.
    pub record: Option<F>,
    /// Whether the run ends if the record can't be written.
    pub keeping: Keeping,
    /// What there is of a journal, if the record is one: its moments are in ms since 1970, and the
    /// run goes on from its rounds. Its head was read if it isn't new.
    pub past: Option<Past>,
    /// The kind of file whose lines a pipe has and a record gets. In a session commands may have
    /// header lines. A journal is a session.
    pub kind: FileKind,
    /// Whether the counts are written at the end.
    pub is_counted: bool,
    /// Whether it is said when datagrams can come.
    pub is_announced: bool,
    /// Whether drops are told, too. A user on a pipe is always told of them.
    pub tells_drops: bool,
    /// Whether the id of each command is told, before the notices of its round.
    pub tells_ids: bool,
    /// How many turns of 10 ms `listen` and `call` take at most.
    pub turns: u64,
    /// After how many seconds the turns end, if at all.
    pub seconds: Option<u32>,
    /// How many transactions are to be held at most, if there is a limit. Above it requests are
    /// shed. Of several agents each has a fair share of the limit.
    pub held_limit: Option<u32>,
    /// What a request may have that would begin a transaction. Others are shed.
    pub request_limits: RequestLimits,
    /// The input whose end ends the turns of `listen` and `call`, if one does.
    pub input: Option<Arc<InputEnd>>,
}

impl<F: Drop> Drop for Endpoint<F> {
    fn drop(self) {
        let Endpoint {
            socket: _,
            config: _,
            division: _,
            record: _,
            keeping: _,
            past: _,
            kind: _,
            is_counted: _,
            is_announced: _,
            tells_drops: _,
            tells_ids: _,
            turns: _,
            seconds: _,
            held_limit: _,
            request_limits: _,
            input: _,
        } = self;
    }
}

impl<F> Endpoint<F> {
    /// An endpoint at this address with the usual division, for so many turns. It begins with round
    /// 0, and isn't recorded.
    pub(crate) fn usual(socket: UdpSocket, local: Addr, seed: [u8; 32], turns: u32) -> Endpoint<F> {
        Endpoint {
            socket,
            config: Config {
                local,
                seed,
                first: 0,
            },
            division: Division::USUAL,
            record: None,
            keeping: Keeping::MayFail,
            past: None,
            kind: FileKind::Events,
            is_counted: false,
            is_announced: false,
            tells_drops: false,
            tells_ids: false,
            turns: u64::from(turns),
            seconds: None,
            held_limit: None,
            request_limits: RequestLimits::USUAL,
            input: None,
        }
    }

    /// How many agents it has, each at its own thread: as many as its division says. There is one
    /// alone if the run is recorded, or if the number of its first round leaves no room for those
    /// of others.
    pub(crate) fn agents(&self) -> usize
        ensures some { 0 < result }
        ensures most { result ≤ 16 }
        ensures room { 1 < result → self.now.config.first < 2 ^ 58 }
        ensures alone { IsSome self.now.record → result ≡ 1 }
        ensures all { self.now.record ≡ None → self.now.past ≡ None
            → self.now.config.first < 2 ^ 58 → result ≡ self.now.division.agents }
    {
        if self.record.is_some() || self.past.is_some() || self.config.first >= STRIPE {
            1
        } else {
            self.division.agents
        }
    }

    /// Leaves a fair share of the limit of what is held, for one of so many agents.
    pub(crate) fn share_limit(&mut self, agents: usize)
        requires some { 0 < agents }
        requires most { agents ≤ 16 }
        ensures limit { self.new.held_limit
            ≡ option_map (λ limit. share_of limit agents) self.old.held_limit }
        ensures same { self.new.config ≡ self.old.config }
    {
        self.held_limit = match self.held_limit {
            Some(limit) => Some(share(limit, agents)),
            None => None,
        };
    }

    /// The endpoint of another agent, the one with this number, at the same socket. Nothing of it
    /// is recorded.
    ///
    /// # Errors
    ///
    /// `Socket`, or `NoMemory`.
    pub(crate) fn of_agent(&self, number: usize) -> Result<Endpoint<Vec<u8>>, UaFault>
        requires number { number < 16 }
        requires room { self.now.config.first < 2 ^ 58 }
        ensures { IfOk result (λ own. own.config ≡ config_of self.now.config number) }
    {
        let Ok(socket) = self.socket.try_clone() else {
            return Err(UaFault::Socket);
        };
        Ok(Endpoint {
            socket,
            config: config_of(self.config, number),
            division: self.division,
            record: None,
            keeping: Keeping::MayFail,
            past: None,
            kind: self.kind,
            is_counted: self.is_counted,
            is_announced: false,
            tells_drops: self.tells_drops,
            tells_ids: self.tells_ids,
            turns: self.turns,
            seconds: self.seconds,
            held_limit: self.held_limit,
            request_limits: self.request_limits,
            input: self.input.clone()?,
        })
    }
}

impl<F: RecordFile> Endpoint<F> {
    /// Takes the record out.
    pub(crate) fn take_record(&mut self) -> Record<F> {
        let file = self.record.take();
        Record::new(file, self.kind, self.keeping, self.past.as_ref())
    }
}

// What each of so many agents has of a limit: a fair share, rounded up.
fn share(limit: u32, agents: usize) -> u32
    requires some { 0 < agents }
    requires most { agents ≤ 16 }
    ensures { result ≡ share_of limit agents }
{
    limit.div_ceil(agents as u32)
}
