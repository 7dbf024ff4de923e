//! The user agents: one that listens, one that calls, and one that does what a pipe says.

ghost use Rattle.std.specs.Prelude.{◌≡◌, ◌^◌, ◌<◌, ◌≤◌, IfSome};
ghost use Rattle.std.specs.List.{AllZip};
ghost use Rattle.sip_desk.specs.Lines.{IsPosterOf};
ghost use Rattle.sip_udp.specs.Hearing.{EndsLine};
ghost use Rattle.sip_udp.specs.Stations.{desks_of};

use crate::answering::Answering;
use crate::bell::Bell;
use crate::call_plan::CallPlan;
use crate::calling::Calling;
use crate::endpoint::Endpoint;
use crate::fault::UaFault;
use crate::listen_plan::ListenPlan;
use crate::listener::{Flags, Heard, hear};
use crate::other_station::{OtherAgent, OtherStation};
use crate::pipe_input::{PipeLine, feed};
use crate::piped::Piped;
use crate::queued_writer::QueuedEnd;
use crate::record_file::RecordFile;
use crate::shared_plan::SharedPlan;
use crate::station::{Station, one_line};
use crate::stations::{add, conclude, open_others, run_all};
use crate::turns::MOST_COLLECTED;
use crate::user::User;
use sip_desk::Poster;
use sip_files::FileKind;
use sip_message::{Addr, CallId, Uri};
use sip_round::Event;
use std::alloc::Global;
use std::io::{self, BufRead, Write};
use std::net::{Net, UdpSocket};
use std::rt::Files;
use std::snapshot::Snapshot;
use std::sync::Arc;
use std::sync::atomic::Ordering;
use std::thread::{self, JoinHandle, Promise, Threads};
use std::time::{Clock, Duration};

/// How long the listener waits for a datagram, in ms.
const READ_TIMEOUT: u64 = 50;

/// One more than the length of the longest datagram that is read, in bytes.
const BUFFER: usize = 65_536;

/// Takes part in calls for `turns` turns of 10 ms, as [`listen_at`] does: it answers INVITE, BYE and
/// OPTIONS with 200. Each notice is written as a line of an output file.
///
/// # Errors
///
/// The first fault. All threads are joined then, too.
pub fn listen<R: Threads + Clock + Files + Sync, W: Write>(
    rt: &R,
    alloc: Global,
    socket: UdpSocket,
    local: Addr,
    seed: [u8; 32],
    turns: u32,
    notices: &mut W,
) -> Result<(), UaFault> {
    let endpoint = Endpoint::<Vec<u8>>::usual(socket, local, seed, turns);
    let (plan, others) = (ListenPlan::usual(), Vec::new(alloc));
    listen_at(rt, alloc, endpoint, plan, notices, others, &mut io::sink())
}

/// Takes part in calls at an endpoint: it answers INVITEs by a plan, BYE and OPTIONS with 200, and
/// all other requests with 501. Each notice is written as a line of an output file. When the input
/// of the endpoint has ended, calls that aren't answered get 480, and those that are up get a BYE;
/// the turns end a second later. If recording is given up, `errors` says so.
///
/// The endpoint may have several agents, each on a thread of its own: a call is that of the agent
/// of its Call-ID. The first tells its notices to `notices`, and each other to one of `others`:
/// there are no more agents than that.
///
/// # Errors
///
/// The first fault. All threads are joined then, too.
pub fn listen_at<R: Threads + Clock + Files + Sync, F: RecordFile, W: Write, E: Write>(
    rt: &R,
    alloc: Global,
    mut endpoint: Endpoint<F>,
    plan: ListenPlan,
    notices: &mut W,
    others: Vec<QueuedEnd>,
    errors: &mut E,
) -> Result<(), UaFault> {
    let agents = endpoint.agents().min(others.len() + 1);
    endpoint.share_limit(agents);
    let plan = SharedPlan::new(alloc, endpoint.config.local.ip, plan)?;
    let user = User::Answering(Answering::new(alloc, plan.clone()?));
    let others = other_agents(alloc, &endpoint, &plan, agents, others)?;
    talk(rt, alloc, endpoint, user, others, notices, errors)
}

// The agents from the second on, of so many. Each tells its notices to one of the writers.
fn other_agents<F: RecordFile>(
    alloc: Global,
    endpoint: &Endpoint<F>,
    plan: &Arc<SharedPlan>,
    agents: usize,
    mut writers: Vec<QueuedEnd>,
) -> Result<Vec<OtherAgent>, UaFault>
    requires most { agents ≤ 16 }
    requires room { 1 < agents → endpoint.now.config.first < 2 ^ 58 }
{
    let mut others = Vec::new(alloc);
    for number in 1..agents {
        let Some(notices) = writers.pop() else {
            break;
        };
        let agent = OtherAgent {
            endpoint: endpoint.of_agent(number)?,
            user: User::Answering(Answering::new(alloc, plan.clone()?)),
            notices,
        };
        add(&mut others, agent)?;
    }
    Ok(others)
}

/// Calls a URI at an address, ends each dialog that a 2xx confirms, and takes `turns` turns of 10
/// ms. Each notice is written as a line of an output file.
///
/// # Errors
///
/// The first fault. All threads are joined then, too.
pub fn call<R: Threads + Clock + Files + Sync, W: Write>(
    rt: &R,
    alloc: Global,
    socket: UdpSocket,
    local: Addr,
    to: Addr,
    uri: Uri,
    call_id: CallId,
    seed: [u8; 32],
    turns: u32,
    notices: &mut W,
) -> Result<(), UaFault> {
    let endpoint = Endpoint::<Vec<u8>>::usual(socket, local, seed, turns);
    let plan = CallPlan::usual(alloc, to, uri, call_id);
    call_from(rt, alloc, endpoint, plan, notices, &mut io::sink())
}

/// Calls from an endpoint by a plan, and ends each dialog that a 2xx confirms. Each notice is
/// written as a line of an output file. When the input of the endpoint has ended, the call is
/// cancelled or ended, and the turns end at most a second later. If recording is given up, `errors`
/// says so.
///
/// # Errors
///
/// The first fault. All threads are joined then, too.
pub fn call_from<R: Threads + Clock + Files + Sync, F: RecordFile, W: Write, E: Write>(
    rt: &R,
    alloc: Global,
    endpoint: Endpoint<F>,
    plan: CallPlan,
    notices: &mut W,
    errors: &mut E,
) -> Result<(), UaFault> {
    let user = User::Calling(Calling::new(alloc, &endpoint.config, plan)?);
    let others = Vec::new(alloc);
    talk(rt, alloc, endpoint, user, others, notices, errors)
}

/// Does what the lines of the input say. Each is a command as in an event file, or in a session
/// with header lines before it, as the endpoint says. Each notice and each drop is written as a
/// line of an output file. A line that has no part in a command is reported on `errors` with its
/// number. After the end of the input it goes on until nothing is held, or for `linger` ms.
///
/// # Errors
///
/// The first fault. The input may not have ended then.
pub fn agent<
    R: Threads + Clock + Files + Net + Sync,
    F: RecordFile,
    I: BufRead + Send + Drop + 'static,
    W: Write,
    E: Write,
>(
    rt: &R,
    alloc: Global,
    mut endpoint: Endpoint<F>,
    input: I,
    linger: u32,
    notices: &mut W,
    errors: &mut E,
) -> Result<(), UaFault> {
    endpoint.turns = u64::MAX;
    let (user, flags, feeder) = piped(rt, alloc, endpoint.kind, input, linger)?;
    let others = Vec::new(alloc);
    let end = talk(rt, alloc, endpoint, user, others, notices, errors);
    flags.stop.store(true, Ordering::SeqCst);
    end?;
    feeder.join(rt)?;
    Ok(())
}

// The user of a pipe, its flags, and the thread that reads the lines of the input.
fn piped<R: Threads + Net, I: BufRead + Send + Drop + 'static>(
    rt: &R,
    alloc: Global,
    kind: FileKind,
    input: I,
    linger: u32,
) -> Result<(User, Arc<Flags>, JoinHandle<Result<bool, UaFault>>), UaFault> {
    let Ok(bell) = Bell::new(rt) else {
        return Err(UaFault::Socket);
    };
    let Ok(bell) = Arc::new(alloc, bell) else {
        return Err(UaFault::NoMemory);
    };
    let flags = flags_with(alloc, Some(&bell))?;
    let (pipe, mut line) = one_line(alloc, MOST_COLLECTED)?;
    let user = Piped::new(alloc, pipe, flags.clone()?, linger);
    let theirs = flags.clone()?;
    match thread::spawn(rt, move || feed(alloc, kind, input, &mut line, theirs)) {
        Ok(feeder) => Ok((User::Piped(user), flags, feeder)),
        Err(_) => Err(UaFault::Socket),
    }
}

/// The ends of the listener's lines belong to their posters.
#[derive(Drop)]
struct OfLines(Snapshot<Vec<Poster<Event>>>);

impl Promise<Heard> for OfLines {
    ghost kept_by = { λ promise heard. IfSome heard.ends
        (λ ends. AllZip EndsLine promise.0.value.items ends.items) };
}

fn flags_with(alloc: Global, bell: Option<&Arc<Bell>>) -> Result<Arc<Flags>, UaFault> {
    let mut flags = Flags::new();
    if let Some(bell) = bell {
        flags.bell = Some(bell.clone()?);
    }
    match Arc::new(alloc, flags) {
        Ok(flags) => Ok(flags),
        Err(_) => Err(UaFault::NoMemory),
    }
}

// What the thread of the listener gets besides its lines.
#[derive(Drop)]
struct Ears {
    socket: UdpSocket,
    buffer: Vec<u8>,
    flags: Arc<Flags>,
}

impl Ears {
    // With the flags, which the turns have, too.
    fn new(
        alloc: Global,
        socket: &UdpSocket,
        bell: Option<&Arc<Bell>>,
    ) -> Result<(Ears, Arc<Flags>), UaFault> {
        let flags = flags_with(alloc, bell)?;
        if socket
            .set_read_timeout(Some(Duration::from_millis(READ_TIMEOUT)))
            .is_err()
        {
            return Err(UaFault::Socket);
        }
        let Ok(socket) = socket.try_clone() else {
            return Err(UaFault::Socket);
        };
        let ears = Ears {
            socket,
            buffer: vec![in alloc; 0u8; BUFFER]?,
            flags: flags.clone()?,
        };
        Ok((ears, flags))
    }

    fn hear(self, alloc: Global, lines: Vec<Poster<Event>>) -> Heard
        ensures { IfSome result.ends (λ ends. AllZip EndsLine lines.items ends.items) }
    {
        let Ears {
            mut socket,
            buffer,
            flags,
        } = self;
        hear(alloc, &mut socket, buffer, lines, flags)
    }
}

// Opens the stations of all agents at an endpoint, and runs them.
fn talk<R: Threads + Clock + Files + Sync, F: RecordFile, W: Write, E: Write>(
    rt: &R,
    alloc: Global,
    endpoint: Endpoint<F>,
    user: User,
    others: Vec<OtherAgent>,
    notices: &mut W,
    errors: &mut E,
) -> Result<(), UaFault> {
    let (own, line) = Station::open(rt, alloc, endpoint, user, notices, errors)?;
    let (others, lines) = open_others(rt, alloc, &own, line, others)?;
    run_heard(rt, alloc, own, others, lines, notices, errors)
}

// Starts the listener, which posts to these lines, takes the turns of all agents, and joins the
// listener.
fn run_heard<R: Threads + Clock + Files + Sync, F: RecordFile, W: Write, E: Write>(
    rt: &R,
    alloc: Global,
    own: Station<F>,
    others: Vec<OtherStation>,
    lines: Vec<Poster<Event>>,
    notices: &mut W,
    errors: &mut E,
) -> Result<(), UaFault>
    requires { AllZip IsPosterOf (desks_of own others.items) lines.items }
{
    let (socket, bell) = (&own.turns.endpoint.socket, own.turns.user.bell());
    let (ears, flags) = Ears::new(alloc, socket, bell)?;
    let of_lines = OfLines(Snapshot::of(&lines));
    let listening = move || -> Heard
        ensures { IfSome result.ends (λ ends. AllZip EndsLine lines.items ends.items) }
    { ears.hear(alloc, lines) };
    let Ok(listener) = thread::spawn_with(rt, of_lines, listening) else {
        return Err(UaFault::Socket);
    };
    announce(&own.turns.endpoint, errors);
    let (mut own, ran) = run_all(rt, &flags, own, others, notices, errors);
    flags.stop.store(true, Ordering::SeqCst);
    let heard = listener.join(rt);
    let others = ran?;
    conclude(rt, &mut own, others, heard, errors)
}

// Says that datagrams can come, if that is to be said.
fn announce<F, E: Write>(endpoint: &Endpoint<F>, errors: &mut E) {
    if endpoint.is_announced {
        let local = endpoint.config.local;
        let _ = writeln!(errors, "ua: ready at {local}");
    }
}
