//! What `ua listen`, `ua call` and `ua agent` do.

use crate::address::address_of;
use crate::compacting::compact_by;
use crate::failure::{Cause, Failure, TalkFault, ToldCause};
use crate::host::{Access, Host, Journals, open};
use crate::journalled_call::check_call;
use crate::options::{division, number_of, text_of};
use crate::plan::{Plan, plan_of};
use crate::receive_buffer::ask_for_room;
use crate::run_file::{JournalWords, RunFile};
use crate::status::{SUCCESS, finish};
use clap::ArgMatches;
use sip_files::FileKind;
use sip_message::Addr;
use sip_round::Config;
use sip_udp::{
    Endpoint, InputEnd, Keeping, Past, QueuedWriter, RequestLimits, UaFault, Written, agent,
    call_from, listen_at,
};
use std::alloc::Global;
use std::io::{self, Write};
use std::net::{Ipv4Addr, Net, SocketAddrV4, UdpSocket};
use std::random::RandomSource;
use std::rt::Files;
use std::sync::Arc;
use std::thread::Threads;
use std::time::Clock;

/// Where a run begins, and to what it is written.
#[derive(Drop)]
struct Run<T> {
    config: Config,
    record: Option<RunFile<T>>,
    // What there is of a journal, if the record is one.
    past: Option<Past>,
    keeping: Keeping,
}

impl<T> Run<T> {
    // A run without a past.
    fn of(config: Config, record: Option<RunFile<T>>) -> Run<T> {
        Run {
            config,
            record,
            past: None,
            keeping: Keeping::MayFail,
        }
    }
}

/// Listens, calls, does what a pipe says, or compacts a journal, as the words ask for. Gives the
/// status of the end.
pub(crate) fn talk_by<T: Threads + Host + Clock + Files + Net, E: Write>(
    rt: &T,
    alloc: Global,
    command: &str,
    options: &ArgMatches,
    errors: &mut E,
) -> u8 {
    // Three empty files have the descriptors of those standard streams that are closed: the socket
    // would get one, and be read as the pipe of commands.
    let _streams = [
        open(rt, "/dev/null", Access::Read),
        open(rt, "/dev/null", Access::Read),
        open(rt, "/dev/null", Access::Read),
    ];
    let end = match command {
        "compact" => compact_by(rt, alloc, options, errors),
        _ => talk(rt, alloc, command, options, errors),
    };
    match end {
        Ok(()) => SUCCESS,
        Err(Failure { fault, cause }) => finish(Err(fault), told(cause, options), errors),
    }
}

// The cause with the word of its option.
fn told<'a>(cause: Option<Cause>, options: &ArgMatches<'a>) -> Option<ToldCause<'a>> {
    let cause = cause?;
    let word = match cause.option() {
        Some(option) => text_of(options, option),
        None => "",
    };
    Some(ToldCause { cause, word })
}

fn talk<T: Threads + Host + Clock + Files + Net, E: Write>(
    rt: &T,
    alloc: Global,
    command: &str,
    options: &ArgMatches,
    errors: &mut E,
) -> Result<(), Failure> {
    let plan = plan_of(rt, alloc, command, options)?;
    let endpoint = endpoint_of(rt, alloc, &plan, options)?;
    let others = endpoint.division.agents - 1;
    let (mut notices, others) = QueuedWriter::start_with(rt, alloc, rt.notices(), others)?;
    let end = match plan {
        Plan::Listen(plan) => listen_at(rt, alloc, endpoint, plan, &mut notices, others, errors),
        Plan::Call(plan) => call_from(rt, alloc, endpoint, plan, &mut notices, errors),
        Plan::Agent(linger) => {
            let input = rt.commands();
            agent(rt, alloc, endpoint, input, linger, &mut notices, errors)
        }
    };
    ended(end, notices.finish(rt), errors)
}

// How a command ended, by its turns and by what became of its notices. Tells how many were lost.
fn ended<E: Write>(
    end: Result<(), UaFault>,
    written: Written,
    errors: &mut E,
) -> Result<(), Failure> {
    let Written { lost, error } = written;
    if lost > 0 {
        let _ = writeln!(
            errors,
            "ua: {lost} notices lost, since the output wasn't read"
        );
    }
    let is_unwritten = end.is_ok() || end == Err(UaFault::Output);
    match error {
        Some(error) if is_unwritten => Err(Failure::of_system(
            UaFault::Output,
            "standard output",
            error,
        )),
        _ => match end {
            Ok(()) => Ok(()),
            Err(fault) => Err(Failure::from(fault)),
        },
    }
}

// The endpoint for this plan. Where the port of its address is 0, it is at the one that the socket
// got.
fn endpoint_of<T: Threads + Host>(
    rt: &T,
    alloc: Global,
    plan: &Plan,
    options: &ArgMatches,
) -> Result<Endpoint<RunFile<T>>, Failure> {
    let local = address_of(alloc, "local", text_of(options, "local"))?;
    let seed = seed_of(rt)?;
    let (socket, local) = socket_at(rt, local)?;
    let config = Config {
        local,
        seed,
        first: 0,
    };
    let mut run = run_of(rt, alloc, plan, options, config)?;
    // A call begins in the first round of its journal. Without that round it would be made again.
    if let Some(file) = &mut run.record
        && !matches!(plan, Plan::Call(_))
    {
        file.start_shortening(alloc);
    }
    let input = input_of(rt, alloc, plan)?;
    Ok(endpoint_at(socket, run, input, plan, options))
}

fn seed_of<R: RandomSource>(rt: &R) -> Result<[u8; 32], Failure> {
    let mut seed = [0; 32];
    match rt.fill_bytes(&mut seed) {
        Ok(()) => Ok(seed),
        Err(error) => Err(Failure::of_system(UaFault::Input, "random bytes", error)),
    }
}

// A socket at this address, and the address that it got.
fn socket_at<T: Host>(rt: &T, local: Addr) -> Result<(UdpSocket, Addr), Failure> {
    let ip = local.ip;
    match bound(rt, local) {
        Ok((socket, port)) => Ok((socket, Addr { ip, port })),
        Err(error) => Err(Failure {
            fault: TalkFault::Ua(UaFault::Socket),
            cause: Some(Cause::Local(error)),
        }),
    }
}

fn bound<T: Host>(rt: &T, local: Addr) -> io::Result<(UdpSocket, u16)> {
    let address = SocketAddrV4::new(Ipv4Addr::from_octets(local.ip), local.port);
    let socket = rt.bind(address)?;
    ask_for_room(&socket);
    let port = socket.local_addr()?.port();
    Ok((socket, port))
}

// The input whose end ends the turns. The end of a terminal doesn't.
fn input_of<T: Threads + Host>(
    rt: &T,
    alloc: Global,
    plan: &Plan,
) -> Result<Option<Arc<InputEnd>>, Failure> {
    if matches!(plan, Plan::Agent(_)) || rt.is_on_terminal() {
        return Ok(None);
    }
    match InputEnd::watch(rt, alloc, rt.commands()) {
        Ok(input) => Ok(Some(input)),
        Err(fault) => Err(Failure::from(fault)),
    }
}

// An endpoint at this socket.
fn endpoint_at<T>(
    socket: UdpSocket,
    run: Run<T>,
    input: Option<Arc<InputEnd>>,
    plan: &Plan,
    options: &ArgMatches,
) -> Endpoint<RunFile<T>> {
    let Run {
        config,
        record,
        past,
        keeping,
    } = run;
    let turns = match options.get_one::<u32>("turns") {
        Some(turns) => u64::from(turns),
        None => u64::MAX,
    };
    Endpoint {
        socket,
        config,
        division: division(options),
        record,
        keeping,
        past,
        // With headers, the pipe and the record have the lines of a session file.
        kind: if options.get_flag("headers") {
            FileKind::Session
        } else {
            FileKind::Events
        },
        is_counted: options.get_flag("stats"),
        // A caller waits for no datagrams.
        is_announced: match plan {
            Plan::Listen(_) => turns > 0,
            Plan::Call(_) => false,
            Plan::Agent(_) => true,
        },
        tells_drops: options.get_flag("drops"),
        tells_ids: options.get_flag("ids"),
        turns,
        seconds: options.get_one::<u32>("seconds"),
        held_limit: options.get_one::<u32>("held"),
        request_limits: RequestLimits {
            largest: number_of(options, "largest"),
            vias: number_of(options, "vias"),
        },
        input,
    }
}

// Opens the file to which the run is written, if one is asked for. From a journal the run goes on.
fn run_of<T: Journals>(
    rt: &T,
    alloc: Global,
    plan: &Plan,
    options: &ArgMatches,
    config: Config,
) -> Result<Run<T>, Failure> {
    if options.contains_id("journal") {
        return journal_of(rt, alloc, plan, options, config);
    }
    let Some(path) = options.get_str("record") else {
        return Ok(Run::of(config, None));
    };
    match open(rt, path, Access::Overwrite) {
        Ok(file) => Ok(Run::of(config, Some(RunFile::record(rt, alloc, file)))),
        Err(error) => Err(Failure::of_file(UaFault::Output, "record", error)),
    }
}

// Opens the journal. If it may fail, there may be none.
fn journal_of<T: Journals>(
    rt: &T,
    alloc: Global,
    plan: &Plan,
    options: &ArgMatches,
    config: Config,
) -> Result<Run<T>, Failure> {
    let path = text_of(options, "journal");
    let words = JournalWords {
        path,
        is_synced: options.get_flag("sync"),
        may_fail: options.get_flag("journal-may-fail"),
    };
    match RunFile::journal(rt, alloc, words) {
        Ok(Some(file)) => from_journal(rt, alloc, words, file, plan, config),
        Ok(None) => Err(Failure::of_word("journal", "another process has it")),
        Err(error) if words.may_fail => {
            let _ = eprintln!(rt; "ua: --journal {path}: {error}: there is no journal");
            Ok(Run::of(config, None))
        }
        Err(error) => Err(Failure::of_file(UaFault::Journal, "journal", error)),
    }
}

// A run that goes on from this journal.
fn from_journal<T: Journals>(
    rt: &T,
    alloc: Global,
    words: JournalWords<'_>,
    mut file: RunFile<T>,
    plan: &Plan,
    config: Config,
) -> Result<Run<T>, Failure> {
    let mut past = Past::new(alloc);
    let kept = match past.head(&mut file) {
        Ok(Some(kept)) => check_head(rt, alloc, words.path, plan, config, kept),
        Ok(None) => Ok(config),
        Err(fault) => Err(Failure {
            fault: TalkFault::Ua(fault),
            cause: Some(Cause::Word {
                option: "journal",
                wanted: "not read",
            }),
        }),
    };
    Ok(Run {
        config: kept?,
        record: Some(file),
        past: Some(past),
        keeping: if words.may_fail {
            Keeping::MayFail
        } else {
            Keeping::Needed
        },
    })
}

// The configuration that the journal's head says. A journal that lacks the first round of its call
// is refused.
fn check_head<T: Journals>(
    rt: &T,
    alloc: Global,
    path: &str,
    plan: &Plan,
    config: Config,
    kept: Config,
) -> Result<Config, Failure> {
    if kept.local != config.local {
        return Err(Failure::of_word("local", "not the address of the journal"));
    }
    if let Plan::Call(plan) = plan {
        if kept.first > 0 {
            return Err(Failure::of_word("journal", "its call is over"));
        }
        check_call(rt, alloc, path, plan)?;
    }
    Ok(kept)
}
