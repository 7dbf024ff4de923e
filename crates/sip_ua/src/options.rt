//! The commands of `ua` and their options, as the words of the command line are checked.

ghost use Rattle.std.specs.Prelude.{◌<◌, ◌≤◌};

use clap::builder::ValueParser;
use clap::{Arg, ArgAction, ArgMatches, Command, Error};
use sip_udp::Division;
use std::alloc::{AllocError, Global};
use std::convert::AsStr;

/// The maximum number of shards.
const MAX_SHARDS: usize = 256;

/// The maximum number of workers.
const MAX_WORKERS: usize = 64;

/// The maximum number of agents.
const MAX_AGENTS: usize = 16;

/// The text of `ua --version`.
const VERSION: &str = "1.0";

/// The end of `ua --help`.
const EXAMPLES: &str = "\
Examples:
  ua replay < call.events > call.outputs
  ua ladder < call.events
  ua listen --local 127.0.0.1:5070 --seconds 30
  ua call --local 127.0.0.1:5080 --to 127.0.0.1:5070 --uri sip:b@127.0.0.1 --seconds 2
  ua agent --local 127.0.0.1:5080 --record mine.events < commands

Through bin/ua (with python3) also: ua calls < FILE, which lists the calls of a recording, and ua
ladder with --call-id ID, --follow FILE or --capture FILE (see FORMATS).

Exit status:
  0  success
  1  the input isn't an event file (or, with --session, a session file)
  2  a wrong option or command
  3  a round was refused: its time goes back or is too large, or it has too many events
  4  a file, a stream or the socket failed
  5  out of memory
  6  the call was not answered, or too few were (with --must-answer)";

const REPLAY_EXAMPLE: &str = "\
Example:
  ua replay --shards 8 --workers 4 < call.events > call.outputs";

const LADDER_EXAMPLE: &str = "\
Example:
  ua agent --local 127.0.0.1:5080 --record mine.events < commands
  ua ladder < mine.events";

const LISTEN_EXAMPLE: &str = "\
Example, and what it prints of a call:
  ua listen --local 127.0.0.1:5070 --seconds 30

  notice ua-call request 7.1 INVITE LOCAL-TAG REMOTE-TAG -
  notice ua-call ack 7.1 SDP
  notice ua-call request 9.1 BYE LOCAL-TAG REMOTE-TAG -
  notice ua-call ended LOCAL-TAG REMOTE-TAG";

const CALL_EXAMPLE: &str = "\
Example, and what it prints of a call that is answered:
  ua call --local 127.0.0.1:5080 --to 127.0.0.1:5070 --uri sip:b@127.0.0.1 --seconds 2

  notice ua-call response 0.1 100 LOCAL-TAG - -
  notice ua-call response 0.1 200 LOCAL-TAG REMOTE-TAG SDP
  notice ua-call ended LOCAL-TAG REMOTE-TAG
  notice ua-call response 3.2 200 LOCAL-TAG REMOTE-TAG -";

const AGENT_EXAMPLE: &str = "\
Example, an OPTIONS to a listener, and what it prints:
  echo 'plain c1 127.0.0.1:5070 OPTIONS sip:b@127.0.0.1 sip:a@127.0.0.1 sip:b@127.0.0.1 -' |
    ua agent --local 127.0.0.1:5080

  notice c1 response 0.1 200 LOCAL-TAG REMOTE-TAG -";

/// The commands, in the order of the help.
const COMMANDS: &[CommandName] = &[
    CommandName::Replay,
    CommandName::Ladder,
    CommandName::Listen,
    CommandName::Call,
    CommandName::Agent,
    CommandName::Compact,
];

#[derive(Clone, Copy)]
enum CommandName {
    Replay,
    Ladder,
    Listen,
    Call,
    Agent,
    Compact,
}

/// An option of a command.
#[derive(Clone, Copy)]
struct OptionRow {
    name: &'static str,
    action: ArgAction,
    parser: ValueParser<'static>,
    /// How help calls its value. A flag has none.
    value: &'static [&'static str],
    /// The value that it has if it isn't given.
    default: &'static [&'static str],
    is_required: bool,
    /// The options that it can't be given with.
    excludes: &'static [&'static str],
    /// The options that it can't be given without.
    needs: &'static [&'static str],
    help: &'static str,
}

/// An option without a value.
const FLAG: OptionRow = OptionRow {
    name: "",
    action: ArgAction::SetTrue,
    parser: ValueParser::Bool,
    value: &[],
    default: &[],
    is_required: false,
    excludes: &[],
    needs: &[],
    help: "",
};

/// An option whose value is any text.
const TEXT: OptionRow = OptionRow {
    action: ArgAction::Set,
    parser: ValueParser::String,
    ..FLAG
};

/// An option whose value is a `u32`.
const NUMBER: OptionRow = OptionRow {
    parser: ValueParser::Signed(0, u32::MAX as i64),
    ..TEXT
};

const REPLAY: &[OptionRow] = &[
    SESSION,
    SHARDS,
    WORKERS,
    OptionRow {
        name: "cut",
        parser: ValueParser::Names(&["spread", "first"]),
        value: &["CUT"],
        default: &["spread"],
        help: "How to split transactions and calls among the shards. spread: by the sum of the \
            bytes of a branch or a Call-ID. first: everything into the first shard",
        ..TEXT
    },
    OptionRow {
        name: "repair",
        help: "If the file was cut off, run what is whole of it: up to its last whole line, and \
            without header lines at the end. Say on standard error how many bytes were left out",
        ..FLAG
    },
    OptionRow {
        name: "streamed",
        excludes: &["repair"],
        help: "Read, run and write round by round. The file may have any length, and what was \
            written before a fault stays written",
        ..FLAG
    },
];

const LADDER: &[OptionRow] = &[SESSION];

const LISTEN: &[OptionRow] = &[
    LOCAL,
    TURNS,
    SECONDS,
    OptionRow {
        name: "ring",
        value: &["MS"],
        help: "Send 180, and the final response MS milliseconds after the INVITE, unless the \
            caller cancels. The 180 goes out up to 10 ms after the INVITE",
        ..NUMBER
    },
    OptionRow {
        name: "reliable",
        help: "First send a 183 reliably, if the caller supports that, and the other responses \
            after its PRACK",
        ..FLAG
    },
    OptionRow {
        name: "answer",
        parser: ValueParser::Signed(200, 699),
        value: &["STATUS"],
        default: &["200"],
        help: "The status of the final response to an INVITE, from 200 to 699. 3xx needs \
            --contact. 401, 405, 407, 420 to 423 and 494 are refused, since they need other \
            headers",
        ..TEXT
    },
    OptionRow {
        name: "contact",
        value: &["URI"],
        help: "The Contact of a response from 300 to 399, such as sip:bob@192.0.2.9",
        ..TEXT
    },
    OptionRow {
        help: "A file with the SDP of a 2xx to an INVITE; by default an SDP with inactive streams, \
            since there is no media",
        ..BODY
    },
    OptionRow {
        name: "no-body",
        excludes: &["body"],
        help: "Send no body in a 2xx to an INVITE",
        ..FLAG
    },
    OptionRow {
        name: "agents",
        parser: ValueParser::Unsigned(1, MAX_AGENTS as u64),
        value: &["N"],
        default: &["1"],
        excludes: &["record", "journal"],
        help: "Share the calls, by their Call-IDs, among N agents, each on a thread of its own, \
            from 1 to 16",
        ..TEXT
    },
    OptionRow {
        name: "held",
        parser: ValueParser::Signed(1, u32::MAX as i64),
        value: &["N"],
        help: "While N transactions are held, ignore requests that would begin another one; but \
            take those with a To tag, and CANCEL, until 2 * N are held",
        ..TEXT
    },
    OptionRow {
        name: "must-answer",
        value: &["N"],
        help: "Exit with status 6 if fewer than N calls got a 2xx",
        ..NUMBER
    },
    LARGEST,
    VIAS,
    DROPS,
    RECORD,
    JOURNAL,
    SYNC,
    JOURNAL_MAY_FAIL,
    STATS,
];

const CALL: &[OptionRow] = &[
    LOCAL,
    OptionRow {
        name: "to",
        value: &["ADDR"],
        is_required: true,
        help: "The address to send the INVITE to, such as 192.0.2.9:5060",
        ..TEXT
    },
    OptionRow {
        name: "uri",
        value: &["URI"],
        is_required: true,
        help: "The URI to call, such as sip:bob@192.0.2.9",
        ..TEXT
    },
    TURNS,
    SECONDS,
    OptionRow {
        name: "call-id",
        value: &["TEXT"],
        default: &["ua-call"],
        help: "The Call-ID; choose another one for each call",
        ..TEXT
    },
    OptionRow {
        name: "leave",
        help: "In the last second of --turns or --seconds, send CANCEL for a call that isn't \
            answered, or BYE for one that is up. Exit as soon as no call and no transaction is \
            left. The end of standard input does the same, also without --leave",
        ..FLAG
    },
    OptionRow {
        name: "hold",
        value: &["MS"],
        help: "Hang up MS milliseconds after the answer (this doesn't put the call on hold); by \
            default at once",
        ..NUMBER
    },
    OptionRow {
        name: "must-answer",
        help: "Exit with status 6 if the call isn't answered",
        ..FLAG
    },
    OptionRow {
        name: "reliable",
        help: "Support reliable provisional responses, and acknowledge them by PRACK",
        ..FLAG
    },
    OptionRow {
        help: "The body of the INVITE, an SDP text",
        ..BODY
    },
    DROPS,
    LARGEST,
    VIAS,
    RECORD,
    JOURNAL,
    SYNC,
    JOURNAL_MAY_FAIL,
    STATS,
];

const AGENT: &[OptionRow] = &[
    LOCAL,
    OptionRow {
        name: "linger",
        value: &["MS"],
        default: &["32000"],
        help: "After the end of the input, wait up to MS milliseconds for calls and transactions \
            to end",
        ..NUMBER
    },
    OptionRow {
        default: &["4"],
        ..SHARDS
    },
    WORKERS,
    OptionRow {
        name: "headers",
        help: "Take header lines before a command, each a space and `Name: value`, and print those \
            of a message before its notice. The record is then a session file, for `ua replay \
            --session`",
        ..FLAG
    },
    OptionRow {
        name: "ids",
        help: "Print a line `asked ID` for each command, before the notices of its round. Lines \
            that are no command have none, but a message on standard error",
        ..FLAG
    },
    LARGEST,
    VIAS,
    RECORD,
    JOURNAL,
    SYNC,
    JOURNAL_MAY_FAIL,
    STATS,
];

const COMPACT: &[OptionRow] = &[
    OptionRow {
        name: "journal",
        value: &["FILE"],
        is_required: true,
        help: "A journal of `ua` that no process has",
        ..TEXT
    },
    OptionRow {
        name: "into",
        value: &["NEW"],
        is_required: true,
        help: "The shorter journal, a new file",
        ..TEXT
    },
];

const SESSION: OptionRow = OptionRow {
    name: "session",
    help: "Also accept a session file, in which commands may have header lines",
    ..FLAG
};

const SHARDS: OptionRow = OptionRow {
    name: "shards",
    parser: ValueParser::Unsigned(1, MAX_SHARDS as u64),
    value: &["N"],
    default: &["1"],
    help: "Split transactions and calls into N shards, from 1 to 256; one thread at a time works \
        on a shard",
    ..TEXT
};

const WORKERS: OptionRow = OptionRow {
    name: "workers",
    parser: ValueParser::Unsigned(1, MAX_WORKERS as u64),
    value: &["N"],
    default: &["1"],
    help: "Work on the shards with at most N threads, from 1 to 64; with 1 no thread is started. \
        They start anew in each round, which pays in rounds of thousands of events: for many \
        calls use `listen --agents`",
    ..TEXT
};

const LOCAL: OptionRow = OptionRow {
    name: "local",
    value: &["ADDR"],
    is_required: true,
    help: "Your own address, such as 192.0.2.1:5060. The socket is bound to it, and Via and \
        Contact name it. Port 0 takes any free port. 0.0.0.0 receives on all addresses of \
        the machine, but then Contact is 0.0.0.0, and a peer's BYE doesn't arrive",
    ..TEXT
};

const TURNS: OptionRow = OptionRow {
    name: "turns",
    value: &["N"],
    help: "Exit after N turns of 10 ms, without ending calls; 3000 turns are half a minute",
    ..NUMBER
};

const SECONDS: OptionRow = OptionRow {
    name: "seconds",
    value: &["N"],
    help: "Exit after N seconds, without ending calls",
    ..NUMBER
};

const BODY: OptionRow = OptionRow {
    name: "body",
    value: &["FILE"],
    ..TEXT
};

const LARGEST: OptionRow = OptionRow {
    name: "largest",
    value: &["BYTES"],
    default: &["16384"],
    help: "Ignore a request that is longer, if it would begin a transaction",
    ..NUMBER
};

const VIAS: OptionRow = OptionRow {
    name: "vias",
    value: &["N"],
    default: &["70"],
    help: "Ignore a request with more Via values, which each response repeats, if it is over 1200 \
        bytes and would begin a transaction",
    ..NUMBER
};

const DROPS: OptionRow = OptionRow {
    name: "drops",
    help: "Print a line for each dropped datagram too, but not for keep-alives",
    ..FLAG
};

const RECORD: OptionRow = OptionRow {
    name: "record",
    value: &["FILE"],
    help: "Write the run to FILE as an event file, for `ua replay`; FILE is overwritten",
    ..TEXT
};

const JOURNAL: OptionRow = OptionRow {
    name: "journal",
    value: &["FILE"],
    excludes: &["record"],
    help: "Write each round to FILE, a session file, before anything of it is sent. If FILE has \
        rounds already, first run them again, silently, and go on from there: a process that \
        died is continued by the same command. `listen` and `agent` make a FILE of 16 MiB or \
        more shorter while they run",
    ..TEXT
};

const SYNC: OptionRow = OptionRow {
    name: "sync",
    needs: &["journal"],
    help: "Wait for the disk after each round of --journal, so that a power cut loses none",
    ..FLAG
};

const JOURNAL_MAY_FAIL: OptionRow = OptionRow {
    name: "journal-may-fail",
    needs: &["journal"],
    help: "If --journal can't be opened or written, go on without it; by default that is the end. \
        A FILE that lacks rounds is renamed to FILE.failed, and isn't run again",
    ..FLAG
};

const STATS: OptionRow = OptionRow {
    name: "stats",
    help: "At the end, write a line of statistics to standard error",
    ..FLAG
};

/// Reads the words as those of one of the commands. Gives its name and its options.
///
/// # Errors
///
/// The error that `clap` finds in them. It may also be the help that they ask for.
pub(crate) fn parse<'a, S: AsStr>(
    alloc: Global,
    words: &'a [S],
) -> Result<(&'a str, ArgMatches<'a>), Error> {
    let mut program = program(alloc)?.try_get_matches_from(words)?;
    match program.remove_subcommand() {
        Some(command) => Ok(command),
        None => Ok(("", program)),
    }
}

fn program<'a>(alloc: Global) -> Result<Command<'a>, AllocError> {
    let commands = commands(alloc)?;
    Command::new(alloc, "ua")
        .about(
            "A SIP user agent over UDP: answers calls, places a call, or runs commands from a \
            pipe; also replays and draws its recordings",
        )
        .after_help(EXAMPLES)
        .version(VERSION)
        .no_binary_name(true)
        .subcommand_required(true)
        .subcommands(commands)?
        .bin_name("ua")
}

fn commands<'a>(alloc: Global) -> Result<Vec<Command<'a>>, AllocError> {
    let mut commands = Vec::new(alloc);
    for name in COMMANDS {
        commands.push(command_named(alloc, *name)?)?;
    }
    Ok(commands)
}

fn command_named<'a>(alloc: Global, name: CommandName) -> Result<Command<'a>, AllocError> {
    match name {
        CommandName::Replay => replay_command(alloc),
        CommandName::Ladder => ladder_command(alloc),
        CommandName::Listen => listen_command(alloc),
        CommandName::Call => call_command(alloc),
        CommandName::Agent => agent_command(alloc),
        CommandName::Compact => compact_command(alloc),
    }
}

fn replay_command<'a>(alloc: Global) -> Result<Command<'a>, AllocError> {
    let about = "Runs an event file from standard input, and writes the output file to standard \
        output";
    command(alloc, "replay", about, Some(REPLAY_EXAMPLE), REPLAY)
}

fn ladder_command<'a>(alloc: Global) -> Result<Command<'a>, AllocError> {
    let about = "Reads an event file from standard input and draws its call flow, at most 100 \
        characters wide. There is a column for each address, an arrow for each datagram, and a \
        line for each command, notice and drop";
    command(alloc, "ladder", about, Some(LADDER_EXAMPLE), LADDER)
}

fn listen_command<'a>(alloc: Global) -> Result<Command<'a>, AllocError> {
    let about = "Answers calls over UDP: 200 (or --answer) to INVITE, 200 to BYE and OPTIONS, 501 \
        to anything else. Prints a line for each notice. When standard input ends, it ends all \
        calls and exits within a second. A terminal, or an input that is empty from the \
        start, is ignored. Through bin/ua the input ends at Ctrl-C instead";
    command(alloc, "listen", about, Some(LISTEN_EXAMPLE), LISTEN)
}

fn call_command<'a>(alloc: Global) -> Result<Command<'a>, AllocError> {
    let about = "Calls a URI over UDP, hangs up after the answer, and exits after --turns or \
        --seconds; without these, 32 seconds after the final response, or later with a long \
        --hold. Prints a line for each notice. When standard input ends, it ends its call and \
        exits within a second. A terminal, or an input that is empty from the start, is \
        ignored. Through bin/ua the input ends at Ctrl-C instead";
    command(alloc, "call", about, Some(CALL_EXAMPLE), CALL)
}

fn agent_command<'a>(alloc: Global) -> Result<Command<'a>, AllocError> {
    let about =
        "Runs commands over UDP, one on each line of standard input, written as in an event \
        file. Prints a line for each notice and each drop";
    command(alloc, "agent", about, Some(AGENT_EXAMPLE), AGENT)
}

fn compact_command<'a>(alloc: Global) -> Result<Command<'a>, AllocError> {
    let about = "Writes a shorter journal, by which `ua` goes on as by the whole one: without the \
        calls of which nothing is held. Checks that an agent that runs it holds the same; if \
        not, it writes the whole journal";
    command(alloc, "compact", about, None, COMPACT)
}

fn command<'a>(
    alloc: Global,
    name: &'static str,
    about: &'static str,
    example: Option<&'static str>,
    options: &'static [OptionRow],
) -> Result<Command<'a>, AllocError> {
    let arguments = arguments(alloc, options)?;
    let command = Command::new(alloc, name).about(about);
    with_example(command, example).args(arguments)
}

fn with_example<'a>(command: Command<'a>, example: Option<&'static str>) -> Command<'a> {
    match example {
        Some(example) => command.after_help(example),
        None => command,
    }
}

fn arguments<'a>(alloc: Global, rows: &'static [OptionRow]) -> Result<Vec<Arg<'a>>, AllocError> {
    let mut arguments = Vec::new(alloc);
    for row in rows {
        arguments.push(argument(alloc, *row)?)?;
    }
    Ok(arguments)
}

fn argument<'a>(alloc: Global, row: OptionRow) -> Result<Arg<'a>, AllocError> {
    Arg::new(alloc, row.name)
        .long(row.name)
        .action(row.action)
        .value_parser(row.parser)
        .value_names(row.value)
        .default_values(row.default)
        .required(row.is_required)
        .help(row.help)
        .conflicts_with_all(row.excludes)?
        .requires_all(row.needs)
}

/// The text of an option that `clap` requires, or that has a usual one.
pub(crate) fn text_of<'a>(options: &ArgMatches<'a>, id: &str) -> &'a str {
    options.get_str(id).unwrap_or("")
}

/// The number of an option that has a usual one.
pub(crate) fn number_of(options: &ArgMatches, id: &str) -> u32 {
    options.get_one::<u32>(id).unwrap_or(0)
}

/// How the work is divided.
pub(crate) fn division(options: &ArgMatches) -> Division {
    let Division {
        agents,
        shards,
        workers,
    } = Division::USUAL;
    Division {
        agents: count(options, "agents", MAX_AGENTS, agents),
        shards: count(options, "shards", MAX_SHARDS, shards),
        workers: count(options, "workers", MAX_WORKERS, workers),
    }
}

// The number of an option, or the usual one. `clap` has checked that it is in its range.
fn count(options: &ArgMatches, id: &str, most: usize, usual: usize) -> usize
    requires some { 0 < usual }
    requires in_range { usual ≤ most }
    ensures some { 0 < result }
    ensures most { result ≤ most }
{
    match options.get_one::<usize>(id) {
        Some(count) if (1..=most).contains(&count) => count,
        _ => usual,
    }
}
