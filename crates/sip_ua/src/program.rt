//! The program: what each command does.

ghost use Rattle.std.specs.Prelude.{◌≡◌, ◌≢◌, ◌⊎◌, ◌<◌, ◌≤◌, ◌^◌, Err, IfErr, IfSome, IsFalse, IsTrue, List, OnOk, length, map};
ghost use Rattle.sip_files.specs.EventFile.{IsFile};
ghost use Rattle.sip_files.specs.Replay.{WritesAll, WritesFront};
ghost use Rattle.sip_ua.specs.Inputs.{HasRefusedRound, IsNoFile};
ghost use Rattle.sip_ladder.specs.Drawing.{DrawsAll};
ghost use Rattle.sip_ua.specs.Repair.{TellsRepair, replayed};
ghost use Rattle.sip_ua.specs.StreamStatus.{TellsStatus};
ghost use Rattle.sip_ua.specs.Words.{asks_help, asks_ladder, asks_repair, asks_replay, asks_stream, kind_asked};
ghost use Rattle.sip_round.specs.declared.config.Config.{Config};
ghost use Rattle.sip_round.specs.declared.round.Round.{Round};
ghost use Rattle.sip_stream.specs.Streams.{IsStream, StreamsAll, StreamsFront};
ghost use Rattle.sip_files.specs.declared.file_replay.ReplayFault.TheVariants as replay_fault;

use crate::cut_name::CutName;
use crate::host::Host;
use crate::noting::NotingRead;
use crate::options::{division, parse};
use crate::repair::whole;
use crate::status::{finish, tell_help, tell_words};
use crate::talking::talk_by;
use crate::words::{Asked, asks_repair, command_asked, kind_asked};
use clap::ArgMatches;
use sip_files::{FileKind, ReplayFault, read_all, replay};
use sip_ladder::ladder;
use sip_round::OpenGate;
use sip_stream::replay_streamed;
use sip_udp::Division;
use std::alloc::Global;
use std::convert::AsStr;
use std::io::{Read, Write};
use std::net::Net;
use std::rt::Files;
use std::thread::Threads;
use std::time::Clock;

/// All that the program does, from its words to its status. The words don't include the program's
/// own name.
///
/// `ua replay` reads an event file from `input` and writes its output file to `output`. `ua ladder`
/// writes the ladder of that file there. With `--session` both also read a session file. With
/// `--repair`, `ua replay` reads the input only up to its last LF; with `--streamed` it reads, runs
/// and writes round by round. `ua listen`, `ua call` and `ua agent` write their notices on a thread
/// of their own. Where those go, and from which pipe `ua agent` reads its commands, `rt` says. If
/// help or the version is asked for, it is written to `output`. A fault is written to `errors`
/// after `ua: `, and what is known about its cause on a line after it. A fault of the words is
/// written as `clap` says it. A failed write to `errors` is ignored.
pub fn ua<T: Threads + Host + Clock + Files + Net, S: AsStr, R: Read, W: Write, E: Write>(
    rt: &T,
    alloc: Global,
    words: &[S],
    input: &mut R,
    output: &mut W,
    errors: &mut E,
) -> u8
    ensures replays { IsTrue (asks_replay (map S.text words.now)) → result ≡ 0
        → IfSome (R.remaining input.old)
        (λ input. WritesAll (kind_asked (map S.text words.now))
        (W.contents output.old) (W.contents output.new)
        (replayed (kind_asked (map S.text words.now))
        (asks_repair (map S.text words.now)) input)) }
    ensures unwritten { IsTrue (asks_replay (map S.text words.now)) → result ≢ 0 → result ≢ 4
        → output.new ≡ output.old }
    ensures no_file { IsTrue (asks_replay (map S.text words.now)) → result ≡ 1
        → IfSome (R.remaining input.old)
        (λ input. (2 ^ 26 < length input) ⊎ IsNoFile (kind_asked (map S.text words.now))
        (replayed (kind_asked (map S.text words.now))
        (asks_repair (map S.text words.now)) input)) }
    ensures refused_round { IsTrue (asks_replay (map S.text words.now)) → result ≡ 3
        → IfSome (R.remaining input.old)
        (λ input. HasRefusedRound (kind_asked (map S.text words.now))
        (replayed (kind_asked (map S.text words.now))
        (asks_repair (map S.text words.now)) input)) }
    ensures only { IsTrue (asks_replay (map S.text words.now))
        → IfSome (R.remaining input.old)
        (λ input. length input ≤ 2 ^ 26 → IsFile (kind_asked (map S.text words.now))
        (replayed (kind_asked (map S.text words.now))
        (asks_repair (map S.text words.now)) input) → result ≢ 1) }
    ensures front { IsTrue (asks_replay (map S.text words.now)) → result ≡ 4
        → (output.new ≡ output.old) ⊎ IfSome (R.remaining input.old)
        (λ input. WritesFront (kind_asked (map S.text words.now))
        (W.contents output.old) (W.contents output.new)
        (replayed (kind_asked (map S.text words.now))
        (asks_repair (map S.text words.now)) input)) }
    ensures streams { IsTrue (asks_stream (map S.text words.now)) → result ≡ 0
        → IfSome (R.remaining input.old) (StreamsAll (kind_asked (map S.text words.now))
        (W.contents output.old) (W.contents output.new)) }
    ensures stream_front { IsTrue (asks_stream (map S.text words.now)) → result ≢ 0
        → (output.new ≡ output.old) ⊎ IfSome (R.remaining input.old)
        (StreamsFront (kind_asked (map S.text words.now))
        (W.contents output.old) (W.contents output.new)) }
    ensures stream_fault { IsTrue (asks_stream (map S.text words.now))
        → (result ≡ 1) ⊎ (result ≡ 3) → IfSome (R.remaining input.old)
        (TellsStatus (kind_asked (map S.text words.now)) result) }
    ensures stream_only { IsTrue (asks_stream (map S.text words.now))
        → IfSome (R.remaining input.old)
        (λ input. (config : Config) (rounds : List Round)
        → IsStream (kind_asked (map S.text words.now)) config rounds input → result ≢ 1) }
    ensures draws { IsFalse (asks_replay (map S.text words.now))
        → IsTrue (asks_ladder (map S.text words.now)) → result ≡ 0
        → IfSome (R.remaining input.old)
        (DrawsAll (kind_asked (map S.text words.now))
        (W.contents output.old) (W.contents output.new)) }
    ensures undrawn { IsFalse (asks_replay (map S.text words.now))
        → IsTrue (asks_ladder (map S.text words.now)) → result ≢ 0 → result ≢ 4
        → output.new ≡ output.old }
    ensures no_file_to_draw { IsFalse (asks_replay (map S.text words.now))
        → IsTrue (asks_ladder (map S.text words.now)) → result ≡ 1
        → IfSome (R.remaining input.old) (IsNoFile (kind_asked (map S.text words.now))) }
    ensures refused_to_draw { IsFalse (asks_replay (map S.text words.now))
        → IsTrue (asks_ladder (map S.text words.now)) → result ≡ 3
        → IfSome (R.remaining input.old) (HasRefusedRound (kind_asked (map S.text words.now))) }
    ensures unread { IsFalse (asks_replay (map S.text words.now))
        → IsFalse (asks_stream (map S.text words.now))
        → IsFalse (asks_ladder (map S.text words.now)) → input.new ≡ input.old }
    ensures helps { IsTrue (asks_help (map S.text words.now)) → result ≢ 0 → result ≢ 4
        → output.new ≡ output.old }
    ensures bad_words { result ≡ 2 → output.new ≡ output.old }
{
    let asked = command_asked(words);
    let (command, options) = match parse(alloc, words) {
        Ok(found) => found,
        Err(error) => {
            return match asked {
                Asked::Help => tell_help(&error, output, errors),
                _ => tell_words(&error, errors),
            };
        }
    };
    let kind = kind_asked(words);
    match asked {
        Asked::Replay => {
            let repairs = asks_repair(words);
            replay_input(rt, alloc, kind, repairs, &options, input, output, errors)
        }
        Asked::Stream => stream_input(rt, alloc, kind, &options, input, output, errors),
        Asked::Ladder => draw_input(rt, alloc, kind, input, output, errors),
        Asked::Help | Asked::Talk => talk_by(rt, alloc, command, &options, errors),
    }
}

// Replays the input, or only what is whole of it, and gives the status of the end.
fn replay_input<T: Threads + Sync, R: Read, W: Write, E: Write>(
    rt: &T,
    alloc: Global,
    kind: FileKind,
    repairs: bool,
    words: &ArgMatches,
    input: &mut R,
    output: &mut W,
    errors: &mut E,
) -> u8
    ensures replays { result ≡ 0 → IfSome (R.remaining input.old)
        (λ text. WritesAll kind (W.contents output.old) (W.contents output.new)
        (replayed kind repairs text)) }
    ensures unwritten { result ≢ 0 → result ≢ 4 → output.new ≡ output.old }
    ensures no_file { result ≡ 1 → IfSome (R.remaining input.old)
        (λ text. (2 ^ 26 < length text) ⊎ IsNoFile kind (replayed kind repairs text)) }
    ensures refused_round { result ≡ 3 → IfSome (R.remaining input.old)
        (λ text. HasRefusedRound kind (replayed kind repairs text)) }
    ensures only { IfSome (R.remaining input.old)
        (λ text. length text ≤ 2 ^ 26 → IsFile kind (replayed kind repairs text) → result ≢ 1) }
    ensures front { result ≡ 4 → (output.new ≡ output.old) ⊎ IfSome (R.remaining input.old)
        (λ text. WritesFront kind (W.contents output.old) (W.contents output.new)
        (replayed kind repairs text)) }
{
    let mut input = NotingRead::new(input);
    let end = replay_by(rt, alloc, kind, repairs, words, &mut input, output, errors);
    finish(end, input.cause, errors)
}

// Replays the input round by round, and gives the status of the end.
fn stream_input<T: Threads + Sync, R: Read, W: Write, E: Write>(
    rt: &T,
    alloc: Global,
    kind: FileKind,
    words: &ArgMatches,
    input: &mut R,
    output: &mut W,
    errors: &mut E,
) -> u8
    ensures streams { result ≡ 0 → IfSome (R.remaining input.old)
        (StreamsAll kind (W.contents output.old) (W.contents output.new)) }
    ensures front { result ≢ 0 → (output.new ≡ output.old) ⊎ IfSome (R.remaining input.old)
        (StreamsFront kind (W.contents output.old) (W.contents output.new)) }
    ensures fault { (result ≡ 1) ⊎ (result ≡ 3)
        → IfSome (R.remaining input.old) (TellsStatus kind result) }
    ensures only { IfSome (R.remaining input.old) (λ text. (config : Config) (rounds : List Round)
        → IsStream kind config rounds text → result ≢ 1) }
    ensures words { result ≢ 2 }
{
    let mut input = NotingRead::new(input);
    let Division {
        shards,
        workers,
        ..
    } = division(words);
    let cut = CutName::asked(words);
    let end = replay_streamed(
        rt, alloc, kind, &mut input, output, shards, workers, cut, &OpenGate,
    );
    finish(end, input.cause, errors)
}

// Draws the ladder of the input, and gives the status of the end.
fn draw_input<T: Threads + Sync, R: Read, W: Write, E: Write>(
    rt: &T,
    alloc: Global,
    kind: FileKind,
    input: &mut R,
    output: &mut W,
    errors: &mut E,
) -> u8
    ensures draws { result ≡ 0 → IfSome (R.remaining input.old)
        (DrawsAll kind (W.contents output.old) (W.contents output.new)) }
    ensures undrawn { result ≢ 0 → result ≢ 4 → output.new ≡ output.old }
    ensures no_file { result ≡ 1 → IfSome (R.remaining input.old) (IsNoFile kind) }
    ensures refused_round { result ≡ 3 → IfSome (R.remaining input.old) (HasRefusedRound kind) }
{
    let mut input = NotingRead::new(input);
    let end = ladder(rt, alloc, kind, &mut input, output, &OpenGate);
    finish(end, input.cause, errors)
}

// Replays the input, or only what is whole of it. It then says how many bytes are left out.
fn replay_by<T: Threads + Sync, R: Read, W: Write, E: Write>(
    rt: &T,
    alloc: Global,
    kind: FileKind,
    repairs: bool,
    words: &ArgMatches,
    input: &mut R,
    output: &mut W,
    errors: &mut E,
) -> Result<(), ReplayFault>
    ensures replays { OnOk result (IfSome (R.remaining input.old)
        (λ text. WritesAll kind (W.contents output.old) (W.contents output.new)
        (replayed kind repairs text))) }
    ensures fault { IfErr result
        (λ fault. IfSome (R.remaining input.old) (TellsRepair kind repairs fault)) }
    ensures unwritten { IfErr result
        (λ fault. fault ≢ replay_fault.Output → output.new ≡ output.old) }
    ensures front { result ≡ Err replay_fault.Output
        → IfSome (R.remaining input.old)
        (λ text. WritesFront kind (W.contents output.old) (W.contents output.new)
        (replayed kind repairs text)) }
{
    let Division {
        shards,
        workers,
        ..
    } = division(words);
    let cut = CutName::asked(words);
    if !repairs {
        return replay(
            rt, alloc, kind, input, output, shards, workers, cut, &OpenGate,
        );
    }
    let text = read_all(alloc, input)?;
    let mut front = whole(kind, text.as_slice());
    tell_left_out(text.len().saturating_sub(front.len()), errors);
    replay(
        rt, alloc, kind, &mut front, output, shards, workers, cut, &OpenGate,
    )
}

// Tells how many bytes at the end a repair leaves out, where there are some.
fn tell_left_out<E: Write>(left_out: usize, errors: &mut E) {
    if left_out > 0 {
        let _ = writeln!(errors, "ua: {left_out} bytes at the end left out");
    }
}
