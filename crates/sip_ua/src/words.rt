//! What the words of the command line ask for.

ghost use Rattle.std.specs.Prelude.{◌≡◌, IsTrue, map};
ghost use Rattle.std.specs.List.{list_any};
ghost use Rattle.std.specs.Str.{bytes_eq};
ghost use Rattle.sip_ua.specs.Words as spec;
ghost use Rattle.sip_ua.specs.declared.words.Asked.TheVariants as asked;

use sip_files::FileKind;
use std::convert::AsStr;
use std::rt::Env;
use std::{env, io};

/// What is asked for.
#[derive(Clone, Copy)]
pub(crate) enum Asked {
    /// Help, or the version.
    Help,
    /// A replay of a whole file.
    Replay,
    /// A replay round by round.
    Stream,
    /// A ladder.
    Ladder,
    /// To listen, to call, to do what a pipe says, or to compact a journal.
    Talk,
}

/// The words of the command line, without the program's own name.
///
/// # Errors
///
/// A word isn't UTF-8, or memory ran out.
pub fn given_words<R: Env + AllocGlobal>(rt: &R) -> io::Result<Vec<String>> {
    let words = env::args(rt)?.skip(1).collect(rt.alloc())?;
    Ok(words)
}

/// What the words ask for, if they are right.
pub(crate) fn command_asked<S: AsStr>(words: &[S]) -> Asked
    ensures help { IsTrue (spec.asks_help (map S.text words.now)) → result ≡ asked.Help }
    ensures replay { IsTrue (spec.asks_replay (map S.text words.now)) → result ≡ asked.Replay }
    ensures stream { IsTrue (spec.asks_stream (map S.text words.now)) → result ≡ asked.Stream }
    ensures ladder { IsTrue (spec.asks_ladder (map S.text words.now)) → result ≡ asked.Ladder }
    ensures replays { result ≡ asked.Replay → IsTrue (spec.asks_replay (map S.text words.now)) }
    ensures streams { result ≡ asked.Stream → IsTrue (spec.asks_stream (map S.text words.now)) }
    ensures draws { result ≡ asked.Ladder → IsTrue (spec.asks_ladder (map S.text words.now)) }
{
    if asks_help(words) {
        Asked::Help
    } else if asks_command(words, "ladder") {
        Asked::Ladder
    } else if !asks_command(words, "replay") {
        Asked::Talk
    } else if has_word(words, "--streamed") {
        Asked::Stream
    } else {
        Asked::Replay
    }
}

fn asks_help<S: AsStr>(words: &[S]) -> bool
    ensures { result ≡ spec.asks_help (map S.text words.now) }
{
    asks_command(words, "help")
        || has_word(words, "--help")
        || has_word(words, "-h")
        || has_word(words, "--version")
        || has_word(words, "-V")
}

// Whether the first word is the name of this command.
fn asks_command<S: AsStr>(words: &[S], name: &str) -> bool
    ensures { result ≡ spec.asks_command name.now (map S.text words.now) }
{
    match words.first() {
        Some(word) => word.as_str() == name,
        None => false,
    }
}

/// Whether only the whole lines of the input are replayed.
pub(crate) fn asks_repair<S: AsStr>(words: &[S]) -> bool
    ensures { result ≡ spec.asks_repair (map S.text words.now) }
{
    has_word(words, "--repair")
}

/// The kind of file that is asked for: a session if one of the words is its option.
pub(crate) fn kind_asked<S: AsStr>(words: &[S]) -> FileKind
    ensures { result ≡ spec.kind_asked (map S.text words.now) }
{
    if has_word(words, "--session") {
        FileKind::Session
    } else {
        FileKind::Events
    }
}

// Whether one of the words is this one.
fn has_word<S: AsStr>(words: &[S], wanted: &str) -> bool
    ensures { result ≡ spec.has_word wanted.now (map S.text words.now) }
{
    any_is(words, wanted)
}

fn any_is<S: AsStr>(words: &[S], wanted: &str) -> bool
    ensures { result ≡ list_any (λ word. bytes_eq (S.text word) wanted.now) words.now }
{
    words.iter().any(|word| word.as_str() == wanted)
}
