//! The pipe: commands that a user writes, one on each line, and their header lines. They are read
//! on a thread of their own, and posted.

ghost use Rattle.std.specs.Prelude.{◌≡◌, true, false, IfOk, IfSome};
ghost use Rattle.sip_desk.specs.Lines.{posted, Pushes};
ghost use Rattle.sip_udp.specs.LineEnd.{without_last};
ghost use Rattle.sip_udp.specs.Piping.{PostsAll, PostsFront, Says, SaysRead, is_comment, is_for_header, line_of};

use crate::fault::UaFault;
use crate::line_end::without;
use crate::listener::Flags;
use crate::wrong_word::{Wrong, wrong_word};
use sip_desk::Poster;
use sip_files::{FileKind, GivenHeader, read_command_line, read_header_line};
use sip_user::UserCommand;
use std::alloc::{AllocError, Global};
use std::io::BufRead;
use std::sync::Arc;
use std::sync::atomic::{AtomicBool, Ordering};
use std::thread;

/// The longest line that is looked at, in bytes without its end. Comments may be longer.
const MAX_LINE: usize = 1 << 20;

const TOO_LONG: Wrong = Wrong {
    word: None,
    what: "longer than 1048576 bytes",
};

const NO_HEADER: Wrong = Wrong {
    word: None,
    what: "expected a header line of a user",
};

/// A line of the pipe.
#[derive(Drop)]
pub(crate) struct PipeLine {
    /// The number of the line, from 1.
    pub number: u64,
    pub said: Said,
    /// What is wrong with it, if it has no part in a command.
    pub wrong: Option<Wrong>,
}

/// What a line of the pipe says.
#[derive(Drop)]
pub(crate) enum Said {
    /// It is empty or begins with `#`.
    Comment,
    /// A command in the form of an event file.
    Command(UserCommand),
    /// It isn't a command.
    NoCommand,
    /// A header of the command that follows, in the form of a session file.
    Header(GivenHeader),
    /// It begins like a header line, but isn't one.
    NoHeader,
    /// It has more bytes than a line may have.
    TooLong,
}

/// Posts what each line of the input says, and waits while there is no room, until the input ends
/// or it is told to stop. Answers whether the input ended. Header lines are taken if the kind of
/// file whose lines these are has them.
///
/// # Errors
///
/// A read failed, or memory ran out.
pub(crate) fn feed<I: BufRead + Drop>(
    alloc: Global,
    kind: FileKind,
    mut input: I,
    line: &mut Poster<PipeLine>,
    flags: Arc<Flags>,
) -> Result<bool, UaFault>
    ensures front { IfSome (I.remaining input)
        (PostsFront kind (posted line.old) (posted line.new)) }
    ensures all { IfOk result (λ has_ended. has_ended ≡ true
        → IfSome (I.remaining input) (PostsAll kind (posted line.old) (posted line.new))) }
{
    let end = post_lines(alloc, kind, &mut input, line, &flags);
    flags.end();
    end
}

fn post_lines<I: BufRead>(
    alloc: Global,
    kind: FileKind,
    input: &mut I,
    line: &mut Poster<PipeLine>,
    flags: &Flags,
) -> Result<bool, UaFault>
    ensures front { IfSome (I.remaining input.old)
        (PostsFront kind (posted line.old) (posted line.new)) }
    ensures all { IfOk result (λ has_ended. has_ended ≡ true
        → IfSome (I.remaining input.old) (PostsAll kind (posted line.old) (posted line.new))) }
{
    for number in 1..u64::MAX {
        let mut text = Vec::new(alloc);
        match input.read_until(b'\n', &mut text) {
            Ok(0) => return Ok(true),
            Ok(_) => {}
            Err(_) => return Err(UaFault::Input),
        }
        let said = said_by(alloc, kind, number, &text)?;
        if !post_in_time(line, said, &flags.stop) {
            break;
        }
        flags.ring();
    }
    Ok(false)
}

// The line with this number and this text, which has its end.
fn said_by(alloc: Global, kind: FileKind, number: u64, text: &[u8]) -> Result<PipeLine, AllocError>
    ensures { IfOk result (SaysRead kind number text.now) }
{
    let line = without_end(text);
    let said = line_says(alloc, kind, line)?;
    let wrong = match &said {
        Said::NoCommand => Some(wrong_word(alloc, kind, line)?),
        Said::NoHeader => Some(NO_HEADER),
        Said::TooLong => Some(TOO_LONG),
        _ => None,
    };
    Ok(PipeLine {
        number,
        said,
        wrong,
    })
}

// A line without its end, LF or CR LF. The last line may have none.
fn without_end(text: &[u8]) -> &[u8]
    ensures { result.now ≡ line_of text.now }
{
    without(b'\r', without(b'\n', text))
}

fn line_says(alloc: Global, kind: FileKind, line: &[u8]) -> Result<Said, AllocError>
    ensures { IfOk result (Says kind line.now) }
{
    if is_comment(line) {
        return Ok(Said::Comment);
    }
    if line.len() > MAX_LINE {
        return Ok(Said::TooLong);
    }
    if is_for_header(kind, line) {
        return Ok(match read_header_line(alloc, line)? {
            Some(header) => Said::Header(header),
            None => Said::NoHeader,
        });
    }
    Ok(match read_command_line(alloc, kind, line)? {
        Some(command) => Said::Command(command),
        None => Said::NoCommand,
    })
}

// Whether the line is empty or begins with `#`.
fn is_comment(line: &[u8]) -> bool
    ensures { result ≡ is_comment line.now }
{
    match line {
        [] => true,
        [first, ..] => *first == b'#',
    }
}

// In a kind of file with header lines, these begin with a space, and no command does.
fn is_for_header(kind: FileKind, line: &[u8]) -> bool
    ensures { result ≡ is_for_header kind line.now }
{
    match kind {
        FileKind::Events => false,
        FileKind::Session => match line {
            [] => false,
            [first, ..] => *first == b' ',
        },
    }
}

// Posts the line as soon as there is room, unless it is told to stop.
fn post_in_time(line: &mut Poster<PipeLine>, said: PipeLine, stop: &AtomicBool) -> bool
    ensures posted { result ≡ true → Pushes line.old line.new said }
    ensures unposted { result ≡ false → posted line.new ≡ posted line.old }
{
    let mut said = said;
    for _ in 0..u64::MAX {
        match line.post(said) {
            Ok(()) => return true,
            Err(back) => said = back,
        }
        if stop.load(Ordering::SeqCst) {
            break;
        }
        thread::yield_now();
    }
    false
}
