//! How far the lines of a file were read: a draft, and the header lines that wait for their
//! command.

ghost use Rattle.std.specs.Prelude.{◌≡◌, IfOk};
ghost use Rattle.sip_files.specs.Steps.Drafting as drafting;

use crate::draft::{Draft, with_line};
use crate::event_line::EventLine;
use crate::given_header::GivenHeader;
use crate::given_headers::{may_go_on, with_headers};
use sip_text::Series;
use std::alloc::{AllocError, Global};

/// What the lines read so far say.
#[derive(Drop)]
pub(crate) struct Progress {
    pub draft: Draft,
    /// What the header lines say that wait for the next other line.
    pub headers: Series<GivenHeader>,
}

impl Progress {
    /// Before the first line.
    pub(crate) fn new(alloc: Global) -> Progress
        ensures { result ≡ drafting.no_lines }
    {
        Progress {
            draft: Draft::new(alloc),
            headers: Series::new(alloc),
        }
    }

    /// Whether the lines may be all of a file.
    pub(crate) fn is_whole(&self) -> bool
        ensures { result ≡ drafting.is_whole self.now }
    {
        self.draft.stage.is_begun() && self.headers.is_empty()
    }
}

/// The progress with the next line, if that may stand there.
pub(crate) fn with_next(
    alloc: Global,
    progress: Progress,
    line: EventLine,
) -> Result<Option<Progress>, AllocError>
    ensures { IfOk result (λ next. next ≡ drafting.went progress line) }
{
    match line {
        EventLine::Header(header) => with_header(alloc, progress, header),
        line => with_whole(alloc, progress, line),
    }
}

// Header lines may stand only in rounds, and only where a command may follow them.
fn with_header(
    alloc: Global,
    mut progress: Progress,
    header: GivenHeader,
) -> Result<Option<Progress>, AllocError>
    ensures { IfOk result (λ next. next ≡ drafting.header_went progress header) }
{
    match progress.draft.rounds.as_slice() {
        [] => Ok(None),
        [_, ..] => {
            progress.headers.push(header)?;
            if may_go_on(alloc, &progress.headers)? {
                Ok(Some(progress))
            } else {
                Ok(None)
            }
        }
    }
}

// A line of another kind, with the header lines before it.
fn with_whole(
    alloc: Global,
    progress: Progress,
    line: EventLine,
) -> Result<Option<Progress>, AllocError>
    ensures { IfOk result (λ next. next ≡ drafting.line_went progress line) }
{
    let Progress { draft, headers } = progress;
    let Some(line) = with_headers(alloc, headers, line)? else {
        return Ok(None);
    };
    let Some(draft) = with_line(draft, line)? else {
        return Ok(None);
    };
    Ok(Some(Progress {
        draft,
        headers: Series::new(alloc),
    }))
}
