//! What is wrong with a line of the pipe that isn't a command.

use sip_files::{FileKind, read_command_line};
use sip_text::cut;
use std::alloc::{AllocError, Global};

/// What is wrong with a line, taken by itself.
#[derive(Clone, Copy)]
pub(crate) struct Wrong {
    /// The number of the first word, from 1, with which the line can't become a command. It may be
    /// the one that is missing at the end. None if it is the line that is wrong.
    pub word: Option<u64>,
    /// What has to stand there, or what is wrong with the line.
    pub what: &'static str,
}

/// A field of a command: its name, and a text in its form.
struct Field(&'static str, &'static str);

const CALL_ID: Field = Field("a Call-ID", "c");

const ADDRESS: Field = Field("an address, as 192.0.2.9:5060", "192.0.2.9:5060");

const METHOD: Field = Field("a method", "INFO");

const REQUEST_URI: Field = Field("a Request-URI", "sip:a@b");

const FROM_URI: Field = Field("the URI of From", "sip:a@b");

const TO_URI: Field = Field("the URI of To", "sip:a@b");

const SUPPORT: Field = Field("none, supported or required", "none");

const LOCAL_TAG: Field = Field("the local tag, or -", "-");

const REMOTE_TAG: Field = Field("the remote tag, or -", "-");

const REQUEST_ID: Field = Field("the id of a request, as 0.1", "0.1");

const STATUS: Field = Field("a status up to 999", "200");

const RELIABILITY: Field = Field("plain or reliable", "plain");

const BODY: Field = Field("a body, or -", "-");

const REASON: Field = Field("a reason", "OK");

/// The line of a command: its first word, and the fields behind it.
struct Form {
    keyword: &'static [u8],
    fields: &'static [Field],
    /// Whether the last field goes on to the end of the line.
    has_rest: bool,
}

const WORDS_ALONE: Form = Form {
    keyword: b"",
    fields: &[],
    has_rest: false,
};

const FORMS: &[Form] = &[
    Form {
        keyword: b"invite",
        fields: &[
            CALL_ID,
            ADDRESS,
            REQUEST_URI,
            FROM_URI,
            TO_URI,
            SUPPORT,
            BODY,
        ],
        ..WORDS_ALONE
    },
    Form {
        keyword: b"plain",
        fields: &[
            CALL_ID,
            ADDRESS,
            METHOD,
            REQUEST_URI,
            FROM_URI,
            TO_URI,
            BODY,
        ],
        ..WORDS_ALONE
    },
    Form {
        keyword: b"request",
        fields: &[CALL_ID, LOCAL_TAG, REMOTE_TAG, METHOD, BODY],
        ..WORDS_ALONE
    },
    Form {
        keyword: b"respond",
        fields: &[CALL_ID, REQUEST_ID, STATUS, RELIABILITY, BODY, REASON],
        has_rest: true,
    },
    Form {
        keyword: b"ack",
        fields: &[CALL_ID, LOCAL_TAG, REMOTE_TAG, BODY],
        ..WORDS_ALONE
    },
    Form {
        keyword: b"prack",
        fields: &[CALL_ID, LOCAL_TAG, REMOTE_TAG, BODY],
        ..WORDS_ALONE
    },
    Form {
        keyword: b"cancel",
        fields: &[CALL_ID, REQUEST_ID],
        ..WORDS_ALONE
    },
];

/// The forms of `abandon`, which stands only in a session.
const ABANDON_REQUEST: &Form = &Form {
    keyword: b"abandon",
    fields: &[CALL_ID, REQUEST_ID],
    ..WORDS_ALONE
};

const ABANDON_DIALOG: &Form = &Form {
    keyword: b"abandon",
    fields: &[CALL_ID, LOCAL_TAG, REMOTE_TAG],
    ..WORDS_ALONE
};

/// The words with which a line may begin, with or without header lines.
const COMMANDS: &str = "invite, plain, request, respond, ack, prack or cancel";

const COMMANDS_OF_A_SESSION: &str =
    "invite, plain, request, respond, ack, prack, cancel or abandon";

/// How many words stand after `abandon` if it names a dialog: the Call-ID and both tags.
const WORDS_OF_A_DIALOG: usize = 3;

/// What is wrong with a line that isn't a command's in a file of this kind. The line stands without
/// its end.
///
/// # Errors
///
/// Memory ran out.
pub(crate) fn wrong_word(alloc: Global, kind: FileKind, line: &[u8]) -> Result<Wrong, AllocError> {
    let (keyword, mut left) = first_word(line);
    let Some(form) = form_of(kind, keyword, line) else {
        return Ok(Wrong {
            word: Some(1),
            what: match kind {
                FileKind::Events => COMMANDS,
                FileKind::Session => COMMANDS_OF_A_SESSION,
            },
        });
    };
    let mut text = Vec::from_slice(alloc, keyword)?;
    let mut number = 1u64;
    for (index, field) in form.fields.iter().enumerate() {
        number = number.saturating_add(1);
        let Field(what, _) = field;
        let wrong = Wrong {
            word: Some(number),
            what,
        };
        let Some(rest) = left else {
            return Ok(wrong);
        };
        let behind = &form.fields[index + 1..];
        let (word, after) = if behind.is_empty() && form.has_rest {
            (rest, None)
        } else {
            first_word(rest)
        };
        text.push(b' ')?;
        text.extend_from_slice(word)?;
        if !goes_on(alloc, kind, &text, behind)? {
            return Ok(wrong);
        }
        left = after;
    }
    Ok(Wrong {
        word: Some(number.saturating_add(1)),
        what: "the end of the line",
    })
}

// The first word of a text, and what stands behind the space after that word.
fn first_word(text: &[u8]) -> (&[u8], Option<&[u8]>) {
    match cut(b' ', text) {
        Some((word, rest)) => (word, Some(rest)),
        None => (text, None),
    }
}

// The form of the line of the command with this name, if there is such a command. `abandon` names a
// dialog if it has four words, otherwise a request.
fn form_of(kind: FileKind, keyword: &[u8], line: &[u8]) -> Option<&'static Form> {
    if let (FileKind::Session, true) = (kind, keyword == ABANDON_DIALOG.keyword) {
        let spaces = line.iter().filter(|byte| **byte == b' ').count();
        return Some(if spaces < WORDS_OF_A_DIALOG {
            ABANDON_REQUEST
        } else {
            ABANDON_DIALOG
        });
    }
    FORMS.iter().find(|form| form.keyword == keyword)
}

// Whether this text, with these fields behind it, is a command.
fn goes_on(
    alloc: Global,
    kind: FileKind,
    text: &[u8],
    fields: &[Field],
) -> Result<bool, AllocError> {
    let mut line = Vec::from_slice(alloc, text)?;
    for Field(_, sample) in fields {
        line.push(b' ')?;
        line.extend_from_slice(sample.as_bytes())?;
    }
    Ok(read_command_line(alloc, kind, &line)?.is_some())
}
