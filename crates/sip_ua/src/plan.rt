//! What `ua listen`, `ua call` and `ua agent` are to do, by their options.

use crate::address::{address_of, call_id_of, uri_of};
use crate::failure::Failure;
use crate::host::{Access, Journals, open};
use crate::options::{number_of, text_of};
use clap::ArgMatches;
use sip_message::Uri;
use sip_text::Text;
use sip_udp::{AnswerBody, CallPlan, ListenPlan, UaFault};
use std::alloc::Global;
use std::io::{self, Read};

/// The usual status of an answer.
const SUCCESS: u16 = 200;

/// What a command is to do.
#[derive(Drop)]
pub(crate) enum Plan {
    Listen(ListenPlan),
    Call(CallPlan),
    /// What a pipe says. After its end it lingers so many ms.
    Agent(u32),
}

/// The plan of this command.
pub(crate) fn plan_of<T: Journals>(
    rt: &T,
    alloc: Global,
    command: &str,
    options: &ArgMatches,
) -> Result<Plan, Failure> {
    match command {
        "listen" => listen_plan(rt, alloc, options),
        "call" => call_plan(rt, alloc, options),
        _ => Ok(Plan::Agent(number_of(options, "linger"))),
    }
}

fn listen_plan<T: Journals>(rt: &T, alloc: Global, options: &ArgMatches) -> Result<Plan, Failure> {
    let status = options.get_one::<u16>("answer").unwrap_or(SUCCESS);
    let contact = contact_of(alloc, status, options)?;
    Ok(Plan::Listen(ListenPlan {
        ring: options.get_one::<u32>("ring"),
        reliable: options.get_flag("reliable"),
        status,
        body: answer_body(rt, alloc, options)?,
        contact,
        must_answer: number_of(options, "must-answer"),
    }))
}

// Where an answer with this status sends its caller. Such an answer alone has a Contact.
fn contact_of(alloc: Global, status: u16, options: &ArgMatches) -> Result<Option<Uri>, Failure> {
    let moves = (300..=399).contains(&status);
    if let Some(word) = options.get_str("contact") {
        if !moves {
            return Err(Failure::of_word("contact", "only with --answer 300 to 399"));
        }
        return Ok(Some(uri_of(alloc, "contact", word)?));
    }
    if moves {
        return Err(Failure::of_answer("3xx", "needs --contact"));
    }
    for (lacking, name, wanted) in LACKING {
        if *lacking == status {
            return Err(Failure::of_answer(name, wanted));
        }
    }
    Ok(None)
}

/// The statuses whose responses must have a header that this one lacks, with what is said then (RFC
/// 3261, section 21; RFC 3329, section 2; RFC 4028, section 6).
const LACKING: &[(u16, &str, &str)] = &[
    (
        401,
        "401",
        "needs WWW-Authenticate, which this command doesn't send",
    ),
    (405, "405", "needs Allow, which this command doesn't send"),
    (
        407,
        "407",
        "needs Proxy-Authenticate, which this command doesn't send",
    ),
    (
        420,
        "420",
        "needs Unsupported, which this command doesn't send",
    ),
    (421, "421", "needs Require, which this command doesn't send"),
    (422, "422", "needs Min-SE, which this command doesn't send"),
    (
        423,
        "423",
        "needs Min-Expires, which this command doesn't send",
    ),
    (
        494,
        "494",
        "needs Security-Server, which this command doesn't send",
    ),
];

fn answer_body<T: Journals>(
    rt: &T,
    alloc: Global,
    options: &ArgMatches,
) -> Result<AnswerBody, Failure> {
    if options.get_flag("no-body") {
        Ok(AnswerBody::Nothing)
    } else if options.contains_id("body") {
        Ok(AnswerBody::Given(body_of(rt, alloc, options)?))
    } else {
        Ok(AnswerBody::Inactive)
    }
}

fn call_plan<T: Journals>(rt: &T, alloc: Global, options: &ArgMatches) -> Result<Plan, Failure> {
    let to = address_of(alloc, "to", text_of(options, "to"))?;
    let uri = uri_of(alloc, "uri", text_of(options, "uri"))?;
    let call_id = call_id_of(alloc, options)?;
    let has_length = options.contains_id("turns") || options.contains_id("seconds");
    Ok(Plan::Call(CallPlan {
        to,
        uri,
        call_id,
        body: body_of(rt, alloc, options)?,
        is_reliable: options.get_flag("reliable"),
        hold: options.get_one::<u32>("hold"),
        // Without a length it leaves as soon as nothing is held.
        leaves: options.get_flag("leave") || !has_length,
        must_answer: options.get_flag("must-answer"),
    }))
}

// The text of the file of `--body`, if one is named; otherwise no text.
fn body_of<T: Journals>(rt: &T, alloc: Global, options: &ArgMatches) -> Result<Text, Failure> {
    let Some(path) = options.get_str("body") else {
        return Ok(Text::from_vec(Vec::new(alloc)));
    };
    match read(rt, alloc, path) {
        Ok(bytes) => Ok(Text::from_vec(bytes)),
        Err(error) => Err(Failure::of_file(UaFault::Input, "body", error)),
    }
}

fn read<T: Journals>(rt: &T, alloc: Global, path: &str) -> io::Result<Vec<u8>> {
    let mut bytes = Vec::new(alloc);
    open(rt, path, Access::Read)?.read_to_end(&mut bytes)?;
    Ok(bytes)
}
