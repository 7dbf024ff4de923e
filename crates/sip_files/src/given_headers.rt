//! The header lines before the line of a command, put into its content.

ghost use Rattle.std.specs.Prelude.{◌≡◌, [], IfOk, OnOk};
ghost use Rattle.std.specs.List.{list_any};
ghost use Rattle.sip_message.specs.Wildcard.{has_wildcard_uri};
ghost use Rattle.sip_files.specs.Given as given;
ghost use Rattle.sip_files.specs.Steps.Drafting as drafting;

use crate::event_line::EventLine;
use crate::given_header::GivenHeader;
use crate::unregister::{contacts_fit, has_wildcard_uri, may_unregister};
use sip_message::{Content, ContentHeaders, Header, NameAddr, Token};
use sip_round::Event;
use sip_text::Series;
use sip_user::{DialogBody, DialogRequest, Invite, Plain, Respond, UserCommand};
use std::alloc::{AllocError, Global};

/// What header lines say, by header: for each, all values in the order of the lines.
#[derive(Drop)]
pub struct GivenHeaders {
    pub contacts: Series<NameAddr>,
    pub routes: Series<NameAddr>,
    pub supported: Series<Token>,
    pub require: Series<Token>,
    pub others: Series<Header>,
}

impl GivenHeaders {
    fn new(alloc: Global) -> GivenHeaders
        ensures { result ≡ given.gathered [] }
    {
        GivenHeaders {
            contacts: Series::new(alloc),
            routes: Series::new(alloc),
            supported: Series::new(alloc),
            require: Series::new(alloc),
            others: Series::new(alloc),
        }
    }

    // Adds what one more line says.
    fn add(&mut self, header: GivenHeader) -> Result<(), AllocError>
        ensures { OnOk result (self.new ≡ given.with_one self.old header) }
    {
        match header {
            GivenHeader::Contact(more) => self.contacts.append(more),
            GivenHeader::Route(more) => self.routes.append(more),
            GivenHeader::Supported(more) => self.supported.append(more),
            GivenHeader::Require(more) => self.require.append(more),
            GivenHeader::Other(header) => self.others.push(header),
        }
    }

    // Puts them into a content without headers, and gives the routes, which aren't part of a
    // content.
    fn put_into(self, alloc: Global, content: &mut Content) -> Result<Series<NameAddr>, AllocError>
        ensures content { OnOk result (content.new ≡ given.content_with self content.old.body) }
        ensures routes { IfOk result (λ routes. routes ≡ self.routes) }
    {
        let GivenHeaders {
            contacts,
            routes,
            supported,
            require,
            others,
        } = self;
        let headers = ContentHeaders {
            contacts,
            supported,
            require,
            others,
        };
        content.set_headers(alloc, headers)?;
        Ok(routes)
    }
}

/// What a line says, together with the header lines before it, if they may stand there.
pub(crate) fn with_headers(
    alloc: Global,
    headers: Series<GivenHeader>,
    line: EventLine,
) -> Result<Option<EventLine>, AllocError>
    ensures { IfOk result (λ made. made ≡ given.with_headers headers line) }
{
    if headers.is_empty() {
        return Ok(Some(line));
    }
    match line {
        EventLine::Event(Event::Command(command)) => {
            let Some(command) = with_given(alloc, headers, command)? else {
                return Ok(None);
            };
            Ok(Some(EventLine::Event(Event::Command(command))))
        }
        _ => Ok(None),
    }
}

/// A command whose content has only a body, with the headers that stood before its line, in order,
/// if it takes them: `cancel` takes none, only `invite` and `plain` take a route, and only a
/// REGISTER that expires at once takes the Contact `*`.
///
/// # Errors
///
/// Memory ran out.
pub fn with_given(
    alloc: Global,
    headers: Series<GivenHeader>,
    command: UserCommand,
) -> Result<Option<UserCommand>, AllocError>
    ensures { IfOk result (λ made. made ≡ given.with_given headers command) }
{
    if headers.is_empty() {
        return Ok(Some(command));
    }
    let headers = gathered(alloc, headers)?;
    if !contacts_fit(&headers, &command) {
        return Ok(None);
    }
    command_with(alloc, headers, command)
}

/// Whether a command may follow these header lines, maybe after more of them: the Contact `*` stands
/// alone, with no Expires yet, or one, which is 0.
///
/// # Errors
///
/// Memory ran out. Without a `*` none is taken.
pub(crate) fn may_go_on(alloc: Global, headers: &Series<GivenHeader>) -> Result<bool, AllocError>
    ensures { IfOk result (λ may. may ≡ drafting.may_go_on (given.gathered headers.now)) }
{
    if !has_wildcard_line(headers.as_slice()) {
        return Ok(true);
    }
    let headers = gathered_copy(alloc, headers)?;
    Ok(may_unregister(&headers))
}

fn gathered_copy(alloc: Global, headers: &Series<GivenHeader>) -> Result<GivenHeaders, AllocError>
    ensures { IfOk result (λ all. all ≡ given.gathered headers.now) }
{
    gathered(alloc, headers.clone()?)
}

fn has_wildcard_line(headers: &[GivenHeader]) -> bool
    ensures { result ≡ list_any (λ header. list_any has_wildcard_uri (given.contacts_in header))
        headers.now }
{
    headers.iter().any(has_wildcard)
}

fn has_wildcard(header: &GivenHeader) -> bool
    ensures { result ≡ list_any has_wildcard_uri (given.contacts_in header.now) }
{
    match header {
        GivenHeader::Contact(contacts) => has_wildcard_uri(contacts.as_slice()),
        _ => false,
    }
}

fn gathered(alloc: Global, headers: Series<GivenHeader>) -> Result<GivenHeaders, AllocError>
    ensures { IfOk result (λ all. all ≡ given.gathered headers) }
{
    let mut all = GivenHeaders::new(alloc);
    for header in headers.into_vec() {
        all.add(header)?;
    }
    Ok(all)
}

fn command_with(
    alloc: Global,
    headers: GivenHeaders,
    command: UserCommand,
) -> Result<Option<UserCommand>, AllocError>
    ensures { IfOk result (λ made. made ≡ given.command_with headers command) }
{
    match command {
        UserCommand::Invite(invite) => {
            let invite = invite_with(alloc, headers, invite)?;
            Ok(Some(UserCommand::Invite(invite)))
        }
        UserCommand::Plain(plain) => {
            let plain = plain_with(alloc, headers, plain)?;
            Ok(Some(UserCommand::Plain(plain)))
        }
        UserCommand::Request(request) => {
            let request = request_with(alloc, headers, request)?;
            Ok(request.map(UserCommand::Request))
        }
        UserCommand::Respond(respond) => {
            let respond = respond_with(alloc, headers, respond)?;
            Ok(respond.map(UserCommand::Respond))
        }
        UserCommand::Ack(ack) => Ok(body_with(alloc, headers, ack)?.map(UserCommand::Ack)),
        UserCommand::Prack(prack) => Ok(body_with(alloc, headers, prack)?.map(UserCommand::Prack)),
        UserCommand::Cancel(_) | UserCommand::AbandonRequest(_) | UserCommand::AbandonDialog(_) =>
            Ok(None),
    }
}

fn invite_with(
    alloc: Global,
    headers: GivenHeaders,
    mut invite: Invite,
) -> Result<Invite, AllocError>
    ensures { IfOk result (λ made. made ≡ given.invite_with headers invite) }
{
    invite.routes = headers.put_into(alloc, &mut invite.content)?;
    Ok(invite)
}

fn plain_with(alloc: Global, headers: GivenHeaders, mut plain: Plain) -> Result<Plain, AllocError>
    ensures { IfOk result (λ made. made ≡ given.plain_with headers plain) }
{
    plain.routes = headers.put_into(alloc, &mut plain.content)?;
    Ok(plain)
}

fn request_with(
    alloc: Global,
    headers: GivenHeaders,
    mut request: DialogRequest,
) -> Result<Option<DialogRequest>, AllocError>
    ensures { IfOk result (λ made. made ≡ given.request_with headers request) }
{
    let routes = headers.put_into(alloc, &mut request.content)?;
    Ok(unrouted(routes, request))
}

fn respond_with(
    alloc: Global,
    headers: GivenHeaders,
    mut respond: Respond,
) -> Result<Option<Respond>, AllocError>
    ensures { IfOk result (λ made. made ≡ given.respond_with headers respond) }
{
    let routes = headers.put_into(alloc, &mut respond.content)?;
    Ok(unrouted(routes, respond))
}

fn body_with(
    alloc: Global,
    headers: GivenHeaders,
    mut body: DialogBody,
) -> Result<Option<DialogBody>, AllocError>
    ensures { IfOk result (λ made. made ≡ given.body_with headers body) }
{
    let routes = headers.put_into(alloc, &mut body.content)?;
    Ok(unrouted(routes, body))
}

// The command, if there is no route.
fn unrouted<T: Drop>(routes: Series<NameAddr>, asked: T) -> Option<T>
    ensures { result ≡ given.unrouted routes asked }
{
    match routes.as_slice() {
        [] => Some(asked),
        [_, ..] => None,
    }
}
