//! The Contact `*`, by which a user unregisters (RFC 3261, section 10.2.2).

ghost use Rattle.std.specs.Prelude.{◌≡◌, count_by};
ghost use Rattle.std.specs.List.{list_any};
ghost use Rattle.sip_message.specs.Wildcard as wildcard;
ghost use Rattle.sip_files.specs.Steps.Drafting as drafting;
ghost use Rattle.sip_files.specs.Unregister as unregister;

use crate::given_headers::GivenHeaders;
use sip_message::{Header, NameAddr};
use sip_text::{number_u32, token_eq};
use sip_user::UserCommand;

/// Whether the Contacts may stand before the command: a `*` only alone, in a REGISTER with one
/// Expires, which is 0.
pub(crate) fn contacts_fit(headers: &GivenHeaders, command: &UserCommand) -> bool
    ensures { result ≡ unregister.contacts_fit headers.now command.now }
{
    if !has_wildcard_uri(headers.contacts.as_slice()) {
        return true;
    }
    is_register(command)
        && is_only_wildcard(headers.contacts.as_slice())
        && expires_at_once(headers.others.as_slice())
}

/// Whether one of them has the URI `*`.
pub(crate) fn has_wildcard_uri(contacts: &[NameAddr]) -> bool
    ensures { result ≡ list_any wildcard.has_wildcard_uri contacts.now }
{
    contacts.iter().any(NameAddr::has_wildcard_uri)
}

fn is_register(command: &UserCommand) -> bool
    ensures { result ≡ unregister.is_register command.now }
{
    match command {
        UserCommand::Plain(plain) => plain.method.as_slice() == b"REGISTER".as_slice(),
        _ => false,
    }
}

fn is_only_wildcard(contacts: &[NameAddr]) -> bool
    ensures { result ≡ unregister.is_only_wildcard contacts.now }
{
    match contacts {
        [contact] => contact.is_wildcard(),
        _ => false,
    }
}

/// Whether `*` is the only Contact, and there is no Expires yet, or one, which is 0.
pub(crate) fn may_unregister(headers: &GivenHeaders) -> bool
    ensures { result ≡ drafting.may_unregister headers.now }
{
    let others = headers.others.as_slice();
    is_only_wildcard(headers.contacts.as_slice())
        && (count_expires(others) == 0 || expires_at_once(others))
}

fn expires_at_once(headers: &[Header]) -> bool
    ensures { result ≡ unregister.expires_at_once headers.now }
{
    count_expires(headers) == 1 && has_expires_of_zero(headers)
}

fn count_expires(headers: &[Header]) -> usize
    ensures { result ≡ count_by unregister.is_expires headers.now }
{
    headers.iter().filter(|header| is_expires(header)).count()
}

fn has_expires_of_zero(headers: &[Header]) -> bool
    ensures { result ≡ list_any unregister.is_expires_of_zero headers.now }
{
    headers.iter().any(is_expires_of_zero)
}

fn is_expires_of_zero(header: &Header) -> bool
    ensures { result ≡ unregister.is_expires_of_zero header.now }
{
    is_expires(header) && is_zero(header.value.as_slice())
}

fn is_expires(header: &Header) -> bool
    ensures { result ≡ unregister.is_expires header.now }
{
    token_eq(header.name.as_slice(), b"Expires")
}

// Whether the value is a number of seconds, and that is 0.
#[tactic(auto, unfolding(sip_text::specs::Number::number_of))]
fn is_zero(value: &[u8]) -> bool
    ensures { result ≡ unregister.is_zero value.now }
{
    matches!(number_u32(value), Ok(0))
}
