//! The header Unsupported (RFC 3261, section 20.40).

ghost use Rattle.std.specs.Prelude.{◌≡◌, ◌==◌, ◌++◌, IfOk, OnOk, IsTrue, codes, filter, length, if◌then◌else◌};
ghost use Rattle.sip_text.specs.Token.{is_token};
ghost use Rattle.std.specs.List.{join_by};
ghost use Rattle.sip_served.specs.Arrival.{unsupported};
ghost use Rattle.sip_held_dialogs.specs.Requests.{is_unknown_option};

use sip_held_dialogs::request::is_unknown_option;
use sip_message::{Header, HeaderValue, OtherName, Token};
use sip_text::Text;
use std::alloc::{AllocError, Global};

/// `Unsupported`, with the options that the agent doesn't know.
pub(crate) fn unsupported(alloc: Global, options: &[Token]) -> Result<Header, AllocError>
    ensures { IfOk result (λ header. header ≡ unsupported (filter is_unknown_option options.now)) }
{
    Ok(Header {
        name: unsupported_name(alloc)?,
        value: unknown_options(alloc, options)?,
    })
}

fn unsupported_name(alloc: Global) -> Result<OtherName, AllocError>
    ensures { IfOk result (λ name. name ≡ codes "Unsupported") }
{
    OtherName::copy_of(alloc, b"Unsupported")
}

// The unknown options in their order, with a comma and a space between them.
fn unknown_options(alloc: Global, options: &[Token]) -> Result<HeaderValue, AllocError>
    ensures { IfOk result (λ value. value
        ≡ join_by (λ option. option) (codes ", ") (filter is_unknown_option options.now)) }
{
    let mut text = Text::from_vec(Vec::new(alloc));
    for option in options {
        push_unknown(&mut text, option)?;
    }
    Ok(HeaderValue::from_text(text))
}

fn push_unknown(text: &mut Text, option: &Token) -> Result<(), AllocError>
    ensures text { OnOk result (text.new
        ≡ (if is_unknown_option option.now
        then (if length text.old == 0 then option.now else text.old ++ codes ", " ++ option.now)
        else text.old)) }
    ensures token { OnOk result (IsTrue (is_token option.now)) }
{
    let bytes = option.as_slice();
    if !is_unknown_option(option) {
        return Ok(());
    }
    if !text.is_empty() {
        text.extend_from_slice(b", ")?;
    }
    text.extend_from_slice(bytes)
}
