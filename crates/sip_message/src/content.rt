//! What the user puts into a message of his own (RFC 3261, section 7.4.1).
ghost use Rattle.std.specs.Prelude.{◌≡◌, ◌↔◌, IfOk, IsTrue, OnOk};
ghost use Rattle.std.specs.List.{list_any};
ghost use Rattle.sip_message.specs.Content as spec;

use crate::header::Header;
use crate::message::Message;
use crate::name_addr::NameAddr;
use sip_grammar::{HeaderValue, OtherName, Token};
use sip_text::{Boxed, Series, Text, token_eq};
use std::alloc::{AllocError, Global};
use std::marker::Model;

/// The headers that a user gives a message of his own.
pub struct ContentHeaders {
    /// If there are any, they replace the agent's own Contact.
    pub contacts: Series<NameAddr>,
    /// After the agent's own, in Supported.
    pub supported: Series<Token>,
    /// After the agent's own, in Require.
    pub require: Series<Token>,
    /// In order. By their type none of them is a header that is parsed.
    pub others: Series<Header>,
}

impl ContentHeaders {
    // Takes no memory.
    fn none(alloc: Global) -> ContentHeaders
        ensures { result ≡ spec.no_headers }
    {
        ContentHeaders {
            contacts: Series::new(alloc),
            supported: Series::new(alloc),
            require: Series::new(alloc),
            others: Series::new(alloc),
        }
    }

    fn is_none(&self) -> bool
        ensures { IsTrue result ↔ (self.now ≡ spec.no_headers) }
    {
        self.contacts.is_empty()
            && self.supported.is_empty()
            && self.require.is_empty()
            && self.others.is_empty()
    }

    // Puts these headers and this body into a message.
    #[tactic(auto, unfolding(crate::specs::Content::with_content_of))]
    fn put_into(self, alloc: Global, body: Text, message: &mut Message) -> Result<(), AllocError>
        ensures { OnOk result
            (message.new ≡ spec.with_content_of message.old (spec.content_with self body)) }
    {
        let ContentHeaders {
            contacts,
            supported,
            require,
            others,
        } = self;
        if !contacts.is_empty() {
            message.contacts = contacts;
        }
        message.require.append(require)?;
        message.supported.append(supported)?;
        message.others.append(with_type(alloc, &body, others)?)?;
        message.body = body;
        Ok(())
    }
}

/// What a user puts into a message of his own: headers, and the body. A contract sees the record
/// of all of them.
pub struct Content {
    // None if there is no header: commands are moved often, and most have none.
    headers: Option<Boxed<ContentHeaders>>,
    body: Text,
}

impl Model for Content {
    ghost use Rattle.sip_message.specs.Content.{Content, content_of};

    ghost Value = { Content };

    ghost view = { λ c. content_of c.headers c.body };
}

impl Content {
    ghost use Rattle.sip_message.specs.Content.{content_of_body, content_with, with_content_of};

    /// These headers, and this body. Takes memory if there is a header.
    pub fn new(alloc: Global, headers: ContentHeaders, body: Text) -> Result<Content, AllocError>
        ensures { IfOk result (λ content. content ≡ content_with headers body) }
    {
        let mut content = Content::of_body(body);
        content.set_headers(alloc, headers)?;
        Ok(content)
    }

    /// This body, and no header. Takes no memory.
    pub fn of_body(body: Text) -> Content
        ensures { result ≡ content_of_body body }
    {
        Content {
            headers: None,
            body,
        }
    }

    /// Replaces its headers by these. Takes memory if there is a header.
    pub fn set_headers(&mut self, alloc: Global, headers: ContentHeaders) -> Result<(), AllocError>
        ensures { OnOk result (self.new ≡ content_with headers self.old.body) }
    {
        self.headers = if headers.is_none() {
            None
        } else {
            Some(Boxed::new(alloc, headers)?)
        };
        Ok(())
    }

    pub fn contacts(&self) -> &[NameAddr]
        ensures { result.now ≡ self.now.contacts }
    {
        match &self.headers {
            Some(headers) => headers.get().contacts.as_slice(),
            None => &[],
        }
    }

    pub fn supported(&self) -> &[Token]
        ensures { result.now ≡ self.now.supported }
    {
        match &self.headers {
            Some(headers) => headers.get().supported.as_slice(),
            None => &[],
        }
    }

    pub fn require(&self) -> &[Token]
        ensures { result.now ≡ self.now.require }
    {
        match &self.headers {
            Some(headers) => headers.get().require.as_slice(),
            None => &[],
        }
    }

    pub fn others(&self) -> &[Header]
        ensures { result.now ≡ self.now.others }
    {
        match &self.headers {
            Some(headers) => headers.get().others.as_slice(),
            None => &[],
        }
    }

    pub fn body(&self) -> &Text
        ensures { result.now ≡ self.now.body }
    {
        &self.body
    }

    /// Whether it has no header.
    pub fn is_body_alone(&self) -> bool
        ensures { IsTrue result ↔ (self.now ≡ content_of_body self.now.body) }
    {
        match &self.headers {
            Some(headers) => headers.get().is_none(),
            None => true,
        }
    }

    // Puts it into a message.
    pub(crate) fn put_into(self, alloc: Global, message: &mut Message) -> Result<(), AllocError>
        ensures { OnOk result (message.new ≡ with_content_of message.old self) }
    {
        let Content { headers, body } = self;
        let headers = match headers {
            Some(headers) => headers.into_inner(),
            None => ContentHeaders::none(alloc),
        };
        headers.put_into(alloc, body, message)
    }
}

// The headers of a body, with `Content-Type: application/sdp` at the end if there is a body and
// none of them says its type.
fn with_type(
    alloc: Global,
    body: &Text,
    mut headers: Series<Header>,
) -> Result<Series<Header>, AllocError>
    ensures { IfOk result (λ all. all ≡ spec.with_type_of body.now headers) }
{
    if body.is_empty() || says_type(headers.as_slice()) {
        return Ok(headers);
    }
    headers.push(content_type(alloc)?)?;
    Ok(headers)
}

fn says_type(headers: &[Header]) -> bool
    ensures { result ≡ list_any spec.is_content_type headers.now }
{
    headers.iter().any(|header| is_content_type(header))
}

fn is_content_type(header: &Header) -> bool
    ensures { result ≡ spec.is_content_type header.now }
{
    token_eq(header.name.as_slice(), b"Content-Type")
}

#[tactic(auto, unfolding(sip_grammar::specs::HeaderValue::is_header_value))]
fn content_type(alloc: Global) -> Result<Header, AllocError>
    ensures { IfOk result (λ header. header ≡ spec.content_type) }
{
    Ok(Header {
        name: OtherName::copy_of(alloc, b"Content-Type")?,
        value: HeaderValue::copy_of(alloc, b"application/sdp")?,
    })
}

impl Drop for ContentHeaders {
    fn drop(self) {
        let ContentHeaders {
            contacts: _,
            supported: _,
            require: _,
            others: _,
        } = self;
    }
}

impl Drop for Content {
    fn drop(self) {
        let Content {
            headers: _,
            body: _,
        } = self;
    }
}

impl Clone for ContentHeaders {
    ghost is_clone = { λ original copy. copy ≡ original };

    fn clone(&self) -> Result<ContentHeaders, AllocError> {
        Ok(ContentHeaders {
            contacts: self.contacts.clone()?,
            supported: self.supported.clone()?,
            require: self.require.clone()?,
            others: self.others.clone()?,
        })
    }
}

impl Clone for Content {
    ghost is_clone = { λ original copy. copy ≡ original };

    fn clone(&self) -> Result<Content, AllocError> {
        let headers = match &self.headers {
            Some(headers) => Some(headers.clone()?),
            None => None,
        };
        Ok(Content {
            headers,
            body: self.body.clone()?,
        })
    }
}
