//! A start line that was read.
ghost use Rattle.std.specs.Prelude.{◌≡◌, IfOk, IsTrue};
ghost use Rattle.sip_text.specs.Token.{is_token};
ghost use Rattle.sip_message.specs.declared.fault.ReadFault.TheVariants as fault;
ghost use Rattle.sip_reader.specs.ReadMessage as reading;

use sip_grammar::{Reason, RequestUri, StatusCode, Token};
use sip_message::{ReadFault, StartLine};
use std::alloc::{AllocError, Global};
use std::marker::Model;

/// A method as a part of the start line. A contract sees its text.
#[derive(Drop)]
pub(crate) struct Method<'a> {
    text: &'a [u8],
}

impl<'a> Model for Method<'a> {
    ghost use Rattle.std.specs.Prelude.{ℕ, List, IsTrue};
    ghost use Rattle.sip_text.specs.Token.{is_token};

    ghost Value = { List ℕ };

    ghost view = { λ m. m.text.now };

    ghost invariant = { λ m. IsTrue (is_token m.text.now) };
}

impl<'a> Method<'a> {
    pub(crate) fn new(text: &'a [u8]) -> Method<'a>
        requires { IsTrue (is_token text.now) }
        ensures { result ≡ text.now }
    {
        Method { text }
    }

    fn as_slice(&self) -> &[u8]
        ensures value { result.now ≡ self.now }
        ensures token { IsTrue (is_token self.now) }
    {
        self.text
    }
}

/// What a start line says (RFC 3261, sections 7.1 and 7.2). `M` is how a method is held: lent by
/// the line, or as a `Token`.
#[derive(Drop)]
pub enum FirstLine<M> {
    /// A request line, with its own method; in a message the CSeq has the same.
    Request { method: M, uri: RequestUri },
    /// A status line.
    Response { status: StatusCode, reason: Reason },
}

impl<'a> FirstLine<Method<'a>> {
    /// The start line; the method of a request must be that of its CSeq.
    #[tactic(auto, unfolding(crate::specs::ReadMessage::start_line_of))]
    pub(crate) fn fitting(self, cseq_method: &Token) -> Result<StartLine, ReadFault>
        ensures { result ≡ reading.or_fault fault.MethodMismatch
            (reading.start_line_of self.entry cseq_method.now) }
    {
        match self {
            FirstLine::Request { method, uri } => {
                if method.text != cseq_method.as_slice() {
                    return Err(ReadFault::MethodMismatch);
                }
                Ok(StartLine::Request { uri })
            }
            FirstLine::Response { status, reason } => Ok(StartLine::Response { status, reason }),
        }
    }

    /// The same, with a copy of its method.
    pub(crate) fn into_owned(self, alloc: Global) -> Result<FirstLine<Token>, AllocError>
        ensures { IfOk result (λ owned. owned ≡ self.entry) }
    {
        match self {
            FirstLine::Request { method, uri } => Ok(FirstLine::Request {
                method: Token::copy_of(alloc, method.as_slice())?,
                uri,
            }),
            FirstLine::Response { status, reason } => Ok(FirstLine::Response { status, reason }),
        }
    }
}
