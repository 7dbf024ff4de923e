//! All header lines of a message, by header.
ghost use Rattle.std.specs.Prelude.{◌≡◌, ℕ, List, [], ◌∷◌, IfOk, IsTrue, OnOk, Some, true, is_some};
ghost use Rattle.sip_grammar.specs.HeaderValue.{is_header_value};
ghost use Rattle.sip_grammar.specs.OtherName.{is_other_name};
ghost use Rattle.sip_headers.specs.Complete as complete;
ghost use Rattle.sip_headers.specs.HeaderFields as drafts;
ghost use Rattle.sip_headers.specs.HeaderLine.{class_from, class_now};
ghost use Rattle.sip_headers.specs.Numbers as numbered;

use crate::line_class::{LineClass, class_of};
use crate::numbers::{Numbers, rack_with};
use crate::slot::{Slot, read_list, read_once};
use sip_grammar::{CallId, HeaderName, HeaderValue, OtherName, Token};
use sip_header_values::{
    AddressListRow, CSeqDraft, CSeqRow, CallIdRow, NumberRow, Numeral, PartyRow, RAckDraft,
    RAckRow, TokenListRow, ViaDraft, ViaListRow,
};
use sip_message::{CSeq, Header, Message, NameAddr, Party, StartLine, Vias};
use sip_text::{Series, Text, token_eq};
use std::alloc::{AllocError, Global};

/// What the header lines of a message say so far. A list is None if one of its lines isn't in the
/// header's form.
pub struct HeaderFields {
    /// A line is no header line.
    pub is_bad: bool,
    pub vias: Option<Series<ViaDraft>>,
    pub max_forwards: Slot<Numeral>,
    pub from: Slot<Party>,
    pub to: Slot<Party>,
    pub call_id: Slot<CallId>,
    pub cseq: Slot<CSeqDraft>,
    pub contacts: Option<Series<NameAddr>>,
    pub record_routes: Option<Series<NameAddr>>,
    pub routes: Option<Series<NameAddr>>,
    pub require: Option<Series<Token>>,
    pub supported: Option<Series<Token>>,
    pub rseq: Slot<Numeral>,
    pub rack: Slot<RAckDraft>,
    pub content_length: Slot<Numeral>,
    pub others: Option<Series<Header>>,
}

impl Drop for HeaderFields {
    fn drop(self) {
        let HeaderFields {
            is_bad: _,
            vias: _,
            max_forwards: _,
            from: _,
            to: _,
            call_id: _,
            cseq: _,
            contacts: _,
            record_routes: _,
            routes: _,
            require: _,
            supported: _,
            rseq: _,
            rack: _,
            content_length: _,
            others: _,
        } = self;
    }
}

impl HeaderFields {
    /// No line. Takes no memory.
    pub fn new(alloc: Global) -> HeaderFields
        ensures { result ≡ drafts.no_header_fields }
    {
        HeaderFields {
            is_bad: false,
            vias: Some(Series::new(alloc)),
            max_forwards: Slot::Absent,
            from: Slot::Absent,
            to: Slot::Absent,
            call_id: Slot::Absent,
            cseq: Slot::Absent,
            contacts: Some(Series::new(alloc)),
            record_routes: Some(Series::new(alloc)),
            routes: Some(Series::new(alloc)),
            require: Some(Series::new(alloc)),
            supported: Some(Series::new(alloc)),
            rseq: Slot::Absent,
            rack: Slot::Absent,
            content_length: Slot::Absent,
            others: Some(Series::new(alloc)),
        }
    }

    /// Adds one more line.
    pub fn add(&mut self, alloc: Global, line: &[u8]) -> Result<(), AllocError>
        ensures { OnOk result (self.new ≡ drafts.with_line self.old line.now) }
    {
        self.add_class(alloc, class_of(line))
    }

    /// Adds a line of this class.
    #[inline(always)]
    pub(crate) fn add_class(
        &mut self,
        alloc: Global,
        class: LineClass<'_>,
    ) -> Result<(), AllocError>
        // It is the class of some line.
        requires { (line : List ℕ) × (class_from line ≡ class_now class) }
        ensures { OnOk result (self.new ≡ drafts.with_class self.old (class_now class.entry)) }
    {
        match class {
            LineClass::Bad => {
                self.is_bad = true;
                Ok(())
            }
            LineClass::Known(header, value) => self.add_value(alloc, header, value),
            LineClass::Other(name, value) => self.add_other(alloc, name, value),
        }
    }

    fn add_value(
        &mut self,
        alloc: Global,
        header: HeaderName,
        text: &[u8],
    ) -> Result<(), AllocError>
        ensures { OnOk result (self.new ≡ drafts.with_value self.old header text.now) }
    {
        match header {
            HeaderName::Via => read_list::<ViaDraft, ViaListRow>(alloc, &mut self.vias, text),
            HeaderName::MaxForwards => read_once::<NumberRow>(alloc, &mut self.max_forwards, text),
            HeaderName::From => read_once::<PartyRow>(alloc, &mut self.from, text),
            HeaderName::To => read_once::<PartyRow>(alloc, &mut self.to, text),
            HeaderName::CallId => read_once::<CallIdRow>(alloc, &mut self.call_id, text),
            HeaderName::CSeq => read_once::<CSeqRow>(alloc, &mut self.cseq, text),
            HeaderName::Contact => {
                read_list::<NameAddr, AddressListRow>(alloc, &mut self.contacts, text)
            }
            HeaderName::RecordRoute => {
                read_list::<NameAddr, AddressListRow>(alloc, &mut self.record_routes, text)
            }
            HeaderName::Route => read_list::<NameAddr, AddressListRow>(
                alloc,
                &mut self.routes,
                text,
            ),
            HeaderName::Require => read_list::<Token, TokenListRow>(alloc, &mut self.require, text),
            HeaderName::Supported => read_list::<Token, TokenListRow>(
                alloc,
                &mut self.supported,
                text,
            ),
            HeaderName::RSeq => read_once::<NumberRow>(alloc, &mut self.rseq, text),
            HeaderName::RAck => read_once::<RAckRow>(alloc, &mut self.rack, text),
            HeaderName::ContentLength => read_once::<NumberRow>(
                alloc,
                &mut self.content_length,
                text,
            ),
        }
    }

    fn add_other(&mut self, alloc: Global, name: &[u8], value: &[u8]) -> Result<(), AllocError>
        requires name { IsTrue (is_other_name (drafts.long_name name.now)) }
        requires value { IsTrue (is_header_value value.now) }
        ensures { OnOk result (self.new ≡ drafts.with_other self.old name.now value.now) }
    {
        let header = other_header(alloc, name, value)?;
        if let Some(others) = &mut self.others {
            others.push(header)?;
        }
        Ok(())
    }

    /// The message with these headers, Via values and numbers.
    pub(crate) fn into_message(
        self,
        start: StartLine,
        vias: Vias,
        numbers: Numbers,
        body: Text,
    ) -> Message
        requires { complete.IsComplete self }
        ensures { numbered.message_with start vias numbers self body ≡ Some result }
    {
        let HeaderFields {
            is_bad: _,
            vias: _,
            max_forwards: _,
            from,
            to,
            call_id,
            cseq,
            contacts,
            record_routes,
            routes,
            require,
            supported,
            rseq: _,
            rack,
            content_length: _,
            others,
        } = self;
        let CSeqDraft { number: _, method } = cseq.into_once();
        Message {
            start,
            vias,
            max_forwards: numbers.max_forwards,
            from: from.into_once(),
            to: to.into_once(),
            call_id: call_id.into_once(),
            cseq: CSeq {
                number: numbers.cseq,
                method,
            },
            contacts: contacts.unwrap(),
            record_routes: record_routes.unwrap(),
            routes: routes.unwrap(),
            require: require.unwrap(),
            supported: supported.unwrap(),
            rseq: numbers.rseq,
            rack: rack_with(rack, numbers.rack),
            others: others.unwrap(),
            body,
        }
    }
}

impl<T: Drop> Slot<T> {
    /// The value of the one line.
    fn into_once(self) -> T
        requires { is_some (complete.once self) ≡ true }
        ensures { complete.once self ≡ Some result }
    {
        match self {
            Slot::Once(value) => value,
            _ => unreachable!(),
        }
    }
}

/// The header that is kept as it is, under its long name.
fn other_header(alloc: Global, name: &[u8], value: &[u8]) -> Result<Header, AllocError>
    requires name { IsTrue (is_other_name (drafts.long_name name.now)) }
    requires value { IsTrue (is_header_value value.now) }
    ensures { IfOk result (λ header. drafts.other_from name.now value.now ≡ Some (header ∷ [])) }
{
    Ok(Header {
        name: OtherName::copy_of(alloc, long_name(name))?,
        value: HeaderValue::copy_of(alloc, value)?,
    })
}

/// The long name, if the name is the compact name of Content-Type, Subject or Content-Encoding, in
/// any case of the letters (RFC 3261, section 7.3.3). Otherwise the name itself.
#[tactic(auto, unfolding(crate::specs::HeaderFields::long_name))]
pub fn long_name(name: &[u8]) -> &[u8]
    ensures { result.now ≡ drafts.long_name name.now }
{
    if token_eq(name, b"c") {
        b"Content-Type"
    } else if token_eq(name, b"s") {
        b"Subject"
    } else if token_eq(name, b"e") {
        b"Content-Encoding"
    } else {
        name
    }
}
