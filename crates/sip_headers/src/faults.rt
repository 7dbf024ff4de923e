//! Headers that are missing, or occur in a message more often than they may.
ghost use Rattle.std.specs.Prelude.{◌≡◌, find, ◌&&◌, IfNone, is_some};
ghost use Rattle.sip_headers.specs.Complete as complete;
ghost use Rattle.sip_headers.specs.Steps.OneLook as one_look;
ghost use Rattle.std.specs.List.{list_any};
ghost use Rattle.sip_grammar.specs.HeaderEntry as table;
ghost use Rattle.sip_headers.specs.Presence as presence;

use crate::header_fields::HeaderFields;
use crate::slot::Slot;
use sip_grammar::{HeaderKind, HeaderName};
use sip_message::ReadFault;
use sip_text::Series;

/// How often a header was found.
#[derive(Clone, Copy, Debug, PartialEq, Eq)]
pub enum Presence {
    /// Not yet.
    Nowhere,
    /// Once, or, for a list, any number of times.
    Fitting,
    /// Twice or more.
    Repeated,
    /// A line isn't in the header's form.
    Unfit,
}

impl Presence {
    fn is_nowhere(self) -> bool
        ensures { result ≡ presence.is_nowhere self }
    {
        matches!(self, Presence::Nowhere)
    }

    fn is_repeated(self) -> bool
        ensures { result ≡ presence.is_repeated self }
    {
        matches!(self, Presence::Repeated)
    }

    fn is_unfit(self) -> bool
        ensures { result ≡ presence.is_unfit self }
    {
        matches!(self, Presence::Unfit)
    }
}

impl<T> Slot<T> {
    fn presence(&self) -> Presence
        ensures { result ≡ presence.slot_presence self.now }
    {
        match self {
            Slot::Absent => Presence::Nowhere,
            Slot::Once(_) => Presence::Fitting,
            Slot::Twice => Presence::Repeated,
            Slot::Bad => Presence::Unfit,
        }
    }

    fn is_once(&self) -> bool
        ensures { result ≡ is_some (complete.once self.now) }
    {
        matches!(self, Slot::Once(_))
    }

    /// Whether it occurred at most once, in its form.
    fn is_at_most_once(&self) -> bool
        ensures { result ≡ one_look.is_at_most_once self.now }
    {
        matches!(self, Slot::Absent | Slot::Once(_))
    }
}

fn list_presence<T>(list: &Option<Series<T>>) -> Presence
    ensures { result ≡ presence.list_presence list.now }
{
    match list {
        None => Presence::Unfit,
        Some(values) => {
            if values.is_empty() {
                Presence::Nowhere
            } else {
                Presence::Fitting
            }
        }
    }
}

impl HeaderFields {
    /// How often the header was found.
    pub fn presence(&self, header: HeaderName) -> Presence
        ensures { result ≡ presence.presence_of self.now header }
    {
        match header {
            HeaderName::Via => list_presence(&self.vias),
            HeaderName::From => self.from.presence(),
            HeaderName::To => self.to.presence(),
            HeaderName::CallId => self.call_id.presence(),
            HeaderName::CSeq => self.cseq.presence(),
            HeaderName::MaxForwards => self.max_forwards.presence(),
            HeaderName::ContentLength => self.content_length.presence(),
            HeaderName::RSeq => self.rseq.presence(),
            HeaderName::RAck => self.rack.presence(),
            HeaderName::Contact => list_presence(&self.contacts),
            HeaderName::RecordRoute => list_presence(&self.record_routes),
            HeaderName::Route => list_presence(&self.routes),
            HeaderName::Require => list_presence(&self.require),
            HeaderName::Supported => list_presence(&self.supported),
        }
    }

    /// Whether a line is no header line, or a value isn't in its header's form.
    pub fn has_bad_header(&self) -> bool
        ensures { result ≡ presence.has_bad_header self.now }
    {
        self.is_bad || self.others.is_none() || self.has_unfit_value()
    }

    fn has_unfit_value(&self) -> bool
        ensures { result ≡ list_any
            (λ header. presence.is_unfit (presence.presence_of self.now header)) table.headers }
    {
        HeaderName::ALL
            .iter()
            .any(|header| self.presence(*header).is_unfit())
    }

    /// The first fault of these lines.
    #[tactic(auto, unfolding(crate::specs::Complete::fault_in))]
    pub(crate) fn fault(&self) -> Option<ReadFault>
        ensures first { result ≡ complete.fault_in self.now }
        ensures complete { IfNone result (complete.IsComplete self.now) }
    {
        if self.is_whole() {
            return None;
        }
        if self.has_bad_header() {
            return Some(ReadFault::BadHeader);
        }
        match self.missing() {
            Some(header) => Some(ReadFault::Missing(header)),
            None => match self.repeated() {
                Some(header) => Some(ReadFault::Repeated(header)),
                None => None,
            },
        }
    }

    /// Whether each line is a header line, and each header is there as it may be, in one look at
    /// each.
    fn is_whole(&self) -> bool
        ensures { result ≡ one_look.is_whole self.now }
    {
        !self.is_bad
            && self.others.is_some()
            && self.has_needed()
            && self.max_forwards.is_at_most_once()
            && self.content_length.is_at_most_once()
            && self.rseq.is_at_most_once()
            && self.rack.is_at_most_once()
            && self.contacts.is_some()
            && self.record_routes.is_some()
            && self.routes.is_some()
            && self.require.is_some()
            && self.supported.is_some()
    }

    fn has_needed(&self) -> bool
        ensures { result ≡ one_look.has_needed self.now }
    {
        matches!(list_presence(&self.vias), Presence::Fitting)
            && self.from.is_once()
            && self.to.is_once()
            && self.call_id.is_once()
            && self.cseq.is_once()
    }

    /// The first mandatory header that isn't there.
    pub fn missing(&self) -> Option<HeaderName>
        ensures { result ≡ presence.missing self.now }
    {
        HeaderName::ALL.iter().copied().find(|header| is_needed(*header)
            && self.presence(*header).is_nowhere())
    }

    /// The first header that may occur once and is there twice.
    pub fn repeated(&self) -> Option<HeaderName>
        ensures { result ≡ presence.repeated self.now }
    {
        HeaderName::ALL
            .iter()
            .copied()
            .find(|header| self.presence(*header).is_repeated())
    }
}

fn is_needed(header: HeaderName) -> bool
    ensures { result ≡ table.is_needed (table.entry header).kind }
{
    match header.entry().kind {
        HeaderKind::Once | HeaderKind::NeededList => true,
        HeaderKind::AtMostOnce | HeaderKind::List => false,
    }
}
