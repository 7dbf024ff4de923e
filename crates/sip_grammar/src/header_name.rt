//! The headers that are parsed into fields of their own (RFC 3261, section 20).
ghost use Rattle.std.specs.Prelude.{◌≡◌};
ghost use Rattle.sip_grammar.specs.HeaderName as names;

/// A header that is parsed into a field of its own.
#[derive(Clone, Copy, Debug, PartialEq, Eq)]
pub enum HeaderName {
    Via,
    From,
    To,
    CallId,
    CSeq,
    MaxForwards,
    ContentLength,
    RSeq,
    RAck,
    Contact,
    RecordRoute,
    Route,
    Require,
    Supported,
}

impl HeaderName {
    /// Its long name, as it is written.
    pub fn as_str(self) -> &'static str
        ensures { result.now ≡ names.header_name self }
    {
        self.entry().name
    }
}
