//! The parts of a command that can be bad.

/// A part of a command, named in the fault if it doesn't keep its rule.
#[derive(Clone, Copy, Debug, PartialEq, Eq)]
pub enum Field {
    /// Not one or more bytes without spaces, tabs and line ends (RFC 3261, section 20.8).
    CallId,
    /// Not a token (RFC 3261, section 7.1).
    Method,
    /// Empty, with a space, a tab, a line end, `<`, `>` or `"`, or without a scheme such as `sip:`.
    /// The same for From and To.
    RequestUri,
    From,
    To,
    /// Neither empty nor a token (RFC 3261, section 19.3).
    LocalTag,
    RemoteTag,
    /// Not from 101 to 699.
    Status,
    /// With a line end (RFC 3261, section 7.2).
    Reason,
    /// A header that the user may not give, or whose value doesn't have its form; a `Route` if the
    /// command takes none; the Contact `*`, except alone in a REGISTER whose one Expires is 0; any
    /// header for a CANCEL.
    Headers,
}
