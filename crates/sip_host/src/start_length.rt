//! How long the texts of a start line are.

/// The lengths in bytes of the texts of a start line (RFC 3261, sections 7.1 and 7.2).
#[derive(Clone, Copy)]
pub enum StartLength {
    /// The lengths of the method and the Request-URI of a request.
    Request { method: usize, uri: usize },
    /// The status of a response, and the length of its reason.
    Response { status: u16, reason: usize },
}
