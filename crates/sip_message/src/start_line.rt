//! The start line (RFC 3261, sections 7.1 and 7.2).
ghost use Rattle.std.specs.Prelude.{◌≡◌};

use sip_grammar::{Reason, RequestUri, StatusCode};
use std::alloc::AllocError;

/// A request line or a status line. The method of a request line is that of the CSeq.
pub enum StartLine {
    Request { uri: RequestUri },
    Response { status: StatusCode, reason: Reason },
}

impl Drop for StartLine {
    fn drop(self) {
        match self {
            StartLine::Request { uri: _ } => {}
            StartLine::Response {
                status: _,
                reason: _,
            } => {}
        }
    }
}

impl Clone for StartLine {
    ghost is_clone = { λ original copy. copy ≡ original };

    fn clone(&self) -> Result<StartLine, AllocError> {
        match self {
            StartLine::Request { uri } => Ok(StartLine::Request { uri: uri.clone()? }),
            StartLine::Response { status, reason } => Ok(StartLine::Response {
                status: *status,
                reason: reason.clone()?,
            }),
        }
    }
}
