//! The states of a transaction, and which table it goes by.

/// The state of a transaction that is held (RFC 3261 section 17, RFC 6026 section 7).
#[derive(Clone, Copy, Debug, PartialEq, Eq)]
pub enum State {
    /// A client of an INVITE that has no response yet.
    Calling,
    /// A transaction of another request, without a provisional response so far.
    Trying,
    /// A provisional response came or was sent; or a server of an INVITE, without a final response
    /// so far.
    Proceeding,
    /// A final response came or was sent; to an INVITE, one other than 2xx.
    Completed,
    /// A 2xx to an INVITE came or was sent.
    Accepted,
    /// A server of an INVITE got the ACK of its final response other than 2xx.
    Confirmed,
}

/// Which of the four tables a transaction goes by.
#[derive(Clone, Copy)]
pub enum Role {
    /// Sent an INVITE.
    InviteClient,
    /// Sent another request.
    Client,
    /// Got an INVITE.
    InviteServer,
    /// Got another request.
    Server,
}
