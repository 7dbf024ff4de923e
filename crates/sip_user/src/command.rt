//! What the user asks of a call.

ghost use Rattle.std.specs.Prelude.{◌≡◌};

use sip_message::{Addr, CallId, Content, Id, NameAddr, Reason, Token, Uri};
use sip_text::Series;
use std::alloc::AllocError;

/// Which use of reliable provisional responses an INVITE asks for (RFC 3262, section 4).
#[derive(Clone, Copy, PartialEq, Eq)]
pub enum ProvisionalSupport {
    None,
    /// With `100rel` in Supported.
    Supported,
    /// With `100rel` in Require.
    Required,
}

/// Whether a provisional response should be sent reliably (RFC 3262, section 3).
#[derive(Clone, Copy, PartialEq, Eq)]
pub enum Reliability {
    Plain,
    Reliable,
}

/// Starts a call: a first INVITE to an address.
pub struct Invite {
    pub call_id: CallId,
    pub address: Addr,
    pub request_uri: Uri,
    pub from: Uri,
    pub to: Uri,
    /// The routes that are known before, the first hop first (RFC 3261, section 8.1.2). The INVITE
    /// goes to the address all the same.
    pub routes: Series<NameAddr>,
    pub support: ProvisionalSupport,
    pub content: Content,
}

/// Sends a request outside of any dialog.
pub struct Plain {
    pub call_id: CallId,
    pub address: Addr,
    pub method: Token,
    pub request_uri: Uri,
    pub from: Uri,
    pub to: Uri,
    /// The routes that are known before, the first hop first (RFC 3261, section 8.1.2). The request
    /// goes to the address all the same.
    pub routes: Series<NameAddr>,
    pub content: Content,
}

/// Sends a request inside a dialog. An absent tag is the empty tag.
pub struct DialogRequest {
    pub call_id: CallId,
    pub local_tag: Option<Token>,
    pub remote_tag: Option<Token>,
    pub method: Token,
    pub content: Content,
}

/// Answers a held server request.
#[derive(Drop)]
pub struct Respond {
    pub call_id: CallId,
    /// The request that is answered.
    pub id: Id,
    /// The status. Numbers outside 101 to 699 are refused.
    pub status: u16,
    pub reliability: Reliability,
    pub content: Content,
    pub reason: Reason,
}

/// Sends an ACK or a PRACK in a dialog, with this content. An absent tag is the empty tag.
pub struct DialogBody {
    pub call_id: CallId,
    pub local_tag: Option<Token>,
    pub remote_tag: Option<Token>,
    pub content: Content,
}

/// Cancels a client INVITE.
pub struct Cancel {
    pub call_id: CallId,
    /// The INVITE.
    pub id: Id,
}

/// Gives a client request up: it is no longer held, and its transaction ends at once.
pub struct AbandonRequest {
    pub call_id: CallId,
    /// The request.
    pub id: Id,
}

/// Gives a dialog up: it ends, and nothing is sent. An absent tag is the empty tag.
pub struct AbandonDialog {
    pub call_id: CallId,
    pub local_tag: Option<Token>,
    pub remote_tag: Option<Token>,
}

/// What the user asks of a call.
#[derive(Drop)]
pub enum UserCommand {
    Invite(Invite),
    Plain(Plain),
    Request(DialogRequest),
    Respond(Respond),
    Ack(DialogBody),
    Prack(DialogBody),
    Cancel(Cancel),
    AbandonRequest(AbandonRequest),
    AbandonDialog(AbandonDialog),
}

impl UserCommand {
    ghost use Rattle.std.specs.Prelude.{◌≡◌};
    ghost use Rattle.sip_user.specs.Command.{call_of_command};

    /// The Call-ID of the call that the command is for.
    pub fn call_id(&self) -> &CallId
        ensures { result.now ≡ call_of_command self.now }
    {
        match self {
            UserCommand::Invite(invite) => &invite.call_id,
            UserCommand::Plain(plain) => &plain.call_id,
            UserCommand::Request(request) => &request.call_id,
            UserCommand::Respond(respond) => &respond.call_id,
            UserCommand::Ack(ack) => &ack.call_id,
            UserCommand::Prack(prack) => &prack.call_id,
            UserCommand::Cancel(cancel) => &cancel.call_id,
            UserCommand::AbandonRequest(abandon) => &abandon.call_id,
            UserCommand::AbandonDialog(abandon) => &abandon.call_id,
        }
    }
}

impl Drop for Invite {
    fn drop(self) {
        let Invite {
            call_id: _,
            address: _,
            request_uri: _,
            from: _,
            to: _,
            routes: _,
            support: _,
            content: _,
        } = self;
    }
}

impl Clone for Invite {
    ghost is_clone = { λ a b. b ≡ a };

    fn clone(&self) -> Result<Invite, AllocError> {
        Ok(Invite {
            call_id: self.call_id.clone()?,
            address: self.address,
            request_uri: self.request_uri.clone()?,
            from: self.from.clone()?,
            to: self.to.clone()?,
            routes: self.routes.clone()?,
            support: self.support,
            content: self.content.clone()?,
        })
    }
}

impl Drop for Plain {
    fn drop(self) {
        let Plain {
            call_id: _,
            address: _,
            method: _,
            request_uri: _,
            from: _,
            to: _,
            routes: _,
            content: _,
        } = self;
    }
}

impl Clone for Plain {
    ghost is_clone = { λ a b. b ≡ a };

    fn clone(&self) -> Result<Plain, AllocError> {
        Ok(Plain {
            call_id: self.call_id.clone()?,
            address: self.address,
            method: self.method.clone()?,
            request_uri: self.request_uri.clone()?,
            from: self.from.clone()?,
            to: self.to.clone()?,
            routes: self.routes.clone()?,
            content: self.content.clone()?,
        })
    }
}

impl Drop for DialogRequest {
    fn drop(self) {
        let DialogRequest {
            call_id: _,
            local_tag: _,
            remote_tag: _,
            method: _,
            content: _,
        } = self;
    }
}

impl Clone for DialogRequest {
    ghost is_clone = { λ a b. b ≡ a };

    fn clone(&self) -> Result<DialogRequest, AllocError> {
        Ok(DialogRequest {
            call_id: self.call_id.clone()?,
            local_tag: self.local_tag.clone()?,
            remote_tag: self.remote_tag.clone()?,
            method: self.method.clone()?,
            content: self.content.clone()?,
        })
    }
}

impl Clone for Respond {
    ghost is_clone = { λ a b. b ≡ a };

    fn clone(&self) -> Result<Respond, AllocError> {
        Ok(Respond {
            call_id: self.call_id.clone()?,
            id: self.id,
            status: self.status,
            reliability: self.reliability,
            content: self.content.clone()?,
            reason: self.reason.clone()?,
        })
    }
}

impl Drop for DialogBody {
    fn drop(self) {
        let DialogBody {
            call_id: _,
            local_tag: _,
            remote_tag: _,
            content: _,
        } = self;
    }
}

impl Clone for DialogBody {
    ghost is_clone = { λ a b. b ≡ a };

    fn clone(&self) -> Result<DialogBody, AllocError> {
        Ok(DialogBody {
            call_id: self.call_id.clone()?,
            local_tag: self.local_tag.clone()?,
            remote_tag: self.remote_tag.clone()?,
            content: self.content.clone()?,
        })
    }
}

impl Drop for Cancel {
    fn drop(self) {
        let Cancel { call_id: _, id: _ } = self;
    }
}

impl Clone for Cancel {
    ghost is_clone = { λ a b. b ≡ a };

    fn clone(&self) -> Result<Cancel, AllocError> {
        Ok(Cancel {
            call_id: self.call_id.clone()?,
            id: self.id,
        })
    }
}

impl Drop for AbandonRequest {
    fn drop(self) {
        let AbandonRequest { call_id: _, id: _ } = self;
    }
}

impl Clone for AbandonRequest {
    ghost is_clone = { λ a b. b ≡ a };

    fn clone(&self) -> Result<AbandonRequest, AllocError> {
        Ok(AbandonRequest {
            call_id: self.call_id.clone()?,
            id: self.id,
        })
    }
}

impl Drop for AbandonDialog {
    fn drop(self) {
        let AbandonDialog {
            call_id: _,
            local_tag: _,
            remote_tag: _,
        } = self;
    }
}

impl Clone for AbandonDialog {
    ghost is_clone = { λ a b. b ≡ a };

    fn clone(&self) -> Result<AbandonDialog, AllocError> {
        Ok(AbandonDialog {
            call_id: self.call_id.clone()?,
            local_tag: self.local_tag.clone()?,
            remote_tag: self.remote_tag.clone()?,
        })
    }
}

impl Clone for UserCommand {
    ghost is_clone = { λ a b. b ≡ a };

    fn clone(&self) -> Result<UserCommand, AllocError> {
        Ok(match self {
            UserCommand::Invite(invite) => UserCommand::Invite(invite.clone()?),
            UserCommand::Plain(plain) => UserCommand::Plain(plain.clone()?),
            UserCommand::Request(request) => UserCommand::Request(request.clone()?),
            UserCommand::Respond(respond) => UserCommand::Respond(respond.clone()?),
            UserCommand::Ack(ack) => UserCommand::Ack(ack.clone()?),
            UserCommand::Prack(prack) => UserCommand::Prack(prack.clone()?),
            UserCommand::Cancel(cancel) => UserCommand::Cancel(cancel.clone()?),
            UserCommand::AbandonRequest(abandon) => UserCommand::AbandonRequest(abandon.clone()?),
            UserCommand::AbandonDialog(abandon) => UserCommand::AbandonDialog(abandon.clone()?),
        })
    }
}
