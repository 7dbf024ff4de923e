//! The branch of a request that the agent makes (RFC 3261, section 8.1.1.7).
ghost use Rattle.std.specs.Prelude.{◌≡◌, IsTrue};
ghost use Rattle.std.specs.Option.{SomeIff};
ghost use Rattle.sip_message.specs.Via as via;
ghost use Rattle.sip_dialog.specs.Branch as rule;

use sip_grammar::Token;
use sip_text::token_eq;
use std::marker::Model;

/// The length in bytes of the text with which each branch begins.
const COOKIE_LENGTH: usize = 7;

/// A token that begins with `z9hG4bK`, in any case of the letters.
pub struct Branch {
    token: Token,
}

impl Model for Branch {
    ghost use Rattle.std.specs.Prelude.{ℕ, List, IsTrue};
    ghost use Rattle.sip_dialog.specs.Branch.{is_branch};

    ghost Value = { List ℕ };

    ghost view = { λ a. a.token };

    ghost invariant = { λ a. IsTrue (is_branch a.token) };
}

impl Branch {
    /// The branch that the token is, or None if it doesn't begin that way.
    pub fn new(token: Token) -> Option<Branch>
        ensures { SomeIff result (IsTrue (via.has_cookie token)) token }
    {
        if has_cookie(token.as_slice()) {
            Some(Branch { token })
        } else {
            None
        }
    }

    pub fn as_slice(&self) -> &[u8]
        ensures value { result.now ≡ self.now }
        ensures rule { IsTrue (rule.is_branch self.now) }
    {
        self.token.as_slice()
    }
}

#[tactic(auto, unfolding(sip_message::specs::Via::has_cookie))]
fn has_cookie(branch: &[u8]) -> bool
    ensures { result ≡ via.has_cookie branch.now }
{
    token_eq(&branch[..branch.len().min(COOKIE_LENGTH)], b"z9hG4bK")
}

impl Drop for Branch {
    fn drop(self) {
        let Branch { token: _ } = self;
    }
}
