//! Tokens: methods, header names, option tags, transports, parameter names and tags (RFC 3261,
//! section 25.1).
ghost use Rattle.std.specs.Prelude.{◌≡◌, IfOk, IfSome, IsTrue, nat_eq};
ghost use Rattle.std.specs.Option.{SomeIff};
ghost use Rattle.std.specs.Cmp.{partial_equiv_from_equiv, partial_order_from_own_ties};
ghost use Rattle.std.specs.Cmp.Lexicographic.{pointwise, nat_list_eq_equiv, slice_cmp};
ghost use Rattle.std.specs.Cmp.Rules.{comparing, hashing};
ghost use Rattle.std.specs.Ordering.{nat_cmp, as_partial_cmp};
ghost use Rattle.std.proofs.Common.{rules};
ghost use Rattle.sip_text.specs.Hashed.{text_writes};
ghost use Rattle.sip_text.specs.Token as rule;

use crate::usual_token::UsualToken;
use sip_text::{Text, byte_order, is_token};
use std::alloc::{AllocError, Global};
use std::cmp::Ordering;
use std::hash::{Hash, Hasher};
use std::marker::Model;

/// One or more letters, digits and marks among ``-.!%*_+`'~``. Compared byte by byte; `token_eq`
/// compares without case. The usual ones take no memory. A contract sees it as the list of its
/// bytes.
pub struct Token {
    place: TokenPlace,
}

// Where the bytes of a token are.
#[derive(Drop)]
enum TokenPlace {
    Usual(UsualToken),
    Own(Text),
}

impl Model for Token {
    ghost use Rattle.std.specs.Prelude.{ℕ, List, IsTrue};
    ghost use Rattle.sip_text.specs.Token.{is_token};
    ghost use Rattle.sip_grammar.specs.TokenPlace.{text_at};

    ghost Value = { List ℕ };

    ghost view = { λ a. text_at a.place };

    ghost invariant = { λ a. IsTrue (is_token (text_at a.place)) };
}

impl Token {
    /// The text as a token, if it is one.
    pub fn new(text: Text) -> Option<Token>
        ensures { SomeIff result (IsTrue (rule.is_token text)) text }
    {
        if is_token(text.as_slice()) {
            Some(Token::from_text(text))
        } else {
            None
        }
    }

    /// The text as a token.
    pub fn from_text(text: Text) -> Token
        requires { IsTrue (rule.is_token text) }
        ensures { result ≡ text }
    {
        Token {
            place: TokenPlace::Own(text),
        }
    }

    /// The text as a token. Takes no memory for a usual one.
    pub fn copy_of(alloc: Global, text: &[u8]) -> Result<Token, AllocError>
        requires { IsTrue (rule.is_token text.now) }
        ensures { IfOk result (λ made. made ≡ text.now) }
    {
        match UsualToken::of(text) {
            Some(usual) => Ok(Token {
                place: TokenPlace::Usual(usual),
            }),
            None => Ok(Token::from_text(Text::copy_of(alloc, text)?)),
        }
    }

    pub fn as_slice(&self) -> &[u8]
        ensures value { result.now ≡ self.now }
        ensures rule { IsTrue (rule.is_token self.now) }
    {
        match &self.place {
            TokenPlace::Usual(usual) => usual.as_slice(),
            TokenPlace::Own(text) => text.as_slice(),
        }
    }

    /// The plain text. Takes memory only for a usual token.
    pub fn into_text(self, alloc: Global) -> Result<Text, AllocError>
        ensures value { IfOk result (λ text. text ≡ self) }
        ensures rule { IsTrue (rule.is_token self) }
    {
        let Token { place } = self;
        match place {
            TokenPlace::Usual(usual) => Text::copy_of(alloc, usual.as_slice()),
            TokenPlace::Own(text) => Ok(text),
        }
    }
}

impl Drop for Token {
    fn drop(self) {
        let Token { place: _ } = self;
    }
}

impl Clone for Token {
    ghost is_clone = { λ original copy. copy ≡ original };

    fn clone(&self) -> Result<Token, AllocError> {
        let place = match &self.place {
            TokenPlace::Usual(usual) => TokenPlace::Usual(*usual),
            TokenPlace::Own(text) => TokenPlace::Own(text.clone()?),
        };
        Ok(Token { place })
    }
}

impl PartialEq for Token {
    ghost eq = { pointwise nat_eq };

    ghost laws = { partial_equiv_from_equiv nat_list_eq_equiv };

    fn eq(&self, other: &Token) -> bool {
        self.as_slice() == other.as_slice()
    }
}

impl Eq for Token {
    ghost laws = { nat_list_eq_equiv };
}

impl PartialOrd for Token {
    ghost partial_cmp = { as_partial_cmp (slice_cmp nat_cmp) };

    ghost laws = { partial_order_from_own_ties (Prim.search (comparing, rules))
        (Prim.search (comparing, rules)) };

    fn partial_cmp(&self, other: &Token) -> Option<Ordering> {
        Some(self.cmp(other))
    }
}

impl Ord for Token {
    ghost cmp = { slice_cmp nat_cmp };

    ghost total = { Prim.search (comparing, rules) };

    ghost matches_partial_cmp = { Prim.search (comparing, rules) };

    ghost matches_eq = { Prim.search (comparing, rules) };

    fn cmp(&self, other: &Token) -> Ordering {
        byte_order(self.as_slice(), other.as_slice())
    }
}

impl Hash for Token {
    ghost hash_input = { text_writes };

    ghost respects_eq = { Prim.search (hashing, rules) };

    fn hash<H: Hasher>(&self, state: &mut H) {
        state.write_usize(self.as_slice().len());
        state.write(self.as_slice());
    }
}
