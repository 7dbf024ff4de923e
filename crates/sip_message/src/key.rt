//! The keys of transactions (RFC 3261, sections 17.1.3 and 17.2.3).
ghost use Rattle.std.specs.Prelude.{◌≡◌, IfOk};
ghost use Rattle.std.specs.Ordering.{eq_by_cmp, as_partial_cmp};
ghost use Rattle.std.specs.Cmp.{eq_by_cmp_equiv, partial_equiv_from_equiv, partial_order_from_total};
ghost use Rattle.std.specs.Cmp.Rules.{comparing};
ghost use Rattle.std.proofs.Common.{rules, refl};
ghost use Rattle.sip_message.specs.Key as keys;
ghost use Rattle.sip_message.specs.Keys.{hashed_alike};

use crate::sent_by::SentBy;
use crate::shared_key::SharedKey;
use sip_grammar::{LowerText, Token};
use sip_text::byte_order;
use std::alloc::{AllocError, Global};
use std::cmp::Ordering;
use std::hash::{Hash, Hasher};

/// What identifies a transaction. Client keys come before server keys; then keys are in the order
/// of branch, host, port and method.
pub enum Key {
    /// A client's: its top branch, and the method of its CSeq.
    Client {
        branch: LowerText,
        method: Token,
    },
    /// A server's: the top branch and sent-by of the request, and its method; that of an ACK is
    /// INVITE.
    Server {
        branch: LowerText,
        sent_by: SentBy,
        method: Token,
    },
}

impl Key {
    /// The key of a client transaction, with the branch in lower case.
    pub fn client(alloc: Global, branch: &[u8], method: Token) -> Result<SharedKey, AllocError>
        ensures { IfOk result (λ key. key ≡ keys.client_key branch.now method) }
    {
        let branch = LowerText::of(alloc, branch)?;
        SharedKey::new(alloc, Key::Client { branch, method })
    }

    /// The key of a server transaction, with the branch and the host in lower case.
    pub fn server(
        alloc: Global,
        branch: &[u8],
        host: &[u8],
        port: u16,
        method: Token,
    ) -> Result<SharedKey, AllocError>
        ensures { IfOk result (λ key. key ≡ keys.server_key branch.now host.now port method) }
    {
        let key = Key::Server {
            branch: LowerText::of(alloc, branch)?,
            sent_by: SentBy {
                host: LowerText::of(alloc, host)?,
                port,
            },
            method,
        };
        SharedKey::new(alloc, key)
    }

    /// The branch, by which transactions are cut into shards.
    pub fn branch(&self) -> &[u8]
        ensures { result.now ≡ keys.branch_in self.now }
    {
        match self {
            Key::Client { branch, .. } | Key::Server { branch, .. } => branch.as_slice(),
        }
    }

    fn side(&self) -> u8
        ensures { result ≡ keys.side_of self.now }
    {
        match self {
            Key::Client { .. } => 0,
            Key::Server { .. } => 1,
        }
    }

    fn host(&self) -> &[u8]
        ensures { result.now ≡ keys.host_in self.now }
    {
        match self {
            Key::Client { .. } => &[],
            Key::Server { sent_by, .. } => sent_by.host.as_slice(),
        }
    }

    fn port(&self) -> u16
        ensures { result ≡ keys.port_in self.now }
    {
        match self {
            Key::Client { .. } => 0,
            Key::Server { sent_by, .. } => sent_by.port,
        }
    }

    fn method(&self) -> &[u8]
        ensures { result.now ≡ keys.method_in self.now }
    {
        match self {
            Key::Client { method, .. } | Key::Server { method, .. } => method.as_slice(),
        }
    }
}

impl Drop for Key {
    fn drop(self) {
        match self {
            Key::Client {
                branch: _,
                method: _,
            } => {}
            Key::Server {
                branch: _,
                sent_by: _,
                method: _,
            } => {}
        }
    }
}

impl Clone for Key {
    ghost is_clone = { λ original copy. copy ≡ original };

    fn clone(&self) -> Result<Key, AllocError> {
        match self {
            Key::Client { branch, method } => Ok(Key::Client {
                branch: branch.clone()?,
                method: method.clone()?,
            }),
            Key::Server {
                branch,
                sent_by,
                method,
            } => Ok(Key::Server {
                branch: branch.clone()?,
                sent_by: sent_by.clone()?,
                method: method.clone()?,
            }),
        }
    }
}

impl PartialEq for Key {
    ghost eq = { eq_by_cmp keys.key_cmp };

    ghost laws = { partial_equiv_from_equiv (eq_by_cmp_equiv keys.keys_total) };

    fn eq(&self, other: &Key) -> bool {
        self.cmp(other).is_eq()
    }
}

impl Eq for Key {
    ghost laws = { eq_by_cmp_equiv keys.keys_total };
}

impl PartialOrd for Key {
    ghost partial_cmp = { as_partial_cmp keys.key_cmp };

    ghost laws = { partial_order_from_total keys.keys_total };

    fn partial_cmp(&self, other: &Key) -> Option<Ordering> {
        Some(self.cmp(other))
    }
}

impl Ord for Key {
    ghost cmp = { keys.key_cmp };

    ghost total = { keys.keys_total };

    ghost matches_partial_cmp = { Prim.search (comparing, rules) };

    ghost matches_eq = { λ one other. refl };

    fn cmp(&self, other: &Key) -> Ordering {
        let side = self.side().cmp(&other.side());
        if side.is_ne() {
            return side;
        }
        let branch = byte_order(self.branch(), other.branch());
        if branch.is_ne() {
            return branch;
        }
        byte_order(self.host(), other.host())
            .then(self.port().cmp(&other.port()))
            .then(byte_order(self.method(), other.method()))
    }
}

impl Hash for Key {
    ghost hash_input = { keys.key_writes };

    ghost respects_eq = { hashed_alike };

    fn hash<H: Hasher>(&self, state: &mut H) {
        state.write(self.branch());
        state.write(self.host());
        state.write_u16(self.port());
        state.write(self.method());
    }
}
