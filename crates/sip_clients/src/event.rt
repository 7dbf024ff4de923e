//! What an event gives to the requests that it makes.

ghost use Rattle.std.specs.Prelude.{◌≡◌, ◌++◌, IfOk, codes};
ghost use Rattle.seeded_hash.specs.HashSeed.{seed_of};
ghost use Rattle.sip_clients.specs.Event as spec;
ghost use Rattle.sip_clients.specs.Name.{name_of, opening_tag};

use crate::name::{opening_tag, push_name};
use seeded_hash::HashSeed;
use sip_dialog::Branch;
use sip_message::{Addr, Id, Token};
use sip_text::Text;
use std::alloc::{AllocError, Global};

/// The index of a made branch among the names of its event.
const BRANCH_NAME: u8 = 0;

/// An event, its moment in ms, and what its agent makes requests from.
#[derive(Clone, Copy)]
pub struct Event {
    /// The agent's own address.
    pub local: Addr,
    /// The key of the words at the end of made names, and of the hashes.
    pub seed: [u8; 32],
    pub id: Id,
    pub moment: u64,
}

impl Event {
    /// The seed of the hashes of what it starts.
    pub(crate) fn hash_seed(&self) -> HashSeed
        ensures { result ≡ seed_of self.now.seed }
    {
        HashSeed::of(&self.seed)
    }

    /// The branch of the request that it makes (RFC 3261, section 8.1.1.7).
    pub(crate) fn branch(&self, alloc: Global) -> Result<Branch, AllocError>
        ensures { IfOk result (λ branch. branch ≡ spec.branch_of self.now) }
    {
        Ok(Branch::new(self.branch_token(alloc)?).unwrap())
    }

    #[tactic(auto, unfolding(crate::specs::Event::branch_of))]
    fn branch_token(&self, alloc: Global) -> Result<Token, AllocError>
        ensures { IfOk result (λ token. token ≡ spec.branch_of self.now) }
    {
        let mut text = Vec::from_slice(alloc, b"z9hG4bK")?;
        push_name(&mut text, self.seed, self.id, BRANCH_NAME)?;
        Ok(Token::from_text(Text::from_vec(text)))
    }

    /// The From tag of the request that it makes (RFC 3261, section 19.3).
    pub(crate) fn from_tag(&self, alloc: Global) -> Result<Token, AllocError>
        ensures { IfOk result (λ tag. tag ≡ opening_tag self.now.seed self.now.id) }
    {
        opening_tag(alloc, self.seed, self.id)
    }
}
