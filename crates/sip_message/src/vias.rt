//! The Via values of a message.
ghost use Rattle.std.specs.Prelude.{◌≡◌, IsTrue, Some, codes, take};
ghost use Rattle.sip_grammar.specs.Parameters.{value_named};
ghost use Rattle.std.specs.List.{slice_get};
ghost use Rattle.std.specs.Option.{SomeIff, option_copied};
ghost use Rattle.sip_message.specs.Via as via;

use crate::via::Via;
use sip_grammar::Parameters;
use sip_text::{Series, token_eq};
use std::alloc::{AllocError, Global};
use std::marker::Model;
use std::mem;

/// Via values, the top one first. There is at least one, and the branch of the top one begins with
/// `z9hG4bK`, in any case of the letters. A contract sees them as their list.
pub struct Vias {
    vias: Series<Via>,
}

impl Model for Vias {
    ghost use Rattle.std.specs.Prelude.{List, IsTrue};
    ghost use Rattle.sip_message.specs.declared.via.Via.{Via};
    ghost use Rattle.sip_message.specs.Via.{are_vias};

    ghost Value = { List Via };

    ghost view = { λ a. a.vias };

    ghost invariant = { λ a. IsTrue (are_vias a.vias) };
}

impl Vias {
    /// These values, or None if there is none, or the first has no such branch.
    pub fn new(vias: Series<Via>) -> Option<Vias>
        ensures { SomeIff result (IsTrue (via.are_vias vias)) vias }
    {
        if are_vias(vias.as_slice()) {
            Some(Vias { vias })
        } else {
            None
        }
    }

    /// These values.
    pub fn from_series(vias: Series<Via>) -> Vias
        requires { IsTrue (via.are_vias vias) }
        ensures { result ≡ vias }
    {
        Vias { vias }
    }

    /// The top value.
    #[tactic(auto, unfolding(crate::specs::Via::are_vias))]
    pub fn top(&self) -> &Via
        ensures { slice_get self.now 0 ≡ Some result.now }
    {
        &self.vias.as_slice()[0]
    }

    /// Replaces the parameters of the top value by others with the same branch.
    #[tactic(auto, unfolding(crate::specs::Via::are_vias), using(crate::proofs::Stamps::kept_top))]
    pub(crate) fn set_top_parameters(&mut self, alloc: Global, parameters: Parameters)
        requires { value_named (codes "branch") parameters ≡ via.first_branch self.old }
        ensures { self.new ≡ via.with_top_parameters self.old parameters }
    {
        let mut vias = mem::replace(&mut self.vias, Series::new(alloc)).into_vec();
        vias[0].parameters = parameters;
        self.vias = Series::from_vec(vias);
    }

    pub fn as_slice(&self) -> &[Via]
        ensures value { result.now ≡ self.now }
        ensures rule { IsTrue (via.are_vias self.now) }
    {
        self.vias.as_slice()
    }
}

impl Drop for Vias {
    fn drop(self) {
        let Vias { vias: _ } = self;
    }
}

impl Clone for Vias {
    ghost is_clone = { λ original copy. copy ≡ original };

    fn clone(&self) -> Result<Vias, AllocError> {
        Ok(Vias {
            vias: self.vias.clone()?,
        })
    }
}

#[tactic(auto, unfolding(crate::specs::Via::are_vias))]
fn are_vias(vias: &[Via]) -> bool
    ensures { result ≡ via.are_vias vias.now }
{
    match vias {
        [] => false,
        [top, ..] => has_cookie(top.branch()),
    }
}

/// Whether the branch begins with `z9hG4bK`, in any case of the letters.
#[tactic(auto, unfolding(crate::specs::Via::has_cookie))]
pub(crate) fn has_cookie(branch: &[u8]) -> bool
    ensures { result ≡ via.has_cookie branch.now }
{
    token_eq(&branch[..branch.len().min(7)], b"z9hG4bK")
}
