//! A text that satisfies a rule of the grammar by its type.
ghost use Rattle.std.specs.Prelude.{◌≡◌, ℕ, Bool, List, IfOk, IsTrue, nat_eq};
ghost use Rattle.std.specs.Option.{SomeIff};
ghost use Rattle.std.specs.Cmp.{partial_equiv_from_equiv, partial_order_from_own_ties};
ghost use Rattle.std.specs.Cmp.Lexicographic.{pointwise, nat_list_eq_equiv, slice_cmp};
ghost use Rattle.std.specs.Cmp.Rules.{comparing, hashing};
ghost use Rattle.std.specs.Ordering.{nat_cmp, as_partial_cmp};
ghost use Rattle.std.proofs.Common.{rules};
ghost use Rattle.sip_text.specs.Hashed.{text_writes};

use sip_text::Text;
use std::alloc::{AllocError, Global};
use std::cmp::Ordering;
use std::hash::{Hash, Hasher};
use std::marker::{Model, PhantomData};

/// A rule that a text may satisfy.
pub trait Rule {
    // Whether a text satisfies it.
    ghost holds: { List ℕ → Bool };

    /// Whether the text satisfies it.
    fn test(text: &[u8]) -> bool
        ensures { result ≡ holds text.now };
}

/// A text that satisfies a rule. Compared byte by byte.
pub struct Checked<R: Rule> {
    text: Text,
    rule: PhantomData<R>,
}

impl<R: Rule> Model for Checked<R> {
    ghost use Rattle.std.specs.Prelude.{ℕ, List, IsTrue};

    ghost Value = { List ℕ };

    ghost view = { λ a. a.text };

    ghost invariant = { λ a. IsTrue (R.holds a.text) };
}

impl<R: Rule> Checked<R> {
    /// The text, if it satisfies the rule.
    pub fn new(text: Text) -> Option<Checked<R>>
        ensures { SomeIff result (IsTrue (R.holds text)) text }
    {
        if R::test(text.as_slice()) {
            Some(Checked {
                text,
                rule: PhantomData,
            })
        } else {
            None
        }
    }

    /// The text, which satisfies the rule.
    pub fn from_text(text: Text) -> Checked<R>
        requires { IsTrue (R.holds text) }
        ensures { result ≡ text }
    {
        Checked {
            text,
            rule: PhantomData,
        }
    }

    /// A copy of the text, which satisfies the rule.
    pub fn copy_of(alloc: Global, text: &[u8]) -> Result<Checked<R>, AllocError>
        requires { IsTrue (R.holds text.now) }
        ensures { IfOk result (λ made. made ≡ text.now) }
    {
        Ok(Checked::from_text(Text::copy_of(alloc, text)?))
    }

    pub fn as_slice(&self) -> &[u8]
        ensures value { result.now ≡ self.now }
        ensures rule { IsTrue (R.holds self.now) }
    {
        self.text.as_slice()
    }

    /// The plain text, given back without taking memory.
    pub fn into_text(self) -> Text
        ensures value { result ≡ self }
        ensures rule { IsTrue (R.holds self) }
    {
        let Checked { text, rule: _ } = self;
        text
    }
}

impl<R: Rule> Drop for Checked<R> {
    fn drop(self) {
        let Checked { text: _, rule: _ } = self;
    }
}

impl<R: Rule> Clone for Checked<R> {
    ghost is_clone = { λ original copy. copy ≡ original };

    fn clone(&self) -> Result<Checked<R>, AllocError> {
        Ok(Checked {
            text: self.text.clone()?,
            rule: PhantomData,
        })
    }
}

impl<R: Rule> PartialEq for Checked<R> {
    ghost eq = { pointwise nat_eq };

    ghost laws = { partial_equiv_from_equiv nat_list_eq_equiv };

    fn eq(&self, other: &Checked<R>) -> bool {
        self.text == other.text
    }
}

impl<R: Rule> Eq for Checked<R> {
    ghost laws = { nat_list_eq_equiv };
}

impl<R: Rule> PartialOrd for Checked<R> {
    ghost partial_cmp = { as_partial_cmp (slice_cmp nat_cmp) };

    ghost laws = { partial_order_from_own_ties (Prim.search (comparing, rules))
        (Prim.search (comparing, rules)) };

    fn partial_cmp(&self, other: &Checked<R>) -> Option<Ordering> {
        Some(self.cmp(other))
    }
}

impl<R: Rule> Ord for Checked<R> {
    ghost cmp = { slice_cmp nat_cmp };

    ghost total = { Prim.search (comparing, rules) };

    ghost matches_partial_cmp = { Prim.search (comparing, rules) };

    ghost matches_eq = { Prim.search (comparing, rules) };

    fn cmp(&self, other: &Checked<R>) -> Ordering {
        self.text.cmp(&other.text)
    }
}

impl<R: Rule> Hash for Checked<R> {
    ghost hash_input = { text_writes };

    ghost respects_eq = { Prim.search (hashing, rules) };

    fn hash<H: Hasher>(&self, state: &mut H) {
        self.text.hash(state);
    }
}
