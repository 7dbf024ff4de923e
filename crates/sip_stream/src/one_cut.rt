//! Cuts of which there is only one value.

ghost use Rattle.std.specs.Prelude.{◌≡◌, refl};

use sip_message::{Cut, First, Spread};

/// A cut of which there is only one value. So two agents that have such a cut are cut alike.
pub trait OneCut: Cut {
    /// Any two are the same.
    ghost alike: { (one other : Self) → one ≡ other };
}

impl OneCut for Spread {
    ghost alike = { λ one other. refl };
}

impl OneCut for First {
    ghost alike = { λ one other. refl };
}
