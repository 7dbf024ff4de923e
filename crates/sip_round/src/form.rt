//! The form in which a round gives its outputs. The same code leads a round for both forms. The
//! form without places keeps none.

ghost use Rattle.std.specs.Prelude.{◌≡◌, ℕ, ◌++◌, ◌∷◌, [], IfOk, OnOk, unwrap_or, slice_get};
ghost use Rattle.sip_round.specs.Steps.Form.{ArePlacesOf};

use crate::output::{Output, PlacedOutput};
use sip_message::Id;
use sip_user::Item;
use std::alloc::{AllocError, Global};

/// How a round gives its outputs: by themselves, or each with the place of its event.
pub(crate) trait Form: Sized + Drop {
    ghost use Rattle.sip_round.specs.declared.output.Output.{Output};

    /// The places of the events of the calls' items, if outputs are given with places.
    type Places: Drop;

    /// The output for the event at a place, in this form.
    ghost form: { ℕ → Output → Self };

    /// The place that was kept for the item at an index.
    ghost place_at: { Self.Places → ℕ → ℕ };

    /// Puts an output for the event at this place behind the others, in this form.
    fn push(outputs: &mut Vec<Self>, place: u32, output: Output) -> Result<(), AllocError>
        ensures { OnOk result (outputs.new.items ≡ outputs.old.items ++ form place output ∷ []) };

    /// What has to be kept to know the places of these items.
    fn places_of(alloc: Global, items: &[(Id, Item)]) -> Result<Self::Places, AllocError>
        ensures { IfOk result (ArePlacesOf form place_at items.now) };

    /// The place that was kept for the item at this index.
    fn place(places: &Self::Places, index: usize) -> u32
        ensures { result ≡ place_at places.now index };
}

impl Form for Output {
    type Places = ();

    ghost form = { λ place output. output };

    ghost place_at = { λ places index. 0 };

    fn push(outputs: &mut Vec<Output>, _place: u32, output: Output) -> Result<(), AllocError> {
        Ok(outputs.push(output)?)
    }

    fn places_of(_alloc: Global, _items: &[(Id, Item)]) -> Result<(), AllocError> {
        Ok(())
    }

    fn place(_places: &(), _index: usize) -> u32 {
        0
    }
}

impl Form for PlacedOutput {
    type Places = Vec<u32>;

    ghost form = { λ place output. record { place = place; output = output } };

    ghost place_at = { λ places index. unwrap_or (slice_get places.items index) 0 };

    fn push(outputs: &mut Vec<PlacedOutput>, place: u32, output: Output) -> Result<(), AllocError> {
        Ok(outputs.push(PlacedOutput { place, output })?)
    }

    fn places_of(alloc: Global, items: &[(Id, Item)]) -> Result<Vec<u32>, AllocError> {
        let mut places = Vec::with_capacity(alloc, items.len())?;
        for (id, _) in items {
            places.push(id.place)?;
        }
        Ok(places)
    }

    fn place(places: &Vec<u32>, index: usize) -> u32 {
        places.get(index).copied().unwrap_or(0)
    }
}
