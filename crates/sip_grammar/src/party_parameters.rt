//! The parameters of a From or a To (RFC 3261, section 19.3).
ghost use Rattle.std.specs.Prelude.{◌≡◌, IsTrue};
ghost use Rattle.std.specs.Option.{SomeIff};
ghost use Rattle.sip_grammar.specs.Tag as tags;

use crate::parameters::Parameters;
use sip_text::{ParameterText, is_token};
use std::alloc::AllocError;
use std::marker::Model;

/// Parameters whose `tag`, if there is one, is a token. A contract sees them as their list.
pub struct PartyParameters {
    parameters: Parameters,
}

impl Model for PartyParameters {
    ghost use Rattle.std.specs.Prelude.{List, IsTrue};
    ghost use Rattle.sip_grammar.specs.declared.parameter.Parameter.{Parameter};
    ghost use Rattle.sip_grammar.specs.Tag.{has_good_tag};

    ghost Value = { List Parameter };

    ghost view = { λ a. a.parameters };

    ghost invariant = { λ a. IsTrue (has_good_tag a.parameters) };
}

impl PartyParameters {
    /// These parameters, or None if the value of the first parameter `tag` isn't a token.
    pub fn new(parameters: Parameters) -> Option<PartyParameters>
        ensures { SomeIff result (IsTrue (tags.has_good_tag parameters)) parameters }
    {
        if has_good_tag(&parameters) {
            Some(PartyParameters { parameters })
        } else {
            None
        }
    }

    /// These parameters.
    pub fn from_parameters(parameters: Parameters) -> PartyParameters
        requires { IsTrue (tags.has_good_tag parameters) }
        ensures { result ≡ parameters }
    {
        PartyParameters { parameters }
    }

    pub fn as_parameters(&self) -> &Parameters
        ensures value { result.now ≡ self.now }
        ensures rule { IsTrue (tags.has_good_tag self.now) }
    {
        &self.parameters
    }

    /// The plain parameters. Takes no memory.
    pub fn into_parameters(self) -> Parameters
        ensures { result ≡ self }
    {
        let PartyParameters { parameters } = self;
        parameters
    }

    /// The tag: empty if there is none.
    pub fn tag(&self) -> &[u8]
        ensures { result.now ≡ tags.tag_in self.now }
    {
        self.parameters.value_named(b"tag")
    }
}

impl Drop for PartyParameters {
    fn drop(self) {
        let PartyParameters { parameters: _ } = self;
    }
}

impl Clone for PartyParameters {
    ghost is_clone = { λ original copy. copy ≡ original };

    fn clone(&self) -> Result<PartyParameters, AllocError> {
        Ok(PartyParameters {
            parameters: self.parameters.clone()?,
        })
    }
}

#[tactic(auto, unfolding(crate::specs::Tag::has_good_tag))]
fn has_good_tag(parameters: &Parameters) -> bool
    ensures { result ≡ tags.has_good_tag parameters.now }
{
    match parameters.named(b"tag") {
        None => true,
        Some(ParameterText { value: None, .. }) => false,
        Some(
            ParameterText {
                value: Some(value),
                ..
            },
        ) => is_token(value),
    }
}
