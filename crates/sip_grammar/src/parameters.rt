//! The parameters of a value, as one text (RFC 3261, section 7.3.1).
ghost use Rattle.std.specs.Prelude.{◌≡◌, ◌++◌, ◌∷◌, [], IfNone, IfOk, IfSome, IsTrue, OnOk};
ghost use Rattle.std.specs.Option.{ForSome, option_copied, option_map};
ghost use Rattle.std.specs.List.{AllByRecursion};
ghost use Rattle.sip_text.specs.Parameter.{is_parameter_value};
ghost use Rattle.sip_text.specs.Token.{is_token};
ghost use Rattle.sip_grammar.specs.ListedParameters.{IsKept, IsNext, listed, as_parameter, stored};
ghost use Rattle.sip_grammar.specs.ParameterRules.{IsParameter};
ghost use Rattle.sip_grammar.specs.Parameters as named;
ghost use Rattle.sip_grammar.specs.WrittenParameters.{parameter_text, parameters_text};

use crate::parameter_text::{FirstParameter, first_parameter};
use sip_text::{ParameterText, Text, token_eq};
use std::alloc::{AllocError, Global};
use std::marker::Model;

/// The bytes reserved beside a value that is set: enough for its `=` and one more parameter such as
/// `;received=192.0.2.100`.
const ROOM_BESIDE_VALUE: usize = 26;

/// Parameters in order, kept as the one text that is written for them. A contract sees them as
/// their list.
pub struct Parameters {
    text: Text,
}

impl Model for Parameters {
    ghost use Rattle.std.specs.Prelude.{List};
    ghost use Rattle.sip_grammar.specs.ListedParameters.{IsKept, listed};
    ghost use Rattle.sip_grammar.specs.declared.parameter.Parameter.{Parameter};

    ghost Value = { List Parameter };

    ghost view = { λ a. listed a.text };

    ghost invariant = { λ a. IsKept a.text };
}

impl Parameters {
    /// No parameters. Takes no memory.
    #[tactic(auto, unfolding(crate::specs::ListedParameters::listed))]
    pub fn new(alloc: Global) -> Parameters
        ensures { result ≡ [] }
    {
        let text = Text::from_vec(Vec::new(alloc));
        Parameters { text }
    }

    /// No parameters, with memory for the text of some: so many bytes.
    #[tactic(auto, unfolding(crate::specs::ListedParameters::listed))]
    pub fn with_room(alloc: Global, bytes: usize) -> Result<Parameters, AllocError>
        ensures { IfOk result (λ made. made ≡ []) }
    {
        let text = Text::from_vec(Vec::with_capacity(alloc, bytes)?);
        Ok(Parameters { text })
    }

    /// The parameters, with this one at the end.
    pub fn with(self, parameter: ParameterText<'_>) -> Result<Parameters, AllocError>
        requires name { IsTrue (is_token parameter.name.now) }
        requires value { ForSome parameter.value (λ v. IsTrue (is_parameter_value v.now)) }
        ensures { IfOk result (λ made. made ≡ self ++ as_parameter parameter.entry ∷ []) }
    {
        let Parameters { text } = self;
        let mut text = text;
        push_parameter(&mut text, parameter)?;
        Ok(Parameters { text })
    }

    /// What is written of them: each after a semicolon, a value after `=`.
    pub fn as_text(&self) -> &[u8]
        ensures value { result.now ≡ parameters_text self.now }
        ensures rules { AllByRecursion IsParameter self.now }
    {
        self.text.as_slice()
    }

    /// The first parameter of this name, compared without case.
    pub fn named(&self, name: &[u8]) -> Option<ParameterText<'_>>
        ensures { option_map as_parameter result ≡ named.parameter_named name.now self.now }
    {
        first_named(behind_first(self.text.as_slice()), name)
    }

    /// The value of the first parameter of this name: empty if there is no such parameter, or it
    /// has no value.
    #[tactic(auto, unfolding(crate::specs::Parameters::value_named))]
    pub fn value_named(&self, name: &[u8]) -> &[u8]
        ensures { result.now ≡ named.value_named name.now self.now }
    {
        match self.named(name) {
            Some(
                ParameterText {
                    value: Some(value),
                    ..
                },
            ) => value,
            _ => &[],
        }
    }

    /// The parameters after the first one of this name got the value; if there is none, a new one
    /// is added at the end.
    pub fn with_value(
        &self,
        alloc: Global,
        name: &[u8],
        value: &[u8],
    ) -> Result<Parameters, AllocError>
        requires name_is { IsTrue (is_token name.now) }
        requires value_is { IsTrue (is_parameter_value value.now) }
        ensures { IfOk result (λ made. made ≡ named.with_value name.now value.now self.now) }
    {
        let room = value.len().saturating_add(ROOM_BESIDE_VALUE);
        let made = Parameters::with_room(alloc, self.text.len().saturating_add(room))?;
        with_value_in(made, behind_first(self.text.as_slice()), name, value)
    }

    /// The same, without a copy if there is no such parameter.
    pub fn and_value(
        self,
        alloc: Global,
        name: &[u8],
        value: &[u8],
    ) -> Result<Parameters, AllocError>
        requires name_is { IsTrue (is_token name.now) }
        requires value_is { IsTrue (is_parameter_value value.now) }
        ensures { IfOk result (λ made. made ≡ named.with_value name.now value.now self) }
    {
        if self.named(name).is_some() {
            return self.with_value(alloc, name, value);
        }
        let value = Some(value);
        self.with(ParameterText { name, value })
    }

    /// The parameters, with those of a text that follows the first semicolon at the end.
    fn with_text(self, behind: Option<&[u8]>) -> Result<Parameters, AllocError>
        requires { IsKept (stored (option_copied behind)) }
        ensures { IfOk result (λ made. made
            ≡ self ++ listed (stored (option_copied behind.entry))) }
    {
        let Parameters { text } = self;
        let mut text = text;
        push_stored(&mut text, behind)?;
        Ok(Parameters { text })
    }
}

#[tactic(auto, unfolding(crate::specs::WrittenParameters::parameter_text))]
fn push_parameter(text: &mut Text, parameter: ParameterText<'_>) -> Result<(), AllocError>
    ensures { OnOk result (text.new ≡ text.old ++ parameter_text (as_parameter parameter.entry)) }
{
    text.extend_from_slice(b";")?;
    text.extend_from_slice(parameter.name)?;
    match parameter.value {
        None => Ok(()),
        Some(value) => {
            text.extend_from_slice(b"=")?;
            text.extend_from_slice(value)
        }
    }
}

fn push_stored(text: &mut Text, behind: Option<&[u8]>) -> Result<(), AllocError>
    ensures { OnOk result (text.new ≡ text.old ++ stored (option_copied behind.entry)) }
{
    match behind {
        None => Ok(()),
        Some(behind) => {
            text.extend_from_slice(b";")?;
            text.extend_from_slice(behind)
        }
    }
}

/// What follows the first semicolon, if there is one.
fn behind_first(text: &[u8]) -> Option<&[u8]>
    requires { IsKept text.now }
    ensures { stored (option_copied result) ≡ text.now }
{
    match text {
        [] => None,
        [_, behind @ ..] => Some(behind),
    }
}

/// The first of the parameters, and what follows the next semicolon.
fn next_kept(rest: Option<&[u8]>) -> Option<FirstParameter<'_>>
    requires { IsKept (stored (option_copied rest)) }
    ensures none { IfNone result (listed (stored (option_copied rest.entry)) ≡ []) }
    ensures some { IfSome result (λ found. IsNext (stored (option_copied rest.entry))
        (as_parameter found.0) (stored (option_copied found.1))) }
    ensures name { IfSome result (λ found. IsTrue (is_token found.0.name.now)) }
    ensures value { IfSome result (λ found.
        IfSome found.0.value (λ v. IsTrue (is_parameter_value v.now))) }
{
    match rest {
        None => None,
        Some(behind) => first_parameter(behind),
    }
}

fn first_named<'a>(rest: Option<&'a [u8]>, name: &[u8]) -> Option<ParameterText<'a>>
    requires { IsKept (stored (option_copied rest)) }
    ensures { option_map as_parameter result
        ≡ named.parameter_named name.now (listed (stored (option_copied rest.entry))) }
{
    let mut rest = rest;
    while let Some((parameter, after)) = next_kept(rest) {
        if token_eq(parameter.name, name) {
            return Some(parameter);
        }
        rest = after;
    }
    None
}

fn with_value_in(
    made: Parameters,
    rest: Option<&[u8]>,
    name: &[u8],
    value: &[u8],
) -> Result<Parameters, AllocError>
    requires kept { IsKept (stored (option_copied rest)) }
    requires name_is { IsTrue (is_token name.now) }
    requires value_is { IsTrue (is_parameter_value value.now) }
    ensures { IfOk result (λ all. all ≡ made
        ++ named.with_value name.now value.now (listed (stored (option_copied rest.entry)))) }
{
    let mut made = made;
    let mut rest = rest;
    while let Some((parameter, after)) = next_kept(rest) {
        if token_eq(parameter.name, name) {
            let name = parameter.name;
            let value = Some(value);
            return made.with(ParameterText { name, value })?.with_text(after);
        }
        made = made.with(parameter)?;
        rest = after;
    }
    let value = Some(value);
    made.with(ParameterText { name, value })
}

impl Drop for Parameters {
    fn drop(self) {
        let Parameters { text: _ } = self;
    }
}

impl Clone for Parameters {
    ghost is_clone = { λ original copy. copy ≡ original };

    fn clone(&self) -> Result<Parameters, AllocError> {
        Ok(Parameters {
            text: self.text.clone()?,
        })
    }
}
