//! Parameters (RFC 3261, section 7.3.1).
ghost use Rattle.std.specs.Prelude.{◌≡◌, IfOk};
ghost use Rattle.sip_grammar.specs.ParameterValues as values;

use sip_grammar::{Parameters, first_parameter};
use sip_text::{Separator, is_blanks};
use std::alloc::{AllocError, Global};

/// Nothing, or parameters, each after a semicolon.
pub(crate) fn parameters_behind(
    alloc: Global,
    text: &[u8],
) -> Result<Option<Parameters>, AllocError>
    ensures { IfOk result (λ made. made ≡ values.all_parameters text.now) }
{
    match text {
        [] => Ok(Some(Parameters::new(alloc))),
        [b';', behind @ ..] => parameters_between(alloc, behind),
        _ => parameters_behind_blanks(alloc, text),
    }
}

/// The same, with white space allowed before the first semicolon.
fn parameters_behind_blanks(alloc: Global, text: &[u8]) -> Result<Option<Parameters>, AllocError>
    ensures { IfOk result (λ made. made ≡ values.all_parameters text.now) }
{
    let Some((before, behind)) = Separator::Byte(b';').cut(text) else {
        return Ok(if is_blanks(text) {
            Some(Parameters::new(alloc))
        } else {
            None
        });
    };
    if !is_blanks(before) {
        return Ok(None);
    }
    parameters_between(alloc, behind)
}

/// One parameter or more, with semicolons between them.
pub(crate) fn parameters_between(
    alloc: Global,
    text: &[u8],
) -> Result<Option<Parameters>, AllocError>
    ensures { IfOk result (λ made. made ≡ values.many_parameters text.now) }
{
    let mut parameters = Parameters::with_room(alloc, text.len() + 1)?;
    let mut rest = text;
    while let Some((parameter, after)) = first_parameter(rest) {
        parameters = parameters.with(parameter)?;
        match after {
            Some(after) => rest = after,
            None => return Ok(Some(parameters)),
        }
    }
    Ok(None)
}
