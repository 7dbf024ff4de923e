//! Parameters as text (RFC 3261, section 7.3.1).
ghost use Rattle.std.specs.Prelude.{◌≡◌, false, IfErr, IfOk, IfSome, IsTrue, map};
ghost use Rattle.std.specs.Option.{option_copied, option_map};
ghost use Rattle.sip_text.specs.Character as character;
ghost use Rattle.sip_text.specs.Forms.{split};
ghost use Rattle.sip_text.specs.Parameter as parameter;
ghost use Rattle.sip_text.specs.Pieces as pieces;
ghost use Rattle.sip_text.specs.Token.{is_token};
ghost use Rattle.sip_text.specs.declared.separator.Separator.TheVariants as separator;

use crate::character::is_blank;
use crate::fault::TextFault;
use crate::open_quote::has_open_quote;
use crate::quoted::is_quoted;
use crate::run::{ByteClass, is_run};
use crate::separator::Separator;
use crate::token::is_token;
use crate::trim::trimmed;
use std::alloc::{AllocError, Global};

/// A parameter as it stands in a text: its name, and its value if it has one. A quoted string keeps
/// its quotes.
#[derive(Clone, Copy)]
pub struct ParameterText<'a> {
    pub name: &'a [u8],
    pub value: Option<&'a [u8]>,
}

/// The parameters of a text, each of which begins with `;`. None if the text is empty or white
/// space.
///
/// # Errors
///
/// OpenQuote if a quoted string has no end, otherwise NotAToken if a piece isn't a parameter;
/// NoMemory.
pub fn params(alloc: Global, text: &[u8]) -> Result<Vec<ParameterText<'_>>, TextFault>
    ensures parameters { IfOk result
        (λ found. pieces.AreClosedParameters (map pieces.parameter_now found.items) text.now) }
    ensures fault { IfErr result (λ fault. pieces.TellsParameters fault text.now) }
{
    if has_open_quote(text) {
        return Err(TextFault::OpenQuote);
    }
    match parameters_in(alloc, text)? {
        Some(parameters) => Ok(parameters),
        None => Err(TextFault::NotAToken),
    }
}

fn parameters_in(alloc: Global, text: &[u8]) -> Result<Option<Vec<ParameterText<'_>>>, AllocError>
    ensures { IfOk result (λ found. option_map (λ v. map pieces.parameter_now v.items) found
        ≡ parameter.parameters_from parameter.parameter_from text.now) }
{
    let Some((before, behind)) = Separator::Byte(b';').cut(text) else {
        return Ok(if is_blanks(text) {
            Some(Vec::new(alloc))
        } else {
            None
        });
    };
    if !is_blanks(before) {
        return Ok(None);
    }
    each_parameter(alloc, behind)
}

fn each_parameter(alloc: Global, text: &[u8]) -> Result<Option<Vec<ParameterText<'_>>>, AllocError>
    ensures { IfOk result (λ found. option_map (λ v. map pieces.parameter_now v.items) found
        ≡ split (separator.Byte 59) parameter.parameter_from text.now) }
{
    let mut parameters = Vec::new(alloc);
    let mut rest = text;
    while let Some((piece, after)) = Separator::Byte(b';').cut(rest) {
        let Some(parameter) = parameter_in(piece) else {
            return Ok(None);
        };
        parameters.push(parameter)?;
        rest = after;
    }
    let Some(last) = parameter_in(rest) else {
        return Ok(None);
    };
    parameters.push(last)?;
    Ok(Some(parameters))
}

/// A name, or a name, `=` and a value, with white space around each. None if the text isn't that.
pub fn parameter_in(text: &[u8]) -> Option<ParameterText<'_>>
    ensures exact { option_map pieces.parameter_now result ≡ parameter.parameter_from text.now }
    ensures name { IfSome result (λ p. IsTrue (is_token p.name.now)) }
    ensures value { IfSome result (λ p.
        IfSome p.value (λ v. IsTrue (parameter.is_parameter_value v.now))) }
{
    match Separator::Byte(b'=').cut(text) {
        None => Some(ParameterText {
            name: name_in(text)?,
            value: None,
        }),
        Some((name, value)) => Some(ParameterText {
            name: name_in(name)?,
            value: Some(value_in(value)?),
        }),
    }
}

fn name_in(text: &[u8]) -> Option<&[u8]>
    ensures exact { option_copied result ≡ parameter.name_from text.now }
    ensures rule { IfSome result (λ name. IsTrue (is_token name.now)) }
{
    let name = trimmed(text);
    if is_token(name) { Some(name) } else { None }
}

fn value_in(text: &[u8]) -> Option<&[u8]>
    ensures exact { option_copied result ≡ parameter.value_from text.now }
    ensures rule { IfSome result (λ value. IsTrue (parameter.is_parameter_value value.now)) }
{
    let value = trimmed(text);
    if is_parameter_value(value) {
        Some(value)
    } else {
        None
    }
}

/// Whether the text has only spaces and tabs, or nothing.
pub fn is_blanks(text: &[u8]) -> bool
    ensures { result ≡ parameter.is_blanks text.now }
{
    text.iter().all(|byte| is_blank(*byte))
}

/// Whether the text is a parameter's value.
#[tactic(auto, unfolding(crate::specs::Parameter::is_parameter_value))]
pub fn is_parameter_value(text: &[u8]) -> bool
    ensures { result ≡ parameter.is_parameter_value text.now }
{
    is_quoted(text) || is_value_word(text)
}

/// Whether the text is a parameter's value without quotes.
#[tactic(auto, unfolding(crate::specs::Parameter::is_value_word))]
pub fn is_value_word(text: &[u8]) -> bool
    ensures { result ≡ parameter.is_value_word text.now }
{
    is_run::<ValueBytes>(text)
}

// An x at the place of each byte of a value without quotes.
#[rattlefmt::skip]
static VALUE_BYTES: [u8; 256] = *b"\
    xxxxxxxxx..xx.xxxxxxxxxxxxxxxxxx\
    .x.xxxxxxxxx.xxxxxxxxxxxxxx..x.x\
    xxxxxxxxxxxxxxxxxxxxxxxxxxxxxxxx\
    xxxxxxxxxxxxxxxxxxxxxxxxxxxxxxxx\
    xxxxxxxxxxxxxxxxxxxxxxxxxxxxxxxx\
    xxxxxxxxxxxxxxxxxxxxxxxxxxxxxxxx\
    xxxxxxxxxxxxxxxxxxxxxxxxxxxxxxxx\
    xxxxxxxxxxxxxxxxxxxxxxxxxxxxxxxx";

/// The bytes of a parameter's value without quotes.
pub struct ValueBytes;

impl ByteClass for ValueBytes {
    ghost use Rattle.sip_text.specs.Parameter.{is_value_byte};

    ghost holds = { is_value_byte };

    fn test(byte: u8) -> bool {
        VALUE_BYTES[usize::from(byte)] == b'x'
    }
}
