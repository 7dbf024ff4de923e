//! The first of several parameters in a text (RFC 3261, section 7.3.1).
ghost use Rattle.std.specs.Prelude.{◌≡◌, ◌++◌, ◌∷◌, IfSome, IsTrue, Some};
ghost use Rattle.std.specs.Option.{option_copied, option_map};
ghost use Rattle.sip_text.specs.Parameter.{is_parameter_value, parameter_from};
ghost use Rattle.sip_text.specs.Pieces.{parameter_now};
ghost use Rattle.sip_text.specs.Token.{is_token};
ghost use Rattle.sip_text.specs.declared.separator.Separator.TheVariants as separator;
ghost use Rattle.sip_grammar.specs.Steps.First.{behind, first, first_now};

use sip_text::{ParameterText, Separator, TokenBytes, ValueBytes, parameter_in, run_len};

/// A parameter, and what follows its semicolon, if there is one.
pub type FirstParameter<'a> = (ParameterText<'a>, Option<&'a [u8]>);

/// The first of several parameters.
pub fn first_parameter(text: &[u8]) -> Option<FirstParameter<'_>>
    ensures exact { option_map (first_now parameter_now) result
        ≡ first (separator.Byte 59) parameter_from text.now }
    ensures name { IfSome result (λ found. IsTrue (is_token found.0.name.now)) }
    ensures value { IfSome result (λ found.
        IfSome found.0.value (λ v. IsTrue (is_parameter_value v.now))) }
{
    match plain_parameter(text) {
        Some(found) => Some(found),
        None => cut_parameter(text),
    }
}

fn cut_parameter(text: &[u8]) -> Option<FirstParameter<'_>>
    ensures exact { option_map (first_now parameter_now) result
        ≡ first (separator.Byte 59) parameter_from text.now }
    ensures name { IfSome result (λ found. IsTrue (is_token found.0.name.now)) }
    ensures value { IfSome result (λ found.
        IfSome found.0.value (λ v. IsTrue (is_parameter_value v.now))) }
{
    match Separator::Byte(b';').cut(text) {
        None => Some((parameter_in(text)?, None)),
        Some((piece, after)) => Some((parameter_in(piece)?, Some(after))),
    }
}

/// The same in one pass. None if it has white space or a quote, or is no parameter.
fn plain_parameter(text: &[u8]) -> Option<FirstParameter<'_>>
    ensures exact { IfSome result (λ found. first (separator.Byte 59) parameter_from text.now
        ≡ Some (first_now parameter_now found)) }
    ensures name { IfSome result (λ found. IsTrue (is_token found.0.name.now)) }
    ensures value { IfSome result (λ found.
        IfSome found.0.value (λ v. IsTrue (is_parameter_value v.now))) }
{
    let (name, rest) = text.split_at(run_len::<TokenBytes>(text));
    if name.is_empty() {
        return None;
    }
    if let [b'=', value @ ..] = rest {
        return plain_value(name, value);
    }
    let after = behind_semicolon(rest)?;
    Some((ParameterText { name, value: None }, after))
}

/// The same if `=` follows the name.
fn plain_value<'a>(name: &'a [u8], text: &'a [u8]) -> Option<FirstParameter<'a>>
    requires { IsTrue (is_token name.now) }
    ensures exact { IfSome result (λ found.
        first (separator.Byte 59) parameter_from (name.now ++ 61 ∷ text.now)
        ≡ Some (first_now parameter_now found)) }
    ensures name { IfSome result (λ found. IsTrue (is_token found.0.name.now)) }
    ensures value { IfSome result (λ found.
        IfSome found.0.value (λ v. IsTrue (is_parameter_value v.now))) }
{
    let (value, rest) = text.split_at(run_len::<ValueBytes>(text));
    if value.is_empty() {
        return None;
    }
    let after = behind_semicolon(rest)?;
    let value = Some(value);
    Some((ParameterText { name, value }, after))
}

/// Nothing at the end of the text, or what follows a semicolon; None if the text begins with
/// another byte.
pub fn behind_semicolon(text: &[u8]) -> Option<Option<&[u8]>>
    ensures { option_map option_copied result ≡ behind 59 text.now }
{
    match text {
        [] => Some(None),
        [b';', after @ ..] => Some(Some(after)),
        _ => None,
    }
}
