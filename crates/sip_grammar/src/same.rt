//! Whether two parts of messages that are texts are the same.

use crate::{Checked, Parameters, PartyParameters, Rule, StatusCode, Token};
use sip_same::{SameValue, are_same_bytes};

impl<R: Rule> SameValue for Checked<R> {
    fn is_same(&self, other: &Checked<R>) -> bool {
        are_same_bytes(self.as_slice(), other.as_slice())
    }
}

impl SameValue for Token {
    fn is_same(&self, other: &Token) -> bool {
        are_same_bytes(self.as_slice(), other.as_slice())
    }
}

impl SameValue for StatusCode {
    fn is_same(&self, other: &StatusCode) -> bool {
        self.code() == other.code()
    }
}

impl SameValue for Parameters {
    // Their texts are the ones that are written for them.
    fn is_same(&self, other: &Parameters) -> bool {
        are_same_bytes(self.as_text(), other.as_text())
    }
}

impl SameValue for PartyParameters {
    fn is_same(&self, other: &PartyParameters) -> bool {
        self.as_parameters().is_same(other.as_parameters())
    }
}
