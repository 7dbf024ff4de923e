//! Parameters (RFC 3261, section 7.3.1).
ghost use Rattle.std.specs.Prelude.{◌≡◌};

use crate::parameter_value::ParameterValue;
use crate::token::Token;
use std::alloc::AllocError;

/// A parameter: a name, and a value if it has one.
pub struct Parameter {
    pub name: Token,
    pub value: Option<ParameterValue>,
}

impl Drop for Parameter {
    fn drop(self) {
        let Parameter { name: _, value: _ } = self;
    }
}

impl Clone for Parameter {
    ghost is_clone = { λ original copy. copy ≡ original };

    fn clone(&self) -> Result<Parameter, AllocError> {
        Ok(Parameter {
            name: self.name.clone()?,
            value: self.value.clone()?,
        })
    }
}
