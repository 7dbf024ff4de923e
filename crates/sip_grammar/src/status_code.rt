//! The status code of a response (RFC 3261, section 7.2).
ghost use Rattle.std.specs.Prelude.{◌≡◌, ◌≤◌};
ghost use Rattle.std.specs.Option.{SomeIff};

use std::marker::Model;

/// A status code, from 100 to 699.
#[derive(Clone, Copy, PartialEq, Eq)]
pub struct StatusCode {
    code: u16,
}

impl Model for StatusCode {
    ghost use Rattle.std.specs.Prelude.{ℕ, ◌≤◌};

    ghost Value = { ℕ };

    ghost view = { λ a. a.code };

    ghost invariant = { λ a. (100 ≤ a.code) × (a.code ≤ 699) };

    ghost inverse = { λ code. record { code = code } };
}

impl StatusCode {
    /// The lowest status of a final response.
    pub const FIRST_FINAL: u16 = 200;

    /// The lowest status above 2xx.
    pub const FIRST_REJECTING: u16 = 300;

    /// The status code of this number, or None outside 100 to 699.
    pub fn new(code: u16) -> Option<StatusCode>
        ensures { SomeIff result ((100 ≤ code) × (code ≤ 699)) code }
    {
        if (100..=699).contains(&code) {
            Some(StatusCode { code })
        } else {
            None
        }
    }

    /// The status code of this number.
    pub fn from_code(code: u16) -> StatusCode
        requires low { 100 ≤ code }
        requires high { code ≤ 699 }
        ensures { result ≡ code }
    {
        StatusCode { code }
    }

    /// Its number.
    pub fn code(self) -> u16
        ensures value { result ≡ self }
        ensures low { 100 ≤ result }
        ensures high { result ≤ 699 }
    {
        self.code
    }
}
