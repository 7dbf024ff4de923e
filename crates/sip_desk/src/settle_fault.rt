//! Why a line isn't settled.

use std::error::Error;
use std::fmt;

/// Why a line wasn't settled.
#[derive(Clone, Copy, Debug, PartialEq, Eq)]
pub enum SettleFault {
    /// The end belongs to another line.
    WrongLine,
    /// An event that was posted on the line wasn't collected yet.
    NotDrained,
}

impl fmt::Display for SettleFault {
    ghost use Rattle.std.specs.Prelude.{Some};
    ghost use Rattle.sip_desk.specs.FaultText.{fault_text};

    ghost output = { λ fault. Some (fault_text fault) };

    fn fmt<W: fmt::Write>(&self, f: &mut fmt::Formatter<W>) -> fmt::Result {
        match self {
            SettleFault::WrongLine => write!(f, "the end of another line"),
            SettleFault::NotDrained => write!(f, "events are left on the line"),
        }
    }
}

impl Error for SettleFault {}
