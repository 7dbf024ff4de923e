//! Why a text isn't a message.
ghost use Rattle.std.specs.Prelude.{◌≡◌, Some};
ghost use Rattle.sip_message.specs.Fault.{fault_name, fault_text};

use sip_grammar::HeaderName;
use std::alloc::{AllocError, AllocFailed};
use std::fmt;

/// What is wrong with a text. The fault is the first of these whose condition is true; NoMemory may
/// be returned in place of the fault that would have followed.
#[derive(Clone, Copy, Debug, PartialEq, Eq)]
pub enum ReadFault {
    /// It has more than 65,535 bytes.
    TooLong,
    /// No empty line follows the start line.
    NoEmptyLine,
    /// The start line is neither a request line nor a status line.
    BadStartLine,
    /// A line isn't a header line, or the value of a header isn't in its form (numbers aside).
    BadHeader,
    /// A mandatory header is missing.
    Missing(HeaderName),
    /// A header that is allowed once is there twice.
    Repeated(HeaderName),
    /// A word in the place of a number isn't a number, or the number is too large.
    BadNumber,
    /// The top Via's branch doesn't begin with `z9hG4bK`.
    OldBranch,
    /// The CSeq of a request has another method.
    MethodMismatch,
    /// Fewer bytes follow the empty line than the Content-Length says.
    Truncated,
    /// Memory ran out.
    NoMemory,
}

impl ReadFault {
    /// The name of the fault.
    pub fn as_str(self) -> &'static str
        ensures { result.now ≡ fault_name self }
    {
        match self {
            ReadFault::TooLong => "TooLong",
            ReadFault::NoEmptyLine => "NoEmptyLine",
            ReadFault::BadStartLine => "BadStartLine",
            ReadFault::BadHeader => "BadHeader",
            ReadFault::Missing(_) => "Missing",
            ReadFault::Repeated(_) => "Repeated",
            ReadFault::BadNumber => "BadNumber",
            ReadFault::OldBranch => "OldBranch",
            ReadFault::MethodMismatch => "MethodMismatch",
            ReadFault::Truncated => "Truncated",
            ReadFault::NoMemory => "NoMemory",
        }
    }
}

/// The fault's name, and after Missing and Repeated a space and the header's name.
impl fmt::Display for ReadFault {
    ghost output = { λ fault. Some (fault_text fault) };

    fn fmt<W: fmt::Write>(&self, f: &mut fmt::Formatter<W>) -> fmt::Result {
        f.write_str(self.as_str())?;
        match self {
            ReadFault::Missing(header) | ReadFault::Repeated(header) => {
                f.write_str(" ")?;
                f.write_str(header.as_str())
            }
            _ => Ok(()),
        }
    }
}

impl From<AllocError> for ReadFault {
    ghost use Rattle.std.specs.Prelude.{◌≡◌};
    ghost use Rattle.sip_message.specs.declared.fault.ReadFault.TheVariants.{NoMemory};

    ghost from_gives = { λ _ fault. fault ≡ NoMemory };

    fn from(_error: AllocError) -> ReadFault {
        ReadFault::NoMemory
    }
}

impl<T: Drop> From<AllocFailed<T>> for ReadFault {
    ghost use Rattle.std.specs.Prelude.{◌≡◌};
    ghost use Rattle.sip_message.specs.declared.fault.ReadFault.TheVariants.{NoMemory};

    ghost from_gives = { λ _ fault. fault ≡ NoMemory };

    fn from(_error: AllocFailed<T>) -> ReadFault {
        ReadFault::NoMemory
    }
}
