//! Why a command of the user is refused.

/// Why a command was refused. A refused command changes nothing.
#[derive(Clone, Copy, Debug, PartialEq, Eq)]
pub enum Refusal {
    /// A call with this Call-ID is already held.
    CallInUse = 1,
    /// No call with this Call-ID is held.
    NoSuchCall = 2,
    /// No dialog with these tags is held.
    NoSuchDialog = 3,
    /// No request with this id is held.
    NoSuchRequest = 4,
    /// The request has its final response.
    AlreadyFinal = 5,
    /// The status isn't from 101 to 699.
    BadStatus = 6,
    /// A reliable provisional response still waits for its PRACK.
    ReliablePending = 7,
    /// This request can't get a reliable response.
    NotSupported = 8,
    /// No ACK is owed.
    NothingToAck = 9,
    /// No PRACK is owed.
    NothingToPrack = 10,
    /// The sequence numbers of the dialog are used up.
    SequenceUsedUp = 11,
    /// The first route is a strict router.
    StrictRoute = 12,
    /// The dialog has ended.
    DialogEnded = 13,
    /// A request with this method can't be sent by this command.
    BadMethod = 14,
}

impl Refusal {
    ghost use Rattle.std.specs.Prelude.{◌≡◌};
    ghost use Rattle.sip_user.specs.Refusal.{number_of};

    /// The number that stands for the refusal in an output file.
    pub fn number(self) -> u8
        ensures { result ≡ number_of self }
    {
        self as u8
    }
}
