//! The tokens that most messages have.
ghost use Rattle.std.specs.Prelude.{◌≡◌, IfSome};
ghost use Rattle.sip_grammar.specs.UsualToken.{bytes_of};

/// A token that takes no memory.
#[derive(Clone, Copy)]
pub(crate) enum UsualToken {
    Udp,
    Tag,
    Ack,
    Bye,
    Tcp,
    Tls,
    Info,
    Rport,
    Prack,
    Timer,
    Branch,
    Invite,
    Cancel,
    Reliable,
    Options,
    Received,
}

impl UsualToken {
    /// The usual token of these bytes.
    pub(crate) fn of(text: &[u8]) -> Option<UsualToken>
        ensures { IfSome result (λ usual. bytes_of usual ≡ text.now) }
    {
        for usual in UsualToken::of_length(text.len()) {
            if usual.as_slice() == text {
                return Some(*usual);
            }
        }
        None
    }

    // Those of so many bytes.
    fn of_length(bytes: usize) -> &'static [UsualToken] {
        match bytes {
            3 => &[
                UsualToken::Udp,
                UsualToken::Tag,
                UsualToken::Ack,
                UsualToken::Bye,
                UsualToken::Tcp,
                UsualToken::Tls,
            ],
            4 => &[UsualToken::Info],
            5 => &[UsualToken::Rport, UsualToken::Prack, UsualToken::Timer],
            6 => &[
                UsualToken::Branch,
                UsualToken::Invite,
                UsualToken::Cancel,
                UsualToken::Reliable,
            ],
            7 => &[UsualToken::Options],
            8 => &[UsualToken::Received],
            _ => &[],
        }
    }

    pub(crate) fn as_slice(self) -> &'static [u8]
        ensures { result.now ≡ bytes_of self }
    {
        match self {
            UsualToken::Udp => b"UDP",
            UsualToken::Tag => b"tag",
            UsualToken::Ack => b"ACK",
            UsualToken::Bye => b"BYE",
            UsualToken::Tcp => b"TCP",
            UsualToken::Tls => b"TLS",
            UsualToken::Info => b"INFO",
            UsualToken::Rport => b"rport",
            UsualToken::Prack => b"PRACK",
            UsualToken::Timer => b"timer",
            UsualToken::Branch => b"branch",
            UsualToken::Invite => b"INVITE",
            UsualToken::Cancel => b"CANCEL",
            UsualToken::Reliable => b"100rel",
            UsualToken::Options => b"OPTIONS",
            UsualToken::Received => b"received",
        }
    }
}
