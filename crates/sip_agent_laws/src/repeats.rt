//! What a call sends again: the 2xx to an INVITE until its ACK comes, and reliable provisional
//! responses until their PRACK comes.

ghost use Rattle.sip_agent_laws.specs.Repeats.HowOften.{EachSuccessIsRepeated};
ghost use Rattle.sip_agent_laws.specs.Repeats.Later.{DueLater};
ghost use Rattle.sip_agent_laws.specs.Repeats.Next.{ProvisionalsNext, SuccessesNext};
ghost use Rattle.sip_agent_laws.specs.Repeats.Repeats.{SentAgain};
ghost use Rattle.sip_agent_laws.specs.Repeats.Stories.{OnlyTicksRepeat, SentAsTold};

/// What goes out at a tick is exactly what is due then, each once: for each held request of the
/// peer its 2xx, and then its reliable provisional responses. What went out is due next after twice
/// the last interval, up to T2 for a 2xx, and nothing else changes when it goes out; so nothing is
/// due again at that moment. Whatever came to the call, what goes out at a tick is also what the
/// tick adds to the stories of these requests, and no message or command adds a repeat (RFC 3261,
/// section 13.3.1.4; RFC 3262, section 3).
pub fn repeated_in_time()
    ensures sent { SentAgain }
    ensures success { SuccessesNext }
    ensures provisionals { ProvisionalsNext }
    ensures later { DueLater }
    ensures told { SentAsTold }
    ensures ticks { OnlyTicksRepeat }
{}

/// A 2xx to an INVITE goes out when the user gives it, and again after T1, then after that interval
/// doubled each time, which is at most T2 (RFC 3261, section 13.3.1.4). Let each tick come at most
/// `lag` ms after what the call finds due. If one comes after the latest moment of so many repeats,
/// all of them have gone out before it, with the same text, through the INVITE's transaction. Only
/// the ACK ends this, or the end of 64*T1, of which the user is told (`told_in_time` of calls). So
/// with no lag a 2xx goes out 11 times in 64*T1.
pub fn a_success_is_repeated()
    ensures { EachSuccessIsRepeated }
{}
