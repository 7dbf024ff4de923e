//! The earlier of two moments.

ghost use Rattle.std.specs.Prelude.{◌≡◌};
ghost use Rattle.sip_timers.specs.Earlier.{earlier};

/// The earlier of two moments, either of which may be missing.
pub fn earlier(moment: Option<u64>, other: Option<u64>) -> Option<u64>
    ensures { result ≡ earlier moment other }
{
    match (moment, other) {
        (None, due) | (due, None) => due,
        (Some(moment), Some(other)) => Some(moment.min(other)),
    }
}
