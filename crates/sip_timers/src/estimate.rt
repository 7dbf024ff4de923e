//! The estimate of a round trip (T1), and an interval made of it.

/// T1, the estimate of a round trip and the first interval between repeats, in ms (RFC 3261,
/// section 17.1.1.1).
pub const T1: u32 = 500;

/// 64 times T1, in ms: how long an answer or an acknowledgment is waited for.
pub const LIFETIME: u32 = 64 * T1;
