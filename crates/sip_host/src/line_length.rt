//! How long the texts of a header line are.

/// The lengths in bytes of the texts of a header line (RFC 3261, section 7.3.1).
#[derive(Clone, Copy)]
pub struct LineLength {
    pub name: usize,
    pub value: usize,
}
