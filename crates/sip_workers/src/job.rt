//! The work of a piece.

/// Work that a thread can do once.
pub trait Job {
    /// What it makes.
    type Done;

    // Whether the job may make this done.
    ghost gives: { Self → Self.Done → Type 0 };

    fn run(self) -> Self::Done
        ensures { gives self result };
}
