//! A gate is called when a piece begins.

/// It is called as a piece begins, on the thread that runs the piece.
pub trait Gate: Sync {
    fn begin(&self, shard: usize);
}

/// A gate that holds up no piece of work.
pub struct OpenGate;

impl Gate for OpenGate {
    fn begin(&self, _shard: usize) {}
}
