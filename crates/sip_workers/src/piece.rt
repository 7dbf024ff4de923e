//! A piece of work: a job and the number of its shard.

/// The work of one shard.
#[derive(Drop)]
pub struct Piece<J> {
    pub shard: usize,
    pub job: J,
}
