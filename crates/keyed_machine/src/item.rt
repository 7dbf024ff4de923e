//! An input of one key in a phase.

/// An input of one key.
#[derive(Drop)]
pub struct Item<K, I> {
    /// Its place among all items of its phase. The outputs that it adds are told with this place.
    pub place: usize,
    pub key: K,
    pub input: I,
}
