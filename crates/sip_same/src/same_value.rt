//! Whether two values are the same.

ghost use Rattle.std.specs.Prelude.{◌≡◌, ◌↔◌, IsTrue};

/// A value that can be compared with another one of its type, in all that a contract sees of it.
pub trait SameValue {
    /// Whether the other is the same.
    fn is_same(&self, other: &Self) -> bool
        ensures { IsTrue result ↔ (self.now ≡ other.now) };
}

impl SameValue for bool {
    fn is_same(&self, other: &bool) -> bool {
        *self == *other
    }
}

impl SameValue for u16 {
    fn is_same(&self, other: &u16) -> bool {
        *self == *other
    }
}

impl SameValue for u32 {
    fn is_same(&self, other: &u32) -> bool {
        *self == *other
    }
}

impl SameValue for u64 {
    fn is_same(&self, other: &u64) -> bool {
        *self == *other
    }
}

impl<T: SameValue> SameValue for Option<T> {
    fn is_same(&self, other: &Option<T>) -> bool {
        match (self, other) {
            (None, None) => true,
            (Some(value), Some(other)) => value.is_same(other),
            _ => false,
        }
    }
}
