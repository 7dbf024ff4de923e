//! Whether two texts, lists or values on the heap are the same.

use crate::{Boxed, Series, Text};
use sip_same::{SameValue, are_same, are_same_bytes};

impl SameValue for Text {
    fn is_same(&self, other: &Text) -> bool {
        are_same_bytes(self.as_slice(), other.as_slice())
    }
}

impl<T: SameValue> SameValue for Series<T> {
    fn is_same(&self, other: &Series<T>) -> bool {
        are_same(self.as_slice(), other.as_slice())
    }
}

impl<T: SameValue> SameValue for Boxed<T> {
    fn is_same(&self, other: &Boxed<T>) -> bool {
        self.get().is_same(other.get())
    }
}
