//! A list of values.
ghost use Rattle.std.specs.Prelude.{◌≡◌, ◌++◌, ◌∷◌, [], ◌==◌, length, OnErr, OnOk};
ghost use Rattle.std.specs.Option.{option_copied};
ghost use Rattle.std.specs.List.{slice_get};
ghost use Rattle.std.specs.Cmp.Lexicographic.{pointwise, lists_per, lists_equiv};

use std::alloc::{AllocError, Global};
use std::marker::Model;

/// Values in order. A contract sees the list of them.
#[derive(Clone, Drop)]
pub struct Series<T> {
    values: Vec<T>,
}

impl<T> Model for Series<T> {
    ghost use Rattle.std.specs.Prelude.{List};

    ghost Value = { List T };

    ghost view = { λ a. a.values.items };
}

impl<T> Series<T> {
    /// A list without values. Takes no memory.
    pub fn new(alloc: Global) -> Series<T>
        ensures { result ≡ [] }
    {
        Series {
            values: Vec::new(alloc),
        }
    }

    /// The list of these values. Takes no memory.
    pub fn from_vec(values: Vec<T>) -> Series<T>
        ensures { result ≡ values.items }
    {
        Series { values }
    }

    /// Its values, given back without taking memory.
    pub fn into_vec(self) -> Vec<T>
        ensures { result.items ≡ self }
    {
        self.values
    }

    pub fn as_slice(&self) -> &[T]
        ensures { result.now ≡ self.now }
    {
        self.values.as_slice()
    }

    /// How many values it has.
    pub fn len(&self) -> usize
        ensures { result ≡ length self.now }
    {
        self.values.len()
    }

    pub fn is_empty(&self) -> bool
        ensures { result ≡ (length self.now == 0) }
    {
        self.values.is_empty()
    }

    /// Its first value, if it has one.
    pub fn first(&self) -> Option<&T>
        ensures { option_copied result ≡ slice_get self.now 0 }
    {
        self.values.as_slice().first()
    }

    /// Adds a value at its end. If memory runs out, the list stays as it is and the value is lost.
    #[inline(always)]
    pub fn push(&mut self, value: T) -> Result<(), AllocError>
    where
        T: Drop,
        ensures ok { OnOk result (self.new ≡ self.old ++ value ∷ []) }
        ensures err { OnErr result (self.new ≡ self.old) }
    {
        self.values.push(value)?;
        Ok(())
    }

    /// Adds these values at its end. Takes no memory if one of the lists is empty. If memory runs
    /// out, it isn't known what the list holds.
    pub fn append(&mut self, values: Series<T>) -> Result<(), AllocError>
    where
        T: Drop,
        ensures { OnOk result (self.new ≡ self.old ++ values) }
    {
        if self.is_empty() {
            *self = values;
            return Ok(());
        }
        let mut values = values.into_vec();
        self.values.append(&mut values)?;
        Ok(())
    }
}

impl<T: PartialEq> PartialEq for Series<T> {
    ghost eq = { pointwise T.eq };

    ghost laws = { lists_per T.laws };

    fn eq(&self, other: &Series<T>) -> bool {
        self.as_slice() == other.as_slice()
    }
}

impl<T: Eq> Eq for Series<T> {
    ghost laws = { lists_equiv T.Eq.laws };
}
