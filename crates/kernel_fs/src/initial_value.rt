//! A value as it once was, which only clauses read.

ghost use Rattle.std.specs.Prelude.{◌≡◌};
ghost use Rattle.std.specs.Borrow.{ftrue};

use std::marker::{Model, PhantomData};

/// What a value was when this was made. It has no bytes.
#[derive(Drop)]
pub struct OpenedFrom<T> {
    of: PhantomData<T>,
    pub ghost value: { T },
}

impl<T> Model for OpenedFrom<T> {
    ghost also_owns = { λ _. ftrue };
}

// It owns nothing.
unsafe impl<T: Send> Send for OpenedFrom<T> {}

unsafe impl<T: Sync> Sync for OpenedFrom<T> {}

impl<T> OpenedFrom<T> {
    /// What it is now.
    pub fn of(_value: &T) -> OpenedFrom<T>
        ensures { result.value ≡ _value.now }
    {
        OpenedFrom { of: PhantomData }
    }
}
