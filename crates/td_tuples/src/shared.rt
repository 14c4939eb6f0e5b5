//! Values that are shared.
ghost use Rattle.std.specs.Prelude.{◌≡◌, IfOk};

use std::alloc::{AllocError, Global};
use std::marker::Model;
use std::rc::Rc;

/// A value that its copies share, and that contracts see as the value itself. A copy takes one count.
#[derive(Drop)]
pub struct Shared<T> {
    inner: Rc<T>,
}

impl<T> Model for Shared<T> {
    ghost Value = { T };

    ghost coded = { T.code };

    ghost view = { λ s. s.inner.value };
}

impl<T> Shared<T> {
    /// The value.
    pub fn get(&self) -> &T
        ensures { result.now ≡ self.now }
    {
        &self.inner
    }
}

impl<T: Drop> Shared<T> {
    /// The value, to be shared.
    pub fn new(alloc: Global, value: T) -> Result<Shared<T>, AllocError>
        ensures { IfOk result (λ s. s ≡ value) }
    {
        Ok(Shared {
            inner: Rc::new(alloc, value)?,
        })
    }

    /// Shares the value once more.
    pub fn copy(&self) -> Result<Shared<T>, AllocError>
        ensures { IfOk result (λ s. s ≡ self.now) }
    {
        Ok(Shared {
            inner: self.inner.clone()?,
        })
    }
}
