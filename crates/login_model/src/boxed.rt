// A value in memory of its own.

ghost use Rattle.std.specs.Prelude.{◌≡◌, IfOk, IsTrue, is_some};
ghost use Rattle.login_model.specs.inner.Held.{held};

use login_base::NoMemory;
use std::alloc::Global;
use std::marker::Model;

/// A value in memory of its own, so that what holds it stays small. Contracts see it as the value.
#[derive(Drop)]
pub struct Boxed<T> {
    inner: Box<Option<T>>,
    ghost is_there: { IsTrue (is_some inner.value) },
}

impl<T> Model for Boxed<T> {
    ghost Value = { T };

    ghost coded = { T.code };

    ghost view = { λ b. held b.inner.value b.is_there };
}

/// Memory for one value, taken before the value is there.
#[derive(Drop)]
pub struct Slot<T> {
    inner: Box<Option<T>>,
}

impl<T> Model for Slot<T> {
    ghost use Rattle.std.specs.Prelude.{⊤};
    ghost use base.Stored.{coded_unit};

    ghost Value = { ⊤ };

    ghost coded = { coded_unit };

    ghost view = { λ _. tt };
}

impl<T: Drop> Slot<T> {
    /// Memory for one value.
    pub fn new(alloc: Global) -> Result<Slot<T>, NoMemory> {
        let inner = Box::new(alloc, None)?;
        Ok(Slot { inner })
    }

    /// The value, in this memory. It takes no memory.
    pub fn fill(self, value: T) -> Boxed<T>
        ensures { result ≡ value }
    {
        let Slot { mut inner } = self;
        *inner = Some(value);
        Boxed { inner }
    }
}

impl<T> Boxed<T> {
    /// The value.
    pub fn get(&self) -> &T
        ensures { result.now ≡ self.now }
    {
        match &*self.inner {
            Some(value) => value,
            None => unreachable!(),
        }
    }
}

impl<T: Drop> Boxed<T> {
    /// The value, in memory of its own.
    pub fn new(alloc: Global, value: T) -> Result<Boxed<T>, NoMemory>
        ensures { IfOk result (λ b. b ≡ value) }
    {
        Ok(Slot::new(alloc)?.fill(value))
    }

    /// The same of a value that may be none.
    pub fn of_option(alloc: Global, value: Option<T>) -> Result<Option<Boxed<T>>, NoMemory>
        ensures { IfOk result (λ b. b ≡ value) }
    {
        match value {
            Some(value) => Ok(Some(Boxed::new(alloc, value)?)),
            None => Ok(None),
        }
    }
}
