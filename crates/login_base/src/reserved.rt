// A list with room for more items, which is made before it is needed.

ghost use Rattle.std.specs.Prelude.{◌≡◌, ◌+◌, ◌<◌, ◌≤◌, ◌^◌, ◌++◌, [], ◌∷◌, length, OnOk, OnErr, slice_get, Some};
ghost use Rattle.login_base.specs.Room.{Room};

use crate::items::Items;
use crate::memory::NoMemory;
use std::alloc::Global;
use std::marker::Model;
use std::mem;

/// A list and its spare: how many items can be put at its end without memory.
#[derive(Drop)]
pub struct Reserved<T> {
    items: Vec<T>,
}

impl<T> Model for Reserved<T> {
    ghost use Rattle.std.specs.Prelude.{◌-◌, vec_len, vec_capacity};
    ghost use Rattle.login_base.specs.Room.{Room};

    ghost Value = { Room T };

    ghost view = { λ s. record { items = s.items.items; spare = vec_capacity s.items - vec_len s.items } };
}

impl<T> Reserved<T> {
    /// The empty list. It takes no memory.
    pub fn new(alloc: Global) -> Reserved<T>
        ensures { result.items ≡ [] }
    {
        Reserved {
            items: Vec::new(alloc),
        }
    }

    /// The list of a vector's items. It takes no memory.
    pub fn from_vec(items: Vec<T>) -> Reserved<T>
        ensures { result.items ≡ items.items }
    {
        Reserved { items }
    }

    /// The list with its spare. An empty one without spare stays. It takes no memory.
    pub fn take(&mut self) -> Reserved<T>
    where
        T: Drop,
        ensures taken { result ≡ self.old }
        ensures left { self.new ≡ record { items = []; spare = 0 } }
    {
        let alloc = *self.items.allocator();
        Reserved {
            items: mem::replace(&mut self.items, Vec::new(alloc)),
        }
    }

    /// How many items there are.
    pub fn len(&self) -> usize
        ensures value { result ≡ length self.now.items }
        ensures bound { result < 2 ^ 63 }
    {
        self.items.len()
    }

    /// The items in order.
    pub fn as_slice(&self) -> &[T]
        ensures { result.now ≡ self.now.items }
    {
        self.items.as_slice()
    }

    /// How many items can be put at the end without memory.
    pub fn spare(&self) -> usize
        ensures { result ≡ self.now.spare }
    {
        self.items.capacity() - self.items.len()
    }

    /// Makes the spare at least so much. It takes memory for no more than that.
    pub fn reserve(&mut self, more: usize) -> Result<(), NoMemory>
        ensures ok { OnOk result (more ≤ self.new.spare) }
        ensures items { self.new.items ≡ self.old.items }
        ensures spare { self.old.spare ≤ self.new.spare }
    {
        self.items.reserve_exact(more)?;
        Ok(())
    }

    /// Puts an item at the end. It takes no memory.
    pub fn push(&mut self, item: T)
    where
        T: Drop,
        requires { 0 < self.old.spare }
        ensures items { self.new.items ≡ self.old.items ++ item ∷ [] }
        ensures spare { self.old.spare ≤ self.new.spare + 1 }
    {
        match self.items.push(item) {
            Ok(()) => {}
            Err(_) => unreachable!(),
        }
    }

    /// Moves the items of another list to the end. The other keeps its memory. It takes none.
    pub fn append(&mut self, other: &mut Reserved<T>)
    where
        T: Drop,
        requires { length other.old.items ≤ self.old.spare }
        ensures items { self.new.items ≡ self.old.items ++ other.old.items }
        ensures empty { other.new.items ≡ [] }
        ensures spare { length other.old.items + other.old.spare ≤ other.new.spare }
    {
        match self.items.append(&mut other.items) {
            Ok(()) => {}
            Err(_) => unreachable!(),
        }
    }

    /// The list, which keeps the memory of its spare. It takes no memory.
    pub fn into_items(self) -> Items<T>
        ensures { result ≡ self.items }
    {
        let Reserved { items } = self;
        Items::from_vec(items)
    }
}
