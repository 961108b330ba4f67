// A list of the project's own over a vector, seen by contracts as the list of its items.

ghost use Rattle.std.specs.Prelude.{◌≡◌, ◌<◌, ◌^◌, ◌++◌, [], ◌∷◌, ◌↔◌, IsTrue, length, OnOk, OnErr, IfOk};

use crate::memory::NoMemory;
use crate::reserved::Reserved;
use std::alloc::Global;
use std::marker::Model;
use std::mem;

/// A list. It keeps the allocator that it was made with.
#[derive(Drop)]
pub struct Items<T> {
    items: Vec<T>,
}

/// Bytes that are no text.
pub type Bytes = Items<u8>;

impl<T> Model for Items<T> {
    ghost use Rattle.std.specs.Prelude.{List};

    ghost Value = { List T };

    ghost view = { λ s. s.items.items };
}

impl<T> Items<T> {
    /// The empty list. It takes no memory.
    pub fn new(alloc: Global) -> Items<T>
        ensures { result ≡ [] }
    {
        Items {
            items: Vec::new(alloc),
        }
    }

    /// The list of a vector's items. It takes no memory.
    pub fn from_vec(items: Vec<T>) -> Items<T>
        ensures { result ≡ items.items }
    {
        Items { items }
    }

    /// The vector of the items. It takes no memory.
    pub fn into_vec(self) -> Vec<T>
        ensures { result.items ≡ self }
    {
        let Items { items } = self;
        items
    }

    /// How many items there are.
    pub fn len(&self) -> usize
        ensures value { result ≡ length self.now }
        ensures bound { result < 2 ^ 63 }
    {
        self.items.len()
    }

    /// Whether there is no item.
    pub fn is_empty(&self) -> bool
        ensures { IsTrue result ↔ (self.now ≡ []) }
    {
        self.items.is_empty()
    }

    /// The items in order.
    pub fn as_slice(&self) -> &[T]
        ensures { result.now ≡ self.now }
    {
        self.items.as_slice()
    }

    /// Puts an item at the end. Where memory is wanting the item is dropped.
    pub fn push(&mut self, item: T) -> Result<(), NoMemory>
    where
        T: Drop,
        ensures ok { OnOk result (self.new ≡ self.old ++ item ∷ []) }
        ensures err { OnErr result (self.new ≡ self.old) }
    {
        self.items.push(item)?;
        Ok(())
    }

    /// Puts the items in memory of their size. The answer is the memory that they had, for other items.
    /// Where memory is wanting they stay where they are.
    pub fn trim(&mut self, alloc: Global) -> Result<Reserved<T>, NoMemory>
    where
        T: Drop,
        ensures items { self.new ≡ self.old }
        ensures empty { IfOk result (λ had. had.items ≡ []) }
    {
        let mut had = Vec::with_capacity(alloc, self.items.len())?;
        match had.append(&mut self.items) {
            Ok(()) => {}
            Err(_) => unreachable!(),
        }
        mem::swap(&mut had, &mut self.items);
        Ok(Reserved::from_vec(had))
    }
}
