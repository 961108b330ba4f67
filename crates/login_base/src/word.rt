// A text of the project's own, seen by contracts as the list of its bytes.

ghost use Rattle.std.specs.Prelude.{◌≡◌, ◌<◌, ◌^◌, [], ◌↔◌, length, IfOk, IsTrue};
ghost use Rattle.std.proofs.Common.{rules};
ghost use Rattle.std.specs.Str.{bytes_eq};
ghost use Rattle.std.specs.Cmp.Rules.{comparing};

use crate::memory::NoMemory;
use std::alloc::Global;
use std::marker::Model;

/// A text, as its bytes.
#[derive(Drop)]
pub struct Word {
    bytes: Vec<u8>,
}

impl Model for Word {
    ghost use Rattle.std.specs.Prelude.{List, ℕ};

    ghost Value = { List ℕ };

    ghost view = { λ s. s.bytes.items };
}

impl Word {
    /// The empty text. It takes no memory.
    pub fn new(alloc: Global) -> Word
        ensures { result ≡ [] }
    {
        Word {
            bytes: Vec::new(alloc),
        }
    }

    /// A copy of the bytes.
    pub fn from_slice(alloc: Global, bytes: &[u8]) -> Result<Word, NoMemory>
        ensures { IfOk result (λ word. word ≡ bytes.now) }
    {
        let bytes = Vec::from_slice(alloc, bytes)?;
        Ok(Word { bytes })
    }

    /// The text of a vector's bytes. It takes no memory.
    pub fn from_vec(bytes: Vec<u8>) -> Word
        ensures { result ≡ bytes.items }
    {
        Word { bytes }
    }

    /// A copy on the same allocator.
    pub fn copied(&self) -> Result<Word, NoMemory>
        ensures { IfOk result (λ word. word ≡ self.now) }
    {
        let bytes = self.bytes.clone()?;
        Ok(Word { bytes })
    }

    /// How many bytes there are.
    pub fn len(&self) -> usize
        ensures value { result ≡ length self.now }
        ensures bound { result < 2 ^ 63 }
    {
        self.bytes.len()
    }

    /// Whether there is no byte.
    pub fn is_empty(&self) -> bool
        ensures { IsTrue result ↔ (self.now ≡ []) }
    {
        self.bytes.is_empty()
    }

    /// The bytes in order.
    pub fn as_slice(&self) -> &[u8]
        ensures { result.now ≡ self.now }
    {
        self.bytes.as_slice()
    }
}

impl PartialEq for Word {
    ghost eq = { bytes_eq };

    ghost laws = { Prim.search (comparing, rules) };

    fn eq(&self, other: &Word) -> bool {
        self.bytes.as_slice() == other.bytes.as_slice()
    }
}

impl Eq for Word {
    ghost laws = { Prim.search (comparing, rules) };
}
