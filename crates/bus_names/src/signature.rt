// Signatures.

ghost use Rattle.std.specs.Prelude.{◌≡◌, ◌∷◌, [], IfOk};
ghost use Rattle.bus_names.specs.Types.{signature_text};
ghost use Rattle.bus_names.specs.Parsing.{signature_of, Parses};
ghost use Rattle.bus_names.specs.Signatures.{IsWithin, ExplainsTypes};

use crate::fault::NameFault;
use crate::parse::parse;
use crate::types::Type;
use login_base::{Items, NoMemory, Word};
use std::alloc::Global;
use std::marker::Model;

/// The longest signature, in bytes.
const MOST_BYTES: usize = 255;

/// The types of a signature, in order: none or more single complete types, with at most 32 arrays and
/// at most 32 structs nested, and at most 255 letters.
#[derive(Drop)]
pub struct Signature {
    types: Items<Type>,
}

impl Model for Signature {
    ghost use Rattle.std.specs.Prelude.{List};
    ghost use Rattle.std.specs.Coded.{coded_list};
    ghost use Rattle.bus_names.specs.Types.{Shape};
    ghost use Rattle.bus_names.specs.inner.ShapeCode.{shape_code};
    ghost use Rattle.bus_names.specs.Signatures.{IsWithin};

    ghost Value = { List Shape };

    ghost coded = { coded_list shape_code };

    ghost view = { λ s. s.types };

    ghost invariant = { λ s. IsWithin s.types };
}

/// The types of a text, or its first fault.
fn read_types(alloc: Global, text: &[u8]) -> Result<Items<Type>, NameFault>
    ensures value { Parses result (signature_of text.now) }
    ensures law { ExplainsTypes text.now (signature_of text.now) }
{
    if text.len() > MOST_BYTES {
        return Err(NameFault::BadSignature(MOST_BYTES));
    }
    parse(alloc, text)
}

impl Signature {
    /// The types of a text. `BadSignature` at 255 where it is longer; else at the first letter with which no
    /// continuation is a signature, or at the length. `TooDeep` at the first opening of an array or a
    /// struct that is one too many.
    pub fn read(alloc: Global, text: &[u8]) -> Result<Signature, NameFault>
        ensures value { Parses result (signature_of text.now) }
        ensures law { ExplainsTypes text.now (signature_of text.now) }
    {
        let types = read_types(alloc, text)?;
        Ok(Signature { types })
    }

    /// The signature of a type.
    pub fn single(alloc: Global, kind: Type) -> Result<Signature, NoMemory>
        requires { IsWithin (kind ∷ []) }
        ensures { IfOk result (λ made. made ≡ kind ∷ []) }
    {
        let mut types = Items::new(alloc);
        types.push(kind)?;
        Ok(Signature { types })
    }

    /// The types in order.
    pub fn types(&self) -> &[Type]
        ensures value { result.now ≡ self.now }
        ensures limits { IsWithin self.now }
    {
        self.types.as_slice()
    }

    /// The letters of the types, which are read as these types again.
    pub fn text(&self, alloc: Global) -> Result<Word, NoMemory>
        ensures value { IfOk result (λ word. word ≡ signature_text self.now) }
        ensures limits { IsWithin self.now }
        ensures again { signature_of (signature_text self.now) ≡ Ok self.now }
    {
        let mut out = Vec::new(alloc);
        for kind in self.types.as_slice() {
            kind.push_text(&mut out)?;
        }
        Ok(Word::from_vec(out))
    }

    /// A copy.
    pub fn copied(&self, alloc: Global) -> Result<Signature, NoMemory>
        ensures { IfOk result (λ copy. copy ≡ self.now) }
    {
        let mut types = Items::new(alloc);
        for kind in self.types.as_slice() {
            types.push(kind.shared()?)?;
        }
        Ok(Signature { types })
    }
}
