// Value lists.

ghost use Rattle.std.specs.Prelude.{◌≡◌, ◌%◌, ◌↔◌, IfOk, IfSome, IsOk, IsTrue, Ok, take};
ghost use Rattle.bus_names.specs.Parsing.{signature_of};
ghost use Rattle.bus_names.specs.Signatures.{IsWithin};
ghost use Rattle.bus_names.specs.Types.{signature_text};
ghost use Rattle.bus_value.specs.Limits.{AllFit};
ghost use Rattle.bus_value.specs.Listed.{listed};
ghost use Rattle.bus_value.specs.inner.Held.{IsHeld, read_in, values_in};
ghost use Rattle.bus_value.specs.Reading.{read_all};
ghost use Rattle.bus_value.specs.Spelling.{spellings};
ghost use Rattle.bus_value.specs.Values.{shapes, vals};
ghost use Rattle.bus_value.specs.declared.values.Held.TheVariants.{Read};

use crate::fault::ValueFault;
use crate::order::Order;
use crate::reader::Reader;
use crate::reading::make_values;
use crate::value::Value;
use crate::writing::write_each;
use bus_names::{NameFault, Signature};
use login_base::{Bytes, Items, NoMemory, Word};
use std::alloc::Global;
use std::marker::Model;

/// Values one behind the other. Those that were read are kept as their bytes, in as much memory as these, and are made
/// when they are asked for.
#[derive(Drop)]
pub struct Values {
    held: Held,
}

#[derive(Drop)]
enum Held {
    Made(Items<Value>),
    Read(Spelled),
}

/// Bytes that spell values of these types from an offset on.
#[derive(Drop)]
struct Spelled {
    order: Order,
    start: usize,
    types: Signature,
    bytes: Bytes,
}

impl Model for Values {
    ghost use Rattle.std.specs.Prelude.{List};
    ghost use Rattle.std.specs.Coded.{coded_list};
    ghost use Rattle.bus_value.specs.Values.{Val};
    ghost use Rattle.bus_value.specs.inner.ValueCode.{value_code};
    ghost use Rattle.bus_value.specs.inner.Held.{held_in, IsHeld};

    ghost Value = { List Val };

    ghost coded = { coded_list value_code };

    ghost view = { λ a. held_in a.held };

    ghost invariant = { λ a. IsHeld a.held };
}

impl Spelled {
    /// The first of the values that the bytes spell. What stands behind them is not looked at.
    fn front(&self, alloc: Global, count: usize) -> Result<Items<Value>, NoMemory>
        requires { IsOk (read_in self.now) }
        ensures { IfOk result (λ values. values ≡ take count (values_in (read_in self.now))) }
    {
        let kinds = self.types.types();
        let reader = Reader::new(alloc, self.order, self.start);
        let first = &kinds[..count.min(kinds.len())];
        match reader.values(first, self.bytes.as_slice(), 0) {
            Ok((values, _)) => Ok(values),
            Err(ValueFault::NoMemory) => Err(NoMemory),
            Err(_) => unreachable!(),
        }
    }

    /// The values that the bytes spell.
    fn values(&self, alloc: Global) -> Result<Items<Value>, NoMemory>
        requires { IsOk (read_in self.now) }
        ensures { IfOk result (λ values. read_in self.now ≡ Ok values) }
    {
        match make_values(
            alloc,
            self.order,
            self.start,
            &self.types,
            self.bytes.as_slice(),
        ) {
            Ok(values) => Ok(values),
            Err(ValueFault::NoMemory) => Err(NoMemory),
            Err(_) => unreachable!(),
        }
    }

    /// Whether the bytes are those of the values in this order, from this offset on.
    fn stand_at(&self, order: Order, start: usize) -> bool
        ensures { IsTrue result ↔ ((self.now.order ≡ order) × (self.now.start % 8 ≡ start % 8)) }
    {
        self.order == order && self.start % 8 == start % 8
    }

    /// The bytes of the values, which are to stand from the offset `start` on: those that are kept, where they stand
    /// so; else the values are made.
    fn written(&self, alloc: Global, order: Order, start: usize) -> Result<Bytes, NoMemory>
        requires held { IsHeld (Read self.now) }
        requires fit { AllFit order start (vals (values_in (read_in self.now))) }
        ensures { IfOk result (λ bytes. bytes ≡ spellings order start (vals (values_in (read_in self.now)))) }
    {
        if self.stand_at(order, start) {
            return Ok(Bytes::from_vec(Vec::from_slice(alloc, self.bytes.as_slice())?));
        }
        let values = self.values(alloc)?;
        write_each(alloc, order, start, values.as_slice())
    }
}

/// The types of a text that is a signature.
pub fn signature_of(alloc: Global, text: &[u8]) -> Result<Signature, NoMemory>
    requires { IsOk (signature_of text.now) }
    ensures { IfOk result (λ types. signature_of text.now ≡ Ok types) }
{
    match Signature::read(alloc, text) {
        Ok(types) => Ok(types),
        Err(NameFault::NoMemory) => Err(NoMemory),
        Err(_) => unreachable!(),
    }
}

/// The letters of the values' types.
fn letters_of(alloc: Global, values: &[Value]) -> Result<Vec<u8>, NoMemory>
    ensures { IfOk result (λ letters. letters.items ≡ signature_text (shapes (vals values.now))) }
{
    let mut letters = Vec::new(alloc);
    for value in values {
        value.push_type(&mut letters)?;
    }
    Ok(letters)
}

/// The signature of the values.
fn signature(alloc: Global, values: &[Value]) -> Result<Signature, NoMemory>
    requires { IsWithin (shapes (vals values.now)) }
    ensures { IfOk result (λ types. types ≡ shapes (vals values.now)) }
{
    let letters = letters_of(alloc, values)?;
    signature_of(alloc, letters.as_slice())
}

/// Values that are there, or that were made to be looked at.
#[derive(Drop)]
pub enum Listed<'a> {
    There(&'a [Value]),
    Made(Items<Value>),
}

impl Listed<'_> {
    ghost use Rattle.bus_value.specs.Listed.{listed};

    /// The values in order.
    pub fn as_slice(&self) -> &[Value]
        ensures { result.now ≡ listed self.now }
    {
        match self {
            Listed::There(values) => values,
            Listed::Made(values) => values.as_slice(),
        }
    }
}

impl Values {
    /// Values that were made.
    pub fn made(values: Items<Value>) -> Values
        ensures { result ≡ values }
    {
        Values {
            held: Held::Made(values),
        }
    }

    /// The values that these bytes spell, which are kept.
    pub(crate) fn read(
        alloc: Global,
        order: Order,
        start: usize,
        types: &Signature,
        bytes: &[u8],
    ) -> Result<Values, NoMemory>
        requires { IsOk (read_all order start types.now bytes.now) }
        ensures { IfOk result (λ values. read_all order start types.now bytes.now ≡ Ok values) }
    {
        let types = types.copied(alloc)?;
        let bytes = Bytes::from_vec(Vec::from_slice(alloc, bytes)?);
        Ok(Values {
            held: Held::Read(Spelled {
                order,
                start,
                types,
                bytes,
            }),
        })
    }

    /// The values as trees. The types of their arrays share what they have in common.
    pub fn into_list(self, alloc: Global) -> Result<Items<Value>, NoMemory>
        ensures { IfOk result (λ values. values ≡ self) }
    {
        let Values { held } = self;
        match held {
            Held::Made(values) => Ok(values),
            Held::Read(spelled) => spelled.values(alloc),
        }
    }

    /// The first of the values as trees, or all where there are fewer. Where only their bytes are kept, these trees are
    /// made, and no others.
    pub fn front(&self, alloc: Global, count: usize) -> Result<Listed<'_>, NoMemory>
        ensures { IfOk result (λ values. listed values ≡ take count self.now) }
    {
        match &self.held {
            Held::Made(values) => {
                let values = values.as_slice();
                Ok(Listed::There(&values[..count.min(values.len())]))
            }
            Held::Read(spelled) => Ok(Listed::Made(spelled.front(alloc, count)?)),
        }
    }

    /// The letters of the values' types, also where these are too many for a signature or nested too deep for one.
    pub fn letters(&self, alloc: Global) -> Result<Word, NoMemory>
        ensures { IfOk result (λ letters. letters ≡ signature_text (shapes (vals self.now))) }
    {
        match &self.held {
            Held::Made(values) => Ok(Word::from_vec(letters_of(alloc, values.as_slice())?)),
            Held::Read(spelled) => spelled.types.text(alloc),
        }
    }

    /// The signature under which the values were read, if they were.
    pub fn read_types(&self) -> Option<&Signature>
        ensures { IfSome result (λ types. types.now ≡ shapes (vals self.now)) }
    {
        match &self.held {
            Held::Made(_) => None,
            Held::Read(spelled) => Some(&spelled.types),
        }
    }

    /// The signature of the values.
    pub fn types(&self, alloc: Global) -> Result<Signature, NoMemory>
        requires { IsWithin (shapes (vals self.now)) }
        ensures { IfOk result (λ types. types ≡ shapes (vals self.now)) }
    {
        match &self.held {
            Held::Made(values) => signature(alloc, values.as_slice()),
            Held::Read(spelled) => spelled.types.copied(alloc),
        }
    }

    /// The bytes of the values, which are to stand from the offset `start` on.
    pub(crate) fn written(
        &self,
        alloc: Global,
        order: Order,
        start: usize,
    ) -> Result<Bytes, NoMemory>
        requires { AllFit order start (vals self.now) }
        ensures { IfOk result (λ bytes. bytes ≡ spellings order start (vals self.now)) }
    {
        match &self.held {
            Held::Made(values) => write_each(alloc, order, start, values.as_slice()),
            Held::Read(spelled) => spelled.written(alloc, order, start),
        }
    }
}
