// How values of any type are read.

ghost use Rattle.std.specs.Prelude.{◌≡◌, ◌≤◌, ◌<◌, ◌+◌, ◌-◌, ◌^◌, [], length, drop, nat_le, IfOk, IsTrue};
ghost use Rattle.bus_names.specs.Types.{variant, array, dict, struct_of};
ghost use Rattle.bus_value.specs.Alignment.{IsAlignment};
ghost use Rattle.bus_value.specs.Reading.{element_bytes, levels, read, read_entry, to_end, in_turn};
ghost use Rattle.bus_value.specs.inner.VariantTypes.{is_variant_type};
ghost use Rattle.bus_value.specs.Limits.{most_depth, most_open};
ghost use Rattle.bus_value.specs.Nesting.{nesting};
ghost use Rattle.bus_value.specs.inner.Nesting.{nesting_all};
ghost use Rattle.bus_value.specs.Spelling.{pad_size as pad_from};
ghost use Rattle.bus_value.specs.Answers.{Gives};
ghost use Rattle.bus_value.specs.inner.Answers.{Reads};
ghost use Rattle.bus_value.specs.inner.Opening.{Opens};

use crate::basic_value::BasicValue;
use crate::fault::ValueFault;
use crate::numbers::{pad_size, read_u32};
use crate::reader::Reader;
use crate::reader::basic::plain_size;
use crate::value::{Value, boundary};
use bus_names::{Basic, Kind, Type};
use login_base::{Items, NoMemory};

/// The largest size of an array's elements, in bytes.
const MOST_ELEMENT_BYTES: usize = 1 << 26;

/// The most containers that are open in a variant's value, the variant among them.
const MOST_OPEN: usize = 64;

/// Whether containers are nested at most so deep in a type.
fn nests_within(kind: &Type, room: usize) -> bool
    ensures { result ≡ nat_le (nesting kind.now) room }
{
    match kind.kind() {
        Kind::Basic(_) => true,
        Kind::Variant => 1 <= room,
        Kind::Array(element) => 1 <= room && nests_within(element, room - 1),
        Kind::Dict(_, value) => 2 <= room && nests_within(value, room - 2),
        Kind::Struct(fields) => {
            if room == 0 {
                return false;
            }
            for field in fields {
                if !nests_within(field, room - 1) {
                    return false;
                }
            }
            true
        }
    }
}

/// The same items, with no room for more.
fn without_spare<T>(items: Items<T>) -> Items<T>
    ensures { result ≡ items }
{
    let mut items = items.into_vec();
    items.shrink_to_fit();
    Items::from_vec(items)
}

/// Where the elements of an array stand, and the place in it.
#[derive(Clone, Copy)]
pub struct Elements {
    pub reader: Reader,
    pub first: usize,
    pub end: usize,
}

impl Reader {
    /// How many bytes the elements have of the array whose length stands here.
    #[tactic(auto, unfolding(crate::specs::Reading::element_bytes))]
    fn element_bytes(self, bytes: &[u8], at: usize, align: usize) -> Result<usize, ValueFault>
        requires boundary { IsAlignment align }
        requires within { at ≤ length bytes.now }
        ensures value { result ≡ element_bytes self.order self.array align (self.start + at) (drop at bytes.now) }
        ensures room { IfOk result (λ count. at + 4 + pad_from (self.start + (at + 4)) align + count ≤ length bytes.now) }
    {
        let there = bytes.len() - at;
        if there < 4 {
            return Err(self.cut_off(at));
        }
        let count = read_u32(self.order, &bytes[at..]) as usize;
        let pad = pad_size(self.start, at + 4, align);
        let short = there < 4 + pad + count;
        if short && self.array.is_some() {
            return Err(self.cut_off(at));
        }
        if MOST_ELEMENT_BYTES < count {
            return Err(ValueFault::BadLength(self.reported(at)));
        }
        if short {
            return Err(self.cut_off(at));
        }
        self.zeros(&bytes[at + 4..at + 4 + pad], at + 4)?;
        Ok(count)
    }

    /// Opens the array that stands here, behind its padding.
    pub fn open_array(self, bytes: &[u8], at: usize, align: usize) -> Result<Elements, ValueFault>
        requires boundary { IsAlignment align }
        requires within { at ≤ length bytes.now }
        requires depth { self.depth < 2 ^ 32 }
        ensures { Opens result self bytes.now at align }
    {
        let place = self.pass_padding(bytes, at, 4)?;
        let count = self.element_bytes(bytes, place, align)?;
        let first = place + 4 + pad_size(self.start, place + 4, align);
        Ok(Elements {
            reader: self.within(place),
            first,
            end: first + count,
        })
    }

    /// Whether a variant that stands here can have these types.
    pub fn is_variant_type(self, kinds: &[Type]) -> bool
        ensures value { result ≡ is_variant_type self.depth kinds.now }
        ensures one { IsTrue result → length kinds.now ≡ 1 }
        ensures depth { IsTrue result → self.depth + 1 + nesting_all kinds.now ≤ most_open }
    {
        match kinds {
            [kind] => self.depth < MOST_OPEN && nests_within(kind, MOST_OPEN - 1 - self.depth),
            _ => false,
        }
    }

    /// The value that stands here, behind its padding.
    #[cycle(reading)]
    pub fn value(self, kind: &Type, bytes: &[u8], at: usize) -> Result<(Value, usize), ValueFault>
        requires depth { self.depth + nesting kind.now ≤ most_depth }
        requires within { at ≤ length bytes.now }
        ensures value { Reads result self.start bytes.now (read (levels self.depth) self.order self.depth self.array kind.now (self.start + at) (drop at bytes.now)) }
        ensures more { IfOk result (λ r. at < r.1) }
    {
        match kind.kind() {
            Kind::Basic(kind) => {
                let (value, next) = self.basic(kind, bytes, at)?;
                Ok((Value::basic(value), next))
            }
            Kind::Variant => self.variant(bytes, at),
            Kind::Array(element) => self.array(element, bytes, at),
            Kind::Dict(key, value) => self.dict(key, value, bytes, at),
            Kind::Struct(fields) => self.structure(fields, bytes, at),
        }
    }

    /// The variant that stands here.
    #[cycle(reading)]
    fn variant(self, bytes: &[u8], at: usize) -> Result<(Value, usize), ValueFault>
        requires depth { self.depth + 1 ≤ most_depth }
        requires within { at ≤ length bytes.now }
        ensures value { Reads result self.start bytes.now (read (levels self.depth) self.order self.depth self.array variant (self.start + at) (drop at bytes.now)) }
        ensures more { IfOk result (λ r. at < r.1) }
    {
        let next = at + self.body_size(Basic::Sig, bytes, at)?;
        let types = self.types(&bytes[at..next], at)?;
        let kinds = types.types();
        if !self.is_variant_type(kinds) {
            return Err(ValueFault::BadVariant(self.reported(at)));
        }
        let (value, end) = self.deeper().value(&kinds[0], bytes, next)?;
        Ok((Value::variant(self.alloc, value)?, end))
    }

    /// The array that stands here, of elements of this type.
    #[cycle(reading)]
    fn array(self, kind: &Type, bytes: &[u8], at: usize) -> Result<(Value, usize), ValueFault>
        requires depth { self.depth + nesting kind.now + 1 ≤ most_depth }
        requires within { at ≤ length bytes.now }
        ensures value { Reads result self.start bytes.now (read (levels self.depth) self.order self.depth self.array (array kind.now) (self.start + at) (drop at bytes.now)) }
        ensures more { IfOk result (λ r. at < r.1) }
    {
        let place = self.open_array(bytes, at, boundary(kind))?;
        let elements = place
            .reader
            .elements(kind, &bytes[..place.end], place.first)?;
        Ok((Value::array(kind.shared()?, elements.into_vec()), place.end))
    }

    /// No elements, with room for those of this type in so many bytes, where the bytes tell how many these are.
    fn room_for(self, kind: &Type, bytes: usize) -> Result<Items<Value>, NoMemory>
        ensures { IfOk result (λ elements. elements ≡ []) }
    {
        let size = match kind.kind() {
            Kind::Basic(kind) => plain_size(kind),
            _ => None,
        };
        match size {
            Some(size) => Ok(Items::from_vec(Vec::with_capacity(self.alloc, bytes / size)?)),
            None => Ok(Items::new(self.alloc)),
        }
    }

    /// The elements that stand from here to the end.
    #[cycle(reading)]
    fn elements(self, kind: &Type, bytes: &[u8], at: usize) -> Result<Items<Value>, ValueFault>
        requires depth { self.depth + nesting kind.now ≤ most_depth }
        requires within { at ≤ length bytes.now }
        ensures { Gives result (to_end (read (levels self.depth) self.order self.depth self.array kind.now) (self.start + at) (drop at bytes.now)) }
    {
        let mut elements = self.room_for(kind, bytes.len() - at)?;
        let mut next = at;
        while next < bytes.len() {
            let (element, end) = self.value(kind, bytes, next)?;
            elements.push(element)?;
            next = end;
        }
        Ok(without_spare(elements))
    }

    /// The array of dict entries that stands here, with keys and values of these types.
    #[cycle(reading)]
    fn dict(
        self,
        key: Basic,
        value: &Type,
        bytes: &[u8],
        at: usize,
    ) -> Result<(Value, usize), ValueFault>
        requires depth { self.depth + nesting value.now + 2 ≤ most_depth }
        requires within { at ≤ length bytes.now }
        ensures value { Reads result self.start bytes.now (read (levels self.depth) self.order self.depth self.array (dict key value.now) (self.start + at) (drop at bytes.now)) }
        ensures more { IfOk result (λ r. at < r.1) }
    {
        let place = self.open_array(bytes, at, 8)?;
        let pairs = place
            .reader
            .pairs(key, value, &bytes[..place.end], place.first)?;
        Ok((
            Value::dict(key, value.shared()?, pairs.into_vec()),
            place.end,
        ))
    }

    /// The dict entries that stand from here to the end.
    #[cycle(reading)]
    fn pairs(
        self,
        key: Basic,
        value: &Type,
        bytes: &[u8],
        at: usize,
    ) -> Result<Items<(BasicValue, Value)>, ValueFault>
        requires depth { self.depth + nesting value.now + 1 ≤ most_depth }
        requires within { at ≤ length bytes.now }
        ensures { Gives result (to_end (read_entry (levels self.depth) self.order self.depth self.array key value.now) (self.start + at) (drop at bytes.now)) }
    {
        let mut pairs = Items::new(self.alloc);
        let mut next = at;
        while next < bytes.len() {
            let (pair, end) = self.pair(key, value, bytes, next)?;
            pairs.push(pair)?;
            next = end;
        }
        Ok(without_spare(pairs))
    }

    /// The dict entry that stands here.
    #[cycle(reading)]
    fn pair(
        self,
        key: Basic,
        value: &Type,
        bytes: &[u8],
        at: usize,
    ) -> Result<((BasicValue, Value), usize), ValueFault>
        requires depth { self.depth + nesting value.now + 1 ≤ most_depth }
        requires within { at ≤ length bytes.now }
        ensures value { Reads result self.start bytes.now (read_entry (levels self.depth) self.order self.depth self.array key value.now (self.start + at) (drop at bytes.now)) }
        ensures more { IfOk result (λ r. at < r.1) }
    {
        let first = self.pass_padding(bytes, at, 8)?;
        let (key, next) = self.basic(key, bytes, first)?;
        let (value, end) = self.deeper().value(value, bytes, next)?;
        Ok(((key, value), end))
    }

    /// The struct that stands here, with fields of these types.
    #[cycle(reading)]
    fn structure(
        self,
        fields: &[Type],
        bytes: &[u8],
        at: usize,
    ) -> Result<(Value, usize), ValueFault>
        requires some { 0 < length fields.now }
        requires depth { self.depth + nesting (struct_of fields.now) ≤ most_depth }
        requires within { at ≤ length bytes.now }
        ensures value { Reads result self.start bytes.now (read (levels self.depth) self.order self.depth self.array (struct_of fields.now) (self.start + at) (drop at bytes.now)) }
        ensures more { IfOk result (λ r. at < r.1) }
    {
        let first = self.pass_padding(bytes, at, 8)?;
        let (values, end) = self.deeper().values(fields, bytes, first)?;
        Ok((Value::structure(values.into_vec()), end))
    }

    /// Values of these types, the first of which stands here.
    #[cycle(reading)]
    pub fn values(
        self,
        kinds: &[Type],
        bytes: &[u8],
        at: usize,
    ) -> Result<(Items<Value>, usize), ValueFault>
        requires depth { self.depth + nesting_all kinds.now ≤ most_depth }
        requires within { at ≤ length bytes.now }
        ensures value { Reads result self.start bytes.now (in_turn (read (levels self.depth) self.order self.depth self.array) kinds.now (self.start + at) (drop at bytes.now)) }
        ensures count { IfOk result (λ r. length r.0 ≡ length kinds.now) }
        ensures more { IfOk result (λ r. at + length kinds.now ≤ r.1) }
    {
        let mut values = Items::from_vec(Vec::with_capacity(self.alloc, kinds.len())?);
        let mut next = at;
        for kind in kinds {
            let (value, end) = self.value(kind, bytes, next)?;
            values.push(value)?;
            next = end;
        }
        Ok((values, next))
    }
}
