// How bytes are looked at for values of any type, of which none is kept.

ghost use Rattle.std.specs.Prelude.{◌≡◌, ◌≤◌, ◌<◌, ◌+◌, ◌-◌, length, drop, IfOk, IsTrue};
ghost use Rattle.bus_names.specs.Types.{basic, variant, array, dict, struct_of};
ghost use Rattle.bus_value.specs.Reading.{levels, read, read_entry, to_end, in_turn};
ghost use Rattle.bus_value.specs.Limits.{most_depth};
ghost use Rattle.bus_value.specs.Nesting.{nesting};
ghost use Rattle.bus_value.specs.inner.Nesting.{nesting_all};
ghost use Rattle.bus_value.specs.inner.Answers.{Accepts, Checks, IsAccepted};

use crate::fault::ValueFault;
use crate::numbers::pad_size;
use crate::reader::Reader;
use crate::reader::basic::plain_size;
use crate::value::boundary;
use bus_names::{Basic, Kind, Type};

impl Reader {
    /// The place behind the value that stands here, behind its padding.
    #[cycle(checking)]
    pub fn check(self, kind: &Type, bytes: &[u8], at: usize) -> Result<usize, ValueFault>
        requires depth { self.depth + nesting kind.now ≤ most_depth }
        requires within { at ≤ length bytes.now }
        ensures value { Checks result self.start bytes.now (read (levels self.depth) self.order self.depth self.array kind.now (self.start + at) (drop at bytes.now)) }
        ensures more { IfOk result (λ next. at < next) }
    {
        match kind.kind() {
            Kind::Basic(kind) => {
                let next = self.check_basic(kind, bytes, at)?;
                Ok(next)
            }
            Kind::Variant => self.check_variant(bytes, at),
            Kind::Array(element) => self.check_array(element, bytes, at),
            Kind::Dict(key, value) => self.check_dict(key, value, bytes, at),
            Kind::Struct(fields) => self.check_structure(fields, bytes, at),
        }
    }

    /// The place behind the variant that stands here.
    #[cycle(checking)]
    fn check_variant(self, bytes: &[u8], at: usize) -> Result<usize, ValueFault>
        requires depth { self.depth + 1 ≤ most_depth }
        requires within { at ≤ length bytes.now }
        ensures value { Checks result self.start bytes.now (read (levels self.depth) self.order self.depth self.array variant (self.start + at) (drop at bytes.now)) }
        ensures more { IfOk result (λ next. at < next) }
    {
        let next = at + self.body_size(Basic::Sig, bytes, at)?;
        let types = self.types(&bytes[at..next], at)?;
        let kinds = types.types();
        if !self.is_variant_type(kinds) {
            return Err(ValueFault::BadVariant(self.reported(at)));
        }
        let end = self.deeper().check(&kinds[0], bytes, next)?;
        Ok(end)
    }

    /// The place behind the array that stands here, of elements of this type.
    #[cycle(checking)]
    fn check_array(self, kind: &Type, bytes: &[u8], at: usize) -> Result<usize, ValueFault>
        requires depth { self.depth + nesting kind.now + 1 ≤ most_depth }
        requires within { at ≤ length bytes.now }
        ensures value { Checks result self.start bytes.now (read (levels self.depth) self.order self.depth self.array (array kind.now) (self.start + at) (drop at bytes.now)) }
        ensures more { IfOk result (λ next. at < next) }
    {
        let place = self.open_array(bytes, at, boundary(kind))?;
        place
            .reader
            .check_elements(kind, &bytes[..place.end], place.first)?;
        Ok(place.end)
    }

    /// Whether elements of this type stand from here to the end of which any bytes spell one.
    fn is_plain_row(self, kind: Basic, bytes: &[u8], at: usize) -> bool
        requires depth { self.depth ≤ most_depth }
        requires within { at ≤ length bytes.now }
        ensures { IsTrue result → IsAccepted (to_end (read (levels self.depth) self.order self.depth self.array (basic kind)) (self.start + at) (drop at bytes.now)) }
    {
        let Some(size) = plain_size(kind) else {
            return false;
        };
        let pad = pad_size(self.start, at, size);
        let rest = (bytes.len() - at) % size;
        pad == 0 && rest == 0
    }

    /// The same of any type.
    fn is_row(self, kind: &Type, bytes: &[u8], at: usize) -> bool
        requires depth { self.depth ≤ most_depth }
        requires within { at ≤ length bytes.now }
        ensures { IsTrue result → IsAccepted (to_end (read (levels self.depth) self.order self.depth self.array kind.now) (self.start + at) (drop at bytes.now)) }
    {
        match kind.kind() {
            Kind::Basic(kind) => self.is_plain_row(kind, bytes, at),
            _ => false,
        }
    }

    /// Whether elements stand from here to the end.
    #[cycle(checking)]
    fn check_elements(self, kind: &Type, bytes: &[u8], at: usize) -> Result<(), ValueFault>
        requires depth { self.depth + nesting kind.now ≤ most_depth }
        requires within { at ≤ length bytes.now }
        ensures { Accepts result (to_end (read (levels self.depth) self.order self.depth self.array kind.now) (self.start + at) (drop at bytes.now)) }
    {
        if self.is_row(kind, bytes, at) {
            return Ok(());
        }
        let mut next = at;
        while next < bytes.len() {
            let end = self.check(kind, bytes, next)?;
            next = end;
        }
        Ok(())
    }

    /// The place behind the array of dict entries that stands here, with keys and values of these types.
    #[cycle(checking)]
    fn check_dict(
        self,
        key: Basic,
        value: &Type,
        bytes: &[u8],
        at: usize,
    ) -> Result<usize, ValueFault>
        requires depth { self.depth + nesting value.now + 2 ≤ most_depth }
        requires within { at ≤ length bytes.now }
        ensures value { Checks result self.start bytes.now (read (levels self.depth) self.order self.depth self.array (dict key value.now) (self.start + at) (drop at bytes.now)) }
        ensures more { IfOk result (λ next. at < next) }
    {
        let place = self.open_array(bytes, at, 8)?;
        place
            .reader
            .check_pairs(key, value, &bytes[..place.end], place.first)?;
        Ok(place.end)
    }

    /// Whether dict entries stand from here to the end.
    #[cycle(checking)]
    fn check_pairs(
        self,
        key: Basic,
        value: &Type,
        bytes: &[u8],
        at: usize,
    ) -> Result<(), ValueFault>
        requires depth { self.depth + nesting value.now + 1 ≤ most_depth }
        requires within { at ≤ length bytes.now }
        ensures { Accepts result (to_end (read_entry (levels self.depth) self.order self.depth self.array key value.now) (self.start + at) (drop at bytes.now)) }
    {
        let mut next = at;
        while next < bytes.len() {
            let end = self.check_pair(key, value, bytes, next)?;
            next = end;
        }
        Ok(())
    }

    /// The place behind the dict entry that stands here.
    #[cycle(checking)]
    fn check_pair(
        self,
        key: Basic,
        value: &Type,
        bytes: &[u8],
        at: usize,
    ) -> Result<usize, ValueFault>
        requires depth { self.depth + nesting value.now + 1 ≤ most_depth }
        requires within { at ≤ length bytes.now }
        ensures value { Checks result self.start bytes.now (read_entry (levels self.depth) self.order self.depth self.array key value.now (self.start + at) (drop at bytes.now)) }
        ensures more { IfOk result (λ next. at < next) }
    {
        let first = self.pass_padding(bytes, at, 8)?;
        let next = self.check_basic(key, bytes, first)?;
        let end = self.deeper().check(value, bytes, next)?;
        Ok(end)
    }

    /// The place behind the struct that stands here, with fields of these types.
    #[cycle(checking)]
    fn check_structure(self, fields: &[Type], bytes: &[u8], at: usize) -> Result<usize, ValueFault>
        requires some { 0 < length fields.now }
        requires depth { self.depth + nesting (struct_of fields.now) ≤ most_depth }
        requires within { at ≤ length bytes.now }
        ensures value { Checks result self.start bytes.now (read (levels self.depth) self.order self.depth self.array (struct_of fields.now) (self.start + at) (drop at bytes.now)) }
        ensures more { IfOk result (λ next. at < next) }
    {
        let first = self.pass_padding(bytes, at, 8)?;
        let end = self.deeper().check_all(fields, bytes, first)?;
        Ok(end)
    }

    /// The place behind values of these types, the first of which stands here.
    #[cycle(checking)]
    pub fn check_all(self, kinds: &[Type], bytes: &[u8], at: usize) -> Result<usize, ValueFault>
        requires depth { self.depth + nesting_all kinds.now ≤ most_depth }
        requires within { at ≤ length bytes.now }
        ensures value { Checks result self.start bytes.now (in_turn (read (levels self.depth) self.order self.depth self.array) kinds.now (self.start + at) (drop at bytes.now)) }
        ensures more { IfOk result (λ next. at + length kinds.now ≤ next) }
    {
        let mut next = at;
        for kind in kinds {
            let end = self.check(kind, bytes, next)?;
            next = end;
        }
        Ok(next)
    }
}
