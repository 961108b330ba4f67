// How numbered variants are read.

ghost use Rattle.std.specs.Prelude.{◌≡◌, ◌≤◌, ◌<◌, ◌+◌, ◌-◌, ◌^◌, length, drop, IfOk};
ghost use Rattle.bus_names.specs.Types.{variant};
ghost use Rattle.bus_value.specs.Answers.{Gives};
ghost use Rattle.bus_value.specs.Fields.{basic_in, byte_in, field_at, field_type, inside};
ghost use Rattle.bus_value.specs.inner.Fields.{kept_by, Sees};
ghost use Rattle.bus_value.specs.Limits.{most_depth};
ghost use Rattle.bus_value.specs.Nesting.{nesting};
ghost use Rattle.bus_value.specs.Reading.{levels, read, to_end};

use crate::basic_value::BasicValue;
use crate::fault::ValueFault;
use crate::fields::Field;
use crate::reader::Reader;
use bus_names::{Basic, Kind, Type};
use login_base::Items;

/// The number that a value is, if it is a byte.
fn byte_in(value: &BasicValue) -> u8
    ensures { result ≡ byte_in value.now }
{
    match value {
        BasicValue::Byte(number) => *number,
        _ => 0,
    }
}

impl Reader {
    /// The value that stands here, where it is of a basic type, and the place behind it. Any other is checked alone.
    fn basic_or_none(
        self,
        kind: &Type,
        bytes: &[u8],
        at: usize,
    ) -> Result<(Option<BasicValue>, usize), ValueFault>
        requires depth { self.depth + nesting kind.now ≤ most_depth }
        requires within { at ≤ length bytes.now }
        ensures value { Sees basic_in result self.start bytes.now (read (levels self.depth) self.order self.depth self.array kind.now (self.start + at) (drop at bytes.now)) }
        ensures more { IfOk result (λ r. at < r.1) }
    {
        match kind.kind() {
            Kind::Basic(kind) => {
                let (value, next) = self.basic(kind, bytes, at)?;
                Ok((Some(value), next))
            }
            _ => {
                let next = self.check(kind, bytes, at)?;
                Ok((None, next))
            }
        }
    }

    /// What the variant holds that stands here, where that is of a basic type, and the place behind it.
    fn inside(self, bytes: &[u8], at: usize) -> Result<(Option<BasicValue>, usize), ValueFault>
        requires depth { self.depth + 1 ≤ most_depth }
        requires within { at ≤ length bytes.now }
        ensures value { Sees (λ v. basic_in (inside v)) result self.start bytes.now (read (levels self.depth) self.order self.depth self.array variant (self.start + at) (drop at bytes.now)) }
        ensures more { IfOk result (λ r. at < r.1) }
    {
        let next = at + self.body_size(Basic::Sig, bytes, at)?;
        let types = self.types(&bytes[at..next], at)?;
        let kinds = types.types();
        if !self.is_variant_type(kinds) {
            return Err(ValueFault::BadVariant(self.reported(at)));
        }
        let (value, end) = self.deeper().basic_or_none(&kinds[0], bytes, next)?;
        Ok((value, end))
    }

    /// The numbered variant that stands here, behind its padding, and the place behind it.
    fn field(self, bytes: &[u8], at: usize) -> Result<(Field, usize), ValueFault>
        requires depth { self.depth + 2 ≤ most_depth }
        requires within { at ≤ length bytes.now }
        requires room { self.start + length bytes.now < 2 ^ 64 }
        ensures value { Sees (field_at (self.start + at)) result self.start bytes.now (read (levels self.depth) self.order self.depth self.array field_type (self.start + at) (drop at bytes.now)) }
        ensures more { IfOk result (λ r. at < r.1) }
    {
        let first = self.pass_padding(bytes, at, 8)?;
        let (number, next) = self.basic(Basic::Byte, bytes, first)?;
        let (value, end) = self.deeper().inside(bytes, next)?;
        let field = Field {
            number: byte_in(&number),
            offset: self.start + first,
            value,
        };
        Ok((field, end))
    }

    /// Those of the numbered variants that stand from here to the end whose number is at most `most`.
    pub fn fields(self, most: u8, bytes: &[u8], at: usize) -> Result<Items<Field>, ValueFault>
        requires depth { self.depth + 2 ≤ most_depth }
        requires within { at ≤ length bytes.now }
        requires room { self.start + length bytes.now < 2 ^ 64 }
        ensures { Gives result (kept_by most self.order (self.start + at) (to_end (read (levels self.depth) self.order self.depth self.array field_type) (self.start + at) (drop at bytes.now))) }
    {
        let mut fields = Items::new(self.alloc);
        let mut next = at;
        while next < bytes.len() {
            let (field, end) = self.field(bytes, next)?;
            if field.number <= most {
                fields.push(field)?;
            }
            next = end;
        }
        Ok(fields)
    }
}
