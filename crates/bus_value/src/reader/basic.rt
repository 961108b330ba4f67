// How values of basic types are read.

ghost use Rattle.std.specs.Prelude.{◌≡◌, ◌≤◌, ◌<◌, ◌+◌, ◌-◌, length, drop, IfOk, IfSome};
ghost use Rattle.bus_value.specs.Alignment.{IsAlignment};
ghost use Rattle.bus_value.specs.inner.Plain.{plain_size};
ghost use Rattle.bus_value.specs.Answers.{Gives};
ghost use Rattle.bus_value.specs.inner.Answers.{Accepts, Checks, Reads};
ghost use Rattle.bus_value.specs.BasicReading.{size, body_size, text_size, types_in, text_at, path_at, decoded, bool_by};
ghost use Rattle.bus_value.specs.inner.BasicReading.{least};
ghost use Rattle.bus_value.specs.Reading.{read_basic};

use crate::basic_value::BasicValue;
use crate::basic_write::alignment;
use crate::fault::ValueFault;
use crate::numbers::{read_u16, read_u32, read_u64};
use crate::order::Order;
use crate::reader::Reader;
use crate::reader::texts::is_text;
use bus_names::{Basic, NameFault, ObjectPath, Signature};
use login_base::Word;

/// How many bytes a text has, with its length and the zero byte behind it, where its length is there.
fn text_size(order: Order, bytes: &[u8]) -> Option<usize>
    ensures { result ≡ text_size order bytes.now }
{
    if bytes.len() < 4 {
        return None;
    }
    Some(read_u32(order, bytes) as usize + 5)
}

/// How many bytes a value has, where its length is there.
fn size(order: Order, kind: Basic, bytes: &[u8]) -> Option<usize>
    ensures { result ≡ size order kind bytes.now }
{
    match kind {
        Basic::Byte => Some(1),
        Basic::I16 | Basic::U16 => Some(2),
        Basic::Bool | Basic::I32 | Basic::U32 | Basic::Handle => Some(4),
        Basic::I64 | Basic::U64 | Basic::Double => Some(8),
        Basic::Str | Basic::Path => text_size(order, bytes),
        Basic::Sig => match bytes.first() {
            Some(count) => Some(*count as usize + 2),
            None => None,
        },
    }
}

/// How many bytes each value of a type has, where any bytes spell one.
pub fn plain_size(kind: Basic) -> Option<usize>
    ensures value { result ≡ plain_size kind }
    ensures valid { IfSome result (λ size. IsAlignment size) }
{
    match kind {
        Basic::Byte => Some(1),
        Basic::I16 | Basic::U16 => Some(2),
        Basic::I32 | Basic::U32 | Basic::Handle => Some(4),
        Basic::I64 | Basic::U64 | Basic::Double => Some(8),
        Basic::Bool | Basic::Str | Basic::Path | Basic::Sig => None,
    }
}

impl Reader {
    /// How many bytes the value has that stands here.
    #[tactic(auto, unfolding(crate::specs::BasicReading::body_size))]
    pub fn body_size(self, kind: Basic, bytes: &[u8], at: usize) -> Result<usize, ValueFault>
        requires { at ≤ length bytes.now }
        ensures value { result ≡ body_size self.order self.array kind (self.start + at) (drop at bytes.now) }
        ensures within { IfOk result (λ count. at + count ≤ length bytes.now) }
        ensures least { IfOk result (λ count. least kind ≤ count) }
    {
        let there = &bytes[at..];
        match size(self.order, kind, there) {
            Some(count) if count <= there.len() => Ok(count),
            _ => Err(self.cut_off(at)),
        }
    }

    /// The types of a signature, whose bytes these are, with its length and the zero byte behind it.
    #[tactic(auto, unfolding(crate::specs::BasicReading::types_in))]
    pub fn types(self, body: &[u8], at: usize) -> Result<Signature, ValueFault>
        requires { 2 ≤ length body.now }
        ensures { Gives result (types_in (self.start + at) body.now) }
    {
        let last = body.len() - 1;
        if body[last] != 0 {
            return Err(ValueFault::BadText(self.reported(at)));
        }
        match Signature::read(self.alloc, &body[1..last]) {
            Ok(types) => Ok(types),
            Err(NameFault::NoMemory) => Err(ValueFault::NoMemory),
            Err(_) => Err(ValueFault::BadText(self.reported(at))),
        }
    }

    /// A text, whose bytes these are, with its length and the zero byte behind it.
    #[tactic(auto, unfolding(crate::specs::BasicReading::text_at))]
    fn text(self, body: &[u8], at: usize) -> Result<BasicValue, ValueFault>
        requires { 5 ≤ length body.now }
        ensures { Gives result (text_at (self.start + at) body.now) }
    {
        let last = body.len() - 1;
        if body[last] != 0 || !is_text(&body[4..last]) {
            return Err(ValueFault::BadText(self.reported(at)));
        }
        Ok(BasicValue::Str(Word::from_slice(self.alloc, &body[4..last])?))
    }

    /// An object path, whose bytes these are, with its length and the zero byte behind it.
    #[tactic(auto, unfolding(crate::specs::BasicReading::path_at))]
    fn path(self, body: &[u8], at: usize) -> Result<BasicValue, ValueFault>
        requires { 5 ≤ length body.now }
        ensures { Gives result (path_at (self.start + at) body.now) }
    {
        let last = body.len() - 1;
        if body[last] != 0 {
            return Err(ValueFault::BadText(self.reported(at)));
        }
        match ObjectPath::read(self.alloc, &body[4..last]) {
            Ok(path) => Ok(BasicValue::Path(path)),
            Err(NameFault::NoMemory) => Err(ValueFault::NoMemory),
            Err(_) => Err(ValueFault::BadText(self.reported(at))),
        }
    }

    /// The boolean of a number.
    fn boolean(self, number: u32, at: usize) -> Result<BasicValue, ValueFault>
        ensures { result ≡ bool_by (self.start + at) number }
    {
        match number {
            0 => Ok(BasicValue::Bool(false)),
            1 => Ok(BasicValue::Bool(true)),
            _ => Err(ValueFault::BadBool(self.reported(at))),
        }
    }

    /// The value whose bytes these are.
    #[tactic(auto, unfolding(crate::specs::BasicReading::decoded))]
    fn decoded(self, kind: Basic, body: &[u8], at: usize) -> Result<BasicValue, ValueFault>
        requires { least kind ≤ length body.now }
        ensures { Gives result (decoded self.order kind (self.start + at) body.now) }
    {
        let order = self.order;
        match kind {
            Basic::Byte => Ok(BasicValue::Byte(body[0])),
            Basic::Bool => self.boolean(read_u32(order, body), at),
            Basic::I16 => Ok(BasicValue::I16(read_u16(order, body).cast_signed())),
            Basic::U16 => Ok(BasicValue::U16(read_u16(order, body))),
            Basic::I32 => Ok(BasicValue::I32(read_u32(order, body).cast_signed())),
            Basic::U32 => Ok(BasicValue::U32(read_u32(order, body))),
            Basic::I64 => Ok(BasicValue::I64(read_u64(order, body).cast_signed())),
            Basic::U64 => Ok(BasicValue::U64(read_u64(order, body))),
            Basic::Double => {
                let mut bytes = [0; 8];
                bytes.copy_from_slice(&body[..8]);
                Ok(BasicValue::Double(bytes))
            }
            Basic::Str => self.text(body, at),
            Basic::Path => self.path(body, at),
            Basic::Sig => Ok(BasicValue::Sig(self.types(body, at)?)),
            Basic::Handle => Ok(BasicValue::Handle(read_u32(order, body))),
        }
    }

    /// The value that stands here, behind its padding.
    #[tactic(auto, unfolding(crate::specs::Reading::read_basic))]
    pub fn basic(
        self,
        kind: Basic,
        bytes: &[u8],
        at: usize,
    ) -> Result<(BasicValue, usize), ValueFault>
        requires { at ≤ length bytes.now }
        ensures value { Reads result self.start bytes.now (read_basic self.order self.array kind (self.start + at) (drop at bytes.now)) }
        ensures more { IfOk result (λ r. at < r.1) }
    {
        let first = self.pass_padding(bytes, at, alignment(kind))?;
        let end = first + self.body_size(kind, bytes, first)?;
        let value = self.decoded(kind, &bytes[first..end], first)?;
        Ok((value, end))
    }

    /// Whether these bytes are those of a text, with its length and the zero byte behind it.
    #[tactic(auto, unfolding(crate::specs::BasicReading::text_at))]
    fn check_text(self, body: &[u8], at: usize) -> Result<(), ValueFault>
        requires { 5 ≤ length body.now }
        ensures { Accepts result (text_at (self.start + at) body.now) }
    {
        let last = body.len() - 1;
        if !is_text(&body[4..last]) || body[last] != 0 {
            return Err(ValueFault::BadText(self.reported(at)));
        }
        Ok(())
    }

    /// Whether these bytes are those of an object path, with its length and the zero byte behind it.
    #[tactic(auto, unfolding(crate::specs::BasicReading::path_at))]
    fn check_path(self, body: &[u8], at: usize) -> Result<(), ValueFault>
        requires { 5 ≤ length body.now }
        ensures { Accepts result (path_at (self.start + at) body.now) }
    {
        let last = body.len() - 1;
        if body[last] != 0 || !ObjectPath::is_path(&body[4..last]) {
            return Err(ValueFault::BadText(self.reported(at)));
        }
        Ok(())
    }

    /// Whether these bytes are those of a boolean.
    fn check_boolean(self, number: u32, at: usize) -> Result<(), ValueFault>
        ensures { Accepts result (bool_by (self.start + at) number) }
    {
        if number > 1 {
            return Err(ValueFault::BadBool(self.reported(at)));
        }
        Ok(())
    }

    /// Whether these bytes are those of a value.
    #[tactic(auto, unfolding(crate::specs::BasicReading::decoded))]
    fn check_body(self, kind: Basic, body: &[u8], at: usize) -> Result<(), ValueFault>
        requires { least kind ≤ length body.now }
        ensures { Accepts result (decoded self.order kind (self.start + at) body.now) }
    {
        match kind {
            Basic::Byte
            | Basic::I16
            | Basic::U16
            | Basic::I32
            | Basic::U32
            | Basic::I64
            | Basic::U64
            | Basic::Double
            | Basic::Handle => Ok(()),
            Basic::Bool => self.check_boolean(read_u32(self.order, body), at),
            Basic::Str => self.check_text(body, at),
            Basic::Path => self.check_path(body, at),
            Basic::Sig => {
                let _types = self.types(body, at)?;
                Ok(())
            }
        }
    }

    /// The place behind the value that stands here, behind its padding.
    #[tactic(auto, unfolding(crate::specs::Reading::read_basic))]
    pub fn check_basic(self, kind: Basic, bytes: &[u8], at: usize) -> Result<usize, ValueFault>
        requires { at ≤ length bytes.now }
        ensures value { Checks result self.start bytes.now (read_basic self.order self.array kind (self.start + at) (drop at bytes.now)) }
        ensures more { IfOk result (λ next. at < next) }
    {
        let first = self.pass_padding(bytes, at, alignment(kind))?;
        let end = first + self.body_size(kind, bytes, first)?;
        self.check_body(kind, &bytes[first..end], first)?;
        Ok(end)
    }
}
