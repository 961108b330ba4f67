// How values are written.

ghost use Rattle.std.specs.Prelude.{◌≡◌, ◌+◌, ◌++◌, ◌∷◌, [], OnOk, OnErr, length};
ghost use Rattle.std.specs.Io.{StartsWith};
ghost use Rattle.bus_names.specs.Types.{text};
ghost use Rattle.bus_value.specs.Values.{shape, vals, entries};
ghost use Rattle.bus_value.specs.Alignment.{boundary, IsAlignment};
ghost use Rattle.bus_value.specs.Spelling.{spelling, spellings, entry_spellings, signature_bytes};
ghost use Rattle.bus_value.specs.Limits.{Fits, AllFit, EntriesFit};
ghost use Rattle.bus_names.specs.Signatures.{IsWithin};

use crate::basic_value::BasicValue;
use crate::basic_write::{alignment, push_basic};
use crate::numbers::{begin_array, end_array, push_padding};
use crate::order::Order;
use crate::value::{Node, Value};
use bus_names::{Kind, Type};
use login_base::NoMemory;
use std::alloc::Global;

/// The boundary on which the values of a type begin.
pub fn boundary(kind: &Type) -> usize
    ensures value { result ≡ boundary kind.now }
    ensures valid { IsAlignment (boundary kind.now) }
{
    match kind.kind() {
        Kind::Basic(kind) => alignment(kind),
        Kind::Variant => 1,
        Kind::Array(_) | Kind::Dict(_, _) => 4,
        Kind::Struct(_) => 8,
    }
}

impl Value {
    /// Puts the letters of the value's type at the end.
    pub fn push_type(&self, out: &mut Vec<u8>) -> Result<(), NoMemory>
        ensures value { OnOk result (out.new.items ≡ out.old.items ++ text (shape self.now)) }
        ensures kept { OnErr result (StartsWith out.new.items out.old.items) }
    {
        match &self.node {
            Node::Basic(value) => {
                out.push(value.kind().letter())?;
                Ok(())
            }
            Node::Array(element, _) => {
                out.push(b'a')?;
                element.push_text(out)
            }
            Node::Struct(fields) => {
                out.push(b'(')?;
                for field in fields {
                    field.push_type(out)?;
                }
                out.push(b')')?;
                Ok(())
            }
            Node::Dict(key, value, _) => {
                out.extend_from_slice(&[b'a', b'{', key.letter()])?;
                value.push_text(out)?;
                out.push(b'}')?;
                Ok(())
            }
            Node::Variant(_) => {
                out.push(b'v')?;
                Ok(())
            }
        }
    }

    /// Puts the signature of the value's type at the end.
    fn push_signature(&self, alloc: Global, out: &mut Vec<u8>) -> Result<(), NoMemory>
        requires { IsWithin (shape self.now ∷ []) }
        ensures value { OnOk result (out.new.items ≡ out.old.items ++ signature_bytes (shape self.now ∷ [])) }
        ensures kept { OnErr result (StartsWith out.new.items out.old.items) }
    {
        let mut letters = Vec::new(alloc);
        self.push_type(&mut letters)?;
        out.push(letters.len() as u8)?;
        out.extend_from_slice(&letters)?;
        out.push(0)?;
        Ok(())
    }

    /// Puts the value at the end, where the bytes stand from the offset `start` on.
    pub fn push(
        &self,
        alloc: Global,
        out: &mut Vec<u8>,
        start: usize,
        order: Order,
    ) -> Result<(), NoMemory>
        requires { Fits order (start + length out.old.items) self.now }
        ensures value { OnOk result (out.new.items ≡ out.old.items ++ spelling order (start + length out.old.items) self.now) }
        ensures kept { OnErr result (StartsWith out.new.items out.old.items) }
    {
        match &self.node {
            Node::Basic(value) => push_basic(alloc, out, start, order, value),
            Node::Array(kind, elements) => {
                let at = begin_array(out, start, order, boundary(kind))?;
                let first = out.len();
                for element in elements {
                    element.push(alloc, out, start, order)?;
                }
                end_array(out, at, first, order);
                Ok(())
            }
            Node::Struct(fields) => {
                push_padding(out, start, 8)?;
                for field in fields {
                    field.push(alloc, out, start, order)?;
                }
                Ok(())
            }
            Node::Dict(_, _, pairs) => {
                let at = begin_array(out, start, order, 8)?;
                let first = out.len();
                for (key, value) in pairs {
                    push_padding(out, start, 8)?;
                    push_basic(alloc, out, start, order, key)?;
                    value.push(alloc, out, start, order)?;
                }
                end_array(out, at, first, order);
                Ok(())
            }
            Node::Variant(value) => {
                value.push_signature(alloc, out)?;
                value.push(alloc, out, start, order)
            }
        }
    }
}
