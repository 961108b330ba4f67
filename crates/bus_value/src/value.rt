// Values, as trees.

ghost use Rattle.std.specs.Prelude.{◌≡◌, ◌<◌, length, IfOk};
ghost use Rattle.bus_value.specs.Values.{basic, array, struct, dict, variant, vals, entries};

use crate::basic_value::BasicValue;
use bus_names::{Basic, Type};
use login_base::NoMemory;
use std::alloc::Global;
use std::marker::Model;

mod write;

pub use write::boundary;

/// A value of the D-Bus Specification.
#[cycle(values)]
#[derive(Drop)]
pub struct Value {
    node: Node,
}

#[cycle(values)]
#[derive(Drop)]
enum Node {
    Basic(BasicValue),
    Array(Type, Vec<Value>),
    Struct(Vec<Value>),
    Dict(Basic, Type, Vec<(BasicValue, Value)>),
    Variant(Box<Value>),
}

/// What a value is made of.
#[derive(Clone, Copy)]
pub enum ValueKind<'a> {
    Basic(&'a BasicValue),
    /// An array, with its elements' type.
    Array(&'a Type, &'a [Value]),
    /// A struct, with its fields.
    Struct(&'a [Value]),
    /// An array of dict entries, with the types of keys and values.
    Dict(Basic, &'a Type, &'a [(BasicValue, Value)]),
    Variant(&'a Value),
}

impl Model for Value {
    ghost use Rattle.bus_value.specs.Values.{Val, parts};
    ghost use Rattle.bus_value.specs.inner.ValueCode.{value_code};

    ghost Value = { Val };

    ghost coded = { value_code };

    ghost use Rattle.bus_value.specs.inner.Nodes.{value_of, HasField};

    ghost view = { λ a. value_of a.node };

    ghost invariant = { λ a. HasField a.node };

    ghost size = { parts };

    ghost use Rattle.bus_value.specs.inner.NodeFalls.{deep_parts};

    ghost size_decreases = { λ a h. deep_parts a.node };
}

impl Value {
    ghost use Rattle.bus_value.specs.Kinds.{IsKind};

    /// A value of a basic type.
    pub fn basic(value: BasicValue) -> Value
        ensures { result ≡ basic value }
    {
        Value {
            node: Node::Basic(value),
        }
    }

    /// An array of elements of this type.
    pub fn array(element: Type, elements: Vec<Value>) -> Value
        ensures { result ≡ array element (vals elements.items) }
    {
        Value {
            node: Node::Array(element, elements),
        }
    }

    /// A struct, which has a field at least.
    pub fn structure(fields: Vec<Value>) -> Value
        requires { 0 < length fields.items }
        ensures { result ≡ struct (vals fields.items) }
    {
        Value {
            node: Node::Struct(fields),
        }
    }

    /// An array of dict entries with keys and values of these types.
    pub fn dict(key: Basic, value: Type, pairs: Vec<(BasicValue, Value)>) -> Value
        ensures { result ≡ dict key value (entries pairs.items) }
    {
        Value {
            node: Node::Dict(key, value, pairs),
        }
    }

    /// A variant.
    pub fn variant(alloc: Global, value: Value) -> Result<Value, NoMemory>
        ensures { IfOk result (λ made. made ≡ variant value) }
    {
        Ok(Value {
            node: Node::Variant(Box::new(alloc, value)?),
        })
    }

    /// What the value is made of.
    pub fn kind(&self) -> ValueKind<'_>
        ensures { IsKind result self.now }
    {
        match &self.node {
            Node::Basic(value) => ValueKind::Basic(value),
            Node::Array(element, elements) => ValueKind::Array(element, elements.as_slice()),
            Node::Struct(fields) => ValueKind::Struct(fields.as_slice()),
            Node::Dict(key, value, pairs) => ValueKind::Dict(*key, value, pairs.as_slice()),
            Node::Variant(value) => ValueKind::Variant(value),
        }
    }
}
