// Types, as trees.

ghost use Rattle.std.specs.Prelude.{◌≡◌, ◌<◌, length, IfOk, OnOk, OnErr};
ghost use Rattle.std.specs.Io.{StartsWith};
ghost use Rattle.std.specs.Prelude.{◌++◌, map};
ghost use Rattle.std.specs.List.{flat_map};
ghost use Rattle.bus_names.specs.Types.{basic, variant, array, dict, struct_of, text, signature_text};

use crate::basic::Basic;
use login_base::NoMemory;
use std::alloc::Global;
use std::marker::Model;
use std::sync::Arc;

/// A single complete type of the D-Bus Specification.
#[cycle(types)]
#[derive(Drop)]
pub struct Type {
    node: Node,
}

#[cycle(types)]
#[derive(Drop)]
enum Node {
    Basic(Basic),
    Variant,
    Array(Arc<Type>),
    Dict(Basic, Arc<Type>),
    Struct(Arc<Vec<Type>>),
}

/// What a type is made of.
#[derive(Clone, Copy)]
pub enum Kind<'a> {
    Basic(Basic),
    Variant,
    /// An array, with its elements' type.
    Array(&'a Type),
    /// An array of dict entries, with the types of keys and values.
    Dict(Basic, &'a Type),
    /// A struct, with its fields' types, of which there is one at least.
    Struct(&'a [Type]),
}

impl Model for Type {
    ghost use Rattle.bus_names.specs.Types.{Shape};
    ghost use Rattle.bus_names.specs.inner.Parts.{parts};
    ghost use Rattle.bus_names.specs.inner.ShapeCode.{shape_code};

    ghost Value = { Shape };

    ghost coded = { shape_code };

    ghost use Rattle.bus_names.specs.inner.Nodes.{shape_of, HasField};

    ghost view = { λ a. shape_of a.node };

    ghost invariant = { λ a. HasField a.node };

    ghost size = { parts };

    ghost use Rattle.bus_names.specs.inner.NodeFalls.{deep_parts};

    ghost size_decreases = { λ a h. deep_parts a.node h };
}

impl Type {
    ghost use Rattle.bus_names.specs.Kinds.{IsKind};

    /// A basic type.
    pub fn basic(kind: Basic) -> Type
        ensures { result ≡ basic kind }
    {
        Type {
            node: Node::Basic(kind),
        }
    }

    /// The type of a variant.
    pub fn variant() -> Type
        ensures { result ≡ variant }
    {
        Type {
            node: Node::Variant,
        }
    }

    /// The arrays of elements of a type.
    pub fn array(alloc: Global, element: Type) -> Result<Type, NoMemory>
        ensures { IfOk result (λ made. made ≡ array element) }
    {
        Ok(Type {
            node: Node::Array(Arc::new(alloc, element)?),
        })
    }

    /// The arrays of dict entries.
    pub fn dict(alloc: Global, key: Basic, value: Type) -> Result<Type, NoMemory>
        ensures { IfOk result (λ made. made ≡ dict key value) }
    {
        Ok(Type {
            node: Node::Dict(key, Arc::new(alloc, value)?),
        })
    }

    /// The structs of these fields.
    pub fn structure(alloc: Global, fields: Vec<Type>) -> Result<Type, NoMemory>
        requires { 0 < length fields.items }
        ensures { IfOk result (λ made. made ≡ struct_of fields.items) }
    {
        Ok(Type {
            node: Node::Struct(Arc::new(alloc, fields)?),
        })
    }

    /// What the type is made of.
    pub fn kind(&self) -> Kind<'_>
        ensures { IsKind result self.now }
    {
        match &self.node {
            Node::Basic(kind) => Kind::Basic(*kind),
            Node::Variant => Kind::Variant,
            Node::Array(element) => Kind::Array(element),
            Node::Dict(key, value) => Kind::Dict(*key, value),
            Node::Struct(fields) => Kind::Struct(fields.as_slice()),
        }
    }

    /// Puts the type's letters at the end.
    pub fn push_text(&self, out: &mut Vec<u8>) -> Result<(), NoMemory>
        ensures value { OnOk result (out.new.items ≡ out.old.items ++ text self.now) }
        ensures kept { OnErr result (StartsWith out.new.items out.old.items) }
    {
        match &self.node {
            Node::Basic(kind) => {
                out.push(kind.letter())?;
                Ok(())
            }
            Node::Variant => {
                out.push(b'v')?;
                Ok(())
            }
            Node::Array(element) => {
                out.push(b'a')?;
                element.push_text(out)
            }
            Node::Dict(key, value) => {
                out.extend_from_slice(&[b'a', b'{', key.letter()])?;
                value.push_text(out)?;
                out.push(b'}')?;
                Ok(())
            }
            Node::Struct(fields) => {
                out.push(b'(')?;
                for field in fields.as_slice() {
                    field.push_text(out)?;
                }
                out.push(b')')?;
                Ok(())
            }
        }
    }

    /// The same type, whose parts are shared with this one.
    pub fn shared(&self) -> Result<Type, NoMemory>
        ensures { IfOk result (λ same. same ≡ self.now) }
    {
        let node = match &self.node {
            Node::Basic(kind) => Node::Basic(*kind),
            Node::Variant => Node::Variant,
            Node::Array(element) => Node::Array(element.clone()?),
            Node::Dict(key, value) => Node::Dict(*key, value.clone()?),
            Node::Struct(fields) => Node::Struct(fields.clone()?),
        };
        Ok(Type { node })
    }
}
