// The names of objects, interfaces, members and connections.

ghost use Rattle.std.specs.Prelude.{◌≡◌, ◌<◌, ◌^◌, None, IfOk, is_none, length};
ghost use Rattle.std.proofs.Common.{rules};
ghost use Rattle.std.specs.Str.{bytes_eq};
ghost use Rattle.std.specs.Cmp.Rules.{comparing};
ghost use Rattle.login_base.specs.Names.{IsPath, IsInterface, IsMember, IsBusName};
ghost use Rattle.bus_names.specs.Reading.{path_fault, interface_fault, member_fault, bus_name_fault, Explains, Gives};

use crate::fault::NameFault;
use crate::grammar::{Grammar, fault_from};
use login_base::{NoMemory, Word};
use std::alloc::Global;
use std::marker::Model;

/// The path of an object.
#[derive(Drop)]
pub struct ObjectPath {
    text: Word,
}

/// The name of an interface or of an error.
#[derive(Drop)]
pub struct Interface {
    text: Word,
}

/// The name of a method, a signal or a property.
#[derive(Drop)]
pub struct Member {
    text: Word,
}

/// The name of a connection: a well-known one, or a unique one, which begins with a colon.
#[derive(Drop)]
pub struct BusName {
    text: Word,
}

impl Model for ObjectPath {
    ghost use Rattle.std.specs.Prelude.{List, ℕ, ◌≡◌, None};
    ghost use Rattle.bus_names.specs.Reading.{path_fault};

    ghost Value = { List ℕ };

    ghost view = { λ s. s.text };

    ghost invariant = { λ s. path_fault s.text ≡ None };
}

impl Model for Interface {
    ghost use Rattle.std.specs.Prelude.{List, ℕ, ◌≡◌, None};
    ghost use Rattle.bus_names.specs.Reading.{interface_fault};

    ghost Value = { List ℕ };

    ghost view = { λ s. s.text };

    ghost invariant = { λ s. interface_fault s.text ≡ None };
}

impl Model for Member {
    ghost use Rattle.std.specs.Prelude.{List, ℕ, ◌≡◌, None};
    ghost use Rattle.bus_names.specs.Reading.{member_fault};

    ghost Value = { List ℕ };

    ghost view = { λ s. s.text };

    ghost invariant = { λ s. member_fault s.text ≡ None };
}

impl Model for BusName {
    ghost use Rattle.std.specs.Prelude.{List, ℕ, ◌≡◌, None};
    ghost use Rattle.bus_names.specs.Reading.{bus_name_fault};

    ghost Value = { List ℕ };

    ghost view = { λ s. s.text };

    ghost invariant = { λ s. bus_name_fault s.text ≡ None };
}

/// Where a text is not an object path.
fn path_fault(text: &[u8]) -> Option<usize>
    ensures value { result ≡ path_fault text.now }
    ensures law { Explains IsPath text.now (path_fault text.now) }
{
    fault_from(Grammar::Path, 0, text)
}

/// Where a text is not the name of an interface or of an error.
fn interface_fault(text: &[u8]) -> Option<usize>
    ensures value { result ≡ interface_fault text.now }
    ensures law { Explains IsInterface text.now (interface_fault text.now) }
{
    fault_from(Grammar::Interface, 0, text)
}

/// Where a text is not the name of a member.
fn member_fault(text: &[u8]) -> Option<usize>
    ensures value { result ≡ member_fault text.now }
    ensures law { Explains IsMember text.now (member_fault text.now) }
{
    fault_from(Grammar::Member, 0, text)
}

/// Where a text is not the name of a connection.
fn bus_name_fault(text: &[u8]) -> Option<usize>
    ensures value { result ≡ bus_name_fault text.now }
    ensures law { Explains IsBusName text.now (bus_name_fault text.now) }
{
    if !text.is_empty() && text[0] == b':' {
        fault_from(Grammar::Unique, 1, &text[1..])
    } else {
        fault_from(Grammar::WellKnown, 0, text)
    }
}

impl ObjectPath {
    /// The text as an object path; else `BadName` at the first byte with which no continuation is one, or at
    /// the length.
    pub fn read(alloc: Global, text: &[u8]) -> Result<ObjectPath, NameFault>
        ensures value { Gives result text.now (path_fault text.now) }
        ensures law { Explains IsPath text.now (path_fault text.now) }
    {
        match path_fault(text) {
            Some(offset) => Err(NameFault::BadName(offset)),
            None => Ok(ObjectPath {
                text: Word::from_slice(alloc, text)?,
            }),
        }
    }

    /// Whether a text is an object path. It takes no memory.
    pub fn is_path(text: &[u8]) -> bool
        ensures { result ≡ is_none (path_fault text.now) }
    {
        path_fault(text).is_none()
    }

    /// A copy on the same allocator.
    pub fn copied(&self) -> Result<ObjectPath, NoMemory>
        ensures { IfOk result (λ name. name ≡ self.now) }
    {
        Ok(ObjectPath {
            text: self.text.copied()?,
        })
    }

    /// The text, which is an object path.
    pub fn as_slice(&self) -> &[u8]
        ensures value { result.now ≡ self.now }
        ensures valid { path_fault self.now ≡ None }
        ensures law { IsPath self.now }
    {
        self.text.as_slice()
    }
}

impl PartialEq for ObjectPath {
    ghost eq = { bytes_eq };

    ghost laws = { Prim.search (comparing, rules) };

    fn eq(&self, other: &ObjectPath) -> bool {
        self.text == other.text
    }
}

impl Eq for ObjectPath {
    ghost laws = { Prim.search (comparing, rules) };
}

impl Interface {
    /// The text as the name of an interface or of an error; else `BadName` at the first byte with which no continuation
    /// is one, or at the length.
    pub fn read(alloc: Global, text: &[u8]) -> Result<Interface, NameFault>
        ensures value { Gives result text.now (interface_fault text.now) }
        ensures law { Explains IsInterface text.now (interface_fault text.now) }
    {
        match interface_fault(text) {
            Some(offset) => Err(NameFault::BadName(offset)),
            None => Ok(Interface {
                text: Word::from_slice(alloc, text)?,
            }),
        }
    }

    /// A copy on the same allocator.
    pub fn copied(&self) -> Result<Interface, NoMemory>
        ensures { IfOk result (λ name. name ≡ self.now) }
    {
        Ok(Interface {
            text: self.text.copied()?,
        })
    }

    /// The text, which is the name of an interface or of an error.
    pub fn as_slice(&self) -> &[u8]
        ensures value { result.now ≡ self.now }
        ensures valid { interface_fault self.now ≡ None }
        ensures law { IsInterface self.now }
    {
        self.text.as_slice()
    }
}

impl PartialEq for Interface {
    ghost eq = { bytes_eq };

    ghost laws = { Prim.search (comparing, rules) };

    fn eq(&self, other: &Interface) -> bool {
        self.text == other.text
    }
}

impl Eq for Interface {
    ghost laws = { Prim.search (comparing, rules) };
}

impl Member {
    /// The text as the name of a member; else `BadName` at the first byte with which no continuation is one, or at
    /// the length.
    pub fn read(alloc: Global, text: &[u8]) -> Result<Member, NameFault>
        ensures value { Gives result text.now (member_fault text.now) }
        ensures law { Explains IsMember text.now (member_fault text.now) }
    {
        match member_fault(text) {
            Some(offset) => Err(NameFault::BadName(offset)),
            None => Ok(Member {
                text: Word::from_slice(alloc, text)?,
            }),
        }
    }

    /// A copy on the same allocator.
    pub fn copied(&self) -> Result<Member, NoMemory>
        ensures { IfOk result (λ name. name ≡ self.now) }
    {
        Ok(Member {
            text: self.text.copied()?,
        })
    }

    /// The text, which is the name of a member.
    pub fn as_slice(&self) -> &[u8]
        ensures value { result.now ≡ self.now }
        ensures valid { member_fault self.now ≡ None }
        ensures law { IsMember self.now }
    {
        self.text.as_slice()
    }
}

impl PartialEq for Member {
    ghost eq = { bytes_eq };

    ghost laws = { Prim.search (comparing, rules) };

    fn eq(&self, other: &Member) -> bool {
        self.text == other.text
    }
}

impl Eq for Member {
    ghost laws = { Prim.search (comparing, rules) };
}

impl BusName {
    /// The text as the name of a connection; else `BadName` at the first byte with which no continuation is one, or at
    /// the length.
    pub fn read(alloc: Global, text: &[u8]) -> Result<BusName, NameFault>
        ensures value { Gives result text.now (bus_name_fault text.now) }
        ensures law { Explains IsBusName text.now (bus_name_fault text.now) }
    {
        match bus_name_fault(text) {
            Some(offset) => Err(NameFault::BadName(offset)),
            None => Ok(BusName {
                text: Word::from_slice(alloc, text)?,
            }),
        }
    }

    /// A copy on the same allocator.
    pub fn copied(&self) -> Result<BusName, NoMemory>
        ensures { IfOk result (λ name. name ≡ self.now) }
    {
        Ok(BusName {
            text: self.text.copied()?,
        })
    }

    /// The text, which is the name of a connection.
    pub fn as_slice(&self) -> &[u8]
        ensures value { result.now ≡ self.now }
        ensures valid { bus_name_fault self.now ≡ None }
        ensures law { IsBusName self.now }
    {
        self.text.as_slice()
    }
}

impl PartialEq for BusName {
    ghost eq = { bytes_eq };

    ghost laws = { Prim.search (comparing, rules) };

    fn eq(&self, other: &BusName) -> bool {
        self.text == other.text
    }
}

impl Eq for BusName {
    ghost laws = { Prim.search (comparing, rules) };
}
