// The methods of the bus, of properties and of peers.

ghost use Rattle.std.specs.Prelude.{◌≡◌, IfOk};
ghost use Rattle.wire_calls.specs.Arguments.{text_at};
ghost use Rattle.wire_calls.specs.Calls.{bus_call, peer_call, properties_call};

use crate::arguments::{text_at, two_texts};
use bus_value::Value;
use login_base::{NoMemory, Word};
use login_model::{Call, PropertyName};
use std::alloc::Global;

/// A method of the bus itself (D-Bus Specification, "Message Bus Messages").
#[derive(Clone, Copy)]
pub enum BusMethod {
    Hello,
    GetNameOwner,
    AddMatch,
    RemoveMatch,
}

impl BusMethod {
    ghost use Rattle.std.specs.Prelude.{◌≡◌};
    ghost use Rattle.login_model.specs.Words.{named};
    ghost use Rattle.wire_calls.specs.Methods.{bus_method, bus_methods};

    /// All methods.
    const ALL: [BusMethod; 4] = [
        BusMethod::Hello,
        BusMethod::GetNameOwner,
        BusMethod::AddMatch,
        BusMethod::RemoveMatch,
    ];

    /// The method's name.
    pub(crate) fn name(self) -> &'static [u8]
        ensures { result.now ≡ (bus_method self).name }
    {
        match self {
            BusMethod::Hello => b"Hello",
            BusMethod::GetNameOwner => b"GetNameOwner",
            BusMethod::AddMatch => b"AddMatch",
            BusMethod::RemoveMatch => b"RemoveMatch",
        }
    }

    /// The signature of its arguments.
    pub(crate) fn takes(self) -> &'static [u8]
        ensures { result.now ≡ (bus_method self).takes }
    {
        match self {
            BusMethod::Hello => b"",
            BusMethod::GetNameOwner | BusMethod::AddMatch | BusMethod::RemoveMatch => b"s",
        }
    }

    /// The method with a name.
    pub(crate) fn named(name: &[u8]) -> Option<BusMethod>
        ensures { result ≡ named (λ method. (bus_method method).name) bus_methods name.now }
    {
        BusMethod::ALL
            .iter()
            .copied()
            .find(|method| method.name() == name)
    }
}

/// A method of the interface of properties, which objects have beside their own (D-Bus Specification, "Standard
/// Interfaces").
#[derive(Clone, Copy)]
pub enum PropertiesMethod {
    Get,
    GetAll,
    Set,
}

impl PropertiesMethod {
    ghost use Rattle.std.specs.Prelude.{◌≡◌};
    ghost use Rattle.login_model.specs.Words.{named};
    ghost use Rattle.wire_calls.specs.Methods.{properties_method, properties_methods};

    /// All methods.
    const ALL: [PropertiesMethod; 3] = [
        PropertiesMethod::Get,
        PropertiesMethod::GetAll,
        PropertiesMethod::Set,
    ];

    /// The method's name.
    pub(crate) fn name(self) -> &'static [u8]
        ensures { result.now ≡ (properties_method self).name }
    {
        match self {
            PropertiesMethod::Get => b"Get",
            PropertiesMethod::GetAll => b"GetAll",
            PropertiesMethod::Set => b"Set",
        }
    }

    /// The signature of its arguments.
    pub(crate) fn takes(self) -> &'static [u8]
        ensures { result.now ≡ (properties_method self).takes }
    {
        match self {
            PropertiesMethod::Get => b"ss",
            PropertiesMethod::GetAll => b"s",
            PropertiesMethod::Set => b"ssv",
        }
    }

    /// The method with a name.
    pub(crate) fn named(name: &[u8]) -> Option<PropertiesMethod>
        ensures { result ≡ named (λ method. (properties_method method).name) properties_methods name.now }
    {
        PropertiesMethod::ALL
            .iter()
            .copied()
            .find(|method| method.name() == name)
    }
}

/// A method of the interface of peers, which every path has (D-Bus Specification, "Standard Interfaces").
#[derive(Clone, Copy)]
pub enum PeerMethod {
    Ping,
    GetMachineId,
}

impl PeerMethod {
    ghost use Rattle.std.specs.Prelude.{◌≡◌};
    ghost use Rattle.login_model.specs.Words.{named};
    ghost use Rattle.wire_calls.specs.Methods.{peer_method, peer_methods};

    /// All methods.
    const ALL: [PeerMethod; 2] = [PeerMethod::Ping, PeerMethod::GetMachineId];

    /// The method's name.
    pub(crate) fn name(self) -> &'static [u8]
        ensures { result.now ≡ (peer_method self).name }
    {
        match self {
            PeerMethod::Ping => b"Ping",
            PeerMethod::GetMachineId => b"GetMachineId",
        }
    }

    /// The signature of its arguments.
    pub(crate) fn takes(self) -> &'static [u8]
        ensures { result.now ≡ (peer_method self).takes }
    {
        match self {
            PeerMethod::Ping | PeerMethod::GetMachineId => b"",
        }
    }

    /// The method with a name.
    pub(crate) fn named(name: &[u8]) -> Option<PeerMethod>
        ensures { result ≡ named (λ method. (peer_method method).name) peer_methods name.now }
    {
        PeerMethod::ALL
            .iter()
            .copied()
            .find(|method| method.name() == name)
    }
}

/// The call that a method of the bus is with these arguments.
pub(crate) fn bus_call(alloc: Global, method: BusMethod, values: &[Value]) -> Result<Call, NoMemory>
    ensures { IfOk result (λ call. call ≡ bus_call method values.now) }
{
    Ok(match method {
        BusMethod::Hello => Call::Hello,
        BusMethod::GetNameOwner => Call::GetNameOwner(text_at(alloc, values, 0)?),
        BusMethod::AddMatch => Call::AddMatch(text_at(alloc, values, 0)?),
        BusMethod::RemoveMatch => Call::RemoveMatch(text_at(alloc, values, 0)?),
    })
}

/// A property of the object with this path, by the interface and the name in front.
fn property_name(alloc: Global, path: Word, values: &[Value]) -> Result<PropertyName, NoMemory>
    ensures path { IfOk result (λ made. made.path ≡ path) }
    ensures interface { IfOk result (λ made. made.interface ≡ text_at 0 values.now) }
    ensures name { IfOk result (λ made. made.name ≡ text_at 1 values.now) }
{
    let (interface, name) = two_texts(alloc, values, 0, 1)?;
    Ok(PropertyName {
        path,
        interface,
        name,
    })
}

/// The call that a method of properties is, of the object with this path and with these arguments. The value that
/// would be set is not kept.
pub(crate) fn properties_call(
    alloc: Global,
    path: Word,
    method: PropertiesMethod,
    values: &[Value],
) -> Result<Call, NoMemory>
    ensures { IfOk result (λ call. call ≡ properties_call path method values.now) }
{
    Ok(match method {
        PropertiesMethod::Get => Call::GetProperty(property_name(alloc, path, values)?),
        PropertiesMethod::GetAll => Call::GetAllProperties(path, text_at(alloc, values, 0)?),
        PropertiesMethod::Set => Call::SetProperty(property_name(alloc, path, values)?),
    })
}

/// The call that a method of peers is.
pub(crate) fn peer_call(method: PeerMethod) -> Call
    ensures { result ≡ peer_call method }
{
    match method {
        PeerMethod::Ping => Call::Ping,
        PeerMethod::GetMachineId => Call::GetMachineId,
    }
}
