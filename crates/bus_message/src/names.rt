// Names whose texts are known to be right, as the fields of a message have them.

ghost use Rattle.std.specs.Prelude.{◌≡◌, IfOk, None};
ghost use Rattle.bus_names.specs.Reading.{bus_name_fault, interface_fault, member_fault, path_fault};

use bus_names::{BusName, Interface, Member, NameFault, ObjectPath};
use login_base::NoMemory;
use std::alloc::Global;

/// The path of an object.
pub fn made_path(alloc: Global, text: &[u8]) -> Result<ObjectPath, NoMemory>
    requires { path_fault text.now ≡ None }
    ensures { IfOk result (λ path. path ≡ text.now) }
{
    match ObjectPath::read(alloc, text) {
        Ok(path) => Ok(path),
        Err(NameFault::NoMemory) => Err(NoMemory),
        Err(_) => unreachable!(),
    }
}

/// The name of an interface, or of an error.
pub fn made_interface(alloc: Global, text: &[u8]) -> Result<Interface, NoMemory>
    requires { interface_fault text.now ≡ None }
    ensures { IfOk result (λ interface. interface ≡ text.now) }
{
    match Interface::read(alloc, text) {
        Ok(interface) => Ok(interface),
        Err(NameFault::NoMemory) => Err(NoMemory),
        Err(_) => unreachable!(),
    }
}

/// The name of a member.
pub fn made_member(alloc: Global, text: &[u8]) -> Result<Member, NoMemory>
    requires { member_fault text.now ≡ None }
    ensures { IfOk result (λ member. member ≡ text.now) }
{
    match Member::read(alloc, text) {
        Ok(member) => Ok(member),
        Err(NameFault::NoMemory) => Err(NoMemory),
        Err(_) => unreachable!(),
    }
}

/// The name of a connection.
pub fn made_bus_name(alloc: Global, text: &[u8]) -> Result<BusName, NoMemory>
    requires { bus_name_fault text.now ≡ None }
    ensures { IfOk result (λ name. name ≡ text.now) }
{
    match BusName::read(alloc, text) {
        Ok(name) => Ok(name),
        Err(NameFault::NoMemory) => Err(NoMemory),
        Err(_) => unreachable!(),
    }
}
