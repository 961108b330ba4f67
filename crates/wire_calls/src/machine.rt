// The methods of the modelled machine.

ghost use Rattle.std.specs.Prelude.{◌≡◌};
ghost use Rattle.wire_calls.specs.Calls.{machine_call};

use crate::arguments::number_at;
use bus_value::Value;
use login_base::HandleNo;
use login_model::Call;

/// A method of the modelled machine, each of a handle.
#[derive(Clone, Copy)]
pub enum MachineMethod {
    Read,
    SetMode,
    Close,
}

impl MachineMethod {
    ghost use Rattle.std.specs.Prelude.{◌≡◌};
    ghost use Rattle.login_model.specs.Words.{named};
    ghost use Rattle.wire_calls.specs.Methods.{machine_method, machine_methods};

    /// All methods.
    const ALL: [MachineMethod; 3] = [
        MachineMethod::Read,
        MachineMethod::SetMode,
        MachineMethod::Close,
    ];

    /// The method's name.
    pub(crate) fn name(self) -> &'static [u8]
        ensures { result.now ≡ (machine_method self).name }
    {
        match self {
            MachineMethod::Read => b"Read",
            MachineMethod::SetMode => b"SetMode",
            MachineMethod::Close => b"Close",
        }
    }

    /// The signature of its arguments.
    pub(crate) fn takes(self) -> &'static [u8]
        ensures { result.now ≡ (machine_method self).takes }
    {
        match self {
            MachineMethod::Read | MachineMethod::Close => b"u",
            MachineMethod::SetMode => b"uu",
        }
    }

    /// The method with a name.
    pub(crate) fn named(name: &[u8]) -> Option<MachineMethod>
        ensures { result ≡ named (λ method. (machine_method method).name) machine_methods name.now }
    {
        MachineMethod::ALL
            .iter()
            .copied()
            .find(|method| method.name() == name)
    }
}

/// The call that a method is with these arguments.
pub(crate) fn machine_call(method: MachineMethod, values: &[Value]) -> Call
    ensures { result ≡ machine_call method values.now }
{
    let handle = HandleNo(number_at(values, 0));
    match method {
        MachineMethod::Read => Call::ReadInput(handle),
        MachineMethod::SetMode => Call::SetMode(handle, number_at(values, 1)),
        MachineMethod::Close => Call::Close(handle),
    }
}
