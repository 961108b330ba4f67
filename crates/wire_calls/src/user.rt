// The own methods of users.

ghost use Rattle.std.specs.Prelude.{◌≡◌};
ghost use Rattle.wire_calls.specs.Calls.{user_call};

use crate::arguments::signed_at;
use bus_value::Value;
use login_base::Uid;
use login_model::Call;

/// A method of a user (org.freedesktop.login1(5), "User Objects").
#[derive(Clone, Copy)]
pub enum UserMethod {
    Terminate,
    Kill,
}

impl UserMethod {
    ghost use Rattle.std.specs.Prelude.{◌≡◌};
    ghost use Rattle.login_model.specs.Words.{named};
    ghost use Rattle.wire_calls.specs.Methods.{user_method, user_methods};

    /// All methods.
    const ALL: [UserMethod; 2] = [UserMethod::Terminate, UserMethod::Kill];

    /// The method's name.
    pub(crate) fn name(self) -> &'static [u8]
        ensures { result.now ≡ (user_method self).name }
    {
        match self {
            UserMethod::Terminate => b"Terminate",
            UserMethod::Kill => b"Kill",
        }
    }

    /// The signature of its arguments.
    pub(crate) fn takes(self) -> &'static [u8]
        ensures { result.now ≡ (user_method self).takes }
    {
        match self {
            UserMethod::Terminate => b"",
            UserMethod::Kill => b"i",
        }
    }

    /// The method with a name.
    pub(crate) fn named(name: &[u8]) -> Option<UserMethod>
        ensures { result ≡ named (λ method. (user_method method).name) user_methods name.now }
    {
        UserMethod::ALL
            .iter()
            .copied()
            .find(|method| method.name() == name)
    }
}

/// The call that a method of the user is with these arguments.
pub(crate) fn user_call(uid: Uid, method: UserMethod, values: &[Value]) -> Call
    ensures { result ≡ user_call uid method values.now }
{
    match method {
        UserMethod::Terminate => Call::TerminateUser(uid),
        UserMethod::Kill => Call::KillUser(uid, signed_at(values, 0)),
    }
}
