// The own methods of seats.

ghost use Rattle.std.specs.Prelude.{◌≡◌, IfOk};
ghost use Rattle.wire_calls.specs.Calls.{seat_call};

use crate::arguments::{number_at, session_at};
use bus_value::Value;
use login_base::{NoMemory, Word};
use login_model::Call;
use std::alloc::Global;

/// A method of a seat (org.freedesktop.login1(5), "Seat Objects").
#[derive(Clone, Copy)]
pub enum SeatMethod {
    Terminate,
    ActivateSession,
    SwitchTo,
    SwitchToNext,
    SwitchToPrevious,
}

impl SeatMethod {
    ghost use Rattle.std.specs.Prelude.{◌≡◌};
    ghost use Rattle.login_model.specs.Words.{named};
    ghost use Rattle.wire_calls.specs.Methods.{seat_method, seat_methods};

    /// All methods.
    const ALL: [SeatMethod; 5] = [
        SeatMethod::Terminate,
        SeatMethod::ActivateSession,
        SeatMethod::SwitchTo,
        SeatMethod::SwitchToNext,
        SeatMethod::SwitchToPrevious,
    ];

    /// The method's name.
    pub(crate) fn name(self) -> &'static [u8]
        ensures { result.now ≡ (seat_method self).name }
    {
        match self {
            SeatMethod::Terminate => b"Terminate",
            SeatMethod::ActivateSession => b"ActivateSession",
            SeatMethod::SwitchTo => b"SwitchTo",
            SeatMethod::SwitchToNext => b"SwitchToNext",
            SeatMethod::SwitchToPrevious => b"SwitchToPrevious",
        }
    }

    /// The signature of its arguments.
    pub(crate) fn takes(self) -> &'static [u8]
        ensures { result.now ≡ (seat_method self).takes }
    {
        match self {
            SeatMethod::ActivateSession => b"s",
            SeatMethod::SwitchTo => b"u",
            SeatMethod::Terminate | SeatMethod::SwitchToNext | SeatMethod::SwitchToPrevious => b"",
        }
    }

    /// The method with a name.
    pub(crate) fn named(name: &[u8]) -> Option<SeatMethod>
        ensures { result ≡ named (λ method. (seat_method method).name) seat_methods name.now }
    {
        SeatMethod::ALL
            .iter()
            .copied()
            .find(|method| method.name() == name)
    }
}

/// The call that a method of the seat with this name is with these arguments.
pub(crate) fn seat_call(
    alloc: Global,
    seat: Word,
    method: SeatMethod,
    values: &[Value],
) -> Result<Call, NoMemory>
    ensures { IfOk result (λ call. call ≡ seat_call seat method values.now) }
{
    Ok(match method {
        SeatMethod::Terminate => Call::TerminateSeat(seat),
        SeatMethod::ActivateSession => Call::ActivateOnSeat(session_at(alloc, values, 0)?, seat),
        SeatMethod::SwitchTo => Call::SwitchTo(seat, number_at(values, 0)),
        SeatMethod::SwitchToNext => Call::SwitchToNext(seat),
        SeatMethod::SwitchToPrevious => Call::SwitchToPrevious(seat),
    })
}
