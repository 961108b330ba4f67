// Whether some pause has still to be acknowledged.

ghost use Rattle.std.specs.Prelude.{◌≡◌};
ghost use Rattle.login_laws.specs.Sound.{Awaits};
ghost use Rattle.login_model.specs.Devices.{is_awaiting};
ghost use Rattle.switch_core.specs.inner.Awaited.{has_awaited};

use login_base::{SeatName, SessId};
use login_model::{Key, Look};
use login_table::active_on;

/// Whether the pause of one of a session's devices is awaited.
fn has_awaited<F: Look>(facts: &F, session: SessId) -> bool
    ensures { result ≡ has_awaited (F.trail facts.now) session }
{
    let mut above = None;
    while let Some(device) = facts.next_taken(session, above) {
        if facts.fact(&Key::Awaited(session, device)).is_set() {
            return true;
        }
        above = Some(device);
    }
    false
}

/// Whether some pause has still to be acknowledged. Only pauses of seat0's active session are awaited, so no other
/// session's devices are looked at.
pub fn is_awaiting<F: Look>(facts: &F) -> bool
    requires { Awaits (F.trail facts.now) }
    ensures { result ≡ is_awaiting (F.trail facts.now) }
{
    match active_on(facts, SeatName::SEAT0) {
        Some(session) => has_awaited(facts, session),
        None => false,
    }
}
