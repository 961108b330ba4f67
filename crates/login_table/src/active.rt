// Which session is active on a seat.

ghost use Rattle.std.specs.Prelude.{◌≡◌};
ghost use Rattle.login_model.specs.Where.{is_acting_on, is_acting, is_active, session_on, current_vt, acting, active_on, seat_of_session, is_on_seat};

use login_base::{SeatName, SessId};
use login_model::{Fact, Key, Look, is_this_seat};

/// The open session of seat0 that has a virtual terminal.
pub fn session_on<F: Look>(facts: &F, vt: u32) -> Option<SessId>
    ensures { result ≡ session_on (F.trail facts.now) vt }
{
    facts.on_terminal(vt)
}

/// The current virtual terminal.
pub fn current_vt<F: Look>(facts: &F) -> u32
    ensures { result ≡ current_vt (F.trail facts.now) }
{
    facts.fact(&Key::Vt).number_or_zero()
}

fn acting<F: Look>(facts: &F, fact: &Fact) -> Option<SessId>
    ensures { result ≡ acting (F.trail facts.now) fact.now }
{
    match fact.active() {
        Some(session) => {
            if facts.fact(&Key::Sess(session)).is_open() {
                Some(session)
            } else {
                None
            }
        }
        None => None,
    }
}

/// The session that is active on a seat.
#[tactic(auto, unfolding(login_model::specs::Where::active_on))]
pub fn active_on<F: Look>(facts: &F, seat: SeatName) -> Option<SessId>
    ensures { result ≡ active_on (F.trail facts.now) seat }
{
    if seat.is_seat0() {
        session_on(facts, current_vt(facts))
    } else {
        acting(facts, facts.fact(&Key::Act(seat)))
    }
}

fn is_acting_on<F: Look>(facts: &F, session: SessId, seat: Option<SeatName>) -> bool
    ensures { result ≡ is_acting_on (F.trail facts.now) session seat }
{
    match seat {
        Some(name) => !name.is_seat0() && facts.fact(&Key::Act(name)).is_acting(session),
        None => false,
    }
}

fn is_acting<F: Look>(facts: &F, session: SessId, fact: &Fact) -> bool
    ensures { result ≡ is_acting (F.trail facts.now) session fact.now }
{
    fact.is_open() && is_acting_on(facts, session, fact.seat())
}

/// Whether a session is active on its seat.
pub fn is_active<F: Look>(facts: &F, session: SessId) -> bool
    ensures { result ≡ is_active (F.trail facts.now) session }
{
    let fact = facts.fact(&Key::Sess(session));
    fact.is_on_terminal(facts.fact(&Key::Vt)) || is_acting(facts, session, fact)
}

/// The seat of a session.
pub fn seat_of_session<F: Look>(facts: &F, session: SessId) -> Option<SeatName>
    ensures { result ≡ seat_of_session (F.trail facts.now) session }
{
    facts.fact(&Key::Sess(session)).seat()
}

/// Whether a session is on the seat of this name.
pub fn is_on_seat<F: Look>(facts: &F, seat: &[u8], session: SessId) -> bool
    ensures { result ≡ is_on_seat (F.trail facts.now) seat.now session }
{
    is_this_seat(seat, seat_of_session(facts, session))
}
