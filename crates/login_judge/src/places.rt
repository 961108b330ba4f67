// Rules on what there is, and where.

ghost use Rattle.std.specs.Prelude.{◌≡◌, ◌&&◌, not, nat_le, length};
ghost use Rattle.login_base.specs.Seat.{is_seat_name};
ghost use Rattle.login_model.specs.Where.{sessions, connections, is_user, is_seat, is_on_seat};
ghost use Rattle.login_model.specs.Policy.{no_such_session, absent_user, no_such_seat, no_such_seat_of, session_closing, no_seat, session_not_on_seat, vt_busy, vt_busy_on, too_many_links, too_many_sessions};
ghost use Rattle.login_model.specs.Limits.{links_limit};

use crate::fits::{broken_if, is_seat0};
use login_base::{SeatName, SessId, Uid, Word};
use login_model::{Key, Limit, Look, MOST_LINKS, Rule, Setup};
use login_table::{is_on_seat, seat_of_session, session_on};

pub(crate) fn no_such_session<F: Look>(facts: &F, session: SessId) -> Option<Rule>
    ensures { result ≡ no_such_session (F.trail facts.now) session }
{
    broken_if(
        !facts.fact(&Key::Sess(session)).is_session(),
        Rule::NoSuchSession,
    )
}

pub(crate) fn absent_user<F: Look>(facts: &F, uid: u32) -> Option<Rule>
    ensures { result ≡ absent_user (F.trail facts.now) uid }
{
    broken_if(
        !facts.fact(&Key::User(Uid(uid))).is_user(),
        Rule::NoSuchUser,
    )
}

/// Whether a text names a seat that is present.
fn is_seat<F: Look>(facts: &F, seat: &[u8]) -> bool
    ensures { result ≡ is_seat_name seat.now && is_seat (F.trail facts.now) seat.now }
{
    match SeatName::read(seat) {
        Ok(name) => facts.fact(&Key::Seat(name)).is_seat(),
        Err(_) => false,
    }
}

pub(crate) fn no_such_seat<F: Look>(facts: &F, seat: &[u8]) -> Option<Rule>
    ensures { result ≡ no_such_seat (F.trail facts.now) seat.now }
{
    broken_if(!is_seat(facts, seat), Rule::NoSuchSeat)
}

pub(crate) fn no_such_seat_of<F: Look>(facts: &F, seat: &[u8]) -> Option<Rule>
    ensures { result ≡ no_such_seat_of (F.trail facts.now) seat.now }
{
    if seat.is_empty() {
        None
    } else {
        no_such_seat(facts, seat)
    }
}

pub(crate) fn session_closing<F: Look>(facts: &F, session: SessId) -> Option<Rule>
    ensures { result ≡ session_closing (F.trail facts.now) session }
{
    broken_if(
        facts.fact(&Key::Sess(session)).is_closing(),
        Rule::SessionClosing,
    )
}

pub(crate) fn no_seat<F: Look>(facts: &F, session: SessId) -> Option<Rule>
    ensures { result ≡ no_seat (F.trail facts.now) session }
{
    broken_if(!seat_of_session(facts, session).is_some(), Rule::NoSeat)
}

pub(crate) fn session_not_on_seat<F: Look>(facts: &F, session: SessId, seat: &[u8]) -> Option<Rule>
    ensures { result ≡ session_not_on_seat (F.trail facts.now) session seat.now }
{
    broken_if(!is_on_seat(facts, seat, session), Rule::SessionNotOnSeat)
}

fn vt_busy<F: Look>(facts: &F, vt: u32) -> Option<Rule>
    ensures { result ≡ vt_busy (F.trail facts.now) vt }
{
    match session_on(facts, vt) {
        Some(session) => Some(Rule::VtBusy(session)),
        None => None,
    }
}

pub(crate) fn vt_busy_on<F: Look>(facts: &F, seat: &Word, vt: u32) -> Option<Rule>
    ensures { result ≡ vt_busy_on (F.trail facts.now) seat.now vt }
{
    if is_seat0(seat.as_slice()) {
        vt_busy(facts, vt)
    } else {
        None
    }
}

/// Whether as many links are connected as may be.
fn are_links_full<F: Look>(facts: &F) -> bool
    ensures { result ≡ nat_le links_limit (length (connections (F.trail facts.now))) }
{
    facts.conn_count() >= MOST_LINKS
}

pub(crate) fn too_many_links<F: Look>(facts: &F) -> Option<Rule>
    ensures { result ≡ too_many_links (F.trail facts.now) }
{
    broken_if(are_links_full(facts), Rule::Limit(Limit::Links))
}

/// Whether at least so many sessions are not gone.
fn are_sessions_full<F: Look>(facts: &F, most: u32) -> bool
    ensures { result ≡ nat_le most (length (sessions (F.trail facts.now))) }
{
    facts.session_count() >= most
}

pub(crate) fn too_many_sessions<F: Look>(facts: &F, setup: &Setup) -> Option<Rule>
    ensures { result ≡ too_many_sessions setup.now (F.trail facts.now) }
{
    let most = setup.conf.sessions_max;
    broken_if(
        are_sessions_full(facts, most),
        Rule::Limit(Limit::Sessions(most)),
    )
}
