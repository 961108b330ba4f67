// Going over the names of a kind in order.

ghost use Rattle.std.specs.Prelude.{◌≡◌, nat_le, length, IfOk};
ghost use Rattle.login_model.specs.Names.{IsNext, session_lt, user_lt, conn_lt, seat_lt, device_lt, lock_lt};
ghost use Rattle.login_model.specs.Where.{is_session, is_user, is_connected, is_seat, is_device, is_lock};
ghost use Rattle.login_model.specs.Devices.{taken_devices};
ghost use Rattle.login_table.specs.Listed.{is_there, listed};

use crate::name::Name;
use login_base::{ConnId, DevNo, Items, LockNo, NoMemory, SeatName, SessId, Uid};
use login_model::Look;
use std::alloc::Global;

/// A kind of names that are told one after the other.
pub trait Listed: Name {
    /// The next name of what is there.
    fn next<F: Look>(facts: &F, above: Option<Self>) -> Option<Self>
        ensures { IsNext Self.lt (is_there Self.key_of Self.is_fact (F.trail facts.now)) above result };
}

impl Listed for SessId {
    fn next<F: Look>(facts: &F, above: Option<SessId>) -> Option<SessId>
        ensures { IsNext session_lt (is_session (F.trail facts.now)) above result }
    {
        facts.next_session(above)
    }
}

impl Listed for Uid {
    fn next<F: Look>(facts: &F, above: Option<Uid>) -> Option<Uid>
        ensures { IsNext user_lt (is_user (F.trail facts.now)) above result }
    {
        facts.next_user(above)
    }
}

impl Listed for ConnId {
    fn next<F: Look>(facts: &F, above: Option<ConnId>) -> Option<ConnId>
        ensures { IsNext conn_lt (is_connected (F.trail facts.now)) above result }
    {
        facts.next_conn(above)
    }
}

impl Listed for SeatName {
    fn next<F: Look>(facts: &F, above: Option<SeatName>) -> Option<SeatName>
        ensures { IsNext seat_lt (is_seat (F.trail facts.now)) above result }
    {
        facts.next_seat(above)
    }
}

impl Listed for DevNo {
    fn next<F: Look>(facts: &F, above: Option<DevNo>) -> Option<DevNo>
        ensures { IsNext device_lt (is_device (F.trail facts.now)) above result }
    {
        facts.next_device(above)
    }
}

impl Listed for LockNo {
    fn next<F: Look>(facts: &F, above: Option<LockNo>) -> Option<LockNo>
        ensures { IsNext lock_lt (is_lock (F.trail facts.now)) above result }
    {
        facts.next_lock(above)
    }
}

/// Whether a session has at least so many devices taken.
#[tactic(auto, unfolding(login_model::specs::Devices::taken_devices))]
pub fn are_taken_at_least<F: Look>(facts: &F, session: SessId, least: u32) -> bool
    ensures { result ≡ nat_le least (length (taken_devices (F.trail facts.now) session)) }
{
    let mut above: Option<DevNo> = None;
    for i in 0..least {
        match facts.next_taken(session, above) {
            Some(device) => above = Some(device),
            None => return false,
        }
    }
    true
}

/// The names of all of a kind that are there.
pub fn list<N: Listed + Drop, F: Look>(alloc: Global, facts: &F) -> Result<Items<N>, NoMemory>
    ensures { IfOk result (λ names. names ≡ listed N.lt N.name_in N.key_of N.is_fact N.first (F.trail facts.now)) }
{
    let mut names = Items::new(alloc);
    let mut above: Option<N> = None;
    while let Some(name) = N::next(facts, above) {
        names.push(name)?;
        above = Some(name);
    }
    Ok(names)
}
