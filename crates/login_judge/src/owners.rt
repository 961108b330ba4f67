// Rules on who may do what with whose things.

ghost use Rattle.std.specs.Prelude.{◌≡◌, ◌==◌, ◌||◌};
ghost use Rattle.std.specs.List.{list_any};
ghost use Rattle.login_model.specs.declared.setup.UserRow.{UserRow as UserRowValue};
ghost use Rattle.login_model.specs.Policy.{session_uid, is_root, is_user_of, no_such_user, not_root, not_owner, controlled_by_other, controlled, not_in_control, control_rule, nobody, is_missing, no_leader, no_such_handle, is_other, not_yours, clock_backwards};
ghost use Rattle.login_model.specs.Where.{is_connected};

use crate::fits::{broken_if, is_leader};
use crate::standing::is_own;
use login_base::{ConnId, HandleNo, Millis, SessId, Word};
use login_model::{Key, Look, Rule, Setup, UserRow};

/// The user of a session.
pub(crate) fn session_uid<F: Look>(facts: &F, session: SessId) -> u32
    ensures { result ≡ session_uid (F.trail facts.now) session }
{
    facts.fact(&Key::Sess(session)).user_or_root().0
}

fn is_root<F: Look>(facts: &F, who: ConnId) -> bool
    ensures { result ≡ is_root (F.trail facts.now) who }
{
    is_own(facts, who, 0)
}

fn is_listed(users: &[UserRow], uid: u32) -> bool
    ensures { result ≡ list_any (λ (row : UserRowValue). row.uid.0 == uid) users.now }
{
    users.iter().any(|row| row.uid.0 == uid)
}

/// Whether a user is one of the setup; root always is.
fn is_user_of(setup: &Setup, uid: u32) -> bool
    ensures { result ≡ is_user_of setup.now uid }
{
    uid == 0 || is_listed(setup.users.as_slice(), uid)
}

pub(crate) fn no_such_user(setup: &Setup, uid: u32) -> Option<Rule>
    ensures { result ≡ no_such_user setup.now uid }
{
    broken_if(!is_user_of(setup, uid), Rule::NoSuchUser)
}

pub(crate) fn not_root<F: Look>(facts: &F, who: ConnId) -> Option<Rule>
    ensures { result ≡ not_root (F.trail facts.now) who }
{
    broken_if(!is_root(facts, who), Rule::NotRoot)
}

pub(crate) fn not_owner<F: Look>(facts: &F, who: ConnId, session: SessId) -> Option<Rule>
    ensures { result ≡ not_owner (F.trail facts.now) who session }
{
    let owns = is_root(facts, who) || is_own(facts, who, session_uid(facts, session));
    broken_if(!owns, Rule::NotOwner)
}

fn controlled_by_other(who: ConnId, controller: Option<ConnId>) -> Option<Rule>
    ensures { result ≡ controlled_by_other who controller }
{
    match controller {
        Some(other) => broken_if(!(other.0 == who.0), Rule::Controlled(other)),
        None => None,
    }
}

fn controlled<F: Look>(facts: &F, who: ConnId, session: SessId) -> Option<Rule>
    ensures { result ≡ controlled (F.trail facts.now) who session }
{
    controlled_by_other(who, facts.fact(&Key::Ctl(session)).controller())
}

/// Control by force is root's, and else nobody else may have it.
pub(crate) fn control_rule<F: Look>(
    facts: &F,
    force: bool,
    who: ConnId,
    session: SessId,
) -> Option<Rule>
    ensures { result ≡ control_rule force (F.trail facts.now) who session }
{
    if force {
        not_root(facts, who)
    } else {
        controlled(facts, who, session)
    }
}

pub(crate) fn not_in_control<F: Look>(facts: &F, who: ConnId, session: SessId) -> Option<Rule>
    ensures { result ≡ not_in_control (F.trail facts.now) who session }
{
    let controls = facts.fact(&Key::Ctl(session)).is_controller(who);
    broken_if(!controls, Rule::NotInControl)
}

fn is_connected<F: Look>(facts: &F, who: ConnId) -> bool
    ensures { result ≡ is_connected (F.trail facts.now) who }
{
    facts.fact(&Key::Conn(who)).is_connected()
}

pub(crate) fn nobody<F: Look>(facts: &F, process: u32) -> Option<Rule>
    ensures { result ≡ nobody (F.trail facts.now) process }
{
    let is_somebody = process == 0 || is_connected(facts, ConnId(process));
    broken_if(!is_somebody, Rule::Nobody)
}

/// Whether there is a leader who is not connected.
fn is_missing<F: Look>(facts: &F, leader: Option<ConnId>) -> bool
    ensures { result ≡ is_missing (F.trail facts.now) leader }
{
    match leader {
        Some(leader) => !is_connected(facts, leader),
        None => false,
    }
}

pub(crate) fn no_leader<F: Look>(facts: &F, session: SessId, who: &Word) -> Option<Rule>
    ensures { result ≡ no_leader (F.trail facts.now) session who.now }
{
    let leader = facts.fact(&Key::Sess(session)).leader();
    broken_if(is_leader(who) && is_missing(facts, leader), Rule::Nobody)
}

pub(crate) fn no_such_handle<F: Look>(facts: &F, handle: HandleNo) -> Option<Rule>
    ensures { result ≡ no_such_handle (F.trail facts.now) handle }
{
    broken_if(
        !facts.fact(&Key::Owner(handle)).is_owned(),
        Rule::NoSuchHandle,
    )
}

fn is_other(who: ConnId, holder: Option<ConnId>) -> bool
    ensures { result ≡ is_other who holder }
{
    match holder {
        Some(holder) => !(holder.0 == who.0),
        None => false,
    }
}

pub(crate) fn not_yours<F: Look>(facts: &F, who: ConnId, handle: HandleNo) -> Option<Rule>
    ensures { result ≡ not_yours (F.trail facts.now) who handle }
{
    let holder = facts.fact(&Key::Owner(handle)).holder();
    broken_if(is_other(who, holder), Rule::NotYours)
}

pub(crate) fn clock_backwards<F: Look>(facts: &F, moment: u64) -> Option<Rule>
    ensures { result ≡ clock_backwards (F.trail facts.now) moment }
{
    let now = facts.fact(&Key::Now).moment_or_zero();
    broken_if(moment < now, Rule::ClockBackwards(Millis(now)))
}
