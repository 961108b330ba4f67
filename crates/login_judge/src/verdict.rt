// The verdict of an event.

ghost use Rattle.std.specs.Prelude.{◌≡◌, true, ◌∷◌, []};
ghost use Rattle.login_base.specs.SessionId.{session_of};
ghost use Rattle.login_model.specs.Policy.{call_rules, hardware_rules, first_broken, verdict, bad_arguments, is_signal, absent_user, no_such_user, no_such_seat, no_such_handle, not_yours, meant_user, linger_action, action_refused, action_challenge, own_or_refused, own_or_challenge};

use crate::devices::{judge_add, judge_handle, judge_input, judge_remove, judge_take, judge_taken};
use crate::fits::{bad_arguments, fits_creation, is_seat0, is_signal, is_vt};
use crate::keys::judge_key;
use crate::locks::judge_inhibit;
use crate::operations::{judge_power, no_job};
use crate::owners::{clock_backwards, no_such_handle, no_such_user, nobody, not_root, not_yours};
use crate::places::{
    absent_user, no_such_seat, no_such_seat_of, too_many_links, too_many_sessions, vt_busy_on,
};
use crate::properties::{judge_get, judge_get_all, judge_owner, judge_set};
use crate::session_calls::{
    first_broken, judge_activate, judge_activate_on, judge_control, judge_hint, judge_kill,
    judge_lock, judge_only, judge_terminate, judge_uncontrol,
};
use crate::standing::{judge_action, judge_own, linger_action, meant_user};
use login_base::{ConnId, HandleNo, SessId, Word};
use login_model::{Action, Call, Creation, DevKind, Event, Hardware, Look, Rule, Setup, Verdict};

fn judge_create<F: Look>(facts: &F, setup: &Setup, who: ConnId, creation: &Creation) -> Verdict
    ensures { result ≡ first_broken (call_rules setup.now (F.trail facts.now) who (Call.Create creation.now)) }
{
    first_broken(&[
        bad_arguments(fits_creation(creation)),
        not_root(facts, who),
        no_such_user(setup, creation.uid.0),
        no_such_seat_of(facts, creation.seat.as_slice()),
        nobody(facts, creation.process),
        vt_busy_on(facts, &creation.seat, creation.vt),
        too_many_sessions(facts, setup),
    ])
}

/// What needs a seat and an action.
fn judge_seat<F: Look>(
    facts: &F,
    setup: &Setup,
    who: ConnId,
    seat: &Word,
    action: Action,
) -> Verdict
    ensures { result ≡ first_broken (no_such_seat (F.trail facts.now) seat.now ∷ action_refused setup.now (F.trail facts.now) who action ∷ action_challenge setup.now (F.trail facts.now) who action ∷ []) }
{
    match first_broken(&[no_such_seat(facts, seat.as_slice())]) {
        Verdict::Granted => judge_action(facts, setup, who, action),
        denied => denied,
    }
}

fn judge_switch<F: Look>(facts: &F, setup: &Setup, who: ConnId, seat: &Word, vt: u32) -> Verdict
    ensures { result ≡ first_broken (call_rules setup.now (F.trail facts.now) who (Call.SwitchTo seat.now vt)) }
{
    match first_broken(&[
        no_such_seat(facts, seat.as_slice()),
        bad_arguments(is_seat0(seat.as_slice()) && is_vt(vt)),
    ]) {
        Verdict::Granted => judge_action(facts, setup, who, Action::ChangeVt),
        denied => denied,
    }
}

fn judge_terminate_user<F: Look>(facts: &F, setup: &Setup, who: ConnId, uid: u32) -> Verdict
    ensures { result ≡ first_broken (absent_user (F.trail facts.now) uid ∷ own_or_refused setup.now (F.trail facts.now) who uid Action.Manage ∷ own_or_challenge setup.now (F.trail facts.now) who uid Action.Manage ∷ []) }
{
    match first_broken(&[absent_user(facts, uid)]) {
        Verdict::Granted => judge_own(facts, setup, who, uid, Action::Manage),
        denied => denied,
    }
}

fn judge_kill_user<F: Look>(facts: &F, setup: &Setup, who: ConnId, uid: u32, signal: i32) -> Verdict
    ensures { result ≡ first_broken (absent_user (F.trail facts.now) uid ∷ bad_arguments (is_signal signal) ∷ own_or_refused setup.now (F.trail facts.now) who uid Action.Manage ∷ own_or_challenge setup.now (F.trail facts.now) who uid Action.Manage ∷ []) }
{
    match first_broken(&[absent_user(facts, uid), bad_arguments(is_signal(signal))]) {
        Verdict::Granted => judge_own(facts, setup, who, uid, Action::Manage),
        denied => denied,
    }
}

fn judge_linger<F: Look>(facts: &F, setup: &Setup, who: ConnId, uid: u32) -> Verdict
    ensures { result ≡ first_broken (no_such_user setup.now (meant_user (F.trail facts.now) who uid)
        ∷ action_refused setup.now (F.trail facts.now) who (linger_action (F.trail facts.now) who (meant_user (F.trail facts.now) who uid))
        ∷ action_challenge setup.now (F.trail facts.now) who (linger_action (F.trail facts.now) who (meant_user (F.trail facts.now) who uid)) ∷ []) }
{
    let user = meant_user(facts, who, uid);
    let action = linger_action(facts, who, user);
    match first_broken(&[no_such_user(setup, user)]) {
        Verdict::Granted => judge_action(facts, setup, who, action),
        denied => denied,
    }
}

fn judge_close<F: Look>(facts: &F, who: ConnId, handle: HandleNo) -> Verdict
    ensures { result ≡ first_broken (no_such_handle (F.trail facts.now) handle ∷ not_yours (F.trail facts.now) who handle ∷ []) }
{
    first_broken(&[no_such_handle(facts, handle), not_yours(facts, who, handle)])
}

fn judge_call<F: Look>(facts: &F, setup: &Setup, who: ConnId, call: &Call) -> Verdict
    ensures { result ≡ first_broken (call_rules setup.now (F.trail facts.now) who call.now) }
{
    match call {
        Call::Create(creation) => judge_create(facts, setup, who, creation.get()),
        Call::GetSession(id) => judge_only(facts, id.session()),
        Call::GetUser(uid) => first_broken(&[absent_user(facts, uid.0)]),
        Call::GetSeat(seat) => first_broken(&[no_such_seat(facts, seat.as_slice())]),
        Call::Activate(id) => judge_activate(facts, setup, who, id.session()),
        Call::ActivateOnSeat(id, seat) => judge_activate_on(facts, setup, who, id.session(), seat),
        Call::Lock(id) => judge_lock(facts, setup, who, id.session()),
        Call::Unlock(id) => judge_lock(facts, setup, who, id.session()),
        Call::LockAll => judge_action(facts, setup, who, Action::LockSessions),
        Call::UnlockAll => judge_action(facts, setup, who, Action::LockSessions),
        Call::Kill(id, whom, signal) => judge_kill(facts, setup, who, id.session(), whom, *signal),
        Call::Terminate(id) => judge_terminate(facts, setup, who, id.session()),
        Call::TerminateUser(uid) => judge_terminate_user(facts, setup, who, uid.0),
        Call::TerminateSeat(seat) => judge_seat(facts, setup, who, seat, Action::Manage),
        Call::SetLinger(uid, _) => judge_linger(facts, setup, who, uid.0),
        Call::SetIdle(id, _) => judge_hint(facts, who, id.session()),
        Call::SetLocked(id, _) => judge_hint(facts, who, id.session()),
        Call::Control(id, force) => judge_control(facts, who, id.session(), *force),
        Call::Uncontrol(id) => judge_uncontrol(facts, who, id.session()),
        Call::SwitchTo(seat, vt) => judge_switch(facts, setup, who, seat, *vt),
        Call::SwitchToNext(seat) => judge_seat(facts, setup, who, seat, Action::ChangeVt),
        Call::SwitchToPrevious(seat) => judge_seat(facts, setup, who, seat, Action::ChangeVt),
        Call::KillUser(uid, signal) => judge_kill_user(facts, setup, who, uid.0, *signal),
        Call::Close(handle) => judge_close(facts, who, *handle),
        Call::TakeDevice(id, device) => judge_take(facts, who, id.session(), *device),
        Call::ReleaseDevice(id, device) => judge_taken(facts, who, id.session(), *device),
        Call::PauseComplete(id, device) => judge_taken(facts, who, id.session(), *device),
        Call::ReadInput(handle) => judge_handle(facts, DevKind::Evdev, who, *handle),
        Call::SetMode(handle, _) => judge_handle(facts, DevKind::Drm, who, *handle),
        Call::Power(kind) => judge_power(facts, setup, who, *kind),
        Call::Inhibit(inhibition) => judge_inhibit(facts, setup, who, inhibition),
        Call::GetProperty(x) => judge_get(facts, x),
        Call::GetAllProperties(path, _) => judge_get_all(facts, path),
        Call::SetProperty(x) => judge_set(facts, x),
        Call::GetNameOwner(name) => judge_owner(name),
        Call::NoObject => Verdict::Denied(Rule::UnknownObject),
        Call::NoMethod => Verdict::Denied(Rule::UnknownMethod),
        Call::BadArguments => Verdict::Denied(Rule::BadArguments),
        Call::ListSessions
        | Call::ListUsers
        | Call::ListSeats
        | Call::ListInhibitors
        | Call::Can(_)
        | Call::Ping
        | Call::GetMachineId
        | Call::Hello
        | Call::AddMatch(_)
        | Call::RemoveMatch(_)
        | Call::NoCall => Verdict::Granted,
    }
}

fn judge_hardware<F: Look>(facts: &F, setup: &Setup, hardware: &Hardware) -> Verdict
    ensures { result ≡ first_broken (hardware_rules setup.now (F.trail facts.now) hardware.now) }
{
    match hardware {
        Hardware::VtKey(vt) => first_broken(&[bad_arguments(is_vt(*vt))]),
        Hardware::Exit(id) => judge_only(facts, SessId::read(id.as_slice())),
        Hardware::Add(device, _, _) => judge_add(facts, *device),
        Hardware::Remove(device) => judge_remove(facts, *device),
        Hardware::Input(device, _, _, _) => judge_input(facts, *device),
        Hardware::Key(key) => judge_key(facts, setup, *key),
        Hardware::JobDone => first_broken(&[no_job(facts)]),
        Hardware::Dock(_) => Verdict::Granted,
    }
}

/// What the policy says to an event: the first rule that it breaks, else granted. It takes no memory.
#[tactic(auto, unfolding(login_model::specs::Policy::verdict))]
pub fn judge<F: Look>(facts: &F, setup: &Setup, event: &Event) -> Verdict
    ensures { result ≡ verdict setup.now (F.trail facts.now) event.now }
{
    match event {
        Event::Connect(_, _) => first_broken(&[too_many_links(facts)]),
        Event::Call(request) => judge_call(facts, setup, request.who, &request.call),
        Event::Hardware(hardware) => judge_hardware(facts, setup, hardware),
        Event::Tick(moment) => first_broken(&[clock_backwards(facts, moment.0)]),
        _ => Verdict::Granted,
    }
}
