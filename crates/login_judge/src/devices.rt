// Rules on devices and their handles, and the verdicts on the calls that name one.

ghost use Rattle.std.specs.Prelude.{◌≡◌, ◌∷◌, [], nat_le, length};
ghost use Rattle.login_model.specs.Where.{is_device, devices};
ghost use Rattle.login_model.specs.Devices.{is_taken};
ghost use Rattle.login_model.specs.Limits.{devices_limit};
ghost use Rattle.login_model.specs.Policy.{no_such_device, device_absent, device_present, device_not_on_seat, device_taken, device_not_taken, too_many_taken, too_many_devices, not_live, device_wrong, handle_wrong, on_session, take_rules, taken_rules, handle_rules, first_broken};
ghost use Rattle.login_model.specs.declared.hardware.DevKind.TheVariants.{Evdev};

use crate::fits::broken_if;
use crate::owners::{no_such_handle, not_in_control, not_yours};
use crate::places::{no_seat, no_such_session, session_closing};
use crate::session_calls::{NO_SESSION, first_broken};
use login_base::{ConnId, DevNo, HandleNo, SessId};
use login_model::{DevKind, Key, Limit, Look, MOST_DEVICES, MOST_TAKEN, Rule, Verdict};
use login_table::{are_taken_at_least, seat_of_session};

fn is_device<F: Look>(facts: &F, device: DevNo) -> bool
    ensures { result ≡ is_device (F.trail facts.now) device }
{
    facts.fact(&Key::Dev(device)).is_device()
}

fn no_such_device<F: Look>(facts: &F, device: DevNo) -> Option<Rule>
    ensures { result ≡ no_such_device (F.trail facts.now) device }
{
    broken_if(!is_device(facts, device), Rule::NoSuchDevice)
}

fn device_absent<F: Look>(facts: &F, device: DevNo) -> Option<Rule>
    ensures { result ≡ device_absent (F.trail facts.now) device }
{
    broken_if(!is_device(facts, device), Rule::DeviceAbsent)
}

fn device_present<F: Look>(facts: &F, device: DevNo) -> Option<Rule>
    ensures { result ≡ device_present (F.trail facts.now) device }
{
    broken_if(is_device(facts, device), Rule::DevicePresent)
}

fn device_not_on_seat<F: Look>(facts: &F, session: SessId, device: DevNo) -> Option<Rule>
    ensures { result ≡ device_not_on_seat (F.trail facts.now) session device }
{
    let seat = seat_of_session(facts, session);
    broken_if(
        !facts.fact(&Key::Dev(device)).is_device_on(seat),
        Rule::DeviceNotOnSeat,
    )
}

fn is_taken<F: Look>(facts: &F, session: SessId, device: DevNo) -> bool
    ensures { result ≡ is_taken (F.trail facts.now) session device }
{
    facts.fact(&Key::Taken(session, device)).is_handle()
}

fn device_taken<F: Look>(facts: &F, session: SessId, device: DevNo) -> Option<Rule>
    ensures { result ≡ device_taken (F.trail facts.now) session device }
{
    broken_if(is_taken(facts, session, device), Rule::DeviceTaken)
}

fn device_not_taken<F: Look>(facts: &F, session: SessId, device: DevNo) -> Option<Rule>
    ensures { result ≡ device_not_taken (F.trail facts.now) session device }
{
    broken_if(!is_taken(facts, session, device), Rule::DeviceNotTaken)
}

fn too_many_taken<F: Look>(facts: &F, session: SessId) -> Option<Rule>
    ensures { result ≡ too_many_taken (F.trail facts.now) session }
{
    broken_if(
        are_taken_at_least(facts, session, MOST_TAKEN),
        Rule::Limit(Limit::DevicesTaken),
    )
}

/// Whether as many devices are present as may be.
fn are_devices_full<F: Look>(facts: &F) -> bool
    ensures { result ≡ nat_le devices_limit (length (devices (F.trail facts.now))) }
{
    facts.device_count() >= MOST_DEVICES
}

fn too_many_devices<F: Look>(facts: &F) -> Option<Rule>
    ensures { result ≡ too_many_devices (F.trail facts.now) }
{
    broken_if(are_devices_full(facts), Rule::Limit(Limit::Devices))
}

fn not_live<F: Look>(facts: &F, handle: HandleNo) -> Option<Rule>
    ensures { result ≡ not_live (F.trail facts.now) handle }
{
    broken_if(!facts.fact(&Key::Live(handle)).is_set(), Rule::NotLive)
}

fn device_wrong<F: Look>(facts: &F, kind: DevKind, device: DevNo) -> Option<Rule>
    ensures { result ≡ device_wrong kind (F.trail facts.now) device }
{
    broken_if(
        facts.fact(&Key::Dev(device)).is_other_kind(kind),
        Rule::WrongKind,
    )
}

/// A handle that is no device's is of the wrong kind.
fn handle_wrong<F: Look>(facts: &F, kind: DevKind, device: Option<DevNo>) -> Option<Rule>
    ensures { result ≡ handle_wrong kind (F.trail facts.now) device }
{
    match device {
        Some(device) => device_wrong(facts, kind, device),
        None => Some(Rule::WrongKind),
    }
}

/// What a session may take of the devices.
fn judge_free<F: Look>(facts: &F, session: SessId, device: DevNo) -> Verdict
    ensures { result ≡ first_broken (no_such_device (F.trail facts.now) device ∷ device_not_on_seat (F.trail facts.now) session device ∷ device_taken (F.trail facts.now) session device ∷ too_many_taken (F.trail facts.now) session ∷ []) }
{
    match first_broken(&[
        no_such_device(facts, device),
        device_not_on_seat(facts, session, device),
        device_taken(facts, session, device),
    ]) {
        Verdict::Granted => first_broken(&[too_many_taken(facts, session)]),
        denied => denied,
    }
}

/// Taking a device.
pub(crate) fn judge_take<F: Look>(
    facts: &F,
    who: ConnId,
    session: Option<SessId>,
    device: DevNo,
) -> Verdict
    ensures { result ≡ first_broken (on_session (take_rules (F.trail facts.now) who device) session) }
{
    let Some(session) = session else {
        return NO_SESSION;
    };
    match first_broken(&[
        no_such_session(facts, session),
        session_closing(facts, session),
        not_in_control(facts, who, session),
        no_seat(facts, session),
    ]) {
        Verdict::Granted => judge_free(facts, session, device),
        denied => denied,
    }
}

/// Giving a device back, and acknowledging its pause.
pub(crate) fn judge_taken<F: Look>(
    facts: &F,
    who: ConnId,
    session: Option<SessId>,
    device: DevNo,
) -> Verdict
    ensures { result ≡ first_broken (on_session (taken_rules (F.trail facts.now) who device) session) }
{
    let Some(session) = session else {
        return NO_SESSION;
    };
    first_broken(&[
        no_such_session(facts, session),
        not_in_control(facts, who, session),
        device_not_taken(facts, session, device),
    ])
}

/// Using the handle of a device of this kind.
pub(crate) fn judge_handle<F: Look>(
    facts: &F,
    kind: DevKind,
    who: ConnId,
    handle: HandleNo,
) -> Verdict
    ensures { result ≡ first_broken (handle_rules kind (F.trail facts.now) who handle) }
{
    first_broken(&[
        no_such_handle(facts, handle),
        not_yours(facts, who, handle),
        handle_wrong(facts, kind, facts.fact(&Key::Owner(handle)).handle_device()),
        not_live(facts, handle),
    ])
}

/// A device that appears.
pub(crate) fn judge_add<F: Look>(facts: &F, device: DevNo) -> Verdict
    ensures { result ≡ first_broken (device_present (F.trail facts.now) device ∷ too_many_devices (F.trail facts.now) ∷ []) }
{
    match first_broken(&[device_present(facts, device)]) {
        Verdict::Granted => first_broken(&[too_many_devices(facts)]),
        denied => denied,
    }
}

/// A device that goes.
pub(crate) fn judge_remove<F: Look>(facts: &F, device: DevNo) -> Verdict
    ensures { result ≡ first_broken (device_absent (F.trail facts.now) device ∷ []) }
{
    first_broken(&[device_absent(facts, device)])
}

/// What a device reports.
pub(crate) fn judge_input<F: Look>(facts: &F, device: DevNo) -> Verdict
    ensures { result ≡ first_broken (device_absent (F.trail facts.now) device ∷ device_wrong Evdev (F.trail facts.now) device ∷ []) }
{
    first_broken(&[
        device_absent(facts, device),
        device_wrong(facts, DevKind::Evdev, device),
    ])
}
