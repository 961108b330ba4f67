// Whether two keys are one, or two facts.

ghost use Rattle.std.specs.Prelude.{◌≡◌};
ghost use Rattle.login_model.specs.Same.{same_device, same_key, same_phase, same_type, same_class, same_seat, same_texts, same_session, same_whom, same_owner, same_device_kind, same_handled, same_inhibited, same_mode, same_lock, same_kind, same_operation, same_fact};

use crate::fact::{Fact, Key, Owner};
use crate::hardware::DevKind;
use crate::lock::{Inhibited, Lock, LockMode};
use crate::operation::{OpKind, Operation};
use crate::session::{Class, KillWhom, Phase, Session, SessionTexts, SessionType};
use login_base::{DevNo, SeatName};

fn is_same_device(a: &DevNo, b: &DevNo) -> bool
    ensures { result ≡ same_device a.now b.now }
{
    a.major == b.major && a.minor == b.minor
}

/// Whether two keys are one.
pub fn is_same_key(a: &Key, b: &Key) -> bool
    ensures { result ≡ same_key a.now b.now }
{
    match (a, b) {
        (Key::Conn(a), Key::Conn(b)) => a.0 == b.0,
        (Key::Sess(a), Key::Sess(b)) => a.0 == b.0,
        (Key::Idle(a), Key::Idle(b)) => a.0 == b.0,
        (Key::Locked(a), Key::Locked(b)) => a.0 == b.0,
        (Key::Sig(a), Key::Sig(b)) => a.0 == b.0,
        (Key::Ctl(a), Key::Ctl(b)) => a.0 == b.0,
        (Key::User(a), Key::User(b)) => a.0 == b.0,
        (Key::Linger(a), Key::Linger(b)) => a.0 == b.0,
        (Key::Owner(a), Key::Owner(b)) => a.0 == b.0,
        (Key::Live(a), Key::Live(b)) => a.0 == b.0,
        (Key::Seat(a), Key::Seat(b)) => a.as_slice() == b.as_slice(),
        (Key::Act(a), Key::Act(b)) => a.as_slice() == b.as_slice(),
        (Key::Vt, Key::Vt) => true,
        (Key::Getty(a), Key::Getty(b)) => *a == *b,
        (Key::Pending, Key::Pending) => true,
        (Key::Taken(session, a), Key::Taken(other, b)) => session.0 == other.0
            && is_same_device(a, b),
        (Key::Awaited(session, a), Key::Awaited(other, b)) => session.0 == other.0
            && is_same_device(a, b),
        (Key::Dev(a), Key::Dev(b)) => is_same_device(a, b),
        (Key::Mode(a), Key::Mode(b)) => is_same_device(a, b),
        (Key::Lock(a), Key::Lock(b)) => a.0 == b.0,
        (Key::Op, Key::Op) => true,
        (Key::Docked, Key::Docked) => true,
        (Key::Now, Key::Now) => true,
        _ => false,
    }
}

fn is_same_phase(a: Phase, b: Phase) -> bool
    ensures { result ≡ same_phase a b }
{
    a == b
}

fn is_same_type(a: SessionType, b: SessionType) -> bool
    ensures { result ≡ same_type a b }
{
    a == b
}

fn is_same_class(a: Class, b: Class) -> bool
    ensures { result ≡ same_class a b }
{
    a == b
}

fn is_same_seat(a: &Option<SeatName>, b: &Option<SeatName>) -> bool
    ensures { result ≡ same_seat a.now b.now }
{
    match (a, b) {
        (None, None) => true,
        (Some(a), Some(b)) => a.as_slice() == b.as_slice(),
        _ => false,
    }
}

fn are_same_texts(a: &SessionTexts, b: &SessionTexts) -> bool
    ensures { result ≡ same_texts a.now b.now }
{
    a.service == b.service
        && a.desktop == b.desktop
        && a.tty == b.tty
        && a.display == b.display
        && a.remote_user == b.remote_user
        && a.remote_host == b.remote_host
}

fn is_same_session(a: &Session, b: &Session) -> bool
    ensures { result ≡ same_session a.now b.now }
{
    is_same_phase(a.phase, b.phase)
        && a.uid.0 == b.uid.0
        && is_same_seat(&a.seat, &b.seat)
        && a.vt == b.vt
        && is_same_type(a.session_type, b.session_type)
        && is_same_class(a.class, b.class)
        && a.leader.0 == b.leader.0
        && a.fifo.0 == b.fifo.0
        && a.remote == b.remote
        && are_same_texts(&a.texts, &b.texts)
}

fn is_same_owner(a: &Owner, b: &Owner) -> bool
    ensures { result ≡ same_owner a.now b.now }
{
    match (a, b) {
        (Owner::Device(who, session, a), Owner::Device(other, of, b)) => {
            who.0 == other.0 && session.0 == of.0 && is_same_device(a, b)
        },
        (Owner::Fifo(who, session), Owner::Fifo(other, of)) => who.0 == other.0
            && session.0 == of.0,
        (Owner::Lock(who, lock), Owner::Lock(other, of)) => who.0 == other.0 && lock.0 == of.0,
        (Owner::Closed, Owner::Closed) => true,
        _ => false,
    }
}

fn is_same_whom(a: KillWhom, b: KillWhom) -> bool
    ensures { result ≡ same_whom a b }
{
    a == b
}

fn is_same_device_kind(a: DevKind, b: DevKind) -> bool
    ensures { result ≡ same_device_kind a b }
{
    a == b
}

fn is_same_mode(a: LockMode, b: LockMode) -> bool
    ensures { result ≡ same_mode a b }
{
    a == b
}

fn is_same_kind(a: OpKind, b: OpKind) -> bool
    ensures { result ≡ same_kind a b }
{
    a == b
}

fn are_same_handled(a: &Inhibited, b: &Inhibited) -> bool
    ensures { result ≡ same_handled a.now b.now }
{
    a.handle_power_key == b.handle_power_key
        && a.handle_suspend_key == b.handle_suspend_key
        && a.handle_hibernate_key == b.handle_hibernate_key
        && a.handle_lid_switch == b.handle_lid_switch
}

fn are_same_inhibited(a: &Inhibited, b: &Inhibited) -> bool
    ensures { result ≡ same_inhibited a.now b.now }
{
    a.shutdown == b.shutdown && a.sleep == b.sleep && a.idle == b.idle && are_same_handled(a, b)
}

fn is_same_lock(a: &Lock, b: &Lock) -> bool
    ensures { result ≡ same_lock a.now b.now }
{
    are_same_inhibited(&a.what, &b.what)
        && is_same_mode(a.mode, b.mode)
        && a.uid.0 == b.uid.0
        && a.who == b.who
        && a.why == b.why
        && a.holder.0 == b.holder.0
}

fn is_same_operation(a: &Operation, b: &Operation) -> bool
    ensures { result ≡ same_operation a.now b.now }
{
    match (a, b) {
        (Operation::Idle, Operation::Idle) => true,
        (Operation::Waiting(kind, since, passes), Operation::Waiting(other, from, skips)) => {
            is_same_kind(*kind, *other) && since.0 == from.0 && *passes == *skips
        },
        (Operation::Running(kind), Operation::Running(other)) => is_same_kind(*kind, *other),
        _ => false,
    }
}

/// Whether two facts are one.
pub fn is_same_fact(a: &Fact, b: &Fact) -> bool
    ensures { result ≡ same_fact a.now b.now }
{
    match (a, b) {
        (Fact::Absent, Fact::Absent) => true,
        (Fact::Connected(a), Fact::Connected(b)) => a.0 == b.0,
        (Fact::Session(a), Fact::Session(b)) => is_same_session(a.get(), b.get()),
        (Fact::Flag(a), Fact::Flag(b)) => *a == *b,
        (Fact::Signal(whom, a), Fact::Signal(other, b)) => is_same_whom(*whom, *other) && *a == *b,
        (Fact::Controller(a), Fact::Controller(b)) => a.0 == b.0,
        (Fact::Known, Fact::Known) => true,
        (Fact::Leaving(a), Fact::Leaving(b)) => a.0 == b.0,
        (Fact::Owned(a), Fact::Owned(b)) => is_same_owner(a, b),
        (Fact::Handle(a), Fact::Handle(b)) => a.0 == b.0,
        (Fact::Present, Fact::Present) => true,
        (Fact::Active(a), Fact::Active(b)) => a.0 == b.0,
        (Fact::Number(a), Fact::Number(b)) => *a == *b,
        (Fact::Moment(a), Fact::Moment(b)) => a.0 == b.0,
        (Fact::Device(kind, a), Fact::Device(other, b)) => {
            is_same_device_kind(*kind, *other) && a.get().as_slice() == b.get().as_slice()
        },
        (Fact::Lock(a), Fact::Lock(b)) => is_same_lock(a.get(), b.get()),
        (Fact::Operation(a), Fact::Operation(b)) => is_same_operation(a, b),
        _ => false,
    }
}
