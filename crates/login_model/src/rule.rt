// The rules of the policy. docs/PROFILE.md lists them with the numbers under which they print.

use crate::action::Action;
use crate::operation::OpKind;
use login_base::{ConnId, LockNo, Millis, SessId};

/// The most connections that may be connected.
pub const MOST_LINKS: u32 = 64;

/// The most devices that a session may have taken.
pub const MOST_TAKEN: u32 = 128;

/// The most devices that may be present.
pub const MOST_DEVICES: u32 = 4096;

/// A number that was reached. It prints as its name and the number, as `links 64`.
#[derive(Clone, Copy, Debug, PartialEq, Eq)]
pub enum Limit {
    /// As many connections are connected as may be.
    Links,
    /// As many sessions as the configuration allows are not gone.
    Sessions(u32),
    /// As many locks as the configuration allows stand.
    Inhibitors(u32),
    /// The session has as many devices taken as it may.
    DevicesTaken,
    /// As many devices are present as may be.
    Devices,
}

impl Limit {
    ghost use Rattle.std.specs.Prelude.{◌≡◌};
    ghost use Rattle.login_model.specs.RuleWords.{limit_name, limit_number};

    /// The name of the limit: the configuration's key where it sets the number.
    pub fn name(self) -> &'static [u8]
        ensures { result.now ≡ limit_name self }
    {
        match self {
            Limit::Links => b"links",
            Limit::Sessions(_) => b"SessionsMax",
            Limit::Inhibitors(_) => b"InhibitorsMax",
            Limit::DevicesTaken => b"devices-taken",
            Limit::Devices => b"devices",
        }
    }

    /// The number that was reached.
    pub fn number(self) -> u32
        ensures { result ≡ limit_number self }
    {
        match self {
            Limit::Links => MOST_LINKS,
            Limit::Sessions(most) | Limit::Inhibitors(most) => most,
            Limit::DevicesTaken => MOST_TAKEN,
            Limit::Devices => MOST_DEVICES,
        }
    }
}

/// A rule that an event breaks, with what the rule names.
#[derive(Clone, Copy, Debug, PartialEq, Eq)]
pub enum Rule {
    /// The message names no object.
    UnknownObject,
    /// The object has no such method.
    UnknownMethod,
    /// A value is none that the call takes.
    BadArguments,
    /// The id is no session that was made and is not gone.
    NoSuchSession,
    /// The user is none of the setup, or is absent.
    NoSuchUser,
    /// The seat is absent.
    NoSuchSeat,
    /// The handle was never given out, or is closed.
    NoSuchHandle,
    /// The caller's user is not root.
    NotRoot,
    /// The caller's user is neither root nor the session's.
    NotOwner,
    /// The policy says no to this action.
    ActionRefused(Action),
    /// Whoever asks would have to prove who they are for this action.
    ActionChallenge(Action),
    /// The session is closing.
    SessionClosing,
    /// The session has no seat.
    NoSeat,
    /// The session is not on the seat that is named.
    SessionNotOnSeat,
    /// This other connection controls the session.
    Controlled(ConnId),
    /// The caller does not control the session.
    NotInControl,
    /// This open session of seat0 has the virtual terminal.
    VtBusy(SessId),
    /// The number is reached.
    Limit(Limit),
    /// The handle is another connection's.
    NotYours,
    /// The moment is before the clock, which stands at this one.
    ClockBackwards(Millis),
    /// The process is not connected, or the name has no owner.
    Nobody,
    /// The device is absent.
    NoSuchDevice,
    /// The device is not on the session's seat.
    DeviceNotOnSeat,
    /// The session has the device taken.
    DeviceTaken,
    /// The session does not have the device taken.
    DeviceNotTaken,
    /// The handle is dead.
    NotLive,
    /// The handle is no device's, or the device is of another kind.
    WrongKind,
    /// The device is present.
    DevicePresent,
    /// The device of an event is absent.
    DeviceAbsent,
    /// An operation of this kind waits or runs.
    OperationInProgress(OpKind),
    /// This lock stands in the way; it is the lowest that does.
    Inhibited(LockNo),
    /// A lock cannot delay what it names.
    DelayNotOffered,
    /// No operation runs.
    NoJob,
    /// The key's action is to ignore it.
    KeyIgnored,
    /// The object has no such property under that interface.
    UnknownProperty,
    /// The property can't be set, as none can.
    ReadOnlyProperty,
}

impl Rule {
    ghost use Rattle.std.specs.Prelude.{◌≡◌};
    ghost use Rattle.login_model.specs.RuleWords.{rule_label};

    /// The number and the name of the rule.
    #[tactic(auto, unfolding(crate::specs::RuleWords::rule_label))]
    pub fn label(self) -> &'static [u8]
        ensures { result.now ≡ rule_label self }
    {
        match self {
            Rule::UnknownObject => b"P01 unknown-object",
            Rule::UnknownMethod => b"P02 unknown-method",
            Rule::BadArguments => b"P03 bad-arguments",
            Rule::NoSuchSession => b"P04 no-such-session",
            Rule::NoSuchUser => b"P05 no-such-user",
            Rule::NoSuchSeat => b"P06 no-such-seat",
            Rule::NoSuchHandle => b"P07 no-such-handle",
            Rule::NoSuchDevice => b"P08 no-such-device",
            Rule::NotRoot => b"P09 not-root",
            Rule::NotOwner => b"P10 not-owner",
            Rule::ActionRefused(_) => b"P11 action-refused",
            Rule::ActionChallenge(_) => b"P12 action-challenge",
            Rule::SessionClosing => b"P13 session-closing",
            Rule::NoSeat => b"P14 no-seat",
            Rule::SessionNotOnSeat => b"P15 session-not-on-seat",
            Rule::DeviceNotOnSeat => b"P16 device-not-on-seat",
            Rule::Controlled(_) => b"P17 controlled",
            Rule::NotInControl => b"P18 not-in-control",
            Rule::DeviceTaken => b"P19 device-taken",
            Rule::DeviceNotTaken => b"P20 device-not-taken",
            Rule::VtBusy(_) => b"P21 vt-busy",
            Rule::UnknownProperty => b"P22 unknown-property",
            Rule::ReadOnlyProperty => b"P22 read-only-property",
            Rule::OperationInProgress(_) => b"P23 operation-in-progress",
            Rule::Inhibited(_) => b"P24 inhibited",
            Rule::DelayNotOffered => b"P25 delay-not-offered",
            Rule::Limit(_) => b"P26 limit",
            Rule::NotLive => b"P27 not-live",
            Rule::NotYours => b"P28 not-yours",
            Rule::WrongKind => b"P29 wrong-kind",
            Rule::DevicePresent => b"P30 device-present",
            Rule::DeviceAbsent => b"P31 device-absent",
            Rule::NoJob => b"P32 no-job",
            Rule::ClockBackwards(_) => b"P33 clock-backwards",
            Rule::KeyIgnored => b"P34 key-ignored",
            Rule::Nobody => b"P35 nobody",
        }
    }
}

/// What the policy says to an event.
#[derive(Clone, Copy, Debug, PartialEq, Eq)]
pub enum Verdict {
    Granted,
    /// The first rule that is broken.
    Denied(Rule),
}
