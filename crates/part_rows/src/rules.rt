// The number, the name and the detail of each rule.

use crate::entries::is_printed;
use login_base::{ConnId, LockNo, Millis, SessId};
use login_model::{Action, Answer, Limit, OpKind, PowerAction, Qualifier, Rule, Verdict};
use std::test::Fail;

/// How each rule is printed.
const DENIALS: [(Rule, &[u8]); 41] = [
    (Rule::UnknownObject, b" denied P01 unknown-object\n"),
    (Rule::UnknownMethod, b" denied P02 unknown-method\n"),
    (Rule::BadArguments, b" denied P03 bad-arguments\n"),
    (Rule::NoSuchSession, b" denied P04 no-such-session\n"),
    (Rule::NoSuchUser, b" denied P05 no-such-user\n"),
    (Rule::NoSuchSeat, b" denied P06 no-such-seat\n"),
    (Rule::NoSuchHandle, b" denied P07 no-such-handle\n"),
    (Rule::NoSuchDevice, b" denied P08 no-such-device\n"),
    (Rule::NotRoot, b" denied P09 not-root\n"),
    (Rule::NotOwner, b" denied P10 not-owner\n"),
    (Rule::SessionClosing, b" denied P13 session-closing\n"),
    (Rule::NoSeat, b" denied P14 no-seat\n"),
    (Rule::SessionNotOnSeat, b" denied P15 session-not-on-seat\n"),
    (Rule::DeviceNotOnSeat, b" denied P16 device-not-on-seat\n"),
    (Rule::NotInControl, b" denied P18 not-in-control\n"),
    (Rule::DeviceTaken, b" denied P19 device-taken\n"),
    (Rule::DeviceNotTaken, b" denied P20 device-not-taken\n"),
    (Rule::DelayNotOffered, b" denied P25 delay-not-offered\n"),
    (Rule::NotLive, b" denied P27 not-live\n"),
    (Rule::NotYours, b" denied P28 not-yours\n"),
    (Rule::WrongKind, b" denied P29 wrong-kind\n"),
    (Rule::DevicePresent, b" denied P30 device-present\n"),
    (Rule::DeviceAbsent, b" denied P31 device-absent\n"),
    (Rule::NoJob, b" denied P32 no-job\n"),
    (Rule::KeyIgnored, b" denied P34 key-ignored\n"),
    (Rule::Nobody, b" denied P35 nobody\n"),
    (
        Rule::ActionRefused(Action::ChangeVt),
        b" denied P11 action-refused chvt\n",
    ),
    (
        Rule::ActionRefused(Action::Power(PowerAction::Halt, Qualifier::MultipleSessions)),
        b" denied P11 action-refused halt-multiple-sessions\n",
    ),
    (
        Rule::ActionChallenge(Action::SetUserLinger),
        b" denied P12 action-challenge set-user-linger\n",
    ),
    (Rule::Controlled(ConnId(7)), b" denied P17 controlled 7\n"),
    (Rule::VtBusy(SessId(12)), b" denied P21 vt-busy c12\n"),
    (Rule::UnknownProperty, b" denied P22 unknown-property\n"),
    (Rule::ReadOnlyProperty, b" denied P22 read-only-property\n"),
    (
        Rule::OperationInProgress(OpKind::PowerOff),
        b" denied P23 operation-in-progress poweroff\n",
    ),
    (Rule::Inhibited(LockNo(3)), b" denied P24 inhibited 3\n"),
    (Rule::Limit(Limit::Links), b" denied P26 limit links 64\n"),
    (
        Rule::Limit(Limit::Sessions(8192)),
        b" denied P26 limit SessionsMax 8192\n",
    ),
    (
        Rule::Limit(Limit::Inhibitors(2)),
        b" denied P26 limit InhibitorsMax 2\n",
    ),
    (
        Rule::Limit(Limit::DevicesTaken),
        b" denied P26 limit devices-taken 128\n",
    ),
    (
        Rule::Limit(Limit::Devices),
        b" denied P26 limit devices 4096\n",
    ),
    (
        Rule::ClockBackwards(Millis(18446744073709551615)),
        b" denied P33 clock-backwards 18446744073709551615\n",
    ),
];

#[test]
fn each_rule_is_printed_with_its_detail(rt: HostRuntime) -> Result<(), Fail> {
    for (rule, expected) in &DENIALS {
        let verdict = Verdict::Denied(*rule);
        is_printed(&rt, rt.alloc(), verdict, Answer::Nothing, expected)?;
    }
    Ok(())
}
