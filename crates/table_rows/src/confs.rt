// Whole texts: what each sets, and what is wrong with its lines.

use login_base::{Millis, NoMemory};
use login_conf::{ConfFault, Diagnostic, read_conf};
use login_model::{Conf, KeyAction, OpKind};
use std::alloc::Global;

/// The values that the page documents as defaults.
const DEFAULT: Conf = Conf {
    auto_vts: 6,
    sessions_max: 8192,
    inhibitors_max: 8192,
    inhibit_delay_max: Millis(5_000),
    user_stop_delay: Millis(10_000),
    idle_action_delay: Millis(1_800_000),
    handle_power_key: KeyAction::Operation(OpKind::PowerOff),
    handle_suspend_key: KeyAction::Operation(OpKind::Suspend),
    handle_hibernate_key: KeyAction::Operation(OpKind::Hibernate),
    handle_lid_switch: KeyAction::Operation(OpKind::Suspend),
    handle_lid_switch_docked: KeyAction::Ignore,
    idle_action: KeyAction::Ignore,
    power_key_ignore_inhibited: false,
    suspend_key_ignore_inhibited: false,
    hibernate_key_ignore_inhibited: false,
    lid_switch_ignore_inhibited: true,
};

/// A text, what it says, and what is wrong with its lines.
type Said<'t> = (&'t [u8], Conf, &'t [(u64, ConfFault)]);

/// Whether this is what is wrong.
fn are_wrong(found: &[Diagnostic], wrong: &[(u64, ConfFault)]) -> bool {
    for (found, (line, cause)) in found.iter().zip(wrong) {
        if found.line != *line || found.cause != *cause {
            return false;
        }
    }
    found.len() == wrong.len()
}

/// Whether what a text says is this.
fn says(alloc: Global, text: &[u8], wanted: &Conf, wrong: &[(u64, ConfFault)]) -> bool {
    match read_conf(alloc, text) {
        Ok((conf, found)) => conf == *wanted && are_wrong(found.as_slice(), wrong),
        Err(_) => false,
    }
}

/// The place of the first text that says something else.
fn first_other(alloc: Global, texts: &[Said]) -> Option<usize> {
    for (place, (text, conf, wrong)) in texts.iter().enumerate() {
        if !says(alloc, text, conf, wrong) {
            return Some(place);
        }
    }
    None
}

/// A value that is not the default one.
#[derive(Clone, Copy)]
enum Set {
    AutoVts(u32),
    SessionsMax(u32),
    InhibitDelayMax(u64),
    IdleAction(KeyAction),
    IdleActionDelay(u64),
    PowerKeyIgnoreInhibited(bool),
}

/// The defaults but for these values.
fn conf_with(values: &[Set]) -> Conf {
    let mut conf = DEFAULT;
    for value in values {
        match *value {
            Set::AutoVts(count) => conf.auto_vts = count,
            Set::SessionsMax(count) => conf.sessions_max = count,
            Set::InhibitDelayMax(millis) => conf.inhibit_delay_max = Millis(millis),
            Set::IdleAction(action) => conf.idle_action = action,
            Set::IdleActionDelay(millis) => conf.idle_action_delay = Millis(millis),
            Set::PowerKeyIgnoreInhibited(is_so) => conf.power_key_ignore_inhibited = is_so,
        }
    }
    conf
}

/// A text, what it sets that is not the default, and what is wrong with its lines. A table of whole configurations is
/// proved many times slower.
type Line<'t> = (&'t [u8], &'t [Set], &'t [(u64, ConfFault)]);

/// The place of the first text that says something else.
fn first_other_line(alloc: Global, texts: &[Line]) -> Option<usize> {
    for (place, (text, values, wrong)) in texts.iter().enumerate() {
        if !says(alloc, text, &conf_with(values), wrong) {
            return Some(place);
        }
    }
    None
}

/// Lines, how they are joined and counted, and sections.
const LINES: [Line; 18] = [
    (b"", &[], &[]),
    (b"\n\n", &[], &[]),
    (
        b"[Login]\nSessionsMax=1\nFoo=1\nNAutoVTs=64\nInhibitDelayMaxSec=1min 30s",
        &[Set::SessionsMax(1), Set::InhibitDelayMax(90_000)],
        &[(3, ConfFault::UnknownKey), (4, ConfFault::BadValue)],
    ),
    (
        b"# a\n ; b\n\t[Login] \n \tNAutoVTs \t=\t 3 \t\n",
        &[Set::AutoVts(3)],
        &[],
    ),
    (
        b"SessionsMax=1\nx\n[Login]\nSessionsMax=2\n[Other]\nSessionsMax=3\nx\n[Login]\nx",
        &[Set::SessionsMax(2)],
        &[
            (1, ConfFault::BeforeSections),
            (2, ConfFault::BeforeSections),
            (5, ConfFault::OtherSection),
            (9, ConfFault::NoEqualsSign),
        ],
    ),
    (
        b"[login]\n[ Login ]\n[]\nNAutoVTs=1",
        &[],
        &[
            (1, ConfFault::OtherSection),
            (2, ConfFault::OtherSection),
            (3, ConfFault::OtherSection),
        ],
    ),
    (
        b"[\n]\n[Login\n[Login]\n[Foo=1",
        &[],
        &[
            (1, ConfFault::BeforeSections),
            (2, ConfFault::BeforeSections),
            (3, ConfFault::BeforeSections),
            (5, ConfFault::UnknownKey),
        ],
    ),
    (
        b"[Login]\nNAuto\\\nVTs=1\nFoo",
        &[],
        &[(2, ConfFault::UnknownKey), (4, ConfFault::NoEqualsSign)],
    ),
    (
        b"[Login]\nFoo\\\n\\\n=1\nBar=1",
        &[],
        &[(2, ConfFault::UnknownKey), (5, ConfFault::UnknownKey)],
    ),
    (
        b"[Login]\nNAutoVTs=\\\n\\\n 2\nFoo=1",
        &[Set::AutoVts(2)],
        &[(5, ConfFault::UnknownKey)],
    ),
    (
        b"[Login]\n# \\\nNAutoVTs=2\nFoo=1",
        &[],
        &[(4, ConfFault::UnknownKey)],
    ),
    (
        b"[Login]\nNAutoVTs=2\\ \nSessionsMax=3\\",
        &[Set::SessionsMax(3)],
        &[(2, ConfFault::BadValue)],
    ),
    (b"[Login]\\", &[], &[]),
    (
        b"[Login]\nSessionsMax=1\\\n\nFoo=1",
        &[Set::SessionsMax(1)],
        &[(4, ConfFault::UnknownKey)],
    ),
    (
        b"[Login]\nInhibitDelayMaxSec=1min\\\n30s",
        &[Set::InhibitDelayMax(90_000)],
        &[],
    ),
    (
        b"[Lo\\\ngin]\nNAutoVTs=1",
        &[],
        &[(1, ConfFault::OtherSection)],
    ),
    (
        b"[Login]\x0d\nNAutoVTs=1",
        &[],
        &[
            (1, ConfFault::BeforeSections),
            (2, ConfFault::BeforeSections),
        ],
    ),
    (
        b"[Login]\nNAutoVTs=1\0\n\xc3\xbf=1",
        &[],
        &[(2, ConfFault::BadValue), (3, ConfFault::UnknownKey)],
    ),
];

#[test]
fn lines(rt: HostRuntime) {
    assert_eq!(rt; first_other_line(rt.alloc(), &LINES), None);
}

/// Keys, and values that come later or are empty.
const KEYS: [Line; 9] = [
    (
        b"[Login]\nFoo=1\nFoo=\n=1\nnautovts=1\nRemoveIPC\nRemoveIPC=x\nRemoveIPC=\n=",
        &[],
        &[
            (2, ConfFault::UnknownKey),
            (3, ConfFault::UnknownKey),
            (4, ConfFault::UnknownKey),
            (5, ConfFault::UnknownKey),
            (6, ConfFault::NoEqualsSign),
            (9, ConfFault::UnknownKey),
        ],
    ),
    (
        b"[Login]\nSessionsMax=1\nSessionsMax=2",
        &[Set::SessionsMax(2)],
        &[],
    ),
    (b"[Login]\nSessionsMax=1\nSessionsMax=", &[], &[]),
    (
        b"[Login]\nSessionsMax=1\nSessionsMax= x",
        &[Set::SessionsMax(1)],
        &[(3, ConfFault::BadValue)],
    ),
    (
        b"[Login]\nSessionsMax=1=1\nHandlePowerKey = lock = lock",
        &[],
        &[(2, ConfFault::BadValue), (3, ConfFault::BadValue)],
    ),
    (
        b"[Login]\nSwitchDelayMaxSec=\n",
        &[],
        &[(2, ConfFault::UnknownKey)],
    ),
    (
        b"[Login]\nPowerKeyIgnoreInhibited=yes\n",
        &[Set::PowerKeyIgnoreInhibited(true)],
        &[],
    ),
    (
        b"[Login]\nIdleAction=lock\nIdleActionSec=2\n",
        &[
            Set::IdleAction(KeyAction::Lock),
            Set::IdleActionDelay(2_000),
        ],
        &[],
    ),
    (
        b"[Login]\n\
         ReserveVT=6\n\
         KillUserProcesses=x\n\
         KillOnlyUsers=\n\
         KillExcludeUsers=root\n\
         HoldoffTimeoutSec=30s\n\
         HandleLidSwitchExternalPower=x\n\
         HandleRebootKey=x\n\
         RebootKeyIgnoreInhibited=x\n\
         HandlePowerKeyLongPress=x\n\
         HandleRebootKeyLongPress=x\n\
         HandleSuspendKeyLongPress=x\n\
         HandleHibernateKeyLongPress=x\n\
         StopIdleSessionSec=infinity\n\
         RuntimeDirectorySize=10%\n\
         RuntimeDirectoryInodesMax=x",
        &[],
        &[],
    ),
];

#[test]
fn keys(rt: HostRuntime) {
    assert_eq!(rt; first_other_line(rt.alloc(), &KEYS), None);
}

/// Values of each kind.
const VALUES: [Said; 6] = [
    (
        b"[Login]\nNAutoVTs=63\nSessionsMax=32768\nInhibitorsMax=0",
        Conf {
            auto_vts: 63,
            sessions_max: 32768,
            inhibitors_max: 0,
            ..DEFAULT
        },
        &[],
    ),
    (
        b"[Login]\n\
         NAutoVTs=64\n\
         SessionsMax=32769\n\
         InhibitorsMax=06\n\
         NAutoVTs=+1\n\
         NAutoVTs=-1\n\
         NAutoVTs=0x1\n\
         NAutoVTs=1 1\n\
         SessionsMax=4294967297",
        DEFAULT,
        &[
            (2, ConfFault::BadValue),
            (3, ConfFault::BadValue),
            (4, ConfFault::BadValue),
            (5, ConfFault::BadValue),
            (6, ConfFault::BadValue),
            (7, ConfFault::BadValue),
            (8, ConfFault::BadValue),
            (9, ConfFault::BadValue),
        ],
    ),
    (
        b"[Login]\n\
         HandlePowerKey=ignore\n\
         HandleSuspendKey=lock\n\
         HandleHibernateKey=poweroff\n\
         HandleLidSwitch=reboot\n\
         HandleLidSwitchDocked=halt\n\
         IdleAction=hybrid-sleep",
        Conf {
            handle_power_key: KeyAction::Ignore,
            handle_suspend_key: KeyAction::Lock,
            handle_hibernate_key: KeyAction::Operation(OpKind::PowerOff),
            handle_lid_switch: KeyAction::Operation(OpKind::Reboot),
            handle_lid_switch_docked: KeyAction::Operation(OpKind::Halt),
            idle_action: KeyAction::Operation(OpKind::HybridSleep),
            ..DEFAULT
        },
        &[],
    ),
    (
        b"[Login]\n\
         HandlePowerKey=suspend\n\
         HandleSuspendKey=hibernate\n\
         HandleHibernateKey=suspend-then-hibernate\n\
         HandleLidSwitch=Lock\n\
         IdleAction=kexec",
        Conf {
            handle_power_key: KeyAction::Operation(OpKind::Suspend),
            handle_suspend_key: KeyAction::Operation(OpKind::Hibernate),
            handle_hibernate_key: KeyAction::Operation(OpKind::SuspendThenHibernate),
            ..DEFAULT
        },
        &[(5, ConfFault::BadValue), (6, ConfFault::BadValue)],
    ),
    (
        b"[Login]\n\
         PowerKeyIgnoreInhibited=1\n\
         SuspendKeyIgnoreInhibited=YES\n\
         HibernateKeyIgnoreInhibited=tRue\n\
         LidSwitchIgnoreInhibited=OfF",
        Conf {
            power_key_ignore_inhibited: true,
            suspend_key_ignore_inhibited: true,
            hibernate_key_ignore_inhibited: true,
            lid_switch_ignore_inhibited: false,
            ..DEFAULT
        },
        &[],
    ),
    (
        b"[Login]\n\
         PowerKeyIgnoreInhibited=on\n\
         LidSwitchIgnoreInhibited=0\n\
         PowerKeyIgnoreInhibited=No\n\
         SuspendKeyIgnoreInhibited=false\n\
         HibernateKeyIgnoreInhibited=y",
        Conf {
            lid_switch_ignore_inhibited: false,
            ..DEFAULT
        },
        &[(6, ConfFault::BadValue)],
    ),
];

#[test]
fn values(rt: HostRuntime) {
    assert_eq!(rt; first_other(rt.alloc(), &VALUES), None);
}

/// Whether a text whose delay is a minute, and then this span, says this.
fn delays(
    alloc: Global,
    span: &[u8],
    wanted: u64,
    wrong: &[(u64, ConfFault)],
) -> Result<bool, NoMemory> {
    let mut text = Vec::new(alloc);
    text.extend_from_slice(b"[Login]\nIdleActionSec=1min\nIdleActionSec=")?;
    text.extend_from_slice(span)?;
    let conf = Conf {
        idle_action_delay: Millis(wanted),
        ..DEFAULT
    };
    Ok(says(alloc, text.as_slice(), &conf, wrong))
}

/// The place of the first span that is another one.
fn first_other_span(alloc: Global, spans: &[(&[u8], u64)]) -> Result<Option<usize>, NoMemory> {
    for (place, (span, millis)) in spans.iter().enumerate() {
        if !delays(alloc, span, *millis, &[])? {
            return Ok(Some(place));
        }
    }
    Ok(None)
}

/// The place of the first text that is a span.
fn first_span(alloc: Global, texts: &[&[u8]]) -> Result<Option<usize>, NoMemory> {
    for (place, text) in texts.iter().enumerate() {
        if !delays(alloc, text, 60_000, &[(3, ConfFault::BadValue)])? {
            return Ok(Some(place));
        }
    }
    Ok(None)
}

/// Spans, and how many milliseconds they have.
const SPANS: [(&[u8], u64); 16] = [
    (b"0", 0),
    (b"7", 7_000),
    (b"5ms", 5),
    (b"5s", 5_000),
    (b"5sec", 5_000),
    (b"2min", 120_000),
    (b"2h", 7_200_000),
    (b"1d", 86_400_000),
    (b"1w", 604_800_000),
    (b"1min30s", 90_000),
    (b"1min   30s", 90_000),
    (b"5 5", 10_000),
    (b"1h 2min3s4ms", 3_723_004),
    (b"4000000000000ms", 4_000_000_000_000),
    (b"4000000000s", 4_000_000_000_000),
    (b"3999999999s 1000ms", 4_000_000_000_000),
];

#[test]
fn spans(rt: HostRuntime) -> Result<(), NoMemory> {
    assert_eq!(rt; first_other_span(rt.alloc(), &SPANS)?, None);
    Ok(())
}

/// What is no span.
const NO_SPANS: [&[u8]; 20] = [
    b"4000000000001ms",
    b"4000000000s1ms",
    b"18446744073709551615ms 1ms",
    b"18446744073709551616ms",
    b"30500568904943w",
    b"05s",
    b"1 min",
    b"1\tmin",
    b"5s\t5s",
    b"5m",
    b"5S",
    b"5us",
    b"s",
    b"s5",
    b"-1",
    b"1.5s",
    b"infinity",
    b"5s,5s",
    b"00",
    b"1s 01s",
];

#[test]
fn no_spans(rt: HostRuntime) -> Result<(), NoMemory> {
    assert_eq!(rt; first_span(rt.alloc(), &NO_SPANS)?, None);
    Ok(())
}

/// Spans as values of a key.
const SPAN_VALUES: [Said; 2] = [
    (
        b"[Login]\nInhibitDelayMaxSec= 1min 30s \nUserStopDelaySec=5 5\nIdleActionSec=4000000000000ms",
        Conf {
            inhibit_delay_max: Millis(90_000),
            user_stop_delay: Millis(10_000),
            idle_action_delay: Millis(4_000_000_000_000),
            ..DEFAULT
        },
        &[],
    ),
    (
        b"[Login]\nIdleActionSec=1\nIdleActionSec=4000000000001ms\nUserStopDelaySec=1 min\nIdleActionSec=\n",
        DEFAULT,
        &[(3, ConfFault::BadValue), (4, ConfFault::BadValue)],
    ),
];

#[test]
fn span_values(rt: HostRuntime) {
    assert_eq!(rt; first_other(rt.alloc(), &SPAN_VALUES), None);
}

/// The file of a distribution (Debian's systemd 252), in which all lines are comments, and the same
/// with each key assigned the default that stands in the comment.
const DISTRIBUTED: [&[u8]; 2] = [
    b"#  This file is part of systemd.\n\
     \n\
     [Login]\n\
     #NAutoVTs=6\n\
     #ReserveVT=6\n\
     #KillUserProcesses=no\n\
     #KillOnlyUsers=\n\
     #KillExcludeUsers=root\n\
     #InhibitDelayMaxSec=5\n\
     #UserStopDelaySec=10\n\
     #HandlePowerKey=poweroff\n\
     #HandlePowerKeyLongPress=ignore\n\
     #HandleRebootKey=reboot\n\
     #HandleRebootKeyLongPress=poweroff\n\
     #HandleSuspendKey=suspend\n\
     #HandleSuspendKeyLongPress=hibernate\n\
     #HandleHibernateKey=hibernate\n\
     #HandleHibernateKeyLongPress=ignore\n\
     #HandleLidSwitch=suspend\n\
     #HandleLidSwitchExternalPower=suspend\n\
     #HandleLidSwitchDocked=ignore\n\
     #PowerKeyIgnoreInhibited=no\n\
     #SuspendKeyIgnoreInhibited=no\n\
     #HibernateKeyIgnoreInhibited=no\n\
     #LidSwitchIgnoreInhibited=yes\n\
     #RebootKeyIgnoreInhibited=no\n\
     #HoldoffTimeoutSec=30s\n\
     #IdleAction=ignore\n\
     #IdleActionSec=30min\n\
     #RuntimeDirectorySize=10%\n\
     #RuntimeDirectoryInodesMax=\n\
     #RemoveIPC=yes\n\
     #InhibitorsMax=8192\n\
     #SessionsMax=8192\n\
     #StopIdleSessionSec=infinity\n\
     ",
    b"#  This file is part of systemd.\n\
     \n\
     [Login]\n\
     NAutoVTs=6\n\
     ReserveVT=6\n\
     KillUserProcesses=no\n\
     KillOnlyUsers=\n\
     KillExcludeUsers=root\n\
     InhibitDelayMaxSec=5\n\
     UserStopDelaySec=10\n\
     HandlePowerKey=poweroff\n\
     HandlePowerKeyLongPress=ignore\n\
     HandleRebootKey=reboot\n\
     HandleRebootKeyLongPress=poweroff\n\
     HandleSuspendKey=suspend\n\
     HandleSuspendKeyLongPress=hibernate\n\
     HandleHibernateKey=hibernate\n\
     HandleHibernateKeyLongPress=ignore\n\
     HandleLidSwitch=suspend\n\
     HandleLidSwitchExternalPower=suspend\n\
     HandleLidSwitchDocked=ignore\n\
     PowerKeyIgnoreInhibited=no\n\
     SuspendKeyIgnoreInhibited=no\n\
     HibernateKeyIgnoreInhibited=no\n\
     LidSwitchIgnoreInhibited=yes\n\
     RebootKeyIgnoreInhibited=no\n\
     HoldoffTimeoutSec=30s\n\
     IdleAction=ignore\n\
     IdleActionSec=30min\n\
     RuntimeDirectorySize=10%\n\
     RuntimeDirectoryInodesMax=\n\
     RemoveIPC=yes\n\
     InhibitorsMax=8192\n\
     SessionsMax=8192\n\
     StopIdleSessionSec=infinity\n\
     ",
];

#[test]
fn distributed(rt: HostRuntime) {
    for text in &DISTRIBUTED {
        assert!(rt; says(rt.alloc(), text, &DEFAULT, &[]));
    }
}
