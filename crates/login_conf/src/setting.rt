// What a key is set to.

ghost use Rattle.std.specs.Prelude.{◌≡◌};
ghost use Rattle.login_conf.specs.Settings.{most_number, default_number, default_span, default_action, default_flag, default_setting, value_of, setting_of, with_number, with_span, with_action, with_flag, with_setting};

use crate::key::{ActionKey, FlagKey, Key, NumberKey, SpanKey};
use crate::span::read_span;
use crate::value::{number_to, read_action, read_flag};
use login_base::Millis;
use login_model::{Conf, KeyAction};

/// A key with its value.
#[derive(Clone, Copy)]
pub enum Setting {
    Number(NumberKey, u32),
    Span(SpanKey, Millis),
    Action(ActionKey, KeyAction),
    Flag(FlagKey, bool),
}

/// The greatest number that a key can have.
fn most_number(key: NumberKey) -> u32
    ensures { result ≡ most_number key }
{
    match key {
        NumberKey::AutoVts => 63,
        NumberKey::SessionsMax | NumberKey::InhibitorsMax => 32768,
    }
}

/// What a key is where nothing is said.
fn default_number(key: NumberKey) -> u32
    ensures { result ≡ default_number key }
{
    let conf = Conf::default();
    match key {
        NumberKey::AutoVts => conf.auto_vts,
        NumberKey::SessionsMax => conf.sessions_max,
        NumberKey::InhibitorsMax => conf.inhibitors_max,
    }
}

/// The same of a span.
fn default_span(key: SpanKey) -> Millis
    ensures { result ≡ default_span key }
{
    let conf = Conf::default();
    match key {
        SpanKey::InhibitDelayMax => conf.inhibit_delay_max,
        SpanKey::UserStopDelay => conf.user_stop_delay,
        SpanKey::IdleActionDelay => conf.idle_action_delay,
    }
}

/// The same of what is to be brought about.
fn default_action(key: ActionKey) -> KeyAction
    ensures { result ≡ default_action key }
{
    let conf = Conf::default();
    match key {
        ActionKey::HandlePowerKey => conf.handle_power_key,
        ActionKey::HandleSuspendKey => conf.handle_suspend_key,
        ActionKey::HandleHibernateKey => conf.handle_hibernate_key,
        ActionKey::HandleLidSwitch => conf.handle_lid_switch,
        ActionKey::HandleLidSwitchDocked => conf.handle_lid_switch_docked,
        ActionKey::IdleAction => conf.idle_action,
    }
}

/// The same of a boolean.
fn default_flag(key: FlagKey) -> bool
    ensures { result ≡ default_flag key }
{
    let conf = Conf::default();
    match key {
        FlagKey::PowerKeyIgnoreInhibited => conf.power_key_ignore_inhibited,
        FlagKey::SuspendKeyIgnoreInhibited => conf.suspend_key_ignore_inhibited,
        FlagKey::HibernateKeyIgnoreInhibited => conf.hibernate_key_ignore_inhibited,
        FlagKey::LidSwitchIgnoreInhibited => conf.lid_switch_ignore_inhibited,
    }
}

/// What a key has where its value is empty.
fn default_setting(key: Key) -> Setting
    ensures { result ≡ default_setting key }
{
    match key {
        Key::Number(key) => Setting::Number(key, default_number(key)),
        Key::Span(key) => Setting::Span(key, default_span(key)),
        Key::Action(key) => Setting::Action(key, default_action(key)),
        Key::Flag(key) => Setting::Flag(key, default_flag(key)),
    }
}

/// A key with what its value says, if that is a value that the key can have.
fn read_value(key: Key, value: &[u8]) -> Option<Setting>
    ensures { result ≡ value_of key value.now }
{
    match key {
        Key::Number(key) => {
            let number = number_to(most_number(key), value)?;
            Some(Setting::Number(key, number))
        }
        Key::Span(key) => {
            let span = read_span(value)?;
            Some(Setting::Span(key, span))
        }
        Key::Action(key) => {
            let action = read_action(value)?;
            Some(Setting::Action(key, action))
        }
        Key::Flag(key) => {
            let flag = read_flag(value)?;
            Some(Setting::Flag(key, flag))
        }
    }
}

/// What a line sets, which assigns the value to the key.
pub(crate) fn read_setting(key: Key, value: &[u8]) -> Option<Setting>
    ensures { result ≡ setting_of key value.now }
{
    if value.is_empty() {
        Some(default_setting(key))
    } else {
        read_value(key, value)
    }
}

/// A configuration with a number.
fn with_number(conf: Conf, key: NumberKey, number: u32) -> Conf
    ensures { result ≡ with_number conf key number }
{
    match key {
        NumberKey::AutoVts => Conf {
            auto_vts: number,
            ..conf
        },
        NumberKey::SessionsMax => Conf {
            sessions_max: number,
            ..conf
        },
        NumberKey::InhibitorsMax => Conf {
            inhibitors_max: number,
            ..conf
        },
    }
}

/// The same with a span.
fn with_span(conf: Conf, key: SpanKey, span: Millis) -> Conf
    ensures { result ≡ with_span conf key span }
{
    match key {
        SpanKey::InhibitDelayMax => Conf {
            inhibit_delay_max: span,
            ..conf
        },
        SpanKey::UserStopDelay => Conf {
            user_stop_delay: span,
            ..conf
        },
        SpanKey::IdleActionDelay => Conf {
            idle_action_delay: span,
            ..conf
        },
    }
}

/// The same with what is to be brought about.
fn with_action(conf: Conf, key: ActionKey, action: KeyAction) -> Conf
    ensures { result ≡ with_action conf key action }
{
    match key {
        ActionKey::HandlePowerKey => Conf {
            handle_power_key: action,
            ..conf
        },
        ActionKey::HandleSuspendKey => Conf {
            handle_suspend_key: action,
            ..conf
        },
        ActionKey::HandleHibernateKey => Conf {
            handle_hibernate_key: action,
            ..conf
        },
        ActionKey::HandleLidSwitch => Conf {
            handle_lid_switch: action,
            ..conf
        },
        ActionKey::HandleLidSwitchDocked => Conf {
            handle_lid_switch_docked: action,
            ..conf
        },
        ActionKey::IdleAction => Conf {
            idle_action: action,
            ..conf
        },
    }
}

/// The same with a boolean.
fn with_flag(conf: Conf, key: FlagKey, flag: bool) -> Conf
    ensures { result ≡ with_flag conf key flag }
{
    match key {
        FlagKey::PowerKeyIgnoreInhibited => Conf {
            power_key_ignore_inhibited: flag,
            ..conf
        },
        FlagKey::SuspendKeyIgnoreInhibited => Conf {
            suspend_key_ignore_inhibited: flag,
            ..conf
        },
        FlagKey::HibernateKeyIgnoreInhibited => Conf {
            hibernate_key_ignore_inhibited: flag,
            ..conf
        },
        FlagKey::LidSwitchIgnoreInhibited => Conf {
            lid_switch_ignore_inhibited: flag,
            ..conf
        },
    }
}

/// A configuration with a key set.
pub(crate) fn with_setting(conf: Conf, setting: Setting) -> Conf
    ensures { result ≡ with_setting conf setting }
{
    match setting {
        Setting::Number(key, number) => with_number(conf, key, number),
        Setting::Span(key, span) => with_span(conf, key, span),
        Setting::Action(key, action) => with_action(conf, key, action),
        Setting::Flag(key, flag) => with_flag(conf, key, flag),
    }
}
