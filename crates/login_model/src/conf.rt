// The configuration.

ghost use Rattle.std.specs.Prelude.{◌≡◌};

use crate::operation::OpKind;
use login_base::Millis;

/// What a key, the lid or idleness brings about.
#[derive(Clone, Copy, PartialEq, Eq)]
pub enum KeyAction {
    Ignore,
    /// All sessions are locked.
    Lock,
    /// The operation is asked for.
    Operation(OpKind),
}

/// The configuration: a field for each key of logind.conf(5) that is kept.
#[derive(Clone, Copy, PartialEq, Eq)]
pub struct Conf {
    /// NAutoVTs: the last virtual terminal on which a getty is asked for.
    pub auto_vts: u32,
    /// SessionsMax: how many sessions there can be.
    pub sessions_max: u32,
    /// InhibitorsMax: how many inhibitor locks there can be.
    pub inhibitors_max: u32,
    /// InhibitDelayMaxSec: how long locks can delay an operation.
    pub inhibit_delay_max: Millis,
    /// UserStopDelaySec: how long a user stays known after the last session.
    pub user_stop_delay: Millis,
    /// IdleActionSec: how long the machine is idle before it acts.
    pub idle_action_delay: Millis,
    /// HandlePowerKey: what the power key brings about.
    pub handle_power_key: KeyAction,
    /// HandleSuspendKey.
    pub handle_suspend_key: KeyAction,
    /// HandleHibernateKey.
    pub handle_hibernate_key: KeyAction,
    /// HandleLidSwitch.
    pub handle_lid_switch: KeyAction,
    /// HandleLidSwitchDocked: what the lid brings about while the machine is docked.
    pub handle_lid_switch_docked: KeyAction,
    /// IdleAction: what idleness brings about.
    pub idle_action: KeyAction,
    /// PowerKeyIgnoreInhibited: whether the power key overrides locks that block its operation.
    pub power_key_ignore_inhibited: bool,
    /// SuspendKeyIgnoreInhibited.
    pub suspend_key_ignore_inhibited: bool,
    /// HibernateKeyIgnoreInhibited.
    pub hibernate_key_ignore_inhibited: bool,
    /// LidSwitchIgnoreInhibited.
    pub lid_switch_ignore_inhibited: bool,
}

/// The configuration of an empty file.
impl Default for Conf {
    ghost use Rattle.login_model.specs.Conf.{default_conf};

    ghost is_default = { λ conf. conf ≡ default_conf };

    fn default() -> Conf {
        Conf {
            auto_vts: 6,
            sessions_max: 8192,
            inhibitors_max: 8192,
            inhibit_delay_max: Millis(5_000),
            user_stop_delay: Millis(10_000),
            idle_action_delay: Millis(1_800_000),
            handle_power_key: KeyAction::Operation(OpKind::PowerOff),
            handle_suspend_key: KeyAction::Operation(OpKind::Suspend),
            handle_hibernate_key: KeyAction::Operation(OpKind::Hibernate),
            handle_lid_switch: KeyAction::Operation(OpKind::Suspend),
            handle_lid_switch_docked: KeyAction::Ignore,
            idle_action: KeyAction::Ignore,
            power_key_ignore_inhibited: false,
            suspend_key_ignore_inhibited: false,
            hibernate_key_ignore_inhibited: false,
            lid_switch_ignore_inhibited: true,
        }
    }
}
