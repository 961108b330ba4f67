//! What the hardware keys and the lid bring about (logind.conf(5), HandlePowerKey and the settings beside it).
#![tactic(auto)]

ghost use Rattle.std.specs.Prelude.{◌≡◌};
ghost use Rattle.login_model.specs.Power.{action_of, passes_locks};

use login_model::{Conf, HardKey, KeyAction};

/// What a key brings about. The lid of a docked machine has a setting of its own; for the other keys it makes no
/// difference whether the machine is docked.
pub fn action_of(conf: &Conf, key: HardKey, docked: bool) -> KeyAction
    ensures { result ≡ action_of conf.now key docked }
{
    match key {
        HardKey::Power => conf.handle_power_key,
        HardKey::Suspend => conf.handle_suspend_key,
        HardKey::Hibernate => conf.handle_hibernate_key,
        HardKey::Lid if docked => conf.handle_lid_switch_docked,
        HardKey::Lid => conf.handle_lid_switch,
    }
}

/// Whether a key passes the locks that block its operation.
pub fn passes_locks(conf: &Conf, key: HardKey) -> bool
    ensures { result ≡ passes_locks conf.now key }
{
    match key {
        HardKey::Power => conf.power_key_ignore_inhibited,
        HardKey::Suspend => conf.suspend_key_ignore_inhibited,
        HardKey::Hibernate => conf.hibernate_key_ignore_inhibited,
        HardKey::Lid => conf.lid_switch_ignore_inhibited,
    }
}
