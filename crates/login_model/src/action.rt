// The actions that the policy decides on.

ghost use Rattle.std.specs.Prelude.{◌≡◌, ◌<◌, IfSome, Some};
ghost use Rattle.login_model.specs.Action.{first_named};

use crate::operation::OpKind;

/// An operation on the machine, as the policy knows it: all ways to hibernate are one.
#[derive(Clone, Copy, Debug, PartialEq, Eq)]
pub enum PowerAction {
    PowerOff,
    Reboot,
    Halt,
    Suspend,
    Hibernate,
}

/// What else an operation on the machine is asked for with.
#[derive(Clone, Copy, Debug, PartialEq, Eq)]
pub enum Qualifier {
    /// With nothing in its way.
    Plain,
    /// While another user has a session.
    MultipleSessions,
    /// In spite of a lock that blocks it.
    IgnoreInhibit,
}

/// What the policy has a row for.
#[derive(Clone, Copy, Debug, PartialEq, Eq)]
pub enum Action {
    /// To change the virtual terminal, or the active session of a seat.
    ChangeVt,
    /// To lock or unlock the sessions of others.
    LockSessions,
    /// To end the sessions of others, or to send them signals.
    Manage,
    /// To let another user linger.
    SetUserLinger,
    /// To linger oneself.
    SetSelfLinger,
    /// To take a lock that delays shutdown.
    InhibitDelayShutdown,
    /// To take a lock that delays sleep.
    InhibitDelaySleep,
    /// To take a lock that blocks shutdown.
    InhibitBlockShutdown,
    /// To take a lock that blocks sleep.
    InhibitBlockSleep,
    /// To take a lock that keeps the machine from being idle.
    InhibitBlockIdle,
    /// To take a lock that keeps the power key from being handled.
    InhibitHandlePowerKey,
    /// The same for the suspend key.
    InhibitHandleSuspendKey,
    /// The same for the hibernate key.
    InhibitHandleHibernateKey,
    /// The same for the lid.
    InhibitHandleLidSwitch,
    /// To ask for an operation on the machine.
    Power(PowerAction, Qualifier),
}

impl From<OpKind> for PowerAction {
    ghost use Rattle.login_model.specs.Action.{power_action};

    ghost from_gives = { λ kind action. action ≡ power_action kind };

    fn from(kind: OpKind) -> PowerAction {
        match kind {
            OpKind::PowerOff => PowerAction::PowerOff,
            OpKind::Reboot => PowerAction::Reboot,
            OpKind::Halt => PowerAction::Halt,
            OpKind::Suspend => PowerAction::Suspend,
            OpKind::Hibernate | OpKind::HybridSleep | OpKind::SuspendThenHibernate => {
                PowerAction::Hibernate
            }
        }
    }
}

impl PowerAction {
    ghost use Rattle.login_model.specs.Action.{power_name};

    /// The name of the action with its qualifier.
    fn name(self, qualifier: Qualifier) -> &'static [u8]
        ensures { result.now ≡ power_name self qualifier }
    {
        match (self, qualifier) {
            (PowerAction::PowerOff, Qualifier::Plain) => b"power-off",
            (PowerAction::Reboot, Qualifier::Plain) => b"reboot",
            (PowerAction::Halt, Qualifier::Plain) => b"halt",
            (PowerAction::Suspend, Qualifier::Plain) => b"suspend",
            (PowerAction::Hibernate, Qualifier::Plain) => b"hibernate",
            (PowerAction::PowerOff, Qualifier::MultipleSessions) => b"power-off-multiple-sessions",
            (PowerAction::Reboot, Qualifier::MultipleSessions) => b"reboot-multiple-sessions",
            (PowerAction::Halt, Qualifier::MultipleSessions) => b"halt-multiple-sessions",
            (PowerAction::Suspend, Qualifier::MultipleSessions) => b"suspend-multiple-sessions",
            (PowerAction::Hibernate, Qualifier::MultipleSessions) => b"hibernate-multiple-sessions",
            (PowerAction::PowerOff, Qualifier::IgnoreInhibit) => b"power-off-ignore-inhibit",
            (PowerAction::Reboot, Qualifier::IgnoreInhibit) => b"reboot-ignore-inhibit",
            (PowerAction::Halt, Qualifier::IgnoreInhibit) => b"halt-ignore-inhibit",
            (PowerAction::Suspend, Qualifier::IgnoreInhibit) => b"suspend-ignore-inhibit",
            (PowerAction::Hibernate, Qualifier::IgnoreInhibit) => b"hibernate-ignore-inhibit",
        }
    }
}

/// The first of these actions that has the name.
fn first_named(actions: &[Action], text: &[u8]) -> Option<Action>
    ensures { result ≡ first_named actions.now text.now }
{
    actions.iter().copied().find(|action| action.name() == text)
}

impl Action {
    ghost use Rattle.login_model.specs.declared.action.Action.{Action};
    ghost use Rattle.login_model.specs.Action.{action_count, actions, first_named, name, place};

    /// All actions, in the order of a table's rows.
    pub const ALL: [Action; 29] = [
        Action::ChangeVt,
        Action::LockSessions,
        Action::Manage,
        Action::SetUserLinger,
        Action::SetSelfLinger,
        Action::InhibitDelayShutdown,
        Action::InhibitDelaySleep,
        Action::InhibitBlockShutdown,
        Action::InhibitBlockSleep,
        Action::InhibitBlockIdle,
        Action::InhibitHandlePowerKey,
        Action::InhibitHandleSuspendKey,
        Action::InhibitHandleHibernateKey,
        Action::InhibitHandleLidSwitch,
        Action::Power(PowerAction::PowerOff, Qualifier::Plain),
        Action::Power(PowerAction::Reboot, Qualifier::Plain),
        Action::Power(PowerAction::Halt, Qualifier::Plain),
        Action::Power(PowerAction::Suspend, Qualifier::Plain),
        Action::Power(PowerAction::Hibernate, Qualifier::Plain),
        Action::Power(PowerAction::PowerOff, Qualifier::MultipleSessions),
        Action::Power(PowerAction::Reboot, Qualifier::MultipleSessions),
        Action::Power(PowerAction::Halt, Qualifier::MultipleSessions),
        Action::Power(PowerAction::Suspend, Qualifier::MultipleSessions),
        Action::Power(PowerAction::Hibernate, Qualifier::MultipleSessions),
        Action::Power(PowerAction::PowerOff, Qualifier::IgnoreInhibit),
        Action::Power(PowerAction::Reboot, Qualifier::IgnoreInhibit),
        Action::Power(PowerAction::Halt, Qualifier::IgnoreInhibit),
        Action::Power(PowerAction::Suspend, Qualifier::IgnoreInhibit),
        Action::Power(PowerAction::Hibernate, Qualifier::IgnoreInhibit),
    ];

    /// The name by which tables and denials know the action.
    pub fn name(self) -> &'static [u8]
        ensures value { result.now ≡ name self }
        ensures distinct { (other : Action) → name other ≡ name self → other ≡ self }
    {
        match self {
            Action::ChangeVt => b"chvt",
            Action::LockSessions => b"lock-sessions",
            Action::Manage => b"manage",
            Action::SetUserLinger => b"set-user-linger",
            Action::SetSelfLinger => b"set-self-linger",
            Action::InhibitDelayShutdown => b"inhibit-delay-shutdown",
            Action::InhibitDelaySleep => b"inhibit-delay-sleep",
            Action::InhibitBlockShutdown => b"inhibit-block-shutdown",
            Action::InhibitBlockSleep => b"inhibit-block-sleep",
            Action::InhibitBlockIdle => b"inhibit-block-idle",
            Action::InhibitHandlePowerKey => b"inhibit-handle-power-key",
            Action::InhibitHandleSuspendKey => b"inhibit-handle-suspend-key",
            Action::InhibitHandleHibernateKey => b"inhibit-handle-hibernate-key",
            Action::InhibitHandleLidSwitch => b"inhibit-handle-lid-switch",
            Action::Power(power, qualifier) => power.name(qualifier),
        }
    }

    /// The action of a name.
    pub fn read(text: &[u8]) -> Option<Action>
        ensures value { result ≡ first_named actions text.now }
        ensures found { IfSome result (λ action. name action ≡ text.now) }
        ensures all { (action : Action) → name action ≡ text.now → result ≡ Some action }
    {
        first_named(&Action::ALL, text)
    }

    /// The place of its row in a table.
    pub fn place(self) -> usize
        ensures value { result ≡ place self }
        ensures bound { result < action_count }
    {
        match self {
            Action::ChangeVt => 0,
            Action::LockSessions => 1,
            Action::Manage => 2,
            Action::SetUserLinger => 3,
            Action::SetSelfLinger => 4,
            Action::InhibitDelayShutdown => 5,
            Action::InhibitDelaySleep => 6,
            Action::InhibitBlockShutdown => 7,
            Action::InhibitBlockSleep => 8,
            Action::InhibitBlockIdle => 9,
            Action::InhibitHandlePowerKey => 10,
            Action::InhibitHandleSuspendKey => 11,
            Action::InhibitHandleHibernateKey => 12,
            Action::InhibitHandleLidSwitch => 13,
            Action::Power(power, qualifier) => 14 + 5 * (qualifier as usize) + power as usize,
        }
    }
}
