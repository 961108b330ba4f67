// What the machine as a whole can be made to do.

use login_base::Millis;

/// An operation on the machine (org.freedesktop.login1(5), Manager.PowerOff and the calls beside it).
#[derive(Clone, Copy, Debug, PartialEq, Eq)]
pub enum OpKind {
    PowerOff,
    Reboot,
    Halt,
    Suspend,
    Hibernate,
    HybridSleep,
    SuspendThenHibernate,
}

impl OpKind {
    ghost use Rattle.std.specs.Prelude.{◌≡◌, IfSome, Some};
    ghost use Rattle.login_model.specs.declared.operation.OpKind.{OpKind};
    ghost use Rattle.login_model.specs.Properties.{is_shutdown};
    ghost use Rattle.login_model.specs.Words.{operation_word, operation_named};

    /// Whether it ends the machine's run; else the machine sleeps.
    pub fn is_shutdown(self) -> bool
        ensures { result ≡ is_shutdown self }
    {
        matches!(self, OpKind::PowerOff | OpKind::Reboot | OpKind::Halt)
    }

    /// All operations.
    pub const ALL: [OpKind; 7] = [
        OpKind::PowerOff,
        OpKind::Reboot,
        OpKind::Halt,
        OpKind::Suspend,
        OpKind::Hibernate,
        OpKind::HybridSleep,
        OpKind::SuspendThenHibernate,
    ];

    /// The word for the operation.
    pub fn name(self) -> &'static [u8]
        ensures value { result.now ≡ operation_word self }
        ensures distinct { (other : OpKind) → operation_word other ≡ operation_word self → other ≡ self }
    {
        match self {
            OpKind::PowerOff => b"poweroff",
            OpKind::Reboot => b"reboot",
            OpKind::Halt => b"halt",
            OpKind::Suspend => b"suspend",
            OpKind::Hibernate => b"hibernate",
            OpKind::HybridSleep => b"hybrid-sleep",
            OpKind::SuspendThenHibernate => b"suspend-then-hibernate",
        }
    }

    /// The operation of a word.
    pub fn read(text: &[u8]) -> Option<OpKind>
        ensures value { result ≡ operation_named text.now }
        ensures found { IfSome result (λ kind. operation_word kind ≡ text.now) }
        ensures all { (kind : OpKind) → operation_word kind ≡ text.now → result ≡ Some kind }
    {
        OpKind::named(text)
    }

    fn named(text: &[u8]) -> Option<OpKind>
        ensures { result ≡ operation_named text.now }
    {
        OpKind::ALL.iter().copied().find(|kind| kind.name() == text)
    }
}

/// How far an operation has come.
#[derive(Clone, Copy)]
pub enum Operation {
    /// There is none.
    Idle,
    /// It waits since this moment, and whether it passes the locks that block it.
    Waiting(OpKind, Millis, bool),
    /// It runs.
    Running(OpKind),
}
