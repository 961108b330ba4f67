// What is known of a session.

use login_base::{ConnId, HandleNo, SeatName, Uid, Word};

/// How far a session's life has come (sd-login(3)).
#[derive(Clone, Copy, PartialEq, Eq)]
pub enum Phase {
    Open,
    Closing,
    Gone,
}

/// The type of a session (org.freedesktop.login1(5), Session objects).
#[derive(Clone, Copy, PartialEq, Eq)]
pub enum SessionType {
    Unspecified,
    Tty,
    X11,
    Wayland,
    Mir,
    Web,
}

impl SessionType {
    ghost use Rattle.std.specs.Prelude.{◌≡◌, IfSome, Some};
    ghost use Rattle.login_model.specs.declared.session.SessionType.{SessionType};
    ghost use Rattle.login_model.specs.Words.{type_word, type_named};

    /// All types.
    pub const ALL: [SessionType; 6] = [
        SessionType::Unspecified,
        SessionType::Tty,
        SessionType::X11,
        SessionType::Wayland,
        SessionType::Mir,
        SessionType::Web,
    ];

    /// The word for the type.
    pub fn name(self) -> &'static [u8]
        ensures value { result.now ≡ type_word self }
        ensures distinct { (other : SessionType) → type_word other ≡ type_word self → other ≡ self }
    {
        match self {
            SessionType::Unspecified => b"unspecified",
            SessionType::Tty => b"tty",
            SessionType::X11 => b"x11",
            SessionType::Wayland => b"wayland",
            SessionType::Mir => b"mir",
            SessionType::Web => b"web",
        }
    }

    /// The type of a word.
    pub fn read(text: &[u8]) -> Option<SessionType>
        ensures value { result ≡ type_named text.now }
        ensures found { IfSome result (λ session_type. type_word session_type ≡ text.now) }
        ensures all { (session_type : SessionType) → type_word session_type ≡ text.now → result ≡ Some session_type }
    {
        SessionType::named(text)
    }

    fn named(text: &[u8]) -> Option<SessionType>
        ensures { result ≡ type_named text.now }
    {
        SessionType::ALL
            .iter()
            .copied()
            .find(|session_type| session_type.name() == text)
    }
}

/// The class of a session (org.freedesktop.login1(5), Session objects).
#[derive(Clone, Copy, PartialEq, Eq)]
pub enum Class {
    User,
    Greeter,
    LockScreen,
    Background,
}

impl Class {
    ghost use Rattle.std.specs.Prelude.{◌≡◌, IfSome, Some};
    ghost use Rattle.login_model.specs.declared.session.Class.{Class};
    ghost use Rattle.login_model.specs.Words.{class_word, class_named};

    /// All classes.
    pub const ALL: [Class; 4] = [
        Class::User,
        Class::Greeter,
        Class::LockScreen,
        Class::Background,
    ];

    /// The word for the class.
    pub fn name(self) -> &'static [u8]
        ensures value { result.now ≡ class_word self }
        ensures distinct { (other : Class) → class_word other ≡ class_word self → other ≡ self }
    {
        match self {
            Class::User => b"user",
            Class::Greeter => b"greeter",
            Class::LockScreen => b"lock-screen",
            Class::Background => b"background",
        }
    }

    /// The class of a word.
    pub fn read(text: &[u8]) -> Option<Class>
        ensures value { result ≡ class_named text.now }
        ensures found { IfSome result (λ class. class_word class ≡ text.now) }
        ensures all { (class : Class) → class_word class ≡ text.now → result ≡ Some class }
    {
        Class::ALL
            .iter()
            .copied()
            .find(|class| class.name() == text)
    }
}

/// Which processes of a session a signal is sent to (org.freedesktop.login1(5), KillSession).
#[derive(Clone, Copy, PartialEq, Eq)]
pub enum KillWhom {
    Leader,
    All,
}

impl KillWhom {
    ghost use Rattle.std.specs.Prelude.{◌≡◌, IfSome, Some};
    ghost use Rattle.login_model.specs.declared.session.KillWhom.{KillWhom};
    ghost use Rattle.login_model.specs.Words.{whom_word, whom_named};

    /// All choices.
    pub const ALL: [KillWhom; 2] = [KillWhom::Leader, KillWhom::All];

    /// The word for these processes.
    pub fn name(self) -> &'static [u8]
        ensures value { result.now ≡ whom_word self }
        ensures distinct { (other : KillWhom) → whom_word other ≡ whom_word self → other ≡ self }
    {
        match self {
            KillWhom::Leader => b"leader",
            KillWhom::All => b"all",
        }
    }

    /// The processes of a word.
    pub fn read(text: &[u8]) -> Option<KillWhom>
        ensures value { result ≡ whom_named text.now }
        ensures found { IfSome result (λ whom. whom_word whom ≡ text.now) }
        ensures all { (whom : KillWhom) → whom_word whom ≡ text.now → result ≡ Some whom }
    {
        KillWhom::ALL
            .iter()
            .copied()
            .find(|whom| whom.name() == text)
    }
}

/// The texts that a session was created with.
#[derive(Drop)]
pub struct SessionTexts {
    pub service: Word,
    pub desktop: Word,
    pub tty: Word,
    pub display: Word,
    pub remote_user: Word,
    pub remote_host: Word,
}

/// A session that was created. Its data stay when it closes and when it is gone.
#[derive(Drop)]
pub struct Session {
    pub phase: Phase,
    pub uid: Uid,
    pub seat: Option<SeatName>,
    /// The number of its virtual terminal on seat0, else 0.
    pub vt: u32,
    pub session_type: SessionType,
    pub class: Class,
    pub leader: ConnId,
    /// The handle whose closing closes the session.
    pub fifo: HandleNo,
    pub remote: bool,
    pub texts: SessionTexts,
}
