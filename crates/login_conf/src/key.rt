// The keys of logind.conf(5).

ghost use Rattle.std.specs.Prelude.{◌≡◌};
ghost use Rattle.std.specs.List.{list_any};
ghost use Rattle.std.specs.Str.{bytes_eq};
ghost use Rattle.login_model.specs.Words.{named};
ghost use Rattle.login_conf.specs.Keys.{key_word, key_named, is_skipped};

/// A key whose value is a number.
#[derive(Clone, Copy)]
pub enum NumberKey {
    AutoVts,
    SessionsMax,
    InhibitorsMax,
}

/// A key whose value is a span of time.
#[derive(Clone, Copy)]
pub enum SpanKey {
    InhibitDelayMax,
    UserStopDelay,
    IdleActionDelay,
}

/// A key whose value is what a key of the machine, the lid or idleness brings about.
#[derive(Clone, Copy)]
pub enum ActionKey {
    HandlePowerKey,
    HandleSuspendKey,
    HandleHibernateKey,
    HandleLidSwitch,
    HandleLidSwitchDocked,
    IdleAction,
}

/// A key whose value is a boolean.
#[derive(Clone, Copy)]
pub enum FlagKey {
    PowerKeyIgnoreInhibited,
    SuspendKeyIgnoreInhibited,
    HibernateKeyIgnoreInhibited,
    LidSwitchIgnoreInhibited,
}

/// A key that is kept.
#[derive(Clone, Copy)]
pub enum Key {
    Number(NumberKey),
    Span(SpanKey),
    Action(ActionKey),
    Flag(FlagKey),
}

/// All keys that are kept.
const KEPT: [Key; 16] = [
    Key::Number(NumberKey::AutoVts),
    Key::Number(NumberKey::SessionsMax),
    Key::Number(NumberKey::InhibitorsMax),
    Key::Span(SpanKey::InhibitDelayMax),
    Key::Span(SpanKey::UserStopDelay),
    Key::Span(SpanKey::IdleActionDelay),
    Key::Action(ActionKey::HandlePowerKey),
    Key::Action(ActionKey::HandleSuspendKey),
    Key::Action(ActionKey::HandleHibernateKey),
    Key::Action(ActionKey::HandleLidSwitch),
    Key::Action(ActionKey::HandleLidSwitchDocked),
    Key::Action(ActionKey::IdleAction),
    Key::Flag(FlagKey::PowerKeyIgnoreInhibited),
    Key::Flag(FlagKey::SuspendKeyIgnoreInhibited),
    Key::Flag(FlagKey::HibernateKeyIgnoreInhibited),
    Key::Flag(FlagKey::LidSwitchIgnoreInhibited),
];

/// The keys that are skipped: what they set is not there.
const SKIPPED: [&[u8]; 16] = [
    b"RemoveIPC",
    b"KillUserProcesses",
    b"KillOnlyUsers",
    b"KillExcludeUsers",
    b"ReserveVT",
    b"HoldoffTimeoutSec",
    b"HandleLidSwitchExternalPower",
    b"HandleRebootKey",
    b"RebootKeyIgnoreInhibited",
    b"HandlePowerKeyLongPress",
    b"HandleRebootKeyLongPress",
    b"HandleSuspendKeyLongPress",
    b"HandleHibernateKeyLongPress",
    b"StopIdleSessionSec",
    b"RuntimeDirectorySize",
    b"RuntimeDirectoryInodesMax",
];

/// The word for a key.
fn key_word(key: Key) -> &'static [u8]
    ensures { result.now ≡ key_word key }
{
    match key {
        Key::Number(NumberKey::AutoVts) => b"NAutoVTs",
        Key::Number(NumberKey::SessionsMax) => b"SessionsMax",
        Key::Number(NumberKey::InhibitorsMax) => b"InhibitorsMax",
        Key::Span(SpanKey::InhibitDelayMax) => b"InhibitDelayMaxSec",
        Key::Span(SpanKey::UserStopDelay) => b"UserStopDelaySec",
        Key::Span(SpanKey::IdleActionDelay) => b"IdleActionSec",
        Key::Action(ActionKey::HandlePowerKey) => b"HandlePowerKey",
        Key::Action(ActionKey::HandleSuspendKey) => b"HandleSuspendKey",
        Key::Action(ActionKey::HandleHibernateKey) => b"HandleHibernateKey",
        Key::Action(ActionKey::HandleLidSwitch) => b"HandleLidSwitch",
        Key::Action(ActionKey::HandleLidSwitchDocked) => b"HandleLidSwitchDocked",
        Key::Action(ActionKey::IdleAction) => b"IdleAction",
        Key::Flag(FlagKey::PowerKeyIgnoreInhibited) => b"PowerKeyIgnoreInhibited",
        Key::Flag(FlagKey::SuspendKeyIgnoreInhibited) => b"SuspendKeyIgnoreInhibited",
        Key::Flag(FlagKey::HibernateKeyIgnoreInhibited) => b"HibernateKeyIgnoreInhibited",
        Key::Flag(FlagKey::LidSwitchIgnoreInhibited) => b"LidSwitchIgnoreInhibited",
    }
}

/// The first of these keys that is spelled so.
fn first_named(keys: &[Key], word: &[u8]) -> Option<Key>
    ensures { result ≡ named key_word keys.now word.now }
{
    keys.iter().copied().find(|key| key_word(*key) == word)
}

/// Whether a word is one of these.
fn is_among(words: &[&[u8]], word: &[u8]) -> bool
    ensures { result ≡ list_any (λ one. bytes_eq one.now word.now) words.now }
{
    words.iter().any(|one| *one == word)
}

/// The key of a word, if it is one that is kept.
#[tactic(auto, unfolding(crate::specs::Keys::key_named))]
pub(crate) fn read_key(word: &[u8]) -> Option<Key>
    ensures { result ≡ key_named word.now }
{
    first_named(&KEPT, word)
}

/// Whether a word is a key that is skipped.
#[tactic(auto, unfolding(crate::specs::Keys::is_skipped))]
pub(crate) fn is_skipped(word: &[u8]) -> bool
    ensures { result ≡ is_skipped word.now }
{
    is_among(&SKIPPED, word)
}
