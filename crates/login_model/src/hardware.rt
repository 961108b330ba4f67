// What the machine's hardware does.

use crate::boxed::Boxed;
use login_base::{DevNo, SeatName, Word};

/// A kind of device that a session can take.
#[derive(Clone, Copy, PartialEq, Eq)]
pub enum DevKind {
    /// An input device (evdev).
    Evdev,
    /// A graphics device (DRM).
    Drm,
}

impl DevKind {
    ghost use Rattle.std.specs.Prelude.{◌≡◌, IfSome, Some};
    ghost use Rattle.login_model.specs.declared.hardware.DevKind.{DevKind};
    ghost use Rattle.login_model.specs.Words.{device_kind_word, device_kind_named};

    /// All kinds.
    pub const ALL: [DevKind; 2] = [DevKind::Evdev, DevKind::Drm];

    /// The word for the kind.
    pub fn name(self) -> &'static [u8]
        ensures value { result.now ≡ device_kind_word self }
        ensures distinct { (other : DevKind) → device_kind_word other ≡ device_kind_word self → other ≡ self }
    {
        match self {
            DevKind::Evdev => b"evdev",
            DevKind::Drm => b"drm",
        }
    }

    /// The kind of a word.
    pub fn read(text: &[u8]) -> Option<DevKind>
        ensures value { result ≡ device_kind_named text.now }
        ensures found { IfSome result (λ kind. device_kind_word kind ≡ text.now) }
        ensures all { (kind : DevKind) → device_kind_word kind ≡ text.now → result ≡ Some kind }
    {
        DevKind::ALL
            .iter()
            .copied()
            .find(|kind| kind.name() == text)
    }
}

/// A key or switch of the machine that logind.conf(5) gives an action.
#[derive(Clone, Copy, PartialEq, Eq)]
pub enum HardKey {
    Power,
    Suspend,
    Hibernate,
    /// The lid was closed.
    Lid,
}

impl HardKey {
    ghost use Rattle.std.specs.Prelude.{◌≡◌, IfSome, Some};
    ghost use Rattle.login_model.specs.declared.hardware.HardKey.{HardKey};
    ghost use Rattle.login_model.specs.Words.{key_word, key_named};

    /// All keys, and the lid.
    pub const ALL: [HardKey; 4] = [
        HardKey::Power,
        HardKey::Suspend,
        HardKey::Hibernate,
        HardKey::Lid,
    ];

    /// The word for the key.
    pub fn name(self) -> &'static [u8]
        ensures value { result.now ≡ key_word self }
        ensures distinct { (other : HardKey) → key_word other ≡ key_word self → other ≡ self }
    {
        match self {
            HardKey::Power => b"power",
            HardKey::Suspend => b"suspend",
            HardKey::Hibernate => b"hibernate",
            HardKey::Lid => b"lid",
        }
    }

    /// The key of a word.
    pub fn read(text: &[u8]) -> Option<HardKey>
        ensures value { result ≡ key_named text.now }
        ensures found { IfSome result (λ key. key_word key ≡ text.now) }
        ensures all { (key : HardKey) → key_word key ≡ text.now → result ≡ Some key }
    {
        HardKey::ALL.iter().copied().find(|key| key.name() == text)
    }
}

/// An event of the hardware, or of the machine that runs sessions and operations.
#[derive(Drop)]
pub enum Hardware {
    /// A device of this kind appears on a seat.
    Add(DevNo, DevKind, Boxed<SeatName>),
    /// A device disappears.
    Remove(DevNo),
    /// An input device reports a type, a code and a value (struct input_event of Linux).
    Input(DevNo, u16, u16, i32),
    /// The key combination of a virtual terminal is pressed.
    VtKey(u32),
    /// A key is pressed, or the lid closed.
    Key(HardKey),
    /// The machine is put into its dock, or taken out.
    Dock(bool),
    /// The last process of the session with this id ends.
    Exit(Word),
    /// The running operation is done.
    JobDone,
}
