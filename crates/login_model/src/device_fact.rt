// What a fact says of a device.

ghost use Rattle.std.specs.Prelude.{◌≡◌};
ghost use Rattle.login_model.specs.Facts.{is_this_seat};

use crate::fact::Fact;
use crate::hardware::DevKind;
use login_base::SeatName;

/// Whether a seat, if that is one, has this name.
pub fn is_this_seat(name: &[u8], seat: Option<SeatName>) -> bool
    ensures { result ≡ is_this_seat name.now seat }
{
    match seat {
        Some(seat) => seat.as_slice() == name,
        None => false,
    }
}

/// What a fact says of a device. Each call answers no of a fact of another kind.
impl Fact {
    ghost use Rattle.login_model.specs.Facts.{is_device_on, is_graphics_on, is_other_kind};

    /// Whether it is that of a device on a seat, if that is one.
    pub fn is_device_on(&self, seat: Option<SeatName>) -> bool
        ensures { result ≡ is_device_on seat self.now }
    {
        match self {
            Fact::Device(_, name) => is_this_seat(name.get().as_slice(), seat),
            _ => false,
        }
    }

    /// Whether it is that of a graphics device on the seat of this name.
    pub fn is_graphics_on(&self, seat: &[u8]) -> bool
        ensures { result ≡ is_graphics_on seat.now self.now }
    {
        match self {
            Fact::Device(DevKind::Drm, name) => name.get().as_slice() == seat,
            _ => false,
        }
    }

    /// Whether it is that of a device of another kind.
    pub fn is_other_kind(&self, kind: DevKind) -> bool
        ensures { result ≡ is_other_kind kind self.now }
    {
        match (kind, self) {
            (DevKind::Evdev, Fact::Device(DevKind::Drm, _)) => true,
            (DevKind::Drm, Fact::Device(DevKind::Evdev, _)) => true,
            _ => false,
        }
    }
}
