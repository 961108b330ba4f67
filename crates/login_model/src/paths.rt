// The paths of objects, and the names of their interfaces (org.freedesktop.login1(5)).

/// The path of the manager's object.
pub const MANAGER_PATH: &[u8] = b"/org/freedesktop/login1";

/// What stands in the path of a session's object before the escape of its id.
pub const SESSION_FRONT: &[u8] = b"/org/freedesktop/login1/session/";

/// What stands in the path of a seat's object before the escape of its name.
pub const SEAT_FRONT: &[u8] = b"/org/freedesktop/login1/seat/";

/// What stands in the path of a user's object before its number.
pub const USER_FRONT: &[u8] = b"/org/freedesktop/login1/user/_";

/// The interface of the manager.
pub const MANAGER_INTERFACE: &[u8] = b"org.freedesktop.login1.Manager";

/// The interface of sessions.
pub const SESSION_INTERFACE: &[u8] = b"org.freedesktop.login1.Session";

/// The interface of seats.
pub const SEAT_INTERFACE: &[u8] = b"org.freedesktop.login1.Seat";

/// The interface of users.
pub const USER_INTERFACE: &[u8] = b"org.freedesktop.login1.User";

/// The interface of properties, which some objects have beside their own (D-Bus Specification, "Standard
/// Interfaces").
pub const PROPERTIES_INTERFACE: &[u8] = b"org.freedesktop.DBus.Properties";
