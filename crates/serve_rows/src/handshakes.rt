// The bytes of clients. GLib wrote the messages.

/// A handshake as busctl begins one, which never waits, for any user.
pub const HANDSHAKE: &[u8] = b"\0AUTH EXTERNAL\r\nDATA\r\nNEGOTIATE_UNIX_FD\r\nBEGIN\r\n";

/// What it is replied: DATA, the identity, and an error.
pub const REPLIES: &[u8] = b"DATA\r\nOK 0123456789abcdef0123456789abcdef\r\nERROR\r\n";

/// So many bytes are in front of the serial of a message.
const SERIAL_AT: usize = 8;

/// Peer.Ping to the manager, with the serial 1.
const PING: &[u8; 104] =
    b"l\x01\0\x01\0\0\0\0\x01\0\0\0U\0\0\0\x01\x01o\0\x17\0\0\0/org/freedesktop/login1\0\x02\x01s\0\x19\0\0\0org.freedesktop.DBus.Peer\0\0\0\0\0\0\0\x03\x01s\0\x04\0\0\0Ping\0\0\0\0";

/// Peer.Ping with this serial.
pub fn ping(serial: u32) -> [u8; 104] {
    let mut message = *PING;
    message[SERIAL_AT..SERIAL_AT + 4].copy_from_slice(&serial.to_le_bytes());
    message
}

/// The reply to such a call, of a server that has sent nothing but these replies: both serials are those of the call.
/// libdbus wrote the one to the serial 1.
pub fn pong(serial: u32) -> [u8; 40] {
    let mut message =
        *b"l\x02\0\x01\0\0\0\0\x01\0\0\0\x15\0\0\0\x05\x01u\0\x01\0\0\0\x07\x01s\0\x04\0\0\0:1.0\0\0\0\0";
    message[8..12].copy_from_slice(&serial.to_le_bytes());
    message[20..24].copy_from_slice(&serial.to_le_bytes());
    message
}

/// CreateSession for user 1000 on terminal 1 of seat0, with the serial 1.
pub const CREATE_FIRST: &[u8] =
    b"l\x01\0\x01p\0\0\0\x01\0\0\0v\0\0\0\x01\x01o\0\x17\0\0\0/org/freedesktop/login1\0\x02\x01s\0\x1e\0\0\0org.freedesktop.login1.Manager\0\0\x08\x01g\0\x12uusssssussbssa(sv)\0\x03\x01s\0\x0d\0\0\0CreateSession\0\0\0\xe8\x03\0\0\0\0\0\0\x05\0\0\0login\0\0\0\x07\0\0\0wayland\0\x04\0\0\0user\0\0\0\0\0\0\0\0\0\0\0\0\x05\0\0\0seat0\0\0\0\x01\0\0\0\x04\0\0\0tty1\0\0\0\0\0\0\0\0\0\0\0\0\0\0\0\0\0\0\0\0\0\0\0\0\0\0\0\0\0\0\0\0\0\0\0\0";

/// CreateSession for user 1001 on terminal 2 of seat0, with the serial 2.
pub const CREATE_SECOND: &[u8] =
    b"l\x01\0\x01p\0\0\0\x02\0\0\0v\0\0\0\x01\x01o\0\x17\0\0\0/org/freedesktop/login1\0\x02\x01s\0\x1e\0\0\0org.freedesktop.login1.Manager\0\0\x08\x01g\0\x12uusssssussbssa(sv)\0\x03\x01s\0\x0d\0\0\0CreateSession\0\0\0\xe9\x03\0\0\0\0\0\0\x05\0\0\0login\0\0\0\x07\0\0\0wayland\0\x04\0\0\0user\0\0\0\0\0\0\0\0\0\0\0\0\x05\0\0\0seat0\0\0\0\x02\0\0\0\x04\0\0\0tty2\0\0\0\0\0\0\0\0\0\0\0\0\0\0\0\0\0\0\0\0\0\0\0\0\0\0\0\0\0\0\0\0\0\0\0\0";

/// TakeControl of session c1, with the serial 1.
pub const CONTROL_FIRST: &[u8] =
    b"l\x01\0\x01\x04\0\0\0\x01\0\0\0t\0\0\0\x01\x01o\0\"\0\0\0/org/freedesktop/login1/session/c1\0\0\0\0\0\0\x02\x01s\0\x1e\0\0\0org.freedesktop.login1.Session\0\0\x08\x01g\0\x01b\0\0\x03\x01s\0\x0b\0\0\0TakeControl\0\0\0\0\0\0\0\0\0";

/// TakeControl of session c2, with the serial 1.
pub const CONTROL_SECOND: &[u8] =
    b"l\x01\0\x01\x04\0\0\0\x01\0\0\0t\0\0\0\x01\x01o\0\"\0\0\0/org/freedesktop/login1/session/c2\0\0\0\0\0\0\x02\x01s\0\x1e\0\0\0org.freedesktop.login1.Session\0\0\x08\x01g\0\x01b\0\0\x03\x01s\0\x0b\0\0\0TakeControl\0\0\0\0\0\0\0\0\0";

/// What a client is sent first where seat0 has no active session any more, which c1 was: that c1 is not active, and
/// that no session is the seat's. libdbus wrote it.
pub const SWITCHED_AWAY: &[u8] =
    b"l\x04\0\x01@\0\0\0\x01\0\0\0\x96\0\0\0\x01\x01o\0\"\0\0\0/org/freedesktop/login1/session/c1\0\0\0\0\0\0\x02\x01s\0\x1f\0\0\0org.freedesktop.DBus.Properties\0\x03\x01s\0\x11\0\0\0PropertiesChanged\0\0\0\0\0\0\0\x07\x01s\0\x04\0\0\0:1.0\0\0\0\0\x08\x01g\0\x08sa{sv}as\0\0\0\x1e\0\0\0org.freedesktop.login1.Session\0\0\x14\0\0\0\x06\0\0\0Active\0\x01b\0\0\0\0\0\0\0\0\0\0\0l\x04\0\x01T\0\0\0\x02\0\0\0\x96\0\0\0\x01\x01o\0\"\0\0\0/org/freedesktop/login1/seat/seat0\0\0\0\0\0\0\x02\x01s\0\x1f\0\0\0org.freedesktop.DBus.Properties\0\x03\x01s\0\x11\0\0\0PropertiesChanged\0\0\0\0\0\0\0\x07\x01s\0\x04\0\0\0:1.0\0\0\0\0\x08\x01g\0\x08sa{sv}as\0\0\0\x1b\0\0\0org.freedesktop.login1.Seat\0&\0\0\0\0\0\0\0\x0d\0\0\0ActiveSession\0\x04(so)\0\0\0\0\0\0\0\0\0\x01\0\0\0/\0\0\0\0\0\0\0";
