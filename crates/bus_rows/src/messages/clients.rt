// Messages that programs of a Debian 12 sent to a peer that recorded them: busctl of systemd 252, dbus-send of
// libdbus 1.14, gdbus of GLib 2.74. What they say is what the programs were asked to send.

/// A message, and what it says. A name that is not there is the empty text.
pub struct Sent {
    pub bytes: &'static [u8],
    pub kind: u8,
    pub flags: u8,
    pub serial: u32,
    pub path: &'static [u8],
    pub interface: &'static [u8],
    pub member: &'static [u8],
    pub error: &'static [u8],
    pub reply_to: Option<u32>,
    pub destination: &'static [u8],
    pub sender: &'static [u8],
    /// The types of the values in the body.
    pub types: &'static [u8],
}

/// The call of Hello of busctl.
pub const HELLO: &[u8] =
    b"l\x01\0\x01\0\0\0\0\x01\0\0\0m\0\0\0\x01\x01o\0\x15\0\0\0/org/freedesktop/DBus\0\0\0\x03\x01s\0\x05\0\0\0Hello\0\0\0\x02\x01s\0\x14\0\0\0org.freedesktop.DBus\0\0\0\0\x06\x01s\0\x14\0\0\0org.freedesktop.DBus\0\0\0\0";

/// Messages that clients sent.
pub const SENT: &[Sent] = &[
    // busctl
    Sent {
        bytes: HELLO,
        kind: 1,
        flags: 0,
        serial: 1,
        path: b"/org/freedesktop/DBus",
        interface: b"org.freedesktop.DBus",
        member: b"Hello",
        error: b"",
        reply_to: None,
        destination: b"org.freedesktop.DBus",
        sender: b"",
        types: b"",
    },
    // busctl
    Sent {
        bytes: b"l\x01\x04\x01\x07\0\0\0\x02\0\0\0\x87\0\0\0\x01\x01o\0\x17\0\0\0/org/freedesktop/login1\0\x03\x01s\0\x0a\0\0\0GetSession\0\0\0\0\0\0\x02\x01s\0\x1e\0\0\0org.freedesktop.login1.Manager\0\0\x06\x01s\0\x16\0\0\0org.freedesktop.login1\0\0\x08\x01g\0\x01s\0\0\x02\0\0\0c1\0",
        kind: 1,
        flags: 4,
        serial: 2,
        path: b"/org/freedesktop/login1",
        interface: b"org.freedesktop.login1.Manager",
        member: b"GetSession",
        error: b"",
        reply_to: None,
        destination: b"org.freedesktop.login1",
        sender: b"",
        types: b"s",
    },
    // busctl
    Sent {
        bytes: b"l\x01\x04\x01 \0\0\0\x02\0\0\0]\0\0\0\x01\x01o\0\x04\0\0\0/a/b\0\0\0\0\x03\x01s\0\x01\0\0\0M\0\0\0\0\0\0\0\x02\x01s\0\x0d\0\0\0org.example.I\0\0\0\x06\x01s\0\x0d\0\0\0org.example.A\0\0\0\x08\x01g\0\x07asu(yb)\0\0\0\0\x0f\0\0\0\x01\0\0\0a\0\0\0\x02\0\0\0bc\0\0\x07\0\0\0\x09\0\0\0\x01\0\0\0",
        kind: 1,
        flags: 4,
        serial: 2,
        path: b"/a/b",
        interface: b"org.example.I",
        member: b"M",
        error: b"",
        reply_to: None,
        destination: b"org.example.A",
        sender: b"",
        types: b"asu(yb)",
    },
    // dbus-send
    Sent {
        bytes: b"l\x01\0\x01\0\0\0\0\x01\0\0\0n\0\0\0\x01\x01o\0\x15\0\0\0/org/freedesktop/DBus\0\0\0\x06\x01s\0\x14\0\0\0org.freedesktop.DBus\0\0\0\0\x02\x01s\0\x14\0\0\0org.freedesktop.DBus\0\0\0\0\x03\x01s\0\x05\0\0\0Hello\0\0\0",
        kind: 1,
        flags: 0,
        serial: 1,
        path: b"/org/freedesktop/DBus",
        interface: b"org.freedesktop.DBus",
        member: b"Hello",
        error: b"",
        reply_to: None,
        destination: b"org.freedesktop.DBus",
        sender: b"",
        types: b"",
    },
    // dbus-send
    Sent {
        bytes: b"l\x01\0\x01\x07\0\0\0\x02\0\0\0\x87\0\0\0\x01\x01o\0\x17\0\0\0/org/freedesktop/login1\0\x02\x01s\0\x1e\0\0\0org.freedesktop.login1.Manager\0\0\x03\x01s\0\x0a\0\0\0GetSession\0\0\0\0\0\0\x06\x01s\0\x16\0\0\0org.freedesktop.login1\0\0\x08\x01g\0\x01s\0\0\x02\0\0\0c1\0",
        kind: 1,
        flags: 0,
        serial: 2,
        path: b"/org/freedesktop/login1",
        interface: b"org.freedesktop.login1.Manager",
        member: b"GetSession",
        error: b"",
        reply_to: None,
        destination: b"org.freedesktop.login1",
        sender: b"",
        types: b"s",
    },
    // dbus-send
    Sent {
        bytes: b"l\x04\x01\x010\0\0\0\x02\0\0\0E\0\0\0\x01\x01o\0\x04\0\0\0/a/b\0\0\0\0\x02\x01s\0\x0d\0\0\0org.example.I\0\0\0\x03\x01s\0\x07\0\0\0Changed\0\x08\x01g\0\x07ia{su}v\0\0\0\0\xfe\xff\xff\xff\x1c\0\0\0\x03\0\0\0one\0\x01\0\0\0\0\0\0\0\x03\0\0\0two\0\x02\0\0\0\x01d\0\0\0\0\0\0\0\0\xf8?",
        kind: 4,
        flags: 1,
        serial: 2,
        path: b"/a/b",
        interface: b"org.example.I",
        member: b"Changed",
        error: b"",
        reply_to: None,
        destination: b"",
        sender: b"",
        types: b"ia{su}v",
    },
    // gdbus
    Sent {
        bytes: b"l\x01\0\x01\0\0\0\0\x01\0\0\0n\0\0\0\x01\x01o\0\x15\0\0\0/org/freedesktop/DBus\0\0\0\x02\x01s\0\x14\0\0\0org.freedesktop.DBus\0\0\0\0\x06\x01s\0\x14\0\0\0org.freedesktop.DBus\0\0\0\0\x03\x01s\0\x05\0\0\0Hello\0\0\0",
        kind: 1,
        flags: 0,
        serial: 1,
        path: b"/org/freedesktop/DBus",
        interface: b"org.freedesktop.DBus",
        member: b"Hello",
        error: b"",
        reply_to: None,
        destination: b"org.freedesktop.DBus",
        sender: b"",
        types: b"",
    },
    // gdbus
    Sent {
        bytes: b"l\x01\0\x01\0\0\0\0\x02\0\0\0\x83\0\0\0\x01\x01o\0\x17\0\0\0/org/freedesktop/login1\0\x02\x01s\0#\0\0\0org.freedesktop.DBus.Introspectable\0\0\0\0\0\x06\x01s\0\x16\0\0\0org.freedesktop.login1\0\0\x03\x01s\0\x0a\0\0\0Introspect\0\0\0\0\0\0",
        kind: 1,
        flags: 0,
        serial: 2,
        path: b"/org/freedesktop/login1",
        interface: b"org.freedesktop.DBus.Introspectable",
        member: b"Introspect",
        error: b"",
        reply_to: None,
        destination: b"org.freedesktop.login1",
        sender: b"",
        types: b"",
    },
    // gdbus
    Sent {
        bytes: b"l\x01\0\x01\x07\0\0\0\x03\0\0\0\x83\0\0\0\x01\x01o\0\x17\0\0\0/org/freedesktop/login1\0\x02\x01s\0\x1e\0\0\0org.freedesktop.login1.Manager\0\0\x06\x01s\0\x16\0\0\0org.freedesktop.login1\0\0\x08\x01g\0\x01s\0\0\x03\x01s\0\x0a\0\0\0GetSession\0\0\0\0\0\0\x02\0\0\0c1\0",
        kind: 1,
        flags: 0,
        serial: 3,
        path: b"/org/freedesktop/login1",
        interface: b"org.freedesktop.login1.Manager",
        member: b"GetSession",
        error: b"",
        reply_to: None,
        destination: b"org.freedesktop.login1",
        sender: b"",
        types: b"s",
    },
    // gdbus
    Sent {
        bytes: b"l\x04\x01\x01\x17\0\0\0\x01\0\0\0H\0\0\0\x01\x01o\0\x04\0\0\0/a/b\0\0\0\0\x02\x01s\0\x0d\0\0\0org.example.I\0\0\0\x08\x01g\0\x03uas\0\0\0\0\0\0\0\0\x03\x01s\0\x07\0\0\0Changed\0\x07\0\0\0\x0f\0\0\0\x01\0\0\0x\0\0\0\x02\0\0\0yz\0",
        kind: 4,
        flags: 1,
        serial: 1,
        path: b"/a/b",
        interface: b"org.example.I",
        member: b"Changed",
        error: b"",
        reply_to: None,
        destination: b"",
        sender: b"",
        types: b"uas",
    },
];
