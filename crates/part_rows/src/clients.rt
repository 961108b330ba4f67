// The first messages of programs of a Debian 12, which a peer recorded: busctl of systemd 252, dbus-send of libdbus
// 1.14, gdbus of GLib 2.74; and what they are.

use crate::glib::Case;

/// What the programs sent.
pub const CLIENTS: &[Case] = &[
    // busctl
    Case {
        bytes: b"l\x01\0\x01\0\0\0\0\x01\0\0\0m\0\0\0\x01\x01o\0\x15\0\0\0/org/freedesktop/DBus\0\0\0\x03\x01s\0\x05\0\0\0Hello\0\0\0\x02\x01s\0\x14\0\0\0org.freedesktop.DBus\0\0\0\0\x06\x01s\0\x14\0\0\0org.freedesktop.DBus\0\0\0\0",
        event: b"call 2 1 hello",
    },
    // busctl
    Case {
        bytes: b"l\x01\x04\x01\x07\0\0\0\x02\0\0\0\x87\0\0\0\x01\x01o\0\x17\0\0\0/org/freedesktop/login1\0\x03\x01s\0\x0a\0\0\0GetSession\0\0\0\0\0\0\x02\x01s\0\x1e\0\0\0org.freedesktop.login1.Manager\0\0\x06\x01s\0\x16\0\0\0org.freedesktop.login1\0\0\x08\x01g\0\x01s\0\0\x02\0\0\0c1\0",
        event: b"call 2 2 get-session c1",
    },
    // busctl
    Case {
        bytes: b"l\x01\x04\x01 \0\0\0\x02\0\0\0]\0\0\0\x01\x01o\0\x04\0\0\0/a/b\0\0\0\0\x03\x01s\0\x01\0\0\0M\0\0\0\0\0\0\0\x02\x01s\0\x0d\0\0\0org.example.I\0\0\0\x06\x01s\0\x0d\0\0\0org.example.A\0\0\0\x08\x01g\0\x07asu(yb)\0\0\0\0\x0f\0\0\0\x01\0\0\0a\0\0\0\x02\0\0\0bc\0\0\x07\0\0\0\x09\0\0\0\x01\0\0\0",
        event: b"call 2 2 no-object",
    },
    // dbus-send
    Case {
        bytes: b"l\x01\0\x01\0\0\0\0\x01\0\0\0n\0\0\0\x01\x01o\0\x15\0\0\0/org/freedesktop/DBus\0\0\0\x06\x01s\0\x14\0\0\0org.freedesktop.DBus\0\0\0\0\x02\x01s\0\x14\0\0\0org.freedesktop.DBus\0\0\0\0\x03\x01s\0\x05\0\0\0Hello\0\0\0",
        event: b"call 2 1 hello",
    },
    // dbus-send
    Case {
        bytes: b"l\x01\0\x01\x07\0\0\0\x02\0\0\0\x87\0\0\0\x01\x01o\0\x17\0\0\0/org/freedesktop/login1\0\x02\x01s\0\x1e\0\0\0org.freedesktop.login1.Manager\0\0\x03\x01s\0\x0a\0\0\0GetSession\0\0\0\0\0\0\x06\x01s\0\x16\0\0\0org.freedesktop.login1\0\0\x08\x01g\0\x01s\0\0\x02\0\0\0c1\0",
        event: b"call 2 2 get-session c1",
    },
    // dbus-send
    Case {
        bytes: b"l\x04\x01\x010\0\0\0\x02\0\0\0E\0\0\0\x01\x01o\0\x04\0\0\0/a/b\0\0\0\0\x02\x01s\0\x0d\0\0\0org.example.I\0\0\0\x03\x01s\0\x07\0\0\0Changed\0\x08\x01g\0\x07ia{su}v\0\0\0\0\xfe\xff\xff\xff\x1c\0\0\0\x03\0\0\0one\0\x01\0\0\0\0\0\0\0\x03\0\0\0two\0\x02\0\0\0\x01d\0\0\0\0\0\0\0\0\xf8?",
        event: b"send 2 2 nothing",
    },
    // gdbus
    Case {
        bytes: b"l\x01\0\x01\0\0\0\0\x01\0\0\0n\0\0\0\x01\x01o\0\x15\0\0\0/org/freedesktop/DBus\0\0\0\x02\x01s\0\x14\0\0\0org.freedesktop.DBus\0\0\0\0\x06\x01s\0\x14\0\0\0org.freedesktop.DBus\0\0\0\0\x03\x01s\0\x05\0\0\0Hello\0\0\0",
        event: b"call 2 1 hello",
    },
    // gdbus
    Case {
        bytes: b"l\x01\0\x01\0\0\0\0\x02\0\0\0\x83\0\0\0\x01\x01o\0\x17\0\0\0/org/freedesktop/login1\0\x02\x01s\0#\0\0\0org.freedesktop.DBus.Introspectable\0\0\0\0\0\x06\x01s\0\x16\0\0\0org.freedesktop.login1\0\0\x03\x01s\0\x0a\0\0\0Introspect\0\0\0\0\0\0",
        event: b"call 2 2 no-method",
    },
    // gdbus
    Case {
        bytes: b"l\x01\0\x01\x07\0\0\0\x03\0\0\0\x83\0\0\0\x01\x01o\0\x17\0\0\0/org/freedesktop/login1\0\x02\x01s\0\x1e\0\0\0org.freedesktop.login1.Manager\0\0\x06\x01s\0\x16\0\0\0org.freedesktop.login1\0\0\x08\x01g\0\x01s\0\0\x03\x01s\0\x0a\0\0\0GetSession\0\0\0\0\0\0\x02\0\0\0c1\0",
        event: b"call 2 3 get-session c1",
    },
    // gdbus
    Case {
        bytes: b"l\x04\x01\x01\x17\0\0\0\x01\0\0\0H\0\0\0\x01\x01o\0\x04\0\0\0/a/b\0\0\0\0\x02\x01s\0\x0d\0\0\0org.example.I\0\0\0\x08\x01g\0\x03uas\0\0\0\0\0\0\0\0\x03\x01s\0\x07\0\0\0Changed\0\x07\0\0\0\x0f\0\0\0\x01\0\0\0x\0\0\0\x02\0\0\0yz\0",
        event: b"send 2 1 nothing",
    },
    // busctl
    Case {
        bytes: b"l\x01\0\x01-\0\0\0\x02\0\0\0\x90\0\0\0\x01\x01o\0\"\0\0\0/org/freedesktop/login1/session/c1\0\0\0\0\0\0\x03\x01s\0\x03\0\0\0Get\0\0\0\0\0\x02\x01s\0\x1f\0\0\0org.freedesktop.DBus.Properties\0\x06\x01s\0\x16\0\0\0org.freedesktop.login1\0\0\x08\x01g\0\x02ss\0\x1e\0\0\0org.freedesktop.login1.Session\0\0\x04\0\0\0VTNr\0",
        event: b"call 2 2 get /org/freedesktop/login1/session/c1 org.freedesktop.login1.Session VTNr",
    },
    // busctl
    Case {
        bytes: b"l\x01\0\x018\0\0\0\x02\0\0\0\x91\0\0\0\x01\x01o\0\"\0\0\0/org/freedesktop/login1/session/c1\0\0\0\0\0\0\x03\x01s\0\x03\0\0\0Set\0\0\0\0\0\x02\x01s\0\x1f\0\0\0org.freedesktop.DBus.Properties\0\x06\x01s\0\x16\0\0\0org.freedesktop.login1\0\0\x08\x01g\0\x03ssv\0\0\0\0\0\0\0\0\x1e\0\0\0org.freedesktop.login1.Session\0\0\x08\0\0\0IdleHint\0\x01b\0\x01\0\0\0",
        event: b"call 2 2 set /org/freedesktop/login1/session/c1 org.freedesktop.login1.Session IdleHint",
    },
    // busctl
    Case {
        bytes: b"l\x01\x04\x01\0\0\0\0\x02\0\0\0w\0\0\0\x01\x01o\0\x17\0\0\0/org/freedesktop/login1\0\x03\x01s\0\x04\0\0\0Ping\0\0\0\0\x02\x01s\0\x19\0\0\0org.freedesktop.DBus.Peer\0\0\0\0\0\0\0\x06\x01s\0\x16\0\0\0org.freedesktop.login1\0\0",
        event: b"call 2 2 ping",
    },
    // busctl
    Case {
        bytes: b"l\x01\x04\x01\0\0\0\0\x02\0\0\0\x7f\0\0\0\x01\x01o\0\x17\0\0\0/org/freedesktop/login1\0\x03\x01s\0\x0c\0\0\0GetMachineId\0\0\0\0\x02\x01s\0\x19\0\0\0org.freedesktop.DBus.Peer\0\0\0\0\0\0\0\x06\x01s\0\x16\0\0\0org.freedesktop.login1\0\0",
        event: b"call 2 2 machine-id",
    },
    // busctl
    Case {
        bytes: b"l\x01\x04\x01 \0\0\0\x02\0\0\0\x8f\0\0\0\x01\x01o\0\"\0\0\0/org/freedesktop/login1/seat/seat0\0\0\0\0\0\0\x03\x01s\0\x06\0\0\0GetAll\0\0\x02\x01s\0\x1f\0\0\0org.freedesktop.DBus.Properties\0\x06\x01s\0\x16\0\0\0org.freedesktop.login1\0\0\x08\x01g\0\x01s\0\0\x1b\0\0\0org.freedesktop.login1.Seat\0",
        event: b"call 2 2 get-all /org/freedesktop/login1/seat/seat0 org.freedesktop.login1.Seat",
    },
    // busctl
    Case {
        bytes: b"l\x01\x04\x01\x05\0\0\0\x02\0\0\0\x8f\0\0\0\x01\x01o\0\"\0\0\0/org/freedesktop/login1/user/_1000\0\0\0\0\0\0\x03\x01s\0\x06\0\0\0GetAll\0\0\x02\x01s\0\x1f\0\0\0org.freedesktop.DBus.Properties\0\x06\x01s\0\x16\0\0\0org.freedesktop.login1\0\0\x08\x01g\0\x01s\0\0\0\0\0\0\0",
        event: b"call 2 2 get-all /org/freedesktop/login1/user/_1000 %",
    },
    // busctl
    Case {
        bytes: b"l\x01\x04\x01\x1b\0\0\0\x02\0\0\0\x7f\0\0\0\x01\x01o\0\x15\0\0\0/org/freedesktop/DBus\0\0\0\x03\x01s\0\x0c\0\0\0GetNameOwner\0\0\0\0\x02\x01s\0\x14\0\0\0org.freedesktop.DBus\0\0\0\0\x06\x01s\0\x14\0\0\0org.freedesktop.DBus\0\0\0\0\x08\x01g\0\x01s\0\0\x16\0\0\0org.freedesktop.login1\0",
        event: b"call 2 2 owner org.freedesktop.login1",
    },
    // busctl
    Case {
        bytes: b"l\x01\x04\x01\x12\0\0\0\x02\0\0\0\x7f\0\0\0\x01\x01o\0\x15\0\0\0/org/freedesktop/DBus\0\0\0\x03\x01s\0\x0b\0\0\0RemoveMatch\0\0\0\0\0\x02\x01s\0\x14\0\0\0org.freedesktop.DBus\0\0\0\0\x06\x01s\0\x14\0\0\0org.freedesktop.DBus\0\0\0\0\x08\x01g\0\x01s\0\0\x0d\0\0\0type='signal'\0",
        event: b"call 2 2 remove-match type='signal'",
    },
    // dbus-send
    Case {
        bytes: b"l\x01\0\x01.\0\0\0\x02\0\0\0\x90\0\0\0\x01\x01o\0\"\0\0\0/org/freedesktop/login1/session/c1\0\0\0\0\0\0\x02\x01s\0\x1f\0\0\0org.freedesktop.DBus.Properties\0\x03\x01s\0\x03\0\0\0Get\0\0\0\0\0\x06\x01s\0\x16\0\0\0org.freedesktop.login1\0\0\x08\x01g\0\x02ss\0\x1e\0\0\0org.freedesktop.login1.Session\0\0\x05\0\0\0State\0",
        event: b"call 2 2 get /org/freedesktop/login1/session/c1 org.freedesktop.login1.Session State",
    },
    // dbus-send
    Case {
        bytes: b"l\x01\0\x01#\0\0\0\x02\0\0\0\x7f\0\0\0\x01\x01o\0\x17\0\0\0/org/freedesktop/login1\0\x02\x01s\0\x1f\0\0\0org.freedesktop.DBus.Properties\0\x03\x01s\0\x06\0\0\0GetAll\0\0\x06\x01s\0\x16\0\0\0org.freedesktop.login1\0\0\x08\x01g\0\x01s\0\0\x1e\0\0\0org.freedesktop.login1.Manager\0",
        event: b"call 2 2 get-all /org/freedesktop/login1 org.freedesktop.login1.Manager",
    },
    // dbus-send
    Case {
        bytes: b"l\x01\0\x01\0\0\0\0\x02\0\0\0g\0\0\0\x01\x01o\0\x02\0\0\0/x\0\0\0\0\0\0\x02\x01s\0\x19\0\0\0org.freedesktop.DBus.Peer\0\0\0\0\0\0\0\x03\x01s\0\x04\0\0\0Ping\0\0\0\0\x06\x01s\0\x16\0\0\0org.freedesktop.login1\0\0",
        event: b"call 2 2 ping",
    },
    // gdbus
    Case {
        bytes: b"l\x01\0\x01/\0\0\0\x03\0\0\0\x8c\0\0\0\x01\x01o\0\"\0\0\0/org/freedesktop/login1/session/c1\0\0\0\0\0\0\x02\x01s\0\x1f\0\0\0org.freedesktop.DBus.Properties\0\x06\x01s\0\x16\0\0\0org.freedesktop.login1\0\0\x08\x01g\0\x02ss\0\x03\x01s\0\x03\0\0\0Get\0\0\0\0\0\x1e\0\0\0org.freedesktop.login1.Session\0\0\x06\0\0\0Active\0",
        event: b"call 2 3 get /org/freedesktop/login1/session/c1 org.freedesktop.login1.Session Active",
    },
    // gdbus
    Case {
        bytes: b"l\x01\0\x01\x05\0\0\0\x03\0\0\0\x7f\0\0\0\x01\x01o\0\x17\0\0\0/org/freedesktop/login1\0\x02\x01s\0\x1f\0\0\0org.freedesktop.DBus.Properties\0\x06\x01s\0\x16\0\0\0org.freedesktop.login1\0\0\x08\x01g\0\x01s\0\0\x03\x01s\0\x06\0\0\0GetAll\0\0\0\0\0\0\0",
        event: b"call 2 3 get-all /org/freedesktop/login1 %",
    },
    // gdbus
    Case {
        bytes: b"l\x01\0\x01<\0\0\0\x03\0\0\0\x94\0\0\0\x01\x01o\0\"\0\0\0/org/freedesktop/login1/session/c1\0\0\0\0\0\0\x02\x01s\0\x1f\0\0\0org.freedesktop.DBus.Properties\0\x06\x01s\0\x16\0\0\0org.freedesktop.login1\0\0\x08\x01g\0\x03ssv\0\0\0\0\0\0\0\0\x03\x01s\0\x03\0\0\0Set\0\0\0\0\0\x1e\0\0\0org.freedesktop.login1.Session\0\0\x0a\0\0\0LockedHint\0\x01b\0\0\0\x01\0\0\0",
        event: b"call 2 3 set /org/freedesktop/login1/session/c1 org.freedesktop.login1.Session LockedHint",
    },
    // gdbus
    Case {
        bytes: b"l\x01\0\x01\0\0\0\0\x03\0\0\0}\0\0\0\x01\x01o\0\x17\0\0\0/org/freedesktop/login1\0\x02\x01s\0\x19\0\0\0org.freedesktop.DBus.Peer\0\0\0\0\0\0\0\x06\x01s\0\x16\0\0\0org.freedesktop.login1\0\0\x08\x01g\0\0\0\0\0\x03\x01s\0\x04\0\0\0Ping\0\0\0\0",
        event: b"call 2 3 ping",
    },
    // gdbus
    Case {
        bytes: b"l\x01\0\x01\xa6\0\0\0\x02\0\0\0y\0\0\0\x01\x01o\0\x15\0\0\0/org/freedesktop/DBus\0\0\0\x02\x01s\0\x14\0\0\0org.freedesktop.DBus\0\0\0\0\x06\x01s\0\x14\0\0\0org.freedesktop.DBus\0\0\0\0\x08\x01g\0\x01s\0\0\x03\x01s\0\x08\0\0\0AddMatch\0\0\0\0\0\0\0\0\xa1\0\0\0type='signal',sender='org.freedesktop.DBus',interface='org.freedesktop.DBus',member='NameOwnerChanged',path='/org/freedesktop/DBus',arg0='org.freedesktop.login1'\0",
        event: b"call 2 2 add-match type='signal',sender='org.freedesktop.DBus',interface='org.freedesktop.DBus',member='NameOwnerChanged',path='/org/freedesktop/DBus',arg0='org.freedesktop.login1'",
    },
    // gdbus
    Case {
        bytes: b"l\x01\0\x01 \0\0\0\x03\0\0\0\x83\0\0\0\x01\x01o\0\x15\0\0\0/org/freedesktop/DBus\0\0\0\x02\x01s\0\x14\0\0\0org.freedesktop.DBus\0\0\0\0\x06\x01s\0\x14\0\0\0org.freedesktop.DBus\0\0\0\0\x08\x01g\0\x02su\0\x03\x01s\0\x12\0\0\0StartServiceByName\0\0\0\0\0\0\x16\0\0\0org.freedesktop.login1\0\0\0\0\0\0",
        event: b"call 2 3 no-method",
    },
    // gdbus
    Case {
        bytes: b"l\x01\0\x01\x1b\0\0\0\x04\0\0\0}\0\0\0\x01\x01o\0\x15\0\0\0/org/freedesktop/DBus\0\0\0\x02\x01s\0\x14\0\0\0org.freedesktop.DBus\0\0\0\0\x06\x01s\0\x14\0\0\0org.freedesktop.DBus\0\0\0\0\x08\x01g\0\x01s\0\0\x03\x01s\0\x0c\0\0\0GetNameOwner\0\0\0\0\x16\0\0\0org.freedesktop.login1\0",
        event: b"call 2 4 owner org.freedesktop.login1",
    },
];
