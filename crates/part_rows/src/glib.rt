// Messages that GLib 2.74 (Gio.DBusMessage) wrote, all with the serial 7, and what they are.

/// A message, and the event that connection 2 makes with it, as a recording has it.
pub struct Case {
    pub bytes: &'static [u8],
    pub event: &'static [u8],
}

/// Each method of the manager.
pub const MANAGER: &[Case] = &[
    Case {
        bytes: b"l\x01\0\x01\xb0\0\0\0\x07\0\0\0v\0\0\0\x01\x01o\0\x17\0\0\0/org/freedesktop/login1\0\x02\x01s\0\x1e\0\0\0org.freedesktop.login1.Manager\0\0\x08\x01g\0\x12uusssssussbssa(sv)\0\x03\x01s\0\x0d\0\0\0CreateSession\0\0\0\xe8\x03\0\0\0\0\0\0\x05\0\0\0login\0\0\0\x03\0\0\0tty\0\x04\0\0\0user\0\0\0\0\x05\0\0\0GNOME\0\0\0\x05\0\0\0seat0\0\0\0\x02\0\0\0\x09\0\0\0/dev/tty2\0\0\0\x02\0\0\0:0\0\0\x01\0\0\0\x04\0\0\0root\0\0\0\0\x04\0\0\0host\0\0\0\00\0\0\0\0\0\0\0\x08\0\0\0Delegate\0\x01b\0\x01\0\0\0\0\0\0\0\x08\0\0\0TasksMax\0\x01t\0\x07\0\0\0\0\0\0\0",
        event: b"call 2 7 create 1000 0 login tty user GNOME seat0 2 /dev/tty2 :0 true root host",
    },
    Case {
        bytes: b"l\x01\0\x01`\0\0\0\x07\0\0\0v\0\0\0\x01\x01o\0\x17\0\0\0/org/freedesktop/login1\0\x02\x01s\0\x1e\0\0\0org.freedesktop.login1.Manager\0\0\x08\x01g\0\x12uusssssussbssa(sv)\0\x03\x01s\0\x0d\0\0\0CreateSession\0\0\0\x01\0\0\0\x02\0\0\0\0\0\0\0\0\0\0\0\0\0\0\0\0\0\0\0\0\0\0\0\0\0\0\0\0\0\0\0\0\0\0\0\0\0\0\0\0\0\0\0\0\0\0\0\0\0\0\0\0\0\0\0\0\0\0\0\0\0\0\0\0\0\0\0\0\0\0\0\0\0\0\0\0\0\0\0\0\0\0\0\0\0\0\0\0\0\0\0",
        event: b"call 2 7 create 1 2 % % % % % 0 % % false % %",
    },
    Case {
        bytes: b"l\x01\0\x01\x07\0\0\0\x07\0\0\0c\0\0\0\x01\x01o\0\x17\0\0\0/org/freedesktop/login1\0\x02\x01s\0\x1e\0\0\0org.freedesktop.login1.Manager\0\0\x08\x01g\0\x01s\0\0\x03\x01s\0\x0a\0\0\0GetSession\0\0\0\0\0\0\x02\0\0\0c1\0",
        event: b"call 2 7 get-session c1",
    },
    Case {
        bytes: b"l\x01\0\x01\x04\0\0\0\x07\0\0\0`\0\0\0\x01\x01o\0\x17\0\0\0/org/freedesktop/login1\0\x02\x01s\0\x1e\0\0\0org.freedesktop.login1.Manager\0\0\x08\x01g\0\x01u\0\0\x03\x01s\0\x07\0\0\0GetUser\0\xe8\x03\0\0",
        event: b"call 2 7 get-user 1000",
    },
    Case {
        bytes: b"l\x01\0\x01\x0a\0\0\0\x07\0\0\0`\0\0\0\x01\x01o\0\x17\0\0\0/org/freedesktop/login1\0\x02\x01s\0\x1e\0\0\0org.freedesktop.login1.Manager\0\0\x08\x01g\0\x01s\0\0\x03\x01s\0\x07\0\0\0GetSeat\0\x05\0\0\0seat0\0",
        event: b"call 2 7 get-seat seat0",
    },
    Case {
        bytes: b"l\x01\0\x01\0\0\0\0\x07\0\0\0]\0\0\0\x01\x01o\0\x17\0\0\0/org/freedesktop/login1\0\x02\x01s\0\x1e\0\0\0org.freedesktop.login1.Manager\0\0\x03\x01s\0\x0c\0\0\0ListSessions\0\0\0\0",
        event: b"call 2 7 list-sessions",
    },
    Case {
        bytes: b"l\x01\0\x01\0\0\0\0\x07\0\0\0Z\0\0\0\x01\x01o\0\x17\0\0\0/org/freedesktop/login1\0\x02\x01s\0\x1e\0\0\0org.freedesktop.login1.Manager\0\0\x03\x01s\0\x09\0\0\0ListUsers\0\0\0\0\0\0\0",
        event: b"call 2 7 list-users",
    },
    Case {
        bytes: b"l\x01\0\x01\0\0\0\0\x07\0\0\0Z\0\0\0\x01\x01o\0\x17\0\0\0/org/freedesktop/login1\0\x02\x01s\0\x1e\0\0\0org.freedesktop.login1.Manager\0\0\x03\x01s\0\x09\0\0\0ListSeats\0\0\0\0\0\0\0",
        event: b"call 2 7 list-seats",
    },
    Case {
        bytes: b"l\x01\0\x01\0\0\0\0\x07\0\0\0_\0\0\0\x01\x01o\0\x17\0\0\0/org/freedesktop/login1\0\x02\x01s\0\x1e\0\0\0org.freedesktop.login1.Manager\0\0\x03\x01s\0\x0e\0\0\0ListInhibitors\0\0",
        event: b"call 2 7 list-inhibitors",
    },
    Case {
        bytes: b"l\x01\0\x01\0\0\0\0\x07\0\0\0]\0\0\0\x01\x01o\0\x17\0\0\0/org/freedesktop/login1\0\x02\x01s\0\x1e\0\0\0org.freedesktop.login1.Manager\0\0\x03\x01s\0\x0c\0\0\0LockSessions\0\0\0\0",
        event: b"call 2 7 lock-all",
    },
    Case {
        bytes: b"l\x01\0\x01\0\0\0\0\x07\0\0\0_\0\0\0\x01\x01o\0\x17\0\0\0/org/freedesktop/login1\0\x02\x01s\0\x1e\0\0\0org.freedesktop.login1.Manager\0\0\x03\x01s\0\x0e\0\0\0UnlockSessions\0\0",
        event: b"call 2 7 unlock-all",
    },
    Case {
        bytes: b"l\x01\0\x01\x07\0\0\0\x07\0\0\0h\0\0\0\x01\x01o\0\x17\0\0\0/org/freedesktop/login1\0\x02\x01s\0\x1e\0\0\0org.freedesktop.login1.Manager\0\0\x08\x01g\0\x01s\0\0\x03\x01s\0\x0f\0\0\0ActivateSession\0\x02\0\0\0c2\0",
        event: b"call 2 7 activate c2",
    },
    Case {
        bytes: b"l\x01\0\x01\x12\0\0\0\x07\0\0\0n\0\0\0\x01\x01o\0\x17\0\0\0/org/freedesktop/login1\0\x02\x01s\0\x1e\0\0\0org.freedesktop.login1.Manager\0\0\x08\x01g\0\x02ss\0\x03\x01s\0\x15\0\0\0ActivateSessionOnSeat\0\0\0\x02\0\0\0c2\0\0\x05\0\0\0seat1\0",
        event: b"call 2 7 activate-on c2 seat1",
    },
    Case {
        bytes: b"l\x01\0\x01\x07\0\0\0\x07\0\0\0d\0\0\0\x01\x01o\0\x17\0\0\0/org/freedesktop/login1\0\x02\x01s\0\x1e\0\0\0org.freedesktop.login1.Manager\0\0\x08\x01g\0\x01s\0\0\x03\x01s\0\x0b\0\0\0LockSession\0\0\0\0\0\x02\0\0\0c1\0",
        event: b"call 2 7 lock c1",
    },
    Case {
        bytes: b"l\x01\0\x01\x07\0\0\0\x07\0\0\0f\0\0\0\x01\x01o\0\x17\0\0\0/org/freedesktop/login1\0\x02\x01s\0\x1e\0\0\0org.freedesktop.login1.Manager\0\0\x08\x01g\0\x01s\0\0\x03\x01s\0\x0d\0\0\0UnlockSession\0\0\0\x02\0\0\0c1\0",
        event: b"call 2 7 unlock c1",
    },
    Case {
        bytes: b"l\x01\0\x01\x18\0\0\0\x07\0\0\0l\0\0\0\x01\x01o\0\x17\0\0\0/org/freedesktop/login1\0\x02\x01s\0\x1e\0\0\0org.freedesktop.login1.Manager\0\0\x08\x01g\0\x03ssi\0\0\0\0\0\0\0\0\x03\x01s\0\x0b\0\0\0KillSession\0\0\0\0\0\x02\0\0\0c1\0\0\x06\0\0\0leader\0\0\x0f\0\0\0",
        event: b"call 2 7 kill c1 leader 15",
    },
    Case {
        bytes: b"l\x01\0\x01\x14\0\0\0\x07\0\0\0l\0\0\0\x01\x01o\0\x17\0\0\0/org/freedesktop/login1\0\x02\x01s\0\x1e\0\0\0org.freedesktop.login1.Manager\0\0\x08\x01g\0\x03ssi\0\0\0\0\0\0\0\0\x03\x01s\0\x0b\0\0\0KillSession\0\0\0\0\0\x02\0\0\0c1\0\0\0\0\0\0\0\0\0\0\0\0\0\x80",
        event: b"call 2 7 kill c1 % -2147483648",
    },
    Case {
        bytes: b"l\x01\0\x01\x07\0\0\0\x07\0\0\0i\0\0\0\x01\x01o\0\x17\0\0\0/org/freedesktop/login1\0\x02\x01s\0\x1e\0\0\0org.freedesktop.login1.Manager\0\0\x08\x01g\0\x01s\0\0\x03\x01s\0\x10\0\0\0TerminateSession\0\0\0\0\0\0\0\0\x02\0\0\0c1\0",
        event: b"call 2 7 terminate c1",
    },
    Case {
        bytes: b"l\x01\0\x01\x04\0\0\0\x07\0\0\0f\0\0\0\x01\x01o\0\x17\0\0\0/org/freedesktop/login1\0\x02\x01s\0\x1e\0\0\0org.freedesktop.login1.Manager\0\0\x08\x01g\0\x01u\0\0\x03\x01s\0\x0d\0\0\0TerminateUser\0\0\0\xff\xff\xff\xff",
        event: b"call 2 7 terminate-user 4294967295",
    },
    Case {
        bytes: b"l\x01\0\x01\x0a\0\0\0\x07\0\0\0f\0\0\0\x01\x01o\0\x17\0\0\0/org/freedesktop/login1\0\x02\x01s\0\x1e\0\0\0org.freedesktop.login1.Manager\0\0\x08\x01g\0\x01s\0\0\x03\x01s\0\x0d\0\0\0TerminateSeat\0\0\0\x05\0\0\0seat1\0",
        event: b"call 2 7 terminate-seat seat1",
    },
    Case {
        bytes: b"l\x01\0\x01\x0c\0\0\0\x07\0\0\0n\0\0\0\x01\x01o\0\x17\0\0\0/org/freedesktop/login1\0\x02\x01s\0\x1e\0\0\0org.freedesktop.login1.Manager\0\0\x08\x01g\0\x03ubb\0\0\0\0\0\0\0\0\x03\x01s\0\x0d\0\0\0SetUserLinger\0\0\0\xe8\x03\0\0\x01\0\0\0\0\0\0\0",
        event: b"call 2 7 linger 1000 true",
    },
    Case {
        bytes: b"l\x01\0\x01\x0c\0\0\0\x07\0\0\0n\0\0\0\x01\x01o\0\x17\0\0\0/org/freedesktop/login1\0\x02\x01s\0\x1e\0\0\0org.freedesktop.login1.Manager\0\0\x08\x01g\0\x03ubb\0\0\0\0\0\0\0\0\x03\x01s\0\x0d\0\0\0SetUserLinger\0\0\0\xe8\x03\0\0\0\0\0\0\x01\0\0\0",
        event: b"call 2 7 linger 1000 false",
    },
    Case {
        bytes: b"l\x01\0\x01\x04\0\0\0\x07\0\0\0a\0\0\0\x01\x01o\0\x17\0\0\0/org/freedesktop/login1\0\x02\x01s\0\x1e\0\0\0org.freedesktop.login1.Manager\0\0\x08\x01g\0\x01b\0\0\x03\x01s\0\x08\0\0\0PowerOff\0\0\0\0\0\0\0\0\x01\0\0\0",
        event: b"call 2 7 power poweroff",
    },
    Case {
        bytes: b"l\x01\0\x01\x04\0\0\0\x07\0\0\0_\0\0\0\x01\x01o\0\x17\0\0\0/org/freedesktop/login1\0\x02\x01s\0\x1e\0\0\0org.freedesktop.login1.Manager\0\0\x08\x01g\0\x01b\0\0\x03\x01s\0\x06\0\0\0Reboot\0\0\x01\0\0\0",
        event: b"call 2 7 power reboot",
    },
    Case {
        bytes: b"l\x01\0\x01\x04\0\0\0\x07\0\0\0]\0\0\0\x01\x01o\0\x17\0\0\0/org/freedesktop/login1\0\x02\x01s\0\x1e\0\0\0org.freedesktop.login1.Manager\0\0\x08\x01g\0\x01b\0\0\x03\x01s\0\x04\0\0\0Halt\0\0\0\0\x01\0\0\0",
        event: b"call 2 7 power halt",
    },
    Case {
        bytes: b"l\x01\0\x01\x04\0\0\0\x07\0\0\0`\0\0\0\x01\x01o\0\x17\0\0\0/org/freedesktop/login1\0\x02\x01s\0\x1e\0\0\0org.freedesktop.login1.Manager\0\0\x08\x01g\0\x01b\0\0\x03\x01s\0\x07\0\0\0Suspend\0\x01\0\0\0",
        event: b"call 2 7 power suspend",
    },
    Case {
        bytes: b"l\x01\0\x01\x04\0\0\0\x07\0\0\0b\0\0\0\x01\x01o\0\x17\0\0\0/org/freedesktop/login1\0\x02\x01s\0\x1e\0\0\0org.freedesktop.login1.Manager\0\0\x08\x01g\0\x01b\0\0\x03\x01s\0\x09\0\0\0Hibernate\0\0\0\0\0\0\0\x01\0\0\0",
        event: b"call 2 7 power hibernate",
    },
    Case {
        bytes: b"l\x01\0\x01\x04\0\0\0\x07\0\0\0d\0\0\0\x01\x01o\0\x17\0\0\0/org/freedesktop/login1\0\x02\x01s\0\x1e\0\0\0org.freedesktop.login1.Manager\0\0\x08\x01g\0\x01b\0\0\x03\x01s\0\x0b\0\0\0HybridSleep\0\0\0\0\0\x01\0\0\0",
        event: b"call 2 7 power hybrid-sleep",
    },
    Case {
        bytes: b"l\x01\0\x01\x04\0\0\0\x07\0\0\0m\0\0\0\x01\x01o\0\x17\0\0\0/org/freedesktop/login1\0\x02\x01s\0\x1e\0\0\0org.freedesktop.login1.Manager\0\0\x08\x01g\0\x01b\0\0\x03\x01s\0\x14\0\0\0SuspendThenHibernate\0\0\0\0\x01\0\0\0",
        event: b"call 2 7 power suspend-then-hibernate",
    },
    Case {
        bytes: b"l\x01\0\x01\0\0\0\0\x07\0\0\0\\\0\0\0\x01\x01o\0\x17\0\0\0/org/freedesktop/login1\0\x02\x01s\0\x1e\0\0\0org.freedesktop.login1.Manager\0\0\x03\x01s\0\x0b\0\0\0CanPowerOff\0\0\0\0\0",
        event: b"call 2 7 can poweroff",
    },
    Case {
        bytes: b"l\x01\0\x01\0\0\0\0\x07\0\0\0Z\0\0\0\x01\x01o\0\x17\0\0\0/org/freedesktop/login1\0\x02\x01s\0\x1e\0\0\0org.freedesktop.login1.Manager\0\0\x03\x01s\0\x09\0\0\0CanReboot\0\0\0\0\0\0\0",
        event: b"call 2 7 can reboot",
    },
    Case {
        bytes: b"l\x01\0\x01\0\0\0\0\x07\0\0\0X\0\0\0\x01\x01o\0\x17\0\0\0/org/freedesktop/login1\0\x02\x01s\0\x1e\0\0\0org.freedesktop.login1.Manager\0\0\x03\x01s\0\x07\0\0\0CanHalt\0",
        event: b"call 2 7 can halt",
    },
    Case {
        bytes: b"l\x01\0\x01\0\0\0\0\x07\0\0\0[\0\0\0\x01\x01o\0\x17\0\0\0/org/freedesktop/login1\0\x02\x01s\0\x1e\0\0\0org.freedesktop.login1.Manager\0\0\x03\x01s\0\x0a\0\0\0CanSuspend\0\0\0\0\0\0",
        event: b"call 2 7 can suspend",
    },
    Case {
        bytes: b"l\x01\0\x01\0\0\0\0\x07\0\0\0]\0\0\0\x01\x01o\0\x17\0\0\0/org/freedesktop/login1\0\x02\x01s\0\x1e\0\0\0org.freedesktop.login1.Manager\0\0\x03\x01s\0\x0c\0\0\0CanHibernate\0\0\0\0",
        event: b"call 2 7 can hibernate",
    },
    Case {
        bytes: b"l\x01\0\x01\0\0\0\0\x07\0\0\0_\0\0\0\x01\x01o\0\x17\0\0\0/org/freedesktop/login1\0\x02\x01s\0\x1e\0\0\0org.freedesktop.login1.Manager\0\0\x03\x01s\0\x0e\0\0\0CanHybridSleep\0\0",
        event: b"call 2 7 can hybrid-sleep",
    },
    Case {
        bytes: b"l\x01\0\x01\0\0\0\0\x07\0\0\0h\0\0\0\x01\x01o\0\x17\0\0\0/org/freedesktop/login1\0\x02\x01s\0\x1e\0\0\0org.freedesktop.login1.Manager\0\0\x03\x01s\0\x17\0\0\0CanSuspendThenHibernate\0",
        event: b"call 2 7 can suspend-then-hibernate",
    },
    Case {
        bytes: b"l\x01\0\x012\0\0\0\x07\0\0\0h\0\0\0\x01\x01o\0\x17\0\0\0/org/freedesktop/login1\0\x02\x01s\0\x1e\0\0\0org.freedesktop.login1.Manager\0\0\x08\x01g\0\x04ssss\0\0\0\0\0\0\0\x03\x01s\0\x07\0\0\0Inhibit\0\x0a\0\0\0sleep:idle\0\0\x02\0\0\0me\0\0\x08\0\0\0a reason\0\0\0\0\x05\0\0\0block\0",
        event: b"call 2 7 inhibit sleep:idle me a%20reason block",
    },
];

/// Each method of sessions, of seats, of users and of the machine, and ids that are escaped.
pub const OBJECTS: &[Case] = &[
    Case {
        bytes: b"l\x01\0\x01\0\0\0\0\x07\0\0\0j\0\0\0\x01\x01o\0\"\0\0\0/org/freedesktop/login1/session/c1\0\0\0\0\0\0\x02\x01s\0\x1e\0\0\0org.freedesktop.login1.Session\0\0\x03\x01s\0\x09\0\0\0Terminate\0\0\0\0\0\0\0",
        event: b"call 2 7 terminate c1",
    },
    Case {
        bytes: b"l\x01\0\x01\0\0\0\0\x07\0\0\0i\0\0\0\x01\x01o\0\"\0\0\0/org/freedesktop/login1/session/c1\0\0\0\0\0\0\x02\x01s\0\x1e\0\0\0org.freedesktop.login1.Session\0\0\x03\x01s\0\x08\0\0\0Activate\0\0\0\0\0\0\0\0",
        event: b"call 2 7 activate c1",
    },
    Case {
        bytes: b"l\x01\0\x01\0\0\0\0\x07\0\0\0e\0\0\0\x01\x01o\0\"\0\0\0/org/freedesktop/login1/session/c1\0\0\0\0\0\0\x02\x01s\0\x1e\0\0\0org.freedesktop.login1.Session\0\0\x03\x01s\0\x04\0\0\0Lock\0\0\0\0",
        event: b"call 2 7 lock c1",
    },
    Case {
        bytes: b"l\x01\0\x01\0\0\0\0\x07\0\0\0g\0\0\0\x01\x01o\0\"\0\0\0/org/freedesktop/login1/session/c1\0\0\0\0\0\0\x02\x01s\0\x1e\0\0\0org.freedesktop.login1.Session\0\0\x03\x01s\0\x06\0\0\0Unlock\0\0",
        event: b"call 2 7 unlock c1",
    },
    Case {
        bytes: b"l\x01\0\x01\x0c\0\0\0\x07\0\0\0m\0\0\0\x01\x01o\0\"\0\0\0/org/freedesktop/login1/session/c1\0\0\0\0\0\0\x02\x01s\0\x1e\0\0\0org.freedesktop.login1.Session\0\0\x08\x01g\0\x02si\0\x03\x01s\0\x04\0\0\0Kill\0\0\0\0\x03\0\0\0all\0\x09\0\0\0",
        event: b"call 2 7 kill c1 all 9",
    },
    Case {
        bytes: b"l\x01\0\x01\x04\0\0\0\x07\0\0\0t\0\0\0\x01\x01o\0\"\0\0\0/org/freedesktop/login1/session/c1\0\0\0\0\0\0\x02\x01s\0\x1e\0\0\0org.freedesktop.login1.Session\0\0\x08\x01g\0\x01b\0\0\x03\x01s\0\x0b\0\0\0SetIdleHint\0\0\0\0\0\x01\0\0\0",
        event: b"call 2 7 idle c1 true",
    },
    Case {
        bytes: b"l\x01\0\x01\x04\0\0\0\x07\0\0\0v\0\0\0\x01\x01o\0\"\0\0\0/org/freedesktop/login1/session/c1\0\0\0\0\0\0\x02\x01s\0\x1e\0\0\0org.freedesktop.login1.Session\0\0\x08\x01g\0\x01b\0\0\x03\x01s\0\x0d\0\0\0SetLockedHint\0\0\0\0\0\0\0",
        event: b"call 2 7 locked c1 false",
    },
    Case {
        bytes: b"l\x01\0\x01\x04\0\0\0\x07\0\0\0t\0\0\0\x01\x01o\0\"\0\0\0/org/freedesktop/login1/session/c1\0\0\0\0\0\0\x02\x01s\0\x1e\0\0\0org.freedesktop.login1.Session\0\0\x08\x01g\0\x01b\0\0\x03\x01s\0\x0b\0\0\0TakeControl\0\0\0\0\0\0\0\0\0",
        event: b"call 2 7 control c1 false",
    },
    Case {
        bytes: b"l\x01\0\x01\0\0\0\0\x07\0\0\0o\0\0\0\x01\x01o\0\"\0\0\0/org/freedesktop/login1/session/c1\0\0\0\0\0\0\x02\x01s\0\x1e\0\0\0org.freedesktop.login1.Session\0\0\x03\x01s\0\x0e\0\0\0ReleaseControl\0\0",
        event: b"call 2 7 uncontrol c1",
    },
    Case {
        bytes: b"l\x01\0\x01\x08\0\0\0\x07\0\0\0s\0\0\0\x01\x01o\0\"\0\0\0/org/freedesktop/login1/session/c1\0\0\0\0\0\0\x02\x01s\0\x1e\0\0\0org.freedesktop.login1.Session\0\0\x08\x01g\0\x02uu\0\x03\x01s\0\x0a\0\0\0TakeDevice\0\0\0\0\0\0\x0d\0\0\0@\0\0\0",
        event: b"call 2 7 take c1 13 64",
    },
    Case {
        bytes: b"l\x01\0\x01\x08\0\0\0\x07\0\0\0v\0\0\0\x01\x01o\0\"\0\0\0/org/freedesktop/login1/session/c1\0\0\0\0\0\0\x02\x01s\0\x1e\0\0\0org.freedesktop.login1.Session\0\0\x08\x01g\0\x02uu\0\x03\x01s\0\x0d\0\0\0ReleaseDevice\0\0\0\x0d\0\0\0@\0\0\0",
        event: b"call 2 7 release c1 13 64",
    },
    Case {
        bytes: b"l\x01\0\x01\x08\0\0\0\x07\0\0\0|\0\0\0\x01\x01o\0\"\0\0\0/org/freedesktop/login1/session/c1\0\0\0\0\0\0\x02\x01s\0\x1e\0\0\0org.freedesktop.login1.Session\0\0\x08\x01g\0\x02uu\0\x03\x01s\0\x13\0\0\0PauseDeviceComplete\0\0\0\0\0\xe2\0\0\0\0\0\0\0",
        event: b"call 2 7 paused c1 226 0",
    },
    Case {
        bytes: b"l\x01\0\x01\0\0\0\0\x07\0\0\0j\0\0\0\x01\x01o\0\"\0\0\0/org/freedesktop/login1/seat/seat0\0\0\0\0\0\0\x02\x01s\0\x1b\0\0\0org.freedesktop.login1.Seat\0\0\0\0\0\x03\x01s\0\x09\0\0\0Terminate\0\0\0\0\0\0\0",
        event: b"call 2 7 terminate-seat seat0",
    },
    Case {
        bytes: b"l\x01\0\x01\x07\0\0\0\x07\0\0\0x\0\0\0\x01\x01o\0\"\0\0\0/org/freedesktop/login1/seat/seat0\0\0\0\0\0\0\x02\x01s\0\x1b\0\0\0org.freedesktop.login1.Seat\0\0\0\0\0\x08\x01g\0\x01s\0\0\x03\x01s\0\x0f\0\0\0ActivateSession\0\x02\0\0\0c9\0",
        event: b"call 2 7 activate-on c9 seat0",
    },
    Case {
        bytes: b"l\x01\0\x01\x04\0\0\0\x07\0\0\0q\0\0\0\x01\x01o\0\"\0\0\0/org/freedesktop/login1/seat/seat0\0\0\0\0\0\0\x02\x01s\0\x1b\0\0\0org.freedesktop.login1.Seat\0\0\0\0\0\x08\x01g\0\x01u\0\0\x03\x01s\0\x08\0\0\0SwitchTo\0\0\0\0\0\0\0\0\x03\0\0\0",
        event: b"call 2 7 switch seat0 3",
    },
    Case {
        bytes: b"l\x01\0\x01\0\0\0\0\x07\0\0\0m\0\0\0\x01\x01o\0\"\0\0\0/org/freedesktop/login1/seat/seat0\0\0\0\0\0\0\x02\x01s\0\x1b\0\0\0org.freedesktop.login1.Seat\0\0\0\0\0\x03\x01s\0\x0c\0\0\0SwitchToNext\0\0\0\0",
        event: b"call 2 7 next seat0",
    },
    Case {
        bytes: b"l\x01\0\x01\0\0\0\0\x07\0\0\0q\0\0\0\x01\x01o\0\"\0\0\0/org/freedesktop/login1/seat/seat0\0\0\0\0\0\0\x02\x01s\0\x1b\0\0\0org.freedesktop.login1.Seat\0\0\0\0\0\x03\x01s\0\x10\0\0\0SwitchToPrevious\0\0\0\0\0\0\0\0",
        event: b"call 2 7 prev seat0",
    },
    Case {
        bytes: b"l\x01\0\x01\0\0\0\0\x07\0\0\0j\0\0\0\x01\x01o\0\"\0\0\0/org/freedesktop/login1/user/_1000\0\0\0\0\0\0\x02\x01s\0\x1b\0\0\0org.freedesktop.login1.User\0\0\0\0\0\x03\x01s\0\x09\0\0\0Terminate\0\0\0\0\0\0\0",
        event: b"call 2 7 terminate-user 1000",
    },
    Case {
        bytes: b"l\x01\0\x01\x04\0\0\0\x07\0\0\0e\0\0\0\x01\x01o\0\x1f\0\0\0/org/freedesktop/login1/user/_0\0\x02\x01s\0\x1b\0\0\0org.freedesktop.login1.User\0\0\0\0\0\x08\x01g\0\x01i\0\0\x03\x01s\0\x04\0\0\0Kill\0\0\0\0\x0f\0\0\0",
        event: b"call 2 7 kill-user 0 15",
    },
    Case {
        bytes: b"l\x01\0\x01\x04\0\0\0\x07\0\0\0U\0\0\0\x01\x01o\0\x14\0\0\0/login/model/machine\0\0\0\0\x02\x01s\0\x14\0\0\0login.model.Machine1\0\0\0\0\x08\x01g\0\x01u\0\0\x03\x01s\0\x04\0\0\0Read\0\0\0\0\x04\0\0\0",
        event: b"call 2 7 read 4",
    },
    Case {
        bytes: b"l\x01\0\x01\x08\0\0\0\x07\0\0\0X\0\0\0\x01\x01o\0\x14\0\0\0/login/model/machine\0\0\0\0\x02\x01s\0\x14\0\0\0login.model.Machine1\0\0\0\0\x08\x01g\0\x02uu\0\x03\x01s\0\x07\0\0\0SetMode\0\x04\0\0\0\x01\0\0\0",
        event: b"call 2 7 set-mode 4 1",
    },
    Case {
        bytes: b"l\x01\0\x01\x04\0\0\0\x07\0\0\0V\0\0\0\x01\x01o\0\x14\0\0\0/login/model/machine\0\0\0\0\x02\x01s\0\x14\0\0\0login.model.Machine1\0\0\0\0\x08\x01g\0\x01u\0\0\x03\x01s\0\x05\0\0\0Close\0\0\0\xff\xff\xff\xff",
        event: b"call 2 7 close 4294967295",
    },
    Case {
        bytes: b"l\x01\0\x01\0\0\0\0\x07\0\0\0e\0\0\0\x01\x01o\0$\0\0\0/org/freedesktop/login1/session/_331\0\0\0\0\x02\x01s\0\x1e\0\0\0org.freedesktop.login1.Session\0\0\x03\x01s\0\x04\0\0\0Lock\0\0\0\0",
        event: b"call 2 7 lock 31",
    },
    Case {
        bytes: b"l\x01\0\x01\0\0\0\0\x07\0\0\0e\0\0\0\x01\x01o\0!\0\0\0/org/freedesktop/login1/session/_\0\0\0\0\0\0\0\x02\x01s\0\x1e\0\0\0org.freedesktop.login1.Session\0\0\x03\x01s\0\x04\0\0\0Lock\0\0\0\0",
        event: b"call 2 7 lock %",
    },
    Case {
        bytes: b"l\x01\0\x01\0\0\0\0\x07\0\0\0m\0\0\0\x01\x01o\0+\0\0\0/org/freedesktop/login1/session/a_20b_c3_a9\0\0\0\0\0\x02\x01s\0\x1e\0\0\0org.freedesktop.login1.Session\0\0\x03\x01s\0\x04\0\0\0Lock\0\0\0\0",
        event: b"call 2 7 lock a%20b%c3%a9",
    },
    Case {
        bytes: b"l\x01\0\x01\0\0\0\0\x07\0\0\0e\0\0\0\x01\x01o\0#\0\0\0/org/freedesktop/login1/session/_5f\0\0\0\0\0\x02\x01s\0\x1e\0\0\0org.freedesktop.login1.Session\0\0\x03\x01s\0\x04\0\0\0Lock\0\0\0\0",
        event: b"call 2 7 lock _",
    },
    Case {
        bytes: b"l\x01\0\x01\0\0\0\0\x07\0\0\0m\0\0\0\x01\x01o\0%\0\0\0/org/freedesktop/login1/seat/seat_2d1\0\0\0\x02\x01s\0\x1b\0\0\0org.freedesktop.login1.Seat\0\0\0\0\0\x03\x01s\0\x0c\0\0\0SwitchToNext\0\0\0\0",
        event: b"call 2 7 next seat-1",
    },
];

/// Paths that no object has, and one that a user has.
pub const NO_OBJECTS: &[Case] = &[
    Case {
        bytes: b"l\x01\0\x01\0\0\0\0\x07\0\0\0e\0\0\0\x01\x01o\0#\0\0\0/org/freedesktop/login1/session/_41\0\0\0\0\0\x02\x01s\0\x1e\0\0\0org.freedesktop.login1.Session\0\0\x03\x01s\0\x04\0\0\0Lock\0\0\0\0",
        event: b"call 2 7 no-object",
    },
    Case {
        bytes: b"l\x01\0\x01\0\0\0\0\x07\0\0\0e\0\0\0\x01\x01o\0#\0\0\0/org/freedesktop/login1/session/_5F\0\0\0\0\0\x02\x01s\0\x1e\0\0\0org.freedesktop.login1.Session\0\0\x03\x01s\0\x04\0\0\0Lock\0\0\0\0",
        event: b"call 2 7 no-object",
    },
    Case {
        bytes: b"l\x01\0\x01\0\0\0\0\x07\0\0\0e\0\0\0\x01\x01o\0!\0\0\0/org/freedesktop/login1/session/1\0\0\0\0\0\0\0\x02\x01s\0\x1e\0\0\0org.freedesktop.login1.Session\0\0\x03\x01s\0\x04\0\0\0Lock\0\0\0\0",
        event: b"call 2 7 no-object",
    },
    Case {
        bytes: b"l\x01\0\x01\0\0\0\0\x07\0\0\0e\0\0\0\x01\x01o\0#\0\0\0/org/freedesktop/login1/session/c1_\0\0\0\0\0\x02\x01s\0\x1e\0\0\0org.freedesktop.login1.Session\0\0\x03\x01s\0\x04\0\0\0Lock\0\0\0\0",
        event: b"call 2 7 no-object",
    },
    Case {
        bytes: b"l\x01\0\x01\0\0\0\0\x07\0\0\0e\0\0\0\x01\x01o\0#\0\0\0/org/freedesktop/login1/session/_00\0\0\0\0\0\x02\x01s\0\x1e\0\0\0org.freedesktop.login1.Session\0\0\x03\x01s\0\x04\0\0\0Lock\0\0\0\0",
        event: b"call 2 7 no-object",
    },
    Case {
        bytes: b"l\x01\0\x01\0\0\0\0\x07\0\0\0e\0\0\0\x01\x01o\0#\0\0\0/org/freedesktop/login1/session/_ff\0\0\0\0\0\x02\x01s\0\x1e\0\0\0org.freedesktop.login1.Session\0\0\x03\x01s\0\x04\0\0\0Lock\0\0\0\0",
        event: b"call 2 7 no-object",
    },
    Case {
        bytes: b"l\x01\0\x01\0\0\0\0\x07\0\0\0e\0\0\0\x01\x01o\0#\0\0\0/org/freedesktop/login1/session/a_2\0\0\0\0\0\x02\x01s\0\x1e\0\0\0org.freedesktop.login1.Session\0\0\x03\x01s\0\x04\0\0\0Lock\0\0\0\0",
        event: b"call 2 7 no-object",
    },
    Case {
        bytes: b"l\x01\0\x01\0\0\0\0\x07\0\0\0e\0\0\0\x01\x01o\0$\0\0\0/org/freedesktop/login1/session/c1/x\0\0\0\0\x02\x01s\0\x1e\0\0\0org.freedesktop.login1.Session\0\0\x03\x01s\0\x04\0\0\0Lock\0\0\0\0",
        event: b"call 2 7 no-object",
    },
    Case {
        bytes: b"l\x01\0\x01\0\0\0\0\x07\0\0\0j\0\0\0\x01\x01o\0 \0\0\0/org/freedesktop/login1/user/_00\0\0\0\0\0\0\0\0\x02\x01s\0\x1b\0\0\0org.freedesktop.login1.User\0\0\0\0\0\x03\x01s\0\x09\0\0\0Terminate\0\0\0\0\0\0\0",
        event: b"call 2 7 no-object",
    },
    Case {
        bytes: b"l\x01\0\x01\0\0\0\0\x07\0\0\0j\0\0\0\x01\x01o\0 \0\0\0/org/freedesktop/login1/user/_01\0\0\0\0\0\0\0\0\x02\x01s\0\x1b\0\0\0org.freedesktop.login1.User\0\0\0\0\0\x03\x01s\0\x09\0\0\0Terminate\0\0\0\0\0\0\0",
        event: b"call 2 7 no-object",
    },
    Case {
        bytes: b"l\x01\0\x01\0\0\0\0\x07\0\0\0r\0\0\0\x01\x01o\0(\0\0\0/org/freedesktop/login1/user/_4294967296\0\0\0\0\0\0\0\0\x02\x01s\0\x1b\0\0\0org.freedesktop.login1.User\0\0\0\0\0\x03\x01s\0\x09\0\0\0Terminate\0\0\0\0\0\0\0",
        event: b"call 2 7 no-object",
    },
    Case {
        bytes: b"l\x01\0\x01\0\0\0\0\x07\0\0\0b\0\0\0\x01\x01o\0\x1e\0\0\0/org/freedesktop/login1/user/_\0\0\x02\x01s\0\x1b\0\0\0org.freedesktop.login1.User\0\0\0\0\0\x03\x01s\0\x09\0\0\0Terminate\0\0\0\0\0\0\0",
        event: b"call 2 7 no-object",
    },
    Case {
        bytes: b"l\x01\0\x01\0\0\0\0\x07\0\0\0j\0\0\0\x01\x01o\0#\0\0\0/org/freedesktop/login1/user/_1000x\0\0\0\0\0\x02\x01s\0\x1b\0\0\0org.freedesktop.login1.User\0\0\0\0\0\x03\x01s\0\x09\0\0\0Terminate\0\0\0\0\0\0\0",
        event: b"call 2 7 no-object",
    },
    Case {
        bytes: b"l\x01\0\x01\0\0\0\0\x07\0\0\0b\0\0\0\x01\x01o\0\x1f\0\0\0/org/freedesktop/login1/user/_x\0\x02\x01s\0\x1b\0\0\0org.freedesktop.login1.User\0\0\0\0\0\x03\x01s\0\x09\0\0\0Terminate\0\0\0\0\0\0\0",
        event: b"call 2 7 no-object",
    },
    Case {
        bytes: b"l\x01\0\x01\0\0\0\0\x07\0\0\0r\0\0\0\x01\x01o\0(\0\0\0/org/freedesktop/login1/user/_4294967295\0\0\0\0\0\0\0\0\x02\x01s\0\x1b\0\0\0org.freedesktop.login1.User\0\0\0\0\0\x03\x01s\0\x09\0\0\0Terminate\0\0\0\0\0\0\0",
        event: b"call 2 7 terminate-user 4294967295",
    },
    Case {
        bytes: b"l\x01\0\x01\0\0\0\0\x07\0\0\0M\0\0\0\x01\x01o\0\x01\0\0\0/\0\0\0\0\0\0\0\x02\x01s\0\x1e\0\0\0org.freedesktop.login1.Manager\0\0\x03\x01s\0\x0c\0\0\0ListSessions\0\0\0\0",
        event: b"call 2 7 no-object",
    },
    Case {
        bytes: b"l\x01\0\x01\0\0\0\0\x07\0\0\0\x1d\0\0\0\x01\x01o\0\x01\0\0\0/\0\0\0\0\0\0\0\x03\x01s\0\x04\0\0\0Ping\0\0\0\0",
        event: b"call 2 7 no-object",
    },
    Case {
        bytes: b"l\x01\0\x01\0\0\0\0\x07\0\0\0M\0\0\0\x01\x01o\0\x04\0\0\0/org\0\0\0\0\x02\x01s\0\x1e\0\0\0org.freedesktop.login1.Manager\0\0\x03\x01s\0\x0c\0\0\0ListSessions\0\0\0\0",
        event: b"call 2 7 no-object",
    },
    Case {
        bytes: b"l\x01\0\x01\0\0\0\0\x07\0\0\0\x1d\0\0\0\x01\x01o\0\x04\0\0\0/org\0\0\0\0\x03\x01s\0\x04\0\0\0Ping\0\0\0\0",
        event: b"call 2 7 no-object",
    },
    Case {
        bytes: b"l\x01\0\x01\0\0\0\0\x07\0\0\0e\0\0\0\x01\x01o\0\x1f\0\0\0/org/freedesktop/login1/session\0\x02\x01s\0\x1e\0\0\0org.freedesktop.login1.Manager\0\0\x03\x01s\0\x0c\0\0\0ListSessions\0\0\0\0",
        event: b"call 2 7 no-object",
    },
    Case {
        bytes: b"l\x01\0\x01\0\0\0\0\x07\0\0\05\0\0\0\x01\x01o\0\x1f\0\0\0/org/freedesktop/login1/session\0\x03\x01s\0\x04\0\0\0Ping\0\0\0\0",
        event: b"call 2 7 no-object",
    },
    Case {
        bytes: b"l\x01\0\x01\0\0\0\0\x07\0\0\0e\0\0\0\x01\x01o\0\x1c\0\0\0/org/freedesktop/login1/seat\0\0\0\0\x02\x01s\0\x1e\0\0\0org.freedesktop.login1.Manager\0\0\x03\x01s\0\x0c\0\0\0ListSessions\0\0\0\0",
        event: b"call 2 7 no-object",
    },
    Case {
        bytes: b"l\x01\0\x01\0\0\0\0\x07\0\0\05\0\0\0\x01\x01o\0\x1c\0\0\0/org/freedesktop/login1/seat\0\0\0\0\x03\x01s\0\x04\0\0\0Ping\0\0\0\0",
        event: b"call 2 7 no-object",
    },
    Case {
        bytes: b"l\x01\0\x01\0\0\0\0\x07\0\0\0e\0\0\0\x01\x01o\0\x1c\0\0\0/org/freedesktop/login1/user\0\0\0\0\x02\x01s\0\x1e\0\0\0org.freedesktop.login1.Manager\0\0\x03\x01s\0\x0c\0\0\0ListSessions\0\0\0\0",
        event: b"call 2 7 no-object",
    },
    Case {
        bytes: b"l\x01\0\x01\0\0\0\0\x07\0\0\05\0\0\0\x01\x01o\0\x1c\0\0\0/org/freedesktop/login1/user\0\0\0\0\x03\x01s\0\x04\0\0\0Ping\0\0\0\0",
        event: b"call 2 7 no-object",
    },
    Case {
        bytes: b"l\x01\0\x01\0\0\0\0\x07\0\0\0e\0\0\0\x01\x01o\0\x18\0\0\0/org/freedesktop/login1x\0\0\0\0\0\0\0\0\x02\x01s\0\x1e\0\0\0org.freedesktop.login1.Manager\0\0\x03\x01s\0\x0c\0\0\0ListSessions\0\0\0\0",
        event: b"call 2 7 no-object",
    },
    Case {
        bytes: b"l\x01\0\x01\0\0\0\0\x07\0\0\05\0\0\0\x01\x01o\0\x18\0\0\0/org/freedesktop/login1x\0\0\0\0\0\0\0\0\x03\x01s\0\x04\0\0\0Ping\0\0\0\0",
        event: b"call 2 7 no-object",
    },
    Case {
        bytes: b"l\x01\0\x01\0\0\0\0\x07\0\0\0U\0\0\0\x01\x01o\0\x0c\0\0\0/login/model\0\0\0\0\x02\x01s\0\x1e\0\0\0org.freedesktop.login1.Manager\0\0\x03\x01s\0\x0c\0\0\0ListSessions\0\0\0\0",
        event: b"call 2 7 no-object",
    },
    Case {
        bytes: b"l\x01\0\x01\0\0\0\0\x07\0\0\0%\0\0\0\x01\x01o\0\x0c\0\0\0/login/model\0\0\0\0\x03\x01s\0\x04\0\0\0Ping\0\0\0\0",
        event: b"call 2 7 no-object",
    },
    Case {
        bytes: b"l\x01\0\x01\0\0\0\0\x07\0\0\0]\0\0\0\x01\x01o\0\x16\0\0\0/login/model/machine/x\0\0\x02\x01s\0\x1e\0\0\0org.freedesktop.login1.Manager\0\0\x03\x01s\0\x0c\0\0\0ListSessions\0\0\0\0",
        event: b"call 2 7 no-object",
    },
    Case {
        bytes: b"l\x01\0\x01\0\0\0\0\x07\0\0\0-\0\0\0\x01\x01o\0\x16\0\0\0/login/model/machine/x\0\0\x03\x01s\0\x04\0\0\0Ping\0\0\0\0",
        event: b"call 2 7 no-object",
    },
    Case {
        bytes: b"l\x01\0\x01\0\0\0\0\x07\0\0\0m\0\0\0\x01\x01o\0#\0\0\0/org/freedesktop/login1/session1/c1\0\0\0\0\0\x02\x01s\0\x1e\0\0\0org.freedesktop.login1.Manager\0\0\x03\x01s\0\x0c\0\0\0ListSessions\0\0\0\0",
        event: b"call 2 7 no-object",
    },
    Case {
        bytes: b"l\x01\0\x01\0\0\0\0\x07\0\0\0=\0\0\0\x01\x01o\0#\0\0\0/org/freedesktop/login1/session1/c1\0\0\0\0\0\x03\x01s\0\x04\0\0\0Ping\0\0\0\0",
        event: b"call 2 7 no-object",
    },
];

/// Interfaces and members that an object has not, and calls without an interface.
pub const NO_METHODS: &[Case] = &[
    Case {
        bytes: b"l\x01\0\x01\0\0\0\0\x07\0\0\0]\0\0\0\x01\x01o\0\x15\0\0\0/org/freedesktop/DBus\0\0\0\x02\x01s\0\x1e\0\0\0org.freedesktop.login1.Manager\0\0\x03\x01s\0\x0c\0\0\0ListSessions\0\0\0\0",
        event: b"call 2 7 no-method",
    },
    Case {
        bytes: b"l\x01\0\x01\0\0\0\0\x07\0\0\0U\0\0\0\x01\x01o\0\x17\0\0\0/org/freedesktop/login1\0\x02\x01s\0\x1e\0\0\0org.freedesktop.login1.Session\0\0\x03\x01s\0\x04\0\0\0Lock\0\0\0\0",
        event: b"call 2 7 no-method",
    },
    Case {
        bytes: b"l\x01\0\x01\0\0\0\0\x07\0\0\0m\0\0\0\x01\x01o\0\"\0\0\0/org/freedesktop/login1/session/c1\0\0\0\0\0\0\x02\x01s\0\x1e\0\0\0org.freedesktop.login1.Manager\0\0\x03\x01s\0\x0c\0\0\0ListSessions\0\0\0\0",
        event: b"call 2 7 no-method",
    },
    Case {
        bytes: b"l\x01\0\x01\x0f\0\0\0\x07\0\0\0\\\0\0\0\x01\x01o\0\x14\0\0\0/login/model/machine\0\0\0\0\x02\x01s\0\x1f\0\0\0org.freedesktop.DBus.Properties\0\x08\x01g\0\x02ss\0\x03\x01s\0\x03\0\0\0Get\0\0\0\0\0\0\0\0\0\0\0\0\0\x02\0\0\0Id\0",
        event: b"call 2 7 no-method",
    },
    Case {
        bytes: b"l\x01\0\x01\0\0\0\0\x07\0\0\0]\0\0\0\x01\x01o\0\x17\0\0\0/org/freedesktop/login1\0\x02\x01s\0\x1e\0\0\0org.freedesktop.login1.Manager\0\0\x03\x01s\0\x0c\0\0\0listSessions\0\0\0\0",
        event: b"call 2 7 no-method",
    },
    Case {
        bytes: b"l\x01\0\x01\0\0\0\0\x07\0\0\0\\\0\0\0\x01\x01o\0\x17\0\0\0/org/freedesktop/login1\0\x02\x01s\0\x1e\0\0\0org.freedesktop.login1.Manager\0\0\x03\x01s\0\x0b\0\0\0ListSession\0\0\0\0\0",
        event: b"call 2 7 no-method",
    },
    Case {
        bytes: b"l\x01\0\x01\0\0\0\0\x07\0\0\0X\0\0\0\x01\x01o\0\x17\0\0\0/org/freedesktop/login1\0\x02\x01s\0\x1e\0\0\0org.freedesktop.login1.Manager\0\0\x03\x01s\0\x07\0\0\0CanLock\0",
        event: b"call 2 7 no-method",
    },
    Case {
        bytes: b"l\x01\0\x01\0\0\0\0\x07\0\0\0T\0\0\0\x01\x01o\0\x17\0\0\0/org/freedesktop/login1\0\x02\x01s\0\x1e\0\0\0org.freedesktop.login1.Manager\0\0\x03\x01s\0\x03\0\0\0Can\0\0\0\0\0",
        event: b"call 2 7 no-method",
    },
    Case {
        bytes: b"l\x01\0\x01\0\0\0\0\x07\0\0\0U\0\0\0\x01\x01o\0\x17\0\0\0/org/freedesktop/login1\0\x02\x01s\0\x16\0\0\0org.freedesktop.login1\0\0\x03\x01s\0\x0c\0\0\0ListSessions\0\0\0\0",
        event: b"call 2 7 no-method",
    },
    Case {
        bytes: b"l\x01\0\x01\0\0\0\0\x07\0\0\05\0\0\0\x01\x01o\0\x17\0\0\0/org/freedesktop/login1\0\x03\x01s\0\x0c\0\0\0ListSessions\0\0\0\0",
        event: b"call 2 7 list-sessions",
    },
    Case {
        bytes: b"l\x01\0\x01\0\0\0\0\x07\0\0\0=\0\0\0\x01\x01o\0\"\0\0\0/org/freedesktop/login1/session/c1\0\0\0\0\0\0\x03\x01s\0\x04\0\0\0Lock\0\0\0\0",
        event: b"call 2 7 lock c1",
    },
    Case {
        bytes: b"l\x01\0\x01\x04\0\0\0\x07\0\0\06\0\0\0\x01\x01o\0\x14\0\0\0/login/model/machine\0\0\0\0\x08\x01g\0\x01u\0\0\x03\x01s\0\x05\0\0\0Close\0\0\0\x01\0\0\0",
        event: b"call 2 7 close 1",
    },
];

/// Methods of the interfaces that objects have beside their own, with an interface and without.
pub const STANDARD: &[Case] = &[
    Case {
        bytes: b"l\x01\0\x01\0\0\0\0\x07\0\0\0-\0\0\0\x01\x01o\0\x15\0\0\0/org/freedesktop/DBus\0\0\0\x03\x01s\0\x04\0\0\0Ping\0\0\0\0",
        event: b"call 2 7 ping",
    },
    Case {
        bytes: b"l\x01\0\x01\0\0\0\0\x07\0\0\0U\0\0\0\x01\x01o\0\x17\0\0\0/org/freedesktop/login1\0\x02\x01s\0\x19\0\0\0org.freedesktop.DBus.Peer\0\0\0\0\0\0\0\x03\x01s\0\x04\0\0\0Ping\0\0\0\0",
        event: b"call 2 7 ping",
    },
    Case {
        bytes: b"l\x01\0\x01\0\0\0\0\x07\0\0\0e\0\0\0\x01\x01o\0\"\0\0\0/org/freedesktop/login1/session/c1\0\0\0\0\0\0\x02\x01s\0\x19\0\0\0org.freedesktop.DBus.Peer\0\0\0\0\0\0\0\x03\x01s\0\x04\0\0\0Ping\0\0\0\0",
        event: b"call 2 7 ping",
    },
    Case {
        bytes: b"l\x01\0\x01\0\0\0\0\x07\0\0\0E\0\0\0\x01\x01o\0\x02\0\0\0/x\0\0\0\0\0\0\x02\x01s\0\x19\0\0\0org.freedesktop.DBus.Peer\0\0\0\0\0\0\0\x03\x01s\0\x04\0\0\0Ping\0\0\0\0",
        event: b"call 2 7 ping",
    },
    Case {
        bytes: b"l\x01\0\x01\0\0\0\0\x07\0\0\0U\0\0\0\x01\x01o\0\x15\0\0\0/org/freedesktop/DBus\0\0\0\x02\x01s\0\x19\0\0\0org.freedesktop.DBus.Peer\0\0\0\0\0\0\0\x03\x01s\0\x04\0\0\0Ping\0\0\0\0",
        event: b"call 2 7 ping",
    },
    Case {
        bytes: b"l\x01\0\x01+\0\0\0\x07\0\0\0l\0\0\0\x01\x01o\0\"\0\0\0/org/freedesktop/login1/session/c1\0\0\0\0\0\0\x02\x01s\0\x1f\0\0\0org.freedesktop.DBus.Properties\0\x08\x01g\0\x02ss\0\x03\x01s\0\x03\0\0\0Get\0\0\0\0\0\x1e\0\0\0org.freedesktop.login1.Session\0\0\x02\0\0\0Id\0",
        event: b"call 2 7 get /org/freedesktop/login1/session/c1 org.freedesktop.login1.Session Id",
    },
    Case {
        bytes: b"l\x01\0\x01#\0\0\0\x07\0\0\07\0\0\0\x01\x01o\0\x17\0\0\0/org/freedesktop/login1\0\x08\x01g\0\x01s\0\0\x03\x01s\0\x06\0\0\0GetAll\0\0\x1e\0\0\0org.freedesktop.login1.Manager\0",
        event: b"call 2 7 get-all /org/freedesktop/login1 org.freedesktop.login1.Manager",
    },
    Case {
        bytes: b"l\x01\0\x01\0\0\0\0\x07\0\0\0-\0\0\0\x01\x01o\0\x17\0\0\0/org/freedesktop/login1\0\x03\x01s\0\x04\0\0\0Ping\0\0\0\0",
        event: b"call 2 7 ping",
    },
];

/// Arguments of another signature, texts at the limit and beyond it, and arguments that no call keeps.
pub const ARGUMENTS: &[Case] = &[
    Case {
        bytes: b"l\x01\0\x01\0\0\0\0\x07\0\0\0[\0\0\0\x01\x01o\0\x17\0\0\0/org/freedesktop/login1\0\x02\x01s\0\x1e\0\0\0org.freedesktop.login1.Manager\0\0\x03\x01s\0\x0a\0\0\0GetSession\0\0\0\0\0\0",
        event: b"call 2 7 bad-args",
    },
    Case {
        bytes: b"l\x01\0\x01\x0f\0\0\0\x07\0\0\0c\0\0\0\x01\x01o\0\x17\0\0\0/org/freedesktop/login1\0\x02\x01s\0\x1e\0\0\0org.freedesktop.login1.Manager\0\0\x08\x01g\0\x02ss\0\x03\x01s\0\x0a\0\0\0GetSession\0\0\0\0\0\0\x02\0\0\0c1\0\0\x02\0\0\0c1\0",
        event: b"call 2 7 bad-args",
    },
    Case {
        bytes: b"l\x01\0\x01\x04\0\0\0\x07\0\0\0`\0\0\0\x01\x01o\0\x17\0\0\0/org/freedesktop/login1\0\x02\x01s\0\x1e\0\0\0org.freedesktop.login1.Manager\0\0\x08\x01g\0\x01i\0\0\x03\x01s\0\x07\0\0\0GetUser\0\xe8\x03\0\0",
        event: b"call 2 7 bad-args",
    },
    Case {
        bytes: b"l\x01\0\x01\x04\0\0\0\x07\0\0\0`\0\0\0\x01\x01o\0\x17\0\0\0/org/freedesktop/login1\0\x02\x01s\0\x1e\0\0\0org.freedesktop.login1.Manager\0\0\x08\x01g\0\x01h\0\0\x03\x01s\0\x07\0\0\0GetUser\0\0\0\0\0",
        event: b"call 2 7 bad-args",
    },
    Case {
        bytes: b"l\x01\0\x01\x05\0\0\0\x07\0\0\0e\0\0\0\x01\x01o\0\x17\0\0\0/org/freedesktop/login1\0\x02\x01s\0\x1e\0\0\0org.freedesktop.login1.Manager\0\0\x08\x01g\0\x01s\0\0\x03\x01s\0\x0c\0\0\0ListSessions\0\0\0\0\0\0\0\0\0",
        event: b"call 2 7 bad-args",
    },
    Case {
        bytes: b"l\x01\0\x01\x08\0\0\0\x07\0\0\0c\0\0\0\x01\x01o\0\x17\0\0\0/org/freedesktop/login1\0\x02\x01s\0\x1e\0\0\0org.freedesktop.login1.Manager\0\0\x08\x01g\0\x01o\0\0\x03\x01s\0\x0a\0\0\0GetSession\0\0\0\0\0\0\x03\0\0\0/c1\0",
        event: b"call 2 7 bad-args",
    },
    Case {
        bytes: b"l\x01\0\x01\x0b\0\0\0\x07\0\0\0c\0\0\0\x01\x01o\0\x17\0\0\0/org/freedesktop/login1\0\x02\x01s\0\x1e\0\0\0org.freedesktop.login1.Manager\0\0\x08\x01g\0\x01v\0\0\x03\x01s\0\x0a\0\0\0GetSession\0\0\0\0\0\0\x01s\0\0\x02\0\0\0c1\0",
        event: b"call 2 7 bad-args",
    },
    Case {
        bytes: b"l\x01\0\x01\x94\0\0\0\x07\0\0\0v\0\0\0\x01\x01o\0\x17\0\0\0/org/freedesktop/login1\0\x02\x01s\0\x1e\0\0\0org.freedesktop.login1.Manager\0\0\x08\x01g\0\x12uusssssussbssa{sv}\0\x03\x01s\0\x0d\0\0\0CreateSession\0\0\0\xe8\x03\0\0\0\0\0\0\x05\0\0\0login\0\0\0\x03\0\0\0tty\0\x04\0\0\0user\0\0\0\0\x05\0\0\0GNOME\0\0\0\x05\0\0\0seat0\0\0\0\x02\0\0\0\x09\0\0\0/dev/tty2\0\0\0\x02\0\0\0:0\0\0\x01\0\0\0\x04\0\0\0root\0\0\0\0\x04\0\0\0host\0\0\0\0\x14\0\0\0\0\0\0\0\x08\0\0\0Delegate\0\x01b\0\x01\0\0\0",
        event: b"call 2 7 bad-args",
    },
    Case {
        bytes: b"l\x01\0\x01\x80\0\0\0\x07\0\0\0v\0\0\0\x01\x01o\0\x17\0\0\0/org/freedesktop/login1\0\x02\x01s\0\x1e\0\0\0org.freedesktop.login1.Manager\0\0\x08\x01g\0\x12uusssssussbssa(ss)\0\x03\x01s\0\x0d\0\0\0CreateSession\0\0\0\xe8\x03\0\0\0\0\0\0\x05\0\0\0login\0\0\0\x03\0\0\0tty\0\x04\0\0\0user\0\0\0\0\x05\0\0\0GNOME\0\0\0\x05\0\0\0seat0\0\0\0\x02\0\0\0\x09\0\0\0/dev/tty2\0\0\0\x02\0\0\0:0\0\0\x01\0\0\0\x04\0\0\0root\0\0\0\0\x04\0\0\0host\0\0\0\0\0\0\0\0\0\0\0\0",
        event: b"call 2 7 bad-args",
    },
    Case {
        bytes: b"l\x01\0\x01u\0\0\0\x07\0\0\0v\0\0\0\x01\x01o\0\x17\0\0\0/org/freedesktop/login1\0\x02\x01s\0\x1e\0\0\0org.freedesktop.login1.Manager\0\0\x08\x01g\0\x0duusssssussbss\0\0\0\0\0\0\x03\x01s\0\x0d\0\0\0CreateSession\0\0\0\xe8\x03\0\0\0\0\0\0\x05\0\0\0login\0\0\0\x03\0\0\0tty\0\x04\0\0\0user\0\0\0\0\x05\0\0\0GNOME\0\0\0\x05\0\0\0seat0\0\0\0\x02\0\0\0\x09\0\0\0/dev/tty2\0\0\0\x02\0\0\0:0\0\0\x01\0\0\0\x04\0\0\0root\0\0\0\0\x04\0\0\0host\0",
        event: b"call 2 7 bad-args",
    },
    Case {
        bytes: b"l\x01\0\x01\x14\0\0\0\x07\0\0\0u\0\0\0\x01\x01o\0\"\0\0\0/org/freedesktop/login1/session/c1\0\0\0\0\0\0\x02\x01s\0\x1e\0\0\0org.freedesktop.login1.Session\0\0\x08\x01g\0\x03ssi\0\0\0\0\0\0\0\0\x03\x01s\0\x04\0\0\0Kill\0\0\0\0\x02\0\0\0c1\0\0\x03\0\0\0all\0\x09\0\0\0",
        event: b"call 2 7 bad-args",
    },
    Case {
        bytes: b"l\x01\0\x01\x05\x02\0\0\x07\0\0\0c\0\0\0\x01\x01o\0\x17\0\0\0/org/freedesktop/login1\0\x02\x01s\0\x1e\0\0\0org.freedesktop.login1.Manager\0\0\x08\x01g\0\x01s\0\0\x03\x01s\0\x0a\0\0\0GetSession\0\0\0\0\0\0\0\x02\0\0xxxxxxxxxxxxxxxxxxxxxxxxxxxxxxxxxxxxxxxxxxxxxxxxxxxxxxxxxxxxxxxxxxxxxxxxxxxxxxxxxxxxxxxxxxxxxxxxxxxxxxxxxxxxxxxxxxxxxxxxxxxxxxxxxxxxxxxxxxxxxxxxxxxxxxxxxxxxxxxxxxxxxxxxxxxxxxxxxxxxxxxxxxxxxxxxxxxxxxxxxxxxxxxxxxxxxxxxxxxxxxxxxxxxxxxxxxxxxxxxxxxxxxxxxxxxxxxxxxxxxxxxxxxxxxxxxxxxxxxxxxxxxxxxxxxxxxxxxxxxxxxxxxxxxxxxxxxxxxxxxxxxxxxxxxxxxxxxxxxxxxxxxxxxxxxxxxxxxxxxxxxxxxxxxxxxxxxxxxxxxxxxxxxxxxxxxxxxxxxxxxxxxxxxxxxxxxxxxxxxxxxxxxxxxxxxxxxxxxxxxxxxxxxxxxxxxxxxxxxxxxxxxxxxxxxxxxxxxxxxxxxxxxxxxxxxxxxxxxxxxxxxxxxxxxxx\0",
        event: b"call 2 7 get-session xxxxxxxxxxxxxxxxxxxxxxxxxxxxxxxxxxxxxxxxxxxxxxxxxxxxxxxxxxxxxxxxxxxxxxxxxxxxxxxxxxxxxxxxxxxxxxxxxxxxxxxxxxxxxxxxxxxxxxxxxxxxxxxxxxxxxxxxxxxxxxxxxxxxxxxxxxxxxxxxxxxxxxxxxxxxxxxxxxxxxxxxxxxxxxxxxxxxxxxxxxxxxxxxxxxxxxxxxxxxxxxxxxxxxxxxxxxxxxxxxxxxxxxxxxxxxxxxxxxxxxxxxxxxxxxxxxxxxxxxxxxxxxxxxxxxxxxxxxxxxxxxxxxxxxxxxxxxxxxxxxxxxxxxxxxxxxxxxxxxxxxxxxxxxxxxxxxxxxxxxxxxxxxxxxxxxxxxxxxxxxxxxxxxxxxxxxxxxxxxxxxxxxxxxxxxxxxxxxxxxxxxxxxxxxxxxxxxxxxxxxxxxxxxxxxxxxxxxxxxxxxxxxxxxxxxxxxxxxxxxxxxxxxxxxxxxxxxxxxxxxxxxxxxxxxx",
    },
    Case {
        bytes: b"l\x01\0\x01\x06\x02\0\0\x07\0\0\0c\0\0\0\x01\x01o\0\x17\0\0\0/org/freedesktop/login1\0\x02\x01s\0\x1e\0\0\0org.freedesktop.login1.Manager\0\0\x08\x01g\0\x01s\0\0\x03\x01s\0\x0a\0\0\0GetSession\0\0\0\0\0\0\x01\x02\0\0xxxxxxxxxxxxxxxxxxxxxxxxxxxxxxxxxxxxxxxxxxxxxxxxxxxxxxxxxxxxxxxxxxxxxxxxxxxxxxxxxxxxxxxxxxxxxxxxxxxxxxxxxxxxxxxxxxxxxxxxxxxxxxxxxxxxxxxxxxxxxxxxxxxxxxxxxxxxxxxxxxxxxxxxxxxxxxxxxxxxxxxxxxxxxxxxxxxxxxxxxxxxxxxxxxxxxxxxxxxxxxxxxxxxxxxxxxxxxxxxxxxxxxxxxxxxxxxxxxxxxxxxxxxxxxxxxxxxxxxxxxxxxxxxxxxxxxxxxxxxxxxxxxxxxxxxxxxxxxxxxxxxxxxxxxxxxxxxxxxxxxxxxxxxxxxxxxxxxxxxxxxxxxxxxxxxxxxxxxxxxxxxxxxxxxxxxxxxxxxxxxxxxxxxxxxxxxxxxxxxxxxxxxxxxxxxxxxxxxxxxxxxxxxxxxxxxxxxxxxxxxxxxxxxxxxxxxxxxxxxxxxxxxxxxxxxxxxxxxxxxxxxxxxxxxxxx\0",
        event: b"call 2 7 bad-args",
    },
    Case {
        bytes: b"l\x01\0\x01&\x02\0\0\x07\0\0\0h\0\0\0\x01\x01o\0\x17\0\0\0/org/freedesktop/login1\0\x02\x01s\0\x1e\0\0\0org.freedesktop.login1.Manager\0\0\x08\x01g\0\x04ssss\0\0\0\0\0\0\0\x03\x01s\0\x07\0\0\0Inhibit\0\x05\0\0\0sleep\0\0\0\0\0\0\0\0\0\0\0\x01\x02\0\0xxxxxxxxxxxxxxxxxxxxxxxxxxxxxxxxxxxxxxxxxxxxxxxxxxxxxxxxxxxxxxxxxxxxxxxxxxxxxxxxxxxxxxxxxxxxxxxxxxxxxxxxxxxxxxxxxxxxxxxxxxxxxxxxxxxxxxxxxxxxxxxxxxxxxxxxxxxxxxxxxxxxxxxxxxxxxxxxxxxxxxxxxxxxxxxxxxxxxxxxxxxxxxxxxxxxxxxxxxxxxxxxxxxxxxxxxxxxxxxxxxxxxxxxxxxxxxxxxxxxxxxxxxxxxxxxxxxxxxxxxxxxxxxxxxxxxxxxxxxxxxxxxxxxxxxxxxxxxxxxxxxxxxxxxxxxxxxxxxxxxxxxxxxxxxxxxxxxxxxxxxxxxxxxxxxxxxxxxxxxxxxxxxxxxxxxxxxxxxxxxxxxxxxxxxxxxxxxxxxxxxxxxxxxxxxxxxxxxxxxxxxxxxxxxxxxxxxxxxxxxxxxxxxxxxxxxxxxxxxxxxxxxxxxxxxxxxxxxxxxxxxxxxxxxxxxx\0\0\0\x05\0\0\0block\0",
        event: b"call 2 7 bad-args",
    },
    Case {
        bytes: b"l\x01\0\x01\0\0\0\0\x07\0\0\0e\x02\0\0\x01\x01o\0 \x02\0\0/org/freedesktop/login1/session/xxxxxxxxxxxxxxxxxxxxxxxxxxxxxxxxxxxxxxxxxxxxxxxxxxxxxxxxxxxxxxxxxxxxxxxxxxxxxxxxxxxxxxxxxxxxxxxxxxxxxxxxxxxxxxxxxxxxxxxxxxxxxxxxxxxxxxxxxxxxxxxxxxxxxxxxxxxxxxxxxxxxxxxxxxxxxxxxxxxxxxxxxxxxxxxxxxxxxxxxxxxxxxxxxxxxxxxxxxxxxxxxxxxxxxxxxxxxxxxxxxxxxxxxxxxxxxxxxxxxxxxxxxxxxxxxxxxxxxxxxxxxxxxxxxxxxxxxxxxxxxxxxxxxxxxxxxxxxxxxxxxxxxxxxxxxxxxxxxxxxxxxxxxxxxxxxxxxxxxxxxxxxxxxxxxxxxxxxxxxxxxxxxxxxxxxxxxxxxxxxxxxxxxxxxxxxxxxxxxxxxxxxxxxxxxxxxxxxxxxxxxxxxxxxxxxxxxxxxxxxxxxxxxxxxxxxxxxxxxxxxxxxxxxxxxxxxxxxxxxxxxxxxxxxxxx\0\0\0\0\0\0\0\0\x02\x01s\0\x1e\0\0\0org.freedesktop.login1.Session\0\0\x03\x01s\0\x04\0\0\0Lock\0\0\0\0",
        event: b"call 2 7 lock xxxxxxxxxxxxxxxxxxxxxxxxxxxxxxxxxxxxxxxxxxxxxxxxxxxxxxxxxxxxxxxxxxxxxxxxxxxxxxxxxxxxxxxxxxxxxxxxxxxxxxxxxxxxxxxxxxxxxxxxxxxxxxxxxxxxxxxxxxxxxxxxxxxxxxxxxxxxxxxxxxxxxxxxxxxxxxxxxxxxxxxxxxxxxxxxxxxxxxxxxxxxxxxxxxxxxxxxxxxxxxxxxxxxxxxxxxxxxxxxxxxxxxxxxxxxxxxxxxxxxxxxxxxxxxxxxxxxxxxxxxxxxxxxxxxxxxxxxxxxxxxxxxxxxxxxxxxxxxxxxxxxxxxxxxxxxxxxxxxxxxxxxxxxxxxxxxxxxxxxxxxxxxxxxxxxxxxxxxxxxxxxxxxxxxxxxxxxxxxxxxxxxxxxxxxxxxxxxxxxxxxxxxxxxxxxxxxxxxxxxxxxxxxxxxxxxxxxxxxxxxxxxxxxxxxxxxxxxxxxxxxxxxxxxxxxxxxxxxxxxxxxxxxxxxxx",
    },
    Case {
        bytes: b"l\x01\0\x01\0\0\0\0\x07\0\0\0e\x02\0\0\x01\x01o\0!\x02\0\0/org/freedesktop/login1/session/xxxxxxxxxxxxxxxxxxxxxxxxxxxxxxxxxxxxxxxxxxxxxxxxxxxxxxxxxxxxxxxxxxxxxxxxxxxxxxxxxxxxxxxxxxxxxxxxxxxxxxxxxxxxxxxxxxxxxxxxxxxxxxxxxxxxxxxxxxxxxxxxxxxxxxxxxxxxxxxxxxxxxxxxxxxxxxxxxxxxxxxxxxxxxxxxxxxxxxxxxxxxxxxxxxxxxxxxxxxxxxxxxxxxxxxxxxxxxxxxxxxxxxxxxxxxxxxxxxxxxxxxxxxxxxxxxxxxxxxxxxxxxxxxxxxxxxxxxxxxxxxxxxxxxxxxxxxxxxxxxxxxxxxxxxxxxxxxxxxxxxxxxxxxxxxxxxxxxxxxxxxxxxxxxxxxxxxxxxxxxxxxxxxxxxxxxxxxxxxxxxxxxxxxxxxxxxxxxxxxxxxxxxxxxxxxxxxxxxxxxxxxxxxxxxxxxxxxxxxxxxxxxxxxxxxxxxxxxxxxxxxxxxxxxxxxxxxxxxxxxxxxxxxxxxxxx\0\0\0\0\0\0\0\x02\x01s\0\x1e\0\0\0org.freedesktop.login1.Session\0\0\x03\x01s\0\x04\0\0\0Lock\0\0\0\0",
        event: b"call 2 7 bad-args",
    },
    Case {
        bytes: b"l\x01\0\x01\0\0\0\0\x07\0\0\0e\x02\0\0\x01\x01o\0\x1e\x02\0\0/org/freedesktop/login1/seat/xxxxxxxxxxxxxxxxxxxxxxxxxxxxxxxxxxxxxxxxxxxxxxxxxxxxxxxxxxxxxxxxxxxxxxxxxxxxxxxxxxxxxxxxxxxxxxxxxxxxxxxxxxxxxxxxxxxxxxxxxxxxxxxxxxxxxxxxxxxxxxxxxxxxxxxxxxxxxxxxxxxxxxxxxxxxxxxxxxxxxxxxxxxxxxxxxxxxxxxxxxxxxxxxxxxxxxxxxxxxxxxxxxxxxxxxxxxxxxxxxxxxxxxxxxxxxxxxxxxxxxxxxxxxxxxxxxxxxxxxxxxxxxxxxxxxxxxxxxxxxxxxxxxxxxxxxxxxxxxxxxxxxxxxxxxxxxxxxxxxxxxxxxxxxxxxxxxxxxxxxxxxxxxxxxxxxxxxxxxxxxxxxxxxxxxxxxxxxxxxxxxxxxxxxxxxxxxxxxxxxxxxxxxxxxxxxxxxxxxxxxxxxxxxxxxxxxxxxxxxxxxxxxxxxxxxxxxxxxxxxxxxxxxxxxxxxxxxxxxxxxxxxxxxxxxxx\0\0\x02\x01s\0\x1b\0\0\0org.freedesktop.login1.Seat\0\0\0\0\0\x03\x01s\0\x0c\0\0\0SwitchToNext\0\0\0\0",
        event: b"call 2 7 bad-args",
    },
    Case {
        bytes: b"l\x01\0\x01\0\0\0\0\x07\0\0\0e\x06\0\0\x01\x01o\0 \x06\0\0/org/freedesktop/login1/session/_2d_2d_2d_2d_2d_2d_2d_2d_2d_2d_2d_2d_2d_2d_2d_2d_2d_2d_2d_2d_2d_2d_2d_2d_2d_2d_2d_2d_2d_2d_2d_2d_2d_2d_2d_2d_2d_2d_2d_2d_2d_2d_2d_2d_2d_2d_2d_2d_2d_2d_2d_2d_2d_2d_2d_2d_2d_2d_2d_2d_2d_2d_2d_2d_2d_2d_2d_2d_2d_2d_2d_2d_2d_2d_2d_2d_2d_2d_2d_2d_2d_2d_2d_2d_2d_2d_2d_2d_2d_2d_2d_2d_2d_2d_2d_2d_2d_2d_2d_2d_2d_2d_2d_2d_2d_2d_2d_2d_2d_2d_2d_2d_2d_2d_2d_2d_2d_2d_2d_2d_2d_2d_2d_2d_2d_2d_2d_2d_2d_2d_2d_2d_2d_2d_2d_2d_2d_2d_2d_2d_2d_2d_2d_2d_2d_2d_2d_2d_2d_2d_2d_2d_2d_2d_2d_2d_2d_2d_2d_2d_2d_2d_2d_2d_2d_2d_2d_2d_2d_2d_2d_2d_2d_2d_2d_2d_2d_2d_2d_2d_2d_2d_2d_2d_2d_2d_2d_2d_2d_2d_2d_2d_2d_2d_2d_2d_2d_2d_2d_2d_2d_2d_2d_2d_2d_2d_2d_2d_2d_2d_2d_2d_2d_2d_2d_2d_2d_2d_2d_2d_2d_2d_2d_2d_2d_2d_2d_2d_2d_2d_2d_2d_2d_2d_2d_2d_2d_2d_2d_2d_2d_2d_2d_2d_2d_2d_2d_2d_2d_2d_2d_2d_2d_2d_2d_2d_2d_2d_2d_2d_2d_2d_2d_2d_2d_2d_2d_2d_2d_2d_2d_2d_2d_2d_2d_2d_2d_2d_2d_2d_2d_2d_2d_2d_2d_2d_2d_2d_2d_2d_2d_2d_2d_2d_2d_2d_2d_2d_2d_2d_2d_2d_2d_2d_2d_2d_2d_2d_2d_2d_2d_2d_2d_2d_2d_2d_2d_2d_2d_2d_2d_2d_2d_2d_2d_2d_2d_2d_2d_2d_2d_2d_2d_2d_2d_2d_2d_2d_2d_2d_2d_2d_2d_2d_2d_2d_2d_2d_2d_2d_2d_2d_2d_2d_2d_2d_2d_2d_2d_2d_2d_2d_2d_2d_2d_2d_2d_2d_2d_2d_2d_2d_2d_2d_2d_2d_2d_2d_2d_2d_2d_2d_2d_2d_2d_2d_2d_2d_2d_2d_2d_2d_2d_2d_2d_2d_2d_2d_2d_2d_2d_2d_2d_2d_2d_2d_2d_2d_2d_2d_2d_2d_2d_2d_2d_2d_2d_2d_2d_2d_2d_2d_2d_2d_2d_2d_2d_2d_2d_2d_2d_2d_2d_2d_2d_2d_2d_2d_2d_2d_2d_2d_2d_2d_2d_2d_2d_2d_2d_2d_2d_2d_2d_2d_2d_2d_2d_2d_2d_2d_2d_2d_2d_2d_2d_2d_2d_2d_2d_2d_2d_2d_2d_2d_2d_2d_2d_2d_2d_2d_2d_2d_2d_2d_2d_2d_2d_2d_2d_2d_2d_2d_2d_2d_2d_2d_2d_2d_2d_2d_2d_2d_2d_2d_2d_2d_2d_2d_2d_2d_2d_2d\0\0\0\0\0\0\0\0\x02\x01s\0\x1e\0\0\0org.freedesktop.login1.Session\0\0\x03\x01s\0\x04\0\0\0Lock\0\0\0\0",
        event: b"call 2 7 lock --------------------------------------------------------------------------------------------------------------------------------------------------------------------------------------------------------------------------------------------------------------------------------------------------------------------------------------------------------------------------------------------------------------------------------------------------------------------------------------------------------------------------------",
    },
    Case {
        bytes: b"l\x01\0\x01=\x05\0\0\x07\0\0\0v\0\0\0\x01\x01o\0\x17\0\0\0/org/freedesktop/login1\0\x02\x01s\0\x1e\0\0\0org.freedesktop.login1.Manager\0\0\x08\x01g\0\x12uusssssussbssa(sv)\0\x03\x01s\0\x0d\0\0\0CreateSession\0\0\0\xe8\x03\0\0\0\0\0\0\x05\0\0\0login\0\0\0\x03\0\0\0tty\0\x04\0\0\0user\0\0\0\0\x05\0\0\0GNOME\0\0\0\x05\0\0\0seat0\0\0\0\x02\0\0\0\x09\0\0\0/dev/tty2\0\0\0\x02\0\0\0:0\0\0\x01\0\0\0\x04\0\0\0root\0\0\0\0\x04\0\0\0host\0\0\0\0\xbd\x04\0\0\0\0\0\0X\x02\0\0xxxxxxxxxxxxxxxxxxxxxxxxxxxxxxxxxxxxxxxxxxxxxxxxxxxxxxxxxxxxxxxxxxxxxxxxxxxxxxxxxxxxxxxxxxxxxxxxxxxxxxxxxxxxxxxxxxxxxxxxxxxxxxxxxxxxxxxxxxxxxxxxxxxxxxxxxxxxxxxxxxxxxxxxxxxxxxxxxxxxxxxxxxxxxxxxxxxxxxxxxxxxxxxxxxxxxxxxxxxxxxxxxxxxxxxxxxxxxxxxxxxxxxxxxxxxxxxxxxxxxxxxxxxxxxxxxxxxxxxxxxxxxxxxxxxxxxxxxxxxxxxxxxxxxxxxxxxxxxxxxxxxxxxxxxxxxxxxxxxxxxxxxxxxxxxxxxxxxxxxxxxxxxxxxxxxxxxxxxxxxxxxxxxxxxxxxxxxxxxxxxxxxxxxxxxxxxxxxxxxxxxxxxxxxxxxxxxxxxxxxxxxxxxxxxxxxxxxxxxxxxxxxxxxxxxxxxxxxxxxxxxxxxxxxxxxxxxxxxxxxxxxxxxxxxxxxxxxxxxxxxxxxxxxxxxxxxxxxxxxxxxxxxxxxxxxxxxxxxxxxxxxxxxxxxxxxxxxxxxxxxxxxxxxxxxxxxxxxxxx\0\x01s\0X\x02\0\0yyyyyyyyyyyyyyyyyyyyyyyyyyyyyyyyyyyyyyyyyyyyyyyyyyyyyyyyyyyyyyyyyyyyyyyyyyyyyyyyyyyyyyyyyyyyyyyyyyyyyyyyyyyyyyyyyyyyyyyyyyyyyyyyyyyyyyyyyyyyyyyyyyyyyyyyyyyyyyyyyyyyyyyyyyyyyyyyyyyyyyyyyyyyyyyyyyyyyyyyyyyyyyyyyyyyyyyyyyyyyyyyyyyyyyyyyyyyyyyyyyyyyyyyyyyyyyyyyyyyyyyyyyyyyyyyyyyyyyyyyyyyyyyyyyyyyyyyyyyyyyyyyyyyyyyyyyyyyyyyyyyyyyyyyyyyyyyyyyyyyyyyyyyyyyyyyyyyyyyyyyyyyyyyyyyyyyyyyyyyyyyyyyyyyyyyyyyyyyyyyyyyyyyyyyyyyyyyyyyyyyyyyyyyyyyyyyyyyyyyyyyyyyyyyyyyyyyyyyyyyyyyyyyyyyyyyyyyyyyyyyyyyyyyyyyyyyyyyyyyyyyyyyyyyyyyyyyyyyyyyyyyyyyyyyyyyyyyyyyyyyyyyyyyyyyyyyyyyyyyyyyyyyyyyyyyyyyyyyyyyyyyyyyyyyyyyyyyyyyy\0",
        event: b"call 2 7 create 1000 0 login tty user GNOME seat0 2 /dev/tty2 :0 true root host",
    },
    Case {
        bytes: b"l\x01\0\x01{\x01\0\0\x07\0\0\0v\0\0\0\x01\x01o\0\x17\0\0\0/org/freedesktop/login1\0\x02\x01s\0\x1e\0\0\0org.freedesktop.login1.Manager\0\0\x08\x01g\0\x12uusssssussbssa(sv)\0\x03\x01s\0\x0d\0\0\0CreateSession\0\0\0\xe8\x03\0\0\0\0\0\0\x05\0\0\0login\0\0\0\x03\0\0\0tty\0\x04\0\0\0user\0\0\0\0\x05\0\0\0GNOME\0\0\0\x05\0\0\0seat0\0\0\0\x02\0\0\0\x09\0\0\0/dev/tty2\0\0\0\x02\0\0\0:0\0\0\x01\0\0\0\x04\0\0\0root\0\0\0\0\x04\0\0\0host\0\0\0\0\xfb\0\0\0\0\0\0\0\x04\0\0\0Deep\0Ba((((((((((((((((((((((((((((((((y))))))))))))))))))))))))))))))))\0\0\0\0\x09\0\0\0\0\0\0\0\x07\0\0\0\0\0\0\0\x07\0\0\0\0\0\0\0\x05\0\0\0Empty\0\x19aaa(yyyyyyyyyyyyyyyyyyyy)\0\0\0\0\x0c\0\0\0\0\0\0\0\0\0\0\0\0\0\0\0\x05\0\0\0Boxes\0\x01v\0\x01v\0\x02as\0\x0e\0\0\0\x01\0\0\0a\0\0\0\x01\0\0\0b\0\0\0\x05\0\0\0Dicts\0\x0aaa{y(yyy)}\0\0\0\x17\0\0\0\0\0\0\0\x0b\0\0\0\0\0\0\0\x01\0\0\0\0\0\0\0\x01\x02\x03",
        event: b"call 2 7 create 1000 0 login tty user GNOME seat0 2 /dev/tty2 :0 true root host",
    },
    Case {
        bytes: b"l\x01\0\x01;\x01\0\0\x07\0\0\0t\0\0\0\x01\x01o\0\"\0\0\0/org/freedesktop/login1/session/c1\0\0\0\0\0\0\x02\x01s\0\x1f\0\0\0org.freedesktop.DBus.Properties\0\x08\x01g\0\x03ssv\0\0\0\0\0\0\0\0\x03\x01s\0\x03\0\0\0Set\0\0\0\0\0\x1e\0\0\0org.freedesktop.login1.Session\0\0\x08\0\0\0IdleHint\0\x05a(sv)\0\xfb\0\0\0\0\0\0\0\x04\0\0\0Deep\0Ba((((((((((((((((((((((((((((((((y))))))))))))))))))))))))))))))))\0\0\0\0\x09\0\0\0\0\0\0\0\x07\0\0\0\0\0\0\0\x07\0\0\0\0\0\0\0\x05\0\0\0Empty\0\x19aaa(yyyyyyyyyyyyyyyyyyyy)\0\0\0\0\x0c\0\0\0\0\0\0\0\0\0\0\0\0\0\0\0\x05\0\0\0Boxes\0\x01v\0\x01v\0\x02as\0\x0e\0\0\0\x01\0\0\0a\0\0\0\x01\0\0\0b\0\0\0\x05\0\0\0Dicts\0\x0aaa{y(yyy)}\0\0\0\x17\0\0\0\0\0\0\0\x0b\0\0\0\0\0\0\0\x01\0\0\0\0\0\0\0\x01\x02\x03",
        event: b"call 2 7 set /org/freedesktop/login1/session/c1 org.freedesktop.login1.Session IdleHint",
    },
];

/// Calls with further fields, in the other order of bytes and with flags; messages of other kinds.
pub const MESSAGES: &[Case] = &[
    Case {
        bytes: b"l\x01\0\x01\x07\0\0\0\x07\0\0\0\x84\0\0\0\x01\x01o\0\x17\0\0\0/org/freedesktop/login1\0\x02\x01s\0\x1e\0\0\0org.freedesktop.login1.Manager\0\0\x06\x01s\0\x16\0\0\0org.freedesktop.login1\0\0\x08\x01g\0\x01s\0\0\x03\x01s\0\x0b\0\0\0LockSession\0\0\0\0\0\x02\0\0\0c1\0",
        event: b"call 2 7 lock c1",
    },
    Case {
        bytes: b"l\x01\0\x01\x07\0\0\0\x07\0\0\0\x84\0\0\0\x01\x01o\0\x17\0\0\0/org/freedesktop/login1\0\x02\x01s\0\x1e\0\0\0org.freedesktop.login1.Manager\0\0\x06\x01s\0\x11\0\0\0org.example.Other\0\0\0\0\0\0\0\x08\x01g\0\x01s\0\0\x03\x01s\0\x0b\0\0\0LockSession\0\0\0\0\0\x02\0\0\0c1\0",
        event: b"call 2 7 lock c1",
    },
    Case {
        bytes: b"B\x01\0\x01\0\0\0\x18\0\0\0\x07\0\0\0l\x01\x01o\0\0\0\0\x17/org/freedesktop/login1\0\x02\x01s\0\0\0\0\x1eorg.freedesktop.login1.Manager\0\0\x08\x01g\0\x03ssi\0\0\0\0\0\0\0\0\x03\x01s\0\0\0\0\x0bKillSession\0\0\0\0\0\0\0\0\x02c1\0\0\0\0\0\x06leader\0\0\xff\xff\xff\xf1",
        event: b"call 2 7 kill c1 leader -15",
    },
    Case {
        bytes: b"B\x01\0\x01\0\0\0\x08\0\0\0\x07\0\0\0s\x01\x01o\0\0\0\0\"/org/freedesktop/login1/session/c1\0\0\0\0\0\0\x02\x01s\0\0\0\0\x1eorg.freedesktop.login1.Session\0\0\x08\x01g\0\x02uu\0\x03\x01s\0\0\0\0\x0aTakeDevice\0\0\0\0\0\0\0\0\0\x0d\0\0\0@",
        event: b"call 2 7 take c1 13 64",
    },
    Case {
        bytes: b"B\x01\0\x01\0\0\0\xb0\0\0\0\x07\0\0\0v\x01\x01o\0\0\0\0\x17/org/freedesktop/login1\0\x02\x01s\0\0\0\0\x1eorg.freedesktop.login1.Manager\0\0\x08\x01g\0\x12uusssssussbssa(sv)\0\x03\x01s\0\0\0\0\x0dCreateSession\0\0\0\0\0\x03\xe8\0\0\0\0\0\0\0\x05login\0\0\0\0\0\0\x03tty\0\0\0\0\x04user\0\0\0\0\0\0\0\x05GNOME\0\0\0\0\0\0\x05seat0\0\0\0\0\0\0\x02\0\0\0\x09/dev/tty2\0\0\0\0\0\0\x02:0\0\0\0\0\0\x01\0\0\0\x04root\0\0\0\0\0\0\0\x04host\0\0\0\0\0\0\00\0\0\0\0\0\0\0\x08Delegate\0\x01b\0\0\0\0\x01\0\0\0\0\0\0\0\x08TasksMax\0\x01t\0\0\0\0\0\0\0\0\x07",
        event: b"call 2 7 create 1000 0 login tty user GNOME seat0 2 /dev/tty2 :0 true root host",
    },
    Case {
        bytes: b"l\x01\x01\x01\x07\0\0\0\x07\0\0\0d\0\0\0\x01\x01o\0\x17\0\0\0/org/freedesktop/login1\0\x02\x01s\0\x1e\0\0\0org.freedesktop.login1.Manager\0\0\x08\x01g\0\x01s\0\0\x03\x01s\0\x0b\0\0\0LockSession\0\0\0\0\0\x02\0\0\0c1\0",
        event: b"send 2 7 lock c1",
    },
    Case {
        bytes: b"l\x01\x07\x01\x07\0\0\0\x07\0\0\0d\0\0\0\x01\x01o\0\x17\0\0\0/org/freedesktop/login1\0\x02\x01s\0\x1e\0\0\0org.freedesktop.login1.Manager\0\0\x08\x01g\0\x01s\0\0\x03\x01s\0\x0b\0\0\0LockSession\0\0\0\0\0\x02\0\0\0c1\0",
        event: b"send 2 7 lock c1",
    },
    Case {
        bytes: b"l\x01\x06\x01\x07\0\0\0\x07\0\0\0d\0\0\0\x01\x01o\0\x17\0\0\0/org/freedesktop/login1\0\x02\x01s\0\x1e\0\0\0org.freedesktop.login1.Manager\0\0\x08\x01g\0\x01s\0\0\x03\x01s\0\x0b\0\0\0LockSession\0\0\0\0\0\x02\0\0\0c1\0",
        event: b"call 2 7 lock c1",
    },
    Case {
        bytes: b"l\x02\0\x01\0\0\0\0\x07\0\0\0\x08\0\0\0\x05\x01u\0\x03\0\0\0",
        event: b"call 2 7 nothing",
    },
    Case {
        bytes: b"l\x02\x01\x01\0\0\0\0\x07\0\0\0\x08\0\0\0\x05\x01u\0\x03\0\0\0",
        event: b"send 2 7 nothing",
    },
    Case {
        bytes: b"l\x03\0\x01\x07\0\0\0\x07\0\0\00\0\0\0\x04\x01s\0\x11\0\0\0org.example.Error\0\0\0\0\0\0\0\x08\x01g\0\x01s\0\0\x05\x01u\0\x03\0\0\0\x02\0\0\0no\0",
        event: b"call 2 7 nothing",
    },
    Case {
        bytes: b"l\x04\0\x01\0\0\0\0\x07\0\0\0]\0\0\0\x01\x01o\0\x17\0\0\0/org/freedesktop/login1\0\x02\x01s\0\x1e\0\0\0org.freedesktop.login1.Manager\0\0\x03\x01s\0\x0c\0\0\0ListSessions\0\0\0\0",
        event: b"call 2 7 nothing",
    },
    Case {
        bytes: b"l\x04\x01\x01\0\0\0\0\x07\0\0\0]\0\0\0\x01\x01o\0\x17\0\0\0/org/freedesktop/login1\0\x02\x01s\0\x1e\0\0\0org.freedesktop.login1.Manager\0\0\x03\x01s\0\x0c\0\0\0ListSessions\0\0\0\0",
        event: b"send 2 7 nothing",
    },
];
