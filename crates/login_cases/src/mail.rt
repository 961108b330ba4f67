// Mail of connections: the events of each case, and the messages as libdbus 1.14 wrote them.

/// The mail of a connection by the journal of the events on these lines, behind the first messages.
pub struct MailCase {
    pub name: &'static str,
    pub events: &'static [u8],
    pub who: u32,
    pub from: u32,
    pub messages: &'static [u8],
}

/// Each kind of reply and of signal once, each error but those of a limit and of an absent user, and where a mail
/// begins and ends.
pub const CASES: &[MailCase] = &[
    MailCase {
        name: "a session by its id",
        events: b"\
connect 1 0\n\
call 1 1 create 1000 0 login tty user % seat0 1 tty1 % false % %\n\
connect 2 1000\n\
call 2 1 get-session c1",
        who: 2,
        from: 0,
        messages: b"\
l\x02\0\x01'\0\0\0\x01\0\0\0\x1f\0\0\0\x05\x01u\0\x01\0\0\0\x07\x01s\0\x04\0\0\0:1.0\0\0\0\0\x08\x01g\0\x01o\0\0\"\0\0\0/org/freedesktop/login1/session/c1\0",
    },
    MailCase {
        name: "paths",
        events: b"\
connect 1 0\n\
call 1 1 create 1000 0 login tty user % seat0 1 tty1 % false % %\n\
connect 2 0\n\
call 2 1 get-user 1000\n\
call 2 2 get-seat seat0",
        who: 2,
        from: 0,
        messages: b"\
l\x02\0\x01'\0\0\0\x01\0\0\0\x1f\0\0\0\x05\x01u\0\x01\0\0\0\x07\x01s\0\x04\0\0\0:1.0\0\0\0\0\x08\x01g\0\x01o\0\0\"\0\0\0/org/freedesktop/login1/user/_1000\0\
l\x02\0\x01'\0\0\0\x02\0\0\0\x1f\0\0\0\x05\x01u\0\x02\0\0\0\x07\x01s\0\x04\0\0\0:1.0\0\0\0\0\x08\x01g\0\x01o\0\0\"\0\0\0/org/freedesktop/login1/seat/seat0\0",
    },
    MailCase {
        name: "lists",
        events: b"\
connect 1 0\n\
call 1 1 create 1000 0 login tty user % seat0 1 tty1 % false % %\n\
call 1 2 create 1001 0 ssh tty user % % 0 % % true bob far\n\
add 226 1 drm seat-1\n\
connect 2 0\n\
call 2 1 list-sessions\n\
call 2 2 list-users\n\
call 2 3 list-seats\n\
call 2 4 list-inhibitors",
        who: 2,
        from: 0,
        messages: b"\
l\x02\0\x01\x9b\0\0\0\x01\0\0\0&\0\0\0\x05\x01u\0\x01\0\0\0\x07\x01s\0\x04\0\0\0:1.0\0\0\0\0\x08\x01g\0\x08a(susso)\0\0\0\x93\0\0\0\0\0\0\0\x02\0\0\0c1\0\0\xe8\x03\0\0\x05\0\0\0alice\0\0\0\x05\0\0\0seat0\0\0\0\"\0\0\0/org/freedesktop/login1/session/c1\0\0\0\0\0\0\x02\0\0\0c2\0\0\xe9\x03\0\0\x03\0\0\0bob\0\0\0\0\0\0\0\0\0\"\0\0\0/org/freedesktop/login1/session/c2\0\
l\x02\0\x01s\0\0\0\x02\0\0\0$\0\0\0\x05\x01u\0\x02\0\0\0\x07\x01s\0\x04\0\0\0:1.0\0\0\0\0\x08\x01g\0\x06a(uso)\0\0\0\0\0k\0\0\0\0\0\0\0\xe8\x03\0\0\x05\0\0\0alice\0\0\0\"\0\0\0/org/freedesktop/login1/user/_1000\0\0\xe9\x03\0\0\x03\0\0\0bob\0\"\0\0\0/org/freedesktop/login1/user/_1001\0\
l\x02\0\x01s\0\0\0\x03\0\0\0#\0\0\0\x05\x01u\0\x03\0\0\0\x07\x01s\0\x04\0\0\0:1.0\0\0\0\0\x08\x01g\0\x05a(so)\0\0\0\0\0\0k\0\0\0\0\0\0\0\x06\0\0\0seat-1\0\0%\0\0\0/org/freedesktop/login1/seat/seat_2d1\0\0\0\x05\0\0\0seat0\0\0\0\"\0\0\0/org/freedesktop/login1/seat/seat0\0\
l\x02\0\x01\x08\0\0\0\x04\0\0\0'\0\0\0\x05\x01u\0\x04\0\0\0\x07\x01s\0\x04\0\0\0:1.0\0\0\0\0\x08\x01g\0\x09a(ssssuu)\0\0\0\0\0\0\0\0\0\0",
    },
    MailCase {
        name: "locks",
        events: b"\
connect 1 0\n\
connect 2 0\n\
call 2 1 inhibit sleep:shutdown w%20x y delay\n\
call 2 2 inhibit handle-lid-switch:handle-hibernate-key:handle-suspend-key:handle-power-key:idle % % block\n\
call 2 3 list-inhibitors",
        who: 2,
        from: 0,
        messages: b"\
l\x02\0\x01\x04\0\0\0\x01\0\0\0\x1f\0\0\0\x05\x01u\0\x01\0\0\0\x07\x01s\0\x04\0\0\0:1.0\0\0\0\0\x08\x01g\0\x01u\0\0\x01\0\0\0\
l\x02\0\x01\x04\0\0\0\x02\0\0\0\x1f\0\0\0\x05\x01u\0\x02\0\0\0\x07\x01s\0\x04\0\0\0:1.0\0\0\0\0\x08\x01g\0\x01u\0\0\x02\0\0\0\
l\x02\0\x01\xb8\0\0\0\x03\0\0\0'\0\0\0\x05\x01u\0\x03\0\0\0\x07\x01s\0\x04\0\0\0:1.0\0\0\0\0\x08\x01g\0\x09a(ssssuu)\0\0\xb0\0\0\0\0\0\0\0\x0e\0\0\0shutdown:sleep\0\0\x03\0\0\0w x\0\x01\0\0\0y\0\0\0\x05\0\0\0delay\0\0\0\0\0\0\0\x02\0\0\0O\0\0\0idle:handle-power-key:handle-suspend-key:handle-hibernate-key:handle-lid-switch\0\0\0\0\0\0\0\0\0\0\0\0\0\0\0\0\0\x05\0\0\0block\0\0\0\0\0\0\0\x02\0\0\0",
    },
    MailCase {
        name: "what the policy says",
        events: b"\
connect 1 0\n\
call 1 1 create 1000 0 login tty user % seat0 1 tty1 % false % %\n\
connect 2 0\n\
connect 3 1001\n\
call 2 1 can poweroff\n\
call 3 1 can poweroff",
        who: 3,
        from: 0,
        messages: b"\
l\x02\0\x01\x0e\0\0\0\x01\0\0\0\x1f\0\0\0\x05\x01u\0\x01\0\0\0\x07\x01s\0\x04\0\0\0:1.0\0\0\0\0\x08\x01g\0\x01s\0\0\x09\0\0\0challenge\0",
    },
    MailCase {
        name: "devices",
        events: b"\
connect 1 0\n\
call 1 1 create 1000 0 login tty user % seat0 1 tty1 % false % %\n\
add 13 64 evdev seat0\n\
add 226 0 drm seat0\n\
connect 2 1000\n\
call 2 1 control c1 false\n\
call 2 2 take c1 13 64\n\
input 13 64 1 30 -1\n\
input 13 64 65535 65535 2147483647\n\
call 2 3 read 2\n\
call 2 4 read 2\n\
call 2 5 take c1 226 0\n\
call 2 6 release c1 13 64",
        who: 2,
        from: 0,
        messages: b"\
l\x02\0\x01\0\0\0\0\x01\0\0\0\x15\0\0\0\x05\x01u\0\x01\0\0\0\x07\x01s\0\x04\0\0\0:1.0\0\0\0\0\
l\x02\0\x01\x08\0\0\0\x02\0\0\0 \0\0\0\x05\x01u\0\x02\0\0\0\x07\x01s\0\x04\0\0\0:1.0\0\0\0\0\x08\x01g\0\x02ub\0\x02\0\0\0\0\0\0\0\
l\x02\0\x01\x18\0\0\0\x03\0\0\0$\0\0\0\x05\x01u\0\x03\0\0\0\x07\x01s\0\x04\0\0\0:1.0\0\0\0\0\x08\x01g\0\x06a(qqi)\0\0\0\0\0\x10\0\0\0\0\0\0\0\x01\0\x1e\0\xff\xff\xff\xff\xff\xff\xff\xff\xff\xff\xff\x7f\
l\x02\0\x01\x08\0\0\0\x04\0\0\0$\0\0\0\x05\x01u\0\x04\0\0\0\x07\x01s\0\x04\0\0\0:1.0\0\0\0\0\x08\x01g\0\x06a(qqi)\0\0\0\0\0\0\0\0\0\0\0\0\0\
l\x02\0\x01\x08\0\0\0\x05\0\0\0 \0\0\0\x05\x01u\0\x05\0\0\0\x07\x01s\0\x04\0\0\0:1.0\0\0\0\0\x08\x01g\0\x02ub\0\x03\0\0\0\0\0\0\0\
l\x02\0\x01\0\0\0\0\x06\0\0\0\x15\0\0\0\x05\x01u\0\x06\0\0\0\x07\x01s\0\x04\0\0\0:1.0\0\0\0\0",
    },
    MailCase {
        name: "a session is made",
        events: b"\
connect 2 0\n\
call 2 7 create 1000 0 login tty user % seat0 1 tty1 % false % %\n\
call 2 8 create 1001 0 login tty user % % 0 % % false % %",
        who: 2,
        from: 0,
        messages: b"\
l\x02\0\x01`\0\0\0\x01\0\0\0&\0\0\0\x05\x01u\0\x07\0\0\0\x07\x01s\0\x04\0\0\0:1.0\0\0\0\0\x08\x01g\0\x08sosuusub\0\0\0\x02\0\0\0c1\0\0\"\0\0\0/org/freedesktop/login1/session/c1\0\0\x0e\0\0\0/run/user/1000\0\0\x01\0\0\0\xe8\x03\0\0\x05\0\0\0seat0\0\0\0\x01\0\0\0\0\0\0\0\
l\x04\0\x01+\0\0\0\x02\0\0\0p\0\0\0\x01\x01o\0\x17\0\0\0/org/freedesktop/login1\0\x02\x01s\0\x1e\0\0\0org.freedesktop.login1.Manager\0\0\x03\x01s\0\x07\0\0\0UserNew\0\x07\x01s\0\x04\0\0\0:1.0\0\0\0\0\x08\x01g\0\x02uo\0\xe8\x03\0\0\"\0\0\0/org/freedesktop/login1/user/_1000\0\
l\x04\0\x01/\0\0\0\x03\0\0\0x\0\0\0\x01\x01o\0\x17\0\0\0/org/freedesktop/login1\0\x02\x01s\0\x1e\0\0\0org.freedesktop.login1.Manager\0\0\x03\x01s\0\x0a\0\0\0SessionNew\0\0\0\0\0\0\x07\x01s\0\x04\0\0\0:1.0\0\0\0\0\x08\x01g\0\x02so\0\x02\0\0\0c1\0\0\"\0\0\0/org/freedesktop/login1/session/c1\0\
l\x04\0\x01@\0\0\0\x04\0\0\0\x96\0\0\0\x01\x01o\0\"\0\0\0/org/freedesktop/login1/session/c1\0\0\0\0\0\0\x02\x01s\0\x1f\0\0\0org.freedesktop.DBus.Properties\0\x03\x01s\0\x11\0\0\0PropertiesChanged\0\0\0\0\0\0\0\x07\x01s\0\x04\0\0\0:1.0\0\0\0\0\x08\x01g\0\x08sa{sv}as\0\0\0\x1e\0\0\0org.freedesktop.login1.Session\0\0\x14\0\0\0\x06\0\0\0Active\0\x01b\0\0\0\x01\0\0\0\0\0\0\0\
l\x04\0\x01t\0\0\0\x05\0\0\0\x96\0\0\0\x01\x01o\0\"\0\0\0/org/freedesktop/login1/seat/seat0\0\0\0\0\0\0\x02\x01s\0\x1f\0\0\0org.freedesktop.DBus.Properties\0\x03\x01s\0\x11\0\0\0PropertiesChanged\0\0\0\0\0\0\0\x07\x01s\0\x04\0\0\0:1.0\0\0\0\0\x08\x01g\0\x08sa{sv}as\0\0\0\x1b\0\0\0org.freedesktop.login1.Seat\0G\0\0\0\0\0\0\0\x0d\0\0\0ActiveSession\0\x04(so)\0\x02\0\0\0c1\0\0\"\0\0\0/org/freedesktop/login1/session/c1\0\0\0\0\0\0\
l\x02\0\x01\\\0\0\0\x06\0\0\0&\0\0\0\x05\x01u\0\x08\0\0\0\x07\x01s\0\x04\0\0\0:1.0\0\0\0\0\x08\x01g\0\x08sosuusub\0\0\0\x02\0\0\0c2\0\0\"\0\0\0/org/freedesktop/login1/session/c2\0\0\x0e\0\0\0/run/user/1001\0\0\x02\0\0\0\xe9\x03\0\0\0\0\0\0\0\0\0\0\0\0\0\0\0\0\0\0\
l\x04\0\x01+\0\0\0\x07\0\0\0p\0\0\0\x01\x01o\0\x17\0\0\0/org/freedesktop/login1\0\x02\x01s\0\x1e\0\0\0org.freedesktop.login1.Manager\0\0\x03\x01s\0\x07\0\0\0UserNew\0\x07\x01s\0\x04\0\0\0:1.0\0\0\0\0\x08\x01g\0\x02uo\0\xe9\x03\0\0\"\0\0\0/org/freedesktop/login1/user/_1001\0\
l\x04\0\x01/\0\0\0\x08\0\0\0x\0\0\0\x01\x01o\0\x17\0\0\0/org/freedesktop/login1\0\x02\x01s\0\x1e\0\0\0org.freedesktop.login1.Manager\0\0\x03\x01s\0\x0a\0\0\0SessionNew\0\0\0\0\0\0\x07\x01s\0\x04\0\0\0:1.0\0\0\0\0\x08\x01g\0\x02so\0\x02\0\0\0c2\0\0\"\0\0\0/org/freedesktop/login1/session/c2\0",
    },
    MailCase {
        name: "quiet calls and messages that are none have no reply",
        events: b"\
connect 1 0\n\
call 1 1 create 1000 0 login tty user % seat0 1 tty1 % false % %\n\
connect 2 0\n\
send 2 1 get-seat seat0\n\
call 2 2 nothing\n\
send 2 3 lock c1\n\
call 2 4 get-seat seat0",
        who: 2,
        from: 0,
        messages: b"\
l\x04\0\x01\0\0\0\0\x01\0\0\0u\0\0\0\x01\x01o\0\"\0\0\0/org/freedesktop/login1/session/c1\0\0\0\0\0\0\x02\x01s\0\x1e\0\0\0org.freedesktop.login1.Session\0\0\x03\x01s\0\x04\0\0\0Lock\0\0\0\0\x07\x01s\0\x04\0\0\0:1.0\0\0\0\0\
l\x02\0\x01'\0\0\0\x02\0\0\0\x1f\0\0\0\x05\x01u\0\x04\0\0\0\x07\x01s\0\x04\0\0\0:1.0\0\0\0\0\x08\x01g\0\x01o\0\0\"\0\0\0/org/freedesktop/login1/seat/seat0\0",
    },
    MailCase {
        name: "none of before the connect, none of the own disconnect",
        events: b"\
connect 1 0\n\
call 1 1 create 1000 0 login tty user % seat0 1 tty1 % false % %\n\
call 1 2 lock c1\n\
connect 2 0\n\
call 2 1 lock c1\n\
disconnect 2\n\
call 1 3 unlock c1",
        who: 2,
        from: 0,
        messages: b"\
l\x02\0\x01\0\0\0\0\x01\0\0\0\x15\0\0\0\x05\x01u\0\x01\0\0\0\x07\x01s\0\x04\0\0\0:1.0\0\0\0\0\
l\x04\0\x01\0\0\0\0\x02\0\0\0u\0\0\0\x01\x01o\0\"\0\0\0/org/freedesktop/login1/session/c1\0\0\0\0\0\0\x02\x01s\0\x1e\0\0\0org.freedesktop.login1.Session\0\0\x03\x01s\0\x04\0\0\0Lock\0\0\0\0\x07\x01s\0\x04\0\0\0:1.0\0\0\0\0",
    },
    MailCase {
        name: "no mail before a connect",
        events: b"\
connect 1 0\n\
call 1 1 create 1000 0 login tty user % seat0 1 tty1 % false % %",
        who: 2,
        from: 0,
        messages: b"",
    },
    MailCase {
        name: "the first messages are left out",
        events: b"\
connect 2 0\n\
call 2 5 get-seat seat0\n\
call 2 6 get-user 0\n\
call 2 7 get-seat seat1",
        who: 2,
        from: 2,
        messages: b"\
l\x03\0\x01\x1a\0\0\0\x03\0\0\0O\0\0\0\x04\x01s\0!\0\0\0org.freedesktop.login1.NoSuchSeat\0\0\0\0\0\0\0\x05\x01u\0\x07\0\0\0\x07\x01s\0\x04\0\0\0:1.0\0\0\0\0\x08\x01g\0\x01s\0\0\x15\0\0\0rule P06 no-such-seat\0",
    },
    MailCase {
        name: "signals to all",
        events: b"\
connect 1 0\n\
connect 2 1001\n\
add 226 1 drm seat-1\n\
call 1 1 create 1000 0 login tty user % seat0 1 tty1 % false % %\n\
call 1 2 lock c1\n\
call 1 3 unlock c1\n\
call 1 4 terminate c1\n\
exit c1\n\
tick 10000\n\
remove 226 1",
        who: 2,
        from: 0,
        messages: b"\
l\x04\0\x016\0\0\0\x01\0\0\0p\0\0\0\x01\x01o\0\x17\0\0\0/org/freedesktop/login1\0\x02\x01s\0\x1e\0\0\0org.freedesktop.login1.Manager\0\0\x03\x01s\0\x07\0\0\0SeatNew\0\x07\x01s\0\x04\0\0\0:1.0\0\0\0\0\x08\x01g\0\x02so\0\x06\0\0\0seat-1\0\0%\0\0\0/org/freedesktop/login1/seat/seat_2d1\0\
l\x04\0\x01+\0\0\0\x02\0\0\0p\0\0\0\x01\x01o\0\x17\0\0\0/org/freedesktop/login1\0\x02\x01s\0\x1e\0\0\0org.freedesktop.login1.Manager\0\0\x03\x01s\0\x07\0\0\0UserNew\0\x07\x01s\0\x04\0\0\0:1.0\0\0\0\0\x08\x01g\0\x02uo\0\xe8\x03\0\0\"\0\0\0/org/freedesktop/login1/user/_1000\0\
l\x04\0\x01/\0\0\0\x03\0\0\0x\0\0\0\x01\x01o\0\x17\0\0\0/org/freedesktop/login1\0\x02\x01s\0\x1e\0\0\0org.freedesktop.login1.Manager\0\0\x03\x01s\0\x0a\0\0\0SessionNew\0\0\0\0\0\0\x07\x01s\0\x04\0\0\0:1.0\0\0\0\0\x08\x01g\0\x02so\0\x02\0\0\0c1\0\0\"\0\0\0/org/freedesktop/login1/session/c1\0\
l\x04\0\x01@\0\0\0\x04\0\0\0\x96\0\0\0\x01\x01o\0\"\0\0\0/org/freedesktop/login1/session/c1\0\0\0\0\0\0\x02\x01s\0\x1f\0\0\0org.freedesktop.DBus.Properties\0\x03\x01s\0\x11\0\0\0PropertiesChanged\0\0\0\0\0\0\0\x07\x01s\0\x04\0\0\0:1.0\0\0\0\0\x08\x01g\0\x08sa{sv}as\0\0\0\x1e\0\0\0org.freedesktop.login1.Session\0\0\x14\0\0\0\x06\0\0\0Active\0\x01b\0\0\0\x01\0\0\0\0\0\0\0\
l\x04\0\x01t\0\0\0\x05\0\0\0\x96\0\0\0\x01\x01o\0\"\0\0\0/org/freedesktop/login1/seat/seat0\0\0\0\0\0\0\x02\x01s\0\x1f\0\0\0org.freedesktop.DBus.Properties\0\x03\x01s\0\x11\0\0\0PropertiesChanged\0\0\0\0\0\0\0\x07\x01s\0\x04\0\0\0:1.0\0\0\0\0\x08\x01g\0\x08sa{sv}as\0\0\0\x1b\0\0\0org.freedesktop.login1.Seat\0G\0\0\0\0\0\0\0\x0d\0\0\0ActiveSession\0\x04(so)\0\x02\0\0\0c1\0\0\"\0\0\0/org/freedesktop/login1/session/c1\0\0\0\0\0\0\
l\x04\0\x01\0\0\0\0\x06\0\0\0u\0\0\0\x01\x01o\0\"\0\0\0/org/freedesktop/login1/session/c1\0\0\0\0\0\0\x02\x01s\0\x1e\0\0\0org.freedesktop.login1.Session\0\0\x03\x01s\0\x04\0\0\0Lock\0\0\0\0\x07\x01s\0\x04\0\0\0:1.0\0\0\0\0\
l\x04\0\x01\0\0\0\0\x07\0\0\0u\0\0\0\x01\x01o\0\"\0\0\0/org/freedesktop/login1/session/c1\0\0\0\0\0\0\x02\x01s\0\x1e\0\0\0org.freedesktop.login1.Session\0\0\x03\x01s\0\x06\0\0\0Unlock\0\0\x07\x01s\0\x04\0\0\0:1.0\0\0\0\0\
l\x04\0\x01@\0\0\0\x08\0\0\0\x96\0\0\0\x01\x01o\0\"\0\0\0/org/freedesktop/login1/session/c1\0\0\0\0\0\0\x02\x01s\0\x1f\0\0\0org.freedesktop.DBus.Properties\0\x03\x01s\0\x11\0\0\0PropertiesChanged\0\0\0\0\0\0\0\x07\x01s\0\x04\0\0\0:1.0\0\0\0\0\x08\x01g\0\x08sa{sv}as\0\0\0\x1e\0\0\0org.freedesktop.login1.Session\0\0\x14\0\0\0\x06\0\0\0Active\0\x01b\0\0\0\0\0\0\0\0\0\0\0\
l\x04\0\x01T\0\0\0\x09\0\0\0\x96\0\0\0\x01\x01o\0\"\0\0\0/org/freedesktop/login1/seat/seat0\0\0\0\0\0\0\x02\x01s\0\x1f\0\0\0org.freedesktop.DBus.Properties\0\x03\x01s\0\x11\0\0\0PropertiesChanged\0\0\0\0\0\0\0\x07\x01s\0\x04\0\0\0:1.0\0\0\0\0\x08\x01g\0\x08sa{sv}as\0\0\0\x1b\0\0\0org.freedesktop.login1.Seat\0&\0\0\0\0\0\0\0\x0d\0\0\0ActiveSession\0\x04(so)\0\0\0\0\0\0\0\0\0\x01\0\0\0/\0\0\0\0\0\0\0\
l\x04\0\x01/\0\0\0\x0a\0\0\0x\0\0\0\x01\x01o\0\x17\0\0\0/org/freedesktop/login1\0\x02\x01s\0\x1e\0\0\0org.freedesktop.login1.Manager\0\0\x03\x01s\0\x0e\0\0\0SessionRemoved\0\0\x07\x01s\0\x04\0\0\0:1.0\0\0\0\0\x08\x01g\0\x02so\0\x02\0\0\0c1\0\0\"\0\0\0/org/freedesktop/login1/session/c1\0\
l\x04\0\x01+\0\0\0\x0b\0\0\0x\0\0\0\x01\x01o\0\x17\0\0\0/org/freedesktop/login1\0\x02\x01s\0\x1e\0\0\0org.freedesktop.login1.Manager\0\0\x03\x01s\0\x0b\0\0\0UserRemoved\0\0\0\0\0\x07\x01s\0\x04\0\0\0:1.0\0\0\0\0\x08\x01g\0\x02uo\0\xe8\x03\0\0\"\0\0\0/org/freedesktop/login1/user/_1000\0\
l\x04\0\x016\0\0\0\x0c\0\0\0x\0\0\0\x01\x01o\0\x17\0\0\0/org/freedesktop/login1\0\x02\x01s\0\x1e\0\0\0org.freedesktop.login1.Manager\0\0\x03\x01s\0\x0b\0\0\0SeatRemoved\0\0\0\0\0\x07\x01s\0\x04\0\0\0:1.0\0\0\0\0\x08\x01g\0\x02so\0\x06\0\0\0seat-1\0\0%\0\0\0/org/freedesktop/login1/seat/seat_2d1\0",
    },
    MailCase {
        name: "operations",
        events: b"\
connect 1 0\n\
connect 2 0\n\
call 2 1 inhibit sleep a b delay\n\
call 1 1 power suspend\n\
call 2 2 close 1\n\
jobdone\n\
call 1 2 power reboot\n\
jobdone",
        who: 2,
        from: 0,
        messages: b"\
l\x02\0\x01\x04\0\0\0\x01\0\0\0\x1f\0\0\0\x05\x01u\0\x01\0\0\0\x07\x01s\0\x04\0\0\0:1.0\0\0\0\0\x08\x01g\0\x01u\0\0\x01\0\0\0\
l\x04\0\x01\x04\0\0\0\x02\0\0\0w\0\0\0\x01\x01o\0\x17\0\0\0/org/freedesktop/login1\0\x02\x01s\0\x1e\0\0\0org.freedesktop.login1.Manager\0\0\x03\x01s\0\x0f\0\0\0PrepareForSleep\0\x07\x01s\0\x04\0\0\0:1.0\0\0\0\0\x08\x01g\0\x01b\0\0\x01\0\0\0\
l\x02\0\x01\0\0\0\0\x03\0\0\0\x15\0\0\0\x05\x01u\0\x02\0\0\0\x07\x01s\0\x04\0\0\0:1.0\0\0\0\0\
l\x04\0\x01\x04\0\0\0\x04\0\0\0w\0\0\0\x01\x01o\0\x17\0\0\0/org/freedesktop/login1\0\x02\x01s\0\x1e\0\0\0org.freedesktop.login1.Manager\0\0\x03\x01s\0\x0f\0\0\0PrepareForSleep\0\x07\x01s\0\x04\0\0\0:1.0\0\0\0\0\x08\x01g\0\x01b\0\0\0\0\0\0\
l\x04\0\x01\x04\0\0\0\x05\0\0\0\x7f\0\0\0\x01\x01o\0\x17\0\0\0/org/freedesktop/login1\0\x02\x01s\0\x1e\0\0\0org.freedesktop.login1.Manager\0\0\x03\x01s\0\x12\0\0\0PrepareForShutdown\0\0\0\0\0\0\x07\x01s\0\x04\0\0\0:1.0\0\0\0\0\x08\x01g\0\x01b\0\0\x01\0\0\0\
l\x04\0\x01\x04\0\0\0\x06\0\0\0\x7f\0\0\0\x01\x01o\0\x17\0\0\0/org/freedesktop/login1\0\x02\x01s\0\x1e\0\0\0org.freedesktop.login1.Manager\0\0\x03\x01s\0\x12\0\0\0PrepareForShutdown\0\0\0\0\0\0\x07\x01s\0\x04\0\0\0:1.0\0\0\0\0\x08\x01g\0\x01b\0\0\0\0\0\0",
    },
    MailCase {
        name: "a switch, to the session that is left",
        events: b"\
connect 1 0\n\
connect 2 1000\n\
connect 3 1001\n\
add 226 0 drm seat0\n\
add 13 64 evdev seat0\n\
call 1 1 create 1000 2 login wayland user % seat0 1 tty1 % false % %\n\
call 1 2 create 1001 3 login wayland user % seat0 2 tty2 % false % %\n\
call 2 1 control c1 false\n\
call 3 1 control c2 false\n\
call 2 2 take c1 226 0\n\
call 2 3 take c1 13 64\n\
call 3 2 take c2 226 0\n\
call 3 3 take c2 13 64\n\
vtkey 2\n\
call 2 4 paused c1 226 0\n\
call 2 5 paused c1 13 64",
        who: 2,
        from: 0,
        messages: b"\
l\x04\0\x01+\0\0\0\x01\0\0\0p\0\0\0\x01\x01o\0\x17\0\0\0/org/freedesktop/login1\0\x02\x01s\0\x1e\0\0\0org.freedesktop.login1.Manager\0\0\x03\x01s\0\x07\0\0\0UserNew\0\x07\x01s\0\x04\0\0\0:1.0\0\0\0\0\x08\x01g\0\x02uo\0\xe8\x03\0\0\"\0\0\0/org/freedesktop/login1/user/_1000\0\
l\x04\0\x01/\0\0\0\x02\0\0\0x\0\0\0\x01\x01o\0\x17\0\0\0/org/freedesktop/login1\0\x02\x01s\0\x1e\0\0\0org.freedesktop.login1.Manager\0\0\x03\x01s\0\x0a\0\0\0SessionNew\0\0\0\0\0\0\x07\x01s\0\x04\0\0\0:1.0\0\0\0\0\x08\x01g\0\x02so\0\x02\0\0\0c1\0\0\"\0\0\0/org/freedesktop/login1/session/c1\0\
l\x04\0\x01@\0\0\0\x03\0\0\0\x96\0\0\0\x01\x01o\0\"\0\0\0/org/freedesktop/login1/session/c1\0\0\0\0\0\0\x02\x01s\0\x1f\0\0\0org.freedesktop.DBus.Properties\0\x03\x01s\0\x11\0\0\0PropertiesChanged\0\0\0\0\0\0\0\x07\x01s\0\x04\0\0\0:1.0\0\0\0\0\x08\x01g\0\x08sa{sv}as\0\0\0\x1e\0\0\0org.freedesktop.login1.Session\0\0\x14\0\0\0\x06\0\0\0Active\0\x01b\0\0\0\x01\0\0\0\0\0\0\0\
l\x04\0\x01t\0\0\0\x04\0\0\0\x96\0\0\0\x01\x01o\0\"\0\0\0/org/freedesktop/login1/seat/seat0\0\0\0\0\0\0\x02\x01s\0\x1f\0\0\0org.freedesktop.DBus.Properties\0\x03\x01s\0\x11\0\0\0PropertiesChanged\0\0\0\0\0\0\0\x07\x01s\0\x04\0\0\0:1.0\0\0\0\0\x08\x01g\0\x08sa{sv}as\0\0\0\x1b\0\0\0org.freedesktop.login1.Seat\0G\0\0\0\0\0\0\0\x0d\0\0\0ActiveSession\0\x04(so)\0\x02\0\0\0c1\0\0\"\0\0\0/org/freedesktop/login1/session/c1\0\0\0\0\0\0\
l\x04\0\x01+\0\0\0\x05\0\0\0p\0\0\0\x01\x01o\0\x17\0\0\0/org/freedesktop/login1\0\x02\x01s\0\x1e\0\0\0org.freedesktop.login1.Manager\0\0\x03\x01s\0\x07\0\0\0UserNew\0\x07\x01s\0\x04\0\0\0:1.0\0\0\0\0\x08\x01g\0\x02uo\0\xe9\x03\0\0\"\0\0\0/org/freedesktop/login1/user/_1001\0\
l\x04\0\x01/\0\0\0\x06\0\0\0x\0\0\0\x01\x01o\0\x17\0\0\0/org/freedesktop/login1\0\x02\x01s\0\x1e\0\0\0org.freedesktop.login1.Manager\0\0\x03\x01s\0\x0a\0\0\0SessionNew\0\0\0\0\0\0\x07\x01s\0\x04\0\0\0:1.0\0\0\0\0\x08\x01g\0\x02so\0\x02\0\0\0c2\0\0\"\0\0\0/org/freedesktop/login1/session/c2\0\
l\x02\0\x01\0\0\0\0\x07\0\0\0\x15\0\0\0\x05\x01u\0\x01\0\0\0\x07\x01s\0\x04\0\0\0:1.0\0\0\0\0\
l\x02\0\x01\x08\0\0\0\x08\0\0\0 \0\0\0\x05\x01u\0\x02\0\0\0\x07\x01s\0\x04\0\0\0:1.0\0\0\0\0\x08\x01g\0\x02ub\0\x03\0\0\0\0\0\0\0\
l\x02\0\x01\x08\0\0\0\x09\0\0\0 \0\0\0\x05\x01u\0\x03\0\0\0\x07\x01s\0\x04\0\0\0:1.0\0\0\0\0\x08\x01g\0\x02ub\0\x04\0\0\0\0\0\0\0\
l\x04\0\x01\x12\0\0\0\x0a\0\0\0\x89\0\0\0\x01\x01o\0\"\0\0\0/org/freedesktop/login1/session/c1\0\0\0\0\0\0\x02\x01s\0\x1e\0\0\0org.freedesktop.login1.Session\0\0\x03\x01s\0\x0b\0\0\0PauseDevice\0\0\0\0\0\x07\x01s\0\x04\0\0\0:1.0\0\0\0\0\x08\x01g\0\x03uus\0\0\0\0\0\0\0\0\x0d\0\0\0@\0\0\0\x05\0\0\0pause\0\
l\x04\0\x01\x12\0\0\0\x0b\0\0\0\x89\0\0\0\x01\x01o\0\"\0\0\0/org/freedesktop/login1/session/c1\0\0\0\0\0\0\x02\x01s\0\x1e\0\0\0org.freedesktop.login1.Session\0\0\x03\x01s\0\x0b\0\0\0PauseDevice\0\0\0\0\0\x07\x01s\0\x04\0\0\0:1.0\0\0\0\0\x08\x01g\0\x03uus\0\0\0\0\0\0\0\0\xe2\0\0\0\0\0\0\0\x05\0\0\0pause\0\
l\x02\0\x01\0\0\0\0\x0c\0\0\0\x15\0\0\0\x05\x01u\0\x04\0\0\0\x07\x01s\0\x04\0\0\0:1.0\0\0\0\0\
l\x02\0\x01\0\0\0\0\x0d\0\0\0\x15\0\0\0\x05\x01u\0\x05\0\0\0\x07\x01s\0\x04\0\0\0:1.0\0\0\0\0\
l\x04\0\x01@\0\0\0\x0e\0\0\0\x96\0\0\0\x01\x01o\0\"\0\0\0/org/freedesktop/login1/session/c1\0\0\0\0\0\0\x02\x01s\0\x1f\0\0\0org.freedesktop.DBus.Properties\0\x03\x01s\0\x11\0\0\0PropertiesChanged\0\0\0\0\0\0\0\x07\x01s\0\x04\0\0\0:1.0\0\0\0\0\x08\x01g\0\x08sa{sv}as\0\0\0\x1e\0\0\0org.freedesktop.login1.Session\0\0\x14\0\0\0\x06\0\0\0Active\0\x01b\0\0\0\0\0\0\0\0\0\0\0\
l\x04\0\x01@\0\0\0\x0f\0\0\0\x96\0\0\0\x01\x01o\0\"\0\0\0/org/freedesktop/login1/session/c2\0\0\0\0\0\0\x02\x01s\0\x1f\0\0\0org.freedesktop.DBus.Properties\0\x03\x01s\0\x11\0\0\0PropertiesChanged\0\0\0\0\0\0\0\x07\x01s\0\x04\0\0\0:1.0\0\0\0\0\x08\x01g\0\x08sa{sv}as\0\0\0\x1e\0\0\0org.freedesktop.login1.Session\0\0\x14\0\0\0\x06\0\0\0Active\0\x01b\0\0\0\x01\0\0\0\0\0\0\0\
l\x04\0\x01t\0\0\0\x10\0\0\0\x96\0\0\0\x01\x01o\0\"\0\0\0/org/freedesktop/login1/seat/seat0\0\0\0\0\0\0\x02\x01s\0\x1f\0\0\0org.freedesktop.DBus.Properties\0\x03\x01s\0\x11\0\0\0PropertiesChanged\0\0\0\0\0\0\0\x07\x01s\0\x04\0\0\0:1.0\0\0\0\0\x08\x01g\0\x08sa{sv}as\0\0\0\x1b\0\0\0org.freedesktop.login1.Seat\0G\0\0\0\0\0\0\0\x0d\0\0\0ActiveSession\0\x04(so)\0\x02\0\0\0c2\0\0\"\0\0\0/org/freedesktop/login1/session/c2\0\0\0\0\0\0",
    },
    MailCase {
        name: "a switch, to the session that comes",
        events: b"\
connect 1 0\n\
connect 2 1000\n\
connect 3 1001\n\
add 226 0 drm seat0\n\
add 13 64 evdev seat0\n\
call 1 1 create 1000 2 login wayland user % seat0 1 tty1 % false % %\n\
call 1 2 create 1001 3 login wayland user % seat0 2 tty2 % false % %\n\
call 2 1 control c1 false\n\
call 3 1 control c2 false\n\
call 2 2 take c1 226 0\n\
call 2 3 take c1 13 64\n\
call 3 2 take c2 226 0\n\
call 3 3 take c2 13 64\n\
vtkey 2\n\
call 2 4 paused c1 226 0\n\
call 2 5 paused c1 13 64",
        who: 3,
        from: 0,
        messages: b"\
l\x04\0\x01+\0\0\0\x01\0\0\0p\0\0\0\x01\x01o\0\x17\0\0\0/org/freedesktop/login1\0\x02\x01s\0\x1e\0\0\0org.freedesktop.login1.Manager\0\0\x03\x01s\0\x07\0\0\0UserNew\0\x07\x01s\0\x04\0\0\0:1.0\0\0\0\0\x08\x01g\0\x02uo\0\xe8\x03\0\0\"\0\0\0/org/freedesktop/login1/user/_1000\0\
l\x04\0\x01/\0\0\0\x02\0\0\0x\0\0\0\x01\x01o\0\x17\0\0\0/org/freedesktop/login1\0\x02\x01s\0\x1e\0\0\0org.freedesktop.login1.Manager\0\0\x03\x01s\0\x0a\0\0\0SessionNew\0\0\0\0\0\0\x07\x01s\0\x04\0\0\0:1.0\0\0\0\0\x08\x01g\0\x02so\0\x02\0\0\0c1\0\0\"\0\0\0/org/freedesktop/login1/session/c1\0\
l\x04\0\x01@\0\0\0\x03\0\0\0\x96\0\0\0\x01\x01o\0\"\0\0\0/org/freedesktop/login1/session/c1\0\0\0\0\0\0\x02\x01s\0\x1f\0\0\0org.freedesktop.DBus.Properties\0\x03\x01s\0\x11\0\0\0PropertiesChanged\0\0\0\0\0\0\0\x07\x01s\0\x04\0\0\0:1.0\0\0\0\0\x08\x01g\0\x08sa{sv}as\0\0\0\x1e\0\0\0org.freedesktop.login1.Session\0\0\x14\0\0\0\x06\0\0\0Active\0\x01b\0\0\0\x01\0\0\0\0\0\0\0\
l\x04\0\x01t\0\0\0\x04\0\0\0\x96\0\0\0\x01\x01o\0\"\0\0\0/org/freedesktop/login1/seat/seat0\0\0\0\0\0\0\x02\x01s\0\x1f\0\0\0org.freedesktop.DBus.Properties\0\x03\x01s\0\x11\0\0\0PropertiesChanged\0\0\0\0\0\0\0\x07\x01s\0\x04\0\0\0:1.0\0\0\0\0\x08\x01g\0\x08sa{sv}as\0\0\0\x1b\0\0\0org.freedesktop.login1.Seat\0G\0\0\0\0\0\0\0\x0d\0\0\0ActiveSession\0\x04(so)\0\x02\0\0\0c1\0\0\"\0\0\0/org/freedesktop/login1/session/c1\0\0\0\0\0\0\
l\x04\0\x01+\0\0\0\x05\0\0\0p\0\0\0\x01\x01o\0\x17\0\0\0/org/freedesktop/login1\0\x02\x01s\0\x1e\0\0\0org.freedesktop.login1.Manager\0\0\x03\x01s\0\x07\0\0\0UserNew\0\x07\x01s\0\x04\0\0\0:1.0\0\0\0\0\x08\x01g\0\x02uo\0\xe9\x03\0\0\"\0\0\0/org/freedesktop/login1/user/_1001\0\
l\x04\0\x01/\0\0\0\x06\0\0\0x\0\0\0\x01\x01o\0\x17\0\0\0/org/freedesktop/login1\0\x02\x01s\0\x1e\0\0\0org.freedesktop.login1.Manager\0\0\x03\x01s\0\x0a\0\0\0SessionNew\0\0\0\0\0\0\x07\x01s\0\x04\0\0\0:1.0\0\0\0\0\x08\x01g\0\x02so\0\x02\0\0\0c2\0\0\"\0\0\0/org/freedesktop/login1/session/c2\0\
l\x02\0\x01\0\0\0\0\x07\0\0\0\x15\0\0\0\x05\x01u\0\x01\0\0\0\x07\x01s\0\x04\0\0\0:1.0\0\0\0\0\
l\x02\0\x01\x08\0\0\0\x08\0\0\0 \0\0\0\x05\x01u\0\x02\0\0\0\x07\x01s\0\x04\0\0\0:1.0\0\0\0\0\x08\x01g\0\x02ub\0\x05\0\0\0\x01\0\0\0\
l\x02\0\x01\x08\0\0\0\x09\0\0\0 \0\0\0\x05\x01u\0\x03\0\0\0\x07\x01s\0\x04\0\0\0:1.0\0\0\0\0\x08\x01g\0\x02ub\0\x06\0\0\0\x01\0\0\0\
l\x04\0\x01@\0\0\0\x0a\0\0\0\x96\0\0\0\x01\x01o\0\"\0\0\0/org/freedesktop/login1/session/c1\0\0\0\0\0\0\x02\x01s\0\x1f\0\0\0org.freedesktop.DBus.Properties\0\x03\x01s\0\x11\0\0\0PropertiesChanged\0\0\0\0\0\0\0\x07\x01s\0\x04\0\0\0:1.0\0\0\0\0\x08\x01g\0\x08sa{sv}as\0\0\0\x1e\0\0\0org.freedesktop.login1.Session\0\0\x14\0\0\0\x06\0\0\0Active\0\x01b\0\0\0\0\0\0\0\0\0\0\0\
l\x04\0\x01@\0\0\0\x0b\0\0\0\x96\0\0\0\x01\x01o\0\"\0\0\0/org/freedesktop/login1/session/c2\0\0\0\0\0\0\x02\x01s\0\x1f\0\0\0org.freedesktop.DBus.Properties\0\x03\x01s\0\x11\0\0\0PropertiesChanged\0\0\0\0\0\0\0\x07\x01s\0\x04\0\0\0:1.0\0\0\0\0\x08\x01g\0\x08sa{sv}as\0\0\0\x1e\0\0\0org.freedesktop.login1.Session\0\0\x14\0\0\0\x06\0\0\0Active\0\x01b\0\0\0\x01\0\0\0\0\0\0\0\
l\x04\0\x01t\0\0\0\x0c\0\0\0\x96\0\0\0\x01\x01o\0\"\0\0\0/org/freedesktop/login1/seat/seat0\0\0\0\0\0\0\x02\x01s\0\x1f\0\0\0org.freedesktop.DBus.Properties\0\x03\x01s\0\x11\0\0\0PropertiesChanged\0\0\0\0\0\0\0\x07\x01s\0\x04\0\0\0:1.0\0\0\0\0\x08\x01g\0\x08sa{sv}as\0\0\0\x1b\0\0\0org.freedesktop.login1.Seat\0G\0\0\0\0\0\0\0\x0d\0\0\0ActiveSession\0\x04(so)\0\x02\0\0\0c2\0\0\"\0\0\0/org/freedesktop/login1/session/c2\0\0\0\0\0\0\
l\x04\0\x01\x0c\0\0\0\x0d\0\0\0\x89\0\0\0\x01\x01o\0\"\0\0\0/org/freedesktop/login1/session/c2\0\0\0\0\0\0\x02\x01s\0\x1e\0\0\0org.freedesktop.login1.Session\0\0\x03\x01s\0\x0c\0\0\0ResumeDevice\0\0\0\0\x07\x01s\0\x04\0\0\0:1.0\0\0\0\0\x08\x01g\0\x03uuu\0\0\0\0\0\0\0\0\x0d\0\0\0@\0\0\0\x07\0\0\0\
l\x04\0\x01\x0c\0\0\0\x0e\0\0\0\x89\0\0\0\x01\x01o\0\"\0\0\0/org/freedesktop/login1/session/c2\0\0\0\0\0\0\x02\x01s\0\x1e\0\0\0org.freedesktop.login1.Session\0\0\x03\x01s\0\x0c\0\0\0ResumeDevice\0\0\0\0\x07\x01s\0\x04\0\0\0:1.0\0\0\0\0\x08\x01g\0\x03uuu\0\0\0\0\0\0\0\0\xe2\0\0\0\0\0\0\0\x05\0\0\0",
    },
    MailCase {
        name: "a device goes",
        events: b"\
connect 1 0\n\
connect 2 1000\n\
connect 3 1001\n\
add 226 0 drm seat0\n\
add 13 64 evdev seat0\n\
call 1 1 create 1000 2 login wayland user % seat0 1 tty1 % false % %\n\
call 1 2 create 1001 3 login wayland user % seat0 2 tty2 % false % %\n\
call 2 1 control c1 false\n\
call 3 1 control c2 false\n\
call 2 2 take c1 226 0\n\
call 2 3 take c1 13 64\n\
call 3 2 take c2 226 0\n\
call 3 3 take c2 13 64\n\
remove 13 64",
        who: 2,
        from: 0,
        messages: b"\
l\x04\0\x01+\0\0\0\x01\0\0\0p\0\0\0\x01\x01o\0\x17\0\0\0/org/freedesktop/login1\0\x02\x01s\0\x1e\0\0\0org.freedesktop.login1.Manager\0\0\x03\x01s\0\x07\0\0\0UserNew\0\x07\x01s\0\x04\0\0\0:1.0\0\0\0\0\x08\x01g\0\x02uo\0\xe8\x03\0\0\"\0\0\0/org/freedesktop/login1/user/_1000\0\
l\x04\0\x01/\0\0\0\x02\0\0\0x\0\0\0\x01\x01o\0\x17\0\0\0/org/freedesktop/login1\0\x02\x01s\0\x1e\0\0\0org.freedesktop.login1.Manager\0\0\x03\x01s\0\x0a\0\0\0SessionNew\0\0\0\0\0\0\x07\x01s\0\x04\0\0\0:1.0\0\0\0\0\x08\x01g\0\x02so\0\x02\0\0\0c1\0\0\"\0\0\0/org/freedesktop/login1/session/c1\0\
l\x04\0\x01@\0\0\0\x03\0\0\0\x96\0\0\0\x01\x01o\0\"\0\0\0/org/freedesktop/login1/session/c1\0\0\0\0\0\0\x02\x01s\0\x1f\0\0\0org.freedesktop.DBus.Properties\0\x03\x01s\0\x11\0\0\0PropertiesChanged\0\0\0\0\0\0\0\x07\x01s\0\x04\0\0\0:1.0\0\0\0\0\x08\x01g\0\x08sa{sv}as\0\0\0\x1e\0\0\0org.freedesktop.login1.Session\0\0\x14\0\0\0\x06\0\0\0Active\0\x01b\0\0\0\x01\0\0\0\0\0\0\0\
l\x04\0\x01t\0\0\0\x04\0\0\0\x96\0\0\0\x01\x01o\0\"\0\0\0/org/freedesktop/login1/seat/seat0\0\0\0\0\0\0\x02\x01s\0\x1f\0\0\0org.freedesktop.DBus.Properties\0\x03\x01s\0\x11\0\0\0PropertiesChanged\0\0\0\0\0\0\0\x07\x01s\0\x04\0\0\0:1.0\0\0\0\0\x08\x01g\0\x08sa{sv}as\0\0\0\x1b\0\0\0org.freedesktop.login1.Seat\0G\0\0\0\0\0\0\0\x0d\0\0\0ActiveSession\0\x04(so)\0\x02\0\0\0c1\0\0\"\0\0\0/org/freedesktop/login1/session/c1\0\0\0\0\0\0\
l\x04\0\x01+\0\0\0\x05\0\0\0p\0\0\0\x01\x01o\0\x17\0\0\0/org/freedesktop/login1\0\x02\x01s\0\x1e\0\0\0org.freedesktop.login1.Manager\0\0\x03\x01s\0\x07\0\0\0UserNew\0\x07\x01s\0\x04\0\0\0:1.0\0\0\0\0\x08\x01g\0\x02uo\0\xe9\x03\0\0\"\0\0\0/org/freedesktop/login1/user/_1001\0\
l\x04\0\x01/\0\0\0\x06\0\0\0x\0\0\0\x01\x01o\0\x17\0\0\0/org/freedesktop/login1\0\x02\x01s\0\x1e\0\0\0org.freedesktop.login1.Manager\0\0\x03\x01s\0\x0a\0\0\0SessionNew\0\0\0\0\0\0\x07\x01s\0\x04\0\0\0:1.0\0\0\0\0\x08\x01g\0\x02so\0\x02\0\0\0c2\0\0\"\0\0\0/org/freedesktop/login1/session/c2\0\
l\x02\0\x01\0\0\0\0\x07\0\0\0\x15\0\0\0\x05\x01u\0\x01\0\0\0\x07\x01s\0\x04\0\0\0:1.0\0\0\0\0\
l\x02\0\x01\x08\0\0\0\x08\0\0\0 \0\0\0\x05\x01u\0\x02\0\0\0\x07\x01s\0\x04\0\0\0:1.0\0\0\0\0\x08\x01g\0\x02ub\0\x03\0\0\0\0\0\0\0\
l\x02\0\x01\x08\0\0\0\x09\0\0\0 \0\0\0\x05\x01u\0\x03\0\0\0\x07\x01s\0\x04\0\0\0:1.0\0\0\0\0\x08\x01g\0\x02ub\0\x04\0\0\0\0\0\0\0\
l\x04\0\x01\x11\0\0\0\x0a\0\0\0\x89\0\0\0\x01\x01o\0\"\0\0\0/org/freedesktop/login1/session/c1\0\0\0\0\0\0\x02\x01s\0\x1e\0\0\0org.freedesktop.login1.Session\0\0\x03\x01s\0\x0b\0\0\0PauseDevice\0\0\0\0\0\x07\x01s\0\x04\0\0\0:1.0\0\0\0\0\x08\x01g\0\x03uus\0\0\0\0\0\0\0\0\x0d\0\0\0@\0\0\0\x04\0\0\0gone\0",
    },
    MailCase {
        name: "a device is taken by force",
        events: b"\
connect 1 0\n\
connect 2 1000\n\
connect 3 1001\n\
add 226 0 drm seat0\n\
add 13 64 evdev seat0\n\
call 1 1 create 1000 2 login wayland user % seat0 1 tty1 % false % %\n\
call 1 2 create 1001 3 login wayland user % seat0 2 tty2 % false % %\n\
call 2 1 control c1 false\n\
call 3 1 control c2 false\n\
call 2 2 take c1 226 0\n\
vtkey 2\n\
call 2 3 take c1 13 64\n\
call 2 4 paused c1 226 0",
        who: 2,
        from: 0,
        messages: b"\
l\x04\0\x01+\0\0\0\x01\0\0\0p\0\0\0\x01\x01o\0\x17\0\0\0/org/freedesktop/login1\0\x02\x01s\0\x1e\0\0\0org.freedesktop.login1.Manager\0\0\x03\x01s\0\x07\0\0\0UserNew\0\x07\x01s\0\x04\0\0\0:1.0\0\0\0\0\x08\x01g\0\x02uo\0\xe8\x03\0\0\"\0\0\0/org/freedesktop/login1/user/_1000\0\
l\x04\0\x01/\0\0\0\x02\0\0\0x\0\0\0\x01\x01o\0\x17\0\0\0/org/freedesktop/login1\0\x02\x01s\0\x1e\0\0\0org.freedesktop.login1.Manager\0\0\x03\x01s\0\x0a\0\0\0SessionNew\0\0\0\0\0\0\x07\x01s\0\x04\0\0\0:1.0\0\0\0\0\x08\x01g\0\x02so\0\x02\0\0\0c1\0\0\"\0\0\0/org/freedesktop/login1/session/c1\0\
l\x04\0\x01@\0\0\0\x03\0\0\0\x96\0\0\0\x01\x01o\0\"\0\0\0/org/freedesktop/login1/session/c1\0\0\0\0\0\0\x02\x01s\0\x1f\0\0\0org.freedesktop.DBus.Properties\0\x03\x01s\0\x11\0\0\0PropertiesChanged\0\0\0\0\0\0\0\x07\x01s\0\x04\0\0\0:1.0\0\0\0\0\x08\x01g\0\x08sa{sv}as\0\0\0\x1e\0\0\0org.freedesktop.login1.Session\0\0\x14\0\0\0\x06\0\0\0Active\0\x01b\0\0\0\x01\0\0\0\0\0\0\0\
l\x04\0\x01t\0\0\0\x04\0\0\0\x96\0\0\0\x01\x01o\0\"\0\0\0/org/freedesktop/login1/seat/seat0\0\0\0\0\0\0\x02\x01s\0\x1f\0\0\0org.freedesktop.DBus.Properties\0\x03\x01s\0\x11\0\0\0PropertiesChanged\0\0\0\0\0\0\0\x07\x01s\0\x04\0\0\0:1.0\0\0\0\0\x08\x01g\0\x08sa{sv}as\0\0\0\x1b\0\0\0org.freedesktop.login1.Seat\0G\0\0\0\0\0\0\0\x0d\0\0\0ActiveSession\0\x04(so)\0\x02\0\0\0c1\0\0\"\0\0\0/org/freedesktop/login1/session/c1\0\0\0\0\0\0\
l\x04\0\x01+\0\0\0\x05\0\0\0p\0\0\0\x01\x01o\0\x17\0\0\0/org/freedesktop/login1\0\x02\x01s\0\x1e\0\0\0org.freedesktop.login1.Manager\0\0\x03\x01s\0\x07\0\0\0UserNew\0\x07\x01s\0\x04\0\0\0:1.0\0\0\0\0\x08\x01g\0\x02uo\0\xe9\x03\0\0\"\0\0\0/org/freedesktop/login1/user/_1001\0\
l\x04\0\x01/\0\0\0\x06\0\0\0x\0\0\0\x01\x01o\0\x17\0\0\0/org/freedesktop/login1\0\x02\x01s\0\x1e\0\0\0org.freedesktop.login1.Manager\0\0\x03\x01s\0\x0a\0\0\0SessionNew\0\0\0\0\0\0\x07\x01s\0\x04\0\0\0:1.0\0\0\0\0\x08\x01g\0\x02so\0\x02\0\0\0c2\0\0\"\0\0\0/org/freedesktop/login1/session/c2\0\
l\x02\0\x01\0\0\0\0\x07\0\0\0\x15\0\0\0\x05\x01u\0\x01\0\0\0\x07\x01s\0\x04\0\0\0:1.0\0\0\0\0\
l\x02\0\x01\x08\0\0\0\x08\0\0\0 \0\0\0\x05\x01u\0\x02\0\0\0\x07\x01s\0\x04\0\0\0:1.0\0\0\0\0\x08\x01g\0\x02ub\0\x03\0\0\0\0\0\0\0\
l\x04\0\x01\x12\0\0\0\x09\0\0\0\x89\0\0\0\x01\x01o\0\"\0\0\0/org/freedesktop/login1/session/c1\0\0\0\0\0\0\x02\x01s\0\x1e\0\0\0org.freedesktop.login1.Session\0\0\x03\x01s\0\x0b\0\0\0PauseDevice\0\0\0\0\0\x07\x01s\0\x04\0\0\0:1.0\0\0\0\0\x08\x01g\0\x03uus\0\0\0\0\0\0\0\0\xe2\0\0\0\0\0\0\0\x05\0\0\0pause\0\
l\x02\0\x01\x08\0\0\0\x0a\0\0\0 \0\0\0\x05\x01u\0\x03\0\0\0\x07\x01s\0\x04\0\0\0:1.0\0\0\0\0\x08\x01g\0\x02ub\0\x04\0\0\0\0\0\0\0\
l\x02\0\x01\0\0\0\0\x0b\0\0\0\x15\0\0\0\x05\x01u\0\x04\0\0\0\x07\x01s\0\x04\0\0\0:1.0\0\0\0\0\
l\x04\0\x01\x12\0\0\0\x0c\0\0\0\x89\0\0\0\x01\x01o\0\"\0\0\0/org/freedesktop/login1/session/c1\0\0\0\0\0\0\x02\x01s\0\x1e\0\0\0org.freedesktop.login1.Session\0\0\x03\x01s\0\x0b\0\0\0PauseDevice\0\0\0\0\0\x07\x01s\0\x04\0\0\0:1.0\0\0\0\0\x08\x01g\0\x03uus\0\0\0\0\0\0\0\0\x0d\0\0\0@\0\0\0\x05\0\0\0force\0\
l\x04\0\x01@\0\0\0\x0d\0\0\0\x96\0\0\0\x01\x01o\0\"\0\0\0/org/freedesktop/login1/session/c1\0\0\0\0\0\0\x02\x01s\0\x1f\0\0\0org.freedesktop.DBus.Properties\0\x03\x01s\0\x11\0\0\0PropertiesChanged\0\0\0\0\0\0\0\x07\x01s\0\x04\0\0\0:1.0\0\0\0\0\x08\x01g\0\x08sa{sv}as\0\0\0\x1e\0\0\0org.freedesktop.login1.Session\0\0\x14\0\0\0\x06\0\0\0Active\0\x01b\0\0\0\0\0\0\0\0\0\0\0\
l\x04\0\x01@\0\0\0\x0e\0\0\0\x96\0\0\0\x01\x01o\0\"\0\0\0/org/freedesktop/login1/session/c2\0\0\0\0\0\0\x02\x01s\0\x1f\0\0\0org.freedesktop.DBus.Properties\0\x03\x01s\0\x11\0\0\0PropertiesChanged\0\0\0\0\0\0\0\x07\x01s\0\x04\0\0\0:1.0\0\0\0\0\x08\x01g\0\x08sa{sv}as\0\0\0\x1e\0\0\0org.freedesktop.login1.Session\0\0\x14\0\0\0\x06\0\0\0Active\0\x01b\0\0\0\x01\0\0\0\0\0\0\0\
l\x04\0\x01t\0\0\0\x0f\0\0\0\x96\0\0\0\x01\x01o\0\"\0\0\0/org/freedesktop/login1/seat/seat0\0\0\0\0\0\0\x02\x01s\0\x1f\0\0\0org.freedesktop.DBus.Properties\0\x03\x01s\0\x11\0\0\0PropertiesChanged\0\0\0\0\0\0\0\x07\x01s\0\x04\0\0\0:1.0\0\0\0\0\x08\x01g\0\x08sa{sv}as\0\0\0\x1b\0\0\0org.freedesktop.login1.Seat\0G\0\0\0\0\0\0\0\x0d\0\0\0ActiveSession\0\x04(so)\0\x02\0\0\0c2\0\0\"\0\0\0/org/freedesktop/login1/session/c2\0\0\0\0\0\0",
    },
    MailCase {
        name: "errors of root",
        events: b"\
connect 1 0\n\
call 1 1 create 1000 0 login tty user % seat0 1 tty1 % false % %\n\
call 1 2 create 1001 0 ssh tty user % % 0 % % false % %\n\
add 226 1 drm seat1\n\
add 13 64 evdev seat0\n\
add 13 65 evdev seat1\n\
connect 2 0\n\
call 2 1 no-object\n\
call 2 2 no-method\n\
call 2 3 bad-args\n\
call 2 4 get-session c9\n\
call 2 5 close 99\n\
call 2 6 activate c2\n\
call 2 7 activate-on c1 seat1\n\
call 2 8 create 1001 0 a tty user % seat0 1 % % false % %\n\
call 2 9 control c1 false\n\
call 2 10 take c1 9 9\n\
call 2 11 take c1 13 65\n\
call 2 12 take c1 13 64\n\
call 2 13 take c1 13 64\n\
call 2 14 release c1 13 65\n\
call 2 15 create 1001 9 a tty user % % 0 % % false % %\n\
call 2 16 inhibit idle a b delay\n\
call 2 17 read 1",
        who: 2,
        from: 0,
        messages: b"\
l\x03\0\x01\x1c\0\0\0\x01\0\0\0W\0\0\0\x04\x01s\0(\0\0\0org.freedesktop.DBus.Error.UnknownObject\0\0\0\0\0\0\0\0\x05\x01u\0\x01\0\0\0\x07\x01s\0\x04\0\0\0:1.0\0\0\0\0\x08\x01g\0\x01s\0\0\x17\0\0\0rule P01 unknown-object\0\
l\x03\0\x01\x1c\0\0\0\x02\0\0\0W\0\0\0\x04\x01s\0(\0\0\0org.freedesktop.DBus.Error.UnknownMethod\0\0\0\0\0\0\0\0\x05\x01u\0\x02\0\0\0\x07\x01s\0\x04\0\0\0:1.0\0\0\0\0\x08\x01g\0\x01s\0\0\x17\0\0\0rule P02 unknown-method\0\
l\x03\0\x01\x1b\0\0\0\x03\0\0\0O\0\0\0\x04\x01s\0&\0\0\0org.freedesktop.DBus.Error.InvalidArgs\0\0\x05\x01u\0\x03\0\0\0\x07\x01s\0\x04\0\0\0:1.0\0\0\0\0\x08\x01g\0\x01s\0\0\x16\0\0\0rule P03 bad-arguments\0\
l\x03\0\x01\x1d\0\0\0\x04\0\0\0O\0\0\0\x04\x01s\0$\0\0\0org.freedesktop.login1.NoSuchSession\0\0\0\0\x05\x01u\0\x04\0\0\0\x07\x01s\0\x04\0\0\0:1.0\0\0\0\0\x08\x01g\0\x01s\0\0\x18\0\0\0rule P04 no-such-session\0\
l\x03\0\x01\x1c\0\0\0\x05\0\0\0O\0\0\0\x04\x01s\0#\0\0\0org.freedesktop.login1.NoSuchHandle\0\0\0\0\0\x05\x01u\0\x05\0\0\0\x07\x01s\0\x04\0\0\0:1.0\0\0\0\0\x08\x01g\0\x01s\0\0\x17\0\0\0rule P07 no-such-handle\0\
l\x03\0\x01\x15\0\0\0\x06\0\0\0G\0\0\0\x04\x01s\0\x1d\0\0\0org.freedesktop.login1.NoSeat\0\0\0\x05\x01u\0\x06\0\0\0\x07\x01s\0\x04\0\0\0:1.0\0\0\0\0\x08\x01g\0\x01s\0\0\x10\0\0\0rule P14 no-seat\0\
l\x03\0\x01!\0\0\0\x07\0\0\0O\0\0\0\x04\x01s\0'\0\0\0org.freedesktop.login1.SessionNotOnSeat\0\x05\x01u\0\x07\0\0\0\x07\x01s\0\x04\0\0\0:1.0\0\0\0\0\x08\x01g\0\x01s\0\0\x1c\0\0\0rule P15 session-not-on-seat\0\
l\x03\0\x01\x18\0\0\0\x08\0\0\0G\0\0\0\x04\x01s\0\x1d\0\0\0org.freedesktop.login1.VtBusy\0\0\0\x05\x01u\0\x08\0\0\0\x07\x01s\0\x04\0\0\0:1.0\0\0\0\0\x08\x01g\0\x01s\0\0\x13\0\0\0rule P21 vt-busy c1\0\
l\x02\0\x01\0\0\0\0\x09\0\0\0\x15\0\0\0\x05\x01u\0\x09\0\0\0\x07\x01s\0\x04\0\0\0:1.0\0\0\0\0\
l\x03\0\x01\x1c\0\0\0\x0a\0\0\0O\0\0\0\x04\x01s\0#\0\0\0org.freedesktop.login1.NoSuchDevice\0\0\0\0\0\x05\x01u\0\x0a\0\0\0\x07\x01s\0\x04\0\0\0:1.0\0\0\0\0\x08\x01g\0\x01s\0\0\x17\0\0\0rule P08 no-such-device\0\
l\x03\0\x01 \0\0\0\x0b\0\0\0O\0\0\0\x04\x01s\0&\0\0\0org.freedesktop.login1.DeviceNotOnSeat\0\0\x05\x01u\0\x0b\0\0\0\x07\x01s\0\x04\0\0\0:1.0\0\0\0\0\x08\x01g\0\x01s\0\0\x1b\0\0\0rule P16 device-not-on-seat\0\
l\x02\0\x01\x08\0\0\0\x0c\0\0\0 \0\0\0\x05\x01u\0\x0c\0\0\0\x07\x01s\0\x04\0\0\0:1.0\0\0\0\0\x08\x01g\0\x02ub\0\x03\0\0\0\0\0\0\0\
l\x03\0\x01\x1a\0\0\0\x0d\0\0\0O\0\0\0\x04\x01s\0\"\0\0\0org.freedesktop.login1.DeviceTaken\0\0\0\0\0\0\x05\x01u\0\x0d\0\0\0\x07\x01s\0\x04\0\0\0:1.0\0\0\0\0\x08\x01g\0\x01s\0\0\x15\0\0\0rule P19 device-taken\0\
l\x03\0\x01\x1e\0\0\0\x0e\0\0\0O\0\0\0\x04\x01s\0%\0\0\0org.freedesktop.login1.DeviceNotTaken\0\0\0\x05\x01u\0\x0e\0\0\0\x07\x01s\0\x04\0\0\0:1.0\0\0\0\0\x08\x01g\0\x01s\0\0\x19\0\0\0rule P20 device-not-taken\0\
l\x03\0\x01\x14\0\0\0\x0f\0\0\0W\0\0\0\x04\x01s\0/\0\0\0org.freedesktop.DBus.Error.UnixProcessIdUnknown\0\x05\x01u\0\x0f\0\0\0\x07\x01s\0\x04\0\0\0:1.0\0\0\0\0\x08\x01g\0\x01s\0\0\x0f\0\0\0rule P35 nobody\0\
l\x03\0\x01\x1f\0\0\0\x10\0\0\0O\0\0\0\x04\x01s\0&\0\0\0org.freedesktop.login1.DelayNotOffered\0\0\x05\x01u\0\x10\0\0\0\x07\x01s\0\x04\0\0\0:1.0\0\0\0\0\x08\x01g\0\x01s\0\0\x1a\0\0\0rule P25 delay-not-offered\0\
l\x03\0\x01\x17\0\0\0\x11\0\0\0O\0\0\0\x04\x01s\0'\0\0\0org.freedesktop.DBus.Error.AccessDenied\0\x05\x01u\0\x11\0\0\0\x07\x01s\0\x04\0\0\0:1.0\0\0\0\0\x08\x01g\0\x01s\0\0\x12\0\0\0rule P28 not-yours\0",
    },
    MailCase {
        name: "errors of another user",
        events: b"\
connect 1 0\n\
call 1 1 create 1000 0 login tty user % seat0 1 tty1 % false % %\n\
connect 3 1000\n\
call 3 1 control c1 false\n\
connect 2 1001\n\
call 2 1 create 1000 0 a tty user % % 0 % % false % %\n\
call 2 2 idle c1 true\n\
call 2 3 inhibit shutdown a b block\n\
call 2 4 power poweroff\n\
call 2 5 uncontrol c1\n\
call 2 6 lock c1",
        who: 2,
        from: 0,
        messages: b"\
l\x03\0\x01\x16\0\0\0\x01\0\0\0O\0\0\0\x04\x01s\0'\0\0\0org.freedesktop.DBus.Error.AccessDenied\0\x05\x01u\0\x01\0\0\0\x07\x01s\0\x04\0\0\0:1.0\0\0\0\0\x08\x01g\0\x01s\0\0\x11\0\0\0rule P09 not-root\0\
l\x03\0\x01\x17\0\0\0\x02\0\0\0O\0\0\0\x04\x01s\0'\0\0\0org.freedesktop.DBus.Error.AccessDenied\0\x05\x01u\0\x02\0\0\0\x07\x01s\0\x04\0\0\0:1.0\0\0\0\0\x08\x01g\0\x01s\0\0\x12\0\0\0rule P10 not-owner\0\
l\x03\0\x013\0\0\0\x03\0\0\0O\0\0\0\x04\x01s\0'\0\0\0org.freedesktop.DBus.Error.AccessDenied\0\x05\x01u\0\x03\0\0\0\x07\x01s\0\x04\0\0\0:1.0\0\0\0\0\x08\x01g\0\x01s\0\0.\0\0\0rule P11 action-refused inhibit-block-shutdown\0\
l\x03\0\x01:\0\0\0\x04\0\0\0g\0\0\0\x04\x01s\0;\0\0\0org.freedesktop.DBus.Error.InteractiveAuthorizationRequired\0\0\0\0\0\x05\x01u\0\x04\0\0\0\x07\x01s\0\x04\0\0\0:1.0\0\0\0\0\x08\x01g\0\x01s\0\05\0\0\0rule P12 action-challenge power-off-multiple-sessions\0\
l\x03\0\x01\x1c\0\0\0\x05\0\0\0O\0\0\0\x04\x01s\0#\0\0\0org.freedesktop.login1.NotInControl\0\0\0\0\0\x05\x01u\0\x05\0\0\0\x07\x01s\0\x04\0\0\0:1.0\0\0\0\0\x08\x01g\0\x01s\0\0\x17\0\0\0rule P18 not-in-control\0\
l\x03\0\x01,\0\0\0\x06\0\0\0g\0\0\0\x04\x01s\0;\0\0\0org.freedesktop.DBus.Error.InteractiveAuthorizationRequired\0\0\0\0\0\x05\x01u\0\x06\0\0\0\x07\x01s\0\x04\0\0\0:1.0\0\0\0\0\x08\x01g\0\x01s\0\0'\0\0\0rule P12 action-challenge lock-sessions\0",
    },
    MailCase {
        name: "errors of what stands in the way",
        events: b"\
connect 1 0\n\
call 1 1 create 1000 0 login tty user % seat0 1 tty1 % false % %\n\
connect 3 1000\n\
call 3 1 control c1 false\n\
connect 4 0\n\
call 4 1 inhibit shutdown a b block\n\
call 4 2 inhibit sleep a b delay\n\
connect 2 1000\n\
call 2 1 control c1 false\n\
call 2 2 power poweroff\n\
call 1 2 power suspend\n\
call 2 3 power suspend",
        who: 2,
        from: 0,
        messages: b"\
l\x03\0\x01\x1a\0\0\0\x01\0\0\0O\0\0\0\x04\x01s\0!\0\0\0org.freedesktop.login1.Controlled\0\0\0\0\0\0\0\x05\x01u\0\x01\0\0\0\x07\x01s\0\x04\0\0\0:1.0\0\0\0\0\x08\x01g\0\x01s\0\0\x15\0\0\0rule P17 controlled 3\0\
l\x03\0\x01\x19\0\0\0\x02\0\0\0O\0\0\0\x04\x01s\0 \0\0\0org.freedesktop.login1.Inhibited\0\0\0\0\0\0\0\0\x05\x01u\0\x02\0\0\0\x07\x01s\0\x04\0\0\0:1.0\0\0\0\0\x08\x01g\0\x01s\0\0\x14\0\0\0rule P24 inhibited 1\0\
l\x04\0\x01\x04\0\0\0\x03\0\0\0w\0\0\0\x01\x01o\0\x17\0\0\0/org/freedesktop/login1\0\x02\x01s\0\x1e\0\0\0org.freedesktop.login1.Manager\0\0\x03\x01s\0\x0f\0\0\0PrepareForSleep\0\x07\x01s\0\x04\0\0\0:1.0\0\0\0\0\x08\x01g\0\x01b\0\0\x01\0\0\0\
l\x03\0\x01+\0\0\0\x04\0\0\0W\0\0\0\x04\x01s\0*\0\0\0org.freedesktop.login1.OperationInProgress\0\0\0\0\0\0\x05\x01u\0\x03\0\0\0\x07\x01s\0\x04\0\0\0:1.0\0\0\0\0\x08\x01g\0\x01s\0\0&\0\0\0rule P23 operation-in-progress suspend\0",
    },
    MailCase {
        name: "errors of a handle",
        events: b"\
connect 1 0\n\
connect 2 1000\n\
connect 3 1001\n\
add 226 0 drm seat0\n\
add 13 64 evdev seat0\n\
call 1 1 create 1000 2 login wayland user % seat0 1 tty1 % false % %\n\
call 1 2 create 1001 3 login wayland user % seat0 2 tty2 % false % %\n\
call 2 1 control c1 false\n\
call 3 1 control c2 false\n\
call 2 2 take c1 226 0\n\
call 2 3 take c1 13 64\n\
call 3 2 take c2 226 0\n\
call 3 3 take c2 13 64\n\
vtkey 2\n\
call 2 4 paused c1 226 0\n\
call 2 5 paused c1 13 64\n\
call 2 6 read 4\n\
call 2 7 read 3\n\
call 1 3 terminate c1\n\
call 2 8 lock c1",
        who: 2,
        from: 0,
        messages: b"\
l\x04\0\x01+\0\0\0\x01\0\0\0p\0\0\0\x01\x01o\0\x17\0\0\0/org/freedesktop/login1\0\x02\x01s\0\x1e\0\0\0org.freedesktop.login1.Manager\0\0\x03\x01s\0\x07\0\0\0UserNew\0\x07\x01s\0\x04\0\0\0:1.0\0\0\0\0\x08\x01g\0\x02uo\0\xe8\x03\0\0\"\0\0\0/org/freedesktop/login1/user/_1000\0\
l\x04\0\x01/\0\0\0\x02\0\0\0x\0\0\0\x01\x01o\0\x17\0\0\0/org/freedesktop/login1\0\x02\x01s\0\x1e\0\0\0org.freedesktop.login1.Manager\0\0\x03\x01s\0\x0a\0\0\0SessionNew\0\0\0\0\0\0\x07\x01s\0\x04\0\0\0:1.0\0\0\0\0\x08\x01g\0\x02so\0\x02\0\0\0c1\0\0\"\0\0\0/org/freedesktop/login1/session/c1\0\
l\x04\0\x01@\0\0\0\x03\0\0\0\x96\0\0\0\x01\x01o\0\"\0\0\0/org/freedesktop/login1/session/c1\0\0\0\0\0\0\x02\x01s\0\x1f\0\0\0org.freedesktop.DBus.Properties\0\x03\x01s\0\x11\0\0\0PropertiesChanged\0\0\0\0\0\0\0\x07\x01s\0\x04\0\0\0:1.0\0\0\0\0\x08\x01g\0\x08sa{sv}as\0\0\0\x1e\0\0\0org.freedesktop.login1.Session\0\0\x14\0\0\0\x06\0\0\0Active\0\x01b\0\0\0\x01\0\0\0\0\0\0\0\
l\x04\0\x01t\0\0\0\x04\0\0\0\x96\0\0\0\x01\x01o\0\"\0\0\0/org/freedesktop/login1/seat/seat0\0\0\0\0\0\0\x02\x01s\0\x1f\0\0\0org.freedesktop.DBus.Properties\0\x03\x01s\0\x11\0\0\0PropertiesChanged\0\0\0\0\0\0\0\x07\x01s\0\x04\0\0\0:1.0\0\0\0\0\x08\x01g\0\x08sa{sv}as\0\0\0\x1b\0\0\0org.freedesktop.login1.Seat\0G\0\0\0\0\0\0\0\x0d\0\0\0ActiveSession\0\x04(so)\0\x02\0\0\0c1\0\0\"\0\0\0/org/freedesktop/login1/session/c1\0\0\0\0\0\0\
l\x04\0\x01+\0\0\0\x05\0\0\0p\0\0\0\x01\x01o\0\x17\0\0\0/org/freedesktop/login1\0\x02\x01s\0\x1e\0\0\0org.freedesktop.login1.Manager\0\0\x03\x01s\0\x07\0\0\0UserNew\0\x07\x01s\0\x04\0\0\0:1.0\0\0\0\0\x08\x01g\0\x02uo\0\xe9\x03\0\0\"\0\0\0/org/freedesktop/login1/user/_1001\0\
l\x04\0\x01/\0\0\0\x06\0\0\0x\0\0\0\x01\x01o\0\x17\0\0\0/org/freedesktop/login1\0\x02\x01s\0\x1e\0\0\0org.freedesktop.login1.Manager\0\0\x03\x01s\0\x0a\0\0\0SessionNew\0\0\0\0\0\0\x07\x01s\0\x04\0\0\0:1.0\0\0\0\0\x08\x01g\0\x02so\0\x02\0\0\0c2\0\0\"\0\0\0/org/freedesktop/login1/session/c2\0\
l\x02\0\x01\0\0\0\0\x07\0\0\0\x15\0\0\0\x05\x01u\0\x01\0\0\0\x07\x01s\0\x04\0\0\0:1.0\0\0\0\0\
l\x02\0\x01\x08\0\0\0\x08\0\0\0 \0\0\0\x05\x01u\0\x02\0\0\0\x07\x01s\0\x04\0\0\0:1.0\0\0\0\0\x08\x01g\0\x02ub\0\x03\0\0\0\0\0\0\0\
l\x02\0\x01\x08\0\0\0\x09\0\0\0 \0\0\0\x05\x01u\0\x03\0\0\0\x07\x01s\0\x04\0\0\0:1.0\0\0\0\0\x08\x01g\0\x02ub\0\x04\0\0\0\0\0\0\0\
l\x04\0\x01\x12\0\0\0\x0a\0\0\0\x89\0\0\0\x01\x01o\0\"\0\0\0/org/freedesktop/login1/session/c1\0\0\0\0\0\0\x02\x01s\0\x1e\0\0\0org.freedesktop.login1.Session\0\0\x03\x01s\0\x0b\0\0\0PauseDevice\0\0\0\0\0\x07\x01s\0\x04\0\0\0:1.0\0\0\0\0\x08\x01g\0\x03uus\0\0\0\0\0\0\0\0\x0d\0\0\0@\0\0\0\x05\0\0\0pause\0\
l\x04\0\x01\x12\0\0\0\x0b\0\0\0\x89\0\0\0\x01\x01o\0\"\0\0\0/org/freedesktop/login1/session/c1\0\0\0\0\0\0\x02\x01s\0\x1e\0\0\0org.freedesktop.login1.Session\0\0\x03\x01s\0\x0b\0\0\0PauseDevice\0\0\0\0\0\x07\x01s\0\x04\0\0\0:1.0\0\0\0\0\x08\x01g\0\x03uus\0\0\0\0\0\0\0\0\xe2\0\0\0\0\0\0\0\x05\0\0\0pause\0\
l\x02\0\x01\0\0\0\0\x0c\0\0\0\x15\0\0\0\x05\x01u\0\x04\0\0\0\x07\x01s\0\x04\0\0\0:1.0\0\0\0\0\
l\x02\0\x01\0\0\0\0\x0d\0\0\0\x15\0\0\0\x05\x01u\0\x05\0\0\0\x07\x01s\0\x04\0\0\0:1.0\0\0\0\0\
l\x04\0\x01@\0\0\0\x0e\0\0\0\x96\0\0\0\x01\x01o\0\"\0\0\0/org/freedesktop/login1/session/c1\0\0\0\0\0\0\x02\x01s\0\x1f\0\0\0org.freedesktop.DBus.Properties\0\x03\x01s\0\x11\0\0\0PropertiesChanged\0\0\0\0\0\0\0\x07\x01s\0\x04\0\0\0:1.0\0\0\0\0\x08\x01g\0\x08sa{sv}as\0\0\0\x1e\0\0\0org.freedesktop.login1.Session\0\0\x14\0\0\0\x06\0\0\0Active\0\x01b\0\0\0\0\0\0\0\0\0\0\0\
l\x04\0\x01@\0\0\0\x0f\0\0\0\x96\0\0\0\x01\x01o\0\"\0\0\0/org/freedesktop/login1/session/c2\0\0\0\0\0\0\x02\x01s\0\x1f\0\0\0org.freedesktop.DBus.Properties\0\x03\x01s\0\x11\0\0\0PropertiesChanged\0\0\0\0\0\0\0\x07\x01s\0\x04\0\0\0:1.0\0\0\0\0\x08\x01g\0\x08sa{sv}as\0\0\0\x1e\0\0\0org.freedesktop.login1.Session\0\0\x14\0\0\0\x06\0\0\0Active\0\x01b\0\0\0\x01\0\0\0\0\0\0\0\
l\x04\0\x01t\0\0\0\x10\0\0\0\x96\0\0\0\x01\x01o\0\"\0\0\0/org/freedesktop/login1/seat/seat0\0\0\0\0\0\0\x02\x01s\0\x1f\0\0\0org.freedesktop.DBus.Properties\0\x03\x01s\0\x11\0\0\0PropertiesChanged\0\0\0\0\0\0\0\x07\x01s\0\x04\0\0\0:1.0\0\0\0\0\x08\x01g\0\x08sa{sv}as\0\0\0\x1b\0\0\0org.freedesktop.login1.Seat\0G\0\0\0\0\0\0\0\x0d\0\0\0ActiveSession\0\x04(so)\0\x02\0\0\0c2\0\0\"\0\0\0/org/freedesktop/login1/session/c2\0\0\0\0\0\0\
l\x03\0\x01\x16\0\0\0\x11\0\0\0G\0\0\0\x04\x01s\0\x1e\0\0\0org.freedesktop.login1.NotLive\0\0\x05\x01u\0\x06\0\0\0\x07\x01s\0\x04\0\0\0:1.0\0\0\0\0\x08\x01g\0\x01s\0\0\x11\0\0\0rule P27 not-live\0\
l\x03\0\x01\x18\0\0\0\x12\0\0\0O\0\0\0\x04\x01s\0 \0\0\0org.freedesktop.login1.WrongKind\0\0\0\0\0\0\0\0\x05\x01u\0\x07\0\0\0\x07\x01s\0\x04\0\0\0:1.0\0\0\0\0\x08\x01g\0\x01s\0\0\x13\0\0\0rule P29 wrong-kind\0\
l\x03\0\x01\x1d\0\0\0\x13\0\0\0O\0\0\0\x04\x01s\0%\0\0\0org.freedesktop.login1.SessionClosing\0\0\0\x05\x01u\0\x08\0\0\0\x07\x01s\0\x04\0\0\0:1.0\0\0\0\0\x08\x01g\0\x01s\0\0\x18\0\0\0rule P13 session-closing\0",
    },
    MailCase {
        name: "properties, and calls of peers and of the bus",
        events: b"\
connect 1 0\n\
call 1 1 create 1000 1 login tty user gnome seat0 1 tty1 % false % %\n\
call 1 2 create 0 0 cron mir background % % 0 % % false % %\n\
connect 2 1000\n\
call 2 1 get /org/freedesktop/login1/session/c1 % User\n\
call 2 2 get /org/freedesktop/login1/session/c2 % Seat\n\
call 2 3 get /org/freedesktop/login1/seat/seat0 % ActiveSession\n\
call 2 4 get /org/freedesktop/login1 % InhibitDelayMaxUSec\n\
call 2 5 get /org/freedesktop/login1 % NCurrentSessions\n\
call 2 6 get /org/freedesktop/login1 % Docked\n\
call 2 7 get /org/freedesktop/login1/user/_1000 % Sessions\n\
call 2 8 get /org/freedesktop/login1/session/c1 % Leader\n\
call 2 9 get /org/freedesktop/login1 % BlockInhibited\n\
call 2 10 get-all /org/freedesktop/login1/session/c1 %\n\
call 2 11 get-all /org/freedesktop/login1/session/c1 org.freedesktop.login1.Seat\n\
call 2 12 set /org/freedesktop/login1/session/c1 % IdleHint\n\
call 2 13 get /org/freedesktop/login1/session/c1 % UID\n\
call 2 14 ping\n\
call 2 15 machine-id\n\
call 2 16 hello\n\
call 2 17 owner org.freedesktop.login1\n\
call 2 18 owner x\n\
call 2 19 add-match type='signal'\n\
call 2 20 remove-match %",
        who: 2,
        from: 0,
        messages: b"\
l\x02\0\x013\0\0\0\x01\0\0\0\x1f\0\0\0\x05\x01u\0\x01\0\0\0\x07\x01s\0\x04\0\0\0:1.0\0\0\0\0\x08\x01g\0\x01v\0\0\x04(uo)\0\0\0\xe8\x03\0\0\"\0\0\0/org/freedesktop/login1/user/_1000\0\
l\x02\0\x01\x16\0\0\0\x02\0\0\0\x1f\0\0\0\x05\x01u\0\x02\0\0\0\x07\x01s\0\x04\0\0\0:1.0\0\0\0\0\x08\x01g\0\x01v\0\0\x04(so)\0\0\0\0\0\0\0\0\0\0\0\x01\0\0\0/\0\
l\x02\0\x017\0\0\0\x03\0\0\0\x1f\0\0\0\x05\x01u\0\x03\0\0\0\x07\x01s\0\x04\0\0\0:1.0\0\0\0\0\x08\x01g\0\x01v\0\0\x04(so)\0\0\0\x02\0\0\0c1\0\0\"\0\0\0/org/freedesktop/login1/session/c1\0\
l\x02\0\x01\x10\0\0\0\x04\0\0\0\x1f\0\0\0\x05\x01u\0\x04\0\0\0\x07\x01s\0\x04\0\0\0:1.0\0\0\0\0\x08\x01g\0\x01v\0\0\x01t\0\0\0\0\0\0@KL\0\0\0\0\0\
l\x02\0\x01\x10\0\0\0\x05\0\0\0\x1f\0\0\0\x05\x01u\0\x05\0\0\0\x07\x01s\0\x04\0\0\0:1.0\0\0\0\0\x08\x01g\0\x01v\0\0\x01t\0\0\0\0\0\0\x02\0\0\0\0\0\0\0\
l\x02\0\x01\x08\0\0\0\x06\0\0\0\x1f\0\0\0\x05\x01u\0\x06\0\0\0\x07\x01s\0\x04\0\0\0:1.0\0\0\0\0\x08\x01g\0\x01v\0\0\x01b\0\0\0\0\0\0\
l\x02\0\x01?\0\0\0\x07\0\0\0\x1f\0\0\0\x05\x01u\0\x07\0\0\0\x07\x01s\0\x04\0\0\0:1.0\0\0\0\0\x08\x01g\0\x01v\0\0\x05a(so)\0\0/\0\0\0\0\0\0\0\x02\0\0\0c1\0\0\"\0\0\0/org/freedesktop/login1/session/c1\0\
l\x02\0\x01\x08\0\0\0\x08\0\0\0\x1f\0\0\0\x05\x01u\0\x08\0\0\0\x07\x01s\0\x04\0\0\0:1.0\0\0\0\0\x08\x01g\0\x01v\0\0\x01u\0\0\x01\0\0\0\
l\x02\0\x01\x09\0\0\0\x09\0\0\0\x1f\0\0\0\x05\x01u\0\x09\0\0\0\x07\x01s\0\x04\0\0\0:1.0\0\0\0\0\x08\x01g\0\x01v\0\0\x01s\0\0\0\0\0\0\0\
l\x02\0\x01x\x02\0\0\x0a\0\0\0#\0\0\0\x05\x01u\0\x0a\0\0\0\x07\x01s\0\x04\0\0\0:1.0\0\0\0\0\x08\x01g\0\x05a{sv}\0\0\0\0\0\0p\x02\0\0\0\0\0\0\x02\0\0\0Id\0\x01s\0\0\0\x02\0\0\0c1\0\0\0\0\0\0\x04\0\0\0User\0\x04(uo)\0\0\xe8\x03\0\0\"\0\0\0/org/freedesktop/login1/user/_1000\0\0\0\0\0\0\x04\0\0\0Name\0\x01s\0\x05\0\0\0alice\0\0\0\x04\0\0\0VTNr\0\x01u\0\x01\0\0\0\x04\0\0\0Seat\0\x04(so)\0\0\x05\0\0\0seat0\0\0\0\"\0\0\0/org/freedesktop/login1/seat/seat0\0\0\0\0\0\0\x03\0\0\0TTY\0\x01s\0\0\x04\0\0\0tty1\0\0\0\0\x07\0\0\0Display\0\x01s\0\0\0\0\0\0\0\0\0\0\x06\0\0\0Remote\0\x01b\0\0\0\0\0\0\0\0\0\0\0\x0a\0\0\0RemoteHost\0\x01s\0\0\0\0\0\0\0\0\0\0\0\0\0\0\0\x0a\0\0\0RemoteUser\0\x01s\0\0\0\0\0\0\0\0\0\0\0\0\0\0\0\x07\0\0\0Service\0\x01s\0\0\x05\0\0\0login\0\0\0\0\0\0\0\x07\0\0\0Desktop\0\x01s\0\0\x05\0\0\0gnome\0\0\0\0\0\0\0\x05\0\0\0Scope\0\x01s\0\0\0\0\x10\0\0\0session-c1.scope\0\0\0\0\x06\0\0\0Leader\0\x01u\0\0\0\x01\0\0\0\0\0\0\0\x04\0\0\0Type\0\x01s\0\x03\0\0\0tty\0\0\0\0\0\x05\0\0\0Class\0\x01s\0\0\0\0\x04\0\0\0user\0\0\0\0\0\0\0\0\x06\0\0\0Active\0\x01b\0\0\0\x01\0\0\0\0\0\0\0\x05\0\0\0State\0\x01s\0\0\0\0\x06\0\0\0active\0\0\0\0\0\0\x08\0\0\0IdleHint\0\x01b\0\0\0\0\0\0\0\0\0\x0a\0\0\0LockedHint\0\x01b\0\0\0\0\0\0\0\
l\x02\0\x01\x08\0\0\0\x0b\0\0\0#\0\0\0\x05\x01u\0\x0b\0\0\0\x07\x01s\0\x04\0\0\0:1.0\0\0\0\0\x08\x01g\0\x05a{sv}\0\0\0\0\0\0\0\0\0\0\0\0\0\0\
l\x03\0\x01 \0\0\0\x0c\0\0\0W\0\0\0\x04\x01s\0+\0\0\0org.freedesktop.DBus.Error.PropertyReadOnly\0\0\0\0\0\x05\x01u\0\x0c\0\0\0\x07\x01s\0\x04\0\0\0:1.0\0\0\0\0\x08\x01g\0\x01s\0\0\x1b\0\0\0rule P22 read-only-property\0\
l\x03\0\x01\x1e\0\0\0\x0d\0\0\0W\0\0\0\x04\x01s\0*\0\0\0org.freedesktop.DBus.Error.UnknownProperty\0\0\0\0\0\0\x05\x01u\0\x0d\0\0\0\x07\x01s\0\x04\0\0\0:1.0\0\0\0\0\x08\x01g\0\x01s\0\0\x19\0\0\0rule P22 unknown-property\0\
l\x02\0\x01\0\0\0\0\x0e\0\0\0\x15\0\0\0\x05\x01u\0\x0e\0\0\0\x07\x01s\0\x04\0\0\0:1.0\0\0\0\0\
l\x02\0\x01%\0\0\0\x0f\0\0\0\x1f\0\0\0\x05\x01u\0\x0f\0\0\0\x07\x01s\0\x04\0\0\0:1.0\0\0\0\0\x08\x01g\0\x01s\0\0 \0\0\00123456789abcdef0123456789abcdef\0\
l\x02\0\x01\x09\0\0\0\x10\0\0\0\x1f\0\0\0\x05\x01u\0\x10\0\0\0\x07\x01s\0\x04\0\0\0:1.0\0\0\0\0\x08\x01g\0\x01s\0\0\x04\0\0\0:1.2\0\
l\x02\0\x01\x09\0\0\0\x11\0\0\0\x1f\0\0\0\x05\x01u\0\x11\0\0\0\x07\x01s\0\x04\0\0\0:1.0\0\0\0\0\x08\x01g\0\x01s\0\0\x04\0\0\0:1.0\0\
l\x03\0\x01\x14\0\0\0\x12\0\0\0W\0\0\0\x04\x01s\0)\0\0\0org.freedesktop.DBus.Error.NameHasNoOwner\0\0\0\0\0\0\0\x05\x01u\0\x12\0\0\0\x07\x01s\0\x04\0\0\0:1.0\0\0\0\0\x08\x01g\0\x01s\0\0\x0f\0\0\0rule P35 nobody\0\
l\x02\0\x01\0\0\0\0\x13\0\0\0\x15\0\0\0\x05\x01u\0\x13\0\0\0\x07\x01s\0\x04\0\0\0:1.0\0\0\0\0\
l\x02\0\x01\0\0\0\0\x14\0\0\0\x15\0\0\0\x05\x01u\0\x14\0\0\0\x07\x01s\0\x04\0\0\0:1.0\0\0\0\0",
    },
];
