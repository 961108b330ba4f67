// Properties: each of each object once, those that there are not, and that none can be set; and the bus's own calls.

use crate::{Answered, Beginning, Piece};

/// A session on a terminal of seat0, one on a seat without terminals, one of root without a seat, two locks and an
/// operation that waits.
pub const SOME: Beginning = Beginning {
    piece: (
        "\
login-recording 1
guid 00112233445566778899aabbccddeeff
user 1000 1007 alice%20a
user 1001 1008 %
go
connect 1 0
connect 2 1000
add 226 1 drm seat-x
call 1 1 create 1000 2 login wayland user gnome seat0 1 tty1 :0 true bob far
call 1 2 create 0 0 cron mir background % % 0 % % false % %
call 1 3 create 1001 1 gdm % % % seat-x 0 % % false % %
call 2 1 idle c1 true
call 1 4 locked c2 true
call 1 5 linger 1001 true
call 1 6 inhibit sleep a b delay
call 1 7 inhibit idle:handle-lid-switch a b block
call 1 8 inhibit shutdown:idle a b block
call 1 9 power suspend
dock true
",
        "\
login-transcript 1
1 connect 1 0
 granted
 set conn 1 0
2 connect 2 1000
 granted
 set conn 2 1000
3 add 226 1 drm seat-x
 granted
 set dev 226:1 drm seat-x
 set seat seat-x present
 all seat-new seat-x
4 call 1 1 create 1000 2 login wayland user gnome seat0 1 tty1 :0 true bob far
 granted c1 /org/freedesktop/login1/session/c1 /run/user/1000 1 1000 seat0 1 false
 set user 1000 known
 all user-new 1000
 set owner 1 fifo 1 c1
 set sess c1 open 1000 seat0 1 wayland user
 all session-new c1
 all active seat0 - c1
5 call 1 2 create 0 0 cron mir background % % 0 % % false % %
 granted c2 /org/freedesktop/login1/session/c2 /run/user/0 2 0 % 0 false
 set user 0 known
 all user-new 0
 set owner 2 fifo 1 c2
 set sess c2 open 0 - 0 mir background
 all session-new c2
6 call 1 3 create 1001 1 gdm % % % seat-x 0 % % false % %
 granted c3 /org/freedesktop/login1/session/c3 /run/user/1001 3 1001 seat-x 0 false
 set user 1001 known
 all user-new 1001
 set owner 3 fifo 1 c3
 set sess c3 open 1001 seat-x 0 unspecified user
 all session-new c3
 set act seat-x c3
 all active seat-x - c3
7 call 2 1 idle c1 true
 granted
 set idle c1 true
8 call 1 4 locked c2 true
 granted
 set locked c2 true
9 call 1 5 linger 1001 true
 granted
 set linger 1001 true
10 call 1 6 inhibit sleep a b delay
 granted 4
 set lock 1 sleep delay 0
 set owner 4 lock 1 1
11 call 1 7 inhibit idle:handle-lid-switch a b block
 granted 5
 set lock 2 idle:handle-lid-switch block 0
 set owner 5 lock 1 2
12 call 1 8 inhibit shutdown:idle a b block
 granted 6
 set lock 3 shutdown:idle block 0
 set owner 6 lock 1 3
13 call 1 9 power suspend
 granted
 set op waiting suspend 0 noskip
 all prepare sleep true
14 dock true
 granted
 set docked true
",
    ),
    entries: 14,
};

/// Each property of the manager, and all of them.
const MANAGER: [(&str, &str); 10] = [
    (
        "call 1 10 get /org/freedesktop/login1 % BlockInhibited",
        "granted <s shutdown:idle:handle-lid-switch>",
    ),
    (
        "call 1 11 get /org/freedesktop/login1 % DelayInhibited",
        "granted <s sleep>",
    ),
    (
        "call 1 12 get /org/freedesktop/login1 org.freedesktop.login1.Manager InhibitDelayMaxUSec",
        "granted <t 5000000>",
    ),
    (
        "call 1 13 get /org/freedesktop/login1 % NCurrentInhibitors",
        "granted <t 3>",
    ),
    (
        "call 1 14 get /org/freedesktop/login1 % NCurrentSessions",
        "granted <t 3>",
    ),
    (
        "call 1 15 get /org/freedesktop/login1 % PreparingForShutdown",
        "granted <b false>",
    ),
    (
        "call 1 16 get /org/freedesktop/login1 % PreparingForSleep",
        "granted <b true>",
    ),
    (
        "call 1 17 get /org/freedesktop/login1 % Docked",
        "granted <b true>",
    ),
    (
        "call 1 18 get-all /org/freedesktop/login1 %",
        "granted [{BlockInhibited <s shutdown:idle:handle-lid-switch>} {DelayInhibited <s sleep>} \
         {InhibitDelayMaxUSec <t 5000000>} {NCurrentInhibitors <t 3>} {NCurrentSessions <t 3>} \
         {PreparingForShutdown <b false>} {PreparingForSleep <b true>} {Docked <b true>}]",
    ),
    (
        "call 1 19 get-all /org/freedesktop/login1 org.freedesktop.login1.Session",
        "granted []",
    ),
];

/// Each property of a session, and all of two others.
const SESSION: [(&str, &str); 22] = [
    (
        "call 1 10 get /org/freedesktop/login1/session/c1 % Id",
        "granted <s c1>",
    ),
    (
        "call 1 11 get /org/freedesktop/login1/session/c1 % User",
        "granted <(uo) (1000 /org/freedesktop/login1/user/_1000)>",
    ),
    (
        "call 1 12 get /org/freedesktop/login1/session/c1 % Name",
        "granted <s alice%20a>",
    ),
    (
        "call 1 13 get /org/freedesktop/login1/session/c1 % VTNr",
        "granted <u 1>",
    ),
    (
        "call 1 14 get /org/freedesktop/login1/session/c1 % Seat",
        "granted <(so) (seat0 /org/freedesktop/login1/seat/seat0)>",
    ),
    (
        "call 1 15 get /org/freedesktop/login1/session/c1 % TTY",
        "granted <s tty1>",
    ),
    (
        "call 1 16 get /org/freedesktop/login1/session/c1 % Display",
        "granted <s :0>",
    ),
    (
        "call 1 17 get /org/freedesktop/login1/session/c1 % Remote",
        "granted <b true>",
    ),
    (
        "call 1 18 get /org/freedesktop/login1/session/c1 % RemoteHost",
        "granted <s far>",
    ),
    (
        "call 1 19 get /org/freedesktop/login1/session/c1 % RemoteUser",
        "granted <s bob>",
    ),
    (
        "call 1 20 get /org/freedesktop/login1/session/c1 % Service",
        "granted <s login>",
    ),
    (
        "call 1 21 get /org/freedesktop/login1/session/c1 % Desktop",
        "granted <s gnome>",
    ),
    (
        "call 1 22 get /org/freedesktop/login1/session/c1 % Scope",
        "granted <s session-c1.scope>",
    ),
    (
        "call 1 23 get /org/freedesktop/login1/session/c1 % Leader",
        "granted <u 2>",
    ),
    (
        "call 1 24 get /org/freedesktop/login1/session/c1 % Type",
        "granted <s wayland>",
    ),
    (
        "call 1 25 get /org/freedesktop/login1/session/c1 % Class",
        "granted <s user>",
    ),
    (
        "call 1 26 get /org/freedesktop/login1/session/c1 org.freedesktop.login1.Session Active",
        "granted <b true>",
    ),
    (
        "call 1 27 get /org/freedesktop/login1/session/c1 % State",
        "granted <s active>",
    ),
    (
        "call 1 28 get /org/freedesktop/login1/session/c1 % IdleHint",
        "granted <b true>",
    ),
    (
        "call 1 29 get /org/freedesktop/login1/session/c1 % LockedHint",
        "granted <b false>",
    ),
    (
        "call 1 30 get-all /org/freedesktop/login1/session/c2 %",
        "granted [{Id <s c2>} {User <(uo) (0 /org/freedesktop/login1/user/_0)>} {Name <s root>} {VTNr <u 0>} \
         {Seat <(so) (% /)>} {TTY <s %>} {Display <s %>} {Remote <b false>} {RemoteHost <s %>} {RemoteUser <s %>} \
         {Service <s cron>} {Desktop <s %>} {Scope <s session-c2.scope>} {Leader <u 1>} {Type <s mir>} \
         {Class <s background>} {Active <b true>} {State <s active>} {IdleHint <b false>} {LockedHint <b true>}]",
    ),
    (
        "call 1 31 get-all /org/freedesktop/login1/session/c3 org.freedesktop.login1.Session",
        "granted [{Id <s c3>} {User <(uo) (1001 /org/freedesktop/login1/user/_1001)>} {Name <s %>} {VTNr <u 0>} \
         {Seat <(so) (seat-x /org/freedesktop/login1/seat/seat_2dx)>} {TTY <s %>} {Display <s %>} {Remote <b false>} \
         {RemoteHost <s %>} {RemoteUser <s %>} {Service <s gdm>} {Desktop <s %>} {Scope <s session-c3.scope>} \
         {Leader <u 1>} {Type <s unspecified>} {Class <s user>} {Active <b true>} {State <s active>} \
         {IdleHint <b false>} {LockedHint <b false>}]",
    ),
];

/// Each property of a user, and all of one who lingers.
const USER: [(&str, &str); 8] = [
    (
        "call 1 10 get /org/freedesktop/login1/user/_1000 % UID",
        "granted <u 1000>",
    ),
    (
        "call 1 11 get /org/freedesktop/login1/user/_1000 % GID",
        "granted <u 1007>",
    ),
    (
        "call 1 12 get /org/freedesktop/login1/user/_1000 % Name",
        "granted <s alice%20a>",
    ),
    (
        "call 1 13 get /org/freedesktop/login1/user/_1000 % Slice",
        "granted <s user-1000.slice>",
    ),
    (
        "call 1 14 get /org/freedesktop/login1/user/_1000 % State",
        "granted <s active>",
    ),
    (
        "call 1 15 get /org/freedesktop/login1/user/_1000 % Sessions",
        "granted <a(so) [(c1 /org/freedesktop/login1/session/c1)]>",
    ),
    (
        "call 1 16 get /org/freedesktop/login1/user/_1000 org.freedesktop.login1.User Linger",
        "granted <b false>",
    ),
    (
        "call 1 17 get-all /org/freedesktop/login1/user/_1001 %",
        "granted [{UID <u 1001>} {GID <u 1008>} {Name <s %>} {Slice <s user-1001.slice>} {State <s active>} \
         {Sessions <a(so) [(c3 /org/freedesktop/login1/session/c3)]>} {Linger <b true>}]",
    ),
];

/// Each property of a seat, and all of the other one.
const SEAT: [(&str, &str); 6] = [
    (
        "call 1 10 get /org/freedesktop/login1/seat/seat_2dx % Id",
        "granted <s seat-x>",
    ),
    (
        "call 1 11 get /org/freedesktop/login1/seat/seat_2dx % ActiveSession",
        "granted <(so) (c3 /org/freedesktop/login1/session/c3)>",
    ),
    (
        "call 1 12 get /org/freedesktop/login1/seat/seat_2dx % CanTTY",
        "granted <b false>",
    ),
    (
        "call 1 13 get /org/freedesktop/login1/seat/seat_2dx % CanGraphical",
        "granted <b true>",
    ),
    (
        "call 1 14 get /org/freedesktop/login1/seat/seat_2dx org.freedesktop.login1.Seat Sessions",
        "granted <a(so) [(c3 /org/freedesktop/login1/session/c3)]>",
    ),
    (
        "call 1 15 get-all /org/freedesktop/login1/seat/seat0 %",
        "granted [{Id <s seat0>} {ActiveSession <(so) (c1 /org/freedesktop/login1/session/c1)>} {CanTTY <b true>} \
         {CanGraphical <b false>} {Sessions <a(so) [(c1 /org/freedesktop/login1/session/c1)]>}]",
    ),
];

/// A session that is active and another one of its user, one of a user who has no other, and two that are closing: of a
/// user who lingers, and of one who doesn't. A seat has no session.
const CLOSING: Beginning = Beginning {
    piece: (
        "\
login-recording 1
user 1000 1000 alice
user 1001 1001 bob
user 1002 1002 carol
user 1003 1003 dan
go
connect 1 0
add 226 1 drm seat-x
call 1 1 create 1000 1 login tty user % seat0 1 % % false % %
call 1 2 create 1000 1 login tty user % seat0 2 % % false % %
call 1 3 create 1001 1 login tty user % seat0 3 % % false % %
call 1 4 create 1002 1 login tty user % seat0 4 % % false % %
call 1 5 create 1003 1 login tty user % seat0 5 % % false % %
call 1 6 linger 1002 true
call 1 7 close 4
call 1 8 close 5
",
        "\
login-transcript 1
1 connect 1 0
 granted
 set conn 1 0
2 add 226 1 drm seat-x
 granted
 set dev 226:1 drm seat-x
 set seat seat-x present
 all seat-new seat-x
3 call 1 1 create 1000 1 login tty user % seat0 1 % % false % %
 granted c1 /org/freedesktop/login1/session/c1 /run/user/1000 1 1000 seat0 1 false
 set user 1000 known
 all user-new 1000
 set owner 1 fifo 1 c1
 set sess c1 open 1000 seat0 1 tty user
 all session-new c1
 all active seat0 - c1
4 call 1 2 create 1000 1 login tty user % seat0 2 % % false % %
 granted c2 /org/freedesktop/login1/session/c2 /run/user/1000 2 1000 seat0 2 false
 set owner 2 fifo 1 c2
 set sess c2 open 1000 seat0 2 tty user
 all session-new c2
5 call 1 3 create 1001 1 login tty user % seat0 3 % % false % %
 granted c3 /org/freedesktop/login1/session/c3 /run/user/1001 3 1001 seat0 3 false
 set user 1001 known
 all user-new 1001
 set owner 3 fifo 1 c3
 set sess c3 open 1001 seat0 3 tty user
 all session-new c3
6 call 1 4 create 1002 1 login tty user % seat0 4 % % false % %
 granted c4 /org/freedesktop/login1/session/c4 /run/user/1002 4 1002 seat0 4 false
 set user 1002 known
 all user-new 1002
 set owner 4 fifo 1 c4
 set sess c4 open 1002 seat0 4 tty user
 all session-new c4
7 call 1 5 create 1003 1 login tty user % seat0 5 % % false % %
 granted c5 /org/freedesktop/login1/session/c5 /run/user/1003 5 1003 seat0 5 false
 set user 1003 known
 all user-new 1003
 set owner 5 fifo 1 c5
 set sess c5 open 1003 seat0 5 tty user
 all session-new c5
8 call 1 6 linger 1002 true
 granted
 set linger 1002 true
9 call 1 7 close 4
 granted
 set owner 4 closed
 set sess c4 closing
10 call 1 8 close 5
 granted
 set owner 5 closed
 set sess c5 closing
",
    ),
    entries: 10,
};

/// The states of sessions and users, and a seat without an active session.
const STATES: [(&str, &str); 14] = [
    (
        "call 1 10 get /org/freedesktop/login1/session/c1 % State",
        "granted <s active>",
    ),
    (
        "call 1 11 get /org/freedesktop/login1/session/c2 % State",
        "granted <s online>",
    ),
    (
        "call 1 12 get /org/freedesktop/login1/session/c2 % Active",
        "granted <b false>",
    ),
    (
        "call 1 13 get /org/freedesktop/login1/session/c4 % State",
        "granted <s closing>",
    ),
    (
        "call 1 14 get /org/freedesktop/login1/session/c4 % Active",
        "granted <b false>",
    ),
    (
        "call 1 15 get /org/freedesktop/login1/session/c4 % Seat",
        "granted <(so) (seat0 /org/freedesktop/login1/seat/seat0)>",
    ),
    (
        "call 1 16 get /org/freedesktop/login1/user/_1000 % State",
        "granted <s active>",
    ),
    (
        "call 1 17 get /org/freedesktop/login1/user/_1001 % State",
        "granted <s online>",
    ),
    (
        "call 1 18 get /org/freedesktop/login1/user/_1002 % State",
        "granted <s lingering>",
    ),
    (
        "call 1 19 get /org/freedesktop/login1/user/_1003 % State",
        "granted <s closing>",
    ),
    (
        "call 1 20 get /org/freedesktop/login1/user/_1003 % Sessions",
        "granted <a(so) [(c5 /org/freedesktop/login1/session/c5)]>",
    ),
    (
        "call 1 21 get /org/freedesktop/login1/user/_1000 % Sessions",
        "granted <a(so) [(c1 /org/freedesktop/login1/session/c1) (c2 /org/freedesktop/login1/session/c2)]>",
    ),
    (
        "call 1 22 get /org/freedesktop/login1/seat/seat_2dx % ActiveSession",
        "granted <(so) (% /)>",
    ),
    (
        "call 1 23 get /org/freedesktop/login1/seat/seat_2dx % Sessions",
        "granted <a(so) []>",
    ),
];

/// Objects that are not there, properties that there are not, and that none can be set. A rule about the object comes
/// first, and an unknown name before one that can't be set.
const DENIED: [(&str, &str); 16] = [
    (
        "call 1 10 get /org/freedesktop/login1/session/c9 % Nothing",
        "denied P04 no-such-session",
    ),
    (
        "call 1 11 get-all /org/freedesktop/login1/session/x org.freedesktop.login1.Seat",
        "denied P04 no-such-session",
    ),
    (
        "call 1 12 set /org/freedesktop/login1/user/_1002 % UID",
        "denied P05 no-such-user",
    ),
    (
        "call 1 13 get-all /org/freedesktop/login1/seat/seat1 %",
        "denied P06 no-such-seat",
    ),
    (
        "call 1 14 get /org/freedesktop/login1/seat/desk % Id",
        "denied P06 no-such-seat",
    ),
    (
        "call 1 15 get /org/freedesktop/login1/session/c1 % UID",
        "denied P22 unknown-property",
    ),
    (
        "call 1 16 get /org/freedesktop/login1/session/c1 % id",
        "denied P22 unknown-property",
    ),
    (
        "call 1 17 get /org/freedesktop/login1/session/c1 org.freedesktop.login1.Seat Id",
        "denied P22 unknown-property",
    ),
    (
        "call 1 18 get /org/freedesktop/login1/session/c1 % %",
        "denied P22 unknown-property",
    ),
    (
        "call 1 19 set /org/freedesktop/login1/session/c1 % IdleHint",
        "denied P22 read-only-property",
    ),
    (
        "call 1 20 set /org/freedesktop/login1 org.freedesktop.login1.Manager Docked",
        "denied P22 read-only-property",
    ),
    (
        "call 1 21 set /org/freedesktop/login1 org.freedesktop.login1.Seat Docked",
        "denied P22 unknown-property",
    ),
    (
        "call 1 22 set /org/freedesktop/login1/seat/seat0 % Idle",
        "denied P22 unknown-property",
    ),
    (
        "send 1 23 set /org/freedesktop/login1/user/_0 % Linger",
        "denied P22 read-only-property",
    ),
    (
        "call 1 24 get /org/freedesktop/login1/session/_ % Id",
        "denied P04 no-such-session",
    ),
    (
        "call 1 25 get /org/freedesktop/login1/seat/seat0 org.freedesktop.login1.Seat Foo",
        "denied P22 unknown-property",
    ),
];

/// Paths that are those of no object.
pub const NOWHERE: [&str; 12] = [
    "%",
    "x",
    "/",
    "/org/freedesktop/login1/",
    "/org/freedesktop/DBus",
    "/login/model/machine",
    "/org/freedesktop/login1/session",
    "/org/freedesktop/login1/session/",
    "/org/freedesktop/login1/seat/seat-x",
    "/org/freedesktop/login1/seat/seat_2Dx",
    "/org/freedesktop/login1/user/_01",
    "/org/freedesktop/login1/user/1000",
];

/// Calls of the bus and of peers.
const BUS: [(&str, &str); 10] = [
    ("call 1 10 ping", "granted"),
    (
        "call 1 11 machine-id",
        "granted 00112233445566778899aabbccddeeff",
    ),
    ("call 2 12 hello", "granted :1.2"),
    ("call 1 13 owner org.freedesktop.login1", "granted :1.0"),
    ("call 1 14 owner org.freedesktop.DBus", "denied P35 nobody"),
    ("call 1 15 owner :1.0", "denied P35 nobody"),
    ("call 1 16 owner %", "denied P35 nobody"),
    ("call 1 19 owner x.y", "denied P35 nobody"),
    ("call 1 17 add-match type='signal'", "granted"),
    ("call 1 18 remove-match no%20rule", "granted"),
];

/// Each with the objects that are asked, or what is asked of them.
pub const ANSWERED: [Answered; 7] = [
    Answered {
        name: "properties of the manager",
        beginning: SOME,
        lines: &MANAGER,
    },
    Answered {
        name: "properties of sessions",
        beginning: SOME,
        lines: &SESSION,
    },
    Answered {
        name: "properties of users",
        beginning: SOME,
        lines: &USER,
    },
    Answered {
        name: "properties of seats",
        beginning: SOME,
        lines: &SEAT,
    },
    Answered {
        name: "states of sessions and users",
        beginning: CLOSING,
        lines: &STATES,
    },
    Answered {
        name: "unknown properties and settings",
        beginning: SOME,
        lines: &DENIED,
    },
    Answered {
        name: "calls of the bus",
        beginning: SOME,
        lines: &BUS,
    },
];
