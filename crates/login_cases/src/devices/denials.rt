// What the rules on devices deny, and which of several comes first.

use super::fronts::SESSIONS;
use crate::{Answered, Beginning, Case, Piece};

/// A session that has taken a device; one without a seat, which the same connection controls; one that is
/// closing; and a device on another seat.
const DEVICES: Beginning = Beginning {
    piece: (
        "\
login-recording 1
user 1000 1000 alice
user 1001 1001 bob
go
connect 1 0
connect 2 1000
connect 3 1001
add 226 0 drm seat0
add 13 64 evdev seat0
add 226 1 drm seat-x
call 1 1 create 1000 2 login tty user % seat0 1 tty1 % false % %
call 1 2 create 1000 2 login tty user % % 0 % % false % %
call 1 3 create 1000 2 login tty user % seat0 3 tty3 % false % %
call 2 1 control c1 false
call 2 2 control c2 false
call 2 3 control c3 false
call 2 4 take c1 13 64
call 2 5 take c3 226 0
call 2 6 terminate c3
",
        "\
login-transcript 1
1 connect 1 0
 granted
 set conn 1 0
2 connect 2 1000
 granted
 set conn 2 1000
3 connect 3 1001
 granted
 set conn 3 1001
4 add 226 0 drm seat0
 granted
 set dev 226:0 drm seat0
5 add 13 64 evdev seat0
 granted
 set dev 13:64 evdev seat0
6 add 226 1 drm seat-x
 granted
 set dev 226:1 drm seat-x
 set seat seat-x present
 all seat-new seat-x
7 call 1 1 create 1000 2 login tty user % seat0 1 tty1 % false % %
 granted c1 /org/freedesktop/login1/session/c1 /run/user/1000 1 1000 seat0 1 false
 set user 1000 known
 all user-new 1000
 set owner 1 fifo 1 c1
 set sess c1 open 1000 seat0 1 tty user
 all session-new c1
 all active seat0 - c1
8 call 1 2 create 1000 2 login tty user % % 0 % % false % %
 granted c2 /org/freedesktop/login1/session/c2 /run/user/1000 2 1000 % 0 false
 set owner 2 fifo 1 c2
 set sess c2 open 1000 - 0 tty user
 all session-new c2
9 call 1 3 create 1000 2 login tty user % seat0 3 tty3 % false % %
 granted c3 /org/freedesktop/login1/session/c3 /run/user/1000 3 1000 seat0 3 false
 set owner 3 fifo 1 c3
 set sess c3 open 1000 seat0 3 tty user
 all session-new c3
10 call 2 1 control c1 false
 granted
 set ctl c1 2
11 call 2 2 control c2 false
 granted
 set ctl c2 2
12 call 2 3 control c3 false
 granted
 set ctl c3 2
13 call 2 4 take c1 13 64
 granted 4 false
 set owner 4 device 2 c1 13:64
 set taken c1 13:64 4
 set live 4 true
14 call 2 5 take c3 226 0
 granted 5 true
 set owner 5 device 2 c3 226:0
 set taken c3 226:0 5
15 call 2 6 terminate c3
 granted
 set taken c3 226:0 -
 set ctl c3 -
 set sess c3 closing
",
    ),
    entries: 15,
};

/// The rules of taking a device and of giving it back, each where the later ones are broken too.
const TAKING: [(&str, &str); 17] = [
    ("call 2 9 take c4 13 64", "denied P04 no-such-session"),
    ("call 2 9 take c01 13 64", "denied P04 no-such-session"),
    ("call 3 9 take c3 13 99", "denied P13 session-closing"),
    ("call 3 9 take c1 13 99", "denied P18 not-in-control"),
    ("call 1 9 take c1 13 64", "denied P18 not-in-control"),
    ("call 3 9 take c2 13 64", "denied P18 not-in-control"),
    ("call 2 9 take c2 13 99", "denied P14 no-seat"),
    ("call 2 9 take c2 13 64", "denied P14 no-seat"),
    ("call 2 9 take c1 13 99", "denied P08 no-such-device"),
    ("call 2 9 take c1 226 1", "denied P16 device-not-on-seat"),
    ("call 2 9 take c1 13 64", "denied P19 device-taken"),
    ("call 2 9 release c4 13 64", "denied P04 no-such-session"),
    ("call 2 9 release c3 226 0", "denied P18 not-in-control"),
    ("call 1 9 release c1 13 64", "denied P18 not-in-control"),
    ("call 2 9 release c1 226 0", "denied P20 device-not-taken"),
    ("call 2 9 release c1 13 99", "denied P20 device-not-taken"),
    ("call 2 9 release c2 13 64", "denied P20 device-not-taken"),
];

/// The rules of acknowledging a pause, each where the later ones are broken too. One that is not awaited does nothing.
const PAUSING: [(&str, &str); 9] = [
    ("call 2 9 paused c4 13 64", "denied P04 no-such-session"),
    ("call 2 9 paused c01 13 64", "denied P04 no-such-session"),
    ("call 2 9 paused c3 226 0", "denied P18 not-in-control"),
    ("call 1 9 paused c1 13 64", "denied P18 not-in-control"),
    ("call 3 9 paused c1 226 0", "denied P18 not-in-control"),
    ("call 2 9 paused c1 226 0", "denied P20 device-not-taken"),
    ("call 2 9 paused c1 13 99", "denied P20 device-not-taken"),
    ("call 2 9 paused c2 13 64", "denied P20 device-not-taken"),
    ("call 2 9 paused c1 13 64", "granted"),
];

/// The rules of using a handle, each where the later ones are broken too.
const USING: [(&str, &str); 14] = [
    ("call 2 9 read 6", "denied P07 no-such-handle"),
    ("call 2 9 read 0", "denied P07 no-such-handle"),
    ("call 3 9 read 6", "denied P07 no-such-handle"),
    ("call 2 9 read 1", "denied P28 not-yours"),
    ("call 3 9 read 4", "denied P28 not-yours"),
    ("call 1 9 read 5", "denied P28 not-yours"),
    ("call 1 9 read 1", "denied P29 wrong-kind"),
    ("call 2 9 read 5", "denied P29 wrong-kind"),
    ("call 2 9 set-mode 6 1", "denied P07 no-such-handle"),
    ("call 3 9 set-mode 5 1", "denied P28 not-yours"),
    ("call 1 9 set-mode 2 1", "denied P29 wrong-kind"),
    ("call 2 9 set-mode 4 1", "denied P29 wrong-kind"),
    ("call 2 9 set-mode 5 1", "denied P27 not-live"),
    ("call 3 9 close 4", "denied P28 not-yours"),
];

/// The rules of what happens to devices, and calls that do nothing.
const HAPPENING: [(&str, &str); 9] = [
    ("add 13 64 evdev seat0", "denied P30 device-present"),
    ("add 13 64 drm seat-y", "denied P30 device-present"),
    ("remove 13 99", "denied P31 device-absent"),
    ("remove 14 64", "denied P31 device-absent"),
    ("input 13 99 1 30 1", "denied P31 device-absent"),
    ("input 226 0 1 30 1", "denied P29 wrong-kind"),
    ("input 13 64 0 0 -2147483648", "granted"),
    ("send 2 9 read 4", "granted [(0 0 -2147483648)]"),
    ("call 2 9 get-seat seat-y", "denied P06 no-such-seat"),
];

/// A session takes a device of its seat once; nobody else takes one for it, and it takes no other.
const TAKEN_ONCE: Piece = (
    "\
call 2 2 take c1 226 0
call 2 3 take c1 226 0
call 3 2 take c1 13 64
add 13 80 drm seat-x
call 2 4 take c1 13 80
call 2 5 take c1 13 99
end
",
    "\
10 call 2 2 take c1 226 0
 granted 3 false
 set owner 3 device 2 c1 226:0
 set taken c1 226:0 3
 set live 3 true
11 call 2 3 take c1 226 0
 denied P19 device-taken
12 call 3 2 take c1 13 64
 denied P18 not-in-control
13 add 13 80 drm seat-x
 granted
 set dev 13:80 drm seat-x
 set seat seat-x present
 all seat-new seat-x
14 call 2 4 take c1 13 80
 denied P16 device-not-on-seat
15 call 2 5 take c1 13 99
 denied P08 no-such-device
end 15
",
);

/// Each with what it shows of taking a device.
pub const CASES: [Case; 1] = [Case {
    name: "a device is taken once",
    pieces: &[SESSIONS, TAKEN_ONCE],
}];

/// Each with the rules that it breaks.
pub const ANSWERED: [Answered; 4] = [
    Answered {
        name: "devices are taken and given back",
        beginning: DEVICES,
        lines: &TAKING,
    },
    Answered {
        name: "pauses are acknowledged",
        beginning: DEVICES,
        lines: &PAUSING,
    },
    Answered {
        name: "handles are used",
        beginning: DEVICES,
        lines: &USING,
    },
    Answered {
        name: "devices come and go",
        beginning: DEVICES,
        lines: &HAPPENING,
    },
];
