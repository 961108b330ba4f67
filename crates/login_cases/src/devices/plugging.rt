// Devices that go and come back while sessions have them taken.

use super::fronts::{OTHER_SEAT, SESSIONS, TAKES};
use crate::{Case, Piece};

/// Both devices go from two sessions that have them taken; one comes back, and is taken again.
const REPLUGGED: Piece = (
    "\
call 2 4 set-mode 3 7
remove 13 64
remove 226 0
add 13 64 evdev seat0
call 2 5 take c1 13 64
input 13 64 1 30 1
call 2 6 read 4
call 2 7 read 7
call 3 4 read 6
call 3 5 release c2 13 64
call 2 8 set-mode 3 7
add 13 64 drm seat0
remove 226 0
end
",
    "\
14 call 2 4 set-mode 3 7
 granted
 set mode 226:0 7
15 remove 13 64
 granted
 say 2 pause c1 13:64 gone
 set live 4 false
 set taken c1 13:64 -
 say 3 pause c2 13:64 gone
 set taken c2 13:64 -
 set dev 13:64 absent
16 remove 226 0
 granted
 say 2 pause c1 226:0 gone
 set live 3 false
 set taken c1 226:0 -
 say 3 pause c2 226:0 gone
 set taken c2 226:0 -
 set dev 226:0 absent
 set mode 226:0 0
17 add 13 64 evdev seat0
 granted
 set dev 13:64 evdev seat0
18 call 2 5 take c1 13 64
 granted 7 false
 set owner 7 device 2 c1 13:64
 set taken c1 13:64 7
 set live 7 true
19 input 13 64 1 30 1
 granted
20 call 2 6 read 4
 denied P27 not-live
21 call 2 7 read 7
 granted [(1 30 1)]
22 call 3 4 read 6
 denied P27 not-live
23 call 3 5 release c2 13 64
 denied P20 device-not-taken
24 call 2 8 set-mode 3 7
 denied P27 not-live
25 add 13 64 drm seat0
 denied P30 device-present
26 remove 226 0
 denied P31 device-absent
end 26
",
);

/// A device comes back as one of another kind; its old handle is of the wrong kind then, and was dead before.
const CHANGED: Piece = (
    "\
remove 13 64
call 2 4 read 4
add 13 64 drm seat0
call 2 5 read 4
call 2 6 set-mode 4 1
call 2 7 take c1 13 64
call 2 8 set-mode 7 1
end
",
    "\
14 remove 13 64
 granted
 say 2 pause c1 13:64 gone
 set live 4 false
 set taken c1 13:64 -
 say 3 pause c2 13:64 gone
 set taken c2 13:64 -
 set dev 13:64 absent
15 call 2 4 read 4
 denied P27 not-live
16 add 13 64 drm seat0
 granted
 set dev 13:64 drm seat0
17 call 2 5 read 4
 denied P29 wrong-kind
18 call 2 6 set-mode 4 1
 denied P27 not-live
19 call 2 7 take c1 13 64
 granted 7 false
 set owner 7 device 2 c1 13:64
 set taken c1 13:64 7
 set live 7 true
20 call 2 8 set-mode 7 1
 granted
 set mode 13:64 1
end 20
",
);

/// The last graphics device of a seat goes, and takes its sessions and the seat along; an input device stays
/// without a seat. The seat comes back with a graphics device, and the sessions do not.
const LAST_GRAPHICS: Piece = (
    "\
call 1 2 create 1000 2 login tty user % seat-x 0 % % false % %
add 226 2 drm seat-x
remove 226 1
remove 226 2
call 1 3 create 1000 2 login tty user % seat-x 0 % % false % %
call 2 4 take c1 13 70
input 13 70 1 30 1
add 226 1 drm seat-x
call 1 4 activate c1
call 1 5 next seat-x
call 1 6 create 1000 2 login tty user % seat-x 0 % % false % %
call 2 5 control c3 false
call 2 6 take c3 13 70
end
",
    "\
9 call 1 2 create 1000 2 login tty user % seat-x 0 % % false % %
 granted c2 /org/freedesktop/login1/session/c2 /run/user/1000 4 1000 seat-x 0 false
 set owner 4 fifo 1 c2
 set sess c2 open 1000 seat-x 0 tty user
 all session-new c2
 set live 2 false
 say 2 pause c1 13:70 force
 set live 3 false
 say 2 pause c1 226:1 force
 set act seat-x c2
 all active seat-x c1 c2
10 add 226 2 drm seat-x
 granted
 set dev 226:2 drm seat-x
11 remove 226 1
 granted
 say 2 pause c1 226:1 gone
 set taken c1 226:1 -
 set dev 226:1 absent
12 remove 226 2
 granted
 set dev 226:2 absent
 set taken c1 13:70 -
 set ctl c1 -
 set sess c1 closing
 set sess c2 closing
 set act seat-x -
 all active seat-x c2 -
 set seat seat-x absent
 all seat-removed seat-x
13 call 1 3 create 1000 2 login tty user % seat-x 0 % % false % %
 denied P06 no-such-seat
14 call 2 4 take c1 13 70
 denied P13 session-closing
15 input 13 70 1 30 1
 granted
16 add 226 1 drm seat-x
 granted
 set dev 226:1 drm seat-x
 set seat seat-x present
 all seat-new seat-x
17 call 1 4 activate c1
 denied P13 session-closing
18 call 1 5 next seat-x
 granted
19 call 1 6 create 1000 2 login tty user % seat-x 0 % % false % %
 granted c3 /org/freedesktop/login1/session/c3 /run/user/1000 5 1000 seat-x 0 false
 set owner 5 fifo 1 c3
 set sess c3 open 1000 seat-x 0 tty user
 all session-new c3
 set act seat-x c3
 all active seat-x - c3
20 call 2 5 control c3 false
 granted
 set ctl c3 2
21 call 2 6 take c3 13 70
 granted 6 false
 set owner 6 device 2 c3 13:70
 set taken c3 13:70 6
 set live 6 true
end 21
",
);

/// An input device makes no seat, and takes none along; seat0 needs no device.
const NO_SEAT: Piece = (
    "\
login-recording 1
go
connect 1 0
add 13 70 evdev seat-x
call 1 1 get-seat seat-x
add 226 0 drm seat0
remove 226 0
add 226 1 drm seat-x
add 13 71 evdev seat-x
remove 13 70
remove 13 71
call 1 2 list-seats
remove 226 1
call 1 3 list-seats
end
",
    "\
login-transcript 1
1 connect 1 0
 granted
 set conn 1 0
2 add 13 70 evdev seat-x
 granted
 set dev 13:70 evdev seat-x
3 call 1 1 get-seat seat-x
 denied P06 no-such-seat
4 add 226 0 drm seat0
 granted
 set dev 226:0 drm seat0
5 remove 226 0
 granted
 set dev 226:0 absent
6 add 226 1 drm seat-x
 granted
 set dev 226:1 drm seat-x
 set seat seat-x present
 all seat-new seat-x
7 add 13 71 evdev seat-x
 granted
 set dev 13:71 evdev seat-x
8 remove 13 70
 granted
 set dev 13:70 absent
9 remove 13 71
 granted
 set dev 13:71 absent
10 call 1 2 list-seats
 granted [(seat-x /org/freedesktop/login1/seat/seat_2dx) (seat0 /org/freedesktop/login1/seat/seat0)]
11 remove 226 1
 granted
 set dev 226:1 absent
 set seat seat-x absent
 all seat-removed seat-x
12 call 1 3 list-seats
 granted [(seat0 /org/freedesktop/login1/seat/seat0)]
end 12
",
);

/// Each with what it shows of devices that go and come.
pub const CASES: [Case; 4] = [
    Case {
        name: "devices go from several sessions",
        pieces: &[SESSIONS, TAKES, REPLUGGED],
    },
    Case {
        name: "a device comes back as another kind",
        pieces: &[SESSIONS, TAKES, CHANGED],
    },
    Case {
        name: "a seat goes with its last graphics device",
        pieces: &[OTHER_SEAT, LAST_GRAPHICS],
    },
    Case {
        name: "seats follow graphics devices alone",
        pieces: &[NO_SEAT],
    },
];
