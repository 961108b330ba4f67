// Handles of devices that are closed, and sessions that end or are given back with devices taken.

use super::fronts::{OTHER_SEAT, SESSIONS, TAKES};
use crate::{Case, Piece};

/// What is done with a session's handles: while they are taken, after the device is given back, and after they
/// are closed.
const HANDLES: Piece = (
    "\
call 2 2 take c1 13 64
call 2 3 take c1 226 0
call 2 4 read 9
call 3 2 read 3
call 1 3 read 1
call 2 5 read 4
call 2 6 set-mode 3 1
input 13 64 1 30 1
input 226 0 1 30 1
input 13 65 1 30 1
call 2 7 read 3
call 2 8 read 3
call 2 9 release c1 13 64
call 2 10 read 3
call 2 11 release c1 13 64
add 13 64 evdev seat0
remove 13 65
call 2 12 set-mode 4 7
call 2 13 close 4
call 2 14 close 3
call 2 15 read 3
call 2 16 set-mode 4 7
end
",
    "\
10 call 2 2 take c1 13 64
 granted 3 false
 set owner 3 device 2 c1 13:64
 set taken c1 13:64 3
 set live 3 true
11 call 2 3 take c1 226 0
 granted 4 false
 set owner 4 device 2 c1 226:0
 set taken c1 226:0 4
 set live 4 true
12 call 2 4 read 9
 denied P07 no-such-handle
13 call 3 2 read 3
 denied P28 not-yours
14 call 1 3 read 1
 denied P29 wrong-kind
15 call 2 5 read 4
 denied P29 wrong-kind
16 call 2 6 set-mode 3 1
 denied P29 wrong-kind
17 input 13 64 1 30 1
 granted
18 input 226 0 1 30 1
 denied P29 wrong-kind
19 input 13 65 1 30 1
 denied P31 device-absent
20 call 2 7 read 3
 granted [(1 30 1)]
21 call 2 8 read 3
 granted []
22 call 2 9 release c1 13 64
 granted
 set live 3 false
 set taken c1 13:64 -
23 call 2 10 read 3
 denied P27 not-live
24 call 2 11 release c1 13 64
 denied P20 device-not-taken
25 add 13 64 evdev seat0
 denied P30 device-present
26 remove 13 65
 denied P31 device-absent
27 call 2 12 set-mode 4 7
 granted
 set mode 226:0 7
28 call 2 13 close 4
 granted
 set live 4 false
 set taken c1 226:0 -
 set owner 4 closed
29 call 2 14 close 3
 granted
 set owner 3 closed
30 call 2 15 read 3
 denied P07 no-such-handle
31 call 2 16 set-mode 4 7
 denied P07 no-such-handle
end 31
",
);

/// Handles that a controller keeps after another one took control by force. Closing them leaves the new
/// controller's handle alone.
const AFTER_OUSTER: Piece = (
    "\
call 1 3 control c1 true
call 2 4 read 4
call 2 5 close 4
call 1 4 take c1 226 0
call 2 6 set-mode 7 1
call 2 7 set-mode 3 1
call 2 8 close 3
call 1 5 set-mode 7 5
call 2 9 close 3
call 1 6 control c1 false
call 2 10 uncontrol c1
end
",
    "\
14 call 1 3 control c1 true
 granted
 say 2 pause c1 13:64 gone
 set live 4 false
 set taken c1 13:64 -
 say 2 pause c1 226:0 gone
 set live 3 false
 set taken c1 226:0 -
 set ctl c1 1
15 call 2 4 read 4
 denied P27 not-live
16 call 2 5 close 4
 granted
 set owner 4 closed
17 call 1 4 take c1 226 0
 granted 7 false
 set owner 7 device 1 c1 226:0
 set taken c1 226:0 7
 set live 7 true
18 call 2 6 set-mode 7 1
 denied P28 not-yours
19 call 2 7 set-mode 3 1
 denied P27 not-live
20 call 2 8 close 3
 granted
 set owner 3 closed
21 call 1 5 set-mode 7 5
 granted
 set mode 226:0 5
22 call 2 9 close 3
 denied P07 no-such-handle
23 call 1 6 control c1 false
 granted
24 call 2 10 uncontrol c1
 denied P18 not-in-control
end 24
",
);

/// A controller gives a session back, and another one takes control and a device.
const UNCONTROLLED: Piece = (
    "\
call 2 4 uncontrol c1
call 2 5 read 4
call 2 6 take c1 13 64
call 1 3 control c1 false
call 1 4 take c1 13 64
input 13 64 3 1 -7
call 2 7 read 4
call 2 8 read 7
call 1 5 read 7
end
",
    "\
14 call 2 4 uncontrol c1
 granted
 set live 4 false
 set taken c1 13:64 -
 set live 3 false
 set taken c1 226:0 -
 set ctl c1 -
15 call 2 5 read 4
 denied P27 not-live
16 call 2 6 take c1 13 64
 denied P18 not-in-control
17 call 1 3 control c1 false
 granted
 set ctl c1 1
18 call 1 4 take c1 13 64
 granted 7 false
 set owner 7 device 1 c1 13:64
 set taken c1 13:64 7
 set live 7 true
19 input 13 64 3 1 -7
 granted
20 call 2 7 read 4
 denied P27 not-live
21 call 2 8 read 7
 denied P28 not-yours
22 call 1 5 read 7
 granted [(3 1 -7)]
end 22
",
);

/// Sessions end by a call and by the end of their last process.
const ENDED: Piece = (
    "\
call 2 4 terminate c1
exit c2
call 3 4 release c2 13 64
call 2 5 release c1 13 64
call 2 6 close 4
end
",
    "\
14 call 2 4 terminate c1
 granted
 set live 4 false
 set taken c1 13:64 -
 set live 3 false
 set taken c1 226:0 -
 set ctl c1 -
 set sess c1 closing
 all active seat0 c1 -
15 exit c2
 granted
 set taken c2 13:64 -
 set taken c2 226:0 -
 set ctl c2 -
 set sess c2 closing
 set sess c2 gone
 all session-removed c2
 set user 1001 leaving 0
16 call 3 4 release c2 13 64
 denied P04 no-such-session
17 call 2 5 release c1 13 64
 denied P18 not-in-control
18 call 2 6 close 4
 granted
 set owner 4 closed
end 18
",
);

/// The fifo of a session is closed, and then its creator disconnects.
const FIFO_CLOSED: Piece = (
    "\
call 1 3 close 1
disconnect 1
end
",
    "\
14 call 1 3 close 1
 granted
 set owner 1 closed
 set live 4 false
 set taken c1 13:64 -
 set live 3 false
 set taken c1 226:0 -
 set ctl c1 -
 set sess c1 closing
 all active seat0 c1 -
15 disconnect 1
 granted
 set taken c2 13:64 -
 set taken c2 226:0 -
 set ctl c2 -
 set sess c2 closing
 set conn 1 gone
end 15
",
);

/// A handle that a fresh one replaced is closed, and the device stays taken.
const REPLACED: Piece = (
    "\
call 1 2 create 1000 2 login tty user % seat-x 0 % % false % %
call 2 4 activate c1
call 2 5 close 2
input 13 70 1 30 1
call 2 6 read 5
call 2 7 close 5
call 2 8 release c1 13 70
end
",
    "\
9 call 1 2 create 1000 2 login tty user % seat-x 0 % % false % %
 granted c2 /org/freedesktop/login1/session/c2 /run/user/1000 4 1000 seat-x 0 false
 set owner 4 fifo 1 c2
 set sess c2 open 1000 seat-x 0 tty user
 all session-new c2
 set live 2 false
 say 2 pause c1 13:70 force
 set live 3 false
 say 2 pause c1 226:1 force
 set act seat-x c2
 all active seat-x c1 c2
10 call 2 4 activate c1
 granted
 set act seat-x c1
 all active seat-x c2 c1
 set owner 5 device 2 c1 13:70
 set live 5 true
 set taken c1 13:70 5
 say 2 resume c1 13:70 5
 set live 3 true
 say 2 resume c1 226:1 3
11 call 2 5 close 2
 granted
 set owner 2 closed
12 input 13 70 1 30 1
 granted
13 call 2 6 read 5
 granted [(1 30 1)]
14 call 2 7 close 5
 granted
 set live 5 false
 set taken c1 13:70 -
 set owner 5 closed
15 call 2 8 release c1 13 70
 denied P20 device-not-taken
end 15
",
);

/// Each with what it shows of handles and sessions that end.
pub const CASES: [Case; 6] = [
    Case {
        name: "handles are used and closed",
        pieces: &[SESSIONS, HANDLES],
    },
    Case {
        name: "handles of an ousted controller",
        pieces: &[SESSIONS, TAKES, AFTER_OUSTER],
    },
    Case {
        name: "a session is given back",
        pieces: &[SESSIONS, TAKES, UNCONTROLLED],
    },
    Case {
        name: "sessions end",
        pieces: &[SESSIONS, TAKES, ENDED],
    },
    Case {
        name: "fifos are closed",
        pieces: &[SESSIONS, TAKES, FIFO_CLOSED],
    },
    Case {
        name: "a replaced handle is closed",
        pieces: &[OTHER_SEAT, REPLACED],
    },
];
