// What handles hear.

use super::fronts::{OTHER_SEAT, SESSIONS, TAKES};
use crate::{Case, Piece};

/// A switch is asked for, and then withdrawn: the handle was live all the time, so it can be read meanwhile, and
/// keeps what it heard.
const WITHDRAWN: Piece = (
    "\
input 13 64 1 30 1
vtkey 2
call 2 4 read 4
input 13 64 1 31 0
vtkey 1
input 13 64 1 32 1
call 2 5 read 4
call 2 6 read 4
end
",
    "\
14 input 13 64 1 30 1
 granted
15 vtkey 2
 granted
 set pending 2
 set awaited c1 13:64 true
 say 2 pause c1 13:64 pause
 set awaited c1 226:0 true
 say 2 pause c1 226:0 pause
16 call 2 4 read 4
 granted [(1 30 1)]
17 input 13 64 1 31 0
 granted
18 vtkey 1
 granted
 set pending -
 set awaited c1 13:64 false
 set awaited c1 226:0 false
 say 2 resume c1 13:64 4
 say 2 resume c1 226:0 3
19 input 13 64 1 32 1
 granted
20 call 2 5 read 4
 granted [(1 31 0) (1 32 1)]
21 call 2 6 read 4
 granted []
end 21
",
);

/// A session loses its input device, and gets it back with a fresh handle: what came meanwhile, and what the old
/// handle did not read, is not heard. Then the device comes back as one of another kind.
const MISSED: Piece = (
    "\
input 13 70 1 30 1
call 1 2 create 1000 2 login tty user % seat-x 0 % % false % %
input 13 70 1 31 1
call 2 4 activate c1
call 2 5 read 2
call 2 6 read 5
remove 13 70
add 13 70 drm seat-x
call 2 7 read 5
remove 226 1
remove 13 70
end
",
    "\
9 input 13 70 1 30 1
 granted
10 call 1 2 create 1000 2 login tty user % seat-x 0 % % false % %
 granted c2 /org/freedesktop/login1/session/c2 /run/user/1000 4 1000 seat-x 0 false
 set owner 4 fifo 1 c2
 set sess c2 open 1000 seat-x 0 tty user
 all session-new c2
 set live 2 false
 say 2 pause c1 13:70 force
 set live 3 false
 say 2 pause c1 226:1 force
 set act seat-x c2
 all active seat-x c1 c2
11 input 13 70 1 31 1
 granted
12 call 2 4 activate c1
 granted
 set act seat-x c1
 all active seat-x c2 c1
 set owner 5 device 2 c1 13:70
 set live 5 true
 set taken c1 13:70 5
 say 2 resume c1 13:70 5
 set live 3 true
 say 2 resume c1 226:1 3
13 call 2 5 read 2
 denied P27 not-live
14 call 2 6 read 5
 granted []
15 remove 13 70
 granted
 say 2 pause c1 13:70 gone
 set live 5 false
 set taken c1 13:70 -
 set dev 13:70 absent
16 add 13 70 drm seat-x
 granted
 set dev 13:70 drm seat-x
17 call 2 7 read 5
 denied P29 wrong-kind
18 remove 226 1
 granted
 say 2 pause c1 226:1 gone
 set live 3 false
 set taken c1 226:1 -
 set dev 226:1 absent
19 remove 13 70
 granted
 set dev 13:70 absent
 set ctl c1 -
 set sess c1 closing
 set act seat-x -
 all active seat-x c1 -
 set sess c2 closing
 set seat seat-x absent
 all seat-removed seat-x
end 19
",
);

/// Two sessions that have the same device taken hear in turn: each what comes while its handle is live. An input
/// of another device is not heard, nor is a read of the other handle.
const IN_TURN: Piece = (
    "\
add 13 71 evdev seat-x
input 13 70 1 1 1
input 13 71 1 2 1
call 1 2 create 1000 2 login tty user % seat-x 0 % % false % %
call 1 3 control c2 false
call 1 4 take c2 13 70
call 1 5 take c2 13 71
input 13 70 1 3 1
input 13 71 1 4 1
input 13 70 1 5 1
call 1 6 read 5
call 1 7 read 6
input 13 70 1 6 1
call 2 4 activate c1
call 1 8 read 5
input 13 70 1 7 1
call 2 5 read 7
end
",
    "\
9 add 13 71 evdev seat-x
 granted
 set dev 13:71 evdev seat-x
10 input 13 70 1 1 1
 granted
11 input 13 71 1 2 1
 granted
12 call 1 2 create 1000 2 login tty user % seat-x 0 % % false % %
 granted c2 /org/freedesktop/login1/session/c2 /run/user/1000 4 1000 seat-x 0 false
 set owner 4 fifo 1 c2
 set sess c2 open 1000 seat-x 0 tty user
 all session-new c2
 set live 2 false
 say 2 pause c1 13:70 force
 set live 3 false
 say 2 pause c1 226:1 force
 set act seat-x c2
 all active seat-x c1 c2
13 call 1 3 control c2 false
 granted
 set ctl c2 1
14 call 1 4 take c2 13 70
 granted 5 false
 set owner 5 device 1 c2 13:70
 set taken c2 13:70 5
 set live 5 true
15 call 1 5 take c2 13 71
 granted 6 false
 set owner 6 device 1 c2 13:71
 set taken c2 13:71 6
 set live 6 true
16 input 13 70 1 3 1
 granted
17 input 13 71 1 4 1
 granted
18 input 13 70 1 5 1
 granted
19 call 1 6 read 5
 granted [(1 3 1) (1 5 1)]
20 call 1 7 read 6
 granted [(1 4 1)]
21 input 13 70 1 6 1
 granted
22 call 2 4 activate c1
 granted
 set live 5 false
 say 1 pause c2 13:70 force
 set live 6 false
 say 1 pause c2 13:71 force
 set act seat-x c1
 all active seat-x c2 c1
 set owner 7 device 2 c1 13:70
 set live 7 true
 set taken c1 13:70 7
 say 2 resume c1 13:70 7
 set live 3 true
 say 2 resume c1 226:1 3
23 call 1 8 read 5
 denied P27 not-live
24 input 13 70 1 7 1
 granted
25 call 2 5 read 7
 granted [(1 7 1)]
end 25
",
);

/// A live input device.
pub const LISTENS: Piece = (
    "\
call 2 2 take c1 13 64
",
    "\
10 call 2 2 take c1 13 64
 granted 3 false
 set owner 3 device 2 c1 13:64
 set taken c1 13:64 3
 set live 3 true
",
);

/// Each with what it shows of what a handle hears.
pub const CASES: [Case; 3] = [
    Case {
        name: "a withdrawn switch keeps what was heard",
        pieces: &[SESSIONS, TAKES, WITHDRAWN],
    },
    Case {
        name: "a fresh handle has heard nothing",
        pieces: &[OTHER_SEAT, MISSED],
    },
    Case {
        name: "sessions hear in turn",
        pieces: &[OTHER_SEAT, IN_TURN],
    },
];
