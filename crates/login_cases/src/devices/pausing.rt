// Pauses that are acknowledged: in time, late, and for a switch that was replaced or withdrawn.

use super::fronts::{ASKS, OTHER_SEAT, SESSIONS, TAKES};
use crate::{Case, Piece};

/// A dead handle is not read; the one that takes its place is, once both pauses are acknowledged.
const READ: Piece = (
    "\
call 3 4 read 6
vtkey 2
call 2 4 paused c1 226 0
call 2 5 paused c1 13 64
input 13 64 1 30 1
call 3 5 read 7
call 3 6 read 7
end
",
    "\
14 call 3 4 read 6
 denied P27 not-live
15 vtkey 2
 granted
 set pending 2
 set awaited c1 13:64 true
 say 2 pause c1 13:64 pause
 set awaited c1 226:0 true
 say 2 pause c1 226:0 pause
16 call 2 4 paused c1 226 0
 granted
 set awaited c1 226:0 false
 set live 3 false
17 call 2 5 paused c1 13 64
 granted
 set awaited c1 13:64 false
 set live 4 false
 set vt 2
 set pending -
 all active seat0 c1 c2
 set owner 7 device 3 c2 13:64
 set live 7 true
 set taken c2 13:64 7
 say 3 resume c2 13:64 7
 set live 5 true
 say 3 resume c2 226:0 5
18 input 13 64 1 30 1
 granted
19 call 3 5 read 7
 granted [(1 30 1)]
20 call 3 6 read 7
 granted []
end 20
",
);

/// Both pauses are acknowledged: the switch completes at the last.
pub const ACKNOWLEDGED: Piece = (
    "\
call 2 4 paused c1 226 0
call 2 5 paused c1 13 64
end
",
    "\
15 call 2 4 paused c1 226 0
 granted
 set awaited c1 226:0 false
 set live 3 false
16 call 2 5 paused c1 13 64
 granted
 set awaited c1 13:64 false
 set live 4 false
 set vt 2
 set pending -
 all active seat0 c1 c2
 set owner 7 device 3 c2 13:64
 set live 7 true
 set taken c2 13:64 7
 say 3 resume c2 13:64 7
 set live 5 true
 say 3 resume c2 226:0 5
end 16
",
);

/// The last device whose pause is awaited goes.
const UNPLUGGED: Piece = (
    "\
call 2 4 paused c1 226 0
remove 13 64
add 13 64 evdev seat0
call 2 5 read 4
end
",
    "\
15 call 2 4 paused c1 226 0
 granted
 set awaited c1 226:0 false
 set live 3 false
16 remove 13 64
 granted
 say 2 pause c1 13:64 gone
 set live 4 false
 set awaited c1 13:64 false
 set taken c1 13:64 -
 say 3 pause c2 13:64 gone
 set taken c2 13:64 -
 set dev 13:64 absent
 set vt 2
 set pending -
 all active seat0 c1 c2
 set live 5 true
 say 3 resume c2 226:0 5
17 add 13 64 evdev seat0
 granted
 set dev 13:64 evdev seat0
18 call 2 5 read 4
 denied P27 not-live
end 18
",
);

/// The switch goes to another terminal and is withdrawn; an acknowledgement that comes late does nothing, and one
/// counts for a later pause.
const WITHDRAWN: Piece = (
    "\
call 2 4 paused c1 13 64
vtkey 3
vtkey 1
call 2 5 paused c1 226 0
vtkey 2
call 2 6 paused c1 226 0
end
",
    "\
15 call 2 4 paused c1 13 64
 granted
 set awaited c1 13:64 false
 set live 4 false
16 vtkey 3
 granted
 set pending 3
17 vtkey 1
 granted
 set pending -
 set awaited c1 226:0 false
 set owner 7 device 2 c1 13:64
 set live 7 true
 set taken c1 13:64 7
 say 2 resume c1 13:64 7
 say 2 resume c1 226:0 3
18 call 2 5 paused c1 226 0
 granted
19 vtkey 2
 granted
 set pending 2
 set awaited c1 13:64 true
 say 2 pause c1 13:64 pause
 set awaited c1 226:0 true
 say 2 pause c1 226:0 pause
20 call 2 6 paused c1 226 0
 granted
 set awaited c1 226:0 false
 set live 3 false
end 20
",
);

/// A device that is taken while the switch is pending is lost by force.
const TAKEN_MEANWHILE: Piece = (
    "\
call 2 2 take c1 226 0
vtkey 2
call 2 3 take c1 13 64
call 2 4 paused c1 226 0
end
",
    "\
10 call 2 2 take c1 226 0
 granted 3 false
 set owner 3 device 2 c1 226:0
 set taken c1 226:0 3
 set live 3 true
11 vtkey 2
 granted
 set pending 2
 set awaited c1 226:0 true
 say 2 pause c1 226:0 pause
12 call 2 3 take c1 13 64
 granted 4 false
 set owner 4 device 2 c1 13:64
 set taken c1 13:64 4
 set live 4 true
13 call 2 4 paused c1 226 0
 granted
 set awaited c1 226:0 false
 set live 3 false
 set live 4 false
 say 2 pause c1 13:64 force
 set vt 2
 set pending -
 all active seat0 c1 c2
end 13
",
);

/// Acknowledgements of a device that is not awaited, of another session's, and of one for the second time.
const NOT_AWAITED: Piece = (
    "\
call 3 4 paused c2 13 64
call 3 5 paused c1 13 64
call 2 4 paused c1 13 64
call 2 5 paused c1 13 64
call 2 6 paused c1 13 65
call 2 7 paused c9 13 64
end
",
    "\
15 call 3 4 paused c2 13 64
 granted
16 call 3 5 paused c1 13 64
 denied P18 not-in-control
17 call 2 4 paused c1 13 64
 granted
 set awaited c1 13:64 false
 set live 4 false
18 call 2 5 paused c1 13 64
 granted
19 call 2 6 paused c1 13 65
 denied P20 device-not-taken
20 call 2 7 paused c9 13 64
 denied P04 no-such-session
end 20
",
);

/// The switch goes to another terminal twice, and once to the same; it is withdrawn by a call, and then nothing is
/// pending. A device that was let go of comes back with a fresh handle.
const REPLACED_TWICE: Piece = (
    "\
vtkey 3
call 1 3 switch seat0 4
call 2 4 paused c1 13 64
vtkey 4
call 1 4 activate c1
vtkey 1
end
",
    "\
15 vtkey 3
 granted
 set pending 3
16 call 1 3 switch seat0 4
 granted
 set pending 4
17 call 2 4 paused c1 13 64
 granted
 set awaited c1 13:64 false
 set live 4 false
18 vtkey 4
 granted
19 call 1 4 activate c1
 granted
 set pending -
 set awaited c1 226:0 false
 set owner 7 device 2 c1 13:64
 set live 7 true
 set taken c1 13:64 7
 say 2 resume c1 13:64 7
 say 2 resume c1 226:0 3
20 vtkey 1
 granted
end 20
",
);

/// A switch that was replaced completes at the terminal that was asked for last.
const REPLACED: Piece = (
    "\
vtkey 3
call 2 4 paused c1 13 64
call 2 5 paused c1 226 0
end
",
    "\
15 vtkey 3
 granted
 set pending 3
16 call 2 4 paused c1 13 64
 granted
 set awaited c1 13:64 false
 set live 4 false
17 call 2 5 paused c1 226 0
 granted
 set awaited c1 226:0 false
 set live 3 false
 set vt 3
 set pending -
 set getty 3 true
 all active seat0 c1 -
end 17
",
);

/// Acknowledgements before a switch, after it, and of a device whose pause another session owes.
const EARLY_AND_LATE: Piece = (
    "\
call 2 4 paused c1 13 64
vtkey 2
call 2 5 paused c1 226 0
call 2 6 release c1 13 64
call 2 7 paused c1 226 0
call 2 8 paused c1 13 64
vtkey 1
call 2 9 paused c1 226 0
call 3 4 paused c2 13 64
call 3 5 paused c2 226 0
end
",
    "\
14 call 2 4 paused c1 13 64
 granted
15 vtkey 2
 granted
 set pending 2
 set awaited c1 13:64 true
 say 2 pause c1 13:64 pause
 set awaited c1 226:0 true
 say 2 pause c1 226:0 pause
16 call 2 5 paused c1 226 0
 granted
 set awaited c1 226:0 false
 set live 3 false
17 call 2 6 release c1 13 64
 granted
 set live 4 false
 set awaited c1 13:64 false
 set taken c1 13:64 -
 set vt 2
 set pending -
 all active seat0 c1 c2
 set owner 7 device 3 c2 13:64
 set live 7 true
 set taken c2 13:64 7
 say 3 resume c2 13:64 7
 set live 5 true
 say 3 resume c2 226:0 5
18 call 2 7 paused c1 226 0
 granted
19 call 2 8 paused c1 13 64
 denied P20 device-not-taken
20 vtkey 1
 granted
 set pending 1
 set awaited c2 13:64 true
 say 3 pause c2 13:64 pause
 set awaited c2 226:0 true
 say 3 pause c2 226:0 pause
21 call 2 9 paused c1 226 0
 granted
22 call 3 4 paused c2 13 64
 granted
 set awaited c2 13:64 false
 set live 7 false
23 call 3 5 paused c2 226 0
 granted
 set awaited c2 226:0 false
 set live 5 false
 set vt 1
 set pending -
 all active seat0 c2 c1
 set live 3 true
 say 2 resume c1 226:0 3
end 23
",
);

/// A device that was let go of is given back and taken again, all while the switch is pending: it is live, and its
/// pause is not awaited.
const TAKEN_AGAIN: Piece = (
    "\
call 2 4 paused c1 13 64
call 2 5 release c1 13 64
call 2 6 paused c1 13 64
call 2 7 take c1 13 64
call 2 8 paused c1 13 64
call 2 9 paused c1 226 0
call 2 10 read 7
end
",
    "\
15 call 2 4 paused c1 13 64
 granted
 set awaited c1 13:64 false
 set live 4 false
16 call 2 5 release c1 13 64
 granted
 set taken c1 13:64 -
17 call 2 6 paused c1 13 64
 denied P20 device-not-taken
18 call 2 7 take c1 13 64
 granted 7 false
 set owner 7 device 2 c1 13:64
 set taken c1 13:64 7
 set live 7 true
19 call 2 8 paused c1 13 64
 granted
20 call 2 9 paused c1 226 0
 granted
 set awaited c1 226:0 false
 set live 3 false
 set live 7 false
 say 2 pause c1 13:64 force
 set vt 2
 set pending -
 all active seat0 c1 c2
 set owner 8 device 3 c2 13:64
 set live 8 true
 set taken c2 13:64 8
 say 3 resume c2 13:64 8
 set live 5 true
 say 3 resume c2 226:0 5
21 call 2 10 read 7
 denied P27 not-live
end 21
",
);

/// No pause is awaited on a seat without terminals, so an acknowledgement does nothing there.
const ELSEWHERE: Piece = (
    "\
call 2 4 paused c1 13 70
call 2 5 paused c1 226 1
call 2 6 read 2
call 2 7 set-mode 3 5
end
",
    "\
9 call 2 4 paused c1 13 70
 granted
10 call 2 5 paused c1 226 1
 granted
11 call 2 6 read 2
 granted []
12 call 2 7 set-mode 3 5
 granted
 set mode 226:1 5
end 12
",
);

/// Each with what it shows of pauses.
pub const CASES: [Case; 11] = [
    Case {
        name: "a dead handle is not read",
        pieces: &[SESSIONS, TAKES, READ],
    },
    Case {
        name: "the switch completes at the last acknowledgement",
        pieces: &[SESSIONS, TAKES, ASKS, ACKNOWLEDGED],
    },
    Case {
        name: "the switch completes as the last device goes",
        pieces: &[SESSIONS, TAKES, ASKS, UNPLUGGED],
    },
    Case {
        name: "a late acknowledgement does nothing",
        pieces: &[SESSIONS, TAKES, ASKS, WITHDRAWN],
    },
    Case {
        name: "a device taken meanwhile is lost by force",
        pieces: &[SESSIONS, TAKEN_MEANWHILE],
    },
    Case {
        name: "what is not awaited is left alone",
        pieces: &[SESSIONS, TAKES, ASKS, NOT_AWAITED],
    },
    Case {
        name: "a switch that was replaced twice is withdrawn",
        pieces: &[SESSIONS, TAKES, ASKS, REPLACED_TWICE],
    },
    Case {
        name: "a switch that was replaced goes to the last terminal",
        pieces: &[SESSIONS, TAKES, ASKS, REPLACED],
    },
    Case {
        name: "acknowledgements come early and late",
        pieces: &[SESSIONS, TAKES, EARLY_AND_LATE],
    },
    Case {
        name: "a device is taken again while a switch is pending",
        pieces: &[SESSIONS, TAKES, ASKS, TAKEN_AGAIN],
    },
    Case {
        name: "other seats await no pauses",
        pieces: &[OTHER_SEAT, ELSEWHERE],
    },
];
