// Devices as sessions switch.

use super::fronts::{ASKS, SESSIONS, TAKES};
use crate::{Case, Piece};

/// A terminal without a session is asked for, with devices that nobody has taken.
const TERMINALS: Piece = (
    "\
vtkey 3
vtkey 0
vtkey 64
vtkey 63
end
",
    "\
10 vtkey 3
 granted
 set pending 3
 set vt 3
 set pending -
 set getty 3 true
 all active seat0 c1 -
11 vtkey 0
 denied P03 bad-arguments
12 vtkey 64
 denied P03 bad-arguments
13 vtkey 63
 granted
 set pending 63
 set vt 63
 set pending -
end 13
",
);

/// The controller whose pauses are awaited disconnects.
const DISCONNECTED: Piece = (
    "\
disconnect 2
end
",
    "\
15 disconnect 2
 granted
 set live 4 false
 set awaited c1 13:64 false
 set taken c1 13:64 -
 set live 3 false
 set awaited c1 226:0 false
 set taken c1 226:0 -
 set ctl c1 -
 set conn 2 gone
 set vt 2
 set pending -
 all active seat0 c1 c2
 set owner 7 device 3 c2 13:64
 set live 7 true
 set taken c2 13:64 7
 say 3 resume c2 13:64 7
 set live 5 true
 say 3 resume c2 226:0 5
end 15
",
);

/// Another connection takes control by force while pauses are awaited.
const OUSTED: Piece = (
    "\
call 1 3 control c1 true
end
",
    "\
15 call 1 3 control c1 true
 granted
 say 2 pause c1 13:64 gone
 set live 4 false
 set awaited c1 13:64 false
 set taken c1 13:64 -
 say 2 pause c1 226:0 gone
 set live 3 false
 set awaited c1 226:0 false
 set taken c1 226:0 -
 set ctl c1 1
 set vt 2
 set pending -
 all active seat0 c1 c2
 set owner 7 device 3 c2 13:64
 set live 7 true
 set taken c2 13:64 7
 say 3 resume c2 13:64 7
 set live 5 true
 say 3 resume c2 226:0 5
end 15
",
);

/// The controller gives its session back while pauses are awaited.
const GIVEN_BACK: Piece = (
    "\
call 2 4 uncontrol c1
call 2 5 read 4
end
",
    "\
15 call 2 4 uncontrol c1
 granted
 set live 4 false
 set awaited c1 13:64 false
 set taken c1 13:64 -
 set live 3 false
 set awaited c1 226:0 false
 set taken c1 226:0 -
 set ctl c1 -
 set vt 2
 set pending -
 all active seat0 c1 c2
 set owner 7 device 3 c2 13:64
 set live 7 true
 set taken c2 13:64 7
 say 3 resume c2 13:64 7
 set live 5 true
 say 3 resume c2 226:0 5
16 call 2 5 read 4
 denied P27 not-live
end 16
",
);

/// The pauses end one by one: a device is given back, and the handle of the other one is closed.
const ONE_BY_ONE: Piece = (
    "\
call 2 4 release c1 226 0
call 2 5 close 4
call 2 6 close 3
call 2 7 read 4
end
",
    "\
15 call 2 4 release c1 226 0
 granted
 set live 3 false
 set awaited c1 226:0 false
 set taken c1 226:0 -
16 call 2 5 close 4
 granted
 set live 4 false
 set awaited c1 13:64 false
 set taken c1 13:64 -
 set owner 4 closed
 set vt 2
 set pending -
 all active seat0 c1 c2
 set owner 7 device 3 c2 13:64
 set live 7 true
 set taken c2 13:64 7
 say 3 resume c2 13:64 7
 set live 5 true
 say 3 resume c2 226:0 5
17 call 2 6 close 3
 granted
 set owner 3 closed
18 call 2 7 read 4
 denied P07 no-such-handle
end 18
",
);

/// The pauses end since the devices go.
const UNPLUGGED: Piece = (
    "\
remove 226 0
remove 13 64
end
",
    "\
15 remove 226 0
 granted
 say 2 pause c1 226:0 gone
 set live 3 false
 set awaited c1 226:0 false
 set taken c1 226:0 -
 say 3 pause c2 226:0 gone
 set taken c2 226:0 -
 set dev 226:0 absent
16 remove 13 64
 granted
 say 2 pause c1 13:64 gone
 set live 4 false
 set awaited c1 13:64 false
 set taken c1 13:64 -
 say 3 pause c2 13:64 gone
 set taken c2 13:64 -
 set dev 13:64 absent
 set vt 2
 set pending -
 all active seat0 c1 c2
end 16
",
);

/// The switch goes to another terminal, and is then withdrawn; the session goes on with its handles.
const WITHDRAWN: Piece = (
    "\
vtkey 3
vtkey 1
vtkey 1
end
",
    "\
15 vtkey 3
 granted
 set pending 3
16 vtkey 1
 granted
 set pending -
 set awaited c1 13:64 false
 set awaited c1 226:0 false
 say 2 resume c1 13:64 4
 say 2 resume c1 226:0 3
17 vtkey 1
 granted
end 17
",
);

/// A device that is taken while a switch is pending is live, is not awaited, and is lost by force. It comes
/// back with a fresh handle.
const FORCED: Piece = (
    "\
call 2 2 take c1 226 0
vtkey 2
call 2 3 take c1 13 64
call 2 4 release c1 226 0
call 2 5 read 4
vtkey 1
call 2 6 read 4
call 2 7 read 5
end
",
    "\
10 call 2 2 take c1 226 0
 granted 3 false
 set owner 3 device 2 c1 226:0
 set taken c1 226:0 3
 set live 3 true
11 vtkey 2
 granted
 set pending 2
 set awaited c1 226:0 true
 say 2 pause c1 226:0 pause
12 call 2 3 take c1 13 64
 granted 4 false
 set owner 4 device 2 c1 13:64
 set taken c1 13:64 4
 set live 4 true
13 call 2 4 release c1 226 0
 granted
 set live 3 false
 set awaited c1 226:0 false
 set taken c1 226:0 -
 set live 4 false
 say 2 pause c1 13:64 force
 set vt 2
 set pending -
 all active seat0 c1 c2
14 call 2 5 read 4
 denied P27 not-live
15 vtkey 1
 granted
 set pending 1
 set vt 1
 set pending -
 all active seat0 c2 c1
 set owner 5 device 2 c1 13:64
 set live 5 true
 set taken c1 13:64 5
 say 2 resume c1 13:64 5
16 call 2 6 read 4
 denied P27 not-live
17 call 2 7 read 5
 granted []
end 17
",
);

/// Each with what it shows of a switch.
pub const CASES: [Case; 8] = [
    Case {
        name: "a terminal without a session",
        pieces: &[SESSIONS, TERMINALS],
    },
    Case {
        name: "a disconnect ends the pauses",
        pieces: &[SESSIONS, TAKES, ASKS, DISCONNECTED],
    },
    Case {
        name: "control by force ends the pauses",
        pieces: &[SESSIONS, TAKES, ASKS, OUSTED],
    },
    Case {
        name: "uncontrol ends the pauses",
        pieces: &[SESSIONS, TAKES, ASKS, GIVEN_BACK],
    },
    Case {
        name: "pauses end one by one",
        pieces: &[SESSIONS, TAKES, ASKS, ONE_BY_ONE],
    },
    Case {
        name: "devices that go end the pauses",
        pieces: &[SESSIONS, TAKES, ASKS, UNPLUGGED],
    },
    Case {
        name: "a switch is withdrawn",
        pieces: &[SESSIONS, TAKES, ASKS, WITHDRAWN],
    },
    Case {
        name: "a device taken meanwhile is lost",
        pieces: &[SESSIONS, FORCED],
    },
];
