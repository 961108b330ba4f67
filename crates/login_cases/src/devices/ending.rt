// Sessions that end while the pauses of their devices are awaited, or while a switch to them is pending.

use super::fronts::{ASKS, SESSIONS, TAKES};
use crate::{Case, Piece};

/// A call ends the session.
const TERMINATED: Piece = (
    "\
call 2 4 terminate c1
end
",
    "\
15 call 2 4 terminate c1
 granted
 set live 4 false
 set awaited c1 13:64 false
 set taken c1 13:64 -
 set live 3 false
 set awaited c1 226:0 false
 set taken c1 226:0 -
 set ctl c1 -
 set sess c1 closing
 all active seat0 c1 -
 set vt 2
 set pending -
 all active seat0 - c2
 set owner 7 device 3 c2 13:64
 set live 7 true
 set taken c2 13:64 7
 say 3 resume c2 13:64 7
 set live 5 true
 say 3 resume c2 226:0 5
end 15
",
);

/// A call ends the sessions of its user.
const USER_TERMINATED: Piece = (
    "\
call 1 3 terminate-user 1000
end
",
    "\
15 call 1 3 terminate-user 1000
 granted
 set live 4 false
 set awaited c1 13:64 false
 set taken c1 13:64 -
 set live 3 false
 set awaited c1 226:0 false
 set taken c1 226:0 -
 set ctl c1 -
 set sess c1 closing
 all active seat0 c1 -
 set vt 2
 set pending -
 all active seat0 - c2
 set owner 7 device 3 c2 13:64
 set live 7 true
 set taken c2 13:64 7
 say 3 resume c2 13:64 7
 set live 5 true
 say 3 resume c2 226:0 5
end 15
",
);

/// A call ends all sessions of the seat, the one that is switched to among them.
const SEAT_TERMINATED: Piece = (
    "\
call 1 3 terminate-seat seat0
end
",
    "\
15 call 1 3 terminate-seat seat0
 granted
 set live 4 false
 set awaited c1 13:64 false
 set taken c1 13:64 -
 set live 3 false
 set awaited c1 226:0 false
 set taken c1 226:0 -
 set ctl c1 -
 set sess c1 closing
 all active seat0 c1 -
 set taken c2 13:64 -
 set taken c2 226:0 -
 set ctl c2 -
 set sess c2 closing
 set vt 2
 set pending -
 set getty 2 true
end 15
",
);

/// The last process of the session is gone.
const EXITED: Piece = (
    "\
exit c1
end
",
    "\
15 exit c1
 granted
 set live 4 false
 set awaited c1 13:64 false
 set taken c1 13:64 -
 set live 3 false
 set awaited c1 226:0 false
 set taken c1 226:0 -
 set ctl c1 -
 set sess c1 closing
 all active seat0 c1 -
 set sess c1 gone
 all session-removed c1
 set user 1000 leaving 0
 set vt 2
 set pending -
 all active seat0 - c2
 set owner 7 device 3 c2 13:64
 set live 7 true
 set taken c2 13:64 7
 say 3 resume c2 13:64 7
 set live 5 true
 say 3 resume c2 226:0 5
end 15
",
);

/// The fifo of the session is closed.
const FIFO_CLOSED: Piece = (
    "\
call 1 3 close 1
end
",
    "\
15 call 1 3 close 1
 granted
 set owner 1 closed
 set live 4 false
 set awaited c1 13:64 false
 set taken c1 13:64 -
 set live 3 false
 set awaited c1 226:0 false
 set taken c1 226:0 -
 set ctl c1 -
 set sess c1 closing
 all active seat0 c1 -
 set vt 2
 set pending -
 all active seat0 - c2
 set owner 7 device 3 c2 13:64
 set live 7 true
 set taken c2 13:64 7
 say 3 resume c2 13:64 7
 set live 5 true
 say 3 resume c2 226:0 5
end 15
",
);

/// The connection that created the sessions, and owns their fifos, disconnects.
const CREATOR_GONE: Piece = (
    "\
disconnect 1
end
",
    "\
15 disconnect 1
 granted
 set live 4 false
 set awaited c1 13:64 false
 set taken c1 13:64 -
 set live 3 false
 set awaited c1 226:0 false
 set taken c1 226:0 -
 set ctl c1 -
 set sess c1 closing
 all active seat0 c1 -
 set taken c2 13:64 -
 set taken c2 226:0 -
 set ctl c2 -
 set sess c2 closing
 set conn 1 gone
 set vt 2
 set pending -
 set getty 2 true
end 15
",
);

/// The session that is switched to ends: nobody's pause ends with it, and a getty is asked for on its terminal as the
/// switch completes.
const TARGET_ENDED: Piece = (
    "\
call 1 3 terminate c2
call 2 4 paused c1 13 64
call 2 5 paused c1 226 0
end
",
    "\
15 call 1 3 terminate c2
 granted
 set taken c2 13:64 -
 set taken c2 226:0 -
 set ctl c2 -
 set sess c2 closing
16 call 2 4 paused c1 13 64
 granted
 set awaited c1 13:64 false
 set live 4 false
17 call 2 5 paused c1 226 0
 granted
 set awaited c1 226:0 false
 set live 3 false
 set vt 2
 set pending -
 set getty 2 true
 all active seat0 c1 -
end 17
",
);

/// Each with what ends the session, and what then becomes of the pauses.
pub const CASES: [Case; 7] = [
    Case {
        name: "a session that a call ends ends its pauses",
        pieces: &[SESSIONS, TAKES, ASKS, TERMINATED],
    },
    Case {
        name: "a user whose sessions end ends their pauses",
        pieces: &[SESSIONS, TAKES, ASKS, USER_TERMINATED],
    },
    Case {
        name: "a seat whose sessions end has no pauses",
        pieces: &[SESSIONS, TAKES, ASKS, SEAT_TERMINATED],
    },
    Case {
        name: "an exit ends the pauses",
        pieces: &[SESSIONS, TAKES, ASKS, EXITED],
    },
    Case {
        name: "a fifo that is closed ends the pauses",
        pieces: &[SESSIONS, TAKES, ASKS, FIFO_CLOSED],
    },
    Case {
        name: "a creator that disconnects ends the pauses",
        pieces: &[SESSIONS, TAKES, ASKS, CREATOR_GONE],
    },
    Case {
        name: "the end of the other session ends no pause",
        pieces: &[SESSIONS, TAKES, ASKS, TARGET_ENDED],
    },
];
