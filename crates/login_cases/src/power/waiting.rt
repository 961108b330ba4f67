// Operations that locks delay: how long they wait, and what ends the delay.

use super::fronts::{ALICE, ALONE};
use crate::devices::fronts::{ASKS, SESSIONS, TAKES};
use crate::{Case, Piece};

/// An operation that a lock delays runs once the limit is reached, and not a millisecond before.
const LIMIT: Piece = (
    "\
call 2 1 inhibit shutdown comp save delay
call 2 2 power poweroff
tick 4999
tick 5000
jobdone
end
",
    "\
4 call 2 1 inhibit shutdown comp save delay
 granted 2
 set lock 1 shutdown delay 1000
 set owner 2 lock 2 1
5 call 2 2 power poweroff
 granted
 set op waiting poweroff 0 noskip
 all prepare shutdown true
6 tick 4999
 granted
 set now 4999
7 tick 5000
 granted
 set now 5000
 set op running poweroff
8 jobdone
 granted
 set op idle
 all prepare shutdown false
end 8
",
);

/// The same operation runs as the lock is closed.
const CLOSED: Piece = (
    "\
call 2 1 inhibit shutdown comp save delay
call 2 2 power poweroff
tick 4999
call 2 3 close 2
end
",
    "\
4 call 2 1 inhibit shutdown comp save delay
 granted 2
 set lock 1 shutdown delay 1000
 set owner 2 lock 2 1
5 call 2 2 power poweroff
 granted
 set op waiting poweroff 0 noskip
 all prepare shutdown true
6 tick 4999
 granted
 set now 4999
7 call 2 3 close 2
 granted
 set lock 1 -
 set owner 2 closed
 set op running poweroff
end 7
",
);

/// The limit counts from the moment at which the operation was asked for. The clock may pass it.
const LATER: Piece = (
    "\
tick 7
call 2 1 inhibit sleep comp save delay
call 2 2 power hibernate
tick 7
tick 5006
tick 5007
tick 5008
jobdone
call 2 3 power suspend
tick 10009
end
",
    "\
4 tick 7
 granted
 set now 7
5 call 2 1 inhibit sleep comp save delay
 granted 2
 set lock 1 sleep delay 1000
 set owner 2 lock 2 1
6 call 2 2 power hibernate
 granted
 set op waiting hibernate 7 noskip
 all prepare sleep true
7 tick 7
 granted
8 tick 5006
 granted
 set now 5006
9 tick 5007
 granted
 set now 5007
 set op running hibernate
10 tick 5008
 granted
 set now 5008
11 jobdone
 granted
 set op idle
 all prepare sleep false
12 call 2 3 power suspend
 granted
 set op waiting suspend 5008 noskip
 all prepare sleep true
13 tick 10009
 granted
 set now 10009
 set op running suspend
end 13
",
);

/// A link ends, and with it the locks that it holds. Their handles stay its own.
const LINK_ENDED: Piece = (
    "\
connect 3 1000
call 3 1 inhibit sleep comp save delay
call 3 2 inhibit shutdown comp save block
call 2 1 power suspend
call 2 2 close 2
disconnect 3
call 2 3 close 2
call 2 4 list-inhibitors
jobdone
end
",
    "\
4 connect 3 1000
 granted
 set conn 3 1000
5 call 3 1 inhibit sleep comp save delay
 granted 2
 set lock 1 sleep delay 1000
 set owner 2 lock 3 1
6 call 3 2 inhibit shutdown comp save block
 granted 3
 set lock 2 shutdown block 1000
 set owner 3 lock 3 2
7 call 2 1 power suspend
 granted
 set op waiting suspend 0 noskip
 all prepare sleep true
8 call 2 2 close 2
 denied P28 not-yours
9 disconnect 3
 granted
 set lock 1 -
 set lock 2 -
 set conn 3 gone
 set op running suspend
10 call 2 3 close 2
 denied P28 not-yours
11 call 2 4 list-inhibitors
 granted []
12 jobdone
 granted
 set op idle
 all prepare sleep false
end 12
",
);

/// Two locks delay an operation: it waits while one of them is left.
const TWO_LOCKS: Piece = (
    "\
call 2 1 inhibit shutdown a b delay
call 2 2 inhibit sleep:shutdown c d delay
call 2 3 power halt
call 2 4 close 2
call 2 5 close 2
call 2 6 close 3
end
",
    "\
4 call 2 1 inhibit shutdown a b delay
 granted 2
 set lock 1 shutdown delay 1000
 set owner 2 lock 2 1
5 call 2 2 inhibit sleep:shutdown c d delay
 granted 3
 set lock 2 shutdown:sleep delay 1000
 set owner 3 lock 2 2
6 call 2 3 power halt
 granted
 set op waiting halt 0 noskip
 all prepare shutdown true
7 call 2 4 close 2
 granted
 set lock 1 -
 set owner 2 closed
8 call 2 5 close 2
 denied P07 no-such-handle
9 call 2 6 close 3
 granted
 set lock 2 -
 set owner 3 closed
 set op running halt
end 9
",
);

/// The last lock goes with its link, behind the stop.
const STOPPED: Piece = (
    "\
connect 3 1000
call 3 1 inhibit shutdown comp save delay
call 2 1 power reboot
stop
disconnect 3
end
",
    "\
4 connect 3 1000
 granted
 set conn 3 1000
5 call 3 1 inhibit shutdown comp save delay
 granted 2
 set lock 1 shutdown delay 1000
 set owner 2 lock 3 1
6 call 2 1 power reboot
 granted
 set op waiting reboot 0 noskip
 all prepare shutdown true
7 stop
 granted
8 disconnect 3
 granted
 set lock 1 -
 set conn 3 gone
 set op running reboot
end 8
",
);

/// An operation is done only where one runs.
const DONE: Piece = (
    "\
jobdone
call 2 1 inhibit shutdown a b delay
call 2 2 power poweroff
jobdone
call 2 3 close 2
jobdone
jobdone
end
",
    "\
4 jobdone
 denied P32 no-job
5 call 2 1 inhibit shutdown a b delay
 granted 2
 set lock 1 shutdown delay 1000
 set owner 2 lock 2 1
6 call 2 2 power poweroff
 granted
 set op waiting poweroff 0 noskip
 all prepare shutdown true
7 jobdone
 denied P32 no-job
8 call 2 3 close 2
 granted
 set lock 1 -
 set owner 2 closed
 set op running poweroff
9 jobdone
 granted
 set op idle
 all prepare shutdown false
10 jobdone
 denied P32 no-job
end 10
",
);

/// A link ends that delays an operation, and for whose devices a switch waits: the switch completes first.
const WITH_A_SWITCH: Piece = (
    "\
call 2 4 inhibit shutdown comp save delay
call 1 3 power poweroff
disconnect 2
end
",
    "\
15 call 2 4 inhibit shutdown comp save delay
 granted 7
 set lock 1 shutdown delay 1000
 set owner 7 lock 2 1
16 call 1 3 power poweroff
 granted
 set op waiting poweroff 0 noskip
 all prepare shutdown true
17 disconnect 2
 granted
 set live 4 false
 set awaited c1 13:64 false
 set taken c1 13:64 -
 set live 3 false
 set awaited c1 226:0 false
 set taken c1 226:0 -
 set ctl c1 -
 set lock 1 -
 set conn 2 gone
 set vt 2
 set pending -
 all active seat0 c1 c2
 set owner 8 device 3 c2 13:64
 set live 8 true
 set taken c2 13:64 8
 say 3 resume c2 13:64 8
 set live 5 true
 say 3 resume c2 226:0 5
 set op running poweroff
end 17
",
);

/// Each with what it shows of a delay.
pub const CASES: [Case; 8] = [
    Case {
        name: "a delay ends at its limit",
        pieces: &[ALONE, ALICE, LIMIT],
    },
    Case {
        name: "a delay ends as its lock is closed",
        pieces: &[ALONE, ALICE, CLOSED],
    },
    Case {
        name: "a delay counts from when it was asked for",
        pieces: &[ALONE, ALICE, LATER],
    },
    Case {
        name: "a delay ends as its link ends",
        pieces: &[ALONE, ALICE, LINK_ENDED],
    },
    Case {
        name: "a delay lasts while a lock is left",
        pieces: &[ALONE, ALICE, TWO_LOCKS],
    },
    Case {
        name: "a delay ends behind the stop",
        pieces: &[ALONE, ALICE, STOPPED],
    },
    Case {
        name: "only what runs is done",
        pieces: &[ALONE, ALICE, DONE],
    },
    Case {
        name: "a switch comes before an operation",
        pieces: &[SESSIONS, TAKES, ASKS, WITH_A_SWITCH],
    },
];
