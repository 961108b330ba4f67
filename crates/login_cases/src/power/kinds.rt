// Each kind of operation, and the locks that delay or block it.

use super::fronts::{ALICE, ALONE};
use crate::{Case, Piece};

/// A lock on shutdown delays what ends the run of the machine, and nothing else.
const SHUTDOWN_DELAYED: Piece = (
    "\
call 2 1 inhibit shutdown comp save delay
call 2 2 power poweroff
tick 5000
jobdone
call 2 3 power reboot
tick 10000
jobdone
call 2 4 power halt
tick 15000
jobdone
call 2 5 power suspend
jobdone
call 2 6 power hibernate
jobdone
call 2 7 power hybrid-sleep
jobdone
call 2 8 power suspend-then-hibernate
jobdone
end
",
    "\
4 call 2 1 inhibit shutdown comp save delay
 granted 2
 set lock 1 shutdown delay 1000
 set owner 2 lock 2 1
5 call 2 2 power poweroff
 granted
 set op waiting poweroff 0 noskip
 all prepare shutdown true
6 tick 5000
 granted
 set now 5000
 set op running poweroff
7 jobdone
 granted
 set op idle
 all prepare shutdown false
8 call 2 3 power reboot
 granted
 set op waiting reboot 5000 noskip
 all prepare shutdown true
9 tick 10000
 granted
 set now 10000
 set op running reboot
10 jobdone
 granted
 set op idle
 all prepare shutdown false
11 call 2 4 power halt
 granted
 set op waiting halt 10000 noskip
 all prepare shutdown true
12 tick 15000
 granted
 set now 15000
 set op running halt
13 jobdone
 granted
 set op idle
 all prepare shutdown false
14 call 2 5 power suspend
 granted
 set op waiting suspend 15000 noskip
 all prepare sleep true
 set op running suspend
15 jobdone
 granted
 set op idle
 all prepare sleep false
16 call 2 6 power hibernate
 granted
 set op waiting hibernate 15000 noskip
 all prepare sleep true
 set op running hibernate
17 jobdone
 granted
 set op idle
 all prepare sleep false
18 call 2 7 power hybrid-sleep
 granted
 set op waiting hybrid-sleep 15000 noskip
 all prepare sleep true
 set op running hybrid-sleep
19 jobdone
 granted
 set op idle
 all prepare sleep false
20 call 2 8 power suspend-then-hibernate
 granted
 set op waiting suspend-then-hibernate 15000 noskip
 all prepare sleep true
 set op running suspend-then-hibernate
21 jobdone
 granted
 set op idle
 all prepare sleep false
end 21
",
);

/// A lock on sleep delays what puts the machine to sleep, and nothing else.
const SLEEP_DELAYED: Piece = (
    "\
call 2 1 inhibit sleep comp save delay
call 2 2 power suspend
tick 5000
jobdone
call 2 3 power hibernate
tick 10000
jobdone
call 2 4 power hybrid-sleep
tick 15000
jobdone
call 2 5 power suspend-then-hibernate
tick 20000
jobdone
call 2 6 power poweroff
jobdone
call 2 7 power reboot
jobdone
call 2 8 power halt
jobdone
end
",
    "\
4 call 2 1 inhibit sleep comp save delay
 granted 2
 set lock 1 sleep delay 1000
 set owner 2 lock 2 1
5 call 2 2 power suspend
 granted
 set op waiting suspend 0 noskip
 all prepare sleep true
6 tick 5000
 granted
 set now 5000
 set op running suspend
7 jobdone
 granted
 set op idle
 all prepare sleep false
8 call 2 3 power hibernate
 granted
 set op waiting hibernate 5000 noskip
 all prepare sleep true
9 tick 10000
 granted
 set now 10000
 set op running hibernate
10 jobdone
 granted
 set op idle
 all prepare sleep false
11 call 2 4 power hybrid-sleep
 granted
 set op waiting hybrid-sleep 10000 noskip
 all prepare sleep true
12 tick 15000
 granted
 set now 15000
 set op running hybrid-sleep
13 jobdone
 granted
 set op idle
 all prepare sleep false
14 call 2 5 power suspend-then-hibernate
 granted
 set op waiting suspend-then-hibernate 15000 noskip
 all prepare sleep true
15 tick 20000
 granted
 set now 20000
 set op running suspend-then-hibernate
16 jobdone
 granted
 set op idle
 all prepare sleep false
17 call 2 6 power poweroff
 granted
 set op waiting poweroff 20000 noskip
 all prepare shutdown true
 set op running poweroff
18 jobdone
 granted
 set op idle
 all prepare shutdown false
19 call 2 7 power reboot
 granted
 set op waiting reboot 20000 noskip
 all prepare shutdown true
 set op running reboot
20 jobdone
 granted
 set op idle
 all prepare shutdown false
21 call 2 8 power halt
 granted
 set op waiting halt 20000 noskip
 all prepare shutdown true
 set op running halt
22 jobdone
 granted
 set op idle
 all prepare shutdown false
end 22
",
);

/// Locks block each kind of operation by its word; the lowest of them is named.
const BLOCKED: Piece = (
    "\
call 2 1 inhibit sleep a b block
call 2 2 inhibit shutdown a b block
call 2 3 inhibit shutdown:sleep a b block
call 2 4 power poweroff
call 2 5 power reboot
call 2 6 power halt
call 2 7 power suspend
call 2 8 power hibernate
call 2 9 power hybrid-sleep
call 2 10 power suspend-then-hibernate
call 2 11 close 3
call 2 12 power poweroff
call 2 13 close 4
call 2 14 power suspend
call 2 15 power poweroff
end
",
    "\
4 call 2 1 inhibit sleep a b block
 granted 2
 set lock 1 sleep block 1000
 set owner 2 lock 2 1
5 call 2 2 inhibit shutdown a b block
 granted 3
 set lock 2 shutdown block 1000
 set owner 3 lock 2 2
6 call 2 3 inhibit shutdown:sleep a b block
 granted 4
 set lock 3 shutdown:sleep block 1000
 set owner 4 lock 2 3
7 call 2 4 power poweroff
 denied P24 inhibited 2
8 call 2 5 power reboot
 denied P24 inhibited 2
9 call 2 6 power halt
 denied P24 inhibited 2
10 call 2 7 power suspend
 denied P24 inhibited 1
11 call 2 8 power hibernate
 denied P24 inhibited 1
12 call 2 9 power hybrid-sleep
 denied P24 inhibited 1
13 call 2 10 power suspend-then-hibernate
 denied P24 inhibited 1
14 call 2 11 close 3
 granted
 set lock 2 -
 set owner 3 closed
15 call 2 12 power poweroff
 denied P24 inhibited 3
16 call 2 13 close 4
 granted
 set lock 3 -
 set owner 4 closed
17 call 2 14 power suspend
 denied P24 inhibited 1
18 call 2 15 power poweroff
 granted
 set op waiting poweroff 0 noskip
 all prepare shutdown true
 set op running poweroff
end 18
",
);

/// A lock blocks the user who holds it, and the power key, and root passes it.
const PASSED: Piece = (
    "\
call 2 1 inhibit shutdown me why block
call 2 2 power poweroff
key power
call 1 2 power poweroff
end
",
    "\
4 call 2 1 inhibit shutdown me why block
 granted 2
 set lock 1 shutdown block 1000
 set owner 2 lock 2 1
5 call 2 2 power poweroff
 denied P24 inhibited 1
6 key power
 denied P24 inhibited 1
7 call 1 2 power poweroff
 granted
 set op waiting poweroff 0 skip
 all prepare shutdown true
 set op running poweroff
end 7
",
);

/// Root passes a lock that blocks, and another lock delays what root asked for.
const PASSED_AND_DELAYED: Piece = (
    "\
call 2 1 inhibit sleep me why block
call 2 2 inhibit sleep me why delay
call 1 2 power hybrid-sleep
call 2 3 close 2
call 2 4 close 3
end
",
    "\
4 call 2 1 inhibit sleep me why block
 granted 2
 set lock 1 sleep block 1000
 set owner 2 lock 2 1
5 call 2 2 inhibit sleep me why delay
 granted 3
 set lock 2 sleep delay 1000
 set owner 3 lock 2 2
6 call 1 2 power hybrid-sleep
 granted
 set op waiting hybrid-sleep 0 skip
 all prepare sleep true
7 call 2 3 close 2
 granted
 set lock 1 -
 set owner 2 closed
8 call 2 4 close 3
 granted
 set lock 2 -
 set owner 3 closed
 set op running hybrid-sleep
end 8
",
);

/// Each with what it shows of an operation and locks.
pub const CASES: [Case; 5] = [
    Case {
        name: "a lock on shutdown delays",
        pieces: &[ALONE, ALICE, SHUTDOWN_DELAYED],
    },
    Case {
        name: "a lock on sleep delays",
        pieces: &[ALONE, ALICE, SLEEP_DELAYED],
    },
    Case {
        name: "locks block",
        pieces: &[ALONE, ALICE, BLOCKED],
    },
    Case {
        name: "root passes a lock",
        pieces: &[ALONE, ALICE, PASSED],
    },
    Case {
        name: "a lock delays root",
        pieces: &[ALONE, ALICE, PASSED_AND_DELAYED],
    },
];
