// Keys and the lid, with the default configuration.

use super::fronts::{ALICE, ALONE};
use crate::{Case, Piece};

/// What each key and the lid bring about, with nobody there; the lid of a docked machine is ignored.
const DEFAULTS: Piece = (
    "\
login-recording 1
go
key power
key power
key suspend
key lid
jobdone
key suspend
jobdone
key hibernate
jobdone
key lid
jobdone
dock true
dock true
key lid
key suspend
key lid
jobdone
dock false
key lid
end
",
    "\
login-transcript 1
1 key power
 granted
 set op waiting poweroff 0 noskip
 all prepare shutdown true
 set op running poweroff
2 key power
 denied P23 operation-in-progress poweroff
3 key suspend
 denied P23 operation-in-progress poweroff
4 key lid
 denied P23 operation-in-progress poweroff
5 jobdone
 granted
 set op idle
 all prepare shutdown false
6 key suspend
 granted
 set op waiting suspend 0 noskip
 all prepare sleep true
 set op running suspend
7 jobdone
 granted
 set op idle
 all prepare sleep false
8 key hibernate
 granted
 set op waiting hibernate 0 noskip
 all prepare sleep true
 set op running hibernate
9 jobdone
 granted
 set op idle
 all prepare sleep false
10 key lid
 granted
 set op waiting suspend 0 noskip
 all prepare sleep true
 set op running suspend
11 jobdone
 granted
 set op idle
 all prepare sleep false
12 dock true
 granted
 set docked true
13 dock true
 granted
14 key lid
 denied P34 key-ignored
15 key suspend
 granted
 set op waiting suspend 0 noskip
 all prepare sleep true
 set op running suspend
16 key lid
 denied P34 key-ignored
17 jobdone
 granted
 set op idle
 all prepare sleep false
18 dock false
 granted
 set docked false
19 key lid
 granted
 set op waiting suspend 0 noskip
 all prepare sleep true
 set op running suspend
end 19
",
);

/// A lock on the power key holds up the key, and no call.
const POWER_KEY_HELD: Piece = (
    "\
call 2 1 inhibit handle-power-key me why block
call 2 2 power poweroff
key power
call 1 2 power poweroff
end
",
    "\
4 call 2 1 inhibit handle-power-key me why block
 granted 2
 set lock 1 handle-power-key block 1000
 set owner 2 lock 2 1
5 call 2 2 power poweroff
 granted
 set op waiting poweroff 0 noskip
 all prepare shutdown true
 set op running poweroff
6 key power
 denied P24 inhibited 1
7 call 1 2 power poweroff
 denied P23 operation-in-progress poweroff
end 7
",
);

/// A lock on all keys and the lid: it comes behind an action that is ignored, and before an operation that runs.
const KEYS_HELD: Piece = (
    "\
call 2 1 inhibit handle-power-key:handle-suspend-key:handle-hibernate-key:handle-lid-switch game play block
key power
key suspend
key hibernate
key lid
dock true
key lid
call 2 2 power halt
key power
call 2 3 close 2
key power
key lid
end
",
    "\
4 call 2 1 inhibit handle-power-key:handle-suspend-key:handle-hibernate-key:handle-lid-switch game play block
 granted 2
 set lock 1 handle-power-key:handle-suspend-key:handle-hibernate-key:handle-lid-switch block 1000
 set owner 2 lock 2 1
5 key power
 denied P24 inhibited 1
6 key suspend
 denied P24 inhibited 1
7 key hibernate
 denied P24 inhibited 1
8 key lid
 denied P24 inhibited 1
9 dock true
 granted
 set docked true
10 key lid
 denied P34 key-ignored
11 call 2 2 power halt
 granted
 set op waiting halt 0 noskip
 all prepare shutdown true
 set op running halt
12 key power
 denied P24 inhibited 1
13 call 2 3 close 2
 granted
 set lock 1 -
 set owner 2 closed
14 key power
 denied P23 operation-in-progress halt
15 key lid
 denied P34 key-ignored
end 15
",
);

/// Each lock holds its own key alone; the lowest lock is named.
const OWN_KEY: Piece = (
    "\
call 2 1 inhibit handle-lid-switch a b block
call 2 2 inhibit handle-suspend-key:handle-lid-switch a b block
call 1 2 inhibit handle-hibernate-key a b block
key lid
key suspend
key hibernate
call 2 3 close 2
key lid
key power
end
",
    "\
4 call 2 1 inhibit handle-lid-switch a b block
 granted 2
 set lock 1 handle-lid-switch block 1000
 set owner 2 lock 2 1
5 call 2 2 inhibit handle-suspend-key:handle-lid-switch a b block
 granted 3
 set lock 2 handle-suspend-key:handle-lid-switch block 1000
 set owner 3 lock 2 2
6 call 1 2 inhibit handle-hibernate-key a b block
 granted 4
 set lock 3 handle-hibernate-key block 0
 set owner 4 lock 1 3
7 key lid
 denied P24 inhibited 1
8 key suspend
 denied P24 inhibited 2
9 key hibernate
 denied P24 inhibited 3
10 call 2 3 close 2
 granted
 set lock 1 -
 set owner 2 closed
11 key lid
 denied P24 inhibited 2
12 key power
 granted
 set op waiting poweroff 0 noskip
 all prepare shutdown true
 set op running poweroff
end 12
",
);

/// Locks block what the keys bring about. The lid passes them.
const KEYS_BLOCKED: Piece = (
    "\
call 2 1 inhibit shutdown:sleep me why block
key power
key suspend
key hibernate
key lid
key lid
key power
jobdone
end
",
    "\
4 call 2 1 inhibit shutdown:sleep me why block
 granted 2
 set lock 1 shutdown:sleep block 1000
 set owner 2 lock 2 1
5 key power
 denied P24 inhibited 1
6 key suspend
 denied P24 inhibited 1
7 key hibernate
 denied P24 inhibited 1
8 key lid
 granted
 set op waiting suspend 0 skip
 all prepare sleep true
 set op running suspend
9 key lid
 denied P23 operation-in-progress suspend
10 key power
 denied P23 operation-in-progress suspend
11 jobdone
 granted
 set op idle
 all prepare sleep false
end 11
",
);

/// A lock delays what the lid brings about, and the keys wait for nothing.
const KEYS_WAIT: Piece = (
    "\
call 2 1 inhibit sleep me why delay
key lid
key lid
key power
call 2 2 power poweroff
dock true
key lid
tick 5000
end
",
    "\
4 call 2 1 inhibit sleep me why delay
 granted 2
 set lock 1 sleep delay 1000
 set owner 2 lock 2 1
5 key lid
 granted
 set op waiting suspend 0 noskip
 all prepare sleep true
6 key lid
 denied P23 operation-in-progress suspend
7 key power
 denied P23 operation-in-progress suspend
8 call 2 2 power poweroff
 denied P23 operation-in-progress suspend
9 dock true
 granted
 set docked true
10 key lid
 denied P34 key-ignored
11 tick 5000
 granted
 set now 5000
 set op running suspend
end 11
",
);

/// Each with what it shows of keys and of the lid.
pub const CASES: [Case; 6] = [
    Case {
        name: "keys bring about operations",
        pieces: &[DEFAULTS],
    },
    Case {
        name: "a lock holds the power key",
        pieces: &[ALONE, ALICE, POWER_KEY_HELD],
    },
    Case {
        name: "a lock holds each key",
        pieces: &[ALONE, ALICE, KEYS_HELD],
    },
    Case {
        name: "a lock holds its own key",
        pieces: &[ALONE, ALICE, OWN_KEY],
    },
    Case {
        name: "the lid passes locks",
        pieces: &[ALONE, ALICE, KEYS_BLOCKED],
    },
    Case {
        name: "a lock delays the lid",
        pieces: &[ALONE, ALICE, KEYS_WAIT],
    },
];
