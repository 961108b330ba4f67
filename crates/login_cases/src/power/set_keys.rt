// Keys and the lid, as a configuration sets them.

use super::fronts::ALICE;
use crate::{Case, Piece};

/// The power key passes locks.
const PASSES: Piece = (
    "\
login-recording 1
user 1000 1000 alice
conf [Login]
conf PowerKeyIgnoreInhibited=yes
go
",
    "login-transcript 1\n",
);

/// A lock blocks the call, and the key passes it.
const PASSED: Piece = (
    "\
call 2 1 inhibit shutdown me why block
call 2 2 power poweroff
key power
call 1 2 power poweroff
end
",
    "\
4 call 2 1 inhibit shutdown me why block
 granted 2
 set lock 1 shutdown block 1000
 set owner 2 lock 2 1
5 call 2 2 power poweroff
 denied P24 inhibited 1
6 key power
 granted
 set op waiting poweroff 0 skip
 all prepare shutdown true
 set op running poweroff
7 call 1 2 power poweroff
 denied P23 operation-in-progress poweroff
end 7
",
);

/// The suspend key locks, and the lid obeys locks and means something in the dock.
const SET: Piece = (
    "\
login-recording 1
user 1000 1000 alice
conf [Login]
conf HandleSuspendKey=lock
conf HandleLidSwitchDocked=hibernate
conf LidSwitchIgnoreInhibited=no
go
",
    "login-transcript 1\n",
);

/// A key that locks asks neither whether an operation runs nor whether a lock blocks one.
const LOCKS: Piece = (
    "\
call 2 1 inhibit shutdown:sleep me why block
key suspend
key lid
dock true
key lid
call 2 2 close 2
key lid
key suspend
end
",
    "\
4 call 2 1 inhibit shutdown:sleep me why block
 granted 2
 set lock 1 shutdown:sleep block 1000
 set owner 2 lock 2 1
5 key suspend
 granted
 all lock c1
6 key lid
 denied P24 inhibited 1
7 dock true
 granted
 set docked true
8 key lid
 denied P24 inhibited 1
9 call 2 2 close 2
 granted
 set lock 1 -
 set owner 2 closed
10 key lid
 granted
 set op waiting hibernate 0 noskip
 all prepare sleep true
 set op running hibernate
11 key suspend
 granted
 all lock c1
end 11
",
);

/// Each with what it shows of keys that are set.
pub const CASES: [Case; 2] = [
    Case {
        name: "a key passes locks if it is set so",
        pieces: &[PASSES, ALICE, PASSED],
    },
    Case {
        name: "keys do what they are set to",
        pieces: &[SET, ALICE, LOCKS],
    },
];
