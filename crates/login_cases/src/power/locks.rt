// Inhibitor locks: what they can be asked for, by whom, when, and how they are listed.

use super::fronts::{ALICE, ALICE_AND_BOB, ALONE, WITH_BOB};
use crate::{Answered, Case, Piece};

/// What a lock can be asked for: a mode and words, each of which counts once.
const OFFERED: Piece = (
    "\
call 2 1 inhibit idle a b delay
call 2 2 inhibit % a b block
call 2 3 inhibit shutdown:shutdown a b delay
call 2 4 power poweroff
call 2 5 inhibit shutdown c d delay
call 2 6 inhibit sleep c d delay
end
",
    "\
4 call 2 1 inhibit idle a b delay
 denied P25 delay-not-offered
5 call 2 2 inhibit % a b block
 denied P03 bad-arguments
6 call 2 3 inhibit shutdown:shutdown a b delay
 granted 2
 set lock 1 shutdown delay 1000
 set owner 2 lock 2 1
7 call 2 4 power poweroff
 granted
 set op waiting poweroff 0 noskip
 all prepare shutdown true
8 call 2 5 inhibit shutdown c d delay
 denied P23 operation-in-progress poweroff
9 call 2 6 inhibit sleep c d delay
 granted 3
 set lock 2 sleep delay 1000
 set owner 3 lock 2 2
end 9
",
);

/// Locks of several words, and their list, in which the words have one order.
const WORDS: Piece = (
    "\
call 2 1 list-inhibitors
call 2 2 inhibit handle-lid-switch:sleep:shutdown a%20player % block
call 1 2 inhibit handle-hibernate-key:handle-suspend-key:idle:handle-power-key:idle root all block
call 2 3 inhibit sleep:shutdown:sleep % %25 delay
call 2 4 list-inhibitors
call 1 3 close 2
call 1 4 close 3
send 1 5 inhibit idle root again block
send 2 5 list-inhibitors
end
",
    "\
4 call 2 1 list-inhibitors
 granted []
5 call 2 2 inhibit handle-lid-switch:sleep:shutdown a%20player % block
 granted 2
 set lock 1 shutdown:sleep:handle-lid-switch block 1000
 set owner 2 lock 2 1
6 call 1 2 inhibit handle-hibernate-key:handle-suspend-key:idle:handle-power-key:idle root all block
 granted 3
 set lock 2 idle:handle-power-key:handle-suspend-key:handle-hibernate-key block 0
 set owner 3 lock 1 2
7 call 2 3 inhibit sleep:shutdown:sleep % %25 delay
 granted 4
 set lock 3 shutdown:sleep delay 1000
 set owner 4 lock 2 3
8 call 2 4 list-inhibitors
 granted [(shutdown:sleep:handle-lid-switch a%20player % block 1000 2) (idle:handle-power-key:handle-suspend-key:handle-hibernate-key root all block 0 1) (shutdown:sleep % %25 delay 1000 2)]
9 call 1 3 close 2
 denied P28 not-yours
10 call 1 4 close 3
 granted
 set lock 2 -
 set owner 3 closed
11 send 1 5 inhibit idle root again block
 granted 5
 set lock 4 idle block 0
 set owner 5 lock 1 4
12 send 2 5 list-inhibitors
 granted [(shutdown:sleep:handle-lid-switch a%20player % block 1000 2) (shutdown:sleep % %25 delay 1000 2) (idle root again block 0 1)]
end 12
",
);

/// A lock on an operation's word is not given while the operation waits or runs; one on another word is.
const UNDER_WAY: Piece = (
    "\
call 2 1 inhibit shutdown a b delay
call 2 2 power poweroff
call 2 3 inhibit shutdown c d delay
call 2 4 inhibit sleep:shutdown c d block
call 3 1 inhibit shutdown c d block
call 1 2 inhibit shutdown c d block
call 2 5 inhibit shutdown:idle c d delay
call 2 6 inhibit sleep:handle-power-key c d block
tick 5000
call 2 7 inhibit shutdown c d delay
jobdone
call 2 8 inhibit shutdown c d delay
end
",
    "\
5 call 2 1 inhibit shutdown a b delay
 granted 2
 set lock 1 shutdown delay 1000
 set owner 2 lock 2 1
6 call 2 2 power poweroff
 granted
 set op waiting poweroff 0 noskip
 all prepare shutdown true
7 call 2 3 inhibit shutdown c d delay
 denied P23 operation-in-progress poweroff
8 call 2 4 inhibit sleep:shutdown c d block
 denied P23 operation-in-progress poweroff
9 call 3 1 inhibit shutdown c d block
 denied P11 action-refused inhibit-block-shutdown
10 call 1 2 inhibit shutdown c d block
 denied P23 operation-in-progress poweroff
11 call 2 5 inhibit shutdown:idle c d delay
 denied P25 delay-not-offered
12 call 2 6 inhibit sleep:handle-power-key c d block
 granted 3
 set lock 2 sleep:handle-power-key block 1000
 set owner 3 lock 2 2
13 tick 5000
 granted
 set now 5000
 set op running poweroff
14 call 2 7 inhibit shutdown c d delay
 denied P23 operation-in-progress poweroff
15 jobdone
 granted
 set op idle
 all prepare shutdown false
16 call 2 8 inhibit shutdown c d delay
 granted 4
 set lock 3 shutdown delay 1000
 set owner 4 lock 2 3
end 16
",
);

/// What a user may hold up without a session, and with one that is not active.
const INACTIVE: Piece = (
    "\
call 3 1 inhibit shutdown:sleep a b delay
call 3 2 inhibit sleep a b block
call 1 2 create 1001 3 login tty user % seat0 2 tty2 % false % %
call 3 3 inhibit shutdown a b block
call 3 4 inhibit sleep:idle:handle-power-key:handle-suspend-key:handle-hibernate-key:handle-lid-switch a b block
call 3 5 inhibit sleep:shutdown a b block
end
",
    "\
5 call 3 1 inhibit shutdown:sleep a b delay
 granted 2
 set lock 1 shutdown:sleep delay 1001
 set owner 2 lock 3 1
6 call 3 2 inhibit sleep a b block
 denied P11 action-refused inhibit-block-sleep
7 call 1 2 create 1001 3 login tty user % seat0 2 tty2 % false % %
 granted c2 /org/freedesktop/login1/session/c2 /run/user/1001 3 1001 seat0 2 false
 set user 1001 known
 all user-new 1001
 set owner 3 fifo 1 c2
 set sess c2 open 1001 seat0 2 tty user
 all session-new c2
8 call 3 3 inhibit shutdown a b block
 denied P12 action-challenge inhibit-block-shutdown
9 call 3 4 inhibit sleep:idle:handle-power-key:handle-suspend-key:handle-hibernate-key:handle-lid-switch a b block
 granted 4
 set lock 2 sleep:idle:handle-power-key:handle-suspend-key:handle-hibernate-key:handle-lid-switch block 1001
 set owner 4 lock 3 2
10 call 3 5 inhibit sleep:shutdown a b block
 denied P12 action-challenge inhibit-block-shutdown
end 10
",
);

/// What no lock can be asked for, whoever asks.
const MISFITS: [(&str, &str); 24] = [
    ("call 2 9 inhibit % a b block", "denied P03 bad-arguments"),
    (
        "call 2 9 inhibit shutdown: a b block",
        "denied P03 bad-arguments",
    ),
    (
        "call 2 9 inhibit :shutdown a b block",
        "denied P03 bad-arguments",
    ),
    (
        "call 2 9 inhibit shutdown::sleep a b block",
        "denied P03 bad-arguments",
    ),
    (
        "call 2 9 inhibit Shutdown a b block",
        "denied P03 bad-arguments",
    ),
    (
        "call 2 9 inhibit shutdown,sleep a b block",
        "denied P03 bad-arguments",
    ),
    (
        "call 2 9 inhibit shutdown%20 a b block",
        "denied P03 bad-arguments",
    ),
    (
        "call 2 9 inhibit handle-reboot-key a b block",
        "denied P03 bad-arguments",
    ),
    (
        "call 2 9 inhibit shutdown:desk a b block",
        "denied P03 bad-arguments",
    ),
    (
        "call 2 9 inhibit power a b block",
        "denied P03 bad-arguments",
    ),
    (
        "call 2 9 inhibit sleep a b block-weak",
        "denied P03 bad-arguments",
    ),
    ("call 2 9 inhibit sleep a b %", "denied P03 bad-arguments"),
    (
        "call 2 9 inhibit sleep a b Block",
        "denied P03 bad-arguments",
    ),
    (
        "call 2 9 inhibit sleep a b delay%20",
        "denied P03 bad-arguments",
    ),
    (
        "call 2 9 inhibit idle:desk a b delay",
        "denied P03 bad-arguments",
    ),
    (
        "call 2 9 inhibit idle a b delay",
        "denied P25 delay-not-offered",
    ),
    (
        "call 2 9 inhibit handle-power-key a b delay",
        "denied P25 delay-not-offered",
    ),
    (
        "call 2 9 inhibit handle-suspend-key a b delay",
        "denied P25 delay-not-offered",
    ),
    (
        "call 2 9 inhibit handle-hibernate-key a b delay",
        "denied P25 delay-not-offered",
    ),
    (
        "call 2 9 inhibit handle-lid-switch a b delay",
        "denied P25 delay-not-offered",
    ),
    (
        "call 2 9 inhibit shutdown:idle a b delay",
        "denied P25 delay-not-offered",
    ),
    (
        "call 2 9 inhibit handle-lid-switch:sleep a b delay",
        "denied P25 delay-not-offered",
    ),
    (
        "call 3 9 inhibit idle a b delay",
        "denied P25 delay-not-offered",
    ),
    (
        "call 3 9 inhibit sleep: a b block",
        "denied P03 bad-arguments",
    ),
];

/// Which action each word of a lock asks for.
const ACTIONS: [(&str, &str); 12] = [
    (
        "call 3 9 inhibit shutdown a b block",
        "denied P11 action-refused inhibit-block-shutdown",
    ),
    (
        "call 3 9 inhibit sleep a b block",
        "denied P11 action-refused inhibit-block-sleep",
    ),
    (
        "call 3 9 inhibit idle a b block",
        "denied P11 action-refused inhibit-block-idle",
    ),
    (
        "call 3 9 inhibit handle-power-key a b block",
        "denied P11 action-refused inhibit-handle-power-key",
    ),
    (
        "call 3 9 inhibit handle-suspend-key a b block",
        "denied P11 action-refused inhibit-handle-suspend-key",
    ),
    (
        "call 3 9 inhibit handle-hibernate-key a b block",
        "denied P11 action-refused inhibit-handle-hibernate-key",
    ),
    (
        "call 3 9 inhibit handle-lid-switch a b block",
        "denied P11 action-refused inhibit-handle-lid-switch",
    ),
    (
        "call 3 9 inhibit sleep:shutdown a b block",
        "denied P11 action-refused inhibit-block-shutdown",
    ),
    (
        "call 3 9 inhibit idle:sleep a b block",
        "denied P11 action-refused inhibit-block-sleep",
    ),
    (
        "call 3 9 inhibit handle-power-key:idle a b block",
        "denied P11 action-refused inhibit-block-idle",
    ),
    (
        "call 3 9 inhibit handle-lid-switch:handle-hibernate-key a b block",
        "denied P11 action-refused inhibit-handle-hibernate-key",
    ),
    (
        "send 3 9 inhibit handle-suspend-key:handle-power-key a b block",
        "denied P11 action-refused inhibit-handle-power-key",
    ),
];

/// Each with what it shows of locks.
pub const CASES: [Case; 4] = [
    Case {
        name: "locks are offered",
        pieces: &[ALONE, ALICE, OFFERED],
    },
    Case {
        name: "locks are listed",
        pieces: &[ALONE, ALICE, WORDS],
    },
    Case {
        name: "a lock comes before the operation",
        pieces: &[ALICE_AND_BOB, UNDER_WAY],
    },
    Case {
        name: "who is not active may lock less",
        pieces: &[ALICE_AND_BOB, INACTIVE],
    },
];

/// Each with what it shows of the words of locks.
pub const ANSWERED: [Answered; 2] = [
    Answered {
        name: "what no lock holds up",
        beginning: WITH_BOB,
        lines: &MISFITS,
    },
    Answered {
        name: "each word asks for its action",
        beginning: WITH_BOB,
        lines: &ACTIONS,
    },
];
