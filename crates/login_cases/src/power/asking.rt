// Who may ask for which operation, and what the manager says that they can.

use super::fronts::{ALICE_AND_BOB, WITH_BOB};
use crate::{Answered, Beginning, Case, Piece};

/// What each user can ask for without locks.
const CAN: [(&str, &str); 16] = [
    ("call 2 9 can poweroff", "granted yes"),
    ("call 2 9 can reboot", "granted yes"),
    ("call 2 9 can halt", "granted yes"),
    ("call 2 9 can suspend", "granted yes"),
    ("call 2 9 can hibernate", "granted yes"),
    ("call 2 9 can hybrid-sleep", "granted yes"),
    ("call 2 9 can suspend-then-hibernate", "granted yes"),
    ("call 3 9 can poweroff", "granted challenge"),
    ("call 3 9 can reboot", "granted challenge"),
    ("call 3 9 can halt", "granted challenge"),
    ("call 3 9 can suspend", "granted challenge"),
    ("call 3 9 can hibernate", "granted challenge"),
    ("call 3 9 can hybrid-sleep", "granted challenge"),
    ("call 3 9 can suspend-then-hibernate", "granted challenge"),
    ("call 1 9 can poweroff", "granted yes"),
    ("send 1 9 can hybrid-sleep", "granted yes"),
];

/// What Bob may not ask for while Alice's session is open.
const WITH_OTHERS: [(&str, &str); 7] = [
    (
        "call 3 9 power poweroff",
        "denied P12 action-challenge power-off-multiple-sessions",
    ),
    (
        "call 3 9 power reboot",
        "denied P12 action-challenge reboot-multiple-sessions",
    ),
    (
        "call 3 9 power halt",
        "denied P12 action-challenge halt-multiple-sessions",
    ),
    (
        "call 3 9 power suspend",
        "denied P12 action-challenge suspend-multiple-sessions",
    ),
    (
        "call 3 9 power hibernate",
        "denied P12 action-challenge hibernate-multiple-sessions",
    ),
    (
        "call 3 9 power hybrid-sleep",
        "denied P12 action-challenge hibernate-multiple-sessions",
    ),
    (
        "call 3 9 power suspend-then-hibernate",
        "denied P12 action-challenge hibernate-multiple-sessions",
    ),
];

/// A user without a session, alone.
const ALONE: Beginning = Beginning {
    piece: (
        "\
login-recording 1
user 1000 1000 alice
go
connect 2 1000
",
        "\
login-transcript 1
1 connect 2 1000
 granted
 set conn 2 1000
",
    ),
    entries: 1,
};

/// What this user may not ask for, and can.
const WITHOUT_SESSION: [(&str, &str); 8] = [
    (
        "call 2 9 power poweroff",
        "denied P12 action-challenge power-off",
    ),
    (
        "call 2 9 power reboot",
        "denied P12 action-challenge reboot",
    ),
    ("call 2 9 power halt", "denied P12 action-challenge halt"),
    (
        "call 2 9 power suspend",
        "denied P12 action-challenge suspend",
    ),
    (
        "call 2 9 power hibernate",
        "denied P12 action-challenge hibernate",
    ),
    (
        "call 2 9 power hybrid-sleep",
        "denied P12 action-challenge hibernate",
    ),
    (
        "call 2 9 power suspend-then-hibernate",
        "denied P12 action-challenge hibernate",
    ),
    ("call 2 9 can reboot", "granted challenge"),
];

/// What each user can ask for while a lock blocks it, and while one delays it.
const CAN_WITH_LOCKS: Piece = (
    "\
call 2 1 inhibit shutdown me why block
call 2 2 can poweroff
call 2 3 can suspend
call 1 2 can halt
call 3 1 can reboot
call 2 4 close 2
call 2 5 inhibit shutdown:sleep me why delay
call 2 6 can poweroff
call 2 7 power hybrid-sleep
call 2 8 can hybrid-sleep
send 3 2 can suspend-then-hibernate
end
",
    "\
5 call 2 1 inhibit shutdown me why block
 granted 2
 set lock 1 shutdown block 1000
 set owner 2 lock 2 1
6 call 2 2 can poweroff
 granted challenge
7 call 2 3 can suspend
 granted yes
8 call 1 2 can halt
 granted yes
9 call 3 1 can reboot
 granted challenge
10 call 2 4 close 2
 granted
 set lock 1 -
 set owner 2 closed
11 call 2 5 inhibit shutdown:sleep me why delay
 granted 3
 set lock 2 shutdown:sleep delay 1000
 set owner 3 lock 2 2
12 call 2 6 can poweroff
 granted yes
13 call 2 7 power hybrid-sleep
 granted
 set op waiting hybrid-sleep 0 noskip
 all prepare sleep true
14 call 2 8 can hybrid-sleep
 granted yes
15 send 3 2 can suspend-then-hibernate
 granted challenge
end 15
",
);

/// Which of several broken rules of an operation is named.
const FIRST_BROKEN: Piece = (
    "\
call 2 1 inhibit shutdown me why block
call 3 1 power poweroff
call 2 2 power poweroff
call 1 2 power reboot
call 3 2 power poweroff
call 2 3 power halt
send 1 3 power suspend
jobdone
call 2 4 power poweroff
end
",
    "\
5 call 2 1 inhibit shutdown me why block
 granted 2
 set lock 1 shutdown block 1000
 set owner 2 lock 2 1
6 call 3 1 power poweroff
 denied P12 action-challenge power-off-multiple-sessions
7 call 2 2 power poweroff
 denied P24 inhibited 1
8 call 1 2 power reboot
 granted
 set op waiting reboot 0 skip
 all prepare shutdown true
 set op running reboot
9 call 3 2 power poweroff
 denied P23 operation-in-progress reboot
10 call 2 3 power halt
 denied P23 operation-in-progress reboot
11 send 1 3 power suspend
 denied P23 operation-in-progress reboot
12 jobdone
 granted
 set op idle
 all prepare shutdown false
13 call 2 4 power poweroff
 denied P24 inhibited 1
end 13
",
);

/// Whose sessions are others': open ones of class user, of any user but the caller.
const OTHERS: Piece = (
    "\
login-recording 1
user 1000 1000 alice
user 1001 1001 bob
go
connect 1 0
connect 3 1001
call 1 1 create 1000 1 login tty greeter % seat0 1 tty1 % false % %
call 3 1 power poweroff
call 1 2 create 1000 1 login tty % % % 0 % % false % %
call 3 2 power poweroff
call 1 3 close 2
call 3 3 power poweroff
call 1 4 create 1001 3 login tty user % % 0 % % false % %
call 3 4 power poweroff
call 1 5 create 0 1 login tty user % % 0 % % false % %
call 3 5 power poweroff
end
",
    "\
login-transcript 1
1 connect 1 0
 granted
 set conn 1 0
2 connect 3 1001
 granted
 set conn 3 1001
3 call 1 1 create 1000 1 login tty greeter % seat0 1 tty1 % false % %
 granted c1 /org/freedesktop/login1/session/c1 /run/user/1000 1 1000 seat0 1 false
 set user 1000 known
 all user-new 1000
 set owner 1 fifo 1 c1
 set sess c1 open 1000 seat0 1 tty greeter
 all session-new c1
 all active seat0 - c1
4 call 3 1 power poweroff
 denied P12 action-challenge power-off
5 call 1 2 create 1000 1 login tty % % % 0 % % false % %
 granted c2 /org/freedesktop/login1/session/c2 /run/user/1000 2 1000 % 0 false
 set owner 2 fifo 1 c2
 set sess c2 open 1000 - 0 tty user
 all session-new c2
6 call 3 2 power poweroff
 denied P12 action-challenge power-off-multiple-sessions
7 call 1 3 close 2
 granted
 set owner 2 closed
 set sess c2 closing
8 call 3 3 power poweroff
 denied P12 action-challenge power-off
9 call 1 4 create 1001 3 login tty user % % 0 % % false % %
 granted c3 /org/freedesktop/login1/session/c3 /run/user/1001 3 1001 % 0 false
 set user 1001 known
 all user-new 1001
 set owner 3 fifo 1 c3
 set sess c3 open 1001 - 0 tty user
 all session-new c3
10 call 3 4 power poweroff
 denied P12 action-challenge power-off
11 call 1 5 create 0 1 login tty user % % 0 % % false % %
 granted c4 /org/freedesktop/login1/session/c4 /run/user/0 4 0 % 0 false
 set user 0 known
 all user-new 0
 set owner 4 fifo 1 c4
 set sess c4 open 0 - 0 tty user
 all session-new c4
12 call 3 5 power poweroff
 denied P12 action-challenge power-off-multiple-sessions
end 12
",
);

/// Each with what it shows of who may ask for an operation.
pub const CASES: [Case; 3] = [
    Case {
        name: "locks change what users can ask for",
        pieces: &[ALICE_AND_BOB, CAN_WITH_LOCKS],
    },
    Case {
        name: "the first broken rule of an operation is named",
        pieces: &[ALICE_AND_BOB, FIRST_BROKEN],
    },
    Case {
        name: "some sessions are of others",
        pieces: &[OTHERS],
    },
];

/// Each with what it shows of what users can ask for.
pub const ANSWERED: [Answered; 3] = [
    Answered {
        name: "users can ask",
        beginning: WITH_BOB,
        lines: &CAN,
    },
    Answered {
        name: "sessions of others are asked for",
        beginning: WITH_BOB,
        lines: &WITH_OTHERS,
    },
    Answered {
        name: "each operation asks for its action",
        beginning: ALONE,
        lines: &WITHOUT_SESSION,
    },
];
