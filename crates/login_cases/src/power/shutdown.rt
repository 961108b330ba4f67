// Two users, one of whom delays the shutdown that the other one asks for.

use crate::{Case, Piece};

/// The recording.
pub const SHUTDOWN: Case = Case {
    name: "a shutdown is delayed",
    pieces: &[(
        "\
login-recording 1
user 1000 1000 alice
user 1001 1001 bob
go
connect 1 0
connect 2 1000
connect 3 1001
call 1 1 create 1000 2 login tty user % seat0 1 tty1 % false % %
call 1 2 create 1001 3 login tty user % seat0 2 tty2 % false % %
call 3 1 inhibit shutdown editor unsaved%20text delay
call 3 2 power poweroff
call 2 1 power poweroff
call 3 3 inhibit shutdown editor late delay
call 2 2 list-inhibitors
tick 4999
call 3 4 close 3
jobdone
end
",
        "\
login-transcript 1
1 connect 1 0
 granted
 set conn 1 0
2 connect 2 1000
 granted
 set conn 2 1000
3 connect 3 1001
 granted
 set conn 3 1001
4 call 1 1 create 1000 2 login tty user % seat0 1 tty1 % false % %
 granted c1 /org/freedesktop/login1/session/c1 /run/user/1000 1 1000 seat0 1 false
 set user 1000 known
 all user-new 1000
 set owner 1 fifo 1 c1
 set sess c1 open 1000 seat0 1 tty user
 all session-new c1
 all active seat0 - c1
5 call 1 2 create 1001 3 login tty user % seat0 2 tty2 % false % %
 granted c2 /org/freedesktop/login1/session/c2 /run/user/1001 2 1001 seat0 2 false
 set user 1001 known
 all user-new 1001
 set owner 2 fifo 1 c2
 set sess c2 open 1001 seat0 2 tty user
 all session-new c2
6 call 3 1 inhibit shutdown editor unsaved%20text delay
 granted 3
 set lock 1 shutdown delay 1001
 set owner 3 lock 3 1
7 call 3 2 power poweroff
 denied P12 action-challenge power-off-multiple-sessions
8 call 2 1 power poweroff
 granted
 set op waiting poweroff 0 noskip
 all prepare shutdown true
9 call 3 3 inhibit shutdown editor late delay
 denied P23 operation-in-progress poweroff
10 call 2 2 list-inhibitors
 granted [(shutdown editor unsaved%20text delay 1001 3)]
11 tick 4999
 granted
 set now 4999
12 call 3 4 close 3
 granted
 set lock 1 -
 set owner 3 closed
 set op running poweroff
13 jobdone
 granted
 set op idle
 all prepare shutdown false
end 13
",
    )],
};
