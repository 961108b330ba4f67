// What happens to sessions and their users.

use crate::{Case, Piece};

/// A session is created, comes to the front, closes and goes; its user lingers, and then leaves.
const LEAVING: Piece = (
    "\
login-recording 1
user 1000 1000 alice
go
connect 1 0
call 1 1 create 1000 1 login tty user % seat0 2 tty2 % false % %
call 1 2 activate c1
call 1 3 close 1
exit c1
call 1 4 linger 1000 true
call 1 5 linger 1000 false
tick 9999
tick 10000
call 1 6 activate c1
end
",
    "\
login-transcript 1
1 connect 1 0
 granted
 set conn 1 0
2 call 1 1 create 1000 1 login tty user % seat0 2 tty2 % false % %
 granted c1 /org/freedesktop/login1/session/c1 /run/user/1000 1 1000 seat0 2 false
 set user 1000 known
 all user-new 1000
 set owner 1 fifo 1 c1
 set sess c1 open 1000 seat0 2 tty user
 all session-new c1
3 call 1 2 activate c1
 granted
 set pending 2
 set vt 2
 set pending -
 all active seat0 - c1
4 call 1 3 close 1
 granted
 set owner 1 closed
 set sess c1 closing
 all active seat0 c1 -
5 exit c1
 granted
 set sess c1 gone
 all session-removed c1
 set user 1000 leaving 0
6 call 1 4 linger 1000 true
 granted
 set linger 1000 true
 set user 1000 known
7 call 1 5 linger 1000 false
 granted
 set linger 1000 false
 set user 1000 leaving 0
8 tick 9999
 granted
 set now 9999
9 tick 10000
 granted
 set now 10000
 set user 1000 absent
 all user-removed 1000
10 call 1 6 activate c1
 denied P04 no-such-session
end 10
",
);

/// Locks, signals and hints, of one session and of all; a hint that stands is not set again.
const TOLD: Piece = (
    "\
login-recording 1
user 1000 1000 alice
go
connect 1 0
connect 2 1000
call 1 1 create 1000 2 login tty user % seat0 2 tty2 % false % %
call 1 2 create 1000 2 login tty user % % 0 % % false % %
call 2 1 lock c1
call 2 2 unlock c2
call 1 3 lock-all
call 1 4 unlock-all
call 2 3 kill c1 % 15
call 2 4 kill c2 leader 9
call 2 5 kill-user 1000 9
call 2 6 idle c1 true
call 2 7 idle c1 true
send 2 8 locked c2 true
call 1 5 idle c1 false
end
",
    "\
login-transcript 1
1 connect 1 0
 granted
 set conn 1 0
2 connect 2 1000
 granted
 set conn 2 1000
3 call 1 1 create 1000 2 login tty user % seat0 2 tty2 % false % %
 granted c1 /org/freedesktop/login1/session/c1 /run/user/1000 1 1000 seat0 2 false
 set user 1000 known
 all user-new 1000
 set owner 1 fifo 1 c1
 set sess c1 open 1000 seat0 2 tty user
 all session-new c1
4 call 1 2 create 1000 2 login tty user % % 0 % % false % %
 granted c2 /org/freedesktop/login1/session/c2 /run/user/1000 2 1000 % 0 false
 set owner 2 fifo 1 c2
 set sess c2 open 1000 - 0 tty user
 all session-new c2
5 call 2 1 lock c1
 granted
 all lock c1
6 call 2 2 unlock c2
 granted
 all unlock c2
7 call 1 3 lock-all
 granted
 all lock c1
 all lock c2
8 call 1 4 unlock-all
 granted
 all unlock c1
 all unlock c2
9 call 2 3 kill c1 % 15
 granted
 set sig c1 all 15
10 call 2 4 kill c2 leader 9
 granted
 set sig c2 leader 9
11 call 2 5 kill-user 1000 9
 granted
 set sig c1 all 9
 set sig c2 all 9
12 call 2 6 idle c1 true
 granted
 set idle c1 true
13 call 2 7 idle c1 true
 granted
14 send 2 8 locked c2 true
 granted
 set locked c2 true
15 call 1 5 idle c1 false
 granted
 set idle c1 false
end 15
",
);

/// Sessions that are closed by a call, with their user, with their seat, and by the end of a connection;
/// nothing but ends comes behind the stop.
const CLOSED: Piece = (
    "\
login-recording 1
user 1000 1000 alice
user 1001 1001 bob
go
connect 1 0
connect 2 1000
call 1 1 create 1000 2 login tty user % seat0 1 tty1 % false % %
call 1 2 create 1001 1 login tty user % % 0 % % false % %
call 1 3 create 1000 2 login tty user % seat0 2 tty2 % false % %
call 1 4 create 1000 2 login tty user % seat0 3 tty3 % false % %
call 2 1 terminate c1
call 1 5 terminate-user 1001
call 2 2 control c3 false
call 1 6 terminate-seat seat0
call 1 7 create 1001 1 login tty user % seat0 1 tty1 % false % %
call 1 8 control c5 false
exit c1
stop
disconnect 1
disconnect 2
end
",
    "\
login-transcript 1
1 connect 1 0
 granted
 set conn 1 0
2 connect 2 1000
 granted
 set conn 2 1000
3 call 1 1 create 1000 2 login tty user % seat0 1 tty1 % false % %
 granted c1 /org/freedesktop/login1/session/c1 /run/user/1000 1 1000 seat0 1 false
 set user 1000 known
 all user-new 1000
 set owner 1 fifo 1 c1
 set sess c1 open 1000 seat0 1 tty user
 all session-new c1
 all active seat0 - c1
4 call 1 2 create 1001 1 login tty user % % 0 % % false % %
 granted c2 /org/freedesktop/login1/session/c2 /run/user/1001 2 1001 % 0 false
 set user 1001 known
 all user-new 1001
 set owner 2 fifo 1 c2
 set sess c2 open 1001 - 0 tty user
 all session-new c2
5 call 1 3 create 1000 2 login tty user % seat0 2 tty2 % false % %
 granted c3 /org/freedesktop/login1/session/c3 /run/user/1000 3 1000 seat0 2 false
 set owner 3 fifo 1 c3
 set sess c3 open 1000 seat0 2 tty user
 all session-new c3
6 call 1 4 create 1000 2 login tty user % seat0 3 tty3 % false % %
 granted c4 /org/freedesktop/login1/session/c4 /run/user/1000 4 1000 seat0 3 false
 set owner 4 fifo 1 c4
 set sess c4 open 1000 seat0 3 tty user
 all session-new c4
7 call 2 1 terminate c1
 granted
 set sess c1 closing
 all active seat0 c1 -
8 call 1 5 terminate-user 1001
 granted
 set sess c2 closing
9 call 2 2 control c3 false
 granted
 set ctl c3 2
10 call 1 6 terminate-seat seat0
 granted
 set ctl c3 -
 set sess c3 closing
 set sess c4 closing
11 call 1 7 create 1001 1 login tty user % seat0 1 tty1 % false % %
 granted c5 /org/freedesktop/login1/session/c5 /run/user/1001 5 1001 seat0 1 false
 set owner 5 fifo 1 c5
 set sess c5 open 1001 seat0 1 tty user
 all session-new c5
 all active seat0 - c5
12 call 1 8 control c5 false
 granted
 set ctl c5 1
13 exit c1
 granted
 set sess c1 gone
 all session-removed c1
14 stop
 granted
15 disconnect 1
 granted
 set ctl c5 -
 set sess c5 closing
 all active seat0 c5 -
 set conn 1 gone
16 disconnect 2
 granted
 set conn 2 gone
end 16
",
);

/// Each with what happens to sessions.
pub const CASES: [Case; 3] = [
    Case {
        name: "a user leaves",
        pieces: &[LEAVING],
    },
    Case {
        name: "sessions are told",
        pieces: &[TOLD],
    },
    Case {
        name: "sessions are closed",
        pieces: &[CLOSED],
    },
];
