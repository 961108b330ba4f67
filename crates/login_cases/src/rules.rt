// Who may create and who may control a session, and how texts are spelled.

use crate::{Case, Piece};

/// A recording without events.
const NOTHING: Piece = (
    "\
login-recording 1
go
end
",
    "\
login-transcript 1
end 0
",
);

/// Who may create a session, for whom, and where; what a first and a second session of a user do.
const CREATING: Piece = (
    "\
login-recording 1
user 1000 1000 alice
go
connect 7 0
connect 8 1000
call 8 1 create 1001 9 login tty user % seat0 1 tty1 % false % %
call 7 1 create 1001 9 login tty user % seat0 1 tty1 % false % %
call 7 2 create 1000 9 login tty user % seat0 1 tty1 % false % %
call 7 3 create 1000 0 login tty user % seat0 2 tty2 % false % %
call 7 4 create 1000 9 login tty user % seat0 2 tty2 % false % %
call 7 5 create 1000 8 login tty user % seat0 2 tty2 % false % %
call 7 6 create 1000 8 login tty user % seat0 1 tty1 % false % %
call 7 7 create 0 7 login tty user % seat0 63 tty63 % false % %
end
",
    "\
login-transcript 1
1 connect 7 0
 granted
 set conn 7 0
2 connect 8 1000
 granted
 set conn 8 1000
3 call 8 1 create 1001 9 login tty user % seat0 1 tty1 % false % %
 denied P09 not-root
4 call 7 1 create 1001 9 login tty user % seat0 1 tty1 % false % %
 denied P05 no-such-user
5 call 7 2 create 1000 9 login tty user % seat0 1 tty1 % false % %
 denied P35 nobody
6 call 7 3 create 1000 0 login tty user % seat0 2 tty2 % false % %
 granted c1 /org/freedesktop/login1/session/c1 /run/user/1000 1 1000 seat0 2 false
 set user 1000 known
 all user-new 1000
 set owner 1 fifo 7 c1
 set sess c1 open 1000 seat0 2 tty user
 all session-new c1
7 call 7 4 create 1000 9 login tty user % seat0 2 tty2 % false % %
 denied P35 nobody
8 call 7 5 create 1000 8 login tty user % seat0 2 tty2 % false % %
 denied P21 vt-busy c1
9 call 7 6 create 1000 8 login tty user % seat0 1 tty1 % false % %
 granted c2 /org/freedesktop/login1/session/c2 /run/user/1000 2 1000 seat0 1 false
 set owner 2 fifo 7 c2
 set sess c2 open 1000 seat0 1 tty user
 all session-new c2
 all active seat0 - c2
10 call 7 7 create 0 7 login tty user % seat0 63 tty63 % false % %
 granted c3 /org/freedesktop/login1/session/c3 /run/user/0 3 0 seat0 63 false
 set user 0 known
 all user-new 0
 set owner 3 fifo 7 c3
 set sess c3 open 0 seat0 63 tty user
 all session-new c3
end 10
",
);

/// Who may take and give up control of a session.
const CONTROLLING: Piece = (
    "\
login-recording 1
user 1000 1000 alice
user 1001 1001 bob
go
connect 1 0
connect 2 1000
connect 3 1001
connect 4 1000
call 1 1 create 1000 2 login tty user % seat0 2 tty2 % false % %
call 2 1 control c9 false
call 2 2 control x false
call 2 3 control c01 false
call 2 4 control % false
call 2 5 uncontrol c2
call 3 1 control c1 false
call 2 6 uncontrol c1
call 2 7 control c1 false
call 2 8 control c1 false
call 3 2 control c1 false
call 4 1 control c1 false
call 1 2 control c1 false
call 1 3 uncontrol c1
call 4 2 uncontrol c1
call 2 9 uncontrol c1
call 2 10 uncontrol c1
call 1 4 control c1 false
end
",
    "\
login-transcript 1
1 connect 1 0
 granted
 set conn 1 0
2 connect 2 1000
 granted
 set conn 2 1000
3 connect 3 1001
 granted
 set conn 3 1001
4 connect 4 1000
 granted
 set conn 4 1000
5 call 1 1 create 1000 2 login tty user % seat0 2 tty2 % false % %
 granted c1 /org/freedesktop/login1/session/c1 /run/user/1000 1 1000 seat0 2 false
 set user 1000 known
 all user-new 1000
 set owner 1 fifo 1 c1
 set sess c1 open 1000 seat0 2 tty user
 all session-new c1
6 call 2 1 control c9 false
 denied P04 no-such-session
7 call 2 2 control x false
 denied P04 no-such-session
8 call 2 3 control c01 false
 denied P04 no-such-session
9 call 2 4 control % false
 denied P04 no-such-session
10 call 2 5 uncontrol c2
 denied P04 no-such-session
11 call 3 1 control c1 false
 denied P10 not-owner
12 call 2 6 uncontrol c1
 denied P18 not-in-control
13 call 2 7 control c1 false
 granted
 set ctl c1 2
14 call 2 8 control c1 false
 granted
15 call 3 2 control c1 false
 denied P10 not-owner
16 call 4 1 control c1 false
 denied P17 controlled 2
17 call 1 2 control c1 false
 denied P17 controlled 2
18 call 1 3 uncontrol c1
 denied P18 not-in-control
19 call 4 2 uncontrol c1
 denied P18 not-in-control
20 call 2 9 uncontrol c1
 granted
 set ctl c1 -
21 call 2 10 uncontrol c1
 denied P18 not-in-control
22 call 1 4 control c1 false
 granted
 set ctl c1 1
end 22
",
);

/// Texts and the greatest numbers; the last line spells a byte that stands for itself, and is refused.
pub const SPELLING: Piece = (
    "\
login-recording 1
user 4294967295 0 %
user 1 4294967295 %e2%82%ac%20%25
go
connect 4294967295 0
call 4294967295 4294967295 create 4294967295 0 a%20b tty user %25 seat0 3 %c3%a9 %7f false %0a !~
call 4294967295 1 control %63%31 false
",
    "\
login-transcript 1
1 connect 4294967295 0
 granted
 set conn 4294967295 0
2 call 4294967295 4294967295 create 4294967295 0 a%20b tty user %25 seat0 3 %c3%a9 %7f false %0a !~
 granted c1 /org/freedesktop/login1/session/c1 /run/user/4294967295 1 4294967295 seat0 3 false
 set user 4294967295 known
 all user-new 4294967295
 set owner 1 fifo 4294967295 c1
 set sess c1 open 4294967295 seat0 3 tty user
 all session-new c1
",
);

/// Each with what it shows of rules.
pub const CASES: [Case; 3] = [
    Case {
        name: "a recording without events",
        pieces: &[NOTHING],
    },
    Case {
        name: "who may create a session",
        pieces: &[CREATING],
    },
    Case {
        name: "who may control a session",
        pieces: &[CONTROLLING],
    },
];
