// Which terminal of seat0 is in front.

use crate::{Case, Piece};

/// Sessions on three terminals, and a terminal without one; the last getty stands already.
pub const TURNING: Case = Case {
    name: "terminals take turns",
    pieces: &[(
        "\
login-recording 1
user 1000 1000 alice
go
connect 1 0
connect 2 1000
call 1 1 create 1000 2 login tty user % seat0 1 tty1 % false % %
call 1 2 create 1000 2 login tty user % seat0 3 tty3 % false % %
call 1 3 create 1000 2 login tty user % seat0 7 tty7 % false % %
call 2 1 next seat0
call 2 2 next seat0
call 2 3 next seat0
call 2 4 prev seat0
call 2 5 activate-on c2 seat0
call 2 6 activate c2
call 2 7 switch seat0 5
call 1 4 switch seat0 8
vtkey 5
vtkey 7
end
",
        "\
login-transcript 1
1 connect 1 0
 granted
 set conn 1 0
2 connect 2 1000
 granted
 set conn 2 1000
3 call 1 1 create 1000 2 login tty user % seat0 1 tty1 % false % %
 granted c1 /org/freedesktop/login1/session/c1 /run/user/1000 1 1000 seat0 1 false
 set user 1000 known
 all user-new 1000
 set owner 1 fifo 1 c1
 set sess c1 open 1000 seat0 1 tty user
 all session-new c1
 all active seat0 - c1
4 call 1 2 create 1000 2 login tty user % seat0 3 tty3 % false % %
 granted c2 /org/freedesktop/login1/session/c2 /run/user/1000 2 1000 seat0 3 false
 set owner 2 fifo 1 c2
 set sess c2 open 1000 seat0 3 tty user
 all session-new c2
5 call 1 3 create 1000 2 login tty user % seat0 7 tty7 % false % %
 granted c3 /org/freedesktop/login1/session/c3 /run/user/1000 3 1000 seat0 7 false
 set owner 3 fifo 1 c3
 set sess c3 open 1000 seat0 7 tty user
 all session-new c3
6 call 2 1 next seat0
 granted
 set pending 3
 set vt 3
 set pending -
 all active seat0 c1 c2
7 call 2 2 next seat0
 granted
 set pending 7
 set vt 7
 set pending -
 all active seat0 c2 c3
8 call 2 3 next seat0
 granted
 set pending 1
 set vt 1
 set pending -
 all active seat0 c3 c1
9 call 2 4 prev seat0
 granted
 set pending 7
 set vt 7
 set pending -
 all active seat0 c1 c3
10 call 2 5 activate-on c2 seat0
 granted
 set pending 3
 set vt 3
 set pending -
 all active seat0 c3 c2
11 call 2 6 activate c2
 granted
12 call 2 7 switch seat0 5
 granted
 set pending 5
 set vt 5
 set pending -
 set getty 5 true
 all active seat0 c2 -
13 call 1 4 switch seat0 8
 granted
 set pending 8
 set vt 8
 set pending -
14 vtkey 5
 granted
 set pending 5
 set vt 5
 set pending -
15 vtkey 7
 granted
 set pending 7
 set vt 7
 set pending -
 all active seat0 - c3
end 15
",
    )],
};
