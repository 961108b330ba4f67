// Seats without terminals: they appear with their devices, and their sessions take turns.

use super::fronts::OTHER_SEAT;
use crate::{Case, Piece};

/// A seat appears; its sessions take it from each other, with a device; and it goes with the device.
const WHOLE_LIFE: Piece = (
    "\
login-recording 1
user 1000 1000 alice
user 1001 1001 bob
go
connect 1 0
connect 2 1000
add 226 1 drm seat-x
call 1 1 create 1000 2 login wayland user % seat-x 0 % % false % %
call 2 1 control c1 false
call 2 2 take c1 226 1
call 1 2 create 1000 2 login wayland user % seat-x 0 % % false % %
call 2 3 activate c1
call 2 4 set-mode 2 7
remove 226 1
end
",
    "\
login-transcript 1
1 connect 1 0
 granted
 set conn 1 0
2 connect 2 1000
 granted
 set conn 2 1000
3 add 226 1 drm seat-x
 granted
 set dev 226:1 drm seat-x
 set seat seat-x present
 all seat-new seat-x
4 call 1 1 create 1000 2 login wayland user % seat-x 0 % % false % %
 granted c1 /org/freedesktop/login1/session/c1 /run/user/1000 1 1000 seat-x 0 false
 set user 1000 known
 all user-new 1000
 set owner 1 fifo 1 c1
 set sess c1 open 1000 seat-x 0 wayland user
 all session-new c1
 set act seat-x c1
 all active seat-x - c1
5 call 2 1 control c1 false
 granted
 set ctl c1 2
6 call 2 2 take c1 226 1
 granted 2 false
 set owner 2 device 2 c1 226:1
 set taken c1 226:1 2
 set live 2 true
7 call 1 2 create 1000 2 login wayland user % seat-x 0 % % false % %
 granted c2 /org/freedesktop/login1/session/c2 /run/user/1000 3 1000 seat-x 0 false
 set owner 3 fifo 1 c2
 set sess c2 open 1000 seat-x 0 wayland user
 all session-new c2
 set live 2 false
 say 2 pause c1 226:1 force
 set act seat-x c2
 all active seat-x c1 c2
8 call 2 3 activate c1
 granted
 set act seat-x c1
 all active seat-x c2 c1
 set live 2 true
 say 2 resume c1 226:1 2
9 call 2 4 set-mode 2 7
 granted
 set mode 226:1 7
10 remove 226 1
 granted
 say 2 pause c1 226:1 gone
 set live 2 false
 set taken c1 226:1 -
 set dev 226:1 absent
 set mode 226:1 0
 set ctl c1 -
 set sess c1 closing
 set act seat-x -
 all active seat-x c1 -
 set sess c2 closing
 set seat seat-x absent
 all seat-removed seat-x
end 10
",
);

/// Three sessions of a seat: the next and the previous one, around, and from none that is active.
const TURNS: Piece = (
    "\
login-recording 1
user 1000 1000 alice
go
connect 1 0
add 226 1 drm seat-x
call 1 1 create 1000 1 login tty user % seat-x 0 % % false % %
call 1 2 create 1000 1 login tty user % seat-x 0 % % false % %
call 1 3 create 1000 1 login tty user % seat-x 0 % % false % %
call 1 4 next seat-x
call 1 5 prev seat-x
call 1 6 prev seat-x
call 1 7 next seat-x
call 1 8 activate-on c3 seat-x
call 1 9 terminate c3
call 1 10 prev seat-x
call 1 11 terminate c2
call 1 12 next seat-x
call 1 13 next seat-x
call 1 14 terminate-seat seat-x
call 1 15 prev seat-x
call 1 16 get-seat seat-x
call 1 17 switch seat-x 1
end
",
    "\
login-transcript 1
1 connect 1 0
 granted
 set conn 1 0
2 add 226 1 drm seat-x
 granted
 set dev 226:1 drm seat-x
 set seat seat-x present
 all seat-new seat-x
3 call 1 1 create 1000 1 login tty user % seat-x 0 % % false % %
 granted c1 /org/freedesktop/login1/session/c1 /run/user/1000 1 1000 seat-x 0 false
 set user 1000 known
 all user-new 1000
 set owner 1 fifo 1 c1
 set sess c1 open 1000 seat-x 0 tty user
 all session-new c1
 set act seat-x c1
 all active seat-x - c1
4 call 1 2 create 1000 1 login tty user % seat-x 0 % % false % %
 granted c2 /org/freedesktop/login1/session/c2 /run/user/1000 2 1000 seat-x 0 false
 set owner 2 fifo 1 c2
 set sess c2 open 1000 seat-x 0 tty user
 all session-new c2
 set act seat-x c2
 all active seat-x c1 c2
5 call 1 3 create 1000 1 login tty user % seat-x 0 % % false % %
 granted c3 /org/freedesktop/login1/session/c3 /run/user/1000 3 1000 seat-x 0 false
 set owner 3 fifo 1 c3
 set sess c3 open 1000 seat-x 0 tty user
 all session-new c3
 set act seat-x c3
 all active seat-x c2 c3
6 call 1 4 next seat-x
 granted
 set act seat-x c1
 all active seat-x c3 c1
7 call 1 5 prev seat-x
 granted
 set act seat-x c3
 all active seat-x c1 c3
8 call 1 6 prev seat-x
 granted
 set act seat-x c2
 all active seat-x c3 c2
9 call 1 7 next seat-x
 granted
 set act seat-x c3
 all active seat-x c2 c3
10 call 1 8 activate-on c3 seat-x
 granted
11 call 1 9 terminate c3
 granted
 set sess c3 closing
 set act seat-x -
 all active seat-x c3 -
12 call 1 10 prev seat-x
 granted
 set act seat-x c2
 all active seat-x - c2
13 call 1 11 terminate c2
 granted
 set sess c2 closing
 set act seat-x -
 all active seat-x c2 -
14 call 1 12 next seat-x
 granted
 set act seat-x c1
 all active seat-x - c1
15 call 1 13 next seat-x
 granted
16 call 1 14 terminate-seat seat-x
 granted
 set sess c1 closing
 set act seat-x -
 all active seat-x c1 -
17 call 1 15 prev seat-x
 granted
18 call 1 16 get-seat seat-x
 granted /org/freedesktop/login1/seat/seat_2dx
19 call 1 17 switch seat-x 1
 denied P03 bad-arguments
end 19
",
);

/// All sessions of a seat end with their devices, in order, and the seat and the devices stay.
const ALL_ENDED: Piece = (
    "\
call 1 2 create 1000 2 login tty user % seat-x 0 % % false % %
call 1 3 control c2 false
call 1 4 take c2 226 1
call 1 5 take c2 13 70
call 1 6 terminate-seat seat-x
call 1 7 close 6
call 1 8 list-seats
add 226 1 drm seat-x
end
",
    "\
9 call 1 2 create 1000 2 login tty user % seat-x 0 % % false % %
 granted c2 /org/freedesktop/login1/session/c2 /run/user/1000 4 1000 seat-x 0 false
 set owner 4 fifo 1 c2
 set sess c2 open 1000 seat-x 0 tty user
 all session-new c2
 set live 2 false
 say 2 pause c1 13:70 force
 set live 3 false
 say 2 pause c1 226:1 force
 set act seat-x c2
 all active seat-x c1 c2
10 call 1 3 control c2 false
 granted
 set ctl c2 1
11 call 1 4 take c2 226 1
 granted 5 false
 set owner 5 device 1 c2 226:1
 set taken c2 226:1 5
 set live 5 true
12 call 1 5 take c2 13 70
 granted 6 false
 set owner 6 device 1 c2 13:70
 set taken c2 13:70 6
 set live 6 true
13 call 1 6 terminate-seat seat-x
 granted
 set taken c1 13:70 -
 set taken c1 226:1 -
 set ctl c1 -
 set sess c1 closing
 set live 6 false
 set taken c2 13:70 -
 set live 5 false
 set taken c2 226:1 -
 set ctl c2 -
 set sess c2 closing
 set act seat-x -
 all active seat-x c2 -
14 call 1 7 close 6
 granted
 set owner 6 closed
15 call 1 8 list-seats
 granted [(seat-x /org/freedesktop/login1/seat/seat_2dx) (seat0 /org/freedesktop/login1/seat/seat0)]
16 add 226 1 drm seat-x
 denied P30 device-present
end 16
",
);

/// A session is in front on each seat by itself, and a key for a terminal moves those of seat0 alone.
const APART: Piece = (
    "\
call 1 2 create 1000 2 login tty user % seat0 1 tty1 % false % %
vtkey 2
call 2 4 set-mode 3 9
call 2 5 take c2 226 1
call 2 6 control c2 false
call 2 7 take c2 226 1
end
",
    "\
9 call 1 2 create 1000 2 login tty user % seat0 1 tty1 % false % %
 granted c2 /org/freedesktop/login1/session/c2 /run/user/1000 4 1000 seat0 1 false
 set owner 4 fifo 1 c2
 set sess c2 open 1000 seat0 1 tty user
 all session-new c2
 all active seat0 - c2
10 vtkey 2
 granted
 set pending 2
 set vt 2
 set pending -
 set getty 2 true
 all active seat0 c2 -
11 call 2 4 set-mode 3 9
 granted
 set mode 226:1 9
12 call 2 5 take c2 226 1
 denied P18 not-in-control
13 call 2 6 control c2 false
 granted
 set ctl c2 2
14 call 2 7 take c2 226 1
 denied P16 device-not-on-seat
end 14
",
);

/// Each with what it shows of seats.
pub const CASES: [Case; 4] = [
    Case {
        name: "a seat with a device",
        pieces: &[WHOLE_LIFE],
    },
    Case {
        name: "sessions of a seat take turns",
        pieces: &[TURNS],
    },
    Case {
        name: "sessions of a seat end with their devices",
        pieces: &[OTHER_SEAT, ALL_ENDED],
    },
    Case {
        name: "seats are apart",
        pieces: &[OTHER_SEAT, APART],
    },
];
