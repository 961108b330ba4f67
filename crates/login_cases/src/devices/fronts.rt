// Fronts of recordings with devices.

use crate::Piece;

/// Two sessions of seat0, each with its controller, and a device of each kind. The handles 1 and 2 are the
/// fifos.
pub const SESSIONS: Piece = (
    "\
login-recording 1
user 1000 1000 alice
user 1001 1001 bob
go
connect 1 0
connect 2 1000
connect 3 1001
add 226 0 drm seat0
add 13 64 evdev seat0
call 1 1 create 1000 2 login wayland user % seat0 1 tty1 % false % %
call 1 2 create 1001 3 login wayland user % seat0 2 tty2 % false % %
call 2 1 control c1 false
call 3 1 control c2 false
",
    "\
login-transcript 1
1 connect 1 0
 granted
 set conn 1 0
2 connect 2 1000
 granted
 set conn 2 1000
3 connect 3 1001
 granted
 set conn 3 1001
4 add 226 0 drm seat0
 granted
 set dev 226:0 drm seat0
5 add 13 64 evdev seat0
 granted
 set dev 13:64 evdev seat0
6 call 1 1 create 1000 2 login wayland user % seat0 1 tty1 % false % %
 granted c1 /org/freedesktop/login1/session/c1 /run/user/1000 1 1000 seat0 1 false
 set user 1000 known
 all user-new 1000
 set owner 1 fifo 1 c1
 set sess c1 open 1000 seat0 1 wayland user
 all session-new c1
 all active seat0 - c1
7 call 1 2 create 1001 3 login wayland user % seat0 2 tty2 % false % %
 granted c2 /org/freedesktop/login1/session/c2 /run/user/1001 2 1001 seat0 2 false
 set user 1001 known
 all user-new 1001
 set owner 2 fifo 1 c2
 set sess c2 open 1001 seat0 2 wayland user
 all session-new c2
8 call 2 1 control c1 false
 granted
 set ctl c1 2
9 call 3 1 control c2 false
 granted
 set ctl c2 3
",
);

/// Behind them: both sessions take both devices. The first one is active, so its handles are live.
pub const TAKES: Piece = (
    "\
call 2 2 take c1 226 0
call 2 3 take c1 13 64
call 3 2 take c2 226 0
call 3 3 take c2 13 64
",
    "\
10 call 2 2 take c1 226 0
 granted 3 false
 set owner 3 device 2 c1 226:0
 set taken c1 226:0 3
 set live 3 true
11 call 2 3 take c1 13 64
 granted 4 false
 set owner 4 device 2 c1 13:64
 set taken c1 13:64 4
 set live 4 true
12 call 3 2 take c2 226 0
 granted 5 true
 set owner 5 device 3 c2 226:0
 set taken c2 226:0 5
13 call 3 3 take c2 13 64
 granted 6 true
 set owner 6 device 3 c2 13:64
 set taken c2 13:64 6
",
);

/// Behind them: the other terminal is asked for, and the pauses of the live devices are awaited.
pub const ASKS: Piece = (
    "\
vtkey 2
",
    "\
14 vtkey 2
 granted
 set pending 2
 set awaited c1 13:64 true
 say 2 pause c1 13:64 pause
 set awaited c1 226:0 true
 say 2 pause c1 226:0 pause
",
);

/// A seat with a device of each kind, and a session on it that has taken both, beside its fifo with the
/// handles 2 and 3.
pub const OTHER_SEAT: Piece = (
    "\
login-recording 1
user 1000 1000 alice
go
connect 1 0
connect 2 1000
add 226 1 drm seat-x
add 13 70 evdev seat-x
call 1 1 create 1000 2 login wayland user % seat-x 0 % % false % %
call 2 1 control c1 false
call 2 2 take c1 13 70
call 2 3 take c1 226 1
",
    "\
login-transcript 1
1 connect 1 0
 granted
 set conn 1 0
2 connect 2 1000
 granted
 set conn 2 1000
3 add 226 1 drm seat-x
 granted
 set dev 226:1 drm seat-x
 set seat seat-x present
 all seat-new seat-x
4 add 13 70 evdev seat-x
 granted
 set dev 13:70 evdev seat-x
5 call 1 1 create 1000 2 login wayland user % seat-x 0 % % false % %
 granted c1 /org/freedesktop/login1/session/c1 /run/user/1000 1 1000 seat-x 0 false
 set user 1000 known
 all user-new 1000
 set owner 1 fifo 1 c1
 set sess c1 open 1000 seat-x 0 wayland user
 all session-new c1
 set act seat-x c1
 all active seat-x - c1
6 call 2 1 control c1 false
 granted
 set ctl c1 2
7 call 2 2 take c1 13 70
 granted 2 false
 set owner 2 device 2 c1 13:70
 set taken c1 13:70 2
 set live 2 true
8 call 2 3 take c1 226 1
 granted 3 false
 set owner 3 device 2 c1 226:1
 set taken c1 226:1 3
 set live 3 true
",
);
