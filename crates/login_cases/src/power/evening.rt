// An evening: a greeter, a session that takes devices and delays sleep, the lid, and the end of the session.

use crate::{Case, Piece};

/// The recording.
pub const EVENING: Case = Case {
    name: "an evening",
    pieces: &[(
        "\
login-recording 1
user 120 120 gdm
user 1000 1000 alice
go
connect 1 0
connect 2 120
connect 3 1000
add 226 0 drm seat0
add 13 64 evdev seat0
add 13 65 evdev seat0
add 13 66 evdev seat0
add 13 67 evdev seat0
call 1 1 create 120 2 gdm-launch wayland greeter % seat0 1 tty1 % false % %
call 1 2 create 1000 3 gdm-password wayland user % seat0 2 tty2 % false % %
call 3 1 control c2 false
call 3 2 take c2 226 0
call 3 3 take c2 13 64
call 3 4 take c2 13 65
call 3 5 take c2 13 66
call 3 6 take c2 13 67
call 3 7 inhibit sleep shell lock delay
call 1 3 activate c2
key lid
call 3 8 close 8
jobdone
call 1 4 close 2
exit c2
call 2 1 activate c1
tick 10000
end
",
        "\
login-transcript 1
1 connect 1 0
 granted
 set conn 1 0
2 connect 2 120
 granted
 set conn 2 120
3 connect 3 1000
 granted
 set conn 3 1000
4 add 226 0 drm seat0
 granted
 set dev 226:0 drm seat0
5 add 13 64 evdev seat0
 granted
 set dev 13:64 evdev seat0
6 add 13 65 evdev seat0
 granted
 set dev 13:65 evdev seat0
7 add 13 66 evdev seat0
 granted
 set dev 13:66 evdev seat0
8 add 13 67 evdev seat0
 granted
 set dev 13:67 evdev seat0
9 call 1 1 create 120 2 gdm-launch wayland greeter % seat0 1 tty1 % false % %
 granted c1 /org/freedesktop/login1/session/c1 /run/user/120 1 120 seat0 1 false
 set user 120 known
 all user-new 120
 set owner 1 fifo 1 c1
 set sess c1 open 120 seat0 1 wayland greeter
 all session-new c1
 all active seat0 - c1
10 call 1 2 create 1000 3 gdm-password wayland user % seat0 2 tty2 % false % %
 granted c2 /org/freedesktop/login1/session/c2 /run/user/1000 2 1000 seat0 2 false
 set user 1000 known
 all user-new 1000
 set owner 2 fifo 1 c2
 set sess c2 open 1000 seat0 2 wayland user
 all session-new c2
11 call 3 1 control c2 false
 granted
 set ctl c2 3
12 call 3 2 take c2 226 0
 granted 3 true
 set owner 3 device 3 c2 226:0
 set taken c2 226:0 3
13 call 3 3 take c2 13 64
 granted 4 true
 set owner 4 device 3 c2 13:64
 set taken c2 13:64 4
14 call 3 4 take c2 13 65
 granted 5 true
 set owner 5 device 3 c2 13:65
 set taken c2 13:65 5
15 call 3 5 take c2 13 66
 granted 6 true
 set owner 6 device 3 c2 13:66
 set taken c2 13:66 6
16 call 3 6 take c2 13 67
 granted 7 true
 set owner 7 device 3 c2 13:67
 set taken c2 13:67 7
17 call 3 7 inhibit sleep shell lock delay
 granted 8
 set lock 1 sleep delay 1000
 set owner 8 lock 3 1
18 call 1 3 activate c2
 granted
 set pending 2
 set vt 2
 set pending -
 all active seat0 c1 c2
 set owner 9 device 3 c2 13:64
 set live 9 true
 set taken c2 13:64 9
 say 3 resume c2 13:64 9
 set owner 10 device 3 c2 13:65
 set live 10 true
 set taken c2 13:65 10
 say 3 resume c2 13:65 10
 set owner 11 device 3 c2 13:66
 set live 11 true
 set taken c2 13:66 11
 say 3 resume c2 13:66 11
 set owner 12 device 3 c2 13:67
 set live 12 true
 set taken c2 13:67 12
 say 3 resume c2 13:67 12
 set live 3 true
 say 3 resume c2 226:0 3
19 key lid
 granted
 set op waiting suspend 0 noskip
 all prepare sleep true
20 call 3 8 close 8
 granted
 set lock 1 -
 set owner 8 closed
 set op running suspend
21 jobdone
 granted
 set op idle
 all prepare sleep false
22 call 1 4 close 2
 granted
 set owner 2 closed
 set live 9 false
 set taken c2 13:64 -
 set live 10 false
 set taken c2 13:65 -
 set live 11 false
 set taken c2 13:66 -
 set live 12 false
 set taken c2 13:67 -
 set live 3 false
 set taken c2 226:0 -
 set ctl c2 -
 set sess c2 closing
 all active seat0 c2 -
23 exit c2
 granted
 set sess c2 gone
 all session-removed c2
 set user 1000 leaving 0
24 call 2 1 activate c1
 granted
 set pending 1
 set vt 1
 set pending -
 all active seat0 - c1
25 tick 10000
 granted
 set now 10000
 set user 1000 absent
 all user-removed 1000
end 25
",
    )],
};
