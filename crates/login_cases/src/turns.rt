// Two connections that take turns controlling a session.

/// The lines of the recording.
pub const LINES: [&[u8]; 12] = [
    b"login-recording 1\n",
    b"user 1000 1000 alice\n",
    b"go\n",
    b"connect 1 1000\n",
    b"connect 2 1000\n",
    b"connect 3 0\n",
    b"call 3 1 create 1000 1 login tty user % seat0 1 tty1 % false % %\n",
    b"call 1 1 control c1 false\n",
    b"call 2 1 control c1 false\n",
    b"call 1 2 uncontrol c1\n",
    b"call 2 2 control c1 false\n",
    b"end\n",
];

/// The transcript: its first line, a block for each event, and its last line.
pub const BLOCKS: [&[u8]; 10] = [
    b"login-transcript 1\n",
    b"1 connect 1 1000\n granted\n set conn 1 1000\n",
    b"2 connect 2 1000\n granted\n set conn 2 1000\n",
    b"3 connect 3 0\n granted\n set conn 3 0\n",
    b"4 call 3 1 create 1000 1 login tty user % seat0 1 tty1 % false % %\n \
granted c1 /org/freedesktop/login1/session/c1 /run/user/1000 1 1000 seat0 1 false\n \
set user 1000 known\n \
all user-new 1000\n \
set owner 1 fifo 3 c1\n \
set sess c1 open 1000 seat0 1 tty user\n \
all session-new c1\n \
all active seat0 - c1\n",
    b"5 call 1 1 control c1 false\n granted\n set ctl c1 1\n",
    b"6 call 2 1 control c1 false\n denied P17 controlled 1\n",
    b"7 call 1 2 uncontrol c1\n granted\n set ctl c1 -\n",
    b"8 call 2 2 control c1 false\n granted\n set ctl c1 2\n",
    b"end 8\n",
];
