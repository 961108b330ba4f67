// Fronts of recordings with a session.

use crate::{Beginning, Piece};

/// The setup with Alice, who is a user of the machine.
pub const ALONE: Piece = (
    "\
login-recording 1
user 1000 1000 alice
go
",
    "login-transcript 1\n",
);

/// Alice has the session that is active on seat0, of which handle 1 is the fifo.
pub const ALICE: Piece = (
    "\
connect 1 0
connect 2 1000
call 1 1 create 1000 2 login tty user % seat0 1 tty1 % false % %
",
    "\
1 connect 1 0
 granted
 set conn 1 0
2 connect 2 1000
 granted
 set conn 2 1000
3 call 1 1 create 1000 2 login tty user % seat0 1 tty1 % false % %
 granted c1 /org/freedesktop/login1/session/c1 /run/user/1000 1 1000 seat0 1 false
 set user 1000 known
 all user-new 1000
 set owner 1 fifo 1 c1
 set sess c1 open 1000 seat0 1 tty user
 all session-new c1
 all active seat0 - c1
",
);

/// The setup with Alice and Bob; Alice has that session, and Bob a connection and no session.
pub const ALICE_AND_BOB: Piece = (
    "\
login-recording 1
user 1000 1000 alice
user 1001 1001 bob
go
connect 1 0
connect 2 1000
connect 3 1001
call 1 1 create 1000 2 login tty user % seat0 1 tty1 % false % %
",
    "\
login-transcript 1
1 connect 1 0
 granted
 set conn 1 0
2 connect 2 1000
 granted
 set conn 2 1000
3 connect 3 1001
 granted
 set conn 3 1001
4 call 1 1 create 1000 2 login tty user % seat0 1 tty1 % false % %
 granted c1 /org/freedesktop/login1/session/c1 /run/user/1000 1 1000 seat0 1 false
 set user 1000 known
 all user-new 1000
 set owner 1 fifo 1 c1
 set sess c1 open 1000 seat0 1 tty user
 all session-new c1
 all active seat0 - c1
",
);

/// The front of `ALICE_AND_BOB`, for lines behind it that make no marks.
pub const WITH_BOB: Beginning = Beginning {
    piece: ALICE_AND_BOB,
    entries: 4,
};
