// What calls that only ask are answered.

use crate::{Answered, Beginning, Piece};

/// Nobody has a session.
const NOBODY: Beginning = Beginning {
    piece: (
        "\
login-recording 1
go
connect 1 1000
",
        "\
login-transcript 1
1 connect 1 1000
 granted
 set conn 1 1000
",
    ),
    entries: 1,
};

/// What is there then.
const OF_NOBODY: [(&str, &str); 5] = [
    ("call 1 1 list-sessions", "granted []"),
    ("call 1 2 list-users", "granted []"),
    (
        "call 1 3 list-seats",
        "granted [(seat0 /org/freedesktop/login1/seat/seat0)]",
    ),
    (
        "call 1 4 get-seat seat0",
        "granted /org/freedesktop/login1/seat/seat0",
    ),
    ("send 1 5 nothing", "granted"),
];

/// A session on a terminal, one of root without a seat, and a user who lingers without a session.
const SOME: Beginning = Beginning {
    piece: (
        "\
login-recording 1
user 1001 1001 bob%20b
user 1000 1000 alice
go
connect 1 0
call 1 1 create 1000 1 login % % % seat0 1 % % false % %
call 1 2 create 0 1 cron mir background % % 0 % % true % %
call 1 3 linger 1001 true
",
        "\
login-transcript 1
1 connect 1 0
 granted
 set conn 1 0
2 call 1 1 create 1000 1 login % % % seat0 1 % % false % %
 granted c1 /org/freedesktop/login1/session/c1 /run/user/1000 1 1000 seat0 1 false
 set user 1000 known
 all user-new 1000
 set owner 1 fifo 1 c1
 set sess c1 open 1000 seat0 1 unspecified user
 all session-new c1
 all active seat0 - c1
3 call 1 2 create 0 1 cron mir background % % 0 % % true % %
 granted c2 /org/freedesktop/login1/session/c2 /run/user/0 2 0 % 0 false
 set user 0 known
 all user-new 0
 set owner 2 fifo 1 c2
 set sess c2 open 0 - 0 mir background
 all session-new c2
4 call 1 3 linger 1001 true
 granted
 set linger 1001 true
 set user 1001 known
 all user-new 1001
",
    ),
    entries: 4,
};

/// What is there then, in order of its numbers.
const OF_SOME: [(&str, &str); 8] = [
    (
        "call 1 4 list-sessions",
        "granted [(c1 1000 alice seat0 /org/freedesktop/login1/session/c1) (c2 0 root % /org/freedesktop/login1/session/c2)]",
    ),
    (
        "call 1 5 list-users",
        "granted [(0 root /org/freedesktop/login1/user/_0) (1000 alice /org/freedesktop/login1/user/_1000) (1001 bob%20b /org/freedesktop/login1/user/_1001)]",
    ),
    (
        "call 1 6 list-seats",
        "granted [(seat0 /org/freedesktop/login1/seat/seat0)]",
    ),
    (
        "call 1 7 get-session c2",
        "granted /org/freedesktop/login1/session/c2",
    ),
    (
        "call 1 8 get-user 0",
        "granted /org/freedesktop/login1/user/_0",
    ),
    (
        "call 1 9 get-user 1001",
        "granted /org/freedesktop/login1/user/_1001",
    ),
    (
        "call 1 10 get-seat seat0",
        "granted /org/freedesktop/login1/seat/seat0",
    ),
    ("call 1 11 nothing", "granted"),
];

/// Each with who is there.
pub const ANSWERED: [Answered; 2] = [
    Answered {
        name: "nobody is there at first",
        beginning: NOBODY,
        lines: &OF_NOBODY,
    },
    Answered {
        name: "lists are in order",
        beginning: SOME,
        lines: &OF_SOME,
    },
];
