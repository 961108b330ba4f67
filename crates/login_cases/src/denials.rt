// What each rule denies, with its printed detail, and which of several comes first.

use crate::{Answered, Beginning, Piece};

/// A session on a terminal that connection 2 controls, a session without a seat, and a clock that was set.
const SESSIONS: Beginning = Beginning {
    piece: (
        "\
login-recording 1
user 1000 1000 alice
user 1001 1001 bob
go
connect 1 0
connect 2 1000
connect 3 1001
call 1 1 create 1000 2 login tty user % seat0 2 tty2 % false % %
call 1 2 create 1001 3 login web user % % 0 % % false % %
call 2 1 control c1 false
tick 5
",
        "\
login-transcript 1
1 connect 1 0
 granted
 set conn 1 0
2 connect 2 1000
 granted
 set conn 2 1000
3 connect 3 1001
 granted
 set conn 3 1001
4 call 1 1 create 1000 2 login tty user % seat0 2 tty2 % false % %
 granted c1 /org/freedesktop/login1/session/c1 /run/user/1000 1 1000 seat0 2 false
 set user 1000 known
 all user-new 1000
 set owner 1 fifo 1 c1
 set sess c1 open 1000 seat0 2 tty user
 all session-new c1
5 call 1 2 create 1001 3 login web user % % 0 % % false % %
 granted c2 /org/freedesktop/login1/session/c2 /run/user/1001 2 1001 % 0 false
 set user 1001 known
 all user-new 1001
 set owner 2 fifo 1 c2
 set sess c2 open 1001 - 0 web user
 all session-new c2
6 call 2 1 control c1 false
 granted
 set ctl c1 2
7 tick 5
 granted
 set now 5
",
    ),
    entries: 7,
};

/// Each rule that can be broken, but P13 and P26, which have tests of their own.
const EACH: [(&str, &str); 21] = [
    ("call 2 9 no-object", "denied P01 unknown-object"),
    ("call 2 9 no-method", "denied P02 unknown-method"),
    ("call 2 9 bad-args", "denied P03 bad-arguments"),
    ("vtkey 0", "denied P03 bad-arguments"),
    ("call 2 9 get-session c3", "denied P04 no-such-session"),
    ("exit c3", "denied P04 no-such-session"),
    ("call 2 9 get-user 0", "denied P05 no-such-user"),
    ("call 1 9 linger 1002 true", "denied P05 no-such-user"),
    ("call 2 9 get-seat seat1", "denied P06 no-such-seat"),
    ("call 2 9 close 3", "denied P07 no-such-handle"),
    ("call 2 9 control c1 true", "denied P09 not-root"),
    ("call 3 9 locked c1 true", "denied P10 not-owner"),
    ("call 3 9 activate c1", "denied P12 action-challenge chvt"),
    ("call 1 9 activate c2", "denied P14 no-seat"),
    (
        "call 1 9 activate-on c2 seat0",
        "denied P15 session-not-on-seat",
    ),
    ("call 1 9 control c1 false", "denied P17 controlled 2"),
    ("call 3 9 uncontrol c1", "denied P18 not-in-control"),
    (
        "call 1 9 create 1001 3 login tty user % seat0 2 tty2 % false % %",
        "denied P21 vt-busy c1",
    ),
    ("call 2 9 close 1", "denied P28 not-yours"),
    ("tick 4", "denied P33 clock-backwards 5"),
    (
        "call 1 9 create 1001 4 login tty user % seat0 3 tty3 % false % %",
        "denied P35 nobody",
    ),
];

/// Which action each call of another's session, user or seat asks for.
const ACTIONS: [(&str, &str); 17] = [
    ("call 3 9 activate c1", "denied P12 action-challenge chvt"),
    (
        "call 3 9 activate-on c1 seat0",
        "denied P12 action-challenge chvt",
    ),
    (
        "call 2 9 switch seat0 3",
        "denied P12 action-challenge chvt",
    ),
    ("call 2 9 next seat0", "denied P12 action-challenge chvt"),
    ("call 3 9 prev seat0", "denied P12 action-challenge chvt"),
    (
        "call 3 9 lock c1",
        "denied P12 action-challenge lock-sessions",
    ),
    (
        "call 3 9 unlock c1",
        "denied P12 action-challenge lock-sessions",
    ),
    (
        "call 2 9 lock-all",
        "denied P12 action-challenge lock-sessions",
    ),
    (
        "call 2 9 unlock-all",
        "denied P12 action-challenge lock-sessions",
    ),
    (
        "call 3 9 kill c1 all 15",
        "denied P12 action-challenge manage",
    ),
    (
        "call 3 9 kill-user 1000 15",
        "denied P12 action-challenge manage",
    ),
    (
        "call 3 9 terminate c1",
        "denied P12 action-challenge manage",
    ),
    (
        "call 3 9 terminate-user 1000",
        "denied P12 action-challenge manage",
    ),
    (
        "call 2 9 terminate-seat seat0",
        "denied P12 action-challenge manage",
    ),
    (
        "call 2 9 linger 1001 true",
        "denied P12 action-challenge set-user-linger",
    ),
    (
        "send 3 9 linger 1000 false",
        "denied P12 action-challenge set-user-linger",
    ),
    (
        "call 3 9 linger 0 true",
        "denied P12 action-challenge set-user-linger",
    ),
];

/// The values that a creation can't have, whoever asks.
const CREATIONS: [(&str, &str); 12] = [
    (
        "call 2 9 create 9 9 login desk user % seat0 2 tty2 % false % %",
        "denied P03 bad-arguments",
    ),
    (
        "call 2 9 create 9 9 login Tty user % seat0 2 tty2 % false % %",
        "denied P03 bad-arguments",
    ),
    (
        "call 2 9 create 9 9 login tty manager % seat0 2 tty2 % false % %",
        "denied P03 bad-arguments",
    ),
    (
        "call 2 9 create 9 9 login tty user % desk 0 tty2 % false % %",
        "denied P03 bad-arguments",
    ),
    (
        "call 2 9 create 9 9 login tty user % seat0 0 tty2 % false % %",
        "denied P03 bad-arguments",
    ),
    (
        "call 2 9 create 9 9 login tty user % seat0 64 tty2 % false % %",
        "denied P03 bad-arguments",
    ),
    (
        "call 2 9 create 9 9 login tty user % seat1 2 tty2 % false % %",
        "denied P03 bad-arguments",
    ),
    (
        "call 2 9 create 9 9 login tty user % % 2 tty2 % false % %",
        "denied P03 bad-arguments",
    ),
    (
        "call 2 9 create 9 9 login tty user % seat1 0 tty2 % false % %",
        "denied P09 not-root",
    ),
    (
        "call 1 9 create 9 9 login tty user % seat1 0 tty2 % false % %",
        "denied P05 no-such-user",
    ),
    (
        "call 1 9 create 1001 9 login tty user % seat1 0 tty2 % false % %",
        "denied P06 no-such-seat",
    ),
    (
        "call 1 9 create 1001 9 login tty user % seat0 2 tty2 % false % %",
        "denied P35 nobody",
    ),
];

/// Which of several broken rules is named.
const ORDER: [(&str, &str); 18] = [
    ("call 3 9 kill c3 desk 0", "denied P04 no-such-session"),
    ("call 3 9 kill c1 desk 15", "denied P03 bad-arguments"),
    ("call 3 9 kill c1 all 0", "denied P03 bad-arguments"),
    ("call 3 9 kill c1 leader 65", "denied P03 bad-arguments"),
    ("call 3 9 kill-user 4294967295 0", "denied P05 no-such-user"),
    ("call 3 9 kill-user 1000 -1", "denied P03 bad-arguments"),
    ("call 2 9 switch seat1 0", "denied P06 no-such-seat"),
    ("call 2 9 switch seat0 0", "denied P03 bad-arguments"),
    ("call 2 9 switch seat0 64", "denied P03 bad-arguments"),
    ("call 2 9 switch % 3", "denied P06 no-such-seat"),
    ("call 2 9 next seat1", "denied P06 no-such-seat"),
    (
        "call 3 9 activate-on c3 seat1",
        "denied P04 no-such-session",
    ),
    ("call 3 9 activate-on c1 seat1", "denied P06 no-such-seat"),
    (
        "call 2 9 activate-on c2 seat0",
        "denied P15 session-not-on-seat",
    ),
    ("call 3 9 control c1 true", "denied P10 not-owner"),
    ("call 3 9 control c01 true", "denied P04 no-such-session"),
    ("call 2 9 terminate-seat %", "denied P06 no-such-seat"),
    ("vtkey 4294967295", "denied P03 bad-arguments"),
];

/// A session that is closing, since its fifo was closed.
const CLOSING: Beginning = Beginning {
    piece: (
        "\
login-recording 1
user 1000 1000 alice
go
connect 1 0
connect 2 1000
call 1 1 create 1000 2 login tty user % seat0 2 tty2 % false % %
call 1 2 close 1
",
        "\
login-transcript 1
1 connect 1 0
 granted
 set conn 1 0
2 connect 2 1000
 granted
 set conn 2 1000
3 call 1 1 create 1000 2 login tty user % seat0 2 tty2 % false % %
 granted c1 /org/freedesktop/login1/session/c1 /run/user/1000 1 1000 seat0 2 false
 set user 1000 known
 all user-new 1000
 set owner 1 fifo 1 c1
 set sess c1 open 1000 seat0 2 tty user
 all session-new c1
4 call 1 2 close 1
 granted
 set owner 1 closed
 set sess c1 closing
",
    ),
    entries: 4,
};

/// What it denies, and what it still is.
const BEHIND_CLOSING: [(&str, &str); 11] = [
    ("call 1 9 activate c1", "denied P13 session-closing"),
    (
        "call 1 9 activate-on c1 seat0",
        "denied P13 session-closing",
    ),
    ("call 1 9 lock c1", "denied P13 session-closing"),
    ("call 1 9 unlock c1", "denied P13 session-closing"),
    ("call 1 9 idle c1 true", "denied P13 session-closing"),
    ("call 1 9 locked c1 true", "denied P13 session-closing"),
    ("call 2 9 control c1 false", "denied P13 session-closing"),
    ("call 1 9 close 1", "denied P07 no-such-handle"),
    ("call 1 9 uncontrol c1", "denied P18 not-in-control"),
    ("call 1 9 terminate c1", "granted"),
    (
        "call 1 9 get-session c1",
        "granted /org/freedesktop/login1/session/c1",
    ),
];

/// Each with what it shows of what is denied.
pub const ANSWERED: [Answered; 5] = [
    Answered {
        name: "each rule has its text",
        beginning: SESSIONS,
        lines: &EACH,
    },
    Answered {
        name: "each call asks for its action",
        beginning: SESSIONS,
        lines: &ACTIONS,
    },
    Answered {
        name: "creations have values of fixed sets",
        beginning: SESSIONS,
        lines: &CREATIONS,
    },
    Answered {
        name: "the first broken rule is named",
        beginning: SESSIONS,
        lines: &ORDER,
    },
    Answered {
        name: "a closing session denies",
        beginning: CLOSING,
        lines: &BEHIND_CLOSING,
    },
];
