// Lines that are refused by themselves: each is the first at fault, and the transcript ends before it.

use crate::Refused;

/// What is no first line. A recording that ends is at fault at the place of the next line.
const FIRST: [(&[u8], &str); 20] = [
    (b"", "ended"),
    (b"\n", "unknown-word"),
    (b"login-recording\n", "missing-word"),
    (b"login-recording 0\n", "unknown-word"),
    (b"login-recording 2\n", "unknown-word"),
    (b"login-recording 01\n", "unknown-word"),
    (b"login-recording 257\n", "unknown-word"),
    (b"login-recording  1\n", "unknown-word"),
    (b" login-recording 1\n", "unknown-word"),
    (b"login-recording 1 \n", "extra-word"),
    (b"login-recording 1\r\n", "unknown-word"),
    (b"login-recording\t1\n", "unknown-word"),
    (b"login-recording 1", "ended"),
    (b"Login-recording 1\n", "unknown-word"),
    (b"login-recording 1 1\n", "extra-word"),
    (b"user 1000 1000 alice\n", "wrong-place"),
    (b"go\n", "wrong-place"),
    (b"connect 1 0\n", "wrong-place"),
    (b"end\n", "wrong-place"),
    (b"\xff\n", "unknown-word"),
];

/// What may not follow the first line and a line of user 1000: users.
const USERS: [(&[u8], &str); 20] = [
    (b"user 1000 5 bob\n", "wrong-place"),
    (b"user 0 0 root\n", "bad-number"),
    (b"user 1001 1001\n", "missing-word"),
    (b"user 1001 1001 bob x\n", "extra-word"),
    (b"user 01001 1001 bob\n", "bad-number"),
    (b"user +1001 1001 bob\n", "bad-number"),
    (b"user 4294967296 1001 bob\n", "bad-number"),
    (b"user 1001 4294967296 bob\n", "bad-number"),
    (b"user 1001 -1 bob\n", "bad-number"),
    (b"user 1001 1001 \n", "bad-hex"),
    (b"user  1001 1001 bob\n", "bad-number"),
    (b"user 1001 1001 %62ob\n", "bad-hex"),
    (b"user 1001 1001 b%C3%A9\n", "bad-hex"),
    (b"user 1001 1001 b%00\n", "bad-hex"),
    (b"user 1001 1001 b%ff\n", "bad-hex"),
    (b"user 1001 1001 b%f\n", "bad-hex"),
    (b"user 1001 1001 b%%\n", "bad-hex"),
    (b"user 1001 1001 b\xc3\xa9\n", "bad-hex"),
    (b"user 1001 1001 bob", "ended"),
    (b"user\n", "missing-word"),
];

/// What may not follow them: other lines.
const PREAMBLE: [(&[u8], &str); 15] = [
    (b"", "ended"),
    (b"\n", "unknown-word"),
    (b"go", "ended"),
    (b"go \n", "extra-word"),
    (b"go 1\n", "extra-word"),
    (b"guid\n", "missing-word"),
    (b"guid \n", "bad-hex"),
    (b"guid 0123456789abcdef\n", "bad-hex"),
    (b"guid 0123456789ABCDEF0123456789ABCDEF\n", "bad-hex"),
    (b"guid 0123456789abcdef0123456789abcdeg\n", "bad-hex"),
    (b"guid 0123456789abcdef0123456789abcdef0\n", "bad-hex"),
    (b"guid 0123456789abcdef0123456789abcdef x\n", "extra-word"),
    (b"confx\n", "unknown-word"),
    (b"action chvt yes yes\n", "missing-word"),
    (b"action chvt yes yes yes yes\n", "extra-word"),
];

/// What may not follow `go` and the connect of connection 1: events.
const EVENTS: [(&[u8], &str); 28] = [
    (b"", "ended"),
    (b"\n", "unknown-word"),
    (b"frob\n", "unknown-word"),
    (b"connect 0 0\n", "bad-number"),
    (b"connect 02 0\n", "bad-number"),
    (b"connect 2 00\n", "bad-number"),
    (b"connect 2\n", "missing-word"),
    (b"connect 2 \n", "bad-number"),
    (b"connect 2 0 0\n", "extra-word"),
    (b"connect  2 0\n", "bad-number"),
    (b" connect 2 0\n", "unknown-word"),
    (b"connect 2 0 \n", "extra-word"),
    (b"connect 2 0", "ended"),
    (b"connect 2 0\r\n", "bad-number"),
    (b"connect\t2 0\n", "unknown-word"),
    (b"connect 2 -0\n", "bad-number"),
    (b"disconnect\n", "missing-word"),
    (b"disconnect 0\n", "bad-number"),
    (b"disconnect 1 1\n", "extra-word"),
    (b"vtkey\n", "missing-word"),
    (b"vtkey seat0\n", "bad-number"),
    (b"exit\n", "missing-word"),
    (b"exit \n", "bad-hex"),
    (b"exit c%31\n", "bad-hex"),
    (b"exit c1 c1\n", "extra-word"),
    (b"tick -1\n", "bad-number"),
    (b"stop 1\n", "extra-word"),
    (b"end 1\n", "extra-word"),
];

/// What may not follow them: calls.
const CALLS: [(&[u8], &str); 26] = [
    (b"call 1 0 uncontrol c1\n", "bad-number"),
    (b"call 0 1 uncontrol c1\n", "bad-number"),
    (b"call 1 1\n", "missing-word"),
    (b"call 1 uncontrol c1\n", "bad-number"),
    (b"call 1 1 frob\n", "unknown-word"),
    (b"call 1 1 \n", "unknown-word"),
    (b"send 1 1 frob\n", "unknown-word"),
    (b"send 0 1 nothing\n", "bad-number"),
    (b"call 1 1 uncontrol\n", "missing-word"),
    (b"call 1 1 uncontrol c1 c1\n", "extra-word"),
    (b"call 1 1 uncontrol \n", "bad-hex"),
    (b"call 1 1 uncontrol c%31\n", "bad-hex"),
    (b"call 1 1 control c1 no\n", "unknown-word"),
    (b"call 1 1 control c1\n", "missing-word"),
    (b"call 1 1 control c1 false \n", "extra-word"),
    (b"call 1 1 control c1 false x\n", "extra-word"),
    (b"call 1 1 list-sessions c1\n", "extra-word"),
    (b"call 1 1 nothing 1\n", "extra-word"),
    (b"call 1 1 get-user alice\n", "bad-number"),
    (b"call 1 1 linger 1000\n", "missing-word"),
    (b"call 1 1 linger 1000 yes\n", "unknown-word"),
    (b"call 1 1 kill c1 all TERM\n", "bad-number"),
    (b"call 1 1 switch seat0\n", "missing-word"),
    (b"call 1 1 switch seat0 tty2\n", "bad-number"),
    (b"call 1 1 activate-on c1\n", "missing-word"),
    (b"call 1 1 close c1\n", "bad-number"),
];

/// What may not follow them: calls that create sessions.
const CREATIONS: [(&[u8], &str); 8] = [
    (
        b"call 1 1 create 1000 1 login tty user % seat0 01 tty1 % false % %\n",
        "bad-number",
    ),
    (
        b"call 1 1 create 1000 1 login tty user % seat0 1 tty1 % % % %\n",
        "unknown-word",
    ),
    (
        b"call 1 1 create 1000 1 login tty user % seat0 1 tty1 % false %\n",
        "missing-word",
    ),
    (
        b"call 1 1 create 1000 1 login tty user % seat0 1 tty1 % false % % %\n",
        "extra-word",
    ),
    (
        b"call 1 1 create 4294967296 1 login tty user % seat0 1 tty1 % false % %\n",
        "bad-number",
    ),
    (
        b"call 1 1 create 1000 4294967296 login tty user % seat0 1 tty1 % false % %\n",
        "bad-number",
    ),
    (
        b"call 1 1 create 1000 1 login  user % seat0 1 tty1 % false % %\n",
        "bad-hex",
    ),
    (
        b"call 1 1 create alice 1 login tty user % seat0 1 tty1 % false % %\n",
        "bad-number",
    ),
];

/// What may not follow them: words of devices, of keys, of operations, of properties and of the bus, with a fault.
const FAULTS_FIRST: [(&[u8], &str); 27] = [
    (b"add 226 1 drm desk\n", "bad-name"),
    (b"add 226 1 tty seat0\n", "unknown-word"),
    (b"remove 226\n", "missing-word"),
    (b"key f1\n", "unknown-word"),
    (b"key\n", "missing-word"),
    (b"key lid true\n", "extra-word"),
    (b"dock 1\n", "unknown-word"),
    (b"dock\n", "missing-word"),
    (b"jobdone 1\n", "extra-word"),
    (b"link 0 1000\n", "bad-number"),
    (b"in 1\n", "missing-word"),
    (b"in 1 0A\n", "bad-hex"),
    (b"call 1 1 power off\n", "unknown-word"),
    (b"call 1 1 power poweroff true\n", "extra-word"),
    (b"call 1 1 can\n", "missing-word"),
    (b"call 1 1 inhibit sleep who why\n", "missing-word"),
    (b"call 1 1 inhibit sleep who why block 1\n", "extra-word"),
    (b"call 1 1 list-inhibitors 1\n", "extra-word"),
    (b"call 1 1 hello 1\n", "extra-word"),
    (b"call 9 1 hello\n", "wrong-place"),
    (b"call 1 1 ping 1\n", "extra-word"),
    (b"call 1 1 get x %\n", "missing-word"),
    (b"call 1 1 get x % %41\n", "bad-hex"),
    (b"call 1 1 get-all x\n", "missing-word"),
    (b"call 1 1 set x % a true\n", "extra-word"),
    (b"call 1 1 owner\n", "missing-word"),
    (b"call 1 1 take c1 226\n", "missing-word"),
];

/// The lines of a link that is not open.
const LINES_OF_NO_LINK: [(&[u8], &str); 2] = [
    (b"in 2 00\n", "wrong-place"),
    (b"hangup 2\n", "wrong-place"),
];

/// The edges of each type of number.
const NUMBERS: [(&[u8], &str); 30] = [
    (b"connect 4294967296 0\n", "bad-number"),
    (b"connect 2 4294967296\n", "bad-number"),
    (b"disconnect 4294967296\n", "bad-number"),
    (b"call 4294967296 1 uncontrol c1\n", "bad-number"),
    (b"call 1 4294967296 uncontrol c1\n", "bad-number"),
    (b"call 1 4294967295 uncontrol\n", "missing-word"),
    (b"vtkey 4294967296\n", "bad-number"),
    (b"vtkey 00\n", "bad-number"),
    (b"vtkey 99999999999999999999999999\n", "bad-number"),
    (b"tick 18446744073709551616\n", "bad-number"),
    (b"tick 05\n", "bad-number"),
    (b"tick\n", "missing-word"),
    (b"tick \n", "bad-number"),
    (
        b"input 4294967295 4294967295 65535 65535 2147483647 0\n",
        "extra-word",
    ),
    (b"input 4294967296 0 0 0 0\n", "bad-number"),
    (b"input 0 4294967296 0 0 0\n", "bad-number"),
    (b"input 0 0 65536 0 0\n", "bad-number"),
    (b"input 0 0 0 65536 0\n", "bad-number"),
    (b"input 0 0 0 0 2147483648\n", "bad-number"),
    (b"input 0 0 0 0 -2147483648 0\n", "extra-word"),
    (b"input 0 0 0 0 -2147483649\n", "bad-number"),
    (b"input 0 0 0 0 -0\n", "bad-number"),
    (b"input 0 0 0 0 -01\n", "bad-number"),
    (b"input 0 0 0 0 +1\n", "bad-number"),
    (b"input 0 0 0 0 -\n", "bad-number"),
    (b"call 1 1 kill c1 all 2147483648\n", "bad-number"),
    (b"call 1 1 kill-user 4294967296 1\n", "bad-number"),
    (b"call 1 1 take c1 4294967295 4294967295 0\n", "extra-word"),
    (b"call 1 1 take c1 4294967296 0\n", "bad-number"),
    (b"call 1 1 close 4294967296\n", "bad-number"),
];

/// The worked cases of causes, behind the first line and `go`.
const WORKED: [(&[u8], &str); 7] = [
    (b"", "ended"),
    (b"connect 1 01\nend\n", "bad-number"),
    (b"tick\nend\n", "missing-word"),
    (b"frob\nend\n", "unknown-word"),
    (b"stop 1\nend\n", "extra-word"),
    (b"add 1 1 drm desk\nend\n", "bad-name"),
    (b"call 9 1 hello\nend\n", "wrong-place"),
];

/// The first line, and a user.
const SETUP: &[u8] = b"login-recording 1\nuser 1000 1000 alice\n";

/// A setup, and a connection.
const CONNECTED: &[u8] = b"login-recording 1\nuser 1000 1000 alice\ngo\nconnect 1 0\n";

/// Its transcript.
const CONNECTED_TRANSCRIPT: &[u8] = b"login-transcript 1\n1 connect 1 0\n granted\n set conn 1 0\n";

/// Each with the lines that are refused.
pub const REFUSED: [Refused; 10] = [
    Refused {
        name: "no first line",
        front: b"",
        lines: &FIRST,
        number: 1,
        transcript: b"",
    },
    Refused {
        name: "lines of users",
        front: SETUP,
        lines: &USERS,
        number: 3,
        transcript: b"",
    },
    Refused {
        name: "other lines of a preamble",
        front: SETUP,
        lines: &PREAMBLE,
        number: 3,
        transcript: b"",
    },
    Refused {
        name: "events",
        front: CONNECTED,
        lines: &EVENTS,
        number: 5,
        transcript: CONNECTED_TRANSCRIPT,
    },
    Refused {
        name: "calls",
        front: CONNECTED,
        lines: &CALLS,
        number: 5,
        transcript: CONNECTED_TRANSCRIPT,
    },
    Refused {
        name: "calls that create sessions",
        front: CONNECTED,
        lines: &CREATIONS,
        number: 5,
        transcript: CONNECTED_TRANSCRIPT,
    },
    Refused {
        name: "lines of no link with a fault",
        front: CONNECTED,
        lines: &FAULTS_FIRST,
        number: 5,
        transcript: CONNECTED_TRANSCRIPT,
    },
    Refused {
        name: "lines of no link",
        front: CONNECTED,
        lines: &LINES_OF_NO_LINK,
        number: 5,
        transcript: CONNECTED_TRANSCRIPT,
    },
    Refused {
        name: "numbers",
        front: CONNECTED,
        lines: &NUMBERS,
        number: 5,
        transcript: CONNECTED_TRANSCRIPT,
    },
    Refused {
        name: "worked cases of causes",
        front: b"login-recording 1\ngo\n",
        lines: &WORKED,
        number: 3,
        transcript: b"login-transcript 1\n",
    },
];
