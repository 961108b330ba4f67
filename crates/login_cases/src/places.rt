// Lines that may not stand where they stand.

use crate::{Case, Piece, Refused};

/// What may not stand before `go`.
const BEFORE_GO: [(&[u8], &str); 17] = [
    (b"login-recording 1\n", "wrong-place"),
    (b"connect 1 0\n", "wrong-place"),
    (b"disconnect 1\n", "wrong-place"),
    (b"call 1 1 nothing\n", "wrong-place"),
    (b"send 1 1 nothing\n", "wrong-place"),
    (b"add 226 0 drm seat0\n", "wrong-place"),
    (b"remove 226 0\n", "wrong-place"),
    (b"input 13 64 1 30 1\n", "wrong-place"),
    (b"vtkey 2\n", "wrong-place"),
    (b"key power\n", "wrong-place"),
    (b"dock true\n", "wrong-place"),
    (b"jobdone\n", "wrong-place"),
    (b"exit c1\n", "wrong-place"),
    (b"tick 5\n", "wrong-place"),
    (b"stop\n", "wrong-place"),
    (b"end\n", "wrong-place"),
    (b"link 1 0\n", "wrong-place"),
];

/// What may not stand behind an identity and a user.
const REPEATED: [(&[u8], &str); 4] = [
    (b"guid 0123456789abcdef0123456789abcdef\n", "wrong-place"),
    (b"guid 00000000000000000000000000000000\n", "wrong-place"),
    (b"user 1000 1000 alice\n", "wrong-place"),
    (b"user 1000 1001 bob\n", "wrong-place"),
];

/// What may not stand behind `go` and the connect of connection 1.
const BEHIND_GO: [(&[u8], &str); 14] = [
    (b"login-recording 1\n", "wrong-place"),
    (b"guid 0123456789abcdef0123456789abcdef\n", "wrong-place"),
    (b"user 1001 1001 bob\n", "wrong-place"),
    (b"user 0 0 root\n", "bad-number"),
    (b"go\n", "wrong-place"),
    (b"connect 1 0\n", "wrong-place"),
    (b"connect 1 1000\n", "wrong-place"),
    (b"disconnect 2\n", "wrong-place"),
    (b"disconnect 4294967295\n", "wrong-place"),
    (b"call 2 1 nothing\n", "wrong-place"),
    (b"send 2 1 nothing\n", "wrong-place"),
    (b"call 4294967295 1 uncontrol c1\n", "wrong-place"),
    (b"call 2 1 power poweroff\n", "wrong-place"),
    (b"call 2 1 inhibit % % % %\n", "wrong-place"),
];

/// What may not stand behind its disconnect.
const BEHIND_DISCONNECT: [(&[u8], &str); 5] = [
    (b"connect 1 0\n", "wrong-place"),
    (b"connect 1 1000\n", "wrong-place"),
    (b"disconnect 1\n", "wrong-place"),
    (b"call 1 1 nothing\n", "wrong-place"),
    (b"send 1 1 nothing\n", "wrong-place"),
];

/// What may not stand behind the stop.
const BEHIND_STOP: [(&[u8], &str); 20] = [
    (b"connect 2 0\n", "wrong-place"),
    (b"connect 1 0\n", "wrong-place"),
    (b"disconnect 2\n", "wrong-place"),
    (b"call 1 1 nothing\n", "wrong-place"),
    (b"send 1 1 nothing\n", "wrong-place"),
    (b"add 226 0 drm seat0\n", "wrong-place"),
    (b"remove 226 0\n", "wrong-place"),
    (b"input 13 64 1 30 1\n", "wrong-place"),
    (b"vtkey 2\n", "wrong-place"),
    (b"exit c1\n", "wrong-place"),
    (b"tick 5\n", "wrong-place"),
    (b"stop\n", "wrong-place"),
    (b"go\n", "wrong-place"),
    (b"user 1001 1001 bob\n", "wrong-place"),
    (b"frob\n", "unknown-word"),
    (b"key power\n", "wrong-place"),
    (b"dock false\n", "wrong-place"),
    (b"jobdone\n", "wrong-place"),
    (b"link 2 0\n", "wrong-place"),
    (b"", "ended"),
];

/// What may not follow `end`.
const BEHIND_END: [(&[u8], &str); 8] = [
    (b"end\n", "wrong-place"),
    (b"\n", "unknown-word"),
    (b"x", "ended"),
    (b"go\n", "wrong-place"),
    (b"connect 1 0\n", "wrong-place"),
    (b"add 226 0 drm seat0\n", "wrong-place"),
    (b"link 1 0\n", "wrong-place"),
    (b"frob\n", "unknown-word"),
];

/// Each with where the lines stand.
pub const REFUSED: [Refused; 6] = [
    Refused {
        name: "before go",
        front: b"login-recording 1\n",
        lines: &BEFORE_GO,
        number: 2,
        transcript: b"",
    },
    Refused {
        name: "repeated in a preamble",
        front: b"login-recording 1\nguid 0123456789abcdef0123456789abcdef\nuser 1000 1000 alice\n",
        lines: &REPEATED,
        number: 4,
        transcript: b"",
    },
    Refused {
        name: "behind go",
        front: b"login-recording 1\ngo\nconnect 1 0\n",
        lines: &BEHIND_GO,
        number: 4,
        transcript: b"login-transcript 1\n1 connect 1 0\n granted\n set conn 1 0\n",
    },
    Refused {
        name: "behind a disconnect",
        front: b"login-recording 1\ngo\nconnect 1 0\ndisconnect 1\n",
        lines: &BEHIND_DISCONNECT,
        number: 5,
        transcript: b"login-transcript 1\n1 connect 1 0\n granted\n set conn 1 0\n2 disconnect 1\n granted\n set conn 1 gone\n",
    },
    Refused {
        name: "behind the stop",
        front: b"login-recording 1\ngo\nconnect 1 0\nstop\n",
        lines: &BEHIND_STOP,
        number: 5,
        transcript: b"login-transcript 1\n1 connect 1 0\n granted\n set conn 1 0\n2 stop\n granted\n",
    },
    Refused {
        name: "behind the end",
        front: b"login-recording 1\ngo\nend\n",
        lines: &BEHIND_END,
        number: 4,
        transcript: b"login-transcript 1\nend 0\n",
    },
];

/// An identity between users in no order, and ends behind the stop.
pub const ACCEPTED: Case = Case {
    name: "in their places",
    pieces: &[(
        "\
login-recording 1
user 1001 1001 bob
guid 00000000000000000000000000000000
user 1000 1000 alice
go
connect 2 1001
connect 1 0
stop
disconnect 2
disconnect 1
end
",
        "\
login-transcript 1
1 connect 2 1001
 granted
 set conn 2 1001
2 connect 1 0
 granted
 set conn 1 0
3 stop
 granted
4 disconnect 2
 granted
 set conn 2 gone
5 disconnect 1
 granted
 set conn 1 gone
end 5
",
    )],
};
