// What clients send, and what they get, after the table of the handshake.

use bus_auth::Ending;

/// Where a handshake is in the end.
#[derive(Clone, Copy, PartialEq, Eq)]
pub(super) enum End {
    Going,
    Begun,
    Ended(Ending),
}

/// What a client sends on the socket of a user, and what it gets.
#[derive(Clone, Copy)]
pub(super) struct Case<'a> {
    pub uid: u32,
    pub sent: &'a [u8],
    pub replies: &'a [u8],
    pub end: End,
    /// The bytes behind BEGIN.
    pub rest: &'a [u8],
}

// What real clients send first; at the fronts of messages the rest is cut off.
pub(super) const CLIENTS: [Case<'static>; 6] = [
    // busctl, loginctl, systemctl and systemd-inhibit (sd-bus)
    Case {
        uid: 1000,
        sent: b"\0AUTH EXTERNAL\r\nDATA\r\nNEGOTIATE_UNIX_FD\r\nBEGIN\r\nl\x01\x00\x01",
        replies: b"DATA\r\nOK 0123456789abcdef0123456789abcdef\r\nERROR\r\n",
        end: End::Begun,
        rest: b"l\x01\x00\x01",
    },
    // dbus-send and dbus-python (libdbus)
    Case {
        uid: 0,
        sent: b"\0AUTH EXTERNAL 30\r\nNEGOTIATE_UNIX_FD\r\nBEGIN\r\nl\x01\x00\x01\r\n",
        replies: b"OK 0123456789abcdef0123456789abcdef\r\nERROR\r\n",
        end: End::Begun,
        rest: b"l\x01\x00\x01\r\n",
    },
    // gdbus (GDBus)
    Case {
        uid: 0,
        sent: b"\0AUTH\r\nAUTH EXTERNAL 30\r\nNEGOTIATE_UNIX_FD\r\nBEGIN\r\n",
        replies: b"REJECTED EXTERNAL\r\nOK 0123456789abcdef0123456789abcdef\r\nERROR\r\n",
        end: End::Begun,
        rest: b"",
    },
    // jeepney and dbus-next
    Case {
        uid: 0,
        sent: b"\0AUTH EXTERNAL 30\r\nBEGIN\r\n",
        replies: b"OK 0123456789abcdef0123456789abcdef\r\n",
        end: End::Begun,
        rest: b"",
    },
    // a client of another user, and one that begins all the same
    Case {
        uid: 1001,
        sent: b"\0AUTH EXTERNAL 31303030\r\n",
        replies: b"REJECTED EXTERNAL\r\n",
        end: End::Going,
        rest: b"",
    },
    Case {
        uid: 1001,
        sent: b"\0AUTH EXTERNAL 31303030\r\nBEGIN\r\n",
        replies: b"REJECTED EXTERNAL\r\n",
        end: End::Ended(Ending::EarlyBegin),
        rest: b"",
    },
];

// Each row of the table, on the socket of the user 1000.
pub(super) const ROWS: [(&[u8], &[u8], End); 22] = [
    (b"", b"", End::Going),
    (b"\0", b"", End::Going),
    (b"A", b"", End::Ended(Ending::NoNul)),
    (
        b"\0AUTH EXTERNAL 31303030\r\nBEGIN\r\n",
        b"OK 0123456789abcdef0123456789abcdef\r\n",
        End::Begun,
    ),
    (b"\0AUTH EXTERNAL \r\n", b"DATA\r\n", End::Going),
    (
        b"\0AUTH\r\nAUTH ANONYMOUS\r\nERROR\r\n",
        b"REJECTED EXTERNAL\r\nREJECTED EXTERNAL\r\nREJECTED EXTERNAL\r\n",
        End::Going,
    ),
    (
        b"\0AUTH EXTERNAL\r\nDATA 31303030\r\nBEGIN\r\n",
        b"DATA\r\nOK 0123456789abcdef0123456789abcdef\r\n",
        End::Begun,
    ),
    (
        b"\0AUTH EXTERNAL\r\nDATA \r\nBEGIN\r\n",
        b"DATA\r\nOK 0123456789abcdef0123456789abcdef\r\n",
        End::Begun,
    ),
    (
        b"\0AUTH EXTERNAL\r\nDATA 30\r\nDATA\r\n",
        b"DATA\r\nREJECTED EXTERNAL\r\nERROR\r\n",
        End::Going,
    ),
    (
        b"\0AUTH EXTERNAL\r\nCANCEL\r\nCANCEL\r\n",
        b"DATA\r\nREJECTED EXTERNAL\r\nERROR\r\n",
        End::Going,
    ),
    (
        b"\0AUTH EXTERNAL\r\nERROR x\r\nAUTH EXTERNAL\r\n",
        b"DATA\r\nREJECTED EXTERNAL\r\nDATA\r\n",
        End::Going,
    ),
    (
        b"\0AUTH EXTERNAL\r\nAUTH EXTERNAL\r\n",
        b"DATA\r\nERROR\r\n",
        End::Going,
    ),
    (
        b"\0AUTH EXTERNAL\r\nBEGIN\r\n",
        b"DATA\r\n",
        End::Ended(Ending::EarlyBegin),
    ),
    (
        b"\0AUTH EXTERNAL 31303030\r\nCANCEL x\r\nBEGIN\r\n",
        b"OK 0123456789abcdef0123456789abcdef\r\nREJECTED EXTERNAL\r\n",
        End::Ended(Ending::EarlyBegin),
    ),
    (
        b"\0AUTH EXTERNAL 31303030\r\nERROR\r\n",
        b"OK 0123456789abcdef0123456789abcdef\r\nREJECTED EXTERNAL\r\n",
        End::Going,
    ),
    (
        b"\0AUTH EXTERNAL 31303030\r\nAUTH EXTERNAL\r\nDATA\r\nBEGIN x\r\n",
        b"OK 0123456789abcdef0123456789abcdef\r\nERROR\r\nERROR\r\n",
        End::Begun,
    ),
    // no identity of 1000: with a zero in front, of 100, and letters
    (
        b"\0AUTH EXTERNAL 3031303030\r\nAUTH EXTERNAL 313030\r\nAUTH EXTERNAL 3130304A\r\n",
        b"REJECTED EXTERNAL\r\nREJECTED EXTERNAL\r\nREJECTED EXTERNAL\r\n",
        End::Going,
    ),
    // words more, and spaces
    (
        b"\0AUTH EXTERNAL 31303030 \r\nAUTH EXTERNAL  \r\nAUTH  EXTERNAL\r\nAUTH EXTERNALX\r\n",
        b"REJECTED EXTERNAL\r\nREJECTED EXTERNAL\r\nREJECTED EXTERNAL\r\nREJECTED EXTERNAL\r\n",
        End::Going,
    ),
    // other words
    (
        b"\0\r\nbegin\r\n BEGIN\r\nAUTHX\r\nauth EXTERNAL\r\n",
        b"ERROR\r\nERROR\r\nERROR\r\nERROR\r\nERROR\r\n",
        End::Going,
    ),
    (b"\0AUTH external\r\n", b"REJECTED EXTERNAL\r\n", End::Going),
    // a CR and a LF that end no line
    (
        b"\0\rBEGIN\nBEGIN\rBEGIN\r\r\n\nBEGIN\r\n",
        b"ERROR\r\nERROR\r\n",
        End::Going,
    ),
    // what comes behind the end
    (
        b"\0BEGIN\r\nAUTH EXTERNAL 31303030\r\nBEGIN\r\n",
        b"",
        End::Ended(Ending::EarlyBegin),
    ),
];

/// A text with a part that is repeated, and how many lines ERROR come behind the first replies.
#[derive(Clone, Copy)]
pub(super) struct Limit {
    pub front: &'static [u8],
    pub part: &'static [u8],
    pub count: usize,
    pub back: &'static [u8],
    pub replies: &'static [u8],
    pub errors: usize,
    pub end: End,
}

// A line has at most 512 bytes before its CR LF, and there are at most 64 lines.
pub(super) const LIMITS: [Limit; 12] = [
    Limit {
        front: b"\0",
        part: b"A",
        count: 512,
        back: b"",
        replies: b"",
        errors: 0,
        end: End::Going,
    },
    Limit {
        front: b"\0",
        part: b"A",
        count: 513,
        back: b"",
        replies: b"",
        errors: 0,
        end: End::Ended(Ending::LineTooLong),
    },
    Limit {
        front: b"\0",
        part: b"A",
        count: 512,
        back: b"\r",
        replies: b"",
        errors: 0,
        end: End::Going,
    },
    Limit {
        front: b"\0",
        part: b"A",
        count: 512,
        back: b"\r\n",
        replies: b"",
        errors: 1,
        end: End::Going,
    },
    Limit {
        front: b"\0",
        part: b"A",
        count: 512,
        back: b"\rA",
        replies: b"",
        errors: 0,
        end: End::Ended(Ending::LineTooLong),
    },
    Limit {
        front: b"\0",
        part: b"A",
        count: 512,
        back: b"\r\r\n",
        replies: b"",
        errors: 0,
        end: End::Ended(Ending::LineTooLong),
    },
    Limit {
        front: b"\0",
        part: b"A",
        count: 513,
        back: b"\r\nX\r\n",
        replies: b"",
        errors: 0,
        end: End::Ended(Ending::LineTooLong),
    },
    Limit {
        front: b"\0X\r\n",
        part: b"A",
        count: 513,
        back: b"",
        replies: b"",
        errors: 1,
        end: End::Ended(Ending::LineTooLong),
    },
    Limit {
        front: b"\0",
        part: b"X\r\n",
        count: 64,
        back: b"X",
        replies: b"",
        errors: 64,
        end: End::Going,
    },
    Limit {
        front: b"\0",
        part: b"X\r\n",
        count: 65,
        back: b"",
        replies: b"",
        errors: 64,
        end: End::Ended(Ending::TooManyLines),
    },
    Limit {
        front: b"\0AUTH EXTERNAL 31303030\r\n",
        part: b"X\r\n",
        count: 62,
        back: b"BEGIN\r\n",
        replies: b"OK 0123456789abcdef0123456789abcdef\r\n",
        errors: 62,
        end: End::Begun,
    },
    Limit {
        front: b"\0AUTH EXTERNAL 31303030\r\n",
        part: b"X\r\n",
        count: 63,
        back: b"BEGIN\r\n",
        replies: b"OK 0123456789abcdef0123456789abcdef\r\n",
        errors: 63,
        end: End::Ended(Ending::TooManyLines),
    },
];
