// What clients send, and what that is. The handshake is that of the D-Bus Specification ("Authentication examples"),
// and the messages are by hand, from "Message Format".

use bus_auth::Ending;
use bus_message::{Malformed, MessageFault};
use login_office::{LinkEnd, Unbegun};

/// A handshake of user 1000 that begins.
pub const HANDSHAKE: &[u8] = b"\0AUTH EXTERNAL\r\nDATA\r\nNEGOTIATE_UNIX_FD\r\nBEGIN\r\n";

/// What is replied to it.
pub const REPLIES: &[u8] = b"DATA\r\nOK 0123456789abcdef0123456789abcdef\r\nERROR\r\n";

/// A call of GetSession with the text c1.
pub const CALL: &[u8] = b"l\x01\0\x01\x07\0\0\0\x01\0\0\0\x67\0\0\0\
\x01\x01o\0\x17\0\0\0/org/freedesktop/login1\0\
\x02\x01s\0\x1e\0\0\0org.freedesktop.login1.Manager\0\0\
\x03\x01s\0\x0a\0\0\0GetSession\0\0\0\0\0\0\
\x08\x01g\0\x01s\0\0\x02\0\0\0c1\0";

/// The same, with the highest byte of numbers first.
pub const CALL_BIG: &[u8] =
    b"B\x01\0\x01\0\0\0\x07\0\0\0\x01\0\0\0g\x01\x01o\0\0\0\0\x17/org/freedesktop/login1\0\x02\x01s\0\0\0\0\x1eorg.freedesktop.login1.Manager\0\0\x03\x01s\0\0\0\0\x0aGetSession\0\0\0\0\0\0\x08\x01g\0\x01s\0\0\0\0\0\x02c1\0";

/// The same, with a byte of the padding behind the interface that is not zero.
const BAD: &[u8] = b"l\x01\0\x01\x07\0\0\0\x01\0\0\0\x67\0\0\0\
\x01\x01o\0\x17\0\0\0/org/freedesktop/login1\0\
\x02\x01s\0\x1e\0\0\0org.freedesktop.login1.Manager\0\x01\
\x03\x01s\0\x0a\0\0\0GetSession\0\0\0\0\0\0\
\x08\x01g\0\x01s\0\0\x02\0\0\0c1\0";

/// What that call is on connection 2.
const LINE: &[u8] = b"call 2 1 get-session c1";

/// What a client of user 1000 sends on connection 2, and what that is.
pub struct Case {
    /// One behind the other.
    pub sent: &'static [&'static [u8]],
    pub replies: &'static [u8],
    pub begins: bool,
    pub calls: &'static [&'static [u8]],
    pub end: Option<LinkEnd>,
}

/// Links that begin, are cut off, and end.
pub const CASES: &[Case] = &[
    Case {
        sent: &[HANDSHAKE, CALL],
        replies: REPLIES,
        begins: true,
        calls: &[LINE],
        end: None,
    },
    Case {
        sent: &[HANDSHAKE, CALL_BIG, CALL],
        replies: REPLIES,
        begins: true,
        calls: &[LINE, LINE],
        end: None,
    },
    // It is cut off in a message.
    Case {
        sent: &[HANDSHAKE, CALL, b"l\x01\0\x01\x07\0\0\0\x02\0\0\0"],
        replies: REPLIES,
        begins: true,
        calls: &[LINE],
        end: None,
    },
    Case {
        sent: &[HANDSHAKE],
        replies: REPLIES,
        begins: true,
        calls: &[],
        end: None,
    },
    // It is cut off in the handshake.
    Case {
        sent: &[b"\0AUTH EXTERNAL\r\nDATA\r\nBEG"],
        replies: b"DATA\r\nOK 0123456789abcdef0123456789abcdef\r\n",
        begins: false,
        calls: &[],
        end: None,
    },
    Case {
        sent: &[HANDSHAKE, BAD, CALL],
        replies: REPLIES,
        begins: true,
        calls: &[],
        end: Some(LinkEnd::Malformed(Malformed {
            offset: 87,
            cause: MessageFault::BadField,
        })),
    },
    // The call in front of a malformed message is one; the one behind it is none.
    Case {
        sent: &[HANDSHAKE, CALL, BAD, CALL],
        replies: REPLIES,
        begins: true,
        calls: &[LINE],
        end: Some(LinkEnd::Malformed(Malformed {
            offset: 214,
            cause: MessageFault::BadField,
        })),
    },
    Case {
        sent: &[b"AUTH EXTERNAL 31303030\r\nBEGIN\r\n", CALL],
        replies: b"",
        begins: false,
        calls: &[],
        end: Some(LinkEnd::NotBegun(Unbegun::Refused(Ending::NoNul))),
    },
    Case {
        sent: &[b"\0AUTH EXTERNAL 31303031\r\nBEGIN\r\n", CALL],
        replies: b"REJECTED EXTERNAL\r\n",
        begins: false,
        calls: &[],
        end: Some(LinkEnd::NotBegun(Unbegun::Refused(Ending::EarlyBegin))),
    },
];
