// The bytes of a link however they are cut into lines.

use crate::Piece;

/// Bytes of a link the last of which makes something whole, and what comes of it: blocks, bytes that are
/// due, and the end of the link. Bytes are in hex.
#[derive(Clone, Copy)]
pub struct Part {
    pub sent: &'static [u8],
    pub blocks: &'static [u8],
    pub due: &'static [u8],
    pub closed: &'static [u8],
}

/// What link 2 sends, and the lines in front of that and behind it.
#[derive(Clone, Copy)]
pub struct Talk {
    pub front: Piece,
    pub parts: &'static [Part],
    pub rest: Piece,
}

/// Alice has the session c1, and opens link 2.
const FRONT: Piece = (
    "\
login-recording 1
user 1000 1000 alice
go
connect 1 0
call 1 1 create 1000 0 login tty user % seat0 1 tty1 % false % %
link 2 1000
",
    "\
login-transcript 1
1 connect 1 0
 granted
 set conn 1 0
2 call 1 1 create 1000 0 login tty user % seat0 1 tty1 % false % %
 granted c1 /org/freedesktop/login1/session/c1 /run/user/1000 1 1000 seat0 1 false
 set user 1000 known
 all user-new 1000
 set owner 1 fifo 1 c1
 set sess c1 open 1000 seat0 1 tty user
 all session-new c1
 all active seat0 - c1
",
);

/// The link stays open.
const END: Piece = ("end\n", "end 4\n");

/// It ends as its input ends, and its bytes made five events already.
const HANGUP: Piece = (
    "\
hangup 2
end
",
    "end 5\n",
);

/// The client names its mechanism.
const MECHANISM: Part = Part {
    sent: b"00415554482045585445524e414c0d0a",
    blocks: b"",
    due: b"444154410d0a",
    closed: b"",
};

/// It says nothing of who it is.
const IDENTITY: Part = Part {
    sent: b"444154410d0a",
    blocks: b"",
    due: b"4f4b2030313233343536373839616263646566303132333435363738396162636465660d0a",
    closed: b"",
};

/// It would send file descriptors.
const DESCRIPTORS: Part = Part {
    sent: b"4e45474f54494154455f554e49585f46440d0a",
    blocks: b"",
    due: b"4552524f520d0a",
    closed: b"",
};

/// It begins.
const BEGIN: Part = Part {
    sent: b"424547494e0d0a",
    blocks: b"\
3 connect 2 1000
 granted
 set conn 2 1000
",
    due: b"",
    closed: b"",
};

/// It calls GetSession with the text c1. The reply is as libdbus 1.14 wrote it.
const CALLED: Part = Part {
    sent: b"6c01000107000000010000006700000001016f00170000002f6f72672f667265656465736b746f702f6c6f67696e3100020173001e0000006f72672e667265656465736b746f702e6c6f67696e312e4d616e616765720000030173000a00000047657453657373696f6e000000000000080167000173000002000000633100",
    blocks: b"\
4 call 2 1 get-session c1
 granted /org/freedesktop/login1/session/c1
",
    due: b"6c02000127000000010000001f000000050175000100000007017300040000003a312e300000000008016700016f0000220000002f6f72672f667265656465736b746f702f6c6f67696e312f73657373696f6e2f633100",
    closed: b"",
};

/// It calls, with the highest byte of numbers first.
const CALLED_BIG: Part = Part {
    sent: b"4201000100000007000000010000006701016f00000000172f6f72672f667265656465736b746f702f6c6f67696e3100020173000000001e6f72672e667265656465736b746f702e6c6f67696e312e4d616e616765720000030173000000000a47657453657373696f6e000000000000080167000173000000000002633100",
    blocks: b"\
4 call 2 1 get-session c1
 granted /org/freedesktop/login1/session/c1
",
    due: b"6c02000127000000010000001f000000050175000100000007017300040000003a312e300000000008016700016f0000220000002f6f72672f667265656465736b746f702f6c6f67696e312f73657373696f6e2f633100",
    closed: b"",
};

/// It calls with a byte of the padding behind the interface that is not zero.
const BROKEN: Part = Part {
    sent: b"6c01000107000000010000006700000001016f00170000002f6f72672f667265656465736b746f702f6c6f67696e3100020173001e0000006f72672e667265656465736b746f702e6c6f67696e312e4d616e616765720001030173000a00000047657453657373696f6e000000000000080167000173000002000000633100",
    blocks: b"\
5 disconnect 2
 granted
 set conn 2 gone
",
    due: b"",
    closed: b"closed 2 malformed 214 5\n",
};

/// It calls behind its end.
const UNHEARD: Part = Part {
    sent: b"6c01000107000000010000006700000001016f00170000002f6f72672f667265656465736b746f702f6c6f67696e3100020173001e0000006f72672e667265656465736b746f702e6c6f67696e312e4d616e616765720000030173000a00000047657453657373696f6e000000000000080167000173000002000000633100",
    blocks: b"",
    due: b"",
    closed: b"",
};

/// A handshake and a call.
const LITTLE: Talk = Talk {
    front: FRONT,
    parts: &[MECHANISM, IDENTITY, DESCRIPTORS, BEGIN, CALLED],
    rest: END,
};

/// The same in the other order of bytes.
const BIG: Talk = Talk {
    front: FRONT,
    parts: &[MECHANISM, IDENTITY, DESCRIPTORS, BEGIN, CALLED_BIG],
    rest: END,
};

/// The same as the first, and bytes of no message behind the call, and behind them one more call.
const MALFORMED: Talk = Talk {
    front: FRONT,
    parts: &[
        MECHANISM,
        IDENTITY,
        DESCRIPTORS,
        BEGIN,
        CALLED,
        BROKEN,
        UNHEARD,
    ],
    rest: HANGUP,
};

/// The link delays sleep.
const DELAYING: Piece = (
    "\
login-recording 1
user 1000 1000 alice
go
connect 1 0
call 1 1 create 1000 0 login tty user % seat0 1 tty1 % false % %
link 2 1000
in 2 00415554482045585445524e414c0d0a444154410d0a4e45474f54494154455f554e49585f46440d0a424547494e0d0a
call 2 1 inhibit sleep a b delay
call 1 2 power suspend
",
    "\
login-transcript 1
1 connect 1 0
 granted
 set conn 1 0
2 call 1 1 create 1000 0 login tty user % seat0 1 tty1 % false % %
 granted c1 /org/freedesktop/login1/session/c1 /run/user/1000 1 1000 seat0 1 false
 set user 1000 known
 all user-new 1000
 set owner 1 fifo 1 c1
 set sess c1 open 1000 seat0 1 tty user
 all session-new c1
 all active seat0 - c1
3 connect 2 1000
 granted
 set conn 2 1000
out 2 444154410d0a4f4b2030313233343536373839616263646566303132333435363738396162636465660d0a4552524f520d0a
4 call 2 1 inhibit sleep a b delay
 granted 2
 set lock 1 sleep delay 1000
 set owner 2 lock 2 1
out 2 6c02000104000000010000001f000000050175000100000007017300040000003a312e3000000000080167000175000002000000
5 call 1 2 power suspend
 granted
 set op waiting suspend 0 noskip
 all prepare sleep true
out 2 6c04000104000000020000007700000001016f00170000002f6f72672f667265656465736b746f702f6c6f67696e3100020173001e0000006f72672e667265656465736b746f702e6c6f67696e312e4d616e616765720000030173000f00000050726570617265466f72536c6565700007017300040000003a312e3000000000080167000162000001000000
",
);

/// It is malformed, and delays no more.
const LETTING_GO: Part = Part {
    sent: b"6c01000107000000010000006700000001016f00170000002f6f72672f667265656465736b746f702f6c6f67696e3100020173001e0000006f72672e667265656465736b746f702e6c6f67696e312e4d616e616765720001030173000a00000047657453657373696f6e000000000000080167000173000002000000633100",
    blocks: b"\
6 disconnect 2
 granted
 set lock 1 -
 set conn 2 gone
 set op running suspend
",
    due: b"",
    closed: b"closed 2 malformed 87 5\n",
};

/// A link delays sleep, and is malformed.
const DELAYED: Talk = Talk {
    front: DELAYING,
    parts: &[LETTING_GO],
    rest: GONE,
};

/// Nothing follows.
const GONE: Piece = ("end\n", "end 6\n");

/// The talks, each with how many bytes the link sends.
pub const TALKS: [(&Talk, usize); 4] = [
    (&LITTLE, 175),
    (&BIG, 175),
    (&MALFORMED, 429),
    (&DELAYED, 127),
];
