// Lines of links that may not stand where they stand. Bytes are written by hand from the Specification.

use crate::Piece;

/// Connection 1 is no link. Link 2 has begun, link 3 has not, link 4 is hung up, and link 5 is malformed.
pub const FRONT: Piece = (
    "\
login-recording 1
user 1000 1000 alice
go
connect 1 0
link 2 1000
link 3 1000
link 4 1000
link 5 1000
in 2 00415554482045585445524e414c0d0a444154410d0a4e45474f54494154455f554e49585f46440d0a424547494e0d0a
hangup 4
in 5 00415554482045585445524e414c0d0a444154410d0a4e45474f54494154455f554e49585f46440d0a424547494e0d0a00000000000000000000000000000000
",
    "\
login-transcript 1
1 connect 1 0
 granted
 set conn 1 0
2 connect 2 1000
 granted
 set conn 2 1000
out 2 444154410d0a4f4b2030313233343536373839616263646566303132333435363738396162636465660d0a4552524f520d0a
closed 4 not-begun 5
3 connect 5 1000
 granted
 set conn 5 1000
4 disconnect 5
 granted
 set conn 5 gone
out 5 444154410d0a4f4b2030313233343536373839616263646566303132333435363738396162636465660d0a4552524f520d0a
closed 5 malformed 0 1
",
);

/// What may not come next.
pub const BEHIND_FRONT: [(&[u8], &str); 24] = [
    (b"link 1 0\n", "wrong-place"),
    (b"link 2 1000\n", "wrong-place"),
    (b"link 3 1000\n", "wrong-place"),
    (b"link 4 1000\n", "wrong-place"),
    (b"link 5 1000\n", "wrong-place"),
    (b"connect 2 1000\n", "wrong-place"),
    (b"connect 3 1000\n", "wrong-place"),
    (b"connect 4 0\n", "wrong-place"),
    (b"connect 5 1000\n", "wrong-place"),
    (b"disconnect 2\n", "wrong-place"),
    (b"disconnect 3\n", "wrong-place"),
    (b"disconnect 4\n", "wrong-place"),
    (b"disconnect 5\n", "wrong-place"),
    (b"call 3 1 nothing\n", "wrong-place"),
    (b"call 4 1 nothing\n", "wrong-place"),
    (b"send 5 1 nothing\n", "wrong-place"),
    (b"in 1 00\n", "wrong-place"),
    (b"hangup 1\n", "wrong-place"),
    (b"in 4 00\n", "wrong-place"),
    (b"hangup 4\n", "wrong-place"),
    (b"in 9 00\n", "wrong-place"),
    (b"hangup 9\n", "wrong-place"),
    (b"in 2 0\n", "bad-hex"),
    (b"in 4 0g\n", "bad-hex"),
];

/// What may not follow a stop there.
pub const BEHIND_STOP: [(&[u8], &str); 7] = [
    (b"link 9 1000\n", "wrong-place"),
    (b"disconnect 2\n", "wrong-place"),
    (b"disconnect 5\n", "wrong-place"),
    (b"call 2 1 nothing\n", "wrong-place"),
    (b"connect 3 1000\n", "wrong-place"),
    (b"in 4 00\n", "wrong-place"),
    (b"hangup 4\n", "wrong-place"),
];

/// What may not follow the end.
pub const BEHIND_END: [(&[u8], &str); 6] = [
    (b"in 2 00\n", "wrong-place"),
    (b"in 3 00\n", "wrong-place"),
    (b"hangup 2\n", "wrong-place"),
    (b"hangup 5\n", "wrong-place"),
    (b"link 9 0\n", "wrong-place"),
    (b"disconnect 1\n", "wrong-place"),
];
