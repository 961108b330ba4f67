// More messages that are malformed: names, nesting and values at their limits, put together by hand.

use super::faults::Row;
use bus_message::MessageFault;

/// What the fields and the body show.
pub const LIMITS: &[Row] = &[
    // an interface of 256 bytes
    Row {
        bytes: b"l\x01\0\x01\0\0\0\0\x01\0\0\0)\x01\0\0\x01\x01o\0\x02\0\0\0/a\0\0\0\0\0\0\x03\x01s\0\x01\0\0\0M\0\0\0\0\0\0\0\x02\x01s\0\0\x01\0\0a.bbbbbbbbbbbbbbbbbbbbbbbbbbbbbbbbbbbbbbbbbbbbbbbbbbbbbbbbbbbbbbbbbbbbbbbbbbbbbbbbbbbbbbbbbbbbbbbbbbbbbbbbbbbbbbbbbbbbbbbbbbbbbbbbbbbbbbbbbbbbbbbbbbbbbbbbbbbbbbbbbbbbbbbbbbbbbbbbbbbbbbbbbbbbbbbbbbbbbbbbbbbbbbbbbbbbbbbbbbbbbbbbbbbbbbbbbbbbbbbbbbbbbbbbbbbbbb\0\0\0\0\0\0\0\0",
        offset: 48,
        cause: MessageFault::BadField,
    },
    // an interface of 256 bytes, with the highest byte of numbers first
    Row {
        bytes: b"B\x01\0\x01\0\0\0\0\0\0\0\x01\0\0\x01)\x01\x01o\0\0\0\0\x02/a\0\0\0\0\0\0\x03\x01s\0\0\0\0\x01M\0\0\0\0\0\0\0\x02\x01s\0\0\0\x01\0a.bbbbbbbbbbbbbbbbbbbbbbbbbbbbbbbbbbbbbbbbbbbbbbbbbbbbbbbbbbbbbbbbbbbbbbbbbbbbbbbbbbbbbbbbbbbbbbbbbbbbbbbbbbbbbbbbbbbbbbbbbbbbbbbbbbbbbbbbbbbbbbbbbbbbbbbbbbbbbbbbbbbbbbbbbbbbbbbbbbbbbbbbbbbbbbbbbbbbbbbbbbbbbbbbbbbbbbbbbbbbbbbbbbbbbbbbbbbbbbbbbbbbbbbbbbbbbb\0\0\0\0\0\0\0\0",
        offset: 48,
        cause: MessageFault::BadField,
    },
    // a member of 256 bytes
    Row {
        bytes: b"l\x01\0\x01\0\0\0\0\x01\0\0\0\x19\x01\0\0\x01\x01o\0\x02\0\0\0/a\0\0\0\0\0\0\x03\x01s\0\0\x01\0\0MMMMMMMMMMMMMMMMMMMMMMMMMMMMMMMMMMMMMMMMMMMMMMMMMMMMMMMMMMMMMMMMMMMMMMMMMMMMMMMMMMMMMMMMMMMMMMMMMMMMMMMMMMMMMMMMMMMMMMMMMMMMMMMMMMMMMMMMMMMMMMMMMMMMMMMMMMMMMMMMMMMMMMMMMMMMMMMMMMMMMMMMMMMMMMMMMMMMMMMMMMMMMMMMMMMMMMMMMMMMMMMMMMMMMMMMMMMMMMMMMMMMMMMMMMMMMMMM\0\0\0\0\0\0\0\0",
        offset: 32,
        cause: MessageFault::BadField,
    },
    // a member of 256 bytes, with the highest byte of numbers first
    Row {
        bytes: b"B\x01\0\x01\0\0\0\0\0\0\0\x01\0\0\x01\x19\x01\x01o\0\0\0\0\x02/a\0\0\0\0\0\0\x03\x01s\0\0\0\x01\0MMMMMMMMMMMMMMMMMMMMMMMMMMMMMMMMMMMMMMMMMMMMMMMMMMMMMMMMMMMMMMMMMMMMMMMMMMMMMMMMMMMMMMMMMMMMMMMMMMMMMMMMMMMMMMMMMMMMMMMMMMMMMMMMMMMMMMMMMMMMMMMMMMMMMMMMMMMMMMMMMMMMMMMMMMMMMMMMMMMMMMMMMMMMMMMMMMMMMMMMMMMMMMMMMMMMMMMMMMMMMMMMMMMMMMMMMMMMMMMMMMMMMMMMMMMMMMMM\0\0\0\0\0\0\0\0",
        offset: 32,
        cause: MessageFault::BadField,
    },
    // a member with a dot
    Row {
        bytes: b"l\x01\0\x01\0\0\0\0\x01\0\0\0\x1c\0\0\0\x01\x01o\0\x02\0\0\0/a\0\0\0\0\0\0\x03\x01s\0\x03\0\0\0a.b\0\0\0\0\0",
        offset: 32,
        cause: MessageFault::BadField,
    },
    // a member with a dot, with the highest byte of numbers first
    Row {
        bytes: b"B\x01\0\x01\0\0\0\0\0\0\0\x01\0\0\0\x1c\x01\x01o\0\0\0\0\x02/a\0\0\0\0\0\0\x03\x01s\0\0\0\0\x03a.b\0\0\0\0\0",
        offset: 32,
        cause: MessageFault::BadField,
    },
    // a member that begins with a digit
    Row {
        bytes: b"l\x01\0\x01\0\0\0\0\x01\0\0\0\x1b\0\0\0\x01\x01o\0\x02\0\0\0/a\0\0\0\0\0\0\x03\x01s\0\x02\0\0\01a\0\0\0\0\0\0",
        offset: 32,
        cause: MessageFault::BadField,
    },
    // a member that begins with a digit, with the highest byte of numbers first
    Row {
        bytes: b"B\x01\0\x01\0\0\0\0\0\0\0\x01\0\0\0\x1b\x01\x01o\0\0\0\0\x02/a\0\0\0\0\0\0\x03\x01s\0\0\0\0\x021a\0\0\0\0\0\0",
        offset: 32,
        cause: MessageFault::BadField,
    },
    // an empty member
    Row {
        bytes: b"l\x01\0\x01\0\0\0\0\x01\0\0\0\x19\0\0\0\x01\x01o\0\x02\0\0\0/a\0\0\0\0\0\0\x03\x01s\0\0\0\0\0\0\0\0\0\0\0\0\0",
        offset: 32,
        cause: MessageFault::BadField,
    },
    // an empty member, with the highest byte of numbers first
    Row {
        bytes: b"B\x01\0\x01\0\0\0\0\0\0\0\x01\0\0\0\x19\x01\x01o\0\0\0\0\x02/a\0\0\0\0\0\0\x03\x01s\0\0\0\0\0\0\0\0\0\0\0\0\0",
        offset: 32,
        cause: MessageFault::BadField,
    },
    // the name of an error of 256 bytes
    Row {
        bytes: b"l\x03\0\x01\0\0\0\0\x01\0\0\0\x18\x01\0\0\x04\x01s\0\0\x01\0\0a.EEEEEEEEEEEEEEEEEEEEEEEEEEEEEEEEEEEEEEEEEEEEEEEEEEEEEEEEEEEEEEEEEEEEEEEEEEEEEEEEEEEEEEEEEEEEEEEEEEEEEEEEEEEEEEEEEEEEEEEEEEEEEEEEEEEEEEEEEEEEEEEEEEEEEEEEEEEEEEEEEEEEEEEEEEEEEEEEEEEEEEEEEEEEEEEEEEEEEEEEEEEEEEEEEEEEEEEEEEEEEEEEEEEEEEEEEEEEEEEEEEEEEEEEEEEEEE\0\0\0\0\0\0\0\0\x05\x01u\0\x01\0\0\0",
        offset: 16,
        cause: MessageFault::BadField,
    },
    // the name of an error of 256 bytes, with the highest byte of numbers first
    Row {
        bytes: b"B\x03\0\x01\0\0\0\0\0\0\0\x01\0\0\x01\x18\x04\x01s\0\0\0\x01\0a.EEEEEEEEEEEEEEEEEEEEEEEEEEEEEEEEEEEEEEEEEEEEEEEEEEEEEEEEEEEEEEEEEEEEEEEEEEEEEEEEEEEEEEEEEEEEEEEEEEEEEEEEEEEEEEEEEEEEEEEEEEEEEEEEEEEEEEEEEEEEEEEEEEEEEEEEEEEEEEEEEEEEEEEEEEEEEEEEEEEEEEEEEEEEEEEEEEEEEEEEEEEEEEEEEEEEEEEEEEEEEEEEEEEEEEEEEEEEEEEEEEEEEEEEEEEEEE\0\0\0\0\0\0\0\0\x05\x01u\0\0\0\0\x01",
        offset: 16,
        cause: MessageFault::BadField,
    },
    // a destination of 256 bytes
    Row {
        bytes: b"l\x01\0\x01\0\0\0\0\x01\0\0\0)\x01\0\0\x01\x01o\0\x02\0\0\0/a\0\0\0\0\0\0\x03\x01s\0\x01\0\0\0M\0\0\0\0\0\0\0\x06\x01s\0\0\x01\0\0:1.0000000000000000000000000000000000000000000000000000000000000000000000000000000000000000000000000000000000000000000000000000000000000000000000000000000000000000000000000000000000000000000000000000000000000000000000000000000000000000000000000000000000000\0\0\0\0\0\0\0\0",
        offset: 48,
        cause: MessageFault::BadField,
    },
    // a destination of 256 bytes, with the highest byte of numbers first
    Row {
        bytes: b"B\x01\0\x01\0\0\0\0\0\0\0\x01\0\0\x01)\x01\x01o\0\0\0\0\x02/a\0\0\0\0\0\0\x03\x01s\0\0\0\0\x01M\0\0\0\0\0\0\0\x06\x01s\0\0\0\x01\0:1.0000000000000000000000000000000000000000000000000000000000000000000000000000000000000000000000000000000000000000000000000000000000000000000000000000000000000000000000000000000000000000000000000000000000000000000000000000000000000000000000000000000000000\0\0\0\0\0\0\0\0",
        offset: 48,
        cause: MessageFault::BadField,
    },
    // 63 variants in one another, in a field; the 62nd names one too many
    Row {
        bytes: b"l\x05\0\x01\0\0\0\0\x01\0\0\0\xbf\0\0\0\x0a\x01v\0\x01v\0\x01v\0\x01v\0\x01v\0\x01v\0\x01v\0\x01v\0\x01v\0\x01v\0\x01v\0\x01v\0\x01v\0\x01v\0\x01v\0\x01v\0\x01v\0\x01v\0\x01v\0\x01v\0\x01v\0\x01v\0\x01v\0\x01v\0\x01v\0\x01v\0\x01v\0\x01v\0\x01v\0\x01v\0\x01v\0\x01v\0\x01v\0\x01v\0\x01v\0\x01v\0\x01v\0\x01v\0\x01v\0\x01v\0\x01v\0\x01v\0\x01v\0\x01v\0\x01v\0\x01v\0\x01v\0\x01v\0\x01v\0\x01v\0\x01v\0\x01v\0\x01v\0\x01v\0\x01v\0\x01v\0\x01v\0\x01v\0\x01v\0\x01v\0\x01v\0\x01v\0\x01y\0\x07\0",
        offset: 200,
        cause: MessageFault::BadField,
    },
    // 63 variants in one another, in a field; the 62nd names one too many, with the highest byte of numbers first
    Row {
        bytes: b"B\x05\0\x01\0\0\0\0\0\0\0\x01\0\0\0\xbf\x0a\x01v\0\x01v\0\x01v\0\x01v\0\x01v\0\x01v\0\x01v\0\x01v\0\x01v\0\x01v\0\x01v\0\x01v\0\x01v\0\x01v\0\x01v\0\x01v\0\x01v\0\x01v\0\x01v\0\x01v\0\x01v\0\x01v\0\x01v\0\x01v\0\x01v\0\x01v\0\x01v\0\x01v\0\x01v\0\x01v\0\x01v\0\x01v\0\x01v\0\x01v\0\x01v\0\x01v\0\x01v\0\x01v\0\x01v\0\x01v\0\x01v\0\x01v\0\x01v\0\x01v\0\x01v\0\x01v\0\x01v\0\x01v\0\x01v\0\x01v\0\x01v\0\x01v\0\x01v\0\x01v\0\x01v\0\x01v\0\x01v\0\x01v\0\x01v\0\x01v\0\x01v\0\x01v\0\x01y\0\x07\0",
        offset: 200,
        cause: MessageFault::BadField,
    },
    // 65 variants in one another, in a body; the 64th names one too many
    Row {
        bytes: b"l\x05\0\x01\xc4\0\0\0\x01\0\0\0\x07\0\0\0\x08\x01g\0\x01v\0\0\x01v\0\x01v\0\x01v\0\x01v\0\x01v\0\x01v\0\x01v\0\x01v\0\x01v\0\x01v\0\x01v\0\x01v\0\x01v\0\x01v\0\x01v\0\x01v\0\x01v\0\x01v\0\x01v\0\x01v\0\x01v\0\x01v\0\x01v\0\x01v\0\x01v\0\x01v\0\x01v\0\x01v\0\x01v\0\x01v\0\x01v\0\x01v\0\x01v\0\x01v\0\x01v\0\x01v\0\x01v\0\x01v\0\x01v\0\x01v\0\x01v\0\x01v\0\x01v\0\x01v\0\x01v\0\x01v\0\x01v\0\x01v\0\x01v\0\x01v\0\x01v\0\x01v\0\x01v\0\x01v\0\x01v\0\x01v\0\x01v\0\x01v\0\x01v\0\x01v\0\x01v\0\x01v\0\x01v\0\x01v\0\x01y\0\x07",
        offset: 213,
        cause: MessageFault::BadBody,
    },
    // 65 variants in one another, in a body; the 64th names one too many, with the highest byte of numbers first
    Row {
        bytes: b"B\x05\0\x01\0\0\0\xc4\0\0\0\x01\0\0\0\x07\x08\x01g\0\x01v\0\0\x01v\0\x01v\0\x01v\0\x01v\0\x01v\0\x01v\0\x01v\0\x01v\0\x01v\0\x01v\0\x01v\0\x01v\0\x01v\0\x01v\0\x01v\0\x01v\0\x01v\0\x01v\0\x01v\0\x01v\0\x01v\0\x01v\0\x01v\0\x01v\0\x01v\0\x01v\0\x01v\0\x01v\0\x01v\0\x01v\0\x01v\0\x01v\0\x01v\0\x01v\0\x01v\0\x01v\0\x01v\0\x01v\0\x01v\0\x01v\0\x01v\0\x01v\0\x01v\0\x01v\0\x01v\0\x01v\0\x01v\0\x01v\0\x01v\0\x01v\0\x01v\0\x01v\0\x01v\0\x01v\0\x01v\0\x01v\0\x01v\0\x01v\0\x01v\0\x01v\0\x01v\0\x01v\0\x01v\0\x01v\0\x01y\0\x07",
        offset: 213,
        cause: MessageFault::BadBody,
    },
    // a path that is none, in a body
    Row {
        bytes: b"l\x05\0\x01\x06\0\0\0\x01\0\0\0\x07\0\0\0\x08\x01g\0\x01o\0\0\x01\0\0\0a\0",
        offset: 24,
        cause: MessageFault::BadBody,
    },
    // a path that is none, in a body, with the highest byte of numbers first
    Row {
        bytes: b"B\x05\0\x01\0\0\0\x06\0\0\0\x01\0\0\0\x07\x08\x01g\0\x01o\0\0\0\0\0\x01a\0",
        offset: 24,
        cause: MessageFault::BadBody,
    },
    // a signature that is none, in a body
    Row {
        bytes: b"l\x05\0\x01\x03\0\0\0\x01\0\0\0\x07\0\0\0\x08\x01g\0\x01g\0\0\x01(\0",
        offset: 24,
        cause: MessageFault::BadBody,
    },
    // a signature that is none, in a body, with the highest byte of numbers first
    Row {
        bytes: b"B\x05\0\x01\0\0\0\x03\0\0\0\x01\0\0\0\x07\x08\x01g\0\x01g\0\0\x01(\0",
        offset: 24,
        cause: MessageFault::BadBody,
    },
    // a text with a NUL inside
    Row {
        bytes: b"l\x05\0\x01\x0b\0\0\0\x01\0\0\0\x08\0\0\0\x08\x01g\0\x02ys\0\x01\0\0\0\x02\0\0\0a\0\0",
        offset: 28,
        cause: MessageFault::BadBody,
    },
    // a text with a NUL inside, with the highest byte of numbers first
    Row {
        bytes: b"B\x05\0\x01\0\0\0\x0b\0\0\0\x01\0\0\0\x08\x08\x01g\0\x02ys\0\x01\0\0\0\0\0\0\x02a\0\0",
        offset: 28,
        cause: MessageFault::BadBody,
    },
    // an array that its elements do not fill
    Row {
        bytes: b"l\x05\0\x01\x08\0\0\0\x01\0\0\0\x08\0\0\0\x08\x01g\0\x02au\0\x02\0\0\0\0\0\0\0",
        offset: 24,
        cause: MessageFault::BadBody,
    },
    // an array that its elements do not fill, with the highest byte of numbers first
    Row {
        bytes: b"B\x05\0\x01\0\0\0\x08\0\0\0\x01\0\0\0\x08\x08\x01g\0\x02au\0\0\0\0\x02\0\0\0\0",
        offset: 24,
        cause: MessageFault::BadBody,
    },
    // an array that is too long by its length
    Row {
        bytes: b"l\x05\0\x01\x08\0\0\0\x01\0\0\0\x08\0\0\0\x08\x01g\0\x02au\0\x01\0\0\x04\0\0\0\0",
        offset: 24,
        cause: MessageFault::BadBody,
    },
    // an array that is too long by its length, with the highest byte of numbers first
    Row {
        bytes: b"B\x05\0\x01\0\0\0\x08\0\0\0\x01\0\0\0\x08\x08\x01g\0\x02au\0\x04\0\0\x01\0\0\0\0",
        offset: 24,
        cause: MessageFault::BadBody,
    },
    // an array whose bytes are not all there
    Row {
        bytes: b"l\x05\0\x01\x0c\0\0\0\x01\0\0\0\x09\0\0\0\x08\x01g\0\x03yau\0\0\0\0\0\0\0\0\x07\0\0\0\x08\0\0\0\0\0\0\0",
        offset: 36,
        cause: MessageFault::BadBody,
    },
    // an array whose bytes are not all there, with the highest byte of numbers first
    Row {
        bytes: b"B\x05\0\x01\0\0\0\x0c\0\0\0\x01\0\0\0\x09\x08\x01g\0\x03yau\0\0\0\0\0\0\0\0\x07\0\0\0\0\0\0\x08\0\0\0\0",
        offset: 36,
        cause: MessageFault::BadBody,
    },
    // padding that is not zero in front of no element
    Row {
        bytes: b"l\x05\0\x01\x08\0\0\0\x01\0\0\0\x08\0\0\0\x08\x01g\0\x02ax\0\0\0\0\0\0\0\0\x01",
        offset: 31,
        cause: MessageFault::BadBody,
    },
    // padding that is not zero in front of no element, with the highest byte of numbers first
    Row {
        bytes: b"B\x05\0\x01\0\0\0\x08\0\0\0\x01\0\0\0\x08\x08\x01g\0\x02ax\0\0\0\0\0\0\0\0\x01",
        offset: 31,
        cause: MessageFault::BadBody,
    },
    // a variant of two values
    Row {
        bytes: b"l\x05\0\x01\x06\0\0\0\x01\0\0\0\x07\0\0\0\x08\x01g\0\x01v\0\0\x02yy\0\x01\x02",
        offset: 24,
        cause: MessageFault::BadBody,
    },
    // a variant of two values, with the highest byte of numbers first
    Row {
        bytes: b"B\x05\0\x01\0\0\0\x06\0\0\0\x01\0\0\0\x07\x08\x01g\0\x01v\0\0\x02yy\0\x01\x02",
        offset: 24,
        cause: MessageFault::BadBody,
    },
    // a byte behind the values
    Row {
        bytes: b"l\x05\0\x01\x04\0\0\0\x01\0\0\0\x0b\0\0\0\x08\x01g\0\x05(yy)y\0\0\0\0\0\0\x01\x02\x03\x04",
        offset: 35,
        cause: MessageFault::BadBody,
    },
    // a byte behind the values, with the highest byte of numbers first
    Row {
        bytes: b"B\x05\0\x01\0\0\0\x04\0\0\0\x01\0\0\0\x0b\x08\x01g\0\x05(yy)y\0\0\0\0\0\0\x01\x02\x03\x04",
        offset: 35,
        cause: MessageFault::BadBody,
    },
    // a number that is cut off
    Row {
        bytes: b"l\x05\0\x01\x07\0\0\0\x01\0\0\0\x07\0\0\0\x08\x01g\0\x01t\0\0\0\0\0\0\0\0\0",
        offset: 24,
        cause: MessageFault::BadBody,
    },
    // a number that is cut off, with the highest byte of numbers first
    Row {
        bytes: b"B\x05\0\x01\0\0\0\x07\0\0\0\x01\0\0\0\x07\x08\x01g\0\x01t\0\0\0\0\0\0\0\0\0",
        offset: 24,
        cause: MessageFault::BadBody,
    },
];
