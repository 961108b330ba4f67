// Messages that are malformed, put together by hand, with the place and the cause.

use bus_message::MessageFault;

/// A malformed message, and what is wrong with it.
pub struct Row {
    pub bytes: &'static [u8],
    pub offset: u64,
    pub cause: MessageFault,
}

/// What the first 16 bytes show.
pub const HEADERS: &[Row] = &[
    Row {
        bytes: b"L\x01\0\x01\0\0\0\0\x01\0\0\0\x1a\0\0\0\x01\x01o\0\x02\0\0\0/a\0\0\0\0\0\0\x03\x01s\0\x01\0\0\0M\0\0\0\0\0\0\0",
        offset: 0,
        cause: MessageFault::BadOrder,
    },
    Row {
        bytes: b"b\x01\0\x01\0\0\0\0\x01\0\0\0\x1a\0\0\0\x01\x01o\0\x02\0\0\0/a\0\0\0\0\0\0\x03\x01s\0\x01\0\0\0M\0\0\0\0\0\0\0",
        offset: 0,
        cause: MessageFault::BadOrder,
    },
    Row {
        bytes: b"\0\x01\0\x01\0\0\0\0\x01\0\0\0\x1a\0\0\0\x01\x01o\0\x02\0\0\0/a\0\0\0\0\0\0\x03\x01s\0\x01\0\0\0M\0\0\0\0\0\0\0",
        offset: 0,
        cause: MessageFault::BadOrder,
    },
    Row {
        bytes: b"x\0\0\x01\0\0\0\0\x01\0\0\0\x1a\0\0\0\x01\x01o\0\x02\0\0\0/a\0\0\0\0\0\0\x03\x01s\0\x01\0\0\0M\0\0\0\0\0\0\0",
        offset: 0,
        cause: MessageFault::BadOrder,
    },
    Row {
        bytes: b"l\0\0\x01\0\0\0\0\x01\0\0\0\x1a\0\0\0\x01\x01o\0\x02\0\0\0/a\0\0\0\0\0\0\x03\x01s\0\x01\0\0\0M\0\0\0\0\0\0\0",
        offset: 1,
        cause: MessageFault::BadKind,
    },
    Row {
        bytes: b"l\0\0\x02\0\0\0\0\x01\0\0\0\x1a\0\0\0\x01\x01o\0\x02\0\0\0/a\0\0\0\0\0\0\x03\x01s\0\x01\0\0\0M\0\0\0\0\0\0\0",
        offset: 1,
        cause: MessageFault::BadKind,
    },
    Row {
        bytes: b"l\x01\0\0\0\0\0\0\x01\0\0\0\x1a\0\0\0\x01\x01o\0\x02\0\0\0/a\0\0\0\0\0\0\x03\x01s\0\x01\0\0\0M\0\0\0\0\0\0\0",
        offset: 3,
        cause: MessageFault::BadVersion,
    },
    Row {
        bytes: b"l\x01\0\x02\0\0\0\0\0\0\0\0\x1a\0\0\0\x01\x01o\0\x02\0\0\0/a\0\0\0\0\0\0\x03\x01s\0\x01\0\0\0M\0\0\0\0\0\0\0",
        offset: 3,
        cause: MessageFault::BadVersion,
    },
    Row {
        bytes: b"l\x01\0\x01\0\0\0\0\0\0\0\0\x1a\0\0\0\x01\x01o\0\x02\0\0\0/a\0\0\0\0\0\0\x03\x01s\0\x01\0\0\0M\0\0\0\0\0\0\0",
        offset: 8,
        cause: MessageFault::ZeroSerial,
    },
    Row {
        bytes: b"l\x01\0\x01\xff\xff\xff\xff\0\0\0\0\x1a\0\0\0\x01\x01o\0\x02\0\0\0/a\0\0\0\0\0\0\x03\x01s\0\x01\0\0\0M\0\0\0\0\0\0\0",
        offset: 8,
        cause: MessageFault::ZeroSerial,
    },
    Row {
        bytes: b"l\x01\0\x01\xff\xff\xff\xff\x01\0\0\0\x1a\0\0\0\x01\x01o\0\x02\0\0\0/a\0\0\0\0\0\0\x03\x01s\0\x01\0\0\0M\0\0\0\0\0\0\0",
        offset: 4,
        cause: MessageFault::TooLong,
    },
    Row {
        bytes: b"l\x01\0\x01\0\0\0\0\x01\0\0\0\xff\xff\xff\xff\x01\x01o\0\x02\0\0\0/a\0\0\0\0\0\0\x03\x01s\0\x01\0\0\0M\0\0\0\0\0\0\0",
        offset: 4,
        cause: MessageFault::TooLong,
    },
    Row {
        bytes: b"l\x01\0\x01\xff\xff\xff\xff\x01\0\0\0\xff\xff\xff\xff\x01\x01o\0\x02\0\0\0/a\0\0\0\0\0\0\x03\x01s\0\x01\0\0\0M\0\0\0\0\0\0\0",
        offset: 4,
        cause: MessageFault::TooLong,
    },
    Row {
        bytes: b"l\x01\0\x01\xf1\xff\x0f\0\x01\0\0\0\0\0\0\0",
        offset: 4,
        cause: MessageFault::TooLong,
    },
    Row {
        bytes: b"l\x01\0\x01\x01\0\0\0\x01\0\0\0\xf0\xff\x0f\0",
        offset: 4,
        cause: MessageFault::TooLong,
    },
    Row {
        bytes: b"B\x01\0\x01\0\0\0\0\0\0\0\0\0\0\0\x1a\x01\x01o\0\0\0\0\x02/a\0\0\0\0\0\0\x03\x01s\0\0\0\0\x01M\0\0\0\0\0\0\0",
        offset: 8,
        cause: MessageFault::ZeroSerial,
    },
    Row {
        bytes: b"B\x01\0\x01\0\x10\0\0\0\0\0\x01\0\0\0\x1a\x01\x01o\0\0\0\0\x02/a\0\0\0\0\0\0\x03\x01s\0\0\0\0\x01M\0\0\0\0\0\0\0",
        offset: 4,
        cause: MessageFault::TooLong,
    },
];

/// What the values of little-endian fields show, and the fields themselves.
pub const LITTLE_VALUES: &[Row] = &[
    Row {
        bytes: b"l\x01\0\x01\x07\0\0\0\x01\0\0\0g\0\0\0\x01\x01o\0\x17\0\0\0/org/freedesktop/login1\0\x02\x01s\0\x1e\0\0\0org.freedesktop.login1.Manager\0\x01\x03\x01s\0\x0a\0\0\0GetSession\0\0\0\0\0\0\x08\x01g\0\x01s\0\0\x02\0\0\0c1\0",
        offset: 87,
        cause: MessageFault::BadField,
    },
    Row {
        bytes: b"l\x01\0\x01\0\0\0\0\x01\0\0\0\x1a\0\0\0\x01\x01o\0\xc8\0\0\0/a\0\0\0\0\0\0\x03\x01s\0\x01\0\0\0M\0\0\0\0\0\0\0",
        offset: 12,
        cause: MessageFault::BadField,
    },
    Row {
        bytes: b"l\x01\0\x01\0\0\0\0\x01\0\0\0,\0\0\0\x01\x01o\0\x02\0\0\0/a\0\0\0\0\0\0\x03\x01s\0\xff\xff\xff\xffM\0\0\0\0\0\0\0\x02\x01s\0\x03\0\0\0a.b\0\0\0\0\0",
        offset: 12,
        cause: MessageFault::BadField,
    },
    Row {
        bytes: b"l\x01\0\x01\0\0\0\0\x01\0\0\0\x1a\0\0\0\x01\x01o\0\x02\0\0\0aa\0\0\0\0\0\0\x03\x01s\0\x01\0\0\0M\0\0\0\0\0\0\0",
        offset: 20,
        cause: MessageFault::BadField,
    },
    Row {
        bytes: b"l\x01\0\x01\0\0\0\0\x01\0\0\0\x1a\0\0\0\x01\x01o\0\x02\0\0\0/a\0\0\0\0\0\0\x03\x01s\0\x01\0\0\0M\0\0\0\0\0\0\x01",
        offset: 47,
        cause: MessageFault::BadField,
    },
    Row {
        bytes: b"l\x01\0\x01\0\0\0\0\x01\0\0\0-\0\0\0\x01\x01o\0\x02\0\0\0/a\0\0\0\0\0\x07\x03\x01s\0\x01\0\0\0M\0\0\0\0\0\0\0\x07\x01s\0\x04\0\0\0:1.0\0\0\0\0",
        offset: 31,
        cause: MessageFault::BadField,
    },
    Row {
        bytes: b"l\x01\0\x01\0\0\0\0\x01\0\0\0(\0\0\0\x01\x01o\0\x02\0\0\0/a\0\0\0\0\0\0\x03\x01s\0\x01\0\0\0M\0\0\0\0\0\0\0\x0a\x01b\0\x02\0\0\0",
        offset: 52,
        cause: MessageFault::BadField,
    },
    Row {
        bytes: b"l\x01\0\x01\0\0\0\0\x01\0\0\0#\0\0\0\x01\x01o\0\x02\0\0\0/a\0\0\0\0\0\0\x03\x01s\0\x01\0\0\0M\0\0\0\0\0\0\0\x0a\0\0\0\0\0\0\0",
        offset: 49,
        cause: MessageFault::BadField,
    },
    Row {
        bytes: b"l\x01\0\x01\0\0\0\0\x01\0\0\00\0\0\0\x01\x01o\0\x02\0\0\0/a\0\0\0\0\0\0\x03\x01s\0\x01\0\0\0M\0\0\0\0\0\0\0\x0a\x02uu\0\0\0\0\x01\0\0\0\x01\0\0\0",
        offset: 49,
        cause: MessageFault::BadField,
    },
    Row {
        bytes: b"l\x01\0\x01\0\0\0\0\x01\0\0\0(\0\0\0\x01\x01o\0\x02\0\0\0/a\0\0\0\0\0\0\x03\x01s\0\x01\0\0\0M\0\0\0\0\0\0\0\0\x01u\0\x01\0\0\0",
        offset: 48,
        cause: MessageFault::BadField,
    },
    Row {
        bytes: b"l\x01\0\x01\0\0\0\0\x01\0\0\0+\0\0\0\x01\x01o\0\x02\0\0\0/a\0\0\0\0\0\0\x03\x01s\0\x01\0\0\0M\0\0\0\0\0\0\0\x01\x01o\0\x02\0\0\0/a\0\0\0\0\0\0",
        offset: 48,
        cause: MessageFault::BadField,
    },
    Row {
        bytes: b"l\x01\0\x01\0\0\0\0\x01\0\0\0*\0\0\0\x01\x01o\0\x02\0\0\0/a\0\0\0\0\0\0\x03\x01s\0\x01\0\0\0M\0\0\0\0\0\0\0\x03\x01s\0\x01\0\0\0M\0\0\0\0\0\0\0",
        offset: 48,
        cause: MessageFault::BadField,
    },
    Row {
        bytes: b"l\x01\0\x01\0\0\0\0\x01\0\0\0+\0\0\0\x01\x01o\0\x02\0\0\0/a\0\0\0\0\0\0\x03\x01s\0\x01\0\0\0M\0\0\0\0\0\0\0\x01\x01s\0\x02\0\0\0/a\0\0\0\0\0\0",
        offset: 48,
        cause: MessageFault::BadField,
    },
    Row {
        bytes: b"l\x01\0\x01\0\0\0\0\x01\0\0\0<\0\0\0\x01\x01o\0\x02\0\0\0/a\0\0\0\0\0\0\x03\x01s\0\x01\0\0\0M\0\0\0\0\0\0\0\x02\x01s\0\x03\0\0\0a.b\0\0\0\0\0\x02\x01s\0\x03\0\0\0a.b\0\0\0\0\0",
        offset: 64,
        cause: MessageFault::BadField,
    },
    Row {
        bytes: b"l\x01\0\x01\0\0\0\0\x01\0\0\0<\0\0\0\x01\x01o\0\x02\0\0\0/a\0\0\0\0\0\0\x03\x01s\0\x01\0\0\0M\0\0\0\0\0\0\0\x04\x01s\0\x03\0\0\0a.E\0\0\0\0\0\x04\x01s\0\x03\0\0\0a.E\0\0\0\0\0",
        offset: 64,
        cause: MessageFault::BadField,
    },
    Row {
        bytes: b"l\x01\0\x01\0\0\0\0\x01\0\0\00\0\0\0\x01\x01o\0\x02\0\0\0/a\0\0\0\0\0\0\x03\x01s\0\x01\0\0\0M\0\0\0\0\0\0\0\x05\x01u\0\x01\0\0\0\x05\x01u\0\x01\0\0\0",
        offset: 56,
        cause: MessageFault::BadField,
    },
    Row {
        bytes: b"l\x01\0\x01\0\0\0\0\x01\0\0\0=\0\0\0\x01\x01o\0\x02\0\0\0/a\0\0\0\0\0\0\x03\x01s\0\x01\0\0\0M\0\0\0\0\0\0\0\x06\x01s\0\x04\0\0\0:1.1\0\0\0\0\x06\x01s\0\x04\0\0\0:1.1\0\0\0\0",
        offset: 64,
        cause: MessageFault::BadField,
    },
    Row {
        bytes: b"l\x01\0\x01\0\0\0\0\x01\0\0\0=\0\0\0\x01\x01o\0\x02\0\0\0/a\0\0\0\0\0\0\x03\x01s\0\x01\0\0\0M\0\0\0\0\0\0\0\x07\x01s\0\x04\0\0\0:1.0\0\0\0\0\x07\x01s\0\x04\0\0\0:1.0\0\0\0\0",
        offset: 64,
        cause: MessageFault::BadField,
    },
    Row {
        bytes: b"l\x01\0\x01\0\0\0\0\x01\0\0\0.\0\0\0\x01\x01o\0\x02\0\0\0/a\0\0\0\0\0\0\x03\x01s\0\x01\0\0\0M\0\0\0\0\0\0\0\x08\x01g\0\0\0\0\0\x08\x01g\0\0\0\0\0",
        offset: 56,
        cause: MessageFault::BadField,
    },
];

/// What little-endian fields show.
pub const LITTLE_FIELDS: &[Row] = &[
    Row {
        bytes: b"l\x01\0\x01\0\0\0\0\x01\0\0\00\0\0\0\x01\x01o\0\x02\0\0\0/a\0\0\0\0\0\0\x03\x01s\0\x01\0\0\0M\0\0\0\0\0\0\0\x09\x01u\0\0\0\0\0\x09\x01u\0\0\0\0\0",
        offset: 56,
        cause: MessageFault::BadField,
    },
    Row {
        bytes: b"l\x01\0\x01\0\0\0\0\x01\0\0\0+\0\0\0\x01\x01o\0\x02\0\0\0/a\0\0\0\0\0\0\x03\x01s\0\x01\0\0\0M\0\0\0\0\0\0\0\x02\x01o\0\x02\0\0\0/a\0\0\0\0\0\0",
        offset: 48,
        cause: MessageFault::BadField,
    },
    Row {
        bytes: b"l\x01\0\x01\0\0\0\0\x01\0\0\0(\0\0\0\x01\x01o\0\x02\0\0\0/a\0\0\0\0\0\0\x03\x01s\0\x01\0\0\0M\0\0\0\0\0\0\0\x04\x01u\0\x01\0\0\0",
        offset: 48,
        cause: MessageFault::BadField,
    },
    Row {
        bytes: b"l\x01\0\x01\0\0\0\0\x01\0\0\0*\0\0\0\x01\x01o\0\x02\0\0\0/a\0\0\0\0\0\0\x03\x01s\0\x01\0\0\0M\0\0\0\0\0\0\0\x05\x01s\0\x01\0\0\01\0\0\0\0\0\0\0",
        offset: 48,
        cause: MessageFault::BadField,
    },
    Row {
        bytes: b"l\x01\0\x01\0\0\0\0\x01\0\0\0&\0\0\0\x01\x01o\0\x02\0\0\0/a\0\0\0\0\0\0\x03\x01s\0\x01\0\0\0M\0\0\0\0\0\0\0\x06\x01g\0\0\0\0\0",
        offset: 48,
        cause: MessageFault::BadField,
    },
    Row {
        bytes: b"l\x01\0\x01\0\0\0\0\x01\0\0\0(\0\0\0\x01\x01o\0\x02\0\0\0/a\0\0\0\0\0\0\x03\x01s\0\x01\0\0\0M\0\0\0\0\0\0\0\x07\x01u\0\x07\0\0\0",
        offset: 48,
        cause: MessageFault::BadField,
    },
    Row {
        bytes: b"l\x01\0\x01\0\0\0\0\x01\0\0\0*\0\0\0\x01\x01o\0\x02\0\0\0/a\0\0\0\0\0\0\x03\x01s\0\x01\0\0\0M\0\0\0\0\0\0\0\x08\x01s\0\x01\0\0\0u\0\0\0\0\0\0\0",
        offset: 48,
        cause: MessageFault::BadField,
    },
    Row {
        bytes: b"l\x01\0\x01\0\0\0\0\x01\0\0\0*\0\0\0\x01\x01o\0\x02\0\0\0/a\0\0\0\0\0\0\x03\x01s\0\x01\0\0\0M\0\0\0\0\0\0\0\x09\x01s\0\x01\0\0\00\0\0\0\0\0\0\0",
        offset: 48,
        cause: MessageFault::BadField,
    },
    Row {
        bytes: b"l\x01\0\x01\0\0\0\0\x01\0\0\0(\0\0\0\x01\x01o\0\x02\0\0\0/a\0\0\0\0\0\0\x03\x01s\0\x01\0\0\0M\0\0\0\0\0\0\0\x05\x01h\0\x01\0\0\0",
        offset: 48,
        cause: MessageFault::BadField,
    },
    Row {
        bytes: b"l\x01\0\x01\0\0\0\0\x01\0\0\0+\0\0\0\x01\x01o\0\x02\0\0\0/a\0\0\0\0\0\0\x03\x01s\0\x01\0\0\0M\0\0\0\0\0\0\0\x02\x01s\0\x02\0\0\0ab\0\0\0\0\0\0",
        offset: 48,
        cause: MessageFault::BadField,
    },
    Row {
        bytes: b"l\x01\0\x01\0\0\0\0\x01\0\0\0-\0\0\0\x01\x01o\0\x02\0\0\0/a\0\0\0\0\0\0\x03\x01s\0\x01\0\0\0M\0\0\0\0\0\0\0\x02\x01s\0\x04\0\0\0a..b\0\0\0\0",
        offset: 48,
        cause: MessageFault::BadField,
    },
    Row {
        bytes: b"l\x01\0\x01\0\0\0\0\x01\0\0\0)\0\0\0\x01\x01o\0\x02\0\0\0/a\0\0\0\0\0\0\x03\x01s\0\x01\0\0\0M\0\0\0\0\0\0\0\x02\x01s\0\0\0\0\0\0\0\0\0\0\0\0\0",
        offset: 48,
        cause: MessageFault::BadField,
    },
    Row {
        bytes: b"l\x01\0\x01\0\0\0\0\x01\0\0\0,\0\0\0\x01\x01o\0\x02\0\0\0/a\0\0\0\0\0\0\x03\x01s\0\x01\0\0\0M\0\0\0\0\0\0\0\x04\x01s\0\x03\0\0\01.b\0\0\0\0\0",
        offset: 48,
        cause: MessageFault::BadField,
    },
    Row {
        bytes: b"l\x01\0\x01\0\0\0\0\x01\0\0\0*\0\0\0\x01\x01o\0\x02\0\0\0/a\0\0\0\0\0\0\x03\x01s\0\x01\0\0\0M\0\0\0\0\0\0\0\x06\x01s\0\x01\0\0\0a\0\0\0\0\0\0\0",
        offset: 48,
        cause: MessageFault::BadField,
    },
    Row {
        bytes: b"l\x01\0\x01\0\0\0\0\x01\0\0\0.\0\0\0\x01\x01o\0\x02\0\0\0/a\0\0\0\0\0\0\x03\x01s\0\x01\0\0\0M\0\0\0\0\0\0\0\x06\x01s\0\x05\0\0\0a b.c\0\0\0",
        offset: 48,
        cause: MessageFault::BadField,
    },
    Row {
        bytes: b"l\x01\0\x01\0\0\0\0\x01\0\0\0+\0\0\0\x01\x01o\0\x02\0\0\0/a\0\0\0\0\0\0\x03\x01s\0\x01\0\0\0M\0\0\0\0\0\0\0\x07\x01s\0\x02\0\0\0:1\0\0\0\0\0\0",
        offset: 48,
        cause: MessageFault::BadField,
    },
    Row {
        bytes: b"l\x01\0\x01\0\0\0\0\x01\0\0\0\x1c\0\0\0\x01\x01o\0\x02\0\0\0/a\0\0\0\0\0\0\x03\x01s\0\x03\0\0\0a.b\0\0\0\0\0",
        offset: 32,
        cause: MessageFault::BadField,
    },
    Row {
        bytes: b"l\x01\0\x01\0\0\0\0\x01\0\0\0\x18\0\0\0\x01\x01o\0\x02\0\0\0/a\0\0\0\0\0\0\0\x01u\0\x01\0\0\0",
        offset: 32,
        cause: MessageFault::BadField,
    },
    Row {
        bytes: b"l\x04\0\x01\0\0\0\0\x01\0\0\0(\0\0\0\x01\x01o\0\x02\0\0\0/a\0\0\0\0\0\0\x01\x01o\0\x02\0\0\0/a\0\0\0\0\0\0\x09\x01u\0\x01\0\0\0",
        offset: 32,
        cause: MessageFault::BadField,
    },
];

/// What little-endian messages with good fields show.
pub const LITTLE_REST: &[Row] = &[
    Row {
        bytes: b"l\x01\0\x01\0\0\0\0\x01\0\0\0\x0b\0\0\0\x01\x01o\0\x02\0\0\0/a\0\0\0\0\0\0",
        offset: 0,
        cause: MessageFault::MissingField,
    },
    Row {
        bytes: b"l\x01\0\x01\0\0\0\0\x01\0\0\0\x1c\0\0\0\x03\x01s\0\x01\0\0\0M\0\0\0\0\0\0\0\x02\x01s\0\x03\0\0\0a.b\0\0\0\0\0",
        offset: 0,
        cause: MessageFault::MissingField,
    },
    Row {
        bytes: b"l\x01\0\x01\0\0\0\0\x01\0\0\0\0\0\0\0",
        offset: 0,
        cause: MessageFault::MissingField,
    },
    Row {
        bytes: b"l\x02\0\x01\0\0\0\0\x01\0\0\0\x0d\0\0\0\x07\x01s\0\x04\0\0\0:1.0\0\0\0\0",
        offset: 0,
        cause: MessageFault::MissingField,
    },
    Row {
        bytes: b"l\x03\0\x01\0\0\0\0\x01\0\0\0\x0c\0\0\0\x04\x01s\0\x03\0\0\0a.E\0\0\0\0\0",
        offset: 0,
        cause: MessageFault::MissingField,
    },
    Row {
        bytes: b"l\x03\0\x01\0\0\0\0\x01\0\0\0\x08\0\0\0\x05\x01u\0\x01\0\0\0",
        offset: 0,
        cause: MessageFault::MissingField,
    },
    Row {
        bytes: b"l\x04\0\x01\0\0\0\0\x01\0\0\0\x1a\0\0\0\x01\x01o\0\x02\0\0\0/a\0\0\0\0\0\0\x03\x01s\0\x01\0\0\0M\0\0\0\0\0\0\0",
        offset: 0,
        cause: MessageFault::MissingField,
    },
    Row {
        bytes: b"l\x04\0\x01\0\0\0\0\x01\0\0\0\x1c\0\0\0\x01\x01o\0\x02\0\0\0/a\0\0\0\0\0\0\x02\x01s\0\x03\0\0\0a.b\0\0\0\0\0",
        offset: 0,
        cause: MessageFault::MissingField,
    },
    Row {
        bytes: b"l\x04\0\x01\0\0\0\0\x01\0\0\0\x1a\0\0\0\x02\x01s\0\x03\0\0\0a.b\0\0\0\0\0\x03\x01s\0\x01\0\0\0M\0\0\0\0\0\0\0",
        offset: 0,
        cause: MessageFault::MissingField,
    },
    Row {
        bytes: b"l\x01\0\x01\0\0\0\0\x01\0\0\0(\0\0\0\x01\x01o\0\x02\0\0\0/a\0\0\0\0\0\0\x03\x01s\0\x01\0\0\0M\0\0\0\0\0\0\0\x09\x01u\0\x01\0\0\0",
        offset: 0,
        cause: MessageFault::FdsNotAgreed,
    },
    Row {
        bytes: b"l\x05\0\x01\0\0\0\0\x01\0\0\0\x08\0\0\0\x09\x01u\0\xff\xff\xff\xff",
        offset: 0,
        cause: MessageFault::FdsNotAgreed,
    },
    Row {
        bytes: b"l\x01\0\x01\x06\0\0\0\x01\0\0\0'\0\0\0\x01\x01o\0\x02\0\0\0/a\0\0\0\0\0\0\x03\x01s\0\x01\0\0\0M\0\0\0\0\0\0\0\x08\x01g\0\x01s\0\0\x01\0\0\0\xff\0",
        offset: 56,
        cause: MessageFault::BadBody,
    },
    Row {
        bytes: b"l\x01\0\x01\x04\0\0\0\x01\0\0\0(\0\0\0\x01\x01o\0\x02\0\0\0/a\0\0\0\0\0\0\x03\x01s\0\x01\0\0\0M\0\0\0\0\0\0\0\x08\x01g\0\x02uu\0\x01\0\0\0",
        offset: 60,
        cause: MessageFault::BadBody,
    },
    Row {
        bytes: b"l\x01\0\x01\x05\0\0\0\x01\0\0\0'\0\0\0\x01\x01o\0\x02\0\0\0/a\0\0\0\0\0\0\x03\x01s\0\x01\0\0\0M\0\0\0\0\0\0\0\x08\x01g\0\x01u\0\0\x01\0\0\0\0",
        offset: 60,
        cause: MessageFault::BadBody,
    },
    Row {
        bytes: b"l\x01\0\x01\x08\0\0\0\x01\0\0\0(\0\0\0\x01\x01o\0\x02\0\0\0/a\0\0\0\0\0\0\x03\x01s\0\x01\0\0\0M\0\0\0\0\0\0\0\x08\x01g\0\x02yu\0\x01\0\x02\0\x01\0\0\0",
        offset: 58,
        cause: MessageFault::BadBody,
    },
    Row {
        bytes: b"l\x01\0\x01\x04\0\0\0\x01\0\0\0'\0\0\0\x01\x01o\0\x02\0\0\0/a\0\0\0\0\0\0\x03\x01s\0\x01\0\0\0M\0\0\0\0\0\0\0\x08\x01g\0\x01b\0\0\x02\0\0\0",
        offset: 56,
        cause: MessageFault::BadBody,
    },
    Row {
        bytes: b"l\x01\0\x01\x01\0\0\0\x01\0\0\0\x1a\0\0\0\x01\x01o\0\x02\0\0\0/a\0\0\0\0\0\0\x03\x01s\0\x01\0\0\0M\0\0\0\0\0\0\0\0",
        offset: 48,
        cause: MessageFault::BadBody,
    },
    Row {
        bytes: b"l\x01\0\x01\x08\0\0\0\x01\0\0\0&\0\0\0\x01\x01o\0\x02\0\0\0/a\0\0\0\0\0\0\x03\x01s\0\x01\0\0\0M\0\0\0\0\0\0\0\x08\x01g\0\0\0\0\0\0\0\0\0\0\0\0\0",
        offset: 56,
        cause: MessageFault::BadBody,
    },
    Row {
        bytes: b"l\x01\0\x01\0\0\0\0\x01\0\0\0\x18\0\0\0\x01\x01o\0\x02\0\0\0/a\0\0\0\0\0\0\x09\x01u\0\x01\0\0\0",
        offset: 0,
        cause: MessageFault::MissingField,
    },
    Row {
        bytes: b"l\x01\0\x01\x01\0\0\0\x01\0\0\0(\0\0\0\x01\x01o\0\x02\0\0\0/a\0\0\0\0\0\0\x03\x01s\0\x01\0\0\0M\0\0\0\0\0\0\0\x09\x01u\0\x01\0\0\0\x01",
        offset: 0,
        cause: MessageFault::FdsNotAgreed,
    },
];

/// What the values of big-endian fields show, and the fields themselves.
pub const BIG_VALUES: &[Row] = &[
    Row {
        bytes: b"B\x01\0\x01\0\0\0\0\0\0\0\x01\0\0\0\x1a\x01\x01o\0\0\0\0\xc8/a\0\0\0\0\0\0\x03\x01s\0\0\0\0\x01M\0\0\0\0\0\0\0",
        offset: 12,
        cause: MessageFault::BadField,
    },
    Row {
        bytes: b"B\x01\0\x01\0\0\0\0\0\0\0\x01\0\0\0,\x01\x01o\0\0\0\0\x02/a\0\0\0\0\0\0\x03\x01s\0\xff\xff\xff\xffM\0\0\0\0\0\0\0\x02\x01s\0\0\0\0\x03a.b\0\0\0\0\0",
        offset: 12,
        cause: MessageFault::BadField,
    },
    Row {
        bytes: b"B\x01\0\x01\0\0\0\0\0\0\0\x01\0\0\0\x1a\x01\x01o\0\0\0\0\x02aa\0\0\0\0\0\0\x03\x01s\0\0\0\0\x01M\0\0\0\0\0\0\0",
        offset: 20,
        cause: MessageFault::BadField,
    },
    Row {
        bytes: b"B\x01\0\x01\0\0\0\0\0\0\0\x01\0\0\0\x1a\x01\x01o\0\0\0\0\x02/a\0\0\0\0\0\0\x03\x01s\0\0\0\0\x01M\0\0\0\0\0\0\x01",
        offset: 47,
        cause: MessageFault::BadField,
    },
    Row {
        bytes: b"B\x01\0\x01\0\0\0\0\0\0\0\x01\0\0\0-\x01\x01o\0\0\0\0\x02/a\0\0\0\0\0\x07\x03\x01s\0\0\0\0\x01M\0\0\0\0\0\0\0\x07\x01s\0\0\0\0\x04:1.0\0\0\0\0",
        offset: 31,
        cause: MessageFault::BadField,
    },
    Row {
        bytes: b"B\x01\0\x01\0\0\0\0\0\0\0\x01\0\0\0(\x01\x01o\0\0\0\0\x02/a\0\0\0\0\0\0\x03\x01s\0\0\0\0\x01M\0\0\0\0\0\0\0\x0a\x01b\0\0\0\0\x02",
        offset: 52,
        cause: MessageFault::BadField,
    },
    Row {
        bytes: b"B\x01\0\x01\0\0\0\0\0\0\0\x01\0\0\0#\x01\x01o\0\0\0\0\x02/a\0\0\0\0\0\0\x03\x01s\0\0\0\0\x01M\0\0\0\0\0\0\0\x0a\0\0\0\0\0\0\0",
        offset: 49,
        cause: MessageFault::BadField,
    },
    Row {
        bytes: b"B\x01\0\x01\0\0\0\0\0\0\0\x01\0\0\00\x01\x01o\0\0\0\0\x02/a\0\0\0\0\0\0\x03\x01s\0\0\0\0\x01M\0\0\0\0\0\0\0\x0a\x02uu\0\0\0\0\0\0\0\x01\0\0\0\x01",
        offset: 49,
        cause: MessageFault::BadField,
    },
    Row {
        bytes: b"B\x01\0\x01\0\0\0\0\0\0\0\x01\0\0\0(\x01\x01o\0\0\0\0\x02/a\0\0\0\0\0\0\x03\x01s\0\0\0\0\x01M\0\0\0\0\0\0\0\0\x01u\0\0\0\0\x01",
        offset: 48,
        cause: MessageFault::BadField,
    },
    Row {
        bytes: b"B\x01\0\x01\0\0\0\0\0\0\0\x01\0\0\0+\x01\x01o\0\0\0\0\x02/a\0\0\0\0\0\0\x03\x01s\0\0\0\0\x01M\0\0\0\0\0\0\0\x01\x01o\0\0\0\0\x02/a\0\0\0\0\0\0",
        offset: 48,
        cause: MessageFault::BadField,
    },
    Row {
        bytes: b"B\x01\0\x01\0\0\0\0\0\0\0\x01\0\0\0*\x01\x01o\0\0\0\0\x02/a\0\0\0\0\0\0\x03\x01s\0\0\0\0\x01M\0\0\0\0\0\0\0\x03\x01s\0\0\0\0\x01M\0\0\0\0\0\0\0",
        offset: 48,
        cause: MessageFault::BadField,
    },
    Row {
        bytes: b"B\x01\0\x01\0\0\0\0\0\0\0\x01\0\0\0+\x01\x01o\0\0\0\0\x02/a\0\0\0\0\0\0\x03\x01s\0\0\0\0\x01M\0\0\0\0\0\0\0\x01\x01s\0\0\0\0\x02/a\0\0\0\0\0\0",
        offset: 48,
        cause: MessageFault::BadField,
    },
    Row {
        bytes: b"B\x01\0\x01\0\0\0\0\0\0\0\x01\0\0\0<\x01\x01o\0\0\0\0\x02/a\0\0\0\0\0\0\x03\x01s\0\0\0\0\x01M\0\0\0\0\0\0\0\x02\x01s\0\0\0\0\x03a.b\0\0\0\0\0\x02\x01s\0\0\0\0\x03a.b\0\0\0\0\0",
        offset: 64,
        cause: MessageFault::BadField,
    },
    Row {
        bytes: b"B\x01\0\x01\0\0\0\0\0\0\0\x01\0\0\0<\x01\x01o\0\0\0\0\x02/a\0\0\0\0\0\0\x03\x01s\0\0\0\0\x01M\0\0\0\0\0\0\0\x04\x01s\0\0\0\0\x03a.E\0\0\0\0\0\x04\x01s\0\0\0\0\x03a.E\0\0\0\0\0",
        offset: 64,
        cause: MessageFault::BadField,
    },
    Row {
        bytes: b"B\x01\0\x01\0\0\0\0\0\0\0\x01\0\0\00\x01\x01o\0\0\0\0\x02/a\0\0\0\0\0\0\x03\x01s\0\0\0\0\x01M\0\0\0\0\0\0\0\x05\x01u\0\0\0\0\x01\x05\x01u\0\0\0\0\x01",
        offset: 56,
        cause: MessageFault::BadField,
    },
    Row {
        bytes: b"B\x01\0\x01\0\0\0\0\0\0\0\x01\0\0\0=\x01\x01o\0\0\0\0\x02/a\0\0\0\0\0\0\x03\x01s\0\0\0\0\x01M\0\0\0\0\0\0\0\x06\x01s\0\0\0\0\x04:1.1\0\0\0\0\x06\x01s\0\0\0\0\x04:1.1\0\0\0\0",
        offset: 64,
        cause: MessageFault::BadField,
    },
    Row {
        bytes: b"B\x01\0\x01\0\0\0\0\0\0\0\x01\0\0\0=\x01\x01o\0\0\0\0\x02/a\0\0\0\0\0\0\x03\x01s\0\0\0\0\x01M\0\0\0\0\0\0\0\x07\x01s\0\0\0\0\x04:1.0\0\0\0\0\x07\x01s\0\0\0\0\x04:1.0\0\0\0\0",
        offset: 64,
        cause: MessageFault::BadField,
    },
    Row {
        bytes: b"B\x01\0\x01\0\0\0\0\0\0\0\x01\0\0\0.\x01\x01o\0\0\0\0\x02/a\0\0\0\0\0\0\x03\x01s\0\0\0\0\x01M\0\0\0\0\0\0\0\x08\x01g\0\0\0\0\0\x08\x01g\0\0\0\0\0",
        offset: 56,
        cause: MessageFault::BadField,
    },
];

/// What big-endian fields show.
pub const BIG_FIELDS: &[Row] = &[
    Row {
        bytes: b"B\x01\0\x01\0\0\0\0\0\0\0\x01\0\0\00\x01\x01o\0\0\0\0\x02/a\0\0\0\0\0\0\x03\x01s\0\0\0\0\x01M\0\0\0\0\0\0\0\x09\x01u\0\0\0\0\0\x09\x01u\0\0\0\0\0",
        offset: 56,
        cause: MessageFault::BadField,
    },
    Row {
        bytes: b"B\x01\0\x01\0\0\0\0\0\0\0\x01\0\0\0+\x01\x01o\0\0\0\0\x02/a\0\0\0\0\0\0\x03\x01s\0\0\0\0\x01M\0\0\0\0\0\0\0\x02\x01o\0\0\0\0\x02/a\0\0\0\0\0\0",
        offset: 48,
        cause: MessageFault::BadField,
    },
    Row {
        bytes: b"B\x01\0\x01\0\0\0\0\0\0\0\x01\0\0\0(\x01\x01o\0\0\0\0\x02/a\0\0\0\0\0\0\x03\x01s\0\0\0\0\x01M\0\0\0\0\0\0\0\x04\x01u\0\0\0\0\x01",
        offset: 48,
        cause: MessageFault::BadField,
    },
    Row {
        bytes: b"B\x01\0\x01\0\0\0\0\0\0\0\x01\0\0\0*\x01\x01o\0\0\0\0\x02/a\0\0\0\0\0\0\x03\x01s\0\0\0\0\x01M\0\0\0\0\0\0\0\x05\x01s\0\0\0\0\x011\0\0\0\0\0\0\0",
        offset: 48,
        cause: MessageFault::BadField,
    },
    Row {
        bytes: b"B\x01\0\x01\0\0\0\0\0\0\0\x01\0\0\0&\x01\x01o\0\0\0\0\x02/a\0\0\0\0\0\0\x03\x01s\0\0\0\0\x01M\0\0\0\0\0\0\0\x06\x01g\0\0\0\0\0",
        offset: 48,
        cause: MessageFault::BadField,
    },
    Row {
        bytes: b"B\x01\0\x01\0\0\0\0\0\0\0\x01\0\0\0(\x01\x01o\0\0\0\0\x02/a\0\0\0\0\0\0\x03\x01s\0\0\0\0\x01M\0\0\0\0\0\0\0\x07\x01u\0\0\0\0\x07",
        offset: 48,
        cause: MessageFault::BadField,
    },
    Row {
        bytes: b"B\x01\0\x01\0\0\0\0\0\0\0\x01\0\0\0*\x01\x01o\0\0\0\0\x02/a\0\0\0\0\0\0\x03\x01s\0\0\0\0\x01M\0\0\0\0\0\0\0\x08\x01s\0\0\0\0\x01u\0\0\0\0\0\0\0",
        offset: 48,
        cause: MessageFault::BadField,
    },
    Row {
        bytes: b"B\x01\0\x01\0\0\0\0\0\0\0\x01\0\0\0*\x01\x01o\0\0\0\0\x02/a\0\0\0\0\0\0\x03\x01s\0\0\0\0\x01M\0\0\0\0\0\0\0\x09\x01s\0\0\0\0\x010\0\0\0\0\0\0\0",
        offset: 48,
        cause: MessageFault::BadField,
    },
    Row {
        bytes: b"B\x01\0\x01\0\0\0\0\0\0\0\x01\0\0\0(\x01\x01o\0\0\0\0\x02/a\0\0\0\0\0\0\x03\x01s\0\0\0\0\x01M\0\0\0\0\0\0\0\x05\x01h\0\0\0\0\x01",
        offset: 48,
        cause: MessageFault::BadField,
    },
    Row {
        bytes: b"B\x01\0\x01\0\0\0\0\0\0\0\x01\0\0\0+\x01\x01o\0\0\0\0\x02/a\0\0\0\0\0\0\x03\x01s\0\0\0\0\x01M\0\0\0\0\0\0\0\x02\x01s\0\0\0\0\x02ab\0\0\0\0\0\0",
        offset: 48,
        cause: MessageFault::BadField,
    },
    Row {
        bytes: b"B\x01\0\x01\0\0\0\0\0\0\0\x01\0\0\0-\x01\x01o\0\0\0\0\x02/a\0\0\0\0\0\0\x03\x01s\0\0\0\0\x01M\0\0\0\0\0\0\0\x02\x01s\0\0\0\0\x04a..b\0\0\0\0",
        offset: 48,
        cause: MessageFault::BadField,
    },
    Row {
        bytes: b"B\x01\0\x01\0\0\0\0\0\0\0\x01\0\0\0)\x01\x01o\0\0\0\0\x02/a\0\0\0\0\0\0\x03\x01s\0\0\0\0\x01M\0\0\0\0\0\0\0\x02\x01s\0\0\0\0\0\0\0\0\0\0\0\0\0",
        offset: 48,
        cause: MessageFault::BadField,
    },
    Row {
        bytes: b"B\x01\0\x01\0\0\0\0\0\0\0\x01\0\0\0,\x01\x01o\0\0\0\0\x02/a\0\0\0\0\0\0\x03\x01s\0\0\0\0\x01M\0\0\0\0\0\0\0\x04\x01s\0\0\0\0\x031.b\0\0\0\0\0",
        offset: 48,
        cause: MessageFault::BadField,
    },
    Row {
        bytes: b"B\x01\0\x01\0\0\0\0\0\0\0\x01\0\0\0*\x01\x01o\0\0\0\0\x02/a\0\0\0\0\0\0\x03\x01s\0\0\0\0\x01M\0\0\0\0\0\0\0\x06\x01s\0\0\0\0\x01a\0\0\0\0\0\0\0",
        offset: 48,
        cause: MessageFault::BadField,
    },
    Row {
        bytes: b"B\x01\0\x01\0\0\0\0\0\0\0\x01\0\0\0.\x01\x01o\0\0\0\0\x02/a\0\0\0\0\0\0\x03\x01s\0\0\0\0\x01M\0\0\0\0\0\0\0\x06\x01s\0\0\0\0\x05a b.c\0\0\0",
        offset: 48,
        cause: MessageFault::BadField,
    },
    Row {
        bytes: b"B\x01\0\x01\0\0\0\0\0\0\0\x01\0\0\0+\x01\x01o\0\0\0\0\x02/a\0\0\0\0\0\0\x03\x01s\0\0\0\0\x01M\0\0\0\0\0\0\0\x07\x01s\0\0\0\0\x02:1\0\0\0\0\0\0",
        offset: 48,
        cause: MessageFault::BadField,
    },
    Row {
        bytes: b"B\x01\0\x01\0\0\0\0\0\0\0\x01\0\0\0\x1c\x01\x01o\0\0\0\0\x02/a\0\0\0\0\0\0\x03\x01s\0\0\0\0\x03a.b\0\0\0\0\0",
        offset: 32,
        cause: MessageFault::BadField,
    },
    Row {
        bytes: b"B\x01\0\x01\0\0\0\0\0\0\0\x01\0\0\0\x18\x01\x01o\0\0\0\0\x02/a\0\0\0\0\0\0\0\x01u\0\0\0\0\x01",
        offset: 32,
        cause: MessageFault::BadField,
    },
    Row {
        bytes: b"B\x04\0\x01\0\0\0\0\0\0\0\x01\0\0\0(\x01\x01o\0\0\0\0\x02/a\0\0\0\0\0\0\x01\x01o\0\0\0\0\x02/a\0\0\0\0\0\0\x09\x01u\0\0\0\0\x01",
        offset: 32,
        cause: MessageFault::BadField,
    },
];

/// What big-endian messages with good fields show.
pub const BIG_REST: &[Row] = &[
    Row {
        bytes: b"B\x01\0\x01\0\0\0\0\0\0\0\x01\0\0\0\x0b\x01\x01o\0\0\0\0\x02/a\0\0\0\0\0\0",
        offset: 0,
        cause: MessageFault::MissingField,
    },
    Row {
        bytes: b"B\x01\0\x01\0\0\0\0\0\0\0\x01\0\0\0\x1c\x03\x01s\0\0\0\0\x01M\0\0\0\0\0\0\0\x02\x01s\0\0\0\0\x03a.b\0\0\0\0\0",
        offset: 0,
        cause: MessageFault::MissingField,
    },
    Row {
        bytes: b"B\x01\0\x01\0\0\0\0\0\0\0\x01\0\0\0\0",
        offset: 0,
        cause: MessageFault::MissingField,
    },
    Row {
        bytes: b"B\x02\0\x01\0\0\0\0\0\0\0\x01\0\0\0\x0d\x07\x01s\0\0\0\0\x04:1.0\0\0\0\0",
        offset: 0,
        cause: MessageFault::MissingField,
    },
    Row {
        bytes: b"B\x03\0\x01\0\0\0\0\0\0\0\x01\0\0\0\x0c\x04\x01s\0\0\0\0\x03a.E\0\0\0\0\0",
        offset: 0,
        cause: MessageFault::MissingField,
    },
    Row {
        bytes: b"B\x03\0\x01\0\0\0\0\0\0\0\x01\0\0\0\x08\x05\x01u\0\0\0\0\x01",
        offset: 0,
        cause: MessageFault::MissingField,
    },
    Row {
        bytes: b"B\x04\0\x01\0\0\0\0\0\0\0\x01\0\0\0\x1a\x01\x01o\0\0\0\0\x02/a\0\0\0\0\0\0\x03\x01s\0\0\0\0\x01M\0\0\0\0\0\0\0",
        offset: 0,
        cause: MessageFault::MissingField,
    },
    Row {
        bytes: b"B\x04\0\x01\0\0\0\0\0\0\0\x01\0\0\0\x1c\x01\x01o\0\0\0\0\x02/a\0\0\0\0\0\0\x02\x01s\0\0\0\0\x03a.b\0\0\0\0\0",
        offset: 0,
        cause: MessageFault::MissingField,
    },
    Row {
        bytes: b"B\x04\0\x01\0\0\0\0\0\0\0\x01\0\0\0\x1a\x02\x01s\0\0\0\0\x03a.b\0\0\0\0\0\x03\x01s\0\0\0\0\x01M\0\0\0\0\0\0\0",
        offset: 0,
        cause: MessageFault::MissingField,
    },
    Row {
        bytes: b"B\x01\0\x01\0\0\0\0\0\0\0\x01\0\0\0(\x01\x01o\0\0\0\0\x02/a\0\0\0\0\0\0\x03\x01s\0\0\0\0\x01M\0\0\0\0\0\0\0\x09\x01u\0\0\0\0\x01",
        offset: 0,
        cause: MessageFault::FdsNotAgreed,
    },
    Row {
        bytes: b"B\x05\0\x01\0\0\0\0\0\0\0\x01\0\0\0\x08\x09\x01u\0\xff\xff\xff\xff",
        offset: 0,
        cause: MessageFault::FdsNotAgreed,
    },
    Row {
        bytes: b"B\x01\0\x01\0\0\0\x06\0\0\0\x01\0\0\0'\x01\x01o\0\0\0\0\x02/a\0\0\0\0\0\0\x03\x01s\0\0\0\0\x01M\0\0\0\0\0\0\0\x08\x01g\0\x01s\0\0\0\0\0\x01\xff\0",
        offset: 56,
        cause: MessageFault::BadBody,
    },
    Row {
        bytes: b"B\x01\0\x01\0\0\0\x04\0\0\0\x01\0\0\0(\x01\x01o\0\0\0\0\x02/a\0\0\0\0\0\0\x03\x01s\0\0\0\0\x01M\0\0\0\0\0\0\0\x08\x01g\0\x02uu\0\0\0\0\x01",
        offset: 60,
        cause: MessageFault::BadBody,
    },
    Row {
        bytes: b"B\x01\0\x01\0\0\0\x05\0\0\0\x01\0\0\0'\x01\x01o\0\0\0\0\x02/a\0\0\0\0\0\0\x03\x01s\0\0\0\0\x01M\0\0\0\0\0\0\0\x08\x01g\0\x01u\0\0\0\0\0\x01\0",
        offset: 60,
        cause: MessageFault::BadBody,
    },
    Row {
        bytes: b"B\x01\0\x01\0\0\0\x08\0\0\0\x01\0\0\0(\x01\x01o\0\0\0\0\x02/a\0\0\0\0\0\0\x03\x01s\0\0\0\0\x01M\0\0\0\0\0\0\0\x08\x01g\0\x02yu\0\x01\0\x02\0\0\0\0\x01",
        offset: 58,
        cause: MessageFault::BadBody,
    },
    Row {
        bytes: b"B\x01\0\x01\0\0\0\x04\0\0\0\x01\0\0\0'\x01\x01o\0\0\0\0\x02/a\0\0\0\0\0\0\x03\x01s\0\0\0\0\x01M\0\0\0\0\0\0\0\x08\x01g\0\x01b\0\0\0\0\0\x02",
        offset: 56,
        cause: MessageFault::BadBody,
    },
    Row {
        bytes: b"B\x01\0\x01\0\0\0\x01\0\0\0\x01\0\0\0\x1a\x01\x01o\0\0\0\0\x02/a\0\0\0\0\0\0\x03\x01s\0\0\0\0\x01M\0\0\0\0\0\0\0\0",
        offset: 48,
        cause: MessageFault::BadBody,
    },
    Row {
        bytes: b"B\x01\0\x01\0\0\0\x08\0\0\0\x01\0\0\0&\x01\x01o\0\0\0\0\x02/a\0\0\0\0\0\0\x03\x01s\0\0\0\0\x01M\0\0\0\0\0\0\0\x08\x01g\0\0\0\0\0\0\0\0\0\0\0\0\0",
        offset: 56,
        cause: MessageFault::BadBody,
    },
    Row {
        bytes: b"B\x01\0\x01\0\0\0\0\0\0\0\x01\0\0\0\x18\x01\x01o\0\0\0\0\x02/a\0\0\0\0\0\0\x09\x01u\0\0\0\0\x01",
        offset: 0,
        cause: MessageFault::MissingField,
    },
    Row {
        bytes: b"B\x01\0\x01\0\0\0\x01\0\0\0\x01\0\0\0(\x01\x01o\0\0\0\0\x02/a\0\0\0\0\0\0\x03\x01s\0\0\0\0\x01M\0\0\0\0\0\0\0\x09\x01u\0\0\0\0\x01\x01",
        offset: 0,
        cause: MessageFault::FdsNotAgreed,
    },
];
