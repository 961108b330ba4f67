// Bytes of values of basic types and of structs, as jeepney wrote them.

use bus_names::Basic;
use bus_value::Order;

/// A type with a number, and the bytes that spell it from an offset on.
pub(super) type Number = (Basic, i64, Order, usize, &'static [u8]);

/// The same with a text.
pub(super) type Text = (Basic, &'static [u8], Order, usize, &'static [u8]);

/// Bytes that spell a struct of a byte and a number, 1 and 2, from an offset on.
pub(super) type Struct = (Order, usize, &'static [u8]);

/// Numbers of one byte and of two, and booleans.
pub(super) const SMALL_NUMBERS: [Number; 24] = [
    (Basic::Byte, 7, Order::Little, 0, b"\x07"),
    (Basic::Byte, 7, Order::Little, 5, b"\x07"),
    (Basic::Byte, 7, Order::Big, 0, b"\x07"),
    (Basic::Byte, 7, Order::Big, 5, b"\x07"),
    (Basic::Byte, 255, Order::Little, 0, b"\xff"),
    (Basic::Byte, 255, Order::Little, 5, b"\xff"),
    (Basic::Byte, 255, Order::Big, 0, b"\xff"),
    (Basic::Byte, 255, Order::Big, 5, b"\xff"),
    (Basic::Bool, 0, Order::Little, 0, b"\x00\x00\x00\x00"),
    (
        Basic::Bool,
        0,
        Order::Little,
        5,
        b"\x00\x00\x00\x00\x00\x00\x00",
    ),
    (Basic::Bool, 0, Order::Big, 0, b"\x00\x00\x00\x00"),
    (
        Basic::Bool,
        0,
        Order::Big,
        5,
        b"\x00\x00\x00\x00\x00\x00\x00",
    ),
    (Basic::Bool, 1, Order::Little, 0, b"\x01\x00\x00\x00"),
    (
        Basic::Bool,
        1,
        Order::Little,
        5,
        b"\x00\x00\x00\x01\x00\x00\x00",
    ),
    (Basic::Bool, 1, Order::Big, 0, b"\x00\x00\x00\x01"),
    (
        Basic::Bool,
        1,
        Order::Big,
        5,
        b"\x00\x00\x00\x00\x00\x00\x01",
    ),
    (Basic::I16, -2, Order::Little, 0, b"\xfe\xff"),
    (Basic::I16, -2, Order::Little, 5, b"\x00\xfe\xff"),
    (Basic::I16, -2, Order::Big, 0, b"\xff\xfe"),
    (Basic::I16, -2, Order::Big, 5, b"\x00\xff\xfe"),
    (Basic::U16, 515, Order::Little, 0, b"\x03\x02"),
    (Basic::U16, 515, Order::Little, 5, b"\x00\x03\x02"),
    (Basic::U16, 515, Order::Big, 0, b"\x02\x03"),
    (Basic::U16, 515, Order::Big, 5, b"\x00\x02\x03"),
];

/// Numbers of four bytes and of eight.
pub(super) const NUMBERS: [Number; 18] = [
    (Basic::I32, -70000, Order::Little, 0, b"\x90\xee\xfe\xff"),
    (
        Basic::I32,
        -70000,
        Order::Little,
        5,
        b"\x00\x00\x00\x90\xee\xfe\xff",
    ),
    (Basic::I32, -70000, Order::Big, 0, b"\xff\xfe\xee\x90"),
    (
        Basic::I32,
        -70000,
        Order::Big,
        5,
        b"\x00\x00\x00\xff\xfe\xee\x90",
    ),
    (Basic::I32, 5, Order::Little, 2, b"\x00\x00\x05\x00\x00\x00"),
    (Basic::I32, 5, Order::Big, 2, b"\x00\x00\x00\x00\x00\x05"),
    (Basic::U32, 2, Order::Little, 0, b"\x02\x00\x00\x00"),
    (
        Basic::U32,
        2,
        Order::Little,
        5,
        b"\x00\x00\x00\x02\x00\x00\x00",
    ),
    (Basic::U32, 2, Order::Big, 0, b"\x00\x00\x00\x02"),
    (
        Basic::U32,
        2,
        Order::Big,
        5,
        b"\x00\x00\x00\x00\x00\x00\x02",
    ),
    (
        Basic::I64,
        -5,
        Order::Little,
        0,
        b"\xfb\xff\xff\xff\xff\xff\xff\xff",
    ),
    (
        Basic::I64,
        -5,
        Order::Little,
        5,
        b"\x00\x00\x00\xfb\xff\xff\xff\xff\xff\xff\xff",
    ),
    (
        Basic::I64,
        -5,
        Order::Big,
        0,
        b"\xff\xff\xff\xff\xff\xff\xff\xfb",
    ),
    (
        Basic::I64,
        -5,
        Order::Big,
        5,
        b"\x00\x00\x00\xff\xff\xff\xff\xff\xff\xff\xfb",
    ),
    (
        Basic::U64,
        258,
        Order::Little,
        0,
        b"\x02\x01\x00\x00\x00\x00\x00\x00",
    ),
    (
        Basic::U64,
        258,
        Order::Little,
        5,
        b"\x00\x00\x00\x02\x01\x00\x00\x00\x00\x00\x00",
    ),
    (
        Basic::U64,
        258,
        Order::Big,
        0,
        b"\x00\x00\x00\x00\x00\x00\x01\x02",
    ),
    (
        Basic::U64,
        258,
        Order::Big,
        5,
        b"\x00\x00\x00\x00\x00\x00\x00\x00\x00\x01\x02",
    ),
];

pub(super) const TEXTS: [Text; 24] = [
    (Basic::Str, b"", Order::Little, 0, b"\0\0\0\0\0"),
    (Basic::Str, b"", Order::Little, 3, b"\0\0\0\0\0\0"),
    (Basic::Str, b"", Order::Big, 0, b"\0\0\0\0\0"),
    (Basic::Str, b"", Order::Big, 3, b"\0\0\0\0\0\0"),
    (Basic::Str, b"foo", Order::Little, 0, b"\x03\0\0\0foo\0"),
    (Basic::Str, b"foo", Order::Little, 3, b"\0\x03\0\0\0foo\0"),
    (Basic::Str, b"foo", Order::Big, 0, b"\0\0\0\x03foo\0"),
    (Basic::Str, b"foo", Order::Big, 3, b"\0\0\0\0\x03foo\0"),
    (Basic::Path, b"/", Order::Little, 0, b"\x01\0\0\0/\0"),
    (Basic::Path, b"/", Order::Little, 3, b"\0\x01\0\0\0/\0"),
    (Basic::Path, b"/", Order::Big, 0, b"\0\0\0\x01/\0"),
    (Basic::Path, b"/", Order::Big, 3, b"\0\0\0\0\x01/\0"),
    (
        Basic::Path,
        b"/org/freedesktop/login1",
        Order::Little,
        0,
        b"\x17\0\0\0/org/freedesktop/login1\0",
    ),
    (
        Basic::Path,
        b"/org/freedesktop/login1",
        Order::Little,
        3,
        b"\0\x17\0\0\0/org/freedesktop/login1\0",
    ),
    (
        Basic::Path,
        b"/org/freedesktop/login1",
        Order::Big,
        0,
        b"\0\0\0\x17/org/freedesktop/login1\0",
    ),
    (
        Basic::Path,
        b"/org/freedesktop/login1",
        Order::Big,
        3,
        b"\0\0\0\0\x17/org/freedesktop/login1\0",
    ),
    (Basic::Sig, b"", Order::Little, 0, b"\0\0"),
    (Basic::Sig, b"", Order::Little, 3, b"\0\0"),
    (Basic::Sig, b"", Order::Big, 0, b"\0\0"),
    (Basic::Sig, b"", Order::Big, 3, b"\0\0"),
    (Basic::Sig, b"a(yv)", Order::Little, 0, b"\x05a(yv)\0"),
    (Basic::Sig, b"a(yv)", Order::Little, 3, b"\x05a(yv)\0"),
    (Basic::Sig, b"a(yv)", Order::Big, 0, b"\x05a(yv)\0"),
    (Basic::Sig, b"a(yv)", Order::Big, 3, b"\x05a(yv)\0"),
];

pub(super) const STRUCTS: [Struct; 8] = [
    (Order::Little, 0, b"\x01\x00\x00\x00\x02\x00\x00\x00"),
    (
        Order::Little,
        1,
        b"\x00\x00\x00\x00\x00\x00\x00\x01\x00\x00\x00\x02\x00\x00\x00",
    ),
    (
        Order::Little,
        4,
        b"\x00\x00\x00\x00\x01\x00\x00\x00\x02\x00\x00\x00",
    ),
    (Order::Little, 8, b"\x01\x00\x00\x00\x02\x00\x00\x00"),
    (Order::Big, 0, b"\x01\x00\x00\x00\x00\x00\x00\x02"),
    (
        Order::Big,
        1,
        b"\x00\x00\x00\x00\x00\x00\x00\x01\x00\x00\x00\x00\x00\x00\x02",
    ),
    (
        Order::Big,
        4,
        b"\x00\x00\x00\x00\x01\x00\x00\x00\x00\x00\x00\x02",
    ),
    (Order::Big, 8, b"\x01\x00\x00\x00\x00\x00\x00\x02"),
];
