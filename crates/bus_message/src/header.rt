// The first 16 bytes of a message.

ghost use Rattle.std.specs.Prelude.{◌≡◌, ◌≤◌, ◌<◌, length, IfOk};
ghost use Rattle.bus_message.specs.inner.Faults.{Gives};
ghost use Rattle.bus_message.specs.Headers.{order_of, stated, header_of, fields_end, body_start, size, most_cut};
ghost use Rattle.bus_message.specs.inner.Headers.{HasShortLengths};

use crate::fault::{MessageFault, Refusal, refuse};
use bus_value::{Order, pad_size, read_u32};

/// How many bytes tell how long a message is.
pub(crate) const SIZE: usize = 16;

/// The longest message, in bytes.
const MOST_BYTES: usize = 1048576;

/// What the first 16 bytes say.
#[derive(Clone, Copy)]
pub struct Header {
    pub order: Order,
    pub kind: u8,
    pub flags: u8,
    pub serial: u32,
    /// How many bytes the fields have behind their length.
    pub fields: usize,
    /// How many bytes the body has.
    pub body: usize,
}

impl Header {
    /// The offset behind the fields.
    pub fn fields_end(&self) -> usize
        requires { HasShortLengths self.now }
        ensures { result ≡ fields_end self.now }
    {
        SIZE + self.fields
    }

    /// The offset of the body.
    pub fn body_start(&self) -> usize
        requires { HasShortLengths self.now }
        ensures { result ≡ body_start self.now }
    {
        let end = self.fields_end();
        end + pad_size(0, end, 8)
    }

    /// How many bytes the message has.
    pub fn size(&self) -> usize
        requires { HasShortLengths self.now }
        ensures { result ≡ size self.now }
    {
        self.body_start() + self.body
    }
}

/// The order of bytes that a letter names.
fn order_of(letter: u8) -> Option<Order>
    ensures { result ≡ order_of letter }
{
    match letter {
        b'l' => Some(Order::Little),
        b'B' => Some(Order::Big),
        _ => None,
    }
}

/// What the bytes say in an order.
fn stated(bytes: &[u8], order: Order) -> Header
    requires { length bytes.now ≡ 16 }
    ensures value { result ≡ stated bytes.now order }
    ensures room { HasShortLengths result }
{
    Header {
        order,
        kind: bytes[1],
        flags: bytes[2],
        serial: read_u32(order, &bytes[8..]),
        fields: read_u32(order, &bytes[12..]) as usize,
        body: read_u32(order, &bytes[4..]) as usize,
    }
}

/// What the first 16 bytes of a message say.
#[tactic(auto, unfolding(crate::specs::Headers::header_of))]
pub(crate) fn read_header(bytes: &[u8]) -> Result<Header, Refusal>
    requires { length bytes.now ≡ 16 }
    ensures value { Gives result (header_of bytes.now) }
    ensures small { IfOk result (λ header. size header ≤ most_cut) }
{
    let Some(order) = order_of(bytes[0]) else {
        return refuse(MessageFault::BadOrder, 0);
    };
    let header = stated(bytes, order);
    if header.kind == 0 {
        return refuse(MessageFault::BadKind, 1);
    }
    if bytes[3] != 1 {
        return refuse(MessageFault::BadVersion, 3);
    }
    if header.serial == 0 {
        return refuse(MessageFault::ZeroSerial, 8);
    }
    if MOST_BYTES < header.size() {
        return refuse(MessageFault::TooLong, 4);
    }
    Ok(header)
}
