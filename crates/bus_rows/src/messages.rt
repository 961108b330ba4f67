// What no clause can show: that the calls succeed where there is memory, and what they answer to bytes of other
// programs.

ghost use Rattle.std.specs.Prelude.{◌≡◌, [], None, Some};

mod accepted;
mod clients;
mod faults;
mod header_fields;
mod limits;

use accepted::{BY_HAND, GLIB_BODIES, GLIB_CALLS, GLIB_SIGNALS, JEEPNEY};
use bus_message::{Cut, Cutter, Malformed, Message, MessageFault, encode};
use bus_names::{BusName, Interface, Member, ObjectPath};
use bus_value::{Order, Values};
use clients::{SENT, Sent};
use faults::{
    BIG_FIELDS, BIG_REST, BIG_VALUES, HEADERS, LITTLE_FIELDS, LITTLE_REST, LITTLE_VALUES, Row,
};
use header_fields::are_read;
use limits::LIMITS;
use login_base::{Items, NoMemory};
use std::alloc::Global;
use std::slice;

/// A call of GetSession with the text c1.
const GET_SESSION: &[u8] = b"l\x01\0\x01\x07\0\0\0\x01\0\0\0\x67\0\0\0\
\x01\x01o\0\x17\0\0\0/org/freedesktop/login1\0\
\x02\x01s\0\x1e\0\0\0org.freedesktop.login1.Manager\0\0\
\x03\x01s\0\x0a\0\0\0GetSession\0\0\0\0\0\0\
\x08\x01g\0\x01s\0\0\x02\0\0\0c1\0";

/// The same, with the highest byte of numbers first.
const GET_SESSION_BIG: &[u8] =
    b"B\x01\0\x01\0\0\0\x07\0\0\0\x01\0\0\0g\x01\x01o\0\0\0\0\x17/org/freedesktop/login1\0\x02\x01s\0\0\0\0\x1eorg.freedesktop.login1.Manager\0\0\x03\x01s\0\0\0\0\x0aGetSession\0\0\0\0\0\0\x08\x01g\0\x01s\0\0\0\0\0\x02c1\0";

/// Whether the next bytes give no message, and show this.
fn shows(
    alloc: Global,
    cutter: &mut Cutter,
    bytes: &[u8],
    wanted: Option<Malformed>,
) -> Result<bool, NoMemory> {
    let cut = cutter.feed(alloc, bytes)?;
    Ok(cut.messages.is_empty() && cut.malformed == wanted)
}

/// Whether the malformed message behind a whole one is shown with its byte of this number, counted from 1, and from
/// then on.
fn is_shown(alloc: Global, row: &Row, last: usize) -> Result<bool, NoMemory> {
    let mut cutter = Cutter::new(alloc);
    if cutter.feed(alloc, GET_SESSION)?.messages.len() != 1 {
        return Ok(false);
    }
    let malformed = Malformed {
        offset: row.offset.saturating_add(GET_SESSION.len() as u64),
        cause: row.cause,
    };
    for (index, byte) in row.bytes.iter().enumerate() {
        let wanted = if index.saturating_add(1) < last {
            None
        } else {
            Some(malformed)
        };
        if !shows(alloc, &mut cutter, slice::from_ref(byte), wanted)? {
            return Ok(false);
        }
    }
    shows(alloc, &mut cutter, GET_SESSION, Some(malformed))
}

/// Whether each malformed message is shown with its last byte.
fn are_shown(alloc: Global, rows: &[Row]) -> Result<bool, NoMemory> {
    for row in rows {
        if !is_shown(alloc, row, row.bytes.len())? {
            return Ok(false);
        }
    }
    Ok(true)
}

/// Whether a path is this text; none is the empty one.
fn is_path(path: &Option<ObjectPath>, text: &[u8]) -> bool {
    match path {
        Some(path) => path.as_slice() == text,
        None => text.is_empty(),
    }
}

/// The same of an interface or an error.
fn is_interface(name: &Option<Interface>, text: &[u8]) -> bool {
    match name {
        Some(name) => name.as_slice() == text,
        None => text.is_empty(),
    }
}

/// The same of a member.
fn is_member(name: &Option<Member>, text: &[u8]) -> bool {
    match name {
        Some(name) => name.as_slice() == text,
        None => text.is_empty(),
    }
}

/// The same of a connection.
fn is_bus_name(name: &Option<BusName>, text: &[u8]) -> bool {
    match name {
        Some(name) => name.as_slice() == text,
        None => text.is_empty(),
    }
}

/// Whether the first bytes say what was sent.
fn is_header(message: &Message, sent: &Sent) -> bool {
    (message.order == Order::Big) == sent.bytes.starts_with(b"B")
        && message.kind == sent.kind
        && message.flags == sent.flags
        && message.serial == sent.serial
}

/// Whether the target is what was sent.
fn is_target(message: &Message, sent: &Sent) -> bool {
    is_path(&message.path, sent.path)
        && is_interface(&message.interface, sent.interface)
        && is_member(&message.member, sent.member)
}

/// Whether the other fields are what was sent.
fn are_fields(message: &Message, sent: &Sent) -> bool {
    is_interface(&message.error, sent.error)
        && message.reply_to == sent.reply_to
        && is_bus_name(&message.destination, sent.destination)
        && is_bus_name(&message.sender, sent.sender)
}

/// Whether the values are of these types.
fn are_typed(alloc: Global, values: &Values, types: &[u8]) -> Result<bool, NoMemory> {
    match values.read_types() {
        Some(read) => Ok(read.text(alloc)?.as_slice() == types),
        None => Ok(false),
    }
}

/// Whether the message says what was sent.
fn is_sent(alloc: Global, message: &Message, sent: &Sent) -> Result<bool, NoMemory> {
    Ok(
        is_header(message, sent)
            && is_target(message, sent)
            && are_fields(message, sent)
            && are_typed(alloc, &message.body, sent.types)?,
    )
}

/// Whether the bytes are one message, which says what was sent.
fn is_whole(alloc: Global, sent: &Sent) -> Result<bool, NoMemory> {
    let mut cutter = Cutter::new(alloc);
    let cut = cutter.feed(alloc, sent.bytes)?;
    match cut.messages.as_slice() {
        [message] => Ok(cut.malformed.is_none() && is_sent(alloc, message, sent)?),
        _ => Ok(false),
    }
}

/// How many of the messages that end at these places are whole with so many bytes.
fn count_whole(ends: &[usize], bytes: usize) -> usize {
    let mut count: usize = 0;
    for end in ends {
        if *end <= bytes {
            count = count.saturating_add(1);
        }
    }
    count
}

/// Whether a text that is cut at this place gives the messages that end at these places as soon as they are whole.
fn is_cut_in_two(alloc: Global, text: &[u8], at: usize, ends: &[usize]) -> Result<bool, NoMemory> {
    let Some((front, back)) = text.split_at_checked(at) else {
        return Ok(false);
    };
    let mut cutter = Cutter::new(alloc);
    let first = cutter.feed(alloc, front)?;
    let second = cutter.feed(alloc, back)?;
    let whole = count_whole(ends, at);
    Ok(
        first.malformed.is_none()
            && second.malformed.is_none()
            && first.messages.len() == whole
            && whole.saturating_add(second.messages.len()) == ends.len(),
    )
}

/// The same wherever it is cut.
fn are_cut_in_two(alloc: Global, text: &[u8], ends: &[usize]) -> Result<bool, NoMemory> {
    for at in 0..=text.len() {
        if !is_cut_in_two(alloc, text, at, ends)? {
            return Ok(false);
        }
    }
    Ok(true)
}

/// Whether the text, byte by byte, gives the messages that end at these places as soon as they are whole.
fn are_cut_byte_by_byte(alloc: Global, text: &[u8], ends: &[usize]) -> Result<bool, NoMemory> {
    let mut cutter = Cutter::new(alloc);
    for (index, byte) in text.iter().enumerate() {
        let cut = cutter.feed(alloc, slice::from_ref(byte))?;
        let is_end = ends.contains(&index.saturating_add(1));
        if cut.malformed.is_some() || cut.messages.is_empty() == is_end {
            return Ok(false);
        }
    }
    Ok(true)
}

/// Whether the messages say what was sent.
fn are_sent(alloc: Global, messages: &[Message], all: &[Sent]) -> Result<bool, NoMemory> {
    for (message, sent) in messages.iter().zip(all) {
        if !is_sent(alloc, message, sent)? {
            return Ok(false);
        }
    }
    Ok(messages.len() == all.len())
}

/// Whether the messages are cut from one piece, in order.
fn are_in_one_piece(alloc: Global, all: &[Sent]) -> Result<bool, NoMemory> {
    let mut text = Vec::new(alloc);
    for sent in all {
        text.extend_from_slice(sent.bytes)?;
    }
    let mut cutter = Cutter::new(alloc);
    let cut = cutter.feed(alloc, text.as_slice())?;
    Ok(cut.malformed.is_none() && are_sent(alloc, cut.messages.as_slice(), all)?)
}

/// Whether each is accepted, as a whole, in two pieces and byte by byte, and its fields are read apart; and whether all
/// are accepted in one piece.
fn are_accepted(alloc: Global, messages: &[Sent]) -> Result<bool, NoMemory> {
    for sent in messages {
        let ends = [sent.bytes.len()];
        if !is_whole(alloc, sent)?
            || !are_cut_in_two(alloc, sent.bytes, &ends)?
            || !are_cut_byte_by_byte(alloc, sent.bytes, &ends)?
            || !are_read(alloc, sent)?
        {
            return Ok(false);
        }
    }
    are_in_one_piece(alloc, messages)
}

#[test]
fn messages_of_clients(rt: HostRuntime) -> Result<(), NoMemory> {
    let alloc = rt.alloc();
    assert!(rt; are_accepted(alloc, SENT)?);
    Ok(())
}

#[test]
fn calls_of_glib(rt: HostRuntime) -> Result<(), NoMemory> {
    let alloc = rt.alloc();
    assert!(rt; are_accepted(alloc, GLIB_CALLS)?);
    Ok(())
}

#[test]
fn signals_of_glib(rt: HostRuntime) -> Result<(), NoMemory> {
    let alloc = rt.alloc();
    assert!(rt; are_accepted(alloc, GLIB_SIGNALS)?);
    Ok(())
}

#[test]
fn bodies_of_glib(rt: HostRuntime) -> Result<(), NoMemory> {
    let alloc = rt.alloc();
    assert!(rt; are_accepted(alloc, GLIB_BODIES)?);
    Ok(())
}

#[test]
fn messages_of_jeepney(rt: HostRuntime) -> Result<(), NoMemory> {
    let alloc = rt.alloc();
    assert!(rt; are_accepted(alloc, JEEPNEY)?);
    Ok(())
}

#[test]
fn messages_by_hand(rt: HostRuntime) -> Result<(), NoMemory> {
    let alloc = rt.alloc();
    assert!(rt; are_accepted(alloc, BY_HAND)?);
    Ok(())
}

#[test]
fn a_call_in_any_pieces(rt: HostRuntime) -> Result<(), NoMemory> {
    let alloc = rt.alloc();
    for text in [GET_SESSION, GET_SESSION_BIG] {
        let ends = [text.len()];
        assert!(rt; are_cut_in_two(alloc, text, &ends)?);
        assert!(rt; are_cut_byte_by_byte(alloc, text, &ends)?);
    }
    Ok(())
}

#[test]
fn two_calls_in_any_pieces(rt: HostRuntime) -> Result<(), NoMemory> {
    let alloc = rt.alloc();
    let mut text = Vec::from_slice(alloc, GET_SESSION)?;
    text.extend_from_slice(GET_SESSION_BIG)?;
    let ends = [GET_SESSION.len(), text.len()];
    assert!(rt; are_cut_in_two(alloc, text.as_slice(), &ends)?);
    assert!(rt; are_cut_byte_by_byte(alloc, text.as_slice(), &ends)?);
    Ok(())
}

/// A message of a front, the length of a text, and the text; behind its first four bytes stands a length that is so
/// much more.
fn with_text(
    alloc: Global,
    front: &[u8],
    more: u32,
    back: &[u8],
    length: u32,
) -> Result<Vec<u8>, NoMemory> {
    let mut text = Vec::from_slice(alloc, front)?;
    text.extend_from_slice(&length.saturating_add(more).to_le_bytes())?;
    text.extend_from_slice(back)?;
    text.extend_from_slice(&length.to_le_bytes())?;
    for _ in 0..length {
        text.push(b'x')?;
    }
    text.push(0)?;
    Ok(text)
}

/// A return with a text of this length: in all there are 37 bytes more.
fn with_body(alloc: Global, length: u32) -> Result<Vec<u8>, NoMemory> {
    with_text(
        alloc,
        b"l\x02\0\x01",
        5,
        b"\x01\0\0\0\x0f\0\0\0\x05\x01u\0\x07\0\0\0\x08\x01g\0\x01s\0\0",
        length,
    )
}

/// A message with an unknown field, whose text has this length: in all there are 25 bytes more, and up to 7 behind it.
fn with_field(alloc: Global, length: u32) -> Result<Vec<u8>, NoMemory> {
    with_text(
        alloc,
        b"l\x05\0\x01\0\0\0\0\x01\0\0\0",
        9,
        b"\x0a\x01s\0",
        length,
    )
}

/// Whether the text is one message.
fn is_one(alloc: Global, text: &[u8]) -> Result<bool, NoMemory> {
    let mut cutter = Cutter::new(alloc);
    let cut = cutter.feed(alloc, text)?;
    Ok(cut.malformed.is_none() && cut.messages.len() == 1)
}

/// Whether the first 16 bytes of the text show that it is too long.
fn is_too_long(alloc: Global, text: &[u8]) -> Result<bool, NoMemory> {
    let mut cutter = Cutter::new(alloc);
    let Some(front) = text.get(..16) else {
        return Ok(false);
    };
    let cut = cutter.feed(alloc, front)?;
    Ok(
        cut.malformed
            == Some(Malformed {
                offset: 4,
                cause: MessageFault::TooLong,
            }),
    )
}

#[test]
fn the_longest_body(rt: HostRuntime) -> Result<(), NoMemory> {
    let alloc = rt.alloc();
    let longest = with_body(alloc, 1048539)?;
    assert!(rt; longest.len() == 1048576 && is_one(alloc, longest.as_slice())?);
    let longer = with_body(alloc, 1048540)?;
    assert!(rt; is_too_long(alloc, longer.as_slice())?);
    Ok(())
}

#[test]
fn the_longest_fields(rt: HostRuntime) -> Result<(), NoMemory> {
    let alloc = rt.alloc();
    let longest = with_field(alloc, 1048551)?;
    assert!(rt; longest.len() == 1048576 && is_one(alloc, longest.as_slice())?);
    let longer = with_field(alloc, 1048552)?;
    assert!(rt; is_too_long(alloc, longer.as_slice())?);
    Ok(())
}

/// A message of this kind that answers the serial 7, with no body.
fn answer(alloc: Global, kind: u8, error: Option<Interface>, sender: Option<BusName>) -> Message
    ensures { result ≡ record {
      order = Order.Big;
      kind = kind;
      flags = 0;
      serial = 258;
      path = None;
      interface = None;
      member = None;
      error = error;
      reply_to = Some 7;
      destination = None;
      sender = sender;
      body = [];
    } }
{
    Message {
        order: Order::Big,
        kind,
        flags: 0,
        serial: 258,
        path: None,
        interface: None,
        member: None,
        error,
        reply_to: Some(7),
        destination: None,
        sender,
        body: Values::made(Items::new(alloc)),
    }
}

#[test]
#[tactic(auto, unfolding(bus_message::specs::Fields::has_required, bus_message::specs::Spelling::fields_of, bus_message::specs::Spelling::message_bytes))]
fn a_return_is_written(rt: HostRuntime) -> Result<(), NoMemory> {
    let alloc = rt.alloc();
    let message = answer(alloc, 2, None, None);
    let bytes = encode(alloc, &message)?;
    assert!(rt;
        bytes.as_slice()
            == b"B\x02\0\x01\0\0\0\0\0\0\x01\x02\0\0\0\x08\x05\x01u\0\0\0\0\x07".as_slice()
    );
    Ok(())
}

#[test]
fn headers(rt: HostRuntime) -> Result<(), NoMemory> {
    let alloc = rt.alloc();
    for row in HEADERS {
        assert!(rt; is_shown(alloc, row, 16)?);
    }
    Ok(())
}

#[test]
fn names_and_values_at_their_limits(rt: HostRuntime) -> Result<(), NoMemory> {
    let alloc = rt.alloc();
    assert!(rt; are_shown(alloc, LIMITS)?);
    Ok(())
}

#[test]
fn little_endian_values(rt: HostRuntime) -> Result<(), NoMemory> {
    let alloc = rt.alloc();
    assert!(rt; are_shown(alloc, LITTLE_VALUES)?);
    Ok(())
}

#[test]
fn little_endian_fields(rt: HostRuntime) -> Result<(), NoMemory> {
    let alloc = rt.alloc();
    assert!(rt; are_shown(alloc, LITTLE_FIELDS)?);
    Ok(())
}

#[test]
fn little_endian_rest(rt: HostRuntime) -> Result<(), NoMemory> {
    let alloc = rt.alloc();
    assert!(rt; are_shown(alloc, LITTLE_REST)?);
    Ok(())
}

#[test]
fn big_endian_values(rt: HostRuntime) -> Result<(), NoMemory> {
    let alloc = rt.alloc();
    assert!(rt; are_shown(alloc, BIG_VALUES)?);
    Ok(())
}

#[test]
fn big_endian_fields(rt: HostRuntime) -> Result<(), NoMemory> {
    let alloc = rt.alloc();
    assert!(rt; are_shown(alloc, BIG_FIELDS)?);
    Ok(())
}

#[test]
fn big_endian_rest(rt: HostRuntime) -> Result<(), NoMemory> {
    let alloc = rt.alloc();
    assert!(rt; are_shown(alloc, BIG_REST)?);
    Ok(())
}
