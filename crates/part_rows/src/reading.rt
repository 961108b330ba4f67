// Lines that are read, and what they say.

use login_base::Items;
use login_model::{Call, Event};
use recording::{Line, read_line};
use std::alloc::Global;
use std::test::Fail;

/// A call of these tests.
#[derive(Clone, Copy)]
enum Sent {
    /// Connection 3 calls for the control of the session `c `, without force, with the serial 9.
    Control,
    /// Connection 4 activates a session on a seat, with the serial 5, and wants no answer.
    Activation,
    /// The same, with bad arguments.
    BadArguments,
}

fn is_sent(line: &Line, sent: Sent) -> bool {
    let Line::Event(Event::Call(request)) = line else {
        return false;
    };
    let head = (request.who.0, request.serial, request.quiet);
    match (sent, &request.call) {
        (Sent::Control, Call::Control(id, false)) => {
            head == (3, 9, false) && id.text().as_slice() == b"c ".as_slice()
        }
        (Sent::Activation, Call::ActivateOnSeat(_, _)) => head == (4, 5, true),
        (Sent::BadArguments, Call::BadArguments) => head == (4, 5, true),
        _ => false,
    }
}

/// Whether the text is read as the call.
fn is_read(alloc: Global, text: &[u8], sent: Sent) -> Result<bool, Fail> {
    let mut lines = Items::new(alloc);
    lines.push(read_line(alloc, text)?)?;
    match lines.as_slice() {
        [line] => Ok(is_sent(line, sent)),
        _ => Ok(false),
    }
}

/// Lines of links, whose connection each names, the user that opens it, and the bytes that come in.
const LINKS: [(&[u8], u32, Option<u32>, &[u8]); 4] = [
    (b"link 2 1000\n", 2, Some(1000), b""),
    (b"in 2 004155544820\n", 2, None, b"\0AUTH "),
    (
        b"in 4294967295 000a7f80ff\n",
        4294967295,
        None,
        b"\0\n\x7f\x80\xff",
    ),
    (b"hangup 2\n", 2, None, b""),
];

/// Whether the text is read as a line of a link, of this connection: one of bytes where there are some, else one
/// that this user opens, or that ends.
fn is_link_line(
    alloc: Global,
    text: &[u8],
    who: u32,
    opener: Option<u32>,
    input: &[u8],
) -> Result<bool, Fail> {
    let mut lines = Items::new(alloc);
    lines.push(read_line(alloc, text)?)?;
    match lines.as_slice() {
        [Line::Link(link, uid)] => Ok(link.0 == who && opener == Some(uid.0) && input.is_empty()),
        [Line::In(link, bytes)] => {
            Ok(link.0 == who && opener.is_none() && bytes.as_slice() == input)
        }
        [Line::Hangup(link)] => Ok(link.0 == who && opener.is_none() && input.is_empty()),
        _ => Ok(false),
    }
}

#[test]
fn reads_the_values_of_a_call(rt: HostRuntime) -> Result<(), Fail> {
    assert!(rt; is_read(rt.alloc(), b"call 3 9 control c%20 false\n", Sent::Control)?);
    Ok(())
}

#[test]
fn a_call_with_a_text_of_more_than_512_bytes_has_bad_arguments(
    rt: HostRuntime,
) -> Result<(), Fail> {
    for (count, sent) in [(512, Sent::Activation), (513, Sent::BadArguments)] {
        let mut text = Vec::from_slice(rt.alloc(), b"send 4 5 activate-on ")?;
        text.extend_from_slice(&vec![in rt.alloc(); b'x'; count]?)?;
        text.extend_from_slice(b" seat0\n")?;
        assert!(rt; is_read(rt.alloc(), &text, sent)?, "{count}");
    }
    Ok(())
}

#[test]
fn reads_the_lines_of_links(rt: HostRuntime) -> Result<(), Fail> {
    for (text, who, opener, input) in &LINKS {
        assert!(rt; is_link_line(rt.alloc(), text, *who, *opener, input)?);
    }
    Ok(())
}

#[test]
fn reads_as_many_bytes_as_a_line_has_room_for(rt: HostRuntime) -> Result<(), Fail> {
    let mut text = Vec::from_slice(rt.alloc(), b"in 1 ")?;
    text.extend_from_slice(&vec![in rt.alloc(); b'7'; 16378]?)?;
    text.push(b'\n')?;
    let input = vec![in rt.alloc(); b'w'; 8189]?;
    assert!(rt; is_link_line(rt.alloc(), &text, 1, None, &input)?);
    Ok(())
}
