// What the lines of a client say.

ghost use Rattle.std.specs.Prelude.{◌≡◌, ◌==◌, ◌↔◌, IsTrue, position};
ghost use Rattle.bus_auth.specs.Commands.{first_word, identity, response_of, command_of};
ghost use Rattle.bus_auth.specs.inner.Commands.{response_behind};

use login_base::{Uid, read_number};

/// What a line asks for: its first word, up to its first space.
#[derive(Clone, Copy)]
pub enum Command {
    Auth(Response),
    Data(Response),
    Begin,
    Cancel,
    Error,
    /// Any other word.
    Other,
}

/// What a client answers to the challenge of EXTERNAL.
#[derive(Clone, Copy)]
pub enum Response {
    /// Nothing: the server is to take the user that the socket tells.
    Empty,
    /// The user of the socket.
    Identity,
    /// Something else, or for another mechanism.
    Other,
}

/// The place of a line's first space.
fn first_space(line: &[u8]) -> Option<usize>
    ensures { result ≡ position (λ b. b == 32) line.now }
{
    line.iter().position(|byte| *byte == b' ')
}

/// A line's first word.
fn first_word(line: &[u8]) -> &[u8]
    ensures { result.now ≡ first_word line.now }
{
    match first_space(line) {
        Some(end) => &line[..end],
        None => line,
    }
}

/// Whether a text is the hex of the decimal digits of a user's number.
fn is_identity(number: u32, text: &[u8]) -> bool
    ensures { IsTrue result ↔ (text.now ≡ identity number) }
{
    let count = text.len() / 2;
    let mut digits = [0u8; 10];
    if count > digits.len() {
        return false;
    }
    let digits = &mut digits[..count];
    match hex::decode_to_slice(text, digits) {
        Ok(()) => read_number(digits) == Some(number),
        Err(_) => false,
    }
}

/// The response that a line has behind its front.
fn read_rest(uid: Uid, rest: &[u8]) -> Response
    ensures { result ≡ response_behind uid rest.now }
{
    match rest.split_first() {
        None => Response::Empty,
        Some((b' ', [])) => Response::Empty,
        Some((b' ', text)) if is_identity(uid.0, text) => Response::Identity,
        Some(_) => Response::Other,
    }
}

/// The response of a line with such a front.
fn read_response(uid: Uid, front: &[u8], line: &[u8]) -> Response
    ensures { result ≡ response_of uid front.now line.now }
{
    match line.strip_prefix(front) {
        Some(rest) => read_rest(uid, rest),
        None => Response::Other,
    }
}

/// What a line asks for, where the client is to be a user.
#[tactic(auto, unfolding(crate::specs::Commands::command_of))]
pub(crate) fn read_command(uid: Uid, line: &[u8]) -> Command
    ensures { result ≡ command_of uid line.now }
{
    let word = first_word(line);
    if word == b"AUTH".as_slice() {
        Command::Auth(read_response(uid, b"AUTH EXTERNAL", line))
    } else if word == b"DATA".as_slice() {
        Command::Data(read_response(uid, b"DATA", line))
    } else if word == b"BEGIN".as_slice() {
        Command::Begin
    } else if word == b"CANCEL".as_slice() {
        Command::Cancel
    } else if word == b"ERROR".as_slice() {
        Command::Error
    } else {
        Command::Other
    }
}
