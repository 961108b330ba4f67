// The bytes that links are due, as a transcript has them.

ghost use Rattle.std.specs.Prelude.{◌≡◌, ◌+◌, ◌*◌, ◌≤◌, ◌++◌, Err, length, vec_len, vec_capacity, OnOk, IfOk};
ghost use Rattle.login_edge.specs.Faults.{Rose};
ghost use Rattle.login_edge.specs.Texts.{Gains, GainsFront};
ghost use Rattle.login_edge.specs.Writing.{WrittenAs, WriteRose};
ghost use Rattle.recording.specs.Hex.{spell_hex};
ghost use Rattle.recording.specs.Print.{out_line};
ghost use Rattle.recording.specs.inner.Pieces.{out_front, hex_end, piece_room};

use crate::entry::WriteEnd;
use crate::line_text::LineText;
use login_base::{ConnId, NoMemory, hex_digit};
use login_edge::{Sink, WriteEnd as Written, write_all};
use std::alloc::Global;

/// So many bytes are spelled at once.
const PIECE: usize = 4096;

/// Room for a piece in hex, and for the line feed.
const PIECE_ROOM: usize = 2 * PIECE + 1;

/// Puts bytes in hex at the end, without memory.
fn push_hex(text: &mut Vec<u8>, bytes: &[u8])
    requires { vec_len text.old + 2 * length bytes.now ≤ vec_capacity text.old }
    ensures items { text.new.items ≡ text.old.items ++ spell_hex bytes.now }
    ensures len { vec_len text.new ≡ vec_len text.old + 2 * length bytes.now }
    ensures capacity { vec_capacity text.new ≡ vec_capacity text.old }
{
    for byte in bytes {
        text.push_reserved(hex_digit(*byte / 16));
        text.push_reserved(hex_digit(*byte % 16));
    }
}

/// The front of the line, with room for a piece behind it.
fn out_front(alloc: Global, who: ConnId) -> Result<Vec<u8>, NoMemory>
    ensures items { IfOk result (λ text. text.items ≡ out_front who) }
    ensures room { IfOk result (λ text. vec_len text + piece_room ≤ vec_capacity text) }
{
    let mut text = LineText::new(alloc);
    text.push(b"out")?;
    text.number(who.0)?;
    text.push(b" ")?;
    text.with_room(PIECE_ROOM)
}

/// Writes what stands at the front of a line, bytes in hex behind it, and a line feed, a piece at a time.
/// It takes no memory.
fn write_in_hex<K: Sink>(text: &mut Vec<u8>, bytes: &[u8], sink: &mut K) -> Written
    requires { vec_len text.old + piece_room ≤ vec_capacity text.old }
    ensures gives { WrittenAs (K.held sink.old) (K.held sink.new) result (text.old.items ++ hex_end bytes.now) }
    ensures cause { WriteRose (K.faults sink.old) (K.faults sink.new) result }
{
    let mut rest = bytes;
    while rest.len() > PIECE {
        let (piece, behind) = rest.split_at(PIECE);
        push_hex(text, piece);
        match write_all(sink, text.as_slice()) {
            Written::Done => text.clear(),
            Written::Fault => return Written::Fault,
        }
        rest = behind;
    }
    push_hex(text, rest);
    text.push_reserved(b'\n');
    write_all(sink, text.as_slice())
}

/// Writes the line that a transcript has of the bytes that this link is due. It holds a piece of the line at
/// a time, however many bytes there are.
pub fn write_out<K: Sink>(
    alloc: Global,
    who: ConnId,
    bytes: &[u8],
    sink: &mut K,
) -> Result<(), WriteEnd>
    ensures wrote { OnOk result (Gains (K.held sink.old) (K.held sink.new) (out_line who bytes.now)) }
    ensures faults { OnOk result (K.faults sink.new ≡ K.faults sink.old) }

    ensures front { result ≡ Err WriteEnd.WriteFault
        → GainsFront (K.held sink.old) (K.held sink.new) (out_line who bytes.now) }
    ensures cause { result ≡ Err WriteEnd.WriteFault → Rose (K.faults sink.old) (K.faults sink.new) }

    ensures no_memory { result ≡ Err WriteEnd.NoMemory → sink.new ≡ sink.old }
{
    let Ok(mut text) = out_front(alloc, who) else {
        return Err(WriteEnd::NoMemory);
    };
    match write_in_hex(&mut text, bytes, sink) {
        Written::Done => Ok(()),
        Written::Fault => Err(WriteEnd::WriteFault),
    }
}
