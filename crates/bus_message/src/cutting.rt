// The messages at the front of a text.

ghost use Rattle.std.specs.Prelude.{◌≤◌, length, IfOk, Ok};
ghost use Rattle.bus_message.specs.Cutting.{front, front_by};
ghost use Rattle.bus_message.specs.inner.Feeding.{Finds, Shows};
ghost use Rattle.bus_message.specs.Headers.{most_cut, size};
ghost use Rattle.bus_message.specs.inner.Outcomes.{IsCutFrom};

use crate::fault::{Fault, Refusal};
use crate::header::{Header, SIZE, read_header};
use crate::message::Message;
use crate::reading::read_message;
use login_base::{Items, NoMemory};
use std::alloc::Global;

/// What the front of a text is.
#[derive(Drop)]
pub(crate) enum Next {
    /// Not enough of a message.
    Open,
    /// A message of so many bytes.
    Whole(Message, usize),
    Malformed(Fault),
}

/// The messages at the front of a text.
#[derive(Drop)]
pub(crate) struct Pieces {
    pub messages: Items<Message>,
    /// How many bytes they have.
    pub taken: usize,
    /// What is wrong with the message behind them.
    pub fault: Option<Fault>,
}

/// The message of this header, where the text has all its bytes.
fn whole(alloc: Global, header: Header, text: &[u8]) -> Result<Next, Refusal>
    requires { size header ≤ most_cut }
    ensures { Finds result (front_by text.now (Ok header)) (length text.now) }
{
    let size = header.size();
    if text.len() < size {
        return Ok(Next::Open);
    }
    let message = read_message(alloc, header, &text[..size])?;
    Ok(Next::Whole(message, size))
}

/// What the front of a text is, unless there is no memory.
#[tactic(auto, unfolding(crate::specs::Cutting::front))]
fn front(alloc: Global, text: &[u8]) -> Result<Next, Refusal>
    ensures { Finds result (front text.now) (length text.now) }
{
    if text.len() < SIZE {
        return Ok(Next::Open);
    }
    let header = read_header(&text[..SIZE])?;
    whole(alloc, header, text)
}

/// The same, with what is wrong as an answer.
fn look(alloc: Global, text: &[u8]) -> Result<Next, NoMemory>
    ensures { IfOk result (λ next. Shows next (front text.now) (length text.now)) }
{
    match front(alloc, text) {
        Ok(next) => Ok(next),
        Err(Refusal::Malformed(fault)) => Ok(Next::Malformed(fault)),
        Err(Refusal::NoMemory) => Err(NoMemory),
    }
}

/// Cuts the messages from the front of a text.
pub(crate) fn cut_messages(alloc: Global, text: &[u8]) -> Result<Pieces, NoMemory>
    ensures { IfOk result (λ pieces. IsCutFrom text.now pieces) }
{
    let mut messages = Items::new(alloc);
    let mut taken = 0;
    loop {
        match look(alloc, &text[taken..])? {
            Next::Whole(message, size) => {
                messages.push(message)?;
                taken += size;
            }
            Next::Open => {
                return Ok(Pieces {
                    messages,
                    taken,
                    fault: None,
                });
            }
            Next::Malformed(fault) => {
                return Ok(Pieces {
                    messages,
                    taken,
                    fault: Some(fault),
                });
            }
        }
    }
}
