// A stream of messages, fed in pieces.

ghost use Rattle.std.specs.Prelude.{◌≡◌, ◌≤◌, ℕ, [], length, drop, None, Some, Ok, OnErr, IfOk};
ghost use Rattle.std.specs.Fn.{FnOnceReturnsAt};
ghost use Rattle.bus_value.specs.Faults.{reported};
ghost use Rattle.bus_message.specs.Feeding.{AreMessages, Feeds, HasFed, IsEnded};
ghost use Rattle.bus_message.specs.inner.Feeding.{IsKept};
ghost use Rattle.bus_message.specs.inner.Outcomes.{IsCutFrom, AnswersCut, ended, cut_at};

use crate::cutting::{Pieces, cut_messages};
use crate::fault::{Fault, Malformed};
use crate::message::Message;
use login_base::{Items, NoMemory, drop_front};
use std::alloc::Global;
use std::marker::Model;

/// A stream of messages. Its buffer grows by what is fed, and never by what a header says.
#[derive(Drop)]
pub struct Cutter {
    /// Where the message that is not whole stands in the stream. A place that is above the last `u64` is reported as
    /// that.
    place: u64,
    /// The bytes of the message that is not whole.
    buffer: Vec<u8>,
    malformed: Option<Malformed>,
}

impl Model for Cutter {
    ghost use Rattle.bus_message.specs.Feeding.{Stream};
    ghost use Rattle.bus_message.specs.inner.Feeding.{IsKept};

    ghost Value = { Stream };

    ghost view = { λ c. record { place = c.place; rest = c.buffer.items; malformed = c.malformed } };

    ghost invariant = { λ c. IsKept c.malformed c.buffer.items };
}

/// What a piece led to.
#[derive(Drop)]
pub struct Cut {
    /// The messages that the piece made whole.
    pub messages: Items<Message>,
    /// Where the stream is malformed.
    pub malformed: Option<Malformed>,
}

/// Keeps what is left behind so many bytes, which end at a place in the stream.
fn keep(
    alloc: Global,
    buffer: &mut Vec<u8>,
    malformed: &mut Option<Malformed>,
    place: u64,
    taken: usize,
    fault: Option<Fault>,
)
    requires running { malformed.old ≡ None }
    requires within { taken ≤ length buffer.old.items }
    ensures rest { buffer.new.items ≡ (ended place (drop taken buffer.old.items) fault).rest }
    ensures malformed { (at : ℕ) → place ≡ reported at → malformed.new ≡ (ended at (drop taken buffer.old.items) fault).malformed }
{
    match fault {
        None => drop_front(alloc, buffer, taken),
        Some(fault) => {
            *buffer = Vec::new(alloc);
            *malformed = Some(Malformed {
                offset: place.saturating_add(fault.offset as u64),
                cause: fault.cause,
            });
        }
    }
}

/// Keeps what is left behind the messages, and tells them.
fn settle(
    alloc: Global,
    place: &mut u64,
    buffer: &mut Vec<u8>,
    malformed: &mut Option<Malformed>,
    pieces: Pieces,
) -> Cut
    requires running { malformed.old ≡ None }
    requires cut { IsCutFrom buffer.old.items pieces }
    ensures messages { result.messages ≡ pieces.messages }
    ensures gives { (at : ℕ) → place.old ≡ reported at → AnswersCut (cut_at at buffer.old.items)
        (record { place = place.new; rest = buffer.new.items; malformed = malformed.new }) result }
    ensures kept { IsKept malformed.new buffer.new.items }
    ensures told { result.malformed ≡ malformed.new }
{
    let Pieces {
        messages,
        taken,
        fault,
    } = pieces;
    *place = place.saturating_add(taken as u64);
    keep(alloc, buffer, malformed, *place, taken, fault);
    Cut {
        messages,
        malformed: *malformed,
    }
}

/// Cuts the messages from the front of a text, and reads them.
fn read_messages<T, F: FnOnce(&[Message]) -> Result<T, NoMemory>>(
    alloc: Global,
    text: &[u8],
    read: F,
) -> Result<(T, Pieces), NoMemory>
    requires { F.IsAlwaysCallable read }
    ensures cut { IfOk result (λ found. IsCutFrom text.now found.1) }
    ensures messages { IfOk result (λ found. AreMessages found.1.messages) }
    ensures read { IfOk result (λ found. FnOnceReturnsAt F.FnOnce read found.1.messages (Ok found.0)) }
{
    let pieces = cut_messages(alloc, text)?;
    let value = read(pieces.messages.as_slice())?;
    Ok((value, pieces))
}

impl Cutter {
    /// A stream of which nothing was fed. It takes no memory.
    pub fn new(alloc: Global) -> Cutter
        ensures fed { HasFed result [] }
    {
        Cutter {
            place: 0,
            buffer: Vec::new(alloc),
            malformed: None,
        }
    }

    /// Where the stream is malformed.
    pub fn malformed(&self) -> Option<Malformed>
        ensures { result ≡ self.now.malformed }
    {
        self.malformed
    }

    /// Cuts the messages that are whole with the piece. A stream that is malformed takes no memory.
    pub fn feed(&mut self, alloc: Global, piece: &[u8]) -> Result<Cut, NoMemory>
        // It goes on as one that is fed all bytes at once.
        ensures fed { IfOk result (λ answer. Feeds self.old piece.now self.new answer) }
        ensures shown { IfOk result (λ answer. answer.malformed ≡ self.new.malformed) }
        // A stream that is malformed stays so, and gives no message.
        ensures ended { (place : Malformed) → self.old.malformed ≡ Some place → IsEnded result place }
        ensures err { OnErr result (self.new ≡ self.old) }
    {
        if let Some(malformed) = self.malformed {
            return Ok(Cut {
                messages: Items::new(alloc),
                malformed: Some(malformed),
            });
        }
        let ((), cut) = self.feed_as(alloc, piece, |_messages| Ok(()))?;
        Ok(cut)
    }

    /// Cuts the messages that are whole with the piece, and reads them as something else. Where that lacks memory,
    /// nothing was fed.
    pub fn feed_as<T, F: FnOnce(&[Message]) -> Result<T, NoMemory>>(
        &mut self,
        alloc: Global,
        piece: &[u8],
        read: F,
    ) -> Result<(T, Cut), NoMemory>
        requires running { self.old.malformed ≡ None }
        requires callable { F.IsAlwaysCallable read }
        ensures fed { IfOk result (λ answer. Feeds self.old piece.now self.new answer.1) }
        ensures shown { IfOk result (λ answer. answer.1.malformed ≡ self.new.malformed) }
        ensures messages { IfOk result (λ answer. AreMessages answer.1.messages) }
        ensures read { IfOk result (λ answer. FnOnceReturnsAt F.FnOnce read answer.1.messages (Ok answer.0)) }
        ensures err { OnErr result (self.new ≡ self.old) }
    {
        let kept = self.buffer.len();
        self.buffer.extend_from_slice(piece)?;
        match read_messages(alloc, self.buffer.as_slice(), read) {
            Ok((value, pieces)) => {
                let cut = settle(
                    alloc,
                    &mut self.place,
                    &mut self.buffer,
                    &mut self.malformed,
                    pieces,
                );
                Ok((value, cut))
            }
            Err(NoMemory) => {
                self.buffer.truncate(kept);
                Err(NoMemory)
            }
        }
    }
}
