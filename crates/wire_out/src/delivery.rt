// The mail of a connection while it is put together.

ghost use Rattle.std.specs.Prelude.{◌≡◌, ◌<◌, IfOk};
ghost use Rattle.bus_message.specs.Spelling.{message_bytes};
ghost use Rattle.wire_out.specs.Errors.{error_name, rule_text};
ghost use Rattle.wire_out.specs.Messages.{error_message, return_message};
ghost use Rattle.wire_out.specs.Replies.{answer_values};
ghost use Rattle.wire_out.specs.Mail.{connects, expects_reply, is_disconnect, is_for, reply};
ghost use Rattle.wire_out.specs.inner.Parts.{IsWritable};
ghost use Rattle.wire_out.specs.inner.Sendable.{CanBeAnswered};

use crate::errors::{error_name, rule_text};
use crate::messages::{error_message, return_message};
use crate::replies::answer_values;
use crate::signals::signals;
use bus_message::{Message, encode};
use login_base::{Bytes, ConnId, NoMemory};
use login_model::{Answer, Call, Entry, Event, Journal, Mark, Request, Rule, Verdict, Whom};
use std::alloc::Global;

/// Whether an entry grants the connect of a connection.
fn connects(who: ConnId, entry: &Entry) -> bool
    ensures { result ≡ connects who entry.now }
{
    match (&entry.event, &entry.verdict) {
        (Event::Connect(c, _), Verdict::Granted) => c.0 == who.0,
        _ => false,
    }
}

/// Whether an event is the disconnect of a connection.
fn is_disconnect(who: ConnId, event: &Event) -> bool
    ensures { result ≡ is_disconnect who event.now }
{
    match event {
        Event::Disconnect(c) => c.0 == who.0,
        _ => false,
    }
}

/// Whether a call expects a reply.
fn expects_reply(request: &Request) -> bool
    ensures { result ≡ expects_reply request.now }
{
    !request.quiet && !matches!(request.call, Call::NoCall)
}

/// Whether a notice goes to a connection.
fn is_for(who: ConnId, whom: Whom) -> bool
    ensures { result ≡ is_for who whom }
{
    match whom {
        Whom::One(c) => c.0 == who.0,
        Whom::All => true,
    }
}

/// The reply to a call that was granted.
fn granted(alloc: Global, request: &Request, answer: &Answer) -> Result<Message, NoMemory>
    requires { CanBeAnswered answer.now }
    ensures message { IfOk result (λ message. message ≡ return_message request.now.serial (answer_values answer.now)) }
    ensures writable { IfOk result IsWritable }
{
    let values = answer_values(alloc, answer)?;
    return_message(alloc, request.serial, values)
}

/// The reply to a call that was denied.
fn denied(alloc: Global, request: &Request, rule: Rule) -> Result<Message, NoMemory>
    ensures message { IfOk result (λ message. message ≡ error_message request.now.serial (error_name request.now.call rule) (rule_text rule)) }
    ensures writable { IfOk result IsWritable }
{
    let reason = rule_text(alloc, rule)?;
    let name = error_name(&request.call, rule);
    error_message(alloc, request.serial, name, reason.as_slice())
}

/// The reply to a call.
fn reply(
    alloc: Global,
    request: &Request,
    verdict: Verdict,
    answer: &Answer,
) -> Result<Message, NoMemory>
    requires { CanBeAnswered answer.now }
    ensures message { IfOk result (λ message. message ≡ reply request.now verdict answer.now) }
    ensures writable { IfOk result IsWritable }
{
    match verdict {
        Verdict::Granted => granted(alloc, request, answer),
        Verdict::Denied(rule) => denied(alloc, request, rule),
    }
}

/// The bytes of a message with this serial.
fn encoded(alloc: Global, message: Message, serial: u32) -> Result<Bytes, NoMemory>
    requires writable { IsWritable message }
    requires serial { 0 < serial }
    ensures { IfOk result (λ bytes. bytes ≡ message_bytes (record message { serial = serial })) }
{
    let mut message = message;
    message.serial = serial;
    let bytes = encode(alloc, &message);
    drop(message);
    bytes
}

/// The messages of a connection by the entries so far: their number, and the bytes of those behind the first `from`.
#[derive(Drop)]
pub(crate) struct Delivery {
    who: ConnId,
    /// Whether the entries hold the connect and not the disconnect.
    connected: bool,
    sent: u32,
    from: u32,
    bytes: Vec<u8>,
}

impl Delivery {
    ghost use Rattle.std.specs.Prelude.{◌≡◌, ◌≤◌, ◌<◌, ◌+◌, ◌*◌, ◌^◌, ◌∷◌, [], OnOk, length, take};
    ghost use Rattle.std.specs.List.{AllByRecursion, flat_map};
    ghost use Rattle.wire_out.specs.Conditions.{IsMailable};
    ghost use Rattle.wire_out.specs.Mail.{messages_of, replies, signals_to};
    ghost use Rattle.wire_out.specs.inner.Delivered.{Adds, IsAt, Steps, most_of};
    ghost use Rattle.wire_out.specs.inner.Parts.{IsWritable};
    ghost use Rattle.wire_out.specs.inner.Sendable.{CanBeMarked, IsSendable};

    /// Nothing is written yet of a mail of which the entries so far have `sent` messages.
    pub(crate) fn new(alloc: Global, who: ConnId, connected: bool, sent: u32, from: u32) -> Delivery
        ensures who { result.who ≡ who }
        ensures connected { result.connected ≡ connected }
        ensures sent { result.sent ≡ sent }
        ensures from { result.from ≡ from }
        ensures bytes { result.bytes.items ≡ [] }
    {
        Delivery {
            who,
            connected,
            sent,
            from,
            bytes: Vec::new(alloc),
        }
    }

    /// Adds a message, with the next serial.
    fn put(&mut self, alloc: Global, message: Message) -> Result<(), NoMemory>
        requires writable { IsWritable message }
        requires room { self.old.sent + 1 < 2 ^ 32 }
        ensures { OnOk result (Adds self.old self.new (message ∷ [])) }
    {
        let serial = self.sent + 1;
        if self.sent >= self.from {
            let bytes = encoded(alloc, message, serial)?;
            self.bytes.extend_from_slice(bytes.as_slice())?;
        } else {
            drop(message);
        }
        self.sent = serial;
        Ok(())
    }

    /// Adds messages.
    fn put_all(&mut self, alloc: Global, messages: Vec<Message>) -> Result<(), NoMemory>
        requires writable { AllByRecursion IsWritable messages.items }
        requires room { self.old.sent + length messages.items < 2 ^ 32 }
        ensures { OnOk result (Adds self.old self.new messages.items) }
    {
        for message in messages {
            self.put(alloc, message)?;
        }
        Ok(())
    }

    /// Adds the reply of an entry, where it is a call of the connection that expects one.
    fn add_reply(&mut self, alloc: Global, entry: &Entry) -> Result<(), NoMemory>
        requires sendable { IsSendable entry.now }
        requires room { self.old.sent + 1 < 2 ^ 32 }
        ensures { OnOk result (Adds self.old self.new (replies self.old.who entry.now.event entry.now.verdict entry.now.answer)) }
    {
        match &entry.event {
            Event::Call(request) if request.who.0 == self.who.0 && expects_reply(request) => {
                let message = reply(alloc, request, entry.verdict, &entry.answer)?;
                self.put(alloc, message)
            }
            _ => Ok(()),
        }
    }

    /// Adds the signals of a mark, where it is a notice to the connection or to all.
    fn add_signals(&mut self, alloc: Global, mark: &Mark) -> Result<(), NoMemory>
        requires sendable { CanBeMarked mark.now }
        requires room { self.old.sent + 3 < 2 ^ 32 }
        ensures { OnOk result (Adds self.old self.new (signals_to self.old.who mark.now)) }
    {
        match mark {
            Mark::Say(whom, notice) if is_for(self.who, *whom) => {
                let messages = signals(alloc, notice)?;
                self.put_all(alloc, messages)
            }
            _ => Ok(()),
        }
    }

    /// Adds the signals of marks.
    fn add_all_signals(&mut self, alloc: Global, marks: &[Mark]) -> Result<(), NoMemory>
        requires sendable { AllByRecursion CanBeMarked marks.now }
        requires room { self.old.sent + 3 * length marks.now < 2 ^ 32 }
        ensures { OnOk result (Adds self.old self.new (flat_map (signals_to self.old.who) marks.now)) }
    {
        for mark in marks {
            self.add_signals(alloc, mark)?;
        }
        Ok(())
    }

    /// Adds what an entry tells the connection.
    #[tactic(auto, unfolding(crate::specs::Mail::messages_of))]
    fn add_entry(&mut self, alloc: Global, entry: &Entry) -> Result<(), NoMemory>
        requires sendable { IsSendable entry.now }
        requires room { self.old.sent + most_of entry.now < 2 ^ 32 }
        ensures { OnOk result (Adds self.old self.new (messages_of self.old.who entry.now)) }
    {
        self.add_reply(alloc, entry)?;
        self.add_all_signals(alloc, entry.marks.as_slice())
    }

    /// Goes over one more entry.
    fn step(&mut self, alloc: Global, entry: &Entry) -> Result<(), NoMemory>
        requires sendable { IsSendable entry.now }
        requires room { self.old.sent + most_of entry.now < 2 ^ 32 }
        ensures { OnOk result (Steps self.old self.new entry.now) }
    {
        if !self.connected {
            self.connected = connects(self.who, entry);
        } else if is_disconnect(self.who, &entry.event) {
            self.connected = false;
        } else {
            self.add_entry(alloc, entry)?;
        }
        Ok(())
    }

    /// Goes over the entries of a journal from `start` on.
    pub(crate) fn read(
        &mut self,
        alloc: Global,
        journal: &Journal,
        start: usize,
    ) -> Result<(), NoMemory>
        requires mailable { IsMailable journal.now.items }
        requires start { start ≤ length journal.now.items }
        requires at { IsAt self.old (take start journal.now.items) }
        ensures at { OnOk result (IsAt self.new journal.now.items) }
        ensures who { OnOk result (self.new.who ≡ self.old.who) }
        ensures from { OnOk result (self.new.from ≡ self.old.from) }
    {
        for entry in &journal.as_slice()[start..] {
            self.step(alloc, entry)?;
        }
        Ok(())
    }

    /// Whether the connection is connected, how many messages there are, and the bytes.
    pub(crate) fn finish(self) -> (bool, u32, Bytes)
        ensures connected { result.0 ≡ self.connected }
        ensures sent { result.1 ≡ self.sent }
        ensures bytes { result.2 ≡ self.bytes.items }
    {
        (self.connected, self.sent, Bytes::from_vec(self.bytes))
    }
}
