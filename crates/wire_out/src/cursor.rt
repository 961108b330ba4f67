// What is due of the mail of a connection.

ghost use Rattle.std.specs.Prelude.{◌≡◌, IfOk, drop};
ghost use Rattle.login_model.specs.Legal.{IsUnused};
ghost use Rattle.wire_out.specs.Conditions.{IsMailable};
ghost use Rattle.wire_out.specs.Mail.{bytes_of, mail};

use crate::delivery::Delivery;
use login_base::{Bytes, ConnId, NoMemory};
use login_model::Journal;
use std::alloc::Global;
use std::marker::Model;

/// The place up to which the mail of a connection was fetched. It keeps no entry and no message.
#[derive(Drop)]
pub struct Cursor {
    who: ConnId,
    fetched: u32,
    entries: usize,
    connected: bool,
}

impl Model for Cursor {
    ghost use Rattle.wire_out.specs.Places.{Place};

    ghost Value = { Place };

    ghost view = { λ s. record { who = s.who; fetched = s.fetched; entries = s.entries; connected = s.connected } };
}

impl Cursor {
    ghost use Rattle.std.specs.Prelude.{◌≡◌, [], IfOk, OnOk, OnErr, drop};
    ghost use Rattle.login_model.specs.Legal.{IsUnused};
    ghost use Rattle.wire_out.specs.Conditions.{IsMailable};
    ghost use Rattle.wire_out.specs.Mail.{bytes_of, mail};
    ghost use Rattle.wire_out.specs.Places.{IsPlaceIn, place_of};

    /// The beginning of a mail. It takes no memory.
    #[tactic(auto, unfolding(crate::specs::Mail::mail))]
    pub fn new(c: ConnId) -> Cursor
        ensures { result ≡ place_of c [] }
    {
        Cursor {
            who: c,
            fetched: 0,
            entries: 0,
            connected: false,
        }
    }

    /// The place behind this journal, of a number that no connect in it had: it has no mail by it, so none of its
    /// entries is gone over, now or later. It takes no memory.
    pub fn behind(c: ConnId, journal: &Journal) -> Cursor
        requires unused { IsUnused c journal.now.items }
        ensures { result ≡ place_of c journal.now.items }
    {
        Cursor {
            who: c,
            fetched: 0,
            entries: journal.len(),
            connected: false,
        }
    }

    /// What of the mail by this journal was not fetched before, as bytes. It goes over the entries behind the place
    /// alone.
    pub fn due(&mut self, alloc: Global, journal: &Journal) -> Result<Bytes, NoMemory>
        requires placed { IsPlaceIn self.old journal.now.items }
        requires mailable { IsMailable journal.now.items }
        ensures bytes { IfOk result (λ bytes. bytes ≡ bytes_of (drop self.old.fetched (mail self.old.who journal.now.items))) }
        ensures place { OnOk result (self.new ≡ place_of self.old.who journal.now.items) }
        // without memory it stays where it was
        ensures kept { OnErr result (self.new ≡ self.old) }
    {
        let mut delivery = Delivery::new(
            alloc,
            self.who,
            self.connected,
            self.fetched,
            self.fetched,
        );
        delivery.read(alloc, journal, self.entries)?;
        let (connected, fetched, bytes) = delivery.finish();
        self.connected = connected;
        self.fetched = fetched;
        self.entries = journal.len();
        Ok(bytes)
    }
}

/// The messages of the mail of a connection behind the first `from`, as bytes.
pub fn out_of(alloc: Global, journal: &Journal, c: ConnId, from: u32) -> Result<Bytes, NoMemory>
    requires mailable { IsMailable journal.now.items }
    ensures { IfOk result (λ bytes. bytes ≡ bytes_of (drop from (mail c journal.now.items))) }
{
    let mut delivery = Delivery::new(alloc, c, false, 0, from);
    delivery.read(alloc, journal, 0)?;
    let (_connected, _sent, bytes) = delivery.finish();
    Ok(bytes)
}
