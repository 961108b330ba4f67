// The core, with a teller for each link.

ghost use Rattle.std.specs.Prelude.{◌≡◌, ◌≢◌, ◌↔◌, ◌++◌, [], ◌∷◌, true, false, None, Some, Err, IsTrue, IfOk, IfErr, OnOk, OnErr};
ghost use Rattle.std.specs.Option.{IsSome};
ghost use Rattle.std.specs.Borrow.{sem};
ghost use Rattle.std.specs.Io.BufRead.{Rests};
ghost use Rattle.login_base.specs.declared.ids.ConnId.{ConnId as AnyConn};
ghost use Rattle.login_core.specs.Fullness.{always_fits};
ghost use Rattle.login_core.specs.State.{IsReady, RoomGives};
ghost use Rattle.login_laws.specs.Lawful.{IsLawful};
ghost use Rattle.login_model.specs.Conf.{IsAllowed};
ghost use Rattle.login_model.specs.Legal.{IsAsked, IsPlaced, IsUnused, trail_of};
ghost use Rattle.login_model.specs.Setups.{IsSetup};
ghost use Rattle.login_model.specs.Where.{is_connected};
ghost use Rattle.login_model.specs.declared.event.Event.TheVariants.{Disconnect};
ghost use Rattle.login_office.specs.Hearing.{HasEnded, Hears, IsEnded, KeepsLink, MayCome, TellerState};
ghost use Rattle.login_office.specs.Mailing.{Fetches};
ghost use Rattle.login_office.specs.Offices.{Appends, GoesOn, IsSame, KeepsOthers, OfficeState, Opens, teller_of};
ghost use Rattle.login_office.specs.contracts.office.Office.{the_row};
ghost use Rattle.login_office.specs.declared.end.LinkEnd.{LinkEnd};

use crate::teller::{HeardPiece, Teller};
use login_base::{Bytes, ConnId, NoMemory, Uid};
use login_core::{Core, Refused};
use login_model::{Entry, Event, Setup};
use std::alloc::Global;
use std::collections::BTreeMap;
use std::marker::Model;

/// A core, and a teller for each link that is open, for one thread.
pub struct Office {
    core: Core,
    /// By the numbers of their connections, in a search tree: a link that opens or ends costs the others nothing.
    tellers: BTreeMap<u32, Teller>,
}

// By hand, so that the ends of the types below are proved here alone.
impl Drop for Office {
    fn drop(self) {
        let Self { core, tellers } = self;
        drop(core);
        drop(tellers);
    }
}

impl Model for Office {
    ghost use Rattle.login_office.specs.Offices.{OfficeState};
    ghost use Rattle.login_office.specs.inner.Inside.{IsOffice};

    ghost Value = { OfficeState };

    ghost view = { λ o. record { core = o.core; tellers = o.tellers.entries } };

    ghost invariant = { λ o. IsOffice o.core o.tellers.entries };
}

impl Office {
    /// The core of a setup, before the first event, with no link.
    pub fn new(alloc: Global, setup: Setup) -> Result<Office, NoMemory>
        requires set_up { IsSetup setup }
        requires allowed { IsAllowed setup.conf }
        ensures setup { IfOk result (λ office. office.core.setup ≡ setup) }
        ensures journal { IfOk result (λ office. office.core.journal ≡ []) }
        ensures tellers { IfOk result (λ office. office.tellers ≡ []) }
    {
        Ok(Office {
            core: Core::new(alloc, setup)?,
            tellers: BTreeMap::new(alloc),
        })
    }

    /// Opens a link, with a client that is to be this user. Its mail is looked for from the first entry on, since its
    /// number may be one that was connected before.
    pub fn open_link(&mut self, alloc: Global, c: ConnId, uid: Uid) -> Result<(), NoMemory>
        requires unused { teller_of self.old c ≡ None }
        ensures opened { OnOk result (Opens self.old c uid [] self.new) }
        ensures others { KeepsOthers self.old c self.new }
        ensures err { OnErr result (self.new ≡ self.old) }
    {
        let teller = Teller::new(alloc, c, uid, &self.core.setup().guid)?;
        self.tellers.insert(c.0, teller)?;
        Ok(())
    }

    /// Opens a link under a number that no connect had, with a client that is to be this user. Its mail is looked for
    /// behind the journal alone, so what stands there costs it nothing.
    pub fn open_new_link(&mut self, alloc: Global, c: ConnId, uid: Uid) -> Result<(), NoMemory>
        requires unused { teller_of self.old c ≡ None }
        requires new { IsUnused c self.old.core.journal }
        ensures opened { OnOk result (Opens self.old c uid self.old.core.journal self.new) }
        ensures others { KeepsOthers self.old c self.new }
        ensures err { OnErr result (self.new ≡ self.old) }
    {
        let guid = &self.core.setup().guid;
        let teller = Teller::behind(alloc, c, uid, guid, self.core.journal())?;
        self.tellers.insert(c.0, teller)?;
        Ok(())
    }

    /// Whether a link was opened, and is not forgotten.
    pub fn is_open(&self, c: ConnId) -> bool
        ensures { IsTrue result ↔ IsSome (teller_of self.now c) }
    {
        self.tellers.contains_key(&c.0)
    }

    /// Whether no link is open, that is, whether none was opened that is not forgotten.
    pub fn has_no_links(&self) -> bool
        ensures { IsTrue result ↔ ((c : AnyConn) → teller_of self.now c ≡ None) }
    {
        self.tellers.is_empty()
    }

    /// Hears what the client of a link sent next, as its teller does.
    pub fn hear(&mut self, alloc: Global, c: ConnId, piece: &[u8]) -> Result<HeardPiece, NoMemory>
        requires opened { IsSome (teller_of self.old c) }
        // The link goes on as one that hears all bytes at once.
        ensures heard { IfOk result (λ heard. GoesOn self.old c self.new (λ old new. Hears old piece.now new heard)) }
        ensures link { IfOk result (λ heard. GoesOn self.old c self.new KeepsLink) }
        ensures calls { IfOk result (λ heard. MayCome c heard.calls) }

        // A link that has ended stays as it is, and gives nothing more.
        ensures ended { (teller : TellerState) (end : LinkEnd) → teller_of self.old c ≡ Some teller → HasEnded teller end → IsEnded result end }
        ensures still { (teller : TellerState) (end : LinkEnd) → teller_of self.old c ≡ Some teller → HasEnded teller end → self.new ≡ self.old }
        ensures others { KeepsOthers self.old c self.new }
        ensures err { OnErr result (self.new ≡ self.old) }
    {
        match self.tellers.get_mut(&c.0) {
            Some(teller) => teller.hear(alloc, piece),
            None => unreachable!(),
        }
    }

    /// The mail of a link that is due by the journal and was not fetched. After want of memory it is still due.
    pub fn mail(&mut self, alloc: Global, c: ConnId) -> Result<Bytes, NoMemory>
        requires opened { IsSome (teller_of self.old c) }
        ensures fetched { IfOk result (λ bytes. GoesOn self.old c self.new (λ old new. Fetches old self.old.core.journal new bytes)) }
        ensures others { KeepsOthers self.old c self.new }
        ensures err { OnErr result (self.new ≡ self.old) }
    {
        match self.tellers.get_mut(&c.0) {
            Some(teller) => teller.mail(alloc, self.core.journal()),
            None => unreachable!(),
        }
    }

    /// Forgets a link. It takes no memory.
    pub fn forget(&mut self, c: ConnId)
        ensures gone { teller_of self.new c ≡ None }
        ensures others { KeepsOthers self.old c self.new }
    {
        self.tellers.remove(&c.0);
    }

    /// Makes ready for an event, as the core does.
    pub fn room(&mut self, event: &Event) -> Result<(), Refused>
        requires asked { IsAsked self.old.core.journal event.now }
        ensures gives { RoomGives self.old.core self.new.core event.now result }
        ensures kept { result ≡ Err Refused.NoMemory → always_fits event.now ≡ false }
        ensures refused { IfErr result (λ why. why ≢ Refused.NoMemory → self.new ≡ self.old) }
        ensures same { IsSame self.old self.new }
    {
        self.core.room(event)
    }

    /// Steps an event that room was made for, as the core does. It takes no memory.
    pub fn act(&mut self, event: Event) -> &Entry
        requires ready { IsReady self.old.core event }
        requires placed { IsPlaced self.old.core.journal event }
        ensures event { result.now.event ≡ event }
        ensures lawful { IsLawful self.old.core.setup (self.old.core.journal ++ result.now ∷ []) }
        ensures* after { sem 𝓛 (Rests the_row self.entry (λ office. Appends self.old result.now office)) }
    {
        self.core.step(event)
    }

    /// Steps the disconnect of a connection, as the core does. It takes no memory.
    pub fn close_link(&mut self, c: ConnId) -> &Entry
        requires connected { is_connected (trail_of self.old.core.journal) c ≡ true }
        ensures event { result.now.event ≡ Disconnect c }
        ensures lawful { IsLawful self.old.core.setup (self.old.core.journal ++ result.now ∷ []) }
        ensures* after { sem 𝓛 (Rests the_row self.entry (λ office. Appends self.old result.now office)) }
    {
        self.core.close_link(c)
    }

    /// The core as it is now.
    pub fn core(&self) -> &Core
        ensures { result.now ≡ self.now.core }
    {
        &self.core
    }
}
