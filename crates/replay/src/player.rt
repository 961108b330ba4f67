// A player of a recording: a core with the tellers of links, and which numbers connects and links had.

ghost use Rattle.std.specs.Prelude.{◌≡◌, ◌↔◌, [], IsTrue, IfOk, OnOk, None, List};
ghost use Rattle.login_model.specs.Conf.{IsAllowed};
ghost use Rattle.login_model.specs.Legal.{IsUnused};
ghost use Rattle.login_model.specs.Setups.{IsSetup};
ghost use Rattle.login_office.specs.Offices.{teller_of};
ghost use Rattle.replay.specs.Links.{is_open_link};
ghost use Rattle.replay.specs.Played.{Played, journal_of, played_lines};
ghost use Rattle.replay.specs.Recording.{IsNoLink};
ghost use Rattle.replay.specs.inner.Player.{OpensLink, StandsBehind, Uses, user_at};

use login_base::{ConnId, NoMemory, Uid};
use login_core::Core;
use login_model::{Event, Setup};
use login_office::Office;
use std::alloc::Global;
use std::collections::{BTreeMap, BTreeSet};
use std::marker::Model;

/// A core with the tellers of links, the numbers that connects and links had, and the open links.
#[derive(Drop)]
pub struct Player {
    pub(crate) office: Office,
    /// The numbers that connects and links had, in a search tree: a connect that was denied leaves no fact, and
    /// its number is used all the same.
    pub(crate) used: BTreeSet<u32>,
    /// The links whose input has not ended, each with its user.
    pub(crate) links: BTreeMap<u32, Uid>,
}

impl Model for Player {
    ghost use Rattle.replay.specs.inner.Player.{PlayerState};

    ghost Value = { PlayerState };

    ghost view = { λ p. record { office = p.office; used = p.used; links = p.links.entries } };
}

impl Player {
    /// The player of a setup, before the first line.
    pub fn new(alloc: Global, setup: Setup) -> Result<Player, NoMemory>
        requires setup { IsSetup setup }
        requires allowed { IsAllowed setup.conf }
        ensures setup { IfOk result (λ player. player.office.core.setup ≡ setup) }
        ensures stands { IfOk result (λ player. StandsBehind player []) }
    {
        let office = Office::new(alloc, setup)?;
        Ok(Player {
            office,
            used: BTreeSet::new(alloc),
            links: BTreeMap::new(alloc),
        })
    }

    /// The core as it is now.
    pub fn core(&self) -> &Core
        ensures { result.now ≡ self.now.office.core }
    {
        self.office.core()
    }

    /// Whether no connect and no link had this number. The time grows with the logarithm of how many there were.
    pub fn is_unused(&self, who: ConnId) -> bool
        ensures { (played : List Played) → StandsBehind self.now played
            → IsTrue result ↔ (IsUnused who (journal_of played) × IsNoLink (played_lines played) who) }
    {
        !self.used.contains(&who.0)
    }

    /// The user of an open link.
    pub fn open_user(&self, who: ConnId) -> Option<Uid>
        ensures { result ≡ user_at who.0 self.now.links }
    {
        self.links.get(&who.0).copied()
    }

    /// Whether a link is open.
    pub fn is_open(&self, who: ConnId) -> bool
        ensures { (played : List Played) → StandsBehind self.now played → result ≡ is_open_link (played_lines played) who }
    {
        self.links.contains_key(&who.0)
    }

    /// Opens a link under a number that no connect had. It is used from now on.
    pub fn open_link(&mut self, alloc: Global, who: ConnId, user: Uid) -> Result<(), NoMemory>
        requires closed { teller_of self.old.office who ≡ None }
        requires new { IsUnused who self.old.office.core.journal }
        ensures { OnOk result (OpensLink self.old who user self.new) }
    {
        self.used.insert(who.0)?;
        self.links.insert(who.0, user)?;
        self.office.open_new_link(alloc, who, user)
    }

    /// Keeps the number of an event that is a connect.
    pub fn keep_number(&mut self, event: &Event) -> Result<(), NoMemory>
        ensures used { OnOk result (Uses self.old.used event.now self.new.used) }
        ensures office { self.new.office ≡ self.old.office }
        ensures links { self.new.links ≡ self.old.links }
    {
        match event {
            Event::Connect(who, _) => {
                self.used.insert(who.0)?;
                Ok(())
            }
            Event::Disconnect(_)
            | Event::Call(_)
            | Event::Hardware(_)
            | Event::Tick(_)
            | Event::Stop => Ok(()),
        }
    }
}
