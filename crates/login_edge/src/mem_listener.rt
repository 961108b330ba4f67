// A listener in memory. Of its calls those whose numbers are listed fail.

ghost use Rattle.std.specs.Prelude.{◌≡◌, ◌^◌, ◌-◌, ◌↔◌, ◌⊎◌, [], Some, None, IfOk, IfSome, Contains, length, false, refl};
ghost use Rattle.std.specs.Option.{option_map};
ghost use Rattle.login_edge.specs.Register.{OpenCause, AcceptCause, Numbers, accepted, IsOut, IsBack, given_back};
ghost use Rattle.login_edge.specs.Faults.{one_more};
ghost use Rattle.login_edge.specs.ListenerInMemory.{Arrives};

use crate::link::Link;
use crate::listener::{Accepted, Listener, Opened};
use crate::mem_link::MemLink;
use crate::memory::is_listed;
use login_base::{ConnId, Items, NoMemory, Uid};
use std::alloc::Global;
use std::collections::VecDeque;
use std::marker::Model;
use std::snapshot::Snapshot;

/// What a listener in memory answers next.
#[derive(Drop)]
pub enum Arrival {
    /// This link comes, of this user.
    Link(MemLink, Uid),
    /// No link is ready, once.
    Quiet,
    /// No link comes any more. What stands behind it is answered if it is asked again.
    Closed,
}

/// A link that came, and where it is put when it is given back.
#[derive(Drop)]
struct Slot {
    came: Snapshot<MemLink>,
    uid: Uid,
    back: Option<MemLink>,
}

/// A listener that answers its script, and then that no link comes any more, and keeps each link that is
/// given back in its place.
///
/// The calls of `open` and `accept`, counted together, whose numbers, from 1, are listed fail. So do
/// the calls of `accept` once it was called 2^64 - 1 times. A failed call leaves the script where it was. The
/// counts of calls stand still at their last value.
#[derive(Drop)]
pub struct MemListener {
    script: VecDeque<Arrival>,
    slots: Vec<Slot>,
    asked: u64,
    closed: bool,
    fails: Items<u64>,
    calls: u64,
    faults: u64,
}

impl Model for MemListener {
    ghost use Rattle.std.specs.Prelude.{map, length, ◌+◌, ◌≤◌, vec_len, vec_capacity};
    ghost use Rattle.login_edge.specs.ListenerInMemory.{ListenerState};
    ghost use Rattle.login_edge.specs.inner.Slots.{arrived};

    ghost Value = { ListenerState };

    ghost view = { λ l. record {
      script = l.script.items;
      register = record { asked = l.asked; closed = l.closed; links = map arrived l.slots.items };
      fails = l.fails;
      calls = l.calls;
      faults = l.faults;
    } };

    ghost invariant = { λ l. vec_len l.slots + length l.script.items ≤ vec_capacity l.slots };
}

impl MemListener {
    /// A listener with this script. All its memory is taken here.
    pub fn new(
        alloc: Global,
        script: Items<Arrival>,
        fails: Items<u64>,
    ) -> Result<MemListener, NoMemory>
        ensures script { IfOk result (λ listener. listener.script ≡ script) }
        ensures links { IfOk result (λ listener. listener.register.links ≡ []) }
        ensures asked { IfOk result (λ listener. (listener.register.asked ≡ 0) × (listener.register.closed ≡ false)) }
        ensures fails { IfOk result (λ listener. listener.fails ≡ fails) }
        ensures counts { IfOk result (λ listener. (listener.calls ≡ 0) × (listener.faults ≡ 0)) }
    {
        let slots = Vec::with_capacity(alloc, script.len())?;
        Ok(MemListener {
            script: VecDeque::from_vec(script.into_vec()),
            slots,
            asked: 0,
            closed: false,
            fails,
            calls: 0,
            faults: 0,
        })
    }

    /// The link of this number, as it was given back. There is none where it is still out, or never came.
    pub fn link(&self, c: ConnId) -> Option<&MemLink>
        ensures back { IfSome result (λ link. IsBack c.0 link.now self.now.register.links) }
        ensures none { result ≡ None → (l : _) → IsBack c.0 l self.now.register.links → ⊥ }
    {
        let number = c.0 as usize;
        if number == 0 || self.slots.len() < number {
            return None;
        }
        let slot = &self.slots[number - 1];
        match &slot.back {
            Some(link) => Some(link),
            None => None,
        }
    }
}

impl Listener for MemListener {
    type Link = MemLink;

    ghost given = { λ l. length l.register.links };

    ghost told = { λ l. Some l.register };

    ghost faults = { λ l. l.faults };

    ghost counted = { λ l. refl };

    fn open(&mut self, _dir: &[u8], _uids: &Items<Uid>) -> Opened
        ensures tells { Some self.new.register ≡ Some self.old.register }
        ensures given { length self.new.register.links ≡ length self.old.register.links }
        ensures cause { OpenCause self.old.faults self.new.faults result }

        ensures fails { (result ≡ Opened.Failed) ↔ Contains self.old.fails self.new.calls }
        ensures faults { result ≡ Opened.Failed → self.new.faults ≡ one_more self.old.faults }
        ensures calls { self.new.calls ≡ one_more self.old.calls }
        ensures script { (self.new.script ≡ self.old.script) × (self.new.fails ≡ self.old.fails) }
    {
        self.calls = self.calls.saturating_add(1);
        if is_listed(&self.fails, self.calls) {
            self.faults = self.faults.saturating_add(1);
            return Opened::Failed;
        }
        Opened::Ready
    }

    fn accept(&mut self) -> Accepted<MemLink>
        ensures tells { Some self.new.register ≡ option_map (accepted result) (Some self.old.register) }
        ensures numbers { Numbers (λ link. link.number) (length self.old.register.links) (length self.new.register.links) result }
        ensures cause { AcceptCause self.old.faults self.new.faults result }

        ensures fails { (result ≡ Accepted.Failed)
            ↔ (Contains self.old.fails self.new.calls ⊎ (self.old.register.asked ≡ 2 ^ 64 - 1)) }
        ensures faults { result ≡ Accepted.Failed → self.new.faults ≡ one_more self.old.faults }
        ensures arrives { Arrives self.old.script self.new.script result }
        ensures calls { self.new.calls ≡ one_more self.old.calls }
        ensures listed { self.new.fails ≡ self.old.fails }
    {
        let is_spent = self.asked == u64::MAX;
        self.asked = self.asked.saturating_add(1);
        self.calls = self.calls.saturating_add(1);
        if is_spent || is_listed(&self.fails, self.calls) {
            self.faults = self.faults.saturating_add(1);
            return Accepted::Failed;
        }
        match self.script.pop_front() {
            None => {
                self.closed = true;
                Accepted::Closed
            }
            Some(Arrival::Closed) => {
                self.closed = true;
                Accepted::Closed
            }
            Some(Arrival::Quiet) => Accepted::Quiet,
            Some(Arrival::Link(link, uid)) => {
                let link = link.numbered(self.slots.len() + 1);
                self.slots.push_reserved(Slot {
                    came: Snapshot::of(&link),
                    uid,
                    back: None,
                });
                Accepted::Came(link, uid)
            }
        }
    }

    fn give_back(&mut self, c: ConnId, link: MemLink)
        requires number { link.number ≡ c.0 }
        requires out { IfSome (Some self.old.register) (λ r. IsOut c.0 r.links) }
        ensures tells { Some self.new.register ≡ option_map (given_back c.0 link) (Some self.old.register) }
        ensures given { length self.new.register.links ≡ length self.old.register.links }
        ensures faults { self.new.faults ≡ self.old.faults }

        ensures script { (self.new.script ≡ self.old.script) × (self.new.fails ≡ self.old.fails) }
        ensures calls { self.new.calls ≡ self.old.calls }
    {
        self.slots[c.0 as usize - 1].back = Some(link);
    }
}
