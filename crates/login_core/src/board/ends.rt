// The room of the ends of connections, each for the marks that its own end may make.

ghost use Rattle.std.specs.Prelude.{◌≡◌, ◌+◌, ◌<◌, ◌≤◌, ◌^◌, OnOk};
ghost use Rattle.login_laws.specs.Shares.{concerns, most_share_rise, share};
ghost use Rattle.login_core.specs.State.{NextIsWide, may_raise};
ghost use Rattle.login_core.specs.inner.Board.{IsBegun};
ghost use Rattle.login_core.specs.inner.Draft.{reaching};
ghost use Rattle.login_core.specs.inner.Concerning.{AreActive, is_named, is_who};
ghost use Rattle.login_core.specs.inner.Ends.{BeginsEnds, BeginsReach, CanWelcome, IsSoundHere, IsWide, IsWidened, WelcomesEnds};
ghost use Rattle.login_core.specs.inner.Inside.{HaveEnds};
ghost use Rattle.login_core.specs.inner.Ledger.{end_room, next_room};
ghost use Rattle.login_model.specs.Legal.{trail_of};

use crate::board::{Board, Draft};
use login_base::{ConnId, NoMemory};
use login_model::{Event, Verdict};

impl Draft {
    /// The most marks that the end of a connection may make behind an event which concerns it. The others are who has the
    /// session that is active on seat0.
    fn most_end_marks(&self, active: &[Option<ConnId>], who: ConnId) -> u64
        requires sound { IsSoundHere self.now.trail }
        requires active { AreActive self.now.trail active.now }
        ensures { result ≡ share who self.now.trail + most_share_rise who self.now.trail }
    {
        self.share_of(who) + self.most_share_rise(active, who)
    }
}

impl Board {
    /// The connection that there may be gets room for the marks that its end may make behind an event which concerns
    /// it.
    fn widen_end(&mut self, active: &[Option<ConnId>], one: Option<ConnId>) -> Result<(), NoMemory>
        requires sound { IsSoundHere self.old.draft.trail }
        requires active { AreActive self.old.draft.trail active.now }
        ensures wide { OnOk result (IsWide (λ c. is_who c one) self.old self.new) }
        ensures same { IsWidened self.old self.new }
    {
        match one {
            Some(who) => {
                let marks = self.draft.most_end_marks(active, who);
                self.journal.reserve_end(who, marks)
            }
            None => Ok(()),
        }
    }

    /// Each of these connections gets room for the marks that its end may make behind an event which concerns it.
    fn widen_ends(
        &mut self,
        active: &[Option<ConnId>],
        named: &[Option<ConnId>],
    ) -> Result<(), NoMemory>
        requires sound { IsSoundHere self.old.draft.trail }
        requires active { AreActive self.old.draft.trail active.now }
        ensures wide { OnOk result (IsWide (λ c. is_named c named.now) self.old self.new) }
        ensures same { IsWidened self.old self.new }
    {
        for one in named {
            self.widen_end(active, *one)?;
        }
        Ok(())
    }

    /// A connection that is let in gets room for the marks that its end may make.
    fn prepare_end(&mut self, active: &[Option<ConnId>], event: &Event) -> Result<(), NoMemory>
        requires sound { IsSoundHere self.old.draft.trail }
        requires active { AreActive self.old.draft.trail active.now }
        ensures next { OnOk result (NextIsWide Verdict.Granted self.old.draft.trail event.now (next_room self.new.journal)) }
        ensures same { IsWidened self.old self.new }
    {
        match event {
            Event::Connect(who, _) => {
                let marks = self.draft.most_end_marks(active, *who);
                self.journal.prepare_end(marks)
            }
            _ => Ok(()),
        }
    }

    /// Makes room for the ends of the connections that a granted event concerns, and for that of one that comes.
    fn make_ends_behind(&mut self, event: &Event) -> Result<(), NoMemory>
        requires { IsSoundHere self.old.draft.trail }
        ensures wide { OnOk result (IsWide (λ c. concerns self.old.draft.trail event.now c) self.old self.new) }
        ensures next { OnOk result (NextIsWide Verdict.Granted self.old.draft.trail event.now (next_room self.new.journal)) }
        ensures same { IsWidened self.old self.new }
    {
        let active = self.draft.active_holders();
        let touched = self.draft.touched(event);
        self.widen_ends(&active, &touched)?;
        self.widen_ends(&active, &active)?;
        self.prepare_end(&active, event)
    }

    /// Makes room for what the ends of connections may make behind an event with this verdict. One that is denied
    /// changes nothing, so it gets none.
    pub fn make_ends(&mut self, event: &Event, verdict: Verdict) -> Result<(), NoMemory>
        requires sound { IsSoundHere self.old.draft.trail }
        requires no_marks { self.old.draft.trail ≡ trail_of self.old.journal.items }
        ensures wide { OnOk result (IsWide (λ c. may_raise verdict self.old.draft.trail event.now c) self.old self.new) }
        ensures next { OnOk result (NextIsWide verdict self.old.draft.trail event.now (next_room self.new.journal)) }
        ensures same { IsWidened self.old self.new }
        ensures have { HaveEnds (end_room self.old.journal) (trail_of self.old.journal.items) → HaveEnds (end_room self.new.journal) (trail_of self.new.journal.items) }
    {
        match verdict {
            Verdict::Granted => self.make_ends_behind(event),
            Verdict::Denied(_) => Ok(()),
        }
    }

    /// An event begins: that of a connection's end gets the list that was kept for it. It takes no memory.
    pub fn begin(&mut self, event: &Event)
        requires begun { IsBegun self.old }
        requires no_marks { self.old.draft.trail ≡ self.old.draft.before }
        ensures reach { BeginsReach event.now self.old self.new.draft.reach }
        ensures draft { self.new.draft ≡ reaching self.new.draft.reach self.old.draft.far self.old.draft }
        ensures ends { BeginsEnds event.now (end_room self.old.journal) (end_room self.new.journal) }
        ensures next { next_room self.old.journal ≤ next_room self.new.journal }
        ensures items { self.new.journal.items ≡ self.old.journal.items }
        ensures entries { self.new.journal.entries ≡ self.old.journal.entries }
        ensures begun { IsBegun self.new }
    {
        if let Event::Disconnect(who) = event {
            self.begin_end(*who);
        }
    }

    /// A connection that comes gets the list that was made for its end. It takes no memory.
    pub fn welcome(&mut self, event: &Event, verdict: Verdict)
        requires begun { IsBegun self.old }
        requires room { CanWelcome verdict event.now (next_room self.old.journal) }
        ensures ends { WelcomesEnds verdict event.now (next_room self.old.journal) (end_room self.old.journal) (end_room self.new.journal) }
        ensures draft { self.new.draft ≡ self.old.draft }
        ensures items { self.new.journal.items ≡ self.old.journal.items }
        ensures entries { self.new.journal.entries ≡ self.old.journal.entries }
        ensures begun { IsBegun self.new }
    {
        if let (Event::Connect(who, _), Verdict::Granted) = (event, verdict) {
            self.journal.admit(*who);
        }
    }
}
