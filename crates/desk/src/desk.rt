// The desk.

ghost use Rattle.std.specs.Prelude.{◌≡◌, ◌<◌, [], IfOk, Some};
ghost use Rattle.desk.specs.History.{HasMade, StartsWith, entries, of_pass, of_who};
ghost use Rattle.desk.specs.Passes.{AreDistinct, EachJoined, HasNoOther, HasSeenAll, IsFirst, IsNew, JoinsPass, TakesTurn, most_passes};
ghost use Rattle.desk.specs.inner.Passes.{Closes, EndsTurn, IsSettled, Waited};
ghost use Rattle.desk.specs.inner.Steps.{HoldsTurn};
ghost use Rattle.desk.specs.Views.{first_view, after_split, split_view};

use crate::act::Act;
use crate::journaled::Journaled;
use crate::pass::Pass;
use crate::rule::{Place, Turns};
use crate::steps::{CatchUp, Connection, Draw, JoinInto, Look, Publish, SplitFor};
use crate::view::View;
use atomic_table::{Badge, Table};
use login_base::{ConnId, NoMemory};
use std::alloc::Global;
use std::marker::{Brand, Model};
use std::snapshot::Snapshot;
use std::sync::{Mutex, Wait};
use std::{mem, thread};

const TICKET: usize = 0;

const SERVING: usize = 1;

/// A value that threads take turns at, each by its pass. Contracts see which desk it is.
#[derive(Drop)]
pub struct Desk<V: Journaled> {
    table: Table<Option<V>, View<V::Setup, V::Entry>, Snapshot<V>, Turns, Global>,
    /// Where threads sleep until they may draw a ticket, so that one that drew it is served at once.
    queue: Mutex<()>,
}

impl<V: Journaled> Model for Desk<V> {
    ghost use Rattle.std.specs.Prelude.{◌≡◌};
    ghost use Rattle.atomic_table.specs.Seated.{TableId};

    ghost Value = { TableId };

    ghost view = { λ d. d.table.shared.table_id };

    ghost invariant = { λ d. (d.table.shared.table_id.words ≡ 2) × (d.table.shared.table_id.slots ≡ 1) };
}

impl<V: Journaled> Desk<V> {
    /// A desk for a value whose journal is empty, and its first pass.
    pub fn open(alloc: Global, value: V) -> Result<(Desk<V>, Pass<V::Setup, V::Entry>), NoMemory>
        requires { V.journal value ≡ [] }
        ensures desk { IfOk result (λ r. r.1.desk ≡ r.0) }
        ensures first { IfOk result (λ r. r.1.view ≡ first_view (V.setup value)) }
    {
        let about = Snapshot::of(&value);
        let mut slots = Vec::with_capacity(alloc, 1)?;
        slots.push_reserved(Some(value));
        let (table, seat) = Table::new(alloc, &[0, 0], slots, &about).map_err(|_| NoMemory)?;
        let pass = Pass {
            who: ConnId(0),
            badge: seat.into_badge(),
        };
        let queue = Mutex::new(());
        Ok((Desk { table, queue }, pass))
    }

    /// Splits a pass for a connection from the first. It has seen the same, and made nothing.
    pub fn split(
        &self,
        pass: &mut Pass<V::Setup, V::Entry>,
        who: ConnId,
    ) -> Pass<V::Setup, V::Entry>
        requires desk { pass.old.desk ≡ self.now }
        requires first { IsFirst pass.old.view }
        requires room { pass.old.view.made < most_passes }
        requires who { IsNew who.0 pass.old.view }
        ensures desk { (pass.new.desk ≡ pass.old.desk) × (result.desk ≡ pass.old.desk) }
        ensures first { pass.new.view ≡ after_split who.0 pass.old.view }
        ensures new { result.view ≡ split_view who.0 pass.old.view }
        ensures mine { of_pass result.view.number result.view.seen ≡ [] }
    {
        let mut seat = mem::replace(&mut pass.badge, Badge::blank()).into_seat();
        let other = self.split_as::<Brand>(&mut seat, who);
        pass.badge = seat.into_badge();
        Pass {
            who,
            badge: other.into_badge(),
        }
    }

    fn split_as<N: Connection>(&self, seat: &mut Place<V>, who: ConnId) -> Place<V>
        requires picked { N.who ≡ who.0 }
        requires seat { IsSettled self.now seat.old }
        requires first { IsFirst seat.old.me.0 }
        requires room { seat.old.me.0.made < most_passes }
        requires who { IsNew who.0 seat.old.me.0 }
        ensures first { IsSettled self.now seat.new × (seat.new.me.0 ≡ after_split who.0 seat.old.me.0) }
        ensures new { IsSettled self.now result × (result.me.0 ≡ split_view who.0 seat.old.me.0) }
    {
        let _ = who;
        self.table.shared.split_seat::<SplitFor<N>>(seat)
    }

    /// Joins a pass that was split from the first into it. The first has then seen all that both had
    /// seen.
    pub fn join(&self, into: &mut Pass<V::Setup, V::Entry>, from: Pass<V::Setup, V::Entry>)
        requires desk { (into.old.desk ≡ self.now) × (from.desk ≡ self.now) }
        requires first { IsFirst into.old.view }
        ensures desk { into.new.desk ≡ into.old.desk }
        ensures both { JoinsPass into.old.view from.view into.new.view }
    {
        let Pass { who: _, badge } = from;
        let mut seat = mem::replace(&mut into.badge, Badge::blank()).into_seat();
        self.merge(&mut seat, badge.into_seat());
        into.badge = seat.into_badge();
    }

    fn merge(&self, into: &mut Place<V>, from: Place<V>)
        requires into { IsSettled self.now into.old }
        requires from { IsSettled self.now from }
        requires first { IsFirst into.old.me.0 }
        ensures into { IsSettled self.now into.new }
        ensures both { JoinsPass into.old.me.0 from.me.0 into.new.me.0 }
    {
        self.table.shared.join_seat::<JoinInto>(into, from);
        self.table.shared.load::<CatchUp>(into, SERVING);
    }

    /// Gives the value back, once every pass that was split from the first was joined into it.
    pub fn close(self, pass: Pass<V::Setup, V::Entry>) -> V
        requires desk { pass.desk ≡ self }
        requires first { IsFirst pass.view }
        requires out { pass.view.out ≡ 0 }
        ensures setup { pass.view.setup ≡ Some (V.setup result) }
        ensures journal { V.journal result ≡ entries pass.view.seen }
        ensures own { HasMade V.who pass.view.seen 0 pass.view.who pass.view.mine }
        ensures joined { EachJoined pass.view (λ x. HasMade V.who pass.view.seen x.number x.who x.mine) }
        ensures joined_who { EachJoined pass.view (λ x. 0 < x.who → of_who V.who x.who (V.journal result) ≡ x.mine) }
        ensures not_first { EachJoined pass.view (λ x. 0 < x.number) }
        ensures distinct { AreDistinct pass.view }
        ensures no_other { HasNoOther pass.view }
    {
        let Pass { who: _, badge } = pass;
        self.shut(badge.into_seat())
    }

    fn shut(self, seat: Place<V>) -> V
        requires seat { IsSettled self seat }
        requires first { IsFirst seat.me.0 }
        requires out { seat.me.0.out ≡ 0 }
        ensures { Closes V.who seat.me.0 (V.setup result) (V.journal result) }
    {
        let Desk { table, queue: _ } = self;
        let mut closed = table.close_with(seat);
        let slot = closed.take(0);
        closed.free();
        let Some(value) = slot else { unreachable!() };
        value
    }

    /// Waits for a turn, and makes the act on the value.
    pub fn act<R: Wait, A: Act<V>>(
        &self,
        rt: &R,
        pass: &mut Pass<V::Setup, V::Entry>,
        act: &mut A,
    ) -> A::Answer
        requires desk { pass.old.desk ≡ self.now }
        requires may { 0 < pass.old.view.who → A.may act.old pass.old.view.mine }
        requires after { StartsWith (entries pass.old.view.seen) (A.after act.old) }
        ensures desk { pass.new.desk ≡ pass.old.desk }
        ensures turn { TakesTurn V.who (λ setup before after. A.does act.old pass.old.view.who setup before after act.new result) pass.old.view pass.new.view }
        ensures mine { of_pass pass.new.view.number pass.new.view.seen ≡ pass.new.view.mine }
        ensures who_mine { 0 < pass.new.view.who → of_who V.who pass.new.view.who (entries pass.new.view.seen) ≡ pass.new.view.mine }
        ensures all { HasSeenAll V.setup V.journal pass.new.view }
    {
        let mut seat = mem::replace(&mut pass.badge, Badge::blank()).into_seat();
        let place = self.queue.lock(rt);
        self.wait(rt, &mut seat);
        let answer = self.serve(&mut seat, pass.who, act);
        drop(place);
        pass.badge = seat.into_badge();
        answer
    }

    // Draws a ticket, and looks until it is served. The seat then holds the value.
    fn wait<R: Wait>(&self, rt: &R, seat: &mut Place<V>)
        requires { IsSettled self.now seat.old }
        ensures table { seat.new.table_id ≡ self.now }
        ensures turn { HoldsTurn V.who V.setup V.journal seat.new.me }
        ensures waited { Waited seat.old.me.0 seat.new.me.0 }
    {
        let table = &self.table.shared;
        let ticket = table.fetch_add::<Draw>(seat, TICKET, 1);
        for _ in rt.forever() {
            if table.load::<Look>(seat, SERVING) == ticket {
                return;
            }
            thread::yield_now();
        }
        unreachable!()
    }

    // The value moves out, the act is made, the value moves back, and what it gained is published.
    fn serve<A: Act<V>>(&self, seat: &mut Place<V>, who: ConnId, act: &mut A) -> A::Answer
        requires table { seat.old.table_id ≡ self.now }
        requires who { seat.old.me.0.who ≡ who.0 }
        requires turn { HoldsTurn V.who V.setup V.journal seat.old.me }
        requires inherited { seat.old.me.0.inherited ≡ [] }
        requires may { 0 < who.0 → A.may act.old seat.old.me.0.mine }
        requires after { StartsWith (entries seat.old.me.0.seen) (A.after act.old) }
        ensures seat { IsSettled self.now seat.new }
        ensures turn { EndsTurn V.who V.setup V.journal (λ setup before after. A.does act.old who.0 setup before after act.new result) seat.old.me.0 seat.new.me.0 }
    {
        let table = &self.table.shared;
        let Some(mut value) = table.exchange(seat, 0, None) else {
            unreachable!()
        };
        let answer = act.act(&mut value, who);
        let None = table.exchange(seat, 0, Some(value)) else {
            unreachable!()
        };
        table.fetch_add::<Publish>(seat, SERVING, 1);
        answer
    }
}
