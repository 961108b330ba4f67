// How sessions are created.

ghost use Rattle.std.specs.Prelude.{◌≡◌, Some, None};
ghost use Rattle.login_model.specs.Trail.{put};
ghost use Rattle.login_model.specs.Fresh.{next_session, next_handle};
ghost use Rattle.login_model.specs.Start.{seat0};
ghost use Rattle.login_model.specs.Where.{active_on};
ghost use Rattle.login_model.specs.Procedure.{take_seat};
ghost use Rattle.login_model.specs.Creating.{appear_on, create, created_session, session_texts};
ghost use Rattle.login_core.specs.inner.Draft.{marked_by, Fits};
ghost use Rattle.login_facts.specs.Dues.{WasConnected};

use crate::board::Draft;
use crate::creating::created::{created_session, seat_of};
use crate::room::copies::Copies;
use login_base::{ConnId, HandleNo, SeatName, SessId};
use login_model::{Boxed, Creation, Fact, Key, Look, Notice, Owner, Session};
use login_table::{active_on, is_active};

/// The session that a call creates, for its mark and for the facts.
fn created_twice(
    who: ConnId,
    creation: &Creation,
    fifo: HandleNo,
    copies: Copies,
) -> (Boxed<Session>, Boxed<Session>)
    requires mark { copies.mark ≡ session_texts creation.now }
    requires fact { copies.fact ≡ session_texts creation.now }
    ensures mark { result.0 ≡ created_session who creation.now fifo }
    ensures fact { result.1 ≡ created_session who creation.now fifo }
{
    let Copies {
        mark,
        fact,
        mark_slot,
        fact_slot,
    } = copies;
    let mark = created_session(who, creation, fifo, mark);
    let fact = created_session(who, creation, fifo, fact);
    (mark_slot.fill(mark), fact_slot.fill(fact))
}

#[tactic(auto, using(crate::proofs::Growing::growing, crate::proofs::Appearing::appearing))]
impl Draft {
    /// Another session is the active one of its seat, which has no virtual terminals.
    fn replace_active(&mut self, seat: SeatName, session: SessId)
        requires room { Fits (λ t. take_seat seat session (active_on t seat) t) self.old }
        ensures marked { self.new ≡ marked_by (λ t. take_seat seat session (active_on t seat) t) self.old }
    {
        let old = active_on(self, seat);
        self.take_seat(seat, session, old);
    }

    fn appear_at(&mut self, seat: SeatName, session: SessId)
        requires room { Fits (appear_on (Some seat) session) self.old }
        ensures marked { self.new ≡ marked_by (appear_on (Some seat) session) self.old }
    {
        if seat.is_seat0() {
            if is_active(self, session) {
                self.tell_all(Notice::Active(SeatName::SEAT0, None, Some(session)));
            }
        } else {
            self.replace_active(seat, session);
        }
    }

    /// A new session of seat0 is active where its terminal is the current one, and all are told so; on
    /// another seat it becomes the active one.
    fn appear_on(&mut self, seat: Option<SeatName>, session: SessId)
        requires room { Fits (appear_on seat session) self.old }
        ensures marked { self.new ≡ marked_by (appear_on seat session) self.old }
    {
        if let Some(seat) = seat {
            self.appear_at(seat, session);
        }
    }

    /// A session is as it is created. It comes twice: for the mark and for the facts.
    fn put_session(&mut self, session: SessId, created: Boxed<Session>, copy: Boxed<Session>)
        requires copy { copy ≡ created }
        requires room { Fits (put (Key.Sess session) (Fact.Session created)) self.old }
        ensures marked { self.new ≡ marked_by (put (Key.Sess session) (Fact.Session created)) self.old }
    {
        self.put(
            Key::Sess(session),
            Fact::Session(created),
            Fact::Session(copy),
        );
    }

    /// A session of this number is created, whose fifo is the handle of this number.
    #[tactic(auto, using(crate::proofs::Growing::growing, crate::proofs::Appearing::appearing), unfolding(login_model::specs::Creating::create))]
    fn create_numbered(
        &mut self,
        who: ConnId,
        creation: &Creation,
        session: SessId,
        fifo: HandleNo,
        copies: Copies,
    )
        requires known { WasConnected self.old.trail who }
        requires mark { copies.mark ≡ session_texts creation.now }
        requires fact { copies.fact ≡ session_texts creation.now }
        requires room { Fits (create who creation.now session fifo) self.old }
        ensures marked { self.new ≡ marked_by (create who creation.now session fifo) self.old }
    {
        let (created, copy) = created_twice(who, creation, fifo, copies);
        let seat = seat_of(creation.seat.as_slice());
        self.know(creation.uid);
        self.put_owner(fifo, Owner::Fifo(who, session));
        self.put_session(session, created, copy);
        self.tell_all(Notice::SessionNew(session));
        self.appear_on(seat, session);
    }

    /// A session is created, with the next number and the next handle. Its texts come as two copies.
    pub fn create(&mut self, who: ConnId, creation: &Creation, copies: Copies)
        requires known { WasConnected self.old.trail who }
        requires mark { copies.mark ≡ session_texts creation.now }
        requires fact { copies.fact ≡ session_texts creation.now }
        requires room { Fits (λ t. create who creation.now (next_session t) (next_handle t) t) self.old }
        ensures marked { self.new ≡ marked_by (λ t. create who creation.now (next_session t) (next_handle t) t) self.old }
    {
        let session = self.fresh_session();
        let fifo = self.fresh_handle();
        self.create_numbered(who, creation, session, fifo, copies);
    }
}
