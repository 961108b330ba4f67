// Who is on a terminal, who has a seat, and who is active on one.

ghost use Rattle.std.specs.Prelude.{◌≡◌, ◌&&◌};
ghost use Rattle.login_model.specs.Facts.{is_seated_of};
ghost use Rattle.login_model.specs.Names.{IsNext, names, session_in, session_lt};
ghost use Rattle.login_model.specs.Standing.{has_active, has_seat, is_active_of};
ghost use Rattle.login_model.specs.Trail.{value};
ghost use Rattle.login_model.specs.Where.{is_acting, session_on};
ghost use Rattle.login_model.specs.declared.fact.Key.TheVariants.{Sess};
ghost use Rattle.login_core.specs.inner.Seated.{seated-enumerated};

use crate::board::choosing::{Tells, least_that};
use crate::board::so_far::SoFar;
use login_base::SessId;
use login_facts::{first_thing, session_of};
use login_model::{Fact, Key, Look};

/// The open sessions of a user that have a seat.
#[derive(Drop)]
struct SeatedOf<'a>(&'a SoFar<'a>, u32);

impl<'a> Tells<SessId> for SeatedOf<'a> {
    ghost lt = { session_lt };

    ghost is_told = { λ these s. is_seated_of these.1 (value these.0.now (Sess s)) };

    ghost among = { λ these. names session_lt session_in these.0.now };

    ghost whole = { λ these. seated-enumerated these.0.now these.1 };

    fn next(&self, above: Option<SessId>) -> Option<SessId>
        ensures { IsNext session_lt (λ s. is_seated_of self.now.1 (value self.now.0.now (Sess s))) above result }
    {
        self.0.next_seated(self.1, above)
    }
}

impl<'a> SoFar<'a> {
    /// The open session of seat0 that has a terminal.
    pub fn session_on(&self, vt: u32) -> Option<SessId>
        ensures { result ≡ session_on self.now vt }
    {
        session_of(first_thing(self.facts().of_terminal(vt)))
    }

    /// The least session above that one that is an open one of a user, and has a seat.
    fn next_seated(&self, uid: u32, above: Option<SessId>) -> Option<SessId>
        ensures { IsNext session_lt (λ s. is_seated_of uid (value self.now (Sess s))) above result }
    {
        session_of(first_thing(self.facts().of_user(uid, above)))
    }

    /// Whether an open session of a user has a seat.
    pub fn has_seat(&self, uid: u32) -> bool
        ensures { result ≡ has_seat self.now uid }
    {
        self.next_seated(uid, None).is_some()
    }

    /// Whether another seat than seat0 has a session of this fact as its active one.
    fn is_acting(&self, session: SessId, fact: &Fact) -> bool
        ensures { result ≡ is_acting self.now session fact.now }
    {
        match fact.seat() {
            Some(seat) => {
                fact.is_open() && !seat.is_seat0() && self.fact(&Key::Act(seat)).is_acting(session)
            }
            None => false,
        }
    }

    /// Whether a session is an open one of a user, and active on its seat.
    fn is_active_of(&self, uid: u32, session: SessId) -> bool
        ensures { result ≡ is_active_of self.now uid session }
    {
        let fact = self.fact(&Key::Sess(session));
        fact.is_open_of(uid)
            && (fact.is_on_terminal(self.fact(&Key::Vt)) || self.is_acting(session, fact))
    }

    /// Whether an open session of a user is active on its seat. It goes over the user's own that have a seat.
    pub fn has_active(&self, uid: u32) -> bool
        ensures { result ≡ has_active self.now uid }
    {
        let active = least_that(&SeatedOf(&*self, uid), None, |session: SessId| {
            self.is_active_of(uid, session)
        });
        active.is_some()
    }
}
