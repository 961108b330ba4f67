// Names that meet a test.

ghost use Rattle.std.specs.Prelude.{◌≡◌, ◌++◌, ◌∷◌, [], Bool, IfOk, OnOk, filter, find};
ghost use Rattle.login_model.specs.declared.fact.Key.TheVariants.{Dev, Sess};
ghost use Rattle.login_model.specs.Trail.{Trail, value};
ghost use Rattle.login_model.specs.Where.{is_on_seat, is_open, is_session_of, sessions};
ghost use Rattle.login_model.specs.Facts.{is_graphics_on};
ghost use Rattle.login_table.specs.Listed.{listed};

use crate::active::is_on_seat;
use crate::listed::Listed;
use crate::name::Name;
use login_base::{DevNo, Items, NoMemory, SeatName, SessId, Uid};
use login_model::{Key, Look};
use std::alloc::Global;

/// A test of names of one kind.
pub trait Test<N: Name> {
    /// Whether a name meets it, after these marks.
    ghost meets: { Self → Trail → N → Bool };

    /// Whether a name meets it.
    fn is_met<F: Look>(&self, facts: &F, name: N) -> bool
        ensures { result ≡ meets self.now (F.trail facts.now) name };
}

/// The session is open.
#[derive(Drop)]
pub struct IsOpen;

impl Test<SessId> for IsOpen {
    ghost meets = { λ test t s. is_open t s };

    fn is_met<F: Look>(&self, facts: &F, session: SessId) -> bool {
        facts.fact(&Key::Sess(session)).is_open()
    }
}

/// The session is this user's.
#[derive(Drop)]
pub struct OfUser(pub Uid);

impl Test<SessId> for OfUser {
    ghost meets = { λ test t s. is_session_of test.0.0 (value t (Sess s)) };

    fn is_met<F: Look>(&self, facts: &F, session: SessId) -> bool {
        facts.fact(&Key::Sess(session)).is_session_of(self.0.0)
    }
}

/// The session is on this seat.
#[derive(Drop)]
pub struct OnSeat(pub SeatName);

impl Test<SessId> for OnSeat {
    ghost meets = { λ test t s. is_on_seat t test.0 s };

    fn is_met<F: Look>(&self, facts: &F, session: SessId) -> bool {
        is_on_seat(facts, self.0.as_slice(), session)
    }
}

/// The device is a graphics device on this seat.
#[derive(Drop)]
pub struct IsGraphicsOn(pub SeatName);

impl Test<DevNo> for IsGraphicsOn {
    ghost meets = { λ test t d. is_graphics_on test.0 (value t (Dev d)) };

    fn is_met<F: Look>(&self, facts: &F, device: DevNo) -> bool {
        facts
            .fact(&Key::Dev(device))
            .is_graphics_on(self.0.as_slice())
    }
}

/// The first name of a kind that is there and meets a test.
pub fn find_first<N: Listed, F: Look, T: Test<N>>(facts: &F, test: &T) -> Option<N>
    ensures { result ≡ find (T.meets test.now (F.trail facts.now)) (listed N.lt N.name_in N.key_of N.is_fact N.first (F.trail facts.now)) }
{
    let mut above = None;
    while let Some(name) = N::next(facts, above) {
        if test.is_met(facts, name) {
            return Some(name);
        }
        above = Some(name);
    }
    None
}

/// The first session that is not gone and meets a test.
#[tactic(auto, unfolding(login_model::specs::Where::sessions))]
pub fn find_session<F: Look, T: Test<SessId>>(facts: &F, test: &T) -> Option<SessId>
    ensures { result ≡ find (T.meets test.now (F.trail facts.now)) (sessions (F.trail facts.now)) }
{
    find_first(facts, test)
}

/// Puts a name behind others, if it meets a test.
fn push_met<N: Name + Drop, F: Look, T: Test<N>>(
    facts: &F,
    test: &T,
    names: &mut Items<N>,
    name: N,
) -> Result<(), NoMemory>
    ensures { OnOk result (names.new ≡ names.old ++ filter (T.meets test.now (F.trail facts.now)) (name ∷ [])) }
{
    if test.is_met(facts, name) {
        names.push(name)?;
    }
    Ok(())
}

/// All names of a kind that are there and meet a test, in order. It takes memory for these alone.
pub fn find_all<N: Listed + Drop, F: Look, T: Test<N>>(
    alloc: Global,
    facts: &F,
    test: &T,
) -> Result<Items<N>, NoMemory>
    ensures { IfOk result (λ names. names ≡ filter (T.meets test.now (F.trail facts.now)) (listed N.lt N.name_in N.key_of N.is_fact N.first (F.trail facts.now))) }
{
    let mut names = Items::new(alloc);
    let mut above = None;
    while let Some(name) = N::next(facts, above) {
        push_met(facts, test, &mut names, name)?;
        above = Some(name);
    }
    Ok(names)
}

/// All sessions that are not gone and meet a test, in order.
#[tactic(auto, unfolding(login_model::specs::Where::sessions))]
pub fn find_sessions<F: Look, T: Test<SessId>>(
    alloc: Global,
    facts: &F,
    test: &T,
) -> Result<Items<SessId>, NoMemory>
    ensures { IfOk result (λ found. found ≡ filter (T.meets test.now (F.trail facts.now)) (sessions (F.trail facts.now))) }
{
    find_all(alloc, facts, test)
}
