// The least name that meets a test, of those that are told one after the other.

ghost use Rattle.std.specs.Prelude.{◌≡◌, Bool, List};
ghost use Rattle.login_model.specs.Names.{IsNext, insert_some, names, session_lt};
ghost use Rattle.login_model.specs.Devices.{is_taken};
ghost use Rattle.login_model.specs.Where.{is_session};
ghost use Rattle.login_model.proofs.InOrder.{Enumerates, enumerated, takers-enumerated};
ghost use Rattle.login_model.proofs.NameLaws.{taker_in};
ghost use Rattle.login_table.specs.Listed.{is_there};
ghost use Rattle.login_core.specs.inner.Chosen.{IsNextSuch, is_chosen};

use crate::board::Draft;
use login_base::{DevNo, SessId};
use login_model::{Key, Look};
use login_table::{Listed, Test};

/// What tells names of one kind one after the other.
pub trait Tells<N> {
    ghost lt: { N → N → Bool };

    /// Whether a name is told.
    ghost is_told: { Self → N → Bool };

    /// Those that are told and others, ascending.
    ghost among: { Self → List N };

    /// The next of those that are told.
    fn next(&self, above: Option<N>) -> Option<N>
        ensures { IsNext lt (is_told self.now) above result };

    ghost whole: { (teller : Self) → Enumerates lt (is_told teller) (among teller) };
}

/// All of a kind that are there.
impl<N: Listed> Tells<N> for Draft {
    ghost lt = { N.lt };

    ghost is_told = { λ d n. is_there N.key_of N.is_fact d.trail n };

    ghost among = { λ d. insert_some N.lt N.first (names N.lt N.name_in d.trail) };

    ghost whole = { λ d. enumerated N.lt N.order N.name_in N.key_of N.is_fact N.first N.keys d.trail };

    fn next(&self, above: Option<N>) -> Option<N>
        ensures { IsNext N.lt (is_there N.key_of N.is_fact self.now.trail) above result }
    {
        N::next(self, above)
    }
}

/// The sessions that have a device taken.
#[derive(Drop)]
struct HaveTaken<'a>(&'a Draft, DevNo);

impl<'a> Tells<SessId> for HaveTaken<'a> {
    ghost lt = { session_lt };

    ghost is_told = { λ these s. is_taken these.0.now.trail s these.1 };

    ghost among = { λ these. names session_lt (taker_in these.1) these.0.now.trail };

    ghost whole = { λ these. takers-enumerated these.0.now.trail these.1 };

    fn next(&self, above: Option<SessId>) -> Option<SessId>
        ensures { IsNext session_lt (λ s. is_taken self.now.0.now.trail s self.now.1) above result }
    {
        self.0.next_taker(self.1, above)
    }
}

/// The least name above that one that is told and meets a test.
pub fn least_that<N: Copy, S: Tells<N>, F: Fn(N) -> bool>(
    teller: &S,
    above: Option<N>,
    is_met: F,
) -> Option<N>
    requires { F.IsAlwaysCallable is_met }
    ensures { IsNextSuch S.lt (S.is_told teller.now) (F.post is_met) above result }
{
    let mut from = above;
    while let Some(name) = teller.next(from) {
        if is_met(name) {
            return Some(name);
        }
        from = Some(name);
    }
    None
}

impl Draft {
    /// The least name of a kind above that one that is there and meets a test.
    pub fn next_that<N: Listed, T: Test<N>>(&self, test: &T, above: Option<N>) -> Option<N>
        ensures { IsNext N.lt (is_chosen (is_there N.key_of N.is_fact self.now.trail) (T.meets test.now self.now.trail)) above result }
    {
        least_that(self, above, |name| test.is_met(self, name))
    }

    /// The least session above that one that is there and has a device taken. It goes over those alone that have it
    /// taken.
    pub fn next_taker_there(&self, device: DevNo, above: Option<SessId>) -> Option<SessId>
        ensures { IsNext session_lt (is_chosen (is_session self.now.trail) (λ s. is_taken self.now.trail s device)) above result }
    {
        least_that(&HaveTaken(self, device), above, |session| {
            self.fact(&Key::Sess(session)).is_session()
        })
    }
}
