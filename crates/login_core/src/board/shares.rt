// The share of each connection: the marks that its end may make, with what it settles.

ghost use Rattle.std.specs.Prelude.{◌≡◌, ◌<◌, ◌≤◌, ◌^◌};
ghost use Rattle.login_model.specs.Start.{seat0};
ghost use Rattle.login_model.specs.Where.{active_on};
ghost use Rattle.login_model.specs.declared.setup.Setup.{Setup as AnySetup};
ghost use Rattle.login_laws.specs.Shares.{most_share_rise, share, switch_share};
ghost use Rattle.login_laws.specs.Sound.{IsSound};
ghost use Rattle.login_core.specs.inner.Concerning.{AreActive};
ghost use Rattle.login_facts.specs.Counts.{HoldersAreThere};
ghost use Rattle.login_facts.specs.Owing.{owed};

use crate::board::Draft;
use crate::board::concerning::is_named;
use login_base::{ConnId, SeatName, SessId};
use login_model::{Key, Look};
use login_table::active_on;

/// By how many marks an event may raise the share of a connection that has not seat0's active session: for a session, a
/// lock or a device more.
const OTHER_SHARE_RISE: u64 = 4;

impl Draft {
    /// The session that is active on seat0.
    pub fn active(&self) -> Option<SessId>
        ensures { result ≡ active_on self.now.trail seat0 }
    {
        active_on(self, SeatName::SEAT0)
    }

    /// What the sessions and the locks of a connection make at its end.
    fn owed(&self, who: ConnId) -> u64
        ensures value { result ≡ owed self.now.trail who }
        ensures bound { result < 2 ^ 36 }
    {
        self.facts.owed(who)
    }

    /// The marks of a switch that may complete at a connection's end.
    fn switch_share(&self, who: ConnId) -> u64
        ensures value { HoldersAreThere self.now.trail → result ≡ switch_share who self.now.trail }
        ensures bound { result ≤ 2 ^ 34 }
    {
        if !self.fact(&Key::Pending).is_number() {
            return 0;
        }
        if is_named(&self.active_holders(), who) {
            4 * u64::from(self.counts().taken) + 4
        } else {
            0
        }
    }

    /// The share of a connection. It goes over no connection: what it rests on is kept beside the facts.
    pub fn share_of(&self, who: ConnId) -> u64
        ensures value { (U : AnySetup) → IsSound U self.now.trail → result ≡ share who self.now.trail }
        ensures bound { result < 2 ^ 37 }
    {
        1 + self.owed(who) + self.switch_share(who)
    }

    /// The most by which an event may raise the share of a connection. The others are who has the session that is active
    /// on seat0.
    pub fn most_share_rise(&self, active: &[Option<ConnId>], who: ConnId) -> u64
        requires { AreActive self.now.trail active.now }
        ensures value { HoldersAreThere self.now.trail → result ≡ most_share_rise who self.now.trail }
        ensures bound { result < 2 ^ 35 }
    {
        if is_named(active, who) {
            self.counts().active_share_rise()
        } else {
            OTHER_SHARE_RISE
        }
    }
}
