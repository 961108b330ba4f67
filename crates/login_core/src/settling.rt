// What an event does with its verdict, and what follows from it.

ghost use Rattle.std.specs.Prelude.{◌≡◌, true};
ghost use Rattle.login_model.specs.Direct.{direct};
ghost use Rattle.login_model.specs.Legal.{stepped};
ghost use Rattle.login_model.specs.Policy.{verdict as policy_verdict};
ghost use Rattle.login_model.specs.Settle.{settle};
ghost use Rattle.login_laws.specs.Sound.{Awaits, IsSound};
ghost use Rattle.login_core.specs.Ready.{AreReady};
ghost use Rattle.login_core.specs.inner.Spares.{HaveTexts};
ghost use Rattle.login_core.specs.inner.Draft.{marked_by, Fits};
ghost use Rattle.login_facts.specs.Dues.{CallerIsKnown};

use crate::board::Draft;
use crate::room::texts::Texts;
use login_model::{Event, Setup, Verdict};

#[tactic(auto, using(crate::proofs::Growing::growing))]
impl Draft {
    /// What follows from a granted event: a switch that is pending completes once nothing holds it up, and then an
    /// operation that waits runs.
    fn settle(&mut self, setup: &Setup)
        requires awaits { Awaits self.old.trail }
        requires room { Fits (settle setup.now) self.old }
        ensures marked { self.new ≡ marked_by (settle setup.now) self.old }
    {
        self.settle_switch(&setup.conf);
        self.settle_operation(&setup.conf);
    }

    /// What a granted event does, with what follows from it.
    fn grant(&mut self, setup: &Setup, event: &Event, texts: &mut Texts)
        requires granted { policy_verdict setup.now self.old.trail event.now ≡ Verdict.Granted }
        requires known { CallerIsKnown event.now self.old.trail }
        requires sound { IsSound setup.now self.old.trail }
        requires awaits { Awaits (direct setup.now event.now self.old.trail) }
        requires ready { AreReady event.now texts.old }
        requires texts { HaveTexts texts.old self.old.trail }
        requires room { Fits (λ t. settle setup.now (direct setup.now event.now t)) self.old }
        ensures marked { self.new ≡ marked_by (λ t. settle setup.now (direct setup.now event.now t)) self.old }
        ensures texts { HaveTexts texts.new self.new.trail }
    {
        self.direct(setup, event, texts);
        self.settle(setup);
    }

    /// What an event does with its verdict: a denied one does nothing.
    pub fn perform(&mut self, setup: &Setup, event: &Event, verdict: Verdict, texts: &mut Texts)
        requires verdict { verdict ≡ policy_verdict setup.now self.old.trail event.now }
        requires known { CallerIsKnown event.now self.old.trail }
        requires sound { IsSound setup.now self.old.trail }
        requires awaits { verdict ≡ Verdict.Granted → Awaits (direct setup.now event.now self.old.trail) }
        requires ready { AreReady event.now texts.old }
        requires texts { HaveTexts texts.old self.old.trail }
        requires room { Fits (stepped setup.now verdict event.now) self.old }
        ensures marked { self.new ≡ marked_by (stepped setup.now verdict event.now) self.old }
        ensures texts { HaveTexts texts.new self.new.trail }
    {
        match verdict {
            Verdict::Granted => self.grant(setup, event, texts),
            Verdict::Denied(_) => {}
        }
    }
}
