// How seat0 goes to another virtual terminal.

ghost use Rattle.std.specs.Prelude.{◌≡◌};
ghost use Rattle.login_model.specs.Start.{seat0};
ghost use Rattle.login_model.specs.Where.{active_on};
ghost use Rattle.login_model.specs.Switching.{ask_getty, tell_change, arrive, move_to, complete, settle_switch};
ghost use Rattle.login_model.specs.Facts.{number_in_fact};
ghost use Rattle.login_model.specs.Trail.{value};
ghost use Rattle.switch_core.specs.inner.Ahead.{Fits, marked_by};
ghost use Rattle.switch_core.specs.Handles.{IsNumbered};
ghost use Rattle.switch_core.specs.inner.Keeping.{Keeps, is_switching};

use crate::ahead::Ahead;
use login_base::{SeatName, SessId};
use login_model::{Conf, Fact, Key, Look, Notice};

#[tactic(auto, using(crate::proofs::Growing::growing))]
impl<'a, F: Look> Ahead<'a, F> {
    /// A getty is asked for on a terminal without an open session, up to the number of the configuration.
    fn ask_getty(&mut self, conf: &Conf, vt: u32)
        requires stays { Keeps is_switching self.old.before self.old.trail }
        requires room { Fits (ask_getty conf.now vt) self.old }
        ensures marked { self.new ≡ marked_by (ask_getty conf.now vt) self.old }
    {
        if !self.on_terminal(vt).is_some() && vt <= conf.auto_vts {
            self.put_flag(Key::Getty(vt), true);
        }
    }

    /// All are told who was active on seat0 and who is, if there was one or is one.
    fn tell_change(&mut self, old: Option<SessId>, new: Option<SessId>)
        requires room { Fits (tell_change old new) self.old }
        ensures marked { self.new ≡ marked_by (tell_change old new) self.old }
    {
        match (old, new) {
            (None, None) => {}
            _ => self.tell_all(Notice::Active(SeatName::SEAT0, old, new)),
        }
    }

    /// The session that is active now goes on, after all are told.
    fn arrive(&mut self, old: Option<SessId>)
        requires stays { Keeps is_switching self.old.before self.old.trail }
        requires numbered { IsNumbered (arrive old self.old.trail) }
        requires room { Fits (arrive old) self.old }
        ensures marked { self.new ≡ marked_by (arrive old) self.old }
    {
        let new = self.active();
        self.tell_change(old, new);
        self.resume_some(new);
    }

    /// The terminal changes: the session that was active loses its devices, and the one that is gets them.
    pub fn move_to(&mut self, conf: &Conf, vt: u32, old: Option<SessId>)
        requires stays { Keeps is_switching self.old.before self.old.trail }
        requires numbered { IsNumbered (move_to conf.now vt old self.old.trail) }
        requires room { Fits (move_to conf.now vt old) self.old }
        ensures marked { self.new ≡ marked_by (move_to conf.now vt old) self.old }
    {
        self.force_some(old);
        self.put_number(Key::Vt, vt);
        self.put_absent(Key::Pending);
        self.ask_getty(conf, vt);
        self.arrive(old);
    }

    /// The terminal changes: the session that is active loses its devices, and the one that is on the terminal gets
    /// its.
    pub fn move_now(&mut self, conf: &Conf, vt: u32)
        requires stays { Keeps is_switching self.old.before self.old.trail }
        requires numbered { IsNumbered (move_to conf.now vt (active_on self.old.trail seat0) self.old.trail) }
        requires room { Fits (λ t. move_to conf.now vt (active_on t seat0) t) self.old }
        ensures marked { self.new ≡ marked_by (λ t. move_to conf.now vt (active_on t seat0) t) self.old }
    {
        let old = self.active();
        self.move_to(conf, vt, old);
    }
}
