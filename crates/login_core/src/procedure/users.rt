// How users become known and are forgotten.

ghost use Rattle.std.specs.Prelude.{◌≡◌};
ghost use Rattle.login_model.specs.Trail.{put};
ghost use Rattle.login_model.specs.Procedure.{tell_new_user, know, forget};
ghost use Rattle.login_core.specs.inner.HandedOn.{absent_or_known};
ghost use Rattle.login_model.specs.Facts.{is_absent};
ghost use Rattle.login_core.specs.inner.Draft.{marked_by, Fits};

use crate::board::Draft;
use login_base::{Millis, Uid};
use login_model::{Fact, Key, Look, Notice};

#[tactic(auto, using(crate::proofs::Growing::growing))]
impl Draft {
    /// All are told of a user who was absent.
    fn tell_new_user(&mut self, user: Uid, was_absent: bool)
        requires room { Fits (tell_new_user user (absent_or_known was_absent)) self.old }
        ensures marked { self.new ≡ marked_by (tell_new_user user (absent_or_known was_absent)) self.old }
    {
        if was_absent {
            self.tell_all(Notice::UserNew(user));
        }
    }

    /// A user is known.
    pub fn put_known(&mut self, user: Uid)
        requires room { Fits (put (Key.User user) Fact.Known) self.old }
        ensures marked { self.new ≡ marked_by (put (Key.User user) Fact.Known) self.old }
    {
        self.put(Key::User(user), Fact::Known, Fact::Known);
    }

    /// A user is leaving, since a moment.
    pub fn put_leaving(&mut self, user: Uid, since: Millis)
        requires room { Fits (put (Key.User user) (Fact.Leaving since)) self.old }
        ensures marked { self.new ≡ marked_by (put (Key.User user) (Fact.Leaving since)) self.old }
    {
        self.put(Key::User(user), Fact::Leaving(since), Fact::Leaving(since));
    }

    /// A user becomes known, and all are told where the user was absent.
    pub fn know(&mut self, user: Uid)
        requires room { Fits (know user) self.old }
        ensures marked { self.new ≡ marked_by (know user) self.old }
    {
        let was_absent = self.fact(&Key::User(user)).is_absent();
        self.put_known(user);
        self.tell_new_user(user, was_absent);
    }

    /// A user is absent, and all are told.
    pub fn forget(&mut self, user: Uid)
        requires room { Fits (forget user) self.old }
        ensures marked { self.new ≡ marked_by (forget user) self.old }
    {
        self.put_absent(Key::User(user));
        self.tell_all(Notice::UserRemoved(user));
    }
}
