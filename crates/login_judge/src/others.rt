// A test of sessions by whose they are not.

ghost use Rattle.login_model.specs.declared.fact.Key.TheVariants.{Sess};
ghost use Rattle.login_model.specs.Facts.{is_other_user};
ghost use Rattle.login_model.specs.Trail.{value};

use login_base::SessId;
use login_model::{Key, Look};
use login_table::Test;

/// It is open, of the class of users, and another user's.
#[derive(Drop)]
pub(crate) struct OfAnother(pub u32);

impl Test<SessId> for OfAnother {
    ghost meets = { λ test t s. is_other_user test.0 (value t (Sess s)) };

    fn is_met<F: Look>(&self, facts: &F, session: SessId) -> bool {
        facts.fact(&Key::Sess(session)).is_other_user(self.0)
    }
}
