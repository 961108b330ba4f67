// The rules of calls about properties, and of those that ask for the owner of a name.

ghost use Rattle.std.specs.Prelude.{◌≡◌, ◌∷◌, []};
ghost use Rattle.login_model.specs.Objects.{named_object};
ghost use Rattle.login_model.specs.Policy.{absent_object, first_broken, get_all_rules, get_rules, no_owner, on_object, set_rules, unknown_property};

use crate::fits::broken_if;
use crate::places::{absent_user, no_such_seat, no_such_session};
use crate::session_calls::first_broken;
use login_base::Word;
use login_model::{Look, Object, PropertyName, Rule, Verdict, named_object};

/// The name that the login manager owns.
const OWN_NAME: &[u8] = b"org.freedesktop.login1";

fn absent_object<F: Look>(facts: &F, object: &Object) -> Option<Rule>
    ensures { result ≡ absent_object (F.trail facts.now) object.now }
{
    match object {
        Object::Manager => None,
        Object::Session(session) => no_such_session(facts, *session),
        Object::Seat(seat) => no_such_seat(facts, seat.as_slice()),
        Object::User(uid) => absent_user(facts, uid.0),
    }
}

fn unknown_property(object: &Object, x: &PropertyName) -> Option<Rule>
    ensures { result ≡ unknown_property object.now x.now }
{
    let is_known = object.has_property(x.interface.as_slice(), x.name.as_slice());
    broken_if(!is_known, Rule::UnknownProperty)
}

pub(crate) fn judge_get<F: Look>(facts: &F, x: &PropertyName) -> Verdict
    ensures { result ≡ first_broken (on_object (get_rules (F.trail facts.now) x.now) (named_object x.now.path)) }
{
    match named_object(x.path.as_slice()) {
        Ok(object) => first_broken(&[absent_object(facts, &object), unknown_property(&object, x)]),
        Err(rule) => Verdict::Denied(rule),
    }
}

pub(crate) fn judge_get_all<F: Look>(facts: &F, path: &Word) -> Verdict
    ensures { result ≡ first_broken (on_object (get_all_rules (F.trail facts.now)) (named_object path.now)) }
{
    match named_object(path.as_slice()) {
        Ok(object) => first_broken(&[absent_object(facts, &object)]),
        Err(rule) => Verdict::Denied(rule),
    }
}

pub(crate) fn judge_set<F: Look>(facts: &F, x: &PropertyName) -> Verdict
    ensures { result ≡ first_broken (on_object (set_rules (F.trail facts.now) x.now) (named_object x.now.path)) }
{
    match named_object(x.path.as_slice()) {
        Ok(object) => first_broken(&[
            absent_object(facts, &object),
            unknown_property(&object, x),
            Some(Rule::ReadOnlyProperty),
        ]),
        Err(rule) => Verdict::Denied(rule),
    }
}

pub(crate) fn judge_owner(name: &Word) -> Verdict
    ensures { result ≡ first_broken (no_owner name.now ∷ []) }
{
    first_broken(&[broken_if(name.as_slice() != OWN_NAME, Rule::Nobody)])
}
