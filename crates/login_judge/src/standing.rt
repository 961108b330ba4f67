// How a connection stands, and what the policy says to it.

ghost use Rattle.std.specs.Prelude.{◌≡◌, ◌==◌, ◌∷◌, []};
ghost use Rattle.login_model.specs.Standing.{standing_of, standing};
ghost use Rattle.login_model.specs.Policy.{say, action_refused, action_challenge, first_broken, is_own, own_or_refused, own_or_challenge, meant_user, linger_action, uid_of};
ghost use Rattle.login_judge.specs.inner.Needed.{needed, objection};

use crate::session_calls::first_broken;
use login_base::ConnId;
use login_model::{Action, Key, Look, Rule, Say, Setup, Standing, Verdict};
use login_policy::ask;

/// How a user's connections stand.
#[tactic(auto, unfolding(login_model::specs::Standing::standing_of))]
fn standing_of<F: Look>(facts: &F, uid: u32) -> Standing
    ensures { result ≡ standing_of (F.trail facts.now) uid }
{
    if uid == 0 {
        Standing::Root
    } else if facts.is_active_user(uid) {
        Standing::Active
    } else if facts.is_seated(uid) {
        Standing::Inactive
    } else {
        Standing::Any
    }
}

/// How a connection stands to the machine's seats.
pub(crate) fn standing<F: Look>(facts: &F, who: ConnId) -> Standing
    ensures { result ≡ standing (F.trail facts.now) who }
{
    match facts.fact(&Key::Conn(who)).client() {
        Some(user) => standing_of(facts, user.0),
        None => Standing::Any,
    }
}

/// What the policy says to a connection's action.
fn say<F: Look>(facts: &F, setup: &Setup, who: ConnId, action: Action) -> Say
    ensures { result ≡ say setup.now (F.trail facts.now) who action }
{
    ask(&setup.table, action, standing(facts, who))
}

/// The rule that an action breaks by what the policy says to it.
fn objection(action: Action, said: Say) -> Option<Rule>
    ensures { result ≡ objection action said }
{
    match said {
        Say::Yes => None,
        Say::No => Some(Rule::ActionRefused(action)),
        Say::Challenge => Some(Rule::ActionChallenge(action)),
    }
}

/// The same of an action that is needed, or is not, of whoever stands so.
pub(crate) fn needed(
    setup: &Setup,
    standing: Standing,
    is_needed: bool,
    action: Action,
) -> Option<Rule>
    ensures { result ≡ needed is_needed setup.now standing action }
{
    if is_needed {
        objection(action, ask(&setup.table, action, standing))
    } else {
        None
    }
}

/// What the policy says to an action: granted, or denied by the rule that the action breaks.
#[tactic(auto, using(crate::proofs::Broken::either))]
pub(crate) fn judge_action<F: Look>(
    facts: &F,
    setup: &Setup,
    who: ConnId,
    action: Action,
) -> Verdict
    ensures { result ≡ first_broken (action_refused setup.now (F.trail facts.now) who action ∷ action_challenge setup.now (F.trail facts.now) who action ∷ []) }
{
    first_broken(&[objection(action, say(facts, setup, who, action))])
}

/// Whether a connection is connected and its user is this one.
pub(crate) fn is_own<F: Look>(facts: &F, who: ConnId, uid: u32) -> bool
    ensures { result ≡ is_own (F.trail facts.now) who uid }
{
    facts.fact(&Key::Conn(who)).is_client_of(uid)
}

/// The same for what belongs to a user, who needs no action for it.
pub(crate) fn judge_own<F: Look>(
    facts: &F,
    setup: &Setup,
    who: ConnId,
    uid: u32,
    action: Action,
) -> Verdict
    ensures { result ≡ first_broken (own_or_refused setup.now (F.trail facts.now) who uid action ∷ own_or_challenge setup.now (F.trail facts.now) who uid action ∷ []) }
{
    if is_own(facts, who, uid) {
        Verdict::Granted
    } else {
        judge_action(facts, setup, who, action)
    }
}

/// The number of no user, by which a call means the caller's own.
const NO_USER: u32 = u32::MAX;

/// The user of a caller, or that number where it is not connected.
pub fn uid_of<F: Look>(facts: &F, who: ConnId) -> u32
    ensures { result ≡ uid_of (F.trail facts.now) who }
{
    facts.fact(&Key::Conn(who)).client_or(NO_USER)
}

/// The user whom a call to linger means: the greatest number is the caller's own user.
pub fn meant_user<F: Look>(facts: &F, who: ConnId, uid: u32) -> u32
    ensures { result ≡ meant_user (F.trail facts.now) who uid }
{
    if uid == NO_USER {
        facts.fact(&Key::Conn(who)).client_or(uid)
    } else {
        uid
    }
}

/// The action that lingering takes.
pub(crate) fn linger_action<F: Look>(facts: &F, who: ConnId, uid: u32) -> Action
    ensures { result ≡ linger_action (F.trail facts.now) who uid }
{
    if is_own(facts, who, uid) {
        Action::SetSelfLinger
    } else {
        Action::SetUserLinger
    }
}
