// Operations on the machine: the verdict on asking for one, and whether a caller can have it.

ghost use Rattle.std.specs.Prelude.{◌≡◌, ◌∷◌, ◌++◌, ◌||◌, not};
ghost use Rattle.login_model.specs.declared.action.Action.TheVariants.{Power};
ghost use Rattle.login_model.specs.Action.{power_action};
ghost use Rattle.login_model.specs.Answers.{can, less, said_if};
ghost use Rattle.login_model.specs.Policy.{first_broken, for_others, has_others, in_progress, inhibited, is_yes, may_pass, needs, no_job, past_locks, plain, power_rules, unless, uid_of};
ghost use Rattle.login_model.specs.Power.{is_blocked};
ghost use Rattle.login_judge.specs.inner.Needed.{needs_by, said};

use crate::fits::broken_if;
use crate::locks::inhibited;
use crate::others::OfAnother;
use crate::session_calls::first_broken;
use crate::standing::{needed, standing, uid_of};
use login_base::ConnId;
use login_model::{Action, Key, Look, OpKind, Qualifier, Rule, Say, Setup, Standing, Verdict};
use login_policy::ask;
use login_table::find_session;

pub(crate) fn in_progress<F: Look>(facts: &F) -> Option<Rule>
    ensures { result ≡ in_progress (F.trail facts.now) }
{
    match facts.fact(&Key::Op).under_way() {
        Some(kind) => Some(Rule::OperationInProgress(kind)),
        None => None,
    }
}

pub(crate) fn no_job<F: Look>(facts: &F) -> Option<Rule>
    ensures { result ≡ no_job (F.trail facts.now) }
{
    broken_if(!facts.fact(&Key::Op).running().is_some(), Rule::NoJob)
}

/// Whether another user has an open session of the class of users.
fn has_others<F: Look>(facts: &F, uid: u32) -> bool
    ensures { result ≡ has_others (F.trail facts.now) uid }
{
    find_session(facts, &OfAnother(uid)).is_some()
}

/// The action that an operation needs with this in its way.
fn action_of(kind: OpKind, qualifier: Qualifier) -> Action
    ensures { result ≡ Power (power_action kind) qualifier }
{
    Action::Power(kind.into(), qualifier)
}

/// Whether whoever stands so may pass the locks that block an operation.
fn may_pass(setup: &Setup, standing: Standing, kind: OpKind) -> bool
    ensures { result ≡ is_yes (said setup.now standing (past_locks kind)) }
{
    ask(
        &setup.table,
        action_of(kind, Qualifier::IgnoreInhibit),
        standing,
    ) == Say::Yes
}

/// The rules of an operation that are looked at last: of the lowest lock that blocks it, or of the action that
/// it needs with nothing in its way.
fn judge_way<F: Look>(
    facts: &F,
    setup: &Setup,
    standing: Standing,
    kind: OpKind,
    others: bool,
) -> Verdict
    ensures { result ≡ first_broken (unless (is_yes (said setup.now standing (past_locks kind))) (inhibited (F.trail facts.now) kind) ∷ needs_by (not (others || is_blocked (F.trail facts.now) kind)) setup.now standing (plain kind)) }
{
    match inhibited(facts, kind) {
        Some(_) if may_pass(setup, standing, kind) => Verdict::Granted,
        Some(rule) => Verdict::Denied(rule),
        None => first_broken(&[needed(
            setup,
            standing,
            !others,
            action_of(kind, Qualifier::Plain),
        )]),
    }
}

/// The rules of an operation where none is under way.
fn judge_begin<F: Look>(facts: &F, setup: &Setup, who: ConnId, kind: OpKind) -> Verdict
    ensures { result ≡ first_broken (needs (has_others (F.trail facts.now) (uid_of (F.trail facts.now) who)) setup.now (F.trail facts.now) who (for_others kind)
        ++ unless (may_pass setup.now (F.trail facts.now) who kind) (inhibited (F.trail facts.now) kind)
        ∷ needs (not (has_others (F.trail facts.now) (uid_of (F.trail facts.now) who) || is_blocked (F.trail facts.now) kind)) setup.now (F.trail facts.now) who (plain kind)) }
{
    let standing = standing(facts, who);
    let others = has_others(facts, uid_of(facts, who));
    let action = action_of(kind, Qualifier::MultipleSessions);
    match first_broken(&[needed(setup, standing, others, action)]) {
        Verdict::Granted => judge_way(facts, setup, standing, kind, others),
        denied => denied,
    }
}

pub(crate) fn judge_power<F: Look>(facts: &F, setup: &Setup, who: ConnId, kind: OpKind) -> Verdict
    ensures { result ≡ first_broken (power_rules setup.now (F.trail facts.now) who kind) }
{
    match first_broken(&[in_progress(facts)]) {
        Verdict::Granted => judge_begin(facts, setup, who, kind),
        denied => denied,
    }
}

/// Of two answers of the policy, the one that allows less.
fn less(one: Say, other: Say) -> Say
    ensures { result ≡ less one other }
{
    match (one, other) {
        (Say::No, _) | (Say::Challenge, Say::No) => Say::No,
        (Say::Challenge, _) => Say::Challenge,
        (Say::Yes, other) => other,
    }
}

/// What the policy says to an action that is needed, or is not.
fn said_if(setup: &Setup, standing: Standing, is_needed: bool, action: Action) -> Say
    ensures { result ≡ said_if is_needed (said setup.now standing action) }
{
    if is_needed {
        ask(&setup.table, action, standing)
    } else {
        Say::Yes
    }
}

/// What the policy says to passing the locks that block an operation, or to the action that it needs with
/// nothing in its way.
fn way<F: Look>(facts: &F, setup: &Setup, standing: Standing, kind: OpKind, others: bool) -> Say
    ensures { result ≡ less (said_if (is_blocked (F.trail facts.now) kind) (said setup.now standing (past_locks kind)))
        (said_if (not (others || is_blocked (F.trail facts.now) kind)) (said setup.now standing (plain kind))) }
{
    if inhibited(facts, kind).is_some() {
        ask(
            &setup.table,
            action_of(kind, Qualifier::IgnoreInhibit),
            standing,
        )
    } else {
        said_if(setup, standing, !others, action_of(kind, Qualifier::Plain))
    }
}

/// Whether a caller can have an operation: what the policy says to each action that it needs now, where another
/// one that is under way is not looked at.
pub fn can<F: Look>(facts: &F, setup: &Setup, who: ConnId, kind: OpKind) -> Say
    ensures { result ≡ can setup.now (F.trail facts.now) who kind }
{
    let standing = standing(facts, who);
    let others = has_others(facts, uid_of(facts, who));
    let action = action_of(kind, Qualifier::MultipleSessions);
    match said_if(setup, standing, others, action) {
        Say::No => Say::No,
        said => less(said, way(facts, setup, standing, kind, others)),
    }
}
