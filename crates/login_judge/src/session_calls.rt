// Verdicts on calls on a session that is named.

ghost use Rattle.std.specs.Prelude.{◌≡◌, ◌∷◌, []};
ghost use Rattle.login_model.specs.Policy.{no_leader, own_or_refused, own_or_challenge, session_uid, on_session, only_session, activate_rules, activate_on_rules, lock_rules, kill_rules, terminate_rules, hint_rules, control_rules, uncontrol_rules, first_broken};

use crate::fits::{bad_arguments, is_signal, is_whom};
use crate::owners::{control_rule, no_leader, not_in_control, not_owner, session_uid};
use crate::places::{no_seat, no_such_seat, no_such_session, session_closing, session_not_on_seat};
use crate::standing::judge_own;
use login_base::{ConnId, SessId, Word};
use login_model::{Action, Look, Rule, Setup, Verdict};

/// Denied by the first rule that is broken.
pub(crate) fn first_broken(rules: &[Option<Rule>]) -> Verdict
    ensures { result ≡ first_broken rules.now }
{
    for rule in rules {
        if let Some(rule) = rule {
            return Verdict::Denied(*rule);
        }
    }
    Verdict::Granted
}

/// The verdict where the id is none of a session.
pub(crate) const NO_SESSION: Verdict = Verdict::Denied(Rule::NoSuchSession);

pub(crate) fn judge_only<F: Look>(facts: &F, session: Option<SessId>) -> Verdict
    ensures { result ≡ first_broken (on_session (only_session (F.trail facts.now)) session) }
{
    let Some(session) = session else {
        return NO_SESSION;
    };
    first_broken(&[no_such_session(facts, session)])
}

pub(crate) fn judge_activate<F: Look>(
    facts: &F,
    setup: &Setup,
    who: ConnId,
    session: Option<SessId>,
) -> Verdict
    ensures { result ≡ first_broken (on_session (activate_rules setup.now (F.trail facts.now) who) session) }
{
    let Some(session) = session else {
        return NO_SESSION;
    };
    match first_broken(&[
        no_such_session(facts, session),
        session_closing(facts, session),
        no_seat(facts, session),
    ]) {
        Verdict::Granted => judge_own(
            facts,
            setup,
            who,
            session_uid(facts, session),
            Action::ChangeVt,
        ),
        denied => denied,
    }
}

pub(crate) fn judge_activate_on<F: Look>(
    facts: &F,
    setup: &Setup,
    who: ConnId,
    session: Option<SessId>,
    seat: &Word,
) -> Verdict
    ensures { result ≡ first_broken (on_session (activate_on_rules setup.now (F.trail facts.now) who seat.now) session) }
{
    let Some(session) = session else {
        return NO_SESSION;
    };
    match first_broken(&[
        no_such_session(facts, session),
        no_such_seat(facts, seat.as_slice()),
        session_closing(facts, session),
        session_not_on_seat(facts, session, seat.as_slice()),
    ]) {
        Verdict::Granted => judge_own(
            facts,
            setup,
            who,
            session_uid(facts, session),
            Action::ChangeVt,
        ),
        denied => denied,
    }
}

/// Locking and unlocking.
pub(crate) fn judge_lock<F: Look>(
    facts: &F,
    setup: &Setup,
    who: ConnId,
    session: Option<SessId>,
) -> Verdict
    ensures { result ≡ first_broken (on_session (lock_rules setup.now (F.trail facts.now) who) session) }
{
    let Some(session) = session else {
        return NO_SESSION;
    };
    match first_broken(&[
        no_such_session(facts, session),
        session_closing(facts, session),
    ]) {
        Verdict::Granted => judge_own(
            facts,
            setup,
            who,
            session_uid(facts, session),
            Action::LockSessions,
        ),
        denied => denied,
    }
}

/// The rules of a signal that are looked at last: the action that it takes, and whether the leader is there.
fn judge_kill_own<F: Look>(
    facts: &F,
    setup: &Setup,
    who: ConnId,
    session: SessId,
    whom: &Word,
) -> Verdict
    ensures { result ≡ first_broken (own_or_refused setup.now (F.trail facts.now) who (session_uid (F.trail facts.now) session) Action.Manage ∷ own_or_challenge setup.now (F.trail facts.now) who (session_uid (F.trail facts.now) session) Action.Manage ∷ no_leader (F.trail facts.now) session whom.now ∷ []) }
{
    match judge_own(
        facts,
        setup,
        who,
        session_uid(facts, session),
        Action::Manage,
    ) {
        Verdict::Granted => first_broken(&[no_leader(facts, session, whom)]),
        denied => denied,
    }
}

pub(crate) fn judge_kill<F: Look>(
    facts: &F,
    setup: &Setup,
    who: ConnId,
    session: Option<SessId>,
    whom: &Word,
    signal: i32,
) -> Verdict
    ensures { result ≡ first_broken (on_session (kill_rules setup.now (F.trail facts.now) who whom.now signal) session) }
{
    let Some(session) = session else {
        return NO_SESSION;
    };
    match first_broken(&[
        no_such_session(facts, session),
        bad_arguments(is_whom(whom) && is_signal(signal)),
    ]) {
        Verdict::Granted => judge_kill_own(facts, setup, who, session, whom),
        denied => denied,
    }
}

pub(crate) fn judge_terminate<F: Look>(
    facts: &F,
    setup: &Setup,
    who: ConnId,
    session: Option<SessId>,
) -> Verdict
    ensures { result ≡ first_broken (on_session (terminate_rules setup.now (F.trail facts.now) who) session) }
{
    let Some(session) = session else {
        return NO_SESSION;
    };
    match first_broken(&[no_such_session(facts, session)]) {
        Verdict::Granted => judge_own(
            facts,
            setup,
            who,
            session_uid(facts, session),
            Action::Manage,
        ),
        denied => denied,
    }
}

/// The hints that a session gives.
pub(crate) fn judge_hint<F: Look>(facts: &F, who: ConnId, session: Option<SessId>) -> Verdict
    ensures { result ≡ first_broken (on_session (hint_rules (F.trail facts.now) who) session) }
{
    let Some(session) = session else {
        return NO_SESSION;
    };
    first_broken(&[
        no_such_session(facts, session),
        session_closing(facts, session),
        not_owner(facts, who, session),
    ])
}

pub(crate) fn judge_control<F: Look>(
    facts: &F,
    who: ConnId,
    session: Option<SessId>,
    force: bool,
) -> Verdict
    ensures { result ≡ first_broken (on_session (control_rules force (F.trail facts.now) who) session) }
{
    let Some(session) = session else {
        return NO_SESSION;
    };
    first_broken(&[
        no_such_session(facts, session),
        session_closing(facts, session),
        not_owner(facts, who, session),
        control_rule(facts, force, who, session),
    ])
}

pub(crate) fn judge_uncontrol<F: Look>(facts: &F, who: ConnId, session: Option<SessId>) -> Verdict
    ensures { result ≡ first_broken (on_session (uncontrol_rules (F.trail facts.now) who) session) }
{
    let Some(session) = session else {
        return NO_SESSION;
    };
    first_broken(&[
        no_such_session(facts, session),
        not_in_control(facts, who, session),
    ])
}
