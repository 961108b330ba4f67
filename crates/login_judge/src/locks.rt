// Inhibitor locks: which one stands in the way, and the verdict on asking for one.

ghost use Rattle.std.specs.Prelude.{◌≡◌, ◌∷◌, [], ◌++◌, nat_le, length};
ghost use Rattle.login_model.specs.Policy.{cannot_delay, delay_not_offered, first_broken, inhibit_rules, inhibited, key_inhibited, lock_in_progress, meets, shutdown_action, sleep_action, too_many_locks, word_rules};
ghost use Rattle.login_model.specs.Where.{locks};

use crate::fits::broken_if;
use crate::session_calls::first_broken;
use crate::standing::{needed, standing};
use login_base::ConnId;
use login_model::{
    Action, HardKey, Inhibited, Inhibition, Key, Limit, LockMode, Look, OpKind, Rule, Setup,
    Verdict,
};
use login_table::{key_lock, matching_lock};

#[tactic(auto, using(crate::proofs::Lowest::first_lock_is))]
pub(crate) fn inhibited<F: Look>(facts: &F, kind: OpKind) -> Option<Rule>
    ensures { result ≡ inhibited (F.trail facts.now) kind }
{
    if facts.is_held_up(kind, LockMode::Block) {
        match matching_lock(facts, kind, LockMode::Block) {
            Some(lock) => Some(Rule::Inhibited(lock)),
            None => None,
        }
    } else {
        None
    }
}

/// By a lock of any mode that takes the key from the login manager.
#[tactic(auto, using(crate::proofs::Lowest::first_lock_is))]
pub(crate) fn key_inhibited<F: Look>(facts: &F, key: HardKey) -> Option<Rule>
    ensures { result ≡ key_inhibited (F.trail facts.now) key }
{
    match key_lock(facts, key) {
        Some(lock) => Some(Rule::Inhibited(lock)),
        None => None,
    }
}

/// Whether a lock of this mode cannot hold up all that it names.
fn cannot_delay(mode: LockMode, what: Inhibited) -> bool
    ensures { result ≡ cannot_delay mode what }
{
    match mode {
        LockMode::Delay => what.names_more(),
        LockMode::Block => false,
    }
}

fn delay_not_offered(mode: LockMode, what: Inhibited) -> Option<Rule>
    ensures { result ≡ delay_not_offered mode what }
{
    broken_if(cannot_delay(mode, what), Rule::DelayNotOffered)
}

/// A lock comes too late for an operation that it would hold up.
fn meets(what: Inhibited, under_way: Option<OpKind>) -> Option<Rule>
    ensures { result ≡ meets what under_way }
{
    match under_way {
        Some(kind) => broken_if(what.holds_up(kind), Rule::OperationInProgress(kind)),
        None => None,
    }
}

fn lock_in_progress<F: Look>(facts: &F, what: Inhibited) -> Option<Rule>
    ensures { result ≡ lock_in_progress (F.trail facts.now) what }
{
    meets(what, facts.fact(&Key::Op).under_way())
}

/// Whether at least so many locks stand.
fn are_locks_full<F: Look>(facts: &F, most: u32) -> bool
    ensures { result ≡ nat_le most (length (locks (F.trail facts.now))) }
{
    facts.lock_count() >= most
}

fn too_many_locks<F: Look>(facts: &F, setup: &Setup) -> Option<Rule>
    ensures { result ≡ too_many_locks setup.now (F.trail facts.now) }
{
    let most = setup.conf.inhibitors_max;
    broken_if(
        are_locks_full(facts, most),
        Rule::Limit(Limit::Inhibitors(most)),
    )
}

fn shutdown_action(mode: LockMode) -> Action
    ensures { result ≡ shutdown_action mode }
{
    match mode {
        LockMode::Block => Action::InhibitBlockShutdown,
        LockMode::Delay => Action::InhibitDelayShutdown,
    }
}

fn sleep_action(mode: LockMode) -> Action
    ensures { result ≡ sleep_action mode }
{
    match mode {
        LockMode::Block => Action::InhibitBlockSleep,
        LockMode::Delay => Action::InhibitDelaySleep,
    }
}

/// The action of each word, in order.
fn judge_words<F: Look>(
    facts: &F,
    setup: &Setup,
    who: ConnId,
    mode: LockMode,
    what: Inhibited,
) -> Verdict
    ensures { result ≡ first_broken (word_rules setup.now (F.trail facts.now) who mode what) }
{
    let standing = standing(facts, who);
    first_broken(&[
        needed(setup, standing, what.shutdown, shutdown_action(mode)),
        needed(setup, standing, what.sleep, sleep_action(mode)),
        needed(setup, standing, what.idle, Action::InhibitBlockIdle),
        needed(
            setup,
            standing,
            what.handle_power_key,
            Action::InhibitHandlePowerKey,
        ),
        needed(
            setup,
            standing,
            what.handle_suspend_key,
            Action::InhibitHandleSuspendKey,
        ),
        needed(
            setup,
            standing,
            what.handle_hibernate_key,
            Action::InhibitHandleHibernateKey,
        ),
        needed(
            setup,
            standing,
            what.handle_lid_switch,
            Action::InhibitHandleLidSwitch,
        ),
    ])
}

/// The rules of a lock that can be held: the actions, the operation under way, and how many stand.
fn judge_hold<F: Look>(
    facts: &F,
    setup: &Setup,
    who: ConnId,
    mode: LockMode,
    what: Inhibited,
) -> Verdict
    ensures { result ≡ first_broken (word_rules setup.now (F.trail facts.now) who mode what ++ lock_in_progress (F.trail facts.now) what ∷ too_many_locks setup.now (F.trail facts.now) ∷ []) }
{
    match judge_words(facts, setup, who, mode, what) {
        Verdict::Granted => first_broken(&[
            lock_in_progress(facts, what),
            too_many_locks(facts, setup),
        ]),
        denied => denied,
    }
}

/// The verdict where the words are none of a lock.
const BAD_ARGUMENTS: Verdict = Verdict::Denied(Rule::BadArguments);

pub(crate) fn judge_inhibit<F: Look>(
    facts: &F,
    setup: &Setup,
    who: ConnId,
    inhibition: &Inhibition,
) -> Verdict
    ensures { result ≡ first_broken (inhibit_rules setup.now (F.trail facts.now) who inhibition.now) }
{
    let Some(what) = Inhibited::read(inhibition.what.as_slice()) else {
        return BAD_ARGUMENTS;
    };
    let Some(mode) = LockMode::read(inhibition.mode.as_slice()) else {
        return BAD_ARGUMENTS;
    };
    match first_broken(&[delay_not_offered(mode, what)]) {
        Verdict::Granted => judge_hold(facts, setup, who, mode, what),
        denied => denied,
    }
}
