// The verdict on a key of the machine, or on the lid being closed.

ghost use Rattle.std.specs.Prelude.{◌≡◌, ◌∷◌, []};
ghost use Rattle.login_model.specs.Policy.{first_broken, in_progress, inhibited, key_inhibited, key_rules, unless};
ghost use Rattle.login_model.specs.Power.{key_action, passes_locks};

use crate::locks::{inhibited, key_inhibited};
use crate::operations::in_progress;
use crate::session_calls::first_broken;
use keys_lid::{action_of, passes_locks};
use login_model::{HardKey, Key, KeyAction, Look, OpKind, Rule, Setup, Verdict};

/// What a key brings about now.
fn key_action<F: Look>(facts: &F, setup: &Setup, key: HardKey) -> KeyAction
    ensures { result ≡ key_action setup.now (F.trail facts.now) key }
{
    action_of(&setup.conf, key, facts.fact(&Key::Docked).is_set())
}

/// A lock blocks the operation of a key, unless the key passes such locks.
fn operation_inhibited<F: Look>(
    facts: &F,
    setup: &Setup,
    key: HardKey,
    kind: OpKind,
) -> Option<Rule>
    ensures { result ≡ unless (passes_locks setup.now.conf key) (inhibited (F.trail facts.now) kind) }
{
    if passes_locks(&setup.conf, key) {
        None
    } else {
        inhibited(facts, kind)
    }
}

/// A key that asks for an operation.
fn judge_operation<F: Look>(facts: &F, setup: &Setup, key: HardKey, kind: OpKind) -> Verdict
    ensures { result ≡ first_broken (key_inhibited (F.trail facts.now) key ∷ in_progress (F.trail facts.now) ∷ unless (passes_locks setup.now.conf key) (inhibited (F.trail facts.now) kind) ∷ []) }
{
    match first_broken(&[key_inhibited(facts, key), in_progress(facts)]) {
        Verdict::Granted => first_broken(&[operation_inhibited(facts, setup, key, kind)]),
        denied => denied,
    }
}

pub(crate) fn judge_key<F: Look>(facts: &F, setup: &Setup, key: HardKey) -> Verdict
    ensures { result ≡ first_broken (key_rules setup.now (F.trail facts.now) key (key_action setup.now (F.trail facts.now) key)) }
{
    match key_action(facts, setup, key) {
        KeyAction::Ignore => Verdict::Denied(Rule::KeyIgnored),
        KeyAction::Lock => first_broken(&[key_inhibited(facts, key)]),
        KeyAction::Operation(kind) => judge_operation(facts, setup, key, kind),
    }
}
