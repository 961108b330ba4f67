// How operations are asked for, by a call or by a key.

ghost use Rattle.std.specs.Prelude.{◌≡◌};
ghost use Rattle.login_model.specs.Direct.{press};
ghost use Rattle.login_model.specs.Power.{ask_operation, is_blocked, key_action};
ghost use Rattle.login_core.specs.inner.Draft.{marked_by, Fits};

use crate::board::Draft;
use keys_lid::action_of;
use login_model::{HardKey, Key, KeyAction, LockMode, Look, OpKind, Setup};

#[tactic(auto, using(crate::proofs::Growing::growing))]
impl Draft {
    /// Whether a lock blocks an operation.
    fn is_blocked(&self, kind: OpKind) -> bool
        ensures { result ≡ is_blocked self.now.trail kind }
    {
        self.is_held_up(kind, LockMode::Block)
    }

    /// An operation is asked for, past the locks that block it now, if there are any.
    pub fn power(&mut self, kind: OpKind)
        requires room { Fits (λ t. ask_operation kind (is_blocked t kind) t) self.old }
        ensures marked { self.new ≡ marked_by (λ t. ask_operation kind (is_blocked t kind) t) self.old }
    {
        let skip = self.is_blocked(kind);
        self.ask_operation(kind, skip);
    }

    fn act(&mut self, action: KeyAction)
        requires room { Fits (press action) self.old }
        ensures marked { self.new ≡ marked_by (press action) self.old }
    {
        match action {
            KeyAction::Ignore => {}
            KeyAction::Lock => self.lock_all(),
            KeyAction::Operation(kind) => self.power(kind),
        }
    }

    /// A key is pressed, or the lid closed.
    pub fn press(&mut self, setup: &Setup, key: HardKey)
        requires room { Fits (λ t. press (key_action setup.now t key) t) self.old }
        ensures marked { self.new ≡ marked_by (λ t. press (key_action setup.now t key) t) self.old }
    {
        let is_docked = self.fact(&Key::Docked).is_set();
        self.act(action_of(&setup.conf, key, is_docked));
    }
}
